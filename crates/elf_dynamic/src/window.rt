//! Windows of a file: bytes that were read and are kept, so that nearby bytes aren't read again.
ghost use Rattle.std.specs.Prelude.{◌≡◌, ◌≤◌, ◌<◌, ◌+◌, ◌-◌, min, length, take, drop, OnOk};
ghost use Rattle.elf_headers.specs.Reading.{OfKnown, TakesAtMost, reading_ending, OnlyReads, IsHeadOf};
ghost use Rattle.elf_dynamic.specs.Windows.{ready, part, unread, IsWindowOf, IsAsked, ReadsThrough, HoldsFrom};
ghost use Rattle.elf_dynamic.specs.declared.window.TheConstants.{WINDOW};

use elf_headers::kinds::Head;
use lib_types::Failed;
use tree_face::Store;

/// The maximum size of a window. In most libraries the headers, the section and the string table each fit in one window.
/// A larger window would cost time for each library, because its bytes are cleared.
pub(crate) const WINDOW: usize = 1024;

/// A window of the file.
#[derive(Drop)]
pub struct Window {
    // The offset of the window in the file, and the number of bytes of the file that it holds.
    at: u64,
    count: usize,
    bytes: [u8; WINDOW],
}

// Fills a piece with the bytes of the file from an offset on.
fn read_piece<S: Store>(store: &mut S, head: &Head, at: u64, piece: &mut [u8]) -> Result<(), Failed>
    requires head { IsHeadOf (S.state store.old) head.now }
    requires within { at + length piece.old ≤ head.now.length }
    ensures piece { OnOk result (OfKnown (S.state store.old) (λ bytes. piece.new ≡ take (length piece.old) (drop at bytes))) }
    ensures begun_head { IsHeadOf (S.state store.new) head.now }
    ensures reads { OnlyReads (reading_ending result) (S.state store.old) (S.state store.new) }
    ensures taken { TakesAtMost (length piece.old) (S.state store.old) (S.state store.new) }
{
    store.read_at(at, piece)?;
    Ok(())
}

impl Window {
    /// A window that holds nothing.
    pub fn new() -> Window
        ensures begin { result.at ≡ 0 }
        ensures count { result.count ≡ 0 }
        ensures room { length result.bytes ≡ WINDOW }
    {
        Window {
            at: 0,
            count: 0,
            bytes: [0; WINDOW],
        }
    }

    /// The number of bytes that the window holds from an offset on.
    #[tactic(auto, unfolding(crate::specs::Windows::ready))]
    pub fn ready(&self, at: u64) -> u64
        ensures { result ≡ ready self.now at }
    {
        if at < self.at {
            return 0;
        }
        (self.count as u64).saturating_sub(at - self.at)
    }

    /// The bytes that the window holds from an offset on.
    #[tactic(auto, unfolding(crate::specs::Windows::ready))]
    pub fn from(&self, at: u64) -> &[u8]
        requires room { length self.now.bytes ≡ WINDOW }
        requires count { self.now.count ≤ WINDOW }
        requires some { 0 < ready self.now at }
        ensures part { result.now ≡ part self.now at }
        ensures length { length result.now ≡ ready self.now at }
    {
        &self.bytes[(at - self.at) as usize..self.count]
    }

    // Reads the next bytes from an offset on, but none past the end of a part of the file.
    #[tactic(auto, unfolding(crate::specs::Windows::ready))]
    fn fill<S: Store>(
        &mut self,
        store: &mut S,
        head: &Head,
        at: u64,
        end: u64,
    ) -> Result<(), Failed>
        requires head { IsHeadOf (S.state store.old) head.now }
        requires window { IsWindowOf (S.state store.old) head.now self.old }
        requires asked { IsAsked head.now at 0 end }
        ensures reads { ReadsThrough (reading_ending result) head.now self.new (S.state store.old) (S.state store.new) }
        ensures taken { TakesAtMost (min WINDOW (end - at)) (S.state store.old) (S.state store.new) }
        ensures ready { OnOk result (ready self.new at ≡ min WINDOW (end - at)) }
    {
        let count = (end - at).min(WINDOW as u64) as usize;
        // After a failure the bytes are unknown.
        self.count = 0;
        read_piece(store, head, at, &mut self.bytes[..count])?;
        self.at = at;
        self.count = count;
        Ok(())
    }

    /// Makes sure that the window holds at least this number of bytes from an offset on. Reads no bytes past the end of a part of the
    /// file.
    pub fn hold<S: Store>(
        &mut self,
        store: &mut S,
        head: &Head,
        at: u64,
        least: u64,
        end: u64,
    ) -> Result<(), Failed>
        requires head { IsHeadOf (S.state store.old) head.now }
        requires window { IsWindowOf (S.state store.old) head.now self.old }
        requires asked { IsAsked head.now at least end }
        ensures reads { ReadsThrough (reading_ending result) head.now self.new (S.state store.old) (S.state store.new) }
        ensures taken { TakesAtMost (min (unread self.old end at) (end - at)) (S.state store.old) (S.state store.new) }
        ensures holds { OnOk result (HoldsFrom at least end self.old self.new (S.state store.old) (S.state store.new)) }
    {
        if self.ready(at) < least {
            self.fill(store, head, at, end)?;
        }
        Ok(())
    }
}

//! The calls of a replacement on a disk.
ghost use Rattle.std.specs.Prelude.{◌≡◌, ◌≤◌, ◌↔◌, true, false, [], drop, Ok, OnOk, IfErr, if◌then◌else◌};
ghost use Rattle.std.specs.Result.{is_ok};
ghost use Rattle.atomic_replace.specs.Order.{all_calls, needs_file, next_of};
ghost use Rattle.atomic_replace.specs.Replace.{FailsToWrite, WritesSlot};
ghost use Rattle.atomic_replace.specs.Step.{HasFile, Makes, MakesNext, NamesNext};
ghost use Rattle.tree_face.specs.Disk.{KeepsOthersMade};

use crate::fault::DiskFault;
use crate::progress::Progress;
use lib_types::Failed;
use std::marker::Model;
use tree_face::{Call, Disk, Slot, Tag};

/// Replaces the content of a slot by these bytes, by way of the tag's temporary file.
#[derive(Drop)]
pub struct Updater<'a> {
    tag: Tag,
    slot: Slot,
    bytes: &'a [u8],
    progress: Progress,
}

impl<'a> Model for Updater<'a> {
    ghost use Rattle.atomic_replace.specs.Step.{Replacement};

    ghost Value = { Replacement };

    ghost view = { λ s. record { tag = s.tag; write = (s.slot, s.bytes.now); left = s.progress } };
}

// Makes one call of a replacement.
fn make<D: Disk>(disk: &mut D, call: Call, tag: Tag, slot: Slot, bytes: &[u8]) -> Result<(), Failed>
    requires { needs_file call ≡ true → (D.state disk.old).made tag.0 slot ≡ true }
    ensures { Makes tag (slot, bytes.now) call (D.state disk.old) (D.state disk.new) result }
{
    match call {
        Call::Create => disk.create(tag, slot),
        Call::Append => disk.append(tag, slot, bytes),
        Call::Sync => disk.sync(tag, slot),
        Call::Publish => disk.publish(tag, slot),
        Call::Settle => disk.settle(slot),
    }
}

impl<'a> Updater<'a> {
    /// A replacement before its first call.
    pub fn new(tag: Tag, slot: Slot, bytes: &'a [u8]) -> Updater<'a>
        ensures { result ≡ record { tag = tag; write = (slot, bytes.now); left = all_calls } }
    {
        Updater {
            tag,
            slot,
            bytes,
            progress: Progress::new(),
        }
    }

    /// The next call; None after the last call or after a failed one.
    pub fn next(&self) -> Option<Call>
        ensures { result ≡ next_of self.now.left }
    {
        self.progress.next()
    }

    /// Makes the next call. If none is left, returns false.
    pub fn step<D: Disk>(&mut self, disk: &mut D) -> Result<bool, DiskFault>
        requires { HasFile self.old (D.state disk.old) }
        ensures ends { (result ≡ Ok false) ↔ (self.old.left ≡ []) }
        ensures none { self.old.left ≡ [] → disk.new ≡ disk.old }
        ensures makes { MakesNext self.old (D.state disk.old) (D.state disk.new) result }
        ensures fault { IfErr result (NamesNext self.old) }
        ensures left { self.new ≡ record self.old { left = if is_ok result then drop 1 self.old.left else [] } }
    {
        let Some(call) = self.progress.next() else {
            return Ok(false);
        };
        let done = make(disk, call, self.tag, self.slot, self.bytes);
        self.progress.advance(done.is_ok());
        match done {
            Ok(()) => Ok(true),
            Err(Failed) => Err(DiskFault {
                call,
                slot: self.slot,
            }),
        }
    }

    /// Makes all calls, and stops at the first that fails.
    pub fn commit<D: Disk>(&mut self, disk: &mut D) -> Result<(), DiskFault>
        requires { self.old.left ≡ all_calls }
        ensures done { OnOk result (WritesSlot self.old.tag self.old.write (D.state disk.old) (D.state disk.new)) }
        ensures failed { IfErr result (λ fault. FailsToWrite self.old.tag self.old.write fault (D.state disk.old) (D.state disk.new)) }
        ensures made { KeepsOthersMade self.old.tag.0 self.old.write.0 (D.state disk.old) (D.state disk.new) }
        ensures faults { (D.state disk.old).faults ≤ (D.state disk.new).faults }
        ensures left { self.new ≡ record self.old { left = [] } }
    {
        while self.step(disk)? {}
        Ok(())
    }
}

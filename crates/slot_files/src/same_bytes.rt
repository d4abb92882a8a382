//! Whether two files have the same bytes.
ghost use Rattle.std.specs.Prelude.{◌≡◌, ◌↔◌, ◌≤◌, ℕ, List, Option, drop, length, take, IfOk, IsTrue};
ghost use Rattle.slot_files.specs.declared.same_bytes.TheConstants.{WINDOW};
ghost use Rattle.tree_face.specs.Known.{IfKnown};

use std::io;
use std::os::unix::fs::FileExt;

// How many bytes of each file are compared at a time.
const WINDOW: usize = 4096;

/// The bytes of a file. Of a real file, contracts don't know them.
pub trait Bytes {
    ghost content: { Self → Option (List ℕ) };

    /// Fills the buffer with the bytes at an offset. It is an error if the file has fewer.
    fn fill(&self, buf: &mut [u8], at: u64) -> io::Result<()>
        ensures { IfOk result (λ _. IfKnown (content self.now) (λ bytes. buf.new ≡ take (length buf.old) (drop at bytes))) };
}

impl<F: FileExt> Bytes for F {
    ghost use Rattle.std.specs.Prelude.{None};

    ghost content = { λ _. None };

    fn fill(&self, buf: &mut [u8], at: u64) -> io::Result<()> {
        self.read_exact_at(buf, at)
    }
}

/// Whether two files of this length have the same bytes. They are read piece by piece, with pread.
#[tactic(auto, using(crate::proofs::Pieces::grows, crate::proofs::Pieces::differs))]
pub fn have_same_bytes<F: Bytes>(one: &F, other: &F, length: u64) -> io::Result<bool>
    ensures { IfOk result (λ same. IfKnown (F.content one.now) (λ ones. IfKnown (F.content other.now) (λ others. IsTrue same ↔ take length ones ≡ take length others))) }
{
    let mut at = 0;
    while at < length {
        let count = (length - at).min(WINDOW as u64);
        if !is_same_piece(one, other, at, count)? {
            return Ok(false);
        }
        at += count;
    }
    Ok(true)
}

// Whether two files have the same bytes in this piece, which is no longer than a window.
fn is_same_piece<F: Bytes>(one: &F, other: &F, at: u64, count: u64) -> io::Result<bool>
    requires { count ≤ WINDOW }
    ensures { IfOk result (λ same. IfKnown (F.content one.now) (λ ones. IfKnown (F.content other.now) (λ others. IsTrue same ↔ take count (drop at ones) ≡ take count (drop at others)))) }
{
    let mut ones = [0u8; WINDOW];
    let mut others = [0u8; WINDOW];
    let (piece, other_piece) = (&mut ones[..count as usize], &mut others[..count as usize]);
    one.fill(piece, at)?;
    other.fill(other_piece, at)?;
    Ok(*piece == *other_piece)
}

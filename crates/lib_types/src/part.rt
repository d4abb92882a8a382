//! Bytes that are a part of a longer text.
ghost use Rattle.std.specs.Prelude.{◌≡◌, ◌++◌, IfOk, OnErr, OnOk, length};
ghost use Rattle.lib_types.specs.Part.{part_of, IsLonger, IsWithin};

use crate::NoMemory;

/// A range of bytes in a text. Many names or paths share one text, so that each needs no allocation of its own. The offsets have four
/// bytes to save memory, since an image has one part for each name.
#[derive(Clone, Copy)]
pub struct Part {
    pub from: u32,
    pub to: u32,
}

// An offset in four bytes. If the text is too long for that, the result is `NoMemory`.
fn offset(at: usize) -> Result<u32, NoMemory>
    ensures { IfOk result (λ offset. offset ≡ at) }
{
    u32::try_from(at).map_err(|_| NoMemory)
}

impl Part {
    /// The bytes of this part in its text.
    pub fn bytes_in(self, text: &[u8]) -> &[u8]
        requires { IsWithin (length text.now) self }
        ensures { result.now ≡ part_of text.now self }
    {
        &text[self.from as usize..self.to as usize]
    }

    /// Appends bytes to a text, and returns the range that they have there.
    #[tactic(auto, using(crate::proofs::Offsets::added_is, crate::proofs::Offsets::added_within, crate::proofs::Offsets::not_longer))]
    pub fn add(text: &mut Vec<u8>, bytes: &[u8]) -> Result<Part, NoMemory>
        ensures longer { IsLonger text.old.items text.new.items }
        ensures added { OnOk result (text.new.items ≡ text.old.items ++ bytes.now) }
        ensures within { IfOk result (IsWithin (length text.new.items)) }
        ensures part { IfOk result (λ part. part_of text.new.items part ≡ bytes.now) }
        ensures refused { OnErr result (text.new.items ≡ text.old.items) }
    {
        let part = Part {
            from: offset(text.len())?,
            to: offset(text.len() + bytes.len())?,
        };
        text.extend_from_slice(bytes)?;
        Ok(part)
    }
}

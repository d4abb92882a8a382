//! Texts with numbers in them.
ghost use Rattle.std.specs.Prelude.{◌≡◌, ◌++◌, OnOk};
ghost use Rattle.std.specs.Fmt.{decimal};

use lib_types::NoMemory;
use std::alloc::Global;

/// Adds a text and the digits of a number.
pub(crate) fn put_number(
    alloc: Global,
    out: &mut Vec<u8>,
    front: &[u8],
    number: u64,
) -> Result<(), NoMemory>
    ensures { OnOk result (out.new.items ≡ out.old.items ++ front.now ++ decimal number) }
{
    out.extend_from_slice(front)?;
    let digits = format!(in alloc; "{number}")?;
    out.extend_from_slice(digits.as_bytes())?;
    Ok(())
}

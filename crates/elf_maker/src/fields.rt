//! Little-endian numbers, one after another.
ghost use Rattle.std.specs.Prelude.{◌≡◌, ◌≤◌, ◌++◌, All, OnOk};
ghost use Rattle.byteorder.specs.Endian.{little_bytes};
ghost use Rattle.elf_maker.specs.Fields.{bytes_of};

use lib_types::NoMemory;

// The size of a number in bytes, and the number.
pub(crate) type Field = (usize, u64);

#[tactic(auto, using(crate::proofs::Numbers::take_bytes))]
fn put_number(out: &mut Vec<u8>, size: usize, number: u64) -> Result<(), NoMemory>
    requires { size ≤ 8 }
    ensures { OnOk result (out.new.items ≡ out.old.items ++ little_bytes size number) }
{
    out.extend_from_slice(&number.to_le_bytes()[..size])?;
    Ok(())
}

#[tactic(auto, unfolding(crate::specs::Fields::bytes_of))]
pub(crate) fn put_fields(out: &mut Vec<u8>, fields: &[Field]) -> Result<(), NoMemory>
    requires { All (λ f. f.0 ≤ 8) fields.now }
    ensures { OnOk result (out.new.items ≡ out.old.items ++ bytes_of fields.now) }
{
    for &(size, number) in fields {
        put_number(out, size, number)?;
    }
    Ok(())
}

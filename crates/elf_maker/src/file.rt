//! Generates a whole file.
ghost use Rattle.std.specs.Prelude.{◌≡◌, ◌≤◌, ◌+◌, ◌<◌, ◌++◌, ◌↔◌, true, length, Ok, IfOk, OnOk, IsErrOf};
ghost use Rattle.lib_types.specs.Abi.{class_of};
ghost use Rattle.elf_dynamic.specs.Object.{object};
ghost use Rattle.elf_maker.specs.declared.layout.TheConstants.{FILE_MAX};
ghost use Rattle.elf_maker.specs.Fields.{bytes_of};
ghost use Rattle.elf_maker.specs.Made.{identification, header_fields, program_header_fields, is_spec, made, object_of};
ghost use Rattle.elf_maker.specs.Parts.{IsWidth, IsLayoutOf};

use crate::MakeFault;
use crate::fields::put_fields;
use crate::kinds::Spec;
use crate::layout::{Layout, address_of, at_class, layout_of};
use crate::section::put_section;
use crate::strings::put_strings;
use lib_types::{Abi, ELF_MAGIC, NoMemory, PT_DYNAMIC, PT_LOAD};
use std::alloc::Global;

const ELFDATA2LSB: u8 = 1;

const EV_CURRENT: u8 = 1;

// PF_R of p_flags.
const READABLE: u64 = 4;

const PAGE: u64 = 0x1000;

fn put_identification(out: &mut Vec<u8>, class: u8) -> Result<(), NoMemory>
    ensures { OnOk result (out.new.items ≡ out.old.items ++ identification class) }
{
    out.extend_from_slice(ELF_MAGIC)?;
    out.extend_from_slice(&[class, ELFDATA2LSB, EV_CURRENT, 0, 0, 0, 0, 0, 0, 0, 0, 0])?;
    Ok(())
}

// Writes the file header after the identification.
fn put_header(out: &mut Vec<u8>, w: usize, etype: u16, abi: Abi) -> Result<(), NoMemory>
    requires { IsWidth w }
    ensures { OnOk result (out.new.items ≡ out.old.items ++ bytes_of (header_fields w etype abi)) }
{
    let row = abi.row();
    let header = at_class(w, 52, 64) as u64;
    let program_header = at_class(w, 32, 56) as u64;
    put_fields(
        out,
        &[
            (2, u64::from(etype)),
            (2, u64::from(row.machine)),
            (4, u64::from(EV_CURRENT)),
            // e_entry, e_phoff and e_shoff
            (w, 0),
            (w, header),
            (w, 0),
            // e_flags
            (4, u64::from(row.bits)),
            // e_ehsize, e_phentsize and e_phnum
            (2, header),
            (2, program_header),
            (2, 2),
            // e_shentsize, e_shnum and e_shstrndx
            (2, 0),
            (2, 0),
            (2, 0),
        ],
    )
}

fn put_program_header(
    out: &mut Vec<u8>,
    w: usize,
    kind: u64,
    offset: u64,
    size: u64,
    align: u64,
) -> Result<(), NoMemory>
    requires width { IsWidth w }
    requires short { offset ≤ FILE_MAX }
    ensures { OnOk result (out.new.items ≡ out.old.items ++ bytes_of (program_header_fields w kind offset size align)) }
{
    let address = address_of(offset);
    put_fields(
        out,
        &[
            (4, kind),
            // p_flags is here in class 2, and before p_align in class 1.
            (at_class(w, 0, 4), READABLE),
            (w, offset),
            // p_vaddr and p_paddr
            (w, address),
            (w, address),
            // p_filesz and p_memsz
            (w, size),
            (w, size),
            (at_class(w, 4, 0), READABLE),
            (w, align),
        ],
    )
}

// Writes all parts in order.
#[tactic(auto, using(crate::proofs::Lengths::file_is))]
fn put_file(out: &mut Vec<u8>, layout: &Layout, spec: &Spec) -> Result<(), NoMemory>
    requires { IsLayoutOf layout.now spec.now }
    ensures { OnOk result (out.new.items ≡ out.old.items ++ made spec.now) }
{
    let w = layout.w;
    let class = spec.abi.row().class;
    put_identification(out, class)?;
    put_header(out, w, spec.etype, spec.abi)?;
    let size = layout.strings + layout.strings_size;
    put_program_header(out, w, u64::from(PT_LOAD), 0, size, PAGE)?;
    put_program_header(
        out,
        w,
        u64::from(PT_DYNAMIC),
        layout.section,
        layout.section_size,
        w as u64,
    )?;
    let address = address_of(layout.strings);
    put_section(out, w, address, layout.strings_size, &spec.dynamic)?;
    put_strings(out, &spec.dynamic)
}

/// The bytes of an ELF file with this dynamic section: the headers, the dynamic entries and the string table, without gaps.
#[tactic(auto, using(crate::proofs::ReadBack::read_back, crate::proofs::Lengths::is_short, crate::proofs::Lengths::made_length))]
pub fn make(alloc: Global, spec: &Spec) -> Result<Vec<u8>, MakeFault>
    requires { is_spec spec.now ≡ true }
    ensures bytes { IfOk result (λ bytes. bytes.items ≡ made spec.now) }
    ensures read_back { IfOk result (λ bytes. object bytes.items ≡ Ok (object_of spec.now)) }
    ensures too_long { IsErrOf result MakeFault.TooLong ↔ (FILE_MAX < length (made spec.now)) }
{
    let Some(layout) = layout_of(spec) else {
        return Err(MakeFault::TooLong);
    };
    let size = layout.strings + layout.strings_size;
    let mut out = Vec::with_capacity(alloc, size as usize)?;
    put_file(&mut out, &layout, spec)?;
    Ok(out)
}

//! The fields of both classes, in one implementation over the size of an address.
ghost use Rattle.std.specs.Prelude.{◌≡◌, ◌≤◌, ◌<◌, ◌+◌, ◌⊎◌, ◌==◌, ◌||◌, min, length, Ok, IsTrue, IfErr};
ghost use Rattle.lib_types.specs.Bytes.{field};
ghost use Rattle.elf_headers.specs.Layout.{at_class, class, encoding, is_wide, word_size, segment_at, program_header_length};
ghost use Rattle.elf_headers.specs.Header.{has_magic, has_bad_headers, head_of};
ghost use Rattle.elf_headers.specs.Identified.{IsIdentified};
ghost use Rattle.lib_types.specs.Ranges.{IsInRange};

use crate::kinds::{Head, Segment};
use byteorder::{ByteOrder, LittleEndian};
use lib_types::{Abi, Defect, ELF_MAGIC, ET_DYN, ET_EXEC};

const PN_XNUM: u16 = 65535;

/// An ELF class. `W` is the size of its addresses: 4 bytes in class 1, 8 bytes in class 2.
pub struct Class<const W: usize>;

// The fields of the file header: the offset in class 1, the offset in class 2, and the size. If the offsets are equal, there is one.
macro_rules! header {
    (e_type, $bytes:expr) => {
        field!(16, half, $bytes)
    };
    (e_machine, $bytes:expr) => {
        field!(18, half, $bytes)
    };
    (e_phoff, $bytes:expr) => {
        field!(28, 32, word, $bytes)
    };
    (e_flags, $bytes:expr) => {
        field!(36, 48, long, $bytes)
    };
    (e_phentsize, $bytes:expr) => {
        field!(42, 54, half, $bytes)
    };
    (e_phnum, $bytes:expr) => {
        field!(44, 56, half, $bytes)
    };
}

// The same for the fields of a program header.
macro_rules! program_header {
    (p_type, $bytes:expr) => {
        field!(0, long, $bytes)
    };
    (p_offset, $bytes:expr) => {
        field!(4, 8, word, $bytes)
    };
    (p_vaddr, $bytes:expr) => {
        field!(8, 16, word, $bytes)
    };
    (p_filesz, $bytes:expr) => {
        field!(16, 32, word, $bytes)
    };
}

macro_rules! field {
    ($both:literal, $size:ident, $bytes:expr) => {
        Class::<W>::$size($bytes, $both)
    };
    ($narrow:literal, $wide:literal, $size:ident, $bytes:expr) => {
        Class::<W>::$size($bytes, Class::<W>::either($narrow, $wide))
    };
}

impl<const W: usize> Class<W> {
    /// The number at an offset. It is as long as an address.
    #[tactic(auto, using(lib_types::proofs::Fields::field_drop))]
    pub fn word(bytes: &[u8], at: usize) -> u64
        requires class { (W ≡ 4) ⊎ (W ≡ 8) }
        requires within { at + W ≤ length bytes.now }
        ensures { result ≡ field bytes.now at W }
    {
        LittleEndian::read_uint(&bytes[at..], W)
    }

    // The 4-byte number at an offset.
    fn long(bytes: &[u8], at: usize) -> u32
        requires { at + 4 ≤ length bytes.now }
        ensures { result ≡ field bytes.now at 4 }
    {
        LittleEndian::read_u32(&bytes[at..])
    }

    // The 2-byte number at an offset.
    fn half(bytes: &[u8], at: usize) -> u16
        requires { at + 2 ≤ length bytes.now }
        ensures { result ≡ field bytes.now at 2 }
    {
        LittleEndian::read_u16(&bytes[at..])
    }

    // The first number in class 1, the second in class 2.
    fn either(narrow: usize, wide: usize) -> usize
        ensures { result ≡ at_class W narrow wide }
    {
        if W == 8 { wide } else { narrow }
    }

    /// The length of a program header in bytes.
    pub fn program_header_length() -> usize
        ensures { result ≡ program_header_length W }
    {
        Class::<W>::either(32, 56)
    }

    /// The segment of the program header at the start of these bytes.
    pub fn segment(bytes: &[u8]) -> Segment
        requires class { (W ≡ 4) ⊎ (W ≡ 8) }
        requires within { program_header_length W ≤ length bytes.now }
        ensures { result ≡ segment_at W bytes.now 0 }
    {
        Segment {
            kind: program_header!(p_type, bytes),
            offset: program_header!(p_offset, bytes),
            vaddr: program_header!(p_vaddr, bytes),
            filesz: program_header!(p_filesz, bytes),
        }
    }

    fn has_bad_headers(front: &[u8], size: u64) -> bool
        requires class { (W ≡ 4) ⊎ (W ≡ 8) }
        requires within { at_class W 52 64 ≤ length front.now }
        ensures { result ≡ has_bad_headers W size front.now }
    {
        let count = header!(e_phnum, front);
        if count == 0 {
            return false;
        }
        let each = Class::<W>::program_header_length() as u64;
        if count == PN_XNUM || u64::from(header!(e_phentsize, front)) != each {
            return true;
        }
        let at = header!(e_phoff, front);
        at > size || u64::from(count) * each > size - at
    }

    #[tactic(auto, using(crate::proofs::Heads::class_short, crate::proofs::Heads::bad_machine, crate::proofs::Heads::not_shared, crate::proofs::Heads::bad_headers))]
    fn head(front: &[u8], size: u64) -> Result<Head, Defect>
        requires class { (W ≡ 4) ⊎ (W ≡ 8) }
        requires front { length front.now ≡ min 64 size }
        requires identified { IsIdentified W size front.now }
        ensures head { result ≡ head_of size front.now }
        ensures range { IfErr result IsInRange }
    {
        if size < Class::<W>::either(52, 64) as u64 {
            return Err(Defect::TooShort { length: size });
        }
        let machine = header!(e_machine, front);
        let Some(abi) = Abi::of_elf(machine, front[4], header!(e_flags, front)) else {
            return Err(Defect::BadMachine {
                number: u64::from(machine),
            });
        };
        let etype = header!(e_type, front);
        if !is_loadable(etype) {
            return Err(Defect::NotShared {
                etype: u64::from(etype),
            });
        }
        if Class::<W>::has_bad_headers(front, size) {
            return Err(Defect::BadPhdrs);
        }
        Ok(Head {
            abi,
            etype,
            wide: W == 8,
            phoff: header!(e_phoff, front),
            phnum: header!(e_phnum, front),
            length: size,
        })
    }
}

fn is_loadable(etype: u16) -> bool
    ensures { result ≡ ((etype == 2) || (etype == 3)) }
{
    matches!(etype, ET_EXEC | ET_DYN)
}

fn is_class(class: u8) -> bool
    ensures { result ≡ ((class == 1) || (class == 2)) }
{
    matches!(class, 1 | 2)
}

/// The header of a file of this size that starts with these bytes.
#[tactic(auto, using(crate::proofs::Heads::not_elf, crate::proofs::Heads::short, crate::proofs::Heads::bad_class, crate::proofs::Heads::bad_data))]
pub fn head_of(front: &[u8], size: u64) -> Result<Head, Defect>
    requires { length front.now ≡ min 64 size }
    ensures head { result ≡ head_of size front.now }
    ensures range { IfErr result IsInRange }
{
    if !front.starts_with(ELF_MAGIC) {
        return Err(Defect::NotElf);
    }
    if size < 16 {
        return Err(Defect::TooShort { length: size });
    }
    let class = front[4];
    if !is_class(class) {
        return Err(Defect::BadClass {
            value: u64::from(class),
        });
    }
    let encoding = front[5];
    if encoding != 1 {
        return Err(Defect::BadData {
            value: u64::from(encoding),
        });
    }
    if class == 2 {
        Class::<8>::head(front, size)
    } else {
        Class::<4>::head(front, size)
    }
}

//! The library's ELF information, or the defect because of which a file isn't a library.
ghost use Rattle.std.specs.Prelude.{◌≡◌};
ghost use Rattle.lib_types.specs.Defects.{defect_name, defect_number};
ghost use Rattle.lib_types.specs.Ranges.{is_in_range};

use crate::elf::{DT_NEEDED, DT_RPATH, DT_RUNPATH, DT_SONAME};
use crate::{Abi, Text};

/// Why a file isn't a library. A number is the value that the file has in that field.
#[derive(Clone, Copy, Debug, PartialEq, Eq)]
pub enum Defect {
    NotElf,
    TooShort { length: u64 },
    BadClass { value: u64 },
    BadData { value: u64 },
    BadMachine { number: u64 },
    NotShared { etype: u64 },
    BadPhdrs,
    NoDynamic,
    DynOutside,
    NoStrtab,
    OutsideLoad,
    BadString { tag: u64 },
    BadSoname,
    /// A library that the loader cannot search for: no file has this defect, only a name in a directory.
    Unsearchable,
}

impl Defect {
    /// The name of the defect in reports and fault lines.
    pub fn name(self) -> &'static [u8]
        ensures { result.now ≡ defect_name self }
    {
        match self {
            Defect::NotElf => b"NotElf",
            Defect::TooShort { .. } => b"TooShort",
            Defect::BadClass { .. } => b"BadClass",
            Defect::BadData { .. } => b"BadData",
            Defect::BadMachine { .. } => b"BadMachine",
            Defect::NotShared { .. } => b"NotShared",
            Defect::BadPhdrs => b"BadPhdrs",
            Defect::NoDynamic => b"NoDynamic",
            Defect::DynOutside => b"DynOutside",
            Defect::NoStrtab => b"NoStrtab",
            Defect::OutsideLoad => b"OutsideLoad",
            Defect::BadString { .. } => b"BadString",
            Defect::BadSoname => b"BadSoname",
            Defect::Unsearchable => b"Unsearchable",
        }
    }

    /// The number after the name, if the defect has one.
    pub fn number(self) -> Option<u64>
        ensures { result ≡ defect_number self }
    {
        match self {
            Defect::TooShort { length } => Some(length),
            Defect::BadClass { value } => Some(value),
            Defect::BadData { value } => Some(value),
            Defect::BadMachine { number } => Some(number),
            Defect::NotShared { etype } => Some(etype),
            Defect::BadString { tag } => Some(tag),
            _ => None,
        }
    }

    /// Whether a file can have this defect: its number, if it has one, is in the range of the field.
    pub fn is_in_range(self) -> bool
        ensures { result ≡ is_in_range self }
    {
        match self {
            Defect::TooShort { length } => length < 64,
            Defect::BadClass { value } => value < 256 && value != 1 && value != 2,
            Defect::BadData { value } => value < 256 && value != 1,
            Defect::BadMachine { number } => number < 65536,
            Defect::NotShared { etype } => etype < 65536 && etype != 3,
            Defect::BadString { tag } => {
                tag == DT_NEEDED || tag == DT_SONAME || tag == DT_RPATH || tag == DT_RUNPATH
            }
            Defect::Unsearchable => false,
            _ => true,
        }
    }
}

/// What the cache needs to know about a file.
#[derive(Drop)]
pub enum Analysis {
    /// A library of this ABI. `soname` is its `DT_SONAME`, or `None` if that is missing or empty.
    Lib { abi: Abi, soname: Option<Text> },
    Not(Defect),
}

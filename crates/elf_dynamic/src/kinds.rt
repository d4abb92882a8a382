//! The contents of the dynamic section.
ghost use Rattle.std.specs.Prelude.{◌≡◌};
ghost use Rattle.elf_dynamic.specs.Section.{front_of};

use lib_types::{Abi, Text, Texts};

/// An entry of the dynamic section.
#[derive(Clone, Copy, Debug, PartialEq, Eq)]
pub struct DynamicEntry {
    /// `d_tag`, which is unsigned here: 4 bytes in class 1, 8 bytes in class 2.
    pub tag: u64,
    /// `d_val` or `d_ptr`.
    pub value: u64,
}

/// A byte range of a file.
#[derive(Clone, Copy, Debug, PartialEq, Eq)]
pub struct Place {
    /// Its offset in the file.
    pub at: u64,
    /// Its size in bytes.
    pub size: u64,
}

impl Place {
    /// The first `size` bytes of the place, if it has that many.
    pub fn front(self, size: u64) -> Option<Place>
        ensures { result ≡ front_of size self }
    {
        if size > self.size {
            return None;
        }
        Some(Place { at: self.at, size })
    }
}

/// The fields of a dynamic section that say which libraries the loader looks for, and where.
#[derive(Drop)]
pub struct Dynamic {
    /// `DT_SONAME`, if it isn't empty. It is a name.
    pub soname: Option<Text>,
    /// The texts of the `DT_NEEDED` entries, in order.
    pub needed: Texts,
    /// `DT_RPATH`.
    pub rpath: Option<Text>,
    /// `DT_RUNPATH`.
    pub runpath: Option<Text>,
    /// `DF_1_NODEFLIB` of `DT_FLAGS_1`: the loader leaves out its own directories.
    pub nodeflib: bool,
}

/// What a file says to the loader.
#[derive(Drop)]
pub struct Object {
    /// From `e_machine`, the class and `e_flags`.
    pub abi: Abi,
    /// `e_type`: 2 for a program at fixed addresses, 3 for a shared object.
    pub etype: u16,
    /// None if the file has no dynamic section.
    pub dynamic: Option<Dynamic>,
}

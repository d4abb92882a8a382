//! The input and the result of a search.
ghost use Rattle.std.specs.Prelude.{◌≡◌, IfOk};
ghost use Rattle.rpath_search.specs.Places.{env_for};

use elf_dynamic::kinds::Object;
use lib_types::{Abi, NoMemory, Seq, Text, Texts};
use std::alloc::Global;
use string_pool::distinct;

/// The default directories, which are searched after the cache.
#[derive(Clone, Copy, Debug, PartialEq, Eq)]
pub enum SystemDirs {
    /// The loader's own default directories.
    Loader,
    /// The loader's directories, Debian's directories for each ABI, and those of RISC-V's loader.
    Debian,
}

/// The loader's environment.
#[derive(Drop)]
pub struct Env {
    /// The program's ABI.
    pub abi: Abi,
    /// The hwcaps names that the processor supports, in order of preference. If a name occurs again, only its first position counts.
    pub caps: Texts,
    /// `LD_LIBRARY_PATH`: directories separated by colons or semicolons; empty if it isn't set.
    pub library_path: Text,
    /// The value of `$PLATFORM`.
    pub platform: Text,
    /// Secure execution, as for a set-user-ID program: the library path and items with `$ORIGIN` are ignored.
    pub secure: bool,
    pub system: SystemDirs,
}

impl Env {
    /// The same for programs of this ABI, with each hwcaps name only once, at its first position.
    pub fn for_abi(&self, alloc: Global, abi: Abi) -> Result<Env, NoMemory>
        ensures { IfOk result (λ env. env ≡ env_for self.now abi) }
    {
        Ok(Env {
            abi,
            caps: distinct(alloc, &self.caps)?,
            library_path: Text::copy_of(alloc, self.library_path.as_bytes())?,
            platform: Text::copy_of(alloc, self.platform.as_bytes())?,
            secure: self.secure,
            system: self.system,
        })
    }
}

/// The part of an object's ELF information that the search for its needed libraries uses.
#[derive(Drop)]
pub struct Owner {
    /// The value of `$ORIGIN`: the directory of the path by which the object was found.
    pub origin: Text,
    /// DT_RPATH; the search ignores it if there is a DT_RUNPATH.
    pub rpath: Option<Text>,
    /// DT_RUNPATH.
    pub runpath: Option<Text>,
    /// DF_1_NODEFLIB.
    pub nodeflib: bool,
}

/// The object that needs a library, then its loader (the object that needed it first), and so on up to the program.
pub type Chain = Seq<Owner>;

/// The library that a search found.
#[derive(Drop)]
pub struct Found {
    /// The path in the form in which the search built it.
    pub path: Text,
    /// The file to which the path leads, as a path without links.
    pub real: Text,
    /// The ELF information of the file.
    pub object: Object,
}

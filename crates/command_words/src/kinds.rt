//! The commands.
use lib_types::{Abi, Text, Texts};
use tree_face::Tag;

/// What is looked up in the cache.
#[derive(Drop)]
pub struct Lookup {
    pub name: Text,
    /// None, if no ABI is given.
    pub abi: Option<Abi>,
    /// The hwcaps names that the processor has, the preferred one first.
    pub caps: Texts,
    /// Whether the answer is JSON.
    pub json: bool,
}

/// How the answer for programs is written.
#[derive(Clone, Copy, Debug, PartialEq, Eq)]
pub enum Form {
    /// The libraries of each program, as ldd(1) lists them.
    Listing,
    /// `--list`: the files that all programs need, each path ended by this byte.
    Files { end: u8 },
    /// `--json`: the libraries of each program, as JSON.
    Json,
    /// `--tree`: each library below the object that first needed it.
    Tree,
}

/// The programs whose libraries are listed, and what the loader is given beside the files.
#[derive(Drop)]
pub struct Resolve {
    /// The programs' paths in the image. None, if all programs and libraries of the image are listed.
    pub paths: Option<Texts>,
    /// The hwcaps names that the processor has, the preferred one first.
    pub caps: Texts,
    /// `LD_LIBRARY_PATH`; empty, if there is none.
    pub library_path: Text,
    /// The value of `$PLATFORM`.
    pub platform: Text,
    /// Whether the programs run in secure execution, as a set-user-ID program does.
    pub secure: bool,
    pub form: Form,
}

/// A command of the program.
#[derive(Drop)]
pub enum Command {
    /// To write the cache of the image, by way of the temporary files of this tag.
    Update { tag: Tag },
    /// To take the script of edits and updates on the input, by way of the temporary files of this tag.
    Batch { tag: Tag },
    /// To update the image that layers make. The store has their manifests under these keys, the lowest layer first.
    Layers { keys: Texts },
    /// To update images of `n` synthetic libraries, held in memory.
    Sample { n: u16 },
    /// To print the cache, as text or as JSON.
    Print { json: bool },
    /// To look up a name in the cache.
    Lookup(Lookup),
    /// To list the libraries that programs load.
    Resolve(Resolve),
}

//! The contents of the headers.
use lib_types::Abi;

/// The contents of a file's header.
#[derive(Clone, Copy, Debug, PartialEq, Eq)]
pub struct Head {
    /// From `e_machine`, the class and `e_flags`.
    pub abi: Abi,
    /// `e_type`: 2 for a program at fixed addresses, 3 for a shared object.
    pub etype: u16,
    /// Whether the file is of class 2. Then addresses have 8 bytes, otherwise 4.
    pub wide: bool,
    /// The offset of the program headers.
    pub phoff: u64,
    /// The number of program headers.
    pub phnum: u16,
    /// The length of the file in bytes.
    pub length: u64,
}

/// The contents of a program header.
#[derive(Clone, Copy, Debug, PartialEq, Eq)]
pub struct Segment {
    /// `p_type`: 1 for a segment that is loaded, 2 for the dynamic section.
    pub kind: u32,
    /// Its offset in the file.
    pub offset: u64,
    /// Its address in memory.
    pub vaddr: u64,
    /// Its size in the file in bytes.
    pub filesz: u64,
}

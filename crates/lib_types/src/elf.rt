//! Numbers of ELF files (gABI: "ELF Header", "Program Header", "Dynamic Section").

/// The first four bytes of a file.
pub const ELF_MAGIC: &[u8] = b"\x7fELF";

/// `e_type` of a program that isn't loaded at any address.
pub const ET_EXEC: u16 = 2;

/// `e_type` of a shared object.
pub const ET_DYN: u16 = 3;

/// `p_type` of a segment that is loaded.
pub const PT_LOAD: u32 = 1;

/// `p_type` of the dynamic section.
pub const PT_DYNAMIC: u32 = 2;

/// `d_tag` of the last entry.
pub const DT_NULL: u64 = 0;

/// `d_tag` of a needed library.
pub const DT_NEEDED: u64 = 1;

/// `d_tag` of the string table's address.
pub const DT_STRTAB: u64 = 5;

/// `d_tag` of the string table's size in bytes.
pub const DT_STRSZ: u64 = 10;

/// `d_tag` of the soname.
pub const DT_SONAME: u64 = 14;

/// `d_tag` of the search path that the libraries of an object use too.
pub const DT_RPATH: u64 = 15;

/// `d_tag` of the object's own search path.
pub const DT_RUNPATH: u64 = 29;

/// `d_tag` of more flags.
pub const DT_FLAGS_1: u64 = 0x6ffffffb;

/// The flag of `DT_FLAGS_1` with which the loader leaves out its own directories.
pub const DF_1_NODEFLIB: u64 = 0x800;

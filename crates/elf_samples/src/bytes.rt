//! Two libraries, written out byte by byte in the layout of the gABI.

/// A shared object for x86-64 whose DT_SONAME is `libz.so.1`, part by part in the order of the file.
pub const LIBZ: [u8; 251] = [
    // identification: 0x7f `ELF`, ELFCLASS64, ELFDATA2LSB, EV_CURRENT
    0x7f, 0x45, 0x4c, 0x46, 2, 1, 1, 0, 0, 0, 0, 0, 0, 0, 0, 0,
    // e_type ET_DYN, e_machine EM_X86_64, e_version, e_entry
    3, 0, 62, 0, 1, 0, 0, 0, 0, 0, 0, 0, 0, 0, 0, 0,
    // e_phoff, e_shoff
    64, 0, 0, 0, 0, 0, 0, 0, 0, 0, 0, 0, 0, 0, 0, 0,
    // e_flags, e_ehsize, e_phentsize, e_phnum, then no section headers
    0, 0, 0, 0, 64, 0, 56, 0, 2, 0, 0, 0, 0, 0, 0, 0,
    // PT_LOAD at 64: p_type, p_flags, p_offset, p_vaddr, p_paddr, p_filesz, p_memsz, p_align
    1, 0, 0, 0, 4, 0, 0, 0, 0, 0, 0, 0, 0, 0, 0, 0, 0x00, 0x10, 0, 0, 0, 0, 0, 0, 0x00, 0x10, 0, 0,
    0, 0, 0, 0, 251, 0, 0, 0, 0, 0, 0, 0, 251, 0, 0, 0, 0, 0, 0, 0, 0x00, 0x10, 0, 0, 0, 0, 0, 0,
    // PT_DYNAMIC at 120
    2, 0, 0, 0, 4, 0, 0, 0, 176, 0, 0, 0, 0, 0, 0, 0, 0xb0, 0x10, 0, 0, 0, 0, 0, 0, 0xb0, 0x10, 0,
    0, 0, 0, 0, 0, 64, 0, 0, 0, 0, 0, 0, 0, 64, 0, 0, 0, 0, 0, 0, 0, 8, 0, 0, 0, 0, 0, 0, 0,
    // the dynamic entries at 176: DT_SONAME, DT_STRTAB, DT_STRSZ, DT_NULL
    14, 0, 0, 0, 0, 0, 0, 0, 1, 0, 0, 0, 0, 0, 0, 0, 5, 0, 0, 0, 0, 0, 0, 0, 0xf0, 0x10, 0, 0, 0,
    0, 0, 0, 10, 0, 0, 0, 0, 0, 0, 0, 11, 0, 0, 0, 0, 0, 0, 0, 0, 0, 0, 0, 0, 0, 0, 0, 0, 0, 0, 0,
    0, 0, 0, 0,
    // the string table at 240
    0, b'l', b'i', b'b', b'z', b'.', b's', b'o', b'.', b'1', 0,
];

/// The same for i386: a shared object of class 1.
pub const I386_LIBZ: [u8; 159] = [
    // identification: 0x7f `ELF`, ELFCLASS32, ELFDATA2LSB, EV_CURRENT
    0x7f, 0x45, 0x4c, 0x46, 1, 1, 1, 0, 0, 0, 0, 0, 0, 0, 0, 0,
    // e_type ET_DYN, e_machine EM_386, e_version, e_entry, e_phoff, e_shoff
    3, 0, 3, 0, 1, 0, 0, 0, 0, 0, 0, 0, 52, 0, 0, 0, 0, 0, 0, 0,
    // e_flags, e_ehsize, e_phentsize, e_phnum, then no section headers
    0, 0, 0, 0, 52, 0, 32, 0, 2, 0, 0, 0, 0, 0, 0, 0,
    // PT_LOAD at 52: p_type, p_offset, p_vaddr, p_paddr, p_filesz, p_memsz, p_flags, p_align
    1, 0, 0, 0, 0, 0, 0, 0, 0x00, 0x10, 0, 0, 0x00, 0x10, 0, 0, 159, 0, 0, 0, 159, 0, 0, 0, 4, 0,
    0, 0, 0x00, 0x10, 0, 0,
    // PT_DYNAMIC at 84
    2, 0, 0, 0, 116, 0, 0, 0, 0x74, 0x10, 0, 0, 0x74, 0x10, 0, 0, 32, 0, 0, 0, 32, 0, 0, 0, 4, 0,
    0, 0, 4, 0, 0, 0,
    // the dynamic entries at 116: DT_SONAME, DT_STRTAB, DT_STRSZ, DT_NULL
    14, 0, 0, 0, 1, 0, 0, 0, 5, 0, 0, 0, 0x94, 0x10, 0, 0, 10, 0, 0, 0, 11, 0, 0, 0, 0, 0, 0, 0, 0,
    0, 0, 0,
    // the string table at 148
    0, b'l', b'i', b'b', b'z', b'.', b's', b'o', b'.', b'1', 0,
];

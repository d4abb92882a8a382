//! The supported ABIs, with the numbers and names of each.
ghost use Rattle.std.specs.Prelude.{◌≡◌, pos};
ghost use Rattle.lib_types.specs.Abi.{IsRow, row_of, flags_of, lib_of, abi_of_elf, abi_of_flags, abi_of_word, is_machine};

/// An application binary interface (ABI) of a processor.
#[derive(Clone, Copy, Debug, PartialEq, Eq)]
pub enum Abi {
    I386,
    X86_64,
    X32,
    Aarch64,
    ArmHf,
    Riscv64D,
}

/// The row of an ABI in the table of ABIs.
#[derive(Clone, Copy)]
pub struct Row {
    /// Its name in the arguments of a command.
    pub word: &'static [u8],
    /// `e_machine` of an ELF header.
    pub machine: u16,
    /// The class of an ELF header: 1 for 32 bits, 2 for 64.
    pub class: u8,
    /// The bits of `e_flags` that are tested (`mask`), and the value that they must have (`bits`).
    pub mask: u32,
    pub bits: u32,
    /// The flags of a cache entry.
    pub flags: i32,
    /// The text after `libc6` when a cache is printed.
    pub printed: &'static [u8],
    /// What `$LIB` represents.
    pub lib: &'static [u8],
    /// Debian's directory of libraries of this ABI. Without its first four bytes it is the one in `/lib`.
    pub usr_lib: &'static [u8],
}

/// All ABIs, in the order in which they are looked up.
pub const ABIS: [Abi; 6] = [
    Abi::I386,
    Abi::X86_64,
    Abi::X32,
    Abi::Aarch64,
    Abi::ArmHf,
    Abi::Riscv64D,
];

impl Abi {
    /// The row of this ABI.
    pub fn row(self) -> Row
        ensures { IsRow result (row_of self) }
    {
        match self {
            Abi::I386 => Row {
                word: b"i386",
                machine: 3,
                class: 1,
                mask: 0,
                bits: 0,
                flags: 0x0003,
                printed: b"",
                lib: b"lib",
                usr_lib: b"/usr/lib/i386-linux-gnu",
            },
            Abi::X86_64 => Row {
                word: b"x86-64",
                machine: 62,
                class: 2,
                mask: 0,
                bits: 0,
                flags: 0x0303,
                printed: b",x86-64",
                lib: b"lib64",
                usr_lib: b"/usr/lib/x86_64-linux-gnu",
            },
            Abi::X32 => Row {
                word: b"x32",
                machine: 62,
                class: 1,
                mask: 0,
                bits: 0,
                flags: 0x0803,
                printed: b",x32",
                lib: b"libx32",
                usr_lib: b"/usr/lib/x86_64-linux-gnux32",
            },
            Abi::Aarch64 => Row {
                word: b"aarch64",
                machine: 183,
                class: 2,
                mask: 0,
                bits: 0,
                flags: 0x0a03,
                printed: b",AArch64",
                lib: b"lib64",
                usr_lib: b"/usr/lib/aarch64-linux-gnu",
            },
            Abi::ArmHf => Row {
                word: b"arm-hf",
                machine: 40,
                class: 1,
                mask: 0x400,
                bits: 0x400,
                flags: 0x0903,
                printed: b",hard-float",
                lib: b"lib",
                usr_lib: b"/usr/lib/arm-linux-gnueabihf",
            },
            Abi::Riscv64D => Row {
                word: b"riscv64-d",
                machine: 243,
                class: 2,
                mask: 0x6,
                bits: 0x4,
                flags: 0x1003,
                printed: b",double-float",
                lib: b"lib",
                usr_lib: b"/usr/lib/riscv64-linux-gnu",
            },
        }
    }

    /// The flags of a cache entry of this ABI.
    pub fn flags(self) -> i32
        ensures { result ≡ pos (flags_of self) }
    {
        self.row().flags
    }

    /// The ABI with these flags of a cache entry.
    pub fn of_flags(flags: i32) -> Option<Abi>
        ensures { result ≡ abi_of_flags flags }
    {
        ABIS.iter().copied().find(|abi| abi.row().flags == flags)
    }

    /// The ABI of an ELF file, by its `e_machine`, its class byte and its `e_flags`.
    pub fn of_elf(machine: u16, class: u8, eflags: u32) -> Option<Abi>
        ensures { result ≡ abi_of_elf machine class eflags }
    {
        ABIS.iter().copied().find(|abi| {
            let row = abi.row();
            row.machine == machine && row.class == class && eflags & row.mask == row.bits
        })
    }

    /// The ABI that has this name in the arguments of a command.
    pub fn of_word(word: &[u8]) -> Option<Abi>
        ensures { result ≡ abi_of_word word.now }
    {
        ABIS.iter().copied().find(|abi| abi.row().word == word)
    }

    /// What `$LIB` represents.
    pub fn lib(self) -> &'static [u8]
        ensures { result.now ≡ lib_of self }
    {
        self.row().lib
    }

    /// Whether an ABI has this `e_machine`.
    pub fn is_machine(number: u16) -> bool
        ensures { result ≡ is_machine number }
    {
        ABIS.iter().any(|abi| abi.row().machine == number)
    }
}

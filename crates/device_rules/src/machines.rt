//! Libraries for machines that no cache is built for.
ghost use Rattle.std.specs.Prelude.{◌≡◌};
ghost use Rattle.std.specs.Prelude.{option_map};
ghost use Rattle.device_rules.specs.Machines.{foreign_machine, machine_in, machine_name};

use lib_types::{Abi, ELF_MAGIC};

/// The number of the machine of an ELF file with these first bytes, if no cache is built for it.
pub fn foreign_machine(head: &[u8]) -> Option<u16>
    ensures { result ≡ foreign_machine head.now }
{
    let number = machine_in(head)?;
    if Abi::is_machine(number) {
        None
    } else {
        Some(number)
    }
}

// The machine number, in the byte order that the file has.
fn machine_in(head: &[u8]) -> Option<u16>
    ensures { result ≡ machine_in head.now }
{
    if head.len() < 20 || !head.starts_with(ELF_MAGIC) {
        return None;
    }
    if head[5] == 2 {
        Some(u16::from_be_bytes([head[18], head[19]]))
    } else {
        Some(u16::from_le_bytes([head[18], head[19]]))
    }
}

/// The usual name of a machine that no cache is built for.
pub fn machine_name(number: u16) -> Option<&'static str>
    ensures { option_map (λ name. name.now) result ≡ machine_name number }
{
    match number {
        2 | 43 => Some("SPARC"),
        4 => Some("m68k"),
        8 => Some("MIPS"),
        15 => Some("PA-RISC"),
        20 => Some("PowerPC"),
        21 => Some("PowerPC64"),
        22 => Some("S/390"),
        42 => Some("SuperH"),
        50 => Some("IA-64"),
        258 => Some("LoongArch"),
        0x9026 => Some("Alpha"),
        _ => None,
    }
}

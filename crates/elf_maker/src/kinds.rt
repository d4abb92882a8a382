//! What a file is generated from.
use elf_dynamic::kinds::Dynamic;
use lib_types::Abi;

/// The contents of a generated file.
#[derive(Drop)]
pub struct Spec {
    /// The ABI, which gives the class, `e_machine` and `e_flags`.
    pub abi: Abi,
    /// `e_type`: 2 for a program at fixed addresses, 3 for a shared object.
    pub etype: u16,
    /// The contents of its dynamic section.
    pub dynamic: Dynamic,
}

//! The types that every crate uses: texts and their parts, lists, ABIs, defects, ELF information and cache entries.
#![tactic(auto)]

mod abi;
mod analysis;
mod elf;
mod entry;
mod fault;
mod find;
mod name;
mod part;
mod parts;
mod same;
mod seq;
mod steps;
mod text;
mod text_ref;
pub mod trim;

pub use abi::{ABIS, Abi, Row};
pub use analysis::{Analysis, Defect};
pub use elf::{
    DF_1_NODEFLIB, DT_FLAGS_1, DT_NEEDED, DT_NULL, DT_RPATH, DT_RUNPATH, DT_SONAME, DT_STRSZ,
    DT_STRTAB, ELF_MAGIC, ET_DYN, ET_EXEC, PT_DYNAMIC, PT_LOAD,
};
pub use entry::{Entries, Entry};
pub use fault::{Failed, NoMemory};
pub use find::{find_byte, find_either, has_byte};
pub use name::{HWCAPS_DIR, NAME_MAX, is_name, is_utf8};
pub use part::Part;
pub use parts::{Parts, Separator, before_byte, cut, split};
pub use same::{are_same, compare_bytes, equal_len};
pub use seq::{Seq, Texts};
pub use steps::Steps;
pub use text::Text;
pub use text_ref::TextRef;

#[cfg(test)]
mod tests;

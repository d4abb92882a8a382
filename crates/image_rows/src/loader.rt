//! The loader's environment in a row.
use lib_types::{Abi, NoMemory, Text};
use rpath_search::{Env, SystemDirs};
use std::alloc::Global;
use table_rows::{Row, Words, has_line, list, value};

/// The words of the loader's environment: `env-abi` with its ABI (x86-64 without the line), `caps` with hwcaps names between colons,
/// `library-path`, `platform`, `secure` for secure execution, and `root` if all built-in directories are searched.
pub const LOADER: Words = &[
    b"env-abi",
    b"caps",
    b"library-path",
    b"platform",
    b"secure",
    b"root",
];

// The directories that are searched by default.
fn system_of(row: Row<'_>) -> SystemDirs {
    if has_line(row, b"root") {
        SystemDirs::Debian
    } else {
        SystemDirs::Loader
    }
}

/// The loader's environment in a row.
pub fn env_of(alloc: Global, row: Row<'_>) -> Result<Env, NoMemory> {
    let word = value(row, b"env-abi").unwrap_or(b"x86-64");
    Ok(Env {
        abi: Abi::of_word(word).unwrap_or(Abi::X86_64),
        caps: list(alloc, b':', value(row, b"caps").unwrap_or(b""))?,
        library_path: Text::copy_of(alloc, value(row, b"library-path").unwrap_or(b""))?,
        platform: Text::copy_of(alloc, value(row, b"platform").unwrap_or(b""))?,
        secure: has_line(row, b"secure"),
        system: system_of(row),
    })
}

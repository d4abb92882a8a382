//! The layout of a cache file: the constants and the field reads that its writer and its reader share.
#![tactic(auto)]

ghost use Rattle.std.specs.Prelude.{◌≡◌, ◌+◌, ◌≤◌, length};
ghost use Rattle.lib_types.specs.Bytes.{field};

mod limits;

use byteorder::{ByteOrder, LittleEndian};
pub use limits::{ENTRIES_MAX, STRING_MAX, STRINGS_LIMIT};

/// The magic and the version at the start of a cache.
pub const MAGIC: &[u8] = b"glibc-ld.so.cache1.1";

/// The magic of the older cache format.
pub const OLD_MAGIC: &[u8] = b"ld.so-1.7.0";

/// The size of the header in bytes.
pub const HEADER_SIZE: usize = 48;

/// The size of an entry in bytes.
pub const ENTRY_SIZE: usize = 24;

/// The size in bytes of the extension directory before its sections.
pub const DIRECTORY_SIZE: usize = 8;

/// The size in bytes of a section of the extension directory.
pub const SECTION_SIZE: usize = 16;

/// The flag of a little-endian cache.
pub const LITTLE_ENDIAN: u8 = 2;

/// The magic of the extension directory.
pub const EXTENSION_MAGIC: u32 = 0xeaa42174;

/// The tag of the generator section.
pub const GENERATOR_TAG: u32 = 0;

/// The tag of the section with the offsets of the hwcaps names.
pub const NAMES_TAG: u32 = 1;

/// The 4-byte number at an offset.
#[tactic(auto, using(lib_types::proofs::Fields::field_drop))]
pub fn u32_at(bytes: &[u8], at: usize) -> u32
    requires { at + 4 ≤ length bytes.now }
    ensures { result ≡ field bytes.now at 4 }
{
    LittleEndian::read_u32(&bytes[at..])
}

/// The 8-byte number at an offset.
#[tactic(auto, using(lib_types::proofs::Fields::field_drop))]
pub fn u64_at(bytes: &[u8], at: usize) -> u64
    requires { at + 8 ≤ length bytes.now }
    ensures { result ≡ field bytes.now at 8 }
{
    LittleEndian::read_u64(&bytes[at..])
}

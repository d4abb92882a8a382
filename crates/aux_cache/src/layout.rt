//! The constants of the file's layout, which its reader and its writer share.
ghost use Rattle.std.specs.Prelude.{◌≡◌};
ghost use Rattle.aux_cache.specs.AuxFile.{has_defects};
ghost use Rattle.aux_cache.specs.AuxLayout.{magic};

/// The version of a file. Version 1.1 is written, and both are read.
#[derive(Clone, Copy)]
pub enum Version {
    V1_0,
    V1_1,
}

impl Version {
    /// The magic at the start of the file.
    pub fn magic(self) -> &'static [u8]
        ensures { result.now ≡ magic self }
    {
        match self {
            Version::V1_0 => b"glibc-ld.so.auxcache-1.0",
            Version::V1_1 => b"glibc-ld.so.auxcache-1.1",
        }
    }

    /// Whether the records can say a defect.
    pub fn has_defects(self) -> bool
        ensures { result ≡ has_defects self }
    {
        match self {
            Version::V1_0 => false,
            Version::V1_1 => true,
        }
    }
}

/// The size of the magic in bytes.
pub const MAGIC_SIZE: usize = 24;

/// The first bytes of a file of any version that is read. That of glibc 2.36 has the version 2.0.
pub const MAGIC_START: &[u8] = b"glibc-ld.so.auxcache-1.";

/// The length of `MAGIC_START`.
pub const MAGIC_START_SIZE: usize = 23;

/// The size of the header in bytes: the magic, the number of records and the length of the strings.
pub const HEADER_SIZE: usize = 32;

/// The size of a record in bytes.
pub const RECORD_SIZE: usize = 48;

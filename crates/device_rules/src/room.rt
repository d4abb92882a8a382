//! Whether a file can grow, if the length of files is limited.
ghost use Rattle.std.specs.Prelude.{◌≡◌};
ghost use Rattle.device_rules.specs.Folder.{has_room};

use std::io::{Error, ErrorKind};

/// Whether `more` bytes can be added to a file of this length.
pub fn has_room(limit: Option<u64>, length: u64, more: usize) -> bool
    ensures { result ≡ has_room limit length more }
{
    match limit {
        Some(limit) => more as u64 <= limit.saturating_sub(length),
        None => true,
    }
}

/// The error of a file that would become longer than the limit, in the system's words.
pub fn too_long() -> Error {
    Error::new(ErrorKind::FileTooLarge, "File too large")
}

//! The meaning of an I/O error for the caller.
ghost use Rattle.std.specs.Prelude.{◌≡◌, ◌↔◌, ◌⊎◌, IsTrue};

use std::io::ErrorKind;

/// There isn't a file of that name.
pub fn is_missing(kind: ErrorKind) -> bool
    ensures { IsTrue result ↔ kind ≡ ErrorKind.NotFound }
{
    kind == ErrorKind::NotFound
}

/// Out of memory.
pub fn is_out_of_memory(kind: ErrorKind) -> bool
    ensures { IsTrue result ↔ kind ≡ ErrorKind.OutOfMemory }
{
    kind == ErrorKind::OutOfMemory
}

/// The name exists already.
pub fn is_there(kind: ErrorKind) -> bool
    ensures { IsTrue result ↔ kind ≡ ErrorKind.AlreadyExists }
{
    kind == ErrorKind::AlreadyExists
}

/// Permission was denied.
pub fn is_forbidden(kind: ErrorKind) -> bool
    ensures { IsTrue result ↔ kind ≡ ErrorKind.PermissionDenied }
{
    kind == ErrorKind::PermissionDenied
}

/// A name in a directory listing isn't UTF-8 text. The listing goes on after it.
pub fn is_no_text(kind: ErrorKind) -> bool
    ensures { IsTrue result ↔ kind ≡ ErrorKind.InvalidFilename }
{
    kind == ErrorKind::InvalidFilename
}

/// The file has fewer bytes than were requested.
pub fn is_cut(kind: ErrorKind) -> bool
    ensures { IsTrue result ↔ kind ≡ ErrorKind.UnexpectedEof }
{
    kind == ErrorKind::UnexpectedEof
}

/// A signal came, or the other end of a stream isn't ready. The same call has to be made again.
pub fn is_for_now(kind: ErrorKind) -> bool
    ensures { IsTrue result ↔ (kind ≡ ErrorKind.Interrupted ⊎ kind ≡ ErrorKind.WouldBlock) }
{
    kind == ErrorKind::Interrupted || kind == ErrorKind::WouldBlock
}

//! Names of files.
ghost use Rattle.std.specs.Prelude.{◌≡◌};
ghost use Rattle.std.specs.Str.{is_utf8};
ghost use Rattle.lib_types.specs.Name.{are_dots, is_name, is_plain_ascii, have_no_slash};

/// The maximum length of a name in bytes (NAME_MAX of limits.h).
pub const NAME_MAX: usize = 255;

/// The name of the directory, in a directory of libraries, that has the subdirectories for processors (ld.so(8)).
pub const HWCAPS_DIR: &[u8] = b"glibc-hwcaps";

/// Whether the bytes are a valid name of a file in a directory.
#[tactic(auto, using(crate::proofs::Plain::plain_bytes))]
pub fn is_name(bytes: &[u8]) -> bool
    ensures { result ≡ is_name bytes.now }
{
    if bytes.is_empty() || bytes.len() > NAME_MAX || are_dots(bytes) {
        return false;
    }
    is_plain_ascii(bytes) || (have_no_slash(bytes) && is_utf8(bytes))
}

// Whether the bytes are `.` or `..`. Most names are longer than two bytes, so the test of the length decides.
fn are_dots(bytes: &[u8]) -> bool
    ensures { result ≡ are_dots bytes.now }
{
    bytes.len() <= 2 && (bytes == b".".as_slice() || bytes == b"..".as_slice())
}

// Whether the bytes are ASCII without a slash and a NUL. Most names are. For these, one pass is enough.
fn is_plain_ascii(bytes: &[u8]) -> bool
    ensures { result ≡ is_plain_ascii bytes.now }
{
    bytes.iter().all(|&b| b != b'/' && b != 0 && b < 128)
}

// Whether no byte is a slash or a NUL.
fn have_no_slash(bytes: &[u8]) -> bool
    ensures { result ≡ have_no_slash bytes.now }
{
    bytes.iter().all(|&b| b != b'/' && b != 0)
}

/// Whether the bytes are UTF-8.
#[tactic(auto, using(crate::proofs::Utf8::test_holds, crate::proofs::Utf8::test_fails))]
pub fn is_utf8(bytes: &[u8]) -> bool
    ensures { result ≡ is_utf8 bytes.now }
{
    match std::str::from_utf8(bytes) {
        Ok(_) => true,
        Err(_) => false,
    }
}

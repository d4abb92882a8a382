//! What is decided about paths without a system call.
ghost use Rattle.std.specs.Prelude.{◌≡◌, ◌↔◌, ◌++◌, ◌⊎◌, ◌≢◌, ◌∷◌, [], codes, false, List, ℕ, IsTrue, MatchOption};
ghost use Rattle.std.specs.List.{list_any, slice_split};
ghost use Rattle.lib_types.specs.Bytes.{is_byte};
ghost use Rattle.device_rules.specs.Paths.{ends_part, has_up, is_at_or_above, leads_up};

use lib_types::{Separator, split};

/// Whether the first directory is the second one or an ancestor of it. The root's path is empty.
pub fn is_at_or_above(folder: &[u8], other: &[u8]) -> bool
    ensures { result ≡ is_at_or_above folder.now other.now }
{
    folder.is_empty() || (other.starts_with(folder) && ends_part(&other[folder.len()..]))
}

fn ends_part(rest: &[u8]) -> bool
    ensures { result ≡ ends_part rest.now }
{
    rest.is_empty() || rest[0] == b'/'
}

/// The rest of a text after this prefix, if the text has it.
#[tactic(auto, using(crate::proofs::NameParts::stripped))]
pub fn following<'a>(text: &'a str, front: &str) -> Option<&'a str>
    ensures { MatchOption result ((rest : List ℕ) → text.now ≢ front.now ++ rest) (λ rest. text.now ≡ front.now ++ rest.now) }
{
    text.strip_prefix(front)
}

/// Whether a component of a path names a child: it isn't empty or `.`.
pub fn leads_on(part: &[u8]) -> bool
    ensures { IsTrue result ↔ (part.now ≢ [] × part.now ≢ codes ".") }
{
    !part.is_empty() && part != b".".as_slice()
}

/// Whether a component of a path is `..`.
pub fn leads_up(part: &[u8]) -> bool
    ensures { result ≡ leads_up part.now }
{
    part == b"..".as_slice()
}

/// Whether a component of the path is `..`.
pub fn has_up(path: &[u8]) -> bool
    ensures { result ≡ has_up path.now }
{
    for part in split(Separator::Byte(b'/'), path) {
        if leads_up(part) {
            return true;
        }
    }
    false
}

/// A path's directory, which is empty for the root, and its last name.
pub fn divided(path: &str) -> (&str, &str)
    ensures parts { (path.now ≡ result.0.now ++ 47 ∷ result.1.now) ⊎ ((result.0.now ≡ []) × (result.1.now ≡ path.now)) }
    ensures last { list_any (is_byte 47) result.1.now ≡ false }
{
    match path.rsplit_once('/') {
        Some((folder, name)) => (folder, name),
        None => ("", path),
    }
}

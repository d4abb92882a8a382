//! How much of a directory belongs to its tree.
ghost use Rattle.std.specs.Prelude.{◌≡◌};
ghost use Rattle.std.specs.Str.{bytes_eq};
ghost use Rattle.root_real.specs.Extent.{caps, has_name, is_cap_dir, leads_out, names_in, target_in};

use device_rules::{divided, has_up};
use lib_types::{HWCAPS_DIR, has_byte};
use name_order::is_library_name;

/// The names in a directory that belong to a tree.
#[derive(Clone, Copy, Debug, PartialEq, Eq)]
pub(crate) enum Names {
    All,
    /// Those of libraries.
    Libraries,
    /// Those of libraries, and `glibc-hwcaps`.
    LibrariesAndCaps,
    Nothing,
}

/// How much of a directory belongs to its tree.
#[derive(Clone, Copy, Debug, PartialEq, Eq)]
pub(crate) enum Extent {
    /// All of it.
    Whole,
    /// The libraries in the directory itself and in its glibc-hwcaps subdirectories (ld.so(8)).
    Libraries,
}

impl Names {
    /// Whether this name belongs to the tree.
    pub(crate) fn has(self, name: &[u8]) -> bool
        ensures { result ≡ has_name self name.now }
    {
        match self {
            Names::All => true,
            Names::Libraries => is_library_name(name),
            Names::LibrariesAndCaps => is_library_name(name) || is_caps(name),
            Names::Nothing => false,
        }
    }
}

impl Extent {
    /// The names that belong to the tree, in the directory of this path below its root.
    pub(crate) fn names_in(self, dir: &[u8]) -> Names
        ensures { result ≡ names_in self dir.now }
    {
        match self {
            Extent::Whole => Names::All,
            Extent::Libraries if dir.is_empty() => Names::LibrariesAndCaps,
            Extent::Libraries if is_caps(dir) => Names::All,
            Extent::Libraries if is_cap_dir(dir) => Names::Libraries,
            Extent::Libraries => Names::Nothing,
        }
    }

    /// Whether this path below the root belongs to the tree.
    pub(crate) fn has(self, path: &str) -> bool {
        let (dir, name) = divided(path);
        self.names_in(dir.as_bytes()).has(name.as_bytes())
    }

    /// The target of a link in the tree. If only libraries belong to the tree, a link that may lead out of it leads nowhere: the paths
    /// outside are those of this machine, and the tree has nothing at `/outside`.
    pub(crate) fn target(self, target: &str) -> &str
        ensures { result.now ≡ target_in self target.now }
    {
        match self {
            Extent::Whole => target,
            Extent::Libraries if leads_out(target.as_bytes()) => "/outside",
            Extent::Libraries => target,
        }
    }
}

// Whether this is the name of the directory that has the subdirectories for processors.
fn is_caps(name: &[u8]) -> bool
    ensures { result ≡ bytes_eq name.now caps }
{
    name == HWCAPS_DIR
}

// Whether this is the path of a glibc-hwcaps subdirectory.
fn is_cap_dir(dir: &[u8]) -> bool
    ensures { result ≡ is_cap_dir dir.now }
{
    let front = b"glibc-hwcaps/";
    dir.starts_with(front) && !has_byte(b'/', &dir[front.len()..])
}

// Whether a link's target is absolute or has a component `..`.
fn leads_out(target: &[u8]) -> bool
    ensures { result ≡ leads_out target.now }
{
    target.starts_with(b"/") || has_up(target)
}

//! The stack of open directories.
ghost use Rattle.std.specs.Prelude.{◌≡◌, ◌≤◌, ◌++◌, ◌∷◌, ◌==◌, [], not, length, OnOk};
ghost use Rattle.manifest_words.specs.Paths.{current, closed};
ghost use Rattle.mtree_manifest.specs.Stacks.{IsStack, paths_in, top, opened};

use lib_types::NoMemory;
use std::alloc::Global;
use std::marker::Model;

/// The stack of open directories. Contracts see the list of their paths. Each path begins with the path of the directory
/// opened before it, so one buffer holds all paths.
#[derive(Drop)]
pub(crate) struct Dirs {
    path: Vec<u8>,
    /// The length of each path in the buffer. The directory opened last is at the end.
    lens: Vec<usize>,
}

impl Model for Dirs {
    ghost use Rattle.manifest_words.specs.Paths.{Stack};
    ghost use Rattle.mtree_manifest.specs.Stacks.{IsStack, paths_in};

    ghost Value = { Stack };

    ghost view = { λ d. paths_in d.path.items d.lens.items };

    ghost invariant = { λ d. IsStack d.path.items d.lens.items };
}

// The length of the current directory's path.
fn top(path: &Vec<u8>, lens: &Vec<usize>) -> usize
    requires { IsStack path.now.items lens.now.items }
    ensures value { result ≡ top lens.now.items }
    ensures within { result ≤ length path.now.items }
{
    match lens.as_slice().last() {
        Some(&n) => n,
        None => 0,
    }
}

// Opens a directory. Its path is the current directory's path and then these bytes.
#[tactic(auto, using(crate::proofs::Opening::one_more))]
fn open_in(path: &mut Vec<u8>, lens: &mut Vec<usize>, more: &[u8]) -> Result<(), NoMemory>
    requires { IsStack path.old.items lens.old.items }
    ensures stack { IsStack path.new.items lens.new.items }
    ensures done { OnOk result (paths_in path.new.items lens.new.items ≡ opened path.old.items lens.old.items more.now) }
{
    let len = top(path, lens);
    path.truncate(len);
    path.extend_from_slice(more)?;
    lens.push(path.len())?;
    Ok(())
}

impl Dirs {
    /// No directory is open.
    pub(crate) fn new(alloc: Global) -> Dirs
        ensures { result ≡ [] }
    {
        Dirs {
            path: Vec::new(alloc),
            lens: Vec::new(alloc),
        }
    }

    /// The path of the current directory. The path of the root is empty.
    pub(crate) fn current(&self) -> &[u8]
        ensures { result.now ≡ current self.now }
    {
        &self.path.as_slice()[..top(&self.path, &self.lens)]
    }

    /// Closes the directory that was opened last. Returns whether a directory was open.
    pub(crate) fn close(&mut self) -> bool
        ensures open { result ≡ not (length self.old == 0) }
        ensures closed { self.new ≡ closed self.old }
    {
        self.lens.pop().is_some()
    }

    /// Opens a directory. Its path is the current directory's path and then these bytes.
    pub(crate) fn open(&mut self, more: &[u8]) -> Result<(), NoMemory>
        ensures { OnOk result (self.new ≡ self.old ++ (current self.old ++ more.now) ∷ []) }
    {
        open_in(&mut self.path, &mut self.lens, more)
    }
}

//! What an update of a directory is asked to do.
ghost use Rattle.std.specs.Prelude.{◌≡◌, ◌∷◌, [], IfOk};
ghost use Rattle.hwcap_dirs.specs.declared.kinds.Scope.TheVariants.{Only};
ghost use Rattle.image_tree.specs.Paths.{root};
ghost use Rattle.root_jobs.specs.Job.{IsAskedFor, scope_of};

use crate::aux::Aux;
use hwcap_dirs::Scope;
use lib_types::{NoMemory, Text, Texts};
use root_update::RootParts;
use root_words::RootOptions;
use std::alloc::Global;
use std::str::from_utf8;

/// A directory to update.
#[derive(Clone, Copy)]
pub struct Target<'r> {
    /// Its path, as it is given.
    pub dir: &'r str,
    /// Whether it is a directory of libraries on this machine, and not an image.
    pub is_of_machine: bool,
}

impl<'r> Target<'r> {
    /// What the paths in the tree begin with when they are shown. Those of an image are shown as they are.
    pub fn front(self) -> &'r str {
        if self.is_of_machine {
            self.dir.trim_end_matches('/')
        } else {
            ""
        }
    }
}

/// An update of a directory, or a check of what it would change.
#[derive(Drop)]
pub struct Job<'r, 'x> {
    pub target: Target<'r>,
    pub parts: RootParts,
    pub aux: Aux<'x>,
    pub verbose: bool,
    /// Whether it only lists what would change.
    pub is_check: bool,
}

/// The text of an argument. All arguments are UTF-8.
pub fn word_of(bytes: &[u8]) -> &str {
    from_utf8(bytes).unwrap_or(".")
}

/// The text of an argument, if it is given.
pub fn text_of(word: &Option<Text>) -> Option<&str> {
    match word {
        Some(word) => Some(word_of(word.as_bytes())),
        None => None,
    }
}

/// The update that the options ask for on this directory.
pub fn job_of<'r, 'x>(
    alloc: Global,
    options: &RootOptions,
    target: Target<'r>,
    aux: Aux<'x>,
) -> Result<Job<'r, 'x>, NoMemory>
    ensures asked { IfOk result (λ job. IsAskedFor options.now job) }
    ensures target { IfOk result (λ job. job.target ≡ target.entry) }
{
    let scope = scope_of(alloc, options, target)?;
    let parts = RootParts {
        scope,
        links: !options.no_links,
        // With `-n` no cache is built, as in ldconfig(8).
        cache: !options.no_cache && options.dirs.is_none(),
        aux: aux.usage(options.ignore_aux),
    };
    Ok(Job {
        target,
        parts,
        aux,
        verbose: options.verbose,
        is_check: options.check,
    })
}

// The search directories. A directory of this machine is the root of its tree.
fn scope_of(alloc: Global, options: &RootOptions, target: Target<'_>) -> Result<Scope, NoMemory>
    ensures { IfOk result (λ scope. scope ≡ scope_of options.now target.entry.is_of_machine) }
{
    match &options.dirs {
        Some(_) if target.is_of_machine => only_root(alloc),
        Some(dirs) => only(alloc, dirs),
        None => Ok(Scope::Root {
            conf: Text::copy_if_some(alloc, &options.conf)?,
        }),
    }
}

fn only_root(alloc: Global) -> Result<Scope, NoMemory>
    ensures { IfOk result (λ scope. scope ≡ Only (root ∷ [])) }
{
    let mut dirs = Texts::new(alloc);
    dirs.push(Text::copy_of(alloc, b"/")?)?;
    Ok(Scope::Only { dirs })
}

fn only(alloc: Global, given: &Texts) -> Result<Scope, NoMemory>
    ensures { IfOk result (λ scope. scope ≡ Only given.now) }
{
    let mut dirs = Texts::new(alloc);
    for dir in given.as_slice() {
        dirs.push(dir.copy(alloc)?)?;
    }
    Ok(Scope::Only { dirs })
}

//! The loaded objects with their search directories.
ghost use Rattle.std.specs.Prelude.{◌≡◌, ◌<◌, ◌∷◌, ◌++◌, [], ℕ, List, Some, length, IfOk, IfSome, OnOk};
ghost use Rattle.rpath_search.specs.Places.{reach_of};
ghost use Rattle.rpath_search.specs.Loaders.{AreLinked, IsReachOf, reach_at, reach_over, reaches_of, rpaths_from};

use crate::dirs::{OwnDirs, library_dirs, own_dirs};
use crate::kinds::{Env, Owner};
use lib_types::{NoMemory, Text, Texts};
use std::alloc::Global;
use std::marker::Model;

/// An object, and the number of the nearest of its loaders that has DT_RPATH directories.
#[derive(Drop)]
pub(crate) struct Link {
    pub dirs: OwnDirs,
    pub above: Option<usize>,
}

/// The loaded objects by number, the program first. In contracts, this is the list of their search directories.
///
/// An object's texts are parsed once. A search visits only those loaders of an object that have DT_RPATH directories.
#[derive(Drop)]
pub struct Loaders {
    library: Texts,
    links: Vec<Link>,
}

impl Model for Loaders {
    ghost use Rattle.std.specs.Prelude.{List};
    ghost use Rattle.rpath_search.specs.Places.{Reach};
    ghost use Rattle.rpath_search.specs.Loaders.{AreLinked, reaches_of};

    ghost Value = { List Reach };

    ghost view = { λ s. reaches_of s.library s.links.items };

    ghost invariant = { λ s. AreLinked s.library s.links.items };
}

// The nearest object with DT_RPATH directories, from this one up to the program.
fn nearest(links: &Vec<Link>, loader: usize) -> Option<usize>
    requires { loader < length links.now.items }
    ensures same { (library : List (List ℕ)) → AreLinked library links.now.items
        → rpaths_from (reaches_of library links.now.items) result ≡ rpaths_from (reaches_of library links.now.items) (Some loader) }
    ensures within { (library : List (List ℕ)) → AreLinked library links.now.items → IfSome result (λ j. j < length links.now.items) }
{
    let link = &links[loader];
    if link.dirs.rpath.is_empty() {
        link.above
    } else {
        Some(loader)
    }
}

impl Loaders {
    /// The program alone.
    pub fn new(alloc: Global, env: &Env, program: &Owner) -> Result<Loaders, NoMemory>
        ensures { IfOk result (λ loaders. loaders ≡ reach_of env.now program.now [] ∷ []) }
    {
        let library = library_dirs(alloc, env, program)?;
        let dirs = own_dirs(alloc, env, program)?;
        let mut links = Vec::new(alloc);
        links.push(Link { dirs, above: None })?;
        Ok(Loaders { library, links })
    }

    /// No objects. It allocates no memory.
    pub(crate) fn empty(alloc: Global) -> Loaders
        ensures { result ≡ [] }
    {
        Loaders {
            library: Texts::new(alloc),
            links: Vec::new(alloc),
        }
    }

    /// The number of objects.
    pub fn len(&self) -> usize
        ensures { result ≡ length self.now }
    {
        self.links.len()
    }

    /// Adds an object whose loader has this number.
    pub fn add(
        &mut self,
        alloc: Global,
        env: &Env,
        owner: &Owner,
        loader: usize,
    ) -> Result<(), NoMemory>
        requires { loader < length self.old }
        ensures { OnOk result (self.new ≡ self.old ++ reach_over env.now owner.now (reach_at self.old loader) ∷ []) }
    {
        let dirs = own_dirs(alloc, env, owner)?;
        let above = nearest(&self.links, loader);
        self.links.push(Link { dirs, above })?;
        Ok(())
    }

    /// The directories of an object, and the number of its nearest loader with DT_RPATH directories.
    pub(crate) fn link(&self, number: usize) -> &Link
        requires { number < length self.now }
        ensures below { IfSome result.now.above (λ j. j < number) }
        ensures reach { IsReachOf self.now (reach_at self.now number) result.now }
    {
        &self.links[number]
    }

    /// The directories of the library path.
    pub(crate) fn library(&self) -> &[Text]
        ensures { (i : ℕ) → i < length self.now → (reach_at self.now i).library ≡ result.now }
    {
        self.library.as_slice()
    }
}

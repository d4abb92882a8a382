//! The file that a search selects.
ghost use Rattle.std.specs.Prelude.{◌≡◌, ◌∷◌, [], None, true, false, IfOk, IfSome, is_some, option_map};
ghost use Rattle.std.specs.Option.{option_copied};
ghost use Rattle.elf_dynamic.specs.Begun.{ReadsBy, file_keys, key_in, lacks_one};
ghost use Rattle.elf_dynamic.specs.Faults.{HasName};
ghost use Rattle.tree_face.specs.Known.{IfKnown};
ghost use Rattle.image_tree.specs.Tree.{node_at};
ghost use Rattle.string_pool.specs.Distinct.{distinct};
ghost use Rattle.rpath_search.specs.Candidates.{IsInside, paths_left};
ghost use Rattle.rpath_search.specs.Faults.{search_ending};
ghost use Rattle.rpath_search.specs.Search.{IsFound, Searches, first_good, is_library, library_at};
ghost use Rattle.rpath_search.specs.Searching.{AreKnown, Finds, IsNew, SearchesNextTo, Tries, is_outsider, keys_next_to};

use crate::candidates::Candidates;
use crate::fault::SearchFault;
use crate::kinds::Found;
use crate::loaders::Loaders;
use elf_dynamic::kinds::Object;
use elf_dynamic::{ObjectFault, object};
use lib_types::{Abi, ET_EXEC, Text, Texts};
use path_walk::file_at;
use std::alloc::Global;
use string_pool::TextSet;
use tree_face::{Node, Store, Tree};

/// The loaded files, by their paths without links.
#[derive(Drop)]
pub struct LoadedFiles {
    /// In the order of the objects.
    pub loaded: TextSet,
    /// The program, if it isn't a library of its ABI. A search skips paths that lead to it.
    pub outsider: Option<Text>,
}

/// The result of a search.
#[derive(Drop)]
pub enum Answer {
    /// The loaded file with this number, and the path that leads to it.
    Loaded { number: usize, path: Text },
    New(Found),
}

impl LoadedFiles {
    /// No files. It allocates no memory.
    pub fn none(alloc: Global) -> LoadedFiles
        ensures loaded { result.loaded ≡ [] }
        ensures outsider { result.outsider ≡ None }
    {
        LoadedFiles {
            loaded: TextSet::new(alloc),
            outsider: None,
        }
    }

    // Whether the file is the program, and the program isn't a library of its ABI.
    fn is_outsider(&self, real: &[u8]) -> bool
        ensures { result ≡ is_outsider self.now.outsider real.now }
    {
        match &self.outsider {
            Some(outsider) => real == outsider.as_bytes(),
            None => false,
        }
    }
}

/// The key of the file at a path without links.
pub fn key_at<'a>(tree: &'a Tree, real: &[u8]) -> Option<&'a [u8]>
    ensures { option_copied result ≡ key_in (node_at tree.now real.now) }
{
    match tree.node(real) {
        Some(Node::File { key, .. }) => Some(key.as_bytes()),
        _ => None,
    }
}

/// Whether the ELF information is that of a library of this ABI.
pub fn is_library(abi: Abi, object: &Object) -> bool
    ensures { result ≡ is_library abi object.now }
{
    match &object.dynamic {
        Some(_) => object.etype != ET_EXEC && object.abi.flags() == abi.flags(),
        None => false,
    }
}

/// Reads the file at a path without links, and returns its ELF information if it is a library of this ABI.
pub fn library_at<S: Store>(
    alloc: Global,
    tree: &Tree,
    store: &mut S,
    real: &[u8],
    abi: Abi,
) -> Result<Option<Object>, SearchFault>
    ensures object { IfOk result (λ o. IfKnown (S.state store.old).held (λ held. o ≡ library_at held tree.now abi real.now)) }
    ensures library { IfOk result (λ o. IfSome o (λ o. is_library abi o ≡ true)) }
    ensures name { IfOk result (λ o. IfSome o HasName) }
    ensures file { IfOk result (λ o. IfSome o (λ _. is_some (key_in (node_at tree.now real.now)) ≡ true)) }
    ensures held { IfOk result (λ _. IfKnown (S.state store.old).held (λ held. lacks_one held (file_keys tree.now (real.now ∷ [])) ≡ false)) }
    ensures reads { ReadsBy (S.state store.old).held (file_keys tree.now (real.now ∷ [])) (search_ending result) (S.state store.old) (S.state store.new) }
{
    let Some(key) = key_at(tree, real) else {
        return Ok(None);
    };
    match object(alloc, store, key) {
        Ok(object) => {
            if is_library(abi, &object) {
                Ok(Some(object))
            } else {
                Ok(None)
            }
        }
        Err(ObjectFault::Bad(_)) => Ok(None),
        Err(ObjectFault::StoreFault) => Err(SearchFault::StoreFault),
        Err(ObjectFault::NoMemory) => Err(SearchFault::NoMemory),
    }
}

// The answer for one path, if the path is good. A loaded file isn't read.
fn try_path<S: Store>(
    alloc: Global,
    tree: &Tree,
    store: &mut S,
    files: &LoadedFiles,
    path: Text,
    abi: Abi,
) -> Result<Option<Answer>, SearchFault>
    requires { IfKnown (S.state store.old).held (λ held. AreKnown held tree.now abi files.now) }
    ensures tries { IfOk result (λ a. IfKnown (S.state store.old).held (λ held. Tries held tree.now abi files.now.loaded path a)) }
    ensures new { IfOk result (IsNew (S.state store.old).held tree.now abi files.now.loaded) }
    ensures held { IfOk result (λ _. IfKnown (S.state store.old).held (λ held. lacks_one held (keys_next_to tree.now files.now.loaded (path ∷ [])) ≡ false)) }
    ensures reads { ReadsBy (S.state store.old).held (keys_next_to tree.now files.now.loaded (path ∷ [])) (search_ending result)
        (S.state store.old) (S.state store.new) }
{
    let Some(real) = file_at(alloc, tree, path.as_bytes())? else {
        return Ok(None);
    };
    if let Some(number) = files.loaded.index_of(real.as_bytes()) {
        if files.is_outsider(real.as_bytes()) {
            return Ok(None);
        }
        return Ok(Some(Answer::Loaded { number, path }));
    }
    match library_at(alloc, tree, store, real.as_bytes(), abi)? {
        Some(object) => Ok(Some(Answer::New(Found { path, real, object }))),
        None => Ok(None),
    }
}

/// The answer for the first good path. Loaded files aren't read.
pub fn search_paths<S: Store>(
    alloc: Global,
    tree: &Tree,
    store: &mut S,
    files: &LoadedFiles,
    paths: Candidates<'_>,
    abi: Abi,
) -> Result<Option<Answer>, SearchFault>
    requires known { IfKnown (S.state store.old).held (λ held. AreKnown held tree.now abi files.now) }
    requires inside { IsInside paths.first }
    ensures finds { IfOk result (λ a. IfKnown (S.state store.old).held
        (λ held. Finds held tree.now abi files.now.loaded (first_good held tree.now abi (paths_left paths.entry)) a)) }
    ensures new { IfOk result (IsNew (S.state store.old).held tree.now abi files.now.loaded) }
    ensures searches { SearchesNextTo (S.state store.old).held tree.now abi files.now.loaded (paths_left paths.entry) (search_ending result)
        (S.state store.old) (S.state store.new) }
{
    let mut left = paths;
    while let Some(path) = left.next_path(alloc)? {
        if let Some(answer) = try_path(alloc, tree, store, files, path, abi)? {
            return Ok(Some(answer));
        }
    }
    Ok(None)
}

/// The first of these paths that leads to a library of the ABI, and the library's ELF information. All other paths are skipped, so a
/// repeated path changes nothing.
pub fn find<S: Store>(
    alloc: Global,
    tree: &Tree,
    store: &mut S,
    places: &Texts,
    abi: Abi,
) -> Result<Option<Found>, SearchFault>
    ensures first { IfOk result (λ f. IfKnown (S.state store.old).held
        (λ held. option_map (λ f. f.path) f ≡ first_good held tree.now abi places.now)) }
    ensures once { IfOk result (λ f. IfKnown (S.state store.old).held
        (λ held. option_map (λ f. f.path) f ≡ first_good held tree.now abi (distinct places.now))) }
    ensures found { IfOk result (λ f. IfSome f (IsFound (S.state store.old).held tree.now abi)) }
    ensures searches { Searches (S.state store.old).held tree.now abi places.now (search_ending result) (S.state store.old) (S.state store.new) }
{
    let files = LoadedFiles::none(alloc);
    let loaders = Loaders::empty(alloc);
    let paths = Candidates::of_list(&loaders, places.as_slice());
    match search_paths(alloc, tree, store, &files, paths, abi)? {
        Some(Answer::New(found)) => Ok(Some(found)),
        Some(Answer::Loaded { .. }) | None => Ok(None),
    }
}

//! The order of the search directories.
ghost use Rattle.std.specs.Prelude.{◌≡◌, ◌≤◌, ◌∷◌, ◌++◌, ℕ, All, List, IfOk, IsTrue, OnOk, length};
ghost use Rattle.std.specs.Option.{is_some};
ghost use Rattle.std.specs.Str.{bytes_eq};
ghost use Rattle.indexmap.specs.IndexSet.{insert_key};
ghost use Rattle.hwcap_dirs.specs.Gathering.{new_places, all_places};
ghost use Rattle.image_tree.specs.declared.path.TheConstants.{PATH_MAX};
ghost use Rattle.hwcap_dirs.specs.Places.{absent, are_dirs, are_spelled, builtin_dirs, dir_at, hwcap_places, is_dir, is_hidden, place_of_name, places, places_of};

use crate::kinds::{Dirs, Place, Places, Scope};
use crate::system::next_builtin_dir;
use lib_types::{HWCAPS_DIR, NoMemory, Text, Texts};
use path_walk::{Mode, WalkFault, join, resolve};
use std::alloc::Global;
use string_pool::TextSet;
use tree_face::{Kind, Tree};

// The search directories so far, and the resolved paths of the directories that were already added.
#[derive(Drop)]
struct Gathering {
    met: TextSet,
    places: Places,
}

fn is_dir(kind: Kind) -> bool
    ensures { result ≡ is_dir kind }
{
    match kind {
        Kind::Dir => true,
        Kind::Absent | Kind::File | Kind::Link => false,
    }
}

/// The directory that a path resolves to, if it resolves to a directory.
pub fn dir_at(alloc: Global, tree: &Tree, text: &[u8]) -> Result<Option<Text>, NoMemory>
    ensures { IfOk result (λ dir. dir ≡ dir_at tree.now text.now) }
{
    match resolve(alloc, tree, text, Mode::Plain) {
        Ok(place) => {
            if is_dir(tree.kind(place.as_bytes())) {
                Ok(Some(place))
            } else {
                Ok(None)
            }
        }
        Err(WalkFault::NoMemory) => Err(NoMemory),
        Err(_) => Ok(None),
    }
}

fn is_hidden(name: &[u8]) -> bool
    ensures { result ≡ is_hidden name.now }
{
    name.starts_with(b".")
}

// The search directory of a name in a `glibc-hwcaps` directory, if the name is that of a directory.
fn place_of_name(
    alloc: Global,
    tree: &Tree,
    folder: &[u8],
    name: &[u8],
) -> Result<Option<Place>, NoMemory>
    ensures { IfOk result (λ place. place ≡ place_of_name tree.now folder.now name.now) }
{
    if is_hidden(name) {
        return Ok(None);
    }
    let spelled = join(alloc, folder, name)?;
    let Some(real) = dir_at(alloc, tree, spelled.as_bytes())? else {
        return Ok(None);
    };
    let cap = Some(Text::copy_of(alloc, name)?);
    Ok(Some(Place { spelled, real, cap }))
}

// Adds the search directories in a `glibc-hwcaps` directory.
fn add_below(alloc: Global, tree: &Tree, places: &mut Places, folder: &[u8]) -> Result<(), NoMemory>
    ensures { OnOk result (places.new ≡ places.old ++ hwcap_places tree.now folder.now) }
{
    let Some(dir) = dir_at(alloc, tree, folder)? else {
        return Ok(());
    };
    for name in tree.children(dir.as_bytes()) {
        if let Some(place) = place_of_name(alloc, tree, folder, name)? {
            places.push(place)?;
        }
    }
    Ok(())
}

// Adds the search directories of a directory, given its path as written and its resolved path.
fn add_places(
    alloc: Global,
    tree: &Tree,
    places: &mut Places,
    text: &[u8],
    real: Text,
) -> Result<(), NoMemory>
    ensures { OnOk result (places.new ≡ places.old ++ places_of tree.now (text.now, real)) }
{
    let below = join(alloc, text, HWCAPS_DIR)?;
    let spelled = Text::copy_of(alloc, text)?;
    places.push(Place {
        spelled,
        real,
        cap: None,
    })?;
    add_below(alloc, tree, places, below.as_bytes())?;
    Ok(())
}

impl Gathering {
    // Adds a directory with its subdirectories, unless it was already added.
    #[tactic(auto, using(crate::proofs::Firsts::new_here, crate::proofs::Firsts::old_here))]
    fn add_dir(
        &mut self,
        alloc: Global,
        tree: &Tree,
        text: &[u8],
        real: Text,
    ) -> Result<(), NoMemory>
        ensures met { OnOk result (self.new.met ≡ insert_key bytes_eq self.old.met real) }
        ensures places { OnOk result (self.new.places ≡ self.old.places ++ new_places tree.now self.old.met (text.now, real)) }
    {
        if self.met.contains(real.as_bytes()) {
            return Ok(());
        }
        self.met.insert(Text::copy_of(alloc, real.as_bytes())?)?;
        add_places(alloc, tree, &mut self.places, text, real)?;
        Ok(())
    }

    // Adds the directory that a path resolves to. Returns whether the path resolves to a directory.
    fn add(&mut self, alloc: Global, tree: &Tree, text: &[u8]) -> Result<bool, NoMemory>
        ensures leads { IfOk result (λ leads. leads ≡ is_some (dir_at tree.now text.now)) }
        ensures rest { IfOk result (λ _. (texts : List (List ℕ)) →
            all_places tree.now self.new.met self.new.places texts ≡ all_places tree.now self.old.met self.old.places (text.now ∷ texts)) }
    {
        let Some(real) = dir_at(alloc, tree, text)? else {
            return Ok(false);
        };
        self.add_dir(alloc, tree, text, real)?;
        Ok(true)
    }

    // Adds the directories that are searched after those of the conf file.
    fn add_builtin(&mut self, alloc: Global, scope: &Scope, tree: &Tree) -> Result<(), NoMemory>
        ensures { OnOk result (self.new.places ≡ all_places tree.now self.old.met self.old.places (builtin_dirs scope.now)) }
    {
        let mut done = 0;
        while let Some((dir, next)) = next_builtin_dir(scope, done) {
            self.add(alloc, tree, dir)?;
            done = next;
        }
        Ok(())
    }
}

/// The search directories for the directories of the conf file, followed by those that the scope adds.
#[tactic(auto, unfolding(crate::specs::Places::places, crate::specs::Places::absent))]
pub fn order(alloc: Global, scope: &Scope, tree: &Tree, conf: &Texts) -> Result<Dirs, NoMemory>
    ensures places { IfOk result (λ dirs. dirs.places ≡ places scope.now tree.now conf.now) }
    ensures real { IfOk result (λ dirs. IsTrue (are_dirs tree.now dirs.places)) }
    ensures absent { IfOk result (λ dirs. dirs.absent ≡ absent tree.now conf.now) }
    ensures spelled { IfOk result (λ dirs. All (λ dir. length dir ≤ PATH_MAX) conf.now → IsTrue (are_spelled dirs.places)) }
{
    tree.know();
    let mut gathering = Gathering {
        met: TextSet::new(alloc),
        places: Places::new(alloc),
    };
    let mut absent = Texts::new(alloc);
    for dir in conf.as_slice() {
        if !gathering.add(alloc, tree, dir.as_bytes())? {
            absent.push(Text::copy_of(alloc, dir.as_bytes())?)?;
        }
    }
    gathering.add_builtin(alloc, scope, tree)?;
    Ok(Dirs {
        places: gathering.places,
        absent,
    })
}

//! Looks up the files and links with library names, and what the links lead to.
ghost use Rattle.std.specs.Prelude.{◌≡◌, [], IsErrOf, OnOk, flat_map};
ghost use Rattle.image_tree.specs.Tree.{node_at};
ghost use Rattle.looked_places.specs.Listed.{is_among, is_link, libraries_listed, libraries_looked, library_looked, named_looked, ways_looked};
ghost use Rattle.looked_tree.specs.Looked.{Loads};
ghost use Rattle.root_tree.specs.ReadTree.{ReadsOn};
ghost use Rattle.root_tree.specs.declared.fault.TreeRead.TheVariants as reads;
ghost use Rattle.seen_tree.specs.Part.{dirs_at, listed};
ghost use Rattle.seen_tree.specs.Seen.{IsFull};

use crate::names::{Among, LibraryNames};
use hwcap_dirs::{Place, Places};
use lib_types::Text;
use looked_tree::LookedPart;
use path_walk::{Mode, join};
use root_folder::Folder;
use root_tree::TreeRead;
use std::alloc::Global;
use string_pool::TextSet;
use tree_face::{Node, Tree};

// Whether the path has a link.
fn is_link(tree: &Tree, path: &[u8]) -> bool
    ensures { result ≡ is_link (node_at tree.now path.now) }
{
    match tree.node(path) {
        Some(Node::Link { .. }) => true,
        _ => false,
    }
}

// Looks up the path of a name in a directory. If it is a link, looks up what its resolution needs too.
fn see_named<F: Folder>(
    alloc: Global,
    looked: &mut LookedPart,
    folder: &mut F,
    dir: &[u8],
    name: &[u8],
) -> Result<(), TreeRead>
    ensures loads { OnOk result (Loads (λ t. named_looked t dir.now name.now) (λ t. []) (F.state folder.old) (F.state folder.new) looked.old looked.new) }
    ensures full { IsErrOf result reads.TooLarge → IsFull looked.new.seen }
    ensures reads { ReadsOn result (F.state folder.old) (F.state folder.new) }
{
    let path = join(alloc, dir, name)?;
    looked.see(folder, path.as_bytes())?;
    if !is_link(looked.tree(), path.as_bytes()) {
        return Ok(());
    }
    looked.see_text(folder, path.as_bytes(), Mode::Full)
}

// The same for each of these names.
fn see_each<F: Folder>(
    alloc: Global,
    looked: &mut LookedPart,
    folder: &mut F,
    dir: &[u8],
    names: &[Text],
) -> Result<(), TreeRead>
    ensures loads { OnOk result (Loads (λ t. flat_map (named_looked t dir.now) names.now) (λ t. []) (F.state folder.old) (F.state folder.new) looked.old looked.new) }
    ensures full { IsErrOf result reads.TooLarge → IsFull looked.new.seen }
    ensures reads { ReadsOn result (F.state folder.old) (F.state folder.new) }
{
    for name in names {
        see_named(alloc, looked, folder, dir, name.as_bytes())?;
    }
    Ok(())
}

// Lists a search directory, and looks up its files and links with library names, and what the links lead to.
fn see_dir<F: Folder>(
    alloc: Global,
    looked: &mut LookedPart,
    folder: &mut F,
    dir: &[u8],
) -> Result<(), TreeRead>
    ensures loads { OnOk result (Loads (λ t. library_looked t dir.now) (λ t. dirs_at t dir.now) (F.state folder.old) (F.state folder.new) looked.old looked.new) }
    ensures full { IsErrOf result reads.TooLarge → IsFull looked.new.seen }
    ensures reads { ReadsOn result (F.state folder.old) (F.state folder.new) }
{
    let names = looked.list(folder, dir, &LibraryNames)?;
    see_each(alloc, looked, folder, dir, names.as_slice())
}

// The same for each of these search directories.
fn see_dirs<F: Folder>(
    alloc: Global,
    looked: &mut LookedPart,
    folder: &mut F,
    places: &[Place],
) -> Result<(), TreeRead>
    ensures loads { OnOk result (Loads (λ t. flat_map (λ place. library_looked t place.real) places.now) (λ t. flat_map (λ place. dirs_at t place.real) places.now)
        (F.state folder.old) (F.state folder.new) looked.old looked.new) }
    ensures full { IsErrOf result reads.TooLarge → IsFull looked.new.seen }
    ensures reads { ReadsOn result (F.state folder.old) (F.state folder.new) }
{
    for place in places {
        see_dir(alloc, looked, folder, place.real.as_bytes())?;
    }
    Ok(())
}

// Looks up the ways from the root to these search directories. Nearly always they were looked up before.
fn see_ways<F: Folder>(
    looked: &mut LookedPart,
    folder: &mut F,
    places: &[Place],
) -> Result<(), TreeRead>
    ensures loads { OnOk result (Loads (λ t. ways_looked t places.now) (λ t. []) (F.state folder.old) (F.state folder.new) looked.old looked.new) }
    ensures full { IsErrOf result reads.TooLarge → IsFull looked.new.seen }
    ensures reads { ReadsOn result (F.state folder.old) (F.state folder.new) }
{
    for place in places {
        looked.see_text(folder, place.real.as_bytes(), Mode::Full)?;
    }
    Ok(())
}

/// Lists the search directories, and looks up their files and links with library names, and what the links lead to. This is enough to plan
/// links and to follow the links of the tree with the planned links.
#[tactic(auto, unfolding(crate::specs::Listed::libraries_looked, crate::specs::Listed::libraries_listed))]
pub fn see_libraries<F: Folder>(
    alloc: Global,
    looked: &mut LookedPart,
    folder: &mut F,
    places: &Places,
) -> Result<(), TreeRead>
    ensures loads { OnOk result (Loads (λ t. libraries_looked t places.now) (λ t. libraries_listed t places.now) (F.state folder.old) (F.state folder.new) looked.old looked.new) }
    ensures full { IsErrOf result reads.TooLarge → IsFull looked.new.seen }
    ensures reads { ReadsOn result (F.state folder.old) (F.state folder.new) }
{
    see_ways(looked, folder, places.as_slice())?;
    see_dirs(alloc, looked, folder, places.as_slice())
}

/// Looks up those of these sonames that are names in a search directory. Lists the directory, unless it was listed before.
pub fn see_sonames<F: Folder>(
    looked: &mut LookedPart,
    folder: &mut F,
    dir: &[u8],
    sonames: &TextSet,
) -> Result<(), TreeRead>
    ensures loads { OnOk result (Loads (λ t. listed (is_among sonames.now) t dir.now) (λ t. dirs_at t dir.now) (F.state folder.old) (F.state folder.new) looked.old looked.new) }
    ensures full { IsErrOf result reads.TooLarge → IsFull looked.new.seen }
    ensures reads { ReadsOn result (F.state folder.old) (F.state folder.new) }
{
    looked.list(folder, dir, &Among { names: sonames })?;
    Ok(())
}

//! The links that a path resolution follows, and the file at its end.
ghost use Rattle.std.specs.Prelude.{◌≡◌, ◌++◌, IfOk, OnOk};
ghost use Rattle.image_tree.specs.Paths.{components};
ghost use Rattle.path_walk.specs.Names.{parent};
ghost use Rattle.path_walk.specs.Walk.{start_of, target_at};
ghost use Rattle.file_trails.specs.Steps.{IsStep, Passes};
ghost use Rattle.file_trails.specs.Trail.{trail};

use crate::names::{add_copies, names_of};
use lib_types::{NoMemory, Text, Texts};
use path_walk::{LINKS_MAX, join, parent_of, start_of, target_of};
use std::alloc::Global;
use tree_face::{Kind, Tree};

/// What a name leads to in a directory.
#[derive(Drop)]
enum Step {
    /// The walk goes on from this directory.
    To(Text),
    /// The walk ends at this file.
    File(Text),
    /// The walk must follow the link at this path.
    Link(Text),
    Nowhere,
}

/// The names that a walk has left when it must follow a link, and the directory from which it goes on.
#[derive(Drop)]
struct Onward {
    names: Texts,
    place: Text,
}

#[tactic(auto, using(crate::proofs::Steps::goes_up, crate::proofs::Steps::goes_down, crate::proofs::Steps::stops_at_file, crate::proofs::Steps::stops_at_link, crate::proofs::Steps::nowhere))]
fn take_step(alloc: Global, tree: &Tree, place: &[u8], name: &[u8]) -> Result<Step, NoMemory>
    ensures { IfOk result (IsStep tree.now name.now place.now) }
{
    if name == b"..".as_slice() {
        return Ok(Step::To(parent_of(alloc, place)?));
    }
    let path = join(alloc, place, name)?;
    match tree.kind(path.as_bytes()) {
        Kind::Dir => Ok(Step::To(path)),
        Kind::File => Ok(Step::File(path)),
        Kind::Link => Ok(Step::Link(path)),
        Kind::Absent => Ok(Step::Nowhere),
    }
}

// How the walk goes on from the link at this path in a directory, with these names left.
fn follow(
    alloc: Global,
    tree: &Tree,
    place: Text,
    link: &[u8],
    rest: &[Text],
) -> Result<Onward, NoMemory>
    ensures names { IfOk result (λ onward. onward.names ≡ components (target_at tree.now link.now) ++ rest.now) }
    ensures place { IfOk result (λ onward. onward.place ≡ start_of (target_at tree.now link.now) place) }
{
    let target = target_of(alloc, tree, link)?;
    let mut names = names_of(alloc, target.as_bytes())?;
    add_copies(alloc, &mut names, rest)?;
    let place = start_of(alloc, place, target.as_bytes())?;
    Ok(Onward { names, place })
}

// Walks by these names from a directory, to the end or to the first link, and adds the link or the file at which it stops.
fn pass(
    alloc: Global,
    tree: &Tree,
    start: Text,
    names: &[Text],
    met: &mut Texts,
) -> Result<Option<Onward>, NoMemory>
    ensures { IfOk result (Passes tree.now names.now start met.old met.new) }
{
    let mut place = start;
    let mut rest = names;
    while let Some((name, more)) = rest.split_first() {
        match take_step(alloc, tree, place.as_bytes(), name.as_bytes())? {
            Step::To(next) => place = next,
            Step::Link(path) => {
                let onward = follow(alloc, tree, place, path.as_bytes(), more)?;
                met.push(path)?;
                return Ok(Some(onward));
            }
            Step::File(path) => {
                met.push(path)?;
                return Ok(None);
            }
            Step::Nowhere => return Ok(None),
        }
        rest = more;
    }
    Ok(None)
}

/// Adds the links that the resolution of this path follows, in order, and the file to which it leads.
pub fn add_trail(alloc: Global, tree: &Tree, path: &[u8], met: &mut Texts) -> Result<(), NoMemory>
    ensures { OnOk result (met.new ≡ met.old ++ trail tree.now path.now) }
{
    let mut place = Text::copy_of(alloc, b"/")?;
    let mut names = names_of(alloc, path)?;
    let mut walks = LINKS_MAX + 1;
    while walks > 0 {
        walks -= 1;
        let Some(onward) = pass(alloc, tree, place, names.as_slice(), met)? else {
            return Ok(());
        };
        place = onward.place;
        names = onward.names;
    }
    Ok(())
}

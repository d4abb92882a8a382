//! The walk along a path, name by name.
ghost use Rattle.std.specs.Prelude.{◌≡◌, ◌∷◌, None, IfOk, IfErr, Ok, MatchResult, MatchOption, OnOk};
ghost use Rattle.std.specs.Option.{option_copied};
ghost use Rattle.image_tree.specs.Paths.{components};
ghost use Rattle.image_tree.specs.Tree.{IsTree, kind_at, node_at};
ghost use Rattle.image_tree.specs.declared.tree.Kind.TheVariants as kinds;
ghost use Rattle.path_walk.specs.Walk.{steps, walk, start_of, is_plain_mode, IsNotFound, resolution};
ghost use Rattle.path_walk.specs.Stops.{StopsAt, IsAt, IsAbsentAt, IsChild, IsChildAt, IsNoChild, KeepsDir, EndsAt, EndsAtFile, GoesOn, HaltsAt, Fails, LinkIsLeft};
ghost use Rattle.path_walk.specs.declared.walk.Halt.TheVariants as halts;
ghost use Rattle.path_walk.specs.Rest.{names_in};
ghost use Rattle.path_walk.specs.declared.walk.WalkFault.TheVariants as faults;

use crate::names::{enter, joined, leave, next_name};
use lib_types::{NoMemory, Text};
use name_order::is_library_name;
use std::alloc::{AllocError, Global};
use tree_face::{Kind, Node, Tree};

/// Which links are followed.
#[derive(Clone, Copy, Debug, PartialEq, Eq)]
pub enum Mode {
    /// A link with a library name counts as absent: ldconfig makes such links itself.
    Plain,
    /// All links.
    Full,
}

/// Why a path cannot be resolved.
#[derive(Clone, Copy, Debug, PartialEq, Eq)]
pub enum WalkFault {
    /// A name doesn't exist.
    Absent,
    /// A name or `..` follows a file.
    NotDir,
    /// The walk would have to follow more than `LINKS_MAX` links.
    TooManyLinks,
    NoMemory,
}

impl From<NoMemory> for WalkFault {
    ghost from_gives = { λ _ e. e ≡ faults.NoMemory };

    fn from(_: NoMemory) -> Self {
        WalkFault::NoMemory
    }
}

impl From<AllocError> for WalkFault {
    ghost from_gives = { λ _ e. e ≡ faults.NoMemory };

    fn from(_: AllocError) -> Self {
        WalkFault::NoMemory
    }
}

/// The maximum number of links that one walk follows, as in Linux (path_resolution(7)).
pub const LINKS_MAX: usize = 40;

// The kind of the path at which a walk ends.
#[derive(Clone, Copy)]
pub(crate) enum End {
    Dir,
    File,
}

// Where a walk halts: at its end, or at a link that it must follow.
#[derive(Clone, Copy)]
enum Halt<'t, 'p> {
    Reached(End),
    Link {
        target: &'t [u8],
        rest: Option<&'p [u8]>,
    },
}

// What is at a path. A link has its target.
#[derive(Clone, Copy)]
enum Child<'t> {
    Dir,
    File,
    Link(&'t [u8]),
}

// What is at a path that has no node, given the path's kind. It is a directory if there is something below it.
#[tactic(auto, using(crate::proofs::KindsAt::absent_else))]
fn child_by<'t>(tree: &'t Tree, place: &[u8], kind: Kind) -> Option<Child<'t>>
    requires none { node_at tree.now place.now ≡ None }
    requires kind { kind ≡ kind_at tree.now place.now }
    ensures { MatchOption result (kind_at tree.now place.now ≡ kinds.Absent) (IsAt tree.now place.now) }
{
    match kind {
        Kind::Dir => Some(Child::Dir),
        _ => None,
    }
}

// What is at a path, by one search.
#[tactic(auto, using(crate::proofs::KindsAt::kind_of_node))]
fn child_at<'t>(tree: &'t Tree, place: &[u8]) -> Option<Child<'t>>
    ensures { MatchOption result (kind_at tree.now place.now ≡ kinds.Absent) (IsAt tree.now place.now) }
{
    match tree.node_or_kind(place) {
        Ok(Node::Dir) => Some(Child::Dir),
        Ok(Node::File { .. }) => Some(Child::File),
        Ok(Node::Link { target }) => Some(Child::Link(target.as_bytes())),
        Err(kind) => child_by(tree, place, kind),
    }
}

/// Whether links with library names count as absent.
pub fn is_plain_mode(mode: Mode) -> bool
    ensures { result ≡ is_plain_mode mode }
{
    match mode {
        Mode::Plain => true,
        Mode::Full => false,
    }
}

// What is at a path with this last name. In mode Plain, a link with a library name counts as absent. Allocates no memory.
fn child_in<'t>(
    tree: &'t Tree,
    mode: Mode,
    place: &[u8],
    name: &[u8],
) -> Result<Child<'t>, WalkFault>
    ensures child { IfOk result (IsChildAt tree.now mode name.now place.now) }
    ensures none { IfErr result (λ fault. (fault ≡ faults.Absent) × IsAbsentAt tree.now mode name.now place.now) }
{
    let child = child_at(tree, place).ok_or(WalkFault::Absent)?;
    if let Child::Link(_) = child {
        if is_plain_mode(mode) && is_library_name(name) {
            return Err(WalkFault::Absent);
        }
    }
    Ok(child)
}

// Goes to the child with this name in the directory. If the child is a link, stays in the directory.
fn step<'t>(
    tree: &'t Tree,
    mode: Mode,
    place: &mut Vec<u8>,
    name: &[u8],
) -> Result<Child<'t>, WalkFault>
    ensures child { IfOk result (IsChild tree.now mode name.now place.old.items place.new.items) }
    ensures none { IfErr result (IsNoChild tree.now mode name.now place.old.items) }
{
    let folder = place.len();
    enter(place, name)?;
    let child = child_in(tree, mode, place, name)?;
    if let Child::Link(_) = child {
        place.truncate(folder);
    }
    Ok(child)
}

// Ends a walk at a file. It is an error if a name follows the file. Allocates no memory.
fn end_at_file(rest: Option<&[u8]>) -> Result<(), WalkFault>
    ensures { EndsAtFile (names_in (option_copied rest.entry)) result }
{
    match next_name(rest) {
        Some(_) => Err(WalkFault::NotDir),
        None => Ok(()),
    }
}

// Takes one step of the walk, by a name; `rest` is the text after it. Returns None if the walk goes on from the new place.
#[tactic(auto, using(crate::proofs::KindsAt::folder_dir))]
fn go<'t, 'p>(
    tree: &'t Tree,
    mode: Mode,
    place: &mut Vec<u8>,
    name: &[u8],
    rest: Option<&'p [u8]>,
) -> Result<Option<Halt<'t, 'p>>, WalkFault>
    requires { IsTree tree.now }
    ensures goes { IfOk result (GoesOn tree.now mode name.now (names_in (option_copied rest.entry)) place.old.items place.new.items) }
    ensures located { IfOk result (λ stop. MatchOption stop (KeepsDir tree.now place.old.items place.new.items) (HaltsAt tree.now place.old.items place.new.items)) }
    ensures fails { IfErr result (Fails (steps tree.now mode (name.now ∷ names_in (option_copied rest.entry)) place.old.items)) }
{
    if name == b"..".as_slice() {
        leave(place)?;
        return Ok(None);
    }
    match step(tree, mode, place, name)? {
        Child::Dir => Ok(None),
        Child::File => {
            end_at_file(rest)?;
            Ok(Some(Halt::Reached(End::File)))
        }
        Child::Link(target) => Ok(Some(Halt::Link { target, rest })),
    }
}

// Walks along the names of this text, to the end or to the first link that must be followed.
fn walk_names<'t, 'p>(
    tree: &'t Tree,
    mode: Mode,
    place: &mut Vec<u8>,
    path: Option<&'p [u8]>,
) -> Result<Halt<'t, 'p>, WalkFault>
    requires { IsTree tree.now }
    ensures halts { IfOk result (StopsAt tree.now mode (names_in (option_copied path.entry)) place.old.items place.new.items) }
    ensures located { IfOk result (HaltsAt tree.now place.old.items place.new.items) }
    ensures fails { IfErr result (Fails (steps tree.now mode (names_in (option_copied path.entry)) place.old.items)) }
{
    let mut left = path;
    while let Some((name, rest)) = next_name(left) {
        if let Some(halt) = go(tree, mode, place, name, rest)? {
            return Ok(halt);
        }
        left = rest;
    }
    Ok(Halt::Reached(End::Dir))
}

// Goes to the directory where a link's target starts: the root if the target is absolute, otherwise the link's directory.
pub(crate) fn restart(place: &mut Vec<u8>, target: &[u8]) -> Result<(), NoMemory>
    ensures { OnOk result (place.new.items ≡ start_of target.now place.old.items) }
{
    if target.starts_with(b"/") {
        place.clear();
        place.push(b'/')?;
    }
    Ok(())
}

// The end of a walk that may follow no more links. Allocates no memory.
fn last_end(halt: Halt<'_, '_>) -> Result<End, WalkFault>
    ensures { MatchResult result (λ end. halt.entry ≡ halts.Reached end) (LinkIsLeft halt.entry) }
{
    match halt {
        Halt::Reached(end) => Ok(end),
        Halt::Link { .. } => Err(WalkFault::TooManyLinks),
    }
}

// Walks along this path text from the place, and follows at most `links` links.
#[tactic(auto, using(crate::proofs::Walks::walk_ends, crate::proofs::Walks::walk_follows, crate::proofs::Walks::walk_stops, crate::proofs::KindsAt::start_dir))]
pub(crate) fn follow(
    alloc: Global,
    tree: &Tree,
    mode: Mode,
    place: &mut Vec<u8>,
    path: Vec<u8>,
    links: usize,
) -> Result<End, WalkFault>
    requires { IsTree tree.now }
    ensures reached { OnOk result (walk tree.now mode links (steps tree.now mode (components path.items) place.old.items) ≡ Ok place.new.items) }
    ensures located { IfOk result (EndsAt tree.now place.old.items place.new.items) }
    ensures fails { IfErr result (IsNotFound (walk tree.now mode links (steps tree.now mode (components path.items) place.old.items))) }
{
    let mut path = path;
    for link in 0..links {
        let more = match walk_names(tree, mode, place, Some(&path))? {
            Halt::Reached(end) => return Ok(end),
            Halt::Link { target, rest } => {
                restart(place, target)?;
                joined(alloc, target, rest)?
            }
        };
        path = more;
    }
    last_end(walk_names(tree, mode, place, Some(&path))?)
}

/// Resolves a path text to a path without links. Every text is resolved from the root, with or without a leading slash.
///
/// Allocates memory for the result and for the rest of the path.
#[tactic(auto, unfolding(crate::specs::Walk::resolution))]
pub fn resolve(alloc: Global, tree: &Tree, path: &[u8], mode: Mode) -> Result<Text, WalkFault>
    ensures place { IfOk result (λ place. resolution tree.now path.now mode ≡ Ok place) }
    ensures fault { IfErr result (IsNotFound (resolution tree.now path.now mode)) }
{
    tree.know();
    let mut place = Vec::from_slice(alloc, b"/")?;
    let left = Vec::from_slice(alloc, path)?;
    follow(alloc, tree, mode, &mut place, left, LINKS_MAX)?;
    Ok(Text::from_vec(place))
}

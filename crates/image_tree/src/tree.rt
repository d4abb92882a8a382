//! The tree of an image.
ghost use Rattle.std.specs.Prelude.{◌≡◌, ◌↔◌, false, [], IfErr, IfOk, IsOk, None, OnOk, OnErr, IsSome, IsTrue, Some, length, map};
ghost use Rattle.std.specs.Option.{option_copied, is_some};

use crate::node::Node;
use lib_types::NoMemory;
use std::alloc::Global;
use std::cell::Cell;
use std::marker::Model;

mod entries;
mod listing;
mod paths;
mod rest;
mod row;
mod run;
mod runs;

pub use listing::{Children, Listing};
use rest::Rest;
use run::Run;
use runs::Place;

/// The maximum number of nodes of a tree. Large images have fewer files. The limit bounds the time and memory that a manifest can make an
/// update take.
pub const NODES_MAX: usize = 1 << 20;

/// The kind of a path, for callers that don't need the node.
#[derive(Clone, Copy, Debug, PartialEq, Eq)]
pub enum Kind {
    Absent,
    Dir,
    File,
    Link,
}

/// Why `put` failed.
#[derive(Clone, Copy, Debug, PartialEq, Eq)]
pub enum TreeFault {
    /// A file or a link would have something below it.
    Clash,
    /// The tree already has `NODES_MAX` nodes.
    Full,
    NoMemory,
}

impl From<NoMemory> for TreeFault {
    ghost use Rattle.image_tree.specs.declared.tree.TreeFault.TheVariants as faults;

    ghost from_gives = { λ _ fault. fault ≡ faults.NoMemory };

    fn from(_: NoMemory) -> TreeFault {
        TreeFault::NoMemory
    }
}

/// The nodes of an image by their paths. In contracts a tree is the list of paths and nodes, in the order of the paths.
///
/// The root is a directory without a node. Each path that has no node but has something below it is such a directory too.
#[derive(Drop)]
pub struct Tree {
    alloc: Global,
    // the entries in sorted runs
    runs: Vec<Run>,
    // the number of nodes
    count: usize,
    // the place of the last node that was found or put; the next search starts there
    near: Cell<Place>,
}

impl Model for Tree {
    ghost use Rattle.std.specs.Prelude.{◌≡◌, length};
    ghost use Rattle.image_tree.specs.Runs.{joined, AreRuns};
    ghost use Rattle.image_tree.specs.Tree.{Nodes};

    ghost Value = { Nodes };

    ghost view = { λ t. joined t.runs.items };

    ghost invariant = { λ t. AreRuns t.runs.items × (t.count ≡ length (joined t.runs.items)) };
}

impl Tree {
    ghost use Rattle.std.specs.Cmp.Lexicographic.{slice_cmp};
    ghost use Rattle.std.specs.List.Sorted.{IsStrictlySortedBy};
    ghost use Rattle.std.specs.Ordering.{nat_cmp};
    ghost use Rattle.image_tree.specs.Tree.{IsTree, IsPathSorted, put, remove, node_at, clashes, IsFullFor, kind_at, children_of, listing_of};
    ghost use Rattle.image_tree.specs.Node.{is_node};
    ghost use Rattle.image_tree.specs.Paths.{is_path};

    /// A tree without nodes. It keeps the allocator and allocates nothing.
    pub fn new(alloc: Global) -> Tree
        ensures { result ≡ [] }
    {
        Tree {
            alloc,
            runs: Vec::new(alloc),
            count: 0,
            near: Cell::new(Place { run: 0, at: 0 }),
        }
    }

    /// The number of nodes.
    pub fn len(&self) -> usize
        ensures { result ≡ length self.now }
    {
        self.count
    }

    /// The node of the path, found by a binary search.
    pub fn node(&self, path: &[u8]) -> Option<&Node>
        ensures node { option_copied result ≡ node_at self.now path.now }
        ensures at_paths { IsSome (node_at self.now path.now) → IsTrue (is_path path.now) }
        ensures sorted { IsPathSorted self.now }
    {
        let place = entries::place_of(&self.runs, self.near.get(), path)?;
        self.near.set(place);
        Some(entries::node(&self.runs, place, path))
    }

    /// The node of the path, or the kind of the path if it has no node. One search finds both.
    pub fn node_or_kind(&self, path: &[u8]) -> Result<&Node, Kind>
        ensures node { IfOk result (λ node. node_at self.now path.now ≡ Some node.now) }
        ensures at_paths { IsOk result → IsTrue (is_path path.now) }
        ensures none { IfErr result (λ kind. (node_at self.now path.now ≡ None) × (kind ≡ kind_at self.now path.now)) }
    {
        match entries::find_at(&self.runs, self.near.get(), path) {
            Ok(place) => {
                self.near.set(place);
                Ok(entries::node(&self.runs, place, path))
            }
            Err(place) => Err(entries::kind_in_gap(&self.runs, path, place)),
        }
    }

    /// The kind of the path. The root is a directory. A text that isn't a path and isn't the root is absent.
    pub fn kind(&self, path: &[u8]) -> Kind
        ensures { result ≡ kind_at self.now path.now }
    {
        entries::kind(&self.runs, path)
    }

    /// Puts the node at the path. It replaces a node that is there.
    ///
    /// If the path comes after all others, this needs no search and moves no entry.
    pub fn put(&mut self, path: &[u8], node: Node) -> Result<(), TreeFault>
        requires path { IsTrue (is_path path.now) }
        requires node { IsTrue (is_node node) }
        ensures done { OnOk result (self.new ≡ put self.old path.now node) }
        ensures refused { OnErr result (self.new ≡ self.old) }
        ensures clash { (result ≡ Err TreeFault.Clash) ↔ IsTrue (clashes self.old path.now node) }
        ensures full { (result ≡ Err TreeFault.Full) ↔ IsFullFor self.old path.now node }
    {
        let found = entries::find_for(&self.runs, self.near.get(), self.count, path, &node)?;
        self.near.set(found.unwrap_or_else(|gap| gap));
        self.count = entries::put_at(self.alloc, &mut self.runs, self.count, found, path, node)?;
        Ok(())
    }

    /// Removes the node at the path, and returns whether there was one. Nodes below the path stay.
    pub fn remove(&mut self, path: &[u8]) -> bool
        ensures list { self.new ≡ remove self.old path.now }
        ensures found { result ≡ is_some (node_at self.old path.now) }
    {
        let found = entries::remove(&mut self.runs, path);
        if found {
            self.count -= 1;
        }
        found
    }

    /// The names directly below a directory, in the order of their bytes, each with its node. A directory that exists only as part of
    /// longer paths has no node.
    pub fn listing(&self, path: &[u8]) -> Listing<'_>
        ensures list { result ≡ listing_of self.now path.now }
        ensures sorted { IsStrictlySortedBy (slice_cmp nat_cmp) (map (λ c. c.0) result) }
        ensures tree { IsTree self.now }
    {
        match entries::from_dir(&self.runs, path) {
            Some(rest) => Listing::of(rest, path),
            None => Listing::none(),
        }
    }

    /// The names directly below a directory, in the order of their bytes.
    pub fn children(&self, path: &[u8]) -> Children<'_>
        ensures names { result ≡ children_of self.now path.now }
        ensures sorted { IsStrictlySortedBy (slice_cmp nat_cmp) result }
    {
        Children::of(self.listing(path))
    }

    /// All nodes with their paths, in the order of the paths.
    pub fn nodes(&self) -> Nodes<'_>
        ensures all { result ≡ self.now }
        ensures sorted { IsPathSorted self.now }
        ensures tree { IsTree self.now }
    {
        Nodes {
            rest: Rest::all(&self.runs),
        }
    }

    /// Gives contracts the invariant of a tree. It visits no node.
    pub fn know(&self)
        ensures { IsTree self.now }
    {
        let _ = self.nodes();
    }
}

/// An iterator over the nodes of a tree.
#[derive(Drop)]
pub struct Nodes<'a> {
    rest: Rest<'a>,
}

impl<'a> Model for Nodes<'a> {
    ghost use Rattle.image_tree.specs.Tree.{Nodes};

    ghost Value = { Nodes };

    ghost view = { λ s. s.rest };
}

impl<'a> Iterator for Nodes<'a> {
    ghost use Rattle.std.specs.Iterator.{YieldsFirstBy, item_count};

    type Item = (&'a [u8], &'a Node);

    ghost next_gives = { YieldsFirstBy (λ x. (x.0.now, x.1.now)) (λ s. s) };

    ghost remaining = { item_count (λ s. s) };

    fn next(&mut self) -> Option<(&'a [u8], &'a Node)> {
        let (first, rest) = self.rest.split_first()?;
        self.rest = rest;
        Some((first.path, first.node))
    }
}

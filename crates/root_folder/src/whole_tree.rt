//! A tree in which every directory has a node.
ghost use Rattle.std.proofs.Props.{props};
ghost use Rattle.std.specs.Prelude.{◌≡◌};
ghost use Rattle.std.specs.Option.{option_copied};
ghost use Rattle.image_tree.specs.Tree.{IsTree};
ghost use Rattle.root_folder.specs.Whole.{IsWhole, are_in_dirs, has_dir, is_free};

use crate::nodes::copy_found;
use lib_types::{NoMemory, Text, Texts};
use path_walk::parted;
use std::alloc::Global;
use tree_face::{Kind, Node, Tree};

// Whether the path is the root or has a directory node.
fn has_dir(tree: &Tree, dir: &[u8]) -> bool
    ensures { result ≡ has_dir tree.now dir.now }
{
    if dir == b"/".as_slice() {
        return true;
    }
    match tree.node(dir) {
        Some(Node::Dir) => true,
        _ => false,
    }
}

// Whether each node is in a directory.
fn are_in_dirs(tree: &Tree) -> bool
    ensures dirs { result ≡ are_in_dirs tree.now }
    ensures tree { IsTree tree.now }
{
    tree.know();
    tree.nodes().all(|entry| has_dir(tree, parted(entry.0).0))
}

// Whether the path is unused or has a link.
fn is_free(found: Option<&Node>) -> bool
    ensures { result ≡ is_free (option_copied found.entry) }
{
    match found {
        None => true,
        Some(Node::Link { .. }) => true,
        Some(_) => false,
    }
}

/// A tree in which every directory has a node.
#[derive(Drop)]
pub struct WholeTree {
    tree: Tree,
    ghost whole: { IsWhole tree } by { Prim.hlevel props },
}

impl WholeTree {
    ghost use Rattle.std.specs.Prelude.{◌↔◌, IfOk, IfSome, IsTrue, MatchResult, is_some, true};
    ghost use Rattle.std.specs.Cmp.Lexicographic.{slice_cmp};
    ghost use Rattle.std.specs.List.Sorted.{IsStrictlySortedBy};
    ghost use Rattle.std.specs.Ordering.{nat_cmp};
    ghost use Rattle.image_tree.specs.Node.{is_node, is_target};
    ghost use Rattle.image_tree.specs.Paths.{is_path};
    ghost use Rattle.image_tree.specs.Tree.{children_of, kind_at, node_at, put};
    ghost use Rattle.image_tree.specs.declared.node.Node.TheVariants.{Link};
    ghost use Rattle.image_tree.specs.declared.tree.Kind.TheVariants as kinds;
    ghost use Rattle.root_folder.specs.Whole.{can_link};

    /// The tree, if each of its nodes is in a directory that has a node.
    pub fn of(tree: Tree) -> Option<WholeTree>
        ensures some { is_some result ≡ are_in_dirs tree }
        ensures tree { IfSome result (λ whole. whole.tree ≡ tree) }
    {
        if are_in_dirs(&tree) {
            Some(WholeTree { tree })
        } else {
            None
        }
    }

    /// The node at the path.
    pub fn node(&self, path: &[u8]) -> Option<&Node>
        ensures { option_copied result ≡ node_at self.now.tree path.now }
    {
        self.tree.node(path)
    }

    /// A copy of the node at the path.
    pub fn copy_of(&self, alloc: Global, path: &[u8]) -> Result<Option<Node>, NoMemory>
        ensures node { IfOk result (λ found. found ≡ node_at self.now.tree path.now) }
        ensures valid { IfOk result (λ found. IfSome found (λ node. IsTrue (is_node node))) }
    {
        copy_found(alloc, self.tree.node(path))
    }

    /// Whether the path is a directory.
    pub fn is_dir(&self, path: &[u8]) -> bool
        ensures { IsTrue result ↔ (kind_at self.now.tree path.now ≡ kinds.Dir) }
    {
        self.tree.kind(path) == Kind::Dir
    }

    /// The names directly in a directory.
    pub fn names(&self, alloc: Global, dir: &[u8]) -> Result<Texts, NoMemory>
        ensures names { IfOk result (λ names. names ≡ children_of self.now.tree dir.now) }
        ensures sorted { IfOk result (λ names. IsStrictlySortedBy (slice_cmp nat_cmp) names) }
    {
        let mut names = Texts::new(alloc);
        for name in self.tree.children(dir) {
            names.push(Text::copy_of(alloc, name)?)?;
        }
        Ok(names)
    }

    /// Whether a link may be made at the path.
    pub fn can_link(&self, path: &[u8]) -> bool
        ensures { result ≡ can_link self.now.tree path.now }
    {
        has_dir(&self.tree, parted(path).0) && is_free(self.tree.node(path))
    }

    /// Makes a link at a path where `can_link` allows one.
    #[tactic(auto, using(crate::proofs::Whole::whole_either))]
    pub fn put_link(&mut self, path: &[u8], target: Text) -> Result<(), NoMemory>
        requires path { IsTrue (is_path path.now) }
        requires target { IsTrue (is_target target) }
        requires room { can_link self.old.tree path.now ≡ true }
        ensures { MatchResult result (λ _. self.new.tree ≡ put self.old.tree path.now (Link target)) (λ _. self.new.tree ≡ self.old.tree) }
    {
        match self.tree.put(path, Node::Link { target }) {
            Ok(()) => Ok(()),
            Err(_) => Err(NoMemory),
        }
    }
}

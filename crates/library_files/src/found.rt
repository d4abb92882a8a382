//! Files of a tree, with their keys and identities.
ghost use Rattle.std.proofs.Common.{refl};
ghost use Rattle.std.specs.Cmp.{eq_by_cmp_equiv, partial_equiv_from_equiv, partial_order_from_total};
ghost use Rattle.std.specs.Option.{option_copied};
ghost use Rattle.std.specs.Ordering.{as_partial_cmp, eq_by_cmp};
ghost use Rattle.std.specs.List.{filter_map};
ghost use Rattle.std.specs.Prelude.{◌≡◌, IfOk};
ghost use Rattle.library_files.specs.Children.{file_there, file_with};
ghost use Rattle.library_files.specs.FoundFile.{path_order, path_order-total, paths_of, AreFilesOf};
ghost use Rattle.string_pool.specs.Order.{ascending};
ghost use Rattle.image_tree.specs.Tree.{Nodes};

use lib_types::{NoMemory, Text, Texts, compare_bytes};
use std::alloc::Global;
use std::cmp::Ordering;
use std::marker::Model;
use tree_face::{Id, Node, Tree};

/// A file of a tree: its resolved path, its key and its identity. Files are sorted by their paths.
#[derive(Drop)]
pub struct FoundFile<'a> {
    pub path: Text,
    pub key: &'a [u8],
    pub id: Option<&'a Id>,
}

impl<'a> Model for FoundFile<'a> {
    ghost use Rattle.std.specs.Option.{option_copied};
    ghost use Rattle.library_files.specs.FoundFile.{FoundFile};

    ghost Value = { FoundFile };

    ghost view = { λ f. record { path = f.path; key = f.key.now; id = option_copied f.id } };
}

impl<'a> PartialEq for FoundFile<'a> {
    ghost eq = { eq_by_cmp path_order };

    ghost laws = { partial_equiv_from_equiv (eq_by_cmp_equiv path_order-total) };

    fn eq(&self, other: &Self) -> bool {
        self.cmp(other).is_eq()
    }
}

impl<'a> Eq for FoundFile<'a> {
    ghost laws = { eq_by_cmp_equiv path_order-total };
}

impl<'a> PartialOrd for FoundFile<'a> {
    ghost partial_cmp = { as_partial_cmp path_order };

    ghost laws = { partial_order_from_total path_order-total };

    fn partial_cmp(&self, other: &Self) -> Option<Ordering> {
        Some(self.cmp(other))
    }
}

impl<'a> Ord for FoundFile<'a> {
    ghost cmp = { path_order };

    ghost total = { path_order-total };

    ghost matches_partial_cmp = { λ a b. refl };

    ghost matches_eq = { λ a b. refl };

    fn cmp(&self, other: &Self) -> Ordering {
        compare_bytes(self.path.as_bytes(), other.path.as_bytes())
    }
}

/// The file at a path with this node, if the node is a file.
pub(crate) fn file_with<'a>(path: Text, node: Option<&'a Node>) -> Option<FoundFile<'a>>
    ensures { result ≡ file_with path (option_copied node.entry) }
{
    match node {
        Some(Node::File { key, id }) => Some(FoundFile {
            path,
            key: key.as_bytes(),
            id: id.as_ref(),
        }),
        _ => None,
    }
}

/// The files at these paths.
pub(crate) fn files_there<'a>(
    alloc: Global,
    tree: &'a Tree,
    paths: Texts,
) -> Result<Vec<FoundFile<'a>>, NoMemory>
    ensures { IfOk result (λ files. files.items ≡ filter_map (file_there tree.now) paths) }
{
    let mut files = Vec::with_capacity(alloc, paths.len())?;
    for path in paths.into_vec() {
        let node = tree.node(path.as_bytes());
        if let Some(file) = file_with(path, node) {
            files.push(file)?;
        }
    }
    Ok(files)
}

/// The files sorted by the bytes of their paths, each once. A list that is built directory by directory has a few sorted runs,
/// so sorting it is fast.
#[tactic(auto, using(crate::proofs::FoundOnce::paths_once, crate::proofs::FoundOnce::still_files))]
pub(crate) fn in_order<'a>(files: Vec<FoundFile<'a>>) -> Result<Vec<FoundFile<'a>>, NoMemory>
    ensures paths { IfOk result (λ sorted. paths_of sorted.items ≡ ascending (paths_of files.entry.items)) }
    ensures files { IfOk result (λ sorted. (t : Nodes) → AreFilesOf t files.entry.items → AreFilesOf t sorted.items) }
{
    let mut sorted = files;
    sorted.sort()?;
    sorted.dedup();
    Ok(sorted)
}

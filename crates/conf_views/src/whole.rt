//! The view of a whole tree.
ghost use Rattle.std.specs.Prelude.{◌≡◌, ◌++◌, IfOk, OnOk, map};
ghost use Rattle.std.specs.Option.{option_copied};
ghost use Rattle.image_tree.specs.Tree.{node_at};
ghost use Rattle.conf_views.specs.Files.{file_of, files, key_in};

use crate::fault::ViewFault;
use crate::view::{FoundFile, TreeView};
use conf_patterns::patterns::{Results, place_of, results};
use lib_types::{NoMemory, Text};
use std::alloc::Global;
use tree_face::{Node, Tree};

// The key of the file at a path, if there is one.
fn key_at(alloc: Global, tree: &Tree, place: &[u8]) -> Result<Option<Text>, NoMemory>
    ensures { IfOk result (λ key. key ≡ key_in (node_at tree.now place.now)) }
{
    match tree.node(place) {
        Some(Node::File { key, .. }) => Ok(Some(Text::copy_of(alloc, key.as_bytes())?)),
        _ => Ok(None),
    }
}

fn file_of(alloc: Global, tree: &Tree, spelled: Text, real: Text) -> Result<FoundFile, NoMemory>
    ensures { IfOk result (λ file. file ≡ file_of tree.now (spelled, real)) }
{
    let key = key_at(alloc, tree, real.as_bytes())?;
    Ok(FoundFile { spelled, real, key })
}

fn files_of(alloc: Global, tree: &Tree, found: Results) -> Result<Vec<FoundFile>, NoMemory>
    ensures { IfOk result (λ files. files.items ≡ map (file_of tree.now) found.entries) }
{
    let mut files = Vec::new(alloc);
    for (spelled, real) in found {
        files.push(file_of(alloc, tree, spelled, real)?)?;
    }
    Ok(files)
}

/// The view of a whole tree: nothing has to be looked up.
#[derive(Drop)]
pub struct WholeView<'t> {
    tree: &'t Tree,
}

impl<'t> WholeView<'t> {
    pub fn new(tree: &'t Tree) -> WholeView<'t>
        ensures { result.tree.now ≡ tree.now }
    {
        WholeView { tree }
    }
}

impl<'t> TreeView for WholeView<'t> {
    ghost use Rattle.conf_views.specs.View.{whole};

    ghost state = { λ v. whole v.tree.now };

    ghost knows = { λ v. Unit {0} };

    ghost since = { λ start v. Unit {0} };

    ghost fails = { λ fault start v. Unit {0} };

    ghost starts = { λ v. tt };

    ghost gives_up = { λ start v h. tt };

    fn file_at(&mut self, alloc: Global, text: &[u8]) -> Result<Option<FoundFile>, ViewFault> {
        let Some(real) = place_of(alloc, self.tree, text)? else {
            return Ok(None);
        };
        let spelled = Text::copy_of(alloc, text)?;
        Ok(Some(file_of(alloc, self.tree, spelled, real)?))
    }

    fn files(
        &mut self,
        alloc: Global,
        file: &[u8],
        pattern: &[u8],
    ) -> Result<Vec<FoundFile>, ViewFault> {
        let found = results(alloc, self.tree, file, pattern)?;
        Ok(files_of(alloc, self.tree, found)?)
    }
}

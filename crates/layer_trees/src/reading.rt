//! Reading the manifests of layers.
ghost use Rattle.std.specs.Prelude.{[]};
ghost use Rattle.layer_trees.specs.Layers.{ReadsTrees};
ghost use Rattle.layer_trees.specs.Steps.{ReadsLayer, ReadsRest, ReadsText};

use crate::fault::{LayerFault, LayersFault};
use layer_union::Trees;
use lib_types::{Text, Texts};
use mtree_manifest::{MANIFEST_MAX, ManifestFault};
use std::alloc::Global;
use tree_face::{Store, Tree};

// The text under a key. A text that is too long isn't read.
#[tactic(auto, using(crate::proofs::Texts::not_begun, crate::proofs::Texts::too_long, crate::proofs::Texts::no_room, crate::proofs::Texts::not_read, crate::proofs::Texts::was_read, crate::proofs::Texts::is_too_long))]
fn text_of<S: Store>(alloc: Global, store: &mut S, key: &[u8]) -> Result<Vec<u8>, LayerFault>
    ensures { ReadsText key.now result (S.state store.old) (S.state store.new) }
{
    let size = store.begin(key)?;
    if size > MANIFEST_MAX as u64 {
        return Err(LayerFault::Bad(ManifestFault::TooLong { length: size }));
    }
    let mut bytes = vec![in alloc; 0u8; size as usize]?;
    store.read_at(0, &mut bytes)?;
    Ok(bytes)
}

// The tree of the manifest under a key.
#[tactic(auto, using(crate::proofs::Texts::not_read_at_all, crate::proofs::Texts::not_parsed, crate::proofs::Texts::was_parsed))]
fn read_tree<S: Store>(alloc: Global, store: &mut S, key: &[u8]) -> Result<Tree, LayerFault>
    ensures { ReadsLayer key.now result (S.state store.old) (S.state store.new) }
{
    let text = text_of(alloc, store, key)?;
    Ok(mtree_manifest::read(alloc, &text)?)
}

// The trees of the manifests under these keys. One text is held at a time.
fn read_all<S: Store>(alloc: Global, store: &mut S, keys: &[Text]) -> Result<Trees, LayersFault>
    ensures { ReadsRest [] keys.now result (S.state store.old) (S.state store.new) }
{
    let mut trees = Trees::new(alloc);
    for key in keys {
        match read_tree(alloc, store, key.as_bytes()) {
            Ok(tree) => trees.push(tree)?,
            Err(fault) => return Err(fault.at(trees.len() as u64)),
        }
    }
    Ok(trees)
}

/// Reads the manifests under these keys in order, each once, and gives their trees. The first one that has no tree ends the reading.
#[tactic(auto, using(crate::proofs::Whole::reads_trees))]
pub fn read_trees<S: Store>(
    alloc: Global,
    store: &mut S,
    keys: &Texts,
) -> Result<Trees, LayersFault>
    ensures { ReadsTrees keys.now result (S.state store.old) (S.state store.new) }
{
    read_all(alloc, store, keys.as_slice())
}

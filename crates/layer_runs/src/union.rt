//! The tree of an image from the manifests of its layers.
ghost use Rattle.layer_runs.specs.Image.{ReadsImage};

use crate::fault::ImageFault;
use layer_trees::read_trees;
use layer_union::union;
use lib_types::Texts;
use std::alloc::Global;
use tree_face::{Store, Tree};

/// Reads the manifests of the layers and then makes their union.
#[tactic(auto, using(crate::proofs::Images::unread, crate::proofs::Images::not_joined, crate::proofs::Images::was_joined))]
pub(crate) fn read_image<S: Store>(
    alloc: Global,
    keys: &Texts,
    store: &mut S,
) -> Result<Tree, ImageFault>
    ensures { ReadsImage keys.now result (S.state store.old) (S.state store.new) }
{
    let trees = read_trees(alloc, store, keys)?;
    Ok(union(alloc, trees)?)
}

//! The tags of updaters.
ghost use Rattle.std.specs.Prelude.{◌≡◌, IfOk};
ghost use Rattle.update_world.specs.Turns.{repeated};

use crate::post::Post;
use indexmap::IndexSet;
use lib_types::NoMemory;
use std::alloc::Global;
use tree_face::Tag;

/// The tag of the first updater that has the same tag as an earlier one.
pub(crate) fn repeated_tag(alloc: Global, posts: &[Post]) -> Result<Option<Tag>, NoMemory>
    ensures { IfOk result (λ tag. tag ≡ repeated posts.now) }
{
    let mut tags = IndexSet::new(alloc);
    for post in posts {
        if !tags.insert(post.tag.0)? {
            return Ok(Some(post.tag));
        }
    }
    Ok(None)
}

//! The order of identities.
ghost use Rattle.std.specs.Prelude.{◌≡◌};
ghost use Rattle.aux_cache.specs.Ids.{id_cmp, numbers_of};

use std::cmp::Ordering;
use tree_face::Id;

// The four fields, in the order of comparison.
fn numbers_of(id: &Id) -> [u64; 4]
    ensures { result ≡ numbers_of id.now }
{
    [id.dev, id.inode, id.ctime, id.size]
}

/// The order of two identities.
pub fn compare(a: &Id, b: &Id) -> Ordering
    ensures { result ≡ id_cmp a.now b.now }
{
    numbers_of(a).cmp(&numbers_of(b))
}

//! Texts in the order of their bytes.
ghost use Rattle.std.specs.Prelude.{◌≡◌, IfOk};
ghost use Rattle.string_pool.specs.Order.{ascending};

use lib_types::{NoMemory, Seq, Text, Texts};

/// Sorts texts by their bytes, and removes repetitions. Sorting is cheap if the list consists of a few sorted runs.
pub fn ascending(texts: Vec<Text>) -> Result<Texts, NoMemory>
    ensures { IfOk result (λ sorted. sorted ≡ ascending texts.items) }
{
    let mut sorted = texts;
    sorted.sort()?;
    sorted.dedup();
    Ok(Seq::from_vec(sorted))
}

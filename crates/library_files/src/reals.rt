//! The directories that the search directories resolve to. Several search directories may resolve to the same one.
ghost use Rattle.std.specs.Prelude.{◌≡◌, IfOk, map};
ghost use Rattle.library_files.specs.RealFolders.{AreFolders, IsRowOf};

use hwcap_dirs::Dirs;
use indexmap::IndexSet;
use lib_types::{NoMemory, Seq, Text, TextRef, Texts};
use std::alloc::Global;

/// The directories that the search directories resolve to.
#[derive(Drop)]
pub struct RealFolders {
    /// Their resolved paths, each once, in the order of their first search directories.
    pub paths: IndexSet<Text>,
    /// For each search directory, the index of its path in `paths`.
    pub rows: Seq<usize>,
}

// The row of a path. Inserts the path if it isn't in the set.
#[tactic(auto, using(crate::proofs::FolderRows::row_found, crate::proofs::FolderRows::row_put))]
fn row_of(alloc: Global, met: &mut IndexSet<Text>, path: &[u8]) -> Result<usize, NoMemory>
    ensures { IfOk result (λ row. IsRowOf met.old.keys path.now row met.new.keys) }
{
    if let Some(row) = met.get_index_of(TextRef { bytes: path }) {
        return Ok(row);
    }
    let (row, _) = met.insert_full(Text::copy_of(alloc, path)?)?;
    Ok(row)
}

/// The texts of a set.
pub(crate) fn texts_of(alloc: Global, met: IndexSet<Text>) -> Result<Texts, NoMemory>
    ensures { IfOk result (λ texts. texts ≡ met.keys) }
{
    let mut texts = Texts::new(alloc);
    for text in met {
        texts.push(text)?;
    }
    Ok(texts)
}

/// The directories that the search directories resolve to, and the index for each search directory.
pub fn real_folders(alloc: Global, dirs: &Dirs) -> Result<RealFolders, NoMemory>
    ensures { IfOk result (AreFolders (map (λ place. place.real) dirs.now.places)) }
{
    let mut met = IndexSet::new(alloc);
    let mut rows = Seq::new(alloc);
    for place in dirs.places.as_slice() {
        rows.push(row_of(alloc, &mut met, place.real.as_bytes())?)?;
    }
    Ok(RealFolders { paths: met, rows })
}

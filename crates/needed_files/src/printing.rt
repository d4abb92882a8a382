//! The list of files as text.
ghost use Rattle.std.specs.Prelude.{◌≡◌, ◌++◌, IfOk, OnOk};
ghost use Rattle.needed_files.specs.Printed.{list_text, path_line};

use lib_types::{NoMemory, Text};
use std::alloc::Global;

// Adds a path without its first slash.
fn add_path(text: &mut Vec<u8>, path: &[u8], end: u8) -> Result<(), NoMemory>
    ensures { OnOk result (text.new.items ≡ text.old.items ++ path_line end path.now) }
{
    if let Some((_, relative)) = path.split_first() {
        text.extend_from_slice(relative)?;
    }
    text.push(end)?;
    Ok(())
}

/// The paths of files, relative to the root, each ended by this byte.
#[tactic(auto, unfolding(crate::specs::Printed::list_text))]
pub fn list_text(alloc: Global, files: &[Text], end: u8) -> Result<Vec<u8>, NoMemory>
    ensures { IfOk result (λ text. text.items ≡ list_text end files.now) }
{
    let mut text = Vec::new(alloc);
    for file in files {
        add_path(&mut text, file.as_bytes(), end)?;
    }
    Ok(text)
}

//! Paths that are stored in one text.
ghost use Rattle.std.specs.Prelude.{◌≡◌, ◌∷◌, ◌++◌, [], IfOk, OnOk, OnErr, length};
ghost use Rattle.std.specs.Map.{keys_of};

use super::row::Rows;
use lib_types::{NoMemory, Part};
use std::alloc::Global;
use std::marker::Model;

/// Paths in a text that contains nothing else. In contracts this is the list of paths.
#[derive(Drop)]
pub(super) struct Paths {
    pub(super) text: Vec<u8>,
    pub(super) parts: Vec<Part>,
}

impl Model for Paths {
    ghost use Rattle.std.specs.Prelude.{List, ℕ, length, map};
    ghost use Rattle.image_tree.specs.OneText.{AreWithin};
    ghost use Rattle.lib_types.specs.Part.{part_of};

    ghost Value = { List (List ℕ) };

    ghost view = { λ p. map (part_of p.text.items) p.parts.items };

    ghost invariant = { λ p. AreWithin (length p.text.items) p.parts.items };
}

impl Paths {
    // Adds a path at the end.
    fn push(&mut self, path: &[u8]) -> Result<(), NoMemory>
        ensures { OnOk result (self.new ≡ self.old ++ path.now ∷ []) }
    {
        let part = Part::add(&mut self.text, path)?;
        self.parts.push(part)?;
        Ok(())
    }

    /// Copies of the paths of these rows.
    pub(super) fn of(alloc: Global, rows: Rows<'_>) -> Result<Paths, NoMemory>
        ensures { IfOk result (λ paths. paths ≡ keys_of rows.entry) }
    {
        let mut paths = Paths {
            text: Vec::with_capacity(alloc, rows.text_len())?,
            parts: Vec::with_capacity(alloc, rows.len())?,
        };
        for entry in rows {
            paths.push(entry.path)?;
        }
        paths.text.shrink_to_fit();
        Ok(paths)
    }
}

//! Caches whose entries are sorted in the order in which the loader searches them.
ghost use Rattle.std.specs.Prelude.{◌≡◌, option_map};
ghost use Rattle.cache_lookup.specs.Scan.{path_at};

use cache_reader::CacheView;
use std::marker::Model;

/// A cache whose names are descending in the loader's order. Contracts see its entries.
#[derive(Drop)]
pub struct Sorted<'a> {
    pub(crate) view: CacheView<'a>,
}

impl<'a> Model for Sorted<'a> {
    ghost use Rattle.std.specs.Prelude.{List};
    ghost use Rattle.cache_reader.specs.Cache.{CachedEntry, read};
    ghost use Rattle.cache_lookup.specs.Scan.{AreDescending};

    ghost Value = { List CachedEntry };

    ghost view = { λ s. read s.view };

    ghost invariant = { λ s. AreDescending (read s.view) };
}

impl<'a> Sorted<'a> {
    /// The path of the entry with this index. None after the last entry.
    pub fn path(&self, i: usize) -> Option<&'a [u8]>
        ensures { option_map (λ t. t.now) result ≡ path_at self.now i }
    {
        match self.view.entry(i) {
            Some(entry) => Some(entry.path),
            None => None,
        }
    }
}

//! Which names of a directory are looked up.
ghost use Rattle.looked_places.specs.Listed.{is_among};
ghost use Rattle.name_order.specs.LibraryName.{is_library_name};
ghost use Rattle.seen_places.specs.Looked.{is_shown};

use looked_tree::NameTest;
use name_order::is_library_name;
use string_pool::TextSet;

/// The names in a `glibc-hwcaps` directory that aren't hidden.
#[derive(Drop)]
pub(crate) struct Shown;

impl NameTest for Shown {
    ghost test = { λ s name. is_shown name };

    fn passes(&self, name: &[u8]) -> bool {
        !name.starts_with(b".")
    }
}

/// The library names.
#[derive(Drop)]
pub(crate) struct LibraryNames;

impl NameTest for LibraryNames {
    ghost test = { λ s name. is_library_name name };

    fn passes(&self, name: &[u8]) -> bool {
        is_library_name(name)
    }
}

/// The names that are among these.
#[derive(Drop)]
pub(crate) struct Among<'a> {
    pub(crate) names: &'a TextSet,
}

impl<'a> NameTest for Among<'a> {
    ghost test = { λ s name. is_among s.names.now name };

    fn passes(&self, name: &[u8]) -> bool {
        self.names.contains(name)
    }
}

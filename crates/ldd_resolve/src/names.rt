//! The names of objects.
ghost use Rattle.std.specs.Prelude.{◌≡◌, ◌<◌, ◌||◌, ℕ, List, length, map, option_to_list, set, slice_index_or, IfOk, OnOk};
ghost use Rattle.std.specs.Option.{option_copied};
ghost use Rattle.rpath_search.specs.Searching.{is_among};
ghost use Rattle.ldd_resolve.specs.Listing.{has_name, names_by, with_name};
ghost use Rattle.ldd_resolve.specs.Loading.{IsNamedAt};

use crate::kinds::Member;
use lib_types::{NoMemory, Text, Texts};
use std::alloc::Global;
use string_pool::TextSet;

fn has_name(names: &Texts, name: &[u8]) -> bool
    ensures { result ≡ has_name names.now name.now }
{
    names.as_slice().iter().any(|text| name == text.as_bytes())
}

// Adds a name if it isn't in the list.
fn add_name(alloc: Global, names: &mut Texts, name: &[u8]) -> Result<(), NoMemory>
    ensures { OnOk result (names.new ≡ with_name names.old name.now) }
{
    if has_name(names, name) {
        return Ok(());
    }
    names.push(Text::copy_of(alloc, name)?)
}

/// The names of an object with this DT_SONAME that was found for a request of this name.
pub(crate) fn names_by(
    alloc: Global,
    soname: Option<Text>,
    asked: Option<&[u8]>,
) -> Result<Texts, NoMemory>
    ensures { IfOk result (λ names. names ≡ names_by (option_to_list soname) (option_copied asked.entry)) }
{
    let mut names = Texts::new(alloc);
    if let Some(soname) = soname {
        names.push(soname)?;
    }
    if let Some(name) = asked {
        add_name(alloc, &mut names, name)?;
    }
    Ok(names)
}

/// A copy of these names.
pub(crate) fn copies_of(alloc: Global, names: &Texts) -> Result<Texts, NoMemory>
    ensures { IfOk result (λ copies. copies ≡ names.now) }
{
    let mut copies = Texts::new(alloc);
    for name in names.as_slice() {
        copies.push(name.copy(alloc)?)?;
    }
    Ok(copies)
}

/// Adds these names to the set of all objects' names.
pub fn add_names(alloc: Global, all: &mut TextSet, names: &Texts) -> Result<(), NoMemory>
    ensures { OnOk result ((x : List ℕ) → is_among all.new x ≡ (is_among all.old x || is_among names.now x)) }
{
    for name in names.as_slice() {
        all.insert(Text::copy_of(alloc, name.as_bytes())?)?;
    }
    Ok(())
}

/// Adds a name to the member with this index.
pub(crate) fn add_name_at(
    members: &mut Vec<Member>,
    index: usize,
    name: Text,
) -> Result<(), NoMemory>
    requires { index < length members.old.items }
    ensures { OnOk result (IsNamedAt members.old.items members.new.items index name) }
{
    members[index].names.push(name)
}

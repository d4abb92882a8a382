//! Gathers the strings of a cache.
ghost use Rattle.std.specs.Prelude.{◌≡◌, ◌*◌, ◌^◌, ◌≤◌, ◌<◌, ◌+◌, [], length, map, flat_map, fold, All, IfOk, OnOk, bytes_eq};
ghost use Rattle.indexmap.specs.IndexSet.{insert_key};
ghost use Rattle.string_pool.specs.Texts.{number_of};
ghost use Rattle.string_pool.specs.Distinct.{distinct};
ghost use Rattle.cache_writer.specs.CacheText.{own_strings};
ghost use Rattle.cache_writer.specs.Numbers.{AreAmong, HasNumbers};
ghost use Rattle.cache_layout.specs.declared.limits.TheConstants.{ENTRIES_MAX};

use crate::names::Names;
use cache_layout::ENTRIES_MAX;
use lib_types::{Entry, NoMemory};
use std::alloc::Global;
use string_pool::Pool;

/// An entry, and the indexes of its soname and its path in the list of strings.
#[derive(Drop)]
pub struct NumberedEntry<'a> {
    pub entry: &'a Entry,
    pub soname: u32,
    pub path: u32,
}

/// Adds the strings of these entries to the list. Returns the entries with the indexes of their strings.
pub fn number_entries<'a>(
    alloc: Global,
    texts: &mut Pool<'a>,
    entries: &'a [Entry],
) -> Result<Vec<NumberedEntry<'a>>, NoMemory>
    requires empty { texts.old ≡ [] }
    requires few { length entries.now ≤ ENTRIES_MAX }
    ensures texts { OnOk result (texts.new ≡ distinct (flat_map own_strings entries.now)) }
    ensures entries { IfOk result (λ numbered. map (λ e. e.entry.now) numbered.items ≡ entries.now) }
    ensures numbers { IfOk result (λ numbered. All (HasNumbers texts.new) numbered.items) }
{
    let mut numbered = Vec::with_capacity(alloc, entries.len())?;
    for entry in entries {
        numbered.push(number_entry(texts, entry)?)?;
    }
    Ok(numbered)
}

fn number_entry<'a>(texts: &mut Pool<'a>, entry: &'a Entry) -> Result<NumberedEntry<'a>, NoMemory>
    requires { length texts.old < 2 ^ 31 }
    ensures texts { OnOk result (texts.new ≡ fold (insert_key bytes_eq) texts.old (own_strings entry.now)) }
    ensures entry { IfOk result (λ numbered. numbered.entry.now ≡ entry.now) }
    ensures numbers { IfOk result (HasNumbers texts.new) }
{
    let soname = texts.add(entry.soname.as_bytes())?;
    let path = texts.add(entry.path.as_bytes())?;
    Ok(NumberedEntry {
        entry,
        soname,
        path,
    })
}

/// Adds the hwcaps names to the list of strings. Returns their indexes.
pub fn number_names<'a>(
    alloc: Global,
    texts: &mut Pool<'a>,
    names: &Names<'a>,
) -> Result<Vec<u32>, NoMemory>
    requires { length texts.old + length names.now < 2 ^ 31 }
    ensures texts { OnOk result (texts.new ≡ fold (insert_key bytes_eq) texts.old names.now) }
    ensures numbers { IfOk result (λ numbers. numbers.items ≡ map (number_of texts.new) names.now) }
    ensures among { OnOk result (AreAmong texts.new names.now) }
{
    let mut numbers = Vec::with_capacity(alloc, names.len())?;
    for name in names.as_slice() {
        numbers.push(texts.add(*name)?)?;
    }
    Ok(numbers)
}

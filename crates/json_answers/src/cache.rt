//! A cache as JSON.
ghost use Rattle.std.specs.Prelude.{◌≡◌, map, IfOk};
ghost use Rattle.std.specs.Option.{option_copied};
ghost use Rattle.cache_reader.specs.Cache.{read};
ghost use Rattle.cache_reader.specs.Views.{entry_of};
ghost use Rattle.serde_json.specs.View.{view};
ghost use Rattle.json_answers.specs.Cached.{abi_data, cache_data, entry_data, hwcap_data};
ghost use Rattle.json_answers.specs.Texts.{IsReadBack, json_text};

use crate::object::{array, object, with};
use cache_reader::{CacheView, EntryView};
use json_texts::{bytes_value, json_line, optional_value};
use lib_types::{Abi, NoMemory};
use serde_json::{Map, Value};
use std::alloc::Global;

// The word of an ABI, or null.
fn abi_value(alloc: Global, abi: Option<Abi>) -> Result<Value, NoMemory>
    ensures { IfOk result (λ v. view v ≡ abi_data abi) }
{
    match abi {
        Some(abi) => bytes_value(alloc, abi.row().word),
        None => Ok(Value::Null),
    }
}

// The hwcap, or null if it is the index of a name.
fn hwcap_value(number: u64, cap: Option<&[u8]>) -> Value
    ensures { view result ≡ hwcap_data number (option_copied cap.entry) }
{
    match cap {
        Some(_) => Value::Null,
        None => Value::from(number),
    }
}

fn entry_value(alloc: Global, entry: &EntryView<'_>) -> Result<Value, NoMemory>
    ensures { IfOk result (λ v. view v ≡ entry_data (entry_of entry.now)) }
{
    let abi = abi_value(alloc, Abi::of_flags(entry.flags))?;
    let hwcap = hwcap_value(entry.hwcap, entry.cap);
    let cap = optional_value(alloc, entry.cap)?;
    let name = bytes_value(alloc, entry.name)?;
    let path = bytes_value(alloc, entry.path)?;
    let flags = Value::from(entry.flags.cast_unsigned());
    let members = with(alloc, Map::new(alloc), "abi", abi)?;
    let members = with(alloc, members, "flags", flags)?;
    let members = with(alloc, members, "hwcap", hwcap)?;
    let members = with(alloc, members, "hwcaps_name", cap)?;
    let members = with(alloc, members, "name", name)?;
    let members = with(alloc, members, "path", path)?;
    Ok(object(members))
}

fn entry_values(alloc: Global, cache: &CacheView<'_>) -> Result<Vec<Value>, NoMemory>
    ensures { IfOk result (λ vs. map view vs.items ≡ map entry_data (read cache.now)) }
{
    let mut values = Vec::new(alloc);
    for index in 0..cache.len() {
        values.push(entry_value(alloc, &cache.entry_within(index))?)?;
    }
    Ok(values)
}

fn cache_value(alloc: Global, cache: &CacheView<'_>, name: &[u8]) -> Result<Value, NoMemory>
    ensures { IfOk result (λ v. view v ≡ cache_data name.now cache.now) }
{
    let entries = entry_values(alloc, cache)?;
    let generator = optional_value(alloc, cache.generator())?;
    let name = bytes_value(alloc, name)?;
    let members = with(alloc, Map::new(alloc), "cache", name)?;
    let members = with(alloc, members, "entries", array(entries))?;
    let members = with(alloc, members, "generator", generator)?;
    Ok(object(members))
}

/// The entries of a cache with this name, as a line of JSON.
pub fn cache_json(alloc: Global, cache: &CacheView<'_>, name: &[u8]) -> Result<Vec<u8>, NoMemory>
    ensures text { IfOk result (λ text. text.items ≡ json_text (cache_data name.now cache.now)) }
    ensures reads_back { IfOk result (λ text. IsReadBack (cache_data name.now cache.now)) }
{
    let value = cache_value(alloc, cache, name)?;
    let line = json_line(alloc, &value)?;
    Ok(line)
}

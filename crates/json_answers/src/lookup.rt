//! The path that is found for a name, as JSON.
ghost use Rattle.std.specs.Prelude.{◌≡◌, IfOk};
ghost use Rattle.std.specs.Option.{option_copied};
ghost use Rattle.serde_json.specs.View.{view};
ghost use Rattle.json_answers.specs.Looked.{lookup_data};
ghost use Rattle.json_answers.specs.Texts.{IsReadBack, json_text};

use crate::object::{object, with};
use json_texts::{bytes_value, json_line, optional_value};
use lib_types::{Abi, NoMemory};
use serde_json::{Map, Value};
use std::alloc::Global;

fn lookup_value(
    alloc: Global,
    name: &[u8],
    abi: Abi,
    path: Option<&[u8]>,
) -> Result<Value, NoMemory>
    ensures { IfOk result (λ v. view v ≡ lookup_data name.now abi (option_copied path.entry)) }
{
    let abi = bytes_value(alloc, abi.row().word)?;
    let name = bytes_value(alloc, name)?;
    let path = optional_value(alloc, path)?;
    let members = with(alloc, Map::new(alloc), "abi", abi)?;
    let members = with(alloc, members, "name", name)?;
    let members = with(alloc, members, "path", path)?;
    Ok(object(members))
}

/// The path that the loader takes for this name and ABI, if there is one, as a line of JSON.
pub fn lookup_json(
    alloc: Global,
    name: &[u8],
    abi: Abi,
    path: Option<&[u8]>,
) -> Result<Vec<u8>, NoMemory>
    ensures text { IfOk result (λ text. text.items ≡ json_text (lookup_data name.now abi (option_copied path.entry))) }
    ensures reads_back { IfOk result (λ text. IsReadBack (lookup_data name.now abi (option_copied path.entry))) }
{
    let value = lookup_value(alloc, name, abi, path)?;
    let line = json_line(alloc, &value)?;
    Ok(line)
}

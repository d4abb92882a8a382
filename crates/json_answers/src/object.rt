//! JSON objects and arrays from their parts.
ghost use Rattle.std.specs.Prelude.{◌≡◌, map, IfOk};
ghost use Rattle.serde_json.specs.Data as json;
ghost use Rattle.serde_json.specs.View.{items_of, members_view, view};

use lib_types::NoMemory;
use serde_json::{Map, Value};
use std::alloc::Global;

/// The members with one more.
pub(crate) fn with(
    alloc: Global,
    members: Map<String, Value>,
    name: &str,
    value: Value,
) -> Result<Map<String, Value>, NoMemory>
    ensures { IfOk result (λ m. members_view m.entries ≡ json.put name.now (view value) (members_view members.entries)) }
{
    let mut members = members;
    serde_json::put(&mut members, alloc, name, value)?;
    Ok(members)
}

/// The object with these members.
pub(crate) fn object(members: Map<String, Value>) -> Value
    ensures { view result ≡ json.object (members_view members.entries) }
{
    Value::Object(members)
}

/// The array of these values.
pub(crate) fn array(values: Vec<Value>) -> Value
    ensures { view result ≡ json.array (items_of (map view values.items)) }
{
    Value::Array(values)
}

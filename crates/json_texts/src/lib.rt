//! Texts as JSON values, and JSON values as lines of an output.
#![tactic(auto)]

ghost use Rattle.std.specs.Prelude.{◌≡◌, ◌++◌, ◌≤◌, ◌∷◌, [], Some, false, IfOk};
ghost use Rattle.std.specs.Option.{option_copied};
ghost use Rattle.serde_json.specs.Data.{depth};
ghost use Rattle.serde_json.specs.Read.{max_depth, read};
ghost use Rattle.serde_json.specs.View.{view};
ghost use Rattle.serde_json.specs.Written.{compact_text, has_float};
ghost use Rattle.json_texts.specs.Texts.{base64_data, bytes_data, optional_data};

use base64::engine::general_purpose::STANDARD;
use lib_types::NoMemory;
use serde_json::{Value, json};
use std::alloc::Global;
use std::str::from_utf8;

/// The JSON value of a text: a string if it is UTF-8, else an object with the base64 of its bytes.
#[tactic(auto, using(crate::proofs::Strings::is_string, crate::proofs::Strings::is_other))]
pub fn bytes_value(alloc: Global, bytes: &[u8]) -> Result<Value, NoMemory>
    ensures { IfOk result (λ v. view v ≡ bytes_data bytes.now) }
{
    match from_utf8(bytes) {
        Ok(text) => Ok(Value::try_from_str(alloc, text)?),
        Err(_) => base64_value(alloc, bytes),
    }
}

// An object with the base64 of bytes.
fn base64_value(alloc: Global, bytes: &[u8]) -> Result<Value, NoMemory>
    ensures { IfOk result (λ v. view v ≡ base64_data bytes.now) }
{
    let encoded = STANDARD.encode(alloc, bytes)?;
    let value = json!(in alloc; {"base64": &encoded})?;
    Ok(value)
}

/// The JSON value of a text that may be missing.
pub fn optional_value(alloc: Global, bytes: Option<&[u8]>) -> Result<Value, NoMemory>
    ensures { IfOk result (λ v. view v ≡ optional_data (option_copied bytes.entry)) }
{
    match bytes {
        Some(bytes) => bytes_value(alloc, bytes),
        None => Ok(Value::Null),
    }
}

/// The value as a line: JSON without blanks, and a newline.
pub fn json_line(alloc: Global, value: &Value) -> Result<Vec<u8>, NoMemory>
    ensures text { IfOk result (λ line. has_float (view value.now) ≡ false → line.items ≡ compact_text (view value.now) ++ 10 ∷ []) }
    ensures reads_back { IfOk result (λ line. has_float (view value.now) ≡ false → depth (view value.now) ≤ max_depth
        → read (compact_text (view value.now)) ≡ Some (view value.now)) }
{
    let mut text = value.to_vec(alloc)?;
    text.push(b'\n')?;
    Ok(text)
}

//! Writes the string table.
ghost use Rattle.std.specs.Prelude.{◌≡◌, ◌++◌, ◌∷◌, [], OnOk};
ghost use Rattle.elf_maker.specs.Texts.{ended_texts, strings, tagged_if};
ghost use Rattle.elf_maker.specs.Parts.{needed_texts};

use elf_dynamic::kinds::Dynamic;
use lib_types::{NoMemory, Text};

// Writes a text and its NUL.
fn put_text(out: &mut Vec<u8>, text: &[u8]) -> Result<(), NoMemory>
    ensures { OnOk result (out.new.items ≡ out.old.items ++ (text.now ++ 0 ∷ [])) }
{
    out.extend_from_slice(text)?;
    out.push(0)?;
    Ok(())
}

fn put_needed(out: &mut Vec<u8>, texts: &[Text]) -> Result<(), NoMemory>
    ensures { OnOk result (out.new.items ≡ out.old.items ++ ended_texts (needed_texts texts.now)) }
{
    for text in texts {
        put_text(out, text.as_bytes())?;
    }
    Ok(())
}

fn put_optional(out: &mut Vec<u8>, text: &Option<Text>) -> Result<(), NoMemory>
    ensures { OnOk result (out.new.items ≡ out.old.items ++ ended_texts (tagged_if 0 text.now)) }
{
    if let Some(text) = text {
        put_text(out, text.as_bytes())?;
    }
    Ok(())
}

// Writes the empty text, then all others.
#[tactic(auto, using(crate::proofs::Steps::strings_are))]
pub(crate) fn put_strings(out: &mut Vec<u8>, dynamic: &Dynamic) -> Result<(), NoMemory>
    ensures { OnOk result (out.new.items ≡ out.old.items ++ strings dynamic.now) }
{
    put_text(out, b"")?;
    put_needed(out, dynamic.needed.as_slice())?;
    put_optional(out, &dynamic.soname)?;
    put_optional(out, &dynamic.rpath)?;
    put_optional(out, &dynamic.runpath)
}

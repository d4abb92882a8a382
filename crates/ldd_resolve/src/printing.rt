//! The text of a listing.
ghost use Rattle.std.specs.Prelude.{◌≡◌, ◌++◌, IfOk, OnOk, flat_map, option_map};
ghost use Rattle.ldd_resolve.specs.Printed.{ending, line, listing_text};

use crate::kinds::{Item, Listing};
use lib_types::{NoMemory, has_byte};
use std::alloc::Global;

// Adds the text after a name.
fn add_ending(text: &mut Vec<u8>, name: &[u8], path: Option<&[u8]>) -> Result<(), NoMemory>
    ensures { OnOk result (text.new.items ≡ text.old.items ++ ending name.now (option_map (λ p. p.now) path.entry)) }
{
    let Some(path) = path else {
        text.extend_from_slice(b" => not found")?;
        return Ok(());
    };
    if !has_byte(b'/', name) {
        text.extend_from_slice(b" => ")?;
        text.extend_from_slice(path)?;
    }
    Ok(())
}

fn add_line(text: &mut Vec<u8>, item: &Item) -> Result<(), NoMemory>
    ensures { OnOk result (text.new.items ≡ text.old.items ++ line item.now) }
{
    text.push(b'\t')?;
    text.extend_from_slice(item.name.as_bytes())?;
    let path = item.path.as_ref().map(|path| path.as_bytes());
    add_ending(text, item.name.as_bytes(), path)?;
    text.push(b'\n')?;
    Ok(())
}

fn lines_of(alloc: Global, listing: &Listing) -> Result<Vec<u8>, NoMemory>
    ensures { IfOk result (λ text. text.items ≡ flat_map line listing.now) }
{
    let mut text = Vec::new(alloc);
    for item in listing.as_slice() {
        add_line(&mut text, item)?;
    }
    Ok(text)
}

/// The lines that ldd(1) prints for a listing, one for each item.
#[tactic(auto, using(crate::proofs::Texts::text_of_none, crate::proofs::Texts::text_of_some))]
pub fn listing_text(alloc: Global, listing: &Listing) -> Result<Vec<u8>, NoMemory>
    ensures { IfOk result (λ text. text.items ≡ listing_text listing.now) }
{
    if listing.is_empty() {
        return Ok(Vec::from_slice(alloc, b"\tstatically linked\n")?);
    }
    let text = lines_of(alloc, listing)?;
    Ok(text)
}

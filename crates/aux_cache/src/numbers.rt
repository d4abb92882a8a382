//! Gathers the strings of the auxiliary cache file.
ghost use Rattle.std.specs.Prelude.{◌≡◌, ◌∷◌, ◌^◌, ◌≤◌, ◌<◌, [], length, map, All, IfOk, OnOk, bytes_eq};
ghost use Rattle.indexmap.specs.IndexSet.{insert_key};
ghost use Rattle.aux_cache.specs.AuxText.{soname_of, strings};
ghost use Rattle.aux_cache.specs.Numbers.{HasNumber};
ghost use Rattle.aux_cache.specs.declared.stamps.TheConstants.{STAMPS_MAX};

use crate::{STAMPS_MAX, Stamp};
use lib_types::{Analysis, NoMemory};
use std::alloc::Global;
use string_pool::Texts;

/// A stamp, and the index of its soname among the strings.
#[derive(Drop)]
pub struct NumberedStamp<'a> {
    pub stamp: &'a Stamp,
    pub soname: u32,
}

/// Adds the empty string and the sonames of these stamps to the strings. Returns the stamps with the indexes of their sonames.
pub fn number_stamps<'a>(
    alloc: Global,
    texts: &mut Texts<'a>,
    stamps: &'a [Stamp],
) -> Result<Vec<NumberedStamp<'a>>, NoMemory>
    requires empty { texts.old ≡ [] }
    requires few { length stamps.now ≤ STAMPS_MAX }
    ensures texts { OnOk result (texts.new ≡ strings stamps.now) }
    ensures stamps { IfOk result (λ numbered. map (λ s. s.stamp.now) numbered.items ≡ stamps.now) }
    ensures numbers { IfOk result (λ numbered. All (HasNumber texts.new) numbered.items) }
{
    texts.add(b"")?;
    let mut numbered = Vec::with_capacity(alloc, stamps.len())?;
    for stamp in stamps {
        numbered.push(number_stamp(texts, stamp)?)?;
    }
    Ok(numbered)
}

fn number_stamp<'a>(texts: &mut Texts<'a>, stamp: &'a Stamp) -> Result<NumberedStamp<'a>, NoMemory>
    requires { length texts.old < 2 ^ 32 }
    ensures texts { OnOk result (texts.new ≡ insert_key bytes_eq texts.old (soname_of stamp.now)) }
    ensures stamp { IfOk result (λ numbered. numbered.stamp.now ≡ stamp.now) }
    ensures number { IfOk result (HasNumber texts.new) }
{
    let soname = texts.add(soname_of(stamp))?;
    Ok(NumberedStamp { stamp, soname })
}

// The soname of a stamp, or the empty string if it has none.
fn soname_of(stamp: &Stamp) -> &[u8]
    ensures { result.now ≡ soname_of stamp.now }
{
    match &stamp.analysis {
        Analysis::Lib {
            soname: Some(soname),
            ..
        } => soname.as_bytes(),
        _ => b"",
    }
}

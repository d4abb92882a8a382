//! The libraries of the images.
ghost use Rattle.std.specs.Prelude.{◌≡◌, ◌+◌, codes, length, IfOk, OnOk};
ghost use Rattle.lib_types.specs.declared.abi.Abi.TheVariants.{X86_64};
ghost use Rattle.elf_maker.specs.Made.{made};
ghost use Rattle.elf_samples.specs.Samples as samples;

use crate::setting::{LIBZ_KEY, Pairs, one};
use elf_samples::{SampleFault, file_of, library_file, needing};
use lib_types::{Abi, NoMemory, Text, Texts};
use std::alloc::Global;

/// The content that a store holds under a key.
#[derive(Clone, Copy)]
pub enum Held<'a> {
    /// A shared object for x86-64 that has only this DT_SONAME.
    Library(&'a str, &'a str),
    /// A shared object for another ABI.
    LibraryFor(Abi, &'a str, &'a str),
    /// A shared object for x86-64 without a DT_SONAME.
    Nameless(&'a str),
    Text(&'a str, &'a str),
}

/// A shared object for x86-64 that has only this DT_SONAME.
pub fn library(alloc: Global, soname: &[u8]) -> Result<Vec<u8>, SampleFault>
    ensures { IfOk result (λ bytes. bytes.items ≡ made (samples.library X86_64 soname.now)) }
{
    library_file(alloc, Abi::X86_64, soname)
}

/// The shared object `libz.so.1` for an ABI.
pub fn libz(alloc: Global, abi: Abi) -> Result<Vec<u8>, SampleFault>
    ensures { IfOk result (λ bytes. bytes.items ≡ made (samples.library abi (codes "libz.so.1"))) }
{
    library_file(alloc, abi, b"libz.so.1")
}

/// The contents of a store that has only `libz.so.1` for x86-64, at its path in the example's manifest.
pub fn libz_held(alloc: Global) -> Result<Pairs, SampleFault> {
    let content = libz(alloc, Abi::X86_64)?;
    Ok(one(alloc, LIBZ_KEY, &content)?)
}

/// A shared object for x86-64 without a DT_SONAME.
pub fn nameless(alloc: Global) -> Result<Vec<u8>, SampleFault> {
    let spec = needing(Abi::X86_64, Texts::new(alloc));
    file_of(alloc, &spec)
}

fn content_of(alloc: Global, held: Held<'_>) -> Result<Text, SampleFault> {
    let bytes = match held {
        Held::Library(_, soname) => library(alloc, soname.as_bytes())?,
        Held::LibraryFor(abi, _, soname) => library_file(alloc, abi, soname.as_bytes())?,
        Held::Nameless(_) => nameless(alloc)?,
        Held::Text(_, text) => return Ok(Text::copy_of(alloc, text.as_bytes())?),
    };
    Ok(Text::from_vec(bytes))
}

fn key_of(held: Held<'_>) -> &str {
    match held {
        Held::Library(key, _)
        | Held::LibraryFor(_, key, _)
        | Held::Nameless(key)
        | Held::Text(key, _) => key,
    }
}

// Adds a pair.
fn push(pairs: &mut Pairs, key: Text, content: Text) -> Result<(), NoMemory>
    ensures { OnOk result (length pairs.new.items ≡ length pairs.old.items + 1) }
{
    pairs.push((key, content))?;
    Ok(())
}

/// The contents of a store that has all of these.
pub fn all(alloc: Global, held: &[Held<'_>]) -> Result<Pairs, SampleFault>
    ensures { IfOk result (λ pairs. length pairs.items ≡ length held.now) }
{
    let mut pairs = Vec::new(alloc);
    for one in held {
        let key = Text::copy_of(alloc, key_of(*one).as_bytes())?;
        push(&mut pairs, key, content_of(alloc, *one)?)?;
    }
    Ok(pairs)
}

//! Look-ups of a sample's libraries in a cache.
ghost use Rattle.std.specs.Prelude.{◌≡◌, ◌≤◌, length, IfOk, option_map};
ghost use Rattle.std.specs.List.{count_by};
ghost use Rattle.cache_lookup.specs.Scan.{AreDescending, scan};
ghost use Rattle.cache_reader.specs.Cache.{read};
ghost use Rattle.lib_types.specs.declared.abi.Abi.TheVariants.{X86_64};
ghost use Rattle.sample_runs.specs.Text.{caps, is_found};

use crate::files::{SampleFile, soname};
use cache_lookup::{Counted, Sorted, sorted_cache};
use lib_types::{Abi, NoMemory, Text, Texts};
use std::alloc::Global;

// The path that the loader takes from a cache.
fn path_in<'a>(cache: &Sorted<'a>, name: &[u8], caps: &Texts) -> Option<&'a [u8]>
    requires sorted { AreDescending cache.now }
    ensures { option_map (λ t. t.now) result ≡ scan cache.now name.now X86_64 caps.now }
{
    let mut entries = Counted::new(cache);
    let index = cache_lookup::lookup(&mut entries, name, Abi::X86_64, caps)?;
    cache.path(index)
}

// The hwcaps names of the processor.
fn processor(alloc: Global) -> Result<Texts, NoMemory>
    ensures { IfOk result (λ names. names ≡ caps) }
{
    let mut names = Texts::new(alloc);
    names.push(Text::copy_of(alloc, b"x86-64-v3")?)?;
    Ok(names)
}

// Whether the loader finds the library.
fn is_found(
    alloc: Global,
    cache: &Sorted<'_>,
    file: SampleFile,
    names: &Texts,
) -> Result<bool, NoMemory>
    requires sorted { AreDescending cache.now }
    requires names { names.now ≡ caps }
    ensures { IfOk result (λ found. found ≡ is_found cache.now file) }
{
    let name = soname(alloc, file)?;
    Ok(path_in(cache, name.as_bytes(), names).is_some())
}

fn count_found(alloc: Global, cache: &Sorted<'_>, files: &[SampleFile]) -> Result<usize, NoMemory>
    requires sorted { AreDescending cache.now }
    ensures { IfOk result (λ found. found ≡ count_by (is_found cache.now) files.now) }
{
    let names = processor(alloc)?;
    let mut found = 0;
    for file in files {
        if is_found(alloc, cache, *file, &names)? {
            found += 1;
        }
    }
    Ok(found)
}

/// The number of these libraries that the loader finds with this cache.
pub(crate) fn found_in(alloc: Global, cache: &[u8], files: &[SampleFile]) -> Result<usize, NoMemory>
    ensures { IfOk result (λ found. found ≡ count_by (is_found (read cache.now)) files.now) }
{
    // An update writes only well-formed caches.
    let Ok(cache) = sorted_cache(cache) else {
        return Err(NoMemory);
    };
    count_found(alloc, &cache, files)
}

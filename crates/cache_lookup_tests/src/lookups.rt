//! The path that a cache gives for a name, an ABI and hwcaps names, and the number of steps.
use cache_lookup::{Counted, Sorted, lookup, sorted};
use cache_reader::CacheView;
use cache_rows::{ENTRIES, cache_of};
use lib_types::{Abi, NoMemory, Texts};
use std::alloc::Global;
use table_rows::{Differences, Row, Trial, Words, count, divide, list, number, value};

/// A row has the entries of a cache, in order. A line `find` has an ABI, hwcaps names between colons (`-` for none), a name, and the path
/// (`-` for none). `steps` has the most steps that each of these look-ups may take. `rises` has the index of the first entry whose name is
/// above its predecessor's. `common` has the ABI that all entries with an ABI's flags have (`-` for none), and `has` an ABI, a name and
/// `yes` or `no`: whether an entry has both.
pub(crate) struct Lookups;

// The hwcaps names of a list, which is `-` if there is none.
fn caps_of(alloc: Global, names: &[u8]) -> Result<Texts, NoMemory> {
    if names == b"-".as_slice() {
        return Ok(Texts::new(alloc));
    }
    list(alloc, b':', names)
}

// The path, and the number of steps.
fn find<'a>(cache: &Sorted<'a>, name: &[u8], abi: Abi, caps: &Texts) -> (Option<&'a [u8]>, u64) {
    let mut entries = Counted::new(cache);
    let path = match lookup(&mut entries, name, abi, caps) {
        Some(index) => cache.path(index),
        None => None,
    };
    (path, entries.steps())
}

// `ABI CAPS NAME PATH`
fn is_found(
    alloc: Global,
    cache: &Sorted<'_>,
    line: &[u8],
    most: u64,
    differences: &mut Differences,
) -> Result<bool, NoMemory> {
    let (word, rest) = divide(b' ', line);
    let (caps, rest) = divide(b' ', rest);
    let (name, want) = divide(b' ', rest);
    let Some(abi) = Abi::of_word(word) else {
        differences.say(b"no ABI: ", word)?;
        return Ok(false);
    };
    let (path, steps) = find(cache, name, abi, &caps_of(alloc, caps)?);
    if steps > most {
        differences.say(b"too many steps: ", line)?;
        return Ok(false);
    }
    differences.is_same(line, want, path.unwrap_or(b"-"))
}

// The word of the ABI that all entries have.
fn is_common(
    cache: &Sorted<'_>,
    want: &[u8],
    differences: &mut Differences,
) -> Result<bool, NoMemory> {
    let word = match cache.common_abi() {
        Some(abi) => abi.row().word,
        None => b"-",
    };
    differences.is_same(b"common", want, word)
}

// `ABI NAME ANSWER`
fn is_had(
    cache: &Sorted<'_>,
    line: &[u8],
    differences: &mut Differences,
) -> Result<bool, NoMemory> {
    let (word, rest) = divide(b' ', line);
    let (name, want) = divide(b' ', rest);
    let Some(abi) = Abi::of_word(word) else {
        differences.say(b"no ABI: ", word)?;
        return Ok(false);
    };
    let answer: &[u8] = if cache.has_candidate(name, abi) {
        b"yes"
    } else {
        b"no"
    };
    differences.is_same(line, want, answer)
}

// Whether the ABIs of the entries are those of the lines `common` and `has`.
fn are_abis(
    cache: &Sorted<'_>,
    row: Row<'_>,
    differences: &mut Differences,
) -> Result<bool, NoMemory> {
    let mut are_right = true;
    for line in row {
        let (word, rest) = divide(b' ', *line);
        if word == b"common".as_slice() {
            are_right = is_common(cache, rest, differences)? && are_right;
        }
        if word == b"has".as_slice() {
            are_right = is_had(cache, rest, differences)? && are_right;
        }
    }
    Ok(are_right)
}

// Whether each line `find` has its result.
fn are_found(
    alloc: Global,
    cache: &Sorted<'_>,
    row: Row<'_>,
    differences: &mut Differences,
) -> Result<bool, NoMemory> {
    let most = count(row, b"steps");
    let mut are_found = true;
    for line in row {
        let (word, rest) = divide(b' ', *line);
        if word == b"find".as_slice() {
            are_found = is_found(alloc, cache, rest, most, differences)? && are_found;
        }
    }
    Ok(are_found)
}

fn try_cache(
    alloc: Global,
    view: CacheView<'_>,
    row: Row<'_>,
    differences: &mut Differences,
) -> Result<bool, NoMemory> {
    match (sorted(view), value(row, b"rises")) {
        (Ok(cache), None) => {
            let are_abis = are_abis(&cache, row, differences)?;
            Ok(are_found(alloc, &cache, row, differences)? && are_abis)
        }
        (Err(unsorted), Some(index)) => {
            differences.is_number(alloc, b"rises", number(index), u64::from(unsorted.entry))
        }
        (Ok(_), Some(_)) => {
            differences.say(b"the names don't rise", b"")?;
            Ok(false)
        }
        (Err(_), None) => {
            differences.say(b"the names rise", b"")?;
            Ok(false)
        }
    }
}

const WORDS: &[Words] = &[ENTRIES, &[b"find", b"steps", b"rises", b"common", b"has"]];

impl Trial for Lookups {
    fn words() -> &'static [Words] {
        WORDS
    }

    fn is_right(
        alloc: Global,
        row: Row<'_>,
        differences: &mut Differences,
    ) -> Result<bool, NoMemory> {
        let bytes = cache_of(alloc, row)?;
        let Ok(view) = CacheView::parse(&bytes) else {
            differences.say(b"no cache", b"")?;
            return Ok(false);
        };
        try_cache(alloc, view, row, differences)
    }
}

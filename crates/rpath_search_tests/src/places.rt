//! The paths where a library is looked for.
use image_rows::{LOADER, env_of};
use lib_types::{NoMemory, Text};
use rpath_search::{Chain, Owner, places};
use std::alloc::Global;
use table_rows::{
    Differences, Row, Trial, Words, divide, has_line, lines_before, lines_in, owned_value, value,
};

/// A row has the name that is looked for, and the objects of the chain, the requesting one first. Each object has the directory where it
/// was found, with the lines `rpath`, `runpath` and `nodeflib` below it. The row has the loader's environment, the path in the cache, and
/// the expected paths.
pub(crate) struct Places;

const OBJECT: Words = &[b"object"];

fn owner_of(alloc: Global, origin: &[u8], lines: Row<'_>) -> Result<Owner, NoMemory> {
    Ok(Owner {
        origin: Text::copy_of(alloc, origin)?,
        rpath: owned_value(alloc, lines, b"rpath")?,
        runpath: owned_value(alloc, lines, b"runpath")?,
        nodeflib: has_line(lines, b"nodeflib"),
    })
}

fn chain_of(alloc: Global, row: Row<'_>) -> Result<Chain, NoMemory> {
    let mut chain = Chain::new(alloc);
    for (index, line) in row.iter().enumerate() {
        let (word, origin) = divide(b' ', line);
        if word == b"object".as_slice() {
            let lines = lines_before(OBJECT, &row[index + 1..]);
            chain.push(owner_of(alloc, origin, lines)?)?;
        }
    }
    Ok(chain)
}

const WORDS: &[Words] = &[
    OBJECT,
    LOADER,
    &[
        b"name",
        b"rpath",
        b"runpath",
        b"nodeflib",
        b"cached",
        b"paths",
    ],
];

impl Trial for Places {
    fn words() -> &'static [Words] {
        WORDS
    }

    fn is_right(
        alloc: Global,
        row: Row<'_>,
        differences: &mut Differences,
    ) -> Result<bool, NoMemory> {
        let name = value(row, b"name").unwrap_or(b"");
        let chain = chain_of(alloc, row)?;
        let env = env_of(alloc, row)?;
        let got = places(alloc, name, &chain, &env, value(row, b"cached"))?;
        differences.is_text(alloc, row, b"paths", &lines_in(alloc, &got)?)
    }
}

//! The lines of a sample.
ghost use Rattle.std.specs.Prelude.{◌≡◌, ◌++◌, length, OnOk};
ghost use Rattle.sample_runs.specs.Text.{size_text, libs_text, links_text, lookups_line, readings_line, update_line};

use crate::numbers::put_number;
use crate::readings::{count_by, count_first};
use crate::updates::SampleUpdate;
use lib_types::NoMemory;
use std::alloc::Global;
use update_world::Readings;

#[tactic(auto, unfolding(crate::specs::Text::libs_text))]
fn put_libs(alloc: Global, out: &mut Vec<u8>, number: u64, libs: u32) -> Result<(), NoMemory>
    ensures { OnOk result (out.new.items ≡ out.old.items ++ libs_text number libs) }
{
    put_number(alloc, out, b"update ", number)?;
    put_number(alloc, out, b": ", u64::from(libs))
}

#[tactic(auto, unfolding(crate::specs::Text::links_text))]
fn put_links(alloc: Global, out: &mut Vec<u8>, links: u32, opened: u64) -> Result<(), NoMemory>
    ensures { OnOk result (out.new.items ≡ out.old.items ++ links_text links opened) }
{
    put_number(alloc, out, b" libs, ", u64::from(links))?;
    put_number(alloc, out, b" links, ", opened)
}

#[tactic(auto, unfolding(crate::specs::Text::size_text))]
fn put_size(alloc: Global, out: &mut Vec<u8>, size: u64) -> Result<(), NoMemory>
    ensures { OnOk result (out.new.items ≡ out.old.items ++ size_text size) }
{
    put_number(alloc, out, b" files opened, ", size)
}

/// Adds the line of an update.
#[tactic(auto, unfolding(crate::specs::Text::update_line))]
pub(crate) fn put_update_line(
    alloc: Global,
    out: &mut Vec<u8>,
    number: u64,
    update: &SampleUpdate,
) -> Result<(), NoMemory>
    ensures { OnOk result (out.new.items ≡ out.old.items ++ update_line number update.now.libs update.now.links update.now.opened (length update.now.cache)) }
{
    put_libs(alloc, out, number, update.libs)?;
    put_links(alloc, out, update.links, update.opened)?;
    put_size(alloc, out, update.cache.as_bytes().len() as u64)?;
    out.extend_from_slice(b" bytes\n")?;
    Ok(())
}

/// Adds the line of the look-ups.
#[tactic(auto, unfolding(crate::specs::Text::lookups_line))]
pub(crate) fn put_lookups_line(
    alloc: Global,
    out: &mut Vec<u8>,
    found: usize,
    n: u16,
) -> Result<(), NoMemory>
    ensures { OnOk result (out.new.items ≡ out.old.items ++ lookups_line found n) }
{
    put_number(alloc, out, b"lookups: ", found as u64)?;
    put_number(alloc, out, b" found of ", u64::from(n))?;
    out.extend_from_slice(b"\n")?;
    Ok(())
}

/// Adds the line of the readings.
#[tactic(auto, unfolding(crate::specs::Text::readings_line))]
pub(crate) fn put_readings_line(
    alloc: Global,
    out: &mut Vec<u8>,
    readings: &Readings,
) -> Result<(), NoMemory>
    ensures { OnOk result (out.new.items ≡ out.old.items ++ readings_line readings.now) }
{
    put_number(alloc, out, b"readings: ", count_first(readings) as u64)?;
    put_number(alloc, out, b" first, ", count_by(readings, 0) as u64)?;
    put_number(alloc, out, b" tag 0, ", count_by(readings, 1) as u64)?;
    out.extend_from_slice(b" tag 1\n")?;
    Ok(())
}

//! Lays out the written texts.
ghost use Rattle.std.specs.Prelude.{◌≡◌, ◌+◌, ◌^◌, ◌<◌, ◌++◌, [], if◌then◌else◌, length, map, IfOk, OnOk};
ghost use Rattle.string_pool.specs.InOrder.{table_of};
ghost use Rattle.string_pool.specs.Texts.{with_nul};
ghost use Rattle.string_pool.specs.Hosts.{AreDifferent, host_of};
ghost use Rattle.string_pool.specs.Laid.{AreEnds, AreLaid};
ghost use Rattle.string_pool.specs.SharedEnds.{shared_offset};

use lib_types::NoMemory;
use std::alloc::Global;

/// The bytes of a table, and where they end after each text.
#[derive(Drop)]
pub struct Layout {
    pub bytes: Vec<u8>,
    pub ends: Vec<u32>,
}

/// Lays out the written texts one after another. `hosts` has the number of the first written text that ends in each text, so a text
/// is written if it has its own number there.
#[tactic(auto, using(crate::proofs::Laying::ends_more))]
pub fn lay_out(alloc: Global, texts: &[&[u8]], hosts: &[u32]) -> Result<Layout, NoMemory>
    requires different { AreDifferent (map (λ text. text.now) texts.now) }
    requires hosts { hosts.now ≡ map (host_of (map (λ text. text.now) texts.now)) (map (λ text. text.now) texts.now) }
    requires few { length (table_of (map (λ text. text.now) texts.now)) < 2 ^ 32 }
    ensures { IfOk result (λ layout. AreLaid (map (λ text. text.now) texts.now) (length texts.now) layout) }
{
    let mut bytes = Vec::new(alloc);
    let mut ends = Vec::with_capacity(alloc, texts.len())?;
    for text in texts {
        let number = ends.len();
        put_written(&mut bytes, *text, hosts[number] as usize == number)?;
        ends.push(bytes.len() as u32)?;
    }
    Ok(Layout { bytes, ends })
}

// Appends a text with its NUL, if the text is written.
fn put_written(bytes: &mut Vec<u8>, text: &[u8], written: bool) -> Result<(), NoMemory>
    ensures { OnOk result (bytes.new.items ≡ bytes.old.items ++ (if written then with_nul text.now else [])) }
{
    if written {
        bytes.extend_from_slice(text)?;
        bytes.push(0)?;
    }
    Ok(())
}

/// The offsets of all texts from this base on. `ends` is where the table ends after each text.
pub fn offsets(
    alloc: Global,
    base: u32,
    texts: &[&[u8]],
    hosts: &[u32],
    ends: &[u32],
) -> Result<Vec<u32>, NoMemory>
    requires hosts { hosts.now ≡ map (host_of (map (λ text. text.now) texts.now)) (map (λ text. text.now) texts.now) }
    requires many { length ends.now ≡ length texts.now }
    requires ends { AreEnds (map (λ text. text.now) texts.now) (length texts.now) ends.now }
    requires fits { base + length (table_of (map (λ text. text.now) texts.now)) < 2 ^ 32 }
    ensures { IfOk result (λ offsets. offsets.items ≡ map (λ text. base + shared_offset (map (λ text. text.now) texts.now) text) (map (λ text. text.now) texts.now)) }
{
    let mut offsets = Vec::with_capacity(alloc, texts.len())?;
    for text in texts {
        let host = hosts[offsets.len()] as usize;
        offsets.push(base + before_end(ends[host], text.len()))?;
    }
    Ok(offsets)
}

// The offset of a text of this length that has its NUL before `end`.
fn before_end(end: u32, length: usize) -> u32
    requires { length < end }
    ensures { result + length + 1 ≡ end }
{
    end - 1 - length as u32
}

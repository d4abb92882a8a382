//! Finds for each text the first written text that ends in it.
ghost use Rattle.std.specs.Prelude.{◌≡◌, ◌^◌, ◌<◌, length, map, reverse, IfOk, None};
ghost use Rattle.string_pool.specs.Backward.{AreBackward};
ghost use Rattle.string_pool.specs.Hosts.{AreDifferent, host_of, least, left_below, least_above};
ghost use Rattle.string_pool.specs.SharedEnds.{ends_in};

use crate::backward::{Numbered, backward};
use lib_types::{NoMemory, are_same};
use std::alloc::Global;

/// For each text, the number of the first written text that ends in it.
pub fn hosts(alloc: Global, texts: &[&[u8]]) -> Result<Vec<u32>, NoMemory>
    requires few { length texts.now < 2 ^ 32 }
    requires different { AreDifferent (map (λ text. text.now) texts.now) }
    ensures { IfOk result (λ hosts. hosts.items ≡ map (host_of (map (λ text. text.now) texts.now)) (map (λ text. text.now) texts.now)) }
{
    let sorted = backward(alloc, texts)?;
    find_hosts(alloc, texts, &sorted)
}

// The stack has texts that don't end in one another, and between them they are the ends of all texts so far. Each has the number of
// the first written text that ends in it. A text goes on the stack once, and is taken from it once: so it is compared with other
// texts about twice.
fn find_hosts(alloc: Global, texts: &[&[u8]], sorted: &[Numbered<'_>]) -> Result<Vec<u32>, NoMemory>
    requires different { AreDifferent (map (λ text. text.now) texts.now) }
    requires sorted { AreBackward (map (λ text. text.now) texts.now) sorted.now }
    ensures { IfOk result (λ hosts. hosts.items ≡ map (host_of (map (λ text. text.now) texts.now)) (map (λ text. text.now) texts.now)) }
{
    let mut hosts = vec![in alloc; 0u32; texts.len()]?;
    let mut stack = Vec::new(alloc);
    for item in sorted {
        let host = take_ending_in(&mut stack, item.text).unwrap_or(item.number);
        hosts[item.number as usize] = host;
        stack.push(Numbered {
            text: item.text,
            number: host,
        })?;
    }
    Ok(hosts)
}

// Removes the items on top of the stack whose texts end in this one. Returns the least of their numbers.
#[tactic(auto, using(crate::proofs::Popped::taken_left, crate::proofs::Popped::taken_least, crate::proofs::Popped::stays_left, crate::proofs::Popped::stays_least))]
fn take_ending_in(stack: &mut Vec<Numbered<'_>>, text: &[u8]) -> Option<u32>
    ensures left { reverse stack.new.items ≡ left_below text.now (reverse stack.old.items) }
    ensures number { result ≡ least_above text.now None (reverse stack.old.items) }
{
    let mut first = None;
    let mut count = stack.len();
    while count > 0 && is_end(text, stack[count - 1].text) {
        first = Some(least(first, stack[count - 1].number));
        count -= 1;
    }
    stack.truncate(count);
    first
}

// Whether the text ends in `end`, or is the same.
fn is_end(end: &[u8], text: &[u8]) -> bool
    ensures { result ≡ ends_in end.now text.now }
{
    let start = text.len().saturating_sub(end.len());
    are_same(end, &text[start..])
}

// The least of the numbers.
fn least(first: Option<u32>, number: u32) -> u32
    ensures { result ≡ least first number }
{
    match first {
        Some(first) => first.min(number),
        None => number,
    }
}

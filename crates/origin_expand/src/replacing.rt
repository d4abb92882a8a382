//! Replacement of the tokens in a text.
ghost use Rattle.std.specs.Prelude.{◌≡◌, ◌++◌, IfOk, OnOk};
ghost use Rattle.origin_expand.specs.Tokens.{begins_with_origin, expanded, has_origin, replaced, value_of};

use crate::token::{Token, token_in};
use lib_types::{NoMemory, Separator, Text, cut};
use std::alloc::Global;

// The values of the tokens.
#[derive(Clone, Copy)]
struct Values<'a> {
    origin: &'a [u8],
    lib: &'a [u8],
    platform: &'a [u8],
}

impl<'a> Values<'a> {
    fn of(self, token: Token) -> &'a [u8]
        ensures { result.now ≡ value_of self.entry.origin.now self.entry.lib.now self.entry.platform.now token }
    {
        match token {
            Token::Origin => self.origin,
            Token::Lib => self.lib,
            Token::Platform => self.platform,
        }
    }
}

const DOLLAR: Separator<'static> = Separator::Byte(b'$');

fn begins_with_origin(part: &[u8]) -> bool
    ensures { result ≡ begins_with_origin part.now }
{
    match token_in(part) {
        Some((token, _)) => token.is_origin(),
        None => false,
    }
}

// Whether a text contains `$ORIGIN`.
#[tactic(auto, unfolding(crate::specs::Tokens::has_origin))]
fn has_origin(text: &[u8]) -> bool
    ensures { result ≡ has_origin text.now }
{
    let mut left = cut(DOLLAR, text).1;
    while let Some(bytes) = left {
        let (part, rest) = cut(DOLLAR, bytes);
        if begins_with_origin(part) {
            return true;
        }
        left = rest;
    }
    false
}

// Adds the part after a dollar.
fn add_replaced(out: &mut Vec<u8>, values: Values<'_>, part: &[u8]) -> Result<(), NoMemory>
    ensures { OnOk result (out.new.items ≡ out.old.items ++ replaced (value_of values.entry.origin.now values.entry.lib.now values.entry.platform.now) part.now) }
{
    match token_in(part) {
        Some((token, rest)) => {
            out.extend_from_slice(values.of(token))?;
            out.extend_from_slice(rest)?;
        }
        None => {
            out.push(b'$')?;
            out.extend_from_slice(part)?;
        }
    }
    Ok(())
}

/// The text with its tokens replaced. In secure execution a text with `$ORIGIN` has no result.
///
/// A token's value is inserted unchanged: if the origin is `/`, `$ORIGIN/lib` gives `//lib`.
#[tactic(auto, unfolding(crate::specs::Tokens::expanded))]
pub fn expand(
    alloc: Global,
    text: &[u8],
    origin: &[u8],
    lib: &[u8],
    platform: &[u8],
    secure: bool,
) -> Result<Option<Text>, NoMemory>
    ensures { IfOk result (λ text_of. text_of ≡ expanded (value_of origin.now lib.now platform.now) secure text.now) }
{
    if secure && has_origin(text) {
        return Ok(None);
    }
    let values = Values {
        origin,
        lib,
        platform,
    };
    let mut out = Vec::new(alloc);
    let (front, mut left) = cut(DOLLAR, text);
    out.extend_from_slice(front)?;
    while let Some(bytes) = left {
        let (part, rest) = cut(DOLLAR, bytes);
        add_replaced(&mut out, values, part)?;
        left = rest;
    }
    Ok(Some(Text::from_vec(out)))
}

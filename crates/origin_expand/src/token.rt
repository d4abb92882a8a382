//! The token at the front of a text.
ghost use Rattle.std.specs.Prelude.{◌≡◌, ◌<◌, not, length, position, option_map, IfSome};
ghost use Rattle.std.specs.List.{take_while};
ghost use Rattle.std.specs.Option.{option_copied};
ghost use Rattle.origin_expand.specs.Tokens.{following, in_braces, is_in_name, is_origin, name_of, read, token_in};

/// A token that the loader replaces in its paths.
#[derive(Clone, Copy, Debug, PartialEq, Eq)]
pub enum Token {
    /// The directory of the path by which the object was found.
    Origin,
    /// The directory name of the ABI's libraries, such as `lib64`.
    Lib,
    /// The processor's name.
    Platform,
}

impl Token {
    fn name(self) -> &'static [u8]
        ensures { result.now ≡ name_of self }
    {
        match self {
            Token::Origin => b"ORIGIN",
            Token::Lib => b"LIB",
            Token::Platform => b"PLATFORM",
        }
    }

    fn in_braces(self) -> &'static [u8]
        ensures { result.now ≡ in_braces self }
    {
        match self {
            Token::Origin => b"{ORIGIN}",
            Token::Lib => b"{LIB}",
            Token::Platform => b"{PLATFORM}",
        }
    }

    /// Whether it is `$ORIGIN`.
    pub fn is_origin(self) -> bool
        ensures { result ≡ is_origin self }
    {
        match self {
            Token::Origin => true,
            Token::Lib | Token::Platform => false,
        }
    }
}

fn is_in_name(b: u8) -> bool
    ensures { result ≡ is_in_name b }
{
    b.is_ascii_alphanumeric() || b == b'_'
}

// The index of the first byte that isn't a letter, a digit or `_`.
fn first_outside(part: &[u8]) -> Option<usize>
    ensures index { result ≡ position (λ b. not (is_in_name b)) part.now }
    ensures within { IfSome result (λ n. n < length part.now) }
{
    part.iter().position(|&b| !is_in_name(b))
}

// The longest run of letters, digits and `_` at the front.
#[tactic(auto, using(crate::proofs::Runs::run_ends, crate::proofs::Runs::run_is_all))]
fn run(part: &[u8]) -> &[u8]
    ensures { result.now ≡ take_while is_in_name part.now }
{
    match first_outside(part) {
        Some(n) => &part[..n],
        None => part,
    }
}

// The rest of a part after a token, if the part begins with this token.
fn following(part: &[u8], token: Token) -> Option<&[u8]>
    ensures { option_copied result ≡ following part.now token }
{
    if run(part) == token.name() {
        return Some(&part[token.name().len()..]);
    }
    if part.starts_with(token.in_braces()) {
        return Some(&part[token.in_braces().len()..]);
    }
    None
}

fn read(part: &[u8], token: Token) -> Option<(Token, &[u8])>
    ensures { option_map (λ found. (found.0, found.1.now)) result ≡ read part.now token }
{
    Some((token, following(part, token)?))
}

/// The token after a dollar, and the rest after the token.
pub fn token_in(part: &[u8]) -> Option<(Token, &[u8])>
    ensures { option_map (λ found. (found.0, found.1.now)) result ≡ token_in part.now }
{
    read(part, Token::Origin)
        .or(read(part, Token::Lib))
        .or(read(part, Token::Platform))
}

//! Reading the parts of a repetition, one after another.

ghost use Rattle.std.specs.Prelude.{◌≡◌, ℕ, List, length};
ghost use Rattle.swreq_grammar.specs.{declared.token.Token.{Token}, Grammar.{unlimited, at_most}, Reader.{Read, begins, read_parts}, Gives.{Gives}};

use crate::stop::Stop;
use crate::token::Token;
use std::alloc::Global;

/// What a repetition repeats.
pub trait Part {
    type Terminal;

    type Label: Drop;

    type Value: Drop;

    ghost number: { Self.Terminal → ℕ };

    ghost reads: { List (Token Self.Terminal) → Read Self.Terminal Self.Label Self.Value };

    ghost first_set: { List Self.Terminal };

    /// Whether a part begins with the first of the tokens.
    fn begins(tokens: &[Token<Self::Terminal>]) -> bool
        ensures { result ≡ begins number first_set tokens.now };

    /// Reads one part: its value, and the tokens after it.
    fn part(
        alloc: Global,
        tokens: &[Token<Self::Terminal>],
    ) -> Result<(Self::Value, &[Token<Self::Terminal>]), Stop<'_, Self::Terminal, Self::Label>>
        ensures { Gives (λ x. (x.0, x.1.now)) result (reads tokens.now) };
}

/// Reads parts while one begins: their values, and the tokens after them.
pub fn many<P: Part>(
    alloc: Global,
    tokens: &[Token<P::Terminal>],
) -> Result<(Vec<P::Value>, &[Token<P::Terminal>]), Stop<'_, P::Terminal, P::Label>>
    ensures { Gives (λ x. (x.0.items, x.1.now)) result
        (read_parts P.number P.reads P.first_set unlimited (length tokens.now) tokens.now) }
{
    let mut found = Vec::new(alloc);
    let mut rest = tokens;
    for _ in 0..tokens.len() {
        if !P::begins(rest) {
            return Ok((found, rest));
        }
        let (next, others) = P::part(alloc, rest)?;
        found.push(next)?;
        rest = others;
    }
    Ok((found, rest))
}

/// Reads parts while one begins, at most `limit` of them. One part more is refused where it begins, with the
/// label.
pub fn at_most<P: Part>(
    alloc: Global,
    limit: usize,
    label: P::Label,
    tokens: &[Token<P::Terminal>],
) -> Result<(Vec<P::Value>, &[Token<P::Terminal>]), Stop<'_, P::Terminal, P::Label>>
    ensures { Gives (λ x. (x.0.items, x.1.now)) result
        (read_parts P.number P.reads P.first_set (at_most limit label) limit tokens.now) }
{
    let mut found = Vec::new(alloc);
    let mut rest = tokens;
    for _ in 0..limit {
        if !P::begins(rest) {
            return Ok((found, rest));
        }
        let (next, others) = P::part(alloc, rest)?;
        found.push(next)?;
        rest = others;
    }
    if P::begins(rest) {
        return Err(Stop::Refused(rest, Some(label)));
    }
    Ok((found, rest))
}

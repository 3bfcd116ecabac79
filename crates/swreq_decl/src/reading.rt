//! Reading single tokens, and what the lines of the grammar share.

ghost use Rattle.std.specs.Prelude.{◌≡◌, ◌∷◌, [], Ok};
ghost use Rattle.swreq_grammar.specs.Grammar as grammar;
ghost use Rattle.swreq_grammar.specs.{Gives.{Gives}, Reader.{begins, read, read_terminal}};
ghost use Rattle.swreq_decl.specs.Terminals.{number};
ghost use Rattle.swreq_decl.specs.Source as lines;

use crate::kind::Kind;
use crate::skeleton::Span;
use crate::terminal::{Terminal, number_of};
use swreq_grammar::{Stop, Token};

/// What a line of the grammar stands for and the tokens after it, or why reading stops.
pub type Read<'a, T> = Result<(T, &'a [Token<Terminal>]), Stop<'a, Terminal, Kind>>;

/// Whether the first token is of one of the terminals.
pub fn begins(tokens: &[Token<Terminal>], terminals: &[Terminal]) -> bool
    ensures { result ≡ begins number terminals.now tokens.now }
{
    match tokens {
        [] => false,
        [token, ..] => has(terminals, token.terminal),
    }
}

/// Whether the terminal is one of these.
fn has(terminals: &[Terminal], terminal: Terminal) -> bool
    ensures { result ≡ grammar.has number terminals.now terminal }
{
    terminals
        .iter()
        .any(|t| number_of(*t) == number_of(terminal))
}

/// Reads one token of one of the terminals.
pub fn one_of<'a>(
    tokens: &'a [Token<Terminal>],
    terminals: &[Terminal],
) -> Read<'a, Token<Terminal>>
    ensures { Gives (λ x. (x.0, x.1.now)) result (read_terminal number terminals.now tokens.now) }
{
    match tokens {
        [token, rest @ ..] if has(terminals, token.terminal) => Ok((*token, rest)),
        _ => Err(Stop::Refused(tokens, None)),
    }
}

/// One token of the terminal.
pub fn mark(tokens: &[Token<Terminal>], terminal: Terminal) -> Read<'_, Token<Terminal>>
    ensures { Gives (λ x. (x.0, x.1.now)) result (read number (lines.mark terminal) tokens.now) }
{
    one_of(tokens, &[terminal])
}

/// Reads one token of the terminal. Another one is refused with the label.
pub fn labelled(
    tokens: &[Token<Terminal>],
    label: Kind,
    terminal: Terminal,
) -> Read<'_, Token<Terminal>>
    ensures { Gives (λ x. (x.0, x.1.now)) result
        (read number (grammar.labelled label (lines.mark terminal)) tokens.now) }
{
    if begins(tokens, &[terminal]) {
        return mark(tokens, terminal);
    }
    Err(Stop::Refused(tokens, Some(label)))
}

/// Reads a name.
#[tactic(auto, unfolding(crate::specs::Source::name))]
pub fn name(tokens: &[Token<Terminal>]) -> Read<'_, Span>
    ensures { Gives (λ x. (x.0, x.1.now)) result (read number lines.name tokens.now) }
{
    let (token, rest) = one_of(tokens, &[Terminal::Name, Terminal::Query])?;
    Ok((span_of(token), rest))
}

/// The slice of a token.
pub fn span_of(token: Token<Terminal>) -> Span
    ensures { result ≡ lines.span token }
{
    Span {
        start: token.start,
        end: token.end,
    }
}

/// The words of access, which mean nothing.
pub const ACCESS: [Terminal; 4] = [
    Terminal::Public,
    Terminal::Internal,
    Terminal::FilePrivate,
    Terminal::Private,
];

/// The tokens without a word of access, if one is there.
#[tactic(auto, unfolding(crate::specs::Source::access))]
pub fn past_access(tokens: &[Token<Terminal>]) -> &[Token<Terminal>]
    ensures { read number (lines.skipped lines.access) tokens.now ≡ Ok (tt, result.now) }
{
    match tokens {
        [token, rest @ ..] if has(&ACCESS, token.terminal) => rest,
        _ => tokens,
    }
}

/// The tokens without the semicolon, if one is there.
#[tactic(auto, unfolding(crate::specs::Source::semicolon))]
pub fn past_semicolon(tokens: &[Token<Terminal>]) -> &[Token<Terminal>]
    ensures { read number lines.semicolon tokens.now ≡ Ok (tt, result.now) }
{
    match tokens {
        [token, rest @ ..] if has(&[Terminal::Semicolon], token.terminal) => rest,
        _ => tokens,
    }
}

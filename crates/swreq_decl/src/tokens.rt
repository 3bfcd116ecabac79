//! The tokens of a text, each with its terminal.

ghost use Rattle.std.specs.Prelude.{◌≡◌, IfOk};
ghost use Rattle.swreq_decl.specs.Terminals.{entry, name_or_query, slice, terminal_of, with_terminals};

use crate::terminal::{MARKS, RESERVED_WORDS, Terminal};
use std::alloc::{AllocError, Global};
use swreq_grammar::Token;
use swreq_lex::TokenKind;

/// The entry of a table.
fn entry(table: &[Terminal], n: u32) -> Terminal
    ensures { result ≡ entry table.now n }
{
    match table.get(n as usize) {
        Some(terminal) => *terminal,
        None => Terminal::Underscore,
    }
}

/// The bytes from one offset up to another.
fn slice(text: &[u8], start: u32, end: u32) -> &[u8]
    ensures { result.now ≡ slice text.now start end }
{
    let front = &text[..(end as usize).min(text.len())];
    &front[(start as usize).min(front.len())..]
}

/// The terminal of a name with this spelling.
fn name_or_query(word: &[u8]) -> Terminal
    ensures { result ≡ name_or_query word.now }
{
    if word == b"query".as_slice() {
        Terminal::Query
    } else {
        Terminal::Name
    }
}

/// The terminal of a token of the text.
fn terminal_of(text: &[u8], token: &swreq_lex::Token) -> Terminal
    ensures { result ≡ terminal_of text.now token.now }
{
    match token.kind {
        TokenKind::Name => name_or_query(slice(text, token.start, token.end)),
        TokenKind::Reserved { n } => entry(&RESERVED_WORDS, n),
        TokenKind::Underscore => Terminal::Underscore,
        TokenKind::Mark { n } => entry(&MARKS, n),
    }
}

/// The tokens of a text, each with its terminal.
pub fn with_terminals(
    alloc: Global,
    text: &[u8],
    tokens: &[swreq_lex::Token],
) -> Result<Vec<Token<Terminal>>, AllocError>
    ensures { IfOk result (λ found. found.items ≡ with_terminals text.now tokens.now) }
{
    let mut found = Vec::new(alloc);
    for token in tokens {
        found.push(Token {
            terminal: terminal_of(text, token),
            start: token.start,
            end: token.end,
        })?;
    }
    Ok(found)
}

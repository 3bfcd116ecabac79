//! The tokens of a text.

ghost use Rattle.std.specs.{Prelude.{◌≡◌, ◌≤◌, ◌⊎◌, ℕ, List, length, drop, IfOk, IfErr, MatchResult}, Str.{chars}};
ghost use Rattle.swreq_lex.specs.{declared.token.Token.{Token}, declared.refusal.LexErr.{LexErr}, Tokens.{characters_from, HasTokens, HasTokensFrom}, Refusals.{HasRefusal, HasRefusalFrom}, Reader.{Answers, read}};

use crate::characters::past_byte_order_mark;
use crate::front::{Front, front_of};
use crate::refusal::LexErr;
use crate::token::{Token, TokenKind};
use crate::words::kind_of;
use std::alloc::Global;

/// The most bytes that a text may have.
pub const TEXT_LIMIT: usize = 1_048_576;

/// The tokens of a text of at most [`TEXT_LIMIT`] bytes, or its first lexical refusal.
pub fn tokens(alloc: Global, text: &[u8]) -> Result<Vec<Token>, LexErr>
    requires { length text.now ≤ TEXT_LIMIT }
    // The answer is the tokens of the text,
    ensures ok { IfOk result (λ found. HasTokens text.now found.items) }
    // or its first refusal, unless memory runs out.
    ensures err { IfErr result (λ e. (e ≡ LexErr.Memory) ⊎ HasRefusal text.now e) }

    // Where a text has tokens, they are the answer, and where it has a refusal, that is the answer,
    // unless memory runs out.
    ensures tokens { (ts : List Token) → HasTokens text.now ts →
        MatchResult result (λ found. found.items ≡ ts) (λ e. e ≡ LexErr.Memory) }
    ensures refusal { (refused : LexErr) → HasRefusal text.now refused →
        MatchResult result (λ _. ⊥) (λ e. (e ≡ LexErr.Memory) ⊎ (e ≡ refused)) }
{
    tokens_from(alloc, text, 0)
}

/// The tokens of a text of at most [`TEXT_LIMIT`] bytes from an offset on, or the first lexical refusal there. Offsets
/// are those of the whole text. A byte order mark is one at the very front of the text alone.
pub fn tokens_from(alloc: Global, text: &[u8], from: u32) -> Result<Vec<Token>, LexErr>
    requires limit { length text.now ≤ TEXT_LIMIT }
    requires within { from ≤ length text.now }
    // The answer is the tokens from there on,
    ensures ok { IfOk result (λ found. HasTokensFrom text.now from found.items) }
    // or the first refusal from there on, unless memory runs out.
    ensures err { IfErr result (λ e. (e ≡ LexErr.Memory) ⊎ HasRefusalFrom text.now from e) }

    // Where there are tokens, they are the answer, and where there is a refusal, that is the answer, unless memory runs
    // out.
    ensures tokens { (ts : List Token) → HasTokensFrom text.now from ts →
        MatchResult result (λ found. found.items ≡ ts) (λ e. e ≡ LexErr.Memory) }
    ensures refusal { (refused : LexErr) → HasRefusalFrom text.now from refused →
        MatchResult result (λ _. ⊥) (λ e. (e ≡ LexErr.Memory) ⊎ (e ≡ refused)) }
{
    match std::str::from_utf8(&text[from as usize..]) {
        Ok(rest) => lex(alloc, to_read(rest, from), text.len() as u32),
        Err(e) => Err(LexErr::NotUtf8 {
            at: from + e.valid_up_to() as u32,
        }),
    }
}

/// What there is to read of a text that goes on like this from an offset on.
fn to_read(rest: &str, from: u32) -> &str
    ensures chars { (text : List ℕ) → rest.now ≡ drop from text
        → chars result.now ≡ characters_from text from }
    ensures len { length result.now ≤ length rest.now }
{
    match from {
        0 => past_byte_order_mark(rest),
        _ => rest,
    }
}

/// The tokens of what is left of a text, which ends at the offset `end_of_text`.
fn lex(alloc: Global, text: &str, end_of_text: u32) -> Result<Vec<Token>, LexErr>
    requires len { length text.now ≤ end_of_text }
    requires limit { end_of_text ≤ TEXT_LIMIT }
    ensures { Answers result (read (length text.now) end_of_text (chars text.now)) }
{
    let mut found = Vec::new(alloc);
    let mut rest = text;
    for _ in 0..text.len() {
        let start = end_of_text - rest.len() as u32;
        match front_of(rest) {
            Front::Nothing => return Ok(found),
            Front::Gap(after) => rest = after,
            Front::Word(after) => {
                let word = &rest.as_bytes()[..rest.len() - after.len()];
                found.push(Token {
                    kind: kind_of(word),
                    start,
                    end: end_of_text - after.len() as u32,
                })?;
                rest = after;
            }
            Front::Mark(n, after) => {
                found.push(Token {
                    kind: TokenKind::Mark { n },
                    start,
                    end: end_of_text - after.len() as u32,
                })?;
                rest = after;
            }
            Front::BadCharacter => return Err(LexErr::BadCharacter { at: start }),
            Front::OpenComment => return Err(LexErr::OpenComment { at: start }),
        }
    }
    Ok(found)
}

//! The skeleton of a text, or the calls of a part of one, or where the text is refused.

ghost use Rattle.std.specs.Prelude.{◌≡◌, ◌≤◌, ◌⊎◌, ℕ, List, length, IfOk, IfErr, MatchResult, Ok, Err, Some, None};
ghost use Rattle.swreq_lex.specs.{declared.lexer.TheConstants.{TEXT_LIMIT}, declared.refusal.LexErr.{LexErr}, Refusals.{HasRefusal, HasRefusalFrom}};
ghost use Rattle.swreq_decl.specs.{declared.kind.Kind.{Kind}, declared.skeleton.CallDecl.{CallDecl}, declared.skeleton.Skeleton.{Skeleton}, declared.refusal.ParseErr.TheVariants.{Lex, Memory, Syntax, Unsupported}};
ghost use Rattle.swreq_decl.specs.Calls as calls;
ghost use Rattle.swreq_decl.specs.{Terminals.{with_terminals}, Skeletons.{Exactly, RefusedFor, StandsFor, Tells, refused_kind, start_of, error_of, skeleton_of}};

use crate::calls::all_calls;
use crate::items::all_items;
use crate::kind::{Kind, kind_of};
use crate::refusal::ParseErr;
use crate::skeleton::{CallDecl, Item, Skeleton};
use crate::terminal::Terminal;
use crate::tokens::with_terminals;
use std::alloc::{AllocError, Global};
use swreq_grammar::{Stop, Token};
use swreq_lex::{LexErr, TEXT_LIMIT, tokens, tokens_from};
use swreq_text::Seq;

/// The skeleton that stands for a text of at most [`TEXT_LIMIT`] bytes, or why none does: a lexical refusal, or a refusal
/// at the first token such that no text of the grammar begins with the tokens up to and with it.
///
/// `Lex` has the refusal of [`tokens`]. `Syntax` and `Unsupported` have the offset of the refused token, and the kind by
/// the table of refused tokens (docs/LANGUAGE.md); where the text ends too early it is `Syntax` at its length. The grammar
/// is this language's own, a part of that of The Swift Programming Language.
pub fn parse(alloc: Global, text: &[u8]) -> Result<Skeleton, ParseErr>
    requires { length text.now ≤ TEXT_LIMIT }
    ensures ok { (skeleton : Skeleton)
        → Exactly (StandsFor text.now skeleton) (Ok skeleton) result }
    ensures lex { (fault : LexErr) → Exactly (HasRefusal text.now fault) (Err (Lex fault)) result }
    ensures syntax { (at : ℕ) → Exactly (RefusedFor text.now at None) (Err (Syntax at)) result }
    ensures unsupported { (at : ℕ) (kind : Kind)
        → Exactly (RefusedFor text.now at (Some kind)) (Err (Unsupported at kind)) result }
{
    match tokens(alloc, text) {
        Ok(found) => parse_tokens(alloc, text, &found),
        Err(LexErr::Memory) => Err(ParseErr::Memory),
        Err(fault) => Err(ParseErr::Lex { fault }),
    }
}

/// The skeleton that stands for the tokens of the text.
fn parse_tokens(
    alloc: Global,
    text: &[u8],
    found: &[swreq_lex::Token],
) -> Result<Skeleton, ParseErr>
    requires { length text.now ≤ TEXT_LIMIT }
    ensures { Tells (length text.now) (with_terminals text.now found.now) result }
{
    let coded = with_terminals(alloc, text, found)?;
    match all_items(alloc, &coded) {
        Ok(items) => Ok(skeleton_of(alloc, items)?),
        Err(stop) => Err(refusal(text.len() as u32, stop)),
    }
}

/// The parts of each kind, in written order.
fn skeleton_of(alloc: Global, items: Vec<Item>) -> Result<Skeleton, AllocError>
    ensures { IfOk result (λ skeleton. skeleton ≡ skeleton_of items.items) }
{
    let mut protocols = Vec::new(alloc);
    let mut structs = Vec::new(alloc);
    let mut functions = Vec::new(alloc);
    let mut queries = Vec::new(alloc);
    for item in items {
        match item {
            Item::Protocol(protocol) => protocols.push(protocol)?,
            Item::Struct(structure) => structs.push(structure)?,
            Item::Function(function) => functions.push(function)?,
            Item::Query(query) => queries.push(query)?,
        }
    }
    Ok(Skeleton {
        protocols: Seq::new(protocols),
        structs: Seq::new(structs),
        functions: Seq::new(functions),
        queries: Seq::new(queries),
    })
}

/// The place of the first of the tokens, or the end of the text.
fn start_of(end: u32, rest: &[Token<Terminal>]) -> u32
    ensures { result ≡ start_of end rest.now }
{
    match rest {
        [] => end,
        [token, ..] => token.start,
    }
}

/// The kind of a refusal at the first of the tokens.
fn refused_kind(label: Option<Kind>, rest: &[Token<Terminal>]) -> Option<Kind>
    ensures { result ≡ refused_kind label rest.now }
{
    match rest {
        [] => None,
        [token, ..] => match label {
            Some(kind) => Some(kind),
            None => kind_of(token.terminal),
        },
    }
}

/// The refusal of a text with this end.
fn refusal(end: u32, stop: Stop<'_, Terminal, Kind>) -> ParseErr
    ensures { result ≡ error_of end stop.entry }
{
    match stop {
        Stop::Memory => ParseErr::Memory,
        Stop::Refused(rest, label) => {
            let at = start_of(end, rest);
            match refused_kind(label, rest) {
                Some(kind) => ParseErr::Unsupported { at, kind },
                None => ParseErr::Syntax { at },
            }
        }
    }
}

/// The calls for which the part of a text that begins at `from` stands, in written order, or why it stands for none: the part's
/// lexical refusal, or a syntax error at the first token such that no calls begin with the tokens up to and with it.
///
/// Calls have the terminals of the text and its lines for signatures and types (docs/LANGUAGE.md), and are refused for no kind.
/// Offsets are those of the whole text. Where the part ends too early the place is its length.
pub fn parse_calls(alloc: Global, text: &[u8], from: u32) -> Result<Vec<CallDecl>, ParseErr>
    requires limit { length text.now ≤ TEXT_LIMIT }
    requires from { from ≤ length text.now }
    ensures ok { IfOk result (λ found. calls.StandsFor text.now from found.items) }
    ensures err { IfErr result (calls.IsReason text.now from) }
    ensures calls { (written : List CallDecl) → calls.StandsFor text.now from written →
        MatchResult result (λ found. found.items ≡ written) (λ e. e ≡ Memory) }
    ensures lex { (fault : LexErr) → HasRefusalFrom text.now from fault →
        MatchResult result (λ _. ⊥) (λ e. (e ≡ Memory) ⊎ (e ≡ Lex fault)) }
    ensures syntax { (at : ℕ) → calls.RefusedAt text.now from at →
        MatchResult result (λ _. ⊥) (λ e. (e ≡ Memory) ⊎ (e ≡ Syntax at)) }
{
    match tokens_from(alloc, text, from) {
        Ok(found) => parse_call_tokens(alloc, text, &found),
        Err(LexErr::Memory) => Err(ParseErr::Memory),
        Err(fault) => Err(ParseErr::Lex { fault }),
    }
}

/// The calls for which the tokens of a part of the text stand.
fn parse_call_tokens(
    alloc: Global,
    text: &[u8],
    found: &[swreq_lex::Token],
) -> Result<Vec<CallDecl>, ParseErr>
    requires { length text.now ≤ TEXT_LIMIT }
    ensures { calls.Tells (length text.now) (with_terminals text.now found.now) result }
{
    let coded = with_terminals(alloc, text, found)?;
    match all_calls(alloc, &coded) {
        Ok(found) => Ok(found),
        Err(stop) => Err(refusal_of_calls(text.len() as u32, stop)),
    }
}

/// The refusal of calls in a text with this end.
fn refusal_of_calls(end: u32, stop: Stop<'_, Terminal, Kind>) -> ParseErr
    ensures { result ≡ calls.error_of end stop.entry }
{
    match stop {
        Stop::Memory => ParseErr::Memory,
        Stop::Refused(rest, _) => ParseErr::Syntax {
            at: start_of(end, rest),
        },
    }
}

//! Reading calls.

ghost use Rattle.std.specs.Prelude.{◌≡◌, ◌∷◌, []};
ghost use Rattle.swreq_grammar.specs.{Gives.{Gives}, Reader.{read, read_whole}};
ghost use Rattle.swreq_decl.specs.declared.terminal.Terminal.TheVariants.{Comma, Name, Query};
ghost use Rattle.swreq_decl.specs.Calls as calls;
ghost use Rattle.swreq_decl.specs.Terminals.{number};
ghost use Rattle.swreq_decl.specs.Source as lines;

use crate::kind::Kind;
use crate::queries::{query_type, signature_name};
use crate::reading::{Read, begins, mark, past_semicolon};
use crate::skeleton::{CallDecl, TypeDecl};
use crate::terminal::Terminal;
use std::alloc::Global;
use swreq_grammar::{Part, Stop, Token, many};
use swreq_text::Seq;

/// A type of a call after `,`.
struct NextType;

impl Part for NextType {
    type Terminal = Terminal;

    type Label = Kind;

    type Value = TypeDecl;

    ghost number = { number };

    ghost reads = { read number (lines.after (lines.mark Comma) lines.qtype) };

    ghost first_set = { Comma ∷ [] };

    fn begins(tokens: &[Token<Terminal>]) -> bool {
        begins(tokens, &[Terminal::Comma])
    }

    fn part(alloc: Global, tokens: &[Token<Terminal>]) -> Read<'_, TypeDecl> {
        let (_, rest) = mark(tokens, Terminal::Comma)?;
        query_type(alloc, rest)
    }
}

/// Reads types, one at least.
#[tactic(auto, unfolding(crate::specs::Calls::qtypes))]
fn types(alloc: Global, tokens: &[Token<Terminal>]) -> Read<'_, Seq<TypeDecl>>
    ensures { Gives (λ x. (x.0, x.1.now)) result (read number calls.qtypes tokens.now) }
{
    let (first, rest) = query_type(alloc, tokens)?;
    let (mut others, rest) = many::<NextType>(alloc, rest)?;
    let mut found = Vec::new(alloc);
    found.push(first)?;
    found.append(&mut others)?;
    Ok((Seq::new(found), rest))
}

/// Reads the types of a call.
#[tactic(auto, unfolding(crate::specs::Calls::call_types, crate::specs::Calls::qtypes, crate::specs::Source::qtype, crate::specs::Source::name))]
fn call_types(alloc: Global, tokens: &[Token<Terminal>]) -> Read<'_, Seq<TypeDecl>>
    ensures { Gives (λ x. (x.0, x.1.now)) result (read number calls.call_types tokens.now) }
{
    if begins(tokens, &[Terminal::Name, Terminal::Query]) {
        return types(alloc, tokens);
    }
    Ok((Seq::new(Vec::new(alloc)), tokens))
}

/// Reads the types of a call, in their parentheses.
fn in_parentheses(alloc: Global, tokens: &[Token<Terminal>]) -> Read<'_, Seq<TypeDecl>>
    ensures { Gives (λ x. (x.0, x.1.now)) result
        (read number (lines.in_parentheses calls.call_types) tokens.now) }
{
    let (_, rest) = mark(tokens, Terminal::OpenParenthesis)?;
    let (args, rest) = call_types(alloc, rest)?;
    let (_, rest) = mark(rest, Terminal::CloseParenthesis)?;
    Ok((args, rest))
}

/// Reads a call without its semicolon.
#[tactic(auto, unfolding(crate::specs::Calls::call))]
fn call(alloc: Global, tokens: &[Token<Terminal>]) -> Read<'_, CallDecl>
    ensures { Gives (λ x. (x.0, x.1.now)) result (read number calls.call tokens.now) }
{
    let ((caller_outer, caller), rest) = signature_name(tokens)?;
    let (_, rest) = mark(rest, Terminal::Colon)?;
    let ((callee_outer, callee), rest) = signature_name(rest)?;
    let (args, rest) = in_parentheses(alloc, rest)?;
    let found = CallDecl {
        caller_outer,
        caller,
        callee_outer,
        callee,
        args,
    };
    Ok((found, rest))
}

/// A call with its semicolon.
struct AnyCall;

impl Part for AnyCall {
    type Terminal = Terminal;

    type Label = Kind;

    type Value = CallDecl;

    ghost number = { number };

    ghost reads = { read number (lines.before calls.call lines.semicolon) };

    ghost first_set = { Name ∷ Query ∷ [] };

    fn begins(tokens: &[Token<Terminal>]) -> bool {
        begins(tokens, &[Terminal::Name, Terminal::Query])
    }

    fn part(alloc: Global, tokens: &[Token<Terminal>]) -> Read<'_, CallDecl> {
        let (found, rest) = call(alloc, tokens)?;
        Ok((found, past_semicolon(rest)))
    }
}

/// Reads calls while one begins.
#[tactic(auto, unfolding(crate::specs::Calls::calls, crate::specs::Calls::call, crate::specs::Source::sname, crate::specs::Source::name))]
fn any_calls(alloc: Global, tokens: &[Token<Terminal>]) -> Read<'_, Vec<CallDecl>>
    ensures { Gives (λ x. (x.0.items, x.1.now)) result (read number calls.calls tokens.now) }
{
    many::<AnyCall>(alloc, tokens)
}

/// Reads the calls of a whole part.
pub fn all_calls(
    alloc: Global,
    tokens: &[Token<Terminal>],
) -> Result<Vec<CallDecl>, Stop<'_, Terminal, Kind>>
    ensures { Gives (λ found. found.items) result (read_whole number calls.calls tokens.now) }
{
    let (found, rest) = any_calls(alloc, tokens)?;
    if !rest.is_empty() {
        return Err(Stop::Refused(rest, None));
    }
    Ok(found)
}

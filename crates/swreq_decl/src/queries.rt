//! Reading queries.

ghost use Rattle.std.specs.Prelude.{◌≡◌, ◌∷◌, []};
ghost use Rattle.swreq_grammar.specs.{Gives.{Gives}, Reader.{read}};
ghost use Rattle.swreq_decl.specs.{declared.terminal.Terminal.TheVariants.{Colon, Dot, EqualEqual}, Terminals.{number}};
ghost use Rattle.swreq_decl.specs.Source as lines;

use crate::kind::Kind;
use crate::reading::{Read, begins, mark, name};
use crate::skeleton::{Ask, Entity, QueryDecl, Span, StepDecl, TypeDecl};
use crate::terminal::Terminal;
use crate::types::{STEP_LIMIT, query_entity};
use std::alloc::Global;
use swreq_grammar::{Part, Token, at_most};
use swreq_text::Seq;

/// Reads a bound step, after its `.`.
#[tactic(auto, unfolding(crate::specs::Source::bound_step))]
fn bound_step(tokens: &[Token<Terminal>]) -> Read<'_, StepDecl>
    ensures { Gives (λ x. (x.0, x.1.now)) result (read number lines.bound_step tokens.now) }
{
    let (_, rest) = mark(tokens, Terminal::OpenBracket)?;
    let (proto, rest) = name(rest)?;
    let (_, rest) = mark(rest, Terminal::CloseBracket)?;
    let (name, rest) = name(rest)?;
    Ok((StepDecl::Bound { proto, name }, rest))
}

/// A step of a type in a query or a call.
struct QueryStep;

impl Part for QueryStep {
    type Terminal = Terminal;

    type Label = Kind;

    type Value = StepDecl;

    ghost number = { number };

    ghost reads = { read number lines.qstep };

    ghost first_set = { Dot ∷ [] };

    fn begins(tokens: &[Token<Terminal>]) -> bool {
        begins(tokens, &[Terminal::Dot])
    }

    #[tactic(auto, unfolding(crate::specs::Source::qstep, crate::specs::Source::bound_step))]
    fn part(_alloc: Global, tokens: &[Token<Terminal>]) -> Read<'_, StepDecl> {
        let (_, rest) = mark(tokens, Terminal::Dot)?;
        if begins(rest, &[Terminal::OpenBracket]) {
            return bound_step(rest);
        }
        let (name, rest) = name(rest)?;
        Ok((StepDecl::Plain { name }, rest))
    }
}

/// Reads a type in a query or a call.
#[tactic(auto, unfolding(crate::specs::Source::qtype, crate::specs::Source::qstep))]
pub fn query_type(alloc: Global, tokens: &[Token<Terminal>]) -> Read<'_, TypeDecl>
    ensures { Gives (λ x. (x.0, x.1.now)) result (read number lines.qtype tokens.now) }
{
    let (head, rest) = name(tokens)?;
    let (found, rest) = at_most::<QueryStep>(alloc, STEP_LIMIT, Kind::LongType, rest)?;
    let steps = Seq::new(found);
    Ok((TypeDecl { head, steps }, rest))
}

/// Reads the name of a protocol, or `AnyObject`, after `:`.
fn entity_after_colon(alloc: Global, tokens: &[Token<Terminal>]) -> Read<'_, Entity>
    ensures { Gives (λ x. (x.0, x.1.now)) result
        (read number (lines.after (lines.mark Colon) lines.qentity) tokens.now) }
{
    let (_, rest) = mark(tokens, Terminal::Colon)?;
    query_entity(alloc, rest)
}

/// Reads a type in a query after `==`.
fn type_after_equals(alloc: Global, tokens: &[Token<Terminal>]) -> Read<'_, TypeDecl>
    ensures { Gives (λ x. (x.0, x.1.now)) result
        (read number (lines.after (lines.mark EqualEqual) lines.qtype) tokens.now) }
{
    let (_, rest) = mark(tokens, Terminal::EqualEqual)?;
    query_type(alloc, rest)
}

/// Reads what a query asks, where something stands in its parentheses.
#[tactic(auto, unfolding(crate::specs::Source::ask))]
fn ask(alloc: Global, tokens: &[Token<Terminal>]) -> Read<'_, Ask>
    ensures { Gives (λ x. (x.0, x.1.now)) result (read number lines.ask tokens.now) }
{
    let (t, rest) = query_type(alloc, tokens)?;
    if begins(rest, &[Terminal::Colon]) {
        let (bound, rest) = entity_after_colon(alloc, rest)?;
        return Ok((Ask::Is { t, bound }, rest));
    }
    if begins(rest, &[Terminal::EqualEqual]) {
        let left = t;
        let (right, rest) = type_after_equals(alloc, rest)?;
        return Ok((Ask::Same { left, right }, rest));
    }
    Ok((Ask::Reduced { t }, rest))
}

/// Reads what a query asks.
#[tactic(auto, unfolding(crate::specs::Source::asked, crate::specs::Source::ask, crate::specs::Source::qtype, crate::specs::Source::name))]
fn asked(alloc: Global, tokens: &[Token<Terminal>]) -> Read<'_, Ask>
    ensures { Gives (λ x. (x.0, x.1.now)) result (read number lines.asked tokens.now) }
{
    if begins(tokens, &[Terminal::Name, Terminal::Query]) {
        return ask(alloc, tokens);
    }
    Ok((Ask::Signature, tokens))
}

/// Reads the struct, if one is named, and the signature of a query or a call.
#[tactic(auto, unfolding(crate::specs::Source::sname))]
pub fn signature_name(tokens: &[Token<Terminal>]) -> Read<'_, (Option<Span>, Span)>
    ensures { Gives (λ x. (x.0, x.1.now)) result (read number lines.sname tokens.now) }
{
    let (first, rest) = name(tokens)?;
    if !begins(rest, &[Terminal::Dot]) {
        return Ok(((None, first), rest));
    }
    let (_, rest) = mark(rest, Terminal::Dot)?;
    let (function, rest) = name(rest)?;
    Ok(((Some(first), function), rest))
}

/// Reads what a query asks, in its parentheses.
fn in_parentheses(alloc: Global, tokens: &[Token<Terminal>]) -> Read<'_, Ask>
    ensures { Gives (λ x. (x.0, x.1.now)) result
        (read number (lines.in_parentheses lines.asked) tokens.now) }
{
    let (_, rest) = mark(tokens, Terminal::OpenParenthesis)?;
    let (ask, rest) = asked(alloc, rest)?;
    let (_, rest) = mark(rest, Terminal::CloseParenthesis)?;
    Ok((ask, rest))
}

/// Reads a query.
#[tactic(auto, unfolding(crate::specs::Source::query))]
pub fn query(alloc: Global, tokens: &[Token<Terminal>]) -> Read<'_, QueryDecl>
    ensures { Gives (λ x. (x.0, x.1.now)) result (read number lines.query tokens.now) }
{
    let (_, rest) = mark(tokens, Terminal::Query)?;
    let ((outer, function), rest) = signature_name(rest)?;
    let (ask, rest) = in_parentheses(alloc, rest)?;
    let found = QueryDecl {
        outer,
        function,
        ask,
    };
    Ok((found, rest))
}

//! Reading requirements.

ghost use Rattle.std.specs.Prelude.{◌≡◌, ◌∷◌, []};
ghost use Rattle.swreq_grammar.specs.{Gives.{Gives}, Reader.{read}};
ghost use Rattle.swreq_decl.specs.{declared.terminal.Terminal.TheVariants.{Comma, EqualEqual}, Terminals.{number}};
ghost use Rattle.swreq_decl.specs.Source as lines;

use crate::kind::Kind;
use crate::reading::{Read, begins, mark};
use crate::skeleton::{ReqDecl, TypeDecl};
use crate::terminal::Terminal;
use crate::types::{bounds_after_colon, written_type};
use std::alloc::Global;
use swreq_grammar::{Part, Token, many};
use swreq_text::Seq;

/// Reads a type after `==`.
fn type_after_equals(alloc: Global, tokens: &[Token<Terminal>]) -> Read<'_, TypeDecl>
    ensures { Gives (λ x. (x.0, x.1.now)) result
        (read number (lines.after (lines.mark EqualEqual) lines.written_type) tokens.now) }
{
    let (_, rest) = mark(tokens, Terminal::EqualEqual)?;
    written_type(alloc, rest)
}

/// Reads a requirement.
#[tactic(auto, unfolding(crate::specs::Source::requirement))]
fn requirement(alloc: Global, tokens: &[Token<Terminal>]) -> Read<'_, ReqDecl>
    ensures { Gives (λ x. (x.0, x.1.now)) result (read number lines.requirement tokens.now) }
{
    let (left, rest) = written_type(alloc, tokens)?;
    if begins(rest, &[Terminal::Colon]) {
        let subject = left;
        let (bounds, rest) = bounds_after_colon(alloc, rest)?;
        return Ok((ReqDecl::Bound { subject, bounds }, rest));
    }
    let (right, rest) = type_after_equals(alloc, rest)?;
    Ok((ReqDecl::Same { left, right }, rest))
}

/// A requirement after `,`.
struct NextRequirement;

impl Part for NextRequirement {
    type Terminal = Terminal;

    type Label = Kind;

    type Value = ReqDecl;

    ghost number = { number };

    ghost reads = { read number (lines.after (lines.mark Comma) lines.requirement) };

    ghost first_set = { Comma ∷ [] };

    fn begins(tokens: &[Token<Terminal>]) -> bool {
        begins(tokens, &[Terminal::Comma])
    }

    fn part(alloc: Global, tokens: &[Token<Terminal>]) -> Read<'_, ReqDecl> {
        let (_, rest) = mark(tokens, Terminal::Comma)?;
        requirement(alloc, rest)
    }
}

/// Reads the requirements after `where`, if it is there.
#[tactic(auto, unfolding(crate::specs::Source::where_clause, crate::specs::Source::conditions))]
pub fn conditions(alloc: Global, tokens: &[Token<Terminal>]) -> Read<'_, Seq<ReqDecl>>
    ensures { Gives (λ x. (x.0, x.1.now)) result (read number lines.conditions tokens.now) }
{
    let mut found = Vec::new(alloc);
    if !begins(tokens, &[Terminal::Where]) {
        return Ok((Seq::new(found), tokens));
    }
    let (_, rest) = mark(tokens, Terminal::Where)?;
    let (first, rest) = requirement(alloc, rest)?;
    let (mut others, rest) = many::<NextRequirement>(alloc, rest)?;
    found.push(first)?;
    found.append(&mut others)?;
    Ok((Seq::new(found), rest))
}

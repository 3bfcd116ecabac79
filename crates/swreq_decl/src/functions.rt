//! Reading functions.

ghost use Rattle.std.specs.Prelude.{◌≡◌, ◌∷◌, []};
ghost use Rattle.swreq_grammar.specs.{Gives.{Gives}, Reader.{read}};
ghost use Rattle.swreq_decl.specs.{declared.terminal.Terminal.TheVariants.{Comma}, Terminals.{number}};
ghost use Rattle.swreq_decl.specs.Source as lines;

use crate::kind::Kind;
use crate::reading::{Read, begins, labelled, mark, name};
use crate::requirements::conditions;
use crate::skeleton::{FunctionDecl, ParamDecl};
use crate::terminal::Terminal;
use crate::types::bounds_after_colon;
use std::alloc::Global;
use swreq_grammar::{Part, Token, many};
use swreq_text::Seq;

/// Reads a generic parameter.
#[tactic(auto, unfolding(crate::specs::Source::param))]
fn param(alloc: Global, tokens: &[Token<Terminal>]) -> Read<'_, ParamDecl>
    ensures { Gives (λ x. (x.0, x.1.now)) result (read number lines.param tokens.now) }
{
    let (name, rest) = name(tokens)?;
    if !begins(rest, &[Terminal::Colon]) {
        let bounds = Seq::new(Vec::new(alloc));
        return Ok((ParamDecl { name, bounds }, rest));
    }
    let (bounds, rest) = bounds_after_colon(alloc, rest)?;
    Ok((ParamDecl { name, bounds }, rest))
}

/// A generic parameter after `,`.
struct NextParam;

impl Part for NextParam {
    type Terminal = Terminal;

    type Label = Kind;

    type Value = ParamDecl;

    ghost number = { number };

    ghost reads = { read number (lines.after (lines.mark Comma) lines.param) };

    ghost first_set = { Comma ∷ [] };

    fn begins(tokens: &[Token<Terminal>]) -> bool {
        begins(tokens, &[Terminal::Comma])
    }

    fn part(alloc: Global, tokens: &[Token<Terminal>]) -> Read<'_, ParamDecl> {
        let (_, rest) = mark(tokens, Terminal::Comma)?;
        param(alloc, rest)
    }
}

/// Reads the generic parameters, if there are any.
#[tactic(auto, unfolding(crate::specs::Source::generics, crate::specs::Source::params))]
pub fn params(alloc: Global, tokens: &[Token<Terminal>]) -> Read<'_, Seq<ParamDecl>>
    ensures { Gives (λ x. (x.0, x.1.now)) result (read number lines.params tokens.now) }
{
    let mut found = Vec::new(alloc);
    if !begins(tokens, &[Terminal::Less]) {
        return Ok((Seq::new(found), tokens));
    }
    let (_, rest) = mark(tokens, Terminal::Less)?;
    let (first, rest) = param(alloc, rest)?;
    let (mut others, rest) = many::<NextParam>(alloc, rest)?;
    let (_, rest) = mark(rest, Terminal::Greater)?;
    found.push(first)?;
    found.append(&mut others)?;
    Ok((Seq::new(found), rest))
}

/// Reads the empty braces, if they are there.
#[tactic(auto, unfolding(crate::specs::Source::no_body))]
fn no_body(tokens: &[Token<Terminal>]) -> Read<'_, ()>
    ensures { Gives (λ x. (tt, x.1.now)) result (read number lines.no_body tokens.now) }
{
    if !begins(tokens, &[Terminal::OpenBrace]) {
        return Ok(((), tokens));
    }
    let (_, rest) = mark(tokens, Terminal::OpenBrace)?;
    let (_, rest) = labelled(rest, Kind::Body, Terminal::CloseBrace)?;
    Ok(((), rest))
}

/// Reads a function, from the word `func` on.
#[tactic(auto, unfolding(crate::specs::Source::function))]
pub fn function(alloc: Global, tokens: &[Token<Terminal>]) -> Read<'_, FunctionDecl>
    ensures { Gives (λ x. (x.0, x.1.now)) result (read number lines.function tokens.now) }
{
    let (_, rest) = mark(tokens, Terminal::Func)?;
    let (name, rest) = name(rest)?;
    let (params, rest) = params(alloc, rest)?;
    let (_, rest) = mark(rest, Terminal::OpenParenthesis)?;
    let (_, rest) = labelled(rest, Kind::Parameters, Terminal::CloseParenthesis)?;
    let (clause, rest) = conditions(alloc, rest)?;
    let (_, rest) = no_body(rest)?;
    let found = FunctionDecl {
        name,
        params,
        clause,
    };
    Ok((found, rest))
}

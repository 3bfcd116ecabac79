//! Reading bounds, types and requirements.

ghost use Rattle.std.specs.Prelude.{◌≡◌, ◌∷◌, []};
ghost use Rattle.swreq_grammar.specs.{Grammar.{terminal, mapped}, Gives.{Gives}, Reader.{read}};
ghost use Rattle.swreq_decl.specs.{declared.terminal.Terminal.TheVariants.{Ampersand, AnyObject, Colon, Comma, Dot}, Terminals.{number}};
ghost use Rattle.swreq_decl.specs.Source as lines;

use crate::kind::Kind;
use crate::reading::{Read, begins, mark, name, one_of, span_of};
use crate::skeleton::{Entity, Span, StepDecl, TypeDecl};
use crate::terminal::Terminal;
use std::alloc::Global;
use swreq_grammar::{Part, Token, at_most, many};
use swreq_text::Seq;

/// The most steps of a type.
pub const STEP_LIMIT: usize = 1000;

/// A type argument after `,`.
struct NextArgument;

impl Part for NextArgument {
    type Terminal = Terminal;

    type Label = Kind;

    type Value = TypeDecl;

    ghost number = { number };

    ghost reads = { read number (lines.after (lines.mark Comma) lines.written_type) };

    ghost first_set = { Comma ∷ [] };

    fn begins(tokens: &[Token<Terminal>]) -> bool {
        begins(tokens, &[Terminal::Comma])
    }

    fn part(alloc: Global, tokens: &[Token<Terminal>]) -> Read<'_, TypeDecl> {
        let (_, rest) = mark(tokens, Terminal::Comma)?;
        written_type(alloc, rest)
    }
}

/// Reads the arguments of a constraint, if it has any.
#[tactic(auto, unfolding(crate::specs::Source::args, crate::specs::Source::arguments))]
fn arguments(alloc: Global, tokens: &[Token<Terminal>]) -> Read<'_, Seq<TypeDecl>>
    ensures { Gives (λ x. (x.0, x.1.now)) result (read number lines.arguments tokens.now) }
{
    let mut found = Vec::new(alloc);
    if !begins(tokens, &[Terminal::Less]) {
        return Ok((Seq::new(found), tokens));
    }
    let (_, rest) = mark(tokens, Terminal::Less)?;
    let (first, rest) = written_type(alloc, rest)?;
    let (mut others, rest) = many::<NextArgument>(alloc, rest)?;
    let (_, rest) = mark(rest, Terminal::Greater)?;
    found.push(first)?;
    found.append(&mut others)?;
    Ok((Seq::new(found), rest))
}

/// `AnyObject`.
fn any_object(alloc: Global, tokens: &[Token<Terminal>]) -> Read<'_, Entity>
    ensures { Gives (λ x. (x.0, x.1.now)) result
        (read number (mapped lines.any_object (lines.mark AnyObject)) tokens.now) }
{
    let (token, rest) = mark(tokens, Terminal::AnyObject)?;
    let found = Entity {
        span: span_of(token),
        layout: true,
        args: Seq::new(Vec::new(alloc)),
    };
    Ok((found, rest))
}

/// Reads the name of a protocol with its arguments, or `AnyObject`.
#[tactic(auto, unfolding(crate::specs::Source::entity, crate::specs::Source::name))]
fn entity(alloc: Global, tokens: &[Token<Terminal>]) -> Read<'_, Entity>
    ensures { Gives (λ x. (x.0, x.1.now)) result (read number lines.entity tokens.now) }
{
    if !begins(tokens, &[Terminal::Name, Terminal::Query]) {
        return any_object(alloc, tokens);
    }
    let (span, rest) = name(tokens)?;
    let (args, rest) = arguments(alloc, rest)?;
    let layout = false;
    Ok((Entity { span, layout, args }, rest))
}

/// Reads the name of a protocol, or `AnyObject`, as a query has it.
#[tactic(auto, unfolding(crate::specs::Source::qentity, crate::specs::Source::name))]
pub fn query_entity(alloc: Global, tokens: &[Token<Terminal>]) -> Read<'_, Entity>
    ensures { Gives (λ x. (x.0, x.1.now)) result (read number lines.qentity tokens.now) }
{
    if !begins(tokens, &[Terminal::Name, Terminal::Query]) {
        return any_object(alloc, tokens);
    }
    let (span, rest) = name(tokens)?;
    let layout = false;
    let args = Seq::new(Vec::new(alloc));
    Ok((Entity { span, layout, args }, rest))
}

/// An entity after `&`.
struct JoinedEntity;

impl Part for JoinedEntity {
    type Terminal = Terminal;

    type Label = Kind;

    type Value = Entity;

    ghost number = { number };

    ghost reads = { read number (lines.after (lines.mark Ampersand) lines.entity) };

    ghost first_set = { Ampersand ∷ [] };

    fn begins(tokens: &[Token<Terminal>]) -> bool {
        begins(tokens, &[Terminal::Ampersand])
    }

    fn part(alloc: Global, tokens: &[Token<Terminal>]) -> Read<'_, Entity> {
        let (_, rest) = mark(tokens, Terminal::Ampersand)?;
        entity(alloc, rest)
    }
}

/// Reads entities joined by `&`.
#[tactic(auto, unfolding(crate::specs::Source::bounds))]
fn bounds(alloc: Global, tokens: &[Token<Terminal>]) -> Read<'_, Seq<Entity>>
    ensures { Gives (λ x. (x.0, x.1.now)) result (read number lines.bounds tokens.now) }
{
    let (first, rest) = entity(alloc, tokens)?;
    let (mut others, rest) = many::<JoinedEntity>(alloc, rest)?;
    let mut found = Vec::new(alloc);
    found.push(first)?;
    found.append(&mut others)?;
    Ok((Seq::new(found), rest))
}

/// Reads bounds after `:`.
pub fn bounds_after_colon(alloc: Global, tokens: &[Token<Terminal>]) -> Read<'_, Seq<Entity>>
    ensures { Gives (λ x. (x.0, x.1.now)) result
        (read number (lines.after (lines.mark Colon) lines.bounds) tokens.now) }
{
    let (_, rest) = mark(tokens, Terminal::Colon)?;
    bounds(alloc, rest)
}

/// A bound after `,` or `&`.
struct NextInherited;

impl Part for NextInherited {
    type Terminal = Terminal;

    type Label = Kind;

    type Value = Entity;

    ghost number = { number };

    ghost reads = { read number (lines.after (terminal (Comma ∷ Ampersand ∷ [])) lines.entity) };

    ghost first_set = { Comma ∷ Ampersand ∷ [] };

    fn begins(tokens: &[Token<Terminal>]) -> bool {
        begins(tokens, &[Terminal::Comma, Terminal::Ampersand])
    }

    fn part(alloc: Global, tokens: &[Token<Terminal>]) -> Read<'_, Entity> {
        let (_, rest) = one_of(tokens, &[Terminal::Comma, Terminal::Ampersand])?;
        entity(alloc, rest)
    }
}

/// Reads what is inherited, if anything is.
#[tactic(auto, unfolding(crate::specs::Source::inherit, crate::specs::Source::inherits))]
pub fn inherits(alloc: Global, tokens: &[Token<Terminal>]) -> Read<'_, Seq<Entity>>
    ensures { Gives (λ x. (x.0, x.1.now)) result (read number lines.inherits tokens.now) }
{
    let mut found = Vec::new(alloc);
    if !begins(tokens, &[Terminal::Colon]) {
        return Ok((Seq::new(found), tokens));
    }
    let (_, rest) = mark(tokens, Terminal::Colon)?;
    let (first, rest) = entity(alloc, rest)?;
    let (mut others, rest) = many::<NextInherited>(alloc, rest)?;
    found.push(first)?;
    found.append(&mut others)?;
    Ok((Seq::new(found), rest))
}

/// Reads the first word of a type.
#[tactic(auto, unfolding(crate::specs::Source::head))]
fn head(tokens: &[Token<Terminal>]) -> Read<'_, Span>
    ensures { Gives (λ x. (x.0, x.1.now)) result (read number lines.head tokens.now) }
{
    let heads = [Terminal::Name, Terminal::Query, Terminal::SelfType];
    let (token, rest) = one_of(tokens, &heads)?;
    Ok((span_of(token), rest))
}

/// A step of a type.
struct PlainStep;

impl Part for PlainStep {
    type Terminal = Terminal;

    type Label = Kind;

    type Value = StepDecl;

    ghost number = { number };

    ghost reads = { read number (lines.after (lines.mark Dot) (mapped lines.plain_step lines.name)) };

    ghost first_set = { Dot ∷ [] };

    fn begins(tokens: &[Token<Terminal>]) -> bool {
        begins(tokens, &[Terminal::Dot])
    }

    fn part(_alloc: Global, tokens: &[Token<Terminal>]) -> Read<'_, StepDecl> {
        let (_, rest) = mark(tokens, Terminal::Dot)?;
        let (name, rest) = name(rest)?;
        Ok((StepDecl::Plain { name }, rest))
    }
}

/// Reads a type.
#[tactic(auto, unfolding(crate::specs::Source::written_type))]
pub fn written_type(alloc: Global, tokens: &[Token<Terminal>]) -> Read<'_, TypeDecl>
    ensures { Gives (λ x. (x.0, x.1.now)) result (read number lines.written_type tokens.now) }
{
    let (head, rest) = head(tokens)?;
    let (found, rest) = at_most::<PlainStep>(alloc, STEP_LIMIT, Kind::LongType, rest)?;
    let steps = Seq::new(found);
    Ok((TypeDecl { head, steps }, rest))
}

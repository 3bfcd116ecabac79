//! Reading protocols.

ghost use Rattle.std.specs.Prelude.{◌≡◌, ◌∷◌, []};
ghost use Rattle.swreq_grammar.specs.{Gives.{Gives}, Reader.{read}};
ghost use Rattle.swreq_decl.specs.{declared.terminal.Terminal.TheVariants.{AssociatedType, Comma}, Terminals.{number}};
ghost use Rattle.swreq_decl.specs.Source as lines;

use crate::kind::Kind;
use crate::reading::{Read, begins, mark, name, past_semicolon};
use crate::requirements::conditions;
use crate::skeleton::{AssocDecl, ProtocolDecl, Span};
use crate::terminal::Terminal;
use crate::types::inherits;
use std::alloc::Global;
use swreq_grammar::{Part, Token, many};
use swreq_text::Seq;

/// A primary name after `,`.
struct NextPrimary;

impl Part for NextPrimary {
    type Terminal = Terminal;

    type Label = Kind;

    type Value = Span;

    ghost number = { number };

    ghost reads = { read number (lines.after (lines.mark Comma) lines.name) };

    ghost first_set = { Comma ∷ [] };

    fn begins(tokens: &[Token<Terminal>]) -> bool {
        begins(tokens, &[Terminal::Comma])
    }

    fn part(_alloc: Global, tokens: &[Token<Terminal>]) -> Read<'_, Span> {
        let (_, rest) = mark(tokens, Terminal::Comma)?;
        name(rest)
    }
}

/// Reads the names of the primary associated types, if a protocol has any.
#[tactic(auto, unfolding(crate::specs::Source::primaries, crate::specs::Source::primary_names))]
fn primaries(alloc: Global, tokens: &[Token<Terminal>]) -> Read<'_, Seq<Span>>
    ensures { Gives (λ x. (x.0, x.1.now)) result (read number lines.primary_names tokens.now) }
{
    let mut found = Vec::new(alloc);
    if !begins(tokens, &[Terminal::Less]) {
        return Ok((Seq::new(found), tokens));
    }
    let (_, rest) = mark(tokens, Terminal::Less)?;
    let (first, rest) = name(rest)?;
    let (mut others, rest) = many::<NextPrimary>(alloc, rest)?;
    let (_, rest) = mark(rest, Terminal::Greater)?;
    found.push(first)?;
    found.append(&mut others)?;
    Ok((Seq::new(found), rest))
}

/// A member of a protocol.
struct Member;

impl Part for Member {
    type Terminal = Terminal;

    type Label = Kind;

    type Value = AssocDecl;

    ghost number = { number };

    ghost reads = { read number lines.member };

    ghost first_set = { AssociatedType ∷ [] };

    fn begins(tokens: &[Token<Terminal>]) -> bool {
        begins(tokens, &[Terminal::AssociatedType])
    }

    #[tactic(auto, unfolding(crate::specs::Source::member))]
    fn part(alloc: Global, tokens: &[Token<Terminal>]) -> Read<'_, AssocDecl> {
        let (_, rest) = mark(tokens, Terminal::AssociatedType)?;
        let (name, rest) = name(rest)?;
        let (inherits, rest) = inherits(alloc, rest)?;
        let (clause, rest) = conditions(alloc, rest)?;
        let found = AssocDecl {
            name,
            inherits,
            clause,
        };
        Ok((found, past_semicolon(rest)))
    }
}

/// Reads the members of a protocol, in their braces.
#[tactic(auto, unfolding(crate::specs::Source::member))]
fn members(alloc: Global, tokens: &[Token<Terminal>]) -> Read<'_, Seq<AssocDecl>>
    ensures { Gives (λ x. (x.0, x.1.now)) result
        (read number (lines.in_braces lines.member) tokens.now) }
{
    let (_, rest) = mark(tokens, Terminal::OpenBrace)?;
    let (found, rest) = many::<Member>(alloc, rest)?;
    let (_, rest) = mark(rest, Terminal::CloseBrace)?;
    Ok((Seq::new(found), rest))
}

/// Reads a protocol, from the word `protocol` on.
#[tactic(auto, unfolding(crate::specs::Source::protocol))]
pub fn protocol(alloc: Global, tokens: &[Token<Terminal>]) -> Read<'_, ProtocolDecl>
    ensures { Gives (λ x. (x.0, x.1.now)) result (read number lines.protocol tokens.now) }
{
    let (_, rest) = mark(tokens, Terminal::Protocol)?;
    let (name, rest) = name(rest)?;
    let (primaries, rest) = primaries(alloc, rest)?;
    let (inherits, rest) = inherits(alloc, rest)?;
    let (clause, rest) = conditions(alloc, rest)?;
    let (members, rest) = members(alloc, rest)?;
    let found = ProtocolDecl {
        name,
        primaries,
        inherits,
        clause,
        members,
    };
    Ok((found, rest))
}

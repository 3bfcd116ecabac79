//! Reading the parts of a text.

ghost use Rattle.std.specs.Prelude.{◌≡◌, ◌∷◌, []};
ghost use Rattle.swreq_grammar.specs.{Gives.{Gives}, Reader.{read, read_whole}};
ghost use Rattle.swreq_decl.specs.{declared.terminal.Terminal.TheVariants.{Public, Internal, FilePrivate, Private, Protocol, Func, Struct, Query}, Terminals.{number}};
ghost use Rattle.swreq_decl.specs.Source as lines;

use crate::functions::function;
use crate::kind::Kind;
use crate::protocols::protocol;
use crate::queries::query;
use crate::reading::{ACCESS, Read, begins, one_of, past_semicolon};
use crate::skeleton::Item;
use crate::structs::structure;
use crate::terminal::Terminal;
use std::alloc::Global;
use swreq_grammar::{Part, Stop, Token, many};

/// Reads a protocol, a function or a struct, after its access.
#[tactic(auto, unfolding(crate::specs::Source::declaration, crate::specs::Source::protocol, crate::specs::Source::function))]
fn declaration(alloc: Global, tokens: &[Token<Terminal>]) -> Read<'_, Item>
    ensures { Gives (λ x. (x.0, x.1.now)) result (read number lines.declaration tokens.now) }
{
    if begins(tokens, &[Terminal::Protocol]) {
        let (found, rest) = protocol(alloc, tokens)?;
        return Ok((Item::Protocol(found), rest));
    }
    if begins(tokens, &[Terminal::Func]) {
        let (found, rest) = function(alloc, tokens)?;
        return Ok((Item::Function(found), rest));
    }
    let (found, rest) = structure(alloc, tokens)?;
    Ok((Item::Struct(found), rest))
}

/// Reads an item without its semicolon.
#[tactic(auto, unfolding(crate::specs::Source::bare_item, crate::specs::Source::access, crate::specs::Source::declaration, crate::specs::Source::protocol, crate::specs::Source::function, crate::specs::Source::structure))]
fn bare_item(alloc: Global, tokens: &[Token<Terminal>]) -> Read<'_, Item>
    ensures { Gives (λ x. (x.0, x.1.now)) result (read number lines.bare_item tokens.now) }
{
    if begins(tokens, &ACCESS) {
        let (_, rest) = one_of(tokens, &ACCESS)?;
        return declaration(alloc, rest);
    }
    if begins(
        tokens,
        &[Terminal::Protocol, Terminal::Func, Terminal::Struct],
    ) {
        return declaration(alloc, tokens);
    }
    let (found, rest) = query(alloc, tokens)?;
    Ok((Item::Query(found), rest))
}

/// A protocol, a function, a struct or a query.
struct AnyItem;

impl Part for AnyItem {
    type Terminal = Terminal;

    type Label = Kind;

    type Value = Item;

    ghost number = { number };

    ghost reads = { read number lines.item };

    ghost first_set = { Public ∷ Internal ∷ FilePrivate ∷ Private ∷ Protocol ∷ Func ∷ Struct ∷ Query ∷ [] };

    fn begins(tokens: &[Token<Terminal>]) -> bool {
        let firsts = [
            Terminal::Public,
            Terminal::Internal,
            Terminal::FilePrivate,
            Terminal::Private,
            Terminal::Protocol,
            Terminal::Func,
            Terminal::Struct,
            Terminal::Query,
        ];
        begins(tokens, &firsts)
    }

    #[tactic(auto, unfolding(crate::specs::Source::item))]
    fn part(alloc: Global, tokens: &[Token<Terminal>]) -> Read<'_, Item> {
        let (found, rest) = bare_item(alloc, tokens)?;
        Ok((found, past_semicolon(rest)))
    }
}

/// Reads items while one begins.
#[tactic(auto, unfolding(crate::specs::Source::source, crate::specs::Source::item, crate::specs::Source::bare_item, crate::specs::Source::access, crate::specs::Source::declaration, crate::specs::Source::protocol, crate::specs::Source::function, crate::specs::Source::structure, crate::specs::Source::query))]
fn items(alloc: Global, tokens: &[Token<Terminal>]) -> Read<'_, Vec<Item>>
    ensures { Gives (λ x. (x.0.items, x.1.now)) result (read number lines.source tokens.now) }
{
    many::<AnyItem>(alloc, tokens)
}

/// Reads the parts of a whole text.
pub fn all_items(
    alloc: Global,
    tokens: &[Token<Terminal>],
) -> Result<Vec<Item>, Stop<'_, Terminal, Kind>>
    ensures { Gives (λ found. found.items) result (read_whole number lines.source tokens.now) }
{
    let (found, rest) = items(alloc, tokens)?;
    if !rest.is_empty() {
        return Err(Stop::Refused(rest, None));
    }
    Ok(found)
}

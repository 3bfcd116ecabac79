//! Reading structs.

ghost use Rattle.std.specs.Prelude.{◌≡◌, ◌∷◌, []};
ghost use Rattle.swreq_grammar.specs.{Gives.{Gives}, Reader.{read}};
ghost use Rattle.swreq_decl.specs.{declared.terminal.Terminal.TheVariants.{Func, FilePrivate, Internal, Private, Public}, Terminals.{number}};
ghost use Rattle.swreq_decl.specs.Source as lines;

use crate::functions::{function, params};
use crate::kind::Kind;
use crate::reading::{ACCESS, Read, begins, mark, name, past_access, past_semicolon};
use crate::requirements::conditions;
use crate::skeleton::{FunctionDecl, StructDecl};
use crate::terminal::Terminal;
use std::alloc::Global;
use swreq_grammar::{Part, Token, many};
use swreq_text::Seq;

/// A function of a struct.
struct InnerFunction;

impl Part for InnerFunction {
    type Terminal = Terminal;

    type Label = Kind;

    type Value = FunctionDecl;

    ghost number = { number };

    ghost reads = { read number lines.inner_function };

    ghost first_set = { Public ∷ Internal ∷ FilePrivate ∷ Private ∷ Func ∷ [] };

    fn begins(tokens: &[Token<Terminal>]) -> bool {
        let firsts = [
            Terminal::Public,
            Terminal::Internal,
            Terminal::FilePrivate,
            Terminal::Private,
            Terminal::Func,
        ];
        begins(tokens, &firsts)
    }

    #[tactic(auto, unfolding(crate::specs::Source::inner_function))]
    fn part(alloc: Global, tokens: &[Token<Terminal>]) -> Read<'_, FunctionDecl> {
        let rest = past_access(tokens);
        let (found, rest) = function(alloc, rest)?;
        Ok((found, past_semicolon(rest)))
    }
}

/// Reads the functions of a struct, in their braces.
#[tactic(auto, unfolding(crate::specs::Source::inner_function, crate::specs::Source::access, crate::specs::Source::function))]
fn functions(alloc: Global, tokens: &[Token<Terminal>]) -> Read<'_, Seq<FunctionDecl>>
    ensures { Gives (λ x. (x.0, x.1.now)) result
        (read number (lines.in_braces lines.inner_function) tokens.now) }
{
    let (_, rest) = mark(tokens, Terminal::OpenBrace)?;
    let (found, rest) = many::<InnerFunction>(alloc, rest)?;
    let (_, rest) = mark(rest, Terminal::CloseBrace)?;
    Ok((Seq::new(found), rest))
}

/// Reads a struct, from the word `struct` on.
#[tactic(auto, unfolding(crate::specs::Source::structure))]
pub fn structure(alloc: Global, tokens: &[Token<Terminal>]) -> Read<'_, StructDecl>
    ensures { Gives (λ x. (x.0, x.1.now)) result (read number lines.structure tokens.now) }
{
    let (_, rest) = mark(tokens, Terminal::Struct)?;
    let (name, rest) = name(rest)?;
    let (params, rest) = params(alloc, rest)?;
    let (clause, rest) = conditions(alloc, rest)?;
    let (functions, rest) = functions(alloc, rest)?;
    let found = StructDecl {
        name,
        params,
        clause,
        functions,
    };
    Ok((found, rest))
}

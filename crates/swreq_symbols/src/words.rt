//! The words of type parameters, and the equations of requirements.
ghost use Rattle.std.specs.Prelude.{◌≡◌, ◌<◌, length, IfOk};
ghost use Rattle.swreq_correspondence.specs.swreq_param.declared.ids.Step.TheVariants.{Bound};
ghost use Rattle.swreq_correspondence.specs.swreq_derive.Facts.{requirement_of};
ghost use Rattle.swreq_correspondence.specs.Symbols.{left_side, right_side, spell, start, symbol};
ghost use Rattle.swreq_world.specs.Closed.{AreIds, IsStepOf};
ghost use Rattle.swreq_symbols.specs.{Meaning.{symbols_of}, Overs.{ending, source_by}, Texts.{IsRequirementOfText, IsTypeOfText, term_of}};

use crate::text::Text;
use std::alloc::{AllocError, Global};
use swreq_complete::word::{Symbol, Word};
use swreq_world::World;
use swreq_world::derive::Requirement;
use swreq_world::param::{AssocId, ParamId, ProtoId, Step, TermId};

/// The symbol of an associated type.
fn symbol_of_assoc(world: &World, d: AssocId) -> Symbol
    requires ids { AreIds world.now.lexicon }
    requires assoc { d.rank < length world.now.lexicon.associated }
    ensures { result ≡ symbol (symbols_of world.now.lexicon) (Bound d) }
{
    let declared = world.assoc(d);
    match world.member_rank(declared.proto, declared.name) {
        Some(rank) => Symbol::Member(rank),
        None => unreachable!(),
    }
}

/// The symbol of a step.
pub(crate) fn symbol_of(world: &World, step: Step) -> Symbol
    requires ids { AreIds world.now.lexicon }
    requires step { IsStepOf world.now.lexicon step }
    ensures { result ≡ symbol (symbols_of world.now.lexicon) step }
{
    match step {
        Step::Bound(d) => symbol_of_assoc(world, d),
        Step::Name(a) => Symbol::Name(a.rank),
    }
}

/// The symbol with which the words of type parameters with this generic parameter begin.
pub(crate) fn start_of(owner: Option<ProtoId>, g: ParamId) -> Symbol
    ensures { result ≡ start (source_by owner) g }
{
    match owner {
        Some(p) => Symbol::Proto(p.rank),
        None => Symbol::Param(g.depth, g.index),
    }
}

/// The one symbol, or none.
fn ended(alloc: Global, end: Option<Symbol>) -> Result<Vec<Symbol>, AllocError>
    ensures { IfOk result (λ v. v.items ≡ ending end) }
{
    let mut symbols = Vec::new(alloc);
    match end {
        None => Ok(symbols),
        Some(x) => {
            symbols.push(x)?;
            Ok(symbols)
        }
    }
}

/// The word of a type parameter, and then this symbol.
fn spelled(
    alloc: Global,
    text: &Text<'_>,
    owner: Option<ProtoId>,
    t: TermId,
    end: Option<Symbol>,
) -> Result<Word, AllocError>
    requires { IsTypeOfText text.now t }
    ensures { IfOk result (λ w. w ≡ spell (symbols_of text.now.world.now.lexicon) (source_by owner)
        (term_of text.now t) (ending end)) }
{
    let mut symbols = ended(alloc, end)?;
    let mut at = t;
    'members: while let Some((base, step)) = text.table.split(at) {
        symbols.push(symbol_of(text.world, step))?;
        at = base;
    }
    symbols.push(start_of(owner, text.table.head(t)))?;
    symbols.reverse();
    Ok(Word::new(symbols))
}

/// The two sides of the equation of a requirement: of a requirement of this protocol, or where there is none of a requirement in the
/// list of a signature.
pub fn equation(
    alloc: Global,
    text: &Text<'_>,
    owner: Option<ProtoId>,
    r: &Requirement,
) -> Result<(Word, Word), AllocError>
    requires { IsRequirementOfText text.now r.now }
    ensures left { IfOk result (λ e. e.0 ≡ left_side (symbols_of text.now.world.now.lexicon)
        (source_by owner) (requirement_of text.now.table.now r.now)) }
    ensures right { IfOk result (λ e. e.1 ≡ right_side (symbols_of text.now.world.now.lexicon)
        (source_by owner) (requirement_of text.now.table.now r.now)) }
{
    match *r {
        Requirement::Conf { subject, proto } => {
            let left = spelled(alloc, text, owner, subject, Some(Symbol::Proto(proto.rank)))?;
            let right = spelled(alloc, text, owner, subject, None)?;
            Ok((left, right))
        }
        Requirement::Layout { subject } => {
            let left = spelled(alloc, text, owner, subject, Some(Symbol::Layout))?;
            let right = spelled(alloc, text, owner, subject, None)?;
            Ok((left, right))
        }
        Requirement::Same { left, right } => {
            let left = spelled(alloc, text, owner, left, None)?;
            let right = spelled(alloc, text, owner, right, None)?;
            Ok((left, right))
        }
    }
}

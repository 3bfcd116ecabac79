//! The equations of rounds, with their reasons.
ghost use Rattle.std.specs.{Prelude.{◌≡◌, ◌<◌, ◌++◌, ◌∷◌, [], IfOk, List, OnOk, Some, length, map, slice_get}, Bool.{if◌then◌else◌, nat_eq}};
ghost use Rattle.swreq_machine.specs.{swreq_derive.Facts.{requirement_of}, swreq_lowering.ByTable.{HasIdsOf}, swreq_symbols.Meaning.{symbols_of}};
ghost use Rattle.swreq_machine.specs.{swreq_lexicon.declared.pair.ProtocolName.{ProtocolName as PairView}, swreq_valid.{Flags.{chosen}, Rounds.{RoundView}}};
ghost use Rattle.swreq_births.specs.{declared.history.Equation.{Equation as EquationView}, Systems.{requirement_by}};
ghost use Rattle.swreq_explain.specs.{declared.numbered.Numbered.{Numbered as NumberedView}, Numbering.{AreBasic, AreEquationsOf, IsEquationIn, sides_of}, Rounds.{origin_of}, Uses.{Uses}};
ghost use Rattle.swreq_machine.specs.swreq_rounds.Given as basics;

use crate::numbered::{Makings, shown_by, uses};
use std::alloc::{AllocError, Global};
use swreq_births::{Equation, OwnedRequirement, Reason};
use swreq_machine::derive::Requirement;
use swreq_machine::param::{ParamTable, ProtoId};
use swreq_machine::symbols::equation;
use swreq_machine::word::{Symbol, Word};
use swreq_machine::world::World;

/// A basic equation: its left side, the symbol of its right side, and its reason.
fn basic_equation(
    alloc: Global,
    left: &[Symbol],
    right: Symbol,
    reason: Reason,
) -> Result<Equation, AllocError>
    ensures { IfOk result
        (λ e. e ≡ record { left = left.now; right = right ∷ []; reason = reason }) }
{
    let left = Vec::from_slice(alloc, left)?;
    let right = Vec::from_slice(alloc, &[right])?;
    Ok(Equation {
        left: Word::new(left),
        right: Word::new(right),
        reason,
    })
}

/// Puts the equation `[P]·A = [P:A]` last, where `[P:A]` has this rank, if this is a symbol of the protocol.
fn add_member(
    alloc: Global,
    world: &World,
    p: ProtoId,
    rank: u64,
    given: &mut Vec<Equation>,
) -> Result<(), AllocError>
    requires rank { rank < length world.now.lexicon.symbols }
    requires basic { AreBasic world.now.lexicon.symbols given.old.items }
    ensures sides { OnOk result ((n : PairView)
        → slice_get world.now.lexicon.symbols rank ≡ Some n
        → map sides_of given.new.items ≡ map sides_of given.old.items
        ++ (if nat_eq n.proto.rank p.rank
        then basics.named p (record { proto = n.proto; name = n.name }) rank ∷ [] else [])) }
    ensures basic { OnOk result (AreBasic world.now.lexicon.symbols given.new.items) }
{
    let member = world.member_at(rank);
    if member.proto.rank != p.rank {
        return Ok(());
    }
    let left = [Symbol::Proto(p.rank), Symbol::Name(member.name.rank)];
    let e = basic_equation(alloc, &left, Symbol::Member(rank), Reason::Named { rank })?;
    given.push(e)?;
    Ok(())
}

/// Puts the basic equations of the protocol last: `[P][P] = [P]`, and those of its member names.
fn add_protocol(
    alloc: Global,
    world: &World,
    p: ProtoId,
    given: &mut Vec<Equation>,
) -> Result<(), AllocError>
    requires { AreBasic world.now.lexicon.symbols given.old.items }
    ensures sides { OnOk result (map sides_of given.new.items ≡ map sides_of given.old.items ++
        (basics.doubled p ∷ basics.named_from p 0 (symbols_of world.now.lexicon).members)) }
    ensures basic { OnOk result (AreBasic world.now.lexicon.symbols given.new.items) }
{
    let symbol = Symbol::Proto(p.rank);
    let e = basic_equation(
        alloc,
        &[symbol, symbol],
        symbol,
        Reason::Doubled { proto: p },
    )?;
    given.push(e)?;
    for rank in 0..world.members() {
        add_member(alloc, world, p, rank, given)?;
    }
    Ok(())
}

/// The basic equations, if the rounds have them: for each protocol, in written order, those of the protocol.
pub(crate) fn basic(makings: Makings<'_>) -> Result<Vec<Equation>, AllocError>
    ensures sides { IfOk result (λ v. map sides_of v.items ≡ (origin_of makings.entry).basic) }
    ensures basic { IfOk result (λ v. AreBasic (origin_of makings.entry).members v.items) }
{
    let mut given = Vec::new(makings.alloc);
    if !makings.basic {
        return Ok(given);
    }
    let world = makings.text.world;
    for k in 0..world.protocols() {
        let p = world.proto_at(k);
        add_protocol(makings.alloc, world, p, &mut given)?;
    }
    Ok(given)
}

/// The requirement, with its type parameters in full and not by ids.
pub(crate) fn owned(
    alloc: Global,
    table: &ParamTable,
    r: Requirement,
) -> Result<OwnedRequirement, AllocError>
    requires { HasIdsOf table.now r }
    ensures { IfOk result (λ q. requirement_by q ≡ requirement_of table.now r) }
{
    match r {
        Requirement::Conf { subject, proto } => {
            let subject = table.owned(alloc, subject)?;
            Ok(OwnedRequirement::Conf { subject, proto })
        }
        Requirement::Layout { subject } => {
            let subject = table.owned(alloc, subject)?;
            Ok(OwnedRequirement::Layout { subject })
        }
        Requirement::Same { left, right } => {
            let left = table.owned(alloc, left)?;
            let right = table.owned(alloc, right)?;
            Ok(OwnedRequirement::Same { left, right })
        }
    }
}

/// The equation of the requirement at this place, which the round uses.
fn equation_of(makings: Makings<'_>, round: usize, place: usize) -> Result<Equation, AllocError>
    requires place { place < length makings.all.now }
    requires used { Uses makings.rounds.now round place }
    ensures { IfOk result (λ e. (x : NumberedView) → slice_get makings.entry.all.now place ≡ Some x
        → IsEquationIn (symbols_of makings.entry.text.world.now.lexicon)
        makings.entry.text.table.now (origin_of makings.entry) round x e) }
{
    let shown = shown_by(makings, round, place);
    let x = makings.all[place];
    let (left, right) = equation(makings.alloc, &makings.text, x.owner, &x.requirement)?;
    let requirement = owned(makings.alloc, makings.text.table, x.requirement)?;
    Ok(Equation {
        left,
        right,
        reason: Reason::Required {
            owner: x.owner,
            number: x.number,
            requirement,
            shown,
        },
    })
}

/// Puts the equations of the requirements that the round uses last.
pub(crate) fn add_used(
    makings: Makings<'_>,
    round: usize,
    given: &mut Vec<Equation>,
) -> Result<(), AllocError>
    requires { round < length makings.rounds.now }
    ensures { OnOk result
        ((r : RoundView) → slice_get makings.entry.rounds.now round ≡ Some r
        → (more : List EquationView) × (given.new.items ≡ given.old.items ++ more)
        × AreEquationsOf (symbols_of makings.entry.text.world.now.lexicon)
        makings.entry.text.table.now (origin_of makings.entry) round
        (chosen makings.entry.all.now r.used) more) }
{
    for k in 0..makings.all.len() {
        if uses(makings, round, k) {
            let e = equation_of(makings, round, k)?;
            given.push(e)?;
        }
    }
    Ok(())
}

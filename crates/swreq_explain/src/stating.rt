//! How requirements of a list are stated.
ghost use Rattle.std.specs.Prelude.{IfOk, IsTrue, OnOk};
ghost use Rattle.swreq_machine.specs.{swreq_param.{Owned.{as_term}, Tables.{IsOf}}, swreq_derive.Derivation.{TermRequirement.{Equals}, TermStatement.{Requires}}};
ghost use Rattle.swreq_derivation.specs.UnderWay.{ContinuesFrom, States, StatesBound};
ghost use Rattle.swreq_births.specs.Systems.{FitsHistory, requirement_by};
ghost use Rattle.swreq_explain.specs.Stating.{AreEquated, CanEquate, CanRead, CanState, Vanishes, bounded, symbol_of};

use crate::validity::{RoundReader, WordOfType, read_side, reflect};
use std::alloc::AllocError;
use swreq_births::{History, OwnedRequirement, ReadingPlace, conform_by_member, link};
use swreq_derivation::{Bound, Derivation, add_same_bound, add_symm, add_trans, are_one};
use swreq_machine::param::TermId;
use swreq_machine::word::Symbol;

/// States that the type parameter conforms to the bound, if one written requirement of a protocol gives it, and answers whether one does.
fn bound_by_member(
    history: &History<'_>,
    derivation: &mut Derivation,
    t: TermId,
    bound: Bound,
) -> Result<bool, AllocError>
    requires { IsOf derivation.old.table t }
    ensures says { IfOk result
        (λ done. IsTrue done → StatesBound derivation.old derivation.new t bound) }
    ensures continues { ContinuesFrom (FitsHistory history.now) derivation.old derivation.new }
{
    match bound {
        Bound::Protocol(p) => conform_by_member(history, derivation, t, p),
        Bound::AnyObject => Ok(false),
    }
}

/// States that the type parameter conforms to the bound. The symbol of the bound vanishes after the word of the type parameter.
fn state_bound(
    reader: RoundReader<'_>,
    derivation: &mut Derivation,
    side: WordOfType<'_>,
    bound: Bound,
    longer: &[Symbol],
) -> Result<(), AllocError>
    requires side { CanRead reader derivation.old side }
    requires vanishes { Vanishes reader side (symbol_of bound) longer.now }
    ensures says { OnOk result
        (States derivation.new (Requires (bounded bound (as_term side.entry.param.now)))) }
    ensures continues { ContinuesFrom (FitsHistory reader.entry.history.now) derivation.old
        derivation.new }
{
    let scope = ReadingPlace {
        system: reader.system,
        owner: None,
        for_self: reader.t,
    };
    let ids = read_side(reader, derivation, side)?;
    if bound_by_member(reader.history, derivation, ids.itself, bound)? {
        return Ok(());
    }
    link(reader.history, derivation, scope, side.word, longer)?;
    add_same_bound(derivation, ids.itself, ids.word, bound)
}

/// States that two type parameters are equal, unless they are identical. The rules reduce their words to one word. Answers their ids.
fn equate(
    reader: RoundReader<'_>,
    derivation: &mut Derivation,
    left: WordOfType<'_>,
    right: WordOfType<'_>,
) -> Result<(TermId, TermId), AllocError>
    requires { CanEquate reader derivation.old left right }
    ensures equated { IfOk result (AreEquated left.entry right.entry derivation.new) }
    ensures continues { ContinuesFrom (FitsHistory reader.entry.history.now) derivation.old
        derivation.new }
{
    let scope = ReadingPlace {
        system: reader.system,
        owner: None,
        for_self: reader.t,
    };
    let first = read_side(reader, derivation, left)?;
    let last = read_side(reader, derivation, right)?;
    link(reader.history, derivation, scope, right.word, left.word)?;
    add_trans(derivation, last.itself, last.word, first.word)?;
    add_symm(derivation, last.itself, first.word)?;
    add_trans(derivation, first.itself, first.word, last.itself)?;
    Ok((first.itself, last.itself))
}

/// States that two type parameters are equal. The rules reduce their words to one word.
fn state_equality(
    reader: RoundReader<'_>,
    derivation: &mut Derivation,
    left: WordOfType<'_>,
    right: WordOfType<'_>,
) -> Result<(), AllocError>
    requires { CanEquate reader derivation.old left right }
    ensures says { OnOk result (States derivation.new
        (Requires (Equals (as_term left.entry.param.now) (as_term right.entry.param.now)))) }
    ensures continues { ContinuesFrom (FitsHistory reader.entry.history.now) derivation.old
        derivation.new }
{
    let (t, u) = equate(reader, derivation, left, right)?;
    if are_one(derivation, t, u) {
        reflect(reader, derivation, left)?;
    }
    Ok(())
}

/// States the requirement with these two sides. The rules reduce the sides to one word.
pub(crate) fn state_requirement(
    reader: RoundReader<'_>,
    derivation: &mut Derivation,
    r: &OwnedRequirement,
    left: &[Symbol],
    right: &[Symbol],
) -> Result<(), AllocError>
    requires { CanState reader derivation.old r.now left.now right.now }
    ensures says { OnOk result (States derivation.new (Requires (requirement_by r.now))) }
    ensures continues { ContinuesFrom (FitsHistory reader.entry.history.now) derivation.old
        derivation.new }
{
    match r {
        OwnedRequirement::Conf {
            subject: param,
            proto,
        } => {
            let side = WordOfType { param, word: right };
            state_bound(reader, derivation, side, Bound::Protocol(*proto), left)
        }
        OwnedRequirement::Layout { subject: param } => {
            let side = WordOfType { param, word: right };
            state_bound(reader, derivation, side, Bound::AnyObject, left)
        }
        OwnedRequirement::Same { left: t, right: u } => {
            let first = WordOfType {
                param: t,
                word: left,
            };
            let last = WordOfType {
                param: u,
                word: right,
            };
            state_equality(reader, derivation, first, last)
        }
    }
}

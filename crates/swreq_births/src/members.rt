//! Conformances of members that one written requirement of a protocol gives, without rules.
ghost use Rattle.std.specs.Prelude.{◌≡◌, ◌<◌, false, IfOk, IfSome, IsTrue, None, length};
ghost use Rattle.swreq_param.specs.{Tables.{IsOf, term_at}, Terms.{self}, Terms.Term.{Member}};
ghost use Rattle.swreq_correspondence.specs.swreq_derive.{Derivation.TermRequirement.{Conforms}, Derivation.TermStatement.{Requires}};
ghost use Rattle.swreq_derivation.specs.UnderWay.{ContinuesFrom, States, StatesConformance};
ghost use Rattle.swreq_readings.specs.{Alphabets.{lexicon}, Readable.{IsGiven}};
ghost use Rattle.swreq_births.specs.{Members.{AreWritten, IsMemberRequirement, IsWrittenOfMember}, Systems.{FitsHistory, requirement_by}};

use crate::history::{Equation, History, OwnedRequirement, Reason, system_at};
use std::alloc::AllocError;
use swreq_derivation::{
    Derivation, Origin, Requirement, add_requirement, conf_statement, is_stated,
};
use swreq_param::{ParamId, ProtoId, Step, TermId};
use swreq_readings::{ProtocolName, declared_at, given_step, is_of_step};

/// A written requirement of a protocol, by its number, counted from 1.
#[derive(Clone, Copy, Debug)]
pub(crate) struct Written {
    pub owner: ProtoId,
    pub number: u32,
}

/// Whether the requirement is `[Self.B : P]`, of this member and this protocol.
fn is_of_member(requirement: &OwnedRequirement, member: Step, protocol: ProtoId) -> bool
    ensures { IsTrue result → requirement_by requirement.now ≡ Conforms
        (Member self member) protocol }
{
    match requirement {
        OwnedRequirement::Conf { subject, proto } => {
            let steps = subject.steps.items();
            *proto == protocol
                && subject.head == (ParamId { depth: 0, index: 0 })
                && steps.len() == 1
                && steps[0] == member
        }
        OwnedRequirement::Layout { .. } | OwnedRequirement::Same { .. } => false,
    }
}

/// The requirement `[Self.B : P]` of a protocol, of this member and this protocol, if the reason is one.
fn written_of_member(reason: &Reason, member: Step, protocol: ProtoId) -> Option<Written>
    ensures { IfSome result (IsWrittenOfMember reason.now member protocol) }
{
    match reason {
        Reason::Required {
            owner: Some(owner),
            number,
            requirement,
            ..
        } if is_of_member(requirement, member, protocol) => Some(Written {
            owner: *owner,
            number: *number,
        }),
        _ => None,
    }
}

/// The equations of the last round of the protocols, which uses all their requirements.
fn protocols_given<'a>(history: &'a History<'_>) -> &'a [Equation]
    ensures { AreWritten history.now result.now }
{
    match history.below.len() {
        0 => &[],
        count => system_at(history, count - 1).given.items(),
    }
}

/// A written requirement `[Self.B : P]` of this member and this protocol, of a protocol Q such that a line states `[U : Q]`, where U has
/// the id `base`.
fn requirement_of_member(
    history: &History<'_>,
    derivation: &Derivation,
    base: TermId,
    member: Step,
    protocol: ProtoId,
) -> Option<Written>
    requires base { IsOf derivation.now.table base }
    ensures says { IfSome result
        (λ w. States derivation.now
        (Requires (Conforms (term_at derivation.now.table base) w.owner))) }
    ensures written { IfSome result (IsMemberRequirement history.now member protocol) }
{
    let given = protocols_given(history);
    for k in 0..given.len() {
        if let Some(written) = written_of_member(&given[k].reason, member, protocol) {
            if is_stated(derivation, conf_statement(base, written.owner)) {
                return Some(written);
            }
        }
    }
    None
}

/// States `[U.B : P]` for the id of U.B, if a line states `[U : Q]` for a protocol Q that writes `[Self.B : P]`, and answers whether it
/// does.
pub fn conform_by_member(
    history: &History<'_>,
    derivation: &mut Derivation,
    t: TermId,
    protocol: ProtoId,
) -> Result<bool, AllocError>
    requires t { IsOf derivation.old.table t }
    ensures says { IfOk result (λ done. IsTrue done
        → StatesConformance derivation.old derivation.new t protocol) }
    ensures unchanged { IfOk result (λ done. done ≡ false → derivation.new ≡ derivation.old) }
    ensures continues { ContinuesFrom (FitsHistory history.now) derivation.old derivation.new }
{
    let Some((base, member)) = derivation.table().split(t) else {
        return Ok(false);
    };
    match requirement_of_member(history, derivation, base, member, protocol) {
        Some(written) => {
            let origin = Origin {
                owner: Some(written.owner),
                number: written.number,
                for_self: base,
            };
            let r = Requirement::Conf {
                subject: t,
                proto: protocol,
            };
            add_requirement(derivation, origin, r)?;
            Ok(true)
        }
        None => Ok(false),
    }
}

/// An associated type that the step names, such that lines state that T conforms to its protocol: they do already, or by one written
/// requirement now. None if there is none.
pub(crate) fn known_step(
    history: &History<'_>,
    derivation: &mut Derivation,
    t: TermId,
    step: Step,
) -> Result<Option<ProtocolName>, AllocError>
    requires t { IsOf derivation.old.table t }
    ensures given { IfOk result (λ o. IfSome o
        (IsGiven history.now.alphabet derivation.new (term_at derivation.old.table t) step)) }
    ensures continues { ContinuesFrom (FitsHistory history.now) derivation.old derivation.new }
{
    if let Some(named) = given_step(&history.alphabet, derivation, t, step) {
        return Ok(Some(named));
    }
    for k in 0..history.alphabet.world.lexicon().associated() {
        let named = declared_at(&history.alphabet, k);
        if is_of_step(step, k, named) && conform_by_member(history, derivation, t, named.proto)? {
            return Ok(Some(named));
        }
    }
    Ok(None)
}

//! The names that lines allow after a type parameter since its protocol inherits them.
ghost use Rattle.std.specs.{Prelude.{◌≡◌, ◌+◌, ℕ, IfOk, MatchOption, OnOk, Some}, Bool.{Decides}};
ghost use Rattle.swreq_derive.specs.swreq_param.Tables.{term_at};
ghost use Rattle.swreq_derive.specs.declared.requirements.{Requirement.TheVariants.{Conf}, Statement.TheVariants.{Holds}};
ghost use Rattle.swreq_derivation.specs.UnderWay.{ContinuesFrom, IsPremise};
ghost use Rattle.swreq_readings.specs.{Alphabets.{Fits, IsDeclared, IsFromAbove, IsMember, IsParentFor}, Inherited.{IsParentBy}, Readable.{AllowsName}};

use crate::alphabet::Alphabet;
use std::alloc::AllocError;
use swreq_derivation::{Derivation, Origin, add_requirement};
use swreq_derive::Requirement;
use swreq_derive::param::{NameId, ProtoId, TermId};

/// The requirement `[Self : Q]` of a protocol, by its number, counted from 1.
#[derive(Clone, Copy, Debug)]
struct Parent {
    number: u32,
    proto: ProtoId,
}

/// Whether P declares A.
fn declares(alphabet: &Alphabet<'_>, protocol: ProtoId, name: NameId) -> bool
    ensures { Decides result (IsDeclared alphabet.now protocol name) }
{
    match alphabet.world.lexicon().declares(protocol, name) {
        Some(_) => true,
        None => false,
    }
}

/// Whether A is a member name of P.
fn is_member(alphabet: &Alphabet<'_>, protocol: ProtoId, name: NameId) -> bool
    ensures { Decides result (IsMember alphabet.now protocol name) }
{
    match alphabet.world.lexicon().member_rank(protocol, name) {
        Some(_) => true,
        None => false,
    }
}

/// Whether the id is that of `Self`.
fn is_self(alphabet: &Alphabet<'_>, t: TermId) -> bool
    ensures { Decides result (alphabet.now.self_id ≡ Some t) }
{
    match alphabet.self_id {
        Some(id) => id == t,
        None => false,
    }
}

/// The protocol Q of a requirement `[Self : Q]`, if it has the member name A.
fn parent_by(alphabet: &Alphabet<'_>, requirement: Requirement, name: NameId) -> Option<ProtoId>
    ensures { MatchOption result
        ((q : ProtoId) → IsParentBy alphabet.now.self_id requirement q
        × IsMember alphabet.now q name → ⊥)
        (λ q. IsParentBy alphabet.now.self_id requirement q × IsMember alphabet.now q name) }
{
    match requirement {
        Requirement::Conf { subject, proto } => {
            if is_self(alphabet, subject) && is_member(alphabet, proto, name) {
                Some(proto)
            } else {
                None
            }
        }
        Requirement::Layout { .. } | Requirement::Same { .. } => None,
    }
}

/// A requirement by which P inherits a protocol with the member name A.
fn parent_for(alphabet: &Alphabet<'_>, protocol: ProtoId, name: NameId) -> Parent
    requires { IsFromAbove alphabet.now protocol name }
    ensures { (k : ℕ) × (result.number ≡ k + 1)
        × IsParentFor alphabet.now protocol name k result.proto }
{
    let written = alphabet.world.bare_requirements(protocol);
    for k in 0..written.len() {
        match parent_by(alphabet, written[k], name) {
            Some(proto) => {
                return Parent {
                    number: k as u32 + 1,
                    proto,
                };
            }
            None => {}
        }
    }
    unreachable!()
}

/// From `[T : P]`: `[T : Q]` for a protocol Q that P is written to inherit, and that has the member name A. Answers Q.
fn step_up(
    alphabet: &Alphabet<'_>,
    derivation: &mut Derivation,
    subject: TermId,
    protocol: ProtoId,
    name: NameId,
) -> Result<ProtoId, AllocError>
    requires member { IsFromAbove alphabet.now protocol name }
    requires conforms { IsPremise derivation.old (Holds (Conf subject protocol)) }
    ensures table { derivation.new.table ≡ derivation.old.table }
    ensures parent { IfOk result (λ q. (k : ℕ) × IsParentFor alphabet.now protocol name k q) }
    ensures conforms { IfOk result (λ q. IsPremise derivation.new (Holds (Conf subject q))) }
    ensures continues { ContinuesFrom (Fits alphabet.now) derivation.old derivation.new }
{
    let parent = parent_for(alphabet, protocol, name);
    let origin = Origin {
        owner: Some(protocol),
        number: parent.number,
        for_self: subject,
    };
    let proto = parent.proto;
    add_requirement(derivation, origin, Requirement::Conf { subject, proto })?;
    Ok(proto)
}

/// If a line states `[T : P]`, and A is a member name of P, then lines state `[T : Q]` for a protocol Q that declares A. Q is P, or stands
/// above P in the written inheritance.
pub fn inherit(
    alphabet: &Alphabet<'_>,
    derivation: &mut Derivation,
    subject: TermId,
    protocol: ProtoId,
    name: NameId,
) -> Result<(), AllocError>
    requires member { IsMember alphabet.now protocol name }
    requires conforms { IsPremise derivation.old (Holds (Conf subject protocol)) }
    ensures name { OnOk result (AllowsName alphabet.now derivation.new
        (term_at derivation.old.table subject) name) }
    ensures continues { ContinuesFrom (Fits alphabet.now) derivation.old derivation.new }
{
    let mut at = protocol;
    while !declares(alphabet, at, name) {
        at = step_up(alphabet, derivation, subject, at, name)?;
    }
    Ok(())
}

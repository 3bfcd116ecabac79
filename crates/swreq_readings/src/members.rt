//! Equal type parameters have equal members.
ghost use Rattle.std.specs.Prelude.{◌≡◌, IfOk, OnOk};
ghost use Rattle.swreq_derive.specs.swreq_param.{Tables.{IsOf, term_at}, Terms.Term.{Member}};
ghost use Rattle.swreq_derive.specs.swreq_param.declared.ids.Step.TheVariants as steps;
ghost use Rattle.swreq_derivation.specs.UnderWay.{AreEqualIds, AreStatedEqual, ContinuesFrom, IsIdOfMember};
ghost use Rattle.swreq_readings.specs.{Alphabets.{Fits}, Readable.{IsGiven}};

use crate::alphabet::Alphabet;
use std::alloc::AllocError;
use swreq_derivation::{
    Bound, Derivation, add_assoc_bind, add_same_bound, add_same_name, add_trans,
};
use swreq_derive::param::{AssocId, Step, TermId};
use swreq_world::lexicon::ProtocolName;

/// If lines state `[T == U]`, and that U conforms to the protocol of an associated type A, then the bound member of T equals what T.A does.
/// `sides` are the ids of T and U, and `members` those of T.A and of what it equals. Answers the id of the bound member.
fn bind(
    alphabet: &Alphabet,
    derivation: &mut Derivation,
    sides: (TermId, TermId),
    assoc: AssocId,
    named: ProtocolName,
    members: (TermId, TermId),
) -> Result<TermId, AllocError>
    requires sides { AreEqualIds derivation.old sides.0 sides.1 }
    requires given { IsGiven alphabet.now derivation.old
        (term_at derivation.old.table sides.1) (steps.Bound assoc) named }
    requires plain { IsIdOfMember derivation.old sides.0 (steps.Name named.name) members.0 }
    requires members { AreEqualIds derivation.old members.0 members.1 }
    ensures is_of { IfOk result (IsOf derivation.new.table) }
    ensures stands { IfOk result (λ v. term_at derivation.new.table v
        ≡ Member (term_at derivation.old.table sides.0) (steps.Bound assoc)) }
    ensures equal { OnOk result (AreStatedEqual derivation.new
        (Member (term_at derivation.old.table sides.0) (steps.Bound assoc))
        (term_at derivation.old.table members.1)) }
    ensures continues { ContinuesFrom (Fits alphabet.now) derivation.old derivation.new }
{
    let (t, u) = sides;
    let (plain, last) = members;
    let of = (named.proto, named.name);
    let bound = derivation.member(t, Step::Bound(assoc))?;
    add_same_bound(derivation, t, u, Bound::Protocol(named.proto))?;
    add_assoc_bind(derivation, t, of, (bound, plain))?;
    add_trans(derivation, bound, plain, last)?;
    Ok(bound)
}

/// If lines state `[T == U]`, the step names an associated type A, and a line states that U conforms to its protocol, then the member of T
/// by the step equals U.A. Answers the id of the member of T.
pub fn equal_member(
    alphabet: &Alphabet,
    derivation: &mut Derivation,
    left: TermId,
    right: TermId,
    step: Step,
    named: ProtocolName,
) -> Result<TermId, AllocError>
    requires given { IsGiven alphabet.now derivation.old
        (term_at derivation.old.table right) step named }
    requires equal { AreEqualIds derivation.old left right }
    ensures is_of { IfOk result (IsOf derivation.new.table) }
    ensures stands { IfOk result
        (λ v. term_at derivation.new.table v ≡ Member (term_at derivation.old.table left) step) }
    ensures equal { OnOk result
        (AreStatedEqual derivation.new (Member (term_at derivation.old.table left) step)
        (Member (term_at derivation.old.table right) (steps.Name named.name))) }
    ensures continues { ContinuesFrom (Fits alphabet.now) derivation.old derivation.new }
{
    let of = (named.proto, named.name);
    let plain = derivation.member(left, Step::Name(named.name))?;
    let last = derivation.member(right, Step::Name(named.name))?;
    add_same_name(derivation, left, right, of, (plain, last))?;
    match step {
        Step::Name(_) => Ok(plain),
        Step::Bound(assoc) => {
            let sides = (left, right);
            bind(alphabet, derivation, sides, assoc, named, (plain, last))
        }
    }
}

//! Lines by the rules of equality.
ghost use Rattle.std.specs.{Prelude.{◌≡◌, OnOk}, Bool.{Decides}};
ghost use Rattle.swreq_derive.specs.swreq_param.{Tables.{IsOf, term_at}, declared.ids.AssocId.{AssocId}, Terms.Term.{Member}};
ghost use Rattle.swreq_derive.specs.swreq_param.declared.ids.Step.TheVariants as steps;
ghost use Rattle.swreq_derive.specs.declared.requirements.{Requirement.TheVariants.{Conf, Same}, Statement.TheVariants.{Holds}};
ghost use Rattle.swreq_derive.specs.{Derivation.{Declares}};
ghost use Rattle.swreq_derivation.specs.UnderWay.{AreEqualIds, AreIdsIn, AreIdsOfMembers, Continues, ContinuesFrom, IsPremise, States, StatesBound, StatesConformance, StatesEqual};

use crate::adding::add;
use crate::derivation::Derivation;
use crate::statements::{Bound, bound_statement, conf_statement, same_statement};
use std::alloc::AllocError;
use swreq_derive::param::{NameId, ProtoId, TermId};
use swreq_derive::{DerivRule, Statement};

/// Whether the two ids of the table stand for the same type parameter.
pub fn are_one(derivation: &Derivation, left: TermId, right: TermId) -> bool
    requires left { IsOf derivation.now.table left }
    requires right { IsOf derivation.now.table right }
    ensures { Decides result (term_at derivation.now.table left
        ≡ term_at derivation.now.table right) }
{
    // If two ids stand for the same type parameter, they are equal.
    let _count = derivation.table().len();
    left.place == right.place
}

/// From `[T == U]`: `[U == T]`.
pub fn add_symm(derivation: &mut Derivation, left: TermId, right: TermId) -> Result<(), AllocError>
    requires { AreEqualIds derivation.old left right }
    ensures table { derivation.new.table ≡ derivation.old.table }
    ensures equal { OnOk result (StatesEqual derivation.old derivation.new right left) }
    ensures continues { Continues derivation.old derivation.new }
{
    if are_one(derivation, left, right) {
        return Ok(());
    }
    let equal = same_statement(left, right);
    let gives = same_statement(right, left);
    add(derivation, DerivRule::Symm, &[equal], gives)
}

/// From `[T == U]` and `[U == V]`: `[T == V]`.
pub fn add_trans(
    derivation: &mut Derivation,
    first: TermId,
    middle: TermId,
    last: TermId,
) -> Result<(), AllocError>
    requires first { AreEqualIds derivation.old first middle }
    requires second { AreEqualIds derivation.old middle last }
    ensures table { derivation.new.table ≡ derivation.old.table }
    ensures equal { OnOk result (StatesEqual derivation.old derivation.new first last) }
    ensures continues { Continues derivation.old derivation.new }
{
    if are_one(derivation, first, last) {
        return Ok(());
    }
    if are_one(derivation, first, middle) {
        return Ok(());
    }
    if are_one(derivation, middle, last) {
        return Ok(());
    }
    let from = [same_statement(first, middle), same_statement(middle, last)];
    let gives = same_statement(first, last);
    add(derivation, DerivRule::Trans, &from, gives)
}

/// From `[U : P]` or `[U : AnyObject]`, and `[T == U]`: the same of T. `subject` is the id of T, and `other` that of U.
pub fn add_same_bound(
    derivation: &mut Derivation,
    subject: TermId,
    other: TermId,
    bound: Bound,
) -> Result<(), AllocError>
    requires conforms { StatesBound derivation.old derivation.old other bound }
    requires equal { AreEqualIds derivation.old subject other }
    ensures table { derivation.new.table ≡ derivation.old.table }
    ensures conforms { OnOk result (StatesBound derivation.old derivation.new subject bound) }
    ensures continues { Continues derivation.old derivation.new }
{
    if are_one(derivation, subject, other) {
        return Ok(());
    }
    let equal = same_statement(subject, other);
    let from = [bound_statement(other, bound), equal];
    let gives = bound_statement(subject, bound);
    match bound {
        Bound::Protocol(p) => add(derivation, DerivRule::SameConf { p }, &from, gives),
        Bound::AnyObject => add(derivation, DerivRule::SameLayout, &from, gives),
    }
}

/// From `[U : P]` and `[T == U]`, where P declares A: `[T.A == U.A]`.
///
/// `members` has the ids of T.A and U.A.
pub fn add_same_name(
    derivation: &mut Derivation,
    left: TermId,
    right: TermId,
    of: (ProtoId, NameId),
    members: (TermId, TermId),
) -> Result<(), AllocError>
    requires conforms { StatesConformance derivation.old derivation.old right of.0 }
    requires equal { AreEqualIds derivation.old left right }
    requires members { AreIdsOfMembers derivation.old left right (steps.Name of.1) members }
    ensures table { derivation.new.table ≡ derivation.old.table }
    ensures equal { OnOk result (StatesEqual derivation.old derivation.new members.0 members.1) }
    ensures continues { ContinuesFrom (λ b. (d : AssocId) × Declares b.facts of.0 of.1 d)
        derivation.old derivation.new }
{
    if are_one(derivation, left, right) {
        return Ok(());
    }
    let (p, a) = of;
    let from = [conf_statement(right, p), same_statement(left, right)];
    let gives = same_statement(members.0, members.1);
    add(derivation, DerivRule::SameName { p, a }, &from, gives)
}

/// From `[T : P]`, where P declares A: `[T.[P]A == T.A]`.
///
/// `members` has the ids of `T.[P]A` and T.A.
pub fn add_assoc_bind(
    derivation: &mut Derivation,
    subject: TermId,
    of: (ProtoId, NameId),
    members: (TermId, TermId),
) -> Result<(), AllocError>
    requires conforms { IsPremise derivation.old (Holds (Conf subject of.0)) }
    requires members { AreIdsIn derivation.old.table (Holds (Same members.0 members.1)) }
    ensures table { derivation.new.table ≡ derivation.old.table }
    ensures equal { OnOk result (StatesEqual derivation.old derivation.new members.0 members.1) }
    ensures continues { ContinuesFrom (λ b. (d : AssocId) × Declares b.facts of.0 of.1 d
        × (term_at derivation.old.table members.0
        ≡ Member (term_at derivation.old.table subject) (steps.Bound d))
        × (term_at derivation.old.table members.1
        ≡ Member (term_at derivation.old.table subject) (steps.Name of.1)))
        derivation.old derivation.new }
{
    let (p, a) = of;
    let from = conf_statement(subject, p);
    let gives = same_statement(members.0, members.1);
    add(derivation, DerivRule::AssocBind { p, a }, &[from], gives)
}

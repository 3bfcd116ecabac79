//! Lines by the rules of validity, and by the rule that a valid type parameter equals itself.
ghost use Rattle.std.specs.Prelude.{◌≡◌, OnOk, Contains};
ghost use Rattle.swreq_derive.specs.swreq_param.{Tables.{IsOf, term_at}, declared.ids.AssocId.{AssocId}, declared.ids.ParamId.{ParamId}, Terms.Term.{Generic}};
ghost use Rattle.swreq_derive.specs.declared.requirements.{Requirement.TheVariants.{Conf}, Statement.TheVariants.{Holds, Valid}};
ghost use Rattle.swreq_derive.specs.{Derivation.{Declares}, Derivation.TermRequirement.{Equals}, Derivation.TermStatement.{IsValid, Requires}};
ghost use Rattle.swreq_derivation.specs.UnderWay.{Continues, ContinuesFrom, IsIdOfMember, IsPremise, IsStepTo, States};

use crate::adding::add;
use crate::derivation::Derivation;
use crate::statements::{conf_statement, same_statement, valid_statement};
use std::alloc::AllocError;
use swreq_derive::DerivRule;
use swreq_derive::param::{NameId, ProtoId, Step, TermId};

/// A generic parameter of the list is valid.
pub fn add_generic(derivation: &mut Derivation, subject: TermId) -> Result<(), AllocError>
    requires { IsOf derivation.old.table subject }
    ensures table { derivation.new.table ≡ derivation.old.table }
    ensures valid { OnOk result
        (States derivation.new (IsValid (term_at derivation.old.table subject))) }
    ensures continues { ContinuesFrom (λ b. (g : ParamId)
        × (term_at derivation.old.table subject ≡ Generic g) × Contains b.params g)
        derivation.old derivation.new }
{
    let gives = valid_statement(subject);
    add(derivation, DerivRule::Generic, &[], gives)
}

/// From `[T : P]`, where P declares A: the member of T by the step is valid, which names A or is bound to the associated type.
///
/// `member` is the id of the member.
pub fn add_member(
    derivation: &mut Derivation,
    subject: TermId,
    of: (ProtoId, NameId),
    step: Step,
    member: TermId,
) -> Result<(), AllocError>
    requires conforms { IsPremise derivation.old (Holds (Conf subject of.0)) }
    requires member { IsIdOfMember derivation.old subject step member }
    ensures table { derivation.new.table ≡ derivation.old.table }
    ensures valid { OnOk result
        (States derivation.new (IsValid (term_at derivation.old.table member))) }
    ensures continues { ContinuesFrom (λ b. (d : AssocId) × Declares b.facts of.0 of.1 d
        × IsStepTo step of.1 d) derivation.old derivation.new }
{
    let (p, a) = of;
    let from = conf_statement(subject, p);
    let gives = valid_statement(member);
    match step {
        Step::Name(_) => add(derivation, DerivRule::AssocName { p, a }, &[from], gives),
        Step::Bound(_) => add(derivation, DerivRule::AssocDecl { p, a }, &[from], gives),
    }
}

/// From a valid T: `[T == T]`.
pub fn add_reflex(derivation: &mut Derivation, subject: TermId) -> Result<(), AllocError>
    requires { IsPremise derivation.old (Valid subject) }
    ensures table { derivation.new.table ≡ derivation.old.table }
    ensures equal { OnOk result (States derivation.new
        (Requires (Equals (term_at derivation.old.table subject)
        (term_at derivation.old.table subject)))) }
    ensures continues { Continues derivation.old derivation.new }
{
    let from = valid_statement(subject);
    let gives = same_statement(subject, subject);
    add(derivation, DerivRule::Reflex, &[from], gives)
}

//! Lines by the rules that use a written requirement, of a protocol or of the list.
ghost use Rattle.std.specs.Prelude.{◌≡◌, List, OnOk};
ghost use Rattle.swreq_derive.specs.swreq_param.Terms.{Term};
ghost use Rattle.swreq_derive.specs.{declared.requirements.Statement.TheVariants.{Holds}, Derivation.TermStatement.{Requires}, Facts.{requirement_of}};
ghost use Rattle.swreq_derivation.specs.{Origins.{IsOrigin, IsWrittenOf, rule_for}, UnderWay.{AreIdsIn, ContinuesFrom, States}};

use crate::adding::add;
use crate::derivation::Derivation;
use crate::statements::conf_statement;
use std::alloc::AllocError;
use swreq_derive::param::{ProtoId, TermId};
use swreq_derive::{DerivRule, Requirement, Statement};

/// The requirement with this number, counted from 1: of the owner, with T for `Self`, or of the list if there is no owner. `for_self` is
/// the id of T.
#[derive(Clone, Copy, Debug)]
pub struct Origin {
    pub owner: Option<ProtoId>,
    pub number: u32,
    pub for_self: TermId,
}

/// The rule that gives a written requirement.
fn rule_of(owner: Option<ProtoId>, n: u32, r: Requirement) -> DerivRule
    ensures { (terms : List Term) → result ≡ rule_for owner n (requirement_of terms r) }
{
    match owner {
        Some(p) => match r {
            Requirement::Conf { .. } => DerivRule::AssocConf { p, n },
            Requirement::Layout { .. } => DerivRule::AssocLayout { p, n },
            Requirement::Same { .. } => DerivRule::AssocSame { p, n },
        },
        None => match r {
            Requirement::Conf { .. } => DerivRule::Conf { n },
            Requirement::Layout { .. } => DerivRule::Layout { n },
            Requirement::Same { .. } => DerivRule::Same { n },
        },
    }
}

/// The requirement of this origin, which is `r` once T stands for `Self`. A line states `[T : P]` if P is the owner.
pub fn add_requirement(
    derivation: &mut Derivation,
    origin: Origin,
    r: Requirement,
) -> Result<(), AllocError>
    requires origin { IsOrigin derivation.old origin }
    requires ids { AreIdsIn derivation.old.table (Holds r) }
    ensures table { derivation.new.table ≡ derivation.old.table }
    ensures says { OnOk result
        (States derivation.new (Requires (requirement_of derivation.old.table r))) }
    ensures continues { ContinuesFrom (IsWrittenOf derivation.old origin r)
        derivation.old derivation.new }
{
    let rule = rule_of(origin.owner, origin.number, r);
    let gives = Statement::Holds { r };
    match origin.owner {
        Some(p) => {
            let from = conf_statement(origin.for_self, p);
            add(derivation, rule, &[from], gives)
        }
        None => add(derivation, rule, &[], gives),
    }
}

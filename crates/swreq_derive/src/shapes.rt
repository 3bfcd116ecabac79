//! Statements and requirements by their shapes.
ghost use Rattle.std.specs.Prelude.{◌≡◌, ◌↔◌, MatchOption, IsTrue};
ghost use Rattle.swreq_param.specs.{declared.ids.TermId.{TermId}, declared.ids.ProtoId.{ProtoId}};
ghost use Rattle.swreq_derive.specs.{declared.requirements.Requirement.{Requirement}, declared.requirements.Requirement.TheVariants.{Conf, Layout, Same}, declared.requirements.Statement.TheVariants.{Valid, Holds}, Instances.{HasNumber}};

use crate::requirements::{Requirement, Statement};
use swreq_param::{ProtoId, TermId};

impl Statement {
    pub(crate) fn as_valid(self) -> Option<TermId>
        ensures { MatchOption result ((t : TermId) → self ≡ Valid t → ⊥) (λ t. self ≡ Valid t) }
    {
        match self {
            Statement::Valid { t } => Some(t),
            Statement::Holds { r: _ } => None,
        }
    }

    pub(crate) fn as_requirement(self) -> Option<Requirement>
        ensures { MatchOption result
            ((r : Requirement) → self ≡ Holds r → ⊥) (λ r. self ≡ Holds r) }
    {
        match self {
            Statement::Valid { t: _ } => None,
            Statement::Holds { r } => Some(r),
        }
    }

    pub(crate) fn as_conf(self) -> Option<(TermId, ProtoId)>
        ensures { MatchOption result
            ((t : TermId) (p : ProtoId) → self ≡ Holds (Conf t p) → ⊥)
            (λ x. self ≡ Holds (Conf x.0 x.1)) }
    {
        match self.as_requirement()? {
            Requirement::Conf { subject, proto } => Some((subject, proto)),
            Requirement::Layout { subject: _ } => None,
            Requirement::Same { left: _, right: _ } => None,
        }
    }

    pub(crate) fn as_layout(self) -> Option<TermId>
        ensures { MatchOption result
            ((t : TermId) → self ≡ Holds (Layout t) → ⊥)
            (λ t. self ≡ Holds (Layout t)) }
    {
        match self.as_requirement()? {
            Requirement::Conf {
                subject: _,
                proto: _,
            } => None,
            Requirement::Layout { subject } => Some(subject),
            Requirement::Same { left: _, right: _ } => None,
        }
    }

    pub(crate) fn as_same(self) -> Option<(TermId, TermId)>
        ensures { MatchOption result
            ((t u : TermId) → self ≡ Holds (Same t u) → ⊥)
            (λ x. self ≡ Holds (Same x.0 x.1)) }
    {
        match self.as_requirement()? {
            Requirement::Conf {
                subject: _,
                proto: _,
            } => None,
            Requirement::Layout { subject: _ } => None,
            Requirement::Same { left, right } => Some((left, right)),
        }
    }
}

/// The requirement with this number.
pub(crate) fn requirement_at(list: &[Requirement], number: u32) -> Option<Requirement>
    ensures { MatchOption result
        ((r : Requirement) → HasNumber number list.now r → ⊥)
        (λ r. HasNumber number list.now r) }
{
    if number == 0 {
        return None;
    }
    Some(*list.get(number as usize - 1)?)
}

pub(crate) fn is_same(a: Statement, b: Statement) -> bool
    ensures { IsTrue result ↔ (a ≡ b) }
{
    a == b
}

pub(crate) fn is_conformance(st: Statement, t: TermId, p: ProtoId) -> bool
    ensures { IsTrue result ↔ (st ≡ Holds (Conf t p)) }
{
    is_same(
        st,
        Statement::Holds {
            r: Requirement::Conf {
                subject: t,
                proto: p,
            },
        },
    )
}

pub(crate) fn is_layout(st: Statement, t: TermId) -> bool
    ensures { IsTrue result ↔ (st ≡ Holds (Layout t)) }
{
    is_same(
        st,
        Statement::Holds {
            r: Requirement::Layout { subject: t },
        },
    )
}

pub(crate) fn is_equality(st: Statement, t: TermId, u: TermId) -> bool
    ensures { IsTrue result ↔ (st ≡ Holds (Same t u)) }
{
    is_same(
        st,
        Statement::Holds {
            r: Requirement::Same { left: t, right: u },
        },
    )
}

pub(crate) fn are_same_protocols(p: ProtoId, q: ProtoId, r: ProtoId, s: ProtoId) -> bool
    ensures { IsTrue result ↔ ((p ≡ q) × (r ≡ s)) }
{
    p == q && r == s
}

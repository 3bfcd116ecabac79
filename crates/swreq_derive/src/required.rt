//! Whether the rules on what a protocol requires give a statement: ASSOCCONF, ASSOCSAME and
//! ASSOCLAYOUT.
ghost use Rattle.std.specs.Prelude.{◌↔◌, ◌<◌, [], ◌∷◌, IsTrue};
ghost use Rattle.swreq_derive.specs.declared.lines.DerivRule.TheVariants as Rule;
ghost use Rattle.swreq_derive.specs.Lines.{IsGiven};

use crate::comparing::{Sides, are_for_self, is_for_self};
use crate::inference::UnaryInference;
use crate::known::Facts;
use crate::requirements::Statement;
use crate::shapes::{are_same_protocols, requirement_at};
use swreq_param::ProtoId;

pub(crate) fn assoc_conf<F: Facts>(i: &UnaryInference<F>, p: ProtoId, n: u32) -> bool
    requires { p.rank < (F.meaning i.now.facts.now).protocols }
    ensures { IsTrue result ↔ IsGiven i.now.table.now (F.meaning i.now.facts.now)
        (Rule.AssocConf p n) (i.now.premise ∷ []) i.now.conclusion }
{
    match i.premise.as_conf() {
        None => false,
        Some((t, q)) => match i.conclusion.as_conf() {
            None => false,
            Some((v, s)) => match requirement_at(i.facts.of_protocol(p), n) {
                None => false,
                Some(r) => match (Statement::Holds { r }).as_conf() {
                    None => false,
                    Some((u, w)) => are_same_protocols(q, p, s, w) && is_for_self(i.table, t, u, v),
                },
            },
        },
    }
}

pub(crate) fn assoc_same<F: Facts>(i: &UnaryInference<F>, p: ProtoId, n: u32) -> bool
    requires { p.rank < (F.meaning i.now.facts.now).protocols }
    ensures { IsTrue result ↔ IsGiven i.now.table.now (F.meaning i.now.facts.now)
        (Rule.AssocSame p n) (i.now.premise ∷ []) i.now.conclusion }
{
    match i.premise.as_conf() {
        None => false,
        Some((t, q)) => match i.conclusion.as_same() {
            None => false,
            Some((left, right)) => match requirement_at(i.facts.of_protocol(p), n) {
                None => false,
                Some(r) => match (Statement::Holds { r }).as_same() {
                    None => false,
                    Some((u, v)) => {
                        q == p
                            && are_for_self(
                                i.table,
                                t,
                                Sides { left: u, right: v },
                                Sides { left, right },
                            )
                    }
                },
            },
        },
    }
}

pub(crate) fn assoc_layout<F: Facts>(i: &UnaryInference<F>, p: ProtoId, n: u32) -> bool
    requires { p.rank < (F.meaning i.now.facts.now).protocols }
    ensures { IsTrue result ↔ IsGiven i.now.table.now (F.meaning i.now.facts.now)
        (Rule.AssocLayout p n) (i.now.premise ∷ []) i.now.conclusion }
{
    match i.premise.as_conf() {
        None => false,
        Some((t, q)) => match i.conclusion.as_layout() {
            None => false,
            Some(v) => match requirement_at(i.facts.of_protocol(p), n) {
                None => false,
                Some(r) => match (Statement::Holds { r }).as_layout() {
                    None => false,
                    Some(u) => q == p && is_for_self(i.table, t, u, v),
                },
            },
        },
    }
}

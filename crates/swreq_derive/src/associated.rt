//! Whether the rules on what a protocol declares give a statement: ASSOCNAME, ASSOCDECL, ASSOCBIND,
//! SAMENAME and SAMEDECL.
ghost use Rattle.std.specs.Prelude.{◌↔◌, ◌<◌, [], ◌∷◌, IsTrue};
ghost use Rattle.swreq_derive.specs.declared.lines.DerivRule.TheVariants as Rule;
ghost use Rattle.swreq_derive.specs.Lines.{IsGiven};

use crate::comparing::{Sides, are_members, is_member};
use crate::inference::{BinaryInference, UnaryInference};
use crate::known::Facts;
use crate::shapes::is_conformance;
use swreq_param::{NameId, ProtoId, Step};

pub(crate) fn assoc_name<F: Facts>(i: &UnaryInference<F>, p: ProtoId, a: NameId) -> bool
    requires proto { p.rank < (F.meaning i.now.facts.now).protocols }
    requires name { a.rank < (F.meaning i.now.facts.now).names }
    ensures { IsTrue result ↔ IsGiven i.now.table.now (F.meaning i.now.facts.now)
        (Rule.AssocName p a) (i.now.premise ∷ []) i.now.conclusion }
{
    match i.premise.as_conf() {
        None => false,
        Some((t, q)) => match i.conclusion.as_valid() {
            None => false,
            Some(v) => match i.facts.declared(p, a) {
                None => false,
                Some(_) => q == p && is_member(i.table, v, t, Step::Name(a)),
            },
        },
    }
}

pub(crate) fn assoc_decl<F: Facts>(i: &UnaryInference<F>, p: ProtoId, a: NameId) -> bool
    requires proto { p.rank < (F.meaning i.now.facts.now).protocols }
    requires name { a.rank < (F.meaning i.now.facts.now).names }
    ensures { IsTrue result ↔ IsGiven i.now.table.now (F.meaning i.now.facts.now)
        (Rule.AssocDecl p a) (i.now.premise ∷ []) i.now.conclusion }
{
    match i.premise.as_conf() {
        None => false,
        Some((t, q)) => match i.conclusion.as_valid() {
            None => false,
            Some(v) => match i.facts.declared(p, a) {
                None => false,
                Some(d) => q == p && is_member(i.table, v, t, Step::Bound(d)),
            },
        },
    }
}

pub(crate) fn assoc_bind<F: Facts>(i: &UnaryInference<F>, p: ProtoId, a: NameId) -> bool
    requires proto { p.rank < (F.meaning i.now.facts.now).protocols }
    requires name { a.rank < (F.meaning i.now.facts.now).names }
    ensures { IsTrue result ↔ IsGiven i.now.table.now (F.meaning i.now.facts.now)
        (Rule.AssocBind p a) (i.now.premise ∷ []) i.now.conclusion }
{
    match i.premise.as_conf() {
        None => false,
        Some((t, q)) => match i.conclusion.as_same() {
            None => false,
            Some((left, right)) => match i.facts.declared(p, a) {
                None => false,
                Some(d) => {
                    q == p
                        && are_members(
                            i.table,
                            Sides { left, right },
                            Sides { left: t, right: t },
                            Step::Bound(d),
                            Step::Name(a),
                        )
                }
            },
        },
    }
}

pub(crate) fn same_name<F: Facts>(i: &BinaryInference<F>, p: ProtoId, a: NameId) -> bool
    requires proto { p.rank < (F.meaning i.now.facts.now).protocols }
    requires name { a.rank < (F.meaning i.now.facts.now).names }
    ensures { IsTrue result ↔ IsGiven i.now.table.now (F.meaning i.now.facts.now)
        (Rule.SameName p a) (i.now.first ∷ i.now.second ∷ []) i.now.conclusion }
{
    match i.second.as_same() {
        None => false,
        Some((t, u)) => match i.conclusion.as_same() {
            None => false,
            Some((left, right)) => match i.facts.declared(p, a) {
                None => false,
                Some(_) => {
                    is_conformance(i.first, u, p)
                        && are_members(
                            i.table,
                            Sides { left, right },
                            Sides { left: t, right: u },
                            Step::Name(a),
                            Step::Name(a),
                        )
                }
            },
        },
    }
}

pub(crate) fn same_decl<F: Facts>(i: &BinaryInference<F>, p: ProtoId, a: NameId) -> bool
    requires proto { p.rank < (F.meaning i.now.facts.now).protocols }
    requires name { a.rank < (F.meaning i.now.facts.now).names }
    ensures { IsTrue result ↔ IsGiven i.now.table.now (F.meaning i.now.facts.now)
        (Rule.SameDecl p a) (i.now.first ∷ i.now.second ∷ []) i.now.conclusion }
{
    match i.second.as_same() {
        None => false,
        Some((v, w)) => match i.conclusion.as_same() {
            None => false,
            Some((left, right)) => match i.facts.declared(p, a) {
                None => false,
                Some(d) => {
                    is_conformance(i.first, w, p)
                        && are_members(
                            i.table,
                            Sides { left, right },
                            Sides { left: v, right: w },
                            Step::Bound(d),
                            Step::Bound(d),
                        )
                }
            },
        },
    }
}

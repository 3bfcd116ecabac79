//! Whether the rules of equality give a statement: REFLEX, SYMM, TRANS, SAMECONF and SAMELAYOUT.
ghost use Rattle.std.specs.Prelude.{◌↔◌, [], ◌∷◌, IsTrue};
ghost use Rattle.swreq_derive.specs.declared.lines.DerivRule.TheVariants as Rule;
ghost use Rattle.swreq_derive.specs.Lines.{IsGiven};

use crate::inference::{BinaryInference, UnaryInference};
use crate::known::Facts;
use crate::shapes::{is_conformance, is_equality, is_layout};
use swreq_param::ProtoId;

pub(crate) fn reflex<F: Facts>(i: &UnaryInference<F>) -> bool
    ensures { IsTrue result ↔ IsGiven i.now.table.now (F.meaning i.now.facts.now)
        Rule.Reflex (i.now.premise ∷ []) i.now.conclusion }
{
    match i.premise.as_valid() {
        None => false,
        Some(t) => is_equality(i.conclusion, t, t),
    }
}

pub(crate) fn symm<F: Facts>(i: &UnaryInference<F>) -> bool
    ensures { IsTrue result ↔ IsGiven i.now.table.now (F.meaning i.now.facts.now)
        Rule.Symm (i.now.premise ∷ []) i.now.conclusion }
{
    match i.premise.as_same() {
        None => false,
        Some((t, u)) => is_equality(i.conclusion, u, t),
    }
}

pub(crate) fn trans<F: Facts>(i: &BinaryInference<F>) -> bool
    ensures { IsTrue result ↔ IsGiven i.now.table.now (F.meaning i.now.facts.now)
        Rule.Trans (i.now.first ∷ i.now.second ∷ []) i.now.conclusion }
{
    match i.first.as_same() {
        None => false,
        Some((t, u)) => match i.second.as_same() {
            None => false,
            Some((w, v)) => u == w && is_equality(i.conclusion, t, v),
        },
    }
}

pub(crate) fn same_conf<F: Facts>(i: &BinaryInference<F>, p: ProtoId) -> bool
    ensures { IsTrue result ↔ IsGiven i.now.table.now (F.meaning i.now.facts.now)
        (Rule.SameConf p) (i.now.first ∷ i.now.second ∷ []) i.now.conclusion }
{
    match i.second.as_same() {
        None => false,
        Some((t, u)) => is_conformance(i.first, u, p) && is_conformance(i.conclusion, t, p),
    }
}

pub(crate) fn same_layout<F: Facts>(i: &BinaryInference<F>) -> bool
    ensures { IsTrue result ↔ IsGiven i.now.table.now (F.meaning i.now.facts.now)
        Rule.SameLayout (i.now.first ∷ i.now.second ∷ []) i.now.conclusion }
{
    match i.second.as_same() {
        None => false,
        Some((t, u)) => is_layout(i.first, u) && is_layout(i.conclusion, t),
    }
}

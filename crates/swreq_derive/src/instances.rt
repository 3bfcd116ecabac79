//! Whether a rule gives a statement from its premises.
ghost use Rattle.std.specs.Prelude.{◌↔◌, [], ◌∷◌, IsTrue};
ghost use Rattle.swreq_derive.specs.Lines.{IsGiven, IsRuleOf};

use crate::associated::{assoc_bind, assoc_decl, assoc_name, same_decl, same_name};
use crate::equalities::{reflex, same_conf, same_layout, symm, trans};
use crate::inference::{BinaryInference, NullaryInference, UnaryInference};
use crate::known::Facts;
use crate::lines::DerivRule;
use crate::required::{assoc_conf, assoc_layout, assoc_same};
use crate::written::{conf, generic, layout, same};

/// Whether the rule gives the conclusion from nothing.
pub(crate) fn gives_from_none<F: Facts>(i: &NullaryInference<F>, rule: DerivRule) -> bool
    requires { IsRuleOf (F.meaning i.now.facts.now) rule }
    ensures { IsTrue result
        ↔ IsGiven i.now.table.now (F.meaning i.now.facts.now) rule [] i.now.conclusion }
{
    match rule {
        DerivRule::Generic => generic(i),
        DerivRule::Conf { n } => conf(i, n),
        DerivRule::Same { n } => same(i, n),
        DerivRule::Layout { n } => layout(i, n),
        _ => false,
    }
}

/// Whether the rule gives the conclusion from the premise.
pub(crate) fn gives_from_one<F: Facts>(i: &UnaryInference<F>, rule: DerivRule) -> bool
    requires { IsRuleOf (F.meaning i.now.facts.now) rule }
    ensures { IsTrue result ↔ IsGiven i.now.table.now (F.meaning i.now.facts.now)
        rule (i.now.premise ∷ []) i.now.conclusion }
{
    match rule {
        DerivRule::AssocName { p, a } => assoc_name(i, p, a),
        DerivRule::AssocDecl { p, a } => assoc_decl(i, p, a),
        DerivRule::AssocBind { p, a } => assoc_bind(i, p, a),
        DerivRule::AssocConf { p, n } => assoc_conf(i, p, n),
        DerivRule::AssocSame { p, n } => assoc_same(i, p, n),
        DerivRule::AssocLayout { p, n } => assoc_layout(i, p, n),
        DerivRule::Reflex => reflex(i),
        DerivRule::Symm => symm(i),
        _ => false,
    }
}

/// Whether the rule gives the conclusion from the two premises.
pub(crate) fn gives_from_two<F: Facts>(i: &BinaryInference<F>, rule: DerivRule) -> bool
    requires { IsRuleOf (F.meaning i.now.facts.now) rule }
    ensures { IsTrue result ↔ IsGiven i.now.table.now (F.meaning i.now.facts.now)
        rule (i.now.first ∷ i.now.second ∷ []) i.now.conclusion }
{
    match rule {
        DerivRule::Trans => trans(i),
        DerivRule::SameConf { p } => same_conf(i, p),
        DerivRule::SameLayout => same_layout(i),
        DerivRule::SameName { p, a } => same_name(i, p, a),
        DerivRule::SameDecl { p, a } => same_decl(i, p, a),
        _ => false,
    }
}

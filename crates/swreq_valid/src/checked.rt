//! A text with the rules of its protocols.
use crate::protocols::Protocols;
use std::marker::Model;
use swreq_symbols::Text;

/// A text whose protocols are checked: a text with the rules of its protocols, over which machines stand.
#[derive(Drop)]
pub struct CheckedText<'t, 'b> {
    pub text: Text<'t>,
    pub protocols: &'b Protocols,
}

impl<'t, 'b> Model for CheckedText<'t, 'b> {
    ghost use Rattle.std.specs.Coded.{codes};
    ghost use Rattle.swreq_rounds.specs.swreq_param.Codes.{term_code};
    ghost use Rattle.swreq_symbols.specs.Texts.{world_of};
    ghost use Rattle.swreq_valid.specs.{Checked.{CheckedView}, Protocols.{AreRulesOf}, Rounds.{last_rules}};

    ghost Value = { CheckedView };

    ghost coded = { Prim.hlevel (codes, term_code) };

    ghost view = { λ c. record { text = c.text; protocols = c.protocols.now } };

    ghost invariant = { λ c. AreRulesOf (world_of c.text) (last_rules c.protocols.now.rounds) };
}

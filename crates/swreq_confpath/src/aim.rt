//! What is sought, and the place to which its path leads.
use crate::places::Place;
use crate::sought::Sought;
use std::marker::Model;

/// A conformance that is sought, with its place. It is derivable, over a text and a list that are well formed.
#[derive(Drop)]
pub(crate) struct Aim<'a> {
    pub sought: Sought<'a>,
    pub target: Place,
}

impl<'a> Model for Aim<'a> {
    ghost use Rattle.std.specs.Coded.{codes};
    ghost use Rattle.swreq_machine.specs.swreq_param.Codes.{term_code};
    ghost use Rattle.swreq_confpath.specs.Searches.{AimView, IsAim};

    ghost Value = { AimView };

    ghost coded = { Prim.hlevel (codes, term_code) };

    ghost view = { λ a. record { sought = a.sought; target = a.target } };

    ghost invariant = { λ a. IsAim (record { sought = a.sought; target = a.target }) };
}

//! How far a request has come.
use crate::request::Request;
use std::marker::Model;
use swreq_check::Checked;
use swreq_print::param::ParamTable;
use swreq_valid::world::World;

/// A request, with the world of its source text, and the table of its type parameters.
#[derive(Drop)]
pub(crate) struct Resolved<'a> {
    pub request: &'a Request<'a>,
    pub world: &'a World,
    pub table: ParamTable,
}

impl<'a> Model for Resolved<'a> {
    ghost use Rattle.std.specs.Coded.{codes};
    ghost use Rattle.swreq_print.specs.swreq_param.Codes.{term_code};
    ghost use Rattle.swreq_reply.specs.Stages.{IsResolved, ResolvedView, resolved_by};

    ghost Value = { ResolvedView };

    ghost coded = { Prim.hlevel (codes, term_code) };

    ghost view = { λ a. resolved_by a.request.now a.world.now a.table };

    ghost invariant = { λ a. IsResolved (resolved_by a.request.now a.world.now a.table) };
}

/// A request whose source text has passed its check: with the world of the text, the table of its type parameters, and what the check gave.
#[derive(Drop)]
pub(crate) struct Accepted<'a> {
    pub request: &'a Request<'a>,
    pub world: &'a World,
    pub table: ParamTable,
    pub checked: Checked,
}

impl<'a> Model for Accepted<'a> {
    ghost use Rattle.std.specs.Coded.{codes};
    ghost use Rattle.swreq_print.specs.swreq_param.Codes.{term_code};
    ghost use Rattle.swreq_reply.specs.Stages.{AcceptedView, IsAccepted, accepted_by};

    ghost Value = { AcceptedView };

    ghost coded = { Prim.hlevel (codes, term_code) };

    ghost view = { λ a. accepted_by a.request.now a.world.now a.table a.checked };

    ghost invariant = { λ a. IsAccepted (accepted_by a.request.now a.world.now a.table a.checked) };
}

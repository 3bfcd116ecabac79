//! Type parameters of a table with types in place of their generic parameters.
ghost use Rattle.std.specs.Prelude.{◌≡◌, All, IfOk, map};
ghost use Rattle.swreq_machine.specs.swreq_param.{Tables.{Extends, IsOf, term_at}, Terms.{with_steps}};
ghost use Rattle.swreq_machine.specs.swreq_derive.Facts.{requirement_of};
ghost use Rattle.swreq_machine.specs.swreq_lowering.ByTable.{HasIdsOf};
ghost use Rattle.swreq_subst.specs.Arguments.{HasArgument, HasArguments, place_of, requirement_with, with_arguments};

use std::alloc::{AllocError, Global};
use swreq_machine::derive::{Params, Requirement};
use swreq_machine::param::{ParamId, ParamTable, Step, TermId};

/// The id of a type parameter of the table followed by these steps.
pub(crate) fn followed(
    table: &mut ParamTable,
    t: TermId,
    steps: &[Step],
) -> Result<TermId, AllocError>
    requires { IsOf table.old t }
    ensures id { IfOk result (λ id. IsOf table.new id) }
    ensures stands { IfOk result
        (λ id. term_at table.new id ≡ with_steps (term_at table.old t) steps.now) }
    ensures extends { Extends table.old table.new }
{
    let mut at = t;
    for k in 0..steps.len() {
        let step = steps[k];
        at = table.member(at, step)?;
    }
    Ok(at)
}

/// The place of a generic parameter among those of a signature, the outer ones first.
fn place_of(params: Params, g: ParamId) -> usize
    ensures { result ≡ place_of params g }
{
    match g.depth {
        0 => g.index as usize,
        _ => params.outer as usize + g.index as usize,
    }
}

/// The id of u with the types in place of its generic parameter.
fn with_arguments(
    alloc: Global,
    table: &mut ParamTable,
    params: Params,
    args: &[TermId],
    u: TermId,
) -> Result<TermId, AllocError>
    requires args { All (IsOf table.old) args.now }
    requires u { HasArgument table.old params args.now u }
    ensures id { IfOk result (λ id. IsOf table.new id) }
    ensures stands { IfOk result (λ id. term_at table.new id
        ≡ with_arguments params (map (term_at table.old) args.now) (term_at table.old u)) }
    ensures extends { Extends table.old table.new }
{
    let owned = table.owned(alloc, u)?;
    let argument = args[place_of(params, owned.head)];
    followed(table, argument, owned.steps.items())
}

/// A requirement with the types in place of its generic parameters.
pub(crate) fn requirement_with(
    alloc: Global,
    table: &mut ParamTable,
    params: Params,
    args: &[TermId],
    r: Requirement,
) -> Result<Requirement, AllocError>
    requires args { All (IsOf table.old) args.now }
    requires r { HasArguments table.old params args.now r }
    ensures ids { IfOk result (HasIdsOf table.new) }
    ensures stands { IfOk result (λ q. requirement_of table.new q
        ≡ requirement_with params (map (term_at table.old) args.now) (requirement_of table.old r)) }
    ensures extends { Extends table.old table.new }
{
    match r {
        Requirement::Conf { subject, proto } => {
            let subject = with_arguments(alloc, table, params, args, subject)?;
            Ok(Requirement::Conf { subject, proto })
        }
        Requirement::Layout { subject } => {
            let subject = with_arguments(alloc, table, params, args, subject)?;
            Ok(Requirement::Layout { subject })
        }
        Requirement::Same { left, right } => {
            let first = with_arguments(alloc, table, params, args, left)?;
            let second = with_arguments(alloc, table, params, args, right)?;
            Ok(Requirement::Same {
                left: first,
                right: second,
            })
        }
    }
}

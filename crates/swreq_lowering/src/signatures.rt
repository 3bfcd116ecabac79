// The lists of signatures.
ghost use Rattle.std.specs.Prelude.{◌<◌, ◌^◌, length, OnOk, IfOk};
ghost use Rattle.swreq_param.specs.{Terms.{Term}, Tables.{Extends}};
ghost use Rattle.swreq_lowering.specs.{Adding.{Adds, Lists}, Requirements.{in_function, in_inner, in_signature, in_struct}, Walk.{in_param, in_params}, Words.{words_by}};

use crate::context::Context;
use crate::ids::Written;
use crate::params::own_depth;
use crate::requirements::{Subject, add_bounds, add_clause};
use crate::words::Words;
use std::alloc::{AllocError, Global};
use swreq_lexicon::decl::{FunctionDecl, ParamDecl, ReqDecl, StructDecl};
use swreq_lexicon::names::Signature;
use swreq_param::{ParamId, ParamTable};

/// The bounds of a signature's own generic parameter at an index.
#[tactic(auto, using(swreq_param::proofs::Growing::onward))]
fn add_param(
    table: &mut ParamTable,
    words: &Words<'_>,
    signature: Signature,
    index: u32,
    param: &ParamDecl,
    into: &mut Vec<Written>,
) -> Result<(), AllocError>
    ensures adds { OnOk result (Adds table.old table.new into.old.items into.new.items
        (in_param (words_by words.now) signature index param.now)) }
    ensures extends { Extends table.old table.new }
{
    let depth = own_depth(words.skeleton, signature);
    let term = table.param(ParamId { depth, index })?;
    let subject = Subject {
        term,
        at: param.name.start,
    };
    let context = Context::Signature(signature);
    add_bounds(table, words, context, subject, param.bounds.items(), into)
}

#[tactic(auto, using(swreq_param::proofs::Growing::onward))]
fn add_params(
    table: &mut ParamTable,
    words: &Words<'_>,
    signature: Signature,
    params: &[ParamDecl],
    into: &mut Vec<Written>,
) -> Result<(), AllocError>
    requires { length params.now < 2 ^ 32 }
    ensures adds { OnOk result (Adds table.old table.new into.old.items into.new.items
        (in_params (words_by words.now) signature 0 params.now)) }
    ensures extends { Extends table.old table.new }
{
    let mut i = 0;
    while i < params.len() {
        let p = &params[i];
        add_param(table, words, signature, i as u32, p, into)?;
        i += 1;
    }
    Ok(())
}

/// What is written in a signature.
#[tactic(auto, using(swreq_param::proofs::Growing::onward))]
fn add_signature(
    table: &mut ParamTable,
    words: &Words<'_>,
    signature: Signature,
    params: &[ParamDecl],
    clause: &[ReqDecl],
    into: &mut Vec<Written>,
) -> Result<(), AllocError>
    requires { length params.now < 2 ^ 32 }
    ensures adds { OnOk result (Adds table.old table.new into.old.items into.new.items
        (in_signature (words_by words.now) signature params.now clause.now)) }
    ensures extends { Extends table.old table.new }
{
    add_params(table, words, signature, params, into)?;
    add_clause(table, words, Context::Signature(signature), clause, into)
}

/// The list of the struct at a place, in written order.
pub fn of_struct(
    alloc: Global,
    table: &mut ParamTable,
    words: &Words<'_>,
    place: usize,
    declaration: &StructDecl,
) -> Result<Vec<Written>, AllocError>
    requires { length declaration.now.params < 2 ^ 32 }
    ensures lists { IfOk result
        (λ v. Lists table.old table.new
        (in_struct (words_by words.now) place declaration.now) v.items) }
    ensures extends { Extends table.old table.new }
{
    let mut into = Vec::new(alloc);
    let signature = Signature::Struct(place);
    add_signature(
        table,
        words,
        signature,
        declaration.params.items(),
        declaration.clause.items(),
        &mut into,
    )?;
    Ok(into)
}

/// The list of the function at a place at the top, in written order.
pub fn of_function(
    alloc: Global,
    table: &mut ParamTable,
    words: &Words<'_>,
    place: usize,
    declaration: &FunctionDecl,
) -> Result<Vec<Written>, AllocError>
    requires { length declaration.now.params < 2 ^ 32 }
    ensures lists { IfOk result
        (λ v. Lists table.old table.new
        (in_function (words_by words.now) place declaration.now) v.items) }
    ensures extends { Extends table.old table.new }
{
    let mut into = Vec::new(alloc);
    let signature = Signature::Function(place);
    add_signature(
        table,
        words,
        signature,
        declaration.params.items(),
        declaration.clause.items(),
        &mut into,
    )?;
    Ok(into)
}

/// What the function at a place of the struct `outer` requires itself, in written order. Its list is
/// that of the struct, followed by these.
pub fn of_nested(
    alloc: Global,
    table: &mut ParamTable,
    words: &Words<'_>,
    outer: usize,
    function: usize,
    declaration: &FunctionDecl,
) -> Result<Vec<Written>, AllocError>
    requires { length declaration.now.params < 2 ^ 32 }
    ensures lists { IfOk result
        (λ v. Lists table.old table.new
        (in_inner (words_by words.now) outer function declaration.now) v.items) }
    ensures extends { Extends table.old table.new }
{
    let mut into = Vec::new(alloc);
    let signature = Signature::Nested { outer, function };
    add_signature(
        table,
        words,
        signature,
        declaration.params.items(),
        declaration.clause.items(),
        &mut into,
    )?;
    Ok(into)
}

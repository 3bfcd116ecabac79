//! The calls that are written, or the first name that is refused.
ghost use Rattle.std.specs.{Prelude.{◌≡◌, ◌≢◌, ◌<◌, ◌⊎◌, [], All, Err, None, Some, IfErr, IfOk, IsOk, map, length}, Option.{option_map}};
ghost use Rattle.swreq_machine.specs.swreq_param.Tables.{Extends, term_at};
ghost use Rattle.swreq_resolve.specs.{declared.refusal.NameErr.{NameErr}, declared.refusal.NameErr.TheVariants.{Memory}, RefusedTypes.{of_type_on}};
ghost use Rattle.swreq_machine.specs.swreq_world.Worlds.{signature_at};
ghost use Rattle.swreq_subst.specs.{Calls.{IsArgumentIn, IsCallIn, call_by}, Refusals.{RefusesCalls, declared, func_called, of_call, refusals}, Saying.{HaveIds, OneByOne, SayCalls, SaysArgument, SaysCall}};

use crate::calls::Call;
use crate::refusals::{first_refusal, func_called};
use crate::types::type_of;
use crate::words::Words;
use std::alloc::{AllocError, Global};
use swreq_machine::param::{ParamTable, TermId};
use swreq_machine::world::World;
use swreq_print::decl::{CallDecl, Span, TypeDecl};
use swreq_print::lowering::FuncId;
use swreq_resolve::{NameErr, error_of};
use swreq_text::Seq;

/// The signature of this name, which there is.
fn called(words: &Words<'_>, outer: Option<Span>, name: Span) -> FuncId
    requires { func_called words.now.world.now words.now.text.now outer name ≢ None }
    ensures { func_called words.now.world.now words.now.text.now outer name ≡ Some result }
{
    match func_called(words, outer, name) {
        Some(f) => f,
        None => unreachable!(),
    }
}

/// The types of a call of the signature f.
fn types_of(
    alloc: Global,
    words: &Words<'_>,
    table: &mut ParamTable,
    f: FuncId,
    types: &[TypeDecl],
) -> Result<Vec<Option<TermId>>, AllocError>
    requires signature { f.place < length words.now.world.now.signatures }
    requires resolve { All (λ t. of_type_on (declared words.now.world.now)
        (signature_at words.now.world.now f).signature words.now.text.now t ≡ []) types.now }
    ensures say { IfOk result (λ found. OneByOne
        (SaysArgument words.now.world.now words.now.text.now f)
        (map (option_map (term_at table.new)) found.items) types.now) }
    ensures known { IfOk result
        (λ found. All (IsArgumentIn table.new words.now.world.now.lexicon) found.items) }
    ensures extends { Extends table.old table.new }
{
    let mut found = Vec::new(alloc);
    for k in 0..types.len() {
        let written = &types[k];
        let argument = type_of(alloc, words, table, f, written)?;
        found.push(argument)?;
    }
    Ok(found)
}

/// A call of which no name is refused.
fn call_of(
    alloc: Global,
    words: &Words<'_>,
    table: &mut ParamTable,
    c: &CallDecl,
) -> Result<Call, AllocError>
    requires { of_call words.now.world.now words.now.text.now c.now ≡ [] }
    ensures says { IfOk result
        (λ call. SaysCall words.now.world.now words.now.text.now (call_by table.new call) c.now) }
    ensures known { IfOk result (IsCallIn table.new words.now.world.now) }
    ensures extends { Extends table.old table.new }
{
    let f = called(words, c.caller_outer, c.caller);
    let g = called(words, c.callee_outer, c.callee);
    let args = types_of(alloc, words, table, f, c.args.items())?;
    Ok(Call {
        f,
        g,
        args: Seq::new(args),
    })
}

/// Calls of which no name is refused.
fn calls_of(
    alloc: Global,
    words: &Words<'_>,
    table: &mut ParamTable,
    calls: &[CallDecl],
) -> Result<Vec<Call>, AllocError>
    requires { refusals words.now.world.now words.now.text.now calls.now ≡ [] }
    ensures say { IfOk result (λ found. SayCalls words.now.world.now words.now.text.now
        (map (call_by table.new) found.items) calls.now) }
    ensures known { IfOk result
        (λ found. All (IsCallIn table.new words.now.world.now) found.items) }
    ensures extends { Extends table.old table.new }
{
    let mut found = Vec::new(alloc);
    for k in 0..calls.len() {
        let written = &calls[k];
        let call = call_of(alloc, words, table, written)?;
        found.push(call)?;
    }
    Ok(found)
}

/// The calls that are written in these bytes, where their names resolve in a world in which what names refer to has ids. The table has
/// each type of them.
///
/// Where they do not, the refusal is of the name with the least offset among those that are refused. A name is refused where it is in a
/// query on the caller with the same types, where the callee is no signature, and the last name of the callee as `WrongArity` where it
/// has another number of generic parameters than types are given. The types of an unknown caller are not looked at. On every answer the
/// table begins with the one that was given.
pub fn resolve_calls(
    alloc: Global,
    world: &World,
    table: &mut ParamTable,
    text: &[u8],
    calls: &[CallDecl],
) -> Result<Vec<Call>, NameErr>
    requires ids { HaveIds world.now }
    ensures calls { IfOk result
        (λ found. SayCalls world.now text.now (map (call_by table.new) found.items) calls.now) }
    ensures known { IfOk result (λ found. All (IsCallIn table.new world.now) found.items) }
    ensures extends { Extends table.old table.new }
    ensures ok { IsOk result → refusals world.now text.now calls.now ≡ [] }
    ensures resolves { refusals world.now text.now calls.now ≡ []
        → IsOk result ⊎ (result ≡ Err Memory) }
    ensures refused { IfErr result
        (λ e. RefusesCalls world.now text.now calls.now e ⊎ (e ≡ Memory)) }
    ensures refuses { (e : NameErr) → RefusesCalls world.now text.now calls.now e
        → (result ≡ Err e) ⊎ (result ≡ Err Memory) }
{
    let words = Words { world, text };
    match first_refusal(&words, calls) {
        Some(r) => Err(error_of(r)),
        None => Ok(calls_of(alloc, &words, table, calls)?),
    }
}

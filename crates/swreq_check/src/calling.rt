//! The lines that answer calls, each by the machine of its caller, which is built once.
ghost use Rattle.std.specs.Prelude.{◌≡◌, ◌+◌, ◌<◌, ℕ, All, IfOk, List, OnOk, Some, length, map, set, slice_get};
ghost use Rattle.swreq_machine.specs.swreq_param.Tables.{Extends};
ghost use Rattle.swreq_machine.specs.swreq_world.Worlds.{TextWorld};
ghost use Rattle.swreq_subst.specs.{declared.calls.Call.{Call as CallView}, Calls.{IsCallIn, TermCall, call_by}, Lines.{IsLineOf}};
ghost use Rattle.swreq_check.specs.{declared.piece.Piece.{Piece as PieceView}, Called.{AreCalled, AreLinesTo, HaveMachine, IsLineFor}, CallLines.{AnswersCalls, caller_at}, Passed.{HasPassed, world_of}, Made.{text_at}, Wanted.{ArePlaces}};

use crate::called::{Called, CallsOf};
use crate::checking::no_pieces;
use crate::passed::{Passed, machine_of};
use crate::piece::{Piece, text_at};
use crate::placing::{add_place, no_places};
use std::alloc::{AllocError, Global};
use swreq_machine::Machine;
use swreq_machine::lowering::FuncId;
use swreq_machine::param::ParamTable;
use swreq_subst::{Call, call_text};
use swreq_text::{Seq, append_bytes};

/// Of each of `count` signatures the places of its calls, ascending.
fn places_of(alloc: Global, count: usize, calls: &[Call]) -> Result<Vec<Vec<usize>>, AllocError>
    requires callers { All (λ (c : CallView). c.f.place < count) calls.now }
    ensures { IfOk result (λ v. ArePlaces (caller_at calls.now) count (length calls.now) v.items) }
{
    let mut places = no_places(alloc, count)?;
    for k in 0..calls.len() {
        add_place(calls[k].f, k, &mut places)?;
    }
    Ok(places)
}

/// The call at this place.
fn call_at<'a>(calls: &'a [Call], place: usize) -> &'a Call
    requires { place < length calls.now }
    ensures { slice_get calls.now place ≡ Some result.now }
{
    &calls[place]
}

/// Makes the line of a call of the signature, which stands at this place, and puts it there.
fn put_line(
    of: &CallsOf<'_>,
    machine: &Machine<'_>,
    table: &mut ParamTable,
    place: usize,
    lines: &mut Vec<Option<Piece>>,
) -> Result<(), AllocError>
    requires machine { HaveMachine table.old of.now machine.now }
    requires place { (place < length of.now.called.calls.now)
        × (caller_at of.now.called.calls.now place ≡ Some of.now.f) }
    requires lines { length lines.old.items ≡ length of.now.called.calls.now }
    ensures line { OnOk result ((line : PieceView)
        × IsLineFor table.old of.now.called place line
        × (lines.new.items ≡ set lines.old.items place (Some line))) }
    ensures extends { Extends table.old table.new }
{
    let called = &of.called;
    let mut line = Vec::new(called.passed.alloc);
    let call = call_at(called.calls, place);
    call_text(
        called.passed.alloc,
        called.passed.world,
        table,
        machine,
        call,
        &mut line,
    )?;
    lines[place] = Some(Piece {
        text: Seq::new(line),
        verdict: None,
    });
    Ok(())
}

/// Makes the lines of the calls of a signature by its machine.
fn put_all(
    of: &CallsOf<'_>,
    machine: &Machine<'_>,
    table: &mut ParamTable,
    lines: &mut Vec<Option<Piece>>,
) -> Result<(), AllocError>
    requires machine { HaveMachine table.old of.now machine.now }
    requires lines { AreLinesTo table.old of.now.called of.now.f.place lines.old.items }
    ensures lines { OnOk result
        (AreLinesTo table.old of.now.called (of.now.f.place + 1) lines.new.items) }
    ensures extends { OnOk result (Extends table.old table.new) }
{
    for j in 0..of.places.len() {
        put_line(of, machine, table, of.places[j], lines)?;
    }
    Ok(())
}

/// The same, where the machine is built, unless the signature has no calls.
fn put_lines(
    of: &CallsOf<'_>,
    table: &mut ParamTable,
    lines: &mut Vec<Option<Piece>>,
) -> Result<(), AllocError>
    requires called { AreCalled table.old of.now.called }
    requires lines { AreLinesTo table.old of.now.called of.now.f.place lines.old.items }
    ensures lines { OnOk result
        (AreLinesTo table.old of.now.called (of.now.f.place + 1) lines.new.items) }
    ensures extends { OnOk result (Extends table.old table.new) }
{
    if of.places.is_empty() {
        return Ok(());
    }
    let passed = of.called.passed;
    let machine = machine_of(&passed, table, of.f)?;
    put_all(of, &machine, table, lines)
}

/// The lines of calls, each at its place.
fn all_lines(called: &Called<'_>, table: &mut ParamTable) -> Result<Vec<Option<Piece>>, AllocError>
    requires { AreCalled table.old called.now }
    ensures { IfOk result (λ v. AreLinesTo table.old called.now
        (length called.now.passed.world.now.signatures) v.items) }
{
    let alloc = called.passed.alloc;
    let world = called.passed.world;
    let places = places_of(alloc, world.functions() as usize, called.calls)?;
    let mut lines = no_pieces(alloc, called.calls.len())?;
    for k in 0..world.functions() {
        let of = CallsOf {
            called: *called,
            f: FuncId { place: k },
            places: &places[k as usize],
        };
        put_lines(&of, table, &mut lines)?;
    }
    Ok(lines)
}

/// The texts of these pieces, one after the other.
fn joined(alloc: Global, lines: &[Option<Piece>]) -> Result<Vec<u8>, AllocError>
    ensures { IfOk result (λ v. (w : TextWorld) (calls : List TermCall)
        → length lines.now ≡ length calls
        → ((k : ℕ) (c : TermCall) → slice_get calls k ≡ Some c
        → IsLineOf w c (text_at lines.now k)) → AnswersCalls w calls v.items) }
{
    let mut out = Vec::new(alloc);
    for k in 0..lines.len() {
        append_bytes(&mut out, text_at(lines, k))?;
    }
    Ok(out)
}

/// The lines of calls, in order. The machine of each caller is built once.
pub fn lines_of_calls(
    p: &Passed<'_>,
    table: &mut ParamTable,
    calls: &[Call],
) -> Result<Vec<u8>, AllocError>
    requires passed { HasPassed table.old p.now }
    requires calls { All (IsCallIn table.old p.now.world.now) calls.now }
    ensures { IfOk result
        (λ v. AnswersCalls (world_of table.old p.now) (map (call_by table.old) calls.now) v.items) }
{
    let called = Called { passed: *p, calls };
    let lines = all_lines(&called, table)?;
    joined(p.alloc, &lines)
}

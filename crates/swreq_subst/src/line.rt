//! The line that answers a call.
ghost use Rattle.std.specs.Prelude.{◌≡◌, ◌↔◌, ◌++◌, ◌<◌, ◌≤◌, List, All, IsTrue, IfOk, OnOk, OnErr, MatchBool, length, map};
ghost use Rattle.swreq_machine.specs.swreq_param.Tables.{Extends};
ghost use Rattle.swreq_machine.specs.swreq_derive.{Derivation.{TermRequirement}, Derivation.TermStatement.{IsValid}, Facts.{requirement_of}};
ghost use Rattle.swreq_machine.specs.swreq_lowering.ByTable.{HasIdsOf};
ghost use Rattle.swreq_machine.specs.swreq_symbols.{Known.{IsTextOver}, Texts.{IsTypeOfText, term_of, world_of}};
ghost use Rattle.swreq_machine.specs.{Asked.{IsDerivable}, Machines.{IsMachineOf}};
ghost use Rattle.swreq_machine.specs.swreq_world.ByTable.{world_by};
ghost use Rattle.swreq_subst.specs.{Calls.{AreAllValid, IsArgumentIn, IsCallIn, IsMachineOn, IsOneInvalid, IsValidThere, call_by}, Lines.{AppendsLine, text_at, verdict_text}};

use crate::calls::Call;
use crate::failures::failing;
use std::alloc::{AllocError, Global};
use swreq_machine::derive::Requirement;
use swreq_machine::param::{ParamTable, TermId};
use swreq_machine::symbols::Text;
use swreq_machine::world::World;
use swreq_machine::{Machine, Scratch};
use swreq_print::lexicon::Lexicon;
use swreq_print::requirement_text;
use swreq_text::{Print, append_bytes, put_joined};

/// Whether t is derivable from the list of the machine.
fn is_valid(
    alloc: Global,
    text: &Text<'_>,
    machine: &Machine,
    t: TermId,
) -> Result<bool, AllocError>
    requires { IsTypeOfText text.now t }
    ensures { IfOk result (λ b.
        (list : List TermRequirement) → IsMachineOf (world_of text.now) list machine.now
        → IsTrue b ↔ IsDerivable (world_of text.now) machine.now list
        (IsValid (term_of text.now t))) }
{
    let mut room = Scratch::for_type(alloc, text.table, t)?;
    let valid = machine.is_valid(text, t, &mut room);
    Ok(valid)
}

/// Whether a type is there, and derivable from the list of the machine.
fn is_valid_there(
    alloc: Global,
    text: &Text<'_>,
    machine: &Machine,
    argument: Option<TermId>,
) -> Result<bool, AllocError>
    requires { IsArgumentIn text.now.table.now text.now.world.now.lexicon argument }
    ensures { IfOk result (λ b.
        (list : List TermRequirement) → IsMachineOf (world_of text.now) list machine.now
        → IsTrue b ↔ IsValidThere (IsDerivable (world_of text.now) machine.now list)
        text.now.table.now argument) }
{
    match argument {
        Some(t) => is_valid(alloc, text, machine, t),
        None => Ok(false),
    }
}

/// Whether each type is there, and derivable from the list of the machine.
fn are_valid(
    alloc: Global,
    text: &Text<'_>,
    machine: &Machine,
    args: &[Option<TermId>],
) -> Result<bool, AllocError>
    requires { All (IsArgumentIn text.now.table.now text.now.world.now.lexicon) args.now }
    ensures { IfOk result (λ b.
        (list : List TermRequirement) → IsMachineOf (world_of text.now) list machine.now
        → MatchBool b (AreAllValid (IsDerivable (world_of text.now) machine.now list)
        text.now.table.now args.now)
        (IsOneInvalid (IsDerivable (world_of text.now) machine.now list) text.now.table.now
        args.now)) }
{
    for k in 0..args.len() {
        let argument = args[k];
        if !is_valid_there(alloc, text, machine, argument)? {
            return Ok(false);
        }
    }
    Ok(true)
}

/// What prints the requirements of a list by their numbers.
#[derive(Drop)]
struct Numbered<'a> {
    alloc: Global,
    names: &'a Lexicon,
    table: &'a ParamTable,
    list: &'a [Requirement],
}

impl Print<u32> for Numbered<'_> {
    ghost text = { λ s n. text_at s.names.now (map (requirement_of s.table.now) s.list.now) n };

    ghost fits = { λ s n.
        (0 < n) × (n ≤ length s.list.now) × All (HasIdsOf s.table.now) s.list.now };

    #[tactic(auto, using(swreq_text::proofs::Grown::none_grew))]
    fn put(&self, out: &mut Vec<u8>, item: &u32) -> Result<(), AllocError> {
        let place = *item as usize - 1;
        requirement_text(self.alloc, self.names, self.table, &self.list[place], out)
    }
}

/// Writes `yes` where there are no numbers, and otherwise `no: ` and the requirements with these numbers, joined by `, `; and a line feed.
fn put_verdict(lines: &Numbered<'_>, numbers: &[u32], out: &mut Vec<u8>) -> Result<(), AllocError>
    requires ids { All (HasIdsOf lines.now.table.now) lines.now.list.now }
    requires numbers { All (λ n. (0 < n) × (n ≤ length lines.now.list.now)) numbers.now }
    ensures { OnOk result (out.new.items ≡ out.old.items ++ verdict_text lines.now.names.now
        (map (requirement_of lines.now.table.now) lines.now.list.now) numbers.now) }
{
    match numbers {
        [] => append_bytes(out, b"yes\n"),
        [_, ..] => {
            append_bytes(out, b"no: ")?;
            put_joined(out, lines, b", ", numbers)?;
            append_bytes(out, b"\n")
        }
    }
}

/// Appends the line that answers a call: `invalid` where a type is not derivable from the caller's list; else `yes` where no requirement of
/// the callee fails; else `no: ` and the failing ones, as the callee's list has them. If memory runs out, `out` is unchanged.
///
/// The machine is that of the caller. On every answer the table begins with the one that was given.
pub fn call_text(
    alloc: Global,
    world: &World,
    table: &mut ParamTable,
    machine: &Machine,
    c: &Call,
    out: &mut Vec<u8>,
) -> Result<(), AllocError>
    requires text { IsTextOver table.old world.now }
    requires call { IsCallIn table.old world.now c.now }
    requires machine { IsMachineOn (world_by table.old world.now) c.now.f machine.now }
    ensures line { OnOk result (AppendsLine (world_by table.old world.now)
        (call_by table.old c.now) out.old.items out.new.items) }
    ensures err { OnErr result (out.new.items ≡ out.old.items) }
    ensures extends { Extends table.old table.new }
{
    let text = Text { world, table };
    if !are_valid(alloc, &text, machine, c.args.items())? {
        return append_bytes(out, b"invalid\n");
    }
    let numbers = failing(alloc, world, table, machine, c)?;
    let list = world.bare_signature(alloc, c.g)?;
    let lines = Numbered {
        alloc,
        names: world.lexicon(),
        table,
        list: &list,
    };
    let mut line = Vec::new(alloc);
    put_verdict(&lines, &numbers, &mut line)?;
    append_bytes(out, &line)
}

//! The first side of written requirements that is no type parameter.
#![tactic(auto, using(swreq_symbols::proofs::OfTexts::text_over))]

ghost use Rattle.std.specs.Prelude.{◌≡◌, IfOk, List, MatchOption};
ghost use Rattle.swreq_rounds.specs.swreq_derive.Derivation.{TermRequirement};
ghost use Rattle.swreq_symbols.specs.Texts.{IsRequirementOfText, IsTypeOfText, term_of, world_of};
ghost use Rattle.swreq_world.specs.swreq_lowering.ByTable.{placed, placed_by};
ghost use Rattle.swreq_valid.specs.{Plans.{AreWritten, within}, Sides.{FailsFirst, HoldsOfEach, IsShownIn, protocol_sides, sides, sides_of}};

use crate::usable::is_shown;
use std::alloc::{AllocError, Global};
use swreq_complete::CompleteRules;
use swreq_symbols::{Over, Reading, Text};
use swreq_world::derive::Requirement;
use swreq_world::lowering::Written;
use swreq_world::param::TermId;

/// The place of a side, where the rules do not show it valid.
fn fails_at(
    alloc: Global,
    reading: &Reading<'_, '_>,
    subject: TermId,
    at: u32,
) -> Result<Option<u32>, AllocError>
    requires t { IsTypeOfText reading.now.text subject }
    ensures { (rs : List TermRequirement) → IfOk result (λ r. MatchOption r
        (IsShownIn (world_of reading.now.text) reading.now.rules.now
        (record {
          source = within rs reading.now.over;
          term = term_of reading.now.text subject;
          at = at;
        }))
        (λ a.
        (IsShownIn (world_of reading.now.text) reading.now.rules.now
        (record {
          source = within rs reading.now.over;
          term = term_of reading.now.text subject;
          at = at;
        }) → ⊥) × (a ≡ at))) }
{
    let shown = is_shown(alloc, &reading.text, reading.rules, reading.over, subject)?;
    if shown { Ok(None) } else { Ok(Some(at)) }
}

/// The place of the first side of a requirement that the rules do not show valid, the left side before the right.
fn first_of(
    alloc: Global,
    reading: &Reading<'_, '_>,
    written: &Written,
) -> Result<Option<u32>, AllocError>
    requires r { IsRequirementOfText reading.now.text written.now.requirement }
    ensures { (rs : List TermRequirement) → IfOk result (λ first. MatchOption first
        (HoldsOfEach (IsShownIn (world_of reading.now.text)
        reading.now.rules.now)
        (sides_of (within rs reading.now.over) (placed_by reading.now.text.table.now written.now)))
        (FailsFirst (IsShownIn (world_of reading.now.text)
        reading.now.rules.now)
        (sides_of (within rs reading.now.over) (placed_by reading.now.text.table.now
        written.now)))) }
{
    match written.requirement {
        Requirement::Conf { subject, .. } => fails_at(alloc, reading, subject, written.left_at),
        Requirement::Layout { subject } => fails_at(alloc, reading, subject, written.left_at),
        Requirement::Same { left, right } => {
            match fails_at(alloc, reading, left, written.left_at)? {
                Some(at) => Ok(Some(at)),
                None => fails_at(alloc, reading, right, written.right_at),
            }
        }
    }
}

/// The place of the first side in a list that the rules do not show valid, in list order, or None where they show each of them valid.
pub fn first_invalid(
    alloc: Global,
    text: &Text<'_>,
    rules: &CompleteRules<'_>,
    over: Over,
    list: &[Written],
) -> Result<Option<u32>, AllocError>
    requires list { AreWritten text.now.table.now text.now.world.now.lexicon list.now }
    ensures { (rs : List TermRequirement) → IfOk result (λ first. MatchOption first
        (HoldsOfEach (IsShownIn (world_of text.now) rules.now)
        (sides (within rs over) (placed text.now.table.now list.now)))
        (FailsFirst (IsShownIn (world_of text.now) rules.now)
        (sides (within rs over) (placed text.now.table.now list.now)))) }
{
    let reading = Reading {
        text: *text,
        rules,
        over,
    };
    for k in 0..list.len() {
        let r = &list[k];
        let first = first_of(alloc, &reading, r)?;
        match first {
            Some(at) => return Ok(Some(at)),
            None => {}
        }
    }
    Ok(None)
}

/// The place of the first side in the protocols that the rules do not show valid, protocols in written order.
pub(crate) fn first_in_protocols(
    alloc: Global,
    text: &Text<'_>,
    rules: &CompleteRules<'_>,
) -> Result<Option<u32>, AllocError>
    ensures { IfOk result (λ first. MatchOption first
        (HoldsOfEach (IsShownIn (world_of text.now) rules.now)
        (protocol_sides (world_of text.now)))
        (FailsFirst (IsShownIn (world_of text.now) rules.now)
        (protocol_sides (world_of text.now)))) }
{
    for k in 0..text.world.protocols() {
        let p = text.world.proto_at(k);
        let list = text.world.requirements(p);
        let first = first_invalid(alloc, text, rules, Over::Protocol(p), list)?;
        match first {
            Some(at) => return Ok(Some(at)),
            None => {}
        }
    }
    Ok(None)
}

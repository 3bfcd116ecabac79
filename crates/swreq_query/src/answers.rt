//! The answer of a query.
ghost use Rattle.std.specs.Prelude.{◌≡◌, ◌≢◌, List, length, IfOk, OnErr, OnOk};
ghost use Rattle.swreq_print.specs.swreq_derive.Derivation.{TermRequirement};
ghost use Rattle.swreq_machine.specs.swreq_map.Follows.{IsMapOf};
ghost use Rattle.swreq_machine.specs.swreq_symbols.{Known.{IsAskedIn}, Texts.{world_of}};
ghost use Rattle.swreq_machine.specs.{Asked.{IsDerivable}, Machines.{IsMachineOf}};
ghost use Rattle.swreq_machine.specs.swreq_valid.Rounds.{last_rules};
ghost use Rattle.swreq_print.specs.swreq_lowering.{ByTable.{asks_by}, declared.ids.Asks.TheVariants.{Signature}};
ghost use Rattle.swreq_query.specs.Asked.{AppendsAnswer, HasRoomToAnswer, IsVerdictOf};

use crate::reduced::reduced_line;
use crate::verdict::{Verdict, judge};
use std::alloc::{AllocError, Global};
use swreq_machine::map::PropertyMap;
use swreq_machine::symbols::Text;
use swreq_machine::{Machine, Scratch};
use swreq_print::derive::Requirement;
use swreq_print::lowering::Asks;
use swreq_text::append_bytes;

/// Room for the answer to what is asked.
pub fn room_for(alloc: Global, text: &Text<'_>, asks: Asks) -> Result<Scratch, AllocError>
    requires { IsAskedIn text.now.table.now text.now.world.now.lexicon asks }
    ensures { IfOk result (λ s. HasRoomToAnswer text.now s asks) }
{
    match asks {
        Asks::Signature => Scratch::with_room(alloc, 0),
        Asks::Reduced(t) => Scratch::for_type(alloc, text.table, t),
        Asks::Requirement(r) => match r {
            Requirement::Conf { subject, .. } | Requirement::Layout { subject } => {
                Scratch::for_type(alloc, text.table, subject)
            }
            Requirement::Same { left, right } => {
                Scratch::for_types(alloc, text.table, left, right)
            }
        },
    }
}

/// Appends the line that answers what is asked, a requirement or a type, from every list of which m is the machine. Ok has the verdict, or
/// None where the line is that of a type.
///
/// The map is that of the rules of m, and the scratch has room for each side. If memory runs out, `out` is unchanged.
pub fn answer(
    alloc: Global,
    text: &Text<'_>,
    machine: &Machine,
    map: &PropertyMap,
    asks: Asks,
    scratch: &mut Scratch,
    out: &mut Vec<u8>,
) -> Result<Option<Verdict>, AllocError>
    requires asks { HasRoomToAnswer text.now scratch.old asks }
    requires no_signature { asks ≢ Signature }
    requires map { IsMapOf (last_rules machine.now.rounds) map.now }
    requires protocols { map.now.protocols ≡ length text.now.world.now.lexicon.protocols }
    ensures ok { OnOk result ((list : List TermRequirement)
        → IsMachineOf (world_of text.now) list machine.now
        → AppendsAnswer text.now.world.now.lexicon
        (IsDerivable (world_of text.now) machine.now list) (asks_by text.now.table.now asks)
        out.old.items out.new.items) }
    ensures verdict { IfOk result (λ verdict. (list : List TermRequirement)
        → IsMachineOf (world_of text.now) list machine.now
        → IsVerdictOf (IsDerivable (world_of text.now) machine.now list)
        (asks_by text.now.table.now asks) verdict) }
    ensures err { OnErr result (out.new.items ≡ out.old.items) }
    ensures room { scratch.new.room ≡ scratch.old.room }
{
    match asks {
        Asks::Signature => unreachable!(),
        Asks::Reduced(t) => reduced_line(alloc, text, machine, t, scratch, out),
        Asks::Requirement(r) => {
            let verdict = judge(text, machine, map, r, scratch);
            append_bytes(out, verdict.line())?;
            Ok(Some(verdict))
        }
    }
}

//! The history of a machine, over what is the same for all signatures of its text.
ghost use Rattle.std.specs.{Prelude.{◌≡◌, ◌↔◌, ◌+◌, ◌<◌, ◌^◌, IfOk, OnOk, Some, length}, Bool.{Decides}};
ghost use Rattle.swreq_machine.specs.{swreq_param.{Tables.{IsOf, term_at}, Terms.{self}}, swreq_complete.declared.limit.Limits.{Limits}, swreq_symbols.{Known.{IsTextOver}, Texts.{world_of}}};
ghost use Rattle.swreq_machine.specs.{swreq_valid.{Protocols.{protocols_of}, Rounds.{AreRounds}}, swreq_world.ByTable.{world_by}};
ghost use Rattle.swreq_explain.specs.{Histories.{IsTextHistory, protocols_origin, IsHistoryFor, list_origin}, Rounds.{AreSystemsIn, IsSystemIn, origin_of}, Asked.{AreRoundsFor}};

use crate::equations::{add_used, basic};
use crate::numbered::{Makings, add_numbered, all_numbered};
use std::alloc::{AllocError, Global};
use swreq_births::{History, System};
use swreq_machine::Machine;
use swreq_machine::lowering::FuncId;
use swreq_machine::param::{ParamId, ParamTable, TermId};
use swreq_machine::symbols::Text;
use swreq_machine::valid::Protocols;
use swreq_machine::world::World;
use swreq_readings::Alphabet;
use swreq_text::Seq;

/// What is the same for the histories of all signatures of a text: its world, the id of `Self`, and the systems of the rounds of its
/// protocols.
#[derive(Drop)]
pub struct TextHistory<'b> {
    pub world: &'b World,
    /// The id of `Self`, or None if the table has none.
    pub self_id: Option<TermId>,
    pub systems: Seq<System>,
}

/// The system of a round.
fn system_of(makings: Makings<'_>, round: usize) -> Result<System, AllocError>
    requires { round < length makings.rounds.now }
    ensures { IfOk result (IsSystemIn makings.entry.text (origin_of makings.entry) round) }
{
    let mut given = basic(makings)?;
    add_used(makings, round, &mut given)?;
    let rules = makings.rounds.written_out(makings.alloc, round)?;
    Ok(System {
        base: makings.base,
        below: makings.first.saturating_sub(1),
        rules: Seq::new(rules),
        given: Seq::new(given),
    })
}

/// The systems of the rounds.
fn systems_of(makings: Makings<'_>) -> Result<Vec<System>, AllocError>
    ensures { IfOk result (λ v. AreSystemsIn makings.entry.text (origin_of makings.entry) v.items) }
{
    let mut systems = Vec::new(makings.alloc);
    for k in 0..makings.rounds.count() {
        let system = system_of(makings, k)?;
        systems.push(system)?;
    }
    Ok(systems)
}

/// The systems of the rounds of the protocols.
fn protocols_systems(
    alloc: Global,
    text: &Text<'_>,
    protocols: &Protocols,
) -> Result<Vec<System>, AllocError>
    requires { (limits : Limits) × AreRounds limits (protocols_of (world_of text.now))
        protocols.now.rounds }
    ensures { IfOk result (λ v. AreSystemsIn text.now
        (protocols_origin text.now.world.now protocols.now.rounds) v.items) }
{
    let all = all_numbered(alloc, text)?;
    let rounds = protocols.rounds();
    check_places(0, rounds.count())?;
    let makings = Makings {
        alloc,
        text: *text,
        basic: true,
        all: &all,
        rounds,
        base: 0,
        first: 0,
    };
    let systems = systems_of(makings)?;
    Ok(systems)
}

/// Whether the id stands for `Self`.
fn is_self(table: &ParamTable, t: TermId) -> bool
    requires { IsOf table.now t }
    ensures { Decides result (term_at table.now t ≡ self) }
{
    match table.split(t) {
        None => table.head(t) == (ParamId { depth: 0, index: 0 }),
        Some(_) => false,
    }
}

/// The id of `Self`, or None if the table has none.
fn id_of_self(table: &ParamTable) -> Option<TermId>
    ensures { (t : TermId) → IsOf table.now t → (term_at table.now t ≡ self) ↔ (result ≡ Some t) }
{
    // No two type parameters of the table are equal.
    let count = table.len();
    for place in 0..count {
        if is_self(table, TermId { place }) {
            return Some(TermId { place });
        }
    }
    None
}

/// What is the same for the histories of all signatures of a text.
pub fn text_history_of<'b>(
    alloc: Global,
    world: &'b World,
    table: &ParamTable,
    protocols: &Protocols,
) -> Result<TextHistory<'b>, AllocError>
    requires text { IsTextOver table.now world.now }
    requires rounds { (limits : Limits) × AreRounds limits
        (protocols_of (world_by table.now world.now)) protocols.now.rounds }
    ensures { IfOk result (IsTextHistory table.now world.now protocols.now) }
{
    let systems = protocols_systems(alloc, &Text { world, table }, protocols)?;
    Ok(TextHistory {
        world,
        self_id: id_of_self(table),
        systems: Seq::new(systems),
    })
}

/// Whether each system after these has a place of 64 bits. Past these there is no room, which is answered as if memory ran out.
fn check_places(first: usize, count: usize) -> Result<(), AllocError>
    ensures { OnOk result (first + count < 2 ^ 64) }
{
    match first.checked_add(count) {
        Some(_) => Ok(()),
        None => Err(AllocError),
    }
}

/// The systems of the rounds of the machine of a signature. Those of the protocols stand before them.
fn own_systems(
    alloc: Global,
    text: &Text<'_>,
    protocols: &Protocols,
    machine: &Machine<'_>,
    f: FuncId,
) -> Result<Vec<System>, AllocError>
    requires { AreRoundsFor text.now.table.now text.now.world.now f protocols.now machine.now }
    ensures systems { IfOk result (λ v. AreSystemsIn text.now
        (list_origin text.now.world.now f protocols.now machine.now) v.items) }
    ensures places { OnOk result
        (length protocols.now.rounds + length machine.now.rounds < 2 ^ 64) }
{
    let list = text.world.bare_signature(alloc, f)?;
    let mut all = Vec::new(alloc);
    add_numbered(None, &list, &mut all)?;
    let first = protocols.rounds().count();
    check_places(first, machine.rounds().count())?;
    let makings = Makings {
        alloc,
        text: *text,
        basic: false,
        all: &all,
        rounds: machine.rounds(),
        base: protocols.rules().count(),
        first,
    };
    let systems = systems_of(makings)?;
    Ok(systems)
}

/// The history of the machine of a signature, over what is the same for all signatures of its text. From it lines are written for all that
/// the machine answers.
pub fn history_of<'b>(
    alloc: Global,
    text: &Text<'_>,
    base: &'b TextHistory<'b>,
    protocols: &Protocols,
    machine: &Machine<'_>,
    f: FuncId,
) -> Result<History<'b>, AllocError>
    requires base { IsTextHistory text.now.table.now text.now.world.now protocols.now base.now }
    requires rounds { AreRoundsFor text.now.table.now text.now.world.now f protocols.now
        machine.now }
    ensures { IfOk result (IsHistoryFor (world_of text.now) f) }
{
    let systems = own_systems(alloc, text, protocols, machine, f)?;
    let alphabet = Alphabet {
        world: base.world,
        self_id: base.self_id,
        params: machine.params(),
    };
    Ok(History {
        alphabet,
        below: base.systems.items(),
        own: Seq::new(systems),
    })
}

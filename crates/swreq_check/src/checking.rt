//! The check of a text: its protocols, then its signatures in written order.
ghost use Rattle.std.specs.Prelude.{◌+◌, length, IfOk, OnOk};
ghost use Rattle.swreq_machine.specs.swreq_param.Tables.{Extends};
ghost use Rattle.swreq_machine.specs.swreq_symbols.Known.{IsTextOver};
ghost use Rattle.swreq_machine.specs.swreq_complete.declared.limit.Limits.{Limits as LimitsView};
ghost use Rattle.swreq_machine.specs.swreq_valid.{Protocols.{protocols_of}, Rounds.{AreRounds, last_rules}};
ghost use Rattle.swreq_machine.specs.swreq_world.ByTable.{world_by};
ghost use Rattle.swreq_check.specs.{Checks.{Checks, ChecksAll, ChecksAt, IsCheckedFor, ending, world_asked}, Made.{AreNone}, Settings.{AreMadeIn, HasBase, HaveEndings, IsKeptFor, IsLast, IsOwn, IsReady, world_in}};

use crate::asked::Asked;
use crate::content::{Backing, Content, Made, backing_of};
use crate::making::make_pieces;
use crate::piece::Piece;
use crate::placing::count_of;
use crate::setting::{Kept, Own, Setting, Turn};
use std::alloc::{AllocError, Global};
use swreq_explain::{TextHistory, text_history_of};
use swreq_machine::Machine;
use swreq_machine::lowering::FuncId;
use swreq_machine::map::Endings;
use swreq_machine::param::ParamTable;
use swreq_machine::symbols::Text;
use swreq_machine::valid::{CheckedText, Protocols, Refused};
use swreq_machine::watch::Watch;
use swreq_machine::world::World;

/// What a check without a refusal gives: the rules of the protocols, and the pieces that the machines of the signatures make, each at its
/// place.
#[derive(Drop)]
pub struct Checked {
    pub protocols: Protocols,
    pub pieces: Vec<Option<Piece>>,
}

/// Checks one signature by the machine of its list, and makes of it what is asked.
fn check_anew<'a, W: Watch>(
    turn: &Turn<'_, 'a>,
    table: &mut ParamTable,
    watch: &mut W,
    pieces: &mut Vec<Option<Piece>>,
) -> Result<Kept<'a>, Refused>
    requires ready { IsReady table.old turn.now.s.now }
    requires pieces { AreMadeIn table.old turn.now.s.now turn.now.f.place pieces.old.items }
    ensures check { ChecksAt table.old turn.now.s.now turn.now.f (W.told watch.old)
        (W.told watch.new) (ending result) }
    ensures kept { IfOk result (IsKeptFor table.new turn.now.s.now) }
    ensures pieces { OnOk result
        (AreMadeIn table.old turn.now.s.now (turn.now.f.place + 1) pieces.new.items) }
    ensures extends { OnOk result (Extends table.old table.new) }
{
    let s = turn.s;
    let text = Text {
        world: s.world,
        table,
    };
    let checked = CheckedText {
        text,
        protocols: s.protocols,
    };
    let machine = Machine::of_signature(s.alloc, &checked, turn.f, s.limits, watch)?;
    let own = Own {
        s,
        f: turn.f,
        machine: &machine,
    };
    make_pieces(&own, table, pieces)?;
    Ok(Kept { f: turn.f, machine })
}

/// Checks one signature by a machine that it has already, and makes of it what is asked.
fn check_again<W: Watch>(
    own: &Own<'_>,
    table: &mut ParamTable,
    watch: &mut W,
    pieces: &mut Vec<Option<Piece>>,
) -> Result<(), Refused>
    requires own { IsOwn table.old own.now }
    requires pieces { AreMadeIn table.old own.now.s.now own.now.f.place pieces.old.items }
    ensures check { ChecksAt table.old own.now.s.now own.now.f (W.told watch.old)
        (W.told watch.new) result }
    ensures pieces { OnOk result
        (AreMadeIn table.old own.now.s.now (own.now.f.place + 1) pieces.new.items) }
    ensures extends { OnOk result (Extends table.old table.new) }
{
    own.machine.tell_again(own.s.protocols, watch)?;
    make_pieces(own, table, pieces).map_err(|_| Refused::Memory)
}

/// Checks another signature. Its machine is kept where it is a struct, and otherwise the one before.
fn check_beside<'a, W: Watch>(
    turn: &Turn<'_, 'a>,
    table: &mut ParamTable,
    kept: Kept<'a>,
    watch: &mut W,
    pieces: &mut Vec<Option<Piece>>,
) -> Result<Kept<'a>, Refused>
    requires ready { IsReady table.old turn.now.s.now }
    requires kept { IsKeptFor table.old turn.now.s.now kept }
    requires pieces { AreMadeIn table.old turn.now.s.now turn.now.f.place pieces.old.items }
    ensures check { ChecksAt table.old turn.now.s.now turn.now.f (W.told watch.old)
        (W.told watch.new) (ending result) }
    ensures kept { IfOk result (IsKeptFor table.new turn.now.s.now) }
    ensures pieces { OnOk result
        (AreMadeIn table.old turn.now.s.now (turn.now.f.place + 1) pieces.new.items) }
    ensures extends { OnOk result (Extends table.old table.new) }
{
    let next = check_anew(turn, table, watch, pieces)?;
    if turn.s.world.is_struct(turn.f) {
        Ok(next)
    } else {
        Ok(kept)
    }
}

/// Checks the signature after one whose machine is kept. The machine of a struct serves its functions that add nothing to it.
fn check_after<'a, W: Watch>(
    turn: &Turn<'_, 'a>,
    table: &mut ParamTable,
    kept: Kept<'a>,
    watch: &mut W,
    pieces: &mut Vec<Option<Piece>>,
) -> Result<Kept<'a>, Refused>
    requires ready { IsReady table.old turn.now.s.now }
    requires kept { IsKeptFor table.old turn.now.s.now kept }
    requires pieces { AreMadeIn table.old turn.now.s.now turn.now.f.place pieces.old.items }
    ensures check { ChecksAt table.old turn.now.s.now turn.now.f (W.told watch.old)
        (W.told watch.new) (ending result) }
    ensures kept { IfOk result (IsKeptFor table.new turn.now.s.now) }
    ensures pieces { OnOk result
        (AreMadeIn table.old turn.now.s.now (turn.now.f.place + 1) pieces.new.items) }
    ensures extends { OnOk result (Extends table.old table.new) }
{
    if !turn.s.world.adds_nothing(kept.f, turn.f) {
        return check_beside(turn, table, kept, watch, pieces);
    }
    let own = Own {
        s: turn.s,
        f: turn.f,
        machine: &kept.machine,
    };
    check_again(&own, table, watch, pieces)?;
    Ok(kept)
}

/// Checks one signature, with the machine of the last struct at hand, if one is kept.
fn check_one<'a, W: Watch>(
    turn: &Turn<'_, 'a>,
    table: &mut ParamTable,
    last: Option<Kept<'a>>,
    watch: &mut W,
    pieces: &mut Vec<Option<Piece>>,
) -> Result<Kept<'a>, Refused>
    requires ready { IsReady table.old turn.now.s.now }
    requires last { IsLast table.old turn.now.s.now last }
    requires pieces { AreMadeIn table.old turn.now.s.now turn.now.f.place pieces.old.items }
    ensures check { ChecksAt table.old turn.now.s.now turn.now.f (W.told watch.old)
        (W.told watch.new) (ending result) }
    ensures kept { IfOk result (IsKeptFor table.new turn.now.s.now) }
    ensures pieces { OnOk result
        (AreMadeIn table.old turn.now.s.now (turn.now.f.place + 1) pieces.new.items) }
    ensures extends { OnOk result (Extends table.old table.new) }
{
    match last {
        Some(kept) => check_after(turn, table, kept, watch, pieces),
        None => check_anew(turn, table, watch, pieces),
    }
}

/// Checks the signatures, in order.
fn check_all<W: Watch>(
    s: &Setting<'_>,
    table: &mut ParamTable,
    watch: &mut W,
    pieces: &mut Vec<Option<Piece>>,
) -> Result<(), Refused>
    requires ready { IsReady table.old s.now }
    requires pieces { AreMadeIn table.old s.now 0 pieces.old.items }
    ensures check { ChecksAll s.now.limits (world_in table.old s.now)
        (last_rules s.now.protocols.now.rounds) (W.told watch.old) (W.told watch.new) result }
    ensures pieces { OnOk result
        (AreMadeIn table.old s.now (length s.now.world.now.signatures) pieces.new.items) }
    ensures extends { OnOk result (Extends table.old table.new) }
{
    let mut last = None;
    for k in 0..s.world.functions() {
        let turn = Turn {
            s,
            f: FuncId { place: k },
        };
        let kept = check_one(&turn, table, last, watch, pieces)?;
        last = Some(kept);
    }
    Ok(())
}

/// `count` places, none of them filled.
pub(crate) fn no_pieces(alloc: Global, count: usize) -> Result<Vec<Option<Piece>>, AllocError>
    ensures { IfOk result (AreNone count) }
{
    let mut pieces = Vec::new(alloc);
    for _ in 0..count {
        pieces.push(None)?;
    }
    Ok(pieces)
}

/// What is the same for the histories of all signatures, where derivations are printed for queries.
fn base_for<'b>(
    alloc: Global,
    world: &'b World,
    table: &ParamTable,
    protocols: &Protocols,
    content: Content,
) -> Result<Option<TextHistory<'b>>, AllocError>
    requires text { IsTextOver table.now world.now }
    requires rounds { (limits : LimitsView) × AreRounds limits
        (protocols_of (world_by table.now world.now)) protocols.now.rounds }
    ensures { IfOk result (HasBase table.now world.now protocols.now content) }
{
    if world.queries().is_empty() {
        return Ok(None);
    }
    match backing_of(content) {
        Backing::Derivation => {
            let base = text_history_of(alloc, world, table, protocols)?;
            Ok(Some(base))
        }
        Backing::Nothing | Backing::Path => Ok(None),
    }
}

/// What the rules of the protocols keep with the endings of words, where queries are answered.
fn endings_for(
    alloc: Global,
    world: &World,
    protocols: &Protocols,
    content: Content,
) -> Result<Option<Endings>, AllocError>
    ensures { IfOk result (HaveEndings world.now protocols.now) }
{
    if world.queries().is_empty() {
        return Ok(None);
    }
    match content.makes() {
        Made::Lines => {
            let endings = Endings::of(alloc, protocols.rules(), world.protocols())?;
            Ok(Some(endings))
        }
        Made::Systems | Made::Lists | Made::Nothing => Ok(None),
    }
}

/// Checks the protocols of a text, then its signatures in written order, and makes of their machines what is asked.
///
/// It is the first refusal among these, or `Refused::Memory`. The watcher is told the events of the rounds up to it.
pub fn check<W: Watch>(
    alloc: Global,
    table: &mut ParamTable,
    asked: &Asked<'_>,
    watch: &mut W,
) -> Result<Checked, Refused>
    requires { IsTextOver table.old asked.now.world.now }
    ensures check { Checks asked.now.limits (world_asked table.old asked.now)
        (W.told watch.old) (W.told watch.new) result }
    ensures checked { IfOk result
        (IsCheckedFor asked.now.limits (world_asked table.old asked.now)
        asked.now.world.now asked.now.content) }
    ensures extends { OnOk result (Extends table.old table.new) }
{
    let world = asked.world;
    let text = Text { world, table };
    let protocols = Protocols::build(alloc, &text, asked.limits, watch)?;
    let base = base_for(alloc, world, table, &protocols, asked.content)?;
    let endings = endings_for(alloc, world, &protocols, asked.content)?;
    let mut pieces = no_pieces(alloc, count_of(world, asked.content))?;
    let setting = Setting {
        alloc,
        world,
        protocols: &protocols,
        limits: asked.limits,
        content: asked.content,
        places: asked.places,
        base: &base,
        endings: &endings,
    };
    check_all(&setting, table, watch, &mut pieces)?;
    Ok(Checked { protocols, pieces })
}

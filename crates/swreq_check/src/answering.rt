//! The pieces that answer queries of requirements and types, by the machine of the signature that they ask.
ghost use Rattle.std.specs.Prelude.{◌≡◌, ◌<◌, ◌+◌, ◌++◌, ℕ, List, Some, length, set, IfOk, OnOk, true};
ghost use Rattle.swreq_machine.specs.swreq_param.{Tables.{Extends, term_at}, Terms.{Term}};
ghost use Rattle.swreq_machine.specs.swreq_derive.{declared.requirements.Requirement.TheVariants.{Conf}, Facts.{requirement_of}};
ghost use Rattle.swreq_explain.specs.{Histories.{IsHistoryFor}, Asked.{IsYes}};
ghost use Rattle.swreq_query.specs.Answers.{Answer};
ghost use Rattle.swreq_machine.specs.swreq_lowering.ByTable.{query_by};
ghost use Rattle.swreq_check.specs.{declared.piece.Piece.{Piece as PieceView}, Contents.{AreAnswers, backing_of}, Made.{IsPiece}, QueryLines.{Backs, BacksYes, HasAnswer, HasVerdict, IsDerivationText, IsPathLine, IsPieceOf}, Settings.{AreMadeIn, AreMeansFor, HasHistory, IsMapFor, IsOwn, IsPlaceFor, IsQueryFor, IsReady, world_in}};

use crate::content::{Backing, backing_of};
use crate::piece::Piece;
use crate::setting::{Means, Own};
use std::alloc::AllocError;
use swreq_births::History;
use swreq_confpath::laws::paths_have_texts;
use swreq_confpath::{path_text, shortest};
use swreq_explain::{explain_by, history_of};
use swreq_lines::lines_text;
use swreq_machine::derive::Requirement;
use swreq_machine::lowering::{Asks, Query};
use swreq_machine::map::PropertyMap;
use swreq_machine::param::{ParamTable, ProtoId, TermId};
use swreq_machine::symbols::Text;
use swreq_query::{Verdict, answer, room_for};
use swreq_text::{Seq, append_bytes};

/// Appends the line of the conformance path that is given for `[t : p]`, which is derivable.
fn put_path(
    own: &Own<'_>,
    table: &ParamTable,
    t: TermId,
    p: ProtoId,
    out: &mut Vec<u8>,
) -> Result<(), AllocError>
    requires own { IsOwn table.now own.now }
    requires yes { IsYes table.now own.now.s.now.world.now own.now.f (Conf t p) }
    ensures { OnOk result ((text : List ℕ)
        × IsPathLine (world_in table.now own.now.s.now) own.now.f (term_at table.now t) p text
        × (out.new.items ≡ out.old.items ++ text)) }
{
    paths_have_texts();
    let s = own.s;
    let text = Text {
        world: s.world,
        table,
    };
    let path = shortest(s.alloc, &text, own.machine, own.f, t, p)?;
    append_bytes(out, b"  ")?;
    path_text(s.alloc, &text, own.f, &path, out)?;
    append_bytes(out, b"\n")
}

/// Appends the lines of a derivation of a requirement of the signature, which is derivable, by the history of the signature.
fn put_derivation(
    own: &Own<'_>,
    table: &mut ParamTable,
    history: &History,
    r: Requirement,
    out: &mut Vec<u8>,
) -> Result<(), AllocError>
    requires ready { IsReady table.old own.now.s.now }
    requires history { IsHistoryFor (world_in table.old own.now.s.now) own.now.f history.now }
    requires yes { IsYes table.old own.now.s.now.world.now own.now.f r }
    ensures backing { OnOk result ((text : List ℕ)
        × IsDerivationText (world_in table.old own.now.s.now) own.now.f
        (requirement_of table.old r) text
        × (out.new.items ≡ out.old.items ++ text)) }
    ensures extends { OnOk result (Extends table.old table.new) }
{
    let s = own.s;
    let lines = explain_by(s.alloc, s.world, table, history, r)?;
    lines_text(s.alloc, s.world.lexicon(), table, &lines, out)
}

/// Appends what backs that a requirement of the signature is derivable.
fn put_backing(
    means: &Means<'_>,
    table: &mut ParamTable,
    r: Requirement,
    out: &mut Vec<u8>,
) -> Result<(), AllocError>
    requires means { AreMeansFor table.old means.now }
    requires yes { IsYes table.old means.now.own.s.now.world.now means.now.own.f r }
    ensures backing { OnOk result ((text : List ℕ)
        × BacksYes (world_in table.old means.now.own.s.now)
        (backing_of means.now.own.s.now.content) means.now.own.f
        (requirement_of table.old r) text
        × (out.new.items ≡ out.old.items ++ text)) }
    ensures extends { OnOk result (Extends table.old table.new) }
{
    match backing_of(means.own.s.content) {
        Backing::Nothing => Ok(()),
        Backing::Derivation => match means.history {
            Some(history) => put_derivation(&means.own, table, history, r, out),
            None => unreachable!(),
        },
        Backing::Path => match r {
            Requirement::Conf { subject, proto } => {
                put_path(&means.own, table, subject, proto, out)
            }
            Requirement::Layout { .. } | Requirement::Same { .. } => Ok(()),
        },
    }
}

/// Appends what follows the answer to a query that has this verdict.
fn put_behind(
    means: &Means<'_>,
    table: &mut ParamTable,
    query: &Query,
    verdict: Option<Verdict>,
    out: &mut Vec<u8>,
) -> Result<(), AllocError>
    requires means { AreMeansFor table.old means.now }
    requires query { IsQueryFor means.now.own.s.now means.now.own.f query.now }
    requires verdict { HasVerdict (world_in table.old means.now.own.s.now) true verdict
        (query_by table.old query.now) }
    ensures backing { OnOk result ((text : List ℕ)
        × ((a : Answer) → HasAnswer (world_in table.old means.now.own.s.now) true a
        (query_by table.old query.now)
        → Backs (world_in table.old means.now.own.s.now)
        (backing_of means.now.own.s.now.content) (query_by table.old query.now) a text)
        × (out.new.items ≡ out.old.items ++ text)) }
    ensures extends { OnOk result (Extends table.old table.new) }
{
    match query.asks {
        Asks::Signature | Asks::Reduced(_) => Ok(()),
        Asks::Requirement(r) => {
            if verdict == Some(Verdict::Yes) {
                put_backing(means, table, r, out)
            } else {
                Ok(())
            }
        }
    }
}

/// The piece that answers a query of a requirement or a type, by the machine of the signature that it asks.
fn piece_for(means: &Means<'_>, table: &mut ParamTable, query: &Query) -> Result<Piece, AllocError>
    requires means { AreMeansFor table.old means.now }
    requires query { IsQueryFor means.now.own.s.now means.now.own.f query.now }
    ensures piece { IfOk result (IsPieceOf (world_in table.old means.now.own.s.now) true
        (backing_of means.now.own.s.now.content) (query_by table.old query.now)) }
    ensures extends { OnOk result (Extends table.old table.new) }
{
    let s = means.own.s;
    let over = Text {
        world: s.world,
        table,
    };
    let mut scratch = room_for(s.alloc, &over, query.asks)?;
    let mut text = Vec::new(s.alloc);
    let verdict = answer(
        s.alloc,
        &over,
        means.own.machine,
        means.map,
        query.asks,
        &mut scratch,
        &mut text,
    )?;
    put_behind(means, table, query, verdict, &mut text)?;
    Ok(Piece {
        text: Seq::new(text),
        verdict,
    })
}

/// The history of the machine of a signature, where derivations are printed. The text has queries.
fn history_for<'a>(own: &Own<'a>, table: &ParamTable) -> Result<Option<History<'a>>, AllocError>
    requires own { IsOwn table.now own.now }
    requires some { 0 < length own.now.s.now.world.now.queries }
    ensures { IfOk result (HasHistory table.now own.now.s.now own.now.f) }
{
    let s = own.s;
    let text = Text {
        world: s.world,
        table,
    };
    match s.base {
        None => Ok(None),
        Some(base) => {
            let history = history_of(s.alloc, &text, base, s.protocols, own.machine, own.f)?;
            Ok(Some(history))
        }
    }
}

/// The map of the rules of a machine, over what those of the protocols keep with the endings of words.
fn map_for<'a>(own: &Own<'a>) -> Result<PropertyMap<'a>, AllocError>
    requires { (terms : List Term) × IsOwn terms own.now }
    ensures { IfOk result (IsMapFor own.now.s.now own.now.machine.now) }
{
    let s = own.s;
    let rules = own.machine.rules();
    let protocols = s.world.protocols();
    match s.endings {
        None => PropertyMap::build(s.alloc, rules, protocols),
        Some(endings) => {
            let count = s.protocols.rules().count();
            PropertyMap::over(s.alloc, endings, count, rules, protocols)
        }
    }
}

/// Answers the query at a place, and puts the piece there.
fn answer_at(
    means: &Means<'_>,
    table: &mut ParamTable,
    place: usize,
    pieces: &mut Vec<Option<Piece>>,
) -> Result<(), AllocError>
    requires means { AreMeansFor table.old means.now }
    requires answers { AreAnswers means.now.own.s.now.content }
    requires place { IsPlaceFor means.now.own.s.now means.now.own.f place }
    requires pieces { length pieces.old.items ≡ length means.now.own.s.now.world.now.queries }
    ensures piece { OnOk result ((piece : PieceView)
        × IsPiece (world_in table.old means.now.own.s.now) means.now.own.s.now.content place piece
        × (pieces.new.items ≡ set pieces.old.items place (Some piece))) }
    ensures extends { OnOk result (Extends table.old table.new) }
{
    let query = &means.own.s.world.queries()[place];
    let made = piece_for(means, table, query)?;
    pieces[place] = Some(made);
    Ok(())
}

/// Answers the queries of requirements and types on a signature, by its machine, at their places.
pub(crate) fn answer_queries(
    own: &Own<'_>,
    table: &mut ParamTable,
    pieces: &mut Vec<Option<Piece>>,
) -> Result<(), AllocError>
    requires own { IsOwn table.old own.now }
    requires answers { AreAnswers own.now.s.now.content }
    requires pieces { AreMadeIn table.old own.now.s.now own.now.f.place pieces.old.items }
    ensures pieces { OnOk result
        (AreMadeIn table.old own.now.s.now (own.now.f.place + 1) pieces.new.items) }
    ensures extends { OnOk result (Extends table.old table.new) }
{
    let places = &own.s.places[own.f.place as usize];
    if places.is_empty() {
        return Ok(());
    }
    let map = map_for(own)?;
    let history = history_for(own, table)?;
    let means = Means {
        own: *own,
        map: &map,
        history: history.as_ref(),
    };
    for j in 0..places.len() {
        let place = places[j];
        answer_at(&means, table, place, pieces)?;
    }
    Ok(())
}

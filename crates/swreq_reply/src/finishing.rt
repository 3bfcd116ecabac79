//! What a command answers by the machines of a text.
ghost use Rattle.std.specs.Prelude.{◌≡◌, All, List, Option, map, IfOk, true};
ghost use Rattle.swreq_subst.specs.Calls.{IsCallIn, call_by};
ghost use Rattle.swreq_valid.specs.swreq_symbols.Texts.{world_of};
ghost use Rattle.swreq_valid.specs.swreq_watch.declared.events.Event.{Event};
ghost use Rattle.swreq_check.specs.{Contents.{AreCalls, AreFamilies, PrintsPieces}, CallLines.{AnswersCalls}};
ghost use Rattle.swreq_reply.specs.{Commands.{content_of}, Inputs.{Parts}, Outputs.{IsOutput}, Replies.{FinishesAfter, Replies}, Requests.{printed_of}, Stages.{world_in}, Verdict.{ChecksMachines}};

use crate::commands::content_of;
use crate::outcome::{Outcome, cut_short, limits_of, unchecked, unread, unresolved};
use crate::printing::{MadePieces, output};
use crate::request::second_at;
use crate::stages::{Accepted, Resolved};
use std::alloc::AllocError;
use swreq_check::{
    Asked, Content, Minimising, Passed, check, lines_of_calls, lists_wanted, minimised_lines,
    places,
};
use swreq_print::decl::parse_calls;
use swreq_reqsig::{family_text, kept_family};
use swreq_subst::laws::{calls_by_table, names_have_ids};
use swreq_subst::{Call, resolve_calls};
use swreq_text::Seq;
use swreq_valid::symbols::Text;
use swreq_valid::watch::Watch;

/// What is answered by the machines of the text.
pub(crate) fn checked<W: Watch>(
    resolved: Resolved<'_>,
    watch: &mut W,
) -> Result<Outcome, AllocError>
    requires { ChecksMachines resolved.request.line }
    ensures { Replies resolved.entry.request.line resolved.entry.request.parts.input
        (W.told watch.old) (W.told watch.new) result }
{
    let Resolved {
        request: r,
        world,
        mut table,
    } = resolved;
    let content = content_of(r.line);
    let text = Text {
        world,
        table: &table,
    };
    let places = places(r.alloc, &text, content)?;
    let asked = Asked {
        world,
        content,
        places: &places,
        limits: limits_of(r.line),
    };
    match check(r.alloc, &mut table, &asked, watch) {
        Ok(checked) => {
            let accepted = Accepted {
                request: r,
                world,
                table,
                checked,
            };
            finish(accepted, watch)
        }
        Err(e) => unchecked(r, world, &e),
    }
}

/// What is answered after the check, where nothing refuses the source text.
fn finish<W: Watch>(accepted: Accepted<'_>, watch: &mut W) -> Result<Outcome, AllocError>
    requires { ChecksMachines accepted.resolved.request.line }
    ensures { FinishesAfter accepted.entry (W.told watch.old) (W.told watch.new) result }
{
    let r = accepted.request;
    match content_of(r.line) {
        Content::Families => families(&accepted, watch),
        Content::Calls => called(accepted),
        _ => pieces(accepted, watch),
    }
}

/// What is answered by the requirement signatures of the protocols.
fn families<W: Watch>(accepted: &Accepted<'_>, watch: &mut W) -> Result<Outcome, AllocError>
    requires { AreFamilies (printed_of accepted.now.resolved.request) }
    ensures { FinishesAfter accepted.now (W.told watch.old) (W.told watch.new) result }
{
    let r = accepted.request;
    let text = Text {
        world: accepted.world,
        table: &accepted.table,
    };
    match kept_family(r.alloc, &text, limits_of(r.line), watch) {
        Ok(family) => {
            let mut out = Vec::new(r.alloc);
            family_text(r.alloc, &text, &family, &mut out)?;
            Ok(Outcome {
                status: 0,
                output: Seq::new(out),
            })
        }
        Err(failed) => cut_short(r, accepted.world, &failed),
    }
}

/// What is answered of the calls in the second part.
fn called(mut accepted: Accepted<'_>) -> Result<Outcome, AllocError>
    requires { AreCalls (printed_of accepted.resolved.request) }
    ensures { (told : Option (List Event)) → FinishesAfter accepted.entry told told result }
{
    let r = accepted.request;
    let world = accepted.world;
    names_have_ids(r.parts.source);
    calls_by_table();
    match parse_calls(r.alloc, r.parts.input, second_at(r)) {
        Ok(written) => {
            match resolve_calls(r.alloc, world, &mut accepted.table, r.parts.input, &written) {
                Ok(calls) => answered_calls(accepted, &calls),
                Err(e) => unresolved(r.alloc, e),
            }
        }
        Err(e) => unread(r.alloc, e),
    }
}

/// What is answered of calls of which no name is refused.
fn answered_calls(accepted: Accepted<'_>, calls: &[Call]) -> Result<Outcome, AllocError>
    requires { All (IsCallIn accepted.resolved.table accepted.resolved.world) calls.now }
    ensures { IfOk result (λ o. (o.status ≡ 0) × AnswersCalls (world_in accepted.entry.resolved)
        (map (call_by accepted.entry.resolved.table) calls.now) o.output) }
{
    let Accepted {
        request: r,
        world,
        mut table,
        checked,
    } = accepted;
    let passed = Passed {
        alloc: r.alloc,
        world,
        protocols: &checked.protocols,
        limits: limits_of(r.line),
    };
    let lines = lines_of_calls(&passed, &mut table, calls)?;
    Ok(Outcome {
        status: 0,
        output: Seq::new(lines),
    })
}

/// What is answered by pieces of machines and minimised lists.
fn pieces<W: Watch>(accepted: Accepted<'_>, watch: &mut W) -> Result<Outcome, AllocError>
    requires { PrintsPieces (printed_of accepted.resolved.request) }
    ensures { FinishesAfter accepted.entry (W.told watch.old) (W.told watch.new) result }
{
    let Accepted {
        request: r,
        world,
        mut table,
        checked,
    } = accepted;
    let content = content_of(r.line);
    let text = Text {
        world,
        table: &table,
    };
    let wanted = lists_wanted(r.alloc, &text, content)?;
    let passed = Passed {
        alloc: r.alloc,
        world,
        protocols: &checked.protocols,
        limits: limits_of(r.line),
    };
    let lists = Minimising {
        passed,
        content,
        wanted: &wanted,
    };
    match minimised_lines(&lists, &mut table, watch) {
        Ok(lines) => {
            let grown = Text {
                world,
                table: &table,
            };
            let made = MadePieces {
                alloc: r.alloc,
                text: &grown,
                content,
                pieces: &checked.pieces,
                lists: &lines,
            };
            answered(&made)
        }
        Err(failed) => cut_short(r, world, &failed),
    }
}

/// What the command prints, with status 0.
fn answered(made: &MadePieces<'_>) -> Result<Outcome, AllocError>
    ensures { IfOk result (λ o. (o.status ≡ 0) × ((parts : Parts)
        → IsOutput (world_of made.now.text) true made.now.content parts o.output)) }
{
    let output = output(made)?;
    Ok(Outcome {
        status: 0,
        output: Seq::new(output),
    })
}

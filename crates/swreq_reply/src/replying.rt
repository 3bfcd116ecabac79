//! What a command answers of an input.
ghost use Rattle.std.specs.Prelude.{◌≡◌, List, IfOk, OnErr};
ghost use Rattle.swreq_print.specs.swreq_decl.Skeletons.{StandsFor};
ghost use Rattle.swreq_valid.specs.swreq_watch.declared.events.Event.{Event};
ghost use Rattle.swreq_reply.specs.{declared.outcome.Outcome.{Outcome}, Commands.{content_of}, Replies.{IsToldVerdict, IsVerdictAlone, Replies, WasToldPart}, Requests.{HasCount, printed_of}, Verdict.{IsRefused, answered_text}};
ghost use Rattle.swreq_check.specs.Contents.{AreJudgements};

use crate::commands::content_of;
use crate::finishing::checked;
use crate::laws::one_verdict;
use crate::outcome::{Outcome, refused, unread, unresolved};
use crate::request::{Request, parts_of, second_at};
use crate::stages::Resolved;
use std::alloc::{AllocError, Global};
use swreq_check::Content;
use swreq_lines::LinesErr;
use swreq_print::RefusalKind;
use swreq_print::decl::{Skeleton, one_skeleton, parse};
use swreq_print::laws::names_tell_ids_apart;
use swreq_print::param::ParamTable;
use swreq_text::Seq;
use swreq_valid::lex::TEXT_LIMIT;
use swreq_valid::watch::Watch;
use swreq_valid::world::World;
use swreq_verify::verify;
use swreq_words::{CommandLine, Input};

/// What a command answers of an input; of `gen` the input is the generated text, and the one that is given is not looked at.
///
/// An input is refused, with its line and status 1, where it is too long, lacks the second part that the command reads, is not in the
/// language, its names do not resolve, a protocol inherits itself, or a side of a requirement is no type parameter, and then where its
/// second part does not fit, or stands for no calls, or a name of these is refused; with status 3 where a completion passes a limit before
/// that, in minimising, or in finding requirement signatures; `--trace` puts the lines of the trace after it. Other inputs have status 0
/// and what the command prints. The watcher is told the events of the rounds. Err says that memory ran out.
pub fn reply<W: Watch>(
    alloc: Global,
    line: &CommandLine,
    text: &[u8],
    watch: &mut W,
) -> Result<Outcome, AllocError>
    requires count { HasCount line.now }
    ensures verdict { IfOk result (IsToldVerdict line.now (answered_text line.now text.now)
        (W.told watch.old) (W.told watch.new)) }
    ensures told_part { OnErr result (WasToldPart line.now (answered_text line.now text.now)
        (W.told watch.old) (W.told watch.new)) }
    ensures refused { (o : Outcome) (told : List Event)
        → IsRefused line.now (answered_text line.now text.now) o told
        → IfOk result (λ answer. answer ≡ o) }
{
    match line.command.input() {
        Input::Nothing => {
            let generated = swreq_gen::text(alloc, line.count)?;
            read(alloc, line, &generated, watch)
        }
        _ => read(alloc, line, text, watch),
    }
}

/// Reads the input, and answers it.
fn read<W: Watch>(
    alloc: Global,
    line: &CommandLine,
    input: &[u8],
    watch: &mut W,
) -> Result<Outcome, AllocError>
    ensures reply { Replies line.now input.now (W.told watch.old) (W.told watch.new) result }
    ensures refused { (o : Outcome) (told : List Event) → IsRefused line.now input.now o told
        → IfOk result (λ answer. answer ≡ o) }
{
    if input.len() > TEXT_LIMIT {
        return refused(alloc, RefusalKind::TooLarge);
    }
    match parts_of(line.command, input) {
        None => refused(alloc, RefusalKind::MissingPart),
        Some(parts) => {
            let request = Request { alloc, line, parts };
            one_verdict(input, parts.source, second_at(&request));
            with_source(&request, watch)
        }
    }
}

/// What is answered of the source text.
fn with_source<W: Watch>(r: &Request<'_>, watch: &mut W) -> Result<Outcome, AllocError>
    ensures { Replies r.now.line r.now.parts.input (W.told watch.old)
        (W.told watch.new) result }
{
    match parse(r.alloc, r.parts.source) {
        Ok(skeleton) => with_skeleton(r, &skeleton, watch),
        Err(e) => unread(r.alloc, e),
    }
}

/// What is answered where this skeleton stands for the source text. Its type parameters get a table of their own.
fn with_skeleton<W: Watch>(
    r: &Request<'_>,
    skeleton: &Skeleton,
    watch: &mut W,
) -> Result<Outcome, AllocError>
    requires { StandsFor r.now.parts.source skeleton.now }
    ensures { Replies r.now.line r.now.parts.input (W.told watch.old) (W.told watch.new) result }
{
    one_skeleton(r.parts.source);
    let mut table = ParamTable::new(r.alloc);
    match World::resolve(r.alloc, r.parts.source, skeleton, &mut table) {
        Ok(world) => {
            let resolved = Resolved {
                request: r,
                world: &world,
                table,
            };
            with_world(resolved, watch)
        }
        Err(e) => unresolved(r.alloc, e),
    }
}

/// What is answered where the source text has a world.
fn with_world<W: Watch>(resolved: Resolved<'_>, watch: &mut W) -> Result<Outcome, AllocError>
    ensures { Replies resolved.entry.request.line resolved.entry.request.parts.input
        (W.told watch.old) (W.told watch.new) result }
{
    let r = resolved.request;
    match content_of(r.line) {
        Content::Judgements => judged(resolved),
        _ => checked(resolved, watch),
    }
}

/// What the checker of derivations says of the second part, with nothing told.
fn judged(resolved: Resolved<'_>) -> Result<Outcome, AllocError>
    requires { AreJudgements (printed_of resolved.request) }
    ensures { IfOk result
        (IsVerdictAlone resolved.entry.request.line resolved.entry.request.parts.input) }
{
    let Resolved {
        request: r,
        world,
        mut table,
    } = resolved;
    names_tell_ids_apart(r.parts.source);
    let mut out = Vec::new(r.alloc);
    match verify(r.alloc, world, &mut table, r.parts.second, &mut out) {
        Ok(()) => Ok(Outcome {
            status: 0,
            output: Seq::new(out),
        }),
        Err(LinesErr::Syntax { line }) => refused(r.alloc, RefusalKind::DerivationSyntax { line }),
        Err(LinesErr::Memory) => Err(AllocError),
    }
}

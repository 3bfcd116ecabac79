//! A status and what is printed with it, and that of each refusal.
ghost use Rattle.std.specs.Prelude.{◌≡◌, ◌≢◌, IfOk};
ghost use Rattle.swreq_print.specs.swreq_decl.declared.refusal.ParseErr.TheVariants as grammar;
ghost use Rattle.swreq_valid.specs.swreq_resolve.declared.refusal.NameErr.TheVariants as names;
ghost use Rattle.swreq_valid.specs.declared.refused.Refused.TheVariants as machines;
ghost use Rattle.swreq_reply.specs.{Reports.{name_refusal, refusal_of}, Verdict.{IsStopOf, limits_of, machine_outcome, refused_with, stopped_with}};

use crate::refusal::{limit_refusal, name_refusal, refusal_of};
use crate::request::Request;
use std::alloc::{AllocError, Global};
use swreq_print::decl::ParseErr;
use swreq_print::{RefusalKind, refusal_text, trace_text};
use swreq_text::Seq;
use swreq_valid::Refused;
use swreq_valid::complete::{Failed, Limits, Which};
use swreq_valid::resolve::NameErr;
use swreq_valid::rule::Rule;
use swreq_valid::world::World;
use swreq_words::CommandLine;

/// A status and what is printed with it.
#[derive(Debug, Drop, PartialEq, Eq)]
pub struct Outcome {
    pub status: u8,
    pub output: Seq<u8>,
}

/// The outcome of an input that is refused: the line of the refusal, with status 1.
pub(crate) fn refused(alloc: Global, refusal: RefusalKind) -> Result<Outcome, AllocError>
    ensures { IfOk result (λ o. o ≡ refused_with refusal) }
{
    let mut line = Vec::new(alloc);
    refusal_text(alloc, &refusal, &mut line)?;
    Ok(Outcome {
        status: 1,
        output: Seq::new(line),
    })
}

/// What is answered where a round passes this limit, with this trace.
fn stopped(
    r: &Request<'_>,
    world: &World,
    which: Which,
    trace: &[Rule],
) -> Result<Outcome, AllocError>
    ensures { IfOk result
        (λ o. o ≡ stopped_with r.now.line world.now.lexicon which trace.now) }
{
    let mut out = Vec::new(r.alloc);
    refusal_text(r.alloc, &limit_refusal(limits_of(r.line), which), &mut out)?;
    if r.line.trace {
        trace_text(r.alloc, world.lexicon(), trace, &mut out)?;
    }
    Ok(Outcome {
        status: 3,
        output: Seq::new(out),
    })
}

/// The limits that the command line sets.
pub(crate) fn limits_of(line: &CommandLine) -> Limits
    ensures { result ≡ limits_of line.now }
{
    Limits {
        max_rules: line.max_rules,
        max_length: line.max_length,
    }
}

/// What is answered where the text could not be read.
pub(crate) fn unread(alloc: Global, e: ParseErr) -> Result<Outcome, AllocError>
    ensures { IfOk result (λ o. (e ≢ grammar.Memory) × (o ≡ refused_with (refusal_of e))) }
{
    match e {
        ParseErr::Memory => Err(AllocError),
        e => refused(alloc, refusal_of(e)),
    }
}

/// What is answered where the names have this error.
pub(crate) fn unresolved(alloc: Global, e: NameErr) -> Result<Outcome, AllocError>
    ensures { IfOk result (λ o. (e ≢ names.Memory) × (o ≡ refused_with (name_refusal e))) }
{
    match e {
        NameErr::Memory => Err(AllocError),
        e => refused(alloc, name_refusal(e)),
    }
}

/// What is answered where the machines have this error.
pub(crate) fn unchecked(r: &Request<'_>, world: &World, e: &Refused) -> Result<Outcome, AllocError>
    ensures { IfOk result (λ o.
        (e.now ≢ machines.Memory) × (o ≡ machine_outcome r.now.line world.now.lexicon e.now)) }
{
    match e {
        Refused::Memory => Err(AllocError),
        Refused::NotATypeParameter { at } => {
            refused(r.alloc, RefusalKind::NotATypeParameter { at: *at })
        }
        Refused::Limit { which, trace } => stopped(r, world, *which, trace.items()),
    }
}

/// What is answered where minimising, or finding requirement signatures, fails so.
pub(crate) fn cut_short(
    r: &Request<'_>,
    world: &World,
    failed: &Failed,
) -> Result<Outcome, AllocError>
    ensures { IfOk result (IsStopOf r.now.line world.now.lexicon failed.now) }
{
    match failed {
        Failed::Memory => Err(AllocError),
        Failed::Limit { which, trace } => stopped(r, world, *which, trace.items()),
    }
}

//! What is refused of calls that no text says.
ghost use Rattle.swreq_subst.specs.Saying.{HaveIds};

use crate::worlds::world_of;
use std::alloc::{AllocError, Global};
use std::test::Fail;
use swreq_machine::decl::{CallDecl, Span, TypeDecl};
use swreq_machine::param::ParamTable;
use swreq_machine::world::World;
use swreq_subst::resolve_calls;
use swreq_text::Seq;

/// What is named first in `V f k`, this many times.
fn named_first(alloc: Global, count: usize) -> Result<Vec<TypeDecl>, AllocError> {
    let mut types = Vec::new(alloc);
    for _ in 0..count {
        types.push(TypeDecl {
            head: Span { start: 0, end: 1 },
            steps: Seq::new(Vec::new(alloc)),
        })?;
    }
    Ok(types)
}

/// A call of f by what is named last in `V f k`, with these types.
fn backwards(types: Vec<TypeDecl>) -> CallDecl {
    CallDecl {
        caller_outer: None,
        caller: Span { start: 4, end: 5 },
        callee_outer: None,
        callee: Span { start: 2, end: 3 },
        args: Seq::new(types),
    }
}

/// Writes what is refused of calls, over a world.
fn put_refusal(
    alloc: Global,
    world: &World,
    table: &mut ParamTable,
    calls: &[CallDecl],
    out: &mut String,
) -> Result<(), Fail>
    requires { HaveIds world.now }
{
    match resolve_calls(alloc, world, table, b"V f k", calls) {
        Ok(_) => Err("no refusal".into()),
        Err(refusal) => Ok(write!(out, "{refusal}")?),
    }
}

/// Writes what is refused of calls, over the table of a world.
fn put_in(
    alloc: Global,
    calls: &[CallDecl],
    table: &mut ParamTable,
    out: &mut String,
) -> Result<(), Fail> {
    let world = world_of(alloc, "func f<T>()", table)?;
    put_refusal(alloc, &world, table, calls, out)
}

/// Writes what is refused of calls.
fn put_refused(alloc: Global, calls: &[CallDecl], out: &mut String) -> Result<(), Fail> {
    let mut table = ParamTable::new(alloc);
    put_in(alloc, calls, &mut table, out)
}

/// Writes what is refused of a call with this many types.
fn put_refused_with(alloc: Global, count: usize, out: &mut String) -> Result<(), Fail> {
    let types = named_first(alloc, count)?;
    put_refused(alloc, &[backwards(types)], out)
}

/// By name, how many types a call is given, and what is refused of it.
const CALLS: &[(&str, usize, &str)] = &[
    ("as many types as f has", 1, "unknown signature at 4"),
    ("more types than f has", 2, "wrong number of arguments at 2"),
];

#[test]
fn types_of_an_unknown_caller_are_counted_and_not_looked_at(rt: HostRuntime) -> Result<(), Fail> {
    for (name, count, wanted) in CALLS {
        let mut refused = String::new(rt.alloc());
        put_refused_with(rt.alloc(), *count, &mut refused)?;
        assert_eq!(rt; refused.as_str(), *wanted, "{name}");
    }
    Ok(())
}

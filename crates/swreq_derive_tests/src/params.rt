//! Type parameters and their ids.
ghost use Rattle.std.specs.Prelude.{◌≡◌, ◌<◌, length};
ghost use Rattle.swreq_derive.specs.swreq_param.Tables.{IsOf};

use std::alloc::{AllocError, Global};
use std::cmp::Ordering;
use std::process::Abort;
use swreq_derive::param::{AssocId, NameId, ParamId, ParamTable, Step, TermId};

const A: Step = Step::Name(NameId { rank: 0 });

/// Each member by the place of its base.
const MEMBERS: &[(usize, Step)] = &[
    (0, A),
    (1, A),
    (0, Step::Bound(AssocId { rank: 0 })),
    (1, Step::Bound(AssocId { rank: 0 })),
    (0, Step::Bound(AssocId { rank: 1 })),
];

/// Puts three generic parameters into the table.
fn add_params(table: &mut ParamTable) -> Result<(), AllocError> {
    for index in 0..3 {
        table.param(ParamId { depth: 0, index })?;
    }
    Ok(())
}

/// Puts the members into the table, each after its base.
fn add_members(table: &mut ParamTable) -> Result<(), AllocError> {
    for (place, step) in MEMBERS {
        if *place < table.len() {
            table.member(TermId { place: *place }, *step)?;
        }
    }
    Ok(())
}

/// Puts the generic parameters and the members into the table.
fn fill(table: &mut ParamTable) -> Result<(), AllocError> {
    add_params(table)?;
    add_members(table)
}

/// How two type parameters compare outside of the table.
fn compare_owned(
    alloc: Global,
    table: &ParamTable,
    t: TermId,
    u: TermId,
) -> Result<Ordering, AllocError>
    requires t { IsOf table.now t }
    requires u { IsOf table.now u }
{
    let t = table.owned(alloc, t)?;
    let u = table.owned(alloc, u)?;
    Ok(t.cmp(&u))
}

/// Each by name, and how it compares with the last one. Generic parameters come before members, and of three members with one base, those
/// bound to associated types come in their order, and then the name.
const ORDERS: [(&str, Ordering); 8] = [
    ("the base of the last one", Ordering::Less),
    ("the second generic parameter", Ordering::Less),
    ("the third generic parameter", Ordering::Less),
    ("a name on the same base", Ordering::Greater),
    ("a name on a later base", Ordering::Greater),
    (
        "an earlier associated type on the same base",
        Ordering::Less,
    ),
    (
        "an earlier associated type on a later base",
        Ordering::Greater,
    ),
    ("the last one itself", Ordering::Equal),
];

/// Whether the two compare so in the table and outside of it.
fn compare_so(
    alloc: Global,
    table: &ParamTable,
    t: TermId,
    u: TermId,
    wanted: Ordering,
) -> Result<bool, AllocError>
    requires t { IsOf table.now t }
    requires u { IsOf table.now u }
{
    let owned = compare_owned(alloc, table, t, u)?;
    Ok(owned == wanted && table.compare(t, u) == wanted)
}

/// Asserts how each compares with the last one.
fn assert_orders(rt: &impl Abort, alloc: Global, table: &ParamTable) -> Result<(), AllocError> {
    assert!(rt; table.len() == 8);
    let last = TermId { place: 7 };
    for place in 0..8 {
        let (name, wanted) = ORDERS[place];
        let holds = compare_so(alloc, table, TermId { place }, last, wanted)?;
        assert!(rt; holds, "{name}");
    }
    Ok(())
}

#[test]
fn type_parameters_are_compared(rt: HostRuntime) -> Result<(), AllocError> {
    let mut table = ParamTable::new(rt.alloc());
    fill(&mut table)?;
    assert_orders(&rt, rt.alloc(), &table)
}

//! The numbers of the paths that are given.
ghost use Rattle.swreq_machine.specs.swreq_derive.{declared.requirements.Requirement.TheVariants.{Conf}, WellFormed.{AreProtocolsWellFormed}};
ghost use Rattle.swreq_machine.specs.swreq_symbols.{Known.{IsQueryIn}, Meaning.{facts_of}, Texts.{IsRequirementOfText, world_of}};
ghost use Rattle.swreq_confpath.specs.Searches.{IsMachineFor};

use crate::worlds::{machine_of, protocols_of, world_of};
use std::alloc::Global;
use std::test::Fail;
use swreq_confpath::{ConfPath, shortest};
use swreq_machine::Machine;
use swreq_machine::derive::Requirement;
use swreq_machine::lowering::{Asks, FuncId, Query};
use swreq_machine::param::{ParamTable, ProtoId, TermId};
use swreq_machine::symbols::Text;
use swreq_machine::valid::CheckedText;

/// Writes the numbers of a path, with blanks between them, as a line.
fn put_numbers(path: &ConfPath, out: &mut String) -> Result<(), Fail> {
    write!(out, "{}", path.first)?;
    for step in path.steps.items() {
        write!(out, " {step}")?;
    }
    write!(out, "\n")?;
    Ok(())
}

/// Writes the numbers of the path that is given for a conformance.
fn put_given(
    alloc: Global,
    text: &Text<'_>,
    machine: &Machine,
    asked: (FuncId, TermId, ProtoId),
    out: &mut String,
) -> Result<(), Fail>
    requires machine { IsMachineFor text.now asked.0 machine.now }
    requires asked { IsRequirementOfText text.now (Conf asked.1 asked.2) }
{
    let (f, subject, proto) = asked;
    if !machine.derives(alloc, text, Requirement::Conf { subject, proto })? {
        return Err("no path".into());
    }
    let path = shortest(alloc, text, machine, f, subject, proto)?;
    put_numbers(&path, out)
}

/// Writes the numbers of the path that is given for the conformance that a query asks.
fn put_asked(
    alloc: Global,
    checked: &CheckedText<'_, '_>,
    query: Query,
    out: &mut String,
) -> Result<(), Fail>
    requires formed { AreProtocolsWellFormed (facts_of (world_of checked.now.text)) }
    requires query { IsQueryIn checked.now.text.table.now checked.now.text.world.now query }
{
    match query.asks {
        Asks::Requirement(r) => match r {
            Requirement::Conf { subject, proto } => {
                let machine = machine_of(alloc, checked, query.f)?;
                let asked = (query.f, subject, proto);
                put_given(alloc, &checked.text, &machine, asked, out)
            }
            _ => Err("another requirement".into()),
        },
        _ => Err("another query".into()),
    }
}

/// Writes the numbers for the queries of a world.
fn put_all(alloc: Global, checked: &CheckedText<'_, '_>, out: &mut String) -> Result<(), Fail>
    requires { AreProtocolsWellFormed (facts_of (world_of checked.now.text)) }
{
    let queries = checked.text.world.queries();
    for k in 0..queries.len() {
        put_asked(alloc, checked, queries[k], out)?;
    }
    Ok(())
}

/// Writes the numbers for the queries of a world.
fn put_over(alloc: Global, text: &Text<'_>, out: &mut String) -> Result<(), Fail> {
    let protocols = &protocols_of(alloc, text)?;
    let text = *text;
    put_all(alloc, &CheckedText { text, protocols }, out)
}

/// Writes the numbers for the queries of a text, over the table.
fn put_in(alloc: Global, text: &str, table: &mut ParamTable, out: &mut String) -> Result<(), Fail> {
    let world = world_of(alloc, text, table)?;
    put_over(
        alloc,
        &Text {
            world: &world,
            table,
        },
        out,
    )
}

/// Writes the numbers for the queries of a text.
fn put_within(alloc: Global, text: &str, out: &mut String) -> Result<(), Fail> {
    let mut table = ParamTable::new(alloc);
    put_in(alloc, text, &mut table, out)
}

/// Conformances of a list and of protocols, with other requirements before and between them.
const TEXT: &str = "\
protocol Base { }
protocol L: Base { }
protocol R: Base { }
protocol D: AnyObject, R, L { associatedtype A: AnyObject, D }
func f<T: AnyObject, U: D>() where U == T, T: L
query f(T : R)
query f(T : L)
query f(U.A.A : Base)
";

/// What is no conformance counts too.
#[test]
fn paths_have_numbers_from_one(rt: HostRuntime) -> Result<(), Fail> {
    let mut numbers = String::new(rt.alloc());
    put_within(rt.alloc(), TEXT, &mut numbers)?;
    assert_eq!(rt; numbers.as_str(), "2 2\n4\n2 5 5 2 1\n");
    Ok(())
}

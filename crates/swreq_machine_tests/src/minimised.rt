//! What minimising a signature takes.
ghost use Rattle.std.specs.Prelude.{◌<◌, length};
ghost use Rattle.swreq_machine.specs.swreq_symbols.Known.{IsTextOver};
ghost use Rattle.swreq_machine.specs.swreq_world.ByTable.{world_by};
ghost use Rattle.swreq_machine.specs.swreq_valid.{Protocols.{AreRulesOf}, Rounds.{last_rules}};

use crate::worlds::{LIMITS, limits_of, world_of};
use std::alloc::Global;
use std::test::Fail;
use swreq_machine::Machine;
use swreq_machine::complete::{Failed, Limits};
use swreq_machine::derive::Requirement;
use swreq_machine::lowering::FuncId;
use swreq_machine::param::ParamTable;
use swreq_machine::symbols::Text;
use swreq_machine::valid::{CheckedText, Protocols};
use swreq_machine::watch::{Quiet, Recorder};
use swreq_machine::world::World;
use swreq_minimal::minimise;

/// How many requirements minimising keeps, or None where it passes a limit.
fn count_of(kept: Result<Vec<Requirement>, Failed>) -> Result<Option<usize>, Fail> {
    match kept {
        Ok(list) => Ok(Some(list.len())),
        Err(Failed::Limit { .. }) => Ok(None),
        Err(Failed::Memory) => Err("no memory".into()),
    }
}

/// How many requirements minimising keeps of the list of the first signature, or None where it passes a limit.
fn count_over(
    alloc: Global,
    world: &World,
    table: &mut ParamTable,
    protocols: &Protocols,
    limits: Limits,
    watch: &mut Recorder,
) -> Result<Option<usize>, Fail>
    requires text { IsTextOver table.old world.now }
    requires protocols { AreRulesOf (world_by table.old world.now)
        (last_rules protocols.now.rounds) }
    requires some { 0 < length world.now.signatures }
{
    let text = Text { world, table };
    let f = FuncId { place: 0 };
    let checked = CheckedText { text, protocols };
    let machine = Machine::of_signature(alloc, &checked, f, LIMITS, &mut Quiet)?;
    count_of(minimise(alloc, world, table, protocols, &machine, limits, watch))
}

/// How many requirements minimising keeps of the list of the first signature of a world, or None where it passes a limit.
fn count_of_first(
    alloc: Global,
    world: &World,
    table: &mut ParamTable,
    limits: Limits,
    watch: &mut Recorder,
) -> Result<Option<usize>, Fail>
    requires text { IsTextOver table.old world.now }
{
    if world.functions() == 0 {
        return Err("no signature".into());
    }
    let text = Text { world, table };
    let protocols = Protocols::build(alloc, &text, LIMITS, &mut Quiet)?;
    count_over(alloc, world, table, &protocols, limits, watch)
}

/// How many requirements minimising keeps of the list of the first signature of a text, over the table, or None where it passes a limit.
fn count_in(
    alloc: Global,
    text: &[u8],
    table: &mut ParamTable,
    limits: Limits,
    watch: &mut Recorder,
) -> Result<Option<usize>, Fail> {
    let world = world_of(alloc, text, table)?;
    count_of_first(alloc, &world, table, limits, watch)
}

/// How many requirements minimising keeps of the list of the first signature of a text, where a completion may have `max_rules` rules, or
/// None where it passes a limit.
fn count_within(
    alloc: Global,
    text: &str,
    max_rules: u32,
    watch: &mut Recorder,
) -> Result<Option<usize>, Fail> {
    let limits = limits_of(max_rules)?;
    let mut table = ParamTable::new(alloc);
    count_in(alloc, text.as_bytes(), &mut table, limits, watch)
}

const ONE: &str = "protocol N { associatedtype Next: N } func f<T: N>()";

const TWO: &str = "protocol N { associatedtype Next: N } func f<T: N, U: N>()";

/// A text with a conformance that a same-type and a declaration imply.
const IMPLIED: &str = "\
protocol Q { }
protocol P { associatedtype A: Q }
func f<T: P, U: Q>() where T.A == U
";

/// Texts by name, each with the limit of rules that minimising has, and how many requirements it keeps.
///
/// The rules of `T : P` and `U : Q` are eight: five of the protocols, two of `T : P`, and one of `U : Q`. Those of `T : P` and `T.A == U` are
/// nine, so a completion of them passes this limit, but a loop shows that `U : Q` follows from them.
const TEXTS: &[(&str, &str, u32, Option<usize>)] = &[
    ("one conformance within the limit", ONE, 5, Some(1)),
    ("two conformances within the limit", TWO, 7, Some(2)),
    ("two conformances past the limit", TWO, 6, None),
    (
        "a loop shows what a completion past the limit would",
        IMPLIED,
        8,
        Some(2),
    ),
];

/// The rules of each list that minimising meets grow from those of another list. So no list is completed from its beginning, and nothing is
/// told.
#[test]
fn minimising_keeps_its_own_limit_and_spares_completions(rt: HostRuntime) -> Result<(), Fail> {
    for (name, text, max_rules, kept) in TEXTS {
        let mut recorder = Recorder::new(rt.alloc());
        let found = count_within(rt.alloc(), text, *max_rules, &mut recorder)?;
        assert_eq!(&rt; found, *kept, "{name}");
    }
    let mut recorder = Recorder::new(rt.alloc());
    count_within(rt.alloc(), IMPLIED, 4000, &mut recorder)?;
    assert_eq!(&rt; recorder.events().len(), 0);
    Ok(())
}

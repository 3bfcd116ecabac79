//! What a caller of the library gets of a small text: answers, a minimised list, and a reduced system.
ghost use Rattle.std.specs.Prelude.{◌≡◌, ◌<◌, length};
ghost use Rattle.swreq_machine.specs.swreq_map.Follows.{IsMapOf};
ghost use Rattle.swreq_machine.specs.swreq_derive.WellFormed.{AreProtocolsWellFormed};
ghost use Rattle.swreq_machine.specs.swreq_symbols.{Known.{IsQueryIn, IsTextOver}, Meaning.{facts_of}};
ghost use Rattle.swreq_machine.specs.swreq_valid.{Protocols.{AreRulesOf}, Rounds.{last_rules}};
ghost use Rattle.swreq_machine.specs.swreq_world.ByTable.{world_by};
ghost use Rattle.swreq_query.specs.Signatures.{IsMachineOfSignature};

use crate::worlds::{LIMITS, machine_of, protocols_of, world_of};
use std::alloc::{AllocError, Global};
use std::test::Fail;
use swreq_machine::Machine;
use swreq_machine::lowering::{Asks, FuncId, Query};
use swreq_machine::map::PropertyMap;
use swreq_machine::param::ParamTable;
use swreq_machine::symbols::Text;
use swreq_machine::valid::{CheckedText, Protocols};
use swreq_machine::watch::Quiet;
use swreq_machine::world::World;
use swreq_query::{answer, minimised_line, room_for, system_text};

/// What is printed of a signature.
#[derive(Clone, Copy)]
enum Printed {
    /// The answers to the queries of the text.
    Answers,
    /// Its minimised list.
    Minimised,
    /// Its reduced system.
    System,
}

/// A signature of a world, with its machine and the rules of the protocols.
#[derive(Clone, Copy)]
struct Own<'a, 'b> {
    alloc: Global,
    world: &'a World,
    protocols: &'b Protocols,
    machine: &'a Machine<'b>,
    f: FuncId,
}

/// Appends the line that answers a query of a requirement or a type.
fn put_answer(
    own: &Own<'_, '_>,
    text: &Text<'_>,
    map: &PropertyMap,
    query: Query,
    out: &mut Vec<u8>,
) -> Result<(), Fail>
    requires map { IsMapOf (last_rules own.now.machine.now.rounds) map.now }
    requires protocols { map.now.protocols ≡ length text.now.world.now.lexicon.protocols }
    requires query { IsQueryIn text.now.table.now text.now.world.now query }
{
    match query.asks {
        Asks::Signature => Err("a query of a signature".into()),
        Asks::Reduced(_) | Asks::Requirement(_) => {
            let mut scratch = room_for(own.alloc, text, query.asks)?;
            answer(
                own.alloc,
                text,
                own.machine,
                map,
                query.asks,
                &mut scratch,
                out,
            )?;
            Ok(())
        }
    }
}

/// Appends the lines that answer the queries of the world.
fn put_each(
    own: &Own<'_, '_>,
    text: &Text<'_>,
    map: &PropertyMap,
    out: &mut Vec<u8>,
) -> Result<(), Fail>
    requires map { IsMapOf (last_rules own.now.machine.now.rounds) map.now }
    requires protocols { map.now.protocols ≡ length text.now.world.now.lexicon.protocols }
{
    let queries = text.world.queries();
    for k in 0..queries.len() {
        put_answer(own, text, map, queries[k], out)?;
    }
    Ok(())
}

/// Appends the lines that answer the queries of the world, by the machine of the signature.
fn put_answers(own: &Own<'_, '_>, text: &Text<'_>, out: &mut Vec<u8>) -> Result<(), Fail> {
    let map = PropertyMap::build(own.alloc, own.machine.rules(), text.world.protocols())?;
    put_each(own, text, &map, out)
}

/// Appends the line of the minimised list of the signature.
fn put_minimised(own: &Own<'_, '_>, table: &mut ParamTable, out: &mut Vec<u8>) -> Result<(), Fail>
    requires text { IsTextOver table.old own.now.world.now }
    requires rules { AreRulesOf (world_by table.old own.now.world.now)
        (last_rules own.now.protocols.now.rounds) }
    requires machine { IsMachineOfSignature table.old own.now.world.now own.now.f
        own.now.machine.now }
{
    minimised_line(
        own.alloc,
        own.world,
        table,
        own.protocols,
        own.machine,
        own.f,
        LIMITS,
        &mut Quiet,
        out,
    )?;
    Ok(())
}

/// Appends the reduced system of the signature.
fn put_system(own: &Own<'_, '_>, text: &Text<'_>, out: &mut Vec<u8>) -> Result<(), Fail>
    requires { IsMachineOfSignature text.now.table.now text.now.world.now own.now.f
        own.now.machine.now }
{
    system_text(own.alloc, text, own.machine, own.f, out)?;
    Ok(())
}

/// Appends what is printed of the signature.
fn put_of(
    own: &Own<'_, '_>,
    table: &mut ParamTable,
    what: Printed,
    out: &mut Vec<u8>,
) -> Result<(), Fail>
    requires text { IsTextOver table.old own.now.world.now }
    requires rules { AreRulesOf (world_by table.old own.now.world.now)
        (last_rules own.now.protocols.now.rounds) }
    requires machine { IsMachineOfSignature table.old own.now.world.now own.now.f
        own.now.machine.now }
{
    let world = own.world;
    match what {
        Printed::Answers => put_answers(own, &Text { world, table }, out),
        Printed::Minimised => put_minimised(own, table, out),
        Printed::System => put_system(own, &Text { world, table }, out),
    }
}

/// Appends what is printed of the first signature of a world, by the rules of its protocols.
fn put_by(
    alloc: Global,
    world: &World,
    table: &mut ParamTable,
    protocols: &Protocols,
    what: Printed,
    out: &mut Vec<u8>,
) -> Result<(), Fail>
    requires text { IsTextOver table.old world.now }
    requires formed { AreProtocolsWellFormed (facts_of (world_by table.old world.now)) }
    requires rules { AreRulesOf (world_by table.old world.now) (last_rules protocols.now.rounds) }
    requires some { 0 < length world.now.signatures }
{
    let f = FuncId { place: 0 };
    let text = Text { world, table };
    let machine = machine_of(alloc, &CheckedText { text, protocols }, f)?;
    let own = Own {
        alloc,
        world,
        protocols,
        machine: &machine,
        f,
    };
    put_of(&own, table, what, out)
}

/// Appends what is printed of the first signature of a world.
fn put_over(
    alloc: Global,
    world: &World,
    table: &mut ParamTable,
    what: Printed,
    out: &mut Vec<u8>,
) -> Result<(), Fail>
    requires { IsTextOver table.old world.now }
{
    if world.functions() == 0 {
        return Err("no signature".into());
    }
    let protocols = protocols_of(alloc, &Text { world, table })?;
    put_by(alloc, world, table, &protocols, what, out)
}

/// Appends what is printed of the first signature of a text, over the table.
fn put_in(
    alloc: Global,
    text: &str,
    table: &mut ParamTable,
    what: Printed,
    out: &mut Vec<u8>,
) -> Result<(), Fail> {
    let world = world_of(alloc, text, table)?;
    put_over(alloc, &world, table, what, out)
}

/// Appends what is printed of the first signature of a text.
fn put_printed(alloc: Global, text: &str, what: Printed, out: &mut Vec<u8>) -> Result<(), Fail> {
    let mut table = ParamTable::new(alloc);
    put_in(alloc, text, &mut table, what, out)
}

/// A text of two protocols and one function. U is the member A of T, so it conforms to Base, and so does T, by inheritance.
const TEXT: &str = "\
protocol Base { }
protocol P: Base { associatedtype A: Base }
func f<T: P, U: Base>() where T: Base, T.A == U
query f(T.A)
query f(U : Base)
query f(U : P)
query f(T : AnyObject)
query f(T.A == U)
query f(U.A : Base)
";

/// U comes before its equal `T.A`, which has a member, and is no P, so `U.A` is no type.
#[test]
fn each_query_is_answered_with_a_line(rt: HostRuntime) -> Result<(), Fail> {
    let mut out = Vec::new(rt.alloc());
    put_printed(rt.alloc(), TEXT, Printed::Answers, &mut out)?;
    let wanted = "τ_0_1\nyes\nno\nno\nyes\ninvalid\n";
    assert_eq!(rt; out.as_slice(), wanted.as_bytes());
    Ok(())
}

#[test]
fn the_minimised_line_lacks_what_follows_from_the_rest(rt: HostRuntime) -> Result<(), Fail> {
    let mut out = Vec::new(rt.alloc());
    put_printed(rt.alloc(), TEXT, Printed::Minimised, &mut out)?;
    let wanted = "<τ_0_0, τ_0_1 where τ_0_0 : P, τ_0_1 == τ_0_0.[P]A>\n";
    assert_eq!(rt; out.as_slice(), wanted.as_bytes());
    Ok(())
}

/// The rules of the text by their left sides, each to the least word of its class.
const SYSTEM: &str = "\
f: 11 rules
  [Base].[Base] => [Base]
  [P].[Base] => [P]
  [P].[P] => [P]
  [P].[P:A] => [P:A]
  [P].A => [P:A]
  [P:A].[Base] => [P:A]
  τ_0_0.[Base] => τ_0_0
  τ_0_0.[P] => τ_0_0
  τ_0_0.[P:A] => τ_0_1
  τ_0_0.A => τ_0_1
  τ_0_1.[Base] => τ_0_1
";

#[test]
fn a_reduced_system_has_its_name_its_number_and_its_rules(rt: HostRuntime) -> Result<(), Fail> {
    let mut out = Vec::new(rt.alloc());
    put_printed(rt.alloc(), TEXT, Printed::System, &mut out)?;
    assert_eq!(rt; out.as_slice(), SYSTEM.as_bytes());
    Ok(())
}

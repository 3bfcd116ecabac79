//! The limits that requirement signatures have of their own.
ghost use Rattle.std.specs.Prelude.{OnOk};
ghost use Rattle.swreq_machine.specs.swreq_derive.WellFormed.{AreProtocolsWellFormed};
ghost use Rattle.swreq_machine.specs.swreq_symbols.{Meaning.{facts_of}, Texts.{world_of}};

use crate::worlds::{LIMITS, limits_of, world_of};
use std::alloc::{AllocError, Global};
use std::test::Fail;
use swreq_machine::complete::{Failed, Limits};
use swreq_machine::param::ParamTable;
use swreq_machine::symbols::Text;
use swreq_machine::valid::Protocols;
use swreq_machine::watch::Quiet;
use swreq_reqsig::laws::valid_sides_are_well_formed;
use swreq_reqsig::{family_text, kept_family};

/// That the protocols of a world are well formed.
fn are_well_formed(alloc: Global, text: &Text<'_>) -> Result<(), Fail>
    ensures { OnOk result (AreProtocolsWellFormed (facts_of (world_of text.now))) }
{
    valid_sides_are_well_formed();
    let _protocols = Protocols::build(alloc, text, LIMITS, &mut Quiet)?;
    Ok(())
}

/// Appends the lines of the family of a world whose protocols are well formed, or why there is none.
fn put_family(
    alloc: Global,
    text: &Text<'_>,
    limits: Limits,
    out: &mut Vec<u8>,
) -> Result<(), AllocError>
    requires { AreProtocolsWellFormed (facts_of (world_of text.now)) }
{
    match kept_family(alloc, text, limits, &mut Quiet) {
        Ok(family) => family_text(alloc, text, &family, out),
        Err(Failed::Limit { .. }) => Ok(out.extend_from_slice(b"limit")?),
        Err(Failed::Memory) => Err(AllocError),
    }
}

/// Appends the lines of the family of a world, or why there is none.
fn put_lines(
    alloc: Global,
    text: &Text<'_>,
    limits: Limits,
    out: &mut Vec<u8>,
) -> Result<(), Fail> {
    are_well_formed(alloc, text)?;
    put_family(alloc, text, limits, out)?;
    Ok(())
}

/// Appends the lines of the family of a text, over the table, or why there is none.
fn put_in(
    alloc: Global,
    text: &[u8],
    table: &mut ParamTable,
    limits: Limits,
    out: &mut Vec<u8>,
) -> Result<(), Fail> {
    let world = world_of(alloc, text, table)?;
    put_lines(
        alloc,
        &Text {
            world: &world,
            table,
        },
        limits,
        out,
    )
}

/// Appends the lines of the family of a text, where a completion may have `max_rules` rules, or why there is none.
fn put_within(alloc: Global, text: &[u8], max_rules: u32, out: &mut Vec<u8>) -> Result<(), Fail> {
    let limits = limits_of(max_rules)?;
    let mut table = ParamTable::new(alloc);
    put_in(alloc, text, &mut table, limits, out)
}

const TEXT: &[u8] = b"protocol N { associatedtype Next: N, N }";

/// By name, the limit of rules that the family has, and its lines.
///
/// Whether the second of two equal requirements follows is asked by the rounds of the first, the last of which bears 5 rules. The first is
/// then unsaid, and no rounds are run for it.
const FAMILIES: &[(&str, u32, &[u8])] = &[
    (
        "the last rule has the number of the limit",
        5,
        b"N: <Self where Self.Next : N>\n",
    ),
    ("the last rule passes the limit", 4, b"limit"),
];

#[test]
fn families_keep_their_own_limit(rt: HostRuntime) -> Result<(), Fail> {
    for (name, max_rules, lines) in FAMILIES {
        let mut out = Vec::new(rt.alloc());
        put_within(rt.alloc(), TEXT, *max_rules, &mut out)?;
        assert_eq!(&rt; out.as_slice(), *lines, "{name}");
    }
    Ok(())
}

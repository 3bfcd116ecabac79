//! What the queries of a text ask, and why they hold.
ghost use Rattle.std.specs.Prelude.{OnOk};
ghost use Rattle.swreq_machine.specs.{swreq_param.Tables.{Extends}, swreq_symbols.Known.{IsQueryIn, IsTextOver}};
ghost use Rattle.swreq_calling.specs.Ready.{IsReady};

use crate::failing::Failed;
use std::alloc::Global;
use swreq_explain::derivation_of;
use swreq_lines::lines_text;
use swreq_machine::Machine;
use swreq_machine::complete::Limits;
use swreq_machine::decl::parse;
use swreq_machine::lowering::{Asks, Query};
use swreq_machine::param::ParamTable;
use swreq_machine::symbols::Text;
use swreq_machine::valid::{CheckedText, Protocols};
use swreq_machine::watch::Quiet;
use swreq_machine::world::World;
use swreq_text::{Source, append_bytes, read_all};

/// The limits of completions.
const LIMITS: Limits = Limits {
    max_rules: 4000,
    max_length: 64,
};

/// Appends the answer to a query, where it asks for a requirement: `yes` with the lines of a derivation, or `no`.
fn put_answer(
    alloc: Global,
    world: &World,
    table: &mut ParamTable,
    protocols: &Protocols,
    q: Query,
    out: &mut Vec<u8>,
) -> Result<(), Failed>
    requires ready { IsReady table.old world.now protocols.now }
    requires query { IsQueryIn table.old world.now q }
    ensures { OnOk result (Extends table.old table.new) }
{
    let Asks::Requirement(r) = q.asks else {
        return Ok(());
    };
    let text = Text { world, table };
    let checked = CheckedText { text, protocols };
    let machine = Machine::of_signature(alloc, &checked, q.f, LIMITS, &mut Quiet)?;
    match derivation_of(alloc, world, table, protocols, &machine, q.f, r)? {
        Some(lines) => {
            append_bytes(out, b"yes\n")?;
            lines_text(alloc, world.lexicon(), table, &lines, out)?;
        }
        None => append_bytes(out, b"no\n")?,
    }
    Ok(())
}

/// The answers to the queries of a text with this world, where the rules of its protocols are completed within these limits.
fn answers_over(
    alloc: Global,
    world: &World,
    table: &mut ParamTable,
    limits: Limits,
) -> Result<Vec<u8>, Failed>
    requires text { IsTextOver table.old world.now }
{
    let text = Text { world, table };
    let built = Protocols::build(alloc, &text, limits, &mut Quiet)?;
    let protocols = &built;
    let mut out = Vec::new(alloc);
    let queries = world.queries();
    for k in 0..queries.len() {
        put_answer(alloc, world, table, protocols, queries[k], &mut out)?;
    }
    Ok(out)
}

/// The answers to the queries of the text that the source has, which may have at most 1,048,576 bytes.
pub(crate) fn answers<S: Source>(alloc: Global, src: &mut S) -> Result<Vec<u8>, Failed> {
    let read = read_all(alloc, src, 1_048_576)?;
    let text: &[u8] = &read;
    let skeleton = parse(alloc, text)?;
    let mut table = ParamTable::new(alloc);
    let world = World::resolve(alloc, text, &skeleton, &mut table)?;
    answers_over(alloc, &world, &mut table, LIMITS)
}

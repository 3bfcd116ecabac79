//! The minimised lists that are wanted, each as its line.
ghost use Rattle.std.specs.Prelude.{◌≡◌, ◌<◌, length, IfErr, IfOk, OnOk};
ghost use Rattle.swreq_machine.specs.swreq_param.Tables.{Extends};
ghost use Rattle.swreq_query.specs.{Minimising.{FailsMinimised, TellsMinimised}, Signatures.{IsMinimisedLine}};
ghost use Rattle.swreq_machine.specs.swreq_world.Worlds.{signature_at};
ghost use Rattle.swreq_check.specs.{Listing.{wants}, Passed.{HasPassed, rules_of, world_of}, Made.{AreLinesKept, IsLineKept, line_at}, Told.{FailsAt, MinimisingAllTells, MinimisingEndsIn, Tells, TellsOne}};

use crate::listing::Minimising;
use crate::passed::{Passed, machine_of};
use swreq_machine::complete::Failed;
use swreq_machine::lowering::FuncId;
use swreq_machine::param::ParamTable;
use swreq_machine::watch::Watch;
use swreq_query::minimised_line;
use swreq_text::Seq;

/// The line that is kept at this place, or no bytes where none is.
pub fn line_at<'a>(lines: &'a [Option<Seq<u8>>], k: usize) -> &'a [u8]
    requires { k < length lines.now }
    ensures { result.now ≡ line_at lines.now k }
{
    match &lines[k] {
        Some(line) => line.items(),
        None => &[],
    }
}

/// The line of the minimised list of a signature.
fn line_of<W: Watch>(
    p: &Passed<'_>,
    table: &mut ParamTable,
    f: FuncId,
    watch: &mut W,
) -> Result<Seq<u8>, Failed>
    requires passed { HasPassed table.old p.now }
    requires f { f.place < length p.now.world.now.signatures }
    ensures line { IfOk result
        (IsMinimisedLine (world_of table.old p.now) (signature_at (world_of table.old p.now) f)) }
    ensures told { OnOk result (TellsMinimised p.now.limits (world_of table.old p.now)
        (rules_of p.now) f (W.told watch.old) (W.told watch.new)) }
    ensures failed { IfErr result (FailsMinimised p.now.limits (world_of table.old p.now)
        (rules_of p.now) f (W.told watch.old) (W.told watch.new)) }
    ensures extends { Extends table.old table.new }
{
    let machine = machine_of(p, table, f)?;
    let mut line = Vec::new(p.alloc);
    minimised_line(
        p.alloc,
        p.world,
        table,
        p.protocols,
        &machine,
        f,
        p.limits,
        watch,
        &mut line,
    )?;
    Ok(Seq::new(line))
}

/// The line of the minimised list of a signature, or None where it is not wanted.
fn line_if_wanted<W: Watch>(
    l: &Minimising<'_>,
    table: &mut ParamTable,
    f: FuncId,
    watch: &mut W,
) -> Result<Option<Seq<u8>>, Failed>
    requires passed { HasPassed table.old l.now.passed }
    requires f { f.place < length l.now.passed.world.now.signatures }
    ensures line { IfOk result (IsLineKept (world_of table.old l.now.passed) (wants l.now) f) }
    ensures told { OnOk result (Tells
        (TellsOne l.now.passed.limits (world_of table.old l.now.passed) l.now.content
        (rules_of l.now.passed) (signature_at (world_of table.old l.now.passed) f))
        (W.told watch.old) (W.told watch.new)) }
    ensures failed { IfErr result (λ failed. Tells
        (FailsAt l.now.passed.limits (world_of table.old l.now.passed) l.now.content
        (rules_of l.now.passed) (signature_at (world_of table.old l.now.passed) f) failed)
        (W.told watch.old) (W.told watch.new)) }
    ensures extends { Extends table.old table.new }
{
    if !l.wanted[f.place as usize] {
        return Ok(None);
    }
    let line = line_of(&l.passed, table, f, watch)?;
    Ok(Some(line))
}

/// The lines of the minimised lists that are wanted, of each signature in written order.
///
/// `Failed::Limit` comes only where the rounds of a list that minimising meets stop at a limit, with its trace.
/// The watcher is told the events of the rounds of such lists.
pub fn minimised_lines<W: Watch>(
    l: &Minimising<'_>,
    table: &mut ParamTable,
    watch: &mut W,
) -> Result<Vec<Option<Seq<u8>>>, Failed>
    requires { HasPassed table.old l.now.passed }
    ensures lines { IfOk result
        (λ v. AreLinesKept (world_of table.old l.now.passed) (wants l.now) v.items) }
    ensures count { IfOk result (λ v. length v.items ≡ length l.now.passed.world.now.signatures) }
    ensures told { OnOk result (Tells (MinimisingAllTells l.now.passed.limits
        (world_of table.old l.now.passed) l.now.content (rules_of l.now.passed))
        (W.told watch.old) (W.told watch.new)) }
    ensures failed { IfErr result (λ failed. Tells (MinimisingEndsIn l.now.passed.limits
        (world_of table.old l.now.passed) l.now.content (rules_of l.now.passed) failed)
        (W.told watch.old) (W.told watch.new)) }
    ensures extends { Extends table.old table.new }
{
    let mut all = Vec::new(l.passed.alloc);
    for k in 0..l.passed.world.functions() {
        let entry = line_if_wanted(l, table, FuncId { place: k }, watch)?;
        all.push(entry).map_err(|_| Failed::Memory)?;
    }
    Ok(all)
}

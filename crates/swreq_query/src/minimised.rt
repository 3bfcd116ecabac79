//! The line of a minimised signature.
ghost use Rattle.std.specs.Prelude.{◌≡◌, ◌≢◌, ◌⊎◌, ◌++◌, codes, IfErr, OnErr, OnOk};
ghost use Rattle.swreq_print.specs.swreq_param.Tables.{Extends};
ghost use Rattle.swreq_text.specs.Joined.{GrewByPart};
ghost use Rattle.swreq_print.specs.swreq_derive.Facts.{generic_params};
ghost use Rattle.swreq_machine.specs.swreq_complete.declared.limit.Failed.TheVariants.{Memory};
ghost use Rattle.swreq_machine.specs.swreq_symbols.Known.{IsTextOver};
ghost use Rattle.swreq_machine.specs.swreq_valid.{Protocols.{AreRulesOf}, Plans.{AreRequirementsOfText, listed}, Rounds.{last_rules}};
ghost use Rattle.swreq_machine.specs.swreq_world.ByTable.{world_by};
ghost use Rattle.swreq_print.specs.Signatures.{signature_text};
ghost use Rattle.swreq_query.specs.{Minimising.{FailsMinimised, TellsMinimised}, Signatures.{AppendsMinimised, AppendsPartOfMinimised, IsMachineOfSignature}};

use std::alloc::{AllocError, Global};
use swreq_machine::Machine;
use swreq_machine::complete::{Failed, Limits};
use swreq_machine::symbols::Text;
use swreq_machine::valid::Protocols;
use swreq_machine::watch::Watch;
use swreq_machine::world::World;
use swreq_minimal::minimise;
use swreq_print::derive::{Params, Requirement};
use swreq_print::lowering::FuncId;
use swreq_print::param::ParamTable;
use swreq_print::signature_text;
use swreq_text::append_bytes;

/// Writes the signature with these generic parameters and requirements as a line.
#[tactic(auto, using(swreq_text::proofs::Grown::none_grew))]
fn put_signature(
    alloc: Global,
    text: &Text<'_>,
    params: Params,
    list: &[Requirement],
    out: &mut Vec<u8>,
) -> Result<(), AllocError>
    requires { AreRequirementsOfText text.now list.now }
    ensures ok { OnOk result (out.new.items ≡ out.old.items
        ++ (signature_text text.now.world.now.lexicon (generic_params params)
        (listed text.now.table.now list.now)
        ++ codes "\n")) }
    ensures err { OnErr result (GrewByPart out.old.items
        (signature_text text.now.world.now.lexicon (generic_params params)
        (listed text.now.table.now list.now)
        ++ codes "\n") out.new.items) }
{
    signature_text(alloc, text.world.lexicon(), text.table, params, list, out)?;
    append_bytes(out, b"\n")
}

/// Writes the line of a minimised list, and answers `Failed::Memory` if memory runs out.
fn put_line(
    alloc: Global,
    text: &Text<'_>,
    params: Params,
    list: &[Requirement],
    out: &mut Vec<u8>,
) -> Result<(), Failed>
    requires { AreRequirementsOfText text.now list.now }
    ensures line { OnOk result (out.new.items ≡ out.old.items
        ++ (signature_text text.now.world.now.lexicon (generic_params params)
        (listed text.now.table.now list.now)
        ++ codes "\n")) }
    ensures failed { IfErr result (λ failed. failed ≡ Memory) }
    ensures part { OnErr result (GrewByPart out.old.items
        (signature_text text.now.world.now.lexicon (generic_params params)
        (listed text.now.table.now list.now)
        ++ codes "\n") out.new.items) }
{
    put_signature(alloc, text, params, list, out)?;
    Ok(())
}

/// Writes the minimised list of a signature at the end, by its machine, as a line. If memory runs out the first bytes of it may
/// stand there; on a limit the list is unchanged.
///
/// `Failed::Limit` comes only where the rounds of a list that minimising meets stop at a limit, with its trace.
/// The watcher is told the events of the rounds of such lists. The table grows, its ids stay, and so does the world over it.
pub fn minimised_line<W: Watch>(
    alloc: Global,
    world: &World,
    table: &mut ParamTable,
    protocols: &Protocols,
    machine: &Machine,
    f: FuncId,
    limits: Limits,
    watch: &mut W,
    out: &mut Vec<u8>,
) -> Result<(), Failed>
    requires text { IsTextOver table.old world.now }
    requires protocols { AreRulesOf (world_by table.old world.now)
        (last_rules protocols.now.rounds) }
    requires machine { IsMachineOfSignature table.old world.now f machine.now }
    ensures line { OnOk result
        (AppendsMinimised (world_by table.old world.now) f out.old.items out.new.items) }
    ensures told { OnOk result (TellsMinimised limits (world_by table.old world.now)
        (last_rules protocols.now.rounds) f (W.told watch.old) (W.told watch.new)) }
    ensures failed { IfErr result (FailsMinimised limits (world_by table.old world.now)
        (last_rules protocols.now.rounds) f (W.told watch.old) (W.told watch.new)) }
    ensures part { OnErr result ((out.new.items ≡ out.old.items) ⊎ AppendsPartOfMinimised
        (world_by table.old world.now) f out.old.items out.new.items) }
    ensures unchanged { IfErr result (λ failed. failed ≢ Memory → out.new.items ≡ out.old.items) }
    ensures extends { Extends table.old table.new }
    ensures world { world_by table.new world.now ≡ world_by table.old world.now }
    ensures text { IsTextOver table.new world.now }
{
    let list = minimise(alloc, world, table, protocols, machine, limits, watch)?;
    put_line(alloc, &Text { world, table }, world.params(f), &list, out)
}

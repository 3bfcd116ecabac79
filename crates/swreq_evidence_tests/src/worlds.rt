//! The worlds of texts, and the machines of their signatures.
ghost use Rattle.std.specs.Prelude.{◌<◌, IfOk, length};
ghost use Rattle.swreq_machine.specs.swreq_derive.WellFormed.{AreProtocolsWellFormed};
ghost use Rattle.swreq_machine.specs.swreq_symbols.{Known.{IsTextOver}, Meaning.{facts_of}, Texts.{world_of}};
ghost use Rattle.swreq_machine.specs.swreq_valid.{Protocols.{AreRulesOf}, Rounds.{last_rules}};
ghost use Rattle.swreq_confpath.specs.Searches.{IsMachineFor};
ghost use Rattle.swreq_subst.specs.Saying.{HaveIds};

use std::alloc::Global;
use std::test::Fail;
use swreq_machine::Machine;
use swreq_machine::complete::Limits;
use swreq_machine::lowering::FuncId;
use swreq_machine::param::ParamTable;
use swreq_machine::symbols::Text;
use swreq_machine::valid::{CheckedText, Protocols};
use swreq_machine::watch::Quiet;
use swreq_machine::world::World;
use swreq_reqsig::laws::valid_sides_are_well_formed;
use swreq_samples::skeleton_of;
use swreq_subst::laws::names_have_ids;

/// The limits of machines.
pub(crate) const LIMITS: Limits = Limits {
    max_rules: 4000,
    max_length: 64,
};

/// The world of a text that is not too long, over the table.
pub(crate) fn world_of(alloc: Global, text: &str, table: &mut ParamTable) -> Result<World, Fail>
    ensures text { IfOk result (IsTextOver table.new) }
    ensures ids { IfOk result HaveIds }
{
    let bytes = text.as_bytes();
    if bytes.len() > 1_048_576 {
        return Err("a text that is too long".into());
    }
    names_have_ids(bytes);
    let skeleton = skeleton_of(alloc, bytes)?;
    let world = World::resolve(alloc, bytes, &skeleton, table)?;
    Ok(world)
}

/// The rules of the protocols, which are well formed.
pub(crate) fn protocols_of(alloc: Global, text: &Text<'_>) -> Result<Protocols, Fail>
    ensures formed { IfOk result (λ _. AreProtocolsWellFormed (facts_of (world_of text.now))) }
    ensures rules { IfOk result (λ p. AreRulesOf (world_of text.now) (last_rules p.rounds)) }
{
    valid_sides_are_well_formed();
    let protocols = Protocols::build(alloc, text, LIMITS, &mut Quiet)?;
    Ok(protocols)
}

/// The machine of a signature.
pub(crate) fn machine_of<'b>(
    alloc: Global,
    checked: &CheckedText<'_, 'b>,
    f: FuncId,
) -> Result<Machine<'b>, Fail>
    requires formed { AreProtocolsWellFormed (facts_of (world_of checked.now.text)) }
    requires f { f.place < length checked.now.text.world.now.signatures }
    ensures { IfOk result (IsMachineFor checked.now.text f) }
{
    let machine = Machine::of_signature(alloc, checked, f, LIMITS, &mut Quiet)?;
    Ok(machine)
}

//! The machine of a signature.

ghost use Rattle.std.specs.Prelude.{◌≡◌, ◌<◌, IfOk, length};
ghost use Rattle.swreq_valid.specs.swreq_symbols.{Meaning.{facts_of}, Texts.{world_of}};
ghost use Rattle.swreq_valid.specs.swreq_world.{FactsAt.{written_list}, Worlds.{signature_at}};
ghost use Rattle.swreq_valid.specs.{Built.{Builds, IsOnlyBuilt}, Checked.{base_of}, Rounds.{AreRounds}};
ghost use Rattle.swreq_machine.specs.{Machines.{IsMachineOf, built_rules}, OfSignatures.{signature_plan, signature_sides}};

use crate::machine::Machine;
use std::alloc::Global;
use swreq_valid::complete::Limits;
use swreq_valid::lowering::FuncId;
use swreq_valid::watch::Watch;
use swreq_valid::{CheckedText, Refused};

impl<'b> Machine<'b> {
    /// The machine of a signature of a text, over the rules of its protocols.
    ///
    /// It is refused as `Machine::build` refuses the list of the signature, and the watcher is told the events of the rounds.
    pub fn of_signature<W: Watch>(
        alloc: Global,
        checked: &CheckedText<'_, 'b>,
        signature: FuncId,
        limits: Limits,
        watch: &mut W,
    ) -> Result<Machine<'b>, Refused>
        requires { signature.place < length checked.now.text.world.now.signatures }
        ensures answer { Builds limits
            (signature_plan (world_of checked.now.text) (base_of checked.now)
            (signature_at (world_of checked.now.text) signature))
            (facts_of (world_of checked.now.text))
            (signature_sides (signature_at (world_of checked.now.text) signature))
            (W.told watch.old) (W.told watch.new) (built_rules result) }
        ensures only { IsOnlyBuilt limits
            (signature_plan (world_of checked.now.text) (base_of checked.now)
            (signature_at (world_of checked.now.text) signature))
            (facts_of (world_of checked.now.text))
            (signature_sides (signature_at (world_of checked.now.text) signature))
            (built_rules result) }
        ensures rounds { IfOk result (λ m. AreRounds limits
            (signature_plan (world_of checked.now.text) (base_of checked.now)
            (signature_at (world_of checked.now.text) signature)) m.rounds) }
        ensures machine { IfOk result (IsMachineOf (world_of checked.now.text)
            (written_list (signature_at (world_of checked.now.text) signature))) }
        ensures params { IfOk result
            (λ m. m.params ≡ (signature_at (world_of checked.now.text) signature).params) }
    {
        let world = checked.text.world;
        let list = world.signature(alloc, signature)?;
        let params = world.params(signature);
        Machine::build(alloc, checked, params, &list, limits, watch)
    }
}

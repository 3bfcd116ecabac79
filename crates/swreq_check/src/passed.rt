//! The machines of a text that has passed its check.
ghost use Rattle.std.specs.Prelude.{◌≡◌, ◌<◌, length, IfOk};
ghost use Rattle.swreq_machine.specs.Machines.{IsMachineOf};
ghost use Rattle.swreq_machine.specs.swreq_valid.declared.refused.Refused.TheVariants.{Memory};
ghost use Rattle.swreq_machine.specs.swreq_world.{FactsAt.{written_list}, Worlds.{signature_at}};
ghost use Rattle.swreq_check.specs.Passed.{HasPassed, world_of};

use std::alloc::{AllocError, Global};
use swreq_machine::Machine;
use swreq_machine::complete::Limits;
use swreq_machine::lowering::FuncId;
use swreq_machine::param::ParamTable;
use swreq_machine::symbols::Text;
use swreq_machine::valid::{CheckedText, Protocols, Refused};
use swreq_machine::watch::Quiet;
use swreq_machine::world::World;

/// A text that has passed its check.
#[derive(Clone, Copy)]
pub struct Passed<'a> {
    pub alloc: Global,
    pub world: &'a World,
    /// The rules of the protocols.
    pub protocols: &'a Protocols,
    pub limits: Limits,
}

/// Why the machine of a list that has passed the check is refused: only since memory ran out.
fn want_of_memory(_refused: &Refused) -> AllocError
    requires { _refused.now ≡ Memory }
{
    AllocError
}

/// The machine of a signature, built again. No watcher is told of it.
pub(crate) fn machine_of<'b>(
    p: &Passed<'b>,
    table: &ParamTable,
    f: FuncId,
) -> Result<Machine<'b>, AllocError>
    requires passed { HasPassed table.now p.now }
    requires f { f.place < length p.now.world.now.signatures }
    ensures machine { IfOk result (IsMachineOf (world_of table.now p.now)
        (written_list (signature_at (world_of table.now p.now) f))) }
    ensures params { IfOk result
        (λ m. m.params ≡ (signature_at (world_of table.now p.now) f).params) }
{
    let text = Text {
        world: p.world,
        table,
    };
    let checked = CheckedText {
        text,
        protocols: p.protocols,
    };
    match Machine::of_signature(p.alloc, &checked, f, p.limits, &mut Quiet) {
        Ok(machine) => Ok(machine),
        Err(refused) => Err(want_of_memory(&refused)),
    }
}

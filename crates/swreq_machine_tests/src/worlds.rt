//! The worlds of texts, and the limits of completions.
ghost use Rattle.std.specs.Prelude.{IfOk};
ghost use Rattle.swreq_machine.specs.swreq_symbols.Known.{IsTextOver};

use std::alloc::Global;
use std::test::Fail;
use swreq_machine::complete::Limits;
use swreq_machine::param::ParamTable;
use swreq_machine::world::World;
use swreq_samples::skeleton_of;

/// The limits of machines.
pub(crate) const LIMITS: Limits = Limits {
    max_rules: 4000,
    max_length: 64,
};

/// The limits with this many rules.
pub(crate) fn limits_of(max_rules: u32) -> Result<Limits, Fail> {
    if 1 <= max_rules && max_rules <= 100_000 {
        Ok(Limits {
            max_rules,
            max_length: 64,
        })
    } else {
        Err("a limit out of range".into())
    }
}

/// The world of a text, over the table.
pub(crate) fn world_of(alloc: Global, text: &[u8], table: &mut ParamTable) -> Result<World, Fail>
    ensures { IfOk result (IsTextOver table.new) }
{
    if text.len() > 1_048_576 {
        return Err("a text that is too long".into());
    }
    let skeleton = skeleton_of(alloc, text)?;
    let world = World::resolve(alloc, text, &skeleton, table)?;
    Ok(world)
}

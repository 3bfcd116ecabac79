//! A text with the table of its type parameters.
ghost use Rattle.swreq_symbols.specs.Known.{IsTextOver};

use swreq_world::World;
use swreq_world::param::ParamTable;

/// A text with the table of its type parameters: the ids of the world are of the table, and all that is written is of the world.
#[derive(Clone, Copy)]
pub struct Text<'a> {
    pub world: &'a World,
    pub table: &'a ParamTable,
    ghost belong: { ∥ IsTextOver table.now world.now ∥₁ },
}

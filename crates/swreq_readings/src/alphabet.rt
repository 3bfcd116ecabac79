//! What words are read by.
ghost use Rattle.swreq_readings.specs.Inherited.{IsInherited};

use swreq_derive::Params;
use swreq_derive::param::TermId;
use swreq_world::World;

/// What words are read by: the world of a text, and the generic parameters of a list. Names are inherited as the world has it written.
#[derive(Clone, Copy)]
pub struct Alphabet<'a> {
    pub world: &'a World,
    /// The id of `Self` in the requirements of the protocols, or None if no protocol inherits one.
    pub self_id: Option<TermId>,
    pub params: Params,
    ghost inherited: { ∥ IsInherited world.now self_id ∥₁ },
}

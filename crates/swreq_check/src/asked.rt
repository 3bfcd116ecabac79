//! What is asked of the machines of a text.
ghost use Rattle.swreq_check.specs.Wanted.{ArePlacesFor};

use crate::content::Content;
use swreq_machine::complete::Limits;
use swreq_machine::world::World;

/// What is asked of the machines of a text.
#[derive(Clone, Copy)]
pub struct Asked<'a> {
    pub world: &'a World,
    /// What is printed.
    pub content: Content,
    /// Of each signature the places of the pieces that its machine makes.
    pub places: &'a [Vec<usize>],
    pub limits: Limits,
    ghost placed: { ∥ ArePlacesFor world.now content places.now ∥₁ },
}

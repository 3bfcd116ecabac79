//! Where calls are written.
ghost use Rattle.swreq_subst.specs.{Saying.{HaveIds}, Words.{HaveIds-prop}};

use swreq_machine::world::World;

/// The bytes in which calls are written, and the world to which their names belong: what names refer to has ids in it.
#[derive(Clone, Copy)]
pub(crate) struct Words<'a> {
    pub world: &'a World,
    pub text: &'a [u8],
    ghost ids: { HaveIds world.now } by { HaveIds-prop world.now },
}

// A signature of a world, as a list from which one derives.
ghost use Rattle.std.specs.Prelude.{◌≡◌, ◌<◌, length, map};
ghost use Rattle.swreq_lexicon.specs.swreq_derive.Facts.{AreOneToOne};
ghost use Rattle.swreq_lexicon.specs.Lexicons.{associated_types};
ghost use Rattle.swreq_world.specs.Worlds.{signature_at};

use crate::world::World;
use swreq_lexicon::derive::Requirement;
use swreq_lowering::FuncId;

/// The list of a signature of a world, over the protocols of the world.
#[derive(Clone, Copy)]
pub struct FunctionFacts<'a> {
    pub world: &'a World,
    pub f: FuncId,
    pub written: &'a [Requirement],
    ghost of_world: { f.place < length world.now.signatures },
    ghost list: { written.now ≡ map (λ r. r.requirement) (signature_at world.now f).requirements },
    ghost one_to_one: { AreOneToOne (associated_types world.now.lexicon.associated) },
}

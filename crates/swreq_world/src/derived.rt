// What one derives from the list of a signature.
ghost use Rattle.std.specs.Prelude.{◌≡◌, ◌<◌, length, map};
ghost use Rattle.swreq_world.specs.{FactsAt.{facts_at}, Worlds.{signature_at}};

use crate::facts::FunctionFacts;
use crate::world::World;
use swreq_lexicon::derive::{Facts, Params, Requirement};
use swreq_lowering::FuncId;
use swreq_param::{AssocId, NameId, ProtoId};

impl<'a> FunctionFacts<'a> {
    /// The list of a signature, `World::bare_signature`.
    pub fn of(world: &'a World, signature: FuncId, written: &'a [Requirement]) -> FunctionFacts<'a>
        requires f { signature.place < length world.now.signatures }
        requires written { written.now
            ≡ map (λ r. r.requirement) (signature_at world.now signature).requirements }
        ensures world { result.world.now ≡ world.now }
        ensures f { result.f ≡ signature }
    {
        world.declared_once();
        FunctionFacts {
            world,
            f: signature,
            written,
        }
    }
}

impl<'a> Facts for FunctionFacts<'a> {
    ghost meaning = { λ s. facts_at s.world.now s.f };

    ghost one_to_one = { λ s. s.one_to_one };

    fn params(&self) -> Params {
        self.world.params(self.f)
    }

    fn written(&self) -> &[Requirement] {
        self.written
    }

    fn of_protocol(&self, p: ProtoId) -> &[Requirement] {
        self.world.bare_requirements(p)
    }

    fn declared(&self, p: ProtoId, a: NameId) -> Option<AssocId> {
        self.world.declares(p, a)
    }
}

//! The names of member symbols.
ghost use Rattle.std.specs.Prelude.{◌≡◌, MatchOption};
ghost use Rattle.swreq_correspondence.specs.Symbols.{IsRank, name_of};
ghost use Rattle.swreq_symbols.specs.Meaning.{symbols_of};

use swreq_world::World;
use swreq_world::param::NameId;

/// The name of the member symbol with this rank, or None where there is none.
pub fn name_at(world: &World, rank: u64) -> Option<NameId>
    ensures { MatchOption result
        (IsRank (symbols_of world.now.lexicon) rank → ⊥)
        (λ a. IsRank (symbols_of world.now.lexicon) rank
        × (name_of (symbols_of world.now.lexicon) rank ≡ a)) }
{
    if rank < world.members() {
        let symbol = world.member_at(rank);
        Some(symbol.name)
    } else {
        None
    }
}

//! The first associated type with a name whose protocol vanishes after a word, without memory.
ghost use Rattle.std.specs.Prelude.{◌≡◌, ◌↔◌, ◌+◌, ◌≤◌, ◌<◌, length, vec_capacity, IsTrue, MatchOption};
ghost use Rattle.swreq_correspondence.specs.swreq_param.declared.ids.AssocId.{AssocId};
ghost use Rattle.swreq_symbols.specs.Vanishing.{IsFirstBehind, IsGivenBehind, IsLeastBy};

use swreq_complete::CompleteRules;
use swreq_complete::word::Symbol;
use swreq_map::vanishes;
use swreq_world::World;
use swreq_world::param::{AssocId, NameId};

/// Whether it is an associated type with this name, and its protocol vanishes after the word.
fn is_given(
    world: &World,
    rules: &CompleteRules<'_>,
    word: &[Symbol],
    a: NameId,
    d: AssocId,
    test: &mut Vec<Symbol>,
) -> bool
    requires d { d.rank < length world.now.lexicon.associated }
    requires least { IsLeastBy rules.now word.now }
    requires fits { length word.now + 1 ≤ vec_capacity test.old }
    ensures answer { IsTrue result ↔ IsGivenBehind world.now.lexicon rules.now word.now a d }
    ensures room { vec_capacity test.old ≤ vec_capacity test.new }
{
    let declared = world.assoc(d);
    if declared.name.rank == a.rank {
        vanishes(rules, word, Symbol::Proto(declared.proto.rank), test)
    } else {
        false
    }
}

/// The number of associated types.
fn associated(world: &World) -> u32
    ensures { result ≡ length world.now.lexicon.associated }
{
    world.lexicon().associated()
}

/// The first associated type with this name whose protocol vanishes after the word, or None where there is none.
pub fn first_behind(
    world: &World,
    rules: &CompleteRules<'_>,
    word: &[Symbol],
    a: NameId,
    test: &mut Vec<Symbol>,
) -> Option<AssocId>
    requires least { IsLeastBy rules.now word.now }
    requires fits { length word.now + 1 ≤ vec_capacity test.old }
    ensures answer { MatchOption result
        ((d : AssocId) → IsGivenBehind world.now.lexicon rules.now word.now a d → ⊥)
        (IsFirstBehind world.now.lexicon rules.now word.now a) }
    ensures room { vec_capacity test.old ≤ vec_capacity test.new }
{
    for rank in 0..associated(world) {
        let d = AssocId { rank };
        if is_given(world, rules, word, a, d, test) {
            return Some(d);
        }
    }
    None
}

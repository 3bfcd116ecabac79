//! Which bound member a symbol stands for after a word.
ghost use Rattle.std.specs.Prelude.{◌≤◌, vec_capacity, MatchOption};
ghost use Rattle.swreq_machine.specs.swreq_param.declared.ids.AssocId.{AssocId};
ghost use Rattle.swreq_homotopy.specs.swreq_word.declared.symbols.Symbol.TheVariants.{Member as MemberSymbol};
ghost use Rattle.swreq_minimal.specs.Typed.{IsMemberBehind, IsTestable};

use swreq_machine::complete::CompleteRules;
use swreq_machine::map::vanishes;
use swreq_machine::param::AssocId;
use swreq_machine::symbols::first_behind;
use swreq_machine::word::Symbol;
use swreq_machine::world::World;

/// The bound member for which the member symbol of this rank stands after the word, or None where it stands for none.
fn member_at(
    world: &World,
    rules: &CompleteRules<'_>,
    word: &[Symbol],
    rank: u64,
    test: &mut Vec<Symbol>,
) -> Option<AssocId>
    requires { IsTestable rules.now word.now (vec_capacity test.old) }
    ensures answer { MatchOption result
        ((d : AssocId)
        → IsMemberBehind world.now.lexicon rules.now word.now (MemberSymbol rank) d → ⊥)
        (IsMemberBehind world.now.lexicon rules.now word.now (MemberSymbol rank)) }
    ensures room { vec_capacity test.old ≤ vec_capacity test.new }
{
    if rank >= world.members() {
        return None;
    }
    let symbol = world.member_at(rank);
    if !vanishes(rules, word, Symbol::Proto(symbol.proto.rank), test) {
        return None;
    }
    first_behind(world, rules, word, symbol.name, test)
}

/// The bound member for which the symbol stands after the word, or None where it stands for none.
pub(crate) fn member_behind(
    world: &World,
    rules: &CompleteRules<'_>,
    word: &[Symbol],
    x: Symbol,
    test: &mut Vec<Symbol>,
) -> Option<AssocId>
    requires { IsTestable rules.now word.now (vec_capacity test.old) }
    ensures answer { MatchOption result
        ((d : AssocId) → IsMemberBehind world.now.lexicon rules.now word.now x d → ⊥)
        (IsMemberBehind world.now.lexicon rules.now word.now x) }
    ensures room { vec_capacity test.old ≤ vec_capacity test.new }
{
    match x {
        Symbol::Member(rank) => member_at(world, rules, word, rank, test),
        _ => None,
    }
}

//! The reduced type of a type parameter, without memory.

ghost use Rattle.std.specs.Prelude.{◌≡◌, ◌↔◌, ◌+◌, ◌≤◌, ◌<◌, ◌++◌, ◌∷◌, [], ℕ, IsTrue, List, length, vec_capacity, vec_len, MatchOption};
ghost use Rattle.swreq_valid.specs.swreq_param.{declared.ids.AssocId.{AssocId}, declared.ids.Step.TheVariants.{Bound}, Terms.{Term, head, with_steps}, Terms.Term.{Generic}};
ghost use Rattle.swreq_valid.specs.swreq_derive.{Derivation.{TermRequirement}, Derivation.TermStatement.{IsValid}};
ghost use Rattle.swreq_map.specs.swreq_word.{declared.symbols.Symbol.{Symbol}, declared.symbols.Symbol.TheVariants.{Member as MemberSymbol, Param}};
ghost use Rattle.swreq_valid.specs.swreq_correspondence.Symbols.{IsRank, name_of};
ghost use Rattle.swreq_valid.specs.swreq_symbols.{Meaning.{symbols_of}, Texts.{term_of, world_of}, Vanishing.{IsFirstBehind, IsLeastBy}};
ghost use Rattle.swreq_machine.specs.{Asked.{HasRoomFor, IsDerivable, IsLeastOf, IsReducedIn}, LeastTypes.{BeginsBy}, Machines.{IsMachineOf}};

use crate::machine::Machine;
use crate::scratch::Scratch;
use swreq_valid::complete::CompleteRules;
use swreq_valid::param::{NameId, ParamId, Step, TermId};
use swreq_valid::symbols::{Text, first_behind, name_at};
use swreq_valid::word::Symbol;
use swreq_valid::world::World;

/// The name of a member symbol, or None where the symbol is not one.
fn member_name(world: &World, symbol: Symbol) -> Option<NameId>
    ensures { MatchOption result
        ((k : ℕ) → symbol ≡ MemberSymbol k → IsRank (symbols_of world.now.lexicon) k → ⊥)
        (λ a. (k : ℕ) × (symbol ≡ MemberSymbol k) × IsRank (symbols_of world.now.lexicon) k
        × (name_of (symbols_of world.now.lexicon) k ≡ a)) }
{
    match symbol {
        Symbol::Member(rank) => name_at(world, rank),
        _ => None,
    }
}

/// Puts the step last, where there is room for it.
fn put_step(steps: &mut Vec<Step>, step: Step)
    requires { vec_len steps.old < vec_capacity steps.old }
    ensures items { steps.new.items ≡ steps.old.items ++ step ∷ [] }
    ensures room { vec_capacity steps.old ≤ vec_capacity steps.new }
{
    if let Err(_) = steps.push(step) {}
}

/// Adds the step of the type of the word before a member symbol with it: the first associated type with its name.
fn add_step(
    world: &World,
    rules: &CompleteRules<'_>,
    before: &[Symbol],
    symbol: Symbol,
    steps: &mut Vec<Step>,
    test: &mut Vec<Symbol>,
)
    requires least { IsLeastBy rules.now before.now }
    requires fits { length before.now + 1 ≤ vec_capacity test.old }
    requires fits_step { vec_len steps.old < vec_capacity steps.old }
    ensures step { (k : ℕ) (d : AssocId) → symbol ≡ MemberSymbol k
        → IsRank (symbols_of world.now.lexicon) k
        → IsFirstBehind world.now.lexicon rules.now before.now
        (name_of (symbols_of world.now.lexicon) k) d → steps.new.items
        ≡ steps.old.items ++ Bound d ∷ [] }
    ensures few { vec_len steps.new ≤ vec_len steps.old + 1 }
    ensures room { vec_capacity steps.old ≤ vec_capacity steps.new }
    ensures room_test { vec_capacity test.old ≤ vec_capacity test.new }
{
    match member_name(world, symbol) {
        None => {}
        Some(name) => add_first(world, rules, before, name, steps, test),
    }
}

/// Adds the step of the first associated type with this name whose protocol vanishes after the word, if there is one.
fn add_first(
    world: &World,
    rules: &CompleteRules<'_>,
    before: &[Symbol],
    name: NameId,
    steps: &mut Vec<Step>,
    test: &mut Vec<Symbol>,
)
    requires least { IsLeastBy rules.now before.now }
    requires fits { length before.now + 1 ≤ vec_capacity test.old }
    requires fits_step { vec_len steps.old < vec_capacity steps.old }
    ensures step { (d : AssocId)
        → IsFirstBehind world.now.lexicon rules.now before.now name d → steps.new.items
        ≡ steps.old.items ++ Bound d ∷ [] }
    ensures few { vec_len steps.new ≤ vec_len steps.old + 1 }
    ensures room { vec_capacity steps.old ≤ vec_capacity steps.new }
    ensures room_test { vec_capacity test.old ≤ vec_capacity test.new }
{
    match first_behind(world, rules, before, name, test) {
        None => {}
        Some(d) => put_step(steps, Step::Bound(d)),
    }
}

/// Makes the list that of the steps of the type of a least word.
fn read_steps(
    world: &World,
    rules: &CompleteRules<'_>,
    word: &[Symbol],
    steps: &mut Vec<Step>,
    test: &mut Vec<Symbol>,
)
    requires least { IsLeastBy rules.now word.now }
    requires fits { length word.now ≤ vec_capacity test.old }
    requires fits_steps { length word.now ≤ vec_capacity steps.old }
    ensures steps { (r : Term) → BeginsBy world.now.lexicon rules.now r [] word.now
        → with_steps (Generic (head r)) steps.new.items ≡ r }
    ensures room { vec_capacity steps.old ≤ vec_capacity steps.new }
    ensures room_test { vec_capacity test.old ≤ vec_capacity test.new }
{
    steps.clear();
    for k in 1..word.len() {
        let before = &word[..k];
        add_step(world, rules, before, word[k], steps, test);
    }
}

/// The generic parameter with which a word begins.
fn head_of(word: &[Symbol]) -> ParamId
    ensures { (d i : ℕ) (rest : List Symbol) → word.now ≡ Param d i ∷ rest
        → result ≡ record { depth = d; index = i } }
{
    match word.first() {
        Some(Symbol::Param(depth, index)) => ParamId {
            depth: *depth,
            index: *index,
        },
        _ => ParamId { depth: 0, index: 0 },
    }
}

impl Machine<'_> {
    /// Whether a type is valid. Where it is, its reduced type and the least word congruent to its word are left in the scratch.
    pub fn reduce(&self, text: &Text<'_>, subject: TermId, scratch: &mut Scratch) -> bool
        requires { HasRoomFor text.now scratch.old subject }
        ensures valid { (list : List TermRequirement)
            → IsMachineOf (world_of text.now) list self.now
            → IsTrue result ↔ IsDerivable (world_of text.now) self.now list
            (IsValid (term_of text.now subject)) }
        ensures reduced { (list : List TermRequirement)
            → IsMachineOf (world_of text.now) list self.now
            → IsDerivable (world_of text.now) self.now list
            (IsValid (term_of text.now subject))
            → IsReducedIn (world_of text.now) self.now list (term_of text.now subject)
            (with_steps (Generic scratch.new.head) scratch.new.steps) }
        ensures word { (list : List TermRequirement) → IsMachineOf (world_of text.now) list self.now
            → IsDerivable (world_of text.now) self.now list
            (IsValid (term_of text.now subject))
            → IsLeastOf (world_of text.now) self.now list
            (term_of text.now subject) scratch.new.word }
        ensures room { scratch.new.room ≡ scratch.old.room }
    {
        let rules = self.rules();
        let _complete = rules.count();
        let valid = self.walk(text, subject, &mut scratch.word, &mut scratch.test);
        if valid {
            scratch.head = head_of(&scratch.word);
            read_steps(
                text.world,
                rules,
                &scratch.word,
                &mut scratch.steps,
                &mut scratch.test,
            );
        }
        valid
    }

    /// Leaves the reduced type of a valid type, and the least word congruent to its word, in the scratch.
    pub fn reduced(&self, text: &Text<'_>, subject: TermId, scratch: &mut Scratch)
        requires { HasRoomFor text.now scratch.old subject }
        ensures reduced { (list : List TermRequirement)
            → IsMachineOf (world_of text.now) list self.now
            → IsDerivable (world_of text.now) self.now list
            (IsValid (term_of text.now subject))
            → IsReducedIn (world_of text.now) self.now list (term_of text.now subject)
            (with_steps (Generic scratch.new.head) scratch.new.steps) }
        ensures word { (list : List TermRequirement)
            → IsMachineOf (world_of text.now) list self.now
            → IsDerivable (world_of text.now) self.now list
            (IsValid (term_of text.now subject))
            → IsLeastOf (world_of text.now) self.now list
            (term_of text.now subject) scratch.new.word }
        ensures room { scratch.new.room ≡ scratch.old.room }
    {
        let _valid = self.reduce(text, subject, scratch);
    }
}

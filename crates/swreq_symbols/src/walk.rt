//! Whether rules show that a type parameter is valid, and its least word, without memory.
#![tactic(auto, using(crate::proofs::OfTexts::text_over, crate::proofs::OfTexts::ids_over))]

ghost use Rattle.std.specs.{Prelude.{◌≡◌, ◌↔◌, ◌+◌, ◌≤◌, ◌<◌, [], ◌∷◌, ◌++◌, length, vec_len, vec_capacity, IsTrue}, Bool.{OnTrue}};
ghost use Rattle.swreq_correspondence.specs.swreq_param.{declared.ids.Step.TheVariants.{Bound, Name}, Tables.{IsOf, term_at}, Terms.{member_count}};
ghost use Rattle.swreq_correspondence.specs.swreq_derive.Derivation.{HasParam};
ghost use Rattle.swreq_correspondence.specs.{Shown.{ShowsValid}, Symbols.{start}};
ghost use Rattle.swreq_world.specs.Closed.{IsStepOf};
ghost use Rattle.swreq_symbols.specs.{Fronts.{without}, Meaning.{facts_of, symbols_of}, Overs.{source_over}, Readings.{IsReadAs}, Texts.{IsTypeOfText, world_of, term_of}, Vanishing.{HasStep, IsLeastBy, Links}};

use crate::behind::first_behind;
use crate::over::Over;
use crate::reading::Reading;
use crate::text::Text;
use crate::words::{start_of, symbol_of};
use swreq_complete::CompleteRules;
use swreq_complete::word::Symbol;
use swreq_map::{append, vanishes};
use swreq_world::World;
use swreq_world::param::{AssocId, NameId, ParamId, ParamTable, Step, TermId};

/// Puts the symbol last, where there is room for it.
fn put(v: &mut Vec<Symbol>, x: Symbol)
    requires { vec_len v.old < vec_capacity v.old }
    ensures items { v.new.items ≡ v.old.items ++ x ∷ [] }
    ensures room { vec_capacity v.old ≤ vec_capacity v.new }
{
    if let Err(_) = v.push(x) {}
}

/// Whether some associated type has this name, and its protocol vanishes after the word.
fn has_name(
    world: &World,
    rules: &CompleteRules<'_>,
    word: &[Symbol],
    a: NameId,
    test: &mut Vec<Symbol>,
) -> bool
    requires least { IsLeastBy rules.now word.now }
    requires fits { length word.now + 1 ≤ vec_capacity test.old }
    ensures answer { IsTrue result ↔ HasStep world.now.lexicon rules.now word.now (Name a) }
    ensures room { vec_capacity test.old ≤ vec_capacity test.new }
{
    match first_behind(world, rules, word, a, test) {
        Some(_) => true,
        None => false,
    }
}

/// Whether the protocol of the associated type vanishes after the word.
fn has_assoc(
    text: &Text<'_>,
    rules: &CompleteRules<'_>,
    word: &[Symbol],
    d: AssocId,
    test: &mut Vec<Symbol>,
) -> bool
    requires assoc { d.rank < length text.now.world.now.lexicon.associated }
    requires least { IsLeastBy rules.now word.now }
    requires fits { length word.now + 1 ≤ vec_capacity test.old }
    ensures answer { IsTrue result ↔ HasStep text.now.world.now.lexicon rules.now word.now
        (Bound d) }
    ensures room { vec_capacity test.old ≤ vec_capacity test.new }
{
    let declared = text.world.assoc(d);
    vanishes(rules, word, Symbol::Proto(declared.proto.rank), test)
}

/// Whether the step can follow the word.
fn has_step(
    text: &Text<'_>,
    rules: &CompleteRules<'_>,
    word: &[Symbol],
    step: Step,
    test: &mut Vec<Symbol>,
) -> bool
    requires step { IsStepOf text.now.world.now.lexicon step }
    requires least { IsLeastBy rules.now word.now }
    requires fits { length word.now + 1 ≤ vec_capacity test.old }
    ensures answer { IsTrue result ↔ HasStep text.now.world.now.lexicon rules.now word.now step }
    ensures room { vec_capacity test.old ≤ vec_capacity test.new }
{
    match step {
        Step::Bound(d) => has_assoc(text, rules, word, d, test),
        Step::Name(a) => has_name(text.world, rules, word, a, test),
    }
}

/// Whether a generic parameter is valid. The word becomes its least word.
fn begins(rules: &CompleteRules<'_>, over: Over, g: ParamId, word: &mut Vec<Symbol>) -> bool
    requires fits { 1 ≤ vec_capacity word.old }
    ensures answer { IsTrue result ↔ HasParam (source_over over) g }
    ensures least { IsLeastBy rules.now word.new.items }
    ensures linked { Links rules.now (start (source_over over) g ∷ []) word.new.items }
    ensures short { vec_len word.new ≤ 1 }
    ensures room { vec_capacity word.old ≤ vec_capacity word.new }
{
    word.clear();
    put(word, start_of(over.owner(), g));
    rules.reduce(word);
    over.has(g)
}

/// The type parameter without its last `count` members.
fn without(table: &ParamTable, t: TermId, count: usize) -> TermId
    requires t { IsOf table.now t }
    requires count { count ≤ member_count (term_at table.now t) }
    ensures there { IsOf table.now result }
    ensures front { term_at table.now result ≡ without count (term_at table.now t) }
{
    let mut at = t;
    for _ in 0..count {
        match table.split(at) {
            Some((base, _)) => at = base,
            None => unreachable!(),
        }
    }
    at
}

/// Whether the rules show that a member is valid whose base they show valid, with this least word. Where they do, the word becomes that
/// of the member.
fn add_member(
    reading: &Reading<'_, '_>,
    t: TermId,
    word: &mut Vec<Symbol>,
    test: &mut Vec<Symbol>,
) -> bool
    requires t { IsTypeOfText reading.now.text t }
    requires member { 0 < member_count (term_of reading.now.text t) }
    requires base { IsReadAs reading.now
        (without 1 (term_of reading.now.text t)) word.old.items }
    requires fits { (vec_len word.old + 1 ≤ vec_capacity word.old)
        × (vec_len word.old + 1 ≤ vec_capacity test.old) }
    ensures valid { IsTrue result ↔ ShowsValid (symbols_of reading.now.text.world.now.lexicon)
        (facts_of (world_of reading.now.text))
        (source_over reading.now.over) (Links reading.now.rules.now)
        (term_of reading.now.text t) }
    ensures read { OnTrue result
        (IsReadAs reading.now (term_of reading.now.text t) word.new.items) }
    ensures short { OnTrue result (vec_len word.new ≤ vec_len word.old + 1) }
    ensures room { vec_capacity word.old ≤ vec_capacity word.new }
    ensures room_test { vec_capacity test.old ≤ vec_capacity test.new }
{
    match reading.text.table.split(t) {
        None => unreachable!(),
        Some((_, step)) => {
            if !has_step(&reading.text, reading.rules, word, step, test) {
                return false;
            }
            append(reading.rules, word, symbol_of(reading.text.world, step));
            true
        }
    }
}

/// Whether the rules show that a type parameter is valid. Without its last `count` members they show it valid, with this least word. If
/// they show it, the word becomes that of the type parameter.
///
/// The first half of these members comes first, and then the other. So to find where each of them stands takes no memory, and few steps
/// along a long type parameter.
fn add_members(
    reading: &Reading<'_, '_>,
    t: TermId,
    count: usize,
    word: &mut Vec<Symbol>,
    test: &mut Vec<Symbol>,
) -> bool
    requires t { IsTypeOfText reading.now.text t }
    requires count { count ≤ member_count (term_of reading.now.text t) }
    requires base { IsReadAs reading.now
        (without count (term_of reading.now.text t)) word.old.items }
    requires fits { (vec_len word.old + count ≤ vec_capacity word.old)
        × (vec_len word.old + count ≤ vec_capacity test.old) }
    ensures valid { IsTrue result ↔ ShowsValid (symbols_of reading.now.text.world.now.lexicon)
        (facts_of (world_of reading.now.text))
        (source_over reading.now.over) (Links reading.now.rules.now)
        (term_of reading.now.text t) }
    ensures read { OnTrue result
        (IsReadAs reading.now (term_of reading.now.text t) word.new.items) }
    ensures short { OnTrue result (vec_len word.new ≤ vec_len word.old + count) }
    ensures room { vec_capacity word.old ≤ vec_capacity word.new }
    ensures room_test { vec_capacity test.old ≤ vec_capacity test.new }
{
    if count == 0 {
        return true;
    }
    if count == 1 {
        return add_member(reading, t, word, test);
    }
    let half = count / 2;
    let front = without(reading.text.table, t, half);
    if !add_members(reading, front, count - half, word, test) {
        return false;
    }
    add_members(reading, t, half, word, test)
}

/// Whether the rules show that a type parameter is valid. Where they do, `word` becomes its least word. Both lists of symbols have
/// room for the word of the type parameter and a symbol more, and keep it.
pub fn least_word(
    reading: &Reading<'_, '_>,
    t: TermId,
    word: &mut Vec<Symbol>,
    test: &mut Vec<Symbol>,
) -> bool
    requires t { IsTypeOfText reading.now.text t }
    requires fits { member_count (term_of reading.now.text t) + 2 ≤ vec_capacity word.old }
    requires fits_test { member_count (term_of reading.now.text t) + 2
        ≤ vec_capacity test.old }
    ensures valid { IsTrue result ↔ ShowsValid (symbols_of reading.now.text.world.now.lexicon)
        (facts_of (world_of reading.now.text))
        (source_over reading.now.over) (Links reading.now.rules.now)
        (term_of reading.now.text t) }
    ensures read { OnTrue result
        (IsReadAs reading.now (term_of reading.now.text t) word.new.items) }
    ensures short { OnTrue result
        (vec_len word.new ≤ member_count (term_of reading.now.text t) + 1) }
    ensures room { vec_capacity word.old ≤ vec_capacity word.new }
    ensures room_test { vec_capacity test.old ≤ vec_capacity test.new }
{
    if !begins(
        reading.rules,
        reading.over,
        reading.text.table.head(t),
        word,
    ) {
        return false;
    }
    add_members(reading, t, reading.text.table.members(t), word, test)
}

//! The search for the reduced system of some rules.

ghost use Rattle.std.specs.{Prelude.{◌≡◌, ℕ, suc, ◌+◌, ◌<◌, [], ◌∷◌, ◌++◌, length, slice_get, Some, IfOk, MatchOption, OnOk}, Bool.{Decides, OnFalse, OnTrue}, List.Sorted.{IsSorted}};
ghost use Rattle.swreq_rule.specs.swreq_word.{Relations.{IsIrreducible}, Least.{EachFactor}};
ghost use Rattle.swreq_rule.specs.{Reduction.{Reduces}, Steps.{Step}};
ghost use Rattle.swreq_complete.specs.Search.{AreKeys, AreKeysBelow, Found, FoundBelow, IsReducedAt, Key, key_cmp};

use crate::indexed::Indexed;
use std::alloc::{AllocError, Global};
use swreq_rule::Rule;
use swreq_rule::word::{Symbol, Word, are_same};

// A left side where it stands, with the place of its rule.
type Key<'a> = (&'a Word, usize);

// Whether no rule's left side stands in a proper factor of the word.
fn is_minimal(rules: &Indexed<'_>, word: &[Symbol]) -> bool
    requires { 0 < length word.now }
    ensures { Decides result (EachFactor word.now (IsIrreducible (Step rules.now))) }
{
    if rules.is_reducible(&word[1..]) {
        return false;
    }
    !rules.is_reducible(&word[..word.len() - 1])
}

// Puts the key last.
fn push<'a>(keys: &mut Vec<Key<'a>>, key: Key<'a>) -> Result<(), AllocError>
    ensures { OnOk result (keys.new.items ≡ keys.old.items ++ key.entry ∷ []) }
{
    keys.push(key)?;
    Ok(())
}

// Adds the left side of one rule more, if none of its proper factors can be reduced.
fn add_key<'a>(
    rules: &'a Indexed<'_>,
    place: usize,
    keys: &mut Vec<Key<'a>>,
) -> Result<(), AllocError>
    requires in_range { place < length rules.now }
    requires so_far { AreKeysBelow rules.now place keys.old.items }
    ensures { OnOk result (AreKeysBelow rules.now (place + 1) keys.new.items) }
{
    let rule = rules.rule(place);
    if !is_minimal(rules, rule.left.symbols()) {
        return Ok(());
    }
    push(keys, (&rule.left, place))
}

// The left sides whose proper factors can't be reduced.
fn keys_of<'a>(alloc: Global, rules: &'a Indexed) -> Result<Vec<Key<'a>>, AllocError>
    ensures { IfOk result (λ v. AreKeysBelow rules.now (length rules.now) v.items) }
{
    let mut keys: Vec<Key<'a>> = Vec::new(alloc);
    for k in 0..rules.count() {
        add_key(rules, k, &mut keys)?;
    }
    Ok(keys)
}

// The key at this index, counted from 0.
fn key_at<'k, 'a>(keys: &'k [Key<'a>], index: usize) -> &'k Key<'a>
    requires { index < length keys.now }
    ensures { slice_get keys.now index ≡ Some result.now }
{
    &keys[index]
}

// Whether the two keys have the same left side.
fn is_same(first: &Key, second: &Key) -> bool
    ensures { Decides result (first.now.0.now ≡ second.now.0.now) }
{
    are_same(first.0.symbols(), second.0.symbols())
}

// Whether the left side differs from the one before it.
fn is_new(keys: &[Key], index: usize) -> bool
    requires { index < length keys.now }
    ensures yes { OnTrue result ((m : ℕ) (a b : Key) → suc m ≡ index → slice_get keys.now m ≡ Some a
        → slice_get keys.now index ≡ Some b → a.0.now ≡ b.0.now → ⊥) }
    ensures no { OnFalse result ((m : ℕ) × (a : Key) × (b : Key) × (suc m ≡ index)
        × (slice_get keys.now m ≡ Some a) × (slice_get keys.now index ≡ Some b)
        × (a.0.now ≡ b.0.now)) }
{
    if index == 0 {
        return true;
    }
    !is_same(key_at(keys, index - 1), key_at(keys, index))
}

// The rule with its right side reduced.
fn reduced(alloc: Global, rules: &Indexed<'_>, rule: &Rule) -> Result<Rule, AllocError>
    ensures left { IfOk result (λ r. r.left ≡ rule.now.left) }
    ensures right { IfOk result (λ r. Reduces rules.now rule.now.right r.right) }
    ensures birth { IfOk result (λ r. r.birth ≡ rule.now.birth) }
{
    let left = rule.left.clone()?;
    let mut right = Vec::from_slice(alloc, rule.right.symbols())?;
    rules.reduce(&mut right);
    Ok(Rule::new(left, Word::new(right), rule.birth))
}

// Puts the rule last.
fn put(found: &mut Vec<Rule>, rule: Rule) -> Result<(), AllocError>
    ensures { OnOk result (found.new.items ≡ found.old.items ++ rule ∷ []) }
{
    found.push(rule)?;
    Ok(())
}

// Adds the rule of one key more, if its left side differs from the one before it.
fn add(
    alloc: Global,
    rules: &Indexed<'_>,
    keys: &[Key],
    index: usize,
    found: &mut Vec<Rule>,
) -> Result<(), AllocError>
    requires in_range { index < length keys.now }
    requires keys { AreKeys rules.now keys.now }
    requires sorted { IsSorted key_cmp keys.now }
    requires so_far { FoundBelow rules.now keys.now index found.old.items }
    ensures { OnOk result (FoundBelow rules.now keys.now (index + 1) found.new.items) }
{
    if !is_new(keys, index) {
        return Ok(());
    }
    let key = key_at(keys, index);
    let rule = rules.rule(key.1);
    let new = reduced(alloc, rules, rule)?;
    put(found, new)
}

// The rules of sorted keys, each left side once.
fn rules_of(alloc: Global, rules: &Indexed<'_>, keys: &[Key]) -> Result<Vec<Rule>, AllocError>
    requires keys { AreKeys rules.now keys.now }
    requires sorted { IsSorted key_cmp keys.now }
    ensures { IfOk result (λ v. Found rules.now v.items) }
{
    let mut found: Vec<Rule> = Vec::with_capacity(alloc, keys.len())?;
    for n in 0..keys.len() {
        add(alloc, rules, keys, n, &mut found)?;
    }
    Ok(found)
}

// The rule at a place with its right side reduced, if none of the proper factors of its left side can be reduced.
pub(crate) fn reduced_at(
    alloc: Global,
    rules: &Indexed<'_>,
    place: usize,
) -> Result<Option<Rule>, AllocError>
    requires { place < length rules.now }
    ensures { IfOk result (λ o. MatchOption o
        ((rule : Rule) → slice_get rules.now place ≡ Some rule
        → EachFactor rule.left (IsIrreducible (Step rules.now)) → ⊥)
        (IsReducedAt rules.now place)) }
{
    let rule = rules.rule(place);
    if !is_minimal(rules, rule.left.symbols()) {
        return Ok(None);
    }
    let new = reduced(alloc, rules, rule)?;
    Ok(Some(new))
}

// The reduced system that the rules give.
pub(crate) fn find(alloc: Global, rules: &Indexed) -> Result<Vec<Rule>, AllocError>
    ensures { IfOk result (λ v. Found rules.now v.items) }
{
    let mut keys = keys_of(alloc, rules)?;
    keys.sort_unstable();
    rules_of(alloc, rules, &keys)
}

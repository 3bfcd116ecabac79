//! Evidence that a requirement follows from a list, found without completing it.
ghost use Rattle.std.specs.Prelude.{◌≡◌, ◌⊎◌, ◌<◌, ◌^◌, ◌-◌, ◌++◌, ◌∷◌, ⊤, ℕ, [], IfOk, IsTrue, MatchOption, OnOk, length};
ghost use Rattle.swreq_machine.specs.swreq_derive.{Derivation.{Derivable}, Derivation.Source.{Written}, Derivation.TermStatement.{Requires}, Facts.{requirement_of}};
ghost use Rattle.swreq_homotopy.specs.swreq_word.Relations.{Linked};
ghost use Rattle.swreq_machine.specs.swreq_rule.{declared.rules.Rule.{Rule}, Steps.{Step}};
ghost use Rattle.swreq_homotopy.specs.swreq_pair.Pairs.{HasPair, IsNumberOf};
ghost use Rattle.swreq_homotopy.specs.Evidence.{AreLoops, IsMarked};
ghost use Rattle.swreq_candidates.specs.Evidence.{AreRulesOfRest};
ghost use Rattle.swreq_machine.specs.swreq_symbols.{Meaning.{facts_of, symbols_of}, Texts.{IsRequirementOfText, world_of}};
ghost use Rattle.swreq_machine.specs.swreq_valid.Plans.{AreRequirementsOfText, listed};
ghost use Rattle.swreq_minimal.specs.{Evident.{HasSides, IsOfEquation, LinkLast}, Lists.{IsAskedOf}};
ghost use Rattle.swreq_list_rules.specs.Settings.{facts_in, params_in, says_in};

use crate::plain::{are_plain, has_plain_types};
use crate::text_lists::TextList;
use std::alloc::{AllocError, Global};
use std::cmp::Ordering;
use swreq_homotopy::laws::evidence_links;
use swreq_homotopy::{loop_of_pair, redundant};
use swreq_list_rules::Setting;
use swreq_machine::derive::Requirement;
use swreq_machine::pair::{Pair, pairs_up_to};
use swreq_machine::path::Loop;
use swreq_machine::rule::{Birth, Place, Rule};
use swreq_machine::symbols::{Text, equation};
use swreq_machine::valid::CheckedText;
use swreq_machine::word::{Word, compare};

// ---- rules of equations

/// The rule with these two sides, the greater one on the left, or None where they are the same.
fn oriented(left: Word, right: Word) -> Option<Rule>
    ensures { MatchOption result ⊤ (HasSides left right) }
{
    match compare(right.symbols(), left.symbols()) {
        Ordering::Less => Some(Rule::new(left, right, Birth::Given(0))),
        _ => match compare(left.symbols(), right.symbols()) {
            Ordering::Less => Some(Rule::new(right, left, Birth::Given(0))),
            _ => None,
        },
    }
}

/// The rule of a requirement's equation, or None where its two sides are the same.
fn rule_of(alloc: Global, text: &Text<'_>, r: Requirement) -> Result<Option<Rule>, AllocError>
    requires { IsRequirementOfText text.now r }
    ensures { IfOk result (λ o. MatchOption o ⊤
        (IsOfEquation (symbols_of text.now.world.now.lexicon)
        (requirement_of text.now.table.now r))) }
{
    let sides = equation(alloc, text, None, &r)?;
    Ok(oriented(sides.0, sides.1))
}

/// Adds the rule of a requirement's equation, unless its two sides are the same.
fn add_rule(
    alloc: Global,
    text: &Text<'_>,
    r: Requirement,
    rules: &mut Vec<Rule>,
) -> Result<(), AllocError>
    requires { IsRequirementOfText text.now r }
    ensures { OnOk result ((rules.new.items ≡ rules.old.items)
        ⊎ ((rule : Rule) × (rules.new.items ≡ rules.old.items ++ rule ∷ [])
        × IsOfEquation (symbols_of text.now.world.now.lexicon)
        (requirement_of text.now.table.now r) rule)) }
{
    let found = rule_of(alloc, text, r)?;
    match found {
        None => Ok(()),
        Some(rule) => {
            rules.push(rule)?;
            Ok(())
        }
    }
}

/// The rules of the protocols, and then those of the equations of a list.
fn rules_of(
    alloc: Global,
    checked: &CheckedText<'_, '_>,
    list: &[Requirement],
) -> Result<Vec<Rule>, AllocError>
    requires { AreRequirementsOfText checked.now.text list.now }
    ensures { IfOk result (λ v. AreRulesOfRest (symbols_of checked.now.text.world.now.lexicon)
        (facts_of (world_of checked.now.text)) []
        (listed checked.now.text.table.now list.now) v.items) }
{
    let mut rules = checked.protocols.rules().written_out(alloc)?;
    for k in 0..list.len() {
        let r = list[k];
        add_rule(alloc, &checked.text, r, &mut rules)?;
    }
    Ok(rules)
}

// ---- loops

/// Rules that are so few that each has a number, and so has one more.
#[derive(Clone, Copy)]
struct Few<'a> {
    rules: &'a [Rule],
    ghost few: { length rules.now < 2 ^ 32 - 1 },
}

/// Adds the loop of the pair at a place, if its two sides reduce to one word.
fn add_loop(
    alloc: Global,
    all: &Few<'_>,
    place: Place,
    loops: &mut Vec<Loop>,
) -> Result<(), AllocError>
    requires pair { HasPair all.now.rules.now place }
    requires loops { AreLoops all.now.rules.now loops.old.items }
    ensures { OnOk result (AreLoops all.now.rules.now loops.new.items) }
{
    let found = loop_of_pair(alloc, all.rules, place)?;
    match found {
        None => Ok(()),
        Some(round) => {
            loops.push(round)?;
            Ok(())
        }
    }
}

/// Whether a loop of the pair may show the last rule: one of its two sides begins with the left side of that rule, or that rule is one of
/// the two and leads to the whole of a side. A loop that is left out may leave evidence unfound, and a limit told in place of an answer.
fn may_show(rules: &[Rule], pair: &Pair) -> bool {
    let (left, right) = (pair.left.symbols(), pair.right.symbols());
    match rules.last() {
        None => false,
        Some(last) => {
            let start = last.left.symbols();
            let end = last.right.symbols();
            left.starts_with(start)
                || right.starts_with(start)
                || (is_of_last(rules, pair.place) && (left == end || right == end))
        }
    }
}

/// Whether the last rule is one of the two at the place.
fn is_of_last(rules: &[Rule], place: Place) -> bool {
    place.i as usize == rules.len() || place.j as usize == rules.len()
}

/// Adds the loop of the pair, if it may show the last rule, and its two sides reduce to one word.
fn add_pair(
    alloc: Global,
    all: &Few<'_>,
    pair: &Pair,
    loops: &mut Vec<Loop>,
) -> Result<(), AllocError>
    requires pair { HasPair all.now.rules.now pair.now.place }
    requires loops { AreLoops all.now.rules.now loops.old.items }
    ensures { OnOk result (AreLoops all.now.rules.now loops.new.items) }
{
    if may_show(all.rules, pair) {
        add_loop(alloc, all, pair.place, loops)
    } else {
        Ok(())
    }
}

/// Adds those loops of the pairs of the rule with this number with itself and with the rules before it that may show the last rule.
fn add_loops(
    alloc: Global,
    all: &Few<'_>,
    number: u32,
    loops: &mut Vec<Loop>,
) -> Result<(), AllocError>
    requires number { IsNumberOf all.now.rules.now number }
    requires loops { AreLoops all.now.rules.now loops.old.items }
    ensures { OnOk result (AreLoops all.now.rules.now loops.new.items) }
{
    let pairs = pairs_up_to(alloc, all.rules, number)?;
    for k in 0..pairs.len() {
        add_pair(alloc, all, &pairs[k], loops)?;
    }
    Ok(())
}

/// Of the pairs of which one rule stands from this place on, the loops that may show the last rule.
fn loops_from(alloc: Global, all: &Few<'_>, from: usize) -> Result<Vec<Loop>, AllocError>
    ensures { IfOk result (λ v. AreLoops all.now.rules.now v.items) }
{
    let mut loops = Vec::new(alloc);
    for k in from..all.rules.len() {
        let number = k as u32 + 1;
        add_loops(alloc, all, number, &mut loops)?;
    }
    Ok(loops)
}

/// `count` marks, all set.
fn all_marked(alloc: Global, count: usize) -> Result<Vec<bool>, AllocError>
    ensures { IfOk result (λ v. length v.items ≡ count) }
{
    let mut marks = Vec::new(alloc);
    for _ in 0..count {
        marks.push(true)?;
    }
    Ok(marks)
}

/// `count` marks, of which the last alone is set.
fn last_marked(alloc: Global, count: usize) -> Result<Vec<bool>, AllocError>
    ensures count { IfOk result (λ v. length v.items ≡ count) }
    ensures last { IfOk result (λ v. (n : ℕ) → IsMarked v.items n → n ≡ count) }
{
    let mut marks = Vec::new(alloc);
    for k in 0..count {
        marks.push(k + 1 == count)?;
    }
    Ok(marks)
}

/// Whether one of the loops shows the last rule, which alone may go. True comes only where the other rules link its two sides.
fn shows(alloc: Global, rules: &[Rule], loops: &[Loop]) -> Result<bool, AllocError>
    requires { AreLoops rules.now loops.now }
    ensures { IfOk result (λ b. IsTrue b → LinkLast rules.now) }
{
    let keep = all_marked(alloc, rules.len())?;
    let may = last_marked(alloc, rules.len())?;
    evidence_links(rules, &keep);
    let found = redundant(alloc, rules, loops, &keep, &may)?;
    Ok(found.is_some())
}

/// Whether a loop of pairs from a place on shows the last rule. True comes only where the other rules link its two sides.
fn shows_last(alloc: Global, all: &Few<'_>, from: usize) -> Result<bool, AllocError>
    ensures { IfOk result (λ b. IsTrue b → LinkLast all.now.rules.now) }
{
    let loops = loops_from(alloc, all, from)?;
    shows(alloc, all.rules, &loops)
}

/// Whether a loop shows a rule over others. True comes only where these link its two sides.
fn is_shown(alloc: Global, rules: Vec<Rule>, from: usize, rule: Rule) -> Result<bool, AllocError>
    ensures { IfOk result (λ b. IsTrue b → Linked (Step rules.items) rule.left rule.right) }
{
    let mut all = rules;
    all.push(rule)?;
    if all.len() < 4_294_967_295 {
        let few = Few { rules: &all };
        shows_last(alloc, &few, from)
    } else {
        Ok(false)
    }
}

// ---- evidence

/// Whether a loop shows that a requirement follows from the list. True comes only where every type parameter is plain in the list, and then
/// the requirement is derivable from it.
pub(crate) fn is_evident(
    alloc: Global,
    setting: &Setting<'_>,
    list: &[Requirement],
    r: Requirement,
) -> Result<bool, AllocError>
    requires { IsAskedOf setting.now list.now r }
    ensures { IfOk result (λ b. IsTrue b → Derivable (facts_in setting.now)
        (Written (params_in setting.now) (listed setting.now.checked.text.table.now list.now))
        (Requires (says_in setting.now r))) }
{
    let checked = &setting.checked;
    let among = TextList {
        text: checked.text,
        params: setting.params,
        list,
    };
    if !are_plain(&among) {
        return Ok(false);
    }
    if !has_plain_types(&among, r) {
        return Ok(false);
    }
    let rules = rules_of(alloc, checked, list)?;
    let found = rule_of(alloc, &checked.text, r)?;
    match found {
        None => Ok(false),
        Some(rule) => {
            let from = checked.protocols.rules().count();
            is_shown(alloc, rules, from, rule)
        }
    }
}

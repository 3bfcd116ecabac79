//! The path of the reduction of a word.

ghost use Rattle.std.specs.Prelude.{◌≡◌, ◌-◌, ◌<◌, ◌^◌, List, length, IfOk, OnOk, OnErr};
ghost use Rattle.swreq_rule.specs.swreq_word.{declared.symbols.Symbol.{Symbol}, Overlap.{Containment}};
ghost use Rattle.swreq_rule.specs.{Reduction.{FirstRedex, IsFirstOf, Reduces}, Steps.{RuleAt}, declared.rules.Rule.{Rule}};
ghost use Rattle.swreq_path.specs.{Paths.{HasTarget}, Reductions.{AddsReductionStep, IsRedex, IsReductionPath, StepsAt}};

use crate::{Path, RewriteStep};
use std::alloc::{AllocError, Global};
use swreq_rule::word::{Symbol, Word};
use swreq_rule::{Redex, Rule, first_redex, take_step_of};
use swreq_text::Seq;

/// The step that puts the right side of the rule with this number in place of its left side, which stands in the word at the place.
pub fn step_of(
    alloc: Global,
    rule: &Rule,
    w: &[Symbol],
    redex: Redex,
) -> Result<RewriteStep, AllocError>
    requires number { redex.number < 2 ^ 32 }
    requires there { Containment w.now rule.now.left redex.at }
    ensures { IfOk result (λ step. (rules : List Rule) → RuleAt rules redex.number rule.now
        → (v : List Symbol) × StepsAt rules step redex.at redex.number w.now v) }
{
    let end = redex.at + rule.left.symbols().len();
    let before = Word::new(Vec::from_slice(alloc, &w[..redex.at])?);
    let after = Word::new(Vec::from_slice(alloc, &w[end..])?);
    Ok(RewriteStep {
        before,
        rule: redex.number as u32,
        forward: true,
        after,
    })
}

/// The step that puts the right side of the rule of the redex in place of its left side there.
pub fn step_at(
    alloc: Global,
    rules: &[Rule],
    w: &[Symbol],
    redex: Redex,
) -> Result<RewriteStep, AllocError>
    requires few { length rules.now < 2 ^ 32 - 1 }
    requires redex { IsRedex rules.now w.now redex.at redex.number }
    ensures { IfOk result
        (λ step. (v : List Symbol) × StepsAt rules.now step redex.at redex.number w.now v) }
{
    step_of(alloc, &rules[redex.number - 1], w, redex)
}

/// Takes the step of reduction at the first redex of the word, which is by this rule, and puts it last. If memory runs out, the word and
/// the steps are as before.
pub fn take_redex_of(
    alloc: Global,
    rule: &Rule,
    word: &mut Vec<Symbol>,
    redex: Redex,
    steps: &mut Vec<RewriteStep>,
) -> Result<(), AllocError>
    requires number { redex.number < 2 ^ 32 }
    requires redex { IsFirstOf rule.now word.old.items redex.at }
    ensures ok { OnOk result ((rules : List Rule) → RuleAt rules redex.number rule.now
        → FirstRedex rules word.old.items redex.at redex.number
        → AddsReductionStep rules steps.old.items steps.new.items word.old.items word.new.items) }
    ensures err { OnErr result
        ((word.new.items ≡ word.old.items) × (steps.new.items ≡ steps.old.items)) }
{
    let step = step_of(alloc, rule, word, redex)?;
    steps.push(step)?;
    take_step_of(rule, word, redex.at);
    Ok(())
}

/// Takes the step of reduction at the first redex of the word, and puts it last. If memory runs out, the word and the steps are as before.
pub fn take_redex(
    alloc: Global,
    rules: &[Rule],
    word: &mut Vec<Symbol>,
    redex: Redex,
    steps: &mut Vec<RewriteStep>,
) -> Result<(), AllocError>
    requires few { length rules.now < 2 ^ 32 - 1 }
    requires redex { FirstRedex rules.now word.old.items redex.at redex.number }
    ensures ok { OnOk result (AddsReductionStep rules.now steps.old.items steps.new.items
        word.old.items word.new.items) }
    ensures err { OnErr result
        ((word.new.items ≡ word.old.items) × (steps.new.items ≡ steps.old.items)) }
{
    take_redex_of(alloc, &rules[redex.number - 1], word, redex, steps)
}

/// The path of the reduction of the word, from the word to that to which it reduces.
pub fn path_of(alloc: Global, rules: &[Rule], w: &[Symbol]) -> Result<Path, AllocError>
    requires { length rules.now < 2 ^ 32 - 1 }
    ensures reduction { IfOk result
        (λ path. (v : List Symbol) × IsReductionPath rules.now path w.now v) }
    ensures target { IfOk result
        (λ path. (v : List Symbol) × HasTarget rules.now path v × Reduces rules.now w.now v) }
{
    let start = Word::new(Vec::from_slice(alloc, w)?);
    let mut word = Vec::from_slice(alloc, w)?;
    let mut steps = Vec::new(alloc);
    'steps: while let Some(redex) = first_redex(rules, &word) {
        take_redex(alloc, rules, &mut word, redex, &mut steps)?;
    }
    Ok(Path {
        start,
        steps: Seq::new(steps),
    })
}

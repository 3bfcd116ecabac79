//! One step of rewriting.

ghost use Rattle.std.specs.Prelude.{◌≡◌, ◌++◌, List, IfOk};
ghost use Rattle.swreq_rule.specs.swreq_word.declared.symbols.Symbol.{Symbol};
ghost use Rattle.swreq_rule.specs.{declared.rules.Rule.{Rule}, Steps.{RuleAt}};
ghost use Rattle.swreq_path.specs.{Inverse.{inverse_step}, Paths.{StepLeads, put_side}};

use std::alloc::{AllocError, Global};
use swreq_rule::Rule;
use swreq_rule::word::{Symbol, Word};

/// One side of a rule put in place of the other, at one place of a word.
#[derive(Debug, Drop)]
pub struct RewriteStep {
    /// The part of the word on the left of the replaced side.
    pub before: Word,
    /// The number of the rule, counted from 1.
    pub rule: u32,
    /// Whether the left side is replaced with the right side, and not the right side with the left side.
    pub forward: bool,
    /// The part of the word on the right of the replaced side.
    pub after: Word,
}

impl Clone for RewriteStep {
    ghost is_clone = { λ step copy. copy ≡ step };

    fn clone(&self) -> Result<RewriteStep, AllocError> {
        let before = self.before.clone()?;
        let after = self.after.clone()?;
        Ok(RewriteStep {
            before,
            rule: self.rule,
            forward: self.forward,
            after,
        })
    }
}

// The side of the rule that a step in this direction puts in place of the other.
fn put_by(rule: &Rule, forward: bool) -> &[Symbol]
    ensures { result.now ≡ put_side forward rule.now }
{
    if forward {
        rule.right.symbols()
    } else {
        rule.left.symbols()
    }
}

// The three words, one after the other.
fn joined(
    alloc: Global,
    before: &[Symbol],
    side: &[Symbol],
    after: &[Symbol],
) -> Result<Word, AllocError>
    ensures { IfOk result (λ w. w ≡ before.now ++ (side.now ++ after.now)) }
{
    let mut word = Vec::from_slice(alloc, before)?;
    word.extend_from_slice(side)?;
    word.extend_from_slice(after)?;
    Ok(Word::new(word))
}

impl RewriteStep {
    /// The same step the other way.
    pub fn inverse(&self) -> Result<RewriteStep, AllocError>
        ensures { IfOk result (λ step. step ≡ inverse_step self.now) }
    {
        let before = self.before.clone()?;
        let after = self.after.clone()?;
        Ok(RewriteStep {
            before,
            rule: self.rule,
            forward: !self.forward,
            after,
        })
    }

    /// The word to which the step leads.
    pub fn target(&self, alloc: Global, rules: &[Rule]) -> Result<Word, AllocError>
        requires { (rule : Rule) × RuleAt rules.now self.now.rule rule }
        ensures { IfOk result
            (λ w. (u v : List Symbol) → StepLeads rules.now self.now u v → w ≡ v) }
    {
        let rule = &rules[self.rule as usize - 1];
        joined(
            alloc,
            self.before.symbols(),
            put_by(rule, self.forward),
            self.after.symbols(),
        )
    }
}

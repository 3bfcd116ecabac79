//! The paths by which complete rules reduce words.

ghost use Rattle.std.specs.Prelude.{◌-◌, ◌<◌, ◌^◌, List, length, IfOk};
ghost use Rattle.swreq_rule.specs.swreq_word.{declared.symbols.Symbol.{Symbol}, Least.{IsLeast}, Relations.{Linked}};
ghost use Rattle.swreq_rule.specs.Steps.{Step};
ghost use Rattle.swreq_path.specs.{Paths.{HasTarget}, Reductions.{IsReductionPath}};

use crate::CompleteRules;
use crate::indexed::Indexed;
use crate::reducing::first_redex;
use std::alloc::{AllocError, Global};
use swreq_path::{Path, take_redex_of};
use swreq_rule::word::{Symbol, Word};
use swreq_text::Seq;

// The path of the reduction of the word. Each step has a copy of what stands on both sides of it, so the search for the next redex may
// start at the first symbol again.
fn reduction_path(alloc: Global, rules: &Indexed<'_>, word: &[Symbol]) -> Result<Path, AllocError>
    requires few { length rules.now < 2 ^ 32 - 1 }
    ensures { IfOk result (λ path. (v : List Symbol) × IsReductionPath rules.now path word.now v) }
{
    let start = Word::new(Vec::from_slice(alloc, word)?);
    let mut reached = Vec::from_slice(alloc, word)?;
    let mut steps = Vec::new(alloc);
    'steps: while let Some(redex) = first_redex(rules, &reached, 0) {
        let rule = rules.rule(redex.number - 1);
        take_redex_of(alloc, rule, &mut reached, redex, &mut steps)?;
    }
    Ok(Path {
        start,
        steps: Seq::new(steps),
    })
}

impl CompleteRules<'_> {
    /// The path of the reduction of the word, from the word to the least of all words congruent to it.
    pub fn path(&self, alloc: Global, word: &[Symbol]) -> Result<Path, AllocError>
        ensures reduction { IfOk result
            (λ path. (v : List Symbol) × IsReductionPath self.now path word.now v) }
        ensures least { IfOk result (λ path.
            (v : List Symbol) × HasTarget self.now path v × IsLeast (Linked (Step self.now)) v) }
    {
        let _complete = self.count();
        reduction_path(alloc, self.indexed(), word)
    }
}

//! Evidence that a rule is redundant: the way round a loop without a step of the rule.

ghost use Rattle.std.specs.Prelude.{◌≡◌, ◌<◌, length, IfOk};
ghost use Rattle.swreq_path.specs.Paths.{IsLoop};
ghost use Rattle.swreq_homotopy.specs.Search.{GoesRound, IsBareAt, rest_of};

use std::alloc::{AllocError, Global};
use swreq_path::{Loop, Path, RewriteStep, append_copies, invert};
use swreq_rule::Rule;
use swreq_text::Seq;

/// A rule, and a path from its left side to its right side that does without it.
#[derive(Debug, Drop)]
pub struct Evidence {
    /// The number of the rule, counted from 1.
    pub rule: u32,
    /// From the left side of the rule to its right side.
    pub path: Path,
}

// The steps after the one at the place, and then those up to it.
fn rest(alloc: Global, steps: &[RewriteStep], at: usize) -> Result<Vec<RewriteStep>, AllocError>
    requires { at < length steps.now }
    ensures { IfOk result (λ v. v.items ≡ rest_of steps.now at) }
{
    let mut rest = Vec::new(alloc);
    append_copies(&mut rest, &steps[at + 1..])?;
    append_copies(&mut rest, &steps[..at])?;
    Ok(rest)
}

// Evidence of the rule of the step at the place, which has nothing before and nothing after its side: the way round the loop without it.
pub(crate) fn round_from(
    alloc: Global,
    rules: &[Rule],
    round: &Loop,
    at: usize,
) -> Result<Evidence, AllocError>
    requires over { IsLoop rules.now round.now }
    requires bare { IsBareAt round.now.path.steps at }
    ensures { IfOk result (GoesRound rules.now round.now.path.steps at) }
{
    let steps = round.path.steps.items();
    let step = &steps[at];
    let rule = &rules[step.rule as usize - 1];
    let rest = rest(alloc, steps, at)?;
    if step.forward {
        let start = rule.right.clone()?;
        let back = Path {
            start,
            steps: Seq::new(rest),
        };
        let path = invert(alloc, rules, &back)?;
        Ok(Evidence {
            rule: step.rule,
            path,
        })
    } else {
        let start = rule.left.clone()?;
        let path = Path {
            start,
            steps: Seq::new(rest),
        };
        Ok(Evidence {
            rule: step.rule,
            path,
        })
    }
}

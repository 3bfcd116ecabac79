//! Paths, loops, and the operations on them.

ghost use Rattle.std.specs.Prelude.{◌≡◌, ◌++◌, List, IfOk, OnOk};
ghost use Rattle.swreq_rule.specs.swreq_word.declared.symbols.Symbol.{Symbol};
ghost use Rattle.swreq_path.specs.{Inverse.{inverse}, Paths.{HasTarget, IsPath}};

use crate::RewriteStep;
use std::alloc::{AllocError, Global};
use swreq_rule::Rule;
use swreq_rule::word::{Symbol, Word};
use swreq_text::Seq;

/// Steps, one after the other, from a word on.
#[derive(Debug, Drop)]
pub struct Path {
    pub start: Word,
    pub steps: Seq<RewriteStep>,
}

/// A path that is to end where it begins.
#[derive(Debug, Drop)]
pub struct Loop {
    pub path: Path,
}

/// Puts copies of the steps last. If memory runs out, some of them may stand there.
pub fn append_copies(out: &mut Vec<RewriteStep>, steps: &[RewriteStep]) -> Result<(), AllocError>
    ensures { OnOk result (out.new.items ≡ out.old.items ++ steps.now) }
{
    for step in steps {
        out.push(step.clone()?)?;
    }
    Ok(())
}

// The steps in opposite order, each the other way.
fn inverses(alloc: Global, steps: &[RewriteStep]) -> Result<Vec<RewriteStep>, AllocError>
    ensures { IfOk result (λ v. v.items ≡ inverse steps.now) }
{
    let mut out = Vec::with_capacity(alloc, steps.len())?;
    for step in steps.iter().rev() {
        out.push(step.inverse()?)?;
    }
    Ok(out)
}

impl Path {
    /// The word at which the path begins.
    pub fn source(&self) -> &[Symbol]
        ensures { result.now ≡ self.now.start }
    {
        self.start.symbols()
    }

    /// The word after the last step.
    pub fn target(&self, alloc: Global, rules: &[Rule]) -> Result<Word, AllocError>
        requires { IsPath rules.now self.now }
        ensures { IfOk result (λ w. HasTarget rules.now self.now w) }
    {
        let steps = self.steps.items();
        let count = steps.len();
        if count == 0 {
            return self.start.clone();
        }
        let last = &steps[count - 1];
        last.target(alloc, rules)
    }
}

/// The steps of the first path and then those of the second, which begins where the first one ends.
pub fn compose(alloc: Global, rules: &[Rule], a: &Path, b: &Path) -> Result<Path, AllocError>
    requires first { HasTarget rules.now a.now b.now.start }
    requires second { IsPath rules.now b.now }
    ensures start { IfOk result (λ path. path.start ≡ a.now.start) }
    ensures steps { IfOk result (λ path. path.steps ≡ a.now.steps ++ b.now.steps) }
    ensures target { IfOk result
        (λ path. (v : List Symbol) → HasTarget rules.now b.now v → HasTarget rules.now path v) }
{
    let start = a.start.clone()?;
    let mut steps = Vec::new(alloc);
    append_copies(&mut steps, a.steps.items())?;
    append_copies(&mut steps, b.steps.items())?;
    Ok(Path {
        start,
        steps: Seq::new(steps),
    })
}

/// The path the other way: its steps in opposite order, each the other way, from its target to its source.
pub fn invert(alloc: Global, rules: &[Rule], a: &Path) -> Result<Path, AllocError>
    requires { IsPath rules.now a.now }
    ensures start { IfOk result (λ path. HasTarget rules.now a.now path.start) }
    ensures steps { IfOk result (λ path. path.steps ≡ inverse a.now.steps) }
    ensures target { IfOk result (λ path. HasTarget rules.now path a.now.start) }
{
    let start = a.target(alloc, rules)?;
    let steps = inverses(alloc, a.steps.items())?;
    Ok(Path {
        start,
        steps: Seq::new(steps),
    })
}

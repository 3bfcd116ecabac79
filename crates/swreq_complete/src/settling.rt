//! The moments of a completion, settled one by one: first the equations.

ghost use Rattle.std.specs.Prelude.{◌≡◌, ◌-◌, ◌<◌, ◌^◌, ◌++◌, ◌∷◌, [], length, IfOk, OnOk, MatchResult, MatchOption};
ghost use Rattle.swreq_rule.specs.{declared.rules.Birth.TheVariants.{Given}, declared.rules.Rule.{Rule}, Oriented.{IsOriented}};
ghost use Rattle.swreq_watch.specs.{declared.events.Event.TheVariants.{Born}, Told.{GrewBy}};
ghost use Rattle.swreq_complete.specs.{declared.limit.Stop.TheVariants.{Memory}, Progress.{GivenBelow, Settles}, Settling.{DoneWithin, HasCome, HasStoppedAmong, StoppedAt}};

use crate::indexed::Indexed;
use crate::limit::{Limits, Stop};
use crate::reading::reduce;
use crate::task::{Sides, Task};
use std::alloc::AllocError;
use swreq_rule::word::{Word, are_same};
use swreq_rule::{Birth, Rule, oriented};
use swreq_watch::{Event, Watch};

// The rule whose left side is the greater of the two sides, or none where they are equal.
fn rule_of(sides: &Sides, birth: Birth) -> Result<Option<Rule>, AllocError>
    ensures { IfOk result (λ found. MatchOption found
        (sides.now.left.items ≡ sides.now.right.items)
        (λ rule.
        (rule.birth ≡ birth) × IsOriented rule sides.now.left.items sides.now.right.items)) }
{
    if are_same(&sides.left, &sides.right) {
        return Ok(None);
    }
    let left = sides.left.clone()?;
    let right = sides.right.clone()?;
    Ok(oriented(Word::new(left), Word::new(right), birth))
}

// Tells the event.
pub(crate) fn tell<W: Watch>(watch: &mut W, event: &Event) -> Result<(), Stop>
    ensures { MatchResult result
        (λ _. GrewBy (W.told watch.old) (W.told watch.new) (event.now ∷ []))
        (λ s. (s ≡ Memory) × (W.told watch.new ≡ W.told watch.old)) }
{
    watch.tell(event)?;
    Ok(())
}

// Puts the rule of the event last.
fn keep(rules: &mut Indexed<'_>, event: Event) -> Result<(), Stop>
    requires { length rules.old < 2 ^ 32 - 1 }
    ensures { MatchResult result
        (λ _. (rule : Rule) → event ≡ Born rule → rules.new ≡ rules.old ++ rule ∷ [])
        (λ s. s ≡ Memory) }
{
    match event {
        Event::Start { .. } => Ok(()),
        Event::Born { rule } => {
            rules.push(rule)?;
            Ok(())
        }
    }
}

// Tells the rule and puts it last, and stops where it passes a limit.
fn bear<W: Watch>(
    rules: &mut Indexed<'_>,
    limits: Limits,
    watch: &mut W,
    rule: Rule,
) -> Result<(), Stop>
    requires { length rules.old < 2 ^ 32 - 1 }
    ensures { MatchResult result
        (λ _. DoneWithin limits (λ t. t ≡ rules.old ++ rule ∷ []) rules.old rules.new
        (W.told watch.old) (W.told watch.new))
        (λ s. StoppedAt limits (λ t. t ≡ rules.old ++ rule ∷ []) rules.old rules.new
        (W.told watch.old) (W.told watch.new) s) }
{
    let long = rule.left.symbols().len();
    let event = Event::Born { rule };
    tell(watch, &event)?;
    keep(rules, event)?;
    match limits.passed(rules.count(), long) {
        None => Ok(()),
        Some(which) => Err(Stop::Limit(which)),
    }
}

// Reduces both sides by the rules so far, and where they differ bears a rule.
pub(crate) fn settle_sides<W: Watch>(
    rules: &mut Indexed<'_>,
    limits: Limits,
    watch: &mut W,
    birth: Birth,
    sides: &mut Sides,
) -> Result<(), Stop>
    requires { length rules.old < 2 ^ 32 - 1 }
    ensures { MatchResult result
        (λ _. DoneWithin limits (λ t. Settles rules.old t birth sides.old.left.items
        sides.old.right.items) rules.old rules.new (W.told watch.old) (W.told watch.new))
        (λ s. StoppedAt limits (λ t. Settles rules.old t birth sides.old.left.items
        sides.old.right.items) rules.old rules.new (W.told watch.old) (W.told watch.new) s) }
{
    reduce(rules, &mut sides.left, &mut sides.counts)?;
    reduce(rules, &mut sides.right, &mut sides.counts)?;
    match rule_of(sides, birth)? {
        None => Ok(()),
        Some(rule) => bear(rules, limits, watch, rule),
    }
}

// Settles the equation with this number, counted from 1.
fn settle_equation<W: Watch>(
    rules: &mut Indexed<'_>,
    limits: Limits,
    watch: &mut W,
    number: usize,
    equation: &(Word, Word),
    sides: &mut Sides,
) -> Result<(), Stop>
    requires { length rules.old < 2 ^ 32 - 1 }
    ensures { MatchResult result
        (λ _. DoneWithin limits (λ t. Settles rules.old t (Given number) equation.now.0
        equation.now.1) rules.old rules.new (W.told watch.old) (W.told watch.new))
        (λ s. StoppedAt limits (λ t. Settles rules.old t (Given number) equation.now.0
        equation.now.1) rules.old rules.new (W.told watch.old) (W.told watch.new) s) }
{
    sides.set(equation.0.symbols(), equation.1.symbols())?;
    settle_sides(rules, limits, watch, Birth::Given(number), sides)
}

// Settles the equations in order.
pub(crate) fn settle_given<W: Watch>(
    task: &Task,
    rules: &mut Indexed<'_>,
    watch: &mut W,
    sides: &mut Sides,
) -> Result<(), Stop>
    requires { length rules.old < 2 ^ 32 - 1 }
    ensures { MatchResult result
        (λ _. HasCome task.now.limits (length rules.old) task.now.given.now (GivenBelow
        (length task.now.given.now)) rules.old rules.new (W.told watch.old) (W.told watch.new))
        (λ s. HasStoppedAmong task.now.limits (length rules.old) task.now.given.now rules.old
        rules.new (W.told watch.old) (W.told watch.new) s) }
{
    let given = task.given;
    for n in 0..given.len() {
        let equation = &given[n];
        settle_equation(rules, task.limits, watch, n + 1, equation, sides)?;
    }
    Ok(())
}

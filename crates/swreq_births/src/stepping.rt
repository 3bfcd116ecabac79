//! Steps by a rule whose two sides are read alike.
ghost use Rattle.std.specs.Prelude.{◌≡◌, ◌-◌, ◌<◌, OnOk, ◌++◌, Some, length, slice_get};
ghost use Rattle.swreq_complete.specs.{swreq_pair.Pairs.{IsNumberOf}, swreq_rule.Steps.{RuleAt}, swreq_path.Paths.{put_side, replaced_side}};
ghost use Rattle.swreq_derivation.specs.UnderWay.{ContinuesFrom};
ghost use Rattle.swreq_readings.specs.{Alphabets.{Fits}, Readable.{ReadsAlike}};
ghost use Rattle.swreq_births.specs.Unfolding.{IsStepAllowed};

use crate::history::RulePlace;
use crate::pairs::rule_sides;
use std::alloc::AllocError;
use swreq_complete::path::{Path, RewriteStep};
use swreq_complete::rule::Rule;
use swreq_derivation::Derivation;
use swreq_param::TermId;
use swreq_readings::{Alphabet, Sides, replace, replace_back};

/// The place of the rule with this number, counted from 1, in the same system.
pub(crate) fn before(at: RulePlace, number: u32) -> RulePlace
    ensures { result ≡ record { system = at.system; rule = number - 1 } }
{
    RulePlace {
        system: at.system,
        rule: (number as usize).saturating_sub(1),
    }
}

/// The rule with this number, counted from 1.
pub(crate) fn rule_of(rules: &[Rule], number: u32) -> &Rule
    requires { IsNumberOf rules.now number }
    ensures { RuleAt rules.now number result.now }
{
    &rules[number as usize - 1]
}

/// A step of a path.
pub(crate) fn step_of(path: &Path, place: usize) -> &RewriteStep
    requires { place < length path.now.steps }
    ensures { slice_get path.now.steps place ≡ Some result.now }
{
    &path.steps.items()[place]
}

/// A step puts one side of a rule in place of the other. If the sides are read alike there, the words before and after the step are read
/// alike.
pub(crate) fn take_step(
    alphabet: &Alphabet,
    derivation: &mut Derivation,
    subject: TermId,
    rule: &Rule,
    step: &RewriteStep,
) -> Result<(), AllocError>
    requires { IsStepAllowed alphabet.now derivation.old subject rule.now step.now }
    ensures both { OnOk result (ReadsAlike alphabet.now derivation.old derivation.new subject
        (step.now.before ++ (replaced_side step.now.forward rule.now ++ step.now.after))
        (step.now.before ++ (put_side step.now.forward rule.now ++ step.now.after))) }
    ensures continues { ContinuesFrom (Fits alphabet.now) derivation.old derivation.new }
{
    let before = step.before.symbols();
    let after = step.after.symbols();
    let sides = rule_sides(rule);
    if step.forward {
        return replace(alphabet, derivation, subject, before, sides, after);
    }
    let back = Sides {
        from: sides.to,
        to: sides.from,
    };
    replace_back(alphabet, derivation, subject, before, back, after)
}

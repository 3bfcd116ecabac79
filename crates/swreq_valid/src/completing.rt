//! The equations of a round, and the rules to which they complete.
#![tactic(auto, using(swreq_symbols::proofs::OfTexts::text_over))]

ghost use Rattle.std.specs.{Prelude.{◌≡◌, List, [], ◌∷◌, ◌++◌, length, IfOk, OnOk, vec_len}, Bool.{if◌then◌else◌}};
ghost use Rattle.swreq_rounds.specs.swreq_derive.Derivation.{TermRequirement};
ghost use Rattle.swreq_complete.specs.swreq_rule.declared.rules.Rule.{Rule};
ghost use Rattle.swreq_complete.specs.{Answers.{IsAnswer}, Events.{TellsEvents}};
ghost use Rattle.swreq_rounds.specs.Plan.{equation_of, given};
ghost use Rattle.swreq_symbols.specs.{Meaning.{symbols_of}, Texts.{IsRequirementOfText}};
ghost use Rattle.swreq_valid.specs.{Flags.{chosen}, Plans.{AreWanted, item_of, items_of, plan_of}, Rounds.{first_rules}};

use crate::wanted::{RoundRequirement, RoundStart};
use std::alloc::{AllocError, Global};
use swreq_complete::watch::Watch;
use swreq_complete::word::Word;
use swreq_complete::{CompleteRules, Failed, extend};
use swreq_symbols::{Text, equation};

/// Copies of the equations, in order.
fn copies(alloc: Global, equations: &[(Word, Word)]) -> Result<Vec<(Word, Word)>, AllocError>
    ensures { IfOk result (λ v. v.items ≡ equations.now) }
{
    let mut v = Vec::new(alloc);
    for e in equations {
        let left = e.0.clone()?;
        let right = e.1.clone()?;
        v.push((left, right))?;
    }
    Ok(v)
}

/// Puts the equation of the requirement last, where its flag is set.
fn join(
    alloc: Global,
    text: &Text<'_>,
    want: &RoundRequirement,
    used: bool,
    equations: &mut Vec<(Word, Word)>,
) -> Result<(), AllocError>
    requires want { IsRequirementOfText text.now want.now.requirement }
    ensures { OnOk result ((rs : List TermRequirement) → equations.new.items
        ≡ equations.old.items ++ (if used then equation_of (symbols_of text.now.world.now.lexicon)
        (item_of text.now.table.now rs want.now) ∷ [] else [])) }
{
    if used {
        let e = equation(alloc, text, want.over.owner(), &want.requirement)?;
        equations.push(e)?;
    }
    Ok(())
}

/// The equations of the round that uses the requirements whose flags are set.
pub(crate) fn given_by(
    alloc: Global,
    text: &Text<'_>,
    start: &RoundStart,
    used: &[bool],
) -> Result<Vec<(Word, Word)>, AllocError>
    requires wanted { AreWanted text.now.table.now text.now.world.now.lexicon start.now.all.items }
    requires flags { length used.now ≡ vec_len start.now.all }
    ensures { (base : List Rule)
        → IfOk result (λ v. v.items ≡ given (plan_of text.now.world.now text.now.table.now base
        start.now) (chosen
        (items_of text.now.table.now start.now.all.items) used.now)) }
{
    let mut v = copies(alloc, &start.basic)?;
    for k in 0..start.all.len() {
        let want = &start.all[k];
        join(alloc, text, want, used[k], &mut v)?;
    }
    Ok(v)
}

/// The rules from which each round starts: those that are borrowed, or none.
pub(crate) fn first_rules<'b>(
    alloc: Global,
    below: Option<&'b CompleteRules<'b>>,
) -> Result<CompleteRules<'b>, AllocError>
    ensures { IfOk result (λ rules. rules ≡ first_rules below.entry) }
{
    match below {
        None => Ok(CompleteRules::empty(alloc)),
        Some(rules) => rules.over(alloc),
    }
}

/// Completes the equations of the round that uses the requirements whose flags are set.
pub(crate) fn complete<'b, W: Watch>(
    alloc: Global,
    text: &Text<'_>,
    below: Option<&'b CompleteRules<'b>>,
    start: &RoundStart,
    used: &[bool],
    watch: &mut W,
) -> Result<CompleteRules<'b>, Failed>
    requires wanted { AreWanted text.now.table.now text.now.world.now.lexicon start.now.all.items }
    requires flags { length used.now ≡ vec_len start.now.all }
    ensures answer { IsAnswer start.now.limits (first_rules below.entry)
        (given (plan_of text.now.world.now text.now.table.now (first_rules below.entry) start.now)
        (chosen (items_of text.now.table.now start.now.all.items) used.now)) result }
    ensures told { TellsEvents start.now.limits (first_rules below.entry)
        (given (plan_of text.now.world.now text.now.table.now (first_rules below.entry) start.now)
        (chosen (items_of text.now.table.now start.now.all.items) used.now))
        (W.told watch.old) (W.told watch.new) result }
{
    let equations = given_by(alloc, text, start, used)?;
    let first = first_rules(alloc, below)?;
    extend(alloc, first, &equations, start.limits, watch)
}

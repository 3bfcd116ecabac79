//! Which requirements the rules show usable.
#![tactic(auto, using(swreq_symbols::proofs::OfTexts::text_over))]

ghost use Rattle.std.specs.Prelude.{◌≡◌, ◌↔◌, IfOk, IsTrue, List};
ghost use Rattle.swreq_rounds.specs.swreq_derive.Facts.{requirement_of};
ghost use Rattle.swreq_complete.specs.swreq_rule.declared.rules.Rule.{Rule};
ghost use Rattle.swreq_rounds.specs.swreq_correspondence.Shown.{ShowsUsable, ShowsValid};
ghost use Rattle.swreq_rounds.specs.Plan.{AreShown};
ghost use Rattle.swreq_symbols.specs.{Meaning.{facts_of, symbols_of}, Overs.{source_over}, Texts.{IsRequirementOfText, IsTypeOfText, term_of, world_of}, Vanishing.{Links}};
ghost use Rattle.swreq_valid.specs.{Flags.{Tells}, Plans.{AreWanted, items_of, plan_of}};

use crate::wanted::RoundStart;
use std::alloc::{AllocError, Global};
use swreq_complete::CompleteRules;
use swreq_complete::word::Symbol;
use swreq_symbols::{Over, Reading, Text, least_word};
use swreq_world::derive::Requirement;
use swreq_world::param::TermId;

/// Whether the rules show that a type parameter is valid.
pub(crate) fn is_shown(
    alloc: Global,
    text: &Text<'_>,
    rules: &CompleteRules<'_>,
    over: Over,
    subject: TermId,
) -> Result<bool, AllocError>
    requires t { IsTypeOfText text.now subject }
    ensures { IfOk result (λ b. IsTrue b
        ↔ ShowsValid (symbols_of text.now.world.now.lexicon) (facts_of (world_of text.now))
        (source_over over) (Links rules.now) (term_of text.now subject)) }
{
    let room = text
        .table
        .members(subject)
        .checked_add(2)
        .ok_or(AllocError)?;
    let mut word: Vec<Symbol> = Vec::with_capacity(alloc, room)?;
    let mut test: Vec<Symbol> = Vec::with_capacity(alloc, room)?;
    let reading = Reading {
        text: *text,
        rules,
        over,
    };
    Ok(least_word(&reading, subject, &mut word, &mut test))
}

/// Whether the rules show that the type parameters of a requirement are valid.
pub fn is_usable(
    alloc: Global,
    text: &Text<'_>,
    rules: &CompleteRules<'_>,
    over: Over,
    requirement: Requirement,
) -> Result<bool, AllocError>
    requires { IsRequirementOfText text.now requirement }
    ensures { IfOk result (λ b. IsTrue b
        ↔ ShowsUsable (symbols_of text.now.world.now.lexicon) (facts_of (world_of text.now))
        (source_over over) (Links rules.now) (requirement_of text.now.table.now requirement)) }
{
    match requirement {
        Requirement::Conf { subject, .. } => is_shown(alloc, text, rules, over, subject),
        Requirement::Layout { subject } => is_shown(alloc, text, rules, over, subject),
        Requirement::Same { left, right } => {
            if is_shown(alloc, text, rules, over, left)? {
                is_shown(alloc, text, rules, over, right)
            } else {
                Ok(false)
            }
        }
    }
}

/// Which requirements the rules show usable, by a flag for each.
pub(crate) fn usable(
    alloc: Global,
    text: &Text<'_>,
    start: &RoundStart,
    rules: &CompleteRules<'_>,
) -> Result<Vec<bool>, AllocError>
    requires wanted { AreWanted text.now.table.now text.now.world.now.lexicon start.now.all.items }
    ensures { (base : List Rule)
        → IfOk result (λ v. Tells (AreShown (plan_of text.now.world.now text.now.table.now base
        start.now) rules.now)
        (items_of text.now.table.now start.now.all.items) v.items) }
{
    let mut flags = Vec::new(alloc);
    for k in 0..start.all.len() {
        let want = &start.all[k];
        let shown = is_usable(alloc, text, rules, want.over, want.requirement)?;
        flags.push(shown)?;
    }
    Ok(flags)
}

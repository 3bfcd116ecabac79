//! The rules of the reduced system that can say a requirement.
ghost use Rattle.std.specs.{Prelude.{◌+◌, ◌<◌, ◌∷◌, IfOk, OnOk, length}, Bool.{Decides}};
ghost use Rattle.swreq_machine.specs.swreq_complete.Complete.{IsComplete};
ghost use Rattle.swreq_machine.specs.swreq_correspondence.Symbols.{Word};
ghost use Rattle.swreq_machine.specs.swreq_symbols.Vanishing.{Links};
ghost use Rattle.swreq_minimal.specs.OfParams.{AreOfParams, BeginsWithParam};

use std::alloc::{AllocError, Global};
use swreq_machine::complete::CompleteRules;
use swreq_machine::rule::Rule;
use swreq_machine::word::Symbol;

/// Whether the symbol is that of a generic parameter.
fn is_param(symbol: Symbol) -> bool
    ensures { (rest : Word) → Decides result (BeginsWithParam (symbol ∷ rest)) }
{
    match symbol {
        Symbol::Param(_, _) => true,
        _ => false,
    }
}

/// Whether a word begins with the symbol of a generic parameter.
fn begins_with_param(word: &[Symbol]) -> bool
    ensures { Decides result (BeginsWithParam word.now) }
{
    if word.is_empty() {
        return false;
    }
    is_param(word[0])
}

/// Adds the rule of the reduced system with the left side of the rule at a place, if there is one, and it begins with a generic parameter.
fn add(
    alloc: Global,
    rules: &CompleteRules<'_>,
    k: usize,
    system: &mut Vec<Rule>,
) -> Result<(), AllocError>
    requires within { k < length rules.now }
    requires so_far { AreOfParams (Links rules.now) rules.now k system.old.items }
    ensures { OnOk result (AreOfParams (Links rules.now) rules.now (k + 1) system.new.items) }
{
    if !begins_with_param(rules.rule(k).left.symbols()) {
        return Ok(());
    }
    let found = rules.canonical_at(alloc, k)?;
    match found {
        None => Ok(()),
        Some(rule) => {
            system.push(rule)?;
            Ok(())
        }
    }
}

/// The rules of the reduced system whose left sides begin with a generic parameter. No other rule says a requirement of a list.
pub(crate) fn of_params(alloc: Global, rules: &CompleteRules<'_>) -> Result<Vec<Rule>, AllocError>
    ensures system { IfOk result (λ v. AreOfParams (Links rules.now) rules.now
        (length rules.now) v.items) }
    ensures complete { IsComplete rules.now }
{
    let mut system: Vec<Rule> = Vec::new(alloc);
    for k in 0..rules.count() {
        add(alloc, rules, k, &mut system)?;
    }
    Ok(system)
}

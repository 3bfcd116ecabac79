//! Lines that are added, each with a rule that gives what it states.
ghost use Rattle.std.specs.{Prelude.{◌≡◌, IfOk, OnOk, map}, Bool.{Decides}};
ghost use Rattle.swreq_derive.specs.{Facts.{statement_of}, Instances.{AreStated, HasNumber, IsInstance}};
ghost use Rattle.swreq_derivation.specs.UnderWay.{AreIdsIn, ArePremises, ContinuesFrom, IsPremise, States, statements_in};

use crate::derivation::Derivation;
use std::alloc::AllocError;
use swreq_derive::{DerivRule, Statement};

/// The number of the line that states this.
fn premise(derivation: &Derivation, statement: Statement) -> usize
    requires { IsPremise derivation.now statement }
    ensures { HasNumber result (statements_in derivation.now)
        (statement_of derivation.now.table statement) }
{
    match derivation.number_of(statement) {
        Some(n) => n,
        None => unreachable!(),
    }
}

/// The numbers of the lines that state these.
fn premises(derivation: &Derivation, from: &[Statement]) -> Result<Vec<usize>, AllocError>
    requires { ArePremises derivation.now from.now }
    ensures { IfOk result (λ v. AreStated (statements_in derivation.now) v.items
        (map (statement_of derivation.now.table) from.now)) }
{
    let mut numbers = Vec::with_capacity(derivation.alloc(), from.len())?;
    for k in 0..from.len() {
        numbers.push(premise(derivation, from[k]))?;
    }
    Ok(numbers)
}

/// Whether a line states this.
pub fn is_stated(derivation: &Derivation, statement: Statement) -> bool
    requires { AreIdsIn derivation.now.table statement }
    ensures { Decides result (States derivation.now (statement_of derivation.now.table
        statement)) }
{
    match derivation.number_of(statement) {
        Some(_) => true,
        None => false,
    }
}

/// States what a rule gives from these premises, unless a line states it.
pub(crate) fn add(
    derivation: &mut Derivation,
    rule: DerivRule,
    from: &[Statement],
    gives: Statement,
) -> Result<(), AllocError>
    requires from { ArePremises derivation.old from.now }
    requires gives { AreIdsIn derivation.old.table gives }
    ensures table { derivation.new.table ≡ derivation.old.table }
    ensures says { OnOk result (States derivation.new (statement_of derivation.old.table gives)) }
    ensures continues { ContinuesFrom (λ b. IsInstance b.facts b.params b.written rule
        (map (statement_of derivation.old.table) from.now)
        (statement_of derivation.old.table gives)) derivation.old derivation.new }
{
    if is_stated(derivation, gives) {
        return Ok(());
    }
    let numbers = premises(derivation, from)?;
    derivation.push(rule, numbers, gives)
}

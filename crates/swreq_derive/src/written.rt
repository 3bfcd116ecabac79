//! Whether the rules that take nothing give a statement: GENERIC, CONF, SAME and LAYOUT.
ghost use Rattle.std.specs.Prelude.{◌≡◌, ◌↔◌, [], IsTrue};
ghost use Rattle.swreq_derive.specs.{declared.requirements.Requirement.{Requirement}, declared.requirements.Statement.TheVariants.{Holds}};
ghost use Rattle.swreq_derive.specs.declared.lines.DerivRule.TheVariants as Rule;
ghost use Rattle.swreq_derive.specs.{Instances.{HasNumber}, Lines.{IsGiven}};

use crate::inference::NullaryInference;
use crate::known::Facts;
use crate::requirements::{Requirement, Statement};
use crate::shapes::{is_same, requirement_at};

/// Whether the statement is the requirement of the list with this number.
pub(crate) fn is_listed(list: &[Requirement], number: u32, conclusion: Statement) -> bool
    ensures { IsTrue result
        ↔ ((r : Requirement) × HasNumber number list.now r × (conclusion ≡ Holds r)) }
{
    match requirement_at(list, number) {
        None => false,
        Some(r) => is_same(conclusion, Statement::Holds { r }),
    }
}

pub(crate) fn generic<F: Facts>(i: &NullaryInference<F>) -> bool
    ensures { IsTrue result
        ↔ IsGiven i.now.table.now (F.meaning i.now.facts.now) Rule.Generic [] i.now.conclusion }
{
    match i.conclusion.as_valid() {
        None => false,
        Some(t) => match i.table.split(t) {
            Some(_) => false,
            None => i.facts.params().has(i.table.head(t)),
        },
    }
}

pub(crate) fn conf<F: Facts>(i: &NullaryInference<F>, n: u32) -> bool
    ensures { IsTrue result
        ↔ IsGiven i.now.table.now (F.meaning i.now.facts.now) (Rule.Conf n) [] i.now.conclusion }
{
    match i.conclusion.as_conf() {
        None => false,
        Some(_) => is_listed(i.facts.written(), n, i.conclusion),
    }
}

pub(crate) fn same<F: Facts>(i: &NullaryInference<F>, n: u32) -> bool
    ensures { IsTrue result
        ↔ IsGiven i.now.table.now (F.meaning i.now.facts.now) (Rule.Same n) [] i.now.conclusion }
{
    match i.conclusion.as_same() {
        None => false,
        Some(_) => is_listed(i.facts.written(), n, i.conclusion),
    }
}

pub(crate) fn layout<F: Facts>(i: &NullaryInference<F>, n: u32) -> bool
    ensures { IsTrue result
        ↔ IsGiven i.now.table.now (F.meaning i.now.facts.now) (Rule.Layout n) [] i.now.conclusion }
{
    match i.conclusion.as_layout() {
        None => false,
        Some(_) => is_listed(i.facts.written(), n, i.conclusion),
    }
}

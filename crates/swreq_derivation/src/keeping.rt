//! The lines that are needed, with new numbers.
ghost use Rattle.std.specs.Prelude.{◌≡◌, List, IfOk, length, map};
ghost use Rattle.swreq_derive.specs.swreq_param.Terms.{Term};
ghost use Rattle.swreq_derive.specs.{declared.requirements.Statement.{Statement}, Facts.{IdFacts}, Lines.{AreDerived}};
ghost use Rattle.swreq_derivation.specs.{Marks.{AreNewNumbers, kept, new_number, renumbered}, Needed.{AreAllUsed, AreSomeOf, EndIn, StateOnce}};

use crate::marking::marks_of;
use std::alloc::{AllocError, Global};
use swreq_derive::Line;
use swreq_text::Seq;

/// At each place n, how many of the first n lines are marked.
fn numbers_of(alloc: Global, marks: &[bool]) -> Result<Vec<usize>, AllocError>
    ensures { IfOk result (λ v. AreNewNumbers marks.now v.items) }
{
    let mut numbers = Vec::new(alloc);
    let mut count = 0;
    numbers.push(count)?;
    for k in 0..marks.len() {
        if marks[k] {
            count += 1;
        }
        numbers.push(count)?;
    }
    Ok(numbers)
}

/// The number that the line with this number has among the marked ones.
fn number_in(marks: &[bool], numbers: &[usize], number: usize) -> usize
    requires { AreNewNumbers marks.now numbers.now }
    ensures { result ≡ new_number marks.now number }
{
    let last = marks.len();
    if number < last {
        numbers[number]
    } else {
        numbers[last]
    }
}

/// The line with the new numbers of its premises.
fn renumbered(
    alloc: Global,
    marks: &[bool],
    numbers: &[usize],
    line: &Line,
) -> Result<Line, AllocError>
    requires { AreNewNumbers marks.now numbers.now }
    ensures { IfOk result (λ l. l ≡ renumbered marks.now line.now) }
{
    let old = line.premises.items();
    let mut premises = Vec::new(alloc);
    for k in 0..old.len() {
        let number = number_in(marks, numbers, old[k]);
        premises.push(number)?;
    }
    Ok(Line {
        rule: line.rule,
        premises: Seq::new(premises),
        statement: line.statement,
    })
}

/// The lines that are marked, with new numbers.
fn keep(alloc: Global, lines: &[Line], marks: &[bool]) -> Result<Vec<Line>, AllocError>
    requires { length marks.now ≡ length lines.now }
    ensures { IfOk result (λ v. v.items ≡ map (renumbered marks.now) (kept marks.now lines.now)) }
{
    let numbers = numbers_of(alloc, marks)?;
    let mut out = Vec::new(alloc);
    for k in 0..lines.len() {
        if marks[k] {
            let line = renumbered(alloc, marks, &numbers, &lines[k])?;
            out.push(line)?;
        }
    }
    Ok(out)
}

/// The lines that the last one needs, with new numbers: the last line, and the premises of each line that is needed. If the lines are a
/// derivation, so are the needed ones, and they end in the same statement.
pub fn needed(alloc: Global, lines: &[Line]) -> Result<Vec<Line>, AllocError>
    ensures derived { IfOk result (λ v. (terms : List Term) (m : IdFacts)
        → AreDerived terms m lines.now → AreDerived terms m v.items) }
    ensures used { IfOk result (λ v. AreAllUsed v.items) }
    ensures last { IfOk result (λ v. (st : Statement) → EndIn lines.now st → EndIn v.items st) }
    ensures once { IfOk result (λ v. StateOnce lines.now → StateOnce v.items) }
    ensures some { IfOk result (λ v. AreSomeOf v.items lines.now) }
{
    let marks = marks_of(alloc, lines)?;
    let found = keep(alloc, lines, &marks)?;
    Ok(found)
}

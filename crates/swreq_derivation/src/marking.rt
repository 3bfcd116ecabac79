//! Which lines the last one needs.
ghost use Rattle.std.specs.Prelude.{◌≤◌, ◌<◌, ◌+◌, ◌∷◌, [], IfOk, length};
ghost use Rattle.swreq_derivation.specs.Marks.{AreMarked, AreNeeded};

use std::alloc::{AllocError, Global};
use swreq_derive::Line;

/// Marks the line with this number, if it stands before the place.
fn mark_premise(marks: &mut Vec<bool>, number: usize, below: usize)
    requires { below ≤ length marks.old.items }
    ensures { AreMarked marks.old.items marks.new.items (number ∷ []) below }
{
    if number == 0 {
        return;
    }
    if below < number {
        return;
    }
    marks[number - 1] = true;
}

/// Marks those of the lines with these numbers that stand before the place.
fn mark(marks: &mut Vec<bool>, numbers: &[usize], below: usize)
    requires { below ≤ length marks.old.items }
    ensures { AreMarked marks.old.items marks.new.items numbers.now below }
{
    for k in 0..numbers.len() {
        mark_premise(marks, numbers[k], below);
    }
}

/// Marks the premises of the line at this place, if it is marked.
fn mark_premises(marks: &mut Vec<bool>, lines: &[Line], place: usize)
    requires place { place < length lines.now }
    requires after { AreNeeded lines.now marks.old.items (place + 1) }
    ensures { AreNeeded lines.now marks.new.items place }
{
    if marks[place] {
        let line = &lines[place];
        mark(marks, line.premises.items(), place);
    }
}

/// The marks with which marking begins: only the last line is marked.
fn mark_last(alloc: Global, lines: &[Line]) -> Result<Vec<bool>, AllocError>
    ensures { IfOk result (λ v. AreNeeded lines.now v.items (length lines.now)) }
{
    let count = lines.len();
    let mut marks = vec![in alloc; false; count]?;
    if 0 < count {
        marks[count - 1] = true;
    }
    Ok(marks)
}

/// Marks the lines that the last one needs: the last line, and the earlier lines that are premises of a marked line.
pub(crate) fn marks_of(alloc: Global, lines: &[Line]) -> Result<Vec<bool>, AllocError>
    ensures { IfOk result (λ v. AreNeeded lines.now v.items 0) }
{
    let mut marks = mark_last(alloc, lines)?;
    let mut left = lines.len();
    while left > 0 {
        left -= 1;
        mark_premises(&mut marks, lines, left);
    }
    Ok(marks)
}

//! The premises of a line, as they are read.
ghost use Rattle.std.specs.Prelude.{MatchOption};
ghost use Rattle.swreq_derive.specs.{declared.requirements.Statement.{Statement}, Instances.{HasNumber}, Lines.{IsReadAs, stated_by}};

use crate::lines::Line;
use crate::requirements::Statement;

/// The statements from which a line follows. No rule has more than two.
#[derive(Clone, Copy, Debug)]
pub(crate) enum Premises {
    Zero,
    One(Statement),
    Two(Statement, Statement),
    Other,
}

/// The statements of the earlier lines with these numbers, or Other where a number is not that of
/// an earlier line, or where there are more than two.
pub(crate) fn read_premises(earlier: &[Line], numbers: &[usize]) -> Premises
    ensures { IsReadAs (stated_by earlier.now) numbers.now result }
{
    match numbers {
        [] => Premises::Zero,
        [n] => match stated(earlier, *n) {
            None => Premises::Other,
            Some(first) => Premises::One(first),
        },
        [n, k] => match stated(earlier, *n) {
            None => Premises::Other,
            Some(first) => match stated(earlier, *k) {
                None => Premises::Other,
                Some(second) => Premises::Two(first, second),
            },
        },
        _ => Premises::Other,
    }
}

/// What the line with this number states.
fn stated(earlier: &[Line], number: usize) -> Option<Statement>
    ensures { MatchOption result
        ((st : Statement) → HasNumber number (stated_by earlier.now) st → ⊥)
        (λ st. HasNumber number (stated_by earlier.now) st) }
{
    if number == 0 {
        return None;
    }
    Some(earlier.get(number - 1)?.statement)
}

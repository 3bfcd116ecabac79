//! The rule of an equation.

ghost use Rattle.std.specs.Prelude.{◌≡◌, MatchOption};
ghost use Rattle.swreq_rule.specs.Oriented.{IsOriented};

use crate::{Birth, Rule};
use std::cmp::Ordering;
use swreq_word::Word;

/// The rule of two words, with the greater one on its left, or None where they are the same.
pub fn oriented(u: Word, v: Word, birth: Birth) -> Option<Rule>
    ensures { MatchOption result (u ≡ v) (λ rule. (rule.birth ≡ birth) × IsOriented rule u v) }
{
    match u.cmp(&v) {
        Ordering::Equal => None,
        Ordering::Less => Some(Rule::new(v, u, birth)),
        Ordering::Greater => Some(Rule::new(u, v, birth)),
    }
}

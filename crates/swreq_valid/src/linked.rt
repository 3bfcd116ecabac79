//! Whether rules link two words.
ghost use Rattle.std.specs.Prelude.{◌↔◌, IfOk, IsTrue};
ghost use Rattle.swreq_symbols.specs.Vanishing.{IsLeastBy, Links};

use std::alloc::{AllocError, Global};
use swreq_complete::CompleteRules;
use swreq_complete::word::{Symbol, Word, are_same};

/// The least word that the rules link to a word.
fn least(alloc: Global, rules: &CompleteRules<'_>, word: &Word) -> Result<Vec<Symbol>, AllocError>
    ensures linked { IfOk result (λ v. Links rules.now word.now v.items) }
    ensures least { IfOk result (λ v. IsLeastBy rules.now v.items) }
{
    let mut least = Vec::from_slice(alloc, word.symbols())?;
    rules.reduce(&mut least);
    Ok(least)
}

/// Whether the rules link two words.
pub fn are_linked(
    alloc: Global,
    rules: &CompleteRules<'_>,
    word: &Word,
    other: &Word,
) -> Result<bool, AllocError>
    ensures { IfOk result (λ b. IsTrue b ↔ Links rules.now word.now other.now) }
{
    let left = least(alloc, rules, word)?;
    let right = least(alloc, rules, other)?;
    Ok(are_same(&left, &right))
}

//! The loop that leads from the word of a pair through its one side and back through the other.

ghost use Rattle.std.specs.Prelude.{◌≡◌, ◌-◌, ◌<◌, ◌^◌, List, length, ⊤, IfOk, MatchOption};
ghost use Rattle.swreq_rule.specs.swreq_word.declared.symbols.Symbol.{Symbol};
ghost use Rattle.swreq_pair.specs.{Pairs.{HasPair}, PairWords.{IsPairWord}};
ghost use Rattle.swreq_path.specs.{Paths.{HasTarget, IsLoop}, Reductions.{IsRedex}};
ghost use Rattle.swreq_homotopy.specs.Loops.{IsLoopOfPair, ReducesThrough, SidesReduceToOne};

use std::alloc::{AllocError, Global};
use swreq_path::{Loop, Path, append_copies, compose, invert, path_of, step_at};
use swreq_rule::word::{Symbol, Word, are_same};
use swreq_rule::{Place, Redex, Rule};
use swreq_text::Seq;

// The word of the pair.
fn pair_word(alloc: Global, rules: &[Rule], place: Place) -> Result<Vec<Symbol>, AllocError>
    requires { HasPair rules.now place }
    ensures { IfOk result (λ w. IsPairWord rules.now place w.items) }
{
    let first = &rules[place.i as usize - 1];
    let second = &rules[place.j as usize - 1];
    let left = first.left.symbols();
    let other = second.left.symbols();
    let inside = (left.len() - place.at).min(other.len());
    let mut word = Vec::from_slice(alloc, left)?;
    word.extend_from_slice(&other[inside..])?;
    Ok(word)
}

// The path from the word through the step at the redex, and from there on by reduction.
fn path_through(
    alloc: Global,
    rules: &[Rule],
    w: &[Symbol],
    redex: Redex,
) -> Result<Path, AllocError>
    requires few { length rules.now < 2 ^ 32 - 1 }
    requires redex { IsRedex rules.now w.now redex.at redex.number }
    ensures start { IfOk result (λ path. path.start ≡ w.now) }
    ensures through { IfOk result (λ path. (side : List Symbol) × (end : List Symbol)
        × ReducesThrough rules.now path.steps redex.at redex.number w.now side end) }
{
    let step = step_at(alloc, rules, w, redex)?;
    let side = step.target(alloc, rules)?;
    let others = path_of(alloc, rules, side.symbols())?;
    let start = Word::new(Vec::from_slice(alloc, w)?);
    let mut steps = Vec::new(alloc);
    steps.push(step)?;
    append_copies(&mut steps, others.steps.items())?;
    Ok(Path {
        start,
        steps: Seq::new(steps),
    })
}

/// The loop of the pair of two rules at the place: from the word of the pair by the one rule through the one side to the word to which
/// both sides reduce, and through the other side back. None where the two sides reduce to two words.
pub fn loop_of_pair(alloc: Global, rules: &[Rule], place: Place) -> Result<Option<Loop>, AllocError>
    requires few { length rules.now < 2 ^ 32 - 1 }
    requires pair { HasPair rules.now place }
    ensures of_pair { IfOk result (λ found. MatchOption found
        (SidesReduceToOne rules.now place → ⊥)
        (IsLoopOfPair rules.now place)) }
    ensures round { IfOk result (λ found. MatchOption found ⊤ (IsLoop rules.now)) }
{
    let word = pair_word(alloc, rules, place)?;
    let first = Redex {
        at: 0,
        number: place.i as usize,
    };
    let second = Redex {
        at: place.at,
        number: place.j as usize,
    };
    let out = path_through(alloc, rules, &word, first)?;
    let back = path_through(alloc, rules, &word, second)?;
    let end = out.target(alloc, rules)?;
    let other_end = back.target(alloc, rules)?;
    if !are_same(end.symbols(), other_end.symbols()) {
        return Ok(None);
    }
    let home = invert(alloc, rules, &back)?;
    let path = compose(alloc, rules, &out, &home)?;
    Ok(Some(Loop { path }))
}

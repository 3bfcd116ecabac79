//! The steps of type parameters, if rules show them.
ghost use Rattle.std.specs.Prelude.{◌≡◌, ◌++◌, ◌<◌, ◌-◌, ◌^◌, [], ◌∷◌, IfOk, IfSome, MatchOption, Some, length, slice_get};
ghost use Rattle.swreq_param.specs.{Tables.{IsOf, term_at}, Terms.Term.{Generic}};
ghost use Rattle.swreq_correspondence.specs.swreq_word.declared.symbols.Symbol.TheVariants.{Proto};
ghost use Rattle.swreq_complete.specs.swreq_path.Paths.{HasTarget};
ghost use Rattle.swreq_complete.specs.Alike.{ReduceAlike};
ghost use Rattle.swreq_derivation.specs.{Origins.{placed}, UnderWay.{Continues}};
ghost use Rattle.swreq_readings.specs.swreq_lexicon.declared.pair.ProtocolName.{ProtocolName as PairView};
ghost use Rattle.swreq_readings.specs.Alphabets.{lexicon};
ghost use Rattle.swreq_births.specs.Types.{HasPath, IsShownAt, IsStepShown};

use crate::pairs::joined;
use std::alloc::{AllocError, Global};
use swreq_complete::path::{Path, compose, invert, path_of};
use swreq_complete::rule::Rule;
use swreq_complete::word::{Symbol, are_same};
use swreq_derivation::Derivation;
use swreq_param::{ParamId, ProtoId, Step, TermId, TypeParam};
use swreq_readings::{Alphabet, ProtocolName, declared_at, is_of_step};

/// How type parameters are read: by the rules of a system, as type parameters of requirements of the owner, or of the list if there is no
/// owner, and after the type parameter `for_self`, which stands for `Self` of the owner.
#[derive(Clone, Copy, Debug)]
pub struct ReadingPlace {
    pub system: usize,
    pub owner: Option<ProtoId>,
    pub for_self: TermId,
}

/// An associated type, with the path from a word to the word with the symbol of its protocol after it.
#[derive(Drop)]
pub(crate) struct Shown {
    pub named: ProtocolName,
    pub path: Path,
}

/// A step of a type parameter.
pub(crate) fn step_at(param: &TypeParam, place: usize) -> Step
    requires { place < length param.now.steps }
    ensures { slice_get param.now.steps place ≡ Some result }
{
    param.steps.items()[place]
}

/// The id of the type parameter that the reading begins with: `for_self` if there is an owner, and otherwise the generic parameter.
pub(crate) fn start(
    derivation: &mut Derivation,
    scope: ReadingPlace,
    head: ParamId,
) -> Result<TermId, AllocError>
    requires for_self { IsOf derivation.old.table scope.for_self }
    ensures is_of { IfOk result (IsOf derivation.new.table) }
    ensures stands { IfOk result (λ u. term_at derivation.new.table u
        ≡ placed scope.owner (term_at derivation.old.table scope.for_self) (Generic head)) }
    ensures continues { Continues derivation.old derivation.new }
{
    match scope.owner {
        Some(_) => Ok(scope.for_self),
        None => derivation.param(head),
    }
}

/// The path from the first word to the second one by way of the word that both reduce to, or None if and only if they reduce to two words.
pub(crate) fn path_between(
    alloc: Global,
    rules: &[Rule],
    from: &[Symbol],
    to: &[Symbol],
) -> Result<Option<Path>, AllocError>
    requires { length rules.now < 2 ^ 32 - 1 }
    ensures start { IfOk result (λ o. IfSome o (λ p. p.start ≡ from.now)) }
    ensures target { IfOk result (λ o. MatchOption o (ReduceAlike rules.now from.now to.now → ⊥)
        (λ p. HasTarget rules.now p to.now)) }
    ensures alike { IfOk result (λ o. IfSome o (λ p. ReduceAlike rules.now from.now to.now)) }
{
    let forth = path_of(alloc, rules, from)?;
    let back = path_of(alloc, rules, to)?;
    let first = forth.target(alloc, rules)?;
    let last = back.target(alloc, rules)?;
    if are_same(first.symbols(), last.symbols()) {
        let inverse = invert(alloc, rules, &back)?;
        let path = compose(alloc, rules, &forth, &inverse)?;
        return Ok(Some(path));
    }
    Ok(None)
}

/// The associated type with this rank, with its path, or None if the step does not name it or the rules do not show it after the word.
fn shown_at(
    alloc: Global,
    alphabet: &Alphabet,
    rules: &[Rule],
    word: &[Symbol],
    step: Step,
    rank: u32,
) -> Result<Option<Shown>, AllocError>
    requires few { length rules.now < 2 ^ 32 - 1 }
    requires rank { rank < length (lexicon alphabet.now).associated }
    ensures { IfOk result (λ o. MatchOption o
        ((n : PairView) → IsShownAt alphabet.now rules.now word.now step rank n → ⊥)
        (HasPath alphabet.now rules.now word.now step)) }
{
    let named = declared_at(alphabet, rank);
    if !is_of_step(step, rank, named) {
        return Ok(None);
    }
    let longer = joined(alloc, word, &[Symbol::Proto(named.proto.rank)], &[])?;
    match path_between(alloc, rules, word, &longer)? {
        Some(path) => Ok(Some(Shown { named, path })),
        None => Ok(None),
    }
}

/// An associated type that the step names and that the rules show after the word, with its path.
pub(crate) fn shown_step(
    alloc: Global,
    alphabet: &Alphabet,
    rules: &[Rule],
    word: &[Symbol],
    step: Step,
) -> Result<Shown, AllocError>
    requires few { length rules.now < 2 ^ 32 - 1 }
    requires shown { IsStepShown alphabet.now rules.now word.now step }
    ensures { IfOk result (HasPath alphabet.now rules.now word.now step) }
{
    for k in 0..alphabet.world.lexicon().associated() {
        if let Some(shown) = shown_at(alloc, alphabet, rules, word, step, k)? {
            return Ok(shown);
        }
    }
    unreachable!()
}

//! The associated types that steps name, whether lines allow words, and whether they state that words are read alike.
ghost use Rattle.std.specs.{Prelude.{◌≡◌, ◌<◌, IfOk, MatchOption, Some, length, slice_get}, Bool.{Decides}};
ghost use Rattle.swreq_derive.specs.swreq_param.Tables.{IsOf, term_at};
ghost use Rattle.swreq_derive.specs.declared.requirements.{Requirement.TheVariants.{Same}, Statement.TheVariants.{Holds}};
ghost use Rattle.swreq_derive.specs.{Derivation.TermRequirement.{Conforms}, Derivation.TermStatement.{Requires}};
ghost use Rattle.swreq_derivation.specs.UnderWay.{AreIdsIn, AreStatedEqual, Continues, States};
ghost use Rattle.swreq_world.specs.swreq_lexicon.declared.pair.ProtocolName.{ProtocolName as PairView};
ghost use Rattle.swreq_readings.specs.{Alphabets.{IsDeclared, lexicon}, Readable.{AllowsName, IsGiven, IsOfStep, AllowsSymbol, AllowsWord, IsReadAs, ReadsAlike}};
ghost use Rattle.swreq_word.specs.declared.symbols.Symbol.TheVariants.{Member};

use crate::alphabet::Alphabet;
use crate::reading::{member_at, read_symbol};
use std::alloc::AllocError;
use swreq_derivation::{
    Bound, Derivation, are_one, bound_statement, conf_statement, is_stated, same_statement,
};
use swreq_derive::param::{AssocId, NameId, ParamId, ProtoId, Step, TermId};
use swreq_word::Symbol;
use swreq_world::lexicon::ProtocolName;

/// The protocol and the name of the associated type with this rank.
pub fn declared_at(alphabet: &Alphabet<'_>, rank: u32) -> ProtocolName
    requires { rank < length (lexicon alphabet.now).associated }
    ensures { slice_get (lexicon alphabet.now).associated rank ≡ Some result }
{
    alphabet.world.lexicon().assoc(AssocId { rank })
}

/// Whether the step names the associated type with this rank.
pub fn is_of_step(step: Step, rank: u32, named: ProtocolName) -> bool
    ensures { Decides result (IsOfStep step rank named) }
{
    match step {
        Step::Name(a) => named.name.rank == a.rank,
        Step::Bound(d) => d.rank == rank,
    }
}

/// An associated type that the step names, such that a line states that T conforms to its protocol, or None if there is none.
pub fn given_step(
    alphabet: &Alphabet,
    derivation: &Derivation,
    subject: TermId,
    step: Step,
) -> Option<ProtocolName>
    requires subject { IsOf derivation.now.table subject }
    ensures { MatchOption result
        ((n : PairView) → IsGiven alphabet.now derivation.now
        (term_at derivation.now.table subject) step n → ⊥)
        (IsGiven alphabet.now derivation.now (term_at derivation.now.table subject) step) }
{
    for k in 0..alphabet.world.lexicon().associated() {
        let named = declared_at(alphabet, k);
        let conforms = conf_statement(subject, named.proto);
        if is_of_step(step, k, named) && is_stated(derivation, conforms) {
            return Some(named);
        }
    }
    None
}

/// A protocol that declares the name, such that a line states that T conforms to it. Lines allow the name after T.
pub(crate) fn declarer(
    alphabet: &Alphabet,
    derivation: &Derivation,
    subject: TermId,
    name: NameId,
) -> ProtoId
    requires subject { IsOf derivation.now.table subject }
    requires name { AllowsName alphabet.now derivation.now
        (term_at derivation.now.table subject) name }
    ensures declares { IsDeclared alphabet.now result name }
    ensures conforms { States derivation.now
        (Requires (Conforms (term_at derivation.now.table subject) result)) }
{
    match given_step(alphabet, derivation, subject, Step::Name(name)) {
        Some(named) => named.proto,
        None => unreachable!(),
    }
}

/// Whether lines allow the name after T.
fn allows_name(alphabet: &Alphabet, derivation: &Derivation, subject: TermId, name: NameId) -> bool
    requires { IsOf derivation.now.table subject }
    ensures { Decides result (AllowsName alphabet.now derivation.now
        (term_at derivation.now.table subject) name) }
{
    match given_step(alphabet, derivation, subject, Step::Name(name)) {
        Some(_) => true,
        None => false,
    }
}

/// Whether lines allow the member symbol with this rank after T.
fn allows_member(alphabet: &Alphabet, derivation: &Derivation, subject: TermId, rank: u64) -> bool
    requires { IsOf derivation.now.table subject }
    ensures { Decides result
        (AllowsSymbol alphabet.now derivation.now
        (term_at derivation.now.table subject) (Member rank)) }
{
    if rank >= alphabet.world.lexicon().members() {
        return false;
    }
    let named = member_at(alphabet, rank);
    if is_stated(derivation, conf_statement(subject, named.proto)) {
        return allows_name(alphabet, derivation, subject, named.name);
    }
    false
}

/// Whether lines allow the symbol after T.
fn allows_symbol(
    alphabet: &Alphabet,
    derivation: &Derivation,
    subject: TermId,
    symbol: Symbol,
) -> bool
    requires { IsOf derivation.now.table subject }
    ensures { Decides result (AllowsSymbol alphabet.now derivation.now
        (term_at derivation.now.table subject) symbol) }
{
    match symbol {
        Symbol::Proto(rank) => is_stated(derivation, conf_statement(subject, ProtoId { rank })),
        Symbol::Layout => is_stated(derivation, bound_statement(subject, Bound::AnyObject)),
        Symbol::Name(rank) => allows_name(alphabet, derivation, subject, NameId { rank }),
        Symbol::Member(rank) => allows_member(alphabet, derivation, subject, rank),
        Symbol::Param(depth, index) => alphabet.params.has(ParamId { depth, index }),
    }
}

/// What the word is read as if lines allow it after T, or None if they do not.
fn read_if_allowed(
    alphabet: &Alphabet,
    derivation: &mut Derivation,
    subject: TermId,
    word: &[Symbol],
) -> Result<Option<TermId>, AllocError>
    requires { IsOf derivation.old.table subject }
    ensures told { IfOk result (λ o. MatchOption o (AllowsWord alphabet.now derivation.new (term_at
        derivation.old.table subject) word.now → ⊥) (IsReadAs alphabet.now derivation.new (term_at
        derivation.old.table subject) word.now)) }
    ensures continues { Continues derivation.old derivation.new }
{
    let mut at = subject;
    for k in 0..word.len() {
        if !allows_symbol(alphabet, derivation, at, word[k]) {
            return Ok(None);
        }
        at = read_symbol(alphabet, derivation, at, word[k])?;
    }
    Ok(Some(at))
}

/// Whether the two ids are one, or a line states that they are equal.
fn are_equal(derivation: &Derivation, left: TermId, right: TermId) -> bool
    requires { AreIdsIn derivation.now.table (Holds (Same left right)) }
    ensures { Decides result (AreStatedEqual derivation.now (term_at derivation.now.table left)
        (term_at derivation.now.table right)) }
{
    if are_one(derivation, left, right) {
        return true;
    }
    is_stated(derivation, same_statement(left, right))
}

/// Whether the two words are read alike after T: lines allow both, and state that they are read as equal type parameters.
pub fn are_read_equal(
    alphabet: &Alphabet,
    derivation: &mut Derivation,
    subject: TermId,
    from: &[Symbol],
    to: &[Symbol],
) -> Result<bool, AllocError>
    requires subject { IsOf derivation.old.table subject }
    ensures told { IfOk result (λ yes. Decides yes (ReadsAlike alphabet.now derivation.old
        derivation.new subject from.now to.now)) }
    ensures continues { Continues derivation.old derivation.new }
{
    let first = read_if_allowed(alphabet, derivation, subject, from)?;
    match first {
        None => Ok(false),
        Some(left) => {
            let second = read_if_allowed(alphabet, derivation, subject, to)?;
            match second {
                None => Ok(false),
                Some(right) => Ok(are_equal(derivation, left, right)),
            }
        }
    }
}

//! Symbols and words that lines allow after a type parameter are allowed after an equal one.
ghost use Rattle.std.specs.Prelude.{OnOk, IfOk, [], ◌∷◌};
ghost use Rattle.swreq_derive.specs.swreq_param.Tables.{term_at};
ghost use Rattle.swreq_derivation.specs.UnderWay.{AreEqualIds, Continues, ContinuesFrom, StatesBound, StatesEqual};
ghost use Rattle.swreq_readings.specs.{Alphabets.{Fits}, Readable.{AllowsName, AllowsSymbol, AllowsWord, CanCarry, IsCarried}};
ghost use Rattle.swreq_word.specs.declared.symbols.Symbol.TheVariants as symbols;

use crate::alphabet::Alphabet;
use crate::reading::{member_at, read_symbol};
use crate::telling::declarer;
use std::alloc::AllocError;
use swreq_derivation::{Bound, Derivation, add_same_bound, add_same_name, add_symm};
use swreq_derive::param::{NameId, ProtoId, TermId};
use swreq_word::Symbol;

/// From `[T : P]` or `[T : AnyObject]`, and `[T == U]`: the same of U.
pub fn carry_bound(
    derivation: &mut Derivation,
    from: TermId,
    to: TermId,
    bound: Bound,
) -> Result<(), AllocError>
    requires conforms { StatesBound derivation.old derivation.old from bound }
    requires equal { AreEqualIds derivation.old from to }
    ensures conforms { OnOk result (StatesBound derivation.old derivation.new to bound) }
    ensures continues { Continues derivation.old derivation.new }
{
    add_symm(derivation, from, to)?;
    add_same_bound(derivation, to, from, bound)
}

/// If lines allow the name A after T, and state `[T == U]`, then they allow A after U, and state `[T.A == U.A]`. `members` are the ids of
/// T.A and U.A.
fn carry_name(
    alphabet: &Alphabet,
    derivation: &mut Derivation,
    from: TermId,
    to: TermId,
    name: NameId,
    members: (TermId, TermId),
) -> Result<(), AllocError>
    requires { CanCarry alphabet.now derivation.old from to (symbols.Name name.rank) members }
    ensures name { OnOk result (AllowsName alphabet.now derivation.new
        (term_at derivation.old.table to) name) }
    ensures equal { OnOk result (StatesEqual derivation.old derivation.new members.0 members.1) }
    ensures continues { ContinuesFrom (Fits alphabet.now) derivation.old derivation.new }
{
    let p = declarer(alphabet, derivation, from, name);
    carry_bound(derivation, from, to, Bound::Protocol(p))?;
    add_same_name(derivation, from, to, (p, name), members)?;
    Ok(())
}

/// If lines allow a symbol after T, and state `[T == U]`, then they allow it after U, and state that what it is read as after T equals what
/// it is read as after U. `members` are the ids of the two.
fn carry_symbol(
    alphabet: &Alphabet,
    derivation: &mut Derivation,
    from: TermId,
    to: TermId,
    symbol: Symbol,
    members: (TermId, TermId),
) -> Result<(), AllocError>
    requires { CanCarry alphabet.now derivation.old from to symbol members }
    ensures symbol { OnOk result
        (AllowsSymbol alphabet.now derivation.new (term_at derivation.old.table to) symbol) }
    ensures equal { OnOk result (StatesEqual derivation.old derivation.new members.0 members.1) }
    ensures continues { ContinuesFrom (Fits alphabet.now) derivation.old derivation.new }
{
    match symbol {
        Symbol::Proto(rank) => {
            carry_bound(derivation, from, to, Bound::Protocol(ProtoId { rank }))?;
            Ok(())
        }
        Symbol::Layout => {
            carry_bound(derivation, from, to, Bound::AnyObject)?;
            Ok(())
        }
        Symbol::Name(rank) => {
            carry_name(alphabet, derivation, from, to, NameId { rank }, members)
        }
        Symbol::Member(rank) => {
            let named = member_at(alphabet, rank);
            carry_name(alphabet, derivation, from, to, named.name, members)?;
            carry_bound(derivation, from, to, Bound::Protocol(named.proto))?;
            Ok(())
        }
        Symbol::Param(_, _) => Ok(()),
    }
}

/// The same. Answers the ids of what the symbol is read as after T and after U.
fn carry(
    alphabet: &Alphabet,
    derivation: &mut Derivation,
    from: TermId,
    to: TermId,
    symbol: Symbol,
) -> Result<(TermId, TermId), AllocError>
    requires symbol { AllowsSymbol alphabet.now derivation.old
        (term_at derivation.old.table from) symbol }
    requires equal { AreEqualIds derivation.old from to }
    ensures carried { IfOk result
        (IsCarried alphabet.now derivation.old derivation.new from to (symbol ∷ [])) }
    ensures continues { ContinuesFrom (Fits alphabet.now) derivation.old derivation.new }
{
    let first = read_symbol(alphabet, derivation, from, symbol)?;
    let second = read_symbol(alphabet, derivation, to, symbol)?;
    carry_symbol(alphabet, derivation, from, to, symbol, (first, second))?;
    Ok((first, second))
}

/// If lines allow a word after T, and state `[T == U]`, then they allow it after U, and state that what it is read as after T equals what
/// it is read as after U. Answers the ids of the two.
pub(crate) fn carry_all(
    alphabet: &Alphabet,
    derivation: &mut Derivation,
    from: TermId,
    to: TermId,
    word: &[Symbol],
) -> Result<(TermId, TermId), AllocError>
    requires word { AllowsWord alphabet.now derivation.old
        (term_at derivation.old.table from) word.now }
    requires equal { AreEqualIds derivation.old from to }
    ensures carried { IfOk result
        (IsCarried alphabet.now derivation.old derivation.new from to word.now) }
    ensures continues { ContinuesFrom (Fits alphabet.now) derivation.old derivation.new }
{
    let mut first = from;
    let mut second = to;
    for k in 0..word.len() {
        let next = carry(alphabet, derivation, first, second, word[k])?;
        first = next.0;
        second = next.1;
    }
    Ok((first, second))
}

//! Words that are read alike: the order of two, chains of them, and one part of a word put in place of another.
ghost use Rattle.std.specs.Prelude.{OnOk, ◌++◌};
ghost use Rattle.swreq_derive.specs.swreq_param.Tables.{IsOf, term_at};
ghost use Rattle.swreq_derivation.specs.UnderWay.{Continues, ContinuesFrom};
ghost use Rattle.swreq_readings.specs.{Readable.{ReadsAlike, AllowsWord, AreReadEqual, read_word}, Alphabets.{Fits}};

use crate::along::carry_all;
use crate::alphabet::Alphabet;
use crate::reading::read_word;
use std::alloc::AllocError;
use swreq_derivation::{Derivation, add_symm, add_trans};
use swreq_derive::param::TermId;
use swreq_word::Symbol;

/// If two words are read alike after T, they are so in the other order.
pub fn turn(
    alphabet: &Alphabet,
    derivation: &mut Derivation,
    subject: TermId,
    from: &[Symbol],
    to: &[Symbol],
) -> Result<(), AllocError>
    requires subject { IsOf derivation.old.table subject }
    requires both { ReadsAlike alphabet.now derivation.old derivation.old subject from.now to.now }
    ensures both { OnOk result
        (ReadsAlike alphabet.now derivation.old derivation.new subject to.now from.now) }
    ensures continues { Continues derivation.old derivation.new }
{
    let first = read_word(alphabet, derivation, subject, from)?;
    let second = read_word(alphabet, derivation, subject, to)?;
    add_symm(derivation, first, second)
}

/// If `from` and `via` are read alike after T, and so are `via` and `to`, then so are `from` and `to`.
pub fn join(
    alphabet: &Alphabet,
    derivation: &mut Derivation,
    subject: TermId,
    from: &[Symbol],
    via: &[Symbol],
    to: &[Symbol],
) -> Result<(), AllocError>
    requires subject { IsOf derivation.old.table subject }
    requires first { ReadsAlike alphabet.now derivation.old derivation.old subject from.now
        via.now }
    requires second { ReadsAlike alphabet.now derivation.old derivation.old subject via.now
        to.now }
    ensures both { OnOk result
        (ReadsAlike alphabet.now derivation.old derivation.new subject from.now to.now) }
    ensures continues { Continues derivation.old derivation.new }
{
    let first = read_word(alphabet, derivation, subject, from)?;
    let middle = read_word(alphabet, derivation, subject, via)?;
    let last = read_word(alphabet, derivation, subject, to)?;
    add_trans(derivation, first, middle, last)
}

/// Two words, of which the second is put in place of the first.
#[derive(Clone, Copy)]
pub struct Sides<'a> {
    pub from: &'a [Symbol],
    pub to: &'a [Symbol],
}

/// If two words are read alike after V, and lines allow a word after V that begins with the first of them, then this word and the word with
/// the second one in its place are read alike after V.
pub fn put_side(
    alphabet: &Alphabet,
    derivation: &mut Derivation,
    subject: TermId,
    from: &[Symbol],
    to: &[Symbol],
    after: &[Symbol],
) -> Result<(), AllocError>
    requires subject { IsOf derivation.old.table subject }
    requires both { ReadsAlike alphabet.now derivation.old derivation.old subject from.now to.now }
    requires word { AllowsWord alphabet.now derivation.old (term_at derivation.old.table subject)
        (from.now ++ after.now) }
    ensures both { OnOk result (ReadsAlike alphabet.now derivation.old derivation.new subject
        (from.now ++ after.now) (to.now ++ after.now)) }
    ensures continues { ContinuesFrom (Fits alphabet.now) derivation.old derivation.new }
{
    let first = read_word(alphabet, derivation, subject, from)?;
    let second = read_word(alphabet, derivation, subject, to)?;
    carry_all(alphabet, derivation, first, second, after)?;
    Ok(())
}

/// If two words are read alike after what `before` is read as, and lines allow a word that has the first of them after `before`, then this
/// word and the word with the second one in its place are read alike.
pub fn replace(
    alphabet: &Alphabet,
    derivation: &mut Derivation,
    subject: TermId,
    before: &[Symbol],
    sides: Sides,
    after: &[Symbol],
) -> Result<(), AllocError>
    requires subject { IsOf derivation.old.table subject }
    requires both { AreReadEqual alphabet.now derivation.old
        (read_word alphabet.now (term_at derivation.old.table subject) before.now)
        sides.from.now sides.to.now }
    requires word { AllowsWord alphabet.now derivation.old (term_at derivation.old.table subject)
        (before.now ++ (sides.from.now ++ after.now)) }
    ensures both { OnOk result (ReadsAlike alphabet.now derivation.old derivation.new subject
        (before.now ++ (sides.entry.from.now ++ after.now))
        (before.now ++ (sides.entry.to.now ++ after.now))) }
    ensures continues { ContinuesFrom (Fits alphabet.now) derivation.old derivation.new }
{
    let v = read_word(alphabet, derivation, subject, before)?;
    put_side(alphabet, derivation, v, sides.from, sides.to, after)
}

/// The same as `replace`, from the two words in the other order.
pub fn replace_back(
    alphabet: &Alphabet,
    derivation: &mut Derivation,
    subject: TermId,
    before: &[Symbol],
    sides: Sides,
    after: &[Symbol],
) -> Result<(), AllocError>
    requires subject { IsOf derivation.old.table subject }
    requires both { AreReadEqual alphabet.now derivation.old
        (read_word alphabet.now (term_at derivation.old.table subject) before.now)
        sides.to.now sides.from.now }
    requires word { AllowsWord alphabet.now derivation.old (term_at derivation.old.table subject)
        (before.now ++ (sides.from.now ++ after.now)) }
    ensures both { OnOk result (ReadsAlike alphabet.now derivation.old derivation.new subject
        (before.now ++ (sides.entry.from.now ++ after.now))
        (before.now ++ (sides.entry.to.now ++ after.now))) }
    ensures continues { ContinuesFrom (Fits alphabet.now) derivation.old derivation.new }
{
    let v = read_word(alphabet, derivation, subject, before)?;
    turn(alphabet, derivation, v, sides.to, sides.from)?;
    replace(alphabet, derivation, subject, before, sides, after)
}

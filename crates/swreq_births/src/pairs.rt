//! If the two sides of each of two rules are read alike, so are the two sides of their pairs.
ghost use Rattle.std.specs.Prelude.{◌≡◌, OnOk, drop, take, ◌++◌, IfOk};
ghost use Rattle.swreq_param.specs.Tables.{IsOf, term_at};
ghost use Rattle.swreq_derivation.specs.UnderWay.{ContinuesFrom, Continues};
ghost use Rattle.swreq_readings.specs.{Alphabets.{Fits}, Readable.{ReadsAlike}};
ghost use Rattle.swreq_complete.specs.swreq_rule.Oriented.{IsOriented};
ghost use Rattle.swreq_births.specs.{Pairs.{AreReadToMeet, AreReadVia, IsReplaceable, first_made, second_made}, Readings.{AreReadEqualToEnds}};

use std::alloc::{AllocError, Global};
use swreq_complete::rule::Rule;
use swreq_complete::word::Symbol;
use swreq_derivation::Derivation;
use swreq_param::TermId;
use swreq_readings::{Alphabet, Sides, join, replace, turn};

/// The left side of a rule, and the right side, which is put in place of it.
pub(crate) fn rule_sides(rule: &Rule) -> Sides<'_>
    ensures from { result.from.now ≡ rule.now.left }
    ensures to { result.to.now ≡ rule.now.right }
{
    Sides {
        from: rule.left.symbols(),
        to: rule.right.symbols(),
    }
}

/// The first `count` symbols of a word, or all of them if it has fewer.
pub(crate) fn first_symbols(word: &[Symbol], count: usize) -> &[Symbol]
    ensures { result.now ≡ take count word.now }
{
    &word[..count.min(word.len())]
}

/// The word without its first `count` symbols, or without any if it has fewer.
fn later_symbols(word: &[Symbol], count: usize) -> &[Symbol]
    ensures { result.now ≡ drop count word.now }
{
    &word[count.min(word.len())..]
}

/// The three words, one after the other.
pub(crate) fn joined(
    alloc: Global,
    first: &[Symbol],
    second: &[Symbol],
    third: &[Symbol],
) -> Result<Vec<Symbol>, AllocError>
    ensures { IfOk result (λ v. v.items ≡ first.now ++ (second.now ++ third.now)) }
{
    let mut word = Vec::from_slice(alloc, first)?;
    word.extend_from_slice(second)?;
    word.extend_from_slice(third)?;
    Ok(word)
}

/// If two words are each read alike with a third, the two are read alike.
fn join_at(
    alphabet: &Alphabet,
    derivation: &mut Derivation,
    subject: TermId,
    via: &[Symbol],
    from: &[Symbol],
    to: &[Symbol],
) -> Result<(), AllocError>
    requires { AreReadVia alphabet.now derivation.old subject via.now from.now to.now }
    ensures both { OnOk result
        (ReadsAlike alphabet.now derivation.old derivation.new subject from.now to.now) }
    ensures continues { Continues derivation.old derivation.new }
{
    turn(alphabet, derivation, subject, via, from)?;
    join(alphabet, derivation, subject, from, via, to)
}

/// States that a word, and the word with one of its parts replaced, are read alike. Answers the two words.
fn put_in(
    alphabet: &Alphabet,
    derivation: &mut Derivation,
    subject: TermId,
    before: &[Symbol],
    sides: Sides,
    after: &[Symbol],
) -> Result<(Vec<Symbol>, Vec<Symbol>), AllocError>
    requires { IsReplaceable alphabet.now derivation.old subject before.now sides.from.now
        sides.to.now after.now }
    ensures from { IfOk result
        (λ r. r.0.items ≡ before.now ++ (sides.entry.from.now ++ after.now)) }
    ensures to { IfOk result
        (λ r. r.1.items ≡ before.now ++ (sides.entry.to.now ++ after.now)) }
    ensures both { IfOk result (λ r. ReadsAlike alphabet.now derivation.old derivation.new
        subject r.0.items r.1.items) }
    ensures continues { ContinuesFrom (Fits alphabet.now) derivation.old derivation.new }
{
    replace(alphabet, derivation, subject, before, sides, after)?;
    let from = joined(derivation.alloc(), before, sides.from, after)?;
    let to = joined(derivation.alloc(), before, sides.to, after)?;
    Ok((from, to))
}

/// States that the two sides of the pair of the two rules at this place are read alike, whether the left sides overlap or the second one
/// stands in the first one. Answers the two sides. Both are made of one word, which has the left side of each rule.
pub(crate) fn read_pair(
    alphabet: &Alphabet,
    derivation: &mut Derivation,
    subject: TermId,
    first: &Rule,
    second: &Rule,
    at: usize,
) -> Result<(Vec<Symbol>, Vec<Symbol>), AllocError>
    requires { AreReadToMeet alphabet.now derivation.old subject first.now second.now at }
    ensures left { IfOk result (λ r. r.0.items ≡ first_made first.now second.now at) }
    ensures right { IfOk result (λ r. r.1.items ≡ second_made first.now second.now at) }
    ensures both { IfOk result (λ r. ReadsAlike alphabet.now derivation.old derivation.new
        subject r.0.items r.1.items) }
    ensures continues { ContinuesFrom (Fits alphabet.now) derivation.old derivation.new }
{
    let whole = rule_sides(first);
    let part = rule_sides(second);
    let rest = later_symbols(whole.from, at);
    let after = later_symbols(part.from, rest.len());
    let (word, left) = put_in(alphabet, derivation, subject, &[], whole, after)?;
    let before = first_symbols(whole.from, at);
    let behind = later_symbols(rest, part.from.len());
    let (_, right) = put_in(alphabet, derivation, subject, before, part, behind)?;
    join_at(alphabet, derivation, subject, &word, &left, &right)?;
    Ok((left, right))
}

/// If two words are read alike, and each of them is read alike with the word that it reduces to, then the two sides of a rule are read
/// alike if they are those two words.
pub(crate) fn close(
    alphabet: &Alphabet,
    derivation: &mut Derivation,
    subject: TermId,
    words: Sides,
    ends: Sides,
    rule: &Rule,
) -> Result<(), AllocError>
    requires ends { AreReadEqualToEnds alphabet.now derivation.old subject words ends }
    requires oriented { IsOriented rule.now ends.from.now ends.to.now }
    ensures both { OnOk result (ReadsAlike alphabet.now derivation.old derivation.new subject
        rule.now.left rule.now.right) }
    ensures continues { Continues derivation.old derivation.new }
{
    join_at(
        alphabet, derivation, subject, words.from, ends.from, words.to,
    )?;
    join(alphabet, derivation, subject, ends.from, words.to, ends.to)?;
    turn(alphabet, derivation, subject, ends.from, ends.to)
}

//! How the tests write words, rules and paths.
//!
//! A word is written by a letter for each symbol, as `symbol_of` has them. A rule or an equation is `AB=C`, and `AB` alone where its right
//! side is empty. A step is `A+2B` where it goes
//! forth by rule 2 between the words `A` and `B`, and `A-2B` where it goes back. Numbers of rules count from 1. A rule is born of an
//! equation, by its number, or at a place `1.2.0`: two rules, and where the left side of the second begins in that of the first.

use std::alloc::{AllocError, Global};
use std::fmt::Write;
use std::process::Abort;
use swreq_complete::path::{Path, RewriteStep};
use swreq_complete::rule::{Birth, Rule, RuleList, oriented};
use swreq_complete::word::{Symbol, Word};

/// A protocol N with a member A that conforms to N.
pub(crate) const PROTOCOL: &str = "NN=N NA=a NAN=NA";

/// The symbol of a letter: a protocol, a member, a generic parameter, a name, or the layout.
fn symbol_of(letter: char) -> Option<Symbol> {
    match letter {
        'N' => Some(Symbol::Proto(0)),
        'M' => Some(Symbol::Proto(1)),
        'a' => Some(Symbol::Member(0)),
        'T' => Some(Symbol::Param(0, 0)),
        'U' => Some(Symbol::Param(0, 1)),
        'V' => Some(Symbol::Param(0, 2)),
        'A' => Some(Symbol::Name(0)),
        'B' => Some(Symbol::Name(1)),
        'C' => Some(Symbol::Name(2)),
        'D' => Some(Symbol::Name(3)),
        'L' => Some(Symbol::Layout),
        _ => None,
    }
}

/// The letter of a symbol, or a question mark where it has none.
fn letter_of(symbol: Symbol) -> char {
    match symbol {
        Symbol::Proto(0) => 'N',
        Symbol::Proto(1) => 'M',
        Symbol::Member(0) => 'a',
        Symbol::Param(0, 0) => 'T',
        Symbol::Param(0, 1) => 'U',
        Symbol::Param(0, 2) => 'V',
        Symbol::Name(0) => 'A',
        Symbol::Name(1) => 'B',
        Symbol::Name(2) => 'C',
        Symbol::Name(3) => 'D',
        Symbol::Layout => 'L',
        _ => '?',
    }
}

/// The word of these letters.
pub(crate) fn word(alloc: Global, letters: &str) -> Result<Vec<Symbol>, AllocError> {
    let mut word = Vec::new(alloc);
    for letter in letters.chars() {
        if let Some(symbol) = symbol_of(letter) {
            word.push(symbol)?;
        }
    }
    Ok(word)
}

pub(crate) fn put_word(out: &mut String, symbols: &[Symbol]) -> Result<(), AllocError> {
    for symbol in symbols {
        out.push(letter_of(*symbol))?;
    }
    Ok(())
}

/// The sides of an equation.
fn sides(alloc: Global, equation: &str) -> Result<(Word, Word), AllocError> {
    let (left, right) = equation.split_once('=').unwrap_or((equation, ""));
    let left = word(alloc, left)?;
    let right = word(alloc, right)?;
    Ok((Word::new(left), Word::new(right)))
}

/// These equations.
pub(crate) fn equations(alloc: Global, text: &str) -> Result<Vec<(Word, Word)>, AllocError> {
    let mut equations = Vec::new(alloc);
    for equation in text.split_whitespace() {
        equations.push(sides(alloc, equation)?)?;
    }
    Ok(equations)
}

/// Puts the rule of an equation last, unless the sides are the same.
fn add_rule(alloc: Global, rules: &mut RuleList, equation: &str) -> Result<(), AllocError> {
    let birth = Birth::Given(rules.rules().len());
    let (left, right) = sides(alloc, equation)?;
    match oriented(left, right, birth) {
        Some(rule) => rules.push(rule).map_err(|_| AllocError),
        None => Ok(()),
    }
}

/// These rules. The birth of each is its place, counted from 0.
pub(crate) fn rules(alloc: Global, text: &str) -> Result<RuleList, AllocError> {
    let mut rules = RuleList::new(alloc);
    for equation in text.split_whitespace() {
        add_rule(alloc, &mut rules, equation)?;
    }
    Ok(rules)
}

fn put_birth(out: &mut String, birth: Birth) -> Result<(), AllocError> {
    match birth {
        Birth::Given(number) => write!(out, " {number}"),
        Birth::Pair(i, j, at) => write!(out, " {i}.{j}.{at}"),
    }
}

/// The sides of the rule, and its birth, after a comma.
pub(crate) fn put_rule(out: &mut String, rule: &Rule) -> Result<(), AllocError> {
    out.push_str(", ")?;
    put_word(out, rule.left.symbols())?;
    out.push('>')?;
    put_word(out, rule.right.symbols())?;
    put_birth(out, rule.birth)
}

/// A step, after a blank.
fn put_step(out: &mut String, step: &RewriteStep) -> Result<(), AllocError> {
    let sign = if step.forward { '+' } else { '-' };
    out.push(' ')?;
    put_word(out, step.before.symbols())?;
    write!(out, "{sign}{}", step.rule)?;
    put_word(out, step.after.symbols())
}

/// The word at which the path begins, and its steps.
pub(crate) fn put_path(out: &mut String, path: &Path) -> Result<(), AllocError> {
    put_word(out, path.source())?;
    for step in path.steps.items() {
        put_step(out, step)?;
    }
    Ok(())
}

/// Asserts that the line is the one that is wanted.
pub(crate) fn assert_line(rt: &impl Abort, line: &str, wanted: &str) {
    assert_eq!(rt; line, wanted);
}

/// Asserts that the line is the one that is wanted in the row of this name.
pub(crate) fn assert_row(rt: &impl Abort, name: &str, line: &str, wanted: &str) {
    assert_eq!(rt; line, wanted, "{name}");
}

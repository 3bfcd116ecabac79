//! The two sides of the pair of two rules at a place.

ghost use Rattle.std.specs.{Prelude.{◌≡◌, ◌++◌, List, IfOk, OnOk}, Bool.{Decides}};
ghost use Rattle.swreq_rule.specs.swreq_word.Overlap.{Containment, Overlap};
ghost use Rattle.swreq_pair.specs.Pairs.{AreSides, ContainmentPair, HasPair, HavePairAt, IsNumberOf, IsOfRules, IsPair, LeftLength, OverlapPair};
ghost use Rattle.swreq_rule.specs.{declared.rules.Place.{Place}, declared.rules.Rule.{Rule}};

use std::alloc::{AllocError, Global};
use swreq_rule::word::{Symbol, Word};
use swreq_rule::{Place, Rule, contains, overlaps};

// Puts the two words into the buffer, one after the other, in place of what was there.
fn write(buffer: &mut Vec<Symbol>, a: &[Symbol], b: &[Symbol]) -> Result<(), AllocError>
    ensures { OnOk result (buffer.new.items ≡ a.now ++ b.now) }
{
    buffer.clear();
    buffer.extend_from_slice(a)?;
    buffer.extend_from_slice(b)?;
    Ok(())
}

// Puts the three words into the buffer, one after the other, in place of what was there.
fn write_three(
    buffer: &mut Vec<Symbol>,
    a: &[Symbol],
    b: &[Symbol],
    c: &[Symbol],
) -> Result<(), AllocError>
    ensures { OnOk result (buffer.new.items ≡ a.now ++ (b.now ++ c.now)) }
{
    buffer.clear();
    buffer.extend_from_slice(a)?;
    buffer.extend_from_slice(b)?;
    buffer.extend_from_slice(c)?;
    Ok(())
}

// Writes the two sides of an overlap.
fn write_overlap(
    first: &Rule,
    second: &Rule,
    at: usize,
    left: &mut Vec<Symbol>,
    right: &mut Vec<Symbol>,
) -> Result<(), AllocError>
    requires { Overlap first.now.left second.now.left at }
    ensures { OnOk result (OverlapPair first.now second.now at left.new.items right.new.items) }
{
    let l = first.left.symbols();
    let m = second.left.symbols();
    write(left, first.right.symbols(), &m[l.len() - at..])?;
    write(right, &l[..at], second.right.symbols())
}

// Writes the two sides of a containment.
fn write_containment(
    first: &Rule,
    second: &Rule,
    at: usize,
    left: &mut Vec<Symbol>,
    right: &mut Vec<Symbol>,
) -> Result<(), AllocError>
    requires { Containment first.now.left second.now.left at }
    ensures { OnOk result (ContainmentPair first.now second.now at left.new.items right.new.items) }
{
    let l = first.left.symbols();
    let m = second.left.symbols();
    write(left, first.right.symbols(), &[])?;
    write_three(right, &l[..at], second.right.symbols(), &l[at + m.len()..])
}

/// Writes the two sides of the pair of these two rules at the place in the first, as `write_sides` does.
pub fn write_sides_of(
    first: &Rule,
    second: &Rule,
    at: usize,
    left: &mut Vec<Symbol>,
    right: &mut Vec<Symbol>,
) -> Result<(), AllocError>
    requires { HavePairAt first.now second.now at }
    ensures { OnOk result ((rules : List Rule) (place : Place)
        → IsOfRules rules place first.now second.now at → HasPair rules place
        → IsPair rules place left.new.items right.new.items) }
{
    if second.left.symbols().len() <= first.left.symbols().len() - at {
        write_containment(first, second, at, left, right)
    } else {
        write_overlap(first, second, at, left, right)
    }
}

/// Writes the two sides of the pair of two rules at the place into the two buffers, in place of what was there. The caller knows that
/// they have a pair there, so what overlaps is not compared again.
pub fn write_sides(
    rules: &[Rule],
    place: Place,
    left: &mut Vec<Symbol>,
    right: &mut Vec<Symbol>,
) -> Result<(), AllocError>
    requires { HasPair rules.now place }
    ensures { OnOk result (IsPair rules.now place left.new.items right.new.items) }
{
    let first = &rules[place.i as usize - 1];
    let second = &rules[place.j as usize - 1];
    write_sides_of(first, second, place.at, left, right)
}

/// Whether the two rules have a pair at the place.
pub fn is_pair(rules: &[Rule], place: Place) -> bool
    requires first { IsNumberOf rules.now place.i }
    requires second { IsNumberOf rules.now place.j }
    ensures { Decides result (HasPair rules.now place) }
{
    let first = &rules[place.i as usize - 1];
    let second = &rules[place.j as usize - 1];
    let l = first.left.symbols();
    let m = second.left.symbols();
    if overlaps(l, m, place.at) {
        return true;
    }
    if place.i == place.j {
        return false;
    }
    contains(l, m, place.at)
}

/// The two sides of the pair of two rules at the place, or None where they have no pair there.
pub fn sides_at(
    alloc: Global,
    rules: &[Rule],
    place: Place,
) -> Result<Option<(Word, Word)>, AllocError>
    requires first { IsNumberOf rules.now place.i }
    requires second { IsNumberOf rules.now place.j }
    ensures { IfOk result (AreSides (IsPair rules.now place)) }
{
    if !is_pair(rules, place) {
        return Ok(None);
    }
    let mut left: Vec<Symbol> = Vec::new(alloc);
    let mut right: Vec<Symbol> = Vec::new(alloc);
    write_sides(rules, place, &mut left, &mut right)?;
    Ok(Some((Word::new(left), Word::new(right))))
}

// The length of the left side of rule `i`. Numbers count from 1.
pub(crate) fn left_length(rules: &[Rule], i: u32) -> usize
    requires { IsNumberOf rules.now i }
    ensures { LeftLength rules.now i result }
{
    let rule = &rules[i as usize - 1];
    rule.left.symbols().len()
}

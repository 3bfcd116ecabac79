// The map from the endings of words to the properties that rules give them.
ghost use Rattle.std.specs.{Prelude.{◌≡◌, ℕ, ◌+◌, ◌<◌, ◌≤◌, true, Contains, drop, length, take, slice_get, Some, IfOk, OnOk, MatchOption, vec_capacity}, Bool.{Decides}};
ghost use Rattle.swreq_complete.specs.swreq_word.{declared.symbols.Symbol.{Symbol}, declared.symbols.Symbol.TheVariants.{Proto}, Least.{IsLeast}, Relations.{Linked}};
ghost use Rattle.swreq_complete.specs.swreq_rule.Steps.{Step};
ghost use Rattle.swreq_map.specs.{Follows.{AreConforming, AreEndingsOf, FollowsBelow, IsKept, IsMapOf}, Properties.{ArePropertiesOf, IsProperty, Vanishes}};

use crate::endings::Endings;
use crate::vanishing::vanishes;
use std::alloc::{AllocError, Global};
use std::marker::Model;
use swreq_complete::CompleteRules;
use swreq_complete::word::Symbol;
use swreq_text::Seq;

/// The protocols to which a word conforms, ascending, and whether it has the layout.
#[derive(Debug, Drop)]
pub struct Properties {
    pub protocols: Seq<u32>,
    pub layout: bool,
}

/// For each ending of a word the properties that rules may give to the word. What some of the rules keep may be borrowed.
#[derive(Drop)]
pub struct PropertyMap<'b> {
    protocols: u32,
    below: Option<&'b Endings>,
    own: Endings,
}

impl<'b> Model for PropertyMap<'b> {
    ghost use Rattle.std.specs.Option.{option_copied};
    ghost use Rattle.swreq_map.specs.Follows.{MapView};

    ghost Value = { MapView };

    ghost view = { λ m. record { protocols = m.protocols; below = option_copied m.below; own = m.own } };
}

/// The least word of a class by rules, and the number below which the protocols are that it is asked about.
#[derive(Clone, Copy)]
struct Class<'a, 'b> {
    rules: &'a CompleteRules<'b>,
    word: &'a [Symbol],
    protocols: u32,
}

impl<'b> PropertyMap<'b> {
    /// The map of the rules, where the protocols are those below a number.
    pub fn build(
        alloc: Global,
        rules: &CompleteRules<'_>,
        protocols: u32,
    ) -> Result<PropertyMap<'b>, AllocError>
        ensures protocols { IfOk result (λ m. m.protocols ≡ protocols) }
        ensures map { IfOk result (IsMapOf rules.now) }
    {
        let own = Endings::of(alloc, rules, protocols)?;
        Ok(PropertyMap {
            protocols,
            below: None,
            own,
        })
    }

    /// The map of the rules, over what the first of them, this many, keep with the endings of words.
    pub fn over(
        alloc: Global,
        below: &'b Endings,
        count: usize,
        rules: &CompleteRules<'_>,
        protocols: u32,
    ) -> Result<PropertyMap<'b>, AllocError>
        requires below { AreEndingsOf protocols (take count rules.now) below.now }
        ensures protocols { IfOk result (λ m. m.protocols ≡ protocols) }
        ensures map { IfOk result (IsMapOf rules.now) }
    {
        let own = Endings::after(alloc, rules, count, protocols)?;
        Ok(PropertyMap {
            protocols,
            below: Some(below),
            own,
        })
    }

    /// The symbols that are kept with the word in what is borrowed.
    fn below(&self, word: &[Symbol]) -> &[Symbol]
        ensures { (x : Symbol) → FollowsBelow self.now.below word.now x → Contains result.now x }
    {
        match self.below {
            None => &[],
            Some(endings) => endings.with(word),
        }
    }

    /// Puts the symbols that are kept with the word last.
    fn add_kept(&self, word: &[Symbol], found: &mut Vec<Symbol>) -> Result<(), AllocError>
        ensures added { OnOk result
            ((x : Symbol) → IsKept self.now word.now x → Contains found.new.items x) }
        ensures kept { OnOk result
            ((x : Symbol) → Contains found.old.items x → Contains found.new.items x) }
    {
        found.extend_from_slice(self.below(word))?;
        found.extend_from_slice(self.own.with(word))?;
        Ok(())
    }

    /// The symbols that are kept with some ending of a word that begins at this place or after it.
    fn candidates(
        &self,
        alloc: Global,
        u: &[Symbol],
        from: usize,
    ) -> Result<Vec<Symbol>, AllocError>
        ensures { IfOk result (λ v. (at : ℕ) (x : Symbol) → from ≤ at → at ≤ length u.now
            → IsKept self.now (drop at u.now) x → Contains v.items x) }
    {
        let mut found: Vec<Symbol> = Vec::new(alloc);
        for at in from..u.len() + 1 {
            self.add_kept(&u[at..], &mut found)?;
        }
        Ok(found)
    }

    /// Whether the symbol is among those that are kept with the word.
    fn keeps(&self, word: &[Symbol], x: Symbol) -> bool
        ensures { IsKept self.now word.now x → result ≡ true }
    {
        is_among(self.below(word), x) || is_among(self.own.with(word), x)
    }

    /// Whether the map keeps the symbol with some ending of a word that begins at this place or after it.
    fn is_candidate(&self, u: &[Symbol], from: usize, x: Symbol) -> bool
        ensures { (at : ℕ) → from ≤ at → at ≤ length u.now
            → IsKept self.now (drop at u.now) x → result ≡ true }
    {
        for at in from..u.len() + 1 {
            if self.keeps(&u[at..], x) {
                return true;
            }
        }
        false
    }

    /// Whether a property vanishes after the least word of a class, by the rules of the map. No memory is taken: the room is for one
    /// symbol more than the word.
    pub fn has(
        &self,
        rules: &CompleteRules<'_>,
        u: &[Symbol],
        x: Symbol,
        room: &mut Vec<Symbol>,
    ) -> bool
        requires map { IsMapOf rules.now self.now }
        requires property { IsProperty self.now.protocols x }
        requires least { IsLeast (Linked (Step rules.now)) u.now }
        requires fits { length u.now + 1 ≤ vec_capacity room.old }
        ensures answer { Decides result (Vanishes rules.now u.now x) }
        ensures room { vec_capacity room.old ≤ vec_capacity room.new }
    {
        let _complete = rules.count();
        let longest = rules.longest();
        if self.is_candidate(u, u.len().saturating_sub(longest), x) {
            vanishes(rules, u, x, room)
        } else {
            false
        }
    }

    /// The properties of the least word of a class, by the rules of the map.
    pub fn properties(
        &self,
        alloc: Global,
        rules: &CompleteRules<'_>,
        u: &[Symbol],
    ) -> Result<Properties, AllocError>
        requires map { IsMapOf rules.now self.now }
        requires least { IsLeast (Linked (Step rules.now)) u.now }
        ensures { IfOk result (ArePropertiesOf rules.now self.now.protocols u.now) }
    {
        let _complete = rules.count();
        let longest = rules.longest();
        let from = u.len().saturating_sub(longest);
        let candidates = self.candidates(alloc, u, from)?;
        let mut room = Vec::with_capacity(alloc, u.len() + 1)?;
        let class = Class {
            rules,
            word: u,
            protocols: self.protocols,
        };
        let mut protocols = conforming(alloc, &class, &candidates, &mut room)?;
        protocols.sort_unstable();
        protocols.dedup();
        let layout = self.has(rules, u, Symbol::Layout, &mut room);
        Ok(Properties {
            protocols: Seq::new(protocols),
            layout,
        })
    }
}

fn is_among(symbols: &[Symbol], x: Symbol) -> bool
    ensures { Decides result (Contains symbols.now x) }
{
    symbols.contains(&x)
}

fn symbol_at(symbols: &[Symbol], k: usize) -> Symbol
    requires { k < length symbols.now }
    ensures { slice_get symbols.now k ≡ Some result }
{
    symbols[k]
}

/// The protocol of the symbol, if it is one below this number that vanishes after the least word of a class.
fn conforms(class: &Class<'_, '_>, x: Symbol, room: &mut Vec<Symbol>) -> Option<u32>
    requires least { IsLeast (Linked (Step class.now.rules.now)) class.now.word.now }
    requires fits { length class.now.word.now + 1 ≤ vec_capacity room.old }
    ensures answer { MatchOption result
        ((p : ℕ) → x ≡ Proto p → p < class.now.protocols
        → Vanishes class.now.rules.now class.now.word.now x → ⊥)
        (λ p. (x ≡ Proto p) × (p < class.now.protocols)
        × Vanishes class.now.rules.now class.now.word.now (Proto p)) }
    ensures room { vec_capacity room.old ≤ vec_capacity room.new }
{
    match x {
        Symbol::Proto(p) => {
            if p < class.protocols && vanishes(class.rules, class.word, x, room) {
                Some(p)
            } else {
                None
            }
        }
        _ => None,
    }
}

/// Adds the protocol of the next symbol, if it is one below this number that vanishes after the least word of a class.
fn add_conforming(
    class: &Class<'_, '_>,
    symbols: &[Symbol],
    k: usize,
    room: &mut Vec<Symbol>,
    found: &mut Vec<u32>,
) -> Result<(), AllocError>
    requires within { k < length symbols.now }
    requires least { IsLeast (Linked (Step class.now.rules.now)) class.now.word.now }
    requires fits { length class.now.word.now + 1 ≤ vec_capacity room.old }
    requires so_far { AreConforming class.now.rules.now class.now.protocols class.now.word.now
        (take k symbols.now) found.old.items }
    ensures found { OnOk result
        (AreConforming class.now.rules.now class.now.protocols class.now.word.now
        (take (k + 1) symbols.now) found.new.items) }
    ensures room { vec_capacity room.old ≤ vec_capacity room.new }
{
    match conforms(class, symbol_at(symbols, k), room) {
        Some(p) => {
            found.push(p)?;
            Ok(())
        }
        None => Ok(()),
    }
}

/// The protocols among these symbols that vanish after the least word of a class.
fn conforming(
    alloc: Global,
    class: &Class<'_, '_>,
    symbols: &[Symbol],
    room: &mut Vec<Symbol>,
) -> Result<Vec<u32>, AllocError>
    requires least { IsLeast (Linked (Step class.now.rules.now)) class.now.word.now }
    requires fits { length class.now.word.now + 1 ≤ vec_capacity room.old }
    ensures found { IfOk result
        (λ v. AreConforming class.now.rules.now class.now.protocols class.now.word.now
        symbols.now v.items) }
    ensures room { vec_capacity room.old ≤ vec_capacity room.new }
{
    let mut found = Vec::new(alloc);
    for k in 0..symbols.len() {
        add_conforming(class, symbols, k, room, &mut found)?;
    }
    Ok(found)
}

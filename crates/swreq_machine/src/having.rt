//! What the property map of the rules of a machine answers of a type parameter, without memory.

ghost use Rattle.std.specs.Prelude.{◌≡◌, ◌↔◌, IsTrue, List, MatchOption};
ghost use Rattle.swreq_valid.specs.swreq_derive.Derivation.{TermRequirement};
ghost use Rattle.swreq_map.specs.{Follows.{IsMapOf}, Properties.{IsProperty}};
ghost use Rattle.swreq_valid.specs.swreq_symbols.Texts.{term_of, world_of};
ghost use Rattle.swreq_machine.specs.{Asked.{HasRoomFor, IsBehind, IsDerivable, IsShownBy}, Having.{IsBelow, TellsIfHas, symbol_of}, Machines.{IsMachineOf}};
ghost use Rattle.swreq_valid.specs.Rounds.{last_rules};

use crate::machine::Machine;
use crate::scratch::Scratch;
use swreq_map::PropertyMap;
use swreq_valid::param::{ProtoId, TermId};
use swreq_valid::symbols::Text;
use swreq_valid::word::Symbol;

/// A property of a type parameter.
#[derive(Clone, Copy)]
pub enum Property {
    /// That it conforms to this protocol.
    Protocol(ProtoId),
    /// That it is `AnyObject`.
    Layout,
}

impl Property {
    /// The symbol that vanishes after the words of the type parameters that have it.
    fn symbol(self) -> Symbol
        ensures { result ≡ symbol_of self }
    {
        match self {
            Property::Protocol(p) => Symbol::Proto(p.rank),
            Property::Layout => Symbol::Layout,
        }
    }
}

impl Machine<'_> {
    /// Whether a property's symbol vanishes after the word of t, by the map of the rules; None if and only if t is not valid.
    fn vanishing(
        &self,
        text: &Text<'_>,
        map: &PropertyMap,
        t: TermId,
        x: Symbol,
        scratch: &mut Scratch,
    ) -> Option<bool>
        requires t { HasRoomFor text.now scratch.old t }
        requires map { IsMapOf (last_rules self.now.rounds) map.now }
        requires property { IsProperty map.now.protocols x }
        ensures answer { MatchOption result
            (IsShownBy (world_of text.now) self.now (term_of text.now t) → ⊥)
            (λ b. IsShownBy (world_of text.now) self.now (term_of text.now t)
            × (IsTrue b ↔ IsBehind (world_of text.now) self.now (term_of text.now t) x)) }
        ensures room { scratch.new.room ≡ scratch.old.room }
    {
        if self.walk(text, t, &mut scratch.word, &mut scratch.test) {
            Some(map.has(self.rules(), &scratch.word, x, &mut scratch.test))
        } else {
            None
        }
    }

    /// Whether t has a property, by the property map of the rules of the machine; None if and only if t is not valid.
    pub fn has(
        &self,
        text: &Text<'_>,
        map: &PropertyMap,
        t: TermId,
        property: Property,
        scratch: &mut Scratch,
    ) -> Option<bool>
        requires t { HasRoomFor text.now scratch.old t }
        requires map { IsMapOf (last_rules self.now.rounds) map.now }
        requires property { IsBelow map.now.protocols property }
        ensures answer { (list : List TermRequirement)
            → IsMachineOf (world_of text.now) list self.now
            → TellsIfHas (IsDerivable (world_of text.now) self.now list)
            (term_of text.now t) property result }
        ensures room { scratch.new.room ≡ scratch.old.room }
    {
        self.vanishing(text, map, t, property.symbol(), scratch)
    }
}

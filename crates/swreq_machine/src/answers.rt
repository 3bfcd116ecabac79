//! The answers of a machine, which take no memory but for the room of a scratch.

ghost use Rattle.std.specs.{Prelude.{◌≡◌, ◌↔◌, ◌+◌, ◌≤◌, IfOk, IsTrue, List, vec_capacity, vec_len}, Bool.{OnTrue}};
ghost use Rattle.swreq_valid.specs.swreq_param.Terms.{member_count};
ghost use Rattle.swreq_valid.specs.swreq_derive.{Derivation.{TermRequirement}, Derivation.TermRequirement.{Conforms, Equals, IsAnyObject}, Derivation.TermStatement.{IsValid, Requires}, Facts.{requirement_of}};
ghost use Rattle.swreq_valid.specs.swreq_symbols.{Texts.{IsRequirementOfText, IsTypeOfText, term_of, world_of}};
ghost use Rattle.swreq_machine.specs.{Asked.{HasRoomFor, IsBehind, IsDerivable, IsLeastWord, IsShownBy}, Having.{TellsIfEqual}, Machines.{IsMachineOf}};

use crate::machine::Machine;
use crate::scratch::Scratch;
use std::alloc::{AllocError, Global};
use swreq_map::vanishes;
use swreq_valid::derive::Requirement;
use swreq_valid::param::{ProtoId, TermId};
use swreq_valid::symbols::{Over, Reading, Text, least_word};
use swreq_valid::word::Symbol;

impl Machine<'_> {
    /// Whether the rules show that a type is valid. Where they do, `word` becomes its least word. Both lists of symbols keep their room.
    pub(crate) fn walk(
        &self,
        text: &Text<'_>,
        subject: TermId,
        word: &mut Vec<Symbol>,
        test: &mut Vec<Symbol>,
    ) -> bool
        requires t { IsTypeOfText text.now subject }
        requires fits { member_count (term_of text.now subject) + 2 ≤ vec_capacity word.old }
        requires fits_test { member_count (term_of text.now subject) + 2 ≤ vec_capacity test.old }
        ensures valid { IsTrue result
            ↔ IsShownBy (world_of text.now) self.now (term_of text.now subject) }
        ensures least { OnTrue result (IsLeastWord (world_of text.now) self.now
            (term_of text.now subject) word.new.items) }
        ensures short { OnTrue result
            (vec_len word.new ≤ member_count (term_of text.now subject) + 1) }
        ensures room { vec_capacity word.old ≤ vec_capacity word.new }
        ensures room_test { vec_capacity test.old ≤ vec_capacity test.new }
    {
        let reading = Reading {
            text: *text,
            rules: self.rules(),
            over: Over::Signature(self.params()),
        };
        least_word(&reading, subject, word, test)
    }

    /// Whether a type is a type parameter: whether it is derivable from the list of the machine that it is valid.
    pub fn is_valid(&self, text: &Text<'_>, subject: TermId, scratch: &mut Scratch) -> bool
        requires { HasRoomFor text.now scratch.old subject }
        ensures answer { (list : List TermRequirement)
            → IsMachineOf (world_of text.now) list self.now
            → IsTrue result ↔ IsDerivable (world_of text.now) self.now list
            (IsValid (term_of text.now subject)) }
        ensures room { scratch.new.room ≡ scratch.old.room }
    {
        self.walk(text, subject, &mut scratch.word, &mut scratch.test)
    }

    /// Whether a type is valid, and this symbol vanishes after its word.
    fn is_behind(
        &self,
        text: &Text<'_>,
        subject: TermId,
        symbol: Symbol,
        scratch: &mut Scratch,
    ) -> bool
        requires { HasRoomFor text.now scratch.old subject }
        ensures answer { IsTrue result
            ↔ IsBehind (world_of text.now) self.now (term_of text.now subject) symbol }
        ensures room { scratch.new.room ≡ scratch.old.room }
    {
        if self.walk(text, subject, &mut scratch.word, &mut scratch.test) {
            vanishes(self.rules(), &scratch.word, symbol, &mut scratch.test)
        } else {
            false
        }
    }

    /// Whether `[subject : protocol]` is derivable from the list of the machine.
    pub fn conforms(
        &self,
        text: &Text<'_>,
        subject: TermId,
        protocol: ProtoId,
        scratch: &mut Scratch,
    ) -> bool
        requires { HasRoomFor text.now scratch.old subject }
        ensures answer { (list : List TermRequirement)
            → IsMachineOf (world_of text.now) list self.now
            → IsTrue result ↔ IsDerivable (world_of text.now) self.now list
            (Requires (Conforms (term_of text.now subject) protocol)) }
        ensures room { scratch.new.room ≡ scratch.old.room }
    {
        self.is_behind(text, subject, Symbol::Proto(protocol.rank), scratch)
    }

    /// Whether `[subject : AnyObject]` is derivable from the list of the machine.
    pub fn any_object(&self, text: &Text<'_>, subject: TermId, scratch: &mut Scratch) -> bool
        requires { HasRoomFor text.now scratch.old subject }
        ensures answer { (list : List TermRequirement)
            → IsMachineOf (world_of text.now) list self.now
            → IsTrue result ↔ IsDerivable (world_of text.now) self.now list
            (Requires (IsAnyObject (term_of text.now subject))) }
        ensures room { scratch.new.room ≡ scratch.old.room }
    {
        self.is_behind(text, subject, Symbol::Layout, scratch)
    }

    /// Whether two types are equal; None if and only if one of them is not valid.
    pub fn are_equal(
        &self,
        text: &Text<'_>,
        left: TermId,
        right: TermId,
        scratch: &mut Scratch,
    ) -> Option<bool>
        requires left { HasRoomFor text.now scratch.old left }
        requires right { HasRoomFor text.now scratch.old right }
        ensures answer { (list : List TermRequirement)
            → IsMachineOf (world_of text.now) list self.now
            → TellsIfEqual (IsDerivable (world_of text.now) self.now list)
            (term_of text.now left)
            (term_of text.now right) result }
        ensures room { scratch.new.room ≡ scratch.old.room }
    {
        if !self.walk(text, left, &mut scratch.word, &mut scratch.test) {
            return None;
        }
        if !self.walk(text, right, &mut scratch.other, &mut scratch.test) {
            return None;
        }
        Some(scratch.word == scratch.other)
    }

    /// Whether `[left == right]` is derivable from the list of the machine.
    pub fn equal(&self, text: &Text<'_>, left: TermId, right: TermId, scratch: &mut Scratch) -> bool
        requires left { HasRoomFor text.now scratch.old left }
        requires right { HasRoomFor text.now scratch.old right }
        ensures answer { (list : List TermRequirement)
            → IsMachineOf (world_of text.now) list self.now
            → IsTrue result ↔ IsDerivable (world_of text.now) self.now list
            (Requires (Equals (term_of text.now left)
            (term_of text.now right))) }
        ensures room { scratch.new.room ≡ scratch.old.room }
    {
        match self.are_equal(text, left, right, scratch) {
            Some(equal) => equal,
            None => false,
        }
    }

    /// Whether a requirement is derivable from the list of the machine. The room that this takes is made here.
    pub fn derives(
        &self,
        alloc: Global,
        text: &Text<'_>,
        requirement: Requirement,
    ) -> Result<bool, AllocError>
        requires { IsRequirementOfText text.now requirement }
        ensures { IfOk result
            (λ b. (list : List TermRequirement) → IsMachineOf (world_of text.now) list self.now
            → IsTrue b ↔ IsDerivable (world_of text.now) self.now list
            (Requires (requirement_of text.now.table.now requirement))) }
    {
        match requirement {
            Requirement::Conf { subject, proto } => {
                let mut s = Scratch::for_type(alloc, text.table, subject)?;
                Ok(self.conforms(text, subject, proto, &mut s))
            }
            Requirement::Layout { subject } => {
                let mut s = Scratch::for_type(alloc, text.table, subject)?;
                Ok(self.any_object(text, subject, &mut s))
            }
            Requirement::Same { left, right } => {
                let mut s = Scratch::for_types(alloc, text.table, left, right)?;
                Ok(self.equal(text, left, right, &mut s))
            }
        }
    }
}

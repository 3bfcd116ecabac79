//! Room for the answers of machines.
ghost use Rattle.std.specs.Prelude.{◌≡◌, ◌+◌, ◌*◌, ◌≤◌, IfOk};
ghost use Rattle.swreq_valid.specs.swreq_param.{Tables.{IsOf, term_at}, Terms.{member_count}};

use std::alloc::{AllocError, Global};
use std::marker::Model;
use swreq_valid::param::{ParamId, ParamTable, Step, TermId};
use swreq_valid::word::Symbol;

/// Room for the words of the answers of machines, which take no memory, and the reduced type that the last of them left.
#[derive(Drop)]
pub struct Scratch {
    pub(crate) word: Vec<Symbol>,
    pub(crate) other: Vec<Symbol>,
    pub(crate) test: Vec<Symbol>,
    pub(crate) head: ParamId,
    pub(crate) steps: Vec<Step>,
    room: usize,
}

impl Model for Scratch {
    ghost use Rattle.std.specs.Prelude.{◌≤◌, vec_capacity};
    ghost use Rattle.swreq_machine.specs.Asked.{ScratchView};

    ghost Value = { ScratchView };

    ghost view = { λ s. record { room = s.room; head = s.head; steps = s.steps.items; word = s.word.items } };

    ghost invariant = { λ s. (s.room ≤ vec_capacity s.word) × (s.room ≤ vec_capacity s.other) × (s.room ≤ vec_capacity s.test) ×
        (s.room ≤ vec_capacity s.steps) };
}

impl Scratch {
    /// Room for words of this many symbols.
    pub fn with_room(alloc: Global, symbols: usize) -> Result<Scratch, AllocError>
        ensures { IfOk result (λ s. s.room ≡ symbols) }
    {
        let word = Vec::with_capacity(alloc, symbols)?;
        let other = Vec::with_capacity(alloc, symbols)?;
        let test = Vec::with_capacity(alloc, symbols)?;
        let steps = Vec::with_capacity(alloc, symbols)?;
        let head = ParamId { depth: 0, index: 0 };
        Ok(Scratch {
            word,
            other,
            test,
            head,
            steps,
            room: symbols,
        })
    }

    /// Room for a type parameter of the table.
    pub fn for_type(
        alloc: Global,
        table: &ParamTable,
        subject: TermId,
    ) -> Result<Scratch, AllocError>
        requires { IsOf table.now subject }
        ensures { IfOk result (λ s. 4 * (member_count (term_at table.now subject) + 2) ≤ s.room) }
    {
        let longer = table.members(subject).checked_add(2).ok_or(AllocError)?;
        let room = longer.checked_mul(4).ok_or(AllocError)?;
        Scratch::with_room(alloc, room)
    }

    /// Room for each of two type parameters of the table.
    pub fn for_types(
        alloc: Global,
        table: &ParamTable,
        left: TermId,
        right: TermId,
    ) -> Result<Scratch, AllocError>
        requires a { IsOf table.now left }
        requires b { IsOf table.now right }
        ensures a { IfOk result (λ s. 4 * (member_count (term_at table.now left) + 2) ≤ s.room) }
        ensures b { IfOk result (λ s. 4 * (member_count (term_at table.now right) + 2) ≤ s.room) }
    {
        let longest = table.members(left).max(table.members(right));
        let longer = longest.checked_add(2).ok_or(AllocError)?;
        let room = longer.checked_mul(4).ok_or(AllocError)?;
        Scratch::with_room(alloc, room)
    }

    /// The room that it was made with.
    pub fn room(&self) -> usize
        ensures { result ≡ self.now.room }
    {
        self.room
    }

    /// The generic parameter of the reduced type that the last call of `Machine::reduced` left.
    pub fn param(&self) -> ParamId
        ensures { result ≡ self.now.head }
    {
        self.head
    }

    /// The steps of that type.
    pub fn steps(&self) -> &[Step]
        ensures { result.now ≡ self.now.steps }
    {
        self.steps.as_slice()
    }

    /// The least word congruent to the word of the type parameter of which it is the reduced type.
    pub fn word(&self) -> &[Symbol]
        ensures { result.now ≡ self.now.word }
    {
        self.word.as_slice()
    }
}

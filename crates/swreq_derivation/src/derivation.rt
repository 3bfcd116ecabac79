//! A derivation that is being written, with the table whose ids its lines use.
ghost use Rattle.std.specs.Prelude.{◌≡◌, List, [], IfOk, MatchOption, OnOk};
ghost use Rattle.swreq_derive.specs.swreq_param.{Tables.{IsOf, term_at}, Terms.Term.{Generic, Member}};
ghost use Rattle.swreq_derive.specs.{Derivation.{TermStatement}, Facts.{statement_of}, Instances.{AreStated, HasNumber, IsInstance}};
ghost use Rattle.swreq_derivation.specs.UnderWay.{AllIn, AreIdsIn, Continues, ContinuesFrom, States, statements_in};

use crate::stated::Stated;
use std::alloc::{AllocError, Global};
use std::marker::Model;
use swreq_derive::param::{ParamId, ParamTable, Step, TermId};
use swreq_derive::{DerivRule, Line, Statement};
use swreq_text::Seq;

/// The lines of a derivation that is being written, with the table whose ids they use. No two lines state the same. What is put on the
/// derivation takes memory from its allocator.
#[derive(Drop)]
pub struct Derivation {
    alloc: Global,
    table: ParamTable,
    lines: Vec<Line>,
    /// What the lines state, in order.
    stated: Stated,
}

impl Model for Derivation {
    ghost use Rattle.std.specs.Coded.{codes};
    ghost use Rattle.swreq_derive.specs.swreq_param.Codes.{term_code};
    ghost use Rattle.swreq_derivation.specs.Views.{DerivationView};

    ghost Value = { DerivationView };

    ghost coded = { Prim.hlevel (codes, term_code) };

    ghost use Rattle.swreq_derivation.specs.Inside.{view_of, IsUnderWay};

    ghost view = { view_of };

    ghost invariant = { IsUnderWay };
}

impl Derivation {
    /// A derivation without lines over this table. It takes no memory.
    pub fn new(alloc: Global, table: ParamTable) -> Derivation
        ensures { result ≡ record { table = table; lines = [] } }
    {
        Derivation {
            alloc,
            table,
            lines: Vec::new(alloc),
            stated: Stated::new(alloc),
        }
    }

    /// The allocator from which what is put on the derivation takes memory.
    pub fn alloc(&self) -> Global {
        self.alloc
    }

    /// The table whose ids the lines use.
    pub fn table(&self) -> &ParamTable
        ensures { result.now ≡ self.now.table }
    {
        &self.table
    }

    /// The table, without the lines.
    pub fn into_table(self) -> ParamTable
        ensures { result ≡ self.table }
    {
        self.table
    }

    /// The lines.
    pub fn lines(&self) -> &[Line]
        ensures lines { result.now ≡ self.now.lines }
        ensures ids { AllIn self.now.table self.now.lines }
    {
        &self.lines
    }

    /// The number of the line that states this, counted from 1, or None if no line does.
    pub fn number_of(&self, statement: Statement) -> Option<usize>
        requires { AreIdsIn self.now.table statement }
        ensures { MatchOption result (States self.now (statement_of self.now.table statement) → ⊥)
            (λ n. HasNumber n (statements_in self.now) (statement_of self.now.table statement)) }
    {
        // If two ids stand for the same type parameter, they are equal.
        let _count = self.table.len();
        self.stated.number_of(statement)
    }

    /// The id of a member of a type parameter, which is added if it is not in the table.
    pub fn member(&mut self, subject: TermId, step: Step) -> Result<TermId, AllocError>
        requires { IsOf self.old.table subject }
        ensures is_of { IfOk result (IsOf self.new.table) }
        ensures stands { IfOk result
            (λ u. term_at self.new.table u ≡ Member (term_at self.old.table subject) step) }
        ensures said { statements_in self.new ≡ statements_in self.old }
        ensures continues { Continues self.old self.new }
    {
        self.table.member(subject, step)
    }

    /// The id of a generic parameter, which is added if it is not in the table.
    pub fn param(&mut self, generic: ParamId) -> Result<TermId, AllocError>
        ensures is_of { IfOk result (IsOf self.new.table) }
        ensures stands { IfOk result (λ u. term_at self.new.table u ≡ Generic generic) }
        ensures said { statements_in self.new ≡ statements_in self.old }
        ensures continues { Continues self.old self.new }
    {
        self.table.param(generic)
    }

    /// Puts a line last. No line states what it states. If memory runs out, the lines stay as they were.
    pub(crate) fn push(
        &mut self,
        rule: DerivRule,
        premises: Vec<usize>,
        statement: Statement,
    ) -> Result<(), AllocError>
        requires ids { AreIdsIn self.old.table statement }
        requires unsaid { States self.old (statement_of self.old.table statement) → ⊥ }
        ensures table { self.new.table ≡ self.old.table }
        ensures says { OnOk result (States self.new (statement_of self.old.table statement)) }
        ensures continues { (from : List TermStatement) → AreStated (statements_in self.old)
            premises.items from → ContinuesFrom (λ b. IsInstance b.facts b.params b.written rule
            from (statement_of self.old.table statement)) self.old self.new }
    {
        let premises = Seq::new(premises);
        self.lines.push(Line {
            rule,
            premises,
            statement,
        })?;
        match self.stated.push(statement) {
            Ok(()) => Ok(()),
            Err(_) => {
                let _line = self.lines.pop();
                Err(AllocError)
            }
        }
    }
}

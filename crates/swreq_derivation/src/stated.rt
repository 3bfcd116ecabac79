//! The statements of lines, found without a scan.
ghost use Rattle.std.specs.Prelude.{◌≡◌, ◌++◌, ℕ, [], ◌∷◌, Some, MatchOption, OnErr, OnOk, slice_get};
ghost use Rattle.swreq_derive.specs.Instances.{HasNumber};
ghost use Rattle.swreq_derivation.specs.Keys.{statement_by};

use indexmap::IndexSet;
use std::alloc::{AllocError, Global};
use std::marker::Model;
use swreq_derive::param::{ProtoId, TermId};
use swreq_derive::{Requirement, Statement};

/// The key by which a statement is looked up.
#[derive(Clone, Copy, PartialEq, Eq, Hash)]
enum Key {
    Valid(TermId),
    Conf(TermId, ProtoId),
    Layout(TermId),
    Same(TermId, TermId),
}

/// Statements, each once, in the order in which they came.
#[derive(Drop)]
pub struct Stated {
    keys: IndexSet<Key>,
}

impl Model for Stated {
    ghost use Rattle.std.specs.Prelude.{List, map};
    ghost use Rattle.swreq_derive.specs.declared.requirements.Statement.{Statement};
    ghost use Rattle.swreq_derivation.specs.Keys.{statement_by};

    ghost Value = { List Statement };

    ghost view = { λ s. map statement_by s.keys.keys };
}

/// The key of a statement.
fn key_of(statement: Statement) -> Key
    ensures { statement_by result ≡ statement }
{
    match statement {
        Statement::Valid { t } => Key::Valid(t),
        Statement::Holds { r } => match r {
            Requirement::Conf { subject, proto } => Key::Conf(subject, proto),
            Requirement::Layout { subject } => Key::Layout(subject),
            Requirement::Same { left, right } => Key::Same(left, right),
        },
    }
}

impl Stated {
    /// No statements. It takes no memory.
    pub fn new(alloc: Global) -> Stated
        ensures { result ≡ [] }
    {
        Stated {
            keys: IndexSet::new(alloc),
        }
    }

    /// The number of a statement, counted from 1, or None if it is not there.
    pub fn number_of(&self, statement: Statement) -> Option<usize>
        ensures { MatchOption result ((k : ℕ) → slice_get self.now k ≡ Some statement → ⊥) (λ n.
            HasNumber n self.now statement) }
    {
        let _count = self.keys.len();
        let key = key_of(statement);
        let place = self.keys.get_index_of(&key)?;
        Some(place + 1)
    }

    /// Puts a statement last that is not there yet. If memory runs out, the statements stay as they were.
    pub fn push(&mut self, statement: Statement) -> Result<(), AllocError>
        requires { (k : ℕ) → slice_get self.old k ≡ Some statement → ⊥ }
        ensures ok { OnOk result (self.new ≡ self.old ++ statement ∷ []) }
        ensures err { OnErr result (self.new ≡ self.old) }
    {
        let key = key_of(statement);
        self.keys.insert(key)?;
        Ok(())
    }
}

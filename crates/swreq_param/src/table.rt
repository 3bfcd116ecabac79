//! Type parameters by small ids.
ghost use Rattle.std.specs.{Prelude.{◌≡◌, ◌↔◌, [], length, Contains, IfOk, OnErr, IsOk, MatchOption}, declared.cmp.Ordering.TheVariants.{Equal}};
ghost use Rattle.swreq_param.specs.{Terms.{head, member_count}, Terms.Term.{Generic, Member}, Order.{Compares}, Entries.{IsBelow, IsEntryOf, term_of}, Tables.{IsOf, term_at, AreDistinct, HasBases, Extends, Interned, IsSplit}, Owned.{as_term}};

use crate::ids::{ParamId, Step, TermId};
use crate::owned::TypeParam;
use indexmap::IndexSet;
use std::alloc::{AllocError, Global};
use std::cmp::Ordering;
use std::marker::Model;
use swreq_text::Seq;

/// What the table keeps of a type parameter.
#[derive(Clone, Copy, PartialEq, Eq, Hash)]
enum Entry {
    Param(ParamId),
    Member { base: TermId, step: Step },
}

/// Type parameters, each once, in the order in which they came. With a member its base is there
/// too, before it.
///
/// Contracts see the list of the type parameters. An id is a place in it.
#[derive(Drop)]
pub struct ParamTable {
    entries: IndexSet<Entry>,
}

impl Model for ParamTable {
    ghost use Rattle.std.specs.{Prelude.{List}, Coded.{coded_list}};
    ghost use Rattle.swreq_param.specs.{Terms.{Term}, Codes.{term_code}, Entries.{terms_of, AreGrounded}};

    ghost Value = { List Term };

    ghost coded = { coded_list term_code };

    ghost view = { λ t. terms_of t.entries.keys };

    ghost invariant = { λ t. AreGrounded t.entries.keys };
}

impl ParamTable {
    /// A table without type parameters, which takes no memory.
    pub fn new(alloc: Global) -> ParamTable
        ensures { result ≡ [] }
    {
        ParamTable {
            entries: IndexSet::new(alloc),
        }
    }

    /// The number of type parameters. No two of them are equal, and with a member the table has its
    /// base.
    pub fn len(&self) -> usize
        ensures len { result ≡ length self.now }
        ensures distinct { AreDistinct self.now }
        ensures bases { HasBases self.now }
    {
        self.entries.len()
    }

    /// The id of a generic parameter. One that is there keeps its id, and then no memory is taken;
    /// a new one comes last. If memory runs out, the table stays as it was.
    pub fn param(&mut self, p: ParamId) -> Result<TermId, AllocError>
        ensures ok { IfOk result (Interned self.old self.new (Generic p)) }
        ensures there { Contains self.old (Generic p) → IsOk result }
        ensures err { OnErr result (self.new ≡ self.old) }
        ensures extends { Extends self.old self.new }
        ensures distinct { AreDistinct self.new }
    {
        self.intern(Entry::Param(p))
    }

    /// The id of the member of a type parameter of the table with this step. One that is there
    /// keeps its id, and then no memory is taken; a new one comes last. If memory runs out, the
    /// table stays as it was.
    pub fn member(&mut self, base: TermId, step: Step) -> Result<TermId, AllocError>
        requires { IsOf self.old base }
        ensures ok { IfOk result
            (Interned self.old self.new (Member (term_at self.old base) step)) }
        ensures there { Contains self.old (Member (term_at self.old base) step) → IsOk result }
        ensures err { OnErr result (self.new ≡ self.old) }
        ensures extends { Extends self.old self.new }
        ensures distinct { AreDistinct self.new }
    {
        self.intern(Entry::Member { base, step })
    }

    /// The id of the member of a type parameter of the table with this step, or None where the table
    /// lacks that member.
    pub fn find(&self, base: TermId, step: Step) -> Option<TermId>
        requires { IsOf self.now base }
        ensures { MatchOption result
            (Contains self.now (Member (term_at self.now base) step) → ⊥)
            (λ id. IsOf self.now id × (term_at self.now id ≡ Member (term_at self.now base) step)) }
    {
        let _count = self.entries.len();
        let place = self.entries.get_index_of(&Entry::Member { base, step })?;
        Some(TermId { place })
    }

    /// The number of members of a type parameter of the table.
    pub fn members(&self, t: TermId) -> usize
        requires { IsOf self.now t }
        ensures { result ≡ member_count (term_at self.now t) }
    {
        let mut at = t;
        let mut count = 0;
        while let Entry::Member { base, .. } = self.entry(at) {
            at = base;
            count += 1;
        }
        count
    }

    /// The generic parameter with which a type parameter of the table begins.
    pub fn head(&self, t: TermId) -> ParamId
        requires { IsOf self.now t }
        ensures { result ≡ head (term_at self.now t) }
    {
        let mut at = t;
        loop {
            match self.entry(at) {
                Entry::Param(p) => return p,
                Entry::Member { base, .. } => at = base,
            }
        }
    }

    /// The base of a type parameter of the table with its last step, or None for a generic
    /// parameter.
    pub fn split(&self, t: TermId) -> Option<(TermId, Step)>
        requires { IsOf self.now t }
        ensures { IsSplit self.now (term_at self.now t) result }
    {
        match self.entry(t) {
            Entry::Param(_) => None,
            Entry::Member { base, step } => Some((base, step)),
        }
    }

    /// The order of two type parameters of the table. They are equal if and only if their ids are.
    pub fn compare(&self, a: TermId, b: TermId) -> Ordering
        requires left { IsOf self.now a }
        requires right { IsOf self.now b }
        ensures order { Compares (term_at self.now a) (term_at self.now b) result }
        ensures equal { (result ≡ Equal) ↔ (a ≡ b) }
    {
        // Where two type parameters are equal, so are their ids.
        let _count = self.len();
        let mut left = a;
        let mut right = b;
        let mut after = Ordering::Equal;
        while left != right {
            match (self.entry(left), self.entry(right)) {
                (Entry::Param(p), Entry::Param(q)) => return p.cmp(&q).then(after),
                (Entry::Param(_), Entry::Member { .. }) => return Ordering::Less,
                (Entry::Member { .. }, Entry::Param(_)) => return Ordering::Greater,
                (Entry::Member { base: t, step: x }, Entry::Member { base: u, step: y }) => {
                    after = x.cmp(&y).then(after);
                    left = t;
                    right = u;
                }
            }
        }
        after
    }

    /// A type parameter of the table by itself.
    pub fn owned(&self, alloc: Global, t: TermId) -> Result<TypeParam, AllocError>
        requires { IsOf self.now t }
        ensures { IfOk result (λ p. as_term p ≡ term_at self.now t) }
    {
        let mut steps = Vec::new(alloc);
        let mut at = t;
        loop {
            match self.entry(at) {
                Entry::Param(head) => {
                    steps.reverse();
                    return Ok(TypeParam {
                        head,
                        steps: Seq::new(steps),
                    });
                }
                Entry::Member { base, step } => {
                    steps.push(step)?;
                    at = base;
                }
            }
        }
    }

    /// What the table keeps of a type parameter.
    fn entry(&self, t: TermId) -> Entry
        requires { IsOf self.now t }
        ensures { IsEntryOf self.now t result }
    {
        match self.entries.get_index(t.place) {
            Some(entry) => *entry,
            None => unreachable!(),
        }
    }

    /// The id of the type parameter of an entry whose base is there.
    fn intern(&mut self, entry: Entry) -> Result<TermId, AllocError>
        requires { IsBelow (length self.old) entry }
        ensures ok { IfOk result (Interned self.old self.new (term_of self.old entry)) }
        ensures there { Contains self.old (term_of self.old entry) → IsOk result }
        ensures err { OnErr result (self.new ≡ self.old) }
        ensures extends { Extends self.old self.new }
        ensures distinct { AreDistinct self.new }
    {
        let (place, _) = self.entries.insert_full(entry)?;
        Ok(TermId { place })
    }
}

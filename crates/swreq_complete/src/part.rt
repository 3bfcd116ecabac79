//! Rules that stand after others, with the trie of their left sides.

ghost use Rattle.std.specs.Prelude.{◌≡◌, ◌+◌, ◌-◌, ◌<◌, ◌^◌, [], ◌∷◌, ◌++◌, length, IfOk, OnOk, OnErr};
ghost use Rattle.swreq_complete.specs.Index.{IsIndexAfter};

use std::alloc::{AllocError, Global};
use std::marker::Model;
use swreq_rule::{Rule, RuleList};
use swreq_trie::Trie;

/// Rules that stand after `before` others, and the trie in which exactly their left sides are stored, each with the number of its rule.
#[derive(Drop)]
pub(crate) struct Part {
    before: usize,
    list: RuleList,
    trie: Trie,
}

impl Model for Part {
    ghost use Rattle.swreq_complete.specs.Index.{IsIndexAfter, PartView};

    ghost Value = { PartView };

    ghost view = { λ p. record { before = p.before; rules = p.list } };

    ghost invariant = { λ p. IsIndexAfter p.before p.trie p.list };
}

// A copy of the rules.
fn copied(alloc: Global, rules: &[Rule]) -> Result<RuleList, AllocError>
    ensures { IfOk result (λ copies. copies ≡ rules.now) }
{
    let mut copies = RuleList::new(alloc);
    for rule in rules {
        let copy = rule.clone()?;
        if let Err(_) = copies.push(copy) {
            return Err(AllocError);
        }
    }
    Ok(copies)
}

impl Part {
    /// No rules, after this many others. It takes no memory.
    pub fn new(alloc: Global, before: usize) -> Part
        ensures { result ≡ record { before = before; rules = [] } }
    {
        Part {
            before,
            list: RuleList::new(alloc),
            trie: Trie::new(alloc),
        }
    }

    /// A copy of the part.
    pub fn copy(&self, alloc: Global) -> Result<Part, AllocError>
        ensures { IfOk result (λ copy. copy ≡ self.now) }
    {
        let list = copied(alloc, self.list.rules())?;
        let trie = self.trie.copy(alloc)?;
        Ok(Part {
            before: self.before,
            list,
            trie,
        })
    }

    /// How many rules stand before these.
    pub fn before(&self) -> usize
        ensures { result ≡ self.now.before }
    {
        self.before
    }

    /// The rules in order.
    pub fn rules(&self) -> &[Rule]
        ensures { result.now ≡ self.now.rules }
    {
        self.list.rules()
    }

    /// The trie of their left sides.
    pub fn index(&self) -> &Trie
        ensures { IsIndexAfter self.now.before result.now self.now.rules }
    {
        &self.trie
    }

    /// Puts the rule last. If memory runs out, all is as before.
    pub fn push(&mut self, rule: Rule) -> Result<(), AllocError>
        requires { self.old.before + length self.old.rules < 2 ^ 32 - 1 }
        ensures ok { OnOk result
            (self.new ≡ record { before = self.old.before; rules = self.old.rules ++ rule ∷ [] }) }
        ensures err { OnErr result (self.new ≡ self.old) }
    {
        let count = self.list.rules().len();
        if let Err(_) = self.list.push(rule) {
            return Err(AllocError);
        }
        let rules = self.list.rules();
        let last = &rules[count];
        let number = (self.before + count) as u32 + 1;
        match self.trie.insert(last.left.symbols(), number) {
            Ok(()) => Ok(()),
            Err(_) => {
                let _rule = self.list.pop();
                Err(AllocError)
            }
        }
    }
}

//! The rules of a list.
ghost use Rattle.std.specs.Prelude.{◌≡◌, ◌↔◌, ◌++◌, [], IfOk, IsTrue, List, Contains};
ghost use Rattle.swreq_machine.specs.swreq_derive.{Derivation.{Derivable, TermRequirement}, Derivation.TermStatement.{Requires}};
ghost use Rattle.swreq_machine.specs.swreq_symbols.Texts.{IsRequirementOfText};
ghost use Rattle.swreq_list_rules.specs.{ListRules.{AreOfList}, Settings.{AreKnownIn, facts_in, said_in, says_in, source_in}};

use crate::derivable::is_derivable_by;
use crate::setting::Setting;
use crate::settling::settle;
use std::alloc::{AllocError, Global};
use std::marker::Model;
use swreq_machine::complete::{CompleteRules, Failed};
use swreq_machine::derive::Requirement;

/// The rules of the usable members of a list, over those of the protocols, which are borrowed, and the members that are not usable. They
/// wait: a list that grows may make them usable.
#[derive(Drop)]
pub struct ListRules<'b> {
    rules: CompleteRules<'b>,
    waiting: Vec<Requirement>,
}

impl<'b> Model for ListRules<'b> {
    ghost use Rattle.swreq_list_rules.specs.ListRules.{ListRulesView};

    ghost Value = { ListRulesView };

    ghost view = { λ r. record { rules = r.rules; waiting = r.waiting.items } };
}

impl<'b> ListRules<'b> {
    /// These rules, and these members that wait.
    pub(crate) fn new(rules: CompleteRules<'b>, waiting: Vec<Requirement>) -> ListRules<'b>
        ensures { result ≡ record { rules = rules.entry; waiting = waiting.items } }
    {
        ListRules { rules, waiting }
    }

    /// The rules of the list without members.
    pub fn empty(alloc: Global, setting: &Setting<'b>) -> Result<ListRules<'b>, AllocError>
        ensures { IfOk result (AreOfList setting.entry.now []) }
    {
        let rules = setting.checked.protocols.rules().over(alloc)?;
        Ok(ListRules {
            rules,
            waiting: Vec::new(alloc),
        })
    }

    /// The same rules, which borrow from these. What is not borrowed is copied.
    pub fn over<'a>(&'a self, alloc: Global) -> Result<ListRules<'a>, AllocError>
        ensures { IfOk result (λ same. same ≡ self.now) }
    {
        let rules = self.rules.over(alloc)?;
        let waiting = Vec::from_slice(alloc, &self.waiting)?;
        Ok(ListRules { rules, waiting })
    }

    /// The rules of a list with these members more. Of members in another order, or of some twice, they are the same rules.
    ///
    /// `Failed::Limit` comes where a completion by one more equation passes a limit; the rounds of the list may then pass it or not.
    pub fn with(
        self,
        alloc: Global,
        setting: &Setting<'_>,
        more: &[Requirement],
    ) -> Result<ListRules<'b>, Failed>
        requires waiting { AreKnownIn setting.now self.waiting }
        requires more { AreKnownIn setting.now more.now }
        ensures { (list : List TermRequirement) → AreOfList setting.now list self.entry
            → IfOk result (AreOfList setting.now (list ++ said_in setting.now more.now)) }
    {
        let ListRules { rules, mut waiting } = self;
        waiting.extend_from_slice(more)?;
        settle(alloc, setting, rules, waiting)
    }

    /// Whether a requirement is derivable from the list.
    pub fn derives(
        &self,
        alloc: Global,
        setting: &Setting<'_>,
        r: Requirement,
    ) -> Result<bool, AllocError>
        requires { IsRequirementOfText setting.now.checked.text r }
        ensures { (list : List TermRequirement) → AreOfList setting.now list self.now
            → IfOk result (λ b. IsTrue b ↔ Derivable (facts_in setting.now)
            (source_in setting.now list) (Requires (says_in setting.now r))) }
    {
        is_derivable_by(alloc, setting, &self.rules, r)
    }
}

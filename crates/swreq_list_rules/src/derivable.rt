//! Whether a requirement is derivable from a list, by the rules of the list.
ghost use Rattle.std.specs.Prelude.{◌≡◌, ◌↔◌, IfOk, IsTrue, List};
ghost use Rattle.swreq_machine.specs.swreq_derive.{Derivation.{Derivable, TermRequirement}, Derivation.TermStatement.{Requires}};
ghost use Rattle.swreq_machine.specs.swreq_symbols.Texts.{IsRequirementOfText};
ghost use Rattle.swreq_list_rules.specs.{ListRules.{AreRulesOfList, AreShownBy}, Settings.{facts_in, says_in, source_in}};

use crate::setting::Setting;
use std::alloc::{AllocError, Global};
use swreq_machine::complete::CompleteRules;
use swreq_machine::derive::Requirement;
use swreq_machine::symbols::{Over, equation};
use swreq_machine::valid::{are_linked, is_usable};

/// Whether the rules show that the type parameters of a requirement are valid.
pub(crate) fn has_valid_sides(
    alloc: Global,
    setting: &Setting<'_>,
    rules: &CompleteRules<'_>,
    r: Requirement,
) -> Result<bool, AllocError>
    requires { IsRequirementOfText setting.now.checked.text r }
    ensures { IfOk result (λ b.
        IsTrue b ↔ AreShownBy setting.now rules.now (says_in setting.now r)) }
{
    let over = Over::Signature(setting.params);
    is_usable(alloc, &setting.checked.text, rules, over, r)
}

/// Whether a requirement is derivable from a list with these rules: whether its type parameters are valid, and the rules link the two sides of
/// its equation.
pub fn is_derivable_by(
    alloc: Global,
    setting: &Setting<'_>,
    rules: &CompleteRules<'_>,
    r: Requirement,
) -> Result<bool, AllocError>
    requires { IsRequirementOfText setting.now.checked.text r }
    ensures { (list : List TermRequirement) → AreRulesOfList setting.now list rules.now
        → IfOk result (λ b. IsTrue b ↔ Derivable (facts_in setting.now) (source_in setting.now list)
        (Requires (says_in setting.now r))) }
{
    let valid = has_valid_sides(alloc, setting, rules, r)?;
    if !valid {
        return Ok(false);
    }
    let sides = equation(alloc, &setting.checked.text, None, &r)?;
    are_linked(alloc, rules, &sides.0, &sides.1)
}

//! Whether a requirement is derivable from a list: by its rules, by evidence, or by its machine.
ghost use Rattle.std.specs.Prelude.{◌↔◌, IfOk, IfSome, IsTrue};
ghost use Rattle.swreq_minimal.specs.{Lists.{AreRulesFor, IsAskedOf, IsDerivableFrom}, Told.{TellsOfList}};

use crate::evidence::is_evident;
use std::alloc::Global;
use swreq_list_rules::{ListRules, Setting, is_derivable_by};
use swreq_machine::complete::Failed;
use swreq_machine::core;
use swreq_machine::derive::Requirement;
use swreq_machine::watch::Watch;

/// Whether a requirement is derivable from a list, as the machine of the list tells.
fn is_derivable_by_machine<W: Watch>(
    alloc: Global,
    setting: &Setting<'_>,
    list: &[Requirement],
    r: Requirement,
    watch: &mut W,
) -> Result<bool, Failed>
    requires { IsAskedOf setting.now list.now r }
    ensures answer { IfOk result (λ b. IsTrue b ↔ IsDerivableFrom setting.now list.now r) }
    ensures tells { TellsOfList setting.now list.now result (W.told watch.old) (W.told watch.new) }
{
    let machine = core(
        alloc,
        &setting.checked,
        setting.params,
        list,
        setting.limits,
        watch,
    )?;
    Ok(is_derivable_by(alloc, setting, machine.rules(), r)?)
}

/// Whether a requirement is derivable from a list: by evidence, or else as the machine of the list tells.
fn is_derivable_by_evidence<W: Watch>(
    alloc: Global,
    setting: &Setting<'_>,
    list: &[Requirement],
    r: Requirement,
    watch: &mut W,
) -> Result<bool, Failed>
    requires { IsAskedOf setting.now list.now r }
    ensures answer { IfOk result (λ b. IsTrue b ↔ IsDerivableFrom setting.now list.now r) }
    ensures tells { TellsOfList setting.now list.now result (W.told watch.old) (W.told watch.new) }
{
    let evident = is_evident(alloc, setting, list, r)?;
    if evident {
        return Ok(true);
    }
    is_derivable_by_machine(alloc, setting, list, r, watch)
}

/// Whether a requirement is derivable from a list: as its rules tell, or where there are none, by evidence or its machine.
pub(crate) fn is_derivable<W: Watch>(
    alloc: Global,
    setting: &Setting<'_>,
    rules: Option<&ListRules<'_>>,
    list: &[Requirement],
    r: Requirement,
    watch: &mut W,
) -> Result<bool, Failed>
    requires asked { IsAskedOf setting.now list.now r }
    requires rules { IfSome rules (λ rules. AreRulesFor setting.now list.now rules.now) }
    ensures answer { IfOk result (λ b. IsTrue b ↔ IsDerivableFrom setting.now list.now r) }
    ensures tells { TellsOfList setting.now list.now result (W.told watch.old) (W.told watch.new) }
{
    match rules {
        None => is_derivable_by_evidence(alloc, setting, list, r, watch),
        Some(rules) => Ok(rules.derives(alloc, setting, r)?),
    }
}

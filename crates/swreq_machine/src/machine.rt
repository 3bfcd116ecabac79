//! Machines of lists.
ghost use Rattle.std.specs.Prelude.{◌≡◌, map, IfOk};
ghost use Rattle.swreq_valid.specs.swreq_symbols.Texts.{world_of};
ghost use Rattle.swreq_valid.specs.{Answers.{Answers, IsOnlyOutcome}, Plans.{AreRequirementsOfText, in_signature, listed}, Rounds.{AreRounds, last_rules}};
ghost use Rattle.swreq_machine.specs.Machines.{IsMachineOf, machine_rules, plan_over};

use std::alloc::{AllocError, Global};
use std::marker::Model;
use swreq_valid::complete::{CompleteRules, Failed, Limits};
use swreq_valid::derive::{Params, Requirement};
use swreq_valid::symbols::Over;
use swreq_valid::watch::Watch;
use swreq_valid::{CheckedText, RoundRequirement, RoundStart, Rounds, run_rounds};

/// The machine of a list: its generic parameters, and the rounds that found its rules. It borrows the rules of the protocols.
#[derive(Drop)]
pub struct Machine<'b> {
    params: Params,
    rounds: Rounds<'b>,
}

impl<'b> Model for Machine<'b> {
    ghost use Rattle.swreq_machine.specs.Machines.{MachineView};

    ghost Value = { MachineView };

    ghost view = { λ m. record { params = m.params; rounds = m.rounds } };
}

impl<'b> Machine<'b> {
    /// The machine with these generic parameters and these rounds.
    pub(crate) fn new(params: Params, rounds: Rounds<'b>) -> Machine<'b>
        ensures { result ≡ record { params = params; rounds = rounds.entry } }
    {
        Machine { params, rounds }
    }

    /// The generic parameters with which it was made.
    pub fn params(&self) -> Params
        ensures { result ≡ self.now.params }
    {
        self.params
    }

    /// The rounds that found its rules.
    pub fn rounds(&self) -> &Rounds<'b>
        ensures { result.now ≡ self.now.rounds }
    {
        &self.rounds
    }

    /// The rules of its last round.
    pub fn rules(&self) -> &CompleteRules<'b>
        ensures { result.now ≡ last_rules self.now.rounds }
    {
        self.rounds.last()
    }
}

/// The requirements of a list with these generic parameters.
fn in_signature(
    alloc: Global,
    params: Params,
    list: &[Requirement],
) -> Result<Vec<RoundRequirement>, AllocError>
    ensures { IfOk result (λ v. v.items ≡ map (in_signature params) list.now) }
{
    let mut wanted: Vec<RoundRequirement> = Vec::new(alloc);
    for k in 0..list.len() {
        let requirement = list[k];
        wanted.push(RoundRequirement {
            over: Over::Signature(params),
            requirement,
        })?;
    }
    Ok(wanted)
}

/// The machine of the usable part of a list, over the rules of the protocols.
///
/// `Failed::Limit` comes if and only if the rounds of the list stop at a limit, with the limit that was passed first since the last round
/// that ended, and the trace of the round that passed it.
pub fn core<'b, W: Watch>(
    alloc: Global,
    checked: &CheckedText<'_, 'b>,
    params: Params,
    list: &[Requirement],
    limits: Limits,
    watch: &mut W,
) -> Result<Machine<'b>, Failed>
    requires { AreRequirementsOfText checked.now.text list.now }
    ensures answer { Answers limits (plan_over checked.now params list.now)
        (W.told watch.old) (W.told watch.new) (machine_rules result) }
    ensures only { IsOnlyOutcome limits (plan_over checked.now params list.now)
        (machine_rules result) }
    ensures rounds { IfOk result
        (λ m. AreRounds limits (plan_over checked.now params list.now) m.rounds) }
    ensures machine { IfOk result
        (IsMachineOf (world_of checked.now.text) (listed checked.now.text.table.now list.now)) }
    ensures params { IfOk result (λ m. m.params ≡ params) }
{
    let all = in_signature(alloc, params, list)?;
    let basic = Vec::new(alloc);
    let start = RoundStart { basic, all, limits };
    let below = checked.protocols.rules();
    let rounds = run_rounds(alloc, &checked.text, Some(below), &start, watch)?;
    Ok(Machine::new(params, rounds))
}

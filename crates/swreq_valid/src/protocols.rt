//! The rules of the protocols of a text.
#![tactic(auto, using(swreq_symbols::proofs::OfTexts::text_over))]

ghost use Rattle.std.specs.Prelude.{◌≡◌, ◌↔◌, IfOk, IsTrue, false, slice_index_or};
ghost use Rattle.swreq_rounds.specs.swreq_derive.{Derivation.{TermFacts, TermRequirement}, Derivation.Source.{SelfOf}, WellFormed.{HasValidSides}};
ghost use Rattle.swreq_symbols.specs.Texts.{world_of};
ghost use Rattle.swreq_world.specs.Worlds.{TextWorld};
ghost use Rattle.swreq_valid.specs.{Answers.{Answers, IsOnlyOutcome}, Keeping.{HasNumber, TellUsable, flag_at, flag_with}, Protocols.{AreRulesOf, protocols_of}, Rounds.{AreRounds, last_rules, rules_of}};

use crate::basic::{basic, requirements};
use crate::round::Rounds;
use crate::rounds::run_rounds;
use crate::stopping::limit_of_basic;
use crate::wanted::RoundStart;
use std::alloc::{AllocError, Global};
use std::marker::Model;
use swreq_complete::watch::Watch;
use swreq_complete::{CompleteRules, Failed, Limits};
use swreq_symbols::Text;
use swreq_text::Seq;
use swreq_world::param::ProtoId;

/// The rules of the protocols of a text, and the rounds that found them.
#[derive(Drop)]
pub struct Protocols {
    rounds: Rounds<'static>,
    usable: Seq<Seq<bool>>,
}

impl Model for Protocols {
    ghost use Rattle.swreq_valid.specs.Protocols.{ProtocolsView};

    ghost Value = { ProtocolsView };

    ghost view = { λ p. record { rounds = p.rounds; usable = p.usable } };
}

impl Protocols {
    /// The rules that these rounds found, with a flag for each requirement of each protocol, by rank.
    pub(crate) fn new(rounds: Rounds<'static>, usable: Vec<Seq<bool>>) -> Protocols
        ensures { result ≡ record { rounds = rounds.entry; usable = usable.items } }
    {
        Protocols {
            rounds,
            usable: Seq::new(usable),
        }
    }

    /// The rounds that found the rules.
    pub fn rounds(&self) -> &Rounds<'static>
        ensures { result.now ≡ self.now.rounds }
    {
        &self.rounds
    }

    /// Whether the requirement of the protocol with this number, from 1, is usable: whether its type parameters are derivable by the
    /// requirements of which the rules were made. It is false where there is no such requirement.
    pub fn usable(&self, protocol: ProtoId, number: u32) -> bool
        ensures flag { result ≡ flag_at self.now.usable protocol number }
        ensures usable { (w : TextWorld) (f : TermFacts) (r : TermRequirement)
            → TellUsable w f self.now.usable → HasNumber w protocol number r
            → IsTrue result ↔ HasValidSides f (SelfOf protocol) r }
    {
        match self.usable.items().get(protocol.rank as usize) {
            Some(flags) => flag_with(flags.items(), number),
            None => false,
        }
    }

    /// The rules of the last round.
    pub fn rules(&self) -> &CompleteRules<'static>
        ensures { result.now ≡ last_rules self.now.rounds }
    {
        self.rounds.last()
    }
}

/// The flag with this number, from 1, or false where there is none.
fn flag_with(flags: &[bool], number: u32) -> bool
    ensures { result ≡ flag_with flags.now number }
{
    match number.checked_sub(1) {
        Some(place) => flag_at_place(flags, place as usize),
        None => false,
    }
}

/// The flag at a place, or false where there is none.
fn flag_at_place(flags: &[bool], place: usize) -> bool
    ensures { result ≡ slice_index_or flags.now place false }
{
    match flags.get(place) {
        Some(flag) => *flag,
        None => false,
    }
}

/// Runs the rounds of the protocols with all basic equations.
fn run_protocols<W: Watch>(
    alloc: Global,
    text: &Text<'_>,
    limits: Limits,
    watch: &mut W,
) -> Result<Rounds<'static>, Failed>
    ensures answer { Answers limits (protocols_of (world_of text.now)) (W.told watch.old)
        (W.told watch.new) (rules_of result) }
    ensures only { IsOnlyOutcome limits
        (protocols_of (world_of text.now)) (rules_of result) }
    ensures rounds { IfOk result (AreRounds limits (protocols_of (world_of text.now))) }
    ensures rules { IfOk result
        (λ rounds. AreRulesOf (world_of text.now) (last_rules rounds)) }
{
    let basic = basic(alloc, text.world)?;
    let all = requirements(alloc, text.world)?;
    let start = RoundStart { basic, all, limits };
    run_rounds(alloc, text, None, &start, watch)
}

/// Runs the rounds of the protocols.
pub(crate) fn complete_protocols<W: Watch>(
    alloc: Global,
    text: &Text<'_>,
    limits: Limits,
    watch: &mut W,
) -> Result<Rounds<'static>, Failed>
    ensures answer { Answers limits (protocols_of (world_of text.now)) (W.told watch.old)
        (W.told watch.new) (rules_of result) }
    ensures only { IsOnlyOutcome limits
        (protocols_of (world_of text.now)) (rules_of result) }
    ensures rounds { IfOk result (AreRounds limits (protocols_of (world_of text.now))) }
    ensures rules { IfOk result
        (λ rounds. AreRulesOf (world_of text.now) (last_rules rounds)) }
{
    match limit_of_basic(alloc, text.world, limits, watch) {
        Some(failed) => Err(failed),
        None => run_protocols(alloc, text, limits, watch),
    }
}

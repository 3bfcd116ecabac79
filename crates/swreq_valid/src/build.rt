//! The rules of the protocols, where all that is written is a type parameter.
#![tactic(auto, using(swreq_symbols::proofs::OfTexts::text_over))]

ghost use Rattle.std.specs.Prelude.{◌≡◌, IfOk, length};
ghost use Rattle.swreq_symbols.specs.{Meaning.{facts_of, symbols_of}, Texts.{world_of}};
ghost use Rattle.swreq_rounds.specs.Presents.{AreProtocolRules};
ghost use Rattle.swreq_valid.specs.{Answers.{Answers, IsOnlyOutcome}, Keeping.{AreFlags, TellEach, TellUsable, kept_answer, kept_facts, kept_plan}, Built.{Builds, IsOnlyBuilt, Judges, protocol_rules}, Protocols.{AreRulesOf, protocols_of}, Rounds.{AreRounds, last_rules}, Sides.{IsShownIn, protocol_sides}};

use crate::kept::{Kept, complete_kept, usable_lists};
use crate::protocols::{Protocols, complete_protocols};
use crate::refused::Refused;
use crate::round::Rounds;
use crate::sides::first_in_protocols;
use std::alloc::{AllocError, Global};
use swreq_complete::watch::Watch;
use swreq_complete::{Failed, Limits};
use swreq_symbols::Text;

/// The rules of the protocols that these rounds found, with the requirements that they show usable.
fn with_usable(
    alloc: Global,
    text: &Text<'_>,
    rounds: Rounds<'static>,
) -> Result<Protocols, AllocError>
    ensures same { IfOk result (λ p. p.rounds ≡ rounds.entry) }
    ensures usable { IfOk result
        (λ p. TellEach (world_of text.now) (last_rules rounds.entry) p.usable
        (length text.now.world.now.lexicon.protocols)) }
{
    let usable = usable_lists(alloc, text, rounds.last())?;
    Ok(Protocols::new(rounds, usable))
}

/// The rules of the protocols that these rounds found, if they show each side valid.
fn judge_protocols(
    alloc: Global,
    text: &Text<'_>,
    rounds: Rounds<'static>,
) -> Result<Protocols, Refused>
    ensures judged { Judges (IsShownIn (world_of text.now) (last_rules rounds.entry))
        (protocol_sides (world_of text.now))
        (last_rules rounds.entry) (protocol_rules result) }
    ensures same { IfOk result (λ p. p.rounds ≡ rounds.entry) }
    ensures usable { IfOk result
        (λ p. TellEach (world_of text.now) (last_rules rounds.entry) p.usable
        (length text.now.world.now.lexicon.protocols)) }
{
    let found = first_in_protocols(alloc, text, rounds.last())?;
    match found {
        Some(at) => Err(Refused::NotATypeParameter { at }),
        None => {
            let protocols = with_usable(alloc, text, rounds)?;
            Ok(protocols)
        }
    }
}

impl Protocols {
    /// The rules of the protocols of a text.
    ///
    /// It is `Refused::Limit` if and only if the rounds stop at a limit, with the limit that was passed first since the last round that
    /// ended, and the trace of the round that passed it; and `Refused::NotATypeParameter` if and only if they do not and a side of a
    /// requirement is no type parameter, at the first such side, protocols in written order. The watcher is told the events of the rounds.
    pub fn build<W: Watch>(
        alloc: Global,
        text: &Text<'_>,
        limits: Limits,
        watch: &mut W,
    ) -> Result<Protocols, Refused>
        ensures answer { Builds limits (protocols_of (world_of text.now))
            (facts_of (world_of text.now))
            (protocol_sides (world_of text.now))
            (W.told watch.old) (W.told watch.new) (protocol_rules result) }
        ensures only { IsOnlyBuilt limits (protocols_of (world_of text.now))
            (facts_of (world_of text.now))
            (protocol_sides (world_of text.now))
            (protocol_rules result) }
        ensures rounds { IfOk result
            (λ p. AreRounds limits (protocols_of (world_of text.now)) p.rounds) }
        ensures rules { IfOk result
            (λ p. AreRulesOf (world_of text.now) (last_rules p.rounds)) }
        ensures usable { IfOk result (λ p. TellUsable (world_of text.now)
            (facts_of (world_of text.now)) p.usable) }
    {
        let rounds = complete_protocols(alloc, text, limits, watch)?;
        judge_protocols(alloc, text, rounds)
    }
}

impl Protocols {
    /// The rules of the protocols by the kept requirements alone, over the symbols and the basic equations of the whole text.
    ///
    /// It is `Failed::Limit` if and only if the rounds stop at a limit, with the limit that was passed first since the last round that
    /// ended, and the trace of the round that passed it. The watcher is told the events of the rounds.
    pub fn build_kept<W: Watch>(
        alloc: Global,
        text: &Text<'_>,
        keep: &Kept,
        limits: Limits,
        watch: &mut W,
    ) -> Result<Protocols, Failed>
        requires keep { AreFlags text.now.world.now keep.now.lists }
        ensures answer { Answers limits (kept_plan (world_of text.now) keep.now.lists)
            (W.told watch.old) (W.told watch.new)
            (kept_answer result) }
        ensures only { IsOnlyOutcome limits
            (kept_plan (world_of text.now) keep.now.lists) (kept_answer result) }
        ensures rounds { IfOk result (λ p.
            AreRounds limits (kept_plan (world_of text.now) keep.now.lists) p.rounds) }
        ensures rules { IfOk result
            (λ p. AreProtocolRules (symbols_of text.now.world.now.lexicon) (kept_facts
            (world_of text.now) keep.now.lists) (last_rules p.rounds)) }
        ensures usable { IfOk result (λ p. TellUsable (world_of text.now) (kept_facts
            (world_of text.now) keep.now.lists) p.usable) }
    {
        let rounds = complete_kept(alloc, text, keep, limits, watch)?;
        let protocols = with_usable(alloc, text, rounds)?;
        Ok(protocols)
    }
}

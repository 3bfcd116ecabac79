//! The events of rounds, told once more.
ghost use Rattle.std.specs.Prelude.{◌≡◌, ◌∷◌, [], length, OnOk, OnErr};
ghost use Rattle.swreq_rounds.specs.Plan.{Plan};
ghost use Rattle.swreq_complete.specs.{declared.limit.Limits.{Limits}, Events.{events}};
ghost use Rattle.swreq_complete.specs.swreq_watch.{Told.{GrewBy}, declared.events.Event.TheVariants.{Born}};
ghost use Rattle.swreq_valid.specs.{Again.{TellsFront, TellsRound, rules_again, round_events}, Courses.{told_by}, Answers.{Answers}, Rounds.{AreRounds, last_rules}};

use crate::course::Course;
use crate::protocols::Protocols;
use crate::round::{Round, Rounds};
use std::alloc::AllocError;
use swreq_complete::CompleteRules;
use swreq_complete::rule::Rule;
use swreq_complete::watch::{Event, Watch};

/// Tells the birth of the rule.
fn tell_birth<W: Watch>(rule: &Rule, watch: &mut W) -> Result<(), AllocError>
    ensures ok { OnOk result (GrewBy (W.told watch.old) (W.told watch.new) (Born rule.now ∷ [])) }
    ensures err { OnErr result (W.told watch.new ≡ W.told watch.old) }
{
    let rule = rule.clone()?;
    let event = Event::Born { rule };
    watch.tell(&event)
}

/// Tells the events of a round: the start over the first `base` rules, and the birth of each rule after them.
fn tell_round<W: Watch>(
    base: u32,
    rules: &CompleteRules<'_>,
    watch: &mut W,
) -> Result<(), AllocError>
    ensures ok { OnOk result
        (GrewBy (W.told watch.old) (W.told watch.new) (events base rules.now)) }
    ensures err { OnErr result (TellsFront base rules.now (W.told watch.old) (W.told watch.new)) }
{
    let start = Event::Start { base };
    watch.tell(&start)?;
    for k in base as usize..rules.count() {
        tell_birth(rules.rule(k), watch)?;
    }
    Ok(())
}

/// Tells the events of a trace: the start over the first `base` rules, and the birth of each rule after them.
fn tell_trace<W: Watch>(base: u32, trace: &[Rule], watch: &mut W) -> Result<(), AllocError>
    ensures ok { OnOk result
        (GrewBy (W.told watch.old) (W.told watch.new) (events base trace.now)) }
    ensures err { OnErr result (TellsFront base trace.now (W.told watch.old) (W.told watch.new)) }
{
    let start = Event::Start { base };
    watch.tell(&start)?;
    for k in base as usize..trace.len() {
        tell_birth(&trace[k], watch)?;
    }
    Ok(())
}

/// Tells what the completion of a round told that another one came after.
fn tell_course<W: Watch>(base: u32, round: &Round<'_>, watch: &mut W) -> Result<(), AllocError>
    ensures ok { OnOk result
        (GrewBy (W.told watch.old) (W.told watch.new) (round_events base round.now)) }
    ensures err { OnErr result (TellsRound base round.now (W.told watch.old) (W.told watch.new)) }
{
    match round.course() {
        Course::Ended(rules) => tell_round(base, rules, watch),
        Course::Stopped(trace, _) => tell_trace(base, trace.items(), watch),
        Course::Short(_) => Ok(()),
    }
}

/// How many rules the protocols have.
fn count_of(protocols: &Protocols) -> u32
    ensures { result ≡ length (last_rules protocols.now.rounds) }
{
    protocols.rules().count() as u32
}

impl<'b> Rounds<'b> {
    /// Tells the watcher the events of the rounds once more, where they are rounds over the rules of these protocols: exactly what it was
    /// told when they ran.
    pub fn tell_again<W: Watch>(
        &self,
        protocols: &Protocols,
        watch: &mut W,
    ) -> Result<(), AllocError>
        ensures { (limits : Limits) (plan : Plan) → plan.base ≡ last_rules protocols.now.rounds
            → AreRounds limits plan self.now
            → Answers limits plan (W.told watch.old) (W.told watch.new)
            (rules_again self.now result) }
    {
        let base = count_of(protocols);
        let before = self.before();
        for k in 0..before.len() {
            tell_course(base, &before[k], watch)?;
        }
        tell_round(base, self.last(), watch)
    }
}

//! The events of the rounds of a machine, told once more.
ghost use Rattle.std.specs.Prelude.{◌≡◌};
ghost use Rattle.swreq_valid.specs.swreq_rounds.Plan.{Plan};
ghost use Rattle.swreq_map.specs.swreq_complete.declared.limit.Limits.{Limits};
ghost use Rattle.swreq_valid.specs.{Again.{rules_again}, Answers.{Answers}, Rounds.{AreRounds, last_rules}};

use crate::machine::Machine;
use std::alloc::AllocError;
use swreq_valid::Protocols;
use swreq_valid::watch::Watch;

impl<'b> Machine<'b> {
    /// Tells the watcher the events of its rounds once more, where they are rounds over the rules of these protocols: exactly what it was
    /// told when they ran.
    pub fn tell_again<W: Watch>(
        &self,
        protocols: &Protocols,
        watch: &mut W,
    ) -> Result<(), AllocError>
        ensures { (limits : Limits) (plan : Plan) → plan.base ≡ last_rules protocols.now.rounds
            → AreRounds limits plan self.now.rounds
            → Answers limits plan (W.told watch.old) (W.told watch.new)
            (rules_again self.now.rounds result) }
    {
        self.rounds().tell_again(protocols, watch)
    }
}

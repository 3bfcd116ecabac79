//! Going through the requirements of the protocols, from the last to the first.
ghost use Rattle.std.specs.Prelude.{◌≡◌, Err, IfErr, IfOk, List, replicate, true};
ghost use Rattle.swreq_valid.specs.{swreq_derive.WellFormed.{AreProtocolsWellFormed}, swreq_symbols.Meaning.{facts_of}};
ghost use Rattle.swreq_valid.specs.swreq_watch.{declared.events.Event.{Event}, Told.{GrewBy}};
ghost use Rattle.swreq_reqsig.specs.{Settings.{text_in}, Told.{AnswersFamily, WasReduced}};

use crate::deciding::drop_if_derivable;
use crate::setting::Setting;
use std::alloc::{AllocError, Global};
use swreq_valid::complete::Failed;
use swreq_valid::watch::Watch;

/// `count` flags, all of them set.
fn all_set(alloc: Global, count: usize) -> Result<Vec<bool>, AllocError>
    ensures { IfOk result (λ flags. flags.items ≡ replicate count true) }
{
    vec![in alloc; true; count]
}

/// Goes through the requirements from the last to the first, and leaves out each without which the same is derivable. The watcher is told
/// the events of the rounds that are run for them, one after the other.
pub(crate) fn drop_derivable<W: Watch>(
    alloc: Global,
    setting: &Setting<'_>,
    watch: &mut W,
) -> Result<Vec<bool>, Failed>
    requires { AreProtocolsWellFormed (facts_of (text_in setting.now)) }
    ensures gone { IfOk result (λ flags. (told : List Event)
        × WasReduced setting.now.limits (text_in setting.now) 0 flags.items told
        × GrewBy (W.told watch.old) (W.told watch.new) told) }
    ensures failed { IfErr result (λ failed.
        AnswersFamily setting.now.limits (text_in setting.now)
        (W.told watch.old) (W.told watch.new) (Err failed)) }
{
    let mut flags = all_set(alloc, setting.places.len())?;
    let mut left = setting.places.len();
    while left > 0 {
        left -= 1;
        drop_if_derivable(alloc, setting, &mut flags, left, watch)?;
    }
    Ok(flags)
}

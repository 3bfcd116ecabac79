//! Whether one requirement stays.
ghost use Rattle.std.specs.Prelude.{◌≡◌, ◌↔◌, ◌<◌, suc, Err, IfErr, IfOk, IsTrue, List, Ok, OnOk, Some, length, slice_get};
ghost use Rattle.swreq_valid.specs.swreq_derive.{Derivation.{Derivable}, Derivation.Source.{SelfOf}, Derivation.TermStatement.{Requires}, Facts.{requirement_of}, Kept.{owned_facts}, WellFormed.{AreProtocolsWellFormed}};
ghost use Rattle.swreq_valid.specs.swreq_symbols.{Meaning.{facts_of}, Texts.{world_of}};
ghost use Rattle.swreq_print.specs.swreq_rule.declared.rules.Rule.{Rule};
ghost use Rattle.swreq_valid.specs.swreq_watch.{declared.events.Event.{Event}, Told.{GrewBy}};
ghost use Rattle.swreq_valid.specs.Answers.{Answers};
ghost use Rattle.swreq_reqsig.specs.{Families.{DerivesWith, associated_types_of, family_of, family_plan, owned}, GoingThrough.{AreKept, without}, Places.{IsPlaceIn, all_places}, Settings.{text_in}, Told.{FailsAt, IsSettled, MeetsFamily}};

use crate::derived::is_derivable;
use crate::flags::kept_by;
use crate::places::Place;
use crate::reaching::asked;
use crate::selection::Selection;
use crate::setting::Setting;
use std::alloc::Global;
use swreq_valid::Protocols;
use swreq_valid::complete::{Failed, Limits};
use swreq_valid::symbols::Text;
use swreq_valid::watch::Watch;

/// Whether a requirement is derivable with those alone whose flags are set. The watcher is told the events of their rounds.
fn is_derivable_with<W: Watch>(
    alloc: Global,
    text: &Text<'_>,
    limits: Limits,
    flags: &[bool],
    place: &Place,
    watch: &mut W,
) -> Result<bool, Failed>
    requires flags { length flags.now ≡ length (all_places text.now.world.now) }
    requires place { IsPlaceIn text.now.world.now place.now }
    ensures answer { IfOk result (λ b. IsTrue b ↔ Derivable
        (owned_facts (associated_types_of (world_of text.now))
        (family_of (world_of text.now) flags.now)) (SelfOf place.now.proto)
        (Requires (requirement_of text.now.table.now place.now.requirement))) }
    ensures told { IfOk result (λ _. (rules : List Rule)
        × Answers limits (family_plan (world_of text.now) flags.now)
        (W.told watch.old) (W.told watch.new) (Ok rules)) }
    ensures failed { IfErr result (λ failed.
        Answers limits (family_plan (world_of text.now) flags.now)
        (W.told watch.old) (W.told watch.new) (Err failed)) }
{
    let keep = kept_by(alloc, text, flags)?;
    let protocols = Protocols::build_kept(alloc, text, &keep, limits, watch)?;
    Ok(is_derivable(alloc, text, &protocols, place)?)
}

/// Whether the requirement at a place is derivable with those alone whose flags are set. It is asked of those that its protocol reaches by
/// them: the watcher is told the events of their rounds, and nothing where the requirement is out of reach.
fn is_derivable_without<W: Watch>(
    alloc: Global,
    setting: &Setting<'_>,
    flags: &[bool],
    at: usize,
    watch: &mut W,
) -> Result<bool, Failed>
    requires flags { length flags.now ≡ length setting.now.places.now }
    requires at { at < length setting.now.places.now }
    ensures answer { IfOk result (λ b. (x : Place) → slice_get setting.now.places.now at ≡ Some x
        → IsTrue b ↔ DerivesWith (text_in setting.now) (family_of (text_in setting.now) flags.now)
        x.proto (Requires (requirement_of setting.now.text.table.now x.requirement))) }
    ensures settled { OnOk result ((part : List Event)
        × IsSettled setting.now.limits (text_in setting.now) at flags.now part
        × GrewBy (W.told watch.old) (W.told watch.new) part) }
    ensures failed { IfErr result (λ failed. (part : List Event)
        × FailsAt setting.now.limits (text_in setting.now) at flags.now failed part
        × GrewBy (W.told watch.old) (W.told watch.new) part) }
{
    let selection = Selection {
        setting: *setting,
        flags,
    };
    match asked(alloc, &selection, at)? {
        None => Ok(false),
        Some(asked) => {
            let place = &setting.places[at];
            is_derivable_with(alloc, &setting.text, setting.limits, &asked, place, watch)
        }
    }
}

/// Leaves out the requirement at a place, where the same is derivable without it: where it is derivable itself without it.
pub(crate) fn drop_if_derivable<W: Watch>(
    alloc: Global,
    setting: &Setting<'_>,
    flags: &mut Vec<bool>,
    at: usize,
    watch: &mut W,
) -> Result<(), Failed>
    requires well_formed { AreProtocolsWellFormed (facts_of (text_in setting.now)) }
    requires at { at < length setting.now.places.now }
    requires left { AreKept (associated_types_of (text_in setting.now))
        (owned (text_in setting.now)) (suc at) flags.old.items }
    ensures met { OnOk result ((part : List Event)
        × MeetsFamily setting.now.limits (text_in setting.now) at
        flags.old.items flags.new.items part
        × GrewBy (W.told watch.old) (W.told watch.new) part) }
    ensures failed { IfErr result (λ failed. (part : List Event)
        × FailsAt setting.now.limits (text_in setting.now) at
        (without flags.old.items at) failed part
        × GrewBy (W.told watch.old) (W.told watch.new) part) }
{
    flags[at] = false;
    let derivable = is_derivable_without(alloc, setting, flags, at, watch)?;
    flags[at] = !derivable;
    Ok(())
}

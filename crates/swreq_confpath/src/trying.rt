//! What goes on from a place.
ghost use Rattle.std.specs.Prelude.{◌≡◌, ◌+◌, ◌-◌, ◌<◌, ◌∷◌, ◌++◌, [], length, slice_get, Some, IfOk, IsTrue, MatchOption};
ghost use Rattle.swreq_machine.specs.swreq_derive.Instances.{HasNumber};
ghost use Rattle.swreq_confpath.specs.{Searches.{HasParted, IsGiven, IsSearch, IsSearchAt, required_at}, Spots.{IsKept, Spot}};

use crate::aim::Aim;
use crate::parting::parts_for_good;
use crate::path::{ConfPath, path_of};
use crate::places::Place;
use crate::sought::{follow, required_at};
use crate::tried::Tried;
use std::alloc::{AllocError, Global};
use swreq_machine::derive::Requirement;

/// From where the search goes on.
#[derive(Clone, Copy)]
struct Turn<'a> {
    /// The index of the place among those that were tried.
    next: usize,
    from: &'a Place,
}

/// The path, where the place to which the next number leads is the one that is sought. Else the place is kept, where it is new.
fn try_place(
    alloc: Global,
    target: &Place,
    tried: &mut Tried,
    next: usize,
    number: u32,
    place: Place,
) -> Result<Option<ConfPath>, AllocError>
    requires { next < length tried.old }
    ensures { (s : Spot) → slice_get tried.old next ≡ Some s → IfOk result (λ o. MatchOption o
        ((place ≡ target.now → ⊥) × IsKept tried.old tried.new place (s.1 ++ number ∷ []))
        (λ path. (place ≡ target.now) × (path.first ∷ path.steps ≡ s.1 ++ number ∷ []))) }
{
    if place == *target {
        let (_, numbers) = tried.spot(next);
        let path = path_of(alloc, numbers, number)?;
        return Ok(Some(path));
    }
    tried.keep(alloc, next, number, place)?;
    Ok(None)
}

/// Whether the place has parted for good from the target: no numbers lead on from it to the conformance that is sought.
fn has_parted(aim: &Aim<'_>, place: &Place) -> bool
    ensures { IsTrue result → HasParted aim.now.sought aim.now.target place.now }
{
    parts_for_good(aim.sought.changed, aim.target.word(), place.word())
}

/// Tries the requirement with the next number. By no other than a conformance one goes on, and not to a place that has parted.
fn try_requirement(
    aim: &Aim<'_>,
    tried: &mut Tried,
    turn: Turn<'_>,
    number: u32,
    requirement: Requirement,
) -> Result<Option<ConfPath>, AllocError>
    requires number { HasNumber number
        (required_at aim.now.sought.text.world.now aim.now.sought.list.now turn.from.now)
        requirement }
    requires at { IsSearchAt aim.now.sought tried.old turn.next turn.from.now (number - 1) }
    ensures { IfOk result (λ o. MatchOption o
        (IsSearchAt aim.now.sought tried.new turn.entry.next turn.entry.from.now number)
        (IsGiven aim.now.sought)) }
{
    let sought = &aim.sought;
    match requirement {
        Requirement::Conf { subject, proto } => {
            let place = follow(sought, turn.from, subject, proto)?;
            if has_parted(aim, &place) {
                return Ok(None);
            }
            try_place(sought.alloc, &aim.target, tried, turn.next, number, place)
        }
        _ => Ok(None),
    }
}

/// Tries all that goes on from the next place: the path, where one of them leads to the place that is sought.
pub(crate) fn go_on(
    aim: &Aim<'_>,
    tried: &mut Tried,
    next: usize,
) -> Result<Option<ConfPath>, AllocError>
    requires next { next < length tried.old }
    requires so_far { IsSearch aim.now.sought tried.old next }
    ensures { IfOk result (λ o. MatchOption o
        (IsSearch aim.now.sought tried.new (next + 1)) (IsGiven aim.now.sought)) }
{
    let (place, _) = tried.spot(next);
    let from = place.copy()?;
    let turn = Turn { next, from: &from };
    let list = required_at(aim.sought.text.world, aim.sought.list, &from);
    for k in 0..list.len() {
        let requirement = list[k];
        let number = k as u32 + 1;
        match try_requirement(aim, tried, turn, number, requirement)? {
            Some(path) => return Ok(Some(path)),
            None => {}
        }
    }
    Ok(None)
}

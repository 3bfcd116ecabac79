//! Which protocols a protocol reaches by the requirements that are kept, and which requirements are of these.
ghost use Rattle.std.specs.Prelude.{◌≡◌, ◌<◌, ◌&&◌, false, true, IfOk, List, MatchOption, length, slice_get, slice_index_or, slice_set, Some, replicate};
ghost use Rattle.swreq_valid.specs.swreq_param.{Terms.{Term}, declared.ids.TermId.{TermId}};
ghost use Rattle.swreq_valid.specs.swreq_derive.declared.requirements.Requirement.TheVariants.{Conf};
ghost use Rattle.swreq_reqsig.specs.{Marks.{HasPassed, HasRanksBelow, IsClosedAt, IsMarked, IsMarkedBy, TellLed, TellReached, kept_at, marked}, Asked.{AreAsked, IsBeyond}, Selections.{protocols_in}, Settings.{text_in}};

use crate::places::Place;
use crate::saying::is_unsaid;
use crate::selection::Selection;
use std::alloc::{AllocError, Global};
use swreq_valid::derive::Requirement;
use swreq_valid::param::ProtoId;

/// Whether a protocol is marked.
pub(crate) fn is_marked(marks: &[bool], p: ProtoId) -> bool
    ensures { result ≡ slice_index_or marks.now p.rank false }
{
    match marks.get(p.rank as usize) {
        Some(mark) => *mark,
        None => false,
    }
}

/// Marks a protocol. Whether it was not marked.
fn add(marks: &mut Vec<bool>, p: ProtoId) -> bool
    requires { p.rank < length marks.old.items }
    ensures stays { result ≡ false
        → IsMarked marks.old.items p × (marks.new.items ≡ marks.old.items) }
    ensures added { result ≡ true → (slice_get marks.old.items p.rank ≡ Some false)
        × (marks.new.items ≡ slice_set marks.old.items p.rank true) }
{
    if is_marked(marks, p) {
        return false;
    }
    marks[p.rank as usize] = true;
    true
}

/// Whether the requirement at a place is kept, and its protocol is marked.
fn is_of_marked(place: &Place, kept: bool, marks: &[bool]) -> bool
    ensures { result ≡ (kept && slice_index_or marks.now place.now.proto.rank false) }
{
    kept && is_marked(marks, place.proto)
}

/// Marks the protocol to which something conforms by the requirement at a place, where it is kept and its own protocol is marked. Whether
/// that was not marked.
fn go_on(place: &Place, kept: bool, marks: &mut Vec<bool>) -> bool
    requires { HasRanksBelow (length marks.old.items) place.now }
    ensures stays { result ≡ false
        → IsClosedAt place.now kept marks.old.items × (marks.new.items ≡ marks.old.items) }
    ensures added { result ≡ true → IsMarkedBy place.now kept marks.old.items marks.new.items }
{
    if !is_of_marked(place, kept, marks) {
        return false;
    }
    match place.requirement {
        Requirement::Conf { proto, .. } => add(marks, proto),
        Requirement::Layout { .. } => false,
        Requirement::Same { .. } => false,
    }
}

/// Goes through the places from the last to the first, and from each marked protocol on. Whether more are marked.
///
/// Most protocols inherit from those before them, so that their parents are marked in the same pass.
fn pass(selection: &Selection<'_>, marks: &mut Vec<bool>) -> bool
    requires { length marks.old.items ≡ protocols_in selection.now }
    ensures { HasPassed selection.now.setting.places.now selection.now.flags.now
        0 result marks.old.items marks.new.items }
{
    let places = selection.setting.places;
    let mut grew = false;
    let mut left = places.len();
    while left > 0 {
        left -= 1;
        let place = &places[left];
        let added = go_on(place, selection.flags[left], marks);
        grew = grew || added;
    }
    grew
}

/// Marks for all protocols, of which there are this many, with none marked.
pub(crate) fn none_marked(alloc: Global, protocols: usize) -> Result<Vec<bool>, AllocError>
    ensures { IfOk result (λ marks. marks.items ≡ replicate protocols false) }
{
    vec![in alloc; false; protocols]
}

/// Marks for all protocols, of which there are this many, with one protocol marked.
fn first_mark(alloc: Global, protocols: usize, p: ProtoId) -> Result<Vec<bool>, AllocError>
    requires { p.rank < protocols }
    ensures { IfOk result (λ marks.
        marks.items ≡ slice_set (replicate protocols false) p.rank true) }
{
    let mut marks = vec![in alloc; false; protocols]?;
    marks[p.rank as usize] = true;
    Ok(marks)
}

/// Whether a protocol is marked.
pub(crate) fn is_any_marked(marks: &[bool]) -> bool
    ensures { result ≡ false → (q : ProtoId) → IsMarked marks.now q → ⊥ }
{
    marks.contains(&true)
}

/// Marks all protocols that those marked reach by the requirements that are selected.
pub(crate) fn close(selection: &Selection<'_>, marks: &mut Vec<bool>)
    requires { length marks.old.items ≡ protocols_in selection.now }
    ensures { (terms : List Term)
        → TellLed (kept_at terms selection.now.setting.places.now selection.now.flags.now)
        marks.old.items marks.new.items }
{
    let mut grows = is_any_marked(marks);
    while grows {
        grows = pass(selection, marks);
    }
}

/// Marks for all protocols, set for those that a protocol reaches by the requirements that are selected.
fn reached(alloc: Global, selection: &Selection<'_>, p: ProtoId) -> Result<Vec<bool>, AllocError>
    requires { p.rank < protocols_in selection.now }
    ensures { IfOk result (λ marks. (terms : List Term)
        → TellReached (kept_at terms selection.now.setting.places.now selection.now.flags.now)
        p marks.items) }
{
    let protocols = selection.setting.text.world.protocols() as usize;
    let mut marks = first_mark(alloc, protocols, p)?;
    close(selection, &mut marks);
    Ok(marks)
}

/// The flags of those that are selected and whose protocols are marked.
fn marked(alloc: Global, selection: &Selection<'_>, marks: &[bool]) -> Result<Vec<bool>, AllocError>
    ensures { IfOk result (λ v. v.items
        ≡ marked selection.now.setting.places.now selection.now.flags.now marks.now) }
{
    let places = selection.setting.places;
    let mut v = Vec::new(alloc);
    for k in 0..places.len() {
        let place = &places[k];
        v.push(is_of_marked(place, selection.flags[k], marks))?;
    }
    Ok(v)
}

/// Whether a requirement says that something conforms to a protocol that is not marked.
fn is_beyond(marks: &[bool], requirement: &Requirement) -> bool
    ensures beyond { result ≡ true → (t : TermId) × (q : ProtoId)
        × (requirement.now ≡ Conf t q) × (IsMarked marks.now q → ⊥) }
    ensures within { result ≡ false → (t : TermId) (q : ProtoId)
        → requirement.now ≡ Conf t q → IsMarked marks.now q }
{
    match requirement {
        Requirement::Conf { proto, .. } => !is_marked(marks, *proto),
        Requirement::Layout { .. } => false,
        Requirement::Same { .. } => false,
    }
}

/// The flags of those of which it is asked whether the requirement at a place follows: of those that are selected and whose protocols its
/// own protocol reaches by them. It is None where the requirement is unsaid, or out of reach.
pub(crate) fn asked(
    alloc: Global,
    selection: &Selection<'_>,
    at: usize,
) -> Result<Option<Vec<bool>>, AllocError>
    requires { at < length selection.now.setting.places.now }
    ensures { IfOk result (λ found. MatchOption found
        (IsBeyond (text_in selection.now.setting) at selection.now.flags.now)
        (λ asked.
        AreAsked (text_in selection.now.setting) at selection.now.flags.now asked.items)) }
{
    let unsaid = is_unsaid(alloc, selection, at)?;
    if unsaid {
        return Ok(None);
    }
    let place = &selection.setting.places[at];
    let marks = reached(alloc, selection, place.proto)?;
    if is_beyond(&marks, &place.requirement) {
        return Ok(None);
    }
    let asked = marked(alloc, selection, &marks)?;
    Ok(Some(asked))
}

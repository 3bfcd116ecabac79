//! What a family says of type parameters with one last name, and which requirements it leaves unsaid.
ghost use Rattle.std.specs.Prelude.{◌≡◌, ◌<◌, ◌↔◌, ◌⊎◌, Bool, IfOk, IsTrue, None, Some, length, slice_get, true};
ghost use Rattle.swreq_valid.specs.swreq_derive.Facts.{requirement_of};
ghost use Rattle.swreq_reqsig.specs.{declared.places.Place.{Place}, Marks.{IsMarked}, Outlines.{AreSaid, ArePlaces, BearsBy, HasProtocolBelow, HaveProtocolsBelow, IsMarkedToo, IsSaidAt, IsSaidBy, IsSaidIn, outline_in}, Named.{kept_for}, Saying.{IsUnsaid, SaysConforms, SaysEqual, SaysObject}, Selections.{lexicon_in, protocols_in, selected_in}};

use crate::named::list_of;
use crate::outlines::{Kind, Outline};
use crate::reaching::{close, is_any_marked, is_marked, none_marked};
use crate::selection::Selection;
use std::alloc::{AllocError, Global};
use swreq_valid::param::{NameId, ProtoId};

/// Whether two last names are one.
fn is_same(a: Option<NameId>, b: Option<NameId>) -> bool
    ensures { IsTrue result ↔ (a ≡ b) }
{
    match (a, b) {
        (Some(a), Some(b)) => a.rank == b.rank,
        (None, None) => true,
        (Some(_), None) => false,
        (None, Some(_)) => false,
    }
}

/// Marks the protocol of a conformance that is kept and whose subject has the last name.
fn mark(outline: &Outline, kept: bool, name: Option<NameId>, marks: &mut Vec<bool>)
    requires { HasProtocolBelow (length marks.old.items) outline.now }
    ensures { IsMarkedToo outline.now kept name marks.old.items marks.new.items }
{
    match outline {
        Outline::Conformance { subject, proto } => {
            if kept && is_same(*subject, name) {
                marks[proto.rank as usize] = true;
            }
        }
        Outline::Object { .. } => {}
        Outline::Equality { .. } => {}
    }
}

/// The places of the requirements that name a last name, selected or not.
fn places_of<'a>(selection: &Selection<'a>, name: Option<NameId>) -> &'a [usize]
    ensures places { result.now ≡ kept_for selection.now.setting.named.now name }
    ensures are { ArePlaces selection.now.setting.outlines.now selection.now.flags.now result.now }
{
    selection.setting.named.at(list_of(name))
}

/// Marks the protocol of the conformance at a place, where that is selected and its subject has the last name.
fn mark_at(selection: &Selection<'_>, k: usize, name: Option<NameId>, marks: &mut Vec<bool>)
    requires place { (k < length selection.now.setting.outlines.now)
        × (k < length selection.now.flags.now) }
    requires rank { HaveProtocolsBelow (length marks.old.items) selection.now.setting.outlines.now }
    ensures { (outline : Outline) (kept : Bool)
        → slice_get selection.now.setting.outlines.now k ≡ Some outline
        → slice_get selection.now.flags.now k ≡ Some kept
        → IsMarkedToo outline kept name marks.old.items marks.new.items }
{
    mark(
        &selection.setting.outlines[k],
        selection.flags[k],
        name,
        marks,
    );
}

/// Marks for all protocols, set for those to which it is said of a type parameter with the last name that it conforms.
fn stated(
    alloc: Global,
    selection: &Selection<'_>,
    name: Option<NameId>,
) -> Result<Vec<bool>, AllocError>
    ensures { IfOk result (λ marks. AreSaid selection.now.setting.outlines.now
        selection.now.flags.now name
        (protocols_in selection.now) marks.items) }
{
    let protocols = selection.setting.text.world.protocols() as usize;
    let mut marks = none_marked(alloc, protocols)?;
    let places = places_of(selection, name);
    for at in 0..places.len() {
        mark_at(selection, places[at], name, &mut marks);
    }
    Ok(marks)
}

/// Marks for all protocols, set for those to which a type parameter with the last name conforms by what is selected.
fn said(
    alloc: Global,
    selection: &Selection<'_>,
    name: Option<NameId>,
) -> Result<Vec<bool>, AllocError>
    ensures { IfOk result (λ marks. (q : ProtoId) → IsMarked marks.items q
        ↔ SaysConforms (lexicon_in selection.now) (selected_in selection.now) name q) }
{
    let mut marks = stated(alloc, selection, name)?;
    close(selection, &mut marks);
    Ok(marks)
}

/// Whether there is no name, and a protocol is marked.
fn is_marked_self(name: Option<NameId>, owner: ProtoId, marks: &[bool]) -> bool
    ensures { IsTrue result ↔ ((name ≡ None) × IsMarked marks.now owner) }
{
    match name {
        Some(_) => false,
        None => is_marked(marks, owner),
    }
}

/// Whether what a protocol requires of a type parameter is required of one with the last name: whether it has this, or is `Self` and the
/// protocol is marked.
fn bears_on(name: Option<NameId>, marks: &[bool], owner: ProtoId, other: Option<NameId>) -> bool
    ensures { IsTrue result ↔ BearsBy name marks.now owner other }
{
    is_same(other, name) || is_marked_self(other, owner, marks)
}

/// Whether a requirement says of a type parameter with the last name that it is an object, or that it is equal to one.
fn is_said_by(kind: Kind, name: Option<NameId>, marks: &[bool], outline: &Outline) -> bool
    ensures { IsTrue result ↔ IsSaidBy kind name marks.now outline.now }
{
    match (kind, outline) {
        (_, Outline::Conformance { .. }) => false,
        (Kind::IsObject, Outline::Object { subject, owner }) => bears_on(
            name, marks, *owner, *subject,
        ),
        (Kind::IsObject, Outline::Equality { .. }) => false,
        (Kind::IsEqual, Outline::Object { .. }) => false,
        (Kind::IsEqual, Outline::Equality { left, right, owner }) => {
            bears_on(name, marks, *owner, *left) || bears_on(name, marks, *owner, *right)
        }
    }
}

/// Whether the requirement at a place is selected and says so of a type parameter with the last name.
fn says_at(
    selection: &Selection<'_>,
    k: usize,
    kind: Kind,
    name: Option<NameId>,
    marks: &[bool],
) -> bool
    requires { (k < length selection.now.setting.outlines.now)
        × (k < length selection.now.flags.now) }
    ensures { (outline : Outline) (kept : Bool)
        → slice_get selection.now.setting.outlines.now k ≡ Some outline
        → slice_get selection.now.flags.now k ≡ Some kept
        → IsTrue result ↔ ((kept ≡ true) × IsSaidBy kind name marks.now outline) }
{
    if !selection.flags[k] {
        return false;
    }
    is_said_by(kind, name, marks, &selection.setting.outlines[k])
}

/// Whether one of the requirements at these places says so of a type parameter with the last name.
fn is_said_in(
    places: &[usize],
    kind: Kind,
    name: Option<NameId>,
    marks: &[bool],
    selection: &Selection<'_>,
) -> bool
    requires { ArePlaces selection.now.setting.outlines.now selection.now.flags.now places.now }
    ensures { IsTrue result ↔ IsSaidIn selection.now.setting.outlines.now selection.now.flags.now
        places.now (length places.now) kind name marks.now }
{
    for at in 0..places.len() {
        if says_at(selection, places[at], kind, name, marks) {
            return true;
        }
    }
    false
}

/// Whether one of the requirements says so of a type parameter with the last name: one with the name, or one of `Self` where a protocol is
/// marked.
fn is_said(kind: Kind, name: Option<NameId>, marks: &[bool], selection: &Selection<'_>) -> bool
    ensures { IsTrue result
        ↔ IsSaidAt selection.now.setting.outlines.now selection.now.flags.now kind name marks.now }
{
    if is_said_in(places_of(selection, name), kind, name, marks, selection) {
        return true;
    }
    if !is_any_marked(marks) {
        return false;
    }
    is_said_in(places_of(selection, None), kind, name, marks, selection)
}

/// Whether it is not said of type parameters with the last name that they are equal to others.
fn is_apart(
    alloc: Global,
    selection: &Selection<'_>,
    name: Option<NameId>,
) -> Result<bool, AllocError>
    ensures { IfOk result (λ b. IsTrue b
        ↔ (SaysEqual (lexicon_in selection.now) (selected_in selection.now) name → ⊥)) }
{
    let marks = said(alloc, selection, name)?;
    Ok(!is_said(Kind::IsEqual, name, &marks, selection))
}

/// Whether it is not said of type parameters with the last name that they are equal to others, nor that one of them conforms to the
/// protocol.
fn lacks_conformance(
    alloc: Global,
    selection: &Selection<'_>,
    name: Option<NameId>,
    proto: ProtoId,
) -> Result<bool, AllocError>
    ensures { IfOk result (λ b. IsTrue b
        ↔ ((SaysEqual (lexicon_in selection.now) (selected_in selection.now) name → ⊥)
        × (SaysConforms (lexicon_in selection.now) (selected_in selection.now) name proto → ⊥))) }
{
    let marks = said(alloc, selection, name)?;
    if is_marked(&marks, proto) {
        return Ok(false);
    }
    Ok(!is_said(Kind::IsEqual, name, &marks, selection))
}

/// Whether it is not said of type parameters with the last name that they are equal to others, nor that one of them is an object.
fn lacks_object(
    alloc: Global,
    selection: &Selection<'_>,
    name: Option<NameId>,
) -> Result<bool, AllocError>
    ensures { IfOk result (λ b. IsTrue b
        ↔ ((SaysEqual (lexicon_in selection.now) (selected_in selection.now) name → ⊥)
        × (SaysObject (lexicon_in selection.now) (selected_in selection.now) name → ⊥))) }
{
    let marks = said(alloc, selection, name)?;
    if is_said(Kind::IsObject, name, &marks, selection) {
        return Ok(false);
    }
    Ok(!is_said(Kind::IsEqual, name, &marks, selection))
}

/// Whether type parameters with two last names are not equal by what is selected: whether the names differ, and it is not said of those
/// with the one, or of those with the other, that they are equal to others.
fn lacks_equality(
    alloc: Global,
    selection: &Selection<'_>,
    left: Option<NameId>,
    right: Option<NameId>,
) -> Result<bool, AllocError>
    ensures { IfOk result (λ b. IsTrue b ↔ ((left ≡ right → ⊥)
        × ((SaysEqual (lexicon_in selection.now) (selected_in selection.now) left → ⊥)
        ⊎ (SaysEqual (lexicon_in selection.now) (selected_in selection.now) right → ⊥)))) }
{
    if is_same(left, right) || is_apart(alloc, selection, left)? {
        return Ok(!is_same(left, right));
    }
    is_apart(alloc, selection, right)
}

/// Whether something says of `Self` that it conforms to the protocol itself.
fn is_itself(subject: Option<NameId>, proto: ProtoId, owner: ProtoId) -> bool
    ensures { IsTrue result ↔ ((subject ≡ None) × (proto ≡ owner)) }
{
    match subject {
        Some(_) => false,
        None => proto.rank == owner.rank,
    }
}

/// The requirement at a place, by the last names of its type parameters.
fn outline_at(selection: &Selection<'_>, at: usize) -> Outline
    requires { at < length selection.now.setting.outlines.now }
    ensures { (x : Place) → slice_get selection.now.setting.places.now at ≡ Some x
        → outline_in (lexicon_in selection.now) x.proto
        (requirement_of selection.now.setting.text.table.now x.requirement) ≡ result }
{
    selection.setting.outlines[at]
}

/// Whether the requirement at a place is unsaid by those that are selected.
pub(crate) fn is_unsaid(
    alloc: Global,
    selection: &Selection<'_>,
    at: usize,
) -> Result<bool, AllocError>
    requires { at < length selection.now.setting.places.now }
    ensures { IfOk result (λ b. (x : Place) → slice_get selection.now.setting.places.now at ≡ Some x
        → IsTrue b ↔ IsUnsaid (lexicon_in selection.now) (selected_in selection.now) x.proto
        (requirement_of selection.now.setting.text.table.now x.requirement)) }
{
    match outline_at(selection, at) {
        Outline::Conformance { subject, proto } => {
            if is_itself(subject, proto, selection.setting.places[at].proto) {
                return Ok(false);
            }
            lacks_conformance(alloc, selection, subject, proto)
        }
        Outline::Object { subject, .. } => lacks_object(alloc, selection, subject),
        Outline::Equality { left, right, .. } => lacks_equality(alloc, selection, left, right),
    }
}

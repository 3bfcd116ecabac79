// A signature of a text.
ghost use Rattle.std.specs.Prelude.{◌≡◌, ◌↔◌, ◌<◌, ◌≤◌, ◌++◌, ◌-◌, [], Some, IfOk, IsTrue, length, map, take};
ghost use Rattle.swreq_world.specs.{Additions.{AddsNothing}, Entries.{around, entry_view}};

use crate::listed::bare_of;
use std::alloc::{AllocError, Global};
use swreq_lexicon::derive::{Params, Requirement};
use swreq_lexicon::names::Signature;
use swreq_lowering::{FuncId, Written};
use swreq_text::Seq;

/// A signature: which it is, its name, the struct around it, the depth of its own generic parameters, how many have depth 0
/// and depth 1, and what is written in itself: of a function of a struct not what the struct requires.
#[derive(Drop)]
pub struct Entry {
    pub signature: Signature,
    pub name: Seq<u8>,
    pub outer: Option<FuncId>,
    pub own_depth: u32,
    pub params: Params,
    pub own: Seq<Written>,
}

/// What the struct around a signature requires, where there is one.
fn around(entries: &[Entry], outer: Option<FuncId>) -> &[Written]
    ensures { result.now ≡ around entries.now outer }
{
    match outer {
        Some(f) => match entries.get(f.place as usize) {
            Some(entry) => entry.own.items(),
            None => &[],
        },
        None => &[],
    }
}

/// The list of a signature among these: that of the struct around it, followed by its own requirements.
pub fn whole(alloc: Global, entries: &[Entry], entry: &Entry) -> Result<Vec<Written>, AllocError>
    ensures { IfOk result (λ v. v.items ≡ (entry_view entries.now entry.now).requirements) }
{
    let mut list = Vec::from_slice(alloc, around(entries, entry.outer))?;
    list.extend_from_slice(entry.own.items())?;
    Ok(list)
}

/// Whether two signatures are in the same struct, or neither is in one.
fn are_together(one: &Entry, other: &Entry) -> bool
    ensures { IsTrue result → one.now.outer ≡ other.now.outer }
{
    match (one.outer, other.outer) {
        (None, None) => true,
        (Some(f), Some(g)) => f == g,
        _ => false,
    }
}

/// The list with these requirements in place of its last `less`.
fn with_end(
    mut list: Vec<Requirement>,
    less: usize,
    own: &[Written],
) -> Result<Vec<Requirement>, AllocError>
    requires { less ≤ length list.items }
    ensures { IfOk result (λ v.
        v.items ≡ take (length list.items - less) list.items ++ map (λ r. r.requirement) own.now) }
{
    list.truncate(list.len() - less);
    for r in own {
        list.push(r.requirement)?;
    }
    Ok(list)
}

/// The list of a signature among these without the places of sides, made of the list of the signature `last`. What a struct around
/// both requires stays.
pub fn whole_after(
    alloc: Global,
    entries: &[Entry],
    last: &Entry,
    list: Vec<Requirement>,
    entry: &Entry,
) -> Result<Vec<Requirement>, AllocError>
    requires { list.items
        ≡ map (λ r. r.requirement) (entry_view entries.now last.now).requirements }
    ensures { IfOk result
        (λ v. v.items ≡ map (λ r. r.requirement) (entry_view entries.now entry.now).requirements) }
{
    if are_together(last, entry) {
        with_end(list, last.own.items().len(), entry.own.items())
    } else {
        bare_of(alloc, &whole(alloc, entries, entry)?)
    }
}

/// Whether a signature is a function of the struct at this place.
fn is_inside(entry: &Entry, outer: FuncId) -> bool
    ensures { IsTrue result ↔ (entry.now.outer ≡ Some outer) }
{
    match entry.outer {
        Some(f) => f == outer,
        None => false,
    }
}

/// Whether a signature has as many generic parameters as another, and no requirement is written in itself.
fn has_no_own(entry: &Entry, outer: &Entry) -> bool
    ensures { IsTrue result ↔ ((entry.now.params ≡ outer.now.params) × (entry.now.own ≡ [])) }
{
    entry.params == outer.params && entry.own.items().is_empty()
}

/// Whether the signature `function` among these is a function of the struct at `outer` in which nothing of its own is written.
pub fn adds_nothing(entries: &[Entry], outer: FuncId, function: FuncId) -> bool
    requires outer { outer.place < length entries.now }
    requires f { function.place < length entries.now }
    ensures { IsTrue result
        ↔ AddsNothing (map (entry_view entries.now) entries.now) outer function }
{
    let around = &entries[outer.place as usize];
    let entry = &entries[function.place as usize];
    match around.outer {
        Some(_) => false,
        None => is_inside(entry, outer) && has_no_own(entry, around),
    }
}

//! By which machine each piece is made that a command prints.
ghost use Rattle.std.specs.{Prelude.{◌≡◌, ◌+◌, ◌<◌, [], All, Vec, ℕ, length, IfOk, OnOk, Option, Some}, declared.alloc.Global.{Global as GlobalView}};
ghost use Rattle.swreq_machine.specs.swreq_lowering.declared.ids.FuncId.{FuncId as FuncIdView};
ghost use Rattle.swreq_check.specs.Wanted.{ArePlaces, ArePlacesFor, count_of, machine_asked, maker};

use crate::content::{Content, Made};
use std::alloc::{AllocError, Global};
use swreq_machine::lowering::{Asks, FuncId, Query};
use swreq_machine::symbols::Text;
use swreq_machine::world::World;

/// The signature by whose machine a query is answered, or None where it asks for a minimised list.
fn machine_asked(query: &Query) -> Option<FuncId>
    ensures { result ≡ machine_asked query.now }
{
    match query.asks {
        Asks::Signature => None,
        Asks::Reduced(_) | Asks::Requirement(_) => Some(query.f),
    }
}

/// How many pieces of this content have places that machines fill.
pub(crate) fn count_of(world: &World, content: Content) -> usize
    ensures { result ≡ count_of world.now content }
{
    match content.makes() {
        Made::Lines => world.queries().len(),
        Made::Systems => world.functions() as usize,
        Made::Lists | Made::Nothing => 0,
    }
}

/// The signature whose machine makes the piece at this place, if one does.
fn maker(text: &Text<'_>, content: Content, k: usize) -> Option<FuncId>
    requires { k < count_of text.now.world.now content }
    ensures { result ≡ maker text.now.world.now content k }
{
    match content.makes() {
        Made::Lines => machine_asked(&text.world.queries()[k]),
        Made::Systems => Some(FuncId { place: k as u32 }),
        Made::Lists | Made::Nothing => None,
    }
}

/// `count` lists without places.
pub(crate) fn no_places(alloc: Global, count: usize) -> Result<Vec<Vec<usize>>, AllocError>
    ensures count { IfOk result (λ v. length v.items ≡ count) }
    ensures empty { IfOk result
        (λ v. All (λ (places : Vec ℕ GlobalView). places.items ≡ []) v.items) }
{
    let mut groups = Vec::new(alloc);
    for _ in 0..count {
        groups.push(Vec::new(alloc))?;
    }
    Ok(groups)
}

/// Puts a place to those of this signature, whose machine makes the piece there.
pub(crate) fn add_place(f: FuncId, k: usize, places: &mut Vec<Vec<usize>>) -> Result<(), AllocError>
    requires f { f.place < length places.old.items }
    ensures { OnOk result ((made_by : ℕ → Option FuncIdView) (count : ℕ) → made_by k ≡ Some f
        → ArePlaces made_by count k places.old.items
        → ArePlaces made_by count (k + 1) places.new.items) }
{
    places[f.place as usize].push(k)?;
    Ok(())
}

/// Puts a place to those of the signature whose machine makes the piece there, if one does.
fn note(
    text: &Text<'_>,
    content: Content,
    k: usize,
    places: &mut Vec<Vec<usize>>,
) -> Result<(), AllocError>
    requires k { k < count_of text.now.world.now content }
    requires places { ArePlaces (maker text.now.world.now content)
        (length text.now.world.now.signatures) k places.old.items }
    ensures { OnOk result (ArePlaces (maker text.now.world.now content)
        (length text.now.world.now.signatures) (k + 1) places.new.items) }
{
    match maker(text, content, k) {
        Some(f) => add_place(f, k, places),
        None => Ok(()),
    }
}

/// Of each signature the places of the pieces that its machine makes, ascending.
pub fn places(
    alloc: Global,
    text: &Text<'_>,
    content: Content,
) -> Result<Vec<Vec<usize>>, AllocError>
    ensures { IfOk result (λ v. ArePlacesFor text.now.world.now content v.items) }
{
    let mut places = no_places(alloc, text.world.functions() as usize)?;
    for k in 0..count_of(text.world, content) {
        note(text, content, k, &mut places)?;
    }
    Ok(places)
}

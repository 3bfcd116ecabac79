// The places of signatures.
ghost use Rattle.std.specs.Prelude.{◌≡◌, ℕ, cond, nat_eq, None, Some, slice_index_or, IfOk, OnOk};
ghost use Rattle.swreq_lexicon.specs.swreq_names.declared.signature.Signature.TheVariants.{Struct, Function};
ghost use Rattle.swreq_world.specs.Places.{ArePlaces};
ghost use Rattle.swreq_lowering.specs.Signatures.{is_signature};

use std::alloc::{AllocError, Global};
use swreq_lexicon::names::Signature;

/// The places of structs, and of functions at the top.
#[derive(Drop)]
pub struct Places {
    pub structs: Vec<Option<usize>>,
    pub functions: Vec<Option<usize>>,
}

/// Notes a place, over what was noted before.
fn note(places: &mut Vec<Option<usize>>, index: usize, place: usize) -> Result<(), AllocError>
    ensures { OnOk result ((k : ℕ) → slice_index_or places.new.items k None
        ≡ cond (nat_eq k index) (Some place) (slice_index_or places.old.items k None)) }
{
    while places.len() <= index {
        places.push(None)?;
    }
    places[index] = Some(place);
    Ok(())
}

/// Notes the place of a signature.
fn note_signature(places: &mut Places, signature: Signature, place: usize) -> Result<(), AllocError>
    ensures structs { OnOk result ((k : ℕ)
        → slice_index_or places.new.structs.items k None
        ≡ cond (is_signature (Struct k) signature) (Some place)
        (slice_index_or places.old.structs.items k None)) }
    ensures functions { OnOk result ((k : ℕ)
        → slice_index_or places.new.functions.items k None
        ≡ cond (is_signature (Function k) signature) (Some place)
        (slice_index_or places.old.functions.items k None)) }
{
    match signature {
        Signature::Struct(i) => note(&mut places.structs, i, place),
        Signature::Function(i) => note(&mut places.functions, i, place),
        Signature::Nested { .. } => Ok(()),
    }
}

/// The places of these signatures.
pub fn places_of(alloc: Global, order: &[Signature]) -> Result<Places, AllocError>
    ensures { IfOk result (λ p. ArePlaces order.now p.structs.items p.functions.items) }
{
    let mut places = Places {
        structs: Vec::new(alloc),
        functions: Vec::new(alloc),
    };
    let mut at = order.len();
    while at > 0 {
        at -= 1;
        note_signature(&mut places, order[at], at)?;
    }
    Ok(places)
}

// The signatures of a text, by their places.
ghost use Rattle.std.specs.Prelude.{◌≡◌, ◌≤◌, length, unwrap_or, slice_index_or, None, IfOk};
ghost use Rattle.swreq_lexicon.specs.swreq_names.declared.signature.Signature.TheVariants.{Struct, Function};
ghost use Rattle.swreq_world.specs.Places.{IsSmall};
ghost use Rattle.swreq_lowering.specs.Signatures.{func_id, in_order, place_in};

use crate::merging::in_order;
use crate::places::{Places, places_of};
use std::alloc::{AllocError, Global};
use std::marker::Model;
use swreq_lexicon::decl::Skeleton;
use swreq_lexicon::names::Signature;
use swreq_lowering::FuncId;

/// At most 1,048,576 signatures in written order.
#[derive(Drop)]
pub struct Order {
    signatures: Vec<Signature>,
    places: Places,
}

impl Model for Order {
    ghost use Rattle.std.specs.Prelude.{List, length, ◌≤◌};
    ghost use Rattle.swreq_lexicon.specs.swreq_names.declared.signature.Signature.{Signature};
    ghost use Rattle.swreq_world.specs.Places.{ArePlaces};

    ghost Value = { List Signature };

    ghost view = { λ o. o.signatures.items };

    ghost invariant = { λ o. ArePlaces o.signatures.items o.places.structs.items
        o.places.functions.items × (length o.signatures.items ≤ 1048576) };
}

impl Order {
    /// The signatures of a skeleton.
    pub fn of(alloc: Global, skeleton: &Skeleton) -> Result<Order, AllocError>
        requires { length (in_order skeleton.now) ≤ 1048576 }
        ensures { IfOk result (λ order. order ≡ in_order skeleton.now) }
    {
        let signatures = in_order(alloc, skeleton)?;
        let places = places_of(alloc, &signatures)?;
        Ok(Order { signatures, places })
    }

    /// The signatures in written order.
    pub fn signatures(&self) -> &[Signature]
        ensures same { result.now ≡ self.now }
        ensures few { length self.now ≤ 1048576 }
    {
        &self.signatures
    }

    /// The place of a struct, or 0 where it has none.
    fn struct_place(&self, index: usize) -> usize
        ensures is { result ≡ unwrap_or (place_in self.now (Struct index)) 0 }
        ensures small { result ≤ 1048576 }
    {
        place_at(&self.places.structs, index)
    }

    /// The place of a function at the top, or 0 where it has none.
    fn function_place(&self, index: usize) -> usize
        ensures is { result ≡ unwrap_or (place_in self.now (Function index)) 0 }
        ensures small { result ≤ 1048576 }
    {
        place_at(&self.places.functions, index)
    }

    /// The place of a signature. The functions of a struct follow it.
    pub fn func_id(&self, signature: Signature) -> FuncId
        requires { IsSmall signature }
        ensures { result ≡ func_id self.now signature }
    {
        let place = match signature {
            Signature::Struct(i) => self.struct_place(i),
            Signature::Function(i) => self.function_place(i),
            Signature::Nested { outer, function } => self.struct_place(outer) + (1 + function),
        };
        FuncId {
            place: place as u32,
        }
    }
}

/// The place that is noted, or 0 where none is.
fn place_at(places: &[Option<usize>], index: usize) -> usize
    ensures { result ≡ unwrap_or (slice_index_or places.now index None) 0 }
{
    match places.get(index) {
        Some(Some(place)) => *place,
        _ => 0,
    }
}

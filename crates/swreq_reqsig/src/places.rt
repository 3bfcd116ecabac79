//! The requirements of all protocols in one list.
ghost use Rattle.std.specs.Prelude.{◌≡◌, ◌++◌, IfOk, OnOk};
ghost use Rattle.swreq_reqsig.specs.Places.{all_places, places_from};

use std::alloc::{AllocError, Global};
use swreq_valid::derive::Requirement;
use swreq_valid::param::ProtoId;
use swreq_valid::symbols::Text;

/// A requirement of a protocol, with its number among those of the protocol, from 1.
#[derive(Clone, Copy, Debug)]
pub(crate) struct Place {
    pub proto: ProtoId,
    pub number: u32,
    pub requirement: Requirement,
}

/// The number, where it has 32 bits. A protocol has no more requirements.
pub(crate) fn number(k: usize) -> Result<u32, AllocError>
    ensures { IfOk result (λ n. n ≡ k) }
{
    u32::try_from(k).map_err(|_| AllocError)
}

/// Puts the requirements of a protocol last.
fn add_places(p: ProtoId, list: &[Requirement], all: &mut Vec<Place>) -> Result<(), AllocError>
    ensures { OnOk result (all.new.items ≡ all.old.items ++ places_from p 1 list.now) }
{
    for k in 0..list.len() {
        let requirement = list[k];
        let n = number(k + 1)?;
        all.push(Place {
            proto: p,
            number: n,
            requirement,
        })?;
    }
    Ok(())
}

/// The requirements of all protocols, protocols and requirements in written order.
pub(crate) fn all_places(alloc: Global, text: &Text<'_>) -> Result<Vec<Place>, AllocError>
    ensures { IfOk result (λ v. v.items ≡ all_places text.now.world.now) }
{
    let mut all = Vec::new(alloc);
    for k in 0..text.world.protocols() {
        let p = text.world.proto_at(k);
        let list = text.world.bare_requirements(p);
        add_places(p, list, &mut all)?;
    }
    Ok(all)
}

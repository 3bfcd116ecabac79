//! Whether a requirement of a protocol is derivable by those that are kept.
ghost use Rattle.std.specs.Prelude.{◌↔◌, Bool, IfOk, IsTrue, List};
ghost use Rattle.swreq_valid.specs.swreq_derive.{Derivation.{Derivable}, Derivation.Source.{SelfOf}, Derivation.TermStatement.{Requires}, Facts.{requirement_of}};
ghost use Rattle.swreq_valid.specs.{Keeping.{kept_facts}, swreq_symbols.Texts.{world_of}};
ghost use Rattle.swreq_reqsig.specs.{Families.{AreRulesOfKept}, Places.{IsPlaceIn}};

use crate::places::Place;
use std::alloc::{AllocError, Global};
use swreq_valid::symbols::{Text, equation};
use swreq_valid::{Protocols, are_linked};

/// Whether a requirement of a protocol is derivable by the kept requirements of which the rules were made: whether it is usable by them,
/// and the rules link the two sides of its equation.
pub(crate) fn is_derivable(
    alloc: Global,
    text: &Text<'_>,
    protocols: &Protocols,
    place: &Place,
) -> Result<bool, AllocError>
    requires { IsPlaceIn text.now.world.now place.now }
    ensures { (keep : List (List Bool)) → AreRulesOfKept (world_of text.now) keep protocols.now
        → IfOk result (λ b. IsTrue b
        ↔ Derivable (kept_facts (world_of text.now) keep) (SelfOf place.now.proto)
        (Requires (requirement_of text.now.table.now place.now.requirement))) }
{
    if !protocols.usable(place.proto, place.number) {
        return Ok(false);
    }
    let sides = equation(alloc, text, Some(place.proto), &place.requirement)?;
    are_linked(alloc, protocols.rules(), &sides.0, &sides.1)
}

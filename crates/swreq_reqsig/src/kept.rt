//! The family of requirement signatures that is given.
ghost use Rattle.std.specs.Prelude.{◌≡◌, IfOk, length};
ghost use Rattle.swreq_valid.specs.swreq_derive.WellFormed.{AreProtocolsWellFormed};
ghost use Rattle.swreq_valid.specs.swreq_symbols.{Meaning.{facts_of}, Texts.{world_of}};
ghost use Rattle.swreq_reqsig.specs.{Families.{AreRequirementSignatures, IsGivenFamily, members}, Told.{AnswersFamily, IsOnlyFamily}};

use crate::family::Family;
use crate::flags::family_of;
use crate::going::drop_derivable;
use crate::named::named;
use crate::outlines::outlines;
use crate::places::all_places;
use crate::setting::Setting;
use std::alloc::Global;
use swreq_valid::complete::{Failed, Limits};
use swreq_valid::symbols::Text;
use swreq_valid::watch::Watch;

/// The family of requirement signatures of a text whose protocols are well formed.
///
/// Going through the protocols from the last to the first in written order, and through the requirements of each from the last to the
/// first, each requirement is left out without which the same is derivable from `[τ_0_0 : P]` for every protocol P.
///
/// Most requirements are seen not to follow by the last names of type parameters alone: those that the others leave unsaid, since they say
/// nothing of the kind of type parameters with the same last name, nor that these are equal to others.
///
/// Whether another requirement of P follows is asked by reach: of the requirements that are left, without the one in question, of those
/// protocols that P reaches. P reaches itself, and with a protocol each to which something conforms by such a requirement of that protocol.
/// No other requirement bears on what is derivable from `[τ_0_0 : P]`. A conformance to a protocol that P does not reach does not follow.
/// For this and for what is unsaid nothing is completed; for each other requirement the rounds of the reached part are run.
///
/// It is `Failed::Limit` exactly where the rounds of such a part stop at a limit, with that limit and its trace. The watcher is told the
/// events of these rounds, one after the other.
pub fn kept_family<W: Watch>(
    alloc: Global,
    text: &Text<'_>,
    limits: Limits,
    watch: &mut W,
) -> Result<Family, Failed>
    requires { AreProtocolsWellFormed (facts_of (world_of text.now)) }
    ensures answer { AnswersFamily limits (world_of text.now)
        (W.told watch.old) (W.told watch.new) result }
    ensures only { IsOnlyFamily limits (world_of text.now) result }
    ensures given { IfOk result (λ family.
        IsGivenFamily (world_of text.now) family.kept) }
    ensures protocols { IfOk result (λ family.
        length family.kept ≡ length text.now.world.now.lexicon.protocols) }
    ensures signatures { IfOk result (λ family.
        AreRequirementSignatures (world_of text.now)
        (members (world_of text.now) family.kept)) }
{
    let places = all_places(alloc, text)?;
    let outlines = outlines(alloc, text, &places)?;
    let named = named(alloc, text.world.lexicon().names(), &outlines)?;
    let setting = Setting {
        text: *text,
        places: &places,
        outlines: &outlines,
        named: &named,
        limits,
    };
    let flags = drop_derivable(alloc, &setting, watch)?;
    Ok(family_of(alloc, text, &flags)?)
}

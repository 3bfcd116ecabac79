//! Whether the names of a text resolve, or those of one type.

ghost use Rattle.std.specs.Prelude.{◌≡◌, ◌⊎◌, [], length, IfOk, IfErr, IsOk, Err, MatchOption, MatchResult};
ghost use Rattle.swreq_names.specs.Names.{HasDeclared};
ghost use Rattle.swreq_resolve.specs.{Cycles.{HasNoLoop, IsLoopAt}, declared.refusal.NameErr.{NameErr}, declared.refusal.NameErr.TheVariants.{Memory}, First.{IsFirst}, RefusedTypes.{of_type_on}, Resolving.{Resolve, RefusesSkeleton}};

use crate::check::{FirstWords, check_type};
use crate::cycles::cycle_of;
use crate::items::first_refusal;
use crate::refusal::{NameErr, Refusal, error_of};
use std::alloc::Global;
use swreq_decl::{Skeleton, TypeDecl};
use swreq_names::{Declared, Names, Signature};

/// The refusal of a skeleton with these names, if there is one.
fn first_error(text: &[u8], skeleton: &Skeleton, names: &Names) -> Option<NameErr>
    requires { HasDeclared text.now skeleton.now names.now }
    ensures { MatchOption result (Resolve text.now skeleton.now)
        (RefusesSkeleton text.now skeleton.now) }
{
    let inherits = names.inheritance();
    match first_refusal(text, names.declared(), inherits, skeleton) {
        Some(refusal) => Some(error_of(refusal)),
        None => {
            let at = cycle_of(skeleton, inherits)?;
            Some(NameErr::Cycle { at })
        }
    }
}

/// The names of a skeleton, where they resolve and no protocol inherits itself.
///
/// Where they do not, the refusal is of the name with the least offset among those that are refused. `Cycle` comes only
/// where no name is refused, at the name of the first protocol in written order that inherits itself.
pub fn resolve_names(alloc: Global, text: &[u8], skeleton: &Skeleton) -> Result<Names, NameErr>
    ensures names { IfOk result (HasDeclared text.now skeleton.now) }
    ensures ok { IsOk result → Resolve text.now skeleton.now }
    ensures resolves { Resolve text.now skeleton.now → IsOk result ⊎ (result ≡ Err Memory) }
    ensures refused { IfErr result (λ e. RefusesSkeleton text.now skeleton.now e ⊎ (e ≡ Memory)) }
    ensures refuses { (e : NameErr) → RefusesSkeleton text.now skeleton.now e
        → (result ≡ Err e) ⊎ (result ≡ Err Memory) }
{
    let names = Names::of(alloc, text, skeleton)?;
    match first_error(text, skeleton, &names) {
        Some(refusal) => Err(refusal),
        None => Ok(names),
    }
}

/// Whether the names of one type resolve on a signature of a text, whose names are `declared`. The type may be written in
/// another text, whose bytes are `text`. Where its names do not resolve, the refusal is the first among those of the type.
pub fn resolve_type(
    declared: &Declared,
    signature: Signature,
    text: &[u8],
    written_type: &TypeDecl,
) -> Result<(), Refusal>
    // No name of the type is refused, or this is the first that is.
    ensures answer { MatchResult result
        (λ _. of_type_on declared.now signature text.now written_type.now ≡ [])
        (IsFirst (of_type_on declared.now signature text.now written_type.now)) }
    // Where no name is refused, there is no refusal, and the first refusal, where there is one, is the answer.
    ensures resolves { of_type_on declared.now signature text.now written_type.now ≡ []
        → IsOk result }
    ensures refuses { (r : Refusal)
        → IsFirst (of_type_on declared.now signature text.now written_type.now) r
        → result ≡ Err r }
{
    let first_words = FirstWords::Signature(signature);
    match check_type(text, declared, first_words, written_type, None) {
        Some(refusal) => Err(refusal),
        None => Ok(()),
    }
}

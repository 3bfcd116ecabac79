//! The places of requirements by the last names of their type parameters.
ghost use Rattle.std.specs.Prelude.{◌≡◌, ◌<◌, ◌+◌, IfOk, OnOk, length};
ghost use Rattle.swreq_reqsig.specs.Named.{AreNamed, AreNoted, HasLists, HaveLists, IsNoted, list_of};

use crate::outlines::Outline;
use std::alloc::{AllocError, Global};
use swreq_print::rank::Lists;
use swreq_valid::param::NameId;

/// The list of a last name: that of `Self` is the first, and then come those of the names, by rank.
pub(crate) fn list_of(name: Option<NameId>) -> usize
    ensures { result ≡ list_of name }
{
    match name {
        None => 0,
        Some(a) => a.rank as usize + 1,
    }
}

/// Keeps a place for a last name.
fn note(lists: &mut Lists<usize>, name: Option<NameId>, k: usize) -> Result<(), AllocError>
    requires { list_of name < length lists.old }
    ensures { OnOk result (IsNoted name k lists.old lists.new) }
{
    lists.push(list_of(name), k)
}

/// Keeps the place of a requirement for its last names.
fn note_outline(lists: &mut Lists<usize>, outline: &Outline, k: usize) -> Result<(), AllocError>
    requires { HasLists (length lists.old) outline.now }
    ensures { OnOk result (AreNoted outline.now k lists.old lists.new) }
{
    match outline {
        Outline::Conformance { subject, .. } => note(lists, *subject, k),
        Outline::Object { subject, .. } => note(lists, *subject, k),
        Outline::Equality { left, right, .. } => {
            note(lists, *left, k)?;
            note(lists, *right, k)
        }
    }
}

/// The places of requirements by their last names, of which there are this many beside that of `Self`.
pub(crate) fn named(
    alloc: Global,
    names: u32,
    outlines: &[Outline],
) -> Result<Lists<usize>, AllocError>
    requires { HaveLists (names + 1) outlines.now }
    ensures { IfOk result (λ lists. AreNamed outlines.now lists) }
{
    let mut lists = Lists::new(alloc, names as usize + 1)?;
    for k in 0..outlines.len() {
        note_outline(&mut lists, &outlines[k], k)?;
    }
    Ok(lists)
}

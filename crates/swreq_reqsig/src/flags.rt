//! Flags for the requirements of all protocols, in a list for each protocol.
ghost use Rattle.std.specs.Prelude.{◌≡◌, IfOk, drop, length, take};
ghost use Rattle.swreq_valid.specs.Keeping.{AreFlags};
ghost use Rattle.swreq_reqsig.specs.{Families.{flag_lists, numbers, numbers_from}, Places.{all_places}};

use crate::family::Family;
use crate::places::number;
use std::alloc::{AllocError, Global};
use swreq_text::Seq;
use swreq_valid::Kept;
use swreq_valid::symbols::Text;

/// The first `count` flags, or all if there are fewer.
fn take_flags(flags: &[bool], count: usize) -> &[bool]
    ensures { result.now ≡ take count flags.now }
{
    if count < flags.len() {
        &flags[..count]
    } else {
        flags
    }
}

/// The flags after the first `count`.
fn drop_flags(flags: &[bool], count: usize) -> &[bool]
    ensures { result.now ≡ drop count flags.now }
{
    if count < flags.len() {
        &flags[count..]
    } else {
        &[]
    }
}

/// The flags of the requirements of all protocols, in a list for each protocol.
fn flag_lists(alloc: Global, text: &Text<'_>, flags: &[bool]) -> Result<Vec<Seq<bool>>, AllocError>
    ensures { IfOk result (λ v. v.items ≡ flag_lists text.now.world.now flags.now) }
{
    let mut lists: Vec<Seq<bool>> = Vec::new(alloc);
    let mut rest = flags;
    for k in 0..text.world.protocols() {
        let p = text.world.proto_at(k);
        let count = text.world.bare_requirements(p).len();
        let list = Seq::new(take_flags(rest, count).to_vec(alloc)?);
        lists.push(list)?;
        rest = drop_flags(rest, count);
    }
    Ok(lists)
}

/// Which requirements are kept, by the flags of all of them.
pub(crate) fn kept_by(alloc: Global, text: &Text<'_>, flags: &[bool]) -> Result<Kept, AllocError>
    requires { length flags.now ≡ length (all_places text.now.world.now) }
    ensures lists { IfOk result (λ keep. keep.lists ≡ flag_lists text.now.world.now flags.now) }
    ensures flags { IfOk result (λ keep. AreFlags text.now.world.now keep.lists) }
{
    let lists = flag_lists(alloc, text, flags)?;
    Ok(Kept {
        lists: Seq::new(lists),
    })
}

/// The numbers of those whose flags are set, from 1.
fn numbers_of(alloc: Global, flags: &[bool]) -> Result<Vec<u32>, AllocError>
    ensures { IfOk result (λ v. v.items ≡ numbers_from 1 flags.now) }
{
    let mut numbers = Vec::new(alloc);
    for k in 0..flags.len() {
        if flags[k] {
            numbers.push(number(k + 1)?)?;
        }
    }
    Ok(numbers)
}

/// The family of the requirements whose flags are set.
pub(crate) fn family_of(
    alloc: Global,
    text: &Text<'_>,
    flags: &[bool],
) -> Result<Family, AllocError>
    ensures { IfOk result (λ family. family.kept ≡ numbers text.now.world.now flags.now) }
{
    let lists = flag_lists(alloc, text, flags)?;
    let mut kept: Vec<Seq<u32>> = Vec::new(alloc);
    for k in 0..lists.len() {
        let list = &lists[k];
        kept.push(Seq::new(numbers_of(alloc, list.items())?))?;
    }
    Ok(Family {
        kept: Seq::new(kept),
    })
}

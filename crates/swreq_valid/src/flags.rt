//! Flags for the requirements that rounds may use, in order.
ghost use Rattle.std.specs.{Prelude.{◌≡◌, ◌↔◌, length, false, replicate, IfOk, IsTrue}, List.{list_all}};
ghost use Rattle.swreq_valid.specs.Flags.{either_of, is_either};

use std::alloc::{AllocError, Global};

/// `count` flags, none of them set.
pub(crate) fn none_used(alloc: Global, count: usize) -> Result<Vec<bool>, AllocError>
    ensures { IfOk result (λ flags. flags.items ≡ replicate count false) }
{
    let flags = vec![in alloc; false; count]?;
    Ok(flags)
}

/// Whether all flags are set.
pub(crate) fn are_set(flags: &[bool]) -> bool
    ensures { result ≡ list_all (λ b. b) flags.now }
{
    flags.iter().all(|set| *set)
}

/// Whether the flags are the same.
pub(crate) fn are_same(first: &[bool], second: &[bool]) -> bool
    ensures { IsTrue result ↔ (first.now ≡ second.now) }
{
    first == second
}

/// Whether one of the two is set.
fn is_either(first: bool, second: bool) -> bool
    ensures { result ≡ is_either first second }
{
    first || second
}

/// The flags that are set in the one list or in the other.
pub(crate) fn either(
    alloc: Global,
    first: &[bool],
    second: &[bool],
) -> Result<Vec<bool>, AllocError>
    requires { length first.now ≡ length second.now }
    ensures { IfOk result (λ v. v.items ≡ either_of first.now second.now) }
{
    let mut flags = Vec::new(alloc);
    for k in 0..first.len() {
        let set = is_either(first[k], second[k]);
        flags.push(set)?;
    }
    Ok(flags)
}

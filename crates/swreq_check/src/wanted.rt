//! Of which signatures the minimised list is wanted.
ghost use Rattle.std.specs.Prelude.{◌≡◌, length, IfOk};
ghost use Rattle.swreq_check.specs.Wanted.{AreFlags, AreFlagsFor, is_list_asked, list_asked};

use crate::content::{Content, Made};
use std::alloc::{AllocError, Global};
use swreq_machine::lowering::{Asks, FuncId, Query};
use swreq_machine::symbols::Text;

/// The signature for whose minimised list a query asks, or None where it asks something else.
pub fn list_asked(query: &Query) -> Option<FuncId>
    ensures { result ≡ list_asked query.now }
{
    match query.asks {
        Asks::Signature => Some(query.f),
        Asks::Reduced(_) | Asks::Requirement(_) => None,
    }
}

/// `count` flags that are all alike.
fn flags(alloc: Global, count: usize, flag: bool) -> Result<Vec<bool>, AllocError>
    ensures { IfOk result (λ v. AreFlags (λ k. flag) count v.items) }
{
    vec![in alloc; flag; count]
}

/// Of each signature, whether some query asks for its minimised list.
fn lists_asked(alloc: Global, text: &Text<'_>) -> Result<Vec<bool>, AllocError>
    ensures { IfOk result (λ v. AreFlags (is_list_asked text.now.world.now.queries)
        (length text.now.world.now.signatures) v.items) }
{
    let mut flags = flags(alloc, text.world.functions() as usize, false)?;
    for k in 0..text.world.queries().len() {
        if let Some(f) = list_asked(&text.world.queries()[k]) {
            flags[f.place as usize] = true;
        }
    }
    Ok(flags)
}

/// Of each signature, whether its minimised list is wanted.
pub fn lists_wanted(
    alloc: Global,
    text: &Text<'_>,
    content: Content,
) -> Result<Vec<bool>, AllocError>
    ensures { IfOk result (λ v. AreFlagsFor text.now.world.now content v.items) }
{
    match content.makes() {
        Made::Lines => lists_asked(alloc, text),
        Made::Lists => flags(alloc, text.world.functions() as usize, true),
        Made::Systems | Made::Nothing => flags(alloc, text.world.functions() as usize, false),
    }
}

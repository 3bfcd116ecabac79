// The first name that is refused.
ghost use Rattle.std.specs.Prelude.{◌≡◌, None};
ghost use Rattle.swreq_closure.specs.Chains.{leads};
ghost use Rattle.swreq_resolve.specs.{First.{least}, Refusals.{of_space, of_spaces, refusals_in}};

use crate::check::check_duplicates;
use crate::protocols::check_protocols;
use crate::queries::check_queries;
use crate::refusal::Refusal;
use crate::signatures::check_signatures;
use swreq_closure::Closure;
use swreq_decl::Skeleton;
use swreq_names::{Declared, Directory};

/// Checks for names that two lists of declarations, which are one space, declare twice.
#[tactic(auto, using(crate::proofs::Walks::walked, crate::proofs::Walks::least_both))]
fn check_space(one: &Directory, other: &Directory, best: Option<Refusal>) -> Option<Refusal>
    ensures { result ≡ least best (of_space one.now other.now) }
{
    let best = check_duplicates(one, one.items(), best);
    let best = check_duplicates(other, one.items(), best);
    let best = check_duplicates(one, other.items(), best);
    check_duplicates(other, other.items(), best)
}

/// Checks for names that are declared twice among protocols, structs and the functions at the top.
#[tactic(auto, using(crate::proofs::Walks::least_both))]
fn check_spaces(declared: &Declared, best: Option<Refusal>) -> Option<Refusal>
    ensures { result ≡ least best (of_spaces declared.now) }
{
    let best = check_space(declared.protocols(), declared.structs(), best);
    check_space(declared.structs(), declared.functions(), best)
}

/// The first of all refusals of names. `declared` has the names of the skeleton.
#[tactic(auto, using(crate::proofs::Walks::walked, crate::proofs::Walks::least_both))]
pub fn first_refusal(
    text: &[u8],
    declared: &Declared,
    inherits: &Closure,
    skeleton: &Skeleton,
) -> Option<Refusal>
    ensures { result ≡ least None
        (refusals_in text.now declared.now (leads inherits.now) skeleton.now) }
{
    let best = check_spaces(declared, None);
    let best = check_protocols(text, declared, inherits, skeleton.protocols.items(), best);
    let best = check_signatures(text, declared, skeleton, best);
    check_queries(text, declared, skeleton.queries.items(), best)
}

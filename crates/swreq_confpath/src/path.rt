//! Conformance paths.
ghost use Rattle.std.specs.Prelude.{◌≡◌, ◌∷◌, ◌++◌, [], IfOk};

use std::alloc::{AllocError, Global};
use swreq_text::Seq;

/// A conformance path, by the numbers of its conformances. Numbers count all requirements of a list, from 1.
#[derive(Debug, Drop, PartialEq, Eq)]
pub struct ConfPath {
    /// The number of a conformance in the list of the signature.
    pub first: u32,
    /// Each the number of a conformance among the requirements of the protocol that the one before it names.
    pub steps: Seq<u32>,
}

/// The path with these numbers.
pub(crate) fn path_of(alloc: Global, numbers: &[u32], last: u32) -> Result<ConfPath, AllocError>
    ensures { IfOk result (λ path. path.first ∷ path.steps ≡ numbers.now ++ last ∷ []) }
{
    match numbers {
        [] => Ok(ConfPath {
            first: last,
            steps: Seq::new(Vec::new(alloc)),
        }),
        [first, rest @ ..] => {
            let mut steps = Vec::from_slice(alloc, rest)?;
            steps.push(last)?;
            Ok(ConfPath {
                first: *first,
                steps: Seq::new(steps),
            })
        }
    }
}

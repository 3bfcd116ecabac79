//! Skeletons of texts.
ghost use Rattle.std.specs.Prelude.{◌≤◌, IfOk, length};
ghost use Rattle.swreq_decl.specs.Skeletons.{StandsFor};

use std::alloc::Global;
use std::test::Fail;
use swreq_decl::{Skeleton, parse};

/// The skeleton of a text of at most 1,048,576 bytes. Fails if the text has none.
pub fn skeleton_of(alloc: Global, text: &[u8]) -> Result<Skeleton, Fail>
    requires { length text.now ≤ 1048576 }
    ensures { IfOk result (StandsFor text.now) }
{
    let skeleton = parse(alloc, text)?;
    Ok(skeleton)
}

// The list of a signature, as it is kept for the queries that follow.
ghost use Rattle.std.specs.Prelude.{◌≡◌, ◌<◌, IfOk, IfSome, length};
ghost use Rattle.swreq_verify.specs.Listing.{IsListOf};

use std::alloc::{AllocError, Global};
use swreq_world::World;
use swreq_world::derive::Requirement;
use swreq_world::lowering::FuncId;

/// A signature and its list.
#[derive(Drop)]
pub(crate) struct Listed {
    pub signature: FuncId,
    pub list: Vec<Requirement>,
}

fn fresh(alloc: Global, world: &World, f: FuncId) -> Result<Listed, AllocError>
    requires { f.place < length world.now.signatures }
    ensures signature { IfOk result (λ l. l.signature ≡ f) }
    ensures list { IfOk result (IsListOf world.now) }
{
    let list = world.bare_signature(alloc, f)?;
    Ok(Listed { signature: f, list })
}

/// The list of a signature, made of that of another.
fn changed(alloc: Global, world: &World, last: Listed, f: FuncId) -> Result<Listed, AllocError>
    requires last { IsListOf world.now last }
    requires f { f.place < length world.now.signatures }
    ensures signature { IfOk result (λ l. l.signature ≡ f) }
    ensures list { IfOk result (IsListOf world.now) }
{
    let list = world.bare_signature_after(alloc, last.signature, last.list, f)?;
    Ok(Listed { signature: f, list })
}

/// The list of a signature: the one that was kept, where it is of the same signature, or one that is made of that.
pub(crate) fn list_of(
    alloc: Global,
    world: &World,
    kept: Option<Listed>,
    f: FuncId,
) -> Result<Listed, AllocError>
    requires kept { IfSome kept (IsListOf world.now) }
    requires f { f.place < length world.now.signatures }
    ensures signature { IfOk result (λ l. l.signature ≡ f) }
    ensures list { IfOk result (IsListOf world.now) }
{
    match kept {
        None => fresh(alloc, world, f),
        Some(last) => {
            if last.signature == f {
                Ok(last)
            } else {
                changed(alloc, world, last, f)
            }
        }
    }
}

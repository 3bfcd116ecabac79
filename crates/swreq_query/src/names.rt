//! The name of a signature.
ghost use Rattle.std.specs.{Prelude.{◌≡◌, ◌<◌, ◌++◌, [], codes, length, OnErr, OnOk}, Option.{option_map_or}};
ghost use Rattle.swreq_text.specs.Joined.{GrewByPart};
ghost use Rattle.swreq_machine.specs.swreq_world.{Lookups.{outer_name}, Worlds.{signature_at}};
ghost use Rattle.swreq_machine.specs.swreq_symbols.Texts.{world_of};
ghost use Rattle.swreq_query.specs.Signatures.{full_name};

use std::alloc::AllocError;
use swreq_machine::symbols::Text;
use swreq_machine::world::World;
use swreq_print::lowering::FuncId;
use swreq_text::append_bytes;

/// Writes `S.` for a function of a struct S, and otherwise nothing.
#[tactic(auto, using(swreq_text::proofs::Grown::none_grew, swreq_text::proofs::Grown::grew_next))]
fn put_outer(world: &World, f: FuncId, out: &mut Vec<u8>) -> Result<(), AllocError>
    requires { f.place < length world.now.signatures }
    ensures ok { OnOk result (out.new.items ≡ out.old.items
        ++ option_map_or (λ outer. outer ++ codes ".")
        (outer_name world.now (signature_at world.now f).outer) []) }
    ensures err { OnErr result (GrewByPart out.old.items
        (option_map_or (λ outer. outer ++ codes ".")
        (outer_name world.now (signature_at world.now f).outer) []) out.new.items) }
{
    match world.func_outer(f) {
        None => Ok(()),
        Some(outer) => {
            append_bytes(out, outer)?;
            append_bytes(out, b".")
        }
    }
}

/// Writes the name of the signature at the end: `f`, and `S.f` for a function f of a struct S. If memory runs out the first bytes of it
/// may stand there.
pub fn full_name(text: &Text<'_>, f: FuncId, out: &mut Vec<u8>) -> Result<(), AllocError>
    requires { f.place < length text.now.world.now.signatures }
    ensures ok { OnOk result (out.new.items
        ≡ out.old.items ++ full_name (world_of text.now) (signature_at (world_of text.now) f)) }
    ensures err { OnErr result (GrewByPart out.old.items
        (full_name (world_of text.now) (signature_at (world_of text.now) f)) out.new.items) }
{
    put_outer(text.world, f, out)?;
    append_bytes(out, text.world.func_name(f))
}

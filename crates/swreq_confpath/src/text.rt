//! The texts of conformance paths.
ghost use Rattle.std.specs.Prelude.{◌≡◌, ◌<◌, ◌++◌, List, OnErr, OnOk, length};
ghost use Rattle.swreq_machine.specs.swreq_param.Terms.{Term};
ghost use Rattle.swreq_machine.specs.swreq_derive.Facts.{requirement_of};
ghost use Rattle.swreq_machine.specs.swreq_lexicon.Views.{IsProtocol};
ghost use Rattle.swreq_print.specs.Signatures.{requirement_text, self_text};
ghost use Rattle.swreq_machine.specs.swreq_lowering.ByTable.{HasIdsOf};
ghost use Rattle.swreq_machine.specs.swreq_symbols.Texts.{world_of};
ghost use Rattle.swreq_machine.specs.swreq_world.{FactsAt.{facts_of, written_list}, Worlds.{signature_at}};
ghost use Rattle.swreq_confpath.specs.Numbers.{AreNumbers, AreNumbersBehind, in_brackets, path_text, protocol_named, steps_text};

use crate::path::ConfPath;
use std::alloc::{AllocError, Global};
use swreq_machine::derive::Requirement;
use swreq_machine::param::{ParamTable, ProtoId};
use swreq_machine::symbols::Text;
use swreq_print::lexicon::Lexicon;
use swreq_print::lowering::FuncId;
use swreq_print::{requirement_text, self_text};
use swreq_text::append_bytes;

/// The protocol that a conformance names.
fn protocol_named(r: Requirement) -> ProtoId
    ensures { (terms : List Term) → result ≡ protocol_named (requirement_of terms r) }
{
    match r {
        Requirement::Conf { proto, .. } => proto,
        _ => ProtoId { rank: 0 },
    }
}

// A requirement of a signature, in brackets.
fn put_first(
    alloc: Global,
    names: &Lexicon,
    table: &ParamTable,
    r: Requirement,
    out: &mut Vec<u8>,
) -> Result<(), AllocError>
    requires { HasIdsOf table.now r }
    ensures { OnOk result (out.new.items
        ≡ out.old.items ++ in_brackets (requirement_text names.now (requirement_of table.now r))) }
{
    append_bytes(out, b"[")?;
    requirement_text(alloc, names, table, &r, out)?;
    append_bytes(out, b"]")
}

// A requirement of a protocol, in brackets.
fn put_step(
    alloc: Global,
    names: &Lexicon,
    table: &ParamTable,
    r: Requirement,
    out: &mut Vec<u8>,
) -> Result<(), AllocError>
    requires { HasIdsOf table.now r }
    ensures { OnOk result (out.new.items
        ≡ out.old.items ++ in_brackets (self_text names.now (requirement_of table.now r))) }
{
    append_bytes(out, b"[")?;
    self_text(alloc, names, table, &r, out)?;
    append_bytes(out, b"]")
}

// The conformances that follow one that names a protocol.
fn put_steps(
    alloc: Global,
    text: &Text<'_>,
    proto: ProtoId,
    steps: &[u32],
    out: &mut Vec<u8>,
) -> Result<(), AllocError>
    requires proto { IsProtocol text.now.world.now.lexicon proto }
    requires steps { AreNumbersBehind (facts_of (world_of text.now)) proto steps.now }
    ensures { OnOk result (out.new.items ≡ out.old.items
        ++ steps_text text.now.world.now.lexicon (facts_of (world_of text.now)) proto steps.now) }
{
    let mut at = proto;
    for k in 0..steps.len() {
        let number = steps[k];
        let requirement = text.world.bare_requirements(at)[number as usize - 1];
        put_step(alloc, text.world.lexicon(), text.table, requirement, out)?;
        at = protocol_named(requirement);
    }
    Ok(())
}

/// Appends the conformances of a path, each in brackets: the first as the signature requires it, the others with `Self` for their
/// generic parameter. If memory runs out, `out` is as before.
///
/// The numbers are those of conformances: the first in the list of the signature, and each later one in that of the protocol that the
/// one before it names.
pub fn path_text(
    alloc: Global,
    text: &Text<'_>,
    f: FuncId,
    path: &ConfPath,
    out: &mut Vec<u8>,
) -> Result<(), AllocError>
    requires f { f.place < length text.now.world.now.signatures }
    requires numbers { AreNumbers (facts_of (world_of text.now))
        (written_list (signature_at (world_of text.now) f))
        path.now.first path.now.steps }
    ensures ok { OnOk result (out.new.items ≡ out.old.items
        ++ path_text text.now.world.now.lexicon (facts_of (world_of text.now))
        (written_list (signature_at (world_of text.now) f))
        path.now.first path.now.steps) }
    ensures err { OnErr result (out.new.items ≡ out.old.items) }
{
    let list = text.world.bare_signature(alloc, f)?;
    let first = list[path.first as usize - 1];
    let mut whole = Vec::new(alloc);
    put_first(alloc, text.world.lexicon(), text.table, first, &mut whole)?;
    put_steps(
        alloc,
        text,
        protocol_named(first),
        path.steps.items(),
        &mut whole,
    )?;
    append_bytes(out, &whole)
}

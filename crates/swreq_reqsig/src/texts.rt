//! The texts of requirement signatures.
ghost use Rattle.std.specs.{Prelude.{◌≡◌, ◌<◌, ◌-◌, ◌++◌, IfOk, OnErr, OnOk, drop, length, map, take}, List.{All}};
ghost use Rattle.swreq_valid.specs.swreq_derive.Facts.{requirement_of};
ghost use Rattle.swreq_valid.specs.swreq_lowering.ByTable.{HasIdsOf};
ghost use Rattle.swreq_print.specs.{Names.{protocol_name}, Signatures.{self_text}};
ghost use Rattle.swreq_valid.specs.swreq_symbols.Texts.{world_of};
ghost use Rattle.swreq_reqsig.specs.{Families.{numbered}, Texts.{family_text, kept_of, protocol_line, where_text}};

use crate::family::Family;
use std::alloc::{AllocError, Global};
use swreq_print::lexicon::Lexicon;
use swreq_print::self_text;
use swreq_text::{Print, append_bytes, put_joined};
use swreq_valid::derive::Requirement;
use swreq_valid::param::{ParamTable, ProtoId};
use swreq_valid::symbols::Text;

/// What prints requirements of protocols over a table, with these names.
#[derive(Drop)]
struct OfSelf<'a> {
    alloc: Global,
    names: &'a Lexicon,
    table: &'a ParamTable,
}

impl Print<Requirement> for OfSelf<'_> {
    ghost text = { λ s r. self_text s.names.now (requirement_of s.table.now r) };

    ghost fits = { λ s r. HasIdsOf s.table.now r };

    #[tactic(auto, using(swreq_text::proofs::Grown::none_grew))]
    fn put(&self, out: &mut Vec<u8>, item: &Requirement) -> Result<(), AllocError> {
        self_text(self.alloc, self.names, self.table, item, out)
    }
}

/// Puts the requirement with this number, from 1, last, where there is one.
fn add_numbered(list: &[Requirement], n: u32, v: &mut Vec<Requirement>) -> Result<(), AllocError>
    ensures { OnOk result (v.new.items ≡ v.old.items ++ take 1 (drop (n - 1) list.now)) }
{
    let place = n.saturating_sub(1) as usize;
    if place < list.len() {
        let requirement = list[place];
        v.push(requirement)?;
    }
    Ok(())
}

/// The requirements with these numbers.
fn numbered(
    alloc: Global,
    list: &[Requirement],
    numbers: &[u32],
) -> Result<Vec<Requirement>, AllocError>
    ensures { IfOk result (λ v. v.items ≡ numbered list.now numbers.now) }
{
    let mut v = Vec::new(alloc);
    for k in 0..numbers.len() {
        add_numbered(list, numbers[k], &mut v)?;
    }
    Ok(v)
}

/// ` where ` and the requirements, where there are any.
fn put_where(
    alloc: Global,
    names: &Lexicon,
    table: &ParamTable,
    list: &[Requirement],
    out: &mut Vec<u8>,
) -> Result<(), AllocError>
    requires { All (HasIdsOf table.now) list.now }
    ensures { OnOk result (out.new.items
        ≡ out.old.items ++ where_text names.now (map (requirement_of table.now) list.now)) }
{
    match list {
        [] => Ok(()),
        [_, ..] => {
            append_bytes(out, b" where ")?;
            put_joined(
                out,
                &OfSelf {
                    alloc,
                    names,
                    table,
                },
                b", ",
                list,
            )
        }
    }
}

/// The name of a protocol.
fn put_name(names: &Lexicon, p: ProtoId, out: &mut Vec<u8>) -> Result<(), AllocError>
    ensures { OnOk result (out.new.items ≡ out.old.items ++ protocol_name names.now p) }
{
    if p.rank < names.protocols() {
        append_bytes(out, names.proto_name(p))
    } else {
        Ok(())
    }
}

/// The line of a protocol that keeps these requirements.
fn put_line(
    alloc: Global,
    names: &Lexicon,
    table: &ParamTable,
    p: ProtoId,
    list: &[Requirement],
    out: &mut Vec<u8>,
) -> Result<(), AllocError>
    requires { All (HasIdsOf table.now) list.now }
    ensures { OnOk result (out.new.items
        ≡ out.old.items ++ protocol_line names.now p (map (requirement_of table.now) list.now)) }
{
    put_name(names, p, out)?;
    append_bytes(out, b": <Self")?;
    put_where(alloc, names, table, list, out)?;
    append_bytes(out, b">\n")
}

/// The line of a protocol that keeps the requirements with these numbers.
fn put_numbered(
    alloc: Global,
    text: &Text<'_>,
    p: ProtoId,
    numbers: &[u32],
    out: &mut Vec<u8>,
) -> Result<(), AllocError>
    requires { p.rank < length text.now.world.now.lexicon.protocols }
    ensures { OnOk result (out.new.items
        ≡ out.old.items ++ protocol_line text.now.world.now.lexicon p
        (kept_of (world_of text.now) p numbers.now)) }
{
    let list = numbered(alloc, text.world.bare_requirements(p), numbers)?;
    put_line(alloc, text.world.lexicon(), text.table, p, &list, out)
}

/// A line for each protocol, in written order.
fn put_family(
    alloc: Global,
    text: &Text<'_>,
    family: &Family,
    out: &mut Vec<u8>,
) -> Result<(), AllocError>
    requires { length family.now.kept ≡ length text.now.world.now.lexicon.protocols }
    ensures { OnOk result (out.new.items
        ≡ out.old.items ++ family_text (world_of text.now) family.now.kept) }
{
    let lists = family.kept.items();
    for k in 0..text.world.protocols() {
        let p = text.world.proto_at(k);
        let numbers = &lists[k as usize];
        put_numbered(alloc, text, p, numbers.items(), out)?;
    }
    Ok(())
}

/// Appends a line for each protocol, in written order, with its requirement signature: its name, `: <Self`, then ` where ` and the
/// requirements that it keeps where there are any, with `Self` for the generic parameter, and `>`. If memory runs out, `out` is unchanged.
pub fn family_text(
    alloc: Global,
    text: &Text<'_>,
    family: &Family,
    out: &mut Vec<u8>,
) -> Result<(), AllocError>
    requires { length family.now.kept ≡ length text.now.world.now.lexicon.protocols }
    ensures ok { OnOk result (out.new.items
        ≡ out.old.items ++ family_text (world_of text.now) family.now.kept) }
    ensures err { OnErr result (out.new.items ≡ out.old.items) }
{
    let mut lines = Vec::new(alloc);
    put_family(alloc, text, family, &mut lines)?;
    append_bytes(out, &lines)
}

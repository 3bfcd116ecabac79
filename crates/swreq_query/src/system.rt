//! The reduced rewriting system of a signature.
ghost use Rattle.std.specs.{Prelude.{◌≡◌, ◌⊎◌, ◌<◌, ◌++◌, List, ℕ, codes, decimal, length, OnErr, OnOk}, List.{flat_map}};
ghost use Rattle.swreq_text.specs.Joined.{GrewByPart};
ghost use Rattle.swreq_machine.specs.swreq_symbols.Texts.{world_of};
ghost use Rattle.swreq_machine.specs.swreq_world.Worlds.{signature_at};
ghost use Rattle.swreq_query.specs.{Signatures.{IsMachineOfSignature, full_name}, Systems.{IsSystemText, rule_line, system_text}};

use crate::names::full_name;
use std::alloc::{AllocError, Global};
use swreq_machine::Machine;
use swreq_machine::rule::Rule;
use swreq_machine::symbols::Text;
use swreq_print::lexicon::Lexicon;
use swreq_print::lowering::FuncId;
use swreq_print::rule_text;
use swreq_text::{append_bytes, append_number};

/// Writes the line above this many rules of a signature.
#[tactic(auto, using(swreq_text::proofs::Grown::none_grew, swreq_text::proofs::Grown::grew_first, swreq_text::proofs::Grown::grew_next))]
fn put_head(text: &Text<'_>, f: FuncId, rules: usize, out: &mut Vec<u8>) -> Result<(), AllocError>
    requires { f.place < length text.now.world.now.signatures }
    ensures ok { OnOk result (out.new.items ≡ out.old.items
        ++ (full_name (world_of text.now) (signature_at (world_of text.now) f)
        ++ (codes ": " ++ (decimal rules ++ codes " rules\n")))) }
    ensures err { OnErr result (GrewByPart out.old.items
        (full_name (world_of text.now) (signature_at (world_of text.now) f)
        ++ (codes ": " ++ (decimal rules ++ codes " rules\n"))) out.new.items) }
{
    full_name(text, f, out)?;
    append_bytes(out, b": ")?;
    append_number(out, rules as u64)?;
    append_bytes(out, b" rules\n")
}

/// Writes a rule as a line, after two spaces.
#[tactic(auto, using(swreq_text::proofs::Grown::none_grew, swreq_text::proofs::Grown::grew_next))]
fn put_rule(
    alloc: Global,
    names: &Lexicon,
    rule: &Rule,
    out: &mut Vec<u8>,
) -> Result<(), AllocError>
    ensures ok { OnOk result (out.new.items ≡ out.old.items ++ rule_line names.now rule.now) }
    ensures err { OnErr result
        (GrewByPart out.old.items (rule_line names.now rule.now) out.new.items) }
{
    append_bytes(out, b"  ")?;
    rule_text(alloc, names, rule, out)?;
    append_bytes(out, b"\n")
}

/// Writes each of the rules as a line.
fn put_rules(
    alloc: Global,
    names: &Lexicon,
    rules: &[Rule],
    out: &mut Vec<u8>,
) -> Result<(), AllocError>
    ensures ok { OnOk result
        (out.new.items ≡ out.old.items ++ flat_map (rule_line names.now) rules.now) }
    ensures err { OnErr result
        (GrewByPart out.old.items (flat_map (rule_line names.now) rules.now) out.new.items) }
{
    for k in 0..rules.len() {
        let rule = &rules[k];
        put_rule(alloc, names, rule, out)?;
    }
    Ok(())
}

/// Writes the line above the rules, and the rules.
fn put_system(
    alloc: Global,
    text: &Text<'_>,
    f: FuncId,
    rules: &[Rule],
    out: &mut Vec<u8>,
) -> Result<(), AllocError>
    requires { f.place < length text.now.world.now.signatures }
    ensures ok { OnOk result (out.new.items ≡ out.old.items
        ++ system_text (world_of text.now) (signature_at (world_of text.now) f) rules.now) }
    ensures err { OnErr result (GrewByPart out.old.items
        (system_text (world_of text.now) (signature_at (world_of text.now) f) rules.now)
        out.new.items) }
{
    put_head(text, f, rules.len(), out)?;
    put_rules(alloc, text.world.lexicon(), rules, out)
}

/// Writes the reduced rewriting system of a signature at the end, by its machine: a line with its name and the number of rules, and then
/// each rule, after two spaces, by left sides. If memory runs out the first bytes of it may stand there.
pub fn system_text(
    alloc: Global,
    text: &Text<'_>,
    machine: &Machine,
    f: FuncId,
    out: &mut Vec<u8>,
) -> Result<(), AllocError>
    requires { IsMachineOfSignature text.now.table.now text.now.world.now f machine.now }
    ensures ok { OnOk result ((printed : List ℕ)
        × IsSystemText (world_of text.now) (signature_at (world_of text.now) f) printed
        × (out.new.items ≡ out.old.items ++ printed)) }
    ensures err { OnErr result ((out.new.items ≡ out.old.items) ⊎ ((printed : List ℕ)
        × IsSystemText (world_of text.now) (signature_at (world_of text.now) f) printed
        × GrewByPart out.old.items printed out.new.items)) }
{
    let rules = machine.rules().canonical(alloc)?;
    put_system(alloc, text, f, &rules, out)
}

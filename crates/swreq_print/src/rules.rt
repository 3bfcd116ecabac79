//! Rules, and the traces of completions.

ghost use Rattle.std.specs.Prelude.{◌≡◌, ◌++◌, ⊤, OnErr, OnOk};
ghost use Rattle.swreq_text.specs.Joined.{GrewByPart};
ghost use Rattle.swreq_rule.specs.swreq_word.declared.symbols.Symbol.TheVariants.{Proto};
ghost use Rattle.swreq_print.specs.Rules.{birth_text, member_text, rule_text, symbol_text, trace_line, trace_text, word_text};

use crate::naming::{name_text, protocol_name, symbol_at};
use crate::types::put_param;
use std::alloc::{AllocError, Global};
use swreq_lexicon::param::{NameId, ParamId, ProtoId};
use swreq_lexicon::{Lexicon, ProtocolName};
use swreq_rule::word::Symbol;
use swreq_rule::{Birth, Rule};
use swreq_text::{Print, append_bytes, append_number, put_joined};

// `[P]`
#[tactic(auto, using(swreq_text::proofs::Grown::none_grew, swreq_text::proofs::Grown::grew_next))]
fn put_protocol(names: &Lexicon, proto: ProtoId, out: &mut Vec<u8>) -> Result<(), AllocError>
    ensures ok { OnOk result
        (out.new.items ≡ out.old.items ++ symbol_text names.now (Proto proto.rank)) }
    ensures err { OnErr result
        (GrewByPart out.old.items (symbol_text names.now (Proto proto.rank)) out.new.items) }
{
    append_bytes(out, b"[")?;
    append_bytes(out, protocol_name(names, proto))?;
    append_bytes(out, b"]")
}

// `[P:A]`
#[tactic(auto, using(swreq_text::proofs::Grown::none_grew, swreq_text::proofs::Grown::grew_next))]
fn put_member(names: &Lexicon, pair: ProtocolName, out: &mut Vec<u8>) -> Result<(), AllocError>
    ensures ok { OnOk result (out.new.items ≡ out.old.items ++ member_text names.now pair) }
    ensures err { OnErr result
        (GrewByPart out.old.items (member_text names.now pair) out.new.items) }
{
    append_bytes(out, b"[")?;
    append_bytes(out, protocol_name(names, pair.proto))?;
    append_bytes(out, b":")?;
    append_bytes(out, name_text(names, pair.name))?;
    append_bytes(out, b"]")
}

#[tactic(auto, using(swreq_text::proofs::Grown::none_grew, swreq_text::proofs::Grown::grew_next))]
fn put_symbol(names: &Lexicon, symbol: Symbol, out: &mut Vec<u8>) -> Result<(), AllocError>
    ensures ok { OnOk result (out.new.items ≡ out.old.items ++ symbol_text names.now symbol) }
    ensures err { OnErr result
        (GrewByPart out.old.items (symbol_text names.now symbol) out.new.items) }
{
    match symbol {
        Symbol::Proto(rank) => put_protocol(names, ProtoId { rank }, out),
        Symbol::Member(m) => put_member(names, symbol_at(names, m), out),
        Symbol::Param(depth, index) => put_param(ParamId { depth, index }, out),
        Symbol::Name(rank) => append_bytes(out, name_text(names, NameId { rank })),
        Symbol::Layout => append_bytes(out, b"[layout: AnyObject]"),
    }
}

/// What prints symbols with these names.
#[derive(Drop)]
struct Symbols<'a> {
    names: &'a Lexicon,
}

impl Print<Symbol> for Symbols<'_> {
    ghost text = { λ s symbol. symbol_text s.names.now symbol };

    ghost fits = { λ _ _. ⊤ };

    fn put(&self, out: &mut Vec<u8>, item: &Symbol) -> Result<(), AllocError> {
        put_symbol(self.names, *item, out)
    }
}

fn put_word(names: &Lexicon, w: &[Symbol], out: &mut Vec<u8>) -> Result<(), AllocError>
    ensures { OnOk result (out.new.items ≡ out.old.items ++ word_text names.now w.now) }
{
    put_joined(out, &Symbols { names }, b".", w)
}

fn put_rule(names: &Lexicon, r: &Rule, out: &mut Vec<u8>) -> Result<(), AllocError>
    ensures { OnOk result (out.new.items ≡ out.old.items ++ rule_text names.now r.now) }
{
    put_word(names, r.left.symbols(), out)?;
    append_bytes(out, b" => ")?;
    put_word(names, r.right.symbols(), out)
}

fn put_birth(birth: Birth, out: &mut Vec<u8>) -> Result<(), AllocError>
    ensures { OnOk result (out.new.items ≡ out.old.items ++ birth_text birth) }
{
    match birth {
        Birth::Given(n) => {
            append_bytes(out, b"given ")?;
            append_number(out, n as u64)
        }
        Birth::Pair(i, j, at) => {
            append_bytes(out, b"pair ")?;
            append_number(out, i as u64)?;
            append_bytes(out, b" ")?;
            append_number(out, j as u64)?;
            append_bytes(out, b" ")?;
            append_number(out, at as u64)
        }
    }
}

// The line of the rule with this number.
fn put_trace_line(
    names: &Lexicon,
    number: usize,
    r: &Rule,
    out: &mut Vec<u8>,
) -> Result<(), AllocError>
    ensures { OnOk result (out.new.items ≡ out.old.items ++ trace_line names.now number r.now) }
{
    append_bytes(out, b"  ")?;
    append_number(out, number as u64)?;
    append_bytes(out, b": ")?;
    put_rule(names, r, out)?;
    append_bytes(out, b" (")?;
    put_birth(r.birth, out)?;
    append_bytes(out, b")\n")
}

fn put_trace(names: &Lexicon, trace: &[Rule], out: &mut Vec<u8>) -> Result<(), AllocError>
    ensures { OnOk result (out.new.items ≡ out.old.items ++ trace_text names.now trace.now) }
{
    for k in 0..trace.len() {
        let rule = &trace[k];
        put_trace_line(names, k + 1, rule, out)?;
    }
    Ok(())
}

/// Appends a rule, as `τ_0_0.Next => τ_0_0.[N:Next]`: the symbols of its left side and of its right side, with a dot between
/// each two.
pub fn rule_text(
    alloc: Global,
    names: &Lexicon,
    r: &Rule,
    out: &mut Vec<u8>,
) -> Result<(), AllocError>
    ensures ok { OnOk result (out.new.items ≡ out.old.items ++ rule_text names.now r.now) }
    ensures err { OnErr result (out.new.items ≡ out.old.items) }
{
    let mut text = Vec::new(alloc);
    put_rule(names, r, &mut text)?;
    append_bytes(out, &text)
}

/// Appends a line for each rule of a trace, with its number, counted from 1, and its birth, as `  4: [N].[N:Next] => [N:Next] (pair 1 2 1)`.
pub fn trace_text(
    alloc: Global,
    names: &Lexicon,
    trace: &[Rule],
    out: &mut Vec<u8>,
) -> Result<(), AllocError>
    ensures ok { OnOk result (out.new.items ≡ out.old.items ++ trace_text names.now trace.now) }
    ensures err { OnErr result (out.new.items ≡ out.old.items) }
{
    let mut text = Vec::new(alloc);
    put_trace(names, trace, &mut text)?;
    append_bytes(out, &text)
}

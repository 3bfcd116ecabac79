//! The texts of lines.

ghost use Rattle.std.specs.Prelude.{◌≡◌, ◌++◌, ⊤, Contains, IfSome, OnErr, OnOk, codes, decimal, map};
ghost use Rattle.swreq_print.specs.swreq_derive.{declared.lines.Line.{Line}, Facts.{statement_of}, Lines.{line_of}};
ghost use Rattle.swreq_print.specs.swreq_lexicon.Views.{IsName, IsProtocol};
ghost use Rattle.swreq_print.specs.Names.{name_text, protocol_name};
ghost use Rattle.swreq_lines.specs.LineTexts.{HasLineIds, HasRuleIds, HasStatementIds, field_text, fields_of, line_text, lines_text, premises_text, rule_text, statement_text};

use crate::rules::{fields_of, rule_name};
use std::alloc::{AllocError, Global};
use swreq_print::derive::{DerivRule, Line, Statement};
use swreq_print::lexicon::Lexicon;
use swreq_print::param::{NameId, ParamTable, ProtoId};
use swreq_print::{requirement_text, type_text};
use swreq_text::{Print, append_bytes, append_number, put_joined};

fn put_statement(
    alloc: Global,
    names: &Lexicon,
    table: &ParamTable,
    st: &Statement,
    out: &mut Vec<u8>,
) -> Result<(), AllocError>
    requires { HasStatementIds table.now st.now }
    ensures { OnOk result (out.new.items
        ≡ out.old.items ++ statement_text names.now (statement_of table.now st.now)) }
{
    match st {
        Statement::Valid { t } => type_text(alloc, names, table, *t, out),
        Statement::Holds { r } => requirement_text(alloc, names, table, r, out),
    }
}

// A space and a word.
fn put_spaced(word: &[u8], out: &mut Vec<u8>) -> Result<(), AllocError>
    ensures { OnOk result (out.new.items ≡ out.old.items ++ (codes " " ++ word.now)) }
{
    append_bytes(out, b" ")?;
    append_bytes(out, word)
}

// A space and the name of a protocol, where there is one.
fn put_protocol(
    names: &Lexicon,
    protocol: Option<ProtoId>,
    out: &mut Vec<u8>,
) -> Result<(), AllocError>
    requires { IfSome protocol (IsProtocol names.now) }
    ensures { OnOk result
        (out.new.items ≡ out.old.items ++ field_text (protocol_name names.now) protocol) }
{
    match protocol {
        Some(p) => put_spaced(names.proto_name(p), out),
        None => Ok(()),
    }
}

// A space and a name, where there is one.
fn put_name(names: &Lexicon, name: Option<NameId>, out: &mut Vec<u8>) -> Result<(), AllocError>
    requires { IfSome name (IsName names.now) }
    ensures { OnOk result (out.new.items ≡ out.old.items ++ field_text (name_text names.now) name) }
{
    match name {
        Some(a) => put_spaced(names.name(a), out),
        None => Ok(()),
    }
}

// A space and a number, where there is one.
fn put_number(number: Option<u32>, out: &mut Vec<u8>) -> Result<(), AllocError>
    ensures { OnOk result (out.new.items ≡ out.old.items ++ field_text decimal number) }
{
    match number {
        Some(n) => {
            append_bytes(out, b" ")?;
            append_number(out, n as u64)
        }
        None => Ok(()),
    }
}

fn put_rule(names: &Lexicon, rule: DerivRule, out: &mut Vec<u8>) -> Result<(), AllocError>
    requires { HasRuleIds names.now (fields_of rule) }
    ensures { OnOk result (out.new.items ≡ out.old.items ++ rule_text names.now rule) }
{
    let fields = fields_of(rule);
    append_bytes(out, rule_name(rule))?;
    put_protocol(names, fields.protocol, out)?;
    put_name(names, fields.name, out)?;
    put_number(fields.number, out)
}

/// Prints a number in decimal.
#[derive(Drop)]
struct Numbers;

impl Print<usize> for Numbers {
    ghost text = { λ _ n. decimal n };

    ghost fits = { λ _ _. ⊤ };

    #[tactic(auto, using(swreq_text::proofs::Grown::none_grew))]
    fn put(&self, out: &mut Vec<u8>, item: &usize) -> Result<(), AllocError> {
        append_number(out, *item as u64)
    }
}

// ` from ` and the numbers, where there are any.
fn put_premises(premises: &[usize], out: &mut Vec<u8>) -> Result<(), AllocError>
    ensures { OnOk result (out.new.items ≡ out.old.items ++ premises_text premises.now) }
{
    match premises {
        [] => Ok(()),
        [_, ..] => {
            append_bytes(out, b" from ")?;
            put_joined(out, &Numbers, b", ", premises)
        }
    }
}

/// Writes the line with this number at the end, without a line feed.
pub(crate) fn put_line(
    alloc: Global,
    names: &Lexicon,
    table: &ParamTable,
    n: usize,
    line: &Line,
    out: &mut Vec<u8>,
) -> Result<(), AllocError>
    requires { HasLineIds names.now table.now line.now }
    ensures { OnOk result
        (out.new.items ≡ out.old.items ++ line_text names.now n (line_of table.now line.now)) }
{
    append_bytes(out, b"  ")?;
    append_number(out, n as u64)?;
    append_bytes(out, b". ")?;
    put_statement(alloc, names, table, &line.statement, out)?;
    append_bytes(out, b" by ")?;
    put_rule(names, line.rule, out)?;
    put_premises(line.premises.items(), out)
}

fn put_lines(
    alloc: Global,
    names: &Lexicon,
    table: &ParamTable,
    lines: &[Line],
    out: &mut Vec<u8>,
) -> Result<(), AllocError>
    requires { (l : Line) → Contains lines.now l → HasLineIds names.now table.now l }
    ensures { OnOk result (out.new.items
        ≡ out.old.items ++ lines_text names.now (map (line_of table.now) lines.now)) }
{
    for k in 0..lines.len() {
        let line = &lines[k];
        put_line(alloc, names, table, k + 1, line, out)?;
        append_bytes(out, b"\n")?;
    }
    Ok(())
}

/// Appends the text of the lines of a derivation, numbered from 1. A line is two spaces, its number, a dot, its statement, ` by ` and
/// its rule, and where it has premises ` from ` and their numbers. A rule is its name in capitals with its protocol, name and number.
pub fn lines_text(
    alloc: Global,
    names: &Lexicon,
    table: &ParamTable,
    lines: &[Line],
    out: &mut Vec<u8>,
) -> Result<(), AllocError>
    requires { (l : Line) → Contains lines.now l → HasLineIds names.now table.now l }
    ensures ok { OnOk result (out.new.items
        ≡ out.old.items ++ lines_text names.now (map (line_of table.now) lines.now)) }
    ensures err { OnErr result (out.new.items ≡ out.old.items) }
{
    let mut text = Vec::new(alloc);
    put_lines(alloc, names, table, lines, &mut text)?;
    append_bytes(out, &text)
}

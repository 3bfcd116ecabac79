//! Rules: their names and fields, and reading them.

ghost use Rattle.std.specs.Prelude.{◌≡◌, ◌++◌};
ghost use Rattle.swreq_print.specs.swreq_derive.declared.lines.DerivRule.{DerivRule};
ghost use Rattle.swreq_print.specs.Names.{Text};
ghost use Rattle.swreq_lines.specs.{GoodLines.{HasReadableFields}, LineTexts.{fields_of, rule_name, rule_text}, Pieces.{Ends, behind}, Written.{behind_fields, rule_named, rules_with}};

use crate::named::{name_named, protocol_named};
use crate::numbers::read_number;
use crate::pieces::next_word;
use crate::reader::Reader;
use swreq_print::derive::DerivRule;
use swreq_print::param::{NameId, ProtoId};

/// The protocol, the name and the number of a rule, where it has them.
#[derive(Clone, Copy)]
pub(crate) struct Fields {
    pub protocol: Option<ProtoId>,
    pub name: Option<NameId>,
    pub number: Option<u32>,
}

/// The name of a rule, in capitals.
pub(crate) fn rule_name(rule: DerivRule) -> &'static [u8]
    ensures { result.now ≡ rule_name rule }
{
    match rule {
        DerivRule::Generic => b"GENERIC",
        DerivRule::Conf { .. } => b"CONF",
        DerivRule::Same { .. } => b"SAME",
        DerivRule::Layout { .. } => b"LAYOUT",
        DerivRule::AssocName { .. } => b"ASSOCNAME",
        DerivRule::AssocDecl { .. } => b"ASSOCDECL",
        DerivRule::AssocBind { .. } => b"ASSOCBIND",
        DerivRule::AssocConf { .. } => b"ASSOCCONF",
        DerivRule::AssocSame { .. } => b"ASSOCSAME",
        DerivRule::AssocLayout { .. } => b"ASSOCLAYOUT",
        DerivRule::Reflex => b"REFLEX",
        DerivRule::Symm => b"SYMM",
        DerivRule::Trans => b"TRANS",
        DerivRule::SameConf { .. } => b"SAMECONF",
        DerivRule::SameLayout => b"SAMELAYOUT",
        DerivRule::SameName { .. } => b"SAMENAME",
        DerivRule::SameDecl { .. } => b"SAMEDECL",
    }
}

/// The protocol, the name and the number of a rule.
pub(crate) fn fields_of(rule: DerivRule) -> Fields
    ensures { result ≡ fields_of rule }
{
    match rule {
        DerivRule::Generic
        | DerivRule::Reflex
        | DerivRule::Symm
        | DerivRule::Trans
        | DerivRule::SameLayout => with(None, None, None),
        DerivRule::Conf { n } | DerivRule::Same { n } | DerivRule::Layout { n } => {
            with(None, None, Some(n))
        }
        DerivRule::SameConf { p } => with(Some(p), None, None),
        DerivRule::AssocName { p, a }
        | DerivRule::AssocDecl { p, a }
        | DerivRule::AssocBind { p, a }
        | DerivRule::SameName { p, a }
        | DerivRule::SameDecl { p, a } => with(Some(p), Some(a), None),
        DerivRule::AssocConf { p, n }
        | DerivRule::AssocSame { p, n }
        | DerivRule::AssocLayout { p, n } => with(Some(p), None, Some(n)),
    }
}

fn with(protocol: Option<ProtoId>, name: Option<NameId>, number: Option<u32>) -> Fields
    ensures { result ≡ record { protocol = protocol; name = name; number = number } }
{
    Fields {
        protocol,
        name,
        number,
    }
}

/// Each rule, with these fields where it has them. The number is the first field of some rules, and the second of others.
fn rules_with(p: ProtoId, a: NameId, first: u32, second: u32) -> [DerivRule; 17]
    ensures { result ≡ rules_with p a first second }
{
    [
        DerivRule::Generic,
        DerivRule::Conf { n: first },
        DerivRule::Same { n: first },
        DerivRule::Layout { n: first },
        DerivRule::AssocName { p, a },
        DerivRule::AssocDecl { p, a },
        DerivRule::AssocBind { p, a },
        DerivRule::AssocConf { p, n: second },
        DerivRule::AssocSame { p, n: second },
        DerivRule::AssocLayout { p, n: second },
        DerivRule::Reflex,
        DerivRule::Symm,
        DerivRule::Trans,
        DerivRule::SameConf { p },
        DerivRule::SameLayout,
        DerivRule::SameName { p, a },
        DerivRule::SameDecl { p, a },
    ]
}

/// The first of these rules that has this name, or GENERIC.
fn named(rules: &[DerivRule], name: &[u8]) -> DerivRule
    ensures { result ≡ rule_named rules.now name.now }
{
    for k in 0..rules.len() {
        let rule = rules[k];
        if rule_name(rule) == name {
            return rule;
        }
    }
    DerivRule::Generic
}

/// A rule, and the text after it.
#[derive(Clone, Copy)]
pub(crate) struct ReadRule<'a> {
    pub rule: DerivRule,
    pub rest: &'a [u8],
}

/// Of the texts after no, one and two words, the one after these fields.
fn behind_fields<'a>(fields: Fields, none: &'a [u8], one: &'a [u8], two: &'a [u8]) -> &'a [u8]
    ensures { result.now ≡ behind_fields fields none.now one.now two.now }
{
    match (fields.protocol, fields.name, fields.number) {
        (None, None, None) => none,
        (None, None, Some(_)) | (Some(_), None, None) => one,
        _ => two,
    }
}

/// The rule with which a text begins, and the text after the space that ends it.
pub(crate) fn read_rule<'a>(reader: &Reader, text: &'a [u8]) -> ReadRule<'a>
    ensures { (r : DerivRule) (tail : Text) → HasReadableFields reader.now.names.now (fields_of r)
        → Ends 32 tail → text.now ≡ rule_text reader.now.names.now r ++ tail
        → (result.rule ≡ r) × (result.rest.now ≡ behind tail) }
{
    let name = next_word(text);
    let first = next_word(name.rest);
    let second = next_word(first.rest);
    let rules = rules_with(
        protocol_named(reader, first.piece),
        name_named(reader, second.piece),
        read_number(first.piece),
        read_number(second.piece),
    );
    let rule = named(&rules, name.piece);
    ReadRule {
        rule,
        rest: behind_fields(fields_of(rule), name.rest, first.rest, second.rest),
    }
}

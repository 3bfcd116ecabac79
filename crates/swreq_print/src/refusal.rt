//! Why nothing is answered, and the line that says so.

ghost use Rattle.std.specs.Prelude.{◌≡◌, ◌++◌, codes, decimal, OnErr, OnOk};
ghost use Rattle.swreq_print.specs.Refusals.{kind_text, placed_line, refusal_line};

use std::alloc::{AllocError, Global};
use swreq_lexicon::decl::Kind;
use swreq_text::{append_bytes, append_number};

/// The line of a text that is too long.
pub const TOO_LARGE: &[u8] = b"error: text longer than 1048576 bytes\n";

/// The line of a read that failed.
pub const READ_FAULT: &[u8] = b"error: read fault\n";

/// The line where there was no memory.
pub const OUT_OF_MEMORY: &[u8] = b"error: out of memory\n";

/// The line for wrong words.
pub const USAGE: &[u8] =
    b"usage: genreq (answer | signatures | rules | gen N | explain | verify | paths | calls | requirements) \
    [--max-rules N] [--max-length N] [--trace]\n";

/// Why an input, or a run, is not answered. `at` is an offset into the input, in bytes.
#[derive(Clone, Copy, Debug, PartialEq, Eq)]
pub enum RefusalKind {
    TooLarge,
    /// An input that is to have two parts has no line between them.
    MissingPart,
    NotUtf8 { at: u32 },
    BadCharacter { at: u32 },
    OpenComment { at: u32 },
    Syntax { at: u32 },
    Unsupported { at: u32, kind: Kind },
    Duplicate { at: u32 },
    NotAProtocol { at: u32 },
    ConcreteType { at: u32 },
    NoSuchMember { at: u32 },
    UnknownSignature { at: u32 },
    WrongArity { at: u32 },
    Cycle { at: u32 },
    /// This line of a second part, counted from 1, is the first that does not fit.
    DerivationSyntax { line: u32 },
    NotATypeParameter { at: u32 },
    /// A completion has more rules than this.
    LimitRules { max: u32 },
    /// A completion has a rule whose left side is longer than this, in symbols.
    LimitLength { max: u32 },
    ReadFault,
    OutOfMemory,
    Usage,
}

// `error: WHAT at N`
fn put_placed(what: &str, at: u32, out: &mut Vec<u8>) -> Result<(), AllocError>
    ensures { OnOk result (out.new.items ≡ out.old.items ++ placed_line what.now at) }
{
    append_bytes(out, b"error: ")?;
    append_bytes(out, what.as_bytes())?;
    append_bytes(out, b" at ")?;
    append_number(out, at as u64)?;
    append_bytes(out, b"\n")
}

// `error: unsupported KIND at N`
fn put_unsupported(kind: Kind, at: u32, out: &mut Vec<u8>) -> Result<(), AllocError>
    ensures { OnOk result
        (out.new.items ≡ out.old.items ++ placed_line (codes "unsupported " ++ kind_text kind) at) }
{
    append_bytes(out, b"error: unsupported ")?;
    append_bytes(out, kind_text(kind).as_bytes())?;
    append_bytes(out, b" at ")?;
    append_number(out, at as u64)?;
    append_bytes(out, b"\n")
}

// A number between two texts.
fn put_counted(before: &str, n: u32, behind: &str, out: &mut Vec<u8>) -> Result<(), AllocError>
    ensures { OnOk result
        (out.new.items ≡ out.old.items ++ (before.now ++ (decimal n ++ behind.now))) }
{
    append_bytes(out, before.as_bytes())?;
    append_number(out, n as u64)?;
    append_bytes(out, behind.as_bytes())
}

fn put_refusal(refusal: &RefusalKind, out: &mut Vec<u8>) -> Result<(), AllocError>
    ensures { OnOk result (out.new.items ≡ out.old.items ++ refusal_line refusal.now) }
{
    match refusal {
        RefusalKind::TooLarge => append_bytes(out, TOO_LARGE),
        RefusalKind::MissingPart => append_bytes(out, b"error: no second part\n"),
        RefusalKind::NotUtf8 { at } => put_placed("not UTF-8", *at, out),
        RefusalKind::BadCharacter { at } => put_placed("bad character", *at, out),
        RefusalKind::OpenComment { at } => put_placed("open comment", *at, out),
        RefusalKind::Syntax { at } => put_placed("syntax", *at, out),
        RefusalKind::Unsupported { at, kind } => put_unsupported(*kind, *at, out),
        RefusalKind::Duplicate { at } => put_placed("duplicate name", *at, out),
        RefusalKind::NotAProtocol { at } => put_placed("not a protocol", *at, out),
        RefusalKind::ConcreteType { at } => put_placed("concrete type", *at, out),
        RefusalKind::NoSuchMember { at } => put_placed("no such member", *at, out),
        RefusalKind::UnknownSignature { at } => put_placed("unknown signature", *at, out),
        RefusalKind::WrongArity { at } => put_placed("wrong number of arguments", *at, out),
        RefusalKind::Cycle { at } => put_placed("circular inheritance", *at, out),
        RefusalKind::DerivationSyntax { line } => {
            put_counted("error: derivation syntax at line ", *line, "\n", out)
        }
        RefusalKind::NotATypeParameter { at } => put_placed("not a type parameter", *at, out),
        RefusalKind::LimitRules { max } => put_counted("error: more than ", *max, " rules\n", out),
        RefusalKind::LimitLength { max } => {
            put_counted("error: rule longer than ", *max, " symbols\n", out)
        }
        RefusalKind::ReadFault => append_bytes(out, READ_FAULT),
        RefusalKind::OutOfMemory => append_bytes(out, OUT_OF_MEMORY),
        RefusalKind::Usage => append_bytes(out, USAGE),
    }
}

/// Appends the line that is printed for a refusal, with its line feed.
pub fn refusal_text(
    alloc: Global,
    refusal: &RefusalKind,
    out: &mut Vec<u8>,
) -> Result<(), AllocError>
    ensures ok { OnOk result (out.new.items ≡ out.old.items ++ refusal_line refusal.now) }
    ensures err { OnErr result (out.new.items ≡ out.old.items) }
{
    let mut text = Vec::new(alloc);
    put_refusal(refusal, &mut text)?;
    append_bytes(out, &text)
}

/// What is not supported, in words.
fn kind_text(kind: Kind) -> &'static str
    ensures { result.now ≡ kind_text kind }
{
    match kind {
        Kind::Parameters => "parameters",
        Kind::Body => "body",
        Kind::LongType => "long type",
        Kind::Class => "class",
        Kind::Struct => "struct",
        Kind::Enum => "enum",
        Kind::Actor => "actor",
        Kind::Extension => "extension",
        Kind::Typealias => "typealias",
        Kind::Import => "import",
        Kind::Member => "member",
        Kind::Existential => "existential",
        Kind::ParameterPack => "parameter pack",
        Kind::Metatype => "metatype",
        Kind::Effect => "effect",
        Kind::Attribute => "attribute",
        Kind::Backtick => "backtick",
        Kind::SuppressedRequirement => "suppressed requirement",
        Kind::Optional => "optional",
        Kind::Array => "array",
        Kind::Tuple => "tuple",
        Kind::Arrow => "arrow",
        Kind::DefaultValue => "default",
        Kind::GenericArguments => "generic arguments",
    }
}

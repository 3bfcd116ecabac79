// Why a text is not answered.
ghost use Rattle.std.specs.Prelude.{◌≡◌};
ghost use Rattle.swreq_reply.specs.Reports.{lexical_refusal, limit_refusal, name_refusal, refusal_of};

use swreq_print::RefusalKind;
use swreq_print::decl::ParseErr;
use swreq_valid::complete::{Limits, Which};
use swreq_valid::lex::LexErr;
use swreq_valid::resolve::NameErr;

/// The refusal of a text that could not be read.
pub(crate) fn refusal_of(e: ParseErr) -> RefusalKind
    ensures { result ≡ refusal_of e }
{
    match e {
        ParseErr::Lex { fault } => lexical_refusal(fault),
        ParseErr::Syntax { at } => RefusalKind::Syntax { at },
        ParseErr::Unsupported { at, kind } => RefusalKind::Unsupported { at, kind },
        ParseErr::Memory => RefusalKind::OutOfMemory,
    }
}

fn lexical_refusal(fault: LexErr) -> RefusalKind
    ensures { result ≡ lexical_refusal fault }
{
    match fault {
        LexErr::NotUtf8 { at } => RefusalKind::NotUtf8 { at },
        LexErr::BadCharacter { at } => RefusalKind::BadCharacter { at },
        LexErr::OpenComment { at } => RefusalKind::OpenComment { at },
        LexErr::Memory => RefusalKind::OutOfMemory,
    }
}

/// The refusal of a text whose names do not resolve, or in which a protocol inherits itself.
pub(crate) fn name_refusal(e: NameErr) -> RefusalKind
    ensures { result ≡ name_refusal e }
{
    match e {
        NameErr::Duplicate { at } => RefusalKind::Duplicate { at },
        NameErr::NotAProtocol { at } => RefusalKind::NotAProtocol { at },
        NameErr::ConcreteType { at } => RefusalKind::ConcreteType { at },
        NameErr::NoSuchMember { at } => RefusalKind::NoSuchMember { at },
        NameErr::UnknownSignature { at } => RefusalKind::UnknownSignature { at },
        NameErr::WrongArity { at } => RefusalKind::WrongArity { at },
        NameErr::Cycle { at } => RefusalKind::Cycle { at },
        NameErr::Memory => RefusalKind::OutOfMemory,
    }
}

/// The refusal of a text in whose rounds this limit is passed.
pub(crate) fn limit_refusal(limits: Limits, which: Which) -> RefusalKind
    ensures { result ≡ limit_refusal limits which }
{
    match which {
        Which::Rules => RefusalKind::LimitRules {
            max: limits.max_rules,
        },
        Which::Length => RefusalKind::LimitLength {
            max: limits.max_length,
        },
    }
}

//! What is refused as not supported.

ghost use Rattle.std.specs.Prelude.{◌≡◌};
ghost use Rattle.swreq_decl.specs.Kinds.{kind_by_token};

use crate::terminal::Terminal;

/// What a text outside the grammar has that is Swift, and not supported.
#[derive(Clone, Copy, Debug, PartialEq, Eq)]
pub enum Kind {
    /// A parameter of a function.
    Parameters,
    /// A body of a function.
    Body,
    /// A type with more than 1,000 steps.
    LongType,
    Class,
    Struct,
    Enum,
    Actor,
    Extension,
    Typealias,
    Import,
    /// A member other than an associated type.
    Member,
    /// `some P`, `any P` or `Any`.
    Existential,
    ParameterPack,
    /// `T.Type` or `P.Protocol`.
    Metatype,
    /// `async`, `throws` or `rethrows`.
    Effect,
    Attribute,
    /// A name in backticks.
    Backtick,
    /// `~P`
    SuppressedRequirement,
    Optional,
    Array,
    Tuple,
    /// `->`
    Arrow,
    /// `= ..`
    DefaultValue,
    GenericArguments,
}

/// The kind of a refused token by the token alone, or none where it is a syntax error.
pub fn kind_of(terminal: Terminal) -> Option<Kind>
    ensures { result ≡ kind_by_token terminal }
{
    match terminal {
        Terminal::Class => Some(Kind::Class),
        Terminal::Struct => Some(Kind::Struct),
        Terminal::Enum => Some(Kind::Enum),
        Terminal::Actor => Some(Kind::Actor),
        Terminal::Extension => Some(Kind::Extension),
        Terminal::Typealias => Some(Kind::Typealias),
        Terminal::Import => Some(Kind::Import),
        Terminal::Func
        | Terminal::Var
        | Terminal::Let
        | Terminal::Init
        | Terminal::Subscript
        | Terminal::Static
        | Terminal::Mutating => Some(Kind::Member),
        Terminal::OpaqueSome | Terminal::ExistentialAny | Terminal::AnyType => {
            Some(Kind::Existential)
        }
        Terminal::Each | Terminal::Repeat => Some(Kind::ParameterPack),
        Terminal::MetatypeOf | Terminal::ProtocolMetatypeOf => Some(Kind::Metatype),
        Terminal::Async | Terminal::Throws | Terminal::Rethrows => Some(Kind::Effect),
        Terminal::At => Some(Kind::Attribute),
        Terminal::Backtick => Some(Kind::Backtick),
        Terminal::Tilde => Some(Kind::SuppressedRequirement),
        Terminal::Question | Terminal::Exclamation => Some(Kind::Optional),
        Terminal::OpenBracket => Some(Kind::Array),
        Terminal::OpenParenthesis => Some(Kind::Tuple),
        Terminal::Arrow => Some(Kind::Arrow),
        Terminal::Equal => Some(Kind::DefaultValue),
        Terminal::Less => Some(Kind::GenericArguments),
        _ => None,
    }
}

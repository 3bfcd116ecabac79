//! The terminal symbols of the grammar.

ghost use Rattle.std.specs.Prelude.{◌≡◌};
ghost use Rattle.swreq_decl.specs.Terminals.{number};

/// The terminal symbols of the grammar: what its lines write between quotes, names, and the words and marks that it only
/// refuses.
#[derive(Clone, Copy, Debug, PartialEq, Eq)]
pub enum Terminal {
    /// A name that is not spelled `query`.
    Name,
    /// A name that is spelled `query`.
    Query,
    /// `_` alone.
    Underscore,
    Protocol,
    AssociatedType,
    Func,
    Where,
    /// `Self`
    SelfType,
    AnyObject,
    Public,
    Internal,
    FilePrivate,
    Private,
    Class,
    Struct,
    Enum,
    Actor,
    Extension,
    Typealias,
    Import,
    Var,
    Let,
    Init,
    Subscript,
    Static,
    Mutating,
    /// `some`
    OpaqueSome,
    /// `any`
    ExistentialAny,
    /// `Any`
    AnyType,
    Each,
    Repeat,
    /// `Type`
    MetatypeOf,
    /// `Protocol`
    ProtocolMetatypeOf,
    Async,
    Throws,
    Rethrows,
    OpenBrace,
    CloseBrace,
    OpenParenthesis,
    CloseParenthesis,
    Less,
    Greater,
    Comma,
    Colon,
    Semicolon,
    Dot,
    Ampersand,
    EqualEqual,
    OpenBracket,
    CloseBracket,
    At,
    Backtick,
    Tilde,
    Question,
    Exclamation,
    Equal,
    Arrow,
}

/// The terminals of the reserved words, in the order of [`swreq_lex::RESERVED`].
pub const RESERVED_WORDS: [Terminal; 33] = [
    Terminal::Protocol,
    Terminal::AssociatedType,
    Terminal::Func,
    Terminal::Where,
    Terminal::SelfType,
    Terminal::AnyObject,
    Terminal::Public,
    Terminal::Internal,
    Terminal::FilePrivate,
    Terminal::Private,
    Terminal::Class,
    Terminal::Struct,
    Terminal::Enum,
    Terminal::Actor,
    Terminal::Extension,
    Terminal::Typealias,
    Terminal::Import,
    Terminal::Var,
    Terminal::Let,
    Terminal::Init,
    Terminal::Subscript,
    Terminal::Static,
    Terminal::Mutating,
    Terminal::OpaqueSome,
    Terminal::ExistentialAny,
    Terminal::AnyType,
    Terminal::Each,
    Terminal::Repeat,
    Terminal::MetatypeOf,
    Terminal::ProtocolMetatypeOf,
    Terminal::Async,
    Terminal::Throws,
    Terminal::Rethrows,
];

/// The terminals of the marks, in the order of [`swreq_lex::MARKS`].
pub const MARKS: [Terminal; 21] = [
    Terminal::OpenBrace,
    Terminal::CloseBrace,
    Terminal::OpenParenthesis,
    Terminal::CloseParenthesis,
    Terminal::Less,
    Terminal::Greater,
    Terminal::Comma,
    Terminal::Colon,
    Terminal::Semicolon,
    Terminal::Dot,
    Terminal::Ampersand,
    Terminal::EqualEqual,
    Terminal::OpenBracket,
    Terminal::CloseBracket,
    Terminal::At,
    Terminal::Backtick,
    Terminal::Tilde,
    Terminal::Question,
    Terminal::Exclamation,
    Terminal::Equal,
    Terminal::Arrow,
];

/// The number by which a terminal is told apart from others.
pub fn number_of(terminal: Terminal) -> u32
    ensures { result ≡ number terminal }
{
    terminal as u32
}

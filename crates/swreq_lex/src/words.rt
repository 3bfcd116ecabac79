//! Words and what they are.

ghost use Rattle.std.specs.{Prelude.{◌≡◌, ◌≤◌, length, position}, Str.{chars, bytes_eq}};
ghost use Rattle.swreq_lex.specs.{Characters.{starts_word, continues_word}, Words.{kind_of_bytes}, Reader.{past}};

use crate::characters::first;
use crate::token::TokenKind;

/// The reserved words. A [`TokenKind::Reserved`] has the place of its word among them.
pub const RESERVED: [&str; 33] = [
    "protocol",
    "associatedtype",
    "func",
    "where",
    "Self",
    "AnyObject",
    "public",
    "internal",
    "fileprivate",
    "private",
    "class",
    "struct",
    "enum",
    "actor",
    "extension",
    "typealias",
    "import",
    "var",
    "let",
    "init",
    "subscript",
    "static",
    "mutating",
    "some",
    "any",
    "Any",
    "each",
    "repeat",
    "Type",
    "Protocol",
    "async",
    "throws",
    "rethrows",
];

/// Whether a word begins with the character: `_` or one that may start an identifier in Unicode.
pub fn starts_word(c: char) -> bool
    ensures { result ≡ starts_word c }
{
    unicode_ident::is_xid_start(c) || c == '_'
}

/// What is left after the longest run of characters that may continue an identifier.
#[tactic(auto, unfolding(crate::specs::Reader::past))]
pub fn past_word(text: &str) -> &str
    ensures chars { chars result.now ≡ past continues_word (chars text.now) }
    ensures len { length result.now ≤ length text.now }
{
    let mut rest = text;
    while let Some((c, after)) = first(rest) {
        if !unicode_ident::is_xid_continue(c) {
            return rest;
        }
        rest = after;
    }
    rest
}

/// The place of a word among others.
fn place_of(words: &[&str], word: &[u8]) -> Option<usize>
    ensures { result ≡ position (λ r. bytes_eq r.now word.now) words.now }
{
    words.iter().position(|r| r.as_bytes() == word)
}

/// The place of a word among the reserved ones.
fn reserved(word: &[u8]) -> Option<usize>
    ensures { result ≡ position (λ r. bytes_eq r.now word.now) RESERVED }
{
    place_of(&RESERVED, word)
}

/// What a word is, by its bytes.
pub fn kind_of(word: &[u8]) -> TokenKind
    ensures { result ≡ kind_of_bytes word.now }
{
    match reserved(word) {
        Some(n) => TokenKind::Reserved { n: n as u32 },
        None => {
            if word == b"_".as_slice() {
                TokenKind::Underscore
            } else {
                TokenKind::Name
            }
        }
    }
}

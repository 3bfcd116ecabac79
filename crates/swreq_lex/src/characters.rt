//! The characters of a text, from the front.

ghost use Rattle.std.specs.{Prelude.{◌≡◌, ◌+◌, ◌≤◌, ◌∷◌, [], length, MatchOption, IfSome}, Str.{chars}, Char.{len_utf8}};
ghost use Rattle.swreq_lex.specs.{Characters.{is_white_space}, Tokens.{after_byte_order_mark}};

/// The first character, and what is left after it.
pub fn first(text: &str) -> Option<(char, &str)>
    ensures chars { MatchOption result (chars text.now ≡ [])
        (λ x. chars text.now ≡ x.0 ∷ chars x.1.now) }
    ensures len { IfSome result (λ x. length text.now ≡ len_utf8 x.0 + length x.1.now) }
{
    let mut left = text.chars();
    let c = left.next()?;
    Some((c, left.as_str()))
}

/// Whether the character is a space, a tab, a line feed, a vertical tab, a form feed or a carriage return.
pub fn is_white_space(c: char) -> bool
    ensures { result ≡ is_white_space c }
{
    c == ' ' || (c >= '\t' && c <= '\r')
}

/// The text without a byte order mark at its front.
pub fn past_byte_order_mark(text: &str) -> &str
    ensures chars { chars result.now ≡ after_byte_order_mark (chars text.now) }
    ensures len { length result.now ≤ length text.now }
{
    match first(text) {
        Some((c, rest)) if c == '\u{FEFF}' => rest,
        _ => text,
    }
}

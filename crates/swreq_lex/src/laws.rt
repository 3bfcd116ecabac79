//! What holds of the tokens of each text, from the front and from an offset on.

ghost use Rattle.std.specs.{Prelude.{◌≡◌, ◌≤◌, ◌⊎◌, ◌↔◌, ℕ, List, length}, Str.{chars}};
ghost use Rattle.swreq_lex.specs.{declared.token.Token.{Token}, declared.refusal.LexErr.{LexErr}, Tokens.{begin_from, first_offset, HasTokens, HasTokensFrom}, Refusals.{HasRefusal, HasRefusalFrom}, Slices.{AreSlices}};

/// A text has tokens or a refusal, and one of them alone.
pub fn one_reading(text: &[u8])
    ensures some { ((ts : List Token) × HasTokens text.now ts)
        ⊎ ((e : LexErr) × HasRefusal text.now e) }
    ensures one_list { (ts us : List Token) → HasTokens text.now ts
        → HasTokens text.now us → ts ≡ us }
    ensures one_refusal { (d e : LexErr) → HasRefusal text.now d → HasRefusal text.now e → d ≡ e }
    ensures never_both { (ts : List Token) (e : LexErr) → HasTokens text.now ts
        → ¬ (HasRefusal text.now e) }
{
    one_reading_from(text, 0)
}

/// From an offset on, a text has a list of tokens or a refusal, not both, and only one.
pub fn one_reading_from(text: &[u8], from: u32)
    requires { from ≤ length text.now }
    ensures some { ((ts : List Token) × HasTokensFrom text.now from ts)
        ⊎ ((e : LexErr) × HasRefusalFrom text.now from e) }
    ensures one_list { (ts us : List Token) → HasTokensFrom text.now from ts
        → HasTokensFrom text.now from us → ts ≡ us }
    ensures one_refusal { (d e : LexErr) → HasRefusalFrom text.now from d
        → HasRefusalFrom text.now from e → d ≡ e }
    ensures never_both { (ts : List Token) (e : LexErr) → HasTokensFrom text.now from ts
        → ¬ (HasRefusalFrom text.now from e) }
{
    let _ = from;
    let _ = text;
}

/// The tokens of a text are in order, each is its slice of the text, and between them stand white space
/// and comments alone. They begin after the byte order mark, if there is one.
pub fn tokens_are_slices(text: &[u8])
    ensures { (ts : List Token) → HasTokens text.now ts
        → AreSlices text.now (first_offset (chars text.now)) ts }
{
    tokens_from_are_slices(text, 0)
}

/// The tokens of a text from an offset on are in order, each is its slice of the text, and between them stand white space
/// and comments alone.
pub fn tokens_from_are_slices(text: &[u8], from: u32)
    requires { from ≤ length text.now }
    ensures { (ts : List Token) → HasTokensFrom text.now from ts
        → AreSlices text.now (begin_from text.now from) ts }
{
    let _ = from;
    let _ = text;
}

/// The tokens of a text from its front on are those of the text, and the refusal is too.
pub fn from_the_front(text: &[u8])
    ensures tokens { (ts : List Token) → HasTokensFrom text.now 0 ts ↔ HasTokens text.now ts }
    ensures refusal { (e : LexErr) → HasRefusalFrom text.now 0 e ↔ HasRefusal text.now e }
{
    let _ = text;
}

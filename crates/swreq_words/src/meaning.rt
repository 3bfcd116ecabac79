//! What a word is if no limit waits for its number.

ghost use Rattle.std.specs.Prelude.{◌≡◌, option_map};
ghost use Rattle.swreq_words.specs.{Meant.{meant}, Reading.{after, meaning_of, meaning_of_one}};

use crate::limits::Limit;

/// The word names a limit whose number comes next, sets a limit, is `--trace`, or is none of these.
#[derive(Clone, Copy, Debug)]
pub(crate) enum Meaning<'a> {
    Opens(Limit),
    Sets(Limit, &'a str),
    Traces,
    Other,
}

// What follows the front in the word, if the word begins with it.
fn after<'a>(word: &'a str, front: &str) -> Option<&'a str>
    ensures { option_map (λ text. text.now) result ≡ after front.now word.now }
{
    word.strip_prefix(front)
}

// The meaning of a word that does not name a limit by itself.
fn meaning_of_one<'a>(word: &'a str) -> Meaning<'a>
    ensures { meant result ≡ meaning_of_one word.now }
{
    if word == "--trace" {
        return Meaning::Traces;
    }
    if let Some(text) = after(word, Limit::MaxRules.front()) {
        return Meaning::Sets(Limit::MaxRules, text);
    }
    match after(word, Limit::MaxLength.front()) {
        Some(text) => Meaning::Sets(Limit::MaxLength, text),
        None => Meaning::Other,
    }
}

/// The meaning of the word.
pub(crate) fn meaning_of<'a>(word: &'a str) -> Meaning<'a>
    ensures { meant result ≡ meaning_of word.now }
{
    if word == Limit::MaxRules.option() {
        return Meaning::Opens(Limit::MaxRules);
    }
    if word == Limit::MaxLength.option() {
        return Meaning::Opens(Limit::MaxLength);
    }
    meaning_of_one(word)
}

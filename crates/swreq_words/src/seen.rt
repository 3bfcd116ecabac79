//! What the words after the first have set so far.

ghost use Rattle.std.specs.Prelude.{◌≡◌};
ghost use Rattle.swreq_words.specs.{Meant.{meant}, Form.{takes_number}, Reading.{if_new, is_done, nothing_seen, with_limit, with_meaning, with_next, with_number, with_word}};

use crate::command::Follows;
use crate::limits::{GREATEST_COUNT, Limit};
use crate::meaning::{Meaning, meaning_of};
use crate::numbers::is_number;

/// Which options and numbers were met, and the limit whose number comes next, if one does.
#[derive(Clone, Copy, Debug)]
pub(crate) struct Seen {
    waiting: Option<Limit>,
    max_rules: bool,
    max_length: bool,
    trace: bool,
    number: bool,
}

fn takes_number(may: Follows) -> bool
    ensures { result ≡ takes_number may }
{
    match may {
        Follows::OptionsAndNumber => true,
        Follows::Options | Follows::Nothing => false,
    }
}

fn if_new(was: bool, may: bool, next: Seen) -> Option<Seen>
    ensures { result ≡ if_new was may next }
{
    if !was && may { Some(next) } else { None }
}

impl Seen {
    pub(crate) fn nothing() -> Seen
        ensures { result ≡ nothing_seen }
    {
        Seen {
            waiting: None,
            max_rules: false,
            max_length: false,
            trace: false,
            number: false,
        }
    }

    // What is set after the limit's number, if the text is one and the limit was not set before.
    fn with_limit(self, limit: Limit, text: &str) -> Option<Seen>
        ensures { result ≡ with_limit self limit text.now }
    {
        let may = is_number(text, limit.greatest());
        match limit {
            Limit::MaxRules => if_new(
                self.max_rules,
                may,
                Seen {
                    waiting: None,
                    max_rules: true,
                    ..self
                },
            ),
            Limit::MaxLength => if_new(
                self.max_length,
                may,
                Seen {
                    waiting: None,
                    max_length: true,
                    ..self
                },
            ),
        }
    }

    // What is set after the command's number, if the text is one and the number was not set before.
    fn with_number(self, may: Follows, text: &str) -> Option<Seen>
        ensures { result ≡ with_number may self text.now }
    {
        let may = takes_number(may) && is_number(text, GREATEST_COUNT);
        if_new(
            self.number,
            may,
            Seen {
                number: true,
                ..self
            },
        )
    }

    fn with_meaning(self, may: Follows, word: &str, meaning: Meaning<'_>) -> Option<Seen>
        ensures { result ≡ with_meaning may self word.now (meant meaning.entry) }
    {
        match meaning {
            Meaning::Opens(limit) => Some(Seen {
                waiting: Some(limit),
                ..self
            }),
            Meaning::Sets(limit, text) => self.with_limit(limit, text),
            Meaning::Traces => if_new(
                self.trace,
                true,
                Seen {
                    trace: true,
                    ..self
                },
            ),
            Meaning::Other => self.with_number(may, word),
        }
    }

    fn with_word(self, may: Follows, word: &str) -> Option<Seen>
        ensures { result ≡ with_word may self word.now self.waiting }
    {
        match self.waiting {
            Some(limit) => self.with_limit(limit, word),
            None => self.with_meaning(may, word, meaning_of(word)),
        }
    }

    /// What is set after one word more, if the word may stand there.
    pub(crate) fn with_next(self, may: Follows, word: &str) -> Option<Seen>
        ensures { result ≡ with_next may self word.now }
    {
        match may {
            Follows::Nothing => None,
            Follows::Options | Follows::OptionsAndNumber => self.with_word(may, word),
        }
    }

    /// Whether the words may end here.
    pub(crate) fn is_done(self, may: Follows) -> bool
        ensures { result ≡ is_done may self }
    {
        let has_number = !takes_number(may) || self.number;
        self.waiting.is_none() && has_number
    }
}

//! The limits that options set, and the number of a command.

ghost use Rattle.std.specs.Prelude.{◌≡◌};
ghost use Rattle.swreq_words.specs.{Form.{greatest, limit_name, option_word, preset}, Reading.{front_of}};

/// The greatest number of a command that takes one.
pub(crate) const GREATEST_COUNT: u32 = 100;

/// The number of a command that takes none.
pub(crate) const PRESET_COUNT: u32 = 1;

/// A limit that an option sets.
#[derive(Clone, Copy, Debug, PartialEq, Eq)]
pub(crate) enum Limit {
    MaxRules,
    MaxLength,
}

impl Limit {
    /// The name of the limit, as its option has it.
    pub(crate) fn name<'a>(self) -> &'a str
        ensures { result.now ≡ limit_name self }
    {
        match self {
            Limit::MaxRules => "max-rules",
            Limit::MaxLength => "max-length",
        }
    }

    /// The option's word, if its number is a word of its own.
    pub(crate) fn option(self) -> &'static str
        ensures { result.now ≡ option_word (limit_name self) }
    {
        match self {
            Limit::MaxRules => "--max-rules",
            Limit::MaxLength => "--max-length",
        }
    }

    /// What stands before the option's number, if both are one word.
    pub(crate) fn front(self) -> &'static str
        ensures { result.now ≡ front_of self }
    {
        match self {
            Limit::MaxRules => "--max-rules=",
            Limit::MaxLength => "--max-length=",
        }
    }

    /// The greatest number that the limit may have.
    pub(crate) fn greatest(self) -> u32
        ensures { result ≡ greatest self }
    {
        match self {
            Limit::MaxRules => 100_000,
            Limit::MaxLength => 255,
        }
    }

    /// The number of the limit if no word sets it.
    pub(crate) fn preset(self) -> u32
        ensures { result ≡ preset self }
    {
        match self {
            Limit::MaxRules => 4000,
            Limit::MaxLength => 64,
        }
    }
}

//! The commands, and what the words say.

ghost use Rattle.std.specs.{Prelude.{◌≡◌, ◌≤◌}, List.{find}, Str.{bytes_eq}};
ghost use Rattle.swreq_words.specs.Commands.{follows, input, word_of};

/// What is to be done.
#[derive(Clone, Copy, Debug, PartialEq, Eq)]
pub enum Command {
    /// The queries of a text are answered.
    Answer,
    /// The signatures of a text are printed.
    Signatures,
    /// The reduced rewriting systems of a text are printed.
    Rules,
    /// A generated text is answered.
    Gen,
    /// The queries of a text are answered, each yes with a derivation.
    Explain,
    /// The derivations of a second part are checked against a text.
    Verify,
    /// The queries of a text are answered, each conformance with its shortest path.
    Paths,
    /// The calls of a second part are judged by the signatures of a text.
    Calls,
    /// The requirement signatures of a text's protocols are printed.
    Requirements,
}

/// All commands.
pub(crate) const COMMANDS: [Command; 9] = [
    Command::Answer,
    Command::Signatures,
    Command::Rules,
    Command::Gen,
    Command::Explain,
    Command::Verify,
    Command::Paths,
    Command::Calls,
    Command::Requirements,
];

/// What may follow a command's name.
#[derive(Clone, Copy, Debug, PartialEq, Eq)]
pub(crate) enum Follows {
    Nothing,
    Options,
    OptionsAndNumber,
}

/// What a command reads.
#[derive(Clone, Copy, Debug, PartialEq, Eq)]
pub enum Input {
    /// Nothing.
    Nothing,
    /// A text.
    OnePart,
    /// A text and a second part.
    TwoParts,
}

// The first of these commands that the word names.
fn named_among(commands: &[Command], word: &str) -> Option<Command>
    ensures { result ≡ find (λ command. bytes_eq (word_of command) word.now) commands.now }
{
    commands
        .iter()
        .copied()
        .find(|command| command.word() == word)
}

impl Command {
    ghost use Rattle.swreq_words.specs.Reading.{name_of};

    /// The command that the word names.
    #[tactic(auto, unfolding(crate::specs::Reading::name_of))]
    pub(crate) fn of(word: &str) -> Option<Command>
        ensures { result ≡ name_of word.now }
    {
        named_among(&COMMANDS, word)
    }

    /// The word that names the command.
    pub(crate) fn word<'a>(self) -> &'a str
        ensures { result.now ≡ word_of self }
    {
        match self {
            Command::Answer => "answer",
            Command::Signatures => "signatures",
            Command::Rules => "rules",
            Command::Gen => "gen",
            Command::Explain => "explain",
            Command::Verify => "verify",
            Command::Paths => "paths",
            Command::Calls => "calls",
            Command::Requirements => "requirements",
        }
    }

    /// What may follow the name of the command.
    pub(crate) fn follows(self) -> Follows
        ensures { result ≡ follows self }
    {
        match self {
            Command::Verify => Follows::Nothing,
            Command::Gen => Follows::OptionsAndNumber,
            Command::Answer
            | Command::Signatures
            | Command::Rules
            | Command::Explain
            | Command::Paths
            | Command::Calls
            | Command::Requirements => Follows::Options,
        }
    }

    /// What the command reads.
    pub fn input(self) -> Input
        ensures { result ≡ input self }
    {
        match self {
            Command::Gen => Input::Nothing,
            Command::Verify | Command::Calls => Input::TwoParts,
            Command::Answer
            | Command::Signatures
            | Command::Rules
            | Command::Explain
            | Command::Paths
            | Command::Requirements => Input::OnePart,
        }
    }
}

/// A command, its number and its options. The limits are in their ranges.
#[derive(Clone, Copy, Debug, PartialEq, Eq)]
pub struct CommandLine {
    /// What is to be done.
    pub command: Command,
    /// How many protocols the generated text of `gen` has, from 1 to 100. Other commands have no number, and 1 stands here.
    pub count: u32,
    /// How many rules a completion may have, from 1 to 100000.
    pub max_rules: u32,
    /// How many symbols the left side of a rule may have, from 1 to 255.
    pub max_length: u32,
    /// Whether the trace of a limit is to be printed.
    pub trace: bool,
    ghost in_range: { (1 ≤ max_rules) × (max_rules ≤ 100000) × (1 ≤ max_length)
        × (max_length ≤ 255) },
}

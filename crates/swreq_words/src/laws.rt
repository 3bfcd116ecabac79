//! What follows from the form of the words, over the definitions alone.

ghost use Rattle.std.specs.Prelude.{◌≡◌, ◌≤◌, List, ℕ, true};
ghost use Rattle.clap.specs.Words.{takes};
ghost use Rattle.swreq_words.specs.{declared.command.CommandLine.{CommandLine}, Form.{Says}, Taken.{genreq}};

/// Words say at most one command line.
pub fn one_command_line()
    ensures { (words : List (List ℕ)) (a b : CommandLine) → Says words a → Says words b → a ≡ b }
{}

/// The command takes all words of the form. So it can fail on them only if memory runs out.
pub fn words_of_the_form_are_taken()
    ensures { (words : List (List ℕ)) (line : CommandLine) → Says words line
        → takes genreq words ≡ true }
{}

/// The number of a command that words say is in its range.
pub fn count_is_in_range()
    ensures count { (words : List (List ℕ)) (line : CommandLine) → Says words line
        → (1 ≤ line.count) × (line.count ≤ 100) }
{}

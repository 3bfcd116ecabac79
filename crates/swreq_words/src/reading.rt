//! The words as a command line.

ghost use Rattle.std.specs.Prelude.{◌≡◌, ◌↔◌, Err, IfOk, map, string_bytes};
ghost use Rattle.swreq_words.specs.{declared.command.CommandLine.{CommandLine}, Form.{Says}};

use crate::command::CommandLine;
use crate::form::has_form;
use crate::parse::{line_found, matches_of};
use std::alloc::Global;
use thiserror::Error;

/// Why words are no command line.
#[derive(Clone, Copy, Debug, PartialEq, Eq, Error)]
pub enum UsageErr {
    /// The words do not have the form.
    #[error("wrong words")]
    Usage,
    /// Memory ran out.
    #[error("out of memory")]
    Memory,
}

/// The command line that the words say. The words are without the program's name. The answer is `Usage` if and only if they do not have the
/// form: the name of a command, and then its options in any order, each at most once, and the one number of `gen`.
pub fn read(alloc: Global, words: &[String]) -> Result<CommandLine, UsageErr>
    ensures ok { IfOk result (λ line. Says (map string_bytes words.now) line) }
    ensures usage { (result ≡ Err UsageErr.Usage)
        ↔ ((line : CommandLine) → ¬ Says (map string_bytes words.now) line) }
{
    if !has_form(words) {
        return Err(UsageErr::Usage);
    }
    let matches = matches_of(alloc, words).map_err(|_| UsageErr::Memory)?;
    line_found(&matches).ok_or(UsageErr::Usage)
}

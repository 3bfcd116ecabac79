//! What each command prints.
ghost use Rattle.std.specs.Prelude.{◌≡◌};
ghost use Rattle.swreq_check.specs.{declared.content.Content.TheVariants.{Answers}, declared.content.Shown.TheVariants.{Each}};
ghost use Rattle.swreq_reply.specs.Commands.{content_by, content_of};

use swreq_check::{Backing, Content, Shown};
use swreq_words::{Command, CommandLine};

/// Each answer, with this after a `yes`.
fn each(backing: Backing) -> Content
    ensures { result ≡ Answers (Each backing) }
{
    Content::Answers {
        shown: Shown::Each { backing },
    }
}

/// What the command prints, whose number is `count`.
fn content_by(command: Command, count: u32) -> Content
    ensures { result ≡ content_by command count }
{
    match command {
        Command::Answer => each(Backing::Nothing),
        Command::Gen => Content::Answers {
            shown: Shown::Counts { protocols: count },
        },
        Command::Explain => each(Backing::Derivation),
        Command::Paths => each(Backing::Path),
        Command::Signatures => Content::Signatures,
        Command::Rules => Content::Systems,
        Command::Requirements => Content::Families,
        Command::Verify => Content::Judgements,
        Command::Calls => Content::Calls,
    }
}

/// What the command prints.
pub(crate) fn content_of(line: &CommandLine) -> Content
    ensures { result ≡ content_of line.now }
{
    content_by(line.command, line.count)
}

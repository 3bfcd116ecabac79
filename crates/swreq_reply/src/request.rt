//! What is to be answered.
ghost use Rattle.std.specs.Prelude.{◌≡◌, Contains, MatchOption};
ghost use Rattle.swreq_text.specs.{Lines.{lines}, Divided.{divider}};
ghost use Rattle.swreq_words.specs.{declared.command.Input.TheVariants.{TwoParts}, Commands.{input as reads}};
ghost use Rattle.swreq_reply.specs.{Inputs.{HasParts, second_at}, Requests.{view_of}};

use std::alloc::Global;
use std::marker::Model;
use swreq_text::parts;
use swreq_words::{Command, CommandLine, Input};

/// An input, the source text in it, and what follows the line that divides it.
#[derive(Clone, Copy)]
pub(crate) struct Divided<'a> {
    pub input: &'a [u8],
    pub source: &'a [u8],
    pub second: &'a [u8],
}

/// A command, and the parts of the input that it reads.
#[derive(Drop)]
pub(crate) struct Request<'a> {
    pub alloc: Global,
    pub line: &'a CommandLine,
    pub parts: Divided<'a>,
}

impl<'a> Model for Request<'a> {
    ghost use Rattle.swreq_reply.specs.Requests.{IsRequest, RequestView, view_of};

    ghost Value = { RequestView };

    ghost view = { λ r. record { line = r.line.now; parts = view_of r.parts } };

    ghost invariant = { λ r. IsRequest (record { line = r.line.now; parts = view_of r.parts }) };
}

/// The parts of an input that the command reads, or None where it reads a second part and there is none.
pub(crate) fn parts_of(command: Command, input: &[u8]) -> Option<Divided<'_>>
    ensures parts { MatchOption result
        ((reads command ≡ TwoParts) × (Contains (lines input.now) divider → ⊥))
        (λ p. HasParts (reads command) (view_of p)) }
    ensures input { MatchOption result (Unit {0}) (λ p. p.input.now ≡ input.now) }
{
    match command.input() {
        Input::Nothing | Input::OnePart => Some(Divided {
            input,
            source: input,
            second: &[],
        }),
        Input::TwoParts => {
            let found = parts(input)?;
            Some(Divided {
                input,
                source: found.first,
                second: found.second,
            })
        }
    }
}

/// The offset of the second part in the input.
pub(crate) fn second_at(r: &Request<'_>) -> u32
    ensures { result ≡ second_at r.now.parts }
{
    (r.parts.input.len() - r.parts.second.len()) as u32
}

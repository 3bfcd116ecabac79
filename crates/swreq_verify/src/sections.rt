// The lines under a query, as bytes.
ghost use Rattle.std.specs.{Prelude.{◌≡◌, ◌++◌, ◌≤◌, ◌↔◌, IsTrue, length}, List.{AllByRecursion}};
ghost use Rattle.swreq_text.specs.Lines.{lines};
ghost use Rattle.swreq_verify.specs.{Laying.{AreHeaded, IsUnder}, SecondParts.{IsHeading}};

use swreq_text::first_line;

/// Whether a line does not begin with a space.
pub(crate) fn is_heading(line: &[u8]) -> bool
    ensures { IsTrue result ↔ IsHeading line.now }
{
    match line {
        [] => true,
        [first, ..] => *first != b' ',
    }
}

/// The lines at the front of a text that begin with a space, and what follows them.
#[derive(Clone, Copy)]
pub(crate) struct Body<'a> {
    pub under: &'a [u8],
    pub rest: &'a [u8],
}

/// The lines under a heading, up to the next heading.
pub(crate) fn cut_body(text: &[u8]) -> Body<'_>
    ensures lines { lines text.now ≡ lines result.under.now ++ lines result.rest.now }
    ensures under { AllByRecursion IsUnder (lines result.under.now) }
    ensures rest { AreHeaded (lines result.rest.now) }
    ensures bytes { length result.under.now ≤ length text.now }
    ensures less { length result.rest.now ≤ length text.now }
{
    let mut at = 0;
    while let Some(first) = first_line(&text[at..]) {
        if is_heading(first.line) {
            return Body {
                under: &text[..at],
                rest: &text[at..],
            };
        }
        at = text.len() - first.rest.len();
    }
    Body {
        under: text,
        rest: &[],
    }
}

// The first line of a text.
ghost use Rattle.std.specs.Prelude.{◌≡◌, ◌==◌, ◌∷◌, [], IfSome, MatchOption, position};
ghost use Rattle.swreq_text.specs.Lines.{IsCut, IsFirstLine, line_feed, lines};

/// The first line of a text, without its line feed, and what stands after it.
#[derive(Clone, Copy)]
pub struct FirstLine<'a> {
    pub line: &'a [u8],
    pub rest: &'a [u8],
}

/// The first line of a text, or None if and only if the text is empty. A line ends with a line feed or with the text.
pub fn first_line(text: &[u8]) -> Option<FirstLine<'_>>
    ensures first { MatchOption result
        (text.now ≡ [])
        (λ f. IsFirstLine text.now f.line.now f.rest.now) }
    ensures lines { IfSome result (λ f. lines text.now ≡ f.line.now ∷ lines f.rest.now) }
{
    if text.is_empty() {
        None
    } else {
        Some(cut(text))
    }
}

/// The text up to its first line feed, and what stands after that. Without a line feed it is the whole text, and nothing.
fn cut(text: &[u8]) -> FirstLine<'_>
    ensures { IsCut text.now result.line.now result.rest.now }
{
    match find_feed(text) {
        None => FirstLine {
            line: text,
            rest: &[],
        },
        Some(at) => FirstLine {
            line: &text[..at],
            rest: &text[at + 1..],
        },
    }
}

/// The place of the first line feed.
fn find_feed(text: &[u8]) -> Option<usize>
    ensures { result ≡ position (λ c. c == line_feed) text.now }
{
    text.iter().position(|c| *c == b'\n')
}

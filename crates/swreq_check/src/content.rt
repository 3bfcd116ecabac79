//! What is printed of a text, and what is made for it of its signatures.
ghost use Rattle.std.specs.Prelude.{◌≡◌};
ghost use Rattle.swreq_check.specs.{declared.content.Content.TheVariants.{Answers}, declared.content.Shown.TheVariants.{Each}, Contents.{backed_by, backing_of, makes}};

/// What follows a `yes`.
#[derive(Clone, Copy, Debug, PartialEq, Eq)]
pub enum Backing {
    /// Nothing.
    Nothing,
    /// The lines of a derivation of what is asked.
    Derivation,
    /// The line of a conformance path, where a conformance is asked.
    Path,
}

/// How the answers to the queries of a text are printed.
#[derive(Clone, Copy, Debug, PartialEq, Eq)]
pub enum Shown {
    /// Each of them, and after a `yes` what backs it.
    Each {
        /// What follows a `yes`.
        backing: Backing,
    },
    /// How many there are of each verdict, and the last one.
    Counts {
        /// How many protocols the text has.
        protocols: u32,
    },
}

/// What a command prints of a text.
#[derive(Clone, Copy, Debug, PartialEq, Eq)]
pub enum Content {
    /// The answers to its queries.
    Answers {
        /// How they are printed.
        shown: Shown,
    },
    /// The minimised list of each signature, after its name.
    Signatures,
    /// The reduced rewriting system of each signature.
    Systems,
    /// The requirement signature of each protocol.
    Families,
    /// What the checker of derivations says of the second part, for each query.
    Judgements,
    /// The line of each call of the second part.
    Calls,
}

/// What is made of the signatures of a text, to be printed.
#[derive(Clone, Copy, Debug, PartialEq, Eq)]
pub enum Made {
    /// A line for each query: by the machine of the signature that it asks, or by the minimised list for which it asks.
    Lines,
    /// The reduced rewriting system of each signature, by its machine.
    Systems,
    /// The minimised list of each signature.
    Lists,
    /// Nothing.
    Nothing,
}

impl Content {
    /// What is made of the signatures of a text for this content.
    pub(crate) fn makes(self) -> Made
        ensures { result ≡ makes self }
    {
        match self {
            Content::Answers { .. } => Made::Lines,
            Content::Systems => Made::Systems,
            Content::Signatures => Made::Lists,
            Content::Families | Content::Judgements | Content::Calls => Made::Nothing,
        }
    }
}

/// What follows a `yes` that is shown so.
fn backed_by(shown: Shown) -> Backing
    ensures { result ≡ backed_by shown }
{
    match shown {
        Shown::Each { backing } => backing,
        Shown::Counts { .. } => Backing::Nothing,
    }
}

/// What follows a `yes` of this content.
pub(crate) fn backing_of(content: Content) -> Backing
    ensures { result ≡ backing_of content }
{
    match content {
        Content::Answers { shown } => backed_by(shown),
        _ => Backing::Nothing,
    }
}

//! Why there are no rules.
use std::alloc::AllocError;
use swreq_complete::rule::Rule;
use swreq_complete::{Failed, Which};
use swreq_text::Seq;

/// Why there is no machine of a list, or why there are no rules of the protocols.
#[derive(Debug, Drop)]
pub enum Refused {
    /// A round passes this limit, with this trace.
    Limit { which: Which, trace: Seq<Rule> },
    /// The first side that is no type parameter stands at this offset.
    NotATypeParameter { at: u32 },
    /// Memory ran out.
    Memory,
}

impl From<AllocError> for Refused {
    ghost use Rattle.std.specs.Prelude.{◌≡◌};
    ghost use Rattle.swreq_valid.specs.declared.refused.Refused.TheVariants.{Memory};

    ghost from_gives = { λ _ e. e ≡ Memory };

    fn from(_e: AllocError) -> Refused {
        Refused::Memory
    }
}

impl From<Failed> for Refused {
    ghost use Rattle.std.specs.Prelude.{◌≡◌};
    ghost use Rattle.swreq_valid.specs.Built.{refusal};

    ghost from_gives = { λ failed e. e ≡ refusal failed };

    fn from(failed: Failed) -> Refused {
        match failed {
            Failed::Limit { which, trace } => Refused::Limit { which, trace },
            Failed::Memory => Refused::Memory,
        }
    }
}

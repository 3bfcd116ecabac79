//! Why a text stands for no skeleton, or for no calls.

ghost use Rattle.std.specs.Prelude.{◌≡◌};
ghost use Rattle.swreq_decl.specs.declared.refusal.ParseErr.TheVariants.{Memory};

use crate::kind::Kind;
use std::alloc::{AllocError, AllocFailed};
use swreq_lex::LexErr;

/// Why a text stands for no skeleton, or a part of it for no calls, with the offset of the place in bytes.
#[derive(Debug, Drop)]
pub enum ParseErr {
    /// The text has no tokens; the fault is never [`LexErr::Memory`].
    Lex { fault: LexErr },
    /// The token at `at` is refused, or the text ends there too early.
    Syntax { at: u32 },
    /// The token at `at` is refused, for what is Swift and not supported.
    Unsupported { at: u32, kind: Kind },
    /// Memory ran out.
    Memory,
}

impl From<AllocError> for ParseErr {
    ghost from_gives = { λ _ e. e ≡ Memory };

    fn from(_e: AllocError) -> ParseErr {
        ParseErr::Memory
    }
}

impl<T: Drop> From<AllocFailed<T>> for ParseErr {
    ghost from_gives = { λ _ e. e ≡ Memory };

    fn from(_e: AllocFailed<T>) -> ParseErr {
        ParseErr::Memory
    }
}

//! Why a text has no tokens.

use std::alloc::AllocFailed;
use thiserror::Error;

/// Why a text has no tokens, with the offset of the place in bytes.
#[derive(Debug, PartialEq, Eq, Drop, Error)]
pub enum LexErr {
    /// The text is not UTF-8; the bytes before `at` are its longest front that is.
    #[error("not UTF-8 at {at}")]
    NotUtf8 { at: u32 },
    /// No token, white space or comment begins at `at`.
    #[error("bad character at {at}")]
    BadCharacter { at: u32 },
    /// The comment that is opened at `at` is never closed.
    #[error("open comment at {at}")]
    OpenComment { at: u32 },
    /// Memory ran out.
    #[error("out of memory")]
    Memory,
}

impl<T: Drop> From<AllocFailed<T>> for LexErr {
    ghost use Rattle.std.specs.Prelude.{◌≡◌};
    ghost use Rattle.swreq_lex.specs.declared.refusal.LexErr.TheVariants.{Memory};

    ghost from_gives = { λ _ e. e ≡ Memory };

    fn from(_e: AllocFailed<T>) -> LexErr {
        LexErr::Memory
    }
}

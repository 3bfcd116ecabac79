//! Why reading stops.

ghost use Rattle.std.specs.Prelude.{◌≡◌};
ghost use Rattle.swreq_grammar.specs.declared.stop.Stop.TheVariants.{Memory};

use crate::token::Token;
use std::alloc::{AllocError, AllocFailed};

/// Why reading stops.
#[derive(Drop)]
pub enum Stop<'a, T, L> {
    /// Memory ran out.
    Memory,
    /// A token is refused, or the text ends too early: the tokens from the refused one on, and the label of the refusal.
    Refused(&'a [Token<T>], Option<L>),
}

impl<'a, T, L> From<AllocError> for Stop<'a, T, L> {
    ghost from_gives = { λ _ e. e ≡ Memory };

    fn from(_e: AllocError) -> Stop<'a, T, L> {
        Stop::Memory
    }
}

impl<'a, T, L, V: Drop> From<AllocFailed<V>> for Stop<'a, T, L> {
    ghost from_gives = { λ _ e. e ≡ Memory };

    fn from(_e: AllocFailed<V>) -> Stop<'a, T, L> {
        Stop::Memory
    }
}

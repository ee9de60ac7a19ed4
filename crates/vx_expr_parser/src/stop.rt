//! Where reading stops.

ghost use Rattle.std.specs.Prelude.{◌≡◌};
ghost use Rattle.vx_expr_parser.specs.declared.stop.Stop.TheVariants.{Memory};

use std::alloc::{AllocError, AllocFailed};
use vx_tokens::Token;

/// Why reading stops. The tokens begin with the one at which it does; none are left at the end.
#[derive(Drop)]
pub enum Stop<'t> {
    /// Memory ran out.
    Memory,
    /// At a token that does not fit.
    Unexpected(&'t [Token<'t>]),
    /// At a measure, where a clause or the block of a method or a loop is due.
    Measured(&'t [Token<'t>]),
    /// At a token that nests too deep.
    TooDeep(&'t [Token<'t>]),
}

impl<'t> From<AllocError> for Stop<'t> {
    ghost from_gives = { λ _ e. e ≡ Memory };

    fn from(_e: AllocError) -> Stop<'t> {
        Stop::Memory
    }
}

impl<'t, T: Drop> From<AllocFailed<T>> for Stop<'t> {
    ghost from_gives = { λ _ e. e ≡ Memory };

    fn from(_e: AllocFailed<T>) -> Stop<'t> {
        Stop::Memory
    }
}

//! Why no text is generated.

ghost use Rattle.std.specs.Prelude.{◌≡◌};
ghost use Rattle.vx_gen.specs.declared.fault.GenFault.TheVariants.{Want};

use std::alloc::{AllocError, AllocFailed};
use thiserror::Error;

/// Why no text is generated.
#[derive(Debug, Drop, Error)]
pub enum GenFault {
    /// More than 2000 methods.
    #[error("too large")]
    TooLarge,
    /// Memory ran out.
    #[error("want of memory")]
    Want,
}

impl From<AllocError> for GenFault {
    ghost from_gives = { λ _ e. e ≡ Want };

    fn from(_e: AllocError) -> GenFault {
        GenFault::Want
    }
}

impl<T: Drop> From<AllocFailed<T>> for GenFault {
    ghost from_gives = { λ _ e. e ≡ Want };

    fn from(_e: AllocFailed<T>) -> GenFault {
        GenFault::Want
    }
}

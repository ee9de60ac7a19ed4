//! Why reading stops.
ghost use Rattle.std.specs.Prelude.{◌≡◌};

use std::alloc::{AllocError, AllocFailed};

/// Why reading stops: the written form ends here, or memory does.
#[derive(Clone, Copy)]
pub enum Stop {
    Form,
    Want,
}

impl From<AllocError> for Stop {
    ghost use Rattle.cs_reader.specs.declared.stop.Stop.TheVariants.{Want};

    ghost from_gives = { λ _ e. e ≡ Want };

    fn from(_: AllocError) -> Self {
        Stop::Want
    }
}

impl<T: Drop> From<AllocFailed<T>> for Stop {
    ghost use Rattle.cs_reader.specs.declared.stop.Stop.TheVariants.{Want};

    ghost from_gives = { λ _ e. e ≡ Want };

    fn from(_: AllocFailed<T>) -> Self {
        Stop::Want
    }
}

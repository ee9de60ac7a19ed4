//! Why a run stops before its end.
ghost use Rattle.std.specs.Prelude.{◌≡◌};

use crate::outcome::Whole;
use std::alloc::{AllocError, AllocFailed};

/// Why a run stops before its end.
#[derive(Clone, Copy)]
pub enum Halt {
    /// It is over, with this outcome.
    Over(Whole),
    /// Memory runs out.
    Want,
}

impl From<AllocError> for Halt {
    ghost use Rattle.vx_run.specs.declared.halt.Halt.TheVariants.{Want};

    ghost from_gives = { λ _ e. e ≡ Want };

    fn from(_: AllocError) -> Self {
        Halt::Want
    }
}

impl<T: Drop> From<AllocFailed<T>> for Halt {
    ghost use Rattle.vx_run.specs.declared.halt.Halt.TheVariants.{Want};

    ghost from_gives = { λ _ e. e ≡ Want };

    fn from(_: AllocFailed<T>) -> Self {
        Halt::Want
    }
}

impl From<Whole> for Halt {
    ghost use Rattle.vx_run.specs.declared.halt.Halt.TheVariants.{Over};

    ghost from_gives = { λ end e. e ≡ Over end };

    fn from(end: Whole) -> Self {
        Halt::Over(end)
    }
}

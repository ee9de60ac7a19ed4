// What the program is asked to do.
ghost use Rattle.std.specs.Prelude.{◌≡◌};

use crate::Text;
use std::alloc::AllocError;
use thiserror::Error;
use vx_ends::Parts;

/// What the program is asked to do.
#[derive(Drop)]
pub enum Order {
    /// Verify a file, or standard input where there is no name, by a solver in so many lanes, from 1 to 16: `builtin` alone is the companion.
    Verify {
        file: Option<Text>,
        solver: Parts,
        jobs: u32,
    },
    /// Type a file, or standard input.
    Check {
        file: Option<Text>,
    },
    /// Write the canonical text of a file, or of standard input.
    Print {
        file: Option<Text>,
    },
    /// Write the text of so many generated methods, at most 2000.
    Gen {
        methods: u32,
    },
    /// Verify so many generated methods, at most 2000, by the companion in so many lanes, from 1 to 16, and write the totals alone.
    Work {
        methods: u32,
        jobs: u32,
    },
    /// Run a method of a file as a whole, with the choices that the seed draws.
    Run {
        file: Text,
        method: Text,
        seed: u64,
    },
}

/// Why the words give no order.
#[derive(Clone, Copy, Debug, Error)]
pub enum WordsFault {
    #[error("no such command")]
    Usage,
    #[error("want of memory")]
    Want,
}

impl From<AllocError> for WordsFault {
    ghost use Rattle.vx_words.specs.declared.order.WordsFault.TheVariants.{Want};

    ghost from_gives = { λ _ fault. fault ≡ Want };

    fn from(_: AllocError) -> Self {
        WordsFault::Want
    }
}

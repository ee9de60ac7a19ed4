//! Why bytes are no command.
ghost use Rattle.std.specs.Prelude.{◌≡◌};

use std::alloc::{AllocError, AllocFailed};
use thiserror::Error;

/// Why an s-expression is no command, or that memory ran out.
#[derive(Clone, Copy, Debug, Error)]
pub enum CommandFault {
    #[error("a name that is unknown, or taken where it is declared")]
    Name,
    #[error("a number that leaves 128 bits")]
    Wide,
    #[error("a command of another form, or a term that isn't well-sorted")]
    Sort,
    #[error("2^32 levels or more")]
    Levels,
    #[error("another command")]
    Unsupported,
    #[error("want of memory")]
    Want,
}

/// Why bytes are no command: there is no first s-expression, or it is none.
#[derive(Clone, Copy, Debug, Error)]
pub enum Fault {
    #[error("the bytes end too early")]
    Unfinished,
    #[error("no token")]
    BadToken,
    #[error("too many open lists")]
    Deep,
    #[error("{0}")]
    Command(CommandFault),
}

impl From<AllocError> for CommandFault {
    ghost use Rattle.cs_commands.specs.declared.fault.CommandFault.TheVariants.{Want};

    ghost from_gives = { λ _ e. e ≡ Want };

    fn from(_: AllocError) -> Self {
        CommandFault::Want
    }
}

impl<T: Drop> From<AllocFailed<T>> for CommandFault {
    ghost use Rattle.cs_commands.specs.declared.fault.CommandFault.TheVariants.{Want};

    ghost from_gives = { λ _ e. e ≡ Want };

    fn from(_: AllocFailed<T>) -> Self {
        CommandFault::Want
    }
}

//! The command that bytes are.
ghost use Rattle.cs_commands.specs.Understanding.{Understands};
ghost use Rattle.cs_commands.specs.Views.{scope};

use crate::command::understood;
use crate::fault::{CommandFault, Fault};
use crate::live::Live;
use std::alloc::Global;
use vx_sexp::{SexpFault, read};
use vx_smt_meaning::Command;

/// The command that the first s-expression of the bytes is.
///
/// # Errors
/// Why there is no first s-expression, or its first fault from left to right; or want of memory.
pub fn understand(alloc: Global, live: &Live<'_, '_>, bytes: &[u8]) -> Result<Command, Fault>
    ensures { Understands (scope live.now) bytes.now result }
{
    match read(alloc, bytes) {
        Ok((sexp, _)) => match understood(alloc, live, sexp.tokens()) {
            Ok(command) => Ok(command),
            Err(fault) => Err(Fault::Command(fault)),
        },
        Err(SexpFault::Unfinished(_)) => Err(Fault::Unfinished),
        Err(SexpFault::BadToken(_)) => Err(Fault::BadToken),
        Err(SexpFault::Deep(_)) => Err(Fault::Deep),
        Err(SexpFault::Want) => Err(Fault::Command(CommandFault::Want)),
    }
}

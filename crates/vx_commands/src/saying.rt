//! The commands that have no report: what they say of a text.

ghost use Rattle.std.specs.Prelude.{IfOk};
ghost use Rattle.vx_commands.specs.Texts.{Says};
ghost use Rattle.vx_commands.specs.Promised.{IsText};

use crate::output::Output;
use crate::reading::{Checked, Parsed, read, type_of};
use std::alloc::{AllocError, Global};
use vx_print::print;
use vx_report::Status;

/// What a command without a report says of a text.
#[derive(Clone, Copy)]
pub enum Saying {
    /// Whether it is typed.
    Typed,
    /// The canonical text.
    Canonical,
}

impl Saying {
    /// What is said of this text.
    pub fn of(self, alloc: Global, text: &[u8]) -> Result<Output, AllocError>
        ensures { IfOk result (IsText (Says self text.now)) }
    {
        match self {
            Saying::Typed => checked(alloc, text),
            Saying::Canonical => canonical(alloc, text),
        }
    }
}

// `ok`, where the program that a text spells is typed.
fn checked(alloc: Global, text: &[u8]) -> Result<Output, AllocError>
    ensures { IfOk result (IsText (Says Saying.Typed text.now)) }
{
    let program = match read(alloc, text)? {
        Parsed::Program(program) => program,
        Parsed::Refused(line) => return Ok(Output::line(alloc, line, Status::Refused)),
    };
    match type_of(alloc, &program)? {
        Checked::Typed(typed) => {
            typed.typed();
            let bytes = Vec::from_slice(alloc, b"ok\n")?;
            Ok(Output::text(alloc, bytes, Status::Done))
        }
        Checked::Refused(line) => Ok(Output::line(alloc, line, Status::Refused)),
    }
}

// The canonical text of the program that a text spells.
fn canonical(alloc: Global, text: &[u8]) -> Result<Output, AllocError>
    ensures { IfOk result (IsText (Says Saying.Canonical text.now)) }
{
    match read(alloc, text)? {
        Parsed::Program(program) => {
            let bytes = print(alloc, &program)?;
            Ok(Output::text(alloc, bytes, Status::Done))
        }
        Parsed::Refused(line) => Ok(Output::line(alloc, line, Status::Refused)),
    }
}

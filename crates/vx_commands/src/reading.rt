//! Loading a text, and reading its program.

ghost use Rattle.std.specs.Prelude.{◌≡◌, IfOk, option_copied};
ghost use Rattle.vx_ast.specs.Written.{written_program};
ghost use Rattle.vx_commands.specs.Outside.{change, texts, AsksOnly};
ghost use Rattle.vx_commands.specs.Steps.{IsLoadedFrom, IsParsedFrom, IsCheckedFrom};

use crate::answers::{text_refusal, type_refusal};
use std::alloc::{AllocError, Global};
use vx_ast::Program;
use vx_ends::{Files, LoadFault};
use vx_parser::parse;
use vx_typing::{Typed, check};

/// A text, or why there is none.
#[derive(Drop)]
pub enum Loaded {
    Text(Vec<u8>),
    Unread,
    TooLong,
}

/// The text of a file, or of standard input where there is no name.
pub fn load<F: Files>(
    alloc: Global,
    files: &mut F,
    name: Option<&str>,
) -> Result<Loaded, AllocError>
    ensures text { IfOk result (IsLoadedFrom (option_copied name.entry) (change (texts F.holds F.asked F.faults) files.old files.new)) }
    ensures asked { AsksOnly (option_copied name.entry) (change (texts F.holds F.asked F.faults) files.old files.new) }
{
    match files.load(alloc, name) {
        Ok(text) => Ok(Loaded::Text(text)),
        Err(LoadFault::Failed) => Ok(Loaded::Unread),
        Err(LoadFault::TooLong) => Ok(Loaded::TooLong),
        Err(LoadFault::Want) => Err(AllocError),
    }
}

/// The program of a text, or the line of its refusal.
#[derive(Drop)]
pub enum Parsed {
    Program(Program),
    Refused(String),
}

/// Reads a text.
pub fn read(alloc: Global, text: &[u8]) -> Result<Parsed, AllocError>
    ensures { IfOk result (IsParsedFrom text.now) }
{
    match parse(alloc, text) {
        Ok(program) => Ok(Parsed::Program(program)),
        Err(fault) => Ok(Parsed::Refused(text_refusal(alloc, &fault)?)),
    }
}

/// A typed program, or the line of its refusal.
#[derive(Drop)]
pub enum Checked<'a> {
    Typed(Typed<'a>),
    Refused(String),
}

/// Types a program.
pub fn type_of(alloc: Global, program: &Program) -> Result<Checked<'_>, AllocError>
    ensures { IfOk result (IsCheckedFrom (written_program program.now)) }
{
    match check(alloc, program) {
        Ok(typed) => Ok(Checked::Typed(typed)),
        Err(fault) => Ok(Checked::Refused(type_refusal(alloc, &fault)?)),
    }
}

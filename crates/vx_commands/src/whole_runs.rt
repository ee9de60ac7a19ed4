//! Whole runs: a method of a file runs as a whole, with the choices that a seed draws.

ghost use Rattle.std.specs.Prelude.{◌≡◌, IfOk, Some, string_bytes};
ghost use Rattle.vx_ast.specs.Syntax.{Method, Block, method_named};
ghost use Rattle.vx_resolved.specs.Settled.{settled as settled_program};
ghost use Rattle.vx_typing.specs.Typed.{written_of};
ghost use Rattle.vx_run.specs.Views.{outcome};
ghost use Rattle.vx_run.specs.Means.{HasBody};
ghost use Rattle.vx_commands.specs.Refusals.{IsSpelledBy};
ghost use Rattle.vx_commands.specs.WholeRuns.{at_place, outcome_line, outcome_status, SaysOutcome, SaysRunIn, SaysRunOf, SaysRun};
ghost use Rattle.vx_commands.specs.Promised.{IsText};

use crate::answers::{no_body, no_method};
use crate::output::Output;
use crate::reading::{Checked, Parsed, read, type_of};
use std::alloc::{AllocError, Global};
use std::rc::Rc;
use vx_ast::{MemberId, Place};
use vx_report::{Status, write_place};
use vx_resolved::Settled;
use vx_run::{Whole, run_whole};
use vx_typing::Typed;
use vx_verifier::{settled, typed_programs_are_whole};
use vx_words::Text;

const MOST_STEPS: u64 = 100_000;

// A line that ends in a place.
fn line_at(alloc: Global, front: &str, place: Place) -> Result<String, AllocError>
    ensures { IfOk result (λ line. string_bytes line ≡ at_place front.now place) }
{
    let mut line = String::from_str(alloc, front)?;
    write_place(&mut line, place)?;
    line.push_str("\n")?;
    Ok(line)
}

fn line_of(alloc: Global, whole: Whole) -> Result<String, AllocError>
    ensures { IfOk result (λ line. string_bytes line ≡ outcome_line (outcome whole)) }
{
    match whole {
        Whole::Ended => String::from_str(alloc, "ended\n"),
        Whole::Stopped(place) => line_at(alloc, "stopped at ", place),
        Whole::Failed(place) => line_at(alloc, "failed at ", place),
        Whole::Running => String::from_str(alloc, "running after 100000 steps\n"),
        Whole::Wide { place, .. } => line_at(alloc, "wide at ", place),
    }
}

fn status_of(whole: &Whole) -> Status
    ensures { result ≡ outcome_status (outcome whole.now) }
{
    match whole {
        Whole::Failed(_) => Status::NotVerified,
        Whole::Ended | Whole::Stopped(_) | Whole::Running | Whole::Wide { .. } => Status::Done,
    }
}

// What an outcome is told as.
fn told(alloc: Global, whole: Whole) -> Result<Output, AllocError>
    ensures { IfOk result (IsText (SaysOutcome (outcome whole))) }
{
    let status = status_of(&whole);
    let line = line_of(alloc, whole)?;
    Ok(Output::line(alloc, line, status))
}

// Runs the member of this number, which is a method with a body.
fn run_member(
    alloc: Global,
    program: &Settled,
    number: MemberId,
    seed: u64,
) -> Result<Output, AllocError>
    ensures { IfOk result (λ output. (m : Method) (b : Block) → HasBody (settled_program program.now) number m b
        → IsText (SaysRunIn (settled_program program.now) seed m (Some b)) output) }
{
    let whole = run_whole(alloc, program, number, seed, MOST_STEPS)?;
    told(alloc, whole)
}

// Runs the method of this name.
fn run_named(
    alloc: Global,
    program: &Settled,
    method: &Text,
    seed: u64,
) -> Result<Output, AllocError>
    ensures { IfOk result (IsText (SaysRunOf (settled_program program.now) seed method.now (method_named (settled_program program.now) method.now))) }
{
    let name = Rc::new(alloc, String::from_str(alloc, method.as_str())?)?;
    let (Some(found), Some(number)) = (program.method(&name)?, program.number_of(&name)) else {
        let line = no_method(alloc, method.as_str())?;
        return Ok(Output::line(alloc, line, Status::Refused));
    };
    let Ok(number) = u32::try_from(number) else {
        return Err(AllocError);
    };
    match found.body {
        Some(_) => run_member(alloc, program, MemberId(number), seed),
        None => {
            let line = no_body(alloc)?;
            Ok(Output::line(alloc, line, Status::Refused))
        }
    }
}

// Runs a method of a typed program of a text.
fn run_typed(
    alloc: Global,
    text: &[u8],
    typed: &Typed,
    method: &Text,
    seed: u64,
) -> Result<Output, AllocError>
    requires { IsSpelledBy text.now (written_of typed.now) }
    ensures { IfOk result (IsText (SaysRun method.now seed text.now)) }
{
    typed.typed();
    typed_programs_are_whole(typed);
    let program = settled(alloc, typed)?;
    run_named(alloc, &program, method, seed)
}

/// What the whole run of a method of the text's program comes to, with the choices that the seed draws; or why there is none.
pub fn run_text(alloc: Global, text: &[u8], method: &Text, seed: u64) -> Result<Output, AllocError>
    ensures { IfOk result (IsText (SaysRun method.now seed text.now)) }
{
    let program = match read(alloc, text)? {
        Parsed::Program(program) => program,
        Parsed::Refused(line) => return Ok(Output::line(alloc, line, Status::Refused)),
    };
    match type_of(alloc, &program)? {
        Checked::Typed(typed) => run_typed(alloc, text, &typed, method, seed),
        Checked::Refused(line) => Ok(Output::line(alloc, line, Status::Refused)),
    }
}

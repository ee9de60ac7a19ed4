//! The work of the companion: generated methods, which it verifies.

ghost use Rattle.std.specs.Prelude.{◌≡◌, ◌≤◌, IfOk, string_bytes};
ghost use Rattle.vx_ast.specs.Written.{written_program};
ghost use Rattle.vx_typing.specs.Typed.{written_of};
ghost use Rattle.vx_gen.specs.Generated.{generated};
ghost use Rattle.vx_gen.specs.Programs as gen;
ghost use Rattle.vx_words.specs.Orders.{IsLanes};
ghost use Rattle.vx_commands.specs.Outside.{change, companions};
ghost use Rattle.vx_commands.specs.Reports.{IsWork, companion_alone};
ghost use Rattle.vx_commands.specs.Steps.{Asks};

use crate::output::Output;
use crate::reading::{Parsed, read};
use crate::reports::{Telling, report_by_companion};
use std::alloc::{AllocError, Global};
use vx_ast::Program;
use vx_companion::Builtin;
use vx_ends::Parts;
use vx_gen::{GenFault, generate, generated_is_typed};
use vx_typing::{TypeFault, Typed, check, programs_are_told};
use vx_verifier::typed_programs_are_whole;

/// The text of so many generated methods.
pub fn text_of(alloc: Global, methods: u32) -> Result<String, AllocError>
    requires { methods ≤ 2000 }
    ensures { IfOk result (λ text. string_bytes text ≡ generated methods) }
{
    match generate(alloc, methods) {
        Ok(text) => Ok(text),
        Err(GenFault::TooLarge) => unreachable!(),
        Err(GenFault::Want) => Err(AllocError),
    }
}

// The program that the text spells.
fn program_of(alloc: Global, methods: u32, text: &str) -> Result<Program, AllocError>
    requires few { methods ≤ 2000 }
    requires text { text.now ≡ generated methods }
    ensures { IfOk result (λ p. written_program p ≡ gen.program_of methods) }
{
    generated_is_typed();
    match read(alloc, text.as_bytes())? {
        Parsed::Program(program) => Ok(program),
        Parsed::Refused(_) => unreachable!(),
    }
}

// The program, typed.
fn typed_of(alloc: Global, methods: u32, program: &Program) -> Result<Typed<'_>, AllocError>
    requires few { methods ≤ 2000 }
    requires program { written_program program.now ≡ gen.program_of methods }
    ensures { IfOk result (λ t. written_of t ≡ gen.program_of methods) }
{
    generated_is_typed();
    programs_are_told();
    match check(alloc, program) {
        Ok(typed) => Ok(typed),
        Err(TypeFault::Want) => Err(AllocError),
        Err(_) => unreachable!(),
    }
}

// The companion's name, as a command.
fn companion(alloc: Global) -> Result<Parts, AllocError>
    ensures { IfOk result (λ parts. parts ≡ companion_alone) }
{
    let mut parts = Parts::new(alloc);
    parts.push(alloc, "builtin")?;
    Ok(parts)
}

// Verifies the typed program of so many generated methods by the companion.
fn work_on(
    alloc: Global,
    methods: u32,
    jobs: u32,
    typed: &Typed,
    builtin: &mut Builtin,
) -> Result<Output, AllocError>
    requires few { methods ≤ 2000 }
    requires lanes { IsLanes jobs }
    requires program { written_of typed.now ≡ gen.program_of methods }
    ensures { let shown = change companions builtin.old builtin.new in Asks companion_alone jobs (IsWork methods jobs shown) shown result }
{
    generated_is_typed();
    typed_programs_are_whole(typed);
    let solver = companion(alloc)?;
    report_by_companion(alloc, Telling::Totals, typed, jobs, &solver, builtin)
}

/// Verifies so many generated methods by the companion in so many lanes, and reports the line of the totals.
pub fn work(
    alloc: Global,
    methods: u32,
    jobs: u32,
    builtin: &mut Builtin,
) -> Result<Output, AllocError>
    requires few { methods ≤ 2000 }
    requires lanes { IsLanes jobs }
    ensures { let shown = change companions builtin.old builtin.new in Asks companion_alone jobs (IsWork methods jobs shown) shown result }
{
    let text = text_of(alloc, methods)?;
    let program = program_of(alloc, methods, &text)?;
    let typed = typed_of(alloc, methods, &program)?;
    work_on(alloc, methods, jobs, &typed, builtin)
}

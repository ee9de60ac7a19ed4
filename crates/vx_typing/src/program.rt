//! Programs.

ghost use Rattle.std.specs.Prelude.{◌≡◌, IfOk};
ghost use Rattle.vx_ast.specs.Written.{written_program};
ghost use Rattle.vx_typing.specs.Programs as first;
ghost use Rattle.vx_expressions.specs.Gives.{Gives};
ghost use Rattle.vx_typing.specs.Typed.{written_of};

use crate::Typed;
use crate::groups::check_all_groups;
use crate::members::{check_members, members_of};
use std::alloc::Global;
use vx_ast::Program;
use vx_expressions::TypeFault;

/// The typed program, where it is typed. Otherwise its first fault: of the names of all members, of each member in file
/// order, of measures, and of what leads back to its own group. A program of 2^32 members or more is beyond memory.
///
/// # Errors
/// The first fault, at its place; `Want` where memory runs out.
pub fn check<'a>(alloc: Global, program: &'a Program) -> Result<Typed<'a>, TypeFault>
    ensures first { Gives (λ x. tt) result (first.program (written_program program.now)) }
    ensures program { IfOk result (λ t. written_of t ≡ written_program program.now) }
{
    if program.members.len() >= 1 << 32 {
        return Err(TypeFault::Want);
    }
    let members = members_of(alloc, &program.members)?;
    check_members(alloc, &members, &program.members)?;
    check_all_groups(alloc, &members, &program.members)?;
    Ok(Typed { program, members })
}

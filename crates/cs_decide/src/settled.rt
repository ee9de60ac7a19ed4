//! Where all attempts leave a stack undecided of which few terms are Bool, all its clauses at once decide it.
ghost use Rattle.std.specs.Prelude.{IfOk, IfSome};
ghost use Rattle.cs_proof.specs.Fits.{seen};
ghost use Rattle.cs_answer.specs.Answers.{IsRight};
ghost use Rattle.cs_answer.specs.Causes.{IsCause};
ghost use Rattle.cs_answer.specs.Few.{IsFew, IsDecided};

use cs_answer::{Answer, Cause, is_few};
use cs_ground::{Settled, settle};
use cs_proof::{Stack, Want, finished_refutes};
use std::alloc::Global;

/// The answer of a stack, by all clauses that its terms give.
fn by_clauses(alloc: Global, stack: &Stack) -> Result<Answer, Want>
    ensures right { IsFew (seen stack.now) → IfOk result (IsRight (seen stack.now)) }
    ensures decided { IfOk result IsDecided }
{
    finished_refutes();
    match settle(alloc, stack)? {
        Settled::Refuted(steps) => Ok(Answer::Refuted(steps)),
        Settled::Satisfied(model) => Ok(Answer::Satisfied(model)),
    }
}

/// The answer of a stack that attempts leave undecided, by this cause if there is one: it stays so, unless few terms are Bool.
///
/// # Errors
/// `Want` where memory runs out, or where there is no cause.
pub fn settled(alloc: Global, stack: &Stack, cause: Option<Cause>) -> Result<Answer, Want>
    requires { IfSome cause (IsCause (seen stack.now)) }
    ensures right { IfOk result (IsRight (seen stack.now)) }
    ensures few { IsFew (seen stack.now) → IfOk result IsDecided }
{
    if is_few(alloc, stack)? {
        return by_clauses(alloc, stack);
    }
    match cause {
        Some(cause) => Ok(Answer::Unknown(cause)),
        None => Err(Want),
    }
}

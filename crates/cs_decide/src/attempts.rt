//! Attempts: where one ends with nothing that can be shown, another one prefers other signs. The last one begins with cases of the numbers,
//! as many as the deeds that are wanted of an attempt.
ghost use Rattle.std.specs.Prelude.{◌≡◌, IfOk, IfSome};
ghost use Rattle.vx_terms.specs.Interpretations.{Each};
ghost use Rattle.cs_numbers.specs.Laws.{IsSorted};
ghost use Rattle.cs_proof.specs.Fits.{seen};
ghost use Rattle.cs_answer.specs.Answers.{IsRefutation, IsSatisfaction, IsCaused, IsRight};
ghost use Rattle.cs_answer.specs.Causes.{IsCause};
ghost use Rattle.cs_answer.specs.Few.{IsFew, IsDecided};
ghost use Rattle.cs_opposites.specs.Opposites.{HasOpposites};
ghost use Rattle.cs_certificate.specs.Certificate as certificates;
ghost use Rattle.cs_decide.specs.Refuted.{IsRefuted};
ghost use Rattle.cs_decide.specs.Tried.{IsRightlyTried};

use crate::check::{Attempt, Stopped};
use crate::settled::settled;
use crate::turns::decided;
use cs_answer::{Answer, Cause, stopped};
use cs_opposites::{opposed, opposites_refute};
use cs_proof::{Stack, Want};
use cs_sums::Stop;
use std::alloc::Global;

/// So many attempts are made before the last one.
const ATTEMPTS: u32 = 12;

/// What an attempt leads to.
#[derive(Drop)]
enum Tried {
    Answered(Answer),
    /// Its units are spent, though its steps don't show so many deeds; or a call left 128 bits, though no literal is large.
    Spent,
    /// It ended with nothing that can be shown.
    Missed,
}

/// The cause of an attempt that stopped, as its answer; or what it led to.
fn caused(alloc: Global, stack: &Stack, end: Stopped) -> Result<Tried, Want>
    ensures { IfOk result (IsRightlyTried (seen stack.now)) }
{
    let Stopped { stop, steps } = end;
    match stopped(alloc, stack, &steps, stop)? {
        Some(cause) => Ok(Tried::Answered(Answer::Unknown(cause))),
        None => Ok(without_cause(stop)),
    }
}

fn without_cause(stop: Stop) -> Tried
    ensures { (stack : certificates.Stack) → IsRightlyTried stack result }
{
    match stop {
        Stop::Budget | Stop::Over(_) => Tried::Spent,
        Stop::Miss | Stop::Want => Tried::Missed,
    }
}

/// One attempt.
fn attempted(alloc: Global, stack: &Stack, attempt: Attempt) -> Result<Tried, Want>
    ensures { IfOk result (IsRightlyTried (seen stack.now)) }
{
    match decided(alloc, stack, attempt) {
        Ok(answer) => Ok(Tried::Answered(answer)),
        Err(end) => caused(alloc, stack, end),
    }
}

/// The answer of the first attempts, if one of them has it. One that has spent its units is the last of them.
fn by_attempts(alloc: Global, stack: &Stack) -> Result<Option<Answer>, Want>
    ensures { IfOk result (λ found. IfSome found (IsRight (seen stack.now))) }
{
    for attempt in 0..ATTEMPTS {
        match attempted(alloc, stack, Attempt::Signs(attempt))? {
            Tried::Answered(answer) => return Ok(Some(answer)),
            Tried::Spent => return Ok(None),
            Tried::Missed => {}
        }
    }
    Ok(None)
}

/// The answer of all attempts, if one of them has it.
fn answered(alloc: Global, stack: &Stack) -> Result<Option<Answer>, Want>
    ensures { IfOk result (λ found. IfSome found (IsRight (seen stack.now))) }
{
    if let Some(answer) = by_attempts(alloc, stack)? {
        return Ok(Some(answer));
    }
    match attempted(alloc, stack, Attempt::Cases)? {
        Tried::Answered(answer) => Ok(Some(answer)),
        Tried::Spent | Tried::Missed => Ok(None),
    }
}

/// The answer of a stack that attempts leave undecided, by this cause if there is one: `false`, or a term and its negation, refute it.
fn undecided(alloc: Global, stack: &Stack, cause: Option<Cause>) -> Result<Answer, Want>
    requires { IfSome cause (IsCause (seen stack.now)) }
    ensures right { IfOk result (IsRight (seen stack.now)) }
    ensures few { IsFew (seen stack.now) → IfOk result IsDecided }
    ensures opposed { HasOpposites (seen stack.now).assertions → IfOk result IsRefuted }
{
    opposites_refute();
    match opposed(alloc, stack)? {
        Some(steps) => Ok(Answer::Refuted(steps)),
        None => settled(alloc, stack, cause),
    }
}

/// The answer of an attempt, unless it leaves the stack undecided where another one is due.
fn concluded(alloc: Global, stack: &Stack, answer: Answer) -> Result<Answer, Want>
    requires { IsRight (seen stack.now) answer }
    ensures right { IfOk result (IsRight (seen stack.now)) }
    ensures few { IsFew (seen stack.now) → IfOk result IsDecided }
    ensures opposed { HasOpposites (seen stack.now).assertions → IfOk result IsRefuted }
{
    opposites_refute();
    match answer {
        Answer::Refuted(steps) => Ok(Answer::Refuted(steps)),
        Answer::Satisfied(model) => Ok(Answer::Satisfied(model)),
        Answer::Unknown(cause) => undecided(alloc, stack, Some(cause)),
    }
}

/// Decides the assertions of a stack. Numbers have the rules of linear arithmetic; a product of two terms that aren't literals, and
/// a quotient or a remainder by such a term, is a term as any other. What is answered is right. Where the assertions are writable, no term
/// is a number and at most ten are Bool, the answer is never `Unknown`: what attempts leave undecided is then decided by all clauses of
/// the stack at once, in a time that may grow with the fourth power of the number of terms. Nor is it where `false` is asserted, or a term
/// and its negation.
///
/// # Errors
/// `Want` where memory runs out, or where no attempt ends with what can be shown.
pub fn decide(alloc: Global, stack: &Stack) -> Result<Answer, Want>
    // over well-sorted assertions
    ensures refuted { Each IsSorted (seen stack.now).assertions → IfOk result (IsRefutation (seen stack.now)) }
    ensures satisfied { IfOk result (IsSatisfaction (seen stack.now)) }
    ensures caused { IfOk result (IsCaused (seen stack.now)) }
    ensures few { IsFew (seen stack.now) → IfOk result IsDecided }
    ensures opposed { HasOpposites (seen stack.now).assertions → IfOk result IsRefuted }
{
    match answered(alloc, stack)? {
        Some(answer) => concluded(alloc, stack, answer),
        None => undecided(alloc, stack, None),
    }
}

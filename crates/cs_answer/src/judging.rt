//! What makes an answer: the checker finishes a certificate, an evaluation makes all assertions true, or a cause of an
//! undecided check is looked at again.
ghost use Rattle.std.specs.Prelude.{◌≡◌, ◌↔◌, ◌&&◌, [], Err, IfOk, IfErr, IfSome, IsSome, OnOk, map};
ghost use Rattle.std.specs.Bool.{Decides};
ghost use Rattle.std.specs.Global.{Vec};
ghost use Rattle.vx_terms.specs.Interpretations.{Each};
ghost use Rattle.cs_numbers.specs.Laws.{IsSorted};
ghost use Rattle.cs_proof.specs.Answers.{Answers};
ghost use Rattle.cs_certificate.specs.Certificate as certificates;
ghost use Rattle.cs_proof.specs.Checking.{Verdict, NotEmpty, refusal as verdict_of};
ghost use Rattle.cs_proof.specs.declared.step.Step.{Step};
ghost use Rattle.cs_proof.specs.CheckerView.{Closes};
ghost use Rattle.cs_proof.specs.Fits.{seen};
ghost use Rattle.cs_proof.specs.Views.{written};
ghost use Rattle.cs_sums.specs.declared.stop.Stop.TheVariants as stops;
ghost use Rattle.cs_model.specs.declared.tables.Model.{Model};
ghost use Rattle.cs_answer.specs.Causes.{IsCause, is_nonlinear_at, has_number};
ghost use Rattle.cs_answer.specs.Answers.{IsRight};
ghost use Rattle.cs_answer.specs.Judged.{IsByText, IsByChecker, IsByModel, IsModel, ShowsWork, IsByStop};

use crate::answer::{Answer, Cause};
use crate::deeds::{WANTED, deed_count};
use crate::large::has_large;
use crate::nonlinear::{has_number, is_nonlinear_at};
use cs_meter::leaves;
use cs_model::{Model, is_model};
use cs_proof::{Checker, Stack, Step, Want, finished_refutes};
use cs_reader::{Refusal, SymbolIndex, Symbols};
use cs_sums::Stop;
use cs_writable::are_writable;
use std::alloc::Global;
use vx_frac::Over;
use vx_smt_meaning::Declared;

/// What the checker says of a certificate's steps.
fn verdict(alloc: Global, stack: &Stack, steps: &[Step]) -> Result<Result<(), Refusal>, Stop>
    ensures told { IfOk result (λ told. Each IsSorted (seen stack.now).assertions → (v : Verdict) → Answers (seen stack.now) (map written steps.now) v ↔ Closes told v) }
    ensures want { IfErr result (λ e. e ≡ stops.Want) }
{
    let declared: &[Declared] = &stack.symbols;
    let index = SymbolIndex::of(alloc, declared)?;
    let symbols = Symbols::new(declared, &index);
    match Checker::of(alloc, stack, &symbols, steps) {
        Ok(checker) => Ok(checker.finish()),
        Err(_) => Err(Stop::Want),
    }
}

/// What a refusal of steps is told as.
fn refused(refusal: Refusal) -> Stop
    ensures { (stack : certificates.Stack) → (steps : Vec Step) → ((v : Verdict) → Answers stack (map written steps.items) v ↔ (v ≡ verdict_of refusal))
        → IsByChecker stack steps (Err result) }
{
    match refusal {
        Refusal::Over(_, op, a, b) => Stop::Over(Over { op, a, b }),
        Refusal::BadStep(_) | Refusal::NotEmpty | Refusal::BadForm(_) => Stop::Miss,
    }
}

/// A refutation by finished steps, where all of them are writable.
///
/// # Errors
/// `Miss` where one isn't; `Want` where memory runs out.
fn writable(alloc: Global, steps: Vec<Step>) -> Result<Answer, Stop>
    ensures { IsByText steps result }
{
    if are_writable(alloc, &steps)? {
        Ok(Answer::Refuted(steps))
    } else {
        Err(Stop::Miss)
    }
}

/// The steps refute the assertions where the checker finishes them, and all of them are writable.
///
/// # Errors
/// `Miss` where it refuses them, or one isn't writable; `Over` where a fraction leaves 128 bits; `Want` where memory runs out.
pub fn certified(alloc: Global, stack: &Stack, steps: Vec<Step>) -> Result<Answer, Stop>
    ensures right { IfOk result (IsRight (seen stack.now)) }
    ensures told { Each IsSorted (seen stack.now).assertions → IsByChecker (seen stack.now) steps result }
{
    finished_refutes();
    match verdict(alloc, stack, &steps)? {
        Ok(()) => writable(alloc, steps),
        Err(refusal) => Err(refused(refusal)),
    }
}

/// Whether the term of this number is nonlinear, and there are numbers.
fn misreads(alloc: Global, stack: &Stack, number: u32) -> Result<bool, Stop>
    ensures value { IfOk result (λ b. b ≡ (is_nonlinear_at (seen stack.now).assertions number && has_number (seen stack.now).assertions)) }
    ensures want { IfErr result (λ e. e ≡ stops.Want) }
{
    Ok(is_nonlinear_at(alloc, &stack.assertions, number)? && has_number(alloc, &stack.assertions)?)
}

/// Why a model isn't one: a term may be misread that is nonlinear.
///
/// # Errors
/// `Miss` where there is no such term; `Want` where memory runs out.
fn unmodelled(alloc: Global, stack: &Stack, misread: Option<u32>) -> Result<Answer, Stop>
    ensures right { IfOk result (IsRight (seen stack.now)) }
    ensures told { (m : Model) → (IsModel (seen stack.now) m misread → ⊥) → IsByModel (seen stack.now) m misread result }
{
    let Some(number) = misread else {
        return Err(Stop::Miss);
    };
    if misreads(alloc, stack, number)? {
        return Ok(Answer::Unknown(Cause::Nonlinear(number)));
    }
    Err(Stop::Miss)
}

/// The model satisfies the assertions where each is true in it; else they are undecided by a term that it misreads.
///
/// # Errors
/// `Miss` where it is no model, and misreads no such term; `Over` where a fraction leaves 128 bits; `Want` where memory runs out.
pub fn evaluated(
    alloc: Global,
    stack: &Stack,
    model: Model,
    misread: Option<u32>,
) -> Result<Answer, Stop>
    ensures right { IfOk result (IsRight (seen stack.now)) }
    ensures told { IsByModel (seen stack.now) model misread result }
{
    match is_model(alloc, &model, &stack.assertions) {
        Ok(true) => Ok(Answer::Satisfied(model)),
        Ok(false) => unmodelled(alloc, stack, misread),
        Err(cs_model::Stop::Over(over)) => Err(Stop::Over(over)),
        Err(cs_model::Stop::Want) => Err(Stop::Want),
    }
}

/// Whether the checker says that no empty clause was derived.
fn is_not_empty(told: Result<(), Refusal>) -> bool
    ensures { Decides result (Closes told NotEmpty) }
{
    match told {
        Err(Refusal::NotEmpty) => true,
        Err(Refusal::BadStep(_) | Refusal::Over(_, _, _, _) | Refusal::BadForm(_)) => false,
        Ok(()) => false,
    }
}

/// Whether all steps hold, and none derives the empty clause.
fn are_open(alloc: Global, stack: &Stack, steps: &[Step]) -> Result<bool, Want>
    ensures { IfOk result (λ b. Each IsSorted (seen stack.now).assertions → Decides b (Answers (seen stack.now) (map written steps.now) NotEmpty)) }
{
    match verdict(alloc, stack, steps) {
        Ok(told) => Ok(is_not_empty(told)),
        Err(_) => Err(Want),
    }
}

/// The cause of an attempt that did all that it may, where its steps show it.
fn by_work(alloc: Global, stack: &Stack, steps: &[Step]) -> Result<Option<Cause>, Want>
    ensures cause { IfOk result (λ found. IfSome found (IsCause (seen stack.now))) }
    ensures known { Each IsSorted (seen stack.now).assertions → IfOk result (λ found. IsSome found ↔ ShowsWork (seen stack.now) steps.now) }
{
    if deed_count(steps) < WANTED {
        return Ok(None);
    }
    if are_open(alloc, stack, steps)? {
        Ok(Some(Cause::Budget))
    } else {
        Ok(None)
    }
}

/// The cause of an attempt that met a call which leaves 128 bits, where it does so again, there are numbers, and a literal is large.
fn by_call(alloc: Global, stack: &Stack, call: Over) -> Result<Option<Cause>, Want>
    ensures cause { IfOk result (λ found. IfSome found (IsCause (seen stack.now))) }
    ensures known { IfOk result (IsByStop (seen stack.now) [] (stops.Over call)) }
{
    if leaves(call)
        && has_number(alloc, &stack.assertions)?
        && has_large(alloc, &stack.assertions)?
    {
        Ok(Some(Cause::Over(call)))
    } else {
        Ok(None)
    }
}

/// The cause of an attempt that stopped after these steps, if it has one. One that ends with nothing that can be shown has done what it may
/// where its steps show so many deeds, as one that has spent its units.
///
/// # Errors
/// Want of memory is no cause.
pub fn stopped(
    alloc: Global,
    stack: &Stack,
    steps: &[Step],
    stop: Stop,
) -> Result<Option<Cause>, Want>
    ensures cause { IfOk result (λ found. IfSome found (IsCause (seen stack.now))) }
    ensures known { IfOk result (IsByStop (seen stack.now) steps.now stop) }
    ensures other { OnOk result (stop ≡ Stop.Want → ⊥) }
{
    match stop {
        Stop::Budget | Stop::Miss => by_work(alloc, stack, steps),
        Stop::Over(call) => by_call(alloc, stack, call),
        Stop::Want => Err(Want),
    }
}

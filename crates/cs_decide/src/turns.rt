//! The turns of an attempt, and its answer.
ghost use Rattle.std.specs.Prelude.{◌≡◌, ◌<◌, ◌≤◌, ◌^◌, Err, IfOk, IfSome, IfNone, OnOk, length};
ghost use Rattle.cs_proof.specs.Fits.{seen};
ghost use Rattle.cs_search.specs.Extended.{IsConflict};
ghost use Rattle.cs_search.specs.Search.{IsReady, AreSatisfied};
ghost use Rattle.cs_answer.specs.Answers.{IsRight};
ghost use Rattle.cs_decide.specs.Reached.{IsReached};

use crate::cases::take_cases;
use crate::check::{Attempt, Check, Stopped};
use crate::figures::Found;
use crate::lemmas::{refuse, take_lemma};
use crate::signs::{prefer, prefer_others};
use cs_answer::Answer;
use cs_claims::claims::Claim;
use cs_meter::Meter;
use cs_proof::Stack;
use cs_record::clauses::search_of;
use cs_search::Clause;
use cs_search::search::{
    Search, decide, find_unset, latest, learn_conflict, refutation, spend, spread,
};
use cs_sums::Stop;
use std::alloc::Global;

/// How far decisions have led.
enum Reached {
    /// The clause of this number is false.
    Conflict(usize),
    /// A claim is broken.
    Broken(Claim),
    /// Each atom has a value, each clause is satisfied, and no claim is broken.
    Whole,
}

/// The atom that is decided next is tried as true first, if it is an equality whose terms the classes have joined.
fn aim(alloc: Global, check: &Check, search: &mut Search) -> Result<(), Stop>
    requires narrow { length search.old.made.values.items < 2 ^ 32 }
    ensures same { search.new ≡ record search.old { order = search.new.order } }
{
    if let Some(atom) = find_unset(&search.made.values, &mut search.order) {
        if check.is_joined(alloc, atom)? {
            prefer(&mut search.order, atom, true)?;
        }
    }
    Ok(())
}

/// Decides atom by atom, up to a conflict, a broken claim or a whole assignment.
fn descend(alloc: Global, check: &mut Check, search: &mut Search) -> Result<Reached, Stop>
    requires sound { IsReady search.old }
    requires narrow { length search.old.made.values.items < 2 ^ 32 }
    ensures sound { OnOk result (IsReady search.new) }
    ensures reached { IfOk result (IsReached search.new) }
{
    check.claims.keep(&search.made.trail);
    loop {
        if let Some(conflict) = spread(alloc, search)? {
            return Ok(Reached::Conflict(conflict));
        }
        if let Some(broken) = check.broken(alloc, &search.made)? {
            return Ok(Reached::Broken(broken));
        }
        aim(alloc, check, search)?;
        if !decide(search)? {
            return Ok(Reached::Whole);
        }
    }
}

/// A clause is false: before any decision that refutes the clauses, else the search learns from it.
fn conflicted(
    alloc: Global,
    stack: &Stack,
    check: &mut Check,
    search: &mut Search,
    conflict: usize,
    meter: &mut Meter,
) -> Result<Option<Answer>, Stop>
    requires sound { IsReady search.old }
    requires conflict { IsConflict search.old.clauses.items search.old.made.values.items (length search.old.made.trail.items) conflict }
    ensures answered { IfOk result (λ found. IfSome found (IsRight (seen stack.now))) }
    ensures ready { IfOk result (λ found. IfNone found (IsReady search.new)) }
    ensures spends { IfOk result (λ found. IfNone found (meter.old.spent < meter.new.spent)) }
    ensures kept { (result ≡ Err Stop.Want → ⊥) → meter.old.spent ≤ meter.new.spent }
{
    let Some(start) = latest(search) else {
        let hints = refutation(alloc, search, conflict)?;
        let hints = check.mapped(alloc, &hints)?;
        return Ok(Some(check.refuted(alloc, stack, hints)?));
    };
    if !spend(meter) {
        return Err(Stop::Budget);
    }
    learn_conflict(alloc, search, start, conflict)?;
    check.tell(alloc, search)?;
    Ok(None)
}

/// The classes have no broken claim: numbers lead to a lemma or to cases, and without them there is a model.
fn figured(
    alloc: Global,
    stack: &Stack,
    check: &mut Check,
    search: &mut Search,
    meter: &mut Meter,
) -> Result<Option<Answer>, Stop>
    requires sound { IsReady search.old }
    requires satisfied { AreSatisfied search.old.clauses.items search.old.made.values.items }
    ensures answered { IfOk result (λ found. IfSome found (IsRight (seen stack.now))) }
    ensures ready { IfOk result (λ found. IfNone found (IsReady search.new)) }
    ensures spends { IfOk result (λ found. IfNone found (meter.old.spent < meter.new.spent)) }
    ensures kept { (result ≡ Err Stop.Want → ⊥) → meter.old.spent ≤ meter.new.spent }
{
    match check.examine(alloc, &search.made, meter)? {
        Found::Lemma(lemma) => take_lemma(alloc, stack, check, search, &lemma, meter),
        Found::Cases(cases) => {
            take_cases(alloc, check, search, &cases)?;
            Ok(None)
        }
        Found::Values => Ok(Some(check.modelled(alloc, stack, &search.made.values)?)),
    }
}

/// One turn: decisions, and what they lead to.
fn turn(
    alloc: Global,
    stack: &Stack,
    check: &mut Check,
    search: &mut Search,
    meter: &mut Meter,
) -> Result<Option<Answer>, Stop>
    requires sound { IsReady search.old }
    ensures answered { IfOk result (λ found. IfSome found (IsRight (seen stack.now))) }
    ensures ready { IfOk result (λ found. IfNone found (IsReady search.new)) }
    ensures spends { IfOk result (λ found. IfNone found (meter.old.spent < meter.new.spent)) }
    ensures kept { (result ≡ Err Stop.Want → ⊥) → meter.old.spent ≤ meter.new.spent }
{
    if search.made.values.len() >= 1 << 32 {
        return Err(Stop::Want);
    }
    match descend(alloc, check, search)? {
        Reached::Conflict(conflict) => conflicted(alloc, stack, check, search, conflict, meter),
        Reached::Broken(broken) => refuse(alloc, stack, check, search, broken, meter),
        Reached::Whole => figured(alloc, stack, check, search, meter),
    }
}

/// Turn by turn, up to an answer. Each turn that goes on has spent a unit, so the units end the turns.
fn run(
    alloc: Global,
    stack: &Stack,
    check: &mut Check,
    search: &mut Search,
    meter: &mut Meter,
) -> Result<Answer, Stop>
    requires { IsReady search.old }
    ensures right { IfOk result (IsRight (seen stack.now)) }
    ensures kept { (result ≡ Err Stop.Want → ⊥) → meter.old.spent ≤ meter.new.spent }
{
    loop {
        if let Some(answer) = turn(alloc, stack, check, search, meter)? {
            return Ok(answer);
        }
    }
}

/// The answer of an attempt within its units.
fn answered(
    alloc: Global,
    stack: &Stack,
    attempt: Attempt,
    check: &mut Check,
    clauses: Vec<Clause>,
) -> Result<Answer, Stop>
    ensures { IfOk result (IsRight (seen stack.now)) }
{
    let mut meter = Meter::new();
    let mut search = search_of(alloc, clauses)?;
    prefer_others(&mut search.order, check.live, attempt)?;
    run(alloc, stack, check, &mut search, &mut meter)
}

/// The answer of an attempt over these clauses.
fn attempted(
    alloc: Global,
    stack: &Stack,
    attempt: Attempt,
    mut check: Check,
    clauses: Vec<Clause>,
) -> Result<Answer, Stopped>
    ensures { IfOk result (IsRight (seen stack.now)) }
{
    match answered(alloc, stack, attempt, &mut check, clauses) {
        Ok(answer) => Ok(answer),
        Err(stop) => Err(check.stopped(stop)),
    }
}

/// Decides the assertions of a stack by one attempt, or stops.
pub fn decided(alloc: Global, stack: &Stack, attempt: Attempt) -> Result<Answer, Stopped>
    ensures { IfOk result (IsRight (seen stack.now)) }
{
    match Check::new(alloc, stack, attempt) {
        Ok((check, clauses)) => attempted(alloc, stack, attempt, check, clauses),
        Err(stop) => Err(Stopped {
            stop,
            steps: Vec::new(alloc),
        }),
    }
}

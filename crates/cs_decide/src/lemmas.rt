//! Lemmas and shortcuts that the search takes: a lemma that is false, and what a broken claim teaches.
ghost use Rattle.std.specs.Prelude.{◌≡◌, ◌<◌, ◌≤◌, Err, IsTrue, IfOk, IfSome, IfNone, OnOk, length};
ghost use Rattle.cs_proof.specs.Fits.{seen};
ghost use Rattle.cs_search.specs.Assignment.{FalseBefore, IsFalse};
ghost use Rattle.cs_search.specs.Search.{IsReady, AreSatisfied};
ghost use Rattle.cs_answer.specs.Answers.{IsRight};

use crate::check::Check;
use crate::forced::reasons;
use crate::signs::prefer;
use cs_answer::Answer;
use cs_claims::claims::Claim;
use cs_claims::lemma::lemma_of;
use cs_meter::Meter;
use cs_proof::Stack;
use cs_record::draft::Lemma;
use cs_search::add::add;
use cs_search::assignment::Assignment;
use cs_search::examine::status;
use cs_search::learn::learn;
use cs_search::search::{Search, Undecided, spend};
use cs_search::{Clause, Literal, Status};
use cs_sums::Stop;
use std::alloc::Global;

fn is_false(made: &Assignment, literal: Literal) -> bool
    ensures { IsTrue result → FalseBefore made.now.values.items (length made.now.trail.items) literal }
{
    match status(&made.values, literal) {
        Status::False(place) => place < made.trail.len(),
        Status::True(_) | Status::Unassigned => false,
    }
}

/// Whether all the literals are false.
fn are_false(made: &Assignment, literals: &[Literal]) -> bool
    ensures { IsTrue result → IsFalse made.now.values.items (length made.now.trail.items) literals.now }
{
    for literal in literals {
        if !is_false(made, *literal) {
            return false;
        }
    }
    true
}

/// A lemma that is false before any decision refutes the clauses; else the search learns it.
pub(crate) fn take_lemma(
    alloc: Global,
    stack: &Stack,
    check: &mut Check,
    search: &mut Search,
    lemma: &Lemma,
    meter: &mut Meter,
) -> Result<Option<Answer>, Stop>
    requires sound { IsReady search.old }
    requires satisfied { AreSatisfied search.old.clauses.items search.old.made.values.items }
    ensures answered { IfOk result (λ found. IfSome found (IsRight (seen stack.now))) }
    ensures ready { IfOk result (λ found. IfNone found (IsReady search.new)) }
    ensures spends { IfOk result (λ found. IfNone found (meter.old.spent < meter.new.spent)) }
    ensures kept { (result ≡ Err Stop.Want → ⊥) → meter.old.spent ≤ meter.new.spent }
{
    let literals = check.atoms.literals(alloc, &lemma.literals)?;
    if let Some(reasons) = reasons(alloc, search, &literals)? {
        return Ok(Some(check.refuted_by(alloc, stack, &reasons, lemma.number)?));
    }
    if !are_false(&search.made, &literals) {
        return Err(Stop::Miss);
    }
    match learn(search, Clause { literals }, meter) {
        Ok(()) => {
            check.numbers.push(lemma.number)?;
            Ok(None)
        }
        Err(Undecided::Budget) => Err(Stop::Budget),
        Err(Undecided::Want(_)) => Err(Stop::Want),
    }
}

/// The search gets the clause of a shortcut, whose last equality is tried first.
///
/// # Errors
/// `Budget` where no unit is left; `Want` where memory runs out.
fn take_shortcut(
    alloc: Global,
    check: &mut Check,
    search: &mut Search,
    shortcut: &Lemma,
    meter: &mut Meter,
) -> Result<(), Stop>
    requires sound { IsReady search.old }
    ensures ready { OnOk result (IsReady search.new) }
    ensures kept { meter.old.spent ≤ meter.new.spent }
{
    if !spend(meter) {
        return Err(Stop::Budget);
    }
    let literals = check.meet_shortcut(alloc, shortcut)?;
    if let Some(literal) = literals.last() {
        prefer(&mut search.order, literal.number, true)?;
    }
    check.numbers.push(shortcut.number)?;
    add(search, Clause { literals })?;
    Ok(())
}

/// A lemma that is false before any decision refutes the clauses; else the search gets it, and goes back to its first decision.
fn take_early(
    alloc: Global,
    stack: &Stack,
    check: &mut Check,
    search: &mut Search,
    lemma: &Lemma,
    meter: &mut Meter,
) -> Result<Option<Answer>, Stop>
    requires sound { IsReady search.old }
    ensures answered { IfOk result (λ found. IfSome found (IsRight (seen stack.now))) }
    ensures ready { IfOk result (λ found. IfNone found (IsReady search.new)) }
    ensures spends { IfOk result (λ found. IfNone found (meter.old.spent < meter.new.spent)) }
    ensures kept { (result ≡ Err Stop.Want → ⊥) → meter.old.spent ≤ meter.new.spent }
{
    let literals = check.atoms.literals(alloc, &lemma.literals)?;
    if let Some(reasons) = reasons(alloc, search, &literals)? {
        return Ok(Some(check.refuted_by(alloc, stack, &reasons, lemma.number)?));
    }
    if !spend(meter) {
        return Err(Stop::Budget);
    }
    check.numbers.push(lemma.number)?;
    add(search, Clause { literals })?;
    Ok(None)
}

/// A broken claim teaches a lemma, and a shortcut where it leads over one.
pub(crate) fn refuse(
    alloc: Global,
    stack: &Stack,
    check: &mut Check,
    search: &mut Search,
    broken: Claim,
    meter: &mut Meter,
) -> Result<Option<Answer>, Stop>
    requires sound { IsReady search.old }
    ensures answered { IfOk result (λ found. IfSome found (IsRight (seen stack.now))) }
    ensures ready { IfOk result (λ found. IfNone found (IsReady search.new)) }
    ensures spends { IfOk result (λ found. IfNone found (meter.old.spent < meter.new.spent)) }
    ensures kept { (result ≡ Err Stop.Want → ⊥) → meter.old.spent ≤ meter.new.spent }
{
    let lemma = lemma_of(alloc, &mut check.record, &check.claims, broken)?;
    let shortcut = check.shortcut(alloc, &search.made.values, broken)?;
    if let Some(answer) = take_early(alloc, stack, check, search, &lemma, meter)? {
        return Ok(Some(answer));
    }
    if let Some(shortcut) = shortcut {
        take_shortcut(alloc, check, search, &shortcut, meter)?;
    }
    Ok(None)
}

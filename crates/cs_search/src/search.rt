//! The search itself.
ghost use Rattle.std.specs.Prelude.{◌≡◌, [], ◌∷◌, ◌++◌, ◌<◌, ◌≤◌, ◌+◌, List, length, reverse, take, OnOk, IfOk, IfErr, IsTrue, IfSome, IfNone, true, false, ◌^◌, ℕ, Some, slice_get};
ghost use Rattle.std.specs.List.{Contains};
ghost use Rattle.cs_meter.specs.Units.{limit};
ghost use Rattle.cs_search.specs.Assignment.{IsTrail, IsFalse};
ghost use Rattle.cs_search.specs.Propagation.{IsDerived};
ghost use Rattle.cs_search.specs.Extended.{IsConflict, AreClosed, unset_count};
ghost use Rattle.cs_search.specs.Search.{IsReady, Learns, IsSolved, IsRound, AreSet, AreSetFrom, AreSatisfied};
ghost use Rattle.cs_search.specs.Learned.{IsLastDecision};
ghost use Rattle.cs_search.specs.Settled.{IsDecision, HasReason, Forces};
ghost use Rattle.cs_certificate.specs.declared.literal.Clause.{Clause};
ghost use Rattle.cs_search.specs.Queued.{IsQueued};

use crate::analyse::{analyse, refute};
use crate::assignment::{Assignment, assign, take_back};
use crate::order::Order;
use crate::propagate::propagate;
use crate::queue::{Queue, rewind};
use crate::settle::{last_decision, settle};
use crate::{Clause, Entry, Literal, Value};
use cs_meter::Meter;
use std::alloc::{AllocError, Global};

/// The numbers of clauses that derive one, from last to first.
pub struct Hints {
    pub numbers: Vec<usize>,
}

impl Drop for Hints {
    fn drop(self) {
        let Self { numbers } = self;
    }
}

/// The answer of a search.
#[derive(Drop)]
pub enum Solved {
    Refuted(Hints),
    Assigned,
}

/// Why a search is undecided.
#[derive(Drop)]
pub enum Undecided {
    Budget,
    Want(AllocError),
}

/// Spends one unit, where one is left.
pub fn spend(meter: &mut Meter) -> bool
    ensures spent { result ≡ true → meter.new.spent ≡ meter.old.spent + 1 }
    ensures left { result ≡ true → meter.old.spent < limit }
    ensures full { result ≡ false → meter.old.spent ≡ limit }
    ensures same { result ≡ false → meter.new.spent ≡ meter.old.spent }
{
    match meter.spend() {
        Ok(()) => true,
        Err(_) => false,
    }
}

/// Clauses, how the derived ones were derived, an assignment, what the clauses watch, and which atom is decided next.
pub struct Search {
    pub clauses: Vec<Clause>,
    pub steps: Vec<Hints>,
    pub made: Assignment,
    pub queue: Queue,
    pub order: Order,
}

impl Drop for Search {
    fn drop(self) {
        let Self {
            clauses,
            steps,
            made,
            queue,
            order,
        } = self;
    }
}

impl Search {
    /// A search with no clauses.
    pub fn new(alloc: Global) -> Search
        ensures sound { IsReady result }
        ensures clauses { result.clauses.items ≡ [] }
        ensures steps { result.steps.items ≡ [] }
        ensures values { result.made.values.items ≡ [] }
    {
        Search {
            clauses: Vec::new(alloc),
            steps: Vec::new(alloc),
            made: Assignment {
                values: Vec::new(alloc),
                trail: Vec::new(alloc),
            },
            queue: Queue::new(alloc),
            order: Order::new(alloc),
        }
    }
}

/// Takes the assignment back to its first `cut` entries.
pub fn back_to(search: &mut Search, cut: usize)
    requires sound { IsReady search.old }
    requires room { cut ≤ length search.old.made.trail.items }
    ensures sound { IsTrail search.old.clauses.items search.new.made.values.items search.new.made.trail.items }
    ensures same { search.new ≡ record search.old { made = search.new.made; queue = search.new.queue; order = search.new.order } }
    ensures trail { search.new.made.trail.items ≡ take cut search.old.made.trail.items }
    ensures values { length search.new.made.values.items ≡ length search.old.made.values.items }
    ensures queued { IsQueued search.old.clauses.items search.new.made.values.items search.new.made.trail.items search.new.queue }
{
    rewind(&mut search.queue, &search.made.trail, cut);
    search.order.keep_from(&search.made.trail, cut);
    take_back(&mut search.made, cut, &search.clauses);
}

/// Learns a clause that the conflict derives, and takes the assignment back until it forces a literal.
pub fn learn_conflict(
    alloc: Global,
    search: &mut Search,
    start: usize,
    conflict: usize,
) -> Result<(), AllocError>
    requires sound { IsReady search.old }
    requires decision { IsLastDecision search.old.made.trail.items start }
    requires conflict { IsConflict search.old.clauses.items search.old.made.values.items (length search.old.made.trail.items) conflict }
    ensures sound { OnOk result (IsReady search.new) }
    ensures learns { OnOk result (Learns search.old.clauses.items search.old.steps.items search.new.clauses.items search.new.steps.items) }
    ensures width { OnOk result (length search.new.made.values.items ≡ length search.old.made.values.items) }
{
    let learned = analyse(alloc, &search.clauses, &search.made, start, conflict)?;
    let cut = settle(
        &search.made.values,
        &search.made.trail,
        &learned.literals,
        learned.forced,
        start,
    );
    back_to(search, cut);
    search.clauses.push(Clause {
        literals: learned.literals,
    })?;
    search.steps.push(Hints {
        numbers: learned.hints,
    })?;
    search.order.count(&learned.met)?;
    Ok(())
}

/// An atom without a value, from this one on.
fn unset_from(values: &[Value], from: usize) -> Option<u32>
    requires { length values.now < 2 ^ 32 }
    ensures some { IfSome result (λ atom. slice_get values.now atom ≡ Some Value.Unset) }
    ensures none { IfNone result (AreSetFrom values.now from) }
{
    for i in from..values.len() {
        match values[i] {
            Value::Unset => return Some(i as u32),
            Value::Positive(_) => {}
            Value::Negative(_) => {}
        }
    }
    None
}

/// The first atom without a value.
fn first_unset(values: &[Value], order: &mut Order) -> Option<u32>
    requires { length values.now < 2 ^ 32 }
    ensures some { IfSome result (λ atom. slice_get values.now atom ≡ Some Value.Unset) }
    ensures none { IfNone result (AreSet values.now) }
{
    match unset_from(values, order.next) {
        Some(atom) => {
            order.next = atom as usize;
            Some(atom)
        }
        None => unset_from(values, 0),
    }
}

/// An atom without a value: the one with the highest score, or the first one where none of them has a score.
pub fn find_unset(values: &[Value], order: &mut Order) -> Option<u32>
    requires { length values.now < 2 ^ 32 }
    ensures some { IfSome result (λ atom. slice_get values.now atom ≡ Some Value.Unset) }
    ensures none { IfNone result (AreSet values.now) }
{
    match order.best(values) {
        Some(atom) => Some(atom),
        None => first_unset(values, order),
    }
}

/// What one round did.
#[derive(Drop)]
pub enum Turn {
    Ended(Solved),
    Spent,
    On,
}

/// Makes true all that the clauses force, up to a conflict.
pub fn spread(alloc: Global, search: &mut Search) -> Result<Option<usize>, AllocError>
    requires sound { IsReady search.old }
    ensures sound { OnOk result (IsReady search.new) }
    ensures same { search.new ≡ record search.old { made = search.new.made; queue = search.new.queue } }
    ensures width { OnOk result (length search.new.made.values.items ≡ length search.old.made.values.items) }
    ensures fewer { OnOk result (unset_count search.new.made.values.items ≤ unset_count search.old.made.values.items) }
    ensures conflict { IfOk result (λ found. IfSome found (IsConflict search.new.clauses.items search.new.made.values.items (length search.new.made.trail.items))) }
    ensures closed { IfOk result (λ found. IfNone found (AreClosed search.new.clauses.items search.new.made.values.items (length search.new.made.trail.items)
        (length search.new.clauses.items))) }
    ensures walked { IfOk result (λ found. IfNone found (search.new.queue.head ≡ length search.new.made.trail.items)) }
{
    let found = propagate(alloc, &search.clauses, &mut search.made, &mut search.queue)?;
    Ok(found)
}

/// The latest decision.
pub fn latest(search: &Search) -> Option<usize>
    ensures some { IfSome result (IsLastDecision search.now.made.trail.items) }
    ensures none { IfNone result ((j : ℕ) (e : Entry) → j < length search.now.made.trail.items → slice_get search.now.made.trail.items j ≡ Some e → HasReason e) }
{
    last_decision(&search.made.trail, search.made.trail.len())
}

/// The hints that derive the empty clause.
pub fn refutation(alloc: Global, search: &Search, conflict: usize) -> Result<Hints, AllocError>
    requires sound { IsReady search.now }
    requires forced { (j : ℕ) (e : Entry) → j < length search.now.made.trail.items → slice_get search.now.made.trail.items j ≡ Some e → HasReason e }
    requires conflict { IsConflict search.now.clauses.items search.now.made.values.items (length search.now.made.trail.items) conflict }
    ensures { IfOk result (λ h. IsDerived search.now.clauses.items [] (reverse h.numbers.items)) }
{
    let numbers = refute(alloc, &search.clauses, &search.made, conflict)?;
    Ok(Hints { numbers })
}

/// Decides an atom, where one has no value.
pub fn decide(search: &mut Search) -> Result<bool, AllocError>
    requires sound { IsReady search.old }
    requires narrow { length search.old.made.values.items < 2 ^ 32 }
    requires closed { AreClosed search.old.clauses.items search.old.made.values.items (length search.old.made.trail.items) (length search.old.clauses.items) }
    requires walked { search.old.queue.head ≡ length search.old.made.trail.items }
    ensures sound { OnOk result (IsReady search.new) }
    ensures same { search.new ≡ record search.old { made = search.new.made; order = search.new.order } }
    ensures width { OnOk result (length search.new.made.values.items ≡ length search.old.made.values.items) }
    ensures decided { IfOk result (λ b. b ≡ true → unset_count search.new.made.values.items < unset_count search.old.made.values.items) }
    ensures satisfied { IfOk result (λ b. b ≡ false → AreSatisfied search.new.clauses.items search.new.made.values.items) }
{
    search.order.reach(search.made.values.len())?;
    match find_unset(&search.made.values, &mut search.order) {
        None => Ok(false),
        Some(atom) => {
            let literal = Literal {
                positive: search.order.sign(atom),
                number: atom,
            };
            assign(&mut search.made, literal, None)?;
            Ok(true)
        }
    }
}

/// Propagates, and then learns from a conflict, or decides one atom.
pub fn round(alloc: Global, search: &mut Search, meter: &mut Meter) -> Result<Turn, AllocError>
    requires sound { IsReady search.old }
    requires narrow { length search.old.made.values.items < 2 ^ 32 }
    ensures sound { OnOk result (IsReady search.new) }
    ensures learns { OnOk result (Learns search.old.clauses.items search.old.steps.items search.new.clauses.items search.new.steps.items) }
    ensures width { OnOk result (length search.new.made.values.items ≡ length search.old.made.values.items) }
    ensures round { IfOk result (λ r. IsRound search.new.clauses.items search.old.made.values.items search.new.made.values.items meter.old meter.new r) }
    ensures spent { meter.old.spent ≤ meter.new.spent }
{
    match spread(alloc, search)? {
        Some(conflict) => match latest(search) {
            None => Ok(Turn::Ended(Solved::Refuted(refutation(alloc, search, conflict)?))),
            Some(start) => {
                if !spend(meter) {
                    return Ok(Turn::Spent);
                }
                learn_conflict(alloc, search, start, conflict)?;
                Ok(Turn::On)
            }
        },
        None => {
            if decide(search)? {
                Ok(Turn::On)
            } else {
                Ok(Turn::Ended(Solved::Assigned))
            }
        }
    }
}

/// An assignment that satisfies each clause, or hints that derive the empty clause.
///
/// # Errors
/// `Budget` where no unit is left; `Want` where memory runs out.
pub fn solve(alloc: Global, search: &mut Search, meter: &mut Meter) -> Result<Solved, Undecided>
    requires sound { IsReady search.old }
    requires narrow { length search.old.made.values.items < 2 ^ 32 }
    ensures sound { OnOk result (IsReady search.new) }
    ensures learns { OnOk result (Learns search.old.clauses.items search.old.steps.items search.new.clauses.items search.new.steps.items) }
    ensures solved { IfOk result (IsSolved search.new.clauses.items search.new.made.values.items) }
    ensures spent { meter.old.spent ≤ meter.new.spent }
    ensures budget { IfErr result (λ e. e ≡ Undecided.Budget → meter.new.spent ≡ limit) }
{
    loop {
        match round(alloc, search, meter) {
            Err(e) => return Err(Undecided::Want(e)),
            Ok(turn) => match turn {
                Turn::Ended(solved) => return Ok(solved),
                Turn::Spent => return Err(Undecided::Budget),
                Turn::On => {}
            },
        }
    }
}

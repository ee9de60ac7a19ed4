//! Unit propagation: each entry of the trail is walked, and the clauses that watch the literal that it made false are visited.
ghost use Rattle.std.specs.Prelude.{◌≡◌, ℕ, ◌+◌, ◌<◌, ◌≤◌, ◌^◌, List, OnOk, IfOk, IfSome, IfNone, Some, length, slice_get, true, false};
ghost use Rattle.std.specs.List.{All, Contains};
ghost use Rattle.cs_certificate.specs.declared.literal.Clause.{Clause};
ghost use Rattle.cs_search.specs.declared.Status.TheVariants.{False};
ghost use Rattle.cs_search.specs.Assignment.{IsTrail, TrueBefore, status_of};
ghost use Rattle.cs_search.specs.Extended.{AreKnown, IsExtended, IsConflict, AreClosed};
ghost use Rattle.cs_search.specs.Rows.{row, slot};
ghost use Rattle.cs_search.specs.Search.{IsSearch};
ghost use Rattle.cs_search.specs.Watched.{AreWatched, IsBeside};
ghost use Rattle.cs_search.specs.Chosen.{IsLeft, IsChosenAt};
ghost use Rattle.cs_search.specs.declared.choose.Choice.TheVariants.{Alone, Forced};
ghost use Rattle.cs_search.specs.Queued.{IsQueued, IsVisit, IsSeen, AreHeldBut};

use crate::assignment::{Assignment, assign};
use crate::choose::{Choice, choose, is_true, spare};
use crate::examine::{negate, status};
use crate::queue::{Queue, Watch, beside, pass_by, watch_anew, watch_both};
use crate::rows::{number_at, slot, take_out};
use crate::{Clause, Literal, Status};
use std::alloc::{AllocError, Global};

/// Makes true what the clause of this number leaves, unless it is false.
pub fn force(
    clauses: &[Clause],
    made: &mut Assignment,
    number: usize,
    literal: Literal,
) -> Result<bool, AllocError>
    requires sound { IsTrail clauses.now made.old.values.items made.old.trail.items }
    requires known { AreKnown clauses.now (length made.old.values.items) }
    requires left { IsLeft clauses.now made.old.values.items (length made.old.trail.items) number literal }
    ensures extended { OnOk result (IsExtended clauses.now made.old.values.items made.old.trail.items made.new.values.items made.new.trail.items) }
    ensures truth { IfOk result (λ b. b ≡ true → TrueBefore made.new.values.items (length made.new.trail.items) literal) }
    ensures conflict { IfOk result (λ b. b ≡ false → IsConflict clauses.now made.new.values.items (length made.new.trail.items) number) }
{
    match status(&made.values, literal) {
        Status::True(_) => Ok(true),
        Status::False(_) => Ok(false),
        Status::Unassigned => {
            assign(made, literal, Some(number))?;
            Ok(true)
        }
    }
}

/// What a visit did with a clause.
#[derive(Clone, Copy)]
pub enum Seen {
    /// It watches what it did.
    Kept,
    /// It does not watch the literal.
    Left,
    /// It is false.
    Conflict,
}

/// Visits a clause that watches a literal that became false, and leaves no literal but the other one to watch.
pub fn press(
    clauses: &[Clause],
    made: &mut Assignment,
    queue: &Queue,
    number: usize,
    away: Literal,
    stays: Literal,
) -> Result<Seen, AllocError>
    requires sound { IsTrail clauses.now made.old.values.items made.old.trail.items }
    requires known { AreKnown clauses.now (length made.old.values.items) }
    requires queued { IsQueued clauses.now made.old.values.items made.old.trail.items queue.now }
    requires beside { IsBeside queue.now.watches.items number away stays }
    requires left { IsLeft clauses.now made.old.values.items (length made.old.trail.items) number stays }
    ensures extended { OnOk result (IsExtended clauses.now made.old.values.items made.old.trail.items made.new.values.items made.new.trail.items) }
    ensures seen { IfOk result (IsSeen clauses.now queue.now.watches.items made.new.values.items (queue.now.head + 1) (length made.new.trail.items) number away) }
{
    let held = force(clauses, made, number, stays)?;
    if held {
        return Ok(Seen::Kept);
    }
    Ok(Seen::Conflict)
}

/// Visits a clause that watches a literal that became false.
pub fn tend(
    alloc: Global,
    clauses: &[Clause],
    made: &mut Assignment,
    queue: &mut Queue,
    number: usize,
    away: Literal,
    stays: Literal,
) -> Result<Seen, AllocError>
    requires within { number < length clauses.now }
    requires sound { IsTrail clauses.now made.old.values.items made.old.trail.items }
    requires known { AreKnown clauses.now (length made.old.values.items) }
    requires queued { IsQueued clauses.now made.old.values.items made.old.trail.items queue.old }
    requires falsified { status_of made.old.values.items away ≡ False queue.old.head }
    requires beside { IsBeside queue.old.watches.items number away stays }
    ensures extended { OnOk result (IsExtended clauses.now made.old.values.items made.old.trail.items made.new.values.items made.new.trail.items) }
    ensures queued { OnOk result (IsQueued clauses.now made.new.values.items made.new.trail.items queue.new) }
    ensures visit { OnOk result (IsVisit queue.old queue.new number (slot away)) }
    ensures seen { IfOk result (IsSeen clauses.now queue.new.watches.items made.new.values.items (queue.new.head + 1) (length made.new.trail.items) number away) }
{
    if is_true(&made.values, stays) {
        return Ok(Seen::Kept);
    }
    match spare(&made.values, &clauses[number].literals, stays) {
        Some(next) => {
            let pair = Watch {
                first: stays,
                second: next,
            };
            watch_anew(alloc, queue, number, pair)?;
            Ok(Seen::Left)
        }
        None => {
            let seen = press(clauses, made, queue, number, away, stays)?;
            Ok(seen)
        }
    }
}

/// Visits a clause as a literal became false.
pub fn visit(
    alloc: Global,
    clauses: &[Clause],
    made: &mut Assignment,
    queue: &mut Queue,
    number: usize,
    away: Literal,
) -> Result<Seen, AllocError>
    requires sound { IsTrail clauses.now made.old.values.items made.old.trail.items }
    requires known { AreKnown clauses.now (length made.old.values.items) }
    requires queued { IsQueued clauses.now made.old.values.items made.old.trail.items queue.old }
    requires falsified { status_of made.old.values.items away ≡ False queue.old.head }
    requires within { number < length queue.old.watches.items }
    ensures extended { OnOk result (IsExtended clauses.now made.old.values.items made.old.trail.items made.new.values.items made.new.trail.items) }
    ensures queued { OnOk result (IsQueued clauses.now made.new.values.items made.new.trail.items queue.new) }
    ensures visit { OnOk result (IsVisit queue.old queue.new number (slot away)) }
    ensures seen { IfOk result (IsSeen clauses.now queue.new.watches.items made.new.values.items (queue.new.head + 1) (length made.new.trail.items) number away) }
{
    match beside(&queue.watches, number, away) {
        None => Ok(Seen::Left),
        Some(stays) => {
            let seen = tend(alloc, clauses, made, queue, number, away, stays)?;
            Ok(seen)
        }
    }
}

/// Visits the clause at a place of the literal's row, and says where to go on, unless the clause is false.
pub fn turn(
    alloc: Global,
    clauses: &[Clause],
    made: &mut Assignment,
    queue: &mut Queue,
    number: usize,
    away: Literal,
    k: usize,
) -> Result<Option<usize>, AllocError>
    requires room { k + 1 < 2 ^ 64 }
    requires sound { IsTrail clauses.now made.old.values.items made.old.trail.items }
    requires known { AreKnown clauses.now (length made.old.values.items) }
    requires queued { IsQueued clauses.now made.old.values.items made.old.trail.items queue.old }
    requires falsified { status_of made.old.values.items away ≡ False queue.old.head }
    requires stands { slice_get (row queue.old.rows.items (slot away)) k ≡ Some number }
    requires held { AreHeldBut clauses.now queue.old.watches.items made.old.values.items (queue.old.head + 1) (length made.old.trail.items) (row queue.old.rows.items (slot away)) k }
    ensures extended { OnOk result (IsExtended clauses.now made.old.values.items made.old.trail.items made.new.values.items made.new.trail.items) }
    ensures queued { OnOk result (IsQueued clauses.now made.new.values.items made.new.trail.items queue.new) }
    ensures head { OnOk result (queue.new.head ≡ queue.old.head) }
    ensures count { OnOk result (length queue.new.watches.items ≡ length queue.old.watches.items) }
    ensures conflict { IfOk result (λ r. IfNone r (IsConflict clauses.now made.new.values.items (length made.new.trail.items) number)) }
    ensures held { IfOk result (λ r. IfSome r (AreHeldBut clauses.now queue.new.watches.items made.new.values.items (queue.new.head + 1)
        (length made.new.trail.items) (row queue.new.rows.items (slot away)))) }
    ensures less { IfOk result (λ r. IfSome r (λ next. length (row queue.new.rows.items (slot away)) + k + 1 ≡ length (row queue.old.rows.items (slot away)) + next)) }
{
    let seen = visit(alloc, clauses, made, queue, number, away)?;
    match seen {
        Seen::Kept => Ok(Some(k + 1)),
        Seen::Left => {
            take_out(&mut queue.rows, slot(away), k);
            Ok(Some(k))
        }
        Seen::Conflict => Ok(None),
    }
}

/// Visits the clauses that watch a literal that became false, up to one that is false.
pub fn visit_row(
    alloc: Global,
    clauses: &[Clause],
    made: &mut Assignment,
    queue: &mut Queue,
    away: Literal,
) -> Result<Option<usize>, AllocError>
    requires sound { IsTrail clauses.now made.old.values.items made.old.trail.items }
    requires known { AreKnown clauses.now (length made.old.values.items) }
    requires queued { IsQueued clauses.now made.old.values.items made.old.trail.items queue.old }
    requires falsified { status_of made.old.values.items away ≡ False queue.old.head }
    ensures extended { OnOk result (IsExtended clauses.now made.old.values.items made.old.trail.items made.new.values.items made.new.trail.items) }
    ensures queued { OnOk result (IsQueued clauses.now made.new.values.items made.new.trail.items queue.new) }
    ensures head { OnOk result (queue.new.head ≡ queue.old.head) }
    ensures count { OnOk result (length queue.new.watches.items ≡ length queue.old.watches.items) }
    ensures conflict { IfOk result (λ found. IfSome found (IsConflict clauses.now made.new.values.items (length made.new.trail.items))) }
    ensures watched { IfOk result (λ found. IfNone found (AreWatched clauses.now queue.new.watches.items made.new.values.items (queue.new.head + 1) (length made.new.trail.items))) }
{
    let mut k = 0;
    while let Some(number) = number_at(&queue.rows, slot(away), k) {
        match turn(alloc, clauses, made, queue, number, away, k)? {
            None => return Ok(Some(number)),
            Some(next) => k = next,
        }
    }
    Ok(None)
}

/// Walks the first entry that was not walked.
pub fn step(
    alloc: Global,
    clauses: &[Clause],
    made: &mut Assignment,
    queue: &mut Queue,
) -> Result<Option<usize>, AllocError>
    requires within { queue.old.head < length made.old.trail.items }
    requires sound { IsTrail clauses.now made.old.values.items made.old.trail.items }
    requires known { AreKnown clauses.now (length made.old.values.items) }
    requires queued { IsQueued clauses.now made.old.values.items made.old.trail.items queue.old }
    ensures extended { OnOk result (IsExtended clauses.now made.old.values.items made.old.trail.items made.new.values.items made.new.trail.items) }
    ensures queued { OnOk result (IsQueued clauses.now made.new.values.items made.new.trail.items queue.new) }
    ensures count { OnOk result (length queue.new.watches.items ≡ length queue.old.watches.items) }
    ensures conflict { IfOk result (λ found. IfSome found (IsConflict clauses.now made.new.values.items (length made.new.trail.items))) }
    ensures head { IfOk result (λ found. IfNone found (queue.new.head ≡ queue.old.head + 1)) }
{
    let away = negate(made.trail[queue.head].literal);
    match visit_row(alloc, clauses, made, queue, away)? {
        Some(at) => Ok(Some(at)),
        None => {
            queue.head += 1;
            Ok(None)
        }
    }
}

/// Walks the trail to its end, up to a clause that is false.
pub fn drain(
    alloc: Global,
    clauses: &[Clause],
    made: &mut Assignment,
    queue: &mut Queue,
) -> Result<Option<usize>, AllocError>
    requires sound { IsTrail clauses.now made.old.values.items made.old.trail.items }
    requires known { AreKnown clauses.now (length made.old.values.items) }
    requires queued { IsQueued clauses.now made.old.values.items made.old.trail.items queue.old }
    ensures extended { OnOk result (IsExtended clauses.now made.old.values.items made.old.trail.items made.new.values.items made.new.trail.items) }
    ensures queued { OnOk result (IsQueued clauses.now made.new.values.items made.new.trail.items queue.new) }
    ensures count { OnOk result (length queue.new.watches.items ≡ length queue.old.watches.items) }
    ensures conflict { IfOk result (λ found. IfSome found (IsConflict clauses.now made.new.values.items (length made.new.trail.items))) }
    ensures walked { IfOk result (λ found. IfNone found (queue.new.head ≡ length made.new.trail.items)) }
{
    while queue.head < made.trail.len() {
        let found = step(alloc, clauses, made, queue)?;
        if found.is_some() {
            return Ok(found);
        }
    }
    Ok(None)
}

/// Watches nothing of the first clause that is not watched, which has one literal alone.
fn enter_alone(
    clauses: &[Clause],
    made: &mut Assignment,
    queue: &mut Queue,
    only: Literal,
) -> Result<bool, AllocError>
    requires within { length queue.old.watches.items < length clauses.now }
    requires sound { IsSearch clauses.now made.old.values.items made.old.trail.items }
    requires queued { IsQueued clauses.now made.old.values.items made.old.trail.items queue.old }
    requires chosen { IsChosenAt clauses.now (length queue.old.watches.items) made.old.values.items (Alone only) }
    ensures extended { OnOk result (IsExtended clauses.now made.old.values.items made.old.trail.items made.new.values.items made.new.trail.items) }
    ensures queued { OnOk result (IsQueued clauses.now made.new.values.items made.new.trail.items queue.new) }
    ensures conflict { IfOk result (λ b. b ≡ false → IsConflict clauses.now made.new.values.items (length made.new.trail.items) (length queue.old.watches.items)) }
    ensures count { IfOk result (λ b. b ≡ true → length queue.new.watches.items ≡ length queue.old.watches.items + 1) }
{
    let held = force(clauses, made, queue.watches.len(), only)?;
    if !held {
        return Ok(false);
    }
    pass_by(queue)?;
    Ok(true)
}

/// Watches the first clause that is not watched, of which all literals but the first one are false.
fn enter_forced(
    alloc: Global,
    clauses: &[Clause],
    made: &mut Assignment,
    queue: &mut Queue,
    pair: Watch,
) -> Result<bool, AllocError>
    requires within { length queue.old.watches.items < length clauses.now }
    requires sound { IsSearch clauses.now made.old.values.items made.old.trail.items }
    requires queued { IsQueued clauses.now made.old.values.items made.old.trail.items queue.old }
    requires chosen { IsChosenAt clauses.now (length queue.old.watches.items) made.old.values.items (Forced pair) }
    ensures extended { OnOk result (IsExtended clauses.now made.old.values.items made.old.trail.items made.new.values.items made.new.trail.items) }
    ensures queued { OnOk result (IsQueued clauses.now made.new.values.items made.new.trail.items queue.new) }
    ensures conflict { IfOk result (λ b. b ≡ false → IsConflict clauses.now made.new.values.items (length made.new.trail.items) (length queue.old.watches.items)) }
    ensures count { IfOk result (λ b. b ≡ true → length queue.new.watches.items ≡ length queue.old.watches.items + 1) }
{
    let held = force(clauses, made, queue.watches.len(), pair.first)?;
    if !held {
        return Ok(false);
    }
    watch_both(alloc, queue, pair)?;
    Ok(true)
}

/// Watches the first clause that is not watched, unless it is false.
pub fn enter(
    alloc: Global,
    clauses: &[Clause],
    made: &mut Assignment,
    queue: &mut Queue,
) -> Result<bool, AllocError>
    requires within { length queue.old.watches.items < length clauses.now }
    requires sound { IsSearch clauses.now made.old.values.items made.old.trail.items }
    requires queued { IsQueued clauses.now made.old.values.items made.old.trail.items queue.old }
    ensures extended { OnOk result (IsExtended clauses.now made.old.values.items made.old.trail.items made.new.values.items made.new.trail.items) }
    ensures queued { OnOk result (IsQueued clauses.now made.new.values.items made.new.trail.items queue.new) }
    ensures conflict { IfOk result (λ b. b ≡ false → IsConflict clauses.now made.new.values.items (length made.new.trail.items) (length queue.old.watches.items)) }
    ensures count { IfOk result (λ b. b ≡ true → length queue.new.watches.items ≡ length queue.old.watches.items + 1) }
{
    match choose(&made.values, &clauses[queue.watches.len()].literals) {
        Choice::Nothing => Ok(false),
        Choice::Alone(only) => {
            let held = enter_alone(clauses, made, queue, only)?;
            Ok(held)
        }
        Choice::Forced(pair) => {
            let held = enter_forced(alloc, clauses, made, queue, pair)?;
            Ok(held)
        }
        Choice::Free(pair) => {
            watch_both(alloc, queue, pair)?;
            Ok(true)
        }
    }
}

/// Watches each clause, up to one that is false.
pub fn enter_all(
    alloc: Global,
    clauses: &[Clause],
    made: &mut Assignment,
    queue: &mut Queue,
) -> Result<Option<usize>, AllocError>
    requires sound { IsSearch clauses.now made.old.values.items made.old.trail.items }
    requires queued { IsQueued clauses.now made.old.values.items made.old.trail.items queue.old }
    ensures extended { OnOk result (IsExtended clauses.now made.old.values.items made.old.trail.items made.new.values.items made.new.trail.items) }
    ensures queued { OnOk result (IsQueued clauses.now made.new.values.items made.new.trail.items queue.new) }
    ensures conflict { IfOk result (λ found. IfSome found (IsConflict clauses.now made.new.values.items (length made.new.trail.items))) }
    ensures all { IfOk result (λ found. IfNone found (length queue.new.watches.items ≡ length clauses.now)) }
{
    while queue.watches.len() < clauses.len() {
        let number = queue.watches.len();
        let held = enter(alloc, clauses, made, queue)?;
        if !held {
            return Ok(Some(number));
        }
    }
    Ok(None)
}

/// Makes true all that the clauses force, up to a clause that is false.
pub fn propagate(
    alloc: Global,
    clauses: &[Clause],
    made: &mut Assignment,
    queue: &mut Queue,
) -> Result<Option<usize>, AllocError>
    requires sound { IsSearch clauses.now made.old.values.items made.old.trail.items }
    requires queued { IsQueued clauses.now made.old.values.items made.old.trail.items queue.old }
    ensures extended { OnOk result (IsExtended clauses.now made.old.values.items made.old.trail.items made.new.values.items made.new.trail.items) }
    ensures queued { OnOk result (IsQueued clauses.now made.new.values.items made.new.trail.items queue.new) }
    ensures conflict { IfOk result (λ found. IfSome found (IsConflict clauses.now made.new.values.items (length made.new.trail.items))) }
    ensures closed { IfOk result (λ found. IfNone found (AreClosed clauses.now made.new.values.items (length made.new.trail.items) (length clauses.now))) }
    ensures walked { IfOk result (λ found. IfNone found (queue.new.head ≡ length made.new.trail.items)) }
{
    match enter_all(alloc, clauses, made, queue)? {
        Some(at) => Ok(Some(at)),
        None => {
            let found = drain(alloc, clauses, made, queue)?;
            Ok(found)
        }
    }
}

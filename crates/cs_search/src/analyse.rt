//! Conflict analysis, to the first clause with one literal of the last level.
ghost use Rattle.std.specs.Prelude.{◌≡◌, [], ◌∷◌, ◌++◌, ◌<◌, ◌≤◌, ◌+◌, ◌⊎◌, ◌↔◌, IsTrue, List, OnOk, IfOk, IfSome, IfNone, length, reverse, Some, None, ℕ, true};
ghost use Rattle.std.specs.List.{All, Contains, slice_get};
ghost use Rattle.cs_certificate.specs.declared.literal.Literal.{Literal};
ghost use Rattle.cs_certificate.specs.declared.literal.Clause.{Clause};
ghost use Rattle.cs_search.specs.declared.Status.TheVariants.{False};
ghost use Rattle.cs_search.specs.Assignment.{status_of, IsTrail, FalseBefore, LeavesOnly, BecameFalse};
ghost use Rattle.cs_search.specs.Extended.{AreClosed, IsConflict};
ghost use Rattle.cs_search.specs.Propagation.{IsDerived};
ghost use Rattle.cs_search.specs.Settled.{HasReason};
ghost use Rattle.cs_search.specs.Learned.{IsJoined, IsMet, IsWalked, IsUnwound, IsForcing, IsLearned, IsLastDecision, before, is_mark};

use crate::assignment::Assignment;
use crate::examine::{negate, same, status};
use crate::{Clause, Entry, Literal, Status, Value};
use std::alloc::{AllocError, Global};

/// Is the literal the one, or false before `start`?
pub fn is_left(values: &[Value], literal: Literal, start: usize, one: Literal) -> bool
    ensures { IsTrue result ↔ ((literal ≡ one) ⊎ FalseBefore values.now start literal) }
{
    if same(literal, one) {
        return true;
    }
    match status(values, literal) {
        Status::False(place) => place < start,
        Status::True(_) => false,
        Status::Unassigned => false,
    }
}

/// Was each literal but one false before `start`?
pub fn leaves_only(values: &[Value], list: &[Literal], start: usize, one: Literal) -> bool
    ensures { IsTrue result ↔ LeavesOnly values.now start list.now one }
{
    for literal in list {
        if !is_left(values, *literal, start, one) {
            return false;
        }
    }
    true
}

/// A walk back over the trail from a conflict.
#[derive(Drop)]
pub struct Analysis {
    /// The literals that were met: those that the walk has not reached make a clause that is derived.
    pub met: Vec<Literal>,
    /// By atoms: whether a literal of the atom was met.
    pub marks: Vec<bool>,
    /// The clauses of the derivation, from last to first.
    pub hints: Vec<usize>,
    /// How many literals of the last level were met, and not reached.
    pub late: usize,
}

/// Meets a literal that became false at `place`, unless it was met.
fn meet_false(
    clauses: &[Clause],
    made: &Assignment,
    start: usize,
    k: usize,
    literal: Literal,
    place: usize,
    found: &mut Analysis,
) -> Result<(), AllocError>
    requires sound { IsTrail clauses.now made.now.values.items made.now.trail.items }
    requires met { IsMet made.now start k found.old }
    requires fell { status_of made.now.values.items literal ≡ False place }
    requires within { place < k }
    ensures met { OnOk result (IsMet made.now start k found.new) }
    ensures joined { OnOk result (IsJoined made.now.values.items found.old.met.items (literal ∷ []) found.new.met.items) }
    ensures hints { OnOk result (found.new.hints ≡ found.old.hints) }
{
    let atom = literal.number as usize;
    if found.marks[atom] {
        return Ok(());
    }
    found.met.push(literal)?;
    found.marks[atom] = true;
    if place < start {
        return Ok(());
    }
    found.late += 1;
    Ok(())
}

/// Meets a literal, if it is false, unless it was met.
fn meet(
    clauses: &[Clause],
    made: &Assignment,
    start: usize,
    k: usize,
    literal: Literal,
    found: &mut Analysis,
) -> Result<(), AllocError>
    requires sound { IsTrail clauses.now made.now.values.items made.now.trail.items }
    requires met { IsMet made.now start k found.old }
    requires within { BecameFalse made.now.values.items literal → FalseBefore made.now.values.items k literal }
    ensures met { OnOk result (IsMet made.now start k found.new) }
    ensures joined { OnOk result (IsJoined made.now.values.items found.old.met.items (literal ∷ []) found.new.met.items) }
    ensures hints { OnOk result (found.new.hints ≡ found.old.hints) }
{
    match status(&made.values, literal) {
        Status::False(place) => {
            meet_false(clauses, made, start, k, literal, place, found)?;
            Ok(())
        }
        Status::True(_) => Ok(()),
        Status::Unassigned => Ok(()),
    }
}

/// Meets those of the literals that are false.
fn meet_all(
    clauses: &[Clause],
    made: &Assignment,
    start: usize,
    k: usize,
    list: &[Literal],
    found: &mut Analysis,
) -> Result<(), AllocError>
    requires sound { IsTrail clauses.now made.now.values.items made.now.trail.items }
    requires met { IsMet made.now start k found.old }
    requires within { All (λ m. BecameFalse made.now.values.items m → FalseBefore made.now.values.items k m) list.now }
    ensures met { OnOk result (IsMet made.now start k found.new) }
    ensures joined { OnOk result (IsJoined made.now.values.items found.old.met.items list.now found.new.met.items) }
    ensures hints { OnOk result (found.new.hints ≡ found.old.hints) }
{
    for literal in list {
        meet(clauses, made, start, k, *literal, found)?;
    }
    Ok(())
}

/// A walk that has met nothing.
fn begin(alloc: Global, made: &Assignment, start: usize) -> Result<Analysis, AllocError>
    ensures met { IfOk result (λ found. (k : ℕ) → IsMet made.now start k found) }
    ensures none { IfOk result (λ found. found.met.items ≡ []) }
    ensures hints { IfOk result (λ found. found.hints.items ≡ []) }
{
    let marks = vec![in alloc; false; made.values.len()]?;
    Ok(Analysis {
        met: Vec::new(alloc),
        marks,
        hints: Vec::new(alloc),
        late: 0,
    })
}

/// A walk that has met the literals of a conflict.
fn meet_conflict(
    alloc: Global,
    clauses: &[Clause],
    made: &Assignment,
    start: usize,
    conflict: usize,
) -> Result<Analysis, AllocError>
    requires sound { IsTrail clauses.now made.now.values.items made.now.trail.items }
    requires conflict { IsConflict clauses.now made.now.values.items (length made.now.trail.items) conflict }
    ensures met { IfOk result (λ found. IsMet made.now start (length made.now.trail.items) found) }
    ensures joined { IfOk result (λ found. (c : Clause) → slice_get clauses.now conflict ≡ Some c → IsJoined made.now.values.items [] c.literals.items found.met.items) }
    ensures hints { IfOk result (λ found. found.hints.items ≡ conflict ∷ []) }
{
    let mut found = begin(alloc, made, start)?;
    meet_all(
        clauses,
        made,
        start,
        made.trail.len(),
        &clauses[conflict].literals,
        &mut found,
    )?;
    found.hints.push(conflict)?;
    Ok(found)
}

/// Was the literal's atom met?
fn is_met(found: &Analysis, literal: Literal) -> bool
    requires { literal.number < length found.now.marks.items }
    ensures { result ≡ is_mark (slice_get found.now.marks.items literal.number) }
{
    found.marks[literal.number as usize]
}

/// Resolves the literal made at `k`, which was met, with the clause that forced it.
fn resolve(
    clauses: &[Clause],
    made: &Assignment,
    start: usize,
    k: usize,
    reason: usize,
    found: &mut Analysis,
) -> Result<(), AllocError>
    requires sound { IsTrail clauses.now made.now.values.items made.now.trail.items }
    requires above { start ≤ k }
    requires entry { (e : Entry) × (slice_get made.now.trail.items k ≡ Some e) × (e.reason ≡ Some reason) × (is_mark (slice_get found.old.marks.items e.literal.number) ≡ true) }
    requires met { IsMet made.now start (k + 1) found.old }
    ensures met { OnOk result (IsMet made.now start k found.new) }
    ensures joined { OnOk result ((c : Clause) → slice_get clauses.now reason ≡ Some c → IsJoined made.now.values.items found.old.met.items c.literals.items found.new.met.items) }
    ensures hints { OnOk result (found.new.hints.items ≡ found.old.hints.items ++ reason ∷ []) }
{
    found.late -= 1;
    meet_all(clauses, made, start, k, &clauses[reason].literals, found)?;
    found.hints.push(reason)?;
    Ok(())
}

/// Resolves the literal made at `k` away, if it was met, unless it is the only one of the last level.
fn resolve_at(
    clauses: &[Clause],
    made: &Assignment,
    start: usize,
    k: usize,
    found: &mut Analysis,
) -> Result<Option<Literal>, AllocError>
    requires sound { IsTrail clauses.now made.now.values.items made.now.trail.items }
    requires decision { IsLastDecision made.now.trail.items start }
    requires above { start ≤ k }
    requires within { k < length made.now.trail.items }
    requires walked { IsWalked clauses.now made.now start (k + 1) found.old }
    ensures on { IfOk result (λ r. IfNone r (IsWalked clauses.now made.now start k found.new)) }
    ensures learned { IfOk result (λ r. IfSome r (IsForcing clauses.now made.now start (k + 1) found.new)) }
{
    let entry = made.trail[k];
    if !is_met(found, entry.literal) {
        return Ok(None);
    }
    if found.late == 1 {
        return Ok(Some(negate(entry.literal)));
    }
    match entry.reason {
        None => Ok(None),
        Some(reason) => {
            resolve(clauses, made, start, k, reason, found)?;
            Ok(None)
        }
    }
}

/// What a conflict teaches.
#[derive(Drop)]
pub struct Learned {
    pub literals: Vec<Literal>,
    pub hints: Vec<usize>,
    pub forced: Literal,
    /// All literals that took part.
    pub met: Vec<Literal>,
}

/// Adds the literal, if it was false before `k`.
fn push_before(
    values: &[Value],
    k: usize,
    literal: Literal,
    list: &mut Vec<Literal>,
) -> Result<(), AllocError>
    ensures { OnOk result (list.new.items ≡ list.old.items ++ before values.now k (literal ∷ [])) }
{
    match status(values, literal) {
        Status::False(place) => {
            if place < k {
                list.push(literal)?;
            }
            Ok(())
        }
        Status::True(_) => Ok(()),
        Status::Unassigned => Ok(()),
    }
}

/// Adds those of the literals that were false before `k`.
fn push_all_before(
    values: &[Value],
    k: usize,
    met: &[Literal],
    list: &mut Vec<Literal>,
) -> Result<(), AllocError>
    ensures { OnOk result (list.new.items ≡ list.old.items ++ before values.now k met.now) }
{
    for literal in met {
        push_before(values, k, *literal, list)?;
    }
    Ok(())
}

/// The clause of a walk that ends: the one literal of the last level, and those of earlier levels.
fn finish(
    alloc: Global,
    clauses: &[Clause],
    made: &Assignment,
    start: usize,
    k: usize,
    found: Analysis,
    forced: Literal,
) -> Result<Learned, AllocError>
    requires above { start ≤ k }
    requires forcing { IsForcing clauses.now made.now start k found forced }
    ensures { IfOk result (λ l. IsLearned clauses.now made.now.values.items start k l.literals.items l.hints.items l.forced) }
{
    let mut literals = Vec::new(alloc);
    literals.push(forced)?;
    push_all_before(&made.values, start, &found.met, &mut literals)?;
    Ok(Learned {
        literals,
        hints: found.hints,
        forced,
        met: found.met,
    })
}

/// A clause that the conflict derives, with one literal of the last level.
pub fn analyse(
    alloc: Global,
    clauses: &[Clause],
    made: &Assignment,
    start: usize,
    conflict: usize,
) -> Result<Learned, AllocError>
    requires sound { IsTrail clauses.now made.now.values.items made.now.trail.items }
    requires decision { IsLastDecision made.now.trail.items start }
    requires closed { AreClosed clauses.now made.now.values.items start (length clauses.now) }
    requires conflict { IsConflict clauses.now made.now.values.items (length made.now.trail.items) conflict }
    ensures { IfOk result (λ l. IsLearned clauses.now made.now.values.items start (length made.now.trail.items) l.literals.items l.hints.items l.forced) }
{
    let mut found = meet_conflict(alloc, clauses, made, start, conflict)?;
    let mut k = made.trail.len();
    while k > start {
        k -= 1;
        if let Some(forced) = resolve_at(clauses, made, start, k, &mut found)? {
            return finish(alloc, clauses, made, start, k + 1, found, forced);
        }
    }
    unreachable!()
}

/// Resolves the literal made at `k` away, if it was met.
fn reduce_at(
    clauses: &[Clause],
    made: &Assignment,
    k: usize,
    found: &mut Analysis,
) -> Result<(), AllocError>
    requires sound { IsTrail clauses.now made.now.values.items made.now.trail.items }
    requires forced { (j : ℕ) (e : Entry) → j < length made.now.trail.items → slice_get made.now.trail.items j ≡ Some e → HasReason e }
    requires within { k < length made.now.trail.items }
    requires unwound { IsUnwound clauses.now made.now (k + 1) found.old }
    ensures { OnOk result (IsUnwound clauses.now made.now k found.new) }
{
    let entry = made.trail[k];
    if !is_met(found, entry.literal) {
        return Ok(());
    }
    match entry.reason {
        None => unreachable!(),
        Some(reason) => {
            resolve(clauses, made, 0, k, reason, found)?;
            Ok(())
        }
    }
}

/// The hints that derive the empty clause from a conflict without decisions.
pub fn refute(
    alloc: Global,
    clauses: &[Clause],
    made: &Assignment,
    conflict: usize,
) -> Result<Vec<usize>, AllocError>
    requires sound { IsTrail clauses.now made.now.values.items made.now.trail.items }
    requires forced { (j : ℕ) (e : Entry) → j < length made.now.trail.items → slice_get made.now.trail.items j ≡ Some e → HasReason e }
    requires conflict { IsConflict clauses.now made.now.values.items (length made.now.trail.items) conflict }
    ensures { IfOk result (λ hints. IsDerived clauses.now [] (reverse hints.items)) }
{
    let mut found = meet_conflict(alloc, clauses, made, 0, conflict)?;
    let mut k = made.trail.len();
    while k > 0 {
        k -= 1;
        reduce_at(clauses, made, k, &mut found)?;
    }
    Ok(found.hints)
}

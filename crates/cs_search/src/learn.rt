//! Learning a clause from outside, which is false under a whole assignment.
ghost use Rattle.std.specs.Prelude.{◌≡◌, [], ◌∷◌, ◌++◌, ◌<◌, ◌≤◌, ◌+◌, ◌⊎◌, List, length, ℕ, OnOk, IfOk, IfErr, take, true, false};
ghost use Rattle.std.specs.List.{Contains};
ghost use Rattle.cs_search.specs.Assignment.{IsTrail, IsFalse, IsClosed, FalseBefore, LeavesOnly};
ghost use Rattle.cs_meter.specs.Units.{limit};
ghost use Rattle.cs_search.specs.Search.{IsReady, AreSatisfied, IsUncovered};
ghost use Rattle.cs_search.specs.Settled.{IsSettled, IsDecision, Forces};
ghost use Rattle.cs_certificate.specs.declared.literal.Literal.{Literal};
ghost use Rattle.cs_search.specs.Top.{IsTop};

use crate::assignment::Assignment;
use crate::examine::status;
use crate::search::{Search, Undecided, back_to, spend};
use crate::settle::settle;
use crate::{Clause, Literal, Status};
use cs_meter::Meter;
use std::alloc::AllocError;

/// A literal with its place.
#[derive(Clone, Copy)]
pub struct Top {
    pub literal: Literal,
    pub place: usize,
}

/// The later of the two.
pub fn later(
    made: &Assignment,
    best: Option<Top>,
    literal: Literal,
    clauses: &[Clause],
) -> Option<Top>
    requires sound { IsTrail clauses.now made.now.values.items made.now.trail.items }
    requires falsified { FalseBefore made.now.values.items (length made.now.trail.items) literal }
    ensures { (c : List Literal) → IsTop made.now.values.items c best → IsTop made.now.values.items (c ++ literal ∷ []) result }
{
    match status(&made.values, literal) {
        Status::False(place) => match best {
            None => Some(Top { literal, place }),
            Some(top) => {
                if top.place < place {
                    Some(Top { literal, place })
                } else {
                    Some(top)
                }
            }
        },
        Status::True(_) => unreachable!(),
        Status::Unassigned => unreachable!(),
    }
}

/// The literal of a false clause that was made false last.
pub fn top_of(made: &Assignment, literals: &[Literal], clauses: &[Clause]) -> Option<Top>
    requires sound { IsTrail clauses.now made.now.values.items made.now.trail.items }
    requires all_false { IsFalse made.now.values.items (length made.now.trail.items) literals.now }
    ensures { IsTop made.now.values.items literals.now result }
{
    let mut best = None;
    for literal in literals {
        best = later(made, best, *literal, clauses);
    }
    best
}

/// How far the assignment is taken back for a false clause: to its start, where the clause is empty.
pub fn cut_for(made: &Assignment, literals: &[Literal], clauses: &[Clause]) -> usize
    requires sound { IsTrail clauses.now made.now.values.items made.now.trail.items }
    requires all_false { IsFalse made.now.values.items (length made.now.trail.items) literals.now }
    ensures within { result ≤ length made.now.trail.items }
    ensures closed { (d : ℕ) → d < result → IsDecision made.now.trail.items d → IsClosed made.now.values.items d literals.now }
    ensures forces { (literals.now ≡ []) ⊎ ((forced : Literal) × Contains literals.now forced × IsSettled made.now.values.items made.now.trail.items literals.now forced result) }
{
    match top_of(made, literals, clauses) {
        None => 0,
        Some(top) => settle(&made.values, &made.trail, literals, top.literal, top.place),
    }
}

/// Adds a clause that is false under the assignment, and takes the assignment back until it forces a literal.
///
/// # Errors
/// `AllocError` where memory runs out.
pub fn teach(search: &mut Search, clause: Clause) -> Result<(), AllocError>
    requires sound { IsReady search.old }
    requires all_false { IsFalse search.old.made.values.items (length search.old.made.trail.items) clause.literals.items }
    ensures sound { OnOk result (IsReady search.new) }
    ensures clauses { OnOk result (search.new.clauses.items ≡ search.old.clauses.items ++ clause ∷ []) }
    ensures forces { OnOk result ((clause.literals.items ≡ [])
        ⊎ ((forced : Literal) × Forces search.new.made.values.items (length search.new.made.trail.items) clause.literals.items forced)) }
    ensures width { OnOk result (length search.new.made.values.items ≡ length search.old.made.values.items) }
{
    let cut = cut_for(&search.made, &clause.literals, &search.clauses);
    back_to(search, cut);
    search.clauses.push(clause)?;
    Ok(())
}

/// Learns a clause that is false under the assignment, and takes the assignment back until it forces a literal.
///
/// # Errors
/// `Budget` where no unit is left; `Want` where memory runs out.
pub fn learn(search: &mut Search, clause: Clause, meter: &mut Meter) -> Result<(), Undecided>
    requires sound { IsReady search.old }
    requires all_false { IsFalse search.old.made.values.items (length search.old.made.trail.items) clause.literals.items }
    requires satisfied { AreSatisfied search.old.clauses.items search.old.made.values.items }
    ensures sound { OnOk result (IsReady search.new) }
    ensures clauses { OnOk result (search.new.clauses.items ≡ search.old.clauses.items ++ clause ∷ []) }
    ensures uncovered { OnOk result (IsUncovered search.old.clauses.items clause.literals.items) }
    ensures forces { OnOk result ((clause.literals.items ≡ [])
        ⊎ ((forced : Literal) × Forces search.new.made.values.items (length search.new.made.trail.items) clause.literals.items forced)) }
    ensures spent { OnOk result (meter.new.spent ≡ meter.old.spent + 1) }
    ensures budget { IfErr result (λ e. e ≡ Undecided.Budget → meter.new.spent ≡ limit) }
{
    if !spend(meter) {
        return Err(Undecided::Budget);
    }
    match teach(search, clause) {
        Err(e) => Err(Undecided::Want(e)),
        Ok(()) => Ok(()),
    }
}

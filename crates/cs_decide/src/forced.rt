//! What made literals false before any decision.

use cs_search::examine::status;
use cs_search::search::{Hints, Search};
use cs_search::{Entry, Literal, Status};
use cs_table::Stop;
use std::alloc::Global;

/// The entries of a trail before its first decision.
fn undecided(trail: &[Entry]) -> &[Entry] {
    for (at, entry) in trail.iter().enumerate() {
        if entry.reason.is_none() {
            return trail.get(..at).unwrap_or(&[]);
        }
    }
    trail
}

fn mark(marks: &mut [bool], literal: &Literal) {
    if let Some(place) = marks.get_mut(literal.number as usize) {
        *place = true;
    }
}

fn mark_all(marks: &mut [bool], literals: &[Literal]) {
    for literal in literals {
        mark(marks, literal);
    }
}

fn is_marked(marks: &[bool], literal: Literal) -> bool {
    marks.get(literal.number as usize) == Some(&true)
}

/// Whether all the literals are false by the first entries of the trail, so many.
fn are_false_by(search: &Search, literals: &[Literal], count: usize) -> bool {
    literals.iter().all(|literal| match status(&search.made.values, *literal) {
        Status::False(place) => place < count,
        Status::True(_) | Status::Unassigned => false,
    })
}

/// The clauses that make the literals false before any decision, from the last one to the first; `None` where they don't.
///
/// # Errors
/// `Want` where memory runs out.
pub fn reasons(
    alloc: Global,
    search: &Search,
    literals: &[Literal],
) -> Result<Option<Hints>, Stop> {
    let entries = undecided(&search.made.trail);
    if !are_false_by(search, literals, entries.len()) {
        return Ok(None);
    }
    let mut marks = vec![in alloc; false; search.made.values.len()]?;
    mark_all(&mut marks, literals);
    let mut numbers = Vec::new(alloc);
    for entry in entries.iter().rev() {
        if let (true, Some(reason)) = (is_marked(&marks, entry.literal), entry.reason) {
            numbers.push(reason)?;
            if let Some(clause) = search.clauses.get(reason) {
                mark_all(&mut marks, &clause.literals);
            }
        }
    }
    Ok(Some(Hints { numbers }))
}

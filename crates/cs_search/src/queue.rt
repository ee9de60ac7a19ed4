//! The clauses by their watched literals, and how far the trail was walked.
ghost use Rattle.std.specs.Prelude.{◌≡◌, ◌<◌, ◌≤◌, ◌++◌, ◌∷◌, [], Some, None, length, slice_get, slice_set, OnOk};
ghost use Rattle.cs_search.specs.Rows.{slot, IsPut};
ghost use Rattle.cs_search.specs.Watched.{IsOther, IsFoundBeside};
ghost use Rattle.cs_search.specs.Queued.{IsEntered, IsRewound};

use crate::examine::same;
use crate::rows::{put, slot};
use crate::settle::last_decision;
use crate::{Entry, Literal};
use std::alloc::{AllocError, Global};

/// Two literals of a clause, which is visited where one of them becomes false.
#[derive(Clone, Copy)]
pub struct Watch {
    pub first: Literal,
    pub second: Literal,
}

/// What the first clauses watch, for each literal the clauses that watch it, and how many entries of the trail were walked.
#[derive(Drop)]
pub struct Queue {
    pub watches: Vec<Option<Watch>>,
    pub rows: Vec<Vec<usize>>,
    pub head: usize,
}

impl Queue {
    /// Nothing is watched yet.
    pub fn new(alloc: Global) -> Queue
        ensures watches { result.watches.items ≡ [] }
        ensures rows { result.rows.items ≡ [] }
        ensures head { result.head ≡ 0 }
    {
        Queue {
            watches: Vec::new(alloc),
            rows: Vec::new(alloc),
            head: 0,
        }
    }
}

/// The other one of the two, where the literal is one of them.
fn other(watch: Watch, literal: Literal) -> Option<Literal>
    ensures { IsOther watch literal result }
{
    if same(watch.first, literal) {
        return Some(watch.second);
    }
    if same(watch.second, literal) {
        return Some(watch.first);
    }
    None
}

/// What the clause of this number watches beside the literal, where it watches that.
pub fn beside(watches: &[Option<Watch>], number: usize, literal: Literal) -> Option<Literal>
    requires { number < length watches.now }
    ensures { IsFoundBeside watches.now number literal result }
{
    match watches[number] {
        None => None,
        Some(watch) => other(watch, literal),
    }
}

/// Watches two literals of one clause more.
pub fn watch_both(alloc: Global, queue: &mut Queue, pair: Watch) -> Result<(), AllocError>
    ensures watches { OnOk result (queue.new.watches.items ≡ queue.old.watches.items ++ Some pair ∷ []) }
    ensures rows { OnOk result (IsEntered queue.old.rows.items queue.new.rows.items (length queue.old.watches.items) pair) }
    ensures head { queue.new.head ≡ queue.old.head }
{
    let number = queue.watches.len();
    put(alloc, &mut queue.rows, slot(pair.first), number)?;
    put(alloc, &mut queue.rows, slot(pair.second), number)?;
    queue.watches.push(Some(pair))?;
    Ok(())
}

/// Watches nothing of one clause more.
pub fn pass_by(queue: &mut Queue) -> Result<(), AllocError>
    ensures watches { OnOk result (queue.new.watches.items ≡ queue.old.watches.items ++ None ∷ []) }
    ensures rows { queue.new.rows ≡ queue.old.rows }
    ensures head { queue.new.head ≡ queue.old.head }
{
    queue.watches.push(None)?;
    Ok(())
}

/// Watches two other literals of the clause of this number, of which the second one was not watched.
pub fn watch_anew(
    alloc: Global,
    queue: &mut Queue,
    number: usize,
    pair: Watch,
) -> Result<(), AllocError>
    requires { number < length queue.old.watches.items }
    ensures watches { OnOk result (queue.new.watches.items ≡ slice_set queue.old.watches.items number (Some pair)) }
    ensures rows { OnOk result (IsPut queue.old.rows.items queue.new.rows.items (slot pair.second) number) }
    ensures head { queue.new.head ≡ queue.old.head }
{
    put(alloc, &mut queue.rows, slot(pair.second), number)?;
    queue.watches[number] = Some(pair);
    Ok(())
}

/// Watches nothing any more.
pub fn forget(queue: &mut Queue)
    ensures watches { queue.new.watches.items ≡ [] }
    ensures rows { queue.new.rows.items ≡ [] }
    ensures head { queue.new.head ≡ 0 }
{
    queue.watches.clear();
    queue.rows.clear();
    queue.head = 0;
}

/// Counts the trail as walked up to its latest decision that is not behind the cut; where there is none, nothing is watched any more.
pub fn rewind(queue: &mut Queue, trail: &[Entry], cut: usize)
    requires { cut ≤ length trail.now }
    ensures { IsRewound trail.now cut queue.old queue.new }
{
    match last_decision(trail, trail.len().min(cut + 1)) {
        Some(decision) => queue.head = decision,
        None => {
            forget(queue);
            queue.head = cut;
        }
    }
}

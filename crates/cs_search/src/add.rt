//! A clause is added, and the assignment goes back to its first decision.
ghost use Rattle.std.specs.Prelude.{◌≡◌, ℕ, ◌<◌, ◌≤◌, ◌++◌, ◌∷◌, [], List, Some, length, slice_get, OnOk};
ghost use Rattle.std.specs.List.{All};
ghost use Rattle.cs_search.specs.declared.Entry.{Entry};
ghost use Rattle.cs_search.specs.Settled.{HasReason};
ghost use Rattle.cs_search.specs.Search.{IsReady};
ghost use Rattle.cs_search.specs.Widened.{IsWidened};

use crate::search::{Search, back_to};
use crate::{Clause, Entry, Literal, Value};
use std::alloc::AllocError;

/// Makes room for the atom.
pub fn reach(values: &mut Vec<Value>, atom: u32) -> Result<(), AllocError>
    ensures same { OnOk result (IsWidened values.old.items values.new.items) }
    ensures room { OnOk result (atom < length values.new.items) }
{
    while values.len() <= atom as usize {
        values.push(Value::Unset)?;
    }
    Ok(())
}

/// Makes room for the atoms of the literals.
pub fn widen(values: &mut Vec<Value>, literals: &[Literal]) -> Result<(), AllocError>
    ensures same { OnOk result (IsWidened values.old.items values.new.items) }
    ensures room { OnOk result (All (λ l. l.number < length values.new.items) literals.now) }
{
    for literal in literals {
        reach(values, literal.number)?;
    }
    Ok(())
}

/// The place of the first decision, or the trail's end.
fn base_of(trail: &[Entry]) -> usize
    ensures within { result ≤ length trail.now }
    ensures forced { (j : ℕ) (e : Entry) → j < result → slice_get trail.now j ≡ Some e → HasReason e }
{
    for i in 0..trail.len() {
        match trail[i].reason {
            None => return i,
            Some(_) => {}
        }
    }
    trail.len()
}

/// Takes the assignment back to its first decision.
fn back_to_base(search: &mut Search)
    requires sound { IsReady search.old }
    ensures sound { IsReady search.new }
    ensures clauses { search.new.clauses ≡ search.old.clauses }
    ensures forced { (j : ℕ) (e : Entry) → slice_get search.new.made.trail.items j ≡ Some e → HasReason e }
{
    let base = base_of(&search.made.trail);
    if base == search.made.trail.len() {
        return;
    }
    back_to(search, base);
}

/// Adds a clause.
pub fn add(search: &mut Search, clause: Clause) -> Result<(), AllocError>
    requires sound { IsReady search.old }
    ensures sound { OnOk result (IsReady search.new) }
    ensures clauses { OnOk result (search.new.clauses.items ≡ search.old.clauses.items ++ clause ∷ []) }
{
    back_to_base(search);
    widen(&mut search.made.values, &clause.literals)?;
    search.clauses.push(clause)?;
    Ok(())
}

//! The assignment: a table of values, and the trail of what made them.
ghost use Rattle.std.specs.Prelude.{◌≡◌, ◌<◌, ◌≤◌, ◌++◌, ◌∷◌, [], List, OnOk, take, length, slice_set};
ghost use Rattle.cs_search.specs.Assignment.{IsTrail, valued};
ghost use Rattle.cs_certificate.specs.declared.literal.Clause.{Clause};

use crate::{Clause, Entry, Literal, Value};
use std::alloc::AllocError;

/// A table of values, and the trail of what made them.
#[derive(Drop)]
pub struct Assignment {
    pub values: Vec<Value>,
    pub trail: Vec<Entry>,
}

/// Makes an unassigned literal true.
pub fn assign(
    made: &mut Assignment,
    literal: Literal,
    reason: Option<usize>,
) -> Result<(), AllocError>
    requires { literal.number < length made.old.values.items }
    ensures trail { OnOk result (made.new.trail.items ≡ made.old.trail.items ++ record { literal = literal; reason = reason } ∷ []) }
    ensures values { OnOk result (made.new.values.items ≡ slice_set made.old.values.items literal.number (valued literal.positive (length made.old.trail.items))) }
{
    let place = made.trail.len();
    made.trail.push(Entry { literal, reason })?;
    made.values[literal.number as usize] = if literal.positive {
        Value::Positive(place)
    } else {
        Value::Negative(place)
    };
    Ok(())
}

/// Takes the assignment back to its first `cut` entries.
pub fn take_back(made: &mut Assignment, cut: usize, clauses: &[Clause])
    requires room { cut ≤ length made.old.trail.items }
    requires sound { IsTrail clauses.now made.old.values.items made.old.trail.items }
    ensures trail { made.new.trail.items ≡ take cut made.old.trail.items }
    ensures values { length made.new.values.items ≡ length made.old.values.items }
    ensures sound { IsTrail clauses.now made.new.values.items made.new.trail.items }
{
    while made.trail.len() > cut {
        if let Some(entry) = made.trail.pop() {
            made.values[entry.literal.number as usize] = Value::Unset;
        }
    }
}

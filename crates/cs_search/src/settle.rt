//! How far the assignment is taken back for a clause that is false.
ghost use Rattle.std.specs.Prelude.{◌≡◌, ◌<◌, ◌≤◌, ◌+◌, List, length};
ghost use Rattle.std.specs.List.{Contains};
ghost use Rattle.cs_search.specs.Assignment.{FalseBefore, LeavesOnly};
ghost use Rattle.cs_search.specs.Settled.{IsLatest, IsSettled, IsDecision};

use crate::analyse::leaves_only;
use crate::{Entry, Literal, Value};

/// The latest decision before a place.
pub fn last_decision(trail: &[Entry], below: usize) -> Option<usize>
    requires { below ≤ length trail.now }
    ensures { IsLatest trail.now below result }
{
    let mut k = below;
    while k > 0 {
        k -= 1;
        match trail[k].reason {
            None => return Some(k),
            Some(_) => {}
        }
    }
    None
}

/// The first decision before which the clause forces the literal already, or `from`.
pub fn settle(
    values: &[Value],
    trail: &[Entry],
    literals: &[Literal],
    forced: Literal,
    from: usize,
) -> usize
    requires within { from ≤ length trail.now }
    requires leaves { LeavesOnly values.now from literals.now forced }
    requires contained { Contains literals.now forced }
    requires free { ¬ (FalseBefore values.now from forced) }
    ensures settled { IsSettled values.now trail.now literals.now forced result }
    ensures within { result ≤ from }
    ensures decision { IsDecision trail.now from → IsDecision trail.now result }
{
    let mut cut = from;
    while let Some(before) = last_decision(trail, cut) {
        if !leaves_only(values, literals, before, forced) {
            return cut;
        }
        cut = before;
    }
    cut
}

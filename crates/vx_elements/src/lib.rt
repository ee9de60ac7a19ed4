//! The elements that terms and values stand for: what built terms are worth, and what further symbols leave as it was.
#![tactic(auto)]

ghost use Rattle.vx_elements.specs.Kept.{KnownIsKept, FreshIsFree};

/// A term keeps its value whatever symbols of higher numbers mean, and the next symbol can have any value of its sort.
pub fn symbols_keep_values()
    ensures known { KnownIsKept }
    ensures fresh { FreshIsFree }
{}

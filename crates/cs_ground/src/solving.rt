//! A search up to its end.
ghost use Rattle.std.specs.Prelude.{◌≡◌, ◌<◌, ◌^◌, length, IfOk, IfSome, OnOk};
ghost use Rattle.cs_search.specs.Search.{IsReady, Learns, IsSolved};
ghost use Rattle.cs_ground.specs.Atoms.{MissesNothing};

use cs_meter::Meter;
use cs_search::search::{Search, Solved, Turn, round};
use cs_table::Stop;
use std::alloc::{AllocError, Global};

/// Rounds up to the end, or until the units are spent; then the search can go on.
fn rounds(
    alloc: Global,
    search: &mut Search,
    meter: &mut Meter,
) -> Result<Option<Solved>, AllocError>
    requires sound { IsReady search.old }
    requires narrow { length search.old.made.values.items < 2 ^ 32 }
    ensures sound { OnOk result (IsReady search.new) }
    ensures learns { OnOk result (Learns search.old.clauses.items search.old.steps.items search.new.clauses.items search.new.steps.items) }
    ensures width { OnOk result (length search.new.made.values.items ≡ length search.old.made.values.items) }
    ensures solved { IfOk result (λ found. IfSome found (IsSolved search.new.clauses.items search.new.made.values.items)) }
{
    loop {
        match round(alloc, search, meter) {
            Err(e) => return Err(e),
            Ok(turn) => match turn {
                Turn::Ended(solved) => return Ok(Some(solved)),
                Turn::Spent => return Ok(None),
                Turn::On => {}
            },
        }
    }
}

/// An assignment that satisfies each clause, or hints that derive the empty clause. Each turn spends the units of a meter, so
/// it learns 100,000 clauses. The numbers of clauses have 32 bits, so memory has run out long before the last turn.
///
/// # Errors
/// `Want` where memory runs out.
pub fn solved(alloc: Global, search: &mut Search) -> Result<Solved, Stop>
    requires sound { IsReady search.old }
    requires narrow { length search.old.made.values.items < 2 ^ 32 }
    ensures sound { OnOk result (IsReady search.new) }
    ensures learns { OnOk result (Learns search.old.clauses.items search.old.steps.items search.new.clauses.items search.new.steps.items) }
    ensures width { OnOk result (length search.new.made.values.items ≡ length search.old.made.values.items) }
    ensures solved { IfOk result (IsSolved search.new.clauses.items search.new.made.values.items) }
    ensures made { MissesNothing result }
{
    for _turn in 0..u32::MAX {
        let mut meter = Meter::new();
        if let Some(solved) = rounds(alloc, search, &mut meter)? {
            return Ok(solved);
        }
    }
    Err(Stop::Want)
}

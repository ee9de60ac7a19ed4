//! Clauses of cases that the search takes. None of the cases holds yet, so each such clause is a new one.
ghost use Rattle.std.specs.Prelude.{IsTrue, OnOk};
ghost use Rattle.cs_search.specs.Search.{IsReady, AreSatisfied};
ghost use Rattle.cs_decide.specs.New.{AreUntrue, HasNewClause};

use crate::check::Check;
use crate::figures::Cases;
use crate::signs::prefer;
use cs_search::add::add;
use cs_search::assignment::Assignment;
use cs_search::examine::status;
use cs_search::search::Search;
use cs_search::{Clause, Literal, Status};
use cs_sums::Stop;
use std::alloc::Global;

/// Whether none of the literals is true.
fn are_untrue(made: &Assignment, literals: &[Literal]) -> bool
    ensures { IsTrue result → AreUntrue made.now.values.items literals.now }
{
    for literal in literals {
        if let Status::True(_) = status(&made.values, *literal) {
            return false;
        }
    }
    true
}

/// The search gets a clause of cases, of which the first one is tried first, or another one. None of the cases holds yet, so the
/// clause is a new one.
///
/// # Errors
/// `Miss` where one of the cases holds; `Want` where memory runs out.
pub(crate) fn take_cases(
    alloc: Global,
    check: &mut Check,
    search: &mut Search,
    cases: &Cases,
) -> Result<(), Stop>
    requires sound { IsReady search.old }
    requires satisfied { AreSatisfied search.old.clauses.items search.old.made.values.items }
    ensures ready { OnOk result (IsReady search.new) }
    ensures new { OnOk result (HasNewClause search.old.clauses.items search.new.clauses.items) }
{
    let literals = check.meet(alloc, cases)?;
    if !are_untrue(&search.made, &literals) {
        return Err(Stop::Miss);
    }
    if let Some(literal) = literals.first() {
        prefer(&mut search.order, literal.number, cases.first)?;
    }
    check.numbers.push(cases.lemma.number)?;
    add(search, Clause { literals })?;
    Ok(())
}

//! Whole runs: where a method is called its body runs, and a loop's body runs again and again; no contract and no invariant stands in for them.
//! The law: of a typed program of which no member fails no whole run fails. A run by contracts goes along beside each whole run, holds no more than
//! it, and has from its start the values that the whole run chooses late.
#![tactic(auto)]

ghost use Rattle.std.specs.Prelude.{◌≡◌};
ghost use Rattle.vx_meaning.specs.States.{State};
ghost use Rattle.vx_meaning.specs.Outcomes.{Ends};
ghost use Rattle.vx_meaning.specs.Around.{nobody, IsFreshBeside};
ghost use Rattle.vx_frac.specs.Fractions.{full};
ghost use Rattle.vx_runs.specs.Law.{WholeRunLaw};
ghost use Rattle.vx_runs.specs.Whole.{WholeRunFails, give_whole};
ghost use Rattle.vx_runs.specs.Examples.{both, calls, column, with_field, access, waiting, callee, granted, created};

/// Where no member of a typed program fails, no whole run of a method fails: not at a call in its callee's body, and not in any round of a loop.
pub fn no_whole_run_fails()
    ensures { WholeRunLaw }
{}

/// Where a member fails a whole run may: `method bad() ensures false { } method m() { bad() }` fails in each whole run of m, at the postcondition
/// of bad, though m alone never fails.
pub fn a_whole_run_fails_in_its_callee()
    ensures { WholeRunFails both calls (column 22) }
{}

/// What waiting callers hold counts: a method that inhales access to what its caller has left goes on where it is alone, and stops while the caller
/// waits. Nor is a reference new to it that its caller has in a variable.
pub fn waiting_callers_count()
    ensures alone { give_whole with_field nobody full access callee (Ends granted) }
    ensures beside { (t : State) → give_whole with_field waiting full access callee (Ends t) → ⊥ }
    ensures fresh_alone { IsFreshBeside with_field nobody created 1 }
    ensures known_beside { IsFreshBeside with_field waiting created 1 → ⊥ }
{}

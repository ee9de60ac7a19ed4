//! Sets of outcomes, and runs of statements that no typed program has.

ghost use Rattle.std.specs.Prelude.{◌≡◌, true, false, pos, [], ◌∷◌};
ghost use Rattle.vx_frac.specs.Fractions.{full, product};
ghost use Rattle.vx_meaning.specs.States.{State, At, lost};
ghost use Rattle.vx_meaning.specs.Values.{IntValue, BoolValue};
ghost use Rattle.vx_meaning.specs.Fits.{Takes, FailsToTake};
ghost use Rattle.vx_meaning.specs.Give.{when, side};
ghost use Rattle.vx_meaning.specs.Outcomes.{Outcome, Ends, FailsAt, Stops, ends, fails, stops, either, for_any, where_holds, failing_at, IsOver};
ghost use Rattle.vx_meaning.specs.Run.{run_all};
ghost use Rattle.vx_meaning.specs.Fails.{MeasureFails};
ghost use Rattle.vx_ast.specs.Syntax.{Number, More, NoMore, Read, Points, ByNumber, ByInstance};
ghost use Rattle.vx_examples.specs.Words.{at};
ghost use Rattle.vx_examples.specs.Cells.{f, cell, cells};
ghost use Rattle.vx_examples.specs.Scenes.{x_f, poor, owner, sharer, folder};
ghost use Rattle.vx_examples.specs.Untyped.{x_var, y_var, whole, one_x, folds_get, unfolds_get, calls_get, folds_by_int, unfolds_by_int, writes_of_int, asks_int};

/// Which outcomes are in a set: an end with its state, a failure at its place, a stop.
pub fn sets_of_outcomes()
    ensures end { ends poor (Ends poor) }
    ensures end_elsewhere { ends poor (Ends owner) → ⊥ }
    ensures end_no_failure { ends poor (FailsAt (at 1 1)) → ⊥ }
    ensures end_no_stop { ends poor Stops → ⊥ }
    ensures failure { fails (at 1 1) (FailsAt (at 1 1)) }
    ensures failure_elsewhere { fails (at 1 1) (FailsAt (at 1 2)) → ⊥ }
    ensures failure_no_end { fails (at 1 1) (Ends poor) → ⊥ }
    ensures failure_no_stop { fails (at 1 1) Stops → ⊥ }
    ensures stop { stops Stops }
    ensures stop_no_end { stops (Ends poor) → ⊥ }
    ensures stop_no_failure { stops (FailsAt (at 1 1)) → ⊥ }
    ensures first { either stops (ends poor) Stops }
    ensures second { either stops (ends poor) (Ends poor) }
    ensures neither { either stops (ends poor) (FailsAt (at 1 1)) → ⊥ }
    ensures any { for_any State ends (Ends owner) }
    ensures not_any { for_any State ends Stops → ⊥ }
    ensures holds { where_holds (poor ≡ poor) stops Stops }
    ensures holds_not { where_holds ⊥ stops Stops → ⊥ }
    ensures inner_failure { failing_at (at 2 2) (fails (at 1 1)) (FailsAt (at 2 2)) }
    ensures inner_place { failing_at (at 2 2) (fails (at 1 1)) (FailsAt (at 1 1)) → ⊥ }
    ensures no_inner_failure { failing_at (at 2 2) stops (FailsAt (at 2 2)) → ⊥ }
    ensures inner_end { failing_at (at 2 2) (ends poor) (Ends poor) }
    ensures inner_stop { failing_at (at 2 2) stops Stops }
    ensures over { IsOver Stops × IsOver (FailsAt (at 1 1)) }
    ensures not_over { IsOver (Ends poor) → ⊥ }
    ensures side { side (BoolValue true) stops (ends poor) Stops }
    ensures other_side { side (BoolValue false) stops (ends poor) (Ends poor) }
    ensures side_of_int { side (IntValue (pos 1)) stops (ends poor) (Ends poor) }
    ensures not_side { side (IntValue (pos 1)) stops (ends poor) Stops → ⊥ }
{}

/// A fold, an unfold and a call of what is no predicate and no method have no outcome, an amount or a receiver of another type fails, and a
/// condition of another type is not true.
pub fn untyped_statements()
    ensures folds { (o : Outcome) → run_all cells folds_get owner o → ⊥ }
    ensures unfolds { (o : Outcome) → run_all cells unfolds_get folder o → ⊥ }
    ensures calls { (o : Outcome) → run_all cells calls_get poor o → ⊥ }
    ensures folds_by_int { run_all cells folds_by_int owner (FailsAt (at 1 1)) }
    ensures unfolds_by_int { run_all cells unfolds_by_int folder (FailsAt (at 1 1)) }
    ensures writes_of_int { run_all cells writes_of_int owner (FailsAt (at 1 1)) }
    ensures asks_int { run_all cells asks_int poor (FailsAt (at 1 6)) }
{}

/// What an assertion takes by enough fuel, and measures that fail.
pub fn taken_by_fuel()
    ensures takes { Takes cells owner (Points (at 1 1) x_var f whole) full (lost (At x_f) (product full full) owner.holdings) }
    ensures takes_not { Takes cells poor (Points (at 1 1) x_var f whole) full [] → ⊥ }
    ensures fails { FailsToTake cells poor (Points (at 1 1) x_var f whole) full (at 1 1) }
    ensures fails_not { FailsToTake cells owner (Points (at 1 1) x_var f whole) full (at 1 1) → ⊥ }
    ensures argument_unread { MeasureFails cells folder (ByInstance (at 1 1) cell (More (Read (at 1 4) x_var f) NoMore)) }
    ensures number_unread { MeasureFails cells poor (ByNumber (Read (at 1 4) x_var f)) }
    ensures number { MeasureFails cells poor (ByNumber (Number (at 1 4) 3)) → ⊥ }
    ensures held { MeasureFails cells folder (ByInstance (at 1 1) cell one_x) → ⊥ }
{}

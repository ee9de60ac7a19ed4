//! Runs of folds and unfolds, conditions, sequences and loops, from states in which x is the reference 1, y is 0 and x.f is 5.

ghost use Rattle.std.specs.Prelude.{◌≡◌, pos, [], ◌∷◌};
ghost use Rattle.vx_ast.specs.declared.Place.{Place};
ghost use Rattle.vx_frac.specs.Fractions.{full, product};
ghost use Rattle.vx_meaning.specs.States.{State, At, Folded, gained, lost, with_holdings};
ghost use Rattle.vx_meaning.specs.Outcomes.{Outcome, Ends, FailsAt, Stops};
ghost use Rattle.vx_meaning.specs.Run.{run_all};
ghost use Rattle.vx_examples.specs.Words.{at};
ghost use Rattle.vx_examples.specs.Cells.{cells};
ghost use Rattle.vx_examples.specs.Blocks.{calls, calls_never, calls_unframed, folds, folds_none, folds_hidden, unfolds, unfolds_none, chooses, chooses_other, chooses_unread, declares_within, loops, loops_unkept, loops_wrong, loops_unread, fails_then_more, goes_on, stops_then_more};
ghost use Rattle.vx_examples.specs.Scenes.{x_f, a_cell, with_y, with_x_f, state, poor, owner, sharer, folder};

/// A fold exchanges the body for the instance; it needs all of the body and an amount above none.
pub fn folding()
    ensures exchanged { run_all cells folds owner (Ends (with_holdings (gained (Folded a_cell) full (lost (At x_f) (product full full) owner.holdings)) owner)) }
    ensures never_fails { (place : Place) → run_all cells folds owner (FailsAt place) → ⊥ }
    ensures unheld_fails { run_all cells folds sharer (FailsAt (at 1 3)) }
    ensures unheld_never_ends { (t : State) → run_all cells folds sharer (Ends t) → ⊥ }
    ensures none_fails { run_all cells folds_none owner (FailsAt (at 1 3)) }
    ensures no_body { (o : Outcome) → run_all cells folds_hidden owner o → ⊥ }
{}

/// An unfold is the reverse.
pub fn unfolding()
    ensures exchanged { run_all cells unfolds folder (Ends (with_holdings (gained (At x_f) (product full full) (lost (Folded a_cell) full folder.holdings)) folder)) }
    ensures unheld_fails { run_all cells unfolds owner (FailsAt (at 1 3)) }
    ensures unheld_never_ends { (t : State) → run_all cells unfolds owner (Ends t) → ⊥ }
    ensures none_fails { run_all cells unfolds_none folder (FailsAt (at 1 3)) }
{}

/// A condition picks a side, whose own variables are forgotten at its end.
pub fn conditions()
    ensures first_side { run_all cells chooses poor (Ends (state (with_y (pos 1)) (with_x_f (pos 5)) [])) }
    ensures other_side { run_all cells chooses_other poor (FailsAt (at 1 40)) }
    ensures unread_fails { run_all cells chooses_unread poor (FailsAt (at 1 7)) }
    ensures forgotten { run_all cells declares_within poor (Ends (state (with_y (pos 7)) (with_x_f (pos 5)) [])) }
{}

/// A sequence is over at the first failure or stop.
pub fn sequences()
    ensures end { run_all cells goes_on poor (Ends (state (with_y (pos 1)) (with_x_f (pos 5)) [])) }
    ensures fail_first { run_all cells fails_then_more poor (FailsAt (at 1 10)) }
    ensures stop_first { run_all cells stops_then_more poor Stops }
    ensures never_fail { (place : Place) → run_all cells stops_then_more poor (FailsAt place) → ⊥ }
{}

/// A loop goes on behind itself, or stops after an iteration; it fails where the invariant doesn't hold on entry or isn't kept.
pub fn iterations()
    ensures end { run_all cells loops poor (Ends (state (with_y (pos 3)) (with_x_f (pos 5)) [])) }
    ensures stop { run_all cells loops poor Stops }
    ensures never_fail { (place : Place) → run_all cells loops poor (FailsAt place) → ⊥ }
    ensures unkept_fails { run_all cells loops_unkept poor (FailsAt (at 1 27)) }
    ensures wrong_fails { run_all cells loops_wrong poor (FailsAt (at 1 27)) }
    ensures wrong_never_ends { (t : State) → run_all cells loops_wrong poor (Ends t) → ⊥ }
    ensures unread_fails { run_all cells loops_unread owner (FailsAt (at 1 10)) }
{}

/// A call takes the precondition and gives the postcondition; it fails where the one isn't held or the other isn't framed.
pub fn calling()
    ensures returns { run_all cells calls owner (Ends (state (with_y (pos 5)) (with_x_f (pos 5)) (gained (At x_f) (product full full)
        (lost (At x_f) (product full full) owner.holdings)))) }
    ensures unheld_fails { run_all cells calls sharer (FailsAt (at 1 3)) }
    ensures unheld_never_ends { (t : State) → run_all cells calls sharer (Ends t) → ⊥ }
    ensures false_stops { run_all cells calls_never poor Stops }
    ensures unframed_fails { run_all cells calls_unframed poor (FailsAt (at 1 3)) }
{}

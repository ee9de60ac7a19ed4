//! What inhales give, branch by branch, where nothing is held before.

ghost use Rattle.std.specs.Prelude.{[], ◌∷◌};
ghost use Rattle.vx_frac.specs.Fractions.{full, product};
ghost use Rattle.vx_meaning.specs.States.{At, Folded, gained, with_holdings};
ghost use Rattle.vx_meaning.specs.Outcomes.{Ends, FailsAt, Stops};
ghost use Rattle.vx_meaning.specs.Run.{run_all};
ghost use Rattle.vx_examples.specs.Words.{at};
ghost use Rattle.vx_examples.specs.Cells.{cells};
ghost use Rattle.vx_examples.specs.Blocks.{inhales_framed, inhales_too_early, inhales_where, inhales_nowhere, inhales_by_choice, inhales_other_choice, inhales_unread_condition, inhales_instance, inhales_negative};
ghost use Rattle.vx_examples.specs.Scenes.{half, x_f, a_cell, poor};

/// Parts are read from left to right in the state as it then is; a condition picks its side.
pub fn giving()
    ensures framed { run_all cells inhales_framed poor (Ends (with_holdings (gained (At x_f) (product full half) []) poor)) }
    ensures too_early { run_all cells inhales_too_early poor (FailsAt (at 1 10)) }
    ensures condition_true { run_all cells inhales_where poor (Ends (with_holdings (gained (At x_f) (product full half) []) poor)) }
    ensures condition_false { run_all cells inhales_nowhere poor (Ends poor) }
    ensures first_choice { run_all cells inhales_by_choice poor (Ends (with_holdings (gained (At x_f) (product full half) []) poor)) }
    ensures other_choice { run_all cells inhales_other_choice poor Stops }
    ensures unread_condition { run_all cells inhales_unread_condition poor (FailsAt (at 1 10)) }
    ensures negative { run_all cells inhales_negative poor (FailsAt (at 1 10)) }
    ensures instance { run_all cells inhales_instance poor (Ends (with_holdings (gained (Folded a_cell) (product full full) []) poor)) }
{}

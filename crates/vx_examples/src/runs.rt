//! Runs of statements, from states in which x is the reference 1, y is 0 and x.f is 5.

ghost use Rattle.std.specs.Prelude.{◌≡◌, Bool, pos, [], ◌∷◌, Some};
ghost use Rattle.vx_ast.specs.declared.Place.{Place};
ghost use Rattle.vx_frac.specs.Fractions.{full, product};
ghost use Rattle.vx_meaning.specs.Values.{IntValue, BoolValue, RefValue};
ghost use Rattle.vx_meaning.specs.States.{State, At, declare, gained, lost, lookup, value_at, with_heap, with_holdings};
ghost use Rattle.vx_meaning.specs.Outcomes.{Ends, FailsAt, Stops};
ghost use Rattle.vx_meaning.specs.Run.{run_all};
ghost use Rattle.vx_examples.specs.Words.{at};
ghost use Rattle.vx_examples.specs.Cells.{f, x, y, cells};
ghost use Rattle.vx_examples.specs.Blocks.{z, nothing, declares, assigns, reads, writes, writes_null, creates, creates_bare, inhales, inhales_false, inhales_unread, assumes, assumes_false, assumes_unread, exhales, exhales_half, exhales_wrong, asserts, asserts_wrong, asserts_thrice};
ghost use Rattle.vx_examples.specs.Scenes.{half, x_f, with_y, with_x_f, state, poor, owner, sharer};

/// An assignment ends with the value; one that reads what isn't held fails at the read.
pub fn variables()
    ensures unchanged { run_all cells nothing poor (Ends poor) }
    ensures declared { run_all cells declares poor (Ends (declare z (IntValue (pos 7)) poor)) }
    ensures declared_typed { (t : State) (b : Bool) → run_all cells declares poor (Ends t) → lookup z t.store ≡ Some (BoolValue b) → ⊥ }
    ensures assigned { run_all cells assigns poor (Ends (state (with_y (pos 1)) (with_x_f (pos 5)) [])) }
    ensures never_fails { (place : Place) → run_all cells assigns poor (FailsAt place) → ⊥ }
    ensures read { run_all cells reads owner (Ends (state (with_y (pos 5)) (with_x_f (pos 5)) owner.holdings)) }
    ensures unread { run_all cells reads poor (FailsAt (at 1 8)) }
    ensures never_ends { (t : State) → run_all cells reads poor (Ends t) → ⊥ }
{}

/// A write needs all of the location.
pub fn field_writes()
    ensures written { run_all cells writes owner (Ends (with_heap ((x_f, IntValue (pos 1)) ∷ owner.heap) owner)) }
    ensures never_fails { (place : Place) → run_all cells writes owner (FailsAt place) → ⊥ }
    ensures half_fails { run_all cells writes sharer (FailsAt (at 1 3)) }
    ensures half_never_ends { (t : State) → run_all cells writes sharer (Ends t) → ⊥ }
    ensures null_fails { run_all cells writes_null owner (FailsAt (at 1 3)) }
{}

/// A new reference is not null, and none of the store; all of its fields is held.
pub fn new_references()
    ensures created { run_all cells creates poor (Ends (state ((x, RefValue 2) ∷ (y, IntValue (pos 0)) ∷ []) (with_x_f (pos 5)) ((At record { receiver = 2; field = f }, full) ∷ []))) }
    ensures bare { run_all cells creates_bare poor (Ends (state ((x, RefValue 2) ∷ (y, IntValue (pos 0)) ∷ []) (with_x_f (pos 5)) [])) }
    ensures not_null { (t : State) → run_all cells creates poor (Ends t) → lookup x t.store ≡ Some (RefValue 0) → ⊥ }
    ensures not_stored { (t : State) → run_all cells creates poor (Ends t) → lookup x t.store ≡ Some (RefValue 1) → ⊥ }
{}

/// An inhale adds what can be; more than the whole of a location, and what is false, stop the run.
pub fn inhales()
    ensures added { run_all cells inhales sharer (Ends (with_holdings (gained (At x_f) (product full half) sharer.holdings) sharer)) }
    ensures too_much_stops { run_all cells inhales owner Stops }
    ensures too_much_never_ends { (t : State) → run_all cells inhales owner (Ends t) → ⊥ }
    ensures false_stops { run_all cells inhales_false poor Stops }
    ensures false_never_ends { (t : State) → run_all cells inhales_false poor (Ends t) → ⊥ }
    ensures true_ends { run_all cells inhales_unread owner (Ends owner) }
    ensures unread_fails { run_all cells inhales_unread poor (FailsAt (at 1 10)) }
{}

/// An assumption stops the run where it is false, and fails where it reads what isn't held.
pub fn assumes()
    ensures true_ends { run_all cells assumes poor (Ends poor) }
    ensures false_stops { run_all cells assumes_false poor Stops }
    ensures false_never_fails { (place : Place) → run_all cells assumes_false poor (FailsAt place) → ⊥ }
    ensures unread_fails { run_all cells assumes_unread poor (FailsAt (at 1 10)) }
{}

/// An exhale takes; the value of what is wholly gone can be any, and that of the rest stays.
pub fn exhales()
    ensures forgotten { run_all cells exhales owner (Ends (state (with_y (pos 0)) (with_x_f (pos 9)) (lost (At x_f) (product full full) owner.holdings))) }
    ensures never_fails { (place : Place) → run_all cells exhales owner (FailsAt place) → ⊥ }
    ensures half_kept { (t : State) → run_all cells exhales_half owner (Ends t) → value_at cells t.heap x_f ≡ IntValue (pos 5) }
    ensures wrong_fails { run_all cells exhales_wrong owner (FailsAt (at 1 22)) }
    ensures unheld_fails { run_all cells exhales poor (FailsAt (at 1 10)) }
    ensures unheld_never_ends { (t : State) → run_all cells exhales poor (Ends t) → ⊥ }
{}

/// An assertion takes as an exhale does, part after part, and then the state is as before.
pub fn asserts()
    ensures stays { run_all cells asserts owner (Ends owner) }
    ensures never_fails { (place : Place) → run_all cells asserts owner (FailsAt place) → ⊥ }
    ensures wrong_fails { run_all cells asserts_wrong poor (FailsAt (at 1 10)) }
    ensures thrice_fails { run_all cells asserts_thrice owner (FailsAt (at 1 44)) }
    ensures thrice_never_ends { (t : State) → run_all cells asserts_thrice owner (Ends t) → ⊥ }
{}

//! What assertions take and what lies inside instances.

ghost use Rattle.std.specs.Prelude.{◌≡◌, zero, [], ◌∷◌, Some, None};
ghost use Rattle.vx_frac.specs.Fractions.{full, product};
ghost use Rattle.vx_meaning.specs.Values.{RefValue};
ghost use Rattle.vx_meaning.specs.States.{At, Folded};
ghost use Rattle.vx_meaning.specs.Fits.{take_by, deeper, add};
ghost use Rattle.vx_meaning.specs.Flatten.{entries, flat};
ghost use Rattle.vx_examples.specs.Words.{Computes, held_in};
ghost use Rattle.vx_examples.specs.Cells.{cells};
ghost use Rattle.vx_examples.specs.Scenes.{half, x_f, poor, owner, folder};
ghost use Rattle.vx_examples.specs.Taken.{taken_from_owner, taken_from_folder, taken_by_halves};
ghost use Rattle.vx_examples.specs.Added.{added_to_owner};
ghost use Rattle.vx_examples.specs.Inside.{inside};

/// What is left once an assertion of these tables is taken, or the place of its first part that isn't held or isn't true.
pub fn taking()
    ensures owner { Computes (λ a. take_by cells 2 owner full a owner.holdings) taken_from_owner }
    ensures folder { Computes (λ a. take_by cells 2 folder full a folder.holdings) taken_from_folder }
    ensures halves { Computes (λ a. take_by cells 2 owner half a owner.holdings) taken_by_halves }
{}

/// What is held once an assertion of this table is added, or the place of its first part that isn't allowed.
pub fn adding()
    ensures { Computes (λ a. held_in (add cells (deeper cells 2) full a owner)) added_to_owner }
{}

/// The entries of each assertion of this table.
pub fn entries_of_assertions()
    ensures inside { Computes (entries cells poor) inside }
{}

//! Values of expressions, and which of them may be evaluated.

ghost use Rattle.std.specs.Prelude.{◌≡◌, pos, [], ◌∷◌, Some, None};
ghost use Rattle.vx_frac.specs.Fractions.{full};
ghost use Rattle.vx_meaning.specs.Values.{Value, IntValue};
ghost use Rattle.vx_meaning.specs.States.{Folded};
ghost use Rattle.vx_meaning.specs.Evaluate.{value_by, HasValue};
ghost use Rattle.vx_meaning.specs.Fits.{fit_by, Fits, FailsToFit};
ghost use Rattle.vx_examples.specs.Words.{Computes, at};
ghost use Rattle.vx_examples.specs.Functions.{lengths, lengths_length, rising};
ghost use Rattle.vx_examples.specs.Cells.{cells};
ghost use Rattle.vx_examples.specs.Scenes.{poor, later, owner, sharer, folder, hider, at_first, at_last, list_at, length_of_x, rising_at_zero};
ghost use Rattle.vx_examples.specs.Expressions.{literals, of_ints, of_amounts, of_others, divisions, connectives, reads, applications};
ghost use Rattle.vx_examples.specs.Allowed.{allowed_to_owner, allowed_to_sharer, allowed_to_poor, allowed_to_folder, allowed_to_hider};

/// The value of each expression of these tables, with no regard to what is held.
pub fn values()
    ensures literals { Computes (value_by cells 0 poor) literals }
    ensures of_ints { Computes (value_by cells 0 poor) of_ints }
    ensures of_amounts { Computes (value_by cells 0 poor) of_amounts }
    ensures of_others { Computes (value_by cells 0 poor) of_others }
    ensures divisions { Computes (value_by cells 0 poor) divisions }
    ensures connectives { Computes (value_by cells 0 poor) connectives }
    ensures reads { Computes (value_by cells 0 later) reads }
    ensures applications { Computes (value_by cells 1 later) applications }
{}

/// Which expressions of these tables may be evaluated, and the place of the first part that may not.
pub fn allowed()
    ensures owner { Computes (fit_by cells 2 owner) allowed_to_owner }
    ensures sharer { Computes (fit_by cells 2 sharer) allowed_to_sharer }
    ensures poor { Computes (fit_by cells 2 poor) allowed_to_poor }
    ensures folder { Computes (fit_by cells 2 folder) allowed_to_folder }
    ensures hider { Computes (fit_by cells 2 hider) allowed_to_hider }
{}

/// The length of a list of two nodes, by the fuel that it needs; and a function that has no value, since it never ends.
pub fn recursive_functions()
    ensures length { value_by lengths 2 (at_first []) length_of_x ≡ Some (IntValue (pos 2)) }
    ensures too_little_fuel { value_by lengths 1 (at_first []) length_of_x ≡ None }
    ensures length_of_last { value_by lengths 1 at_last length_of_x ≡ Some (IntValue (pos 1)) }
    ensures has_length { HasValue lengths (at_first []) length_of_x (IntValue (pos 2)) }
    ensures body_fits { Fits lengths (at_first ((Folded (list_at 1), full) ∷ [])) lengths_length.body (IntValue (pos 2)) }
    ensures body_needs_the_list { FailsToFit lengths (at_first []) lengths_length.body (at 4 3) }
    ensures applies_with_the_list { Fits lengths (at_first ((Folded (list_at 1), full) ∷ [])) length_of_x (IntValue (pos 2)) }
    ensures applies_without_the_list { FailsToFit lengths (at_first []) length_of_x (at 7 15) }
    ensures never_ends { (v : Value) → HasValue rising (at_first []) rising_at_zero v → ⊥ }
    ensures never_fits { FailsToFit rising (at_first []) rising_at_zero (at 3 21) }
{}

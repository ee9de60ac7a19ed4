//! Bodies of predicates that typing refuses, and what each would make of what is held.

ghost use Rattle.std.specs.Prelude.{◌≡◌, true, false, pos, [], ◌∷◌, Some, None, Ok, Err};
ghost use Rattle.vx_frac.specs.Fractions.{full, none, minus, product};
ghost use Rattle.vx_meaning.specs.Values.{IntValue, BoolValue};
ghost use Rattle.vx_meaning.specs.States.{Heap, At, amount};
ghost use Rattle.vx_meaning.specs.Evaluate.{value_by};
ghost use Rattle.vx_meaning.specs.Fits.{take_by};
ghost use Rattle.vx_meaning.specs.Flatten.{entries, flat, IsGrounded};
ghost use Rattle.vx_meaning.specs.Consistent.{total, IsHeld};
ghost use Rattle.vx_examples.specs.Words.{Computes, at};
ghost use Rattle.vx_examples.specs.Scenes.{x_f};
ghost use Rattle.vx_examples.specs.Refused.{loops, P_one, all_of_P, flat_lists, looping_totals, owes, P_of_null, null_f, owing, owing_totals, null_totals, as_before, remembers, remembers_body, keeper, changed};

/// An instance with an amount of none of itself within it: no fuel suffices for its entries, so it isn't grounded, and what it
/// holds counts as nothing.
pub fn an_instance_within_itself()
    ensures no_entries { Computes (λ n. flat loops n [] P_one) flat_lists }
    ensures not_grounded { (h : Heap) → IsGrounded loops h P_one → ⊥ }
    ensures totals { Computes (λ n. total loops n [] all_of_P x_f) looping_totals }
    ensures not_held { (h : Heap) → IsHeld loops h all_of_P x_f → ⊥ }
{}

/// A debt within an instance hides what is held beside it: all of x.f is held, but the total is none once the fuel reaches into
/// the instance, as null's is.
pub fn a_debt_within_an_instance()
    ensures inside { flat owes 1 [] P_of_null ≡ Some ((At null_f, full) ∷ (At null_f, minus full) ∷ (At x_f, minus full) ∷ []) }
    ensures beside { amount owing (At x_f) ≡ full }
    ensures totals { Computes (λ n. total owes n [] owing x_f) owing_totals }
    ensures of_null { Computes (λ n. total owes n [] owing null_f) null_totals }
{}

/// A body with an `old` is true before a change and false after it, while by what lies inside its instance it still is: there
/// the old heap is the present one.
pub fn a_body_with_old()
    ensures before { value_by remembers 0 keeper as_before ≡ Some (BoolValue true) }
    ensures after { value_by remembers 0 changed as_before ≡ Some (BoolValue false) }
    ensures taken { take_by remembers 0 keeper full remembers_body keeper.holdings ≡ Ok ((At x_f, minus (product full full)) ∷ keeper.holdings) }
    ensures not_taken { take_by remembers 0 changed full remembers_body changed.holdings ≡ Err (at 2 35) }
    ensures entries { entries remembers keeper remembers_body ≡ Some ((At x_f, full) ∷ []) }
    ensures no_entries { entries remembers changed remembers_body ≡ None }
    ensures inside { flat remembers 1 keeper.heap P_one ≡ Some ((At x_f, full) ∷ []) }
    ensures still_inside { flat remembers 1 changed.heap P_one ≡ Some ((At x_f, full) ∷ []) }
{}

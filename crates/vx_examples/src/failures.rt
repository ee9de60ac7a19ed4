//! Members that fail.

ghost use Rattle.vx_ast.specs.declared.Place.{Place};
ghost use Rattle.vx_ast.specs.declared.ValueType.TheVariants.{Int};
ghost use Rattle.vx_ast.specs.Syntax.{IsField};
ghost use Rattle.vx_meaning.specs.Values.{RefValue};
ghost use Rattle.vx_meaning.specs.Fails.{LowersMeasure, Lowers, Number, Inside, evaluated, MethodFails, FunctionFails, PredicateFails, Fails};
ghost use Rattle.std.specs.Prelude.{◌≡◌, pos, negsuc, [], ◌∷◌};
ghost use Rattle.vx_examples.specs.Words.{at, Computes};
ghost use Rattle.vx_examples.specs.Cells.{cells};
ghost use Rattle.vx_examples.specs.Evaluated.{of_expressions};
ghost use Rattle.vx_examples.specs.Fields.{two_halves, two_halves_m, exhaled_twice, exhaled_twice_m, maybe_same, maybe_same_m, forgotten, forgotten_m, half_write, half_write_m};
ghost use Rattle.vx_examples.specs.Loops.{counting_from_any, counting_from_any_count};
ghost use Rattle.vx_examples.specs.Calls.{called_bare, called_bare_m};
ghost use Rattle.vx_examples.specs.Predicates.{folded_write, folded_write_m};
ghost use Rattle.vx_examples.specs.Predicates as predicates;
ghost use Rattle.vx_examples.specs.Functions as functions;
ghost use Rattle.vx_examples.specs.Functions.{length, lengths, lengths_length, rising, rising_f};
ghost use Rattle.vx_examples.specs.Scenes.{list_of_x, at_first, at_last, poor, list_at};
ghost use Rattle.vx_examples.specs.Failing.{f, failing, failing_cell, failing_unframed, narrow, failing_narrow, divide, failing_divide, promise, failing_promise, rise, failing_rise, unheld, failing_unheld, unmeasured, failing_unmeasured, wild, failing_wild, stay, failing_stay, again, failing_again, fine, failing_fine, failing_demand, failing_vow, failing_claim, failing_give, failing_idle};

/// A method fails by its precondition, by a postcondition that doesn't frame itself, by its body, and by its postcondition; one that does nothing never fails.
pub fn methods()
    ensures precondition { MethodFails failing failing_demand (at 15 32) }
    ensures postcondition_unframed { MethodFails failing failing_vow (at 16 28) }
    ensures body { MethodFails failing failing_claim (at 17 32) }
    ensures postcondition { MethodFails failing failing_give (at 18 48) }
    ensures idle { (place : Place) → MethodFails failing failing_idle place → ⊥ }
{}

/// A function fails by its precondition, its body, its postcondition, its measure, and an application that doesn't lower it.
pub fn functions()
    ensures precondition { FunctionFails failing narrow failing_narrow }
    ensures body { FunctionFails failing divide failing_divide }
    ensures postcondition { FunctionFails failing promise failing_promise }
    ensures unheld_measure { FunctionFails failing unheld failing_unheld }
    ensures measure_without_value { FunctionFails failing unmeasured failing_unmeasured }
    ensures application { FunctionFails failing rise failing_rise }
    ensures unmeasured_application { FunctionFails failing wild failing_wild }
    ensures instance_application { FunctionFails failing stay failing_stay }
    ensures promise_application { FunctionFails failing again failing_again }
    ensures fine { FunctionFails failing fine failing_fine → ⊥ }
{}

/// A predicate fails where its body reads what it doesn't hold, and not where it holds it; a field never fails.
pub fn predicates()
    ensures unframed { PredicateFails failing failing_unframed }
    ensures framed { PredicateFails failing failing_cell → ⊥ }
    ensures field { Fails failing f (IsField Int) → ⊥ }
{}

/// The list function's measure falls from a node to the next, and its evaluated applications are those of the side that is picked.
pub fn measures()
    ensures lowered { LowersMeasure lengths list_of_x (at_first []) length (RefValue 2 ∷ []) }
    ensures first { evaluated lengths 0 (at_first []) lengths_length.body ≡ (length, RefValue 2 ∷ []) ∷ [] }
    ensures last { evaluated lengths 0 at_last lengths_length.body ≡ [] }
    ensures of_expressions { Computes (evaluated cells 1 poor) of_expressions }
    ensures numbers_fall { Lowers [] [] (Number (pos 2)) (Number (pos 1)) }
    ensures numbers_stay { Lowers [] [] (Number (pos 2)) (Number (pos 2)) → ⊥ }
    ensures numbers_below { Lowers [] [] (Number (negsuc 0)) (Number (negsuc 1)) → ⊥ }
    ensures two_kinds { Lowers [] [] (Number (pos 2)) (Inside (list_at 1)) → ⊥ }
{}

/// The programs whose walks fail have runs that fail at the same places, and two halves never fail.
pub fn failing_programs()
    ensures exhaled_twice { MethodFails exhaled_twice exhaled_twice_m (at 4 20) }
    ensures two_halves { (place : Place) → MethodFails two_halves two_halves_m place → ⊥ }
    ensures maybe_same { MethodFails maybe_same maybe_same_m (at 5 8) }
    ensures forgotten { MethodFails forgotten forgotten_m (at 6 8) }
    ensures half_write { MethodFails half_write half_write_m (at 4 1) }
    ensures counting { MethodFails counting_from_any counting_from_any_count (at 5 11) }
    ensures called { MethodFails called_bare called_bare_m (at 3 20) }
    ensures applied { MethodFails functions.unheld functions.unheld_m (at 3 27) }
    ensures folded { MethodFails folded_write folded_write_m (at 6 1) }
    ensures half_unfolded { MethodFails predicates.half_unfolded predicates.half_unfolded_m (at 6 1) }
    ensures below_none { MethodFails predicates.below_none predicates.below_none_m (at 4 8) }
    ensures unframed { PredicateFails predicates.unframed predicates.unframed_Q }
    ensures rising { FunctionFails rising functions.f rising_f }
{}

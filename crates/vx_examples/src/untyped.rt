//! What the meaning makes of values of other types, of names of no member and of states that lack a variable.

ghost use Rattle.std.specs.Prelude.{◌≡◌, true, false, pos, zero, [], ◌∷◌, Some, None, Ok, Err};
ghost use Rattle.vx_frac.specs.Fractions.{full, none, product, minus};
ghost use Rattle.vx_ast.specs.declared.ValueType.TheVariants.{Int, Perm};
ghost use Rattle.vx_ast.specs.declared.ValueType.TheVariants as type;
ghost use Rattle.vx_ast.specs.Syntax as syntax;
ghost use Rattle.vx_meaning.specs.Values as values;
ghost use Rattle.vx_meaning.specs.Values.{IntValue, BoolValue, RefValue, PermValue};
ghost use Rattle.vx_meaning.specs.States as states;
ghost use Rattle.vx_meaning.specs.States.{At, Folded};
ghost use Rattle.vx_meaning.specs.Evaluate as evaluate;
ghost use Rattle.vx_meaning.specs.Fits as fits;
ghost use Rattle.vx_meaning.specs.Flatten as flatten;
ghost use Rattle.vx_ast.specs.Types.{same_type};
ghost use Rattle.vx_ast.specs.Mentions.{is_among};
ghost use Rattle.vx_meaning.specs.Run.{owned, new_fields, run_all};
ghost use Rattle.vx_meaning.specs.Outcomes.{Outcome, Outcomes, Ends, FailsAt, Stops, ends, fails, stops, either, for_any, where_holds, failing_at, IsOver};
ghost use Rattle.vx_meaning.specs.Fails as failing;
ghost use Rattle.vx_examples.specs.Words.{Computes, at, held_in};
ghost use Rattle.vx_examples.specs.Cells.{f, x, y, get, cell, hidden, cells, cells_cell, cells_hidden, cells_read};
ghost use Rattle.vx_examples.specs.Scenes.{half, x_f, a_cell, with_y, with_x_f, holding, poor, owner, sharer, folder};
ghost use Rattle.vx_examples.specs.Untyped as untyped;

/// Operators on values of other types, and when a right part is needed.
pub fn operands()
    ensures types { Computes (λ p. same_type p.0 p.1) untyped.of_types }
    ensures values { Computes (λ p. values.same_value p.0 p.1) untyped.of_values }
    ensures and_needs { values.needs_right syntax.And true ≡ true }
    ensures and_has { values.needs_right syntax.And false ≡ false }
    ensures or_has { values.needs_right syntax.Or true ≡ false }
    ensures or_needs { values.needs_right syntax.Or false ≡ true }
    ensures implies_needs { values.needs_right syntax.Implies true ≡ true }
    ensures implies_has { values.needs_right syntax.Implies false ≡ false }
    ensures and_without { values.without_right syntax.And ≡ false }
    ensures or_without { values.without_right syntax.Or ≡ true }
    ensures implies_without { values.without_right syntax.Implies ≡ true }
    ensures scaled { values.operated syntax.Multiply (IntValue (pos 3)) (PermValue half) ≡ Some (PermValue (product record { numerator = pos 3; below = 0 } half)) }
    ensures scaled_behind { values.operated syntax.Multiply (PermValue half) (IntValue (pos 3)) ≡ None }
    ensures product { values.operated syntax.Multiply (PermValue half) (PermValue half) ≡ Some (PermValue (product half half)) }
    ensures mixed_sum { values.operated syntax.Add (IntValue (pos 3)) (PermValue half) ≡ None }
    ensures mixed_equal { values.operated syntax.Equal (IntValue (pos 0)) (PermValue none) ≡ Some (BoolValue false) }
    ensures divided_fraction { values.divided syntax.Quotient (PermValue half) (IntValue (pos 1)) ≡ None }
    ensures divided_by_fraction { values.divided syntax.Remainder (IntValue (pos 1)) (PermValue half) ≡ None }
    ensures chosen { evaluate.choose (IntValue (pos 1)) (Some (BoolValue true)) (Some (BoolValue true)) ≡ None }
    ensures connected { evaluate.connected syntax.Or (IntValue (pos 1)) (Some (BoolValue true)) ≡ None }
    ensures not_needed { evaluate.connected syntax.Or (BoolValue true) None ≡ Some (BoolValue true) }
    ensures read { evaluate.read cells poor f (IntValue (pos 1)) ≡ None }
    ensures no_fuel { evaluate.applications cells 0 get (RefValue 1 ∷ []) poor ≡ None }
    ensures no_function { evaluate.applications cells 1 cell (RefValue 1 ∷ []) poor ≡ None }
    ensures applied { evaluate.applications cells 1 get (RefValue 1 ∷ []) poor ≡ Some (IntValue (pos 5)) }
    ensures values_in_order { evaluate.values cells (evaluate.applications cells 0) poor
        (syntax.More untyped.x_var (syntax.More untyped.y_var syntax.NoMore)) ≡ Some (RefValue 1 ∷ IntValue (pos 0) ∷ []) }
    ensures no_variable { evaluate.values cells (evaluate.applications cells 0) poor (syntax.More untyped.x_var (syntax.More (syntax.Variable (at 1 4) f) syntax.NoMore)) ≡ None }
{}

/// Lists of unequal number, types of what is no field, and the same resources.
pub fn parts_of_states()
    ensures no_type { states.type_or_int None ≡ Int }
    ensures some_type { states.type_or_int (Some type.Ref) ≡ type.Ref }
    ensures field_type { states.field_type cells f ≡ Int }
    ensures assigned_fewer { states.assign_all (y ∷ x ∷ []) (IntValue (pos 4) ∷ []) (with_y (pos 3)) ≡ with_y (pos 4) }
    ensures bound_fewer { states.bind cells_read.parameters (RefValue 7 ∷ RefValue 8 ∷ []) ≡ (x, RefValue 7) ∷ [] }
    ensures same_location { states.same_resource (At x_f) (At x_f) ≡ true }
    ensures same_instance { states.same_resource (Folded a_cell) (Folded a_cell) ≡ true }
    ensures other_predicate { states.same_resource (Folded a_cell) (Folded record { predicate = hidden; arguments = RefValue 1 ∷ [] }) ≡ false }
    ensures nothing_scaled { states.scaled half [] ≡ [] }
    ensures left { states.leave 1 poor ≡ record poor { store = (x, RefValue 1) ∷ [] } }
    ensures left_more { states.leave 9 poor ≡ poor }
    ensures declared { (states.declare f (IntValue (pos 7)) poor).store ≡ (x, RefValue 1) ∷ (y, IntValue (pos 0)) ∷ (f, IntValue (pos 7)) ∷ [] }
    ensures among { is_among y (x ∷ y ∷ []) ≡ true }
    ensures not_among { is_among f (x ∷ y ∷ []) ≡ false }
    ensures no_new_fields { new_fields 7 [] owner.holdings ≡ owner.holdings }
    ensures owned { owned owner (at 1 1) f (RefValue 1) ≡ Ok x_f }
    ensures half_owned { owned sharer (at 1 1) f (RefValue 1) ≡ Err (at 1 1) }
    ensures no_reference { owned owner (at 1 1) f (IntValue (pos 1)) ≡ Err (at 1 1) }
{}

/// What fits, and what is taken and added, where parts have other types or name no member.
pub fn untyped_parts()
    ensures folder { Computes (fits.fit_by cells 2 folder) untyped.allowed_to_folder }
    ensures taken { Computes (λ a. fits.take_by cells 2 owner full a owner.holdings) untyped.taken_from_owner }
    ensures added { Computes (λ a. held_in (fits.add cells (fits.deeper cells 2) full a owner)) untyped.added_to_owner }
    ensures inside { Computes (flatten.entries cells poor) untyped.inside }
    ensures some { fits.or_fail (at 1 1) (Some half) ≡ Ok half }
    ensures guarded { fits.guard (at 1 1) true ≡ Ok tt }
    ensures not_guarded { fits.guard (at 1 1) false ≡ Err (at 1 1) }
    ensures placed { fits.placed (at 1 1) (fits.guard (at 2 2) false) ≡ Err (at 1 1) }
    ensures placed_fine { fits.placed (at 1 1) (fits.guard (at 2 2) true) ≡ Ok tt }
    ensures as_option { fits.to_option (fits.guard (at 2 2) true) ≡ Some tt }
    ensures no_option { fits.to_option (fits.guard (at 2 2) false) ≡ None }
    ensures location { fits.location_of f (RefValue 1) ≡ Some x_f }
    ensures no_location { fits.location_of f (BoolValue true) ≡ None }
    ensures amount { fits.amount_of (PermValue half) ≡ Some half }
    ensures no_amount { fits.amount_of (IntValue (pos 1)) ≡ None }
    ensures readable { fits.readable cells sharer x_f ≡ Some (IntValue (pos 5)) }
    ensures not_readable { fits.readable cells poor x_f ≡ None }
    ensures has { fits.has_instance folder a_cell half ≡ true }
    ensures has_none { fits.has_instance folder a_cell none ≡ false }
    ensures has_less { fits.has_instance owner a_cell half ≡ false }
    ensures not_applied { fits.application cells 2 (fits.deeper cells 2) cell (RefValue 1 ∷ []) owner ≡ None }
    ensures applied { fits.application cells 2 (fits.deeper cells 2) get (RefValue 1 ∷ []) owner ≡ Some (IntValue (pos 5)) }
    ensures too_deep { (fits.deeper cells 0).applied get (RefValue 1 ∷ []) owner ≡ None }
    ensures not_opened { (fits.deeper cells 0).opened a_cell full folder ≡ None }
    ensures opened { (fits.deeper cells 1).opened a_cell full folder ≡ Some (holding ((At x_f, product full full) ∷ (Folded a_cell, minus full) ∷ (Folded a_cell, full) ∷ [])) }
    ensures no_predicate { fits.exchange cells (fits.deeper cells 1) (record { predicate = get; arguments = RefValue 1 ∷ [] }) full folder ≡ None }
    ensures no_body { fits.exchange cells (fits.deeper cells 1) (record { predicate = hidden; arguments = RefValue 1 ∷ [] }) full folder ≡ None }
    ensures unframed { fits.exchange untyped.opens (fits.deeper untyped.opens 1) (record { predicate = untyped.open_name; arguments = RefValue 1 ∷ [] }) full folder ≡ None }
{}

/// What lies inside: entries of other types, bodies, and lists that are not there.
pub fn parts_inside()
    ensures no_application { flatten.no_applications get [] poor ≡ None }
    ensures location { flatten.location_entry f (RefValue 1) (PermValue half) ≡ Some ((At x_f, half) ∷ []) }
    ensures no_location { flatten.location_entry f (IntValue (pos 1)) (PermValue half) ≡ None }
    ensures no_share { flatten.location_entry f (RefValue 1) (IntValue (pos 1)) ≡ None }
    ensures instance { flatten.instance_entry cell (RefValue 1 ∷ []) (PermValue half) ≡ Some ((Folded a_cell, half) ∷ []) }
    ensures no_instance { flatten.instance_entry cell (RefValue 1 ∷ []) (IntValue (pos 1)) ≡ None }
    ensures body { flatten.body_entries cells [] (RefValue 1 ∷ []) cells_cell ≡ Some ((At x_f, full) ∷ []) }
    ensures no_body { flatten.body_entries cells [] (RefValue 1 ∷ []) cells_hidden ≡ Some [] }
    ensures in_location { flatten.within (λ i. None) (At x_f) full ≡ Some [] }
    ensures in_instance { flatten.within (λ i. Some ((At x_f, full) ∷ [])) (Folded a_cell) half ≡ Some ((At x_f, product half full) ∷ []) }
    ensures in_unknown { flatten.within (λ i. None) (Folded a_cell) half ≡ None }
    ensures with_none { flatten.with_inner (λ i. None) [] ≡ Some [] }
    ensures with_location { flatten.with_inner (λ i. None) ((At x_f, full) ∷ []) ≡ Some ((At x_f, full) ∷ []) }
    ensures with_unknown { flatten.with_inner (λ i. None) ((At x_f, full) ∷ (Folded a_cell, half) ∷ []) ≡ None }
{}

/// What measures are worth, and the parts of what is evaluated.
pub fn parts_of_failures()
    ensures worths { Computes (failing.measure_by cells 0 poor) untyped.worths }
    ensures number { failing.number_of (IntValue (pos 3)) ≡ Some (failing.Number (pos 3)) }
    ensures no_number { failing.number_of (BoolValue true) ≡ None }
    ensures chosen { failing.chosen None (true ∷ []) (true ∷ []) ≡ [] }
    ensures chosen_by_other { failing.chosen (Some (IntValue (pos 1))) (true ∷ []) (true ∷ []) ≡ [] }
    ensures applied { failing.applied_to get (Some []) ≡ (get, []) ∷ [] }
    ensures not_applied { failing.applied_to get None ≡ [] }
    ensures of_right { failing.of_right syntax.Or (Some (BoolValue false)) ((get, []) ∷ []) ≡ (get, []) ∷ [] }
    ensures of_left_alone { failing.of_right syntax.Or (Some (BoolValue true)) ((get, []) ∷ []) ≡ [] }
    ensures of_no_left { failing.of_right syntax.Or None ((get, []) ∷ []) ≡ [] }
    ensures in_order { failing.evaluated_in cells 1 poor (syntax.More (syntax.Apply (at 1 1) get untyped.one_x) (syntax.More untyped.y_var syntax.NoMore))
        ≡ (get, RefValue 1 ∷ []) ∷ [] }
    ensures nothing { failing.evaluated_in cells 1 poor syntax.NoMore ≡ [] }
    ensures two_kinds { failing.Lowers [] [] (failing.Inside a_cell) (failing.Number (pos 1)) → ⊥ }
{}

//! Values, stores and holdings of the meaning.

ghost use Rattle.std.specs.Prelude.{◌≡◌, true, false, pos, negsuc, [], ◌∷◌, Some, None};
ghost use Rattle.vx_ast.specs.declared.ValueType.TheVariants.{Int, Perm};
ghost use Rattle.vx_ast.specs.declared.ValueType.TheVariants as type;
ghost use Rattle.vx_frac.specs.Fractions.{full, none, sum, minus, product};
ghost use Rattle.vx_meaning.specs.Values as values;
ghost use Rattle.vx_meaning.specs.Values.{IntValue, BoolValue, RefValue, PermValue};
ghost use Rattle.vx_meaning.specs.States as states;
ghost use Rattle.vx_meaning.specs.States.{At, Folded, HaveTypes};
ghost use Rattle.vx_meaning.specs.Run.{IsFresh, DiffersAt, new_fields};
ghost use Rattle.vx_meaning.specs.Group.{Reaches, InGroup};
ghost use Rattle.vx_examples.specs.Words.{at};
ghost use Rattle.vx_examples.specs.Cells.{f, x, y, get, cell, cells, cells_read};
ghost use Rattle.vx_examples.specs.Applications as applied;
ghost use Rattle.vx_examples.specs.Scenes.{half, x_f, a_cell, with_y, with_x_f, holding, owner, sharer, folder, later};

/// Types of values, default values, and which values are the same; fractions go by cross products.
pub fn single_values()
    ensures int_type { values.type_of (IntValue (pos 1)) ≡ Int }
    ensures bool_type { values.type_of (BoolValue true) ≡ type.Bool }
    ensures ref_type { values.type_of (RefValue 1) ≡ type.Ref }
    ensures perm_type { values.type_of (PermValue half) ≡ Perm }
    ensures int_default { values.default_of Int ≡ IntValue (pos 0) }
    ensures bool_default { values.default_of type.Bool ≡ BoolValue false }
    ensures ref_default { values.default_of type.Ref ≡ RefValue 0 }
    ensures perm_default { values.default_of Perm ≡ PermValue none }
    ensures same_fractions { values.same_value (PermValue half) (PermValue record { numerator = pos 2; below = 3 }) ≡ true }
    ensures other_fractions { values.same_value (PermValue half) (PermValue full) ≡ false }
    ensures same_lists { values.same_values (RefValue 1 ∷ IntValue (pos 2) ∷ []) (RefValue 1 ∷ IntValue (pos 2) ∷ []) ≡ true }
    ensures other_lists { values.same_values (RefValue 1 ∷ IntValue (pos 2) ∷ []) (RefValue 1 ∷ IntValue (pos 3) ∷ []) ≡ false }
    ensures shorter_lists { values.same_values (RefValue 1 ∷ []) (RefValue 1 ∷ IntValue (pos 3) ∷ []) ≡ false }
    ensures is_true { values.is_true (BoolValue true) ≡ true }
    ensures is_not_true { values.is_true (BoolValue false) ≡ false }
    ensures no_truth { values.is_true (IntValue (pos 1)) ≡ false }
{}

/// Variables by their names, and lists of values for declarations.
pub fn variables_by_name()
    ensures found { states.lookup y (with_y (pos 3)) ≡ Some (IntValue (pos 3)) }
    ensures not_found { states.lookup f (with_y (pos 3)) ≡ None }
    ensures assigned { states.assign y (IntValue (pos 4)) (with_y (pos 3)) ≡ with_y (pos 4) }
    ensures not_assigned { states.assign f (IntValue (pos 4)) (with_y (pos 3)) ≡ with_y (pos 3) }
    ensures all_assigned { states.assign_all (y ∷ x ∷ []) (IntValue (pos 4) ∷ RefValue 2 ∷ []) (with_y (pos 3)) ≡ (x, RefValue 2) ∷ (y, IntValue (pos 4)) ∷ [] }
    ensures bound { states.bind cells_read.parameters (RefValue 7 ∷ []) ≡ (x, RefValue 7) ∷ [] }
    ensures not_bound { states.bind cells_read.parameters [] ≡ [] }
    ensures typed { HaveTypes cells_read.parameters (RefValue 7 ∷ []) }
    ensures of_other_type { HaveTypes cells_read.parameters (IntValue (pos 7) ∷ []) → ⊥ }
    ensures too_few { HaveTypes cells_read.parameters [] → ⊥ }
    ensures too_many { HaveTypes cells_read.parameters (RefValue 7 ∷ RefValue 8 ∷ []) → ⊥ }
    ensures differs { DiffersAt (y ∷ []) (with_y (pos 3)) (with_y (pos 4)) }
    ensures differs_elsewhere { DiffersAt (x ∷ []) (with_y (pos 3)) (with_y (pos 4)) → ⊥ }
    ensures differs_in_type { DiffersAt (y ∷ []) (with_y (pos 3)) ((x, RefValue 1) ∷ (y, BoolValue true) ∷ []) → ⊥ }
    ensures differs_in_number { DiffersAt (y ∷ []) (with_y (pos 3)) ((x, RefValue 1) ∷ []) → ⊥ }
{}

/// Values of locations, and amounts of what is held.
pub fn heaps_and_holdings()
    ensures value { states.value_at cells (with_x_f (pos 5)) x_f ≡ IntValue (pos 5) }
    ensures default_value { states.value_at cells [] x_f ≡ IntValue (pos 0) }
    ensures value_of_other_type { states.value_at cells ((x_f, BoolValue true) ∷ (x_f, IntValue (pos 6)) ∷ []) x_f ≡ IntValue (pos 6) }
    ensures newest_value { states.value_at cells ((x_f, IntValue (pos 6)) ∷ with_x_f (pos 5)) x_f ≡ IntValue (pos 6) }
    ensures no_field { states.field_type cells get ≡ Int }
    ensures amount { states.amount sharer.holdings (At x_f) ≡ sum half none }
    ensures no_amount { states.amount sharer.holdings (Folded a_cell) ≡ none }
    ensures folded_amount { states.amount folder.holdings (Folded a_cell) ≡ sum full none }
    ensures gained { states.amount (states.gained (At x_f) half sharer.holdings) (At x_f) ≡ sum half (sum half none) }
    ensures lost { states.amount (states.lost (At x_f) half sharer.holdings) (At x_f) ≡ sum (minus half) (sum half none) }
    ensures scaled { states.scaled half ((At x_f, full) ∷ (Folded a_cell, half) ∷ []) ≡ (At x_f, product half full) ∷ (Folded a_cell, product half half) ∷ [] }
    ensures same_location { states.same_location x_f x_f ≡ true }
    ensures other_receiver { states.same_location x_f (record { receiver = 2; field = f }) ≡ false }
    ensures other_field { states.same_location x_f (record { receiver = 1; field = x }) ≡ false }
    ensures other_arguments { states.same_resource (Folded a_cell) (Folded record { predicate = cell; arguments = RefValue 2 ∷ [] }) ≡ false }
    ensures other_kind { states.same_resource (Folded a_cell) (At x_f) ≡ false }
    ensures old { (states.at_old later).heap ≡ with_x_f (pos 4) }
    ensures now { (states.from_now owner).old_holdings ≡ owner.holdings }
    ensures fields_of_new { new_fields 7 (f ∷ x ∷ []) [] ≡ (At record { receiver = 7; field = f }, full) ∷ (At record { receiver = 7; field = x }, full) ∷ [] }
    ensures not_fresh { IsFresh cells owner 1 → ⊥ }
    ensures null_not_fresh { IsFresh cells owner 0 → ⊥ }
{}

/// Functions that apply one another are a group; one that only applies another isn't in its group.
pub fn function_groups()
    ensures mutual { InGroup applied.applications applied.even applied.odd }
    ensures reaches { Reaches applied.applications applied.double applied.get }
    ensures not_back { Reaches applied.applications applied.get applied.double → ⊥ }
    ensures not_itself { InGroup applied.applications applied.double applied.double → ⊥ }
{}

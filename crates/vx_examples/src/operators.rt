//! Operators on terms, and the smaller parts of the rules.

ghost use Rattle.std.specs.Prelude.{◌≡◌, true, false, pos, [], ◌∷◌, Some, None};
ghost use Rattle.vx_ast.specs.declared.ValueType.TheVariants.{Int, Perm};
ghost use Rattle.vx_ast.specs.declared.ValueType.TheVariants as type;
ghost use Rattle.vx_ast.specs.Syntax as syntax;
ghost use Rattle.vx_terms.specs.Sorts.{IntSort, BoolSort, RealSort, RefSort, SnapSort};
ghost use Rattle.vx_rules.specs.States as states;
ghost use Rattle.vx_rules.specs.Rules as rules;
ghost use Rattle.vx_rules.specs.Members as members;
ghost use Rattle.vx_ast.specs.Mentions.{is_among};
ghost use Rattle.vx_rules.specs.Groups.{is_in_group, function_number};
ghost use Rattle.vx_examples.specs.Words.{Computes, at, int, bool, real, ref, snap, null, unit, number, part, none, all, falsity, denied, equal, differ, less, at_most, plus, minus, times, both, either, implied, quotient, remainder, pair, first, second, as_int, wrapped_int};
ghost use Rattle.vx_examples.specs.Simplified.{truth};
ghost use Rattle.vx_examples.specs.Totals.{totals};
ghost use Rattle.vx_examples.specs.Applications.{applications, even, odd, double, get, where_same, low};
ghost use Rattle.vx_examples.specs.Walks.{x, y, f, g, fact, branch, scene, field_chunk, cell_chunk, half, heap, with_chunks};

/// Operators on terms; a numeral times an amount is an amount.
#[tactic(auto, unfolding(vx_frac::specs::Fractions::lowest))]
pub fn on_terms()
    ensures equal { rules.operated syntax.Equal (int 0) (int 1) ≡ equal (int 0) (int 1) }
    ensures less { rules.operated syntax.Less (int 0) (int 1) ≡ less (int 0) (int 1) }
    ensures less_equal { rules.operated syntax.LessEqual (int 0) (int 1) ≡ at_most (int 0) (int 1) }
    ensures greater { rules.operated syntax.Greater (int 0) (int 1) ≡ less (int 1) (int 0) }
    ensures greater_equal { rules.operated syntax.GreaterEqual (int 0) (int 1) ≡ at_most (int 1) (int 0) }
    ensures add { rules.operated syntax.Add (int 0) (int 1) ≡ plus (int 0) (int 1) }
    ensures subtract { rules.operated syntax.Subtract (number 0) (int 1) ≡ minus (number 0) (int 1) }
    ensures multiply { rules.operated syntax.Multiply (number 2) (int 1) ≡ times (number 2) (int 1) }
    ensures multiple { rules.operated syntax.Multiply (number 2) (real 1) ≡ times (part (pos 2) 0) (real 1) }
    ensures literal_multiple { rules.operated syntax.Multiply (number 2) half ≡ all }
    ensures quotient { rules.divided syntax.Quotient (int 0) (int 1) ≡ quotient (int 0) (int 1) }
    ensures remainder { rules.divided syntax.Remainder (int 0) (int 1) ≡ remainder (int 0) (int 1) }
    ensures and { rules.connected syntax.And (bool 0) (bool 1) ≡ both (bool 0) (bool 1) }
    ensures or { rules.connected syntax.Or (bool 0) (bool 1) ≡ either (bool 0) (bool 1) }
    ensures implies { rules.connected syntax.Implies (bool 0) (bool 1) ≡ implied (bool 0) (bool 1) }
    ensures totals { Computes rules.is_total totals }
    ensures lesser { rules.lesser [] (rules.outer [] 0) (Some (int 0)) (int 1) ≡ both (at_most (number 0) (int 0)) (less (int 1) (int 0)) }
    ensures lesser_than_none { rules.lesser [] (rules.outer [] 0) None (int 1) ≡ falsity }
{}

/// What is produced with a snapshot and without, and the facts on snapshots.
pub fn snapshots()
    ensures value_fresh { rules.produced_value IntSort None scene ≡ int 7 }
    ensures value_by_snapshot { rules.produced_value IntSort (Some (wrapped_int (int 1))) scene ≡ int 1 }
    ensures value_named { rules.produced_value IntSort (Some (snap 1)) scene ≡ int 7 }
    ensures snapshot_fresh { rules.produced_snapshot None scene ≡ snap 7 }
    ensures snapshot_itself { rules.produced_snapshot (Some (snap 1)) scene ≡ snap 1 }
    ensures snapshot_named { rules.produced_snapshot (Some (first (snap 1))) scene ≡ snap 7 }
    ensures left_part { rules.left_part (Some (pair (snap 1) (snap 2))) ≡ Some (snap 1) }
    ensures right_part { rules.right_part (Some (snap 1)) ≡ Some (second (snap 1)) }
    ensures no_part { rules.left_part None ≡ None }
    ensures no_right_part { rules.right_part None ≡ None }
    ensures split { (rules.with_split (Some (snap 1)) members.blank).path ≡ fact (equal (snap 1) (pair (first (snap 1)) (second (snap 1)))) ∷ [] }
    ensures not_split { rules.with_split None scene ≡ scene }
    ensures with_unit { (rules.with_unit (Some (snap 1)) members.blank).path ≡ fact (equal (snap 1) unit) ∷ [] }
    ensures without_unit { rules.with_unit None scene ≡ scene }
    ensures gathered { rules.gathered members.blank (λ w. equal (int 9) w)
        (record { value = int 1; state = record members.blank { path = branch (bool 0) ∷ fact (bool 1) ∷ branch (bool 2) ∷ [] } } ∷ record { value = int 2; state = members.blank } ∷ []) ≡
        implied (both (bool 0) (bool 2)) (both (bool 1) (equal (int 9) (int 1))) ∷ equal (int 9) (int 2) ∷ [] }
    ensures inside_root { rules.leads_inside (record (cell_chunk (ref 0) all (snap 1)) { root = true }) ≡ true }
    ensures inside_inner { rules.leads_inside (record (cell_chunk (ref 0) all (snap 1)) { inner = true }) ≡ true }
    ensures not_inside { rules.leads_inside (cell_chunk (ref 0) all (snap 1)) ≡ false }
    ensures other_place { rules.placed (record scene { at = Some (at 1 1) }) (at 2 2) ≡ at 1 1 }
    ensures own_place { rules.placed scene (at 2 2) ≡ at 2 2 }
{}

/// Fresh values for variables, names for arguments, and from what a new reference differs.
pub fn fresh_values()
    ensures forgotten { (members.forget [] (y ∷ f ∷ y ∷ x ∷ []) scene).store ≡ (x, bool 8) ∷ (y, int 7) ∷ [] }
    ensures forgotten_next { (members.forget [] (y ∷ f ∷ y ∷ x ∷ []) scene).next ≡ 9 }
    ensures nothing_forgotten { members.forget [] [] scene ≡ scene }
    ensures names { members.names_of (plus (int 0) (number 1) ∷ number 2 ∷ plus (int 1) (number 1) ∷ []) scene ≡ int 7 ∷ number 2 ∷ int 8 ∷ [] }
    ensures distinct_held { members.distinct (ref 9) (record members.blank {
      store = (x, ref 0) ∷ (y, int 1) ∷ [];
      heap = field_chunk f (ref 1) (real 2)
          (ref 3) ∷ [];
      old = field_chunk g (ref 4) all (int 5) ∷ cell_chunk (ref 6) all (snap 7) ∷ [];
    }) ≡
        differ (ref 9) null ∷ differ (ref 9) (ref 0) ∷ implied (less none (real 2)) (differ (ref 9) (ref 1)) ∷ implied (less none (real 2))
        (differ (ref 9) (ref 3)) ∷ differ (ref 9) (ref 4) ∷ [] }
    ensures sorts_of_int { states.sort_of_type Int ≡ IntSort }
    ensures sorts_of_bool { states.sort_of_type type.Bool ≡ BoolSort }
    ensures sorts_of_ref { states.sort_of_type type.Ref ≡ RefSort }
    ensures sorts_of_perm { states.sort_of_type Perm ≡ RealSort }
    ensures field_sort { rules.field_sort applications f ≡ IntSort }
{}

/// Groups as the rules decide them, and the numbers of functions.
pub fn decided_groups()
    ensures mutual { is_in_group applications even odd ≡ true }
    ensures itself { is_in_group applications even even ≡ true }
    ensures only_applied { is_in_group applications double get ≡ false }
    ensures not_itself { is_in_group applications double double ≡ false }
    ensures first_function { function_number applications get ≡ 0 }
    ensures later_function { function_number applications low ≡ 5 }
    ensures among { is_among x (y ∷ x ∷ []) ≡ true }
    ensures not_among { is_among f (y ∷ x ∷ []) ≡ false }
{}

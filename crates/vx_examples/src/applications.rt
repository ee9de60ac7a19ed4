//! Applications, snapshots and the codes of what is not held.

ghost use Rattle.std.specs.Prelude.{◌≡◌, [], ◌∷◌};
ghost use Rattle.vx_rules.specs.Trees.{AmountCode, AssertCode, EntryCode, FoldCode, FunctionCode, KeptCode, MeasureCode, PermissionCode, PostCode};
ghost use Rattle.vx_examples.specs.Words.{at, int, bool, real, ref, snap, null, unit, number, none, all, falsity, denied, equal, differ, less, at_most, plus, minus, both, implied, chosen_term, pair, first, second, as_int, wrapped_int, asks, questions_of};
ghost use Rattle.vx_examples.specs.Applications.{where_same_at, low_at, applications, double, get, where_same, unheld_part, drops_a_side, even, unkept, low, uses_promise, folds_two, unfolds_two, folds_positive, loses, loop_without, loop_loses, two_variables, below_zero, whole_condition};

/// An application of another group has no measure to lower.
#[tactic(auto, unfolding(vx_frac::specs::Fractions::lowest, vx_rules::specs::Members::rules))]
pub fn other_groups()
    ensures double { questions_of applications double ≡ [] }
    ensures get { questions_of applications get ≡ [] }
{}

/// A function reads what its precondition holds.
#[tactic(auto, unfolding(vx_frac::specs::Fractions::lowest))]
pub fn function_bodies()
    ensures where_same { questions_of applications where_same ≡
        asks (at 6 71) PermissionCode (equal (int 3) (as_int (snap 2)) ∷ equal (snap 2) (wrapped_int (int 3)) ∷ differ (ref 0) null ∷ equal (ref 1) (ref 0)
        ∷ []) (less none (chosen_term (equal (ref 0) (ref 1)) all none)) ∷ [] }
    ensures unheld_part { questions_of applications unheld_part ≡ asks (at 21 37) PermissionCode (equal (snap 1) unit ∷ []) falsity ∷ [] }
{}

/// What an application tells leaves out the side in which no candidate passes.
#[tactic(auto, unfolding(vx_frac::specs::Fractions::lowest, vx_rules::specs::Members::rules))]
pub fn dropped_sides()
    ensures drops_a_side { questions_of applications drops_a_side ≡ asks (at 9 64) AssertCode (differ (ref 0) null
        ∷ equal (as_int (wrapped_int (int 2))) (int 2) ∷ equal (snap 3) (wrapped_int (int 2)) ∷ implied (differ (ref 1) (ref 0))
        (both (equal (snap 3) (wrapped_int (as_int (snap 3)))) (equal (where_same_at (snap 3) (ref 0) (ref 1)) (number 0)))
        ∷ equal (snap 3) (wrapped_int (as_int (snap 3))) ∷ []) (equal (where_same_at (snap 3) (ref 0) (ref 1)) (number 0)) ∷ [] }
{}

/// Each of two functions that apply one another has a lesser measure there.
#[tactic(auto, unfolding(vx_frac::specs::Fractions::lowest, vx_rules::specs::Members::rules))]
pub fn mutual_measures()
    ensures even { questions_of applications even ≡
        asks (at 7 75) FunctionCode (at_most (number 0) (int 0) ∷ equal (snap 1) unit ∷ differ (int 0) (number 0) ∷ []) (at_most (number 0) (minus (int 0) (number 1)))
        ∷ asks (at 7 75) MeasureCode (at_most (number 0) (int 0) ∷ equal (snap 1) unit ∷ differ (int 0) (number 0) ∷ at_most (number 0)
        (minus (int 0) (number 1)) ∷ []) (both (at_most (number 0) (int 0)) (less (minus (int 0) (number 1)) (int 0))) ∷ [] }
{}

/// A postcondition is asked of the value.
#[tactic(auto, unfolding(vx_frac::specs::Fractions::lowest))]
pub fn function_promises()
    ensures unkept { questions_of applications unkept ≡ asks (at 22 38) PostCode (equal (snap 1) unit ∷ []) falsity ∷ [] }
    ensures low { questions_of applications low ≡ asks (at 19 50) PostCode (less (number 0) (int 0) ∷ equal (snap 1) unit ∷ []) (less (number 1) (plus (int 0) (number 1))) ∷ [] }
{}

/// An application asks for the precondition, and tells the body and the postcondition.
#[tactic(auto, unfolding(vx_frac::specs::Fractions::lowest, vx_rules::specs::Members::rules))]
pub fn told_facts()
    ensures uses_promise { questions_of applications uses_promise ≡
        asks (at 20 53) FunctionCode (less (number 5) (int 0) ∷ []) (less (number 0) (int 0))
        ∷ asks (at 20 53) AssertCode (less (number 5) (int 0) ∷ less (number 0) (int 0) ∷ equal (low_at unit (int 0)) (plus (int 0) (number 1))
        ∷ less (number 1) (low_at unit (int 0)) ∷ []) (less (number 1) (low_at unit (int 0))) ∷ [] }
{}

/// A fold says what is built, inner parts first.
#[tactic(auto, unfolding(vx_frac::specs::Fractions::lowest, vx_rules::specs::Members::rules))]
pub fn built_snapshots()
    ensures folds_two { questions_of applications folds_two ≡ asks (at 10 88) PermissionCode (differ (ref 0) null ∷ differ (ref 1) null
        ∷ differ (ref 0) (ref 1) ∷ implied (equal (ref 1) (ref 0)) (equal (int 3) (int 2)) ∷ equal (as_int (wrapped_int (int 2))) (int 2)
        ∷ equal (as_int (wrapped_int (int 3))) (int 3) ∷ equal (first (pair (wrapped_int (int 2)) (wrapped_int (int 3)))) (wrapped_int (int 2))
        ∷ equal (second (pair (wrapped_int (int 2)) (wrapped_int (int 3)))) (wrapped_int (int 3))
        ∷ equal (snap 4) (pair (wrapped_int (int 2)) (wrapped_int (int 3))) ∷ []) falsity ∷ [] }
{}

/// An unfold says what the snapshot is made of.
#[tactic(auto, unfolding(vx_frac::specs::Fractions::lowest, vx_rules::specs::Members::rules))]
pub fn split_snapshots()
    ensures unfolds_two { questions_of applications unfolds_two ≡ asks (at 11 81) AssertCode (equal (snap 2) (pair (first (snap 2)) (second (snap 2)))
        ∷ equal (int 3) (as_int (first (snap 2))) ∷ equal (first (snap 2)) (wrapped_int (int 3)) ∷ differ (ref 0) null
        ∷ equal (int 4) (as_int (second (snap 2))) ∷ equal (second (snap 2)) (wrapped_int (int 4)) ∷ differ (ref 1) null ∷ differ (ref 0) (ref 1)
        ∷ implied (equal (ref 1) (ref 0)) (equal (int 4) (int 3)) ∷ []) (equal (int 3) (int 4)) ∷ [] }
{}

/// The codes of what is not true or not held.
#[tactic(auto, unfolding(vx_frac::specs::Fractions::lowest, vx_rules::specs::Members::rules))]
pub fn codes()
    ensures folds_positive { questions_of applications folds_positive ≡ asks (at 12 51) FoldCode (differ (ref 0) null
        ∷ equal (as_int (wrapped_int (int 1))) (int 1) ∷ []) (less (number 0) (int 1)) ∷ [] }
    ensures loses { questions_of applications loses ≡ asks (at 13 48) PostCode (differ (ref 0) null ∷ []) falsity ∷ [] }
    ensures loop_without { questions_of applications loop_without ≡ asks (at 14 60) EntryCode [] falsity ∷ [] }
    ensures loop_loses { questions_of applications loop_loses ≡ asks (at 15 76) KeptCode (differ (ref 0) null ∷ bool 1 ∷ []) falsity ∷ [] }
{}

/// A loop forgets the variables that it assigns, each once, in the order of their first assignment.
#[tactic(auto, unfolding(vx_frac::specs::Fractions::lowest))]
pub fn forgotten_variables()
    ensures two_variables { questions_of applications two_variables ≡ asks (at 16 104) AssertCode (denied (less (int 0) (number 3)) ∷ []) (equal (int 3) (int 4)) ∷ [] }
{}

/// An amount that is a difference is asked not to be below none.
#[tactic(auto, unfolding(vx_frac::specs::Fractions::lowest))]
pub fn amounts_below_none()
    ensures below_zero { questions_of applications below_zero ≡ asks (at 17 45) AmountCode [] (at_most none (minus (real 1) all)) ∷ [] }
{}

/// A pure implication is one fact.
#[tactic(auto, unfolding(vx_frac::specs::Fractions::lowest))]
pub fn pure_implications()
    ensures whole_condition { questions_of applications whole_condition ≡ [] }
{}

//! Evaluation: operands from left to right, and forks where a right part is not total.

ghost use Rattle.std.specs.Prelude.{◌≡◌, [], ◌∷◌};
ghost use Rattle.vx_rules.specs.Trees.{AmountCode, AssertCode, DivisorCode, PermissionCode, UnfoldCode};
ghost use Rattle.vx_examples.specs.Walks.{half};
ghost use Rattle.vx_examples.specs.Words.{as_int, asks, at, bool, both, chosen_term, denied, differ, either, equal, falsity, implied, int, less, none, null, number, plus, questions_of, quotient, ref, remainder, snap, wrapped_int};
ghost use Rattle.vx_examples.specs.Branches.{branches, quotients, total, right_of_and, right_of_or, right_of_implies, sides_of_choice, candidates_in_order, peek, peek_bare, peek_none, olds};

/// A divisor is asked not to be 0, each time.
#[tactic(auto, unfolding(vx_frac::specs::Fractions::lowest))]
pub fn divisors()
    ensures quotients { questions_of branches quotients ≡
        asks (at 5 43) DivisorCode [] (differ (int 1) (number 0))
        ∷ asks (at 5 52) DivisorCode (differ (int 1) (number 0) ∷ []) (differ (int 1) (number 0))
        ∷ asks (at 5 43) AssertCode (differ (int 1) (number 0) ∷ []) (equal (quotient (int 0) (int 1)) (remainder (int 0) (int 1))) ∷ [] }
{}

/// Total parts are one term.
#[tactic(auto, unfolding(vx_frac::specs::Fractions::lowest))]
pub fn total_parts()
    ensures total { questions_of branches total ≡
        asks (at 6 41) AssertCode [] (either (bool 0) (bool 1))
        ∷ asks (at 6 55) AssertCode (either (bool 0) (bool 1) ∷ []) (denied (both (bool 0) (bool 1)))
        ∷ asks (at 6 72) AssertCode (either (bool 0) (bool 1) ∷ denied (both (bool 0) (bool 1)) ∷ []) (chosen_term (bool 0) (bool 1) (bool 0)) ∷ [] }
{}

/// Only the side that needs the right part evaluates it.
#[tactic(auto, unfolding(vx_frac::specs::Fractions::lowest))]
pub fn right_parts()
    ensures right_of_and { questions_of branches right_of_and ≡
        asks (at 7 54) DivisorCode (bool 0 ∷ []) (differ (int 1) (number 0))
        ∷ asks (at 7 47) AssertCode (bool 0 ∷ differ (int 1) (number 0) ∷ []) (differ (quotient (number 1) (int 1)) (number 1)) ∷ [] }
    ensures right_of_or { questions_of branches right_of_or ≡
        asks (at 8 51) DivisorCode (denied (bool 0) ∷ []) (differ (int 1) (number 0))
        ∷ asks (at 8 46) AssertCode (denied (bool 0) ∷ differ (int 1) (number 0) ∷ []) (equal (quotient (number 1) (int 1)) (number 1)) ∷ [] }
    ensures right_of_implies { questions_of branches right_of_implies ≡
        asks (at 9 57) DivisorCode (bool 0 ∷ []) (differ (int 1) (number 0))
        ∷ asks (at 9 51) AssertCode (bool 0 ∷ differ (int 1) (number 0) ∷ []) (equal (quotient (number 1) (int 1)) (number 1)) ∷ [] }
    ensures sides_of_choice { questions_of branches sides_of_choice ≡
        asks (at 10 55) DivisorCode (bool 0 ∷ []) (differ (int 1) (number 0))
        ∷ asks (at 10 50) AssertCode (bool 0 ∷ differ (int 1) (number 0) ∷ []) (equal (quotient (number 1) (int 1)) (number 1))
        ∷ asks (at 10 50) AssertCode (denied (bool 0) ∷ []) (equal (int 1) (number 1)) ∷ [] }
{}

/// A read is asked about by the sum over the chunks in their order, and its value is that of each that is there.
#[tactic(auto, unfolding(vx_frac::specs::Fractions::lowest))]
pub fn reads()
    ensures candidates_in_order { questions_of branches candidates_in_order ≡
        asks (at 11 101) PermissionCode (differ (ref 0) null ∷ differ (ref 1) null ∷ implied (equal (ref 1) (ref 0)) (equal (int 4) (int 3)) ∷ [])
        (less none (plus (chosen_term (equal (ref 0) (ref 2)) half none) (chosen_term (equal (ref 1) (ref 2)) half none)))
        ∷ asks (at 11 101) AssertCode (differ (ref 0) null ∷ differ (ref 1) null ∷ implied (equal (ref 1) (ref 0)) (equal (int 4) (int 3))
        ∷ less none (plus (chosen_term (equal (ref 0) (ref 2)) half none) (chosen_term (equal (ref 1) (ref 2)) half none)) ∷ implied (equal (ref 0) (ref 2))
        (equal (int 5) (int 3)) ∷ implied (equal (ref 1) (ref 2)) (equal (int 5) (int 4)) ∷ []) (equal (int 5) (number 0)) ∷ [] }
{}

/// An unfolding reads what is in the body by the snapshot, and leaves the instance.
#[tactic(auto, unfolding(vx_frac::specs::Fractions::lowest, vx_rules::specs::Members::rules))]
pub fn unfoldings()
    ensures peek { questions_of branches peek ≡ asks (at 12 47) AssertCode (equal (int 2) (as_int (snap 1)) ∷ equal (snap 1) (wrapped_int (int 2))
        ∷ differ (ref 0) null ∷ []) (equal (int 2) (number 0)) ∷ [] }
    ensures peek_bare { questions_of branches peek_bare ≡ asks (at 13 35) UnfoldCode [] falsity ∷ [] }
    ensures peek_none { questions_of branches peek_none ≡ asks (at 14 35) AmountCode [] falsity ∷ [] }
{}

/// An old value is that of the precondition.
#[tactic(auto, unfolding(vx_frac::specs::Fractions::lowest))]
pub fn old_values()
    ensures olds { questions_of branches olds ≡ asks (at 39 57) AssertCode (differ (ref 0) null ∷ []) (equal (int 1) (number 1)) ∷ [] }
{}

//! Statements and members by the rules.

ghost use Rattle.std.specs.Prelude.{◌≡◌, [], ◌∷◌};
ghost use Rattle.vx_rules.specs.Trees.{AmountCode, AssertCode, CallCode, FoldCode, MeasureCode, PermissionCode, UnfoldCode};
ghost use Rattle.vx_examples.specs.Words.{all, asks, at, at_most, bool, chosen_term, denied, differ, equal, falsity, int, less, none, null, number, plus, questions_of, ref, snap, unit};
ghost use Rattle.vx_examples.specs.Branches.{branches, folds_bare, folds_none, unfolds_bare, unfolds_none, sets, writes_other, creates, assumes, calls, loops_over_heap, forgets_variables, increases, precondition, postcondition, needs, stuck};

/// A fold without the body, and one of no amount.
#[tactic(auto, unfolding(vx_frac::specs::Fractions::lowest, vx_rules::specs::Members::rules))]
pub fn folds()
    ensures folds_bare { questions_of branches folds_bare ≡ asks (at 18 29) FoldCode [] falsity ∷ [] }
    ensures folds_none { questions_of branches folds_none ≡ asks (at 19 29) AmountCode [] falsity ∷ [] }
{}

/// An unfold without the instance, and one of no amount.
#[tactic(auto, unfolding(vx_frac::specs::Fractions::lowest))]
pub fn unfolds()
    ensures unfolds_bare { questions_of branches unfolds_bare ≡ asks (at 20 31) UnfoldCode [] falsity ∷ [] }
    ensures unfolds_none { questions_of branches unfolds_none ≡ asks (at 21 31) AmountCode [] falsity ∷ [] }
{}

/// A written value is named.
#[tactic(auto, unfolding(vx_frac::specs::Fractions::lowest))]
pub fn named_writes()
    ensures sets { questions_of branches sets ≡ asks (at 22 69) AssertCode (differ (ref 0) null ∷ equal (int 3) (plus (int 1) (number 1)) ∷ []) (less (int 1) (int 3)) ∷ [] }
{}

/// A write of another reference is asked about by the sum over the chunk that may be its.
#[tactic(auto, unfolding(vx_frac::specs::Fractions::lowest))]
pub fn other_writes()
    ensures writes_other { questions_of branches writes_other ≡ asks (at 38 57) PermissionCode (differ (ref 0) null ∷ [])
        (at_most all (chosen_term (equal (ref 0) (ref 1)) all none)) ∷ [] }
{}

/// A new reference differs from null, from those of the store and from those of what is held.
#[tactic(auto, unfolding(vx_frac::specs::Fractions::lowest))]
pub fn new_references()
    ensures creates { questions_of branches creates ≡ asks (at 23 74) AssertCode (differ (ref 0) null ∷ differ (ref 3) null ∷ differ (ref 3) (ref 0)
        ∷ differ (ref 3) (ref 2) ∷ differ (ref 3) (ref 1) ∷ []) (differ (ref 3) (ref 1)) ∷ [] }
{}

/// A fact that is in the path is not added again.
#[tactic(auto, unfolding(vx_frac::specs::Fractions::lowest))]
pub fn facts()
    ensures assumes { questions_of branches assumes ≡ asks (at 24 76) AssertCode (less (int 0) (int 1) ∷ less (number 0) (int 0) ∷ []) (equal (int 0) (int 1)) ∷ [] }
{}

/// A call names its arguments, asks for the precondition and gives the postcondition of fresh returns.
#[tactic(auto, unfolding(vx_frac::specs::Fractions::lowest, vx_rules::specs::Members::rules))]
pub fn called_methods()
    ensures calls { questions_of branches calls ≡
        asks (at 26 35) CallCode (equal (int 2) (plus (int 0) (number 1)) ∷ []) (less (number 0) (int 2))
        ∷ asks (at 26 64) AssertCode (equal (int 2) (plus (int 0) (number 1)) ∷ less (number 0) (int 2) ∷ less (int 2) (int 3) ∷ []) (less (int 0) (int 3)) ∷ [] }
{}

/// A loop that changes what its invariant holds asks nothing.
#[tactic(auto, unfolding(vx_frac::specs::Fractions::lowest))]
pub fn loops_and_blocks()
    ensures loops_over_heap { questions_of branches loops_over_heap ≡ [] }
    ensures forgets_variables { questions_of branches forgets_variables ≡
        asks (at 37 75) AssertCode (bool 0 ∷ []) (bool 0)
        ∷ asks (at 37 75) AssertCode (denied (bool 0) ∷ []) (bool 0) ∷ [] }
{}

/// A method without a body has its postcondition alone.
#[tactic(auto, unfolding(vx_frac::specs::Fractions::lowest))]
pub fn bodiless()
    ensures increases { questions_of branches increases ≡ [] }
{}

/// A precondition, and a postcondition, that reads what it does not hold.
#[tactic(auto, unfolding(vx_frac::specs::Fractions::lowest))]
pub fn contracts_unframed()
    ensures precondition { questions_of branches precondition ≡ asks (at 27 38) PermissionCode [] falsity ∷ [] }
    ensures postcondition { questions_of branches postcondition ≡ asks (at 28 38) PermissionCode [] falsity ∷ [] }
{}

/// A measure whose instance is not held.
#[tactic(auto, unfolding(vx_frac::specs::Fractions::lowest))]
pub fn measures_unheld()
    ensures needs { questions_of branches needs ≡ asks (at 29 39) MeasureCode (equal (snap 1) unit ∷ []) falsity ∷ [] }
{}

/// An application whose instance is not inside the measured one.
#[tactic(auto, unfolding(vx_frac::specs::Fractions::lowest, vx_rules::specs::Members::rules))]
pub fn measures_not_inside()
    ensures stuck { questions_of branches stuck ≡ asks (at 30 66) MeasureCode [] falsity ∷ [] }
{}

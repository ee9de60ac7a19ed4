//! Producing and consuming assertions, and putting and taking chunks.

ghost use Rattle.std.specs.Prelude.{◌≡◌, [], ◌∷◌};
ghost use Rattle.vx_rules.specs.Trees.{AmountCode, AssertCode, DivisorCode, PermissionCode};
ghost use Rattle.vx_examples.specs.Words.{all, as_int, asks, at, at_most, bool, both, denied, differ, equal, falsity, implied, int, less, none, null, number, probes, questions_of, real, ref, snap, wrapped_int};
ghost use Rattle.vx_examples.specs.Branches.{branches, conditional, chosen, amounts, twice, whole_twice, merges, takes_other, takes_two};

/// A condition that is in the path has one side.
#[tactic(auto, unfolding(vx_frac::specs::Fractions::lowest))]
pub fn conditions()
    ensures conditional { questions_of branches conditional ≡ [] }
    ensures chosen { questions_of branches chosen ≡ asks (at 16 77) PermissionCode (denied (bool 1) ∷ differ (ref 0) null ∷ []) falsity ∷ [] }
{}

/// An amount that is not literal is asked not to be below none, and bounded where it is put.
#[tactic(auto, unfolding(vx_frac::specs::Fractions::lowest))]
pub fn amounts_asked()
    ensures amounts { questions_of branches amounts ≡
        asks (at 17 42) AmountCode [] (at_most none (real 1))
        ∷ asks (at 17 61) AmountCode (at_most none (real 1) ∷ implied (less none (real 1)) (differ (ref 0) null) ∷ at_most (real 1) all ∷ []) (at_most none (real 1)) ∷ [] }
{}

/// In a predicate the amounts are not bounded.
#[tactic(auto, unfolding(vx_frac::specs::Fractions::lowest))]
pub fn unbounded_amounts()
    ensures twice { questions_of branches twice ≡ asks (at 31 51) DivisorCode (differ (ref 0) null ∷ equal (int 1) (int 2) ∷ []) (differ (int 1) (number 0)) ∷ [] }
{}

/// In a method more than the whole is impossible.
#[tactic(auto, unfolding(vx_frac::specs::Fractions::lowest))]
pub fn bounded_amounts()
    ensures whole_twice { questions_of branches whole_twice ≡ asks (at 32 74) AssertCode (differ (ref 0) null ∷ equal (int 2) (int 3) ∷ falsity ∷ []) (bool 1) ∷ [] }
{}

/// Instances with identical arguments merge, and their snapshots agree.
#[tactic(auto, unfolding(vx_frac::specs::Fractions::lowest, vx_rules::specs::Members::rules))]
pub fn merged_instances()
    ensures merges { questions_of branches merges ≡ asks (at 33 93) AssertCode (equal (snap 1) (snap 2) ∷ equal (int 3) (as_int (snap 1))
        ∷ equal (snap 1) (wrapped_int (int 3)) ∷ differ (ref 0) null ∷ []) (equal (int 3) (number 0)) ∷ [] }
{}

/// An instance with other arguments is probed, and last is asked that none is wanted.
#[tactic(auto, unfolding(vx_frac::specs::Fractions::lowest))]
pub fn other_arguments()
    ensures takes_other { questions_of branches takes_other ≡
        probes (at 34 62) PermissionCode [] (equal (ref 0) (ref 1))
        ∷ asks (at 34 62) PermissionCode [] falsity ∷ [] }
    ensures takes_two { questions_of branches takes_two ≡
        probes (at 35 70) PermissionCode [] (both (equal (ref 0) (ref 2)) (equal (ref 1) (ref 0)))
        ∷ asks (at 35 70) PermissionCode [] falsity ∷ [] }
{}

//! Amounts, snapshots of sides, and further branches of the rules.

ghost use Rattle.std.specs.Prelude.{◌≡◌, pos, [], ◌∷◌};
ghost use Rattle.vx_rules.specs.Trees.{AmountCode, AssertCode, FoldCode, PermissionCode, UnfoldCode};
ghost use Rattle.vx_examples.specs.Words.{at, part, int, bool, real, ref, snap, null, unit, none, all, falsity, denied, equal, differ, less, at_most, times, implied, as_int, as_ref, wrapped_int, wrapped_ref, asks, probes, questions_of};
ghost use Rattle.vx_examples.specs.Amounts.{amounts, takes_none, takes_some, takes_from, folds_part, unfolds_part, multiples, news_all, news_none, loop_reads, old_after, nested, too_much, folds_maybe, unfolds_maybe, folds_picked, unfolds_picked, picked};

/// An amount that nothing holds is asked to be at most none.
#[tactic(auto, unfolding(vx_frac::specs::Fractions::lowest))]
pub fn unheld_amounts()
    ensures takes_none { questions_of amounts takes_none ≡ [] }
    ensures takes_some { questions_of amounts takes_some ≡
        asks (at 8 45) AmountCode [] (at_most none (real 1))
        ∷ asks (at 8 45) PermissionCode (at_most none (real 1) ∷ []) (at_most (real 1) none) ∷ [] }
{}

/// An amount that is taken from a location is asked to be at most what its chunk has.
#[tactic(auto, unfolding(vx_frac::specs::Fractions::lowest))]
pub fn amounts_of_chunks()
    ensures takes_from { questions_of amounts takes_from ≡
        asks (at 9 54) AmountCode [] (at_most none (real 1))
        ∷ asks (at 9 73) AmountCode (at_most none (real 1) ∷ implied (less none (real 1)) (differ (ref 0) null) ∷ at_most (real 1) all ∷ []) (at_most none (real 2))
        ∷ asks (at 9 73) PermissionCode (at_most none (real 1) ∷ implied (less none (real 1)) (differ (ref 0) null) ∷ at_most (real 1) all
        ∷ at_most none (real 2) ∷ []) (at_most (real 2) (real 1)) ∷ [] }
{}

/// A fold and an unfold of a part: its amount is above none, and scales the body.
#[tactic(auto, unfolding(vx_frac::specs::Fractions::lowest, vx_rules::specs::Members::rules))]
pub fn parts_of_instances()
    ensures folds_part { questions_of amounts folds_part ≡
        asks (at 10 56) AmountCode (differ (ref 0) null ∷ []) (less none (real 1))
        ∷ asks (at 10 56) AmountCode (differ (ref 0) null ∷ less none (real 1) ∷ []) (at_most none (real 1))
        ∷ asks (at 10 56) FoldCode (differ (ref 0) null ∷ less none (real 1) ∷ at_most none (real 1) ∷ []) (at_most (real 1) all) ∷ [] }
    ensures unfolds_part { questions_of amounts unfolds_part ≡
        asks (at 11 57) AmountCode [] (less none (real 1))
        ∷ probes (at 11 57) UnfoldCode (less none (real 1) ∷ []) (at_most (real 1) all)
        ∷ asks (at 11 57) AmountCode (less none (real 1) ∷ []) (at_most none (real 1))
        ∷ asks (at 11 57) UnfoldCode (less none (real 1) ∷ []) (equal (real 1) none)
        ∷ asks (at 11 57) AmountCode (less none (real 1) ∷ equal (real 1) none ∷ []) (at_most none (real 1)) ∷ [] }
{}

/// A literal multiple of an amount.
#[tactic(auto, unfolding(vx_frac::specs::Fractions::lowest))]
pub fn multiples_of_amounts()
    ensures multiples { questions_of amounts multiples ≡
        asks (at 18 44) AmountCode [] (at_most none (times (part (pos 2) 0) (real 1)))
        ∷ asks (at 18 67) AssertCode (at_most none (times (part (pos 2) 0) (real 1)) ∷ implied (less none (times (part (pos 2) 0) (real 1)))
        (differ (ref 0) null) ∷ at_most (times (part (pos 2) 0) (real 1)) all ∷ []) (at_most none (real 1)) ∷ [] }
{}

/// All fields of a new reference, or none.
#[tactic(auto, unfolding(vx_frac::specs::Fractions::lowest))]
pub fn fields_of_new()
    ensures news_all { questions_of amounts news_all ≡ asks (at 12 51) AssertCode (differ (ref 1) null ∷ differ (ref 1) (ref 0) ∷ []) (equal (ref 3) null) ∷ [] }
    ensures news_none { questions_of amounts news_none ≡ asks (at 13 57) AssertCode (differ (ref 2) null ∷ differ (ref 2) (ref 0) ∷ differ (ref 2) (ref 1)
        ∷ []) (differ (ref 2) (ref 0)) ∷ [] }
{}

/// A condition that is not framed by the invariant, in the iteration and behind the loop.
#[tactic(auto, unfolding(vx_frac::specs::Fractions::lowest))]
pub fn loop_conditions()
    ensures loop_reads { questions_of amounts loop_reads ≡
        asks (at 14 36) PermissionCode [] falsity
        ∷ asks (at 14 36) PermissionCode [] falsity ∷ [] }
{}

/// A postcondition that holds literally.
#[tactic(auto, unfolding(vx_frac::specs::Fractions::lowest))]
pub fn literal_postconditions()
    ensures old_after { questions_of amounts old_after ≡ [] }
{}

/// A predicate that unfolds another: it has what it unfolds, or is asked for it.
#[tactic(auto, unfolding(vx_frac::specs::Fractions::lowest, vx_rules::specs::Members::rules))]
pub fn nested_predicates()
    ensures nested { questions_of amounts nested ≡ [] }
    ensures too_much { questions_of amounts too_much ≡
        probes (at 6 51) UnfoldCode [] falsity
        ∷ asks (at 6 51) UnfoldCode [] falsity ∷ [] }
{}

/// A side without a permission has the snapshot unit.
#[tactic(auto, unfolding(vx_frac::specs::Fractions::lowest, vx_rules::specs::Members::rules))]
pub fn snapshots_of_sides()
    ensures folds_maybe { questions_of amounts folds_maybe ≡
        asks (at 16 87) AssertCode (bool 1 ∷ differ (ref 0) null ∷ equal (as_int (wrapped_int (int 2))) (int 2) ∷ equal (snap 3) (wrapped_int (int 2)) ∷ []) falsity
        ∷ asks (at 16 87) AssertCode (denied (bool 1) ∷ []) falsity ∷ [] }
    ensures unfolds_maybe { questions_of amounts unfolds_maybe ≡
        asks (at 17 88) AssertCode (bool 1 ∷ equal (int 3) (as_int (snap 2)) ∷ equal (snap 2) (wrapped_int (int 3)) ∷ differ (ref 0) null ∷ []) falsity
        ∷ asks (at 17 88) AssertCode (denied (bool 1) ∷ equal (snap 2) unit ∷ []) falsity ∷ [] }
{}

/// Either side of a choice has a snapshot of its own.
#[tactic(auto, unfolding(vx_frac::specs::Fractions::lowest, vx_rules::specs::Members::rules))]
pub fn snapshots_of_choices()
    ensures folds_picked { questions_of amounts folds_picked ≡
        asks (at 20 98) AssertCode (bool 1 ∷ differ (ref 0) null ∷ equal (as_int (wrapped_int (int 2))) (int 2) ∷ equal (snap 3) (wrapped_int (int 2)) ∷ []) falsity
        ∷ asks (at 20 98) AssertCode (denied (bool 1) ∷ differ (ref 0) null ∷ equal (as_ref (wrapped_ref (ref 2))) (ref 2) ∷ equal (snap 3) (wrapped_ref (ref 2)) ∷ []) falsity ∷ [] }
    ensures unfolds_picked { questions_of amounts unfolds_picked ≡
        asks (at 21 91) AssertCode (bool 1 ∷ equal (int 3) (as_int (snap 2)) ∷ equal (snap 2) (wrapped_int (int 3)) ∷ differ (ref 0) null ∷ []) falsity
        ∷ asks (at 21 91) AssertCode (denied (bool 1) ∷ equal (ref 3) (as_ref (snap 2)) ∷ equal (snap 2) (wrapped_ref (ref 3)) ∷ differ (ref 0) null ∷ []) falsity ∷ [] }
    ensures picked { questions_of amounts picked ≡ [] }
{}

//! Programs with predicates.

ghost use Rattle.std.specs.Prelude.{◌≡◌, [], ◌∷◌};
ghost use Rattle.vx_smt_meaning.specs.declared.reply.Reply.TheVariants.{Unsat, Sat};
ghost use Rattle.vx_ast.specs.declared.Place.{Place};
ghost use Rattle.vx_terms.specs.Build.{negate};
ghost use Rattle.vx_terms.specs.Interpretations.{IsSatisfiable, IsUnsatisfiable};
ghost use Rattle.vx_rules.specs.Trees.{PermissionCode, AmountCode, AssertCode, Passed, Failed};
ghost use Rattle.vx_meaning.specs.Fails.{MethodFails};
ghost use Rattle.vx_types.specs.Premises.{IsTypedProgram};
ghost use Rattle.vx_examples.specs.Words.{at, int, ref, snap, null, falsity, equal, differ, wrapped_int, as_int, questions_of, ending_of, asks};
ghost use Rattle.vx_examples.specs.Predicates.{m, list, P_name, Q_name, lists, folded_write, half_unfolded, unframed, below_none, hidden, hidden_m, opened, opened_path};

/// A body that frames itself asks nothing.
#[tactic(auto, unfolding(vx_frac::specs::Fractions::lowest))]
pub fn a_list_predicate()
    ensures asked { questions_of lists list ≡ [] }
    ensures passed { ending_of lists list [] ≡ Passed }
{}

/// What is folded can't be written.
#[tactic(auto, unfolding(vx_frac::specs::Fractions::lowest, vx_rules::specs::Members::rules))]
pub fn a_write_after_a_fold()
    ensures predicate { questions_of folded_write P_name ≡ [] }
    ensures asked { questions_of folded_write m ≡
        asks (at 6 1) PermissionCode
        (differ (ref 0) null ∷ equal (as_int (wrapped_int (int 1))) (int 1) ∷ equal (snap 2) (wrapped_int (int 1)) ∷ []) falsity ∷ [] }
    ensures failed { ending_of folded_write m (Sat ∷ []) ≡ Failed (at 6 1) PermissionCode Sat }
{}

/// Half of an instance is half of what is in its body.
#[tactic(auto, unfolding(vx_frac::specs::Fractions::lowest, vx_rules::specs::Members::rules))]
pub fn a_write_after_half_an_unfold()
    ensures asked { questions_of half_unfolded m ≡
        asks (at 6 1) PermissionCode (equal (int 2) (as_int (snap 1)) ∷ equal (snap 1) (wrapped_int (int 2)) ∷ differ (ref 0) null ∷ []) falsity ∷ [] }
    ensures failed { ending_of half_unfolded m (Sat ∷ []) ≡ Failed (at 6 1) PermissionCode Sat }
{}

/// A body that reads what it doesn't hold.
#[tactic(auto, unfolding(vx_frac::specs::Fractions::lowest))]
pub fn a_body_that_frames_nothing()
    ensures asked { questions_of unframed Q_name ≡ asks (at 2 23) PermissionCode [] falsity ∷ [] }
    ensures failed { ending_of unframed Q_name (Sat ∷ []) ≡ Failed (at 2 23) PermissionCode Sat }
    ensures method { questions_of unframed m ≡ [] }
{}

/// An amount below none, of a predicate without a body.
#[tactic(auto, unfolding(vx_frac::specs::Fractions::lowest))]
pub fn an_amount_below_none()
    ensures predicate { questions_of below_none P_name ≡ [] }
    ensures asked { questions_of below_none m ≡ asks (at 4 8) AmountCode [] falsity ∷ [] }
    ensures failed { ending_of below_none m (Sat ∷ []) ≡ Failed (at 4 8) AmountCode Sat }
{}

/// A failure that isn't real: a body that isn't unfolded hides what would refute it. Nothing of null can be held, inside an instance neither, so the method
/// starts with no null as x, and fails nowhere; but the question says nothing of what is inside `positive(x)`, and a sat to it is right where x is null.
/// Once `positive(x)` is unfolded, the question at the same assert is refuted.
#[tactic(auto, unfolding(vx_frac::specs::Fractions::lowest, vx_rules::specs::Members::rules))]
pub fn a_failure_that_is_not_real()
    ensures typed { IsTypedProgram hidden }
    ensures asked { questions_of hidden m ≡ asks (at 5 8) AssertCode [] (differ (ref 0) null) ∷ [] }
    ensures stops { ending_of hidden m (Sat ∷ []) ≡ Failed (at 5 8) AssertCode Sat }
    ensures possible { IsSatisfiable (negate (differ (ref 0) null) ∷ []) }
    ensures never { (place : Place) → MethodFails hidden hidden_m place → ⊥ }
    ensures unfolded { questions_of opened m ≡ asks (at 6 8) AssertCode opened_path (differ (ref 0) null) ∷ [] }
    ensures passes { ending_of opened m (Unsat ∷ []) ≡ Passed }
    ensures refuted { IsUnsatisfiable (negate (differ (ref 0) null) ∷ opened_path) }
{}

//! The soundness law with predicates, and what it stands on: the trees of instances, how a state that can be is kept by giving,
//! taking, folding and changing, which bodies of predicates are good, and that they are covered by what they give.
#![tactic(auto)]

ghost use Rattle.std.specs.Prelude.{◌≡◌, ℕ, [], ◌∷◌, List, true, false, Some};
ghost use Rattle.vx_frac.specs.Fractions.{Fraction, none, full, at_most, is_positive};
ghost use Rattle.vx_ast.specs.Syntax.{Name, Program, Predicate, IsPredicate, IsMethod, Assertion, predicate_named};
ghost use Rattle.vx_terms.specs.Interpretations.{Tree};
ghost use Rattle.vx_meaning.specs.States.{State, Heap, Holdings, Location, Instance, Folded, amount, with_heap};
ghost use Rattle.vx_meaning.specs.Flatten.{flat, IsGrounded};
ghost use Rattle.vx_meaning.specs.Consistent.{total, Changes, IsSupported, IsConsistent};
ghost use Rattle.vx_meaning.specs.Outcomes.{Ends};
ghost use Rattle.vx_meaning.specs.Give.{give};
ghost use Rattle.vx_sound.specs.Snapshots.{tree_by, IsTree};
ghost use Rattle.vx_types.specs.Premises.{IsTypedProgram};
ghost use Rattle.vx_sound_preds.specs.Bodies.{GoodBodies};
ghost use Rattle.vx_sound_preds.specs.Examples.{f, P, instance_of, cell, cells, chain, chains, loops, owes, owing, remembers};
ghost use Rattle.vx_sound_preds.specs.Covered.{Covered, IsProper, PredicatesPass, IsStocked};
ghost use Rattle.vx_sound_preds.specs.FoldExamples.{m, renews, renewed, spoils, spoilt, Q, holder, nested, its_instance};
ghost use Rattle.vx_meaning.specs.Fails.{Fails, MethodFails};
ghost use Rattle.vx_rules.specs.Trees.{FoldCode, Failed, walk};
ghost use Rattle.vx_rules.specs.Members.{method_tree};
ghost use Rattle.vx_sound.specs.Examples.{on_line};
ghost use Rattle.vx_sound.specs.Law.{Passes, SoundLaw};
ghost use Rattle.vx_types.specs.InstanceLanguage.{IsInstanceMember};
ghost use Rattle.vx_smt_meaning.specs.declared.reply.Reply.{Reply};
ghost use Rattle.vx_smt_meaning.specs.declared.reply.Reply.TheVariants.{Unsat, Sat};

/// What lies inside an instance is the same for all fuel that suffices, and so is the tree of its values; where the one is
/// known, so is the other.
pub fn trees_are_single()
    ensures inside { (p : Program) (m n : ℕ) (h : Heap) (i : Instance) (x y : Holdings) → flat p m h i ≡ Some x → flat p n h i ≡ Some y → x ≡ y }
    ensures tree { (p : Program) (h : Heap) (i : Instance) (t u : Tree) → IsTree p h i t → IsTree p h i u → t ≡ u }
    ensures known { (p : Program) (h : Heap) (n : ℕ) (i : Instance) (x : Holdings) → flat p n h i ≡ Some x → (t : Tree) × (tree_by p n h i ≡ Some t) }
{}

/// Where the giving of an assertion ends, the state is one that can be, if it was before.
pub fn what_is_given_can_be()
    ensures consistent { (p : Program) (q : Fraction) (a : Assertion) (s t : State) → IsConsistent p s → give p (IsConsistent p) q a s (Ends t) → IsConsistent p t }
    ensures supported { (p : Program) (q : Fraction) (a : Assertion) (s t : State) → IsSupported p s → give p (IsSupported p) q a s (Ends t) → IsSupported p t }
{}

/// Two bodies that typing refuses, each of which makes the law false: an instance with an amount of none of itself within it
/// is never grounded, so nothing is held in it; and a debt within an instance hides what is held beside it.
pub fn refused_bodies_break_the_law()
    ensures never_grounded { (h : Heap) (r : ℕ) → IsGrounded loops h (instance_of r) → ⊥ }
    ensures nothing_held { (n : ℕ) (h : Heap) (l : Location) → total loops n h ((Folded (instance_of 1), full) ∷ []) l ≡ none }
    ensures hidden { is_positive (total owes 1 [] owing record { receiver = 1; field = f }) ≡ false }
    ensures null_is_fine { at_most (total owes 1 [] owing record { receiver = 0; field = f }) none ≡ true }
{}

/// In a typed program all bodies of predicates are good: they apply no function and have no `old`, their amounts are known
/// without running and are above none, and no argument of an instance is an amount. A body with an `old` isn't good, so its
/// program isn't typed.
pub fn typed_bodies_are_good()
    ensures good { (p : Program) → IsTypedProgram p → GoodBodies p }
    ensures remembers_bad { GoodBodies remembers → ⊥ }
    ensures remembers_untyped { IsTypedProgram remembers → ⊥ }
{}

/// Bodies that are good, one of them recursive, and the two refused bodies, which aren't.
pub fn some_bodies_are_good()
    ensures cells { GoodBodies cells }
    ensures chains { GoodBodies chains }
    ensures loops { GoodBodies loops → ⊥ }
    ensures owes { GoodBodies owes → ⊥ }
{}

/// A predicate whose walk passed, with right unsat replies, doesn't fail.
pub fn passed_predicates_never_fail()
    ensures sound { (p : Program) (i : Name) (d : Predicate) (replies : List Reply) → IsTypedProgram p → predicate_named p i ≡ Some d
        → Passes p i (IsPredicate d) replies → Fails p i (IsPredicate d) → ⊥ }
    ensures cells { Fails cells P (IsPredicate cell) → ⊥ }
    ensures chains { Fails chains P (IsPredicate chain) → ⊥ }
{}

/// Where the walk of each predicate that x leads to passed, with right unsat replies, the body of each proper instance fits,
/// added to nothing, and what is inside is proper too.
pub fn passed_bodies_are_covered()
    ensures covered { (p : Program) (x : Name) (replies : Name → List Reply) → IsTypedProgram p → PredicatesPass p x replies → Covered p (IsProper p x) }
    ensures cells { Covered cells (IsProper cells P) }
    ensures chains { Covered chains (IsProper chains P) }
    ensures proper { IsProper chains P [] (instance_of 1) }
{}

/// Then any change of the heap where nothing is held leaves a state that can be, and each instance that is held with its tree,
/// if what is held is of typed instances of these predicates and nothing is owed: instances look only at what they hold.
pub fn changes_keep_what_is_held()
    ensures consistent { (p : Program) (x : Name) (replies : Name → List Reply) → IsTypedProgram p → PredicatesPass p x replies → (s : State) (g : Heap)
        → IsConsistent p s → IsStocked p x s.holdings → Changes p s g → IsConsistent p (with_heap g s) }
    ensures trees { (p : Program) (x : Name) (replies : Name → List Reply) → IsTypedProgram p → PredicatesPass p x replies → (s : State) (g : Heap)
        → IsConsistent p s → IsStocked p x s.holdings → Changes p s g → (i : Instance) (t : Tree) → is_positive (amount s.holdings (Folded i)) ≡ true
        → IsTree p s.heap i t → IsTree p g i t }
{}

/// The law holds of members that lead to no function, with predicates, `fold`, `unfold` and `unfolding`: where the walks of all
/// members that one leads to passed, with right unsat replies, it doesn't fail.
pub fn instance_members_are_sound()
    ensures { SoundLaw IsInstanceMember }
{}

/// A method that unfolds an instance, writes within it and folds it again is of a typed program, and its walk and the predicate's
/// pass; so it never fails.
pub fn a_method_that_folds_never_fails()
    ensures typed { IsTypedProgram renewed }
    ensures passes { Passes renewed m (IsMethod renews) (Unsat ∷ []) }
    ensures predicate { Passes renewed P (IsPredicate cell) (Unsat ∷ []) }
    ensures fine { Fails renewed m (IsMethod renews) → ⊥ }
{}

/// One that writes what the predicate doesn't allow fails where it folds, and there its walk stops.
pub fn a_fold_fails()
    ensures fails { MethodFails spoilt spoils (on_line 5) }
    ensures stops { (walk (method_tree spoilt spoils) (Sat ∷ [])).ending ≡ Failed (on_line 5) FoldCode Sat }
{}

/// A predicate with an `unfolding` in its body: its walk passes, so it never fails, and its proper instances are covered.
pub fn a_body_that_unfolds_is_covered()
    ensures typed { IsTypedProgram nested }
    ensures passes { Passes nested Q (IsPredicate holder) [] }
    ensures fine { Fails nested Q (IsPredicate holder) → ⊥ }
    ensures covered { Covered nested (IsProper nested Q) }
    ensures proper { IsProper nested Q [] (its_instance 1) }
{}

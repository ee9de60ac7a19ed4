//! How deep the parts of members stand in one another, and that the depth of the rules suffices for them.
#![tactic(auto)]

ghost use Rattle.std.specs.Prelude.{◌≡◌, ℕ, ◌*◌, ◌<◌, ◌≤◌, suc, [], ◌∷◌};
ghost use Rattle.vx_ast.specs.Syntax.{Name, Program, Kind, IsFunction, IsPredicate};
ghost use Rattle.vx_rules.specs.Trees.{Question, Open, walk};
ghost use Rattle.vx_rules.specs.Rules.{nowhere, outer};
ghost use Rattle.vx_rules.specs.Members.{depth, tree_over, tree};
ghost use Rattle.vx_ast.specs.Apart.{KeepsApart};
ghost use Rattle.vx_depth.specs.Entering.{IsWithin, NoneWithinItself};
ghost use Rattle.vx_depth.specs.Depths.{SameRules, ReadsItself};
ghost use Rattle.vx_depth.specs.Worked.{f, n, P, applies_itself, applies_itself_f, unfolds_itself, unfolds_itself_P, nested, plain};

/// Where no more than n functions and predicates are entered, one from another, the rules of all depths above 4 n are the same.
pub fn rules_past_a_depth_are_the_same()
    ensures { (p : Program) (n c d : ℕ) → ((x : Name) → IsWithin p n x) → 4 * n < c → 4 * n < d → SameRules p c d }
{}

/// Where no member is entered within itself, the depth suffices: with more the rules are the same, and so is each member's tree.
pub fn the_depth_suffices()
    ensures rules { (p : Program) (d : ℕ) → NoneWithinItself p → depth p ≤ d → SameRules p (depth p) d }
    ensures trees { (p : Program) (d : ℕ) → NoneWithinItself p → depth p ≤ d → (x : Name) (k : Kind) → tree_over p (outer p d) x k ≡ tree p x k }
{}

/// Where no member is entered within itself, what stands in another member, as the contract of a callee, is read as the
/// rules over themselves read it, at every level.
pub fn rules_read_parts_by_themselves()
    ensures { (p : Program) (l : ℕ) → KeepsApart p → ReadsItself p l }
{}

/// What is entered from what: a function whose precondition unfolds a predicate that unfolds another one enters three.
pub fn entered_members()
    ensures three { IsWithin nested 3 n }
    ensures not_two { IsWithin nested 2 n → ⊥ }
    ensures none_within_itself { NoneWithinItself plain }
{}

/// A function that applies itself in its precondition, or a predicate that unfolds itself, is entered within itself, without
/// end: past each depth its tree asks what has no place, and more depth gives another tree.
#[tactic(auto, unfolding(vx_frac::specs::Fractions::lowest))]
pub fn members_within_themselves()
    ensures function { NoneWithinItself applies_itself → ⊥ }
    ensures function_asks { (q : Question) × ((walk (tree applies_itself f (IsFunction applies_itself_f)) []).ending ≡ Open q) × (q.place ≡ nowhere) }
    ensures function_goes_on { tree_over applies_itself (outer applies_itself (suc (depth applies_itself))) f (IsFunction applies_itself_f)
        ≡ tree applies_itself f (IsFunction applies_itself_f) → ⊥ }
    ensures predicate { NoneWithinItself unfolds_itself → ⊥ }
    ensures predicate_asks { (q : Question) × ((walk (tree unfolds_itself P (IsPredicate unfolds_itself_P)) []).ending ≡ Open q) × (q.place ≡ nowhere) }
{}

/// Where typing refuses what E28 says, no member is entered within itself, and so the depth suffices.
pub fn groups_kept_apart()
    ensures apart { (p : Program) → KeepsApart p → NoneWithinItself p }
    ensures trees { (p : Program) (d : ℕ) → KeepsApart p → depth p ≤ d → (x : Name) (k : Kind) → tree_over p (outer p d) x k ≡ tree p x k }
    ensures none { KeepsApart [] }
    ensures function { KeepsApart applies_itself → ⊥ }
    ensures predicate { KeepsApart unfolds_itself → ⊥ }
{}

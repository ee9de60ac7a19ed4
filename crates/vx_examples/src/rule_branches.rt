//! Branches of the rules that no typed program reaches, and the smaller parts of chunks.

ghost use Rattle.std.specs.Prelude.{◌≡◌, true, false, pos, [], ◌∷◌, Some, None};
ghost use Rattle.vx_ast.specs.declared.ValueType.TheVariants.{Int};
ghost use Rattle.vx_ast.specs.Syntax as syntax;
ghost use Rattle.vx_terms.specs.Sorts.{IntSort, SnapSort};
ghost use Rattle.vx_rules.specs.States as states;
ghost use Rattle.vx_rules.specs.Chunks as chunks;
ghost use Rattle.vx_rules.specs.Rules as rules;
ghost use Rattle.vx_rules.specs.Members as members;
ghost use Rattle.vx_rules.specs.Groups as groups;
ghost use Rattle.vx_ast.specs.Mentions.{mentions_of};
ghost use Rattle.vx_rules.specs.Trees.{AssertCode, CallCode, End, FoldCode, Fork, FunctionCode, MeasureCode, PermissionCode, Probe, Step, UnfoldCode};
ghost use Rattle.vx_examples.specs.Words.{at, int, bool, real, ref, snap, null, unit, number, part, none, all, denied, chosen_term, equal, at_most, plus, times, less, both, implied, pair, first, second, as_int, wrapped_int, probes};
ghost use Rattle.vx_examples.specs.Simplified.{truth};
ghost use Rattle.vx_examples.specs.Cells as cells;
ghost use Rattle.vx_examples.specs.Walks.{x, y, f, g, cell, fact, branch, scene, quiet_scene, field_chunk, cell_chunk, half, heap, with_chunks};
ghost use Rattle.vx_examples.specs.Unreached.{refused, read_x, goes, gives, with_cell, quiet_with_cell, hidden_chunk, measured_by, x_of, from_chunks, a_method};

/// A name of no function, predicate or method: nothing is allowed, and above level 0 the side is dropped.
#[tactic(auto, unfolding(vx_frac::specs::Fractions::lowest))]
pub fn unknown_members()
    ensures function { rules.applied [] (rules.outer [] 1) (at 1 1) f [] scene gives ≡ refused FunctionCode }
    ensures quiet_function { rules.applied [] (rules.outer [] 1) (at 1 1) f [] quiet_scene gives ≡ End }
    ensures predicate { rules.unfolded [] (rules.outer [] 1) (at 1 1) cell (ref 0 ∷ []) half with_cell goes ≡ Step (refused UnfoldCode) }
    ensures quiet_predicate { rules.unfolded [] (rules.outer [] 1) (at 1 1) cell (ref 0 ∷ []) half quiet_with_cell goes ≡ Step End }
    ensures without_body { rules.unfolded cells.cells (rules.outer cells.cells 1) (at 1 1) cells.hidden (ref 0 ∷ []) all
        (record scene { heap = hidden_chunk ∷ [] }) goes ≡ Step (refused UnfoldCode) }
    ensures folded { members.folded [] (rules.outer [] 1) (at 1 1) cell (ref 0 ∷ []) all scene goes ≡ refused FoldCode }
    ensures folded_without_body { members.folded cells.cells (rules.outer cells.cells 1) (at 1 1) cells.hidden (ref 0 ∷ []) all scene goes ≡ refused FoldCode }
    ensures method { members.exec [] (rules.outer [] 1) (syntax.Call (at 1 1) [] f syntax.NoMore) scene goes ≡ Step (Step (refused CallCode)) }
    ensures field { rules.field_sort [] f ≡ IntSort }
    ensures number { groups.function_number cells.cells x ≡ 1 }
    ensures mentions { mentions_of None ≡ [] }
{}

/// Past the depth nothing is allowed, whatever the part.
pub fn past_the_depth()
    ensures eval { (rules.outer [] 0).eval read_x scene gives ≡ rules.never (at 0 0) AssertCode scene }
    ensures produce { (rules.outer [] 0).produce (syntax.Pure read_x) all None scene goes ≡ rules.never (at 0 0) AssertCode scene }
    ensures consume { (rules.outer [] 0).consume (syntax.Pure read_x) (members.codes AssertCode PermissionCode) all [] scene gives ≡ rules.never (at 0 0) AssertCode scene }
    ensures deeper { (rules.outer [] 1).eval read_x scene gives ≡ Step End }
{}

/// The last resorts: what is taken where no candidate is left, what is read and written, and the measure's instance.
#[tactic(auto, unfolding(vx_frac::specs::Fractions::lowest))]
pub fn no_candidates()
    ensures taken { rules.take_chunk (chunks.field_key f (ref 0)) half IntSort (at 1 1) PermissionCode scene (λ c s. End) ≡ refused PermissionCode }
    ensures none_taken { rules.take_chunk (chunks.field_key f (ref 0)) none IntSort (at 1 1) PermissionCode scene from_chunks
        ≡ Step (from_chunks (record (chunks.field_key f (ref 0)) { value = int 7 }) (record scene { next = 8 })) }
    ensures quiet_taken { rules.take_chunk (chunks.field_key f (ref 0)) none IntSort (at 1 1) PermissionCode quiet_scene (λ c s. Step End) ≡ End }
    ensures read { rules.read_field f (ref 0) IntSort (at 1 1) scene gives ≡ refused PermissionCode }
    ensures written { rules.write_field f (ref 0) (int 1) (at 1 1) scene goes ≡ refused PermissionCode }
    ensures held { rules.first_with (chunks.holds_some (ref 0 ∷ [])) [] (at 1 1) MeasureCode scene (λ c. Step End) (refused MeasureCode) ≡ refused MeasureCode }
    ensures held_by_other { rules.first_with (chunks.holds_some (ref 0 ∷ [])) (record { number = 0; chunk = cell_chunk (ref 1) half (snap 2) } ∷ [])
        (at 1 1) MeasureCode scene (λ c. End) (refused MeasureCode) ≡ Probe
        (probes (at 1 1) MeasureCode (bool 0 ∷ denied (bool 1) ∷ []) (equal (ref 1) (ref 0))) End (refused MeasureCode) }
    ensures rooted { members.from_measure [] (rules.outer [] 1) f cells.cells_get (Some (syntax.ByInstance (at 1 1) cell syntax.NoMore)) scene ≡ Step (Step (refused MeasureCode)) }
{}

/// Which applications are measured: those of the function's own tree, at level 0, of its group. A callee without a measure is refused.
pub fn measured_applications()
    ensures no_function { rules.measured cells.cells (rules.outer cells.cells 1) cells.get cells.cells_get [] (at 1 1) scene goes ≡ Step End }
    ensures quiet { rules.measured cells.cells (rules.outer cells.cells 1) cells.get cells.cells_get [] (at 1 1) (record quiet_scene { own = Some measured_by }) goes ≡ Step End }
    ensures other_group { rules.measured cells.cells (rules.outer cells.cells 1) cells.get cells.cells_get [] (at 1 1) (record scene { own = Some measured_by }) goes ≡ Step End }
    ensures no_measure { rules.decreasing cells.cells (rules.outer cells.cells 1) measured_by None [] (at 1 1) scene goes ≡ refused MeasureCode }
    ensures no_equations { rules.with_equations cells.cells (rules.outer cells.cells 1) cells.cells_get (ref 0 ∷ []) (snap 1) (int 2)
        (record scene { level = 3 }) ≡ record scene { level = 3 } }
{}

/// Parts of chunks: receivers, arguments of unequal number, kinds, and the facts on two chunks.
#[tactic(auto, unfolding(vx_frac::specs::Fractions::lowest))]
pub fn parts_of_chunks()
    ensures receiver { chunks.first_argument (ref 0 ∷ ref 1 ∷ []) ≡ ref 0 }
    ensures no_receiver { chunks.first_argument [] ≡ null }
    ensures fewer { chunks.equal_arguments (ref 0 ∷ ref 1 ∷ []) (ref 2 ∷ []) ≡ equal (ref 0) (ref 2) }
    ensures none_there { chunks.equal_arguments (ref 0 ∷ []) [] ≡ truth }
    ensures kin { chunks.is_kin (field_chunk f (ref 0) half (int 1)) (field_chunk f (ref 1) all (int 2)) ≡ true }
    ensures other_field { chunks.is_kin (field_chunk f (ref 0) half (int 1)) (field_chunk g (ref 0) half (int 1)) ≡ false }
    ensures other_kind { chunks.is_kin (field_chunk cell (ref 0) half (int 1)) (cell_chunk (ref 0) half (snap 1)) ≡ false }
    ensures only_inner { chunks.only_inner (record { number = 0; chunk = field_chunk f (ref 0) half (int 1) }
        ∷ record { number = 1; chunk = record (field_chunk f (ref 1) half (int 2)) { inner = true } } ∷ [])
        ≡ record { number = 1; chunk = record (field_chunk f (ref 1) half (int 2)) { inner = true } } ∷ [] }
    ensures without { chunks.without 1 (cell_chunk (ref 0) half (snap 1) ∷ cell_chunk (ref 1) half (snap 2) ∷ cell_chunk (ref 2) half (snap 3) ∷ [])
        ≡ cell_chunk (ref 0) half (snap 1) ∷ cell_chunk (ref 2) half (snap 3) ∷ [] }
    ensures merged { chunks.merged (record (cell_chunk (ref 0) half (snap 1)) { inner = true }) (record (cell_chunk (ref 0) half (snap 2)) { root = true })
        ≡ record (cell_chunk (ref 0) all (snap 2)) { root = true; inner = true } }
    ensures merged_maybe { chunks.merged (field_chunk f (ref 0) half (int 1)) (field_chunk f (ref 0) (real 3) (int 2)) ≡ field_chunk f (ref 0)
        (plus (real 3) half) (chosen_term (less none (real 3)) (int 2) (int 1)) }
    ensures agree { chunks.agree (cell_chunk (ref 0) half (snap 1)) (cell_chunk (ref 0) half (snap 2)) ≡ equal (snap 2) (snap 1) }
    ensures agree_maybe { chunks.agree (cell_chunk (ref 0) (real 3) (snap 1)) (cell_chunk (ref 0) half (snap 2)) ≡ implied (less none (real 3)) (equal (snap 2) (snap 1)) }
    ensures apart { chunks.apart true true (field_chunk f (ref 0) half (int 1)) (field_chunk f (ref 0) half (int 2) ∷ field_chunk g (ref 1) all (int 3)
        ∷ field_chunk f (ref 1) (real 4) (int 5) ∷ []) ≡
        implied (equal (ref 1) (ref 0)) (at_most (plus half (real 4)) all) ∷ implied (both (equal (ref 0) (ref 1)) (less none (real 4))) (equal (int 1) (int 5)) ∷ [] }
    ensures apart_quietly { chunks.apart false true (field_chunk f (ref 0) half (int 1)) (field_chunk f (ref 1) (real 4) (int 5) ∷ [])
        ≡ implied (equal (ref 1) (ref 0)) (at_most (plus half (real 4)) all) ∷ [] }
    ensures apart_in_a_body { chunks.apart true false (field_chunk f (ref 0) half (int 1)) (field_chunk f (ref 1) (real 4) (int 5) ∷ [])
        ≡ implied (both (equal (ref 0) (ref 1)) (less none (real 4))) (equal (int 1) (int 5)) ∷ [] }
    ensures bounding { chunks.bounding true (bool 1 ∷ []) ≡ bool 1 ∷ [] }
    ensures not_bounding { chunks.bounding false (bool 1 ∷ []) ≡ [] }
{}

/// Lists of unequal number, amounts that are none, and what a fold and an application say of what they build.
#[tactic(auto, unfolding(vx_frac::specs::Fractions::lowest))]
pub fn parts_of_rules()
    ensures bound { states.bind x_of (ref 0 ∷ []) ≡ (x, ref 0) ∷ [] }
    ensures bound_fewer { states.bind x_of [] ≡ [] }
    ensures assigned_fewer { states.assign_all (y ∷ x ∷ []) (int 2 ∷ []) scene.store ≡ (x, bool 0) ∷ (y, int 2) ∷ [] }
    ensures facts { (states.with_facts (bool 5 ∷ bool 0 ∷ bool 6 ∷ []) scene).path ≡ branch (bool 0) ∷ fact (denied (bool 1)) ∷ fact (bool 5) ∷ fact (bool 6) ∷ [] }
    ensures no_facts { states.with_facts [] scene ≡ scene }
    ensures is_quiet { states.is_quiet quiet_scene ≡ true }
    ensures is_not_quiet { states.is_quiet scene ≡ false }
    ensures amount { rules.as_amount (number 2) (real 1) ≡ part (pos 2) 0 }
    ensures no_amount { rules.as_amount (number 2) (int 1) ≡ number 2 }
    ensures no_numeral { rules.as_amount (int 2) (real 1) ≡ int 2 }
    ensures built { (rules.with_built_wrap (record { pure = FoldCode; permission = FoldCode; builds = true }) IntSort (int 1) members.blank).path
        ≡ fact (equal (as_int (wrapped_int (int 1))) (int 1)) ∷ [] }
    ensures not_built { rules.with_built_wrap (members.codes AssertCode PermissionCode) IntSort (int 1) scene ≡ scene }
    ensures built_pair { (rules.with_built_pair (record { pure = FoldCode; permission = FoldCode; builds = true }) (snap 1) unit members.blank).path
        ≡ fact (equal (first (pair (snap 1) unit)) (snap 1)) ∷ fact (equal (second (pair (snap 1) unit)) unit) ∷ [] }
    ensures not_built_pair { rules.with_built_pair (members.codes AssertCode PermissionCode) (snap 1) unit scene ≡ scene }
    ensures entered { (rules.entered [] (at 2 2) scene).at ≡ Some (at 2 2) }
    ensures back { rules.back scene (record (rules.entered [] (at 2 2) scene) { inner = true; next = 9 }) ≡ record scene { next = 9 } }
    ensures no_fields { members.put_fields cells.cells [] (ref 0) scene ≡ scene }
    ensures is_ref { members.is_ref (ref 0) ≡ true }
    ensures is_no_ref { members.is_ref (int 0) ≡ false }
    ensures reaches_none { groups.reaches_by cells.cells 0 cells.get cells.get ≡ false }
    ensures leads_none { groups.leads_to (λ z. true) f [] ≡ false }
    ensures is_function { groups.is_function (syntax.IsFunction cells.cells_get) ≡ true }
    ensures is_no_function { groups.is_function (syntax.IsField Int) ≡ false }
{}

/// A method without a body has one side, and with one two; the returns of a promise are fresh.
pub fn sides_of_methods()
    ensures without_body { members.both_sides [] (rules.outer [] 1) (a_method None) scene ≡ Step (Step (Step End)) }
    ensures with_body { members.both_sides [] (rules.outer [] 1) (a_method (Some syntax.Done)) scene ≡ Fork (Step (Step (Step End))) (Step (Step (Step (Step (Step End))))) }
    ensures new_returns { (members.with_new_returns cells.cells_read (record scene { store = (cells.x, ref 0) ∷ (cells.y, int 1) ∷ [] })).store
        ≡ (cells.x, ref 0) ∷ (cells.y, int 7) ∷ [] }
{}

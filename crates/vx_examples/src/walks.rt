//! Walks through small trees, and the parts of symbolic states.

ghost use Rattle.std.specs.Prelude.{◌≡◌, true, false, pos, [], ◌∷◌, Some, None};
ghost use Rattle.vx_smt_meaning.specs.declared.reply.Reply.TheVariants.{Unsat, Sat, Unknown};
ghost use Rattle.vx_terms.specs.Sorts.{IntSort, BoolSort, RefSort};
ghost use Rattle.vx_rules.specs.States as states;
ghost use Rattle.vx_rules.specs.Chunks as chunks;
ghost use Rattle.vx_rules.specs.Rules as rules;
ghost use Rattle.vx_rules.specs.Trees.{AmountCode, Ask, AssertCode, CallCode, DivisorCode, End, EntryCode, Failed, FoldCode, Fork, FunctionCode, Impossible, KeptCode, MeasureCode, On, Open, Passed, PermissionCode, PostCode, Probe, Step, UnfoldCode, leaves, steps_then, walk};
ghost use Rattle.vx_rules.specs.Codes.{code_number};
ghost use Rattle.vx_ast.specs.declared.ValueType.TheVariants.{Int};
ghost use Rattle.vx_ast.specs.Syntax.{IsField, IsPredicate, NoMore};
ghost use Rattle.vx_rules.specs.Members.{blank, ended, tree, depth};
ghost use Rattle.vx_examples.specs.Words.{at, int, bool, real, ref, snap, null, unit, number, part, none, all, falsity, denied, equal, differ, less, at_most, plus, minus, both, implied, chosen_term, asks, probes, refuted, satisfied};
ghost use Rattle.vx_examples.specs.Simplified.{truth};
ghost use Rattle.vx_examples.specs.Walks.{first_ask, second_ask, a_probe, two_asks, two_sides, probing, leaving, x, y, f, g, cell, fact, branch, scene, quiet_scene, field_chunk, cell_chunk, half, heap, with_chunks};

/// An ask goes on where it is refuted, and else its place is reached; a probe goes on either way; a fork goes both ways.
pub fn walking()
    ensures asks_open { walk two_asks [] ≡ record { answered = []; ending = Open first_ask } }
    ensures asks_next { walk two_asks (Unsat ∷ []) ≡ record { answered = refuted first_ask ∷ []; ending = Open second_ask } }
    ensures asks_passed { walk two_asks (Unsat ∷ Unsat ∷ []) ≡ record { answered = refuted first_ask ∷ refuted second_ask ∷ []; ending = Passed } }
    ensures asks_failed { walk two_asks (Sat ∷ Unsat ∷ []) ≡ record { answered = satisfied first_ask ∷ []; ending = Failed (at 1 1) AssertCode Sat } }
    ensures asks_unknown { (walk two_asks (Unsat ∷ Unknown ∷ [])).ending ≡ Failed (at 2 1) AssertCode Unknown }
    ensures more_replies { (walk two_asks (Unsat ∷ Unsat ∷ Sat ∷ [])).ending ≡ Passed }
    ensures sides_passed { walk two_sides (Unsat ∷ Unsat ∷ []) ≡ record { answered = refuted first_ask ∷ refuted second_ask ∷ []; ending = Passed } }
    ensures sides_failed { (walk two_sides (Unsat ∷ Sat ∷ [])).ending ≡ Failed (at 2 1) AssertCode Sat }
    ensures sides_failed_first { (walk two_sides (Sat ∷ [])).ending ≡ Failed (at 1 1) AssertCode Sat }
    ensures probe_refuted { walk probing (Unsat ∷ Unsat ∷ []) ≡ record { answered = refuted a_probe ∷ refuted first_ask ∷ []; ending = Passed } }
    ensures probe_not_refuted { walk probing (Sat ∷ Unsat ∷ []) ≡ record { answered = satisfied a_probe ∷ refuted second_ask ∷ []; ending = Passed } }
    ensures probe_unknown { (walk probing (Unknown ∷ Sat ∷ [])).ending ≡ Failed (at 2 1) AssertCode Sat }
    ensures probe_open { (walk probing []).ending ≡ Open a_probe }
    ensures no_question { walk End [] ≡ record { answered = []; ending = Passed } }
    ensures impossible { walk (Impossible blank) [] ≡ record { answered = []; ending = Passed } }
    ensures impossible_leaves { leaves (Impossible blank) ≡ [] }
    ensures steps_of_an_end { steps_then End 3 ≡ 4 }
    ensures steps_where_impossible { steps_then (Impossible blank) 3 ≡ 4 }
    ensures steps_of_a_value { steps_then (On (int 1) blank) 3 ≡ 4 }
    ensures steps_to_an_ask { steps_then (Step two_asks) 3 ≡ 1 }
    ensures steps_to_a_probe { steps_then (Step probing) 3 ≡ 1 }
    ensures steps_of_a_first_side { steps_then two_sides 3 ≡ 1 }
    ensures steps_of_both_sides { steps_then (Fork End (Step End)) 3 ≡ 7 }
    ensures steps_to_a_second_side { steps_then leaving 3 ≡ 3 }
    ensures leaves { leaves leaving ≡ record { value = int 1; state = blank } ∷ record { value = int 2; state = blank } ∷ record { value = int 3; state = blank } ∷ [] }
    ensures no_leaves { leaves two_asks ≡ [] }
{}

/// Values by their names, and variables of a block.
pub fn stores()
    ensures found { states.found y scene.store ≡ number 1 }
    ensures not_found { states.found f scene.store ≡ truth }
    ensures stored { states.is_stored y scene.store ≡ true }
    ensures not_stored { states.is_stored f scene.store ≡ false }
    ensures assigned { states.assign y (int 2) scene.store ≡ (x, bool 0) ∷ (y, int 2) ∷ [] }
    ensures not_assigned { states.assign f (int 2) scene.store ≡ scene.store }
    ensures all_assigned { states.assign_all (y ∷ x ∷ []) (int 2 ∷ bool 3 ∷ []) scene.store ≡ (x, bool 3) ∷ (y, int 2) ∷ [] }
    ensures none_assigned { states.assign_all [] (int 2 ∷ []) scene.store ≡ scene.store }
    ensures terms { states.terms_in scene.store ≡ bool 0 ∷ number 1 ∷ [] }
    ensures left { (states.leave 1 scene).store ≡ (x, bool 0) ∷ [] }
    ensures declared { (states.declare_fresh f IntSort scene).store ≡ (x, bool 0) ∷ (y, number 1) ∷ (f, int 7) ∷ [] }
    ensures after { (states.declare_fresh f IntSort scene).next ≡ 8 }
{}

/// The path: facts that are known are not added, branches always are; names are fresh symbols for what is none.
pub fn paths()
    ensures known { states.is_known (bool 0) scene ≡ true }
    ensures truth_known { states.is_known truth scene ≡ true }
    ensures not_known { states.is_known (bool 1) scene ≡ false }
    ensures fact_added { (states.with_fact (bool 5) scene).path ≡ branch (bool 0) ∷ fact (denied (bool 1)) ∷ fact (bool 5) ∷ [] }
    ensures fact_known { states.with_fact (bool 0) scene ≡ scene }
    ensures truth_not_added { states.with_fact truth scene ≡ scene }
    ensures branch_added { (states.with_branch (bool 0) scene).path ≡ branch (bool 0) ∷ fact (denied (bool 1)) ∷ branch (bool 0) ∷ [] }
    ensures branches { states.conjunction true scene.path ≡ bool 0 }
    ensures facts { states.conjunction false (fact (bool 2) ∷ branch (bool 0) ∷ fact (bool 3) ∷ fact (bool 4) ∷ []) ≡ both (both (bool 2) (bool 3)) (bool 4) }
    ensures no_facts { states.conjunction false [] ≡ truth }
    ensures new { states.new_entries scene (states.with_fact (bool 5) scene) ≡ fact (bool 5) ∷ [] }
    ensures named { states.name_of (plus (int 0) (number 1)) scene ≡ int 7 }
    ensures named_fact { (states.after_name (plus (int 0) (number 1)) scene).path ≡ branch (bool 0) ∷ fact (denied (bool 1)) ∷ fact (equal (int 7) (plus (int 0) (number 1))) ∷ [] }
    ensures name_itself { states.name_of (number 3) scene ≡ number 3 }
    ensures null_itself { states.after_name null scene ≡ scene }
    ensures quiet_itself { states.name_of (plus (int 0) (number 1)) quiet_scene ≡ plus (int 0) (number 1) }
    ensures quiet_no_symbol { states.after_name (plus (int 0) (number 1)) quiet_scene ≡ quiet_scene }
{}

/// Questions and forks: a literal truth, what the path knows, and the levels above 0.
pub fn asking()
    ensures truth { rules.ask truth (at 1 1) AssertCode scene ended ≡ Step End }
    ensures other { rules.ask (bool 2) (at 1 1) AssertCode scene ended ≡ Ask (asks (at 1 1) AssertCode (bool 0 ∷ denied (bool 1) ∷ []) (bool 2)) End }
    ensures known { rules.ask (bool 0) (at 1 1) AssertCode scene ended ≡ Ask (asks (at 1 1) AssertCode (bool 0 ∷ denied (bool 1) ∷ []) (bool 0)) End }
    ensures impossible { rules.ask falsity (at 1 1) AssertCode scene (λ s. Step End) ≡ Ask (asks (at 1 1) AssertCode (bool 0 ∷ denied (bool 1) ∷ []) falsity) (Impossible scene) }
    ensures quiet { rules.ask falsity (at 1 1) AssertCode quiet_scene ended ≡ Step End }
    ensures never { rules.never (at 1 1) AssertCode scene ≡ Ask (asks (at 1 1) AssertCode (bool 0 ∷ denied (bool 1) ∷ []) falsity) (Impossible scene) }
    ensures quiet_never { rules.never (at 1 1) AssertCode quiet_scene ≡ End }
    ensures probe_truth { rules.probe truth (at 1 1) AssertCode scene two_asks End ≡ Step two_asks }
    ensures probe { rules.probe (bool 2) (at 1 1) AssertCode scene two_asks two_sides ≡ Probe (probes (at 1 1) AssertCode (bool 0 ∷ denied (bool 1) ∷ []) (bool 2)) two_asks two_sides }
    ensures probe_impossible { rules.probe falsity (at 1 1) AssertCode scene two_asks two_sides
        ≡ Probe (probes (at 1 1) AssertCode (bool 0 ∷ denied (bool 1) ∷ []) falsity) (Impossible scene) two_sides }
    ensures quiet_probe { rules.probe (bool 2) (at 1 1) AssertCode quiet_scene two_asks two_sides ≡ Step two_sides }
    ensures fork_known { rules.fork (bool 0) scene (λ s. two_asks) (λ s. two_sides) ≡ Step two_asks }
    ensures fork_denied { rules.fork (bool 1) scene (λ s. two_asks) (λ s. two_sides) ≡ Step two_sides }
    ensures fork_true { rules.fork truth scene (λ s. two_asks) (λ s. two_sides) ≡ Step two_asks }
    ensures fork_false { rules.fork falsity scene (λ s. two_asks) (λ s. two_sides) ≡ Step two_sides }
    ensures fork_both { rules.fork (bool 2) scene (λ s. two_asks) (λ s. two_sides) ≡ Fork two_asks two_sides }
    ensures quiet_fork { rules.fork (bool 2) quiet_scene (λ s. two_asks) (λ s. two_sides) ≡ Fork two_asks two_sides }
{}

/// Chunks: candidates in their order, what is put and what is left.
#[tactic(auto, unfolding(vx_frac::specs::Fractions::lowest))]
pub fn heaps()
    ensures candidates { chunks.candidates (chunks.field_key f (ref 1)) heap ≡
        record { number = 1; chunk = field_chunk f (ref 1) all (int 11) } ∷ record { number = 0; chunk = field_chunk f (ref 0) half (int 10) } ∷ [] }
    ensures no_candidates { chunks.candidates (chunks.instance_key f (ref 0 ∷ [])) heap ≡ [] }
    ensures inner_none { chunks.only_inner (chunks.candidates (chunks.field_key f (ref 1)) heap) ≡ [] }
    ensures whole_taken { chunks.reduced (record { number = 1; chunk = field_chunk f (ref 1) all (int 11) }) all heap ≡
        field_chunk f (ref 0) half (int 10) ∷ field_chunk g (ref 0) all (int 12) ∷ cell_chunk (ref 0) half (snap 13) ∷ [] }
    ensures half_taken { chunks.reduced (record { number = 1; chunk = field_chunk f (ref 1) all (int 11) }) half heap ≡
        field_chunk f (ref 0) half (int 10) ∷ field_chunk f (ref 1) half (int 11) ∷ field_chunk g (ref 0) all (int 12) ∷ cell_chunk (ref 0) half (snap 13) ∷ [] }
    ensures none_put { chunks.put (field_chunk f (ref 0) none (int 14)) with_chunks ≡ with_chunks }
    ensures merged_heap { (chunks.put (field_chunk f (ref 0) half (int 14)) with_chunks).heap ≡
        field_chunk f (ref 0) all (int 10) ∷ field_chunk f (ref 1) all (int 11) ∷ field_chunk g (ref 0) all (int 12) ∷ cell_chunk (ref 0) half (snap 13) ∷ [] }
    ensures merged_facts { (chunks.put (field_chunk f (ref 0) half (int 14)) with_chunks).path ≡
        fact (differ (ref 0) null) ∷ fact (equal (int 10) (int 14)) ∷ fact (differ (ref 1) (ref 0)) ∷ fact (implied (equal (ref 0) (ref 1)) (equal (int 10) (int 11))) ∷ [] }
    ensures merged_unbounded { (chunks.put (field_chunk f (ref 0) half (int 14)) (record with_chunks { bounded = false })).path ≡ fact (differ (ref 0) null)
        ∷ fact (equal (int 10) (int 14)) ∷ fact (implied (equal (ref 0) (ref 1)) (equal (int 10) (int 11))) ∷ [] }
    ensures added_heap { (chunks.put (field_chunk f (ref 2) half (int 14)) with_chunks).heap ≡
        field_chunk f (ref 0) half (int 10) ∷ field_chunk f (ref 1) all (int 11) ∷ field_chunk g (ref 0) all (int 12) ∷ cell_chunk (ref 0) half (snap 13)
        ∷ field_chunk f (ref 2) half (int 14) ∷ [] }
    ensures added_facts { (chunks.put (field_chunk f (ref 2) half (int 14)) with_chunks).path ≡
        fact (differ (ref 2) null) ∷ fact (implied (equal (ref 2) (ref 0)) (equal (int 14) (int 10)))
        ∷ fact (differ (ref 1) (ref 2)) ∷ fact (implied (equal (ref 2) (ref 1)) (equal (int 14) (int 11)))
        ∷ fact (at_most (plus (plus half (chosen_term (equal (ref 0) (ref 2)) half none)) (chosen_term (equal (ref 1) (ref 2)) all none)) all) ∷ [] }
    ensures symbolic_facts { (chunks.put (field_chunk f (ref 0) (real 3) (int 14)) with_chunks).path ≡
        fact (implied (less none (real 3)) (differ (ref 0) null)) ∷ fact (at_most (real 3) all)
        ∷ fact (implied (less none (real 3)) (equal (int 10) (int 14))) ∷ fact (at_most (plus half (real 3)) all)
        ∷ fact (implied (equal (ref 1) (ref 0)) (at_most (plus (plus half (real 3)) all) all))
        ∷ fact (implied (both (equal (ref 0) (ref 1)) (less none (plus half (real 3)))) (equal (int 10) (int 11))) ∷ [] }
    ensures instance_merged { (chunks.put (cell_chunk (ref 0) half (snap 14)) with_chunks).path ≡ fact (equal (snap 13) (snap 14)) ∷ [] }
    ensures instance_added { (chunks.put (cell_chunk (ref 1) all (snap 14)) with_chunks).path ≡ [] }
    ensures two_arguments { chunks.equal_arguments (ref 0 ∷ ref 1 ∷ []) (ref 2 ∷ ref 3 ∷ []) ≡ both (equal (ref 0) (ref 2)) (equal (ref 1) (ref 3)) }
    ensures no_arguments { chunks.equal_arguments [] [] ≡ truth }
    ensures identical { chunks.same_arguments (ref 0 ∷ ref 1 ∷ []) (ref 0 ∷ ref 1 ∷ []) ≡ true }
    ensures not_identical { chunks.same_arguments (ref 0 ∷ ref 1 ∷ []) (ref 0 ∷ ref 2 ∷ []) ≡ false }
    ensures not_as_many { chunks.same_arguments (ref 0 ∷ []) (ref 0 ∷ ref 2 ∷ []) ≡ false }
{}

/// The numbers of the codes, F01 to F12.
pub fn code_numbers()
    ensures assert { code_number AssertCode ≡ 1 }
    ensures permission { code_number PermissionCode ≡ 2 }
    ensures amount { code_number AmountCode ≡ 3 }
    ensures divisor { code_number DivisorCode ≡ 4 }
    ensures call { code_number CallCode ≡ 5 }
    ensures function { code_number FunctionCode ≡ 6 }
    ensures postcondition { code_number PostCode ≡ 7 }
    ensures entry { code_number EntryCode ≡ 8 }
    ensures kept { code_number KeptCode ≡ 9 }
    ensures fold { code_number FoldCode ≡ 10 }
    ensures unfold { code_number UnfoldCode ≡ 11 }
    ensures measure { code_number MeasureCode ≡ 12 }
{}

/// A field, and a predicate or method without what it would ask about, have no question; the rules need a depth.
pub fn trees_of_members()
    ensures field { tree [] f (IsField Int) ≡ End }
    ensures no_body { tree [] f (IsPredicate record { place = at 1 1; parameters = []; body = None }) ≡ End }
    ensures depth { depth (record { name = f; kind = IsField Int } ∷ record { name = g; kind = IsField Int } ∷ []) ≡ 12 }
    ensures no_depth { (rules.outer [] 0).evals NoMore scene (λ ts s. End) ≡ Ask (asks (at 0 0) AssertCode (bool 0 ∷ denied (bool 1) ∷ []) falsity) (Impossible scene) }
    ensures some_depth { (rules.outer [] 1).evals NoMore scene (λ ts s. End) ≡ Step End }
{}

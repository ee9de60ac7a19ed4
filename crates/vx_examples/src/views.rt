//! What the paths, indices, states and frames of the code stand for: each variant, whatever its parts.

ghost use Rattle.std.specs.Prelude.{◌≡◌, ◌^◌, ◌||◌, ℕ, Bool, true, false, pos, map, option_map, Ok, Err, [], ◌∷◌, ◌++◌, Some, None, List, Option, String, string_bytes};
ghost use Rattle.std.specs.declared.alloc.Global.{Global};
ghost use Rattle.std.specs.declared.rc.Rc.{Rc};
ghost use Rattle.vx_ast.specs.Syntax.{Program};
ghost use Rattle.vx_terms.specs.declared.term.Term.{Term as Term'};
ghost use Rattle.vx_terms.specs.Sorts as sort;
ghost use Rattle.vx_terms.specs.Terms as terms;
ghost use Rattle.vx_terms.specs.Terms.{Term};
ghost use Rattle.vx_frac.specs.declared.Over.{Over};
ghost use Rattle.vx_frac.specs.declared.Frac.{Frac};
ghost use Rattle.vx_frac.specs.Fraction.{fraction};
ghost use Rattle.vx_terms.specs.Views.{term};
ghost use Rattle.vx_terms.specs.Views as view;
ghost use Rattle.vx_terms.specs.Literals.{literals, number_or, part_or};
ghost use Rattle.vx_terms.specs.declared.literals.Literals.TheVariants as literals';
ghost use Rattle.vx_terms.specs.declared.sort.Sort.TheVariants as sort';
ghost use Rattle.vx_terms.specs.declared.term.Symbol.TheVariants as symbol';
ghost use Rattle.vx_terms.specs.declared.term.Operator.TheVariants as operator'';
ghost use Rattle.vx_terms.specs.declared.term.Term.TheVariants as term';
ghost use Rattle.vx_terms.specs.declared.term.Terms.TheVariants as terms';
ghost use Rattle.vx_states.specs.declared.state.Binding.{Binding};
ghost use Rattle.vx_states.specs.declared.state.Own.{Own as Own'};
ghost use Rattle.vx_states.specs.declared.state.SymState.{SymState};
ghost use Rattle.vx_heap.specs.declared.heap.SymHeap.{SymHeap};
ghost use Rattle.vx_heap.specs.Views.{heap, terms_of, held_term};
ghost use Rattle.vx_stack.specs.declared.question.Query.{Query};
ghost use Rattle.vx_segments.specs.declared.Entry.{Entry};
ghost use Rattle.vx_states.specs.declared.path.Path.{Path};
ghost use Rattle.vx_states.specs.declared.path.Path.TheVariants as path';
ghost use Rattle.vx_states.specs.declared.index.Index.{Index};
ghost use Rattle.vx_states.specs.declared.index.Index.TheVariants as index';
ghost use Rattle.vx_states.specs.Keys.{mixed, symbol_key, operator_key, within, key_of};
ghost use Rattle.vx_states.specs.Index.{is_even, finds, down, IsAlike, IsExtended, IsIndexed};
ghost use Rattle.vx_states.specs.Paths.{extended, entries};
ghost use Rattle.vx_states.specs.SymStates.{binding, optional_term, own, state, place_in};
ghost use Rattle.vx_ast.specs.Syntax as syntax;
ghost use Rattle.vx_resolved.specs.Resolved.{expr, exprs, assertion, stmt, block, method};
ghost use Rattle.vx_resolved.specs.declared.Operator.TheVariants as operator';
ghost use Rattle.vx_resolved.specs.declared.Division.TheVariants as division';
ghost use Rattle.vx_resolved.specs.declared.Connective.TheVariants as connective';
ghost use Rattle.vx_resolved.specs.declared.Expr.{Expr as Expr'};
ghost use Rattle.vx_resolved.specs.declared.Exprs.{Exprs as Exprs'};
ghost use Rattle.vx_resolved.specs.declared.Assertion.{Assertion as Assertion'};
ghost use Rattle.vx_resolved.specs.declared.Stmt.{Stmt as Stmt'};
ghost use Rattle.vx_resolved.specs.declared.Block.{Block as Block'};
ghost use Rattle.vx_resolved.specs.declared.Method.{Method as Method'};
ghost use Rattle.vx_terms.specs.Build as make;
ghost use Rattle.vx_rules.specs.Chunks as chunks;
ghost use Rattle.vx_rules.specs.States as states;
ghost use Rattle.vx_rules.specs.Rules as rules;
ghost use Rattle.vx_rules.specs.Rules.{Giving, Going};
ghost use Rattle.vx_rules.specs.Members as members;
ghost use Rattle.vx_rules.specs.Trees.{CallCode, EntryCode, FoldCode, PostCode, Tree, End, Impossible, Step, Ask, Probe, Fork};
ghost use Rattle.vx_rules.specs.declared.code.Code.TheVariants as code';
ghost use Rattle.vx_stack.specs.declared.waiting.Operand.TheVariants as operand';
ghost use Rattle.vx_stack.specs.declared.waiting.Consumption.{Consumption};
ghost use Rattle.vx_stack.specs.declared.waiting.Production.{Production};
ghost use Rattle.vx_stack.specs.declared.waiting.Search.{Search};
ghost use Rattle.vx_stack.specs.declared.waiting.Location.{Location};
ghost use Rattle.vx_stack.specs.declared.waiting.Loop.{Loop};
ghost use Rattle.vx_stack.specs.declared.waiting.Produced.TheVariants as produced';
ghost use Rattle.vx_stack.specs.declared.waiting.Consumed.TheVariants as consumed';
ghost use Rattle.vx_stack.specs.declared.waiting.Executed.TheVariants as executed';
ghost use Rattle.vx_stack.specs.declared.frame.Next.{Next};
ghost use Rattle.vx_stack.specs.declared.frame.Next.TheVariants as next';
ghost use Rattle.vx_stack.specs.declared.frame.Hole.{Hole};
ghost use Rattle.vx_stack.specs.declared.frame.Taken.{Taken};
ghost use Rattle.vx_stack.specs.declared.frame.Taken.TheVariants as taken';
ghost use Rattle.vx_stack.specs.declared.frame.Row.{Row};
ghost use Rattle.vx_stack.specs.declared.frame.Row.TheVariants as row';
ghost use Rattle.vx_states.specs.declared.entering.Caller.{Caller};
ghost use Rattle.vx_states.specs.Entering.{back_to};
ghost use Rattle.vx_stack.specs.declared.frame.Hole.TheVariants as hole';
ghost use Rattle.vx_stack.specs.declared.frame.Frame.TheVariants as frame';
ghost use Rattle.vx_stack.specs.declared.frame.Side.{Side};
ghost use Rattle.vx_stack.specs.declared.conts.Move.TheVariants as move';
ghost use Rattle.vx_rules.specs.Codes.{code};
ghost use Rattle.vx_stack.specs.Stack.{query, context, wanted, finding, taking_none, operand, putting, with_location, produced, take_location, taking, wrapped, consumed, iterated, from_invariant, forgotten, executed, going, giving, frame_tree, side_tree, Stepped, Checked, giving_all, with_taken};
ghost use Rattle.vx_examples.specs.Words.{Computes, at, int, bool, real, number, snap, null, unit, pair, first, plus, chosen_term, falsity, denied};
ghost use Rattle.vx_examples.specs.Simplified.{truth};
ghost use Rattle.vx_examples.specs.Walks.{y, f, fact, branch, scene, with_chunks, first_ask, a_probe};
ghost use Rattle.vx_examples.specs.Viewed.{of_codes, of_symbols, of_operators, of_keys, of_sorts, of_term_symbols, of_term_operators};

/// Codes, and the keys by which a path's terms are found again.
pub fn codes_and_keys()
    ensures codes { Computes code of_codes }
    ensures symbols { Computes symbol_key of_symbols }
    ensures operators { Computes operator_key of_operators }
    ensures keys { Computes (λ t. key_of t 4) of_keys }
    ensures no_depth { within 0 7 ≡ 0 }
    ensures mixed { mixed 2114 7 ≡ 5 }
    ensures even { is_even 6 ≡ true }
    ensures odd { is_even 7 ≡ false }
    ensures down { down 2 13 ≡ 3 }
    ensures down_nothing { down 0 13 ≡ 13 }
    ensures place { place_in y scene.store ≡ Some 1 }
    ensures no_place { place_in f scene.store ≡ None }
{}

/// A path's entries, the oldest first, and the terms that stand in an index.
pub fn paths_and_indices()
    ensures empty { entries path'.Empty ≡ [] }
    ensures fact { (q : _) (before : Path) (e : Entry) → entries (path'.Fact' q before e) ≡ entries before ++ fact (held_term e.term) ∷ [] }
    ensures branch { (q : _) (before : Path) (e : Entry) → entries (path'.Branch' q before e) ≡ entries before ++ branch (held_term e.term) ∷ [] }
    ensures extended { extended (branch (bool 0) ∷ []) (bool 1) false ≡ branch (bool 0) ∷ fact (bool 1) ∷ [] }
    ensures none { (k : ℕ) (t : Term) → finds index'.Nothing k t ≡ false }
    ensures held { (q : _) (u : Rc Term' Global) (more : Index) → finds (index'.Holds' u q more) 5 (bool 1) ≡ (terms.same (bool 1) (held_term u) || finds more 5 (bool 1)) }
    ensures even_side { (p q : _) (even odd : Index) → finds (index'.Branch' p even q odd) 6 (bool 1) ≡ finds even 3 (bool 1) }
    ensures odd_side { (p q : _) (even odd : Index) → finds (index'.Branch' p even q odd) 7 (bool 1) ≡ finds odd 3 (bool 1) }
    ensures alike { IsAlike index'.Nothing index'.Nothing }
    ensures not_alike { (q : _) (u : Rc Term' Global) → held_term u ≡ bool 1 → IsAlike (index'.Holds' u q index'.Nothing) index'.Nothing → ⊥ }
    ensures indexed { IsIndexed [] index'.Nothing }
    ensures not_indexed { IsIndexed (fact (bool 1) ∷ []) index'.Nothing → ⊥ }
    ensures extended_index { (q : _) (u : Rc Term' Global) (level : ℕ) → IsExtended index'.Nothing (index'.Holds' u q index'.Nothing) level (held_term u) }
    ensures not_extended { (level : ℕ) → IsExtended index'.Nothing index'.Nothing level (bool 1) → ⊥ }
{}

/// What an operand's value leads to, before what waits for the whole.
#[tactic(auto, unfolding(vx_rules::specs::Members::rules))]
pub fn operands_that_wait()
    ensures negate { (on : Giving) → operand [] operand'.Negate on (bool 0) scene ≡ Step (on (denied (bool 0)) scene) }
    ensures operate_right { (b : Rc Expr' Global) (on : Giving) → operand [] (operand'.OperateRight operator'.Greater b) on (int 0) scene
        ≡ Step (rules.eval [] (rules.outer [] 4) (expr b.value) scene (λ u s. Step (on (rules.operated syntax.Greater (int 0) u) s))) }
    ensures operate_with { (t : Rc Term' Global) (on : Giving) → operand [] (operand'.OperateWith operator'.Subtract t) on (number 0) scene ≡ Step (on (held_term t) scene) }
    ensures connect_right { (b : Rc Expr' Global) (on : Giving) → operand [] (operand'.ConnectRight connective'.Or b) on (bool 0) scene
        ≡ Step (rules.eval [] (rules.outer [] 4) (expr b.value) scene (λ u s. Step (on (rules.connected syntax.Or (bool 0) u) s))) }
    ensures connect_with { (t : Rc Term' Global) (on : Giving) → operand [] (operand'.ConnectWith connective'.Implies t) on truth scene
        ≡ Step (on (rules.connected syntax.Implies (held_term t) truth) scene) }
    ensures connect_sides { (b : Rc Expr' Global) (on : Giving) → operand [] (operand'.ConnectSides connective'.And b) on falsity scene ≡ Step (on falsity scene) }
    ensures connect_needed { (b : Rc Expr' Global) (on : Giving) → operand [] (operand'.ConnectSides connective'.And b) on (bool 0) scene
        ≡ Step (rules.eval [] (rules.outer [] 4) (expr b.value) scene on) }
    ensures choose_then { (a b : Rc Expr' Global) (on : Giving) → operand [] (operand'.ChooseThen a b) on (bool 0) scene
        ≡ Step (rules.eval [] (rules.outer [] 4) (expr a.value) scene (λ u s. Step
        (rules.eval [] (rules.outer [] 4) (expr b.value) s (λ v s1. Step (on (make.ite (bool 0) u v) s1))))) }
    ensures choose_else { (t : Rc Term' Global) (b : Rc Expr' Global) (on : Giving) → operand [] (operand'.ChooseElse t b) on (int 2) scene
        ≡ Step (rules.eval [] (rules.outer [] 4) (expr b.value) scene (λ v s. Step (on (make.ite (held_term t) (int 2) v) s))) }
    ensures choose_with { (t u : Rc Term' Global) (on : Giving) → operand [] (operand'.ChooseWith t u) on (int 2) scene
        ≡ Step (on (make.ite (held_term t) (held_term u) (int 2)) scene) }
    ensures choose_sides { (a b : Rc Expr' Global) (on : Giving) → operand [] (operand'.ChooseSides a b) on falsity scene
        ≡ Step (rules.eval [] (rules.outer [] 4) (expr b.value) scene on) }
    ensures divide_with { (t : Rc Term' Global) (on : Giving) → operand [] (operand'.DivideWith (at 1 1) division'.Quotient t) on (number 2) scene
        ≡ Step (on (rules.divided syntax.Quotient (held_term t) (number 2)) scene) }
    ensures receiver { (x : Rc (String Global) Global) (on : Giving) → operand [] (operand'.Receiver (at 1 1) x) on (int 0) scene
        ≡ rules.read_field (string_bytes x.value) (int 0) (rules.field_sort [] (string_bytes x.value)) (at 1 1) scene on }
    ensures restore { (h : Rc SymHeap Global) (on : Giving) → operand [] (operand'.Restore h) on (int 0) with_chunks ≡ Step (on (int 0) (record with_chunks { heap = heap h.value })) }
{}

/// What a value leads to within a consume, and within a statement.
#[tactic(auto, unfolding(vx_rules::specs::Members::rules))]
pub fn parts_that_wait()
    ensures context { context (record { pure = code'.Postcondition; permission = code'.Call; builds = false }) ≡ members.codes PostCode CallCode }
    ensures building { context (record { pure = code'.Fold; permission = code'.Fold; builds = true }) ≡ record { pure = FoldCode; permission = FoldCode; builds = true } }
    ensures asked { (h : Rc SymHeap Global) (on : Giving) → consumed [] (consumed'.Ask (at 1 1) code'.Assert h) on truth with_chunks
        ≡ Step (Step (on unit (record with_chunks { heap = heap h.value }))) }
    ensures right { (b : Rc Assertion' Global) (x : Rc Consumption Global) (on : Giving) → consumed [] (consumed'.Right b x) on (snap 1) scene ≡
        rules.consume [] (rules.outer [] 4) (assertion b.value) (context x.value.codes) (held_term x.value.scale) (heap x.value.start.value) scene
        (λ u s. Step (on (pair (snap 1) u) (rules.with_built_pair (context x.value.codes) (snap 1) u s))) }
    ensures with_left { (t : Rc Term' Global) (on : Giving) → consumed []
        (consumed'.With t (record { pure = code'.Assert; permission = code'.Permission; builds = false })) on unit scene
        ≡ Step (on (pair (held_term t) unit) scene) }
    ensures with_facts { (t : Rc Term' Global) (on : Giving) → consumed [] (consumed'.With t (record { pure = code'.Fold; permission = code'.Fold; builds = true })) on unit scene ≡
        Step (on (pair (held_term t) unit) (states.with_facts (rules.pair_facts (held_term t) unit) scene)) }
    ensures wanted_some { (x : Search) (c : states.Chunk) → x.amount ≡ None → wanted x c ≡ chunks.holds_some (terms_of x.arguments.items) c }
    ensures fact { (on : Going) → produced [] (produced'.Fact None) on (bool 0) scene ≡ Step (on scene) }
    ensures put { (x : Rc (String Global) Global) (r : Rc Term' Global) (how : Rc Production Global) (on : Going)
        → produced [] (produced'.Amount (at 1 1) x r how true) on (real 0) scene ≡
        putting [] (at 1 1) (string_bytes x.value) (held_term r) (make.multiply (held_term how.value.scale) (real 0)) (optional_term how.value.snapshot) true scene on }
    ensures produced_side { (a : Rc Assertion' Global) (how : Rc Production Global) (on : Going) → produced [] (produced'.Implied a how) on falsity scene
        ≡ Step (on (rules.with_unit (optional_term how.value.snapshot) scene)) }
    ensures wraps { (x : Rc (String Global) Global) (on : Giving) → consumed []
        (consumed'.Wrap x (record { pure = code'.Assert; permission = code'.Permission; builds = false })) on (int 0) scene
        ≡ Step (on (make.wrap (rules.field_sort [] (string_bytes x.value)) (int 0)) scene) }
    ensures consumed_side { (a : Rc Assertion' Global) (x : Rc Consumption Global) (h : Rc SymHeap Global) (on : Giving)
        → consumed [] (consumed'.Implied a x h) on falsity with_chunks ≡ Step (on unit (record with_chunks { heap = heap h.value })) }
    ensures assume { (on : Going) → executed [] executed'.Assume on (bool 0) scene ≡ Step (on scene) }
    ensures asserted { (h : Rc SymHeap Global) (on : Going) → executed [] (executed'.Asserted h) on unit with_chunks ≡ Step (on (record with_chunks { heap = heap h.value })) }
    ensures exhaled { (on : Going) → executed [] executed'.Exhaled on unit with_chunks ≡ Step (on with_chunks) }
    ensures chosen { (a b : Rc Block' Global) (on : Going) → executed [] (executed'.If a b 1) on (bool 0) scene
        ≡ Step (members.exec_all [] (rules.outer [] 4) (block a.value) scene (λ s. on (states.leave 1 s))) }
    ensures passes { (on : Going) → executed [] executed'.Pass on (bool 0) scene ≡ Step (on (states.with_branch (denied (bool 0)) scene)) }
    ensures enters { (l : Rc Loop Global) (on : Going) → executed [] (executed'.Enter l 1) on unit with_chunks ≡
        Fork (from_invariant [] l.value (states.with_heap [] (forgotten [] l.value with_chunks)) (iterated [] l.value 1))
        (from_invariant [] l.value (forgotten [] l.value with_chunks) (λ u s. Step (on (states.with_branch (make.negate u) s)))) }
    ensures assigned { (x : Rc (String Global) Global) (on : Going) → executed [] (executed'.Assign x) on (number 3) scene
        ≡ Step (on (states.with_store (states.assign (string_bytes x.value) (number 3) scene.store) scene)) }
{}

/// What a state, or a value and a state, leads to, and the tree of a frame.
#[tactic(auto, unfolding(vx_rules::specs::Members::rules))]
pub fn frames_that_wait()
    ensures finish { going [] next'.Finish scene ≡ End }
    ensures impossible { going [] next'.Impossible scene ≡ Impossible scene }
    ensures exec { (q : _) (c : Rc Stmt' Global) (n : Next) → going [] (next'.Exec' c q n) scene ≡ members.exec [] (rules.outer [] 4) (stmt c.value) scene (going [] n) }
    ensures block { (q : _) (b : Rc Block' Global) (n : Next) → going [] (next'.Block' b q n) scene ≡ members.exec_all [] (rules.outer [] 4) (block b.value) scene (going [] n) }
    ensures inner { (q : _) (b : Rc Block' Global) (n : Next) → going [] (next'.Inner' b 1 q n) scene ≡ members.exec_all [] (rules.outer [] 4)
        (block b.value) scene (λ s. going [] n (states.leave 1 s)) }
    ensures produce { (q : _) (a : Rc Assertion' Global) (x : Rc Production Global) (n : Next) → going [] (next'.Produce' a x q n) scene ≡
        rules.produce [] (rules.outer [] 4) (assertion a.value) (held_term x.value.scale) (optional_term x.value.snapshot) scene (going [] n) }
    ensures unit { (q : _) (start : Rc SymHeap Global) (h : Hole) → going [] (next'.Unit' start q h) with_chunks
        ≡ Step (giving [] h unit (record with_chunks { heap = heap start.value })) }
    ensures consume { (q : _) (a : Rc Assertion' Global) (t : Rc Term' Global) (h : Hole)
        → going [] (next'.Consume' a (record { pure = code'.Entry; permission = code'.Entry; builds = false }) t q h) with_chunks ≡
        rules.consume [] (rules.outer [] 4) (assertion a.value) (members.codes EntryCode EntryCode) (held_term t) with_chunks.heap with_chunks (giving [] h) }
    ensures consume_from { (q : _) (a : Rc Assertion' Global) (x : Rc Consumption Global) (h : Hole) → going [] (next'.ConsumeFrom' a x q h) with_chunks ≡
        rules.consume [] (rules.outer [] 4) (assertion a.value) (context x.value.codes) (held_term x.value.scale) (heap x.value.start.value) with_chunks (giving [] h) }
    ensures sides { (m : Rc Method' Global) → going [] (next'.Sides m) scene ≡ members.sides [] (rules.outer [] 4) (method m.value) scene }
    ensures put { (q : _) (l : Rc Location Global) (x : Rc Production Global) (n : Next) → going [] (next'.Put' l x false q n) scene ≡
        Step (going [] n (with_location [] (string_bytes l.value.field.value) (held_term l.value.receiver) (held_term l.value.amount) (optional_term x.value.snapshot) false scene)) }
    ensures read { (q : _) (x : Rc Search Global) (h : Hole) → going [] (next'.ReadFrom' x 1 q h) scene ≡ finding x.value 1 scene
        (λ c. giving [] h c.chunk.value scene) (rules.never x.value.place (code x.value.code) scene) }
    ensures read_over { (q : _) (f : Rc (String Global) Global) (r : Rc Term' Global) (h : Hole) → going [] (next'.ReadOver' f r q h) scene
        ≡ giving [] h (states.fresh sort.IntSort scene) (states.after_fresh scene) }
    ensures take_over { (q : _) (l : Rc Location Global) (h : Hole) → going [] (next'.TakeOver' l q h) scene ≡ giving [] h (states.fresh sort.IntSort scene)
        (states.after_fresh scene) }
    ensures write_over { (q : _) (f : Rc (String Global) Global) (r t : Rc Term' Global) (n : Next) → going [] (next'.WriteOver' f r t q n) scene ≡ going [] n scene }
    ensures fresh { (q : _) (w : Taken) → going [] (next'.Fresh' sort'.Int q w) scene ≡ with_taken [] w (states.fresh sort.IntSort scene) false (states.after_fresh scene) }
    ensures evals { (q : _) (es : Rc Exprs' Global) (r : Row) → going [] (next'.Evals' es q r) scene ≡ rules.evals [] (rules.outer [] 4) (exprs es.value) scene (giving_all [] r) }
    ensures back { (q : _) (c : Rc Caller Global) (n : Next) → going [] (next'.Back' c q n) with_chunks ≡ going [] n (back_to c.value with_chunks) }
    ensures values { (q : _) (t : Rc Term' Global) (r : Row) → giving_all [] (row'.After' t q r) (int 0 ∷ []) scene ≡ Step (giving_all [] r (held_term t ∷ int 0 ∷ []) scene) }
    ensures taken { (q : _) (h : Hole) → with_taken [] (taken'.Value' q h) (int 0) true scene ≡ giving [] h (int 0) scene }
    ensures given { giving [] hole'.Finish (int 0) scene ≡ End }
    ensures produced { (q : _) (n : Next) → giving [] (hole'.Produced' (produced'.Fact None) q n) (bool 0) scene ≡ Step (going [] n scene) }
    ensures produced_unit { (q : _) (t : Rc Term' Global) (n : Next) → giving [] (hole'.Produced' (produced'.Fact (Some t)) q n) (bool 0) scene
        ≡ Step (going [] n (states.with_fact (make.equals (held_term t) unit) scene)) }
    ensures operand { (q : _) (h : Hole) → giving [] (hole'.Operand' operand'.Negate q h) (bool 0) scene ≡ Step (giving [] h (denied (bool 0)) scene) }
    ensures consumed { (q : _) (t : Rc Term' Global) (h : Hole) → giving []
        (hole'.Consumed' (consumed'.With t (record { pure = code'.Assert; permission = code'.Permission; builds = false })) q h) unit scene
        ≡ Step (giving [] h (pair (held_term t) unit) scene) }
    ensures executed { (q : _) (n : Next) → giving [] (hole'.Executed' executed'.Exhaled q n) unit scene ≡ Step (going [] n scene) }
    ensures go { (n : Rc Next Global) → frame_tree [] (frame'.Go n) scene ≡ going [] n.value scene }
    ensures eval { (e : Rc Expr' Global) (h : Rc Hole Global) → frame_tree [] (frame'.Eval e h) scene ≡ rules.eval [] (rules.outer [] 4) (expr e.value) scene (giving [] h.value) }
    ensures give { (t : Rc Term' Global) (h : Rc Hole Global) → frame_tree [] (frame'.Give t h) scene ≡ giving [] h.value (held_term t) scene }
{}

/// A step from a side leaves one side on the stack, or two for a fork, the first on top; and a question is that of the tree.
pub fn steps_of_stacks()
    ensures end { (b : Side) → Stepped [] End (b ∷ []) move'.End (b ∷ []) }
    ensures end_no_step { (a : Side) → Stepped [] (Step (side_tree [] a)) [] move'.End [] → ⊥ }
    ensures go { (a b : Side) → Stepped [] (Step (side_tree [] a)) (b ∷ []) move'.Go (b ∷ a ∷ []) }
    ensures fork { (a b : Side) → Stepped [] (Fork (side_tree [] a) (side_tree [] b)) [] move'.Fork (b ∷ a ∷ []) }
    ensures go_no_fork { (a b : Side) → Stepped [] (Fork (side_tree [] a) (side_tree [] b)) [] move'.Go (b ∷ a ∷ []) → ⊥ }
    ensures ask { (a : Side) → Checked [] false (Ask first_ask (side_tree [] a)) [] first_ask (a ∷ []) }
    ensures probe { (a b : Side) → Checked [] true (Probe a_probe (side_tree [] a) (side_tree [] b)) [] a_probe (b ∷ a ∷ []) }
    ensures check { (q : Query) (t : Tree) (old new : List Side) → Checked [] q.probe t old (query q) new → Stepped [] t old (move'.Check q) new }
    ensures ask_no_probe { (a : Side) → Checked [] true (Ask first_ask (side_tree [] a)) [] first_ask (a ∷ []) → ⊥ }
{}

/// What the sorts, symbols, operators and literals of the code stand for.
pub fn views_of_parts()
    ensures sorts { Computes view.sort of_sorts }
    ensures symbols { Computes view.symbol of_term_symbols }
    ensures other_sort { (x : Rc (String Global) Global) → view.sort (sort'.Other x) ≡ sort.OtherSort (string_bytes x.value) }
    ensures other_symbol { (x : Rc (String Global) Global) → view.symbol (symbol'.Named x) ≡ sort.Named (string_bytes x.value) }
    ensures operators { Computes view.operator of_term_operators }
    ensures numbers { literals (literals'.Numbers (pos 1) (pos 2)) ≡ make.Numbers (pos 1) (pos 2) }
    ensures truths { literals (literals'.Truths true false) ≡ make.Truths true false }
    ensures neither { literals literals'.Neither ≡ make.Neither }
    ensures parts { (a b : Frac) → literals (literals'.Parts a b) ≡ make.Parts (fraction a) (fraction b) }
    ensures number { number_or (Some (pos 5)) (int 0) ≡ number 5 }
    ensures number_past { number_or (Some (pos (2 ^ 127))) (int 0) ≡ int 0 }
    ensures no_number { number_or None (int 0) ≡ int 0 }
    ensures no_part { (over : Over) → part_or (Err over) (real 0) ≡ real 0 }
    ensures part { (a : Frac) → part_or (Ok a) (real 0) ≡ make.folded_part true (fraction a) (real 0) }
{}

/// What the terms of the code stand for: the same forms, without pointers.
pub fn views_of_terms()
    ensures truth { term (term'.Truth true) ≡ truth }
    ensures number { term (term'.Number (pos 3)) ≡ number 3 }
    ensures fraction { (a : Frac) → term (term'.Part a) ≡ terms.Part (fraction a) }
    ensures constant { term (term'.Constant (symbol'.Variable 3) sort'.Int) ≡ int 3 }
    ensures null { term (term'.Constant (symbol'.Standard 0) sort'.Ref) ≡ null }
    ensures applied { (p : _) (t : Term') (q : _) → term (term'.Apply' (symbol'.Standard 3) sort'.Snap p (terms'.More' q t p terms'.None)) ≡ first (term t) }
    ensures denied { (p : _) (t : Term') → term (term'.Not' p t) ≡ denied (term t) }
    ensures sum { (p q : _) (t u : Term') → term (term'.Binary' operator''.Add p t q u) ≡ plus (term t) (term u) }
    ensures choice { (p q r : _) (c t u : Term') → term (term'.Ite' p c q t r u) ≡ chosen_term (term c) (term t) (term u) }
    ensures no_terms { view.terms terms'.None ≡ terms.NoTerms }
{}

/// What a state, a binding and a question of the code stand for.
pub fn views_of_states()
    ensures binding { (b : Binding) → binding b ≡ (string_bytes b.name.value, held_term b.value) }
    ensures store { (s : SymState) → (state s).store ≡ map binding s.store.items }
    ensures path { (s : SymState) → (state s).path ≡ entries s.path.path }
    ensures next { (s : SymState) → (state s).next ≡ s.next }
    ensures heap { (s : SymState) → (state s).heap ≡ heap s.heap.value }
    ensures old { (s : SymState) → (state s).old ≡ heap s.old_heap.value }
    ensures level { (s : SymState) → (state s).level ≡ s.level }
    ensures bounded { (s : SymState) → (state s).bounded ≡ s.is_bounded }
    ensures inner { (s : SymState) → (state s).inner ≡ s.is_inner }
    ensures measured { (s : SymState) → (state s).own ≡ option_map own s.own }
    ensures place { (s : SymState) → (state s).at ≡ s.at }
    ensures own { (o : Own') → own o ≡ record { function = string_bytes o.function.value; measure = optional_term o.measure } }
    ensures term { (t : Rc Term' Global) → optional_term (Some t) ≡ Some (held_term t) }
    ensures no_term { optional_term None ≡ None }
    ensures question { (q : Query) → (query q).path ≡ states.path_terms (entries q.path) }
    ensures condition { (q : Query) → (query q).condition ≡ held_term q.condition }
{}

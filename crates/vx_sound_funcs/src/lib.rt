//! What a snapshot tells of the heap, and that it determines the value of a function.
#![tactic(auto)]

ghost use Rattle.std.specs.Prelude.{◌≡◌, ◌+◌, ℕ, ℤ, pos, ◌+ℤ◌, List, [], ◌∷◌, Some, None};
ghost use Rattle.vx_ast.specs.Syntax.{Name, Program, Expr};
ghost use Rattle.vx_frac.specs.Fractions.{over};
ghost use Rattle.vx_terms.specs.Interpretations.{Empty, IntLeaf, Pair};
ghost use Rattle.vx_meaning.specs.Values.{Value, IntValue, RefValue};
ghost use Rattle.vx_meaning.specs.States.{State, At, with_store};
ghost use Rattle.vx_meaning.specs.Evaluate.{HasValue};
ghost use Rattle.vx_meaning.specs.Flatten.{flat};
ghost use Rattle.vx_meaning.specs.Consistent.{IsConsistent};
ghost use Rattle.vx_meaning.specs.Fits.{deeper, Fits, FailsToFit};
ghost use Rattle.vx_sound.specs.Snapshots.{assertion_tree, tree_by, IsTree};
ghost use Rattle.vx_smt_meaning.specs.declared.reply.Reply.{Reply};
ghost use Rattle.vx_types.specs.Premises.{IsTypedProgram};
ghost use Rattle.vx_sound_preds.specs.Bodies.{IsPlain, GoodBodies};
ghost use Rattle.vx_sound_preds.specs.Covered.{Covered, IsProper, PredicatesPass, IsStocked};
ghost use Rattle.vx_sound_preds.specs.Examples.{here, P, instance_of};
ghost use Rattle.vx_sound_funcs.specs.Told.{precondition_of, IsValueOf};
ghost use Rattle.vx_sound_preds.specs.Asking.{IsAskingTreeOf};
ghost use Rattle.vx_sound_funcs.specs.Firm.{firm_application, firmly, FitsFirmly, GoodFunctions, HoldsFirmly};
ghost use Rattle.vx_sound_funcs.specs.AskingExamples.{part, parts, tagged, both_held};
ghost use Rattle.vx_sound_funcs.specs.Examples.{getter, get, doubler, twice, peeker, peek, boxes, x_is_one, holding, bereft, boast, boaster, boasts, g, looses, leads_to};
ghost use Rattle.vx_sound_funcs.specs.Laws.{TreesTellTheHeap, TreesTellWhatIsHeld, TreesTellEntries, TreesTellHoldings, TreesTellFirmValues, PlainIsAsking, AskingTreesAreSingle, AskingTreesLook, ApplicationsAgree, StartsHoldFirmly, TakesFirmly, SpeakNow, FirmlyIsMore};

/// The tree of an instance tells what is inside it, and the values there, where bodies are good and fit with what they give; so
/// it does in a typed program where the walks of the predicates passed.
pub fn trees_tell_the_heap()
    ensures told { (p : Program) (x : Name) → GoodBodies p → Covered p (IsProper p x) → TreesTellTheHeap p (IsProper p x) }
    ensures passed { (p : Program) (x : Name) (replies : Name → List Reply) → IsTypedProgram p → PredicatesPass p x replies → TreesTellTheHeap p (IsProper p x) }
{}

/// The asking tree of an assertion, as a precondition, tells what a state holds that holds just what the assertion gives firmly, and
/// the values there: what is applied in it takes its own precondition from what is held so far, so its value is told too.
pub fn trees_tell_what_is_held()
    ensures values { (p : Program) (x : Name) → GoodBodies p → GoodFunctions p → Covered p (IsProper p x) → TreesTellWhatIsHeld p (IsProper p x) }
    ensures entries { (p : Program) (x : Name) → GoodBodies p → GoodFunctions p → Covered p (IsProper p x) → TreesTellEntries p (IsProper p x) }
    ensures holdings { (p : Program) (x : Name) → GoodBodies p → GoodFunctions p → Covered p (IsProper p x) → TreesTellHoldings p (IsProper p x) }
    ensures passed { (p : Program) (x : Name) (replies : Name → List Reply) → IsTypedProgram p → PredicatesPass p x replies
        → TreesTellWhatIsHeld p (IsProper p x) × TreesTellEntries p (IsProper p x) × TreesTellHoldings p (IsProper p x) }
{}

/// So does the value of a function that applies others, whose body fits firmly: what it applies takes its precondition from what
/// is held, so its tree is told too.
pub fn trees_tell_firm_values()
    ensures told { (p : Program) (x : Name) → GoodBodies p → GoodFunctions p → Covered p (IsProper p x) → TreesTellFirmValues p (IsProper p x) }
    ensures passed { (p : Program) (x : Name) (replies : Name → List Reply) → IsTypedProgram p → PredicatesPass p x replies → TreesTellFirmValues p (IsProper p x) }
{}

/// In a typed program functions are good: they speak of no earlier state, and the arguments of what they apply are no amounts. Their
/// preconditions may apply any function.
pub fn typed_functions_are_good()
    ensures now { (p : Program) → IsTypedProgram p → SpeakNow p }
    ensures good { (p : Program) → IsTypedProgram p → GoodFunctions p }
{}

/// What applies no function fits firmly where it fits.
pub fn plain_parts_fit_firmly()
    ensures { (p : Program) → GoodBodies p → (s : State) (e : Expr) (v : Value) → IsPlain e → Fits p s e v → FitsFirmly p s e v }
{}

/// What fits firmly fits, where no body of a function has an `old`: a body that fits where it starts has its value in the state of
/// its caller too. So what is shown of firm fitting tells of what the meaning asks for, in each typed program.
pub fn what_fits_firmly_fits()
    ensures more { (p : Program) → SpeakNow p → FirmlyIsMore p }
    ensures typed { (p : Program) → IsTypedProgram p → FirmlyIsMore p }
{}

/// So two applications at the same arguments, where the precondition has one tree, have values that look the same, if one of
/// them is allowed firmly in a state that can be.
pub fn applications_agree()
    ensures { (p : Program) (x : Name) (replies : Name → List Reply) → IsTypedProgram p → PredicatesPass p x replies → ApplicationsAgree p x }
{}

/// An expression has one value at most, and so has a function at its arguments.
pub fn values_are_single()
    ensures expressions { (p : Program) (s : State) (e : Expr) (v w : Value) → HasValue p s e v → HasValue p s e w → v ≡ w }
    ensures functions { (p : Program) (f : Name) (vs : List Value) (s : State) (v w : Value) → IsValueOf p f vs s v → IsValueOf p f vs s w → v ≡ w }
{}

/// A program with a predicate P of boxes and functions that read them is typed, and the walk of P passes. So its bodies are good
/// and covered; where P(1) is held, nothing else is, and the state can be.
pub fn boxes_are_told()
    ensures typed { IsTypedProgram boxes }
    ensures passes { PredicatesPass boxes P (λ y. []) }
    ensures bodies { GoodBodies boxes }
    ensures functions { GoodFunctions boxes }
    ensures covered { Covered boxes (IsProper boxes P) }
    ensures can { (z : ℤ) → IsConsistent boxes (holding z) }
    ensures stocked { (z : ℤ) → IsStocked boxes P (holding z).holdings }
    ensures holds { (z : ℤ) → HoldsFirmly boxes (IsProper boxes P) (precondition_of getter) (holding z) }
    ensures tree { (z : ℤ) → IsAskingTreeOf boxes (holding z) (precondition_of getter) (IntLeaf z) }
{}

/// `get(x)` reads x.f under P(x), which asks for x.f alone: its body fits where P(1) is held, it may be applied there, and
/// wherever the tree of P(1) is z its value at 1 is z.
pub fn get_is_determined()
    ensures fits { (z : ℤ) → Fits boxes (holding z) getter.body (IntValue z) }
    ensures allowed { (z : ℤ) → firm_application boxes (firmly boxes 2) get (RefValue 1 ∷ []) (holding z) ≡ Some (IntValue z) }
    ensures determined { (z : ℤ) (t : State) → t.store ≡ x_is_one → IsAskingTreeOf boxes t (precondition_of getter) (IntLeaf z) → IsValueOf boxes get (RefValue 1 ∷ []) t (IntValue z) }
    ensures agrees { (z : ℤ) (t : State) → IsAskingTreeOf boxes (with_store x_is_one t) (precondition_of getter) (IntLeaf z) → IsValueOf boxes get (RefValue 1 ∷ []) t (IntValue z) }
{}

/// `twice(x)` applies `get` two times, and promises that its value is the sum: its body fits firmly, its promise is kept where P(1) is
/// held, so it may be applied there, and its value is the double.
pub fn twice_is_determined()
    ensures allowed { (z : ℤ) → firm_application boxes (firmly boxes 3) twice (RefValue 1 ∷ []) (holding z) ≡ Some (IntValue (z +ℤ z)) }
    ensures fits { (z : ℤ) → FitsFirmly boxes (holding z) doubler.body (IntValue (z +ℤ z)) }
    ensures determined { (z : ℤ) (t : State) → t.store ≡ x_is_one → IsAskingTreeOf boxes t (precondition_of doubler) (IntLeaf z)
        → IsValueOf boxes twice (RefValue 1 ∷ []) t (IntValue (z +ℤ z)) }
{}

/// `peek(x)` reads x.f and asks for nothing: its body doesn't fit, and with one tree it has every value.
pub fn what_does_not_fit_is_not_determined()
    ensures holds { (z : ℤ) → HoldsFirmly boxes (IsProper boxes P) (precondition_of peeker) (bereft z) }
    ensures fails { (z : ℤ) → FailsToFit boxes (bereft z) peeker.body here }
    ensures tree { (z : ℤ) → IsAskingTreeOf boxes (bereft z) (precondition_of peeker) Empty }
    ensures values { (z : ℤ) → IsValueOf boxes peek (RefValue 1 ∷ []) (bereft z) (IntValue z) }
{}

/// `boast()` promises what isn't true: its body fits firmly and the meaning has its value, but it is never allowed firmly.
pub fn a_broken_promise_is_not_allowed()
    ensures fits { (s : State) → FitsFirmly boasts s boaster.body (IntValue (pos 0)) }
    ensures meant { (n : ℕ) (s : State) → (deeper boasts (n + 1)).applied boast [] s ≡ Some (IntValue (pos 0)) }
    ensures refused { (n : ℕ) (s : State) → firm_application boasts (firmly boasts n) boast [] s ≡ None }
{}

/// A predicate whose body reads what it doesn't give, as acc(x.f.g), has one tree with other locations inside.
pub fn what_is_not_covered_is_not_told()
    ensures tree { (r : ℕ) → IsTree looses (leads_to r) (instance_of 1) (IntLeaf (pos 0)) }
    ensures inside { (r : ℕ) → flat looses 1 (leads_to r) (instance_of 1) ≡ Some ((At record { receiver = r; field = g }, over 1 1) ∷ []) }
{}

/// What applies no function is asking, and its asking tree is its tree with nothing applied: so is the body of a predicate.
pub fn plain_is_asking()
    ensures { (p : Program) → PlainIsAsking p }
{}

/// More fuel changes no asking tree, so an assertion has one at most; and in a typed program it looks at the variables and at the heap alone.
pub fn asking_trees_are_single()
    ensures single { (p : Program) → AskingTreesAreSingle p }
    ensures look { (p : Program) → IsTypedProgram p → AskingTreesLook p }
{}

/// In a typed program a function starts where just its precondition is held, firmly, if the parts of the precondition fit firmly in this
/// heap: as they do where what they apply keeps its promises there.
pub fn starts_hold_firmly()
    ensures { (p : Program) (x : Name) → IsTypedProgram p → StartsHoldFirmly p x }
{}

/// What can be taken, as a precondition in its caller's state, can be taken firmly if its parts fit firmly there.
pub fn what_is_taken_is_taken_firmly()
    ensures { (p : Program) → TakesFirmly p }
{}

/// `part(x)` asks for x.f, and for x.g where `kind(x)` is 0, which reads x.f: where both are held and x.f is 0 its precondition has an asking
/// tree, the two values, and is held firmly; with nothing applied it has none.
pub fn a_part_is_told_by_a_function()
    ensures tree { (z : ℤ) → IsAskingTreeOf tagged (both_held z) (precondition_of parts) (Pair (IntLeaf (pos 0)) (IntLeaf z)) }
    ensures none { (z : ℤ) (n : ℕ) → assertion_tree tagged (tree_by tagged n (both_held z).heap) (both_held z) (precondition_of parts) ≡ None }
    ensures holds { (z : ℤ) → HoldsFirmly tagged (IsProper tagged part) (precondition_of parts) (both_held z) }
{}

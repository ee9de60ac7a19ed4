//! The soundness law for the whole language, and what it needs of applications: what one tells of its function is true.
#![tactic(auto)]

ghost use Rattle.std.specs.Prelude.{ℕ, List};
ghost use Rattle.vx_ast.specs.Syntax.{Name, Program, IsFunction, IsMethod};
ghost use Rattle.vx_terms.specs.Interpretations.{Interpretation};
ghost use Rattle.vx_smt_meaning.specs.declared.reply.Reply.{Reply};
ghost use Rattle.vx_meaning.specs.Fails.{Fails, FunctionStarts};
ghost use Rattle.vx_types.specs.Premises.{IsTypedProgram};
ghost use Rattle.vx_sound.specs.Examples.{m};
ghost use Rattle.vx_sound_preds.specs.Covered.{PredicatesPass};
ghost use Rattle.vx_sound_funcs.specs.AskingExamples.{part, parts, tagged};
ghost use Rattle.vx_sound_funcs.specs.Examples.{twice, doubler, boxes};
ghost use Rattle.vx_law.specs.Allowed.{TakenIsAllowed};
ghost use Rattle.vx_law.specs.Walks.{FunctionsPass};
ghost use Rattle.vx_law.specs.Law.{MembersAreSound};
ghost use Rattle.vx_law.specs.Snapshots.{MeansTrees, SnapshotsKeepValues};
ghost use Rattle.vx_law.specs.Examples.{next, adder, relies, counts, down, descender, descends, tags, payload, payloads};
ghost use Rattle.vx_meaning.specs.States.{State};
ghost use Rattle.vx_law.specs.EagerExamples.{eager, eagers, reader};
ghost use Rattle.vx_law.specs.Means.{SymbolsMeanOne, PromisesKept};
ghost use Rattle.vx_law.specs.Measures.{MeasuresEnd, GroupsAgree, PreconditionsAskBelow};

/// A member of a typed program doesn't fail, where the walks of all that it leads to passed, with right unsat replies.
pub fn members_are_sound()
    ensures { MembersAreSound }
{}

/// In a typed program where the walks of predicates and functions passed, a function starts wherever its precondition can be taken in a
/// state that can be; and if the functions of lower groups keep their promises, and it keeps its own there, the application is allowed,
/// firmly and as the meaning has it.
pub fn what_is_taken_is_allowed()
    ensures { (p : Program) (x : Name) (replies : Name → List Reply) → IsTypedProgram p → PredicatesPass p x replies → FunctionsPass p x replies → TakenIsAllowed p x }
{}

/// Where the symbols of the preamble mean pairs of trees, their parts and what is wrapped, the constructors of parts and of what is
/// unwrapped keep the value of the term that they stand for.
pub fn snapshots_keep_values()
    ensures { (n : ℕ) (i : Interpretation) → MeansTrees i → SnapshotsKeepValues n i }
{}

/// The law at work: a method that relies on a function's postcondition never fails, and neither does the function.
pub fn a_method_that_relies_on_a_function_never_fails()
    ensures typed { IsTypedProgram counts }
    ensures method { Fails counts m (IsMethod relies) → ⊥ }
    ensures function { Fails counts next (IsFunction adder) → ⊥ }
{}

/// A function that applies another one, which reads what is within an instance, never fails: its walk and the two that it rests on
/// pass with no question.
pub fn twice_never_fails()
    ensures { Fails boxes twice (IsFunction doubler) → ⊥ }
{}

/// A function that applies itself with a lesser measure never fails; its one question is whether the measure is less, and an unsat
/// is right for it.
pub fn a_function_that_applies_itself_never_fails()
    ensures typed { IsTypedProgram descends }
    ensures never { Fails descends down (IsFunction descender) → ⊥ }
{}

/// A function whose precondition applies a function never fails: `part(x)` asks for x.g where `kind(x)` is 0. Its walk and that of
/// `kind` pass with no question.
pub fn a_function_whose_precondition_applies_one_never_fails()
    ensures typed { IsTypedProgram tagged }
    ensures never { Fails tagged part (IsFunction parts) → ⊥ }
{}

/// A function that relies on its precondition's condition never fails: `payload(x)` asks for x.g where `kind(x)` is 0, and reads it
/// where `kind(x)` is 0. Its one question is whether the one can be false and the other true, and an unsat is right for it, since
/// both are of one symbol, at snapshots that are equal.
pub fn a_function_that_relies_on_its_condition_never_fails()
    ensures typed { IsTypedProgram (tags payload payloads) }
    ensures never { Fails (tags payload payloads) payload (IsFunction payloads) → ⊥ }
{}

/// In a typed program where the walks of predicates passed, the symbol of a function means one element at most, at an asking
/// tree of its precondition and at its arguments: so an interpretation that knows some applications can know one more.
pub fn symbols_mean_one()
    ensures { (p : Program) (x : Name) (replies : Name → List Reply) → IsTypedProgram p → PredicatesPass p x replies → SymbolsMeanOne p x }
{}

/// In a typed program each application that is allowed firmly keeps its promise: the postcondition fits firmly and is true, where just
/// the precondition is held and `result` is the value.
pub fn promises_are_kept()
    ensures { (p : Program) (x : Name) → IsTypedProgram p → PromisesKept p x }
{}

/// Where the precondition of a function can be taken, the function starts only if its walk passed: `eager(x)` asks for `x.f == 0` and then for acc(x.f), which can be taken where x.f is held; but from
/// nothing its precondition is never given.
pub fn what_does_not_pass_need_not_start()
    ensures typed { IsTypedProgram eagers }
    ensures never { (s : State) → FunctionStarts eagers reader s → ⊥ }
    ensures refuted { TakenIsAllowed eagers eager → ⊥ }
{}

/// In a typed program going down from application to application ends, in one heap: to functions that don't lead back, or within a group
/// to lesser measures. The groups are those that the rules decide.
pub fn measures_end()
    ensures ends { (p : Program) → IsTypedProgram p → MeasuresEnd p }
    ensures groups { (p : Program) → GroupsAgree p }
{}

/// In a typed program what a precondition applies is below its function, since it doesn't lead back: so an induction over applications has
/// shown what it keeps before the function starts.
pub fn preconditions_ask_below()
    ensures { (p : Program) → IsTypedProgram p → PreconditionsAskBelow p }
{}

//! An application: after its arguments its precondition is taken, and after that it is measured.

ghost use Rattle.std.specs.Prelude.{◌≡◌, IfOk, string_bytes, true};
ghost use Rattle.vx_ast.specs.Syntax.{joined as joined_of};
ghost use Rattle.vx_heap.specs.Views.{heap as heap_of, held_term};
ghost use Rattle.vx_resolved.specs.Resolved.{function as function_of};
ghost use Rattle.vx_resolved.specs.Settled.{settled};
ghost use Rattle.vx_rules.specs.Members.{rules};
ghost use Rattle.vx_rules.specs.Rules as rule;
ghost use Rattle.vx_rules.specs.Rules.{back, consume, entered};
ghost use Rattle.vx_rules.specs.States.{State, after_name, bind, name_of, with_heap};
ghost use Rattle.vx_rules.specs.Trees as tree;
ghost use Rattle.vx_rules.specs.Trees.{FunctionCode};
ghost use Rattle.vx_stack.specs.Stack.{giving, going, measuring, operand as operand_of, Stepped};
ghost use Rattle.vx_stack.specs.Values.{values as values_of};
ghost use Rattle.vx_states.specs.Entering.{back_to};
ghost use Rattle.vx_states.specs.SymStates.{state as state_of};
ghost use Rattle.vx_terms.specs.Build.{whole_amount};

use crate::measure::{Inside, go_inside, step_measuring};
use std::alloc::{AllocError, Global};
use std::rc::Rc;
use vx_ast::Place;
use vx_heap::SymHeap;
use vx_resolved::Settled;
use vx_rules::Code;
use vx_stack::{
    Application, Applied, Codes, Conts, Hole, Move, Next, Operand, Values, precondition,
};
use vx_states::{Caller, SymState};
use vx_terms::Term;

/// Consuming a function's precondition, after which its application goes on.
fn taking_precondition(
    alloc: Global,
    program: &Settled,
    x: &Rc<Application>,
    caller: Rc<Caller>,
    heap: Rc<SymHeap>,
    hole: &Rc<Hole>,
) -> Result<Next, AllocError>
    ensures { IfOk result (λ n. going (settled program.now) n
        ≡ (λ s. consume (settled program.now) (rules (settled program.now))
        (joined_of (function_of x.now.value.function.value).place (function_of x.now.value.function.value).requires)
        (record { pure = FunctionCode; permission = FunctionCode; builds = true }) whole_amount s.heap s
        (operand_of (settled program.now) (Operand.Applied x.now caller heap) (giving (settled program.now) hole.now.value)))) }
{
    let _program = program;
    let all = precondition(alloc, &x.function)?;
    let applied = Operand::Applied(x.clone()?, caller, heap);
    let hole = Rc::new(alloc, Hole::Operand(applied, hole.clone()?))?;
    let codes = Codes {
        pure: Code::Function,
        permission: Code::Function,
        builds: true,
    };
    let whole = vx_heap::whole(alloc)?;
    Ok(Next::Consume(all, codes, whole, hole))
}

/// The precondition is taken, in the function's part.
fn step_taking(
    alloc: Global,
    program: &Settled,
    x: &Rc<Application>,
    hole: &Rc<Hole>,
    state: SymState,
    conts: &mut Conts,
) -> Result<Move, AllocError>
    ensures { IfOk result (λ m. Stepped (settled program.now)
        (tree.Step ((rules (settled program.now)).consume (joined_of (function_of x.now.value.function.value).place
        (function_of x.now.value.function.value).requires) (record { pure = FunctionCode; permission = FunctionCode; builds = true }) whole_amount
        (state_of state).heap (entered (bind (function_of x.now.value.function.value).parameters (values_of x.now.value.arguments.value)) x.now.value.place
        (state_of state)) (λ t s. measuring (settled program.now) x.now.value (name_of t (with_heap (state_of state).heap (back (state_of state) s)))
        (giving (settled program.now) hole.now.value) (after_name t (with_heap (state_of state).heap (back (state_of state) s)))))) conts.old.sides.items m
        conts.new.sides.items) }
{
    program.keeps_apart();
    vx_depth::rules_read_parts_by_themselves();
    let heap = state.heap.clone()?;
    let inside = go_inside(alloc, x, state)?;
    let Inside { caller, state } = inside;
    let take = taking_precondition(alloc, program, x, caller, heap, hole)?;
    conts.next(alloc, program, take, state)
}

/// An application, after its arguments: the precondition of its function is taken.
pub fn step_apply(
    alloc: Global,
    program: &Settled,
    place: Place,
    name: &Rc<String>,
    arguments: &Rc<Values>,
    hole: &Rc<Hole>,
    state: SymState,
    conts: &mut Conts,
) -> Result<Move, AllocError>
    ensures { IfOk result (λ m. Stepped (settled program.now)
        (rule.applied (settled program.now) (rules (settled program.now)) (rule.placed (state_of state) place) (string_bytes name.now.value)
        (values_of arguments.now.value) (state_of state) (giving (settled program.now) hole.now.value)) conts.old.sides.items m conts.new.sides.items) }
{
    let place = state.placed(place);
    match program.function(name)? {
        None => conts.never(alloc, program, place, Code::Function, state),
        Some(function) => {
            let application = Application {
                place,
                name: name.clone()?,
                function,
                arguments: arguments.clone()?,
            };
            let application = Rc::new(alloc, application)?;
            step_taking(alloc, program, &application, hole, state, conts)
        }
    }
}

/// The precondition was taken: back from it, its snapshot gets a name, and the application is measured.
pub fn step_applied(
    alloc: Global,
    program: &Settled,
    snapshot: Rc<Term>,
    x: &Rc<Application>,
    caller: &Caller,
    heap: &Rc<SymHeap>,
    hole: &Rc<Hole>,
    state: SymState,
    conts: &mut Conts,
) -> Result<Move, AllocError>
    ensures { IfOk result (λ m. Stepped (settled program.now)
        (measuring (settled program.now) x.now.value (name_of (held_term snapshot) (with_heap (heap_of heap.now.value) (back_to caller.now (state_of state))))
        (giving (settled program.now) hole.now.value) (after_name (held_term snapshot)
        (with_heap (heap_of heap.now.value) (back_to caller.now (state_of state))))) conts.old.sides.items m conts.new.sides.items) }
{
    let mut state = state;
    state.back(alloc, caller)?;
    let _taken = state.exchange_heap(heap.clone()?);
    let snapshot = state.name(alloc, snapshot)?;
    let applied = Applied {
        application: x.clone()?,
        snapshot,
    };
    let applied = Rc::new(alloc, applied)?;
    step_measuring(alloc, program, &applied, hole, state, conts)
}

//! The steps of a call.

ghost use Rattle.std.specs.Prelude.{◌≡◌, IfOk, drop};
ghost use Rattle.vx_ast.specs.Syntax.{joined as joined_of};
ghost use Rattle.vx_heap.specs.Views.{heap as heap_of, terms_of};
ghost use Rattle.vx_resolved.specs.Resolved.{assertion, method as method_of, names_of};
ghost use Rattle.vx_resolved.specs.Settled.{settled};
ghost use Rattle.vx_rules.specs.Members as rule;
ghost use Rattle.vx_rules.specs.Members.{rules};
ghost use Rattle.vx_rules.specs.Rules.{back, consume, entered};
ghost use Rattle.vx_rules.specs.States.{State, bind, declare_all, terms_in};
ghost use Rattle.vx_rules.specs.Trees as tree;
ghost use Rattle.vx_rules.specs.Trees.{CallCode};
ghost use Rattle.vx_stack.specs.Stack.{executed as executed_of, giving_all, going, promised, returned, Stepped};
ghost use Rattle.vx_stack.specs.Values.{values};
ghost use Rattle.vx_states.specs.Entering.{back_to};
ghost use Rattle.vx_states.specs.SymStates.{state as state_of};
ghost use Rattle.vx_terms.specs.Build.{whole_amount};
ghost use Rattle.vx_terms.specs.Views.{term};

use std::alloc::{AllocError, Global};
use std::rc::Rc;
use vx_ast::Place;
use vx_resolved::{Assertion, Method, Settled};
use vx_rules::Code;
use vx_stack::{
    Called, Codes, Conts, Executed, Frame, Hole, Move, Next, Production, Return, Row, Values,
    joined,
};
use vx_states::SymState;
use vx_terms::Term;

/// What a call has again when its precondition is taken.
fn called_from(
    alloc: Global,
    method: &Rc<Method>,
    count: usize,
    targets: &Rc<Vec<Rc<String>>>,
    state: &SymState,
) -> Result<Rc<Called>, AllocError>
    ensures method { IfOk result (λ c. method_of c.value.method.value ≡ method_of method.now.value) }
    ensures count { IfOk result (λ c. c.value.count ≡ count) }
    ensures targets { IfOk result (λ c. names_of c.value.targets.value.items ≡ names_of targets.now.value.items) }
    ensures caller { IfOk result (λ c. (s : State) → back_to c.value.caller.value s ≡ back (state_of state.now) s) }
    ensures heap { IfOk result (λ c. heap_of c.value.heap.value ≡ (state_of state.now).heap) }
    ensures before { IfOk result (λ c. heap_of c.value.old_heap.value ≡ (state_of state.now).old) }
{
    let caller = state.caller(alloc)?;
    let caller = Rc::new(alloc, caller)?;
    let called = Called {
        method: method.clone()?,
        count,
        targets: targets.clone()?,
        caller,
        heap: state.heap.clone()?,
        old_heap: state.old_heap.clone()?,
    };
    Ok(Rc::new(alloc, called)?)
}

/// A method's preconditions, joined.
fn precondition(alloc: Global, m: &Method) -> Result<Rc<Assertion>, AllocError>
    ensures { IfOk result (λ a. assertion a.value ≡ joined_of (method_of m.now).place (method_of m.now).requires) }
{
    joined(alloc, m.place, &m.preconditions)
}

/// A method's postconditions, joined.
pub fn postcondition(alloc: Global, m: &Method) -> Result<Rc<Assertion>, AllocError>
    ensures { IfOk result (λ a. assertion a.value ≡ joined_of (method_of m.now).place (method_of m.now).ensures) }
{
    joined(alloc, m.place, &m.postconditions)
}

/// Consuming a callee's precondition.
fn taking_precondition(
    alloc: Global,
    program: &Settled,
    method: &Rc<Method>,
    called: Rc<Called>,
    next: &Rc<Next>,
) -> Result<Next, AllocError>
    ensures { IfOk result (λ n. going (settled program.now) n
        ≡ (λ s. consume (settled program.now) (rules (settled program.now)) (joined_of (method_of method.now.value).place (method_of method.now.value).requires)
        (rule.codes CallCode CallCode) whole_amount s.heap s (executed_of (settled program.now) (Executed.Called called)
        (going (settled program.now) next.now.value)))) }
{
    let _program = program;
    let hole = Rc::new(
        alloc,
        Hole::Executed(Executed::Called(called), next.clone()?),
    )?;
    let all = precondition(alloc, method)?;
    let codes = Codes {
        pure: Code::Call,
        permission: Code::Call,
        builds: false,
    };
    let whole = vx_heap::whole(alloc)?;
    Ok(Next::Consume(all, codes, whole, hole))
}

/// In a callee, whose parameters have these values, brought in by the call's place.
fn in_callee(
    alloc: Global,
    method: &Method,
    arguments: &[Rc<Term>],
    place: Place,
    state: SymState,
) -> Result<SymState, AllocError>
    ensures { IfOk result (λ s. state_of s ≡ entered (bind (method_of method.now).parameters (terms_of arguments.now)) place (state_of state)) }
{
    let mut state = state;
    state.enter(alloc, &method.parameters, arguments, place)?;
    Ok(state)
}

/// A call whose arguments are named: the precondition is taken, over the parameters with these names.
fn step_named(
    alloc: Global,
    program: &Settled,
    place: Place,
    method: &Rc<Method>,
    names: &[Rc<Term>],
    targets: &Rc<Vec<Rc<String>>>,
    next: &Rc<Next>,
    state: SymState,
    conts: &mut Conts,
) -> Result<Move, AllocError>
    ensures { IfOk result (λ m. Stepped (settled program.now)
        (rule.called (settled program.now) (rules (settled program.now)) place (method_of method.now.value) (terms_of names.now)
        (names_of targets.now.value.items) (state_of state) (going (settled program.now) next.now.value)) conts.old.sides.items m conts.new.sides.items) }
{
    program.keeps_apart();
    vx_depth::rules_read_parts_by_themselves();
    let called = called_from(alloc, method, names.len(), targets, &state)?;
    let take = taking_precondition(alloc, program, method, called, next)?;
    let state = in_callee(alloc, method, names, place, state)?;
    conts.next(alloc, program, take, state)
}

/// A call whose arguments are evaluated: they are named in order.
pub fn step_call(
    alloc: Global,
    program: &Settled,
    place: Place,
    targets: &Rc<Vec<Rc<String>>>,
    name: &Rc<String>,
    arguments: &Values,
    next: &Rc<Next>,
    state: SymState,
    conts: &mut Conts,
) -> Result<Move, AllocError>
    ensures { IfOk result (λ m. Stepped (settled program.now)
        (giving_all (settled program.now) (Row.Call place targets.now name.now next.now) (values arguments.now) (state_of state)) conts.old.sides.items m
        conts.new.sides.items) }
{
    let Some(method) = program.method(name)? else {
        return conts.never(alloc, program, place, Code::Call, state);
    };
    let arguments = arguments.to_vec(alloc)?;
    let mut state = state;
    let names = state.name_all(alloc, &arguments)?;
    step_named(
        alloc, program, place, &method, &names, targets, next, state, conts,
    )
}

/// In a callee whose precondition was taken: `old` is the heap before the call, and the returns are new.
pub fn at_returns(alloc: Global, called: &Called, state: SymState) -> Result<SymState, AllocError>
    ensures { IfOk result (λ s. state_of s ≡ declare_all (method_of called.now.method.value).returns (record (state_of state) { old = heap_of called.now.heap.value })) }
{
    let mut state = state;
    state.old_heap = called.heap.clone()?;
    state.declare_all(alloc, &called.method.returns)?;
    Ok(state)
}

/// The way back from a callee, whose returns go to the targets of the call.
pub fn way_back(
    alloc: Global,
    program: &Settled,
    called: &Called,
    inside: &SymState,
    next: &Rc<Next>,
) -> Result<Rc<Next>, AllocError>
    ensures { IfOk result (λ n. going (settled program.now) n.value
        ≡ (λ s. tree.Step (going (settled program.now) next.now.value
        (returned (names_of called.now.targets.value.items) (drop called.now.count (terms_in (state_of inside.now).store)) called.now.caller.value
        (heap_of called.now.old_heap.value) s)))) }
{
    let _program = program;
    let values = inside.values_from(alloc, called.count)?;
    let way = Return {
        targets: called.targets.clone()?,
        values,
        caller: called.caller.clone()?,
        old_heap: called.old_heap.clone()?,
    };
    let way = Rc::new(alloc, way)?;
    Ok(Rc::new(alloc, Next::Return(way, next.clone()?))?)
}

/// Back from a callee: the targets get the values of its returns, and the old heap is that of before.
pub fn step_return(
    alloc: Global,
    program: &Settled,
    way: &Return,
    next: &Rc<Next>,
    state: SymState,
    conts: &mut Conts,
) -> Result<Move, AllocError>
    ensures { IfOk result (λ m. Stepped (settled program.now)
        (tree.Step (going (settled program.now) next.now.value
        (returned (names_of way.now.targets.value.items) (terms_of way.now.values.items) way.now.caller.value (heap_of way.now.old_heap.value)
        (state_of state)))) conts.old.sides.items m conts.new.sides.items) }
{
    let mut state = state;
    state.back(alloc, &way.caller)?;
    state.old_heap = way.old_heap.clone()?;
    state.assign_all(&way.targets, &way.values)?;
    conts.go(program, Frame::Go(next.clone()?), state)
}

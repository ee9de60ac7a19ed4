//! The measure of an application within the group of the function that is verified.

ghost use Rattle.std.specs.Prelude.{◌≡◌, IfOk, Some, option_map, string_bytes};
ghost use Rattle.vx_ast.specs.Syntax.{Program};
ghost use Rattle.vx_funcs.specs.Measures.{asked, decreasing_by};
ghost use Rattle.vx_heap.specs.Views.{held_term};
ghost use Rattle.vx_resolved.specs.Resolved.{expr, exprs, function as function_of, measure as measure_of};
ghost use Rattle.vx_resolved.specs.Settled.{settled};
ghost use Rattle.vx_rules.specs.Members.{rules};
ghost use Rattle.vx_rules.specs.Rules as rule;
ghost use Rattle.vx_rules.specs.Rules.{entered, lesser};
ghost use Rattle.vx_rules.specs.States.{State, bind};
ghost use Rattle.vx_rules.specs.Trees as tree;
ghost use Rattle.vx_rules.specs.Trees.{MeasureCode};
ghost use Rattle.vx_stack.specs.Stack.{giving, measured_by, measuring, told, Stepped};
ghost use Rattle.vx_stack.specs.Values.{values as values_of};
ghost use Rattle.vx_states.specs.Entering.{back_to};
ghost use Rattle.vx_states.specs.SymStates.{optional_term, own as own_of, state as state_of};

use std::alloc::{AllocError, Global};
use std::rc::Rc;
use vx_resolved::{Expr, Exprs, Measure, Settled};
use vx_rules::Code;
use vx_stack::{Application, Applied, Conts, Frame, Hole, Move, Next, Operand, Row};
use vx_states::{Caller, Own, SymState};
use vx_terms::{Term, make, numbers};

/// What an application is measured against, where it is within the group and the state asks.
fn measured_against(
    program: &Settled,
    x: &Application,
    state: &SymState,
) -> Result<Option<Own>, AllocError>
    ensures { IfOk result (λ o. option_map own_of o ≡ asked (settled program.now) (string_bytes x.now.name.value) (state_of state.now)) }
{
    match &state.own {
        None => Ok(None),
        Some(own) => {
            if state.is_quiet() || !program.is_in_group(&own.function, &x.name) {
                return Ok(None);
            }
            Ok(Some(own.copy()?))
        }
    }
}

/// On to what an application tells.
fn tell(
    alloc: Global,
    program: &Settled,
    x: &Rc<Applied>,
    hole: &Rc<Hole>,
    state: SymState,
    conts: &mut Conts,
) -> Result<Move, AllocError>
    ensures { IfOk result (λ m. Stepped (settled program.now)
        (tree.Step (told (settled program.now) x.now.value (giving (settled program.now) hole.now.value) (state_of state))) conts.old.sides.items m
        conts.new.sides.items) }
{
    let next = Next::Tell(x.clone()?, hole.clone()?);
    conts.next(alloc, program, next, state)
}

/// In the part of an application's function: what it goes back to, and the state there.
#[derive(Drop)]
pub(crate) struct Inside {
    pub caller: Rc<Caller>,
    pub state: SymState,
}

pub(crate) fn go_inside(
    alloc: Global,
    x: &Application,
    state: SymState,
) -> Result<Inside, AllocError>
    ensures caller { IfOk result (λ i. (s : State) → back_to i.caller.value s ≡ rule.back (state_of state) s) }
    ensures state { IfOk result (λ i. state_of i.state ≡ entered (bind (function_of x.now.function.value).parameters (values_of x.now.arguments.value)) x.now.place (state_of state)) }
{
    let caller = state.caller(alloc)?;
    let caller = Rc::new(alloc, caller)?;
    let arguments = x.arguments.to_vec(alloc)?;
    let mut state = state;
    state.enter(alloc, &x.function.parameters, &arguments, x.place)?;
    Ok(Inside { caller, state })
}

/// The measure is a number: it is evaluated in the function's part.
fn step_number(
    alloc: Global,
    program: &Settled,
    own: Own,
    x: &Rc<Applied>,
    e: &Rc<Expr>,
    hole: &Rc<Hole>,
    state: SymState,
    conts: &mut Conts,
) -> Result<Move, AllocError>
    ensures { IfOk result (λ m. Stepped (settled program.now)
        (tree.Step ((rules (settled program.now)).eval (expr e.now.value)
        (entered (bind (function_of x.now.value.application.value.function.value).parameters (values_of x.now.value.application.value.arguments.value))
        x.now.value.application.value.place (state_of state)) (λ t s.
        rule.ask (lesser (settled program.now) (rules (settled program.now)) (own_of own).measure t) x.now.value.application.value.place MeasureCode
        (rule.back (state_of state) s) (told (settled program.now) x.now.value (giving (settled program.now) hole.now.value))))) conts.old.sides.items m
        conts.new.sides.items) }
{
    program.keeps_apart();
    vx_depth::rules_read_parts_by_themselves();
    let inside = go_inside(alloc, &x.application, state)?;
    let Inside { caller, state } = inside;
    let measured = Operand::Measured(x.clone()?, own.measure, caller);
    let hole = Hole::Operand(measured, hole.clone()?);
    conts.eval(alloc, program, e, hole, state)
}

/// The measure is an instance: its arguments are evaluated in the function's part.
fn step_instance(
    alloc: Global,
    program: &Settled,
    x: &Rc<Applied>,
    predicate: &Rc<String>,
    es: &Rc<Exprs>,
    hole: &Rc<Hole>,
    state: SymState,
    conts: &mut Conts,
) -> Result<Move, AllocError>
    ensures { IfOk result (λ m. Stepped (settled program.now)
        (tree.Step ((rules (settled program.now)).evals (exprs es.now.value)
        (entered (bind (function_of x.now.value.application.value.function.value).parameters (values_of x.now.value.application.value.arguments.value))
        x.now.value.application.value.place (state_of state)) (λ ts s. measured_by (settled program.now) x.now.value (string_bytes predicate.now.value) ts
        (rule.back (state_of state) s) (giving (settled program.now) hole.now.value)))) conts.old.sides.items m conts.new.sides.items) }
{
    program.keeps_apart();
    vx_depth::rules_read_parts_by_themselves();
    let inside = go_inside(alloc, &x.application, state)?;
    let Inside { caller, state } = inside;
    let row = Row::Measured(x.clone()?, predicate.clone()?, caller, hole.clone()?);
    conts.evals(alloc, program, es, row, state)
}

/// The measure of an application that is within the group, by its kind.
fn step_kind(
    alloc: Global,
    program: &Settled,
    own: Own,
    x: &Rc<Applied>,
    m: &Measure,
    hole: &Rc<Hole>,
    state: SymState,
    conts: &mut Conts,
) -> Result<Move, AllocError>
    ensures { IfOk result (λ r. Stepped (settled program.now)
        (decreasing_by (settled program.now) (own_of own) x.now.value (Some (measure_of m.now)) (giving (settled program.now) hole.now.value) (state_of state))
        conts.old.sides.items r conts.new.sides.items) }
{
    match m {
        Measure::Number(e) => step_number(alloc, program, own, x, e, hole, state, conts),
        Measure::Instance(_place, predicate, es) => {
            step_instance(alloc, program, x, predicate, es, hole, state, conts)
        }
    }
}

/// The measure of an application that is within the group.
fn step_decreasing(
    alloc: Global,
    program: &Settled,
    own: Own,
    x: &Rc<Applied>,
    hole: &Rc<Hole>,
    state: SymState,
    conts: &mut Conts,
) -> Result<Move, AllocError>
    ensures { IfOk result (λ m. Stepped (settled program.now)
        (decreasing_by (settled program.now) (own_of own) x.now.value (function_of x.now.value.application.value.function.value).decreases
        (giving (settled program.now) hole.now.value) (state_of state)) conts.old.sides.items m conts.new.sides.items) }
{
    match &x.application.function.measure {
        None => conts.never(alloc, program, x.application.place, Code::Measure, state),
        Some(m) => step_kind(alloc, program, own, x, m, hole, state, conts),
    }
}

/// An application whose precondition was taken: it is measured, where it is within the group.
pub(crate) fn step_measuring(
    alloc: Global,
    program: &Settled,
    x: &Rc<Applied>,
    hole: &Rc<Hole>,
    state: SymState,
    conts: &mut Conts,
) -> Result<Move, AllocError>
    ensures { IfOk result (λ m. Stepped (settled program.now)
        (measuring (settled program.now) x.now.value.application.value (held_term x.now.value.snapshot) (giving (settled program.now) hole.now.value)
        (state_of state)) conts.old.sides.items m conts.new.sides.items) }
{
    match measured_against(program, &x.application, &state)? {
        None => tell(alloc, program, x, hole, state, conts),
        Some(own) => step_decreasing(alloc, program, own, x, hole, state, conts),
    }
}

/// That a measure is less than the one that it is measured against, which isn't below 0; nothing is less than none.
fn lesser_than(alloc: Global, own: &Option<Rc<Term>>, m: &Rc<Term>) -> Result<Rc<Term>, AllocError>
    ensures { IfOk result (λ t. (p : Program) → held_term t ≡ lesser p (rules p) (optional_term own.now) (held_term m.now)) }
{
    match own {
        None => make::boolean(alloc, false),
        Some(own) => {
            let zero = make::int(alloc, 0)?;
            let positive = numbers::le(alloc, &zero, own)?;
            let less = numbers::lt(alloc, m, own)?;
            make::and(alloc, &positive, &less)
        }
    }
}

/// The measure of an application has its value: back from the function's part, it is asked to be less.
pub fn step_measured(
    alloc: Global,
    program: &Settled,
    m: &Rc<Term>,
    x: &Rc<Applied>,
    own: &Option<Rc<Term>>,
    caller: &Caller,
    hole: &Rc<Hole>,
    state: SymState,
    conts: &mut Conts,
) -> Result<Move, AllocError>
    ensures { IfOk result (λ v. Stepped (settled program.now)
        (rule.ask (lesser (settled program.now) (rules (settled program.now)) (optional_term own.now) (held_term m.now)) x.now.value.application.value.place
        MeasureCode (back_to caller.now (state_of state)) (told (settled program.now) x.now.value (giving (settled program.now) hole.now.value)))
        conts.old.sides.items v conts.new.sides.items) }
{
    let mut state = state;
    state.back(alloc, caller)?;
    let condition = lesser_than(alloc, own, m)?;
    let place = x.application.place;
    let next = Rc::new(alloc, Next::Tell(x.clone()?, hole.clone()?))?;
    conts.ask(
        alloc,
        program,
        condition,
        place,
        Code::Measure,
        state,
        Frame::Go(next),
    )
}

//! What an application tells: the sides that a quiet evaluation of its function's body and postcondition leaves are gathered in
//! one go, with no question between. An application within them tells in the same way, one level up, until the levels end.

ghost use Rattle.std.specs.Prelude.{◌≡◌, ◌++◌, ◌∷◌, [], ◌<◌, IfOk, OnOk};
ghost use Rattle.vx_ast.specs.Syntax.{Program, conjoined as conjoined_of};
ghost use Rattle.vx_heap.specs.Views.{held_term, terms_of};
ghost use Rattle.vx_machine.specs.Told.{left_by, said_by, value_told, Leaves};
ghost use Rattle.vx_resolved.specs.Resolved.{expr, function as function_of};
ghost use Rattle.vx_resolved.specs.Settled.{settled};
ghost use Rattle.vx_rules.specs.Members.{rules};
ghost use Rattle.vx_rules.specs.Rules as rule;
ghost use Rattle.vx_rules.specs.Rules.{gathered, sides_of};
ghost use Rattle.vx_rules.specs.States.{bind, with_facts};
ghost use Rattle.vx_rules.specs.Trees.{leaves};
ghost use Rattle.vx_stack.specs.Stack.{giving, side_tree, told, Stepped};
ghost use Rattle.vx_stack.specs.Values.{values as values_of};
ghost use Rattle.vx_states.specs.SymStates.{state as state_of};
ghost use Rattle.vx_terms.specs.Views.{terms as terms_view};

use crate::ready::{Ready, come_back};
use std::alloc::{AllocError, Global};
use std::rc::Rc;
use vx_resolved::{Expr, Function, Settled};
use vx_stack::{
    Applied, Conts, Frame, Hole, Left, Move, Next, Production, Side, Values, conjoined,
    precondition,
};
use vx_states::{SymState, sort_of_value};
use vx_steps::step;
use vx_terms::{Term, Terms, numbers, snapshots};

/// So many levels lie above that of a question: on the last one an application tells nothing.
pub(crate) const LEVELS: u8 = 3;

/// What is said of a value that is left.
#[derive(Drop)]
enum Said {
    /// That it is this one.
    Equals(Rc<Term>),
    /// That it is true.
    Itself,
}

fn says(alloc: Global, said: &Said, value: &Rc<Term>) -> Result<Rc<Term>, AllocError>
    ensures { IfOk result (λ t. held_term t ≡ said_by said.now (held_term value.now)) }
{
    match said {
        Said::Equals(t) => numbers::eq(alloc, t, value),
        Said::Itself => value.clone(),
    }
}

/// The fact of a side that was left.
fn fact(alloc: Global, before: &SymState, said: &Said, left: &Left) -> Result<Rc<Term>, AllocError>
    ensures { IfOk result (λ t. held_term t ∷ [] ≡ gathered (state_of before.now) (said_by said.now)
        (record { value = held_term left.now.value; state = state_of left.now.state } ∷ [])) }
{
    let said = says(alloc, said, &left.value)?;
    vx_states::gathered(alloc, before, &left.state, &said)
}

/// One fact more, where a step leaves a side.
fn note(
    alloc: Global,
    before: &SymState,
    said: &Said,
    moved: Move,
    facts: &mut Vec<Rc<Term>>,
) -> Result<(), AllocError>
    ensures { OnOk result (terms_of facts.new.items ≡ terms_of facts.old.items ++ gathered (state_of before.now) (said_by said.now) (left_by moved)) }
{
    match moved {
        Move::Leave(left) => {
            facts.push(fact(alloc, before, said, &left)?)?;
            Ok(())
        }
        Move::End => Ok(()),
        Move::Go => Ok(()),
        Move::Fork => Ok(()),
        Move::Check(_query) => Ok(()),
    }
}

/// The values as a list of terms.
fn terms_from(alloc: Global, values: &Values) -> Result<Rc<Terms>, AllocError>
    ensures { IfOk result (λ ts. terms_view ts.value ≡ rule.terms (values_of values.now)) }
{
    match values {
        Values::None => Ok(Rc::new(alloc, Terms::None)?),
        Values::More(first, rest) => {
            let rest = terms_from(alloc, rest)?;
            Ok(Rc::new(alloc, Terms::More(first.clone()?, rest))?)
        }
    }
}

/// The value of an application.
fn value_of(alloc: Global, program: &Settled, x: &Applied) -> Result<Rc<Term>, AllocError>
    ensures { IfOk result (λ t. held_term t ≡ value_told (settled program.now) x.now) }
{
    let application = &x.application;
    let number = program.function_number(&application.name);
    let of = sort_of_value(application.function.of);
    let arguments = terms_from(alloc, &application.arguments)?;
    snapshots::application(alloc, number, of, &x.snapshot, &arguments)
}

/// The side of an expression of a function, behind its precondition with a snapshot.
fn quiet_side(
    alloc: Global,
    program: &Settled,
    x: &Applied,
    e: &Rc<Expr>,
    start: SymState,
) -> Result<Side, AllocError>
    ensures { IfOk result (λ side. leaves (side_tree (settled program.now) side)
        ≡ sides_of (settled program.now) (rules (settled program.now)) (function_of x.now.application.value.function.value) (expr e.now.value)
        (held_term x.now.snapshot) (state_of start)) }
{
    program.keeps_apart();
    vx_depth::rules_read_parts_by_themselves();
    let all = precondition(alloc, &x.application.function)?;
    let scale = vx_heap::whole(alloc)?;
    let snapshot = x.snapshot.clone()?;
    let production = Production {
        scale,
        snapshot: Some(snapshot),
    };
    let production = Rc::new(alloc, production)?;
    let leave = Rc::new(alloc, Hole::Leave)?;
    let behind = Rc::new(alloc, Next::Eval(e.clone()?, leave))?;
    let next = Rc::new(alloc, Next::Produce(all, production, behind))?;
    Ok(Side {
        frame: Frame::Go(next),
        state: start,
    })
}

/// The facts of all sides that a side leaves.
#[cycle(telling)]
fn gather(
    alloc: Global,
    program: &Settled,
    start: Side,
    before: &SymState,
    said: &Said,
    levels: u8,
) -> Result<Vec<Rc<Term>>, AllocError>
    ensures { IfOk result (λ facts. terms_of facts.items ≡ gathered (state_of before.now) (said_by said.now) (leaves (side_tree (settled program.now) start))) }
{
    let mut conts = Conts::new(alloc);
    conts.sides.push(start)?;
    let mut facts = Vec::new(alloc);
    while let Some(side) = conts.sides.pop() {
        let moved = step_quietly(alloc, program, side, levels, &mut conts)?;
        note(alloc, before, said, moved, &mut facts)?;
    }
    Ok(facts)
}

/// A step of a side, whatever is asked: of what is asked both answers are followed.
#[cycle(telling)]
fn step_quietly(
    alloc: Global,
    program: &Settled,
    side: Side,
    levels: u8,
    conts: &mut Conts,
) -> Result<Move, AllocError>
    ensures { IfOk result (λ m. Leaves (settled program.now) (side_tree (settled program.now) side) conts.old.sides.items m conts.new.sides.items) }
{
    match come_back(alloc, side)? {
        Ready::Over => Ok(Move::End),
        Ready::Telling(x, hole, state) => { tell(alloc, program, &x, &hole, state, levels, conts) }
        Ready::Plain(frame, state) => step(alloc, program, &frame, state, conts),
    }
}

/// An application tells what it has to tell, and gives its value.
#[cycle(telling)]
pub(crate) fn tell(
    alloc: Global,
    program: &Settled,
    x: &Rc<Applied>,
    hole: &Rc<Hole>,
    state: SymState,
    levels: u8,
    conts: &mut Conts,
) -> Result<Move, AllocError>
    ensures { IfOk result (λ m. Stepped (settled program.now)
        (told (settled program.now) x.now.value (giving (settled program.now) hole.now.value) (state_of state)) conts.old.sides.items m conts.new.sides.items) }
{
    let value = value_of(alloc, program, x)?;
    let state = with_equations(alloc, program, x, &value, state, levels)?;
    conts.give(program, value, hole, state)
}

/// A state with what an application tells. Each level is opened by the one below it, so that there are always enough levels
/// where one tells.
#[cycle(telling)]
fn with_equations(
    alloc: Global,
    program: &Settled,
    x: &Applied,
    value: &Rc<Term>,
    state: SymState,
    levels: u8,
) -> Result<SymState, AllocError>
    ensures { IfOk result (λ s. state_of s ≡ rule.with_equations (settled program.now) (rules (settled program.now))
        (function_of x.now.application.value.function.value) (values_of x.now.application.value.arguments.value) (held_term x.now.snapshot)
        (held_term value.now) (state_of state)) }
{
    if state.level >= LEVELS {
        return Ok(state);
    }
    if levels == 0 {
        return Err(AllocError);
    }
    let state = with_body(alloc, program, x, value, state, levels - 1)?;
    with_promise(alloc, program, x, value, state, levels - 1)
}

/// The state in which an application's function is evaluated quietly.
fn quiet_start(alloc: Global, x: &Applied, from: &SymState) -> Result<SymState, AllocError>
    requires { (state_of from.now).level < 3 }
    ensures { IfOk result (λ s. (p : Program) (o : rule.Outer)
        → state_of s ≡ rule.quietly p o (bind (function_of x.now.application.value.function.value).parameters
        (values_of x.now.application.value.arguments.value)) (state_of from.now)) }
{
    let application = &x.application;
    let arguments = application.arguments.to_vec(alloc)?;
    vx_states::quiet(alloc, from, &application.function.parameters, &arguments)
}

/// A function's postconditions, joined.
fn promise(alloc: Global, g: &Function) -> Result<Rc<Expr>, AllocError>
    ensures { IfOk result (λ e. expr e.value ≡ conjoined_of (function_of g.now).place (function_of g.now).ensures) }
{
    conjoined(alloc, g.place, &g.postconditions)
}

/// A state with what a function's body tells.
#[cycle(telling)]
fn with_body(
    alloc: Global,
    program: &Settled,
    x: &Applied,
    value: &Rc<Term>,
    state: SymState,
    levels: u8,
) -> Result<SymState, AllocError>
    requires { (state_of state).level < 3 }
    ensures { IfOk result (λ s. state_of s ≡ rule.with_body (settled program.now) (rules (settled program.now))
        (function_of x.now.application.value.function.value) (values_of x.now.application.value.arguments.value) (held_term x.now.snapshot)
        (held_term value.now) (state_of state)) }
{
    let start = quiet_start(alloc, x, &state)?;
    let said = Said::Equals(value.clone()?);
    let body = &x.application.function.body;
    with_sides(alloc, program, x, body, start, &said, state, levels)
}

/// A state with what a function's postcondition tells.
#[cycle(telling)]
fn with_promise(
    alloc: Global,
    program: &Settled,
    x: &Applied,
    value: &Rc<Term>,
    state: SymState,
    levels: u8,
) -> Result<SymState, AllocError>
    requires { (state_of state).level < 3 }
    ensures { IfOk result (λ s. state_of s ≡ rule.with_promise (settled program.now) (rules (settled program.now))
        (function_of x.now.application.value.function.value) (values_of x.now.application.value.arguments.value) (held_term x.now.snapshot)
        (held_term value.now) (state_of state)) }
{
    let mut start = quiet_start(alloc, x, &state)?;
    vx_states::bind_outcome(alloc, &mut start, value.clone()?)?;
    let promise = promise(alloc, &x.application.function)?;
    let said = Said::Itself;
    with_sides(alloc, program, x, &promise, start, &said, state, levels)
}

/// A state with the facts of the sides of an expression of a function.
#[cycle(telling)]
fn with_sides(
    alloc: Global,
    program: &Settled,
    x: &Applied,
    e: &Rc<Expr>,
    start: SymState,
    said: &Said,
    state: SymState,
    levels: u8,
) -> Result<SymState, AllocError>
    ensures { IfOk result (λ s. state_of s ≡ with_facts (gathered (state_of start) (said_by said.now)
        (sides_of (settled program.now) (rules (settled program.now)) (function_of x.now.application.value.function.value) (expr e.now.value)
        (held_term x.now.snapshot) (state_of start))) (state_of state)) }
{
    let before = start.copy(alloc)?;
    let side = quiet_side(alloc, program, x, e, start)?;
    let facts = gather(alloc, program, side, &before, said, levels)?;
    let mut state = state;
    state.add_facts(alloc, facts)?;
    Ok(state)
}

//! One step of a side, by what it does next.

ghost use Rattle.std.specs.Prelude.{◌≡◌, ◌∷◌, IfOk, false, true, string_bytes};
ghost use Rattle.vx_resolved.specs.Resolved.{method};
ghost use Rattle.vx_rules.specs.Members.{both_sides, rules, sides};
ghost use Rattle.vx_rules.specs.Rules.{unfolded};
ghost use Rattle.vx_rules.specs.States.{after_fresh, fresh};
ghost use Rattle.vx_rules.specs.Trees as tree;
ghost use Rattle.vx_stack.specs.Stack.{concluding, giving, giving_all, going, frame_tree, Stepped, read_over, take_over, with_taken};
ghost use Rattle.vx_stack.specs.Values.{values as values_of};
ghost use Rattle.vx_states.specs.SymStates.{state as state_of};
ghost use Rattle.vx_heap.specs.Views.{held_term};
ghost use Rattle.vx_terms.specs.Views.{sort as sort_view};
ghost use Rattle.vx_resolved.specs.Settled.{settled};
ghost use Rattle.vx_steps.specs.Steps.{is_step, is_plain};

use crate::consuming::{self, step_consumed};
use crate::evaluating::step_operand;
use crate::executing::step_executed;
use crate::producing::{self, step_produced};
use std::alloc::{AllocError, Global};
use std::rc::Rc;
use vx_ast::Place;
use vx_members::Promise;
use vx_resolved::{Method, Settled};
use vx_rules::Code;
use vx_stack::{
    Codes, Conts, Frame, Hole, Left, Location, Move, Next, Row, Taken, Values, Verified,
    as_assertion, conjoined,
};
use vx_states::SymState;
use vx_terms::{Sort, Term};

/// A step of a method whose old heap is kept.
fn step_both_sides(
    alloc: Global,
    program: &Settled,
    m: &Method,
    state: SymState,
    conts: &mut Conts,
) -> Result<Move, AllocError>
    ensures { IfOk result (λ v. Stepped (settled program.now) (both_sides (settled program.now) (rules (settled program.now)) (method m.now) (state_of state))
        conts.old.sides.items v conts.new.sides.items) }
{
    match &m.body {
        Some(body) => vx_members::step_sides(alloc, program, m, body, state, conts),
        None => {
            let Promise {
                all,
                production,
                state,
                finish,
            } = vx_members::make_promise(alloc, program, m, state)?;
            vx_produce::step(alloc, program, &all, &production, &finish, state, conts)
        }
    }
}

/// A step of a method whose precondition was produced.
fn step_method(
    alloc: Global,
    program: &Settled,
    m: &Method,
    state: SymState,
    conts: &mut Conts,
) -> Result<Move, AllocError>
    ensures { IfOk result (λ v. Stepped (settled program.now)
        (sides (settled program.now) (rules (settled program.now)) (method m.now) (state_of state)) conts.old.sides.items v conts.new.sides.items) }
{
    let mut state = state;
    state.keep_old()?;
    step_both_sides(alloc, program, m, state, conts)
}

/// The value of a function's body: its postcondition is consumed, with `result`.
fn step_outcome(
    alloc: Global,
    program: &Settled,
    value: Rc<Term>,
    v: &Verified,
    state: SymState,
    conts: &mut Conts,
) -> Result<Move, AllocError>
    ensures { IfOk result (λ m. Stepped (settled program.now) (concluding (settled program.now) v.now (held_term value) (state_of state)) conts.old.sides.items
        m conts.new.sides.items) }
{
    let mut state = state;
    vx_states::bind_outcome(alloc, &mut state, value)?;
    let all = conjoined(alloc, v.function.place, &v.function.postconditions)?;
    let all = as_assertion(alloc, &all)?;
    let codes = Codes {
        pure: Code::Postcondition,
        permission: Code::Postcondition,
        builds: false,
    };
    let whole = vx_heap::whole(alloc)?;
    let finish = Rc::new(alloc, Hole::Finish)?;
    vx_consume::step_here(alloc, program, &all, codes, &whole, &finish, state, conts)
}

/// A step of what waits for a value.
fn step_hole(
    alloc: Global,
    program: &Settled,
    value: Rc<Term>,
    hole: &Hole,
    state: SymState,
    conts: &mut Conts,
) -> Result<Move, AllocError>
    ensures { IfOk result (λ m. Stepped (settled program.now) (giving (settled program.now) hole.now (held_term value) (state_of state)) conts.old.sides.items m
        conts.new.sides.items) }
{
    match hole {
        Hole::Finish => Ok(Move::End),
        Hole::Leave => Ok(Move::Leave(Left { value, state })),
        Hole::Entry(v) => vx_funcs::step_entry(alloc, program, value, v, state, conts),
        Hole::Outcome(v) => step_outcome(alloc, program, value, v, state, conts),
        Hole::Operand(operand, hole) => {
            step_operand(alloc, program, value, operand, hole, state, conts)
        }
        Hole::Argument(rest, row) => {
            vx_eval::step_argument(alloc, program, value, rest, row, state, conts)
        }
        Hole::Consumed(consumed, hole) => {
            step_consumed(alloc, program, value, consumed, hole, state, conts)
        }
        Hole::Produced(produced, next) => step_produced(
            alloc, program, value, produced, next, state, conts,
        ),
        Hole::Executed(executed, next) => {
            step_executed(alloc, program, value, executed, next, state, conts)
        }
    }
}

/// A new value, in the place of one that was taken, goes on to what waits for it.
fn step_taken(
    alloc: Global,
    program: &Settled,
    value: Rc<Term>,
    taken: &Taken,
    state: SymState,
    conts: &mut Conts,
) -> Result<Move, AllocError>
    ensures { IfOk result (λ m. Stepped (settled program.now)
        (with_taken (settled program.now) taken.now (held_term value) false (state_of state)) conts.old.sides.items m conts.new.sides.items) }
{
    match taken {
        Taken::Value(hole) => step_hole(alloc, program, value, hole, state, conts),
        Taken::Unfold(instance, next) => vx_produce::step_body(
            alloc, program, instance, &value, false, next, state, conts,
        ),
    }
}

/// A new value of a sort goes on to what waits for one that was taken.
fn step_fresh(
    alloc: Global,
    program: &Settled,
    of: &Sort,
    taken: &Taken,
    state: SymState,
    conts: &mut Conts,
) -> Result<Move, AllocError>
    ensures { IfOk result (λ m. Stepped (settled program.now)
        (with_taken (settled program.now) taken.now (fresh (sort_view of.now) (state_of state)) false (after_fresh (state_of state))) conts.old.sides.items m
        conts.new.sides.items) }
{
    let mut state = state;
    let value = state.new_symbol(alloc, of.copy()?)?;
    step_taken(alloc, program, value, taken, state, conts)
}

/// The value of a location over all its chunks goes on to what waits for it.
fn step_read_over(
    alloc: Global,
    program: &Settled,
    field: &Rc<String>,
    receiver: &Rc<Term>,
    hole: &Hole,
    state: SymState,
    conts: &mut Conts,
) -> Result<Move, AllocError>
    ensures { IfOk result (λ m. Stepped (settled program.now)
        (read_over (settled program.now) (string_bytes field.now.value) (held_term receiver.now) (giving (settled program.now) hole.now) (state_of state))
        conts.old.sides.items m conts.new.sides.items) }
{
    let Left { value, state } = vx_sums::read_over(alloc, program, field, receiver, state)?;
    step_hole(alloc, program, value, hole, state, conts)
}

/// The value of what is taken from all chunks of a location goes on to what waits for it.
fn step_take_over(
    alloc: Global,
    program: &Settled,
    location: &Location,
    hole: &Hole,
    state: SymState,
    conts: &mut Conts,
) -> Result<Move, AllocError>
    ensures { IfOk result (λ m. Stepped (settled program.now)
        (take_over (settled program.now) (string_bytes location.now.field.value) (held_term location.now.receiver) (held_term location.now.amount)
        (giving (settled program.now) hole.now) (state_of state)) conts.old.sides.items m conts.new.sides.items) }
{
    let Left { value, state } = vx_sums::take_over(alloc, program, location, state)?;
    step_hole(alloc, program, value, hole, state, conts)
}

/// The value that stands before these goes on with them.
fn step_after(
    alloc: Global,
    program: &Settled,
    first: &Rc<Term>,
    values: Rc<Values>,
    row: &Rc<Row>,
    state: SymState,
    conts: &mut Conts,
) -> Result<Move, AllocError>
    ensures { IfOk result (λ m. Stepped (settled program.now)
        (tree.Step (giving_all (settled program.now) row.now.value (held_term first.now ∷ values_of values.value) (state_of state))) conts.old.sides.items m
        conts.new.sides.items) }
{
    let all = Rc::new(alloc, Values::More(first.clone()?, values))?;
    conts.give_all(program, all, row, state)
}

/// The arguments of an `unfold` or `unfolding` go on to its instance.
fn step_unfold(
    alloc: Global,
    program: &Settled,
    place: Place,
    predicate: &Rc<String>,
    amount: &Rc<Term>,
    arguments: &Rc<Values>,
    next: &Rc<Next>,
    state: SymState,
    conts: &mut Conts,
) -> Result<Move, AllocError>
    ensures { IfOk result (λ m. Stepped (settled program.now)
        (unfolded (settled program.now) (rules (settled program.now)) place (string_bytes predicate.now.value) (values_of arguments.now.value)
        (held_term amount.now) (state_of state) (going (settled program.now) next.now.value)) conts.old.sides.items m conts.new.sides.items) }
{
    let instance = vx_members::instance_of(alloc, place, predicate, amount, arguments)?;
    vx_probes::unfold(alloc, program, instance, next, state, conts)
}

/// A step of what waits for the values of a list of expressions.
fn step_row(
    alloc: Global,
    program: &Settled,
    values: Rc<Values>,
    row: &Row,
    state: SymState,
    conts: &mut Conts,
) -> Result<Move, AllocError>
    ensures { IfOk result (λ m. Stepped (settled program.now)
        (giving_all (settled program.now) row.now (values_of values.value) (state_of state)) conts.old.sides.items m conts.new.sides.items) }
{
    match row {
        Row::After(first, row) => step_after(alloc, program, first, values, row, state, conts),
        Row::Apply(place, function, hole) => vx_funcs::step_apply(
            alloc, program, *place, function, &values, hole, state, conts,
        ),
        Row::Produce(place, predicate, share, x, is_inner, next) => producing::step_arguments(
            alloc, program, *place, predicate, share, x, *is_inner, &values, next, state, conts,
        ),
        Row::Consume(place, predicate, share, x, heap, hole) => consuming::step_arguments(
            alloc, program, *place, predicate, share, x, heap, &values, hole, state, conts,
        ),
        Row::Unfolding(place, predicate, amount, next) => {
            let place = state.placed(*place);
            step_unfold(
                alloc, program, place, predicate, amount, &values, next, state, conts,
            )
        }
        Row::Unfold(place, predicate, amount, next) => step_unfold(
            alloc, program, *place, predicate, amount, &values, next, state, conts,
        ),
        Row::Fold(place, predicate, amount, next) => vx_members::step_fold(
            alloc, program, *place, predicate, amount, &values, next, state, conts,
        ),
        Row::Call(place, targets, method, next) => vx_members::step_call(
            alloc, program, *place, targets, method, &values, next, state, conts,
        ),
        Row::Measured(x, predicate, caller, hole) => vx_probes::step_measured_by(
            alloc, program, &values, x, predicate, caller, hole, state, conts,
        ),
        Row::Root(v, place, predicate) => vx_probes::seek_root(
            alloc, program, *place, predicate, &values, v, state, conts,
        ),
    }
}

/// A step of what waits for a state.
fn step_next(
    alloc: Global,
    program: &Settled,
    next: &Next,
    state: SymState,
    conts: &mut Conts,
) -> Result<Move, AllocError>
    requires { is_step next.now ≡ true }
    ensures { IfOk result (λ m. Stepped (settled program.now) (going (settled program.now) next.now (state_of state)) conts.old.sides.items m conts.new.sides.items) }
{
    match next {
        Next::Finish => Ok(Move::End),
        Next::Impossible => unreachable!(),
        Next::Exec(c, next) => vx_exec::step(alloc, program, c, next, state, conts),
        Next::Block(b, next) => vx_exec::step_block(alloc, program, b, next, state, conts),
        Next::Inner(b, kept, next) => {
            vx_exec::step_inner(alloc, program, b, *kept, next, state, conts)
        }
        Next::Produce(a, x, next) => vx_produce::step(alloc, program, a, x, next, state, conts),
        Next::Consume(a, codes, scale, hole) => {
            vx_consume::step_here(alloc, program, a, *codes, scale, hole, state, conts)
        }
        Next::ConsumeFrom(a, x, hole) => {
            vx_consume::step(alloc, program, a, x, hole.clone()?, state, conts)
        }
        Next::Unit(heap, hole) => vx_consume::step_unit(alloc, program, heap, hole, state, conts),
        Next::Sides(m) => step_method(alloc, program, m, state, conts),
        Next::Eval(e, hole) => vx_eval::step(alloc, program, e, hole.clone()?, state, conts),
        Next::Evals(es, row) => vx_eval::step_all(alloc, program, es, row, state, conts),
        Next::Put(location, x, is_inner, next) => vx_produce::step_put(
            alloc, program, location, x, *is_inner, next, state, conts,
        ),
        Next::Take(location, code, heap, hole) => vx_probes::take_location(
            alloc, program, location, *code, heap, hole, state, conts,
        ),
        Next::PutInstance(instance, x, is_inner, next) => vx_produce::step_put_instance(
            alloc, program, instance, x, *is_inner, next, state, conts,
        ),
        Next::TakeInstance(instance, code, heap, hole) => vx_probes::take_instance(
            alloc, program, instance, *code, heap, hole, state, conts,
        ),
        Next::ReadFrom(search, number, hole) => {
            vx_probes::read_from(alloc, program, search, *number, hole, state, conts)
        }
        Next::TakeFrom(search, number, amount, of, taken) => vx_probes::take_from(
            alloc, program, search, *number, amount, of, taken, state, conts,
        ),
        Next::ReadOver(field, receiver, hole) => {
            step_read_over(alloc, program, field, receiver, hole, state, conts)
        }
        Next::TakeOver(location, hole) => {
            step_take_over(alloc, program, location, hole, state, conts)
        }
        Next::WriteOver(_field, _receiver, _value, _next) => unreachable!(),
        Next::Fresh(of, taken) => step_fresh(alloc, program, of, taken, state, conts),
        Next::Body(instance, snapshot, is_inner, next) => vx_produce::step_body(
            alloc, program, instance, snapshot, *is_inner, next, state, conts,
        ),
        Next::Back(_caller, _next) => unreachable!(),
        Next::Return(way, next) => vx_members::step_return(alloc, program, way, next, state, conts),
        Next::MeasureFrom(search, number, x, hole) => vx_probes::measure_from(
            alloc, program, search, *number, x, hole, state, conts,
        ),
        Next::Tell(_applied, _hole) => unreachable!(),
        Next::Measure(v) => vx_funcs::step_measure(alloc, program, v, state, conts),
        Next::RootFrom(search, number, v) => {
            vx_probes::root_from(alloc, program, search, *number, v, state, conts)
        }
        Next::Run(v) => vx_funcs::step_run(alloc, program, v, state, conts),
    }
}

/// One step of a side that is no end, isn't back from a part, writes over no chunks, and tells of no application.
pub fn step(
    alloc: Global,
    program: &Settled,
    frame: &Frame,
    state: SymState,
    conts: &mut Conts,
) -> Result<Move, AllocError>
    requires { is_plain frame.now ≡ true }
    ensures { IfOk result (λ m. Stepped (settled program.now) (frame_tree (settled program.now) frame.now (state_of state)) conts.old.sides.items m conts.new.sides.items) }
{
    match frame {
        Frame::Go(next) => step_next(alloc, program, next, state, conts),
        Frame::Eval(e, hole) => vx_eval::step(alloc, program, e, hole.clone()?, state, conts),
        Frame::Give(value, hole) => step_hole(alloc, program, value.clone()?, hole, state, conts),
        Frame::GiveAll(values, row) => {
            step_row(alloc, program, values.clone()?, row, state, conts)
        }
    }
}

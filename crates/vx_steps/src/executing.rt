//! A value goes on to the statement that it is of.

ghost use Rattle.std.specs.Prelude.{◌≡◌, IfOk};
ghost use Rattle.vx_heap.specs.Views.{held_term};
ghost use Rattle.vx_resolved.specs.Settled.{settled};
ghost use Rattle.vx_stack.specs.Stack.{executed as executed_of, going, promised, Stepped};
ghost use Rattle.vx_states.specs.SymStates.{state as state_of};

use std::alloc::{AllocError, Global};
use std::rc::Rc;
use vx_members::{
    at_returns, postcondition, step_fold_amount, step_folded, step_unfold_amount, way_back,
};
use vx_resolved::Settled;
use vx_stack::{Called, Conts, Executed, Move, Next, Production};
use vx_states::SymState;
use vx_terms::Term;

/// A call whose precondition was taken: its returns are new, and its postcondition is produced.
fn step_promised(
    alloc: Global,
    program: &Settled,
    called: &Called,
    next: &Rc<Next>,
    state: SymState,
    conts: &mut Conts,
) -> Result<Move, AllocError>
    ensures { IfOk result (λ m. Stepped (settled program.now)
        (promised (settled program.now) called.now (going (settled program.now) next.now.value) (state_of state)) conts.old.sides.items m conts.new.sides.items) }
{
    program.keeps_apart();
    vx_depth::rules_read_parts_by_themselves();
    let state = at_returns(alloc, called, state)?;
    let way = way_back(alloc, program, called, &state, next)?;
    let all = postcondition(alloc, &called.method)?;
    let production = Production::as_written(alloc)?;
    vx_produce::step(alloc, program, &all, &production, &way, state, conts)
}

/// A value goes on to the statement that it is of.
pub fn step_executed(
    alloc: Global,
    program: &Settled,
    value: Rc<Term>,
    executed: &Executed,
    next: &Rc<Next>,
    state: SymState,
    conts: &mut Conts,
) -> Result<Move, AllocError>
    ensures { IfOk result (λ m. Stepped (settled program.now)
        (executed_of (settled program.now) executed.now (going (settled program.now) next.now.value) (held_term value) (state_of state)) conts.old.sides.items m
        conts.new.sides.items) }
{
    match executed {
        Executed::WriteWith(place, field, receiver) => vx_sums::write(
            alloc,
            program,
            *place,
            field,
            receiver.clone()?,
            &value,
            next,
            state,
            conts,
        ),
        Executed::Fold(place, predicate, arguments) => step_fold_amount(
            alloc, program, &value, *place, predicate, arguments, next, state, conts,
        ),
        Executed::Unfold(place, predicate, arguments) => step_unfold_amount(
            alloc, program, &value, *place, predicate, arguments, next, state, conts,
        ),
        Executed::Folded(instance, caller) => {
            step_folded(alloc, program, value, instance, caller, next, state, conts)
        }
        Executed::Called(called) => step_promised(alloc, program, called, next, state, conts),
        _ => vx_exec::step_executed(alloc, program, value, executed, next, state, conts),
    }
}

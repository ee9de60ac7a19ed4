//! What is consumed: a share is evaluated, and a value goes on to the assertion that it is of.

ghost use Rattle.std.specs.Prelude.{◌≡◌, IfOk, string_bytes};
ghost use Rattle.vx_heap.specs.Views.{heap as heap_of, held_term};
ghost use Rattle.vx_resolved.specs.Resolved.{expr};
ghost use Rattle.vx_resolved.specs.Settled.{settled};
ghost use Rattle.vx_rules.specs.Codes.{code as code_of};
ghost use Rattle.vx_rules.specs.Members.{rules};
ghost use Rattle.vx_rules.specs.Rules as rule;
ghost use Rattle.vx_rules.specs.Trees as tree;
ghost use Rattle.vx_stack.specs.Stack.{consumed as consumed_of, context, giving, Stepped, taking, taking_instance, wrapped};
ghost use Rattle.vx_stack.specs.Values.{values};
ghost use Rattle.vx_states.specs.SymStates.{state as state_of};
ghost use Rattle.vx_terms.specs.Build.{multiply};

use std::alloc::{AllocError, Global};
use std::rc::Rc;
use vx_ast::Place;
use vx_heap::SymHeap;
use vx_resolved::{Expr, Settled};
use vx_stack::{Consumed, Consumption, Conts, Hole, Move, Values};
use vx_states::SymState;
use vx_terms::Term;

/// A location's share, after its receiver.
fn step_share(
    alloc: Global,
    program: &Settled,
    receiver: Rc<Term>,
    place: Place,
    field: &Rc<String>,
    share: &Rc<Expr>,
    x: &Rc<Consumption>,
    heap: &Rc<SymHeap>,
    hole: &Rc<Hole>,
    state: SymState,
    conts: &mut Conts,
) -> Result<Move, AllocError>
    ensures { IfOk result (λ m. Stepped (settled program.now)
        (rule.eval (settled program.now) (rules (settled program.now)) (expr share.now.value) (state_of state)
        (λ a s. taking (settled program.now) place (string_bytes field.now.value) (held_term receiver) (multiply (held_term x.now.value.scale) a)
        (code_of x.now.value.codes.permission) (heap_of heap.now.value) s
        (wrapped (settled program.now) (string_bytes field.now.value) (context x.now.value.codes) (giving (settled program.now) hole.now.value))))
        conts.old.sides.items m conts.new.sides.items) }
{
    let amount = Consumed::Amount(place, field.clone()?, receiver, x.clone()?, heap.clone()?);
    let rest = Rc::new(alloc, Hole::Consumed(amount, hole.clone()?))?;
    vx_eval::step(alloc, program, share, rest, state, conts)
}

/// An instance's share, after its arguments.
pub fn step_arguments(
    alloc: Global,
    program: &Settled,
    place: Place,
    predicate: &Rc<String>,
    share: &Rc<Expr>,
    x: &Rc<Consumption>,
    heap: &Rc<SymHeap>,
    arguments: &Rc<Values>,
    hole: &Rc<Hole>,
    state: SymState,
    conts: &mut Conts,
) -> Result<Move, AllocError>
    ensures { IfOk result (λ m. Stepped (settled program.now)
        (rule.eval (settled program.now) (rules (settled program.now)) (expr share.now.value) (state_of state)
        (λ a s. taking_instance (settled program.now) place (string_bytes predicate.now.value) (values arguments.now.value)
        (multiply (held_term x.now.value.scale) a) (code_of x.now.value.codes.permission) (heap_of heap.now.value) s
        (λ v s1. tree.Step (giving (settled program.now) hole.now.value v s1)))) conts.old.sides.items m conts.new.sides.items) }
{
    let held = Consumed::Held(
        place,
        predicate.clone()?,
        arguments.clone()?,
        x.clone()?,
        heap.clone()?,
    );
    let rest = Rc::new(alloc, Hole::Consumed(held, hole.clone()?))?;
    vx_eval::step(alloc, program, share, rest, state, conts)
}

/// A value or a snapshot goes on to the assertion that it is of.
pub fn step_consumed(
    alloc: Global,
    program: &Settled,
    value: Rc<Term>,
    consumed: &Consumed,
    hole: &Rc<Hole>,
    state: SymState,
    conts: &mut Conts,
) -> Result<Move, AllocError>
    ensures { IfOk result (λ m. Stepped (settled program.now)
        (consumed_of (settled program.now) consumed.now (giving (settled program.now) hole.now.value) (held_term value) (state_of state)) conts.old.sides.items
        m conts.new.sides.items) }
{
    match consumed {
        Consumed::Share(place, field, share, x, heap) => step_share(
            alloc, program, value, *place, field, share, x, heap, hole, state, conts,
        ),
        _ => vx_consume::step_consumed(alloc, program, value, consumed, hole, state, conts),
    }
}

//! The steps of `==>` and `?:` that are produced, after their condition.

ghost use Rattle.std.specs.Prelude.{◌≡◌, IfOk};
ghost use Rattle.vx_resolved.specs.Resolved.{assertion};
ghost use Rattle.vx_resolved.specs.Settled.{settled};
ghost use Rattle.vx_rules.specs.Rules as rule;
ghost use Rattle.vx_rules.specs.States.{with_branch};
ghost use Rattle.vx_rules.specs.Trees as tree;
ghost use Rattle.vx_stack.specs.Stack.{frame_tree, going, producing, Stepped};
ghost use Rattle.vx_states.specs.SymStates.{optional_term, state as state_of};
ghost use Rattle.vx_heap.specs.Views.{held_term};

use crate::waits::on_with;
use std::alloc::{AllocError, Global};
use std::rc::Rc;
use vx_resolved::{Assertion, Settled};
use vx_stack::{Conts, Frame, Move, Next, Production};
use vx_states::SymState;
use vx_terms::{Term, make};

/// On with an assertion.
fn frame_of(
    alloc: Global,
    program: &Settled,
    a: &Rc<Assertion>,
    x: &Rc<Production>,
    next: &Rc<Next>,
) -> Result<Frame, AllocError>
    ensures { IfOk result (λ f. frame_tree (settled program.now) f
        ≡ (λ s. producing (settled program.now) (assertion a.now.value) x.now.value s (going (settled program.now) next.now.value))) }
{
    let _program = program;
    let produce = Next::Produce(a.clone()?, x.clone()?, next.clone()?);
    Ok(Frame::Go(Rc::new(alloc, produce)?))
}

/// On behind `==>`, whose right part isn't looked at: its snapshot, where there is one, is unit.
fn go_past(
    alloc: Global,
    program: &Settled,
    x: &Production,
    next: &Rc<Next>,
    state: SymState,
    conts: &mut Conts,
) -> Result<Move, AllocError>
    ensures { IfOk result (λ m. Stepped (settled program.now)
        (tree.Step (going (settled program.now) next.now.value (rule.with_unit (optional_term x.now.snapshot) (state_of state)))) conts.old.sides.items m
        conts.new.sides.items) }
{
    let mut state = state;
    state.add_unit(alloc, &x.snapshot)?;
    on_with(program, next, state, conts)
}

/// A state once more, where the condition of `==>` holds.
fn looked_at(alloc: Global, condition: Rc<Term>, state: &SymState) -> Result<SymState, AllocError>
    ensures { IfOk result (λ s. state_of s ≡ with_branch (held_term condition) (state_of state.now)) }
{
    let mut copy = state.copy(alloc)?;
    copy.add_branch(alloc, condition)?;
    Ok(copy)
}

/// A state where the condition of `==>` doesn't hold, behind it.
fn passed(
    alloc: Global,
    negated: Rc<Term>,
    x: &Production,
    state: SymState,
) -> Result<SymState, AllocError>
    ensures { IfOk result (λ s. state_of s ≡ rule.with_unit (optional_term x.now.snapshot) (with_branch (held_term negated) (state_of state))) }
{
    let mut state = state;
    state.add_branch(alloc, negated)?;
    state.add_unit(alloc, &x.snapshot)?;
    Ok(state)
}

/// Both sides of `==>`.
fn go_both(
    alloc: Global,
    program: &Settled,
    condition: Rc<Term>,
    negated: Rc<Term>,
    left: Frame,
    x: &Production,
    next: &Rc<Next>,
    state: SymState,
    conts: &mut Conts,
) -> Result<Move, AllocError>
    ensures { IfOk result (λ m. Stepped (settled program.now)
        (tree.Fork (frame_tree (settled program.now) left (with_branch (held_term condition) (state_of state)))
        (going (settled program.now) next.now.value (rule.with_unit (optional_term x.now.snapshot) (with_branch (held_term negated) (state_of state)))))
        conts.old.sides.items m conts.new.sides.items) }
{
    let first = looked_at(alloc, condition, &state)?;
    let second = passed(alloc, negated, x, state)?;
    conts.both(program, left, first, Frame::Go(next.clone()?), second)
}

/// The sides of `==>`.
pub fn step_implied(
    alloc: Global,
    program: &Settled,
    condition: Rc<Term>,
    a: &Rc<Assertion>,
    x: &Rc<Production>,
    next: &Rc<Next>,
    state: SymState,
    conts: &mut Conts,
) -> Result<Move, AllocError>
    ensures { IfOk result (λ m. Stepped (settled program.now) (rule.fork (held_term condition) (state_of state)
        (λ s. producing (settled program.now) (assertion a.now.value) x.now.value s (going (settled program.now) next.now.value))
        (λ s. going (settled program.now) next.now.value (rule.with_unit (optional_term x.now.value.snapshot) s))) conts.old.sides.items m
        conts.new.sides.items) }
{
    let left = frame_of(alloc, program, a, x, next)?;
    if state.is_known(&condition) {
        return conts.go(program, left, state);
    }
    let negated = make::not(alloc, &condition)?;
    if state.is_known(&negated) {
        return go_past(alloc, program, x, next, state, conts);
    }
    go_both(
        alloc, program, condition, negated, left, x, next, state, conts,
    )
}

/// The sides of `?:`.
pub fn step_chosen(
    alloc: Global,
    program: &Settled,
    condition: Rc<Term>,
    a: &Rc<Assertion>,
    b: &Rc<Assertion>,
    x: &Rc<Production>,
    next: &Rc<Next>,
    state: SymState,
    conts: &mut Conts,
) -> Result<Move, AllocError>
    ensures { IfOk result (λ m. Stepped (settled program.now) (rule.fork (held_term condition) (state_of state)
        (λ s. producing (settled program.now) (assertion a.now.value) x.now.value s (going (settled program.now) next.now.value))
        (λ s. producing (settled program.now) (assertion b.now.value) x.now.value s (going (settled program.now) next.now.value))) conts.old.sides.items m
        conts.new.sides.items) }
{
    let left = frame_of(alloc, program, a, x, next)?;
    let right = frame_of(alloc, program, b, x, next)?;
    conts.fork(alloc, program, condition, state, left, right)
}

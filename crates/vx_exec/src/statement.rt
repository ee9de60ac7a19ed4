//! A step of a statement or of a block.

ghost use Rattle.std.specs.Prelude.{◌≡◌, IfOk, string_bytes, true};
ghost use Rattle.vx_ast.specs.Syntax.{Program};
ghost use Rattle.vx_exec.specs.Waiting.{is_plain};
ghost use Rattle.vx_resolved.specs.Resolved.{assertion, block as block_of, stmt};
ghost use Rattle.vx_rules.specs.Members as rule;
ghost use Rattle.vx_rules.specs.Members.{rules};
ghost use Rattle.vx_rules.specs.Rules.{consume};
ghost use Rattle.vx_stack.specs.Stack.{executed as executed_of, frame_tree, giving, going, Stepped};
ghost use Rattle.vx_rules.specs.States.{declare_fresh, leave, sort_of_type, with_heap};
ghost use Rattle.vx_states.specs.SymStates.{state as state_of};
ghost use Rattle.vx_rules.specs.Trees as tree;
ghost use Rattle.vx_rules.specs.Trees.{AssertCode, PermissionCode};
ghost use Rattle.vx_terms.specs.Build.{whole_amount};
ghost use Rattle.vx_heap.specs.Views.{heap as heap_of, held_term};
ghost use Rattle.vx_resolved.specs.Settled.{settled};

use crate::fields::step_new;
use crate::loops::{step_enter, step_iterate, step_pass, step_while};
use crate::made::{eval_made, evals_made, fork_made, next_made};
use crate::waits::{
    consuming_all, hole_of, hole_of_assign, hole_of_fold, hole_of_if, hole_of_second,
    hole_of_unfold, hole_of_write, inhaling, on_with, row_of_call,
};
use std::alloc::{AllocError, Global};
use std::rc::Rc;
use vx_ast::ValueType;
use vx_heap::SymHeap;
use vx_resolved::{Assertion, Block, Settled, Stmt};
use vx_rules::Code;
use vx_stack::{Codes, Conts, Executed, Frame, Move, Next};
use vx_states::{SymState, sort_of_value};
use vx_terms::Term;

/// Consuming what is asserted or exhaled.
fn consuming(
    alloc: Global,
    program: &Settled,
    a: &Rc<Assertion>,
    after: Executed,
    next: &Rc<Next>,
) -> Result<Next, AllocError>
    ensures { IfOk result (λ n. going (settled program.now) n
        ≡ (λ s. consume (settled program.now) (rules (settled program.now)) (assertion a.now.value) (rule.codes AssertCode PermissionCode) whole_amount s.heap s
        (executed_of (settled program.now) after (going (settled program.now) next.now.value)))) }
{
    let _program = program;
    let codes = Codes {
        pure: Code::Assert,
        permission: Code::Permission,
        builds: false,
    };
    let hole = hole_of(after, next)?;
    consuming_all(alloc, a, codes, hole)
}

/// Consuming what is asserted, before its chunks are put back.
fn asserting(
    alloc: Global,
    program: &Settled,
    a: &Rc<Assertion>,
    heap: &Rc<SymHeap>,
    next: &Rc<Next>,
) -> Result<Next, AllocError>
    ensures { IfOk result (λ n. going (settled program.now) n
        ≡ (λ s. consume (settled program.now) (rules (settled program.now)) (assertion a.now.value) (rule.codes AssertCode PermissionCode) whole_amount s.heap s
        (executed_of (settled program.now) (Executed.Asserted heap.now) (going (settled program.now) next.now.value)))) }
{
    consuming(alloc, program, a, Executed::Asserted(heap.clone()?), next)
}

/// A variable is declared.
fn step_declare(
    alloc: Global,
    program: &Settled,
    x: &Rc<String>,
    of: ValueType,
    next: &Rc<Next>,
    state: SymState,
    conts: &mut Conts,
) -> Result<Move, AllocError>
    ensures { IfOk result (λ m. Stepped (settled program.now)
        (tree.Step (going (settled program.now) next.now.value (declare_fresh (string_bytes x.now.value) (sort_of_type of) (state_of state))))
        conts.old.sides.items m conts.new.sides.items) }
{
    let mut state = state;
    state.declare_fresh(alloc, x, sort_of_value(of))?;
    on_with(program, next, state, conts)
}

/// A step of a statement.
pub fn step(
    alloc: Global,
    program: &Settled,
    c: &Stmt,
    next: &Rc<Next>,
    state: SymState,
    conts: &mut Conts,
) -> Result<Move, AllocError>
    ensures { IfOk result (λ m. Stepped (settled program.now)
        (rule.exec (settled program.now) (rules (settled program.now)) (stmt c.now) (state_of state) (going (settled program.now) next.now.value))
        conts.old.sides.items m conts.new.sides.items) }
{
    match c {
        Stmt::Declare(_, x, of) => step_declare(alloc, program, x, *of, next, state, conts),
        Stmt::Assign(_, x, e) => {
            eval_made(alloc, program, e, hole_of_assign(x, next), state, conts)
        }
        Stmt::Write(place, e, field, value) => {
            let hole = hole_of_write(*place, field, value, next);
            eval_made(alloc, program, e, hole, state, conts)
        }
        Stmt::New(_, x, fields) => step_new(alloc, program, x, fields, next, state, conts),
        Stmt::Call(place, targets, method, arguments) => {
            let row = row_of_call(*place, targets, method, next);
            evals_made(alloc, program, arguments, row, state, conts)
        }
        Stmt::Inhale(_, a) => { next_made(alloc, program, inhaling(alloc, a, next), state, conts) }
        Stmt::Exhale(_, a) => {
            let consume = consuming(alloc, program, a, Executed::Exhaled, next);
            next_made(alloc, program, consume, state, conts)
        }
        Stmt::Assert(_, a) => {
            let consume = asserting(alloc, program, a, &state.heap, next);
            next_made(alloc, program, consume, state, conts)
        }
        Stmt::Assume(_, e) => {
            eval_made(
                alloc,
                program,
                e,
                hole_of(Executed::Assume, next),
                state,
                conts,
            )
        }
        Stmt::Fold(place, predicate, arguments, share) => {
            let hole = hole_of_fold(*place, predicate, arguments, next);
            eval_made(alloc, program, share, hole, state, conts)
        }
        Stmt::Unfold(place, predicate, arguments, share) => {
            let hole = hole_of_unfold(*place, predicate, arguments, next);
            eval_made(alloc, program, share, hole, state, conts)
        }
        Stmt::If(_, e, a, b) => {
            let hole = hole_of_if(a, b, state.store.len(), next);
            eval_made(alloc, program, e, hole, state, conts)
        }
        Stmt::While(place, e, invariants, body) => step_while(
            alloc, program, *place, e, invariants, body, next, state, conts,
        ),
    }
}

/// A statement, and then this.
fn first_then(alloc: Global, first: &Rc<Stmt>, rest: Next) -> Result<Next, AllocError>
    ensures { (p : Program) → IfOk result (λ n. going p n ≡ (λ s. rule.exec p (rules p) (stmt first.now.value) s (going p rest))) }
{
    let rest = Rc::new(alloc, rest)?;
    Ok(Next::Exec(first.clone()?, rest))
}

/// A block of a statement and a rest.
fn block_then(
    alloc: Global,
    first: &Rc<Stmt>,
    rest: &Rc<Block>,
    next: &Rc<Next>,
) -> Result<Next, AllocError>
    ensures { (p : Program) → IfOk result (λ n. going p n ≡ (λ s. rule.exec p (rules p) (stmt first.now.value) s
        (λ s1. rule.exec_all p (rules p) (block_of rest.now.value) s1 (going p next.now.value)))) }
{
    first_then(alloc, first, Next::Block(rest.clone()?, next.clone()?))
}

/// A block within another, of a statement and a rest.
fn inner_then(
    alloc: Global,
    first: &Rc<Stmt>,
    rest: &Rc<Block>,
    kept: usize,
    next: &Rc<Next>,
) -> Result<Next, AllocError>
    ensures { (p : Program) → IfOk result (λ n. going p n ≡ (λ s. rule.exec p (rules p) (stmt first.now.value) s
        (λ s1. rule.exec_all p (rules p) (block_of rest.now.value) s1 (λ s2. going p next.now.value (leave kept s2))))) }
{
    first_then(
        alloc,
        first,
        Next::Inner(rest.clone()?, kept, next.clone()?),
    )
}

/// A step of a block.
pub fn step_block(
    alloc: Global,
    program: &Settled,
    block: &Block,
    next: &Rc<Next>,
    state: SymState,
    conts: &mut Conts,
) -> Result<Move, AllocError>
    ensures { IfOk result (λ m. Stepped (settled program.now)
        (rule.exec_all (settled program.now) (rules (settled program.now)) (block_of block.now) (state_of state) (going (settled program.now) next.now.value))
        conts.old.sides.items m conts.new.sides.items) }
{
    match block {
        Block::Done => on_with(program, next, state, conts),
        Block::Then(first, rest) => {
            next_made(
                alloc,
                program,
                block_then(alloc, first, rest, next),
                state,
                conts,
            )
        }
    }
}

/// A step of a block within another, whose own variables are forgotten at its end.
pub fn step_inner(
    alloc: Global,
    program: &Settled,
    block: &Block,
    kept: usize,
    next: &Rc<Next>,
    state: SymState,
    conts: &mut Conts,
) -> Result<Move, AllocError>
    ensures { IfOk result (λ m. Stepped (settled program.now)
        (rule.exec_all (settled program.now) (rules (settled program.now)) (block_of block.now) (state_of state)
        (λ s. going (settled program.now) next.now.value (leave kept s))) conts.old.sides.items m conts.new.sides.items) }
{
    match block {
        Block::Done => {
            let mut state = state;
            state.leave(kept);
            on_with(program, next, state, conts)
        }
        Block::Then(first, rest) => {
            let then = inner_then(alloc, first, rest, kept, next);
            next_made(alloc, program, then, state, conts)
        }
    }
}

/// On with a block within another.
fn inner_frame(
    alloc: Global,
    program: &Settled,
    block: &Rc<Block>,
    kept: usize,
    next: &Rc<Next>,
) -> Result<Frame, AllocError>
    ensures { IfOk result (λ f. frame_tree (settled program.now) f
        ≡ (λ s. rule.exec_all (settled program.now) (rules (settled program.now)) (block_of block.now.value) s
        (λ s1. going (settled program.now) next.now.value (leave kept s1)))) }
{
    let _program = program;
    let inner = Rc::new(alloc, Next::Inner(block.clone()?, kept, next.clone()?))?;
    Ok(Frame::Go(inner))
}

/// A variable has a value.
fn step_assign(
    alloc: Global,
    program: &Settled,
    value: Rc<Term>,
    x: &Rc<String>,
    next: &Rc<Next>,
    state: SymState,
    conts: &mut Conts,
) -> Result<Move, AllocError>
    ensures { IfOk result (λ m. Stepped (settled program.now)
        (executed_of (settled program.now) (Executed.Assign x.now) (going (settled program.now) next.now.value) (held_term value) (state_of state))
        conts.old.sides.items m conts.new.sides.items) }
{
    let mut state = state;
    let name = state.name(alloc, value)?;
    state.assign(x, name);
    on_with(program, next, state, conts)
}

/// A value is assumed.
fn step_assume(
    alloc: Global,
    program: &Settled,
    value: Rc<Term>,
    next: &Rc<Next>,
    state: SymState,
    conts: &mut Conts,
) -> Result<Move, AllocError>
    ensures { IfOk result (λ m. Stepped (settled program.now)
        (executed_of (settled program.now) Executed.Assume (going (settled program.now) next.now.value) (held_term value) (state_of state))
        conts.old.sides.items m conts.new.sides.items) }
{
    let mut state = state;
    state.add_fact(alloc, value)?;
    on_with(program, next, state, conts)
}

/// The chunks of a state are put back.
fn step_asserted(
    program: &Settled,
    heap: &Rc<SymHeap>,
    next: &Rc<Next>,
    state: SymState,
    conts: &mut Conts,
) -> Result<Move, AllocError>
    ensures { IfOk result (λ m. Stepped (settled program.now)
        (tree.Step (going (settled program.now) next.now.value (with_heap (heap_of heap.now.value) (state_of state)))) conts.old.sides.items m
        conts.new.sides.items) }
{
    let mut state = state;
    let _rest = state.exchange_heap(heap.clone()?);
    on_with(program, next, state, conts)
}

/// A value goes on to the statement that it is of, where that writes to no chunk and reaches into no other member.
pub fn step_executed(
    alloc: Global,
    program: &Settled,
    value: Rc<Term>,
    executed: &Executed,
    next: &Rc<Next>,
    state: SymState,
    conts: &mut Conts,
) -> Result<Move, AllocError>
    requires { is_plain executed.now ≡ true }
    ensures { IfOk result (λ m. Stepped (settled program.now)
        (executed_of (settled program.now) executed.now (going (settled program.now) next.now.value) (held_term value) (state_of state)) conts.old.sides.items m
        conts.new.sides.items) }
{
    match executed {
        Executed::Assign(x) => step_assign(alloc, program, value, x, next, state, conts),
        Executed::Assume => step_assume(alloc, program, value, next, state, conts),
        Executed::If(a, b, kept) => {
            let left = inner_frame(alloc, program, a, *kept, next);
            let right = inner_frame(alloc, program, b, *kept, next);
            fork_made(alloc, program, value, left, right, state, conts)
        }
        Executed::Asserted(heap) => step_asserted(program, heap, next, state, conts),
        Executed::Exhaled => on_with(program, next, state, conts),
        Executed::Write(place, field, e) => {
            let hole = hole_of_second(*place, field, value, next);
            eval_made(alloc, program, e, hole, state, conts)
        }
        Executed::WriteWith(_, _, _) => unreachable!(),
        Executed::Enter(it, kept) => step_enter(alloc, program, it, *kept, next, state, conts),
        Executed::Iterate(it, kept) => {
            step_iterate(alloc, program, value, it, *kept, state, conts)
        }
        Executed::Pass => step_pass(alloc, program, &value, next, state, conts),
        Executed::Fold(_, _, _) => unreachable!(),
        Executed::Unfold(_, _, _) => unreachable!(),
        Executed::Folded(_, _) => unreachable!(),
        Executed::Called(_) => unreachable!(),
    }
}

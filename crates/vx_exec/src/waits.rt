//! What waits for a part of a statement, made of copies of its parts.

ghost use Rattle.std.specs.Prelude.{◌≡◌, None, IfOk};
ghost use Rattle.vx_ast.specs.Syntax.{Program};
ghost use Rattle.vx_resolved.specs.Resolved.{assertion};
ghost use Rattle.vx_resolved.specs.Settled.{settled};
ghost use Rattle.vx_rules.specs.Members.{rules};
ghost use Rattle.vx_rules.specs.Rules.{consume, produce};
ghost use Rattle.vx_rules.specs.Trees as tree;
ghost use Rattle.vx_stack.specs.Stack.{context, executed as executed_of, giving, giving_all, going, Stepped};
ghost use Rattle.vx_stack.specs.declared.frame.Row.TheVariants as rows;
ghost use Rattle.vx_stack.specs.declared.waiting.Executed.TheVariants as waits;
ghost use Rattle.vx_states.specs.SymStates.{state as state_of};
ghost use Rattle.vx_terms.specs.Build.{whole_amount};

use std::alloc::{AllocError, Global};
use std::rc::Rc;
use vx_ast::Place;
use vx_resolved::{Assertion, Block, Expr, Exprs, Settled};
use vx_stack::{Codes, Conts, Executed, Frame, Hole, Move, Next, Production, Row};
use vx_states::SymState;
use vx_terms::Term;

/// On with what waits for the state.
pub(crate) fn on_with(
    program: &Settled,
    next: &Rc<Next>,
    state: SymState,
    conts: &mut Conts,
) -> Result<Move, AllocError>
    ensures { IfOk result (λ m. Stepped (settled program.now) (tree.Step (going (settled program.now) next.now.value (state_of state))) conts.old.sides.items m conts.new.sides.items) }
{
    conts.go(program, Frame::Go(next.clone()?), state)
}

/// What is done with a value, before what waits for the state.
pub(crate) fn hole_of(waits: Executed, next: &Rc<Next>) -> Result<Hole, AllocError>
    ensures { (p : Program) → IfOk result (λ hole. giving p hole ≡ executed_of p waits (going p next.now.value)) }
{
    Ok(Hole::Executed(waits, next.clone()?))
}

/// The assignment of a value.
pub(crate) fn hole_of_assign(x: &Rc<String>, next: &Rc<Next>) -> Result<Hole, AllocError>
    ensures { (p : Program) → IfOk result (λ hole. giving p hole ≡ executed_of p (waits.Assign x.now) (going p next.now.value)) }
{
    hole_of(Executed::Assign(x.clone()?), next)
}

/// A write's receiver, before the value.
pub(crate) fn hole_of_write(
    place: Place,
    field: &Rc<String>,
    value: &Rc<Expr>,
    next: &Rc<Next>,
) -> Result<Hole, AllocError>
    ensures { (p : Program) → IfOk result (λ hole. giving p hole ≡ executed_of p (waits.Write place field.now value.now) (going p next.now.value)) }
{
    hole_of(Executed::Write(place, field.clone()?, value.clone()?), next)
}

/// A write's value, after the receiver.
pub(crate) fn hole_of_second(
    place: Place,
    field: &Rc<String>,
    receiver: Rc<Term>,
    next: &Rc<Next>,
) -> Result<Hole, AllocError>
    ensures { (p : Program) → IfOk result (λ hole. giving p hole ≡ executed_of p (waits.WriteWith place field.now receiver) (going p next.now.value)) }
{
    hole_of(Executed::WriteWith(place, field.clone()?, receiver), next)
}

/// The amount of a `fold`.
pub(crate) fn hole_of_fold(
    place: Place,
    predicate: &Rc<String>,
    arguments: &Rc<Exprs>,
    next: &Rc<Next>,
) -> Result<Hole, AllocError>
    ensures { (p : Program) → IfOk result (λ hole. giving p hole ≡ executed_of p (waits.Fold place predicate.now arguments.now) (going p next.now.value)) }
{
    hole_of(
        Executed::Fold(place, predicate.clone()?, arguments.clone()?),
        next,
    )
}

/// The amount of an `unfold`.
pub(crate) fn hole_of_unfold(
    place: Place,
    predicate: &Rc<String>,
    arguments: &Rc<Exprs>,
    next: &Rc<Next>,
) -> Result<Hole, AllocError>
    ensures { (p : Program) → IfOk result (λ hole. giving p hole ≡ executed_of p (waits.Unfold place predicate.now arguments.now) (going p next.now.value)) }
{
    hole_of(
        Executed::Unfold(place, predicate.clone()?, arguments.clone()?),
        next,
    )
}

/// The condition of an `if`, where so many variables stand before its blocks.
pub(crate) fn hole_of_if(
    a: &Rc<Block>,
    b: &Rc<Block>,
    kept: usize,
    next: &Rc<Next>,
) -> Result<Hole, AllocError>
    ensures { (p : Program) → IfOk result (λ hole. giving p hole ≡ executed_of p (waits.If a.now b.now kept) (going p next.now.value)) }
{
    hole_of(Executed::If(a.clone()?, b.clone()?, kept), next)
}

/// The arguments of a call.
pub(crate) fn row_of_call(
    place: Place,
    targets: &Rc<Vec<Rc<String>>>,
    method: &Rc<String>,
    next: &Rc<Next>,
) -> Result<Row, AllocError>
    ensures { (p : Program) → IfOk result (λ row. giving_all p row ≡ giving_all p (rows.Call place targets.now method.now next.now)) }
{
    Ok(Row::Call(place, targets.clone()?, method.clone()?, next.clone()?))
}

/// Consuming an assertion, all of what it permits.
pub(crate) fn consuming_all(
    alloc: Global,
    a: &Rc<Assertion>,
    codes: Codes,
    hole: Hole,
) -> Result<Next, AllocError>
    ensures { (p : Program) → IfOk result (λ n. going p n ≡ (λ s. consume p (rules p) (assertion a.now.value) (context codes) whole_amount s.heap s (giving p hole))) }
{
    let hole = Rc::new(alloc, hole)?;
    let whole = vx_heap::whole(alloc)?;
    Ok(Next::Consume(a.clone()?, codes, whole, hole))
}

/// Producing what is inhaled.
pub(crate) fn inhaling(
    alloc: Global,
    a: &Rc<Assertion>,
    next: &Rc<Next>,
) -> Result<Next, AllocError>
    ensures { (p : Program) → IfOk result (λ n. going p n ≡ (λ s. produce p (rules p) (assertion a.now.value) whole_amount None s (going p next.now.value))) }
{
    let production = Production::as_written(alloc)?;
    Ok(Next::Produce(a.clone()?, production, next.clone()?))
}

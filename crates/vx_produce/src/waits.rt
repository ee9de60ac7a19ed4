//! What waits for a part of an assertion that is produced, made of copies of its parts.

ghost use Rattle.std.specs.Prelude.{◌≡◌, IfOk};
ghost use Rattle.vx_ast.specs.Syntax.{Program};
ghost use Rattle.vx_resolved.specs.Settled.{settled};
ghost use Rattle.vx_rules.specs.Trees as tree;
ghost use Rattle.vx_stack.specs.Stack.{giving, giving_all, going, produced as produced_of, Stepped};
ghost use Rattle.vx_stack.specs.declared.frame.Row.TheVariants as rows;
ghost use Rattle.vx_stack.specs.declared.waiting.Produced.TheVariants as waits;
ghost use Rattle.vx_states.specs.SymStates.{state as state_of};

use std::alloc::AllocError;
use std::rc::Rc;
use vx_ast::Place;
use vx_resolved::{Assertion, Expr, Settled};
use vx_stack::{Conts, Frame, Hole, Move, Next, Produced, Production, Row};
use vx_states::{SymState, copy_optional};

/// On with what waits for the state.
pub(crate) fn on_with(
    program: &Settled,
    next: &Rc<Next>,
    state: SymState,
    conts: &mut Conts,
) -> Result<Move, AllocError>
    ensures { IfOk result (λ m. Stepped (settled program.now) (tree.Step (going (settled program.now) next.now.value (state_of state))) conts.old.sides.items m conts.new.sides.items) }
{
    conts.go(program, Frame::Go(next.clone()?), state)
}

/// A pure part.
pub(crate) fn hole_of_fact(x: &Production, next: &Rc<Next>) -> Result<Hole, AllocError>
    ensures { (p : Program) → IfOk result (λ hole. giving p hole ≡ produced_of p (waits.Fact x.now.snapshot) (going p next.now.value)) }
{
    let waits = Produced::Fact(copy_optional(&x.snapshot)?);
    Ok(Hole::Produced(waits, next.clone()?))
}

/// A location's receiver, before its share.
pub(crate) fn hole_of_share(
    place: Place,
    field: &Rc<String>,
    share: &Rc<Expr>,
    x: &Rc<Production>,
    is_inner: bool,
    next: &Rc<Next>,
) -> Result<Hole, AllocError>
    ensures { (p : Program) → IfOk result (λ hole. giving p hole ≡ produced_of p (waits.Share place field.now share.now x.now is_inner) (going p next.now.value)) }
{
    let waits = Produced::Share(place, field.clone()?, share.clone()?, x.clone()?, is_inner);
    Ok(Hole::Produced(waits, next.clone()?))
}

/// An instance's arguments, before its share.
pub(crate) fn row_of_instance(
    place: Place,
    predicate: &Rc<String>,
    share: &Rc<Expr>,
    x: &Rc<Production>,
    is_inner: bool,
    next: &Rc<Next>,
) -> Result<Row, AllocError>
    ensures { (p : Program) → IfOk result (λ row. giving_all p row ≡ giving_all p (rows.Produce place predicate.now share.now x.now is_inner next.now)) }
{
    Ok(Row::Produce(
        place,
        predicate.clone()?,
        share.clone()?,
        x.clone()?,
        is_inner,
        next.clone()?,
    ))
}

/// The condition of `==>`.
pub(crate) fn hole_of_implied(
    right: &Rc<Assertion>,
    x: &Rc<Production>,
    next: &Rc<Next>,
) -> Result<Hole, AllocError>
    ensures { (p : Program) → IfOk result (λ hole. giving p hole ≡ produced_of p (waits.Implied right.now x.now) (going p next.now.value)) }
{
    let waits = Produced::Implied(right.clone()?, x.clone()?);
    Ok(Hole::Produced(waits, next.clone()?))
}

/// The condition of `?:`.
pub(crate) fn hole_of_chosen(
    first: &Rc<Assertion>,
    second: &Rc<Assertion>,
    x: &Rc<Production>,
    next: &Rc<Next>,
) -> Result<Hole, AllocError>
    ensures { (p : Program) → IfOk result (λ hole. giving p hole ≡ produced_of p (waits.Chosen first.now second.now x.now) (going p next.now.value)) }
{
    let waits = Produced::Chosen(first.clone()?, second.clone()?, x.clone()?);
    Ok(Hole::Produced(waits, next.clone()?))
}

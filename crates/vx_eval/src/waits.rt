//! What waits for the values of an expression's parts, made of copies of its parts.

ghost use Rattle.std.specs.Prelude.{◌≡◌, ◌&&◌, if◌then◌else◌, IfOk};
ghost use Rattle.vx_ast.specs.Syntax.{Program};
ghost use Rattle.vx_resolved.specs.Resolved.{expr};
ghost use Rattle.vx_rules.specs.Members.{rules};
ghost use Rattle.vx_rules.specs.Rules as rule;
ghost use Rattle.vx_stack.specs.Stack.{frame_tree, giving, operand as operand_of};
ghost use Rattle.vx_stack.specs.declared.waiting.Operand.TheVariants as waits;
ghost use Rattle.vx_terms.specs.Terms as written;

use crate::operators::is_total;
use std::alloc::{AllocError, Global};
use std::rc::Rc;
use vx_ast::Place;
use vx_heap::SymHeap;
use vx_resolved::{Connective, Expr, Exprs};
use vx_stack::{Frame, Hole, Operand};
use vx_terms::{Term, make};

fn are_total(a: &Expr, b: &Expr) -> bool
    ensures { result ≡ (rule.is_total (expr a.now) && rule.is_total (expr b.now)) }
{
    is_total(a) && is_total(b)
}

/// The left part of a connective, before its right part: where that can fail, it is looked at on one side alone.
pub(crate) fn before_right(op: Connective, b: &Rc<Expr>) -> Result<Operand, AllocError>
    ensures { (p : Program) (on : rule.Giving) → IfOk result
        (λ o. ◌≡◌ {A = rule.Giving} (operand_of p o on) (if rule.is_total (expr b.now.value) then operand_of p
        (waits.ConnectRight op b.now) on else operand_of p (waits.ConnectSides op b.now) on)) }
{
    if is_total(b) {
        return Ok(Operand::ConnectRight(op, b.clone()?));
    }
    Ok(Operand::ConnectSides(op, b.clone()?))
}

/// A condition, before its branches: where one can fail, each is on a side of its own.
pub(crate) fn before_branches(a: &Rc<Expr>, b: &Rc<Expr>) -> Result<Operand, AllocError>
    ensures { (p : Program) (on : rule.Giving) → IfOk result
        (λ o. ◌≡◌ {A = rule.Giving} (operand_of p o on) (if rule.is_total (expr a.now.value) && rule.is_total (expr b.now.value) then operand_of p
        (waits.ChooseThen a.now b.now) on else operand_of p (waits.ChooseSides a.now b.now) on)) }
{
    if are_total(a, b) {
        return Ok(Operand::ChooseThen(a.clone()?, b.clone()?));
    }
    Ok(Operand::ChooseSides(a.clone()?, b.clone()?))
}

/// The first branch, before the second.
pub(crate) fn before_else(condition: Rc<Term>, b: &Rc<Expr>) -> Result<Operand, AllocError>
    ensures { (p : Program) (on : rule.Giving) → IfOk result (λ o. ◌≡◌ {A = rule.Giving} (operand_of p o on) (operand_of p (waits.ChooseElse condition b.now) on)) }
{
    Ok(Operand::ChooseElse(condition, b.clone()?))
}

/// The second branch, before the choice.
pub(crate) fn before_choice(condition: &Rc<Term>, first: Rc<Term>) -> Result<Operand, AllocError>
    ensures { (p : Program) (on : rule.Giving) → IfOk result (λ o. ◌≡◌ {A = rule.Giving} (operand_of p o on) (operand_of p (waits.ChooseWith condition.now first) on)) }
{
    Ok(Operand::ChooseWith(condition.clone()?, first))
}

/// The amount of an `unfolding`, before its arguments.
pub(crate) fn before_arguments(
    at: Place,
    i: &Rc<String>,
    es: &Rc<Exprs>,
    e: &Rc<Expr>,
    heap: &Rc<SymHeap>,
) -> Result<Operand, AllocError>
    ensures { (p : Program) (on : rule.Giving) → IfOk result (λ o. ◌≡◌ {A = rule.Giving} (operand_of p o on) (operand_of p (waits.Unfolding at i.now es.now e.now heap.now) on)) }
{
    Ok(Operand::Unfolding(at, i.clone()?, es.clone()?, e.clone()?, heap.clone()?))
}

/// A side that evaluates an expression.
pub(crate) fn evaluation(e: &Rc<Expr>, hole: &Rc<Hole>) -> Result<Frame, AllocError>
    ensures { (p : Program) → IfOk result (λ f. ◌≡◌ {A = rule.Going} (frame_tree p f) (λ s. rule.eval p (rules p) (expr e.now.value) s (giving p hole.now.value))) }
{
    Ok(Frame::Eval(e.clone()?, hole.clone()?))
}

/// A side that gives a truth.
pub(crate) fn truth(alloc: Global, b: bool, hole: &Rc<Hole>) -> Result<Frame, AllocError>
    ensures { (p : Program) → IfOk result (λ f. ◌≡◌ {A = rule.Going} (frame_tree p f) (giving p hole.now.value (written.Truth b))) }
{
    let value = make::boolean(alloc, b)?;
    Ok(Frame::Give(value, hole.clone()?))
}

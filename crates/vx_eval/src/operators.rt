//! What operators make of two values, and which expressions are total.

ghost use Rattle.std.specs.Prelude.{◌≡◌, ◌&&◌, IfOk};
ghost use Rattle.vx_resolved.specs.Resolved.{connective, expr, operator};
ghost use Rattle.vx_rules.specs.Rules as rule;
ghost use Rattle.vx_terms.specs.Sorts.{RealSort, same_sort};
ghost use Rattle.vx_frac.specs.Fractions.{whole};
ghost use Rattle.vx_terms.specs.Terms as written;
ghost use Rattle.vx_terms.specs.Terms.{sort_of};
ghost use Rattle.vx_heap.specs.Views.{held_term};
ghost use Rattle.vx_terms.specs.Views.{term};

use std::alloc::{AllocError, Global};
use std::rc::Rc;
use vx_frac::Frac;
use vx_resolved::{Connective, Expr, Operator};
use vx_terms::{Sort, Term, arithmetic, make, numbers};

/// Whether there is nothing in it that can fail.
pub fn is_total(e: &Expr) -> bool
    ensures { result ≡ rule.is_total (expr e.now) }
{
    match e {
        Expr::Number(_, _) => true,
        Expr::Truth(_, _) => true,
        Expr::Null(_) => true,
        Expr::Part(_, _, _) => true,
        Expr::Variable(_, _) => true,
        Expr::Not(_, a) => is_total(a),
        Expr::Operate(_, _, a, b) => is_total(a) && is_total(b),
        Expr::Divide(_, _, _, _) => false,
        Expr::Connect(_, _, a, b) => is_total(a) && is_total(b),
        Expr::Choose(_, c, a, b) => is_total(c) && is_total(a) && is_total(b),
        Expr::Read(_, _, _) => false,
        Expr::Old(_, a) => is_total(a),
        Expr::Apply(_, _, _) => false,
        Expr::Unfolding(_, _, _, _, _) => false,
    }
}

/// Whether a term is of Real.
fn is_real(t: &Term) -> Result<bool, AllocError>
    ensures { IfOk result (λ b. b ≡ same_sort (sort_of (term t.now)) RealSort) }
{
    let sort = t.sort()?;
    Ok(sort.is_same(&Sort::Real))
}

/// A whole number as a literal of Real.
fn whole_part(alloc: Global, n: i128) -> Result<Rc<Term>, AllocError>
    ensures { IfOk result (λ t. held_term t ≡ written.Part (whole n)) }
{
    make::real(alloc, Frac::whole(n))
}

/// A numeral before a Perm is a Real.
fn as_amount(alloc: Global, t: &Rc<Term>, u: &Rc<Term>) -> Result<Rc<Term>, AllocError>
    ensures { IfOk result (λ r. held_term r ≡ rule.as_amount (held_term t.now) (held_term u.now)) }
{
    match &**t {
        Term::Number(n) => {
            if is_real(u)? {
                return whole_part(alloc, *n);
            }
            t.clone()
        }
        _ => t.clone(),
    }
}

/// An operator on two values.
pub fn operated(
    alloc: Global,
    op: Operator,
    t: &Rc<Term>,
    u: &Rc<Term>,
) -> Result<Rc<Term>, AllocError>
    ensures { IfOk result (λ r. held_term r ≡ rule.operated (operator op) (held_term t.now) (held_term u.now)) }
{
    match op {
        Operator::Equal => numbers::eq(alloc, t, u),
        Operator::Less => numbers::lt(alloc, t, u),
        Operator::LessEqual => numbers::le(alloc, t, u),
        Operator::Greater => numbers::lt(alloc, u, t),
        Operator::GreaterEqual => numbers::le(alloc, u, t),
        Operator::Add => arithmetic::add(alloc, t, u),
        Operator::Subtract => arithmetic::sub(alloc, t, u),
        Operator::Multiply => {
            let amount = as_amount(alloc, t, u)?;
            arithmetic::mul(alloc, &amount, u)
        }
    }
}

/// A connective on two values.
pub fn connected(
    alloc: Global,
    op: Connective,
    t: &Rc<Term>,
    u: &Rc<Term>,
) -> Result<Rc<Term>, AllocError>
    ensures { IfOk result (λ r. held_term r ≡ rule.connected (connective op) (held_term t.now) (held_term u.now)) }
{
    match op {
        Connective::And => make::and(alloc, t, u),
        Connective::Or => make::or(alloc, t, u),
        Connective::Implies => make::implies(alloc, t, u),
    }
}

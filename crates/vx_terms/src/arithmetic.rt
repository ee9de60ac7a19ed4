//! Sums, differences and products: each simplifies as it says, and no more.

ghost use Rattle.std.specs.Prelude.{◌≡◌, IfOk};
ghost use Rattle.vx_terms.specs.Build as built;
ghost use Rattle.vx_terms.specs.Terms as written;
ghost use Rattle.vx_terms.specs.Literals.{number_or, part_or};
ghost use Rattle.vx_terms.specs.Views.{term, operator};

use crate::literals::{Literals, is_one_literal, is_zero_literal, literals_in};
use crate::make::{binary, int, real};
use crate::{Operator, Term};
use std::alloc::{AllocError, Global};
use std::rc::Rc;
use vx_frac::{Frac, Over};

/// A number in range as a literal, else the operation as it is written.
fn number_or_binary(
    alloc: Global,
    number: Option<i128>,
    op: Operator,
    s: &Rc<Term>,
    t: &Rc<Term>,
) -> Result<Rc<Term>, AllocError>
    ensures { IfOk result (λ r. term r.value ≡ number_or number (written.Binary (operator op) (term s.now.value) (term t.now.value))) }
{
    match number {
        Some(n) => {
            if n == i128::MIN {
                return binary(alloc, op, s, t);
            }
            int(alloc, n)
        }
        None => binary(alloc, op, s, t),
    }
}

/// A fraction in range as a literal; else, also where a number leaves 128 bits before it is reduced, the operation as it
/// is written.
fn part_or_binary(
    alloc: Global,
    part: Result<Frac, Over>,
    op: Operator,
    s: &Rc<Term>,
    t: &Rc<Term>,
) -> Result<Rc<Term>, AllocError>
    ensures { IfOk result (λ r. term r.value ≡ part_or part (written.Binary (operator op) (term s.now.value) (term t.now.value))) }
{
    match part {
        Ok(a) => {
            if a.num() == i128::MIN {
                return binary(alloc, op, s, t);
            }
            real(alloc, a)
        }
        Err(_) => binary(alloc, op, s, t),
    }
}

/// `+`: folded of literals in range, and without 0.
pub fn add(alloc: Global, s: &Rc<Term>, t: &Rc<Term>) -> Result<Rc<Term>, AllocError>
    ensures { IfOk result (λ r. term r.value ≡ built.add (term s.now.value) (term t.now.value)) }
{
    if is_zero_literal(t) {
        return s.clone();
    }
    if is_zero_literal(s) {
        return t.clone();
    }
    match literals_in(s, t) {
        Literals::Numbers(m, n) => number_or_binary(alloc, m.checked_add(n), Operator::Add, s, t),
        Literals::Parts(a, b) => part_or_binary(alloc, a.add(b), Operator::Add, s, t),
        Literals::Truths(_, _) | Literals::Neither => binary(alloc, Operator::Add, s, t),
    }
}

/// `-`: folded of literals in range, and without a right 0.
pub fn sub(alloc: Global, s: &Rc<Term>, t: &Rc<Term>) -> Result<Rc<Term>, AllocError>
    ensures { IfOk result (λ r. term r.value ≡ built.subtract (term s.now.value) (term t.now.value)) }
{
    if is_zero_literal(t) {
        return s.clone();
    }
    match literals_in(s, t) {
        Literals::Numbers(m, n) => {
            number_or_binary(alloc, m.checked_sub(n), Operator::Subtract, s, t)
        }
        Literals::Parts(a, b) => part_or_binary(alloc, a.sub(b), Operator::Subtract, s, t),
        Literals::Truths(_, _) | Literals::Neither => binary(alloc, Operator::Subtract, s, t),
    }
}

/// `*`: folded of literals in range, without 1, and 0 where a side is 0.
pub fn mul(alloc: Global, s: &Rc<Term>, t: &Rc<Term>) -> Result<Rc<Term>, AllocError>
    ensures { IfOk result (λ r. term r.value ≡ built.multiply (term s.now.value) (term t.now.value)) }
{
    if is_one_literal(t) {
        return s.clone();
    }
    if is_one_literal(s) || is_zero_literal(t) {
        return t.clone();
    }
    if is_zero_literal(s) {
        return s.clone();
    }
    match literals_in(s, t) {
        Literals::Numbers(m, n) => {
            number_or_binary(alloc, m.checked_mul(n), Operator::Multiply, s, t)
        }
        Literals::Parts(a, b) => part_or_binary(alloc, a.mul(b), Operator::Multiply, s, t),
        Literals::Truths(_, _) | Literals::Neither => binary(alloc, Operator::Multiply, s, t),
    }
}

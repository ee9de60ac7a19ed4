//! Equality, order and division: each simplifies as it says, and no more.

ghost use Rattle.std.specs.Prelude.{◌≡◌, IfOk};
ghost use Rattle.vx_terms.specs.Build as built;
ghost use Rattle.vx_terms.specs.Views.{term};

use crate::literals::{Literals, literals_in};
use crate::make::{binary, boolean, int};
use crate::{Operator, Term};
use std::alloc::{AllocError, Global};
use std::rc::Rc;

/// `=`: true of identical terms, and false of different literals of one sort.
pub fn eq(alloc: Global, s: &Rc<Term>, t: &Rc<Term>) -> Result<Rc<Term>, AllocError>
    ensures { IfOk result (λ r. term r.value ≡ built.equals (term s.now.value) (term t.now.value)) }
{
    if s.is_same(t) {
        return boolean(alloc, true);
    }
    match literals_in(s, t) {
        Literals::Neither => binary(alloc, Operator::Equal, s, t),
        Literals::Numbers(_, _) | Literals::Parts(_, _) | Literals::Truths(_, _) => {
            boolean(alloc, false)
        }
    }
}

/// `<`: decided of literals and of identical terms.
pub fn lt(alloc: Global, s: &Rc<Term>, t: &Rc<Term>) -> Result<Rc<Term>, AllocError>
    ensures { IfOk result (λ r. term r.value ≡ built.less (term s.now.value) (term t.now.value)) }
{
    if s.is_same(t) {
        return boolean(alloc, false);
    }
    match literals_in(s, t) {
        Literals::Numbers(m, n) => boolean(alloc, m < n),
        Literals::Parts(a, b) => boolean(alloc, a.is_less(b)),
        Literals::Truths(_, _) | Literals::Neither => binary(alloc, Operator::Less, s, t),
    }
}

/// `<=`: decided of literals and of identical terms.
pub fn le(alloc: Global, s: &Rc<Term>, t: &Rc<Term>) -> Result<Rc<Term>, AllocError>
    ensures { IfOk result (λ r. term r.value ≡ built.less_equal (term s.now.value) (term t.now.value)) }
{
    if s.is_same(t) {
        return boolean(alloc, true);
    }
    match literals_in(s, t) {
        Literals::Numbers(m, n) => boolean(alloc, m <= n),
        Literals::Parts(a, b) => boolean(alloc, a.is_at_most(b)),
        Literals::Truths(_, _) | Literals::Neither => binary(alloc, Operator::LessEqual, s, t),
    }
}

/// `div`: folded of literals with a divisor other than 0. No quotient of literals that these functions make leaves the
/// range; one of another literal that does is refused as for want of memory.
pub fn div(alloc: Global, s: &Rc<Term>, t: &Rc<Term>) -> Result<Rc<Term>, AllocError>
    ensures { IfOk result (λ r. term r.value ≡ built.div (term s.now.value) (term t.now.value)) }
{
    match literals_in(s, t) {
        Literals::Numbers(m, n) if n != 0 => match m.checked_div_euclid(n) {
            Some(quotient) => int(alloc, quotient),
            None => Err(AllocError),
        },
        _ => binary(alloc, Operator::Div, s, t),
    }
}

/// `mod`: folded of literals with a divisor other than 0, as `div` is.
pub fn modulo(alloc: Global, s: &Rc<Term>, t: &Rc<Term>) -> Result<Rc<Term>, AllocError>
    ensures { IfOk result (λ r. term r.value ≡ built.modulo (term s.now.value) (term t.now.value)) }
{
    match literals_in(s, t) {
        Literals::Numbers(m, n) if n != 0 => match m.checked_rem_euclid(n) {
            Some(rest) => int(alloc, rest),
            None => Err(AllocError),
        },
        _ => binary(alloc, Operator::Mod, s, t),
    }
}

//! The constructors of terms: each simplifies as it says, and no more.

ghost use Rattle.std.specs.Prelude.{◌≡◌, IfOk};
ghost use Rattle.vx_terms.specs.Build as built;
ghost use Rattle.vx_terms.specs.Terms as written;
ghost use Rattle.vx_terms.specs.Terms.{is_name as is_a_name, sort_of as sort_of_term};
ghost use Rattle.vx_terms.specs.Views.{term, terms, sort as sort_view, symbol as symbol_view, operator};
ghost use Rattle.vx_frac.specs.Fraction.{fraction};

use crate::literals::truth_value;
use crate::{Operator, Sort, Symbol, Term, Terms};
use std::alloc::{AllocError, Global};
use std::rc::Rc;
use vx_frac::Frac;

/// `true` or `false`.
///
/// # Errors
/// `AllocError` if there is no memory for it.
pub fn boolean(alloc: Global, b: bool) -> Result<Rc<Term>, AllocError>
    ensures { IfOk result (λ t. term t.value ≡ written.Truth b) }
{
    Ok(Rc::new(alloc, Term::Truth(b))?)
}

/// A numeral of Int.
///
/// # Errors
/// `AllocError` if there is no memory for it.
pub fn int(alloc: Global, n: i128) -> Result<Rc<Term>, AllocError>
    ensures { IfOk result (λ t. term t.value ≡ written.Number n) }
{
    Ok(Rc::new(alloc, Term::Number(n))?)
}

/// A numeral of Real.
///
/// # Errors
/// `AllocError` if there is no memory for it.
pub fn real(alloc: Global, a: Frac) -> Result<Rc<Term>, AllocError>
    ensures { IfOk result (λ t. term t.value ≡ written.Part (fraction a)) }
{
    Ok(Rc::new(alloc, Term::Part(a))?)
}

/// A symbol without arguments, of its sort.
pub fn symbol(alloc: Global, name: Symbol, sort: Sort) -> Result<Rc<Term>, AllocError>
    ensures { IfOk result (λ t. term t.value ≡ written.Constant (symbol_view name) (sort_view sort)) }
{
    Ok(Rc::new(alloc, Term::Constant(name, sort))?)
}

/// `v` and a number.
pub fn variable(alloc: Global, number: u64, sort: Sort) -> Result<Rc<Term>, AllocError>
    ensures { IfOk result (λ t. term t.value ≡ built.variable number (sort_view sort)) }
{
    symbol(alloc, Symbol::Variable(number), sort)
}

/// A symbol with arguments; the sort is that of the result.
pub fn apply(
    alloc: Global,
    name: Symbol,
    sort: Sort,
    arguments: &Rc<Terms>,
) -> Result<Rc<Term>, AllocError>
    ensures { IfOk result (λ t. term t.value ≡ written.Apply (symbol_view name) (sort_view sort) (terms arguments.now.value)) }
{
    Ok(Rc::new(alloc, Term::Apply(name, sort, arguments.clone()?))?)
}

/// An operator on two terms, as it is written.
pub(crate) fn binary(
    alloc: Global,
    op: Operator,
    s: &Rc<Term>,
    t: &Rc<Term>,
) -> Result<Rc<Term>, AllocError>
    ensures { IfOk result (λ r. term r.value ≡ written.Binary (operator op) (term s.now.value) (term t.now.value)) }
{
    Ok(Rc::new(alloc, Term::Binary(op, s.clone()?, t.clone()?))?)
}

/// `not`: of a literal its opposite, of `not t` t.
pub fn not(alloc: Global, t: &Rc<Term>) -> Result<Rc<Term>, AllocError>
    ensures { IfOk result (λ r. term r.value ≡ built.negate (term t.now.value)) }
{
    match &**t {
        Term::Truth(b) => boolean(alloc, !*b),
        Term::Not(s) => s.clone(),
        Term::Number(_)
        | Term::Part(_)
        | Term::Constant(_, _)
        | Term::Apply(_, _, _)
        | Term::Binary(_, _, _)
        | Term::Ite(_, _, _)
        | Term::AllOf(_)
        | Term::SomeOf(_) => Ok(Rc::new(alloc, Term::Not(t.clone()?))?),
    }
}

/// `and`, without a literal side.
pub fn and(alloc: Global, s: &Rc<Term>, t: &Rc<Term>) -> Result<Rc<Term>, AllocError>
    ensures { IfOk result (λ r. term r.value ≡ built.and (term s.now.value) (term t.now.value)) }
{
    match (truth_value(s), truth_value(t)) {
        (Some(true), _) => t.clone(),
        (Some(false), _) => boolean(alloc, false),
        (None, Some(true)) => s.clone(),
        (None, Some(false)) => boolean(alloc, false),
        (None, None) => binary(alloc, Operator::And, s, t),
    }
}

/// `or`, without a literal side.
pub fn or(alloc: Global, s: &Rc<Term>, t: &Rc<Term>) -> Result<Rc<Term>, AllocError>
    ensures { IfOk result (λ r. term r.value ≡ built.or (term s.now.value) (term t.now.value)) }
{
    match (truth_value(s), truth_value(t)) {
        (Some(true), _) => boolean(alloc, true),
        (Some(false), _) => t.clone(),
        (None, Some(true)) => boolean(alloc, true),
        (None, Some(false)) => s.clone(),
        (None, None) => binary(alloc, Operator::Or, s, t),
    }
}

/// `=>`, without a literal side: before `false` it is `not`.
pub fn implies(alloc: Global, s: &Rc<Term>, t: &Rc<Term>) -> Result<Rc<Term>, AllocError>
    ensures { IfOk result (λ r. term r.value ≡ built.implies (term s.now.value) (term t.now.value)) }
{
    match (truth_value(s), truth_value(t)) {
        (Some(true), _) => t.clone(),
        (Some(false), _) => boolean(alloc, true),
        (None, Some(true)) => boolean(alloc, true),
        (None, Some(false)) => not(alloc, s),
        (None, None) => binary(alloc, Operator::Implies, s, t),
    }
}

/// `ite`, without a literal condition or equal branches.
pub fn ite(alloc: Global, c: &Rc<Term>, s: &Rc<Term>, t: &Rc<Term>) -> Result<Rc<Term>, AllocError>
    ensures { IfOk result (λ r. term r.value ≡ built.ite (term c.now.value) (term s.now.value) (term t.now.value)) }
{
    match truth_value(c) {
        Some(true) => s.clone(),
        Some(false) => t.clone(),
        None => {
            if s.is_same(t) {
                return s.clone();
            }
            Ok(Rc::new(alloc, Term::Ite(c.clone()?, s.clone()?, t.clone()?))?)
        }
    }
}

impl Term {
    /// Whether it is a literal or a symbol without arguments.
    pub fn is_name(&self) -> bool
        ensures { result ≡ is_a_name (term self.now) }
    {
        matches!(
            self,
            Term::Truth(_) | Term::Number(_) | Term::Part(_) | Term::Constant(_, _)
        )
    }

    /// The sort of a well-sorted term.
    pub fn sort(&self) -> Result<Sort, AllocError>
        ensures { IfOk result (λ a. sort_view a ≡ sort_of_term (term self.now)) }
    {
        let mut part = self;
        loop {
            match part {
                Term::Truth(_) => return Ok(Sort::Bool),
                Term::Number(_) => return Ok(Sort::Int),
                Term::Part(_) => return Ok(Sort::Real),
                Term::Constant(_, a) => return a.copy(),
                Term::Apply(_, a, _) => return a.copy(),
                Term::Not(_) => return Ok(Sort::Bool),
                Term::Binary(op, s, _) => match op {
                    Operator::Add | Operator::Subtract | Operator::Multiply => part = s,
                    Operator::Div | Operator::Mod => return Ok(Sort::Int),
                    Operator::And
                    | Operator::Or
                    | Operator::Implies
                    | Operator::Equal
                    | Operator::Less
                    | Operator::LessEqual => return Ok(Sort::Bool),
                },
                Term::Ite(_, s, _) => part = s,
                Term::AllOf(_) | Term::SomeOf(_) => return Ok(Sort::Bool),
            }
        }
    }
}

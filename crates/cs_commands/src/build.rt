//! The term that a word and its parts make, where it is well-sorted.
ghost use Rattle.std.specs.Prelude.{◌≡◌, ◌&&◌, not, map, IfOk};
ghost use Rattle.std.specs.List.{list_all};
ghost use Rattle.vx_frac.specs.Fraction.{fraction};
ghost use Rattle.vx_sexp.specs.Tokens.{is_empty};
ghost use Rattle.vx_terms.specs.Terms.{sort_of};
ghost use Rattle.vx_terms.specs.Sorts.{same_sort};
ghost use Rattle.vx_terms.specs.Views.{sort, symbol, operator, term, terms};
ghost use Rattle.vx_smt_meaning.specs.Views.{declared_symbol};
ghost use Rattle.cs_reader.specs.Spelling.{negative, listed};
ghost use Rattle.cs_commands.specs.Outcomes.{Gives, or_fault};
ghost use Rattle.cs_commands.specs.declared.fault.CommandFault.TheVariants as faults;
ghost use Rattle.cs_commands.specs.Building as clean;
ghost use Rattle.cs_commands.specs.Views.{head};

use crate::fault::CommandFault;
use crate::head::Head;
use std::alloc::{AllocError, Global};
use std::rc::Rc;
use vx_frac::Frac;
use vx_smt_meaning::Declared;
use vx_terms::{Operator, Sort, Term, Terms};

fn is_bool(t: &Term) -> Result<bool, AllocError>
    ensures { IfOk result (λ b. b ≡ clean.is_bool (term t.now)) }
{
    let own = t.sort()?;
    Ok(own.is_same(&Sort::Bool))
}

fn are_bool(parts: &[Rc<Term>]) -> Result<bool, AllocError>
    ensures { IfOk result (λ b. b ≡ list_all clean.is_bool (map (λ x. term x.value) parts.now)) }
{
    for part in parts {
        if !is_bool(part)? {
            return Ok(false);
        }
    }
    Ok(true)
}

fn is_number_sort(of: &Sort) -> bool
    ensures { result ≡ clean.is_number_sort (sort of.now) }
{
    of.is_same(&Sort::Int) || of.is_same(&Sort::Real)
}

/// Whether an operator takes operands of this sort.
fn takes(of: Operator, operand: &Sort) -> bool
    ensures { result ≡ clean.takes (operator of) (sort operand.now) }
{
    match of {
        Operator::And | Operator::Or | Operator::Implies => operand.is_same(&Sort::Bool),
        Operator::Equal => true,
        Operator::Less
        | Operator::LessEqual
        | Operator::Add
        | Operator::Subtract
        | Operator::Multiply => is_number_sort(operand),
        Operator::Div | Operator::Mod => operand.is_same(&Sort::Int),
    }
}

/// Whether a term has this sort.
fn has_sort(t: &Term, of: &Sort) -> Result<bool, AllocError>
    ensures { IfOk result (λ b. b ≡ same_sort (sort_of (term t.now)) (sort of.now)) }
{
    let own = t.sort()?;
    Ok(own.is_same(of))
}

/// Whether the terms have these sorts, one by one.
fn have_sorts(parts: &[Rc<Term>], sorts: &[Sort]) -> Result<bool, AllocError>
    ensures { IfOk result (λ b. b ≡ clean.have_sorts (map (λ x. term x.value) parts.now) (map sort sorts.now)) }
{
    let mut left = parts;
    let mut right = sorts;
    while let Some((part, later)) = left.split_first() {
        let Some((of, others)) = right.split_first() else {
            return Ok(false);
        };
        if !has_sort(part, of)? {
            return Ok(false);
        }
        left = later;
        right = others;
    }
    Ok(right.is_empty())
}

fn if_sorted(alloc: Global, holds: bool, t: Term) -> Result<Rc<Term>, CommandFault>
    ensures { Gives (λ t. term t.value) result (clean.if_sorted holds (term t)) }
{
    if holds {
        Ok(Rc::new(alloc, t)?)
    } else {
        Err(CommandFault::Sort)
    }
}

/// The terms as a list.
#[tactic(auto, using(cs_reader::proofs::Lists::listed_last, cs_reader::proofs::Lists::onto_none))]
fn listed(alloc: Global, parts: &[Rc<Term>]) -> Result<Rc<Terms>, AllocError>
    ensures { IfOk result (λ ts. terms ts.value ≡ listed (map (λ x. term x.value) parts.now)) }
{
    let mut all = Rc::new(alloc, Terms::None)?;
    let mut rest = parts;
    while let Some((last, front)) = rest.split_last() {
        all = Rc::new(alloc, Terms::More(last.clone()?, all))?;
        rest = front;
    }
    Ok(all)
}

fn negation(alloc: Global, parts: &[Rc<Term>]) -> Result<Rc<Term>, CommandFault>
    ensures { Gives (λ t. term t.value) result (clean.negation (map (λ x. term x.value) parts.now)) }
{
    match parts {
        [t] => {
            let holds = is_bool(t)?;
            if_sorted(alloc, holds, Term::Not(t.clone()?))
        }
        _ => Err(CommandFault::Sort),
    }
}

/// Whether a choice by the first, between the others, is well-sorted.
fn is_choice(c: &Term, t: &Term, u: &Term) -> Result<bool, AllocError>
    ensures { IfOk result (λ b. b ≡ (clean.is_bool (term c.now) && same_sort (sort_of (term u.now)) (sort_of (term t.now)))) }
{
    if !is_bool(c)? {
        return Ok(false);
    }
    let own = t.sort()?;
    has_sort(u, &own)
}

fn choice(alloc: Global, parts: &[Rc<Term>]) -> Result<Rc<Term>, CommandFault>
    ensures { Gives (λ t. term t.value) result (clean.choice (map (λ x. term x.value) parts.now)) }
{
    match parts {
        [c, t, u] => {
            let holds = is_choice(c, t, u)?;
            if_sorted(alloc, holds, Term::Ite(c.clone()?, t.clone()?, u.clone()?))
        }
        _ => Err(CommandFault::Sort),
    }
}

/// Whether an operator takes these two.
fn takes_both(of: Operator, t: &Term, u: &Term) -> Result<bool, AllocError>
    ensures { IfOk result (λ b. b ≡ (clean.takes (operator of) (sort_of (term t.now)) && same_sort (sort_of (term u.now)) (sort_of (term t.now)))) }
{
    let own = t.sort()?;
    if !takes(of, &own) {
        return Ok(false);
    }
    has_sort(u, &own)
}

fn operation_of_two(
    alloc: Global,
    of: Operator,
    t: &Rc<Term>,
    u: &Rc<Term>,
) -> Result<Rc<Term>, CommandFault>
    ensures { Gives (λ t. term t.value) result (clean.operation_of_two (operator of) (term t.now.value) (term u.now.value)) }
{
    let holds = takes_both(of, t, u)?;
    if_sorted(alloc, holds, Term::Binary(of, t.clone()?, u.clone()?))
}

fn operation_of_many(
    alloc: Global,
    of: Operator,
    parts: &[Rc<Term>],
) -> Result<Rc<Term>, CommandFault>
    ensures { Gives (λ t. term t.value) result (clean.operation_of_many (operator of) (map (λ x. term x.value) parts.now)) }
{
    match of {
        Operator::And => {
            let holds = are_bool(parts)?;
            if_sorted(alloc, holds, Term::AllOf(listed(alloc, parts)?))
        }
        Operator::Or => {
            let holds = are_bool(parts)?;
            if_sorted(alloc, holds, Term::SomeOf(listed(alloc, parts)?))
        }
        Operator::Implies
        | Operator::Equal
        | Operator::Less
        | Operator::LessEqual
        | Operator::Add
        | Operator::Subtract
        | Operator::Multiply
        | Operator::Div
        | Operator::Mod => Err(CommandFault::Sort),
    }
}

fn operation(alloc: Global, of: Operator, parts: &[Rc<Term>]) -> Result<Rc<Term>, CommandFault>
    ensures { Gives (λ t. term t.value) result (clean.operation (operator of) (map (λ x. term x.value) parts.now)) }
{
    match parts {
        [] => Err(CommandFault::Sort),
        [_] => Err(CommandFault::Sort),
        [t, u] => operation_of_two(alloc, of, t, u),
        [_t, _u, _v, _rest @ ..] => operation_of_many(alloc, of, parts),
    }
}

/// What stands behind a minus, below 0.
fn negative(alloc: Global, of: &Term) -> Result<Rc<Term>, CommandFault>
    ensures { Gives (λ t. term t.value) result (or_fault faults.Sort (negative (term of.now))) }
{
    match of {
        Term::Number(number) => {
            if *number < 0 {
                return Err(CommandFault::Sort);
            }
            Ok(Rc::new(alloc, Term::Number(-*number))?)
        }
        Term::Part(part) => {
            if part.num() < 0 {
                return Err(CommandFault::Sort);
            }
            Ok(Rc::new(alloc, Term::Part(Frac::new(-part.num(), part.den())))?)
        }
        Term::Truth(_)
        | Term::Constant(_, _)
        | Term::Apply(_, _, _)
        | Term::Not(_)
        | Term::Binary(_, _, _)
        | Term::Ite(_, _, _)
        | Term::AllOf(_)
        | Term::SomeOf(_) => Err(CommandFault::Sort),
    }
}

fn difference(alloc: Global, parts: &[Rc<Term>]) -> Result<Rc<Term>, CommandFault>
    ensures { Gives (λ t. term t.value) result (clean.difference (map (λ x. term x.value) parts.now)) }
{
    match parts {
        [] => Err(CommandFault::Sort),
        [t] => negative(alloc, t),
        [t, u] => operation_of_two(alloc, Operator::Subtract, t, u),
        [_, _, _, ..] => Err(CommandFault::Sort),
    }
}

fn quotient_of(alloc: Global, a: Frac, b: Frac) -> Result<Rc<Term>, CommandFault>
    ensures { Gives (λ t. term t.value) result (clean.quotient_of (fraction a) (fraction b)) }
{
    if b.num() <= 0 {
        return Err(CommandFault::Sort);
    }
    match a.mul(Frac::new(b.den(), b.num())) {
        Ok(quotient) => Ok(Rc::new(alloc, Term::Part(quotient))?),
        Err(_) => Err(CommandFault::Wide),
    }
}

/// The quotient of two decimals, the second above 0.
fn quotient_of_two(alloc: Global, t: &Term, u: &Term) -> Result<Rc<Term>, CommandFault>
    ensures { Gives (λ t. term t.value) result (clean.quotient_of_two (term t.now) (term u.now)) }
{
    match (t, u) {
        (Term::Part(a), Term::Part(b)) => quotient_of(alloc, *a, *b),
        _ => Err(CommandFault::Sort),
    }
}

/// Of two parts, each of them a decimal.
fn quotient(alloc: Global, decimals: bool, parts: &[Rc<Term>]) -> Result<Rc<Term>, CommandFault>
    ensures { Gives (λ t. term t.value) result (clean.quotient decimals (map (λ x. term x.value) parts.now)) }
{
    if !decimals {
        return Err(CommandFault::Sort);
    }
    match parts {
        [t, u] => quotient_of_two(alloc, t, u),
        _ => Err(CommandFault::Sort),
    }
}

/// Whether a symbol takes these arguments, of which there are some.
fn takes_all(by: &Declared, parts: &[Rc<Term>]) -> Result<bool, AllocError>
    ensures { IfOk result (λ b. b ≡ (not (is_empty (map (λ x. term x.value) parts.now)) && clean.have_sorts (map (λ x. term x.value) parts.now) (declared_symbol by.now).takes)) }
{
    if parts.is_empty() {
        return Ok(false);
    }
    have_sorts(parts, &by.takes)
}

/// A symbol before its arguments.
fn application(alloc: Global, by: &Declared, parts: &[Rc<Term>]) -> Result<Rc<Term>, CommandFault>
    ensures { Gives (λ t. term t.value) result (clean.application (declared_symbol by.now) (map (λ x. term x.value) parts.now)) }
{
    let holds = takes_all(by, parts)?;
    let of = by.symbol.copy()?;
    let gives = by.gives.copy()?;
    if_sorted(alloc, holds, Term::Apply(of, gives, listed(alloc, parts)?))
}

/// A symbol alone.
pub fn constant(alloc: Global, by: &Declared) -> Result<Rc<Term>, CommandFault>
    ensures { Gives (λ t. term t.value) result (clean.constant (declared_symbol by.now)) }
{
    let holds = by.takes.is_empty();
    let of = by.symbol.copy()?;
    let gives = by.gives.copy()?;
    if_sorted(alloc, holds, Term::Constant(of, gives))
}

/// A term that is asserted.
pub fn asserted(t: Rc<Term>) -> Result<Rc<Term>, CommandFault>
    ensures { Gives (λ t. term t.value) result (clean.if_sorted (clean.is_bool (term t.value)) (term t.value)) }
{
    if is_bool(&t)? {
        Ok(t)
    } else {
        Err(CommandFault::Sort)
    }
}

/// The term that a head and its parts make. Whether each part is a decimal matters to a quotient alone.
pub fn built(
    alloc: Global,
    of: Head<'_>,
    decimals: bool,
    parts: &[Rc<Term>],
) -> Result<Rc<Term>, CommandFault>
    ensures { Gives (λ t. term t.value) result (clean.built (head of.entry) decimals (map (λ x. term x.value) parts.now)) }
{
    match of {
        Head::Not => negation(alloc, parts),
        Head::Ite => choice(alloc, parts),
        Head::Minus => difference(alloc, parts),
        Head::Slash => quotient(alloc, decimals, parts),
        Head::Operator(of) => operation(alloc, of, parts),
        Head::Symbol(by) => application(alloc, by, parts),
    }
}

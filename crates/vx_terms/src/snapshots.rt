//! The symbols of the preamble: null, and those of snapshots.

ghost use Rattle.std.specs.Prelude.{◌≡◌, ◌<◌, IfOk, MatchOption};
ghost use Rattle.vx_terms.specs.Build as built;
ghost use Rattle.vx_terms.specs.Sorts.{Sort as Sort', Standard};
ghost use Rattle.vx_terms.specs.Terms as written;
ghost use Rattle.vx_terms.specs.Views.{term, terms, sort as sort_view};

use crate::make::{apply, symbol};
use crate::{Sort, Symbol, Term, Terms};
use std::alloc::{AllocError, Global};
use std::rc::Rc;

/// The reference `null`.
///
/// # Errors
/// `AllocError` if there is no memory for it.
pub fn null(alloc: Global) -> Result<Rc<Term>, AllocError>
    ensures { IfOk result (λ t. term t.value ≡ built.null) }
{
    symbol(alloc, Symbol::Standard(0), Sort::Ref)
}

/// The snapshot of nothing.
///
/// # Errors
/// `AllocError` if there is no memory for it.
pub fn unit(alloc: Global) -> Result<Rc<Term>, AllocError>
    ensures { IfOk result (λ t. term t.value ≡ built.unit) }
{
    symbol(alloc, Symbol::Standard(1), Sort::Snap)
}

/// A list of one term.
fn one(alloc: Global, t: &Rc<Term>) -> Result<Rc<Terms>, AllocError>
    ensures { IfOk result (λ ts. terms ts.value ≡ built.one (term t.now.value)) }
{
    let none = Rc::new(alloc, Terms::None)?;
    Ok(Rc::new(alloc, Terms::More(t.clone()?, none))?)
}

/// A list of two terms.
fn two(alloc: Global, s: &Rc<Term>, t: &Rc<Term>) -> Result<Rc<Terms>, AllocError>
    ensures { IfOk result (λ ts. terms ts.value ≡ built.two (term s.now.value) (term t.now.value)) }
{
    let rest = one(alloc, t)?;
    Ok(Rc::new(alloc, Terms::More(s.clone()?, rest))?)
}

/// A standard symbol of one argument.
fn standard(alloc: Global, number: u32, sort: Sort, t: &Rc<Term>) -> Result<Rc<Term>, AllocError>
    ensures { IfOk result (λ r. term r.value ≡ written.Apply (Standard number) (sort_view sort) (built.one (term t.now.value))) }
{
    let arguments = one(alloc, t)?;
    apply(alloc, Symbol::Standard(number), sort, &arguments)
}

/// The snapshot of two parts.
///
/// # Errors
/// `AllocError` if there is no memory for it.
pub fn pair(alloc: Global, s: &Rc<Term>, t: &Rc<Term>) -> Result<Rc<Term>, AllocError>
    ensures { IfOk result (λ r. term r.value ≡ built.pair (term s.now.value) (term t.now.value)) }
{
    let arguments = two(alloc, s, t)?;
    apply(alloc, Symbol::Standard(2), Sort::Snap, &arguments)
}

/// The parts of a pair.
#[derive(Drop)]
struct Parts<'a> {
    first: &'a Rc<Term>,
    second: &'a Rc<Term>,
}

/// The parts of a term that is a pair.
fn parts_of(t: &Term) -> Option<Parts<'_>>
    ensures first { MatchOption result (built.first (term t.now) ≡ built.written_first (term t.now)) (λ p. built.first (term t.now) ≡ term p.first.now.value) }
    ensures second { MatchOption result (built.second (term t.now) ≡ built.written_second (term t.now)) (λ p. built.second (term t.now) ≡ term p.second.now.value) }
{
    match t {
        Term::Apply(Symbol::Standard(2), _, arguments) => match &**arguments {
            Terms::More(first, rest) => match &**rest {
                Terms::More(second, end) => match &**end {
                    Terms::None => Some(Parts { first, second }),
                    Terms::More(_, _) => None,
                },
                Terms::None => None,
            },
            Terms::None => None,
        },
        _ => None,
    }
}

/// The first part of a snapshot: of a pair its own.
pub fn first(alloc: Global, t: &Rc<Term>) -> Result<Rc<Term>, AllocError>
    ensures { IfOk result (λ r. term r.value ≡ built.first (term t.now.value)) }
{
    match parts_of(t) {
        Some(parts) => parts.first.clone(),
        None => standard(alloc, 3, Sort::Snap, t),
    }
}

/// The second part of a snapshot: of a pair its own.
pub fn second(alloc: Global, t: &Rc<Term>) -> Result<Rc<Term>, AllocError>
    ensures { IfOk result (λ r. term r.value ≡ built.second (term t.now.value)) }
{
    match parts_of(t) {
        Some(parts) => parts.second.clone(),
        None => standard(alloc, 4, Sort::Snap, t),
    }
}

/// The number of a sort among the wraps.
fn wrap_number_of(sort: &Sort) -> u32
    ensures value { result ≡ built.wrap_number (sort_view sort.now) }
    ensures bound { result < 4 }
{
    match sort {
        Sort::Int => 0,
        Sort::Bool => 1,
        Sort::Real => 2,
        Sort::Ref => 3,
        Sort::Snap | Sort::Other(_) => 0,
    }
}

/// A value of a sort as a snapshot.
pub fn wrap(alloc: Global, sort: &Sort, t: &Rc<Term>) -> Result<Rc<Term>, AllocError>
    ensures { IfOk result (λ r. term r.value ≡ built.wrap (sort_view sort.now) (term t.now.value)) }
{
    standard(alloc, 5 + wrap_number_of(sort), Sort::Snap, t)
}

/// A snapshot as a value of a sort, as it is written.
pub fn written_unwrap(alloc: Global, sort: &Sort, t: &Rc<Term>) -> Result<Rc<Term>, AllocError>
    ensures { IfOk result (λ r. term r.value ≡ built.written_unwrap (sort_view sort.now) (term t.now.value)) }
{
    standard(alloc, 9 + wrap_number_of(sort), sort.copy()?, t)
}

/// The only argument of a term that is a symbol's on one.
fn only_argument(t: &Term) -> Option<&Rc<Term>>
    ensures { MatchOption result ((a : Sort') → built.unwrap a (term t.now) ≡ built.written_unwrap a (term t.now)) (λ s. (a : Sort')
        → built.unwrap a (term t.now) ≡ built.unwrapped a (term s.now.value) (term t.now)) }
{
    match t {
        Term::Apply(_, _, arguments) => match &**arguments {
            Terms::More(only, end) => match &**end {
                Terms::None => Some(only),
                Terms::More(_, _) => None,
            },
            Terms::None => None,
        },
        _ => None,
    }
}

/// A snapshot as a value of a sort: of a value wrapped at that sort it itself.
pub fn unwrap(alloc: Global, sort: &Sort, t: &Rc<Term>) -> Result<Rc<Term>, AllocError>
    ensures { IfOk result (λ r. term r.value ≡ built.unwrap (sort_view sort.now) (term t.now.value)) }
{
    if let Some(s) = only_argument(t) {
        let wrapped = wrap(alloc, sort, s)?;
        if wrapped.is_same(t) {
            return s.clone();
        }
    }
    written_unwrap(alloc, sort, t)
}

/// A function's symbol on a snapshot and arguments; the sort is that of the result.
pub fn application(
    alloc: Global,
    number: u32,
    sort: Sort,
    snapshot: &Rc<Term>,
    arguments: &Rc<Terms>,
) -> Result<Rc<Term>, AllocError>
    ensures { IfOk result (λ r. term r.value ≡ built.application number (sort_view sort) (term snapshot.now.value) (terms arguments.now.value)) }
{
    let all = Rc::new(alloc, Terms::More(snapshot.clone()?, arguments.clone()?))?;
    apply(alloc, Symbol::Function(number), sort, &all)
}

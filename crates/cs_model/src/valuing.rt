//! What a model makes of terms.
ghost use Rattle.std.specs.Prelude.{◌≡◌, ◌↔◌, ◌++◌, not, map, IsTrue, IfOk, IfErr, OnOk};
ghost use Rattle.vx_terms.specs.Interpretations as clean;
ghost use Rattle.vx_terms.specs.Interpretations.{AllTrue};
ghost use Rattle.vx_terms.specs.Views.{term, terms};
ghost use Rattle.cs_model.specs.Elements.{element, elements};
ghost use Rattle.cs_model.specs.Leaving.{LeavesIn, LeavesInParts, LeavesAmong, IfOver};
ghost use Rattle.cs_model.specs.Models.{interpretation};

use crate::elements::{Element, as_sort, operate};
use crate::tables::Model;
use std::alloc::{AllocError, AllocFailed, Global};
use std::rc::Rc;
use vx_frac::Over;
use vx_terms::{Term, Terms};

/// Why there is no value: a number leaves 128 bits, or memory runs out.
#[derive(Drop)]
pub enum Stop {
    Over(Over),
    Want,
}

impl From<AllocError> for Stop {
    ghost use Rattle.cs_model.specs.declared.valuing.Stop.TheVariants.{Want};

    ghost from_gives = { λ _ e. e ≡ Want };

    fn from(_: AllocError) -> Self {
        Stop::Want
    }
}

impl<T: Drop> From<AllocFailed<T>> for Stop {
    ghost use Rattle.cs_model.specs.declared.valuing.Stop.TheVariants.{Want};

    ghost from_gives = { λ _ e. e ≡ Want };

    fn from(_: AllocFailed<T>) -> Self {
        Stop::Want
    }
}

impl From<Over> for Stop {
    ghost use Rattle.cs_model.specs.declared.valuing.Stop.TheVariants as stops;

    ghost from_gives = { λ over e. e ≡ stops.Over over };

    fn from(over: Over) -> Self {
        Stop::Over(over)
    }
}

fn denied(e: Element) -> Element
    ensures { element result ≡ clean.BoolElement (not (clean.as_bool (element e))) }
{
    match e {
        Element::Bool(b) => Element::Bool(!b),
        Element::Int(_) | Element::Real(_) | Element::Node(_) | Element::Empty => {
            Element::Bool(true)
        }
    }
}

fn is_true(e: Element) -> bool
    ensures { result ≡ clean.as_bool (element e) }
{
    match e {
        Element::Bool(b) => b,
        Element::Int(_) | Element::Real(_) | Element::Node(_) | Element::Empty => false,
    }
}

/// The value of a term.
///
/// # Errors
/// `Over` with a call that an operator in the term makes and that leaves 128 bits; `Want` where memory runs out.
#[cycle(evaluating)]
pub fn evaluate(alloc: Global, model: &Model, t: &Term) -> Result<Element, Stop>
    ensures value { IfOk result (λ e. element e ≡ clean.value (interpretation model.now.entries.items) (term t.now)) }
    ensures over { IfErr result (IfOver (λ c. LeavesIn (interpretation model.now.entries.items) c (term t.now))) }
{
    match t {
        Term::Truth(b) => Ok(Element::Bool(*b)),
        Term::Number(z) => Ok(Element::Int(*z)),
        Term::Part(a) => Ok(Element::Real(*a)),
        Term::Constant(f, a) => Ok(as_sort(a, model.look_up(f, a, &[]))),
        Term::Apply(f, a, parts) => {
            let mut arguments = Vec::new(alloc);
            evaluate_all(alloc, model, parts, &mut arguments)?;
            Ok(as_sort(a, model.look_up(f, a, &arguments)))
        }
        Term::Not(a) => Ok(denied(evaluate(alloc, model, a)?)),
        Term::Binary(of, a, b) => {
            let left = evaluate(alloc, model, a)?;
            let right = evaluate(alloc, model, b)?;
            Ok(operate(*of, left, right)?)
        }
        Term::Ite(c, a, b) => {
            let test = evaluate(alloc, model, c)?;
            let left = evaluate(alloc, model, a)?;
            let right = evaluate(alloc, model, b)?;
            Ok(if is_true(test) { left } else { right })
        }
        Term::AllOf(parts) => Ok(Element::Bool(are_true(alloc, model, parts)?)),
        Term::SomeOf(parts) => Ok(Element::Bool(is_one_true(alloc, model, parts)?)),
    }
}

/// Whether all of some terms are true.
#[cycle(evaluating)]
fn are_true(alloc: Global, model: &Model, parts: &Terms) -> Result<bool, Stop>
    ensures value { IfOk result (λ b. b ≡ clean.all_true (clean.values (interpretation model.now.entries.items) (terms parts.now))) }
    ensures over { IfErr result (IfOver (λ c. LeavesInParts (interpretation model.now.entries.items) c (terms parts.now))) }
{
    match parts {
        Terms::None => Ok(true),
        Terms::More(t, rest) => {
            let first = is_true(evaluate(alloc, model, t)?);
            let others = are_true(alloc, model, rest)?;
            Ok(first && others)
        }
    }
}

/// Whether one of some terms is true.
#[cycle(evaluating)]
fn is_one_true(alloc: Global, model: &Model, parts: &Terms) -> Result<bool, Stop>
    ensures value { IfOk result (λ b. b ≡ clean.some_true (clean.values (interpretation model.now.entries.items) (terms parts.now))) }
    ensures over { IfErr result (IfOver (λ c. LeavesInParts (interpretation model.now.entries.items) c (terms parts.now))) }
{
    match parts {
        Terms::None => Ok(false),
        Terms::More(t, rest) => {
            let first = is_true(evaluate(alloc, model, t)?);
            let others = is_one_true(alloc, model, rest)?;
            Ok(first || others)
        }
    }
}

/// Adds the values of the parts of an application.
#[cycle(evaluating)]
fn evaluate_all(
    alloc: Global,
    model: &Model,
    parts: &Terms,
    values: &mut Vec<Element>,
) -> Result<(), Stop>
    ensures values { OnOk result (elements values.new.items ≡ elements values.old.items ++ clean.values (interpretation model.now.entries.items) (terms parts.now)) }
    ensures over { IfErr result (IfOver (λ c. LeavesInParts (interpretation model.now.entries.items) c (terms parts.now))) }
{
    match parts {
        Terms::None => Ok(()),
        Terms::More(t, rest) => {
            let value = evaluate(alloc, model, t)?;
            values.push(value)?;
            evaluate_all(alloc, model, rest, values)?;
            Ok(())
        }
    }
}

/// Whether all assertions are true.
///
/// # Errors
/// Those of `evaluate`, at one of the assertions.
pub fn is_model(alloc: Global, model: &Model, assertions: &[Rc<Term>]) -> Result<bool, Stop>
    ensures value { IfOk result (λ b. IsTrue b ↔ AllTrue (interpretation model.now.entries.items) (map (λ x. term x.value) assertions.now)) }
    ensures over { IfErr result (IfOver (λ c. LeavesAmong (interpretation model.now.entries.items) c (map (λ x. term x.value) assertions.now))) }
{
    for assertion in assertions {
        if !is_true(evaluate(alloc, model, assertion)?) {
            return Ok(false);
        }
    }
    Ok(true)
}

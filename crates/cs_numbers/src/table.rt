//! The nodes of numbered terms.
ghost use Rattle.std.specs.Prelude.{◌≡◌, ◌++◌, map, IfOk, Some, [], ◌∷◌, slice_get};
ghost use Rattle.vx_terms.specs.Views.{term, terms, sort};
ghost use Rattle.cs_certificate.specs.Terms.{head, items, parts};
ghost use Rattle.cs_table.specs.Views as views;
ghost use Rattle.cs_table.specs.Gives.{Gives};
ghost use Rattle.cs_index.specs.Found.{passes_at};
ghost use Rattle.vx_terms.specs.Terms.{same};
ghost use Rattle.cs_numbers.specs.Keys.{term_key};
ghost use Rattle.cs_numbers.specs.Listed.{terms_in};
ghost use Rattle.cs_numbers.specs.Numbering as clean;

use crate::NumberedTerms;
use crate::key::key;
use cs_table::{Head, Node, Stop};
use std::alloc::{AllocError, Global};
use std::rc::Rc;
use vx_terms::{Term, Terms};

/// Whether a term has this number.
fn is_at(all: &[Rc<Term>], number: u32, t: &Term) -> bool
    ensures { result ≡ passes_at (same (term t.now)) (map (λ x. term x.value) all.now) number }
{
    match all.get(number as usize) {
        Some(other) => t.is_same(other),
        None => false,
    }
}

/// The number of a term with this key.
pub fn place_under(all: &NumberedTerms, t: &Term, key: u64) -> Option<u32>
    requires { key ≡ term_key (term t.now) }
    ensures { result ≡ clean.place (terms_in all.now) (term t.now) }
{
    for number in all.index.under(key) {
        if is_at(&all.terms, *number, t) {
            return Some(*number);
        }
    }
    None
}

/// The number of a term.
fn place(all: &NumberedTerms, t: &Term) -> Option<u32>
    ensures { result ≡ clean.place (terms_in all.now) (term t.now) }
{
    place_under(all, t, key(t))
}

/// The number of a term.
///
/// # Errors
/// `Miss` where it has none.
pub fn place_of(all: &NumberedTerms, t: &Term) -> Result<u32, Stop>
    ensures { Gives (λ n. n) result (clean.place (terms_in all.now) (term t.now)) }
{
    match place(all, t) {
        Some(number) => Ok(number),
        None => Err(Stop::Miss),
    }
}

fn one(alloc: Global, a: u32) -> Result<Vec<u32>, Stop>
    ensures { Gives (λ v. v.items) result (Some (a ∷ [])) }
{
    let mut numbers = Vec::new(alloc);
    numbers.push(a)?;
    Ok(numbers)
}

fn two(alloc: Global, a: u32, b: u32) -> Result<Vec<u32>, Stop>
    ensures { Gives (λ v. v.items) result (Some (a ∷ b ∷ [])) }
{
    let mut numbers = Vec::new(alloc);
    numbers.push(a)?;
    numbers.push(b)?;
    Ok(numbers)
}

fn three(alloc: Global, a: u32, b: u32, c: u32) -> Result<Vec<u32>, Stop>
    ensures { Gives (λ v. v.items) result (Some (a ∷ b ∷ c ∷ [])) }
{
    let mut numbers = Vec::new(alloc);
    numbers.push(a)?;
    numbers.push(b)?;
    numbers.push(c)?;
    Ok(numbers)
}

/// The numbers of the parts of an application, behind those that are there.
fn places_after(numbers: Vec<u32>, all: &NumberedTerms, parts: &Terms) -> Result<Vec<u32>, Stop>
    ensures { Gives (λ v. v.items) result (clean.places_after numbers.items (terms_in all.now) (items (terms parts.now))) }
{
    let mut numbers = numbers;
    match parts {
        Terms::None => Ok(numbers),
        Terms::More(t, rest) => {
            let number = place_of(all, t)?;
            numbers.push(number)?;
            places_after(numbers, all, rest)
        }
    }
}

/// The numbers of a term's parts.
fn places(alloc: Global, all: &NumberedTerms, t: &Term) -> Result<Vec<u32>, Stop>
    ensures { Gives (λ v. v.items) result (clean.places (terms_in all.now) (parts (term t.now))) }
{
    match t {
        Term::Truth(_) | Term::Number(_) | Term::Part(_) | Term::Constant(_, _) => {
            Ok(Vec::new(alloc))
        }
        Term::Apply(_, _, parts) | Term::AllOf(parts) | Term::SomeOf(parts) => {
            places_after(Vec::new(alloc), all, parts)
        }
        Term::Not(a) => {
            let first = place_of(all, a)?;
            one(alloc, first)
        }
        Term::Binary(_, a, b) => {
            let first = place_of(all, a)?;
            let second = place_of(all, b)?;
            two(alloc, first, second)
        }
        Term::Ite(c, a, b) => {
            let first = place_of(all, c)?;
            let second = place_of(all, a)?;
            let third = place_of(all, b)?;
            three(alloc, first, second, third)
        }
    }
}

/// What stands before a term's parts.
fn head_of(t: &Term) -> Result<Head, AllocError>
    ensures { IfOk result (λ h. views.head h ≡ head (term t.now)) }
{
    match t {
        Term::Truth(holds) => Ok(Head::Truth(*holds)),
        Term::Number(number) => Ok(Head::Number(*number)),
        Term::Part(part) => Ok(Head::Part(*part)),
        Term::Constant(f, sort) => Ok(Head::Constant(f.copy()?, sort.copy()?)),
        Term::Apply(f, sort, _) => Ok(Head::Apply(f.copy()?, sort.copy()?)),
        Term::Not(_) => Ok(Head::Not),
        Term::Binary(of, _, _) => Ok(Head::Binary(*of)),
        Term::Ite(_, _, _) => Ok(Head::Ite),
        Term::AllOf(_) => Ok(Head::All),
        Term::SomeOf(_) => Ok(Head::Some),
    }
}

/// The numbers of the parts of the term with this number.
fn parts_of(alloc: Global, all: &NumberedTerms, number: u32, t: &Term) -> Result<Vec<u32>, Stop>
    requires { slice_get (terms_in all.now) number ≡ Some (term t.now) }
    ensures { Gives (λ v. v.items) result (clean.places (terms_in all.now) (parts (term t.now))) }
{
    match all.parts_at(number) {
        Some(numbers) => Ok(numbers.to_vec(alloc)?),
        None => places(alloc, all, t),
    }
}

/// The node of a term whose parts have these numbers.
fn node_with(t: &Term, parts: Vec<u32>) -> Result<Node, AllocError>
    ensures { IfOk result (λ n. views.node n ≡ clean.node_with (term t.now) parts.items) }
{
    let head = head_of(t)?;
    let sort = t.sort()?;
    Ok(Node { head, parts, sort })
}

/// The node of a term.
///
/// # Errors
/// `Miss` where a part of it has no number; `Want` where memory runs out.
pub fn node_of(alloc: Global, all: &NumberedTerms, t: &Term) -> Result<Node, Stop>
    ensures { Gives views.node result (clean.node_of (terms_in all.now) (term t.now)) }
{
    let parts = places(alloc, all, t)?;
    Ok(node_with(t, parts)?)
}

/// The node of the term with this number. Its parts' numbers are known, so nothing is looked up.
///
/// # Errors
/// `Miss` where no term has the number, or a part of it has none; `Want` where memory runs out.
pub fn node_at(alloc: Global, all: &NumberedTerms, number: u32) -> Result<Node, Stop>
    ensures { Gives views.node result (clean.node_at (terms_in all.now) number) }
{
    let Some(t) = all.terms.get(number as usize) else {
        return Err(Stop::Miss);
    };
    let parts = parts_of(alloc, all, number, t)?;
    Ok(node_with(t, parts)?)
}

/// The nodes of numbered terms.
///
/// # Errors
/// `Miss` where a part of one has no number; `Want` where memory runs out.
pub fn nodes_of(alloc: Global, all: &NumberedTerms) -> Result<Vec<Node>, Stop>
    ensures { Gives (λ v. views.nodes v.items) result (clean.nodes_of (terms_in all.now) (terms_in all.now)) }
{
    let mut nodes = Vec::new(alloc);
    for number in 0..all.terms.len() {
        nodes.push(node_at(alloc, all, number as u32)?)?;
    }
    Ok(nodes)
}

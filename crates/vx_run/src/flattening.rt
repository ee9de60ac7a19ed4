//! What lies inside an instance, piece by piece. What is left is kept in a list: instances may be as deep as a run has steps.
ghost use Rattle.std.specs.Prelude.{◌≡◌, ◌∷◌, [], ◌++◌, IfOk, OnOk, string_bytes};
ghost use Rattle.vx_ast.specs.Syntax as syntax;
ghost use Rattle.vx_ast.specs.Syntax.{Points};
ghost use Rattle.vx_frac.specs.Fraction.{fraction};
ghost use Rattle.vx_frac.specs.Fractions.{lowest, product};
ghost use Rattle.vx_meaning.specs.States.{Heap as Heap'};
ghost use Rattle.vx_resolved.specs.Resolved.{expr, exprs, assertion};
ghost use Rattle.vx_resolved.specs.Settled.{settled};
ghost use Rattle.vx_run.specs.Flattening.{found, TakesApart, LooksInside, FindsEntry, FindsPiece, FindsAll};
ghost use Rattle.vx_run.specs.Held.{heap as heap_of, instance as instance_of, resource};

use crate::binding::bind;
use crate::heap::Heap;
use crate::members::predicate_named;
use crate::resource::{Instance, Location, Resource};
use crate::store::Variable;
use crate::unfolding::instance;
use crate::valuing::{reference_of, share_of, truth_of, values_of};
use std::alloc::{AllocError, Global};
use std::rc::Rc;
use vx_ast::Place;
use vx_frac::Frac;
use vx_resolved::{Assertion, Expr, Exprs, Predicate, Settled};

/// What is left to be found: how many instances may be within one another in it, and its scale.
#[derive(Drop)]
pub enum Piece<'p> {
    /// A part of a body, with these variables.
    Part(u64, Frac, Rc<Vec<Variable>>, &'p Assertion),
    /// A location or an instance, with all that is inside.
    Entry(u64, Frac, Resource),
}

/// So much of a resource.
#[derive(Drop)]
pub struct Found {
    pub resource: Resource,
    pub amount: Frac,
}

/// So much of a resource is found.
pub fn put_found(all: &mut Vec<Found>, r: Resource, a: Frac) -> Result<(), AllocError>
    ensures { OnOk result (found all.new.items ≡ found all.old.items ++ (resource r, fraction a) ∷ []) }
{
    all.push(Found {
        resource: r,
        amount: a,
    })?;
    Ok(())
}

/// The product, where it fits.
fn scaled(q: Frac, a: Frac) -> Result<Frac, AllocError>
    ensures { IfOk result (λ f. fraction f ≡ lowest (product (fraction q) (fraction a))) }
{
    match q.mul(a) {
        Ok(f) => Ok(f),
        Err(_) => Err(AllocError),
    }
}

/// A permission of a field in a body; whether it has values.
fn find_points<'p>(
    alloc: Global,
    program: &'p Settled,
    heap: &Rc<Heap>,
    left: &mut Vec<Piece<'p>>,
    n: u64,
    q: Frac,
    x: &Rc<Vec<Variable>>,
    e: &'p Expr,
    f: &'p Rc<String>,
    share: &'p Expr,
) -> Result<bool, AllocError>
    ensures { IfOk result (λ there. (at : Place) → TakesApart (settled program.now) (heap_of heap.now.value) there left.old.items left.new.items n q x.now.value.items (Points at (expr e.now) (string_bytes f.now.value) (expr share.now))) }
{
    let reference = reference_of(alloc, program, x, heap, e)?;
    match reference {
        None => Ok(false),
        Some(receiver) => {
            let amount = share_of(alloc, program, x, heap, share)?;
            match amount {
                None => Ok(false),
                Some(a) => {
                    let field = f.clone()?;
                    let product = scaled(q, a)?;
                    let r = Resource::At(Location { receiver, field });
                    left.push(Piece::Entry(n, product, r))?;
                    Ok(true)
                }
            }
        }
    }
}

/// A permission of a predicate in a body; whether it has values.
fn find_instance<'p>(
    alloc: Global,
    program: &'p Settled,
    heap: &Rc<Heap>,
    left: &mut Vec<Piece<'p>>,
    n: u64,
    q: Frac,
    x: &Rc<Vec<Variable>>,
    i: &'p Rc<String>,
    es: &'p Exprs,
    share: &'p Expr,
) -> Result<bool, AllocError>
    ensures { IfOk result (λ there. (at : Place) → TakesApart (settled program.now) (heap_of heap.now.value) there left.old.items left.new.items n q x.now.value.items (syntax.Instance at (string_bytes i.now.value) (exprs es.now) (expr share.now))) }
{
    let arguments = values_of(alloc, program, x, heap, es)?;
    match arguments {
        None => Ok(false),
        Some(vs) => {
            let amount = share_of(alloc, program, x, heap, share)?;
            match amount {
                None => Ok(false),
                Some(a) => {
                    let product = scaled(q, a)?;
                    let held = instance(alloc, i, vs)?;
                    left.push(Piece::Entry(n, product, Resource::Folded(held)))?;
                    Ok(true)
                }
            }
        }
    }
}

/// A part of a body is taken apart; whether it has values.
fn find_part<'p>(
    alloc: Global,
    program: &'p Settled,
    heap: &Rc<Heap>,
    left: &mut Vec<Piece<'p>>,
    n: u64,
    q: Frac,
    x: Rc<Vec<Variable>>,
    a: &'p Assertion,
) -> Result<bool, AllocError>
    ensures { IfOk result (λ there. TakesApart (settled program.now) (heap_of heap.now.value) there left.old.items left.new.items n q x.value.items (assertion a.now)) }
{
    match a {
        Assertion::Pure(e) => {
            let truth = truth_of(alloc, program, &x, heap, e)?;
            match truth {
                Some(b) => Ok(b),
                None => Ok(false),
            }
        }
        Assertion::Points(_, e, f, share) => {
            let there = find_points(alloc, program, heap, left, n, q, &x, e, f, share)?;
            Ok(there)
        }
        Assertion::Instance(_, i, es, share) => {
            let there = find_instance(alloc, program, heap, left, n, q, &x, i, es, share)?;
            Ok(there)
        }
        Assertion::Both(a, b) => {
            let same = x.clone()?;
            left.push(Piece::Part(n, q, x, b))?;
            left.push(Piece::Part(n, q, same, a))?;
            Ok(true)
        }
        Assertion::Implied(c, a) => {
            let truth = truth_of(alloc, program, &x, heap, c)?;
            match truth {
                Some(true) => {
                    left.push(Piece::Part(n, q, x, a))?;
                    Ok(true)
                }
                Some(false) => Ok(true),
                None => Ok(false),
            }
        }
        Assertion::Chosen(c, a, b) => {
            let truth = truth_of(alloc, program, &x, heap, c)?;
            match truth {
                Some(true) => {
                    left.push(Piece::Part(n, q, x, a))?;
                    Ok(true)
                }
                Some(false) => {
                    left.push(Piece::Part(n, q, x, b))?;
                    Ok(true)
                }
                None => Ok(false),
            }
        }
    }
}

/// What is inside an instance is to be found; whether it comes to an end here.
fn find_inner<'p>(
    alloc: Global,
    program: &'p Settled,
    left: &mut Vec<Piece<'p>>,
    n: u64,
    q: Frac,
    i: &Instance,
) -> Result<bool, AllocError>
    ensures { IfOk result (λ there. (h : Heap') → LooksInside (settled program.now) h there left.old.items left.new.items n q (instance_of i.now)) }
{
    if n == 0 {
        return Ok(false);
    }
    match predicate_named(program, &i.predicate) {
        None => Ok(false),
        Some(d) => match &d.body {
            None => Ok(true),
            Some(a) => {
                let mut x = Vec::new(alloc);
                bind(&mut x, &d.parameters, &i.arguments)?;
                let variables = Rc::new(alloc, x)?;
                left.push(Piece::Part(n - 1, q, variables, a))?;
                Ok(true)
            }
        },
    }
}

/// So much of a resource is found, and what is inside it is to be; whether that comes to an end here.
fn find_entry<'p>(
    alloc: Global,
    program: &'p Settled,
    left: &mut Vec<Piece<'p>>,
    all: &mut Vec<Found>,
    n: u64,
    q: Frac,
    r: Resource,
) -> Result<bool, AllocError>
    ensures { IfOk result (λ there. (h : Heap') → FindsEntry (settled program.now) h there left.old.items left.new.items (found all.old.items) (found all.new.items) n q (resource r)) }
{
    match r {
        Resource::At(l) => {
            put_found(all, Resource::At(l), q)?;
            Ok(true)
        }
        Resource::Folded(i) => {
            let goes_on = find_inner(alloc, program, left, n, q, &i)?;
            if !goes_on {
                return Ok(false);
            }
            put_found(all, Resource::Folded(i), q)?;
            Ok(true)
        }
    }
}

/// A piece is found, or taken apart; whether there is all that it names.
fn find_piece<'p>(
    alloc: Global,
    program: &'p Settled,
    heap: &Rc<Heap>,
    left: &mut Vec<Piece<'p>>,
    all: &mut Vec<Found>,
    next: Piece<'p>,
) -> Result<bool, AllocError>
    ensures { IfOk result (λ there. FindsPiece (settled program.now) (heap_of heap.now.value) there left.old.items left.new.items (found all.old.items) (found all.new.items) next.entry) }
{
    match next {
        Piece::Part(n, q, x, a) => {
            let there = find_part(alloc, program, heap, left, n, q, x, a)?;
            Ok(there)
        }
        Piece::Entry(n, q, r) => {
            let there = find_entry(alloc, program, left, all, n, q, r)?;
            Ok(there)
        }
    }
}

/// So much of a resource with all that is inside it, where that comes to an end within so many instances; it is put behind what was found.
/// Where it doesn't, nothing is.
pub fn find_all<'p>(
    alloc: Global,
    program: &'p Settled,
    heap: &Rc<Heap>,
    all: &mut Vec<Found>,
    n: u64,
    q: Frac,
    r: Resource,
) -> Result<bool, AllocError>
    ensures { IfOk result (λ there. FindsAll (settled program.now) (heap_of heap.now.value) there (found all.old.items) (found all.new.items) n q (resource r)) }
{
    let before = all.len();
    let mut left = Vec::new(alloc);
    left.push(Piece::Entry(n, q, r))?;
    for _ in 0..u64::MAX {
        match left.pop() {
            None => return Ok(true),
            Some(next) => {
                let there = find_piece(alloc, program, heap, &mut left, all, next)?;
                if !there {
                    all.truncate(before);
                    return Ok(false);
                }
            }
        }
    }
    Err(AllocError)
}

//! The two orders of one equality. A step that names an equality in either order stands for the order that is numbered
//! first; where both orders are live, the search is given that each follows from the other.

use crate::clauses::Clauses;
use crate::numbered::{Record, wide};
use cs_proof::Step;
use cs_table::{Literal, Stop, equality, number_of};
use std::alloc::Global;
use std::rc::Rc;
use vx_terms::Term;

/// The number of the other order of an equality that isn't Bool, where it is numbered later.
fn later_order(record: &Record, first: u32) -> Result<Option<u32>, Stop> {
    let Some((a, b)) = record.sides(first)? else {
        return Ok(None);
    };
    let node = record.node(first)?;
    match number_of(&record.table, &node.head, &[b, a]) {
        Some(second) if first < second => Ok(Some(second)),
        _ => Ok(None),
    }
}

/// One equality follows from another, by hints.
fn put_implied(
    alloc: Global,
    clauses: &mut Clauses,
    record: &mut Record,
    from: u32,
    to: u32,
    hints: Vec<u128>,
) -> Result<(), Stop> {
    let literals = [
        Literal {
            positive: false,
            number: from,
        },
        Literal {
            positive: true,
            number: to,
        },
    ];
    let number = record.propagate(alloc, &literals, hints)?;
    clauses.put(alloc, &literals, number)
}

/// From the order that is numbered first to the second one.
fn put_forth(
    alloc: Global,
    clauses: &mut Clauses,
    record: &mut Record,
    first: u32,
    second: u32,
) -> Result<(), Stop> {
    let same = record.equality_of(alloc, first, second)?;
    let mut hints = Vec::new(alloc);
    record.hint(
        &mut hints,
        Step::Congruence(u128::from(first), u128::from(second)),
    )?;
    record.hint(&mut hints, Step::Define(u128::from(same), 0))?;
    put_implied(alloc, clauses, record, first, second, hints)
}

/// The choice `(ite true b c)`.
fn choice(alloc: Global, record: &Record, b: u32, c: u32) -> Result<Rc<Term>, Stop> {
    let truth = Rc::new(alloc, Term::Truth(true))?;
    let term = Term::Ite(truth, record.term(b)?, record.term(c)?);
    Ok(Rc::new(alloc, term)?)
}

/// Another name c of b, `(ite true b ..)`, such that neither order of `c = a` is numbered.
fn other_name(alloc: Global, record: &mut Record, b: u32, a: u32) -> Result<u32, Stop> {
    let mut last = b;
    for _ in 0..u32::MAX {
        let term = choice(alloc, record, b, last)?;
        last = record.name(alloc, &term)?;
        if equality(&record.table, last, a).is_none() {
            return Ok(last);
        }
    }
    Err(Stop::Want)
}

/// Another name c of b is equal to b.
fn hint_name(
    alloc: Global,
    record: &mut Record,
    hints: &mut Vec<u128>,
    b: u32,
    c: u32,
) -> Result<(), Stop> {
    let yes = record.truth(alloc, true)?;
    record.equality_of(alloc, c, b)?;
    record.hint(hints, Step::Define(u128::from(yes), 0))?;
    record.hint(hints, Step::Pick(u128::from(c), 0))
}

/// Where an equality `b = a` is true, `c = a` is, c being another name of b.
fn hint_moved(
    alloc: Global,
    record: &mut Record,
    hints: &mut Vec<u128>,
    from: u32,
    to: u32,
) -> Result<(), Stop> {
    let same = record.equality_as(alloc, from, to)?;
    record.hint(hints, Step::Congruence(u128::from(from), u128::from(to)))?;
    record.hint(hints, Step::Define(u128::from(same), 0))
}

/// From the second order, `b = a`, to the first one: by another name c of b, `c = b`, and `c = a`.
fn put_back(
    alloc: Global,
    clauses: &mut Clauses,
    record: &mut Record,
    first: u32,
    second: u32,
) -> Result<(), Stop> {
    let Some((b, a)) = record.sides(second)? else {
        return Err(Stop::Miss);
    };
    let c = other_name(alloc, record, b, a)?;
    let moved = record.equality_as(alloc, c, a)?;
    let mut hints = Vec::new(alloc);
    hint_name(alloc, record, &mut hints, b, c)?;
    hint_moved(alloc, record, &mut hints, second, moved)?;
    record.hint(&mut hints, Step::Chain(wide(alloc, &[b, c, a])?))?;
    put_implied(alloc, clauses, record, second, first, hints)
}

/// Both orders of the equality of this number follow from one another, if it is one and both are numbered.
fn put_order(
    alloc: Global,
    clauses: &mut Clauses,
    record: &mut Record,
    first: u32,
) -> Result<(), Stop> {
    if let Some(second) = later_order(record, first)? {
        put_forth(alloc, clauses, record, first, second)?;
        put_back(alloc, clauses, record, first, second)?;
    }
    Ok(())
}

/// The equalities among the first terms whose two orders are numbered.
///
/// # Errors
/// `Want` where memory runs out.
pub fn put_orders(
    alloc: Global,
    clauses: &mut Clauses,
    record: &mut Record,
    count: u32,
) -> Result<(), Stop> {
    for t in 0..count {
        put_order(alloc, clauses, record, t)?;
    }
    Ok(())
}

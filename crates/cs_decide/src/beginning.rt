//! Cases of numbers with which the last attempt begins: each number of the assertions is told apart from 0, 1, -1, 2 and so on.

use cs_record::cases::{order, parted};
use cs_record::clauses::Clauses;
use cs_record::draft::Lemma;
use cs_record::numbered::Record;
use cs_sums::{Stop, numbers_of};
use cs_table::Head;
use std::alloc::Global;
use std::rc::Rc;
use vx_frac::Frac;
use vx_terms::{Sort, Term};

/// So many clauses of cases come before the search.
pub(crate) const CASES: u32 = 1_000;

fn is_literal(head: &Head) -> bool {
    match head {
        Head::Number(_) | Head::Part(_) => true,
        _ => false,
    }
}

/// The numbers among the first terms that are no literals.
fn numbers(alloc: Global, record: &Record, count: u32) -> Result<Vec<u32>, Stop> {
    let mut terms = Vec::new(alloc);
    for number in 0..count {
        let node = record.node(number)?;
        if numbers_of(&node.sort).is_some() && !is_literal(&node.head) {
            terms.push(number)?;
        }
    }
    Ok(terms)
}

/// The whole numbers in the order 0, 1, -1, 2 and so on.
fn whole_at(place: u32) -> i128 {
    let half = i128::from(place / 2);
    if place % 2 == 0 { -half } else { half + 1 }
}

/// The cases of a term at a whole number.
fn cases_at(alloc: Global, record: &mut Record, term: u32, value: i128) -> Result<Lemma, Stop> {
    match &record.node(term)?.sort {
        Sort::Int => Ok(parted(alloc, record, &[(term, 1)], value)?),
        _ => {
            let part = Rc::new(alloc, Term::Part(Frac::whole(value)))?;
            let literal = record.name(alloc, &part)?;
            Ok(order(alloc, record, term, literal)?)
        }
    }
}

/// The cases of the numbers among the first terms, at one whole number after another.
///
/// # Errors
/// `Want` where memory runs out.
pub(crate) fn put_cases(
    alloc: Global,
    clauses: &mut Clauses,
    record: &mut Record,
    count: u32,
) -> Result<(), Stop> {
    let terms = numbers(alloc, record, count)?;
    let mut left = CASES;
    for place in 0..CASES {
        for term in &terms {
            if left == 0 {
                return Ok(());
            }
            left -= 1;
            let lemma = cases_at(alloc, record, *term, whole_at(place))?;
            clauses.put(alloc, &lemma.literals, lemma.number)?;
        }
    }
    Ok(())
}

//! Products of two terms that are no literals, whose meaning linear arithmetic doesn't have. Where the values make another number of a product
//! than of its factors, one factor is told apart from its value; and where it is that number, the product is that multiple of the other.

use crate::elements::Sources;
use crate::figures::Cases;
use cs_claims::claims::value_of;
use cs_proof::Step;
use cs_record::atoms::Atoms;
use cs_record::cases::order;
use cs_record::draft::Lemma;
use cs_record::numbered::Record;
use cs_search::Value;
use cs_sums::Stop;
use cs_table::{Head, congruence};
use std::alloc::Global;
use std::rc::Rc;
use vx_frac::Frac;
use vx_terms::{Operator, Sort, Term};

/// A product, and its factors.
#[derive(Clone, Copy)]
struct Product {
    number: u32,
    left: u32,
    right: u32,
}

/// A factor of a product, and its value.
#[derive(Clone, Copy)]
pub struct Factor {
    product: Product,
    value: Frac,
}

/// Whether the term is a literal.
fn is_literal(record: &Record, number: u32) -> Result<bool, Stop> {
    Ok(matches!(record.node(number)?.head, Head::Number(_) | Head::Part(_)))
}

/// The product that a term is, if it is one of two terms that are no literals.
fn product_of(record: &Record, number: u32) -> Result<Option<Product>, Stop> {
    let node = record.node(number)?;
    let Head::Binary(Operator::Multiply) = &node.head else {
        return Ok(None);
    };
    let [left, right] = node.parts.as_slice() else {
        return Ok(None);
    };
    if is_literal(record, *left)? || is_literal(record, *right)? {
        return Ok(None);
    }
    Ok(Some(Product {
        number,
        left: *left,
        right: *right,
    }))
}

/// The left factor of a product whose value isn't that of its factors. A product that leaves 128 bits is left to the evaluation.
fn misread(sources: &Sources<'_>, product: Product) -> Result<Option<Factor>, Stop> {
    let value = sources.figures.value(sources.record, product.left)?;
    let other = sources.figures.value(sources.record, product.right)?;
    let own = sources.figures.value(sources.record, product.number)?;
    let Ok(made) = value.mul(other) else {
        return Ok(None);
    };
    if made == own {
        return Ok(None);
    }
    Ok(Some(Factor { product, value }))
}

/// The left factor of the first product whose value isn't that of its factors, if there is one among the first terms.
///
/// # Errors
/// `Over` where a fraction leaves 128 bits; `Miss` where no term has a number.
pub fn misread_factor(sources: &Sources<'_>, count: u32) -> Result<Option<Factor>, Stop> {
    for number in 0..count {
        if let Some(product) = product_of(sources.record, number)? {
            if let Some(factor) = misread(sources, product)? {
                return Ok(Some(factor));
            }
        }
    }
    Ok(None)
}

/// The number of the literal that is a term's value.
fn literal(alloc: Global, record: &mut Record, term: u32, value: Frac) -> Result<u32, Stop> {
    match &record.node(term)?.sort {
        Sort::Int => Ok(record.whole(alloc, value.num())?),
        _ => {
            let part = Rc::new(alloc, Term::Part(value))?;
            Ok(record.name(alloc, &part)?)
        }
    }
}

/// The clause that a product is a multiple, or its factor isn't this literal.
fn multiple(
    alloc: Global,
    record: &mut Record,
    product: Product,
    literal: u32,
) -> Result<Lemma, Stop> {
    let multiple = record.binary(alloc, Operator::Multiply, literal, product.right)?;
    record.equality_of(alloc, product.number, multiple)?;
    let literals = congruence(alloc, &record.table, product.number, multiple)?;
    let step = Step::Congruence(u128::from(product.number), u128::from(multiple));
    let number = record.derive(step)?;
    Ok(Lemma { literals, number })
}

/// The cases of a factor: below its value, equal to it or above it; that it is equal comes first.
fn told_apart(
    alloc: Global,
    record: &mut Record,
    factor: u32,
    literal: u32,
) -> Result<Lemma, Stop> {
    let mut lemma = order(alloc, record, factor, literal)?;
    if lemma.literals.len() >= 2 {
        lemma.literals.swap(0, 1);
    }
    Ok(lemma)
}

/// The cases of a factor whose product is misread. Where it is claimed to be its value, the product is a multiple of the other factor.
///
/// # Errors
/// `Miss` where no term has a number; `Want` where memory runs out.
pub fn product_cases(
    alloc: Global,
    record: &mut Record,
    atoms: &Atoms,
    values: &[Value],
    factor: Factor,
) -> Result<Cases, Stop> {
    let Factor { product, value } = factor;
    let literal = literal(alloc, record, product.left, value)?;
    let equal = record.equality_of(alloc, product.left, literal)?;
    let lemma = match value_of(values, atoms.find(equal)) {
        Some(true) => multiple(alloc, record, product, literal)?,
        _ => told_apart(alloc, record, product.left, literal)?,
    };
    Ok(Cases {
        lemma,
        first: true,
        of_split: false,
    })
}

//! Numbered terms as sums of columns, and their values.

use crate::{Columns, Line, Stop, Sum, turned};
use cs_farkas::{Numbers, Reading, reading_of};
use cs_table::{Head, Node};
use std::alloc::Global;
use vx_frac::Frac;
use vx_terms::{Operator, Sort};

/// The numbers that a sort has, if it is Int or Real.
pub fn numbers_of(sort: &Sort) -> Option<Numbers> {
    match sort {
        Sort::Int => Some(Numbers::Int),
        Sort::Real => Some(Numbers::Real),
        Sort::Bool | Sort::Ref | Sort::Snap | Sort::Other(_) => None,
    }
}

fn is_product(node: &Node) -> bool {
    match &node.head {
        Head::Binary(Operator::Multiply) => true,
        _ => false,
    }
}

/// Adds a term of at most so many layers, times a factor.
fn add_term(
    nodes: &[Node],
    layers: u32,
    numbers: Numbers,
    factor: Frac,
    term: u32,
    columns: &mut Columns,
    to: &mut Sum,
) -> Result<(), Stop> {
    let Some(layers) = layers.checked_sub(1) else {
        return Err(Stop::Miss);
    };
    let Some(node) = nodes.get(term as usize) else {
        return Err(Stop::Miss);
    };
    match reading_of(nodes, node) {
        Reading::Literal(literal) => to.add_constant(factor.mul(literal)?),
        Reading::Sum(a, b) => {
            add_term(nodes, layers, numbers, factor, a, columns, to)?;
            add_term(nodes, layers, numbers, factor, b, columns, to)
        }
        Reading::Difference(a, b) => {
            add_term(nodes, layers, numbers, factor, a, columns, to)?;
            add_term(nodes, layers, numbers, turned(factor)?, b, columns, to)
        }
        Reading::Multiple(literal, a) => {
            let factor = factor.mul(literal)?;
            add_term(nodes, layers, numbers, factor, a, columns, to)
        }
        Reading::Column => {
            columns.has_products |= is_product(node);
            let column = columns.column_of(numbers, term)?;
            to.add(column, factor)
        }
    }
}

/// How many layers a term can have at most.
fn layers_of(nodes: &[Node]) -> u32 {
    u32::try_from(nodes.len()).unwrap_or(u32::MAX)
}

/// One term less another, as a line.
///
/// # Errors
/// `Over` where a fraction leaves 128 bits; `Miss` where no term has a number; `Want` where memory runs out.
pub fn line_between(
    alloc: Global,
    nodes: &[Node],
    columns: &mut Columns,
    numbers: Numbers,
    a: u32,
    b: u32,
) -> Result<Line, Stop> {
    let layers = layers_of(nodes);
    let mut sum = Sum::new(alloc);
    add_term(nodes, layers, numbers, Frac::whole(1), a, columns, &mut sum)?;
    add_term(
        nodes,
        layers,
        numbers,
        Frac::whole(-1),
        b,
        columns,
        &mut sum,
    )?;
    let sum = sum.tidied(alloc)?;
    columns.line_of(alloc, numbers, &sum)
}

/// The value of a term of at most so many layers. A term without a column is 0.
fn value_in(
    nodes: &[Node],
    layers: u32,
    term: u32,
    columns: &Columns,
    values: &[Frac],
) -> Result<Frac, Stop> {
    let Some(layers) = layers.checked_sub(1) else {
        return Err(Stop::Miss);
    };
    let Some(node) = nodes.get(term as usize) else {
        return Err(Stop::Miss);
    };
    match reading_of(nodes, node) {
        Reading::Literal(literal) => Ok(literal),
        Reading::Sum(a, b) => {
            let left = value_in(nodes, layers, a, columns, values)?;
            let right = value_in(nodes, layers, b, columns, values)?;
            Ok(left.add(right)?)
        }
        Reading::Difference(a, b) => {
            let left = value_in(nodes, layers, a, columns, values)?;
            let right = value_in(nodes, layers, b, columns, values)?;
            Ok(left.sub(right)?)
        }
        Reading::Multiple(literal, a) => {
            let value = value_in(nodes, layers, a, columns, values)?;
            Ok(literal.mul(value)?)
        }
        Reading::Column => Ok(value_of_column(values, columns.find(term))),
    }
}

fn value_of_column(values: &[Frac], column: Option<u32>) -> Frac {
    match column {
        Some(column) => match values.get(column as usize) {
            Some(value) => *value,
            None => Frac::whole(0),
        },
        None => Frac::whole(0),
    }
}

/// The value of a term, by the values of the columns. A term without a column is 0.
///
/// # Errors
/// `Over` where a fraction leaves 128 bits; `Miss` where no term has the number.
pub fn value_at(
    nodes: &[Node],
    term: u32,
    columns: &Columns,
    values: &[Frac],
) -> Result<Frac, Stop> {
    value_in(nodes, layers_of(nodes), term, columns, values)
}

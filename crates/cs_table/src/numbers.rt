//! The clauses of `split` and `div`.
ghost use Rattle.std.specs.Prelude.{◌≡◌, ◌<◌, ◌^◌, ℤ, pos, ◌+ℤ◌, unsigned_abs, false, length, None, FitsSigned};
ghost use Rattle.std.specs.Int.{w128};
ghost use Rattle.cs_certificate.specs.Terms.{NumberHead};
ghost use Rattle.cs_certificate.specs.Nodes.{same_head};
ghost use Rattle.cs_certificate.specs.Steps as clean;
ghost use Rattle.cs_table.specs.Table.{nodes_in};
ghost use Rattle.cs_table.specs.Views.{head, nodes};
ghost use Rattle.cs_table.specs.Gives.{Gives, clause};

use crate::steps::{binary_at, equality_at, node_at, number_at, one, plain, two};
use crate::{Head, Literal, Node, Stop, Table};
use std::alloc::Global;
use vx_terms::{Operator, Sort};

/// The literals of a table are within 128 bits: its numbers are read to show it.
fn see_number(of: &Head)
    ensures { (z : ℤ) → ¬ (FitsSigned w128 z) → same_head (NumberHead z) (head of.now) ≡ false }
{
    match of {
        Head::Number(number) => {
            let _within = *number;
        }
        Head::Truth(_)
        | Head::Part(_)
        | Head::Constant(_, _)
        | Head::Apply(_, _)
        | Head::Binary(_)
        | Head::Not
        | Head::Ite
        | Head::All
        | Head::Some => {}
    }
}

/// No literal beyond 128 bits is numbered. Only a step that names the last number of all asks this.
fn see_numbers(all: &[Node])
    ensures { (z : ℤ) → ¬ (FitsSigned w128 z) → clean.number_at (nodes all.now) z ≡ None }
{
    for node in all {
        see_number(&node.head);
    }
}

/// The number of the literal one above.
fn number_after(all: &Table, number: i128) -> Result<u32, Stop>
    ensures { Gives (λ n. n) result (clean.number_at (nodes_in all.now) (number +ℤ pos 1)) }
{
    match number.checked_add(1) {
        Some(next) => number_at(all, next),
        None => {
            see_numbers(&all.nodes);
            Err(Stop::Miss)
        }
    }
}

/// The number of the literal that is the size of this one.
fn number_of_size(all: &Table, number: i128) -> Result<u32, Stop>
    ensures { Gives (λ n. n) result (clean.number_at (nodes_in all.now) (pos (unsigned_abs number))) }
{
    match number.checked_abs() {
        Some(size) => number_at(all, size),
        None => {
            see_numbers(&all.nodes);
            Err(Stop::Miss)
        }
    }
}

/// `split`: an Int is at most a number, or at least the next.
///
/// # Errors
/// `Miss` where the rule doesn't give one, or a term of it has no number; `Want` where memory runs out.
pub fn split(alloc: Global, all: &Table, t: u32, number: i128) -> Result<Vec<Literal>, Stop>
    ensures { Gives (λ v. clause v.items) result (clean.split_clause (nodes_in all.now) t number) }
{
    let node = node_at(all, t)?;
    let low = number_at(all, number)?;
    let high = number_after(all, number)?;
    let at_most = binary_at(all, Operator::LessEqual, t, low)?;
    let at_least = binary_at(all, Operator::LessEqual, high, t)?;
    if !node.sort.is_same(&Sort::Int) {
        return Err(Stop::Miss);
    }
    two(alloc, plain(at_most), plain(at_least))
}

/// The literal other than 0 that a head is.
fn divisor(of: &Head) -> Result<i128, Stop>
    ensures { Gives (λ d. d) result (clean.divisor (head of.now)) }
{
    match of {
        Head::Number(0) => Err(Stop::Miss),
        Head::Number(d) => Ok(*d),
        _ => Err(Stop::Miss),
    }
}

/// `div` at row 0: the dividend is the divisor times the quotient and the remainder.
fn whole_row(alloc: Global, all: &Table, a: u32, n: u32) -> Result<Vec<Literal>, Stop>
    ensures { Gives (λ v. clause v.items) result (clean.divide_row (nodes_in all.now) a n (pos 1) 0) }
{
    let quotient = binary_at(all, Operator::Div, a, n)?;
    let product = binary_at(all, Operator::Multiply, n, quotient)?;
    let rest = binary_at(all, Operator::Mod, a, n)?;
    let sum = binary_at(all, Operator::Add, product, rest)?;
    let equal = equality_at(all, a, sum)?;
    one(alloc, plain(equal))
}

/// `div` at row 1: the remainder is at least 0.
fn low_row(alloc: Global, all: &Table, a: u32, n: u32) -> Result<Vec<Literal>, Stop>
    ensures { Gives (λ v. clause v.items) result (clean.divide_row (nodes_in all.now) a n (pos 1) 1) }
{
    let rest = binary_at(all, Operator::Mod, a, n)?;
    let zero = number_at(all, 0)?;
    let at_least = binary_at(all, Operator::LessEqual, zero, rest)?;
    one(alloc, plain(at_least))
}

/// `div` at row 2: the remainder is below the size of the divisor.
fn high_row(alloc: Global, all: &Table, a: u32, n: u32, d: i128) -> Result<Vec<Literal>, Stop>
    ensures { Gives (λ v. clause v.items) result (clean.divide_row (nodes_in all.now) a n d 2) }
{
    let rest = binary_at(all, Operator::Mod, a, n)?;
    let size = number_of_size(all, d)?;
    let below = binary_at(all, Operator::Less, rest, size)?;
    one(alloc, plain(below))
}

/// The rows of `div`.
fn divide_row(
    alloc: Global,
    all: &Table,
    sides: (u32, u32),
    d: i128,
    row: u32,
) -> Result<Vec<Literal>, Stop>
    ensures { Gives (λ v. clause v.items) result (clean.divide_row (nodes_in all.now) sides.0 sides.1 d row) }
{
    let (a, n) = sides;
    match row {
        0 => whole_row(alloc, all, a, n),
        1 => low_row(alloc, all, a, n),
        2 => high_row(alloc, all, a, n, d),
        _ => Err(Stop::Miss),
    }
}

/// `div`: what the quotient and the remainder of an Int by a literal are.
///
/// # Errors
/// `Miss` where the rule doesn't give one, or a term of it has no number; `Want` where memory runs out.
pub fn divide(alloc: Global, all: &Table, a: u32, n: u32, row: u32) -> Result<Vec<Literal>, Stop>
    ensures { Gives (λ v. clause v.items) result (clean.divide_clause (nodes_in all.now) a n row) }
{
    let node = node_at(all, a)?;
    let by = node_at(all, n)?;
    let d = divisor(&by.head)?;
    if !node.sort.is_same(&Sort::Int) {
        return Err(Stop::Miss);
    }
    divide_row(alloc, all, (a, n), d, row)
}

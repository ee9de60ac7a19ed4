//! The clauses of steps.
ghost use Rattle.std.specs.Prelude.{◌≡◌, ℕ, ◌<◌, ◌^◌, length, slice_get, List, [], ◌∷◌, map};
ghost use Rattle.vx_terms.specs.Sorts.{IntSort};
ghost use Rattle.vx_terms.specs.Views.{operator, sort};
ghost use Rattle.cs_certificate.specs.Steps as clean;
ghost use Rattle.cs_certificate.specs.Nodes as named;
ghost use Rattle.cs_certificate.specs.Terms.{BinaryHead};
ghost use Rattle.cs_table.specs.Table.{nodes_in};
ghost use Rattle.cs_table.specs.Views.{head, node, nodes};
ghost use Rattle.cs_table.specs.Gives.{Gives, clause, numbered};

use crate::{Head, Node, Table, equality, number_of};
use std::alloc::{AllocError, AllocFailed, Global};
use vx_terms::{Operator, Sort};

/// A numbered term or its negation.
#[derive(Clone, Copy, PartialEq, Eq)]
pub struct Literal {
    pub positive: bool,
    pub number: u32,
}

/// Why a step gives no clause: it misses its rule, or memory runs out.
#[derive(Clone, Copy)]
pub enum Stop {
    Miss,
    Want,
}

impl From<AllocError> for Stop {
    ghost use Rattle.cs_table.specs.declared.steps.Stop.TheVariants.{Want};

    ghost from_gives = { λ _ e. e ≡ Want };

    fn from(_: AllocError) -> Self {
        Stop::Want
    }
}

impl<T: Drop> From<AllocFailed<T>> for Stop {
    ghost use Rattle.cs_table.specs.declared.steps.Stop.TheVariants.{Want};

    ghost from_gives = { λ _ e. e ≡ Want };

    fn from(_: AllocFailed<T>) -> Self {
        Stop::Want
    }
}

pub(crate) fn plain(number: u32) -> Literal
    ensures { numbered result ≡ clean.plain number }
{
    Literal {
        positive: true,
        number,
    }
}

fn denial(number: u32) -> Literal
    ensures { numbered result ≡ clean.denial number }
{
    Literal {
        positive: false,
        number,
    }
}

fn found(number: Option<u32>) -> Result<u32, Stop>
    ensures { Gives (λ n. n) result number }
{
    match number {
        Some(n) => Ok(n),
        None => Err(Stop::Miss),
    }
}

pub(crate) fn number_at(all: &Table, number: i128) -> Result<u32, Stop>
    ensures { Gives (λ n. n) result (clean.number_at (nodes_in all.now) number) }
{
    found(number_of(all, &Head::Number(number), &[]))
}

pub(crate) fn binary_at(all: &Table, of: Operator, a: u32, b: u32) -> Result<u32, Stop>
    ensures { Gives (λ n. n) result (clean.binary_at (nodes_in all.now) (operator of) a b) }
{
    found(number_of(all, &Head::Binary(of), &[a, b]))
}

pub(crate) fn equality_at(all: &Table, a: u32, b: u32) -> Result<u32, Stop>
    ensures { Gives (λ n. n) result (named.equality (nodes_in all.now) a b) }
{
    found(equality(all, a, b))
}

pub(crate) fn node_at(all: &Table, number: u32) -> Result<&Node, Stop>
    ensures { Gives (λ n. node n.now) result (slice_get (nodes_in all.now) number) }
{
    match all.nodes.get(number as usize) {
        Some(node) => Ok(node),
        None => Err(Stop::Miss),
    }
}

/// The denials of the equalities along a chain, and its last term.
fn links(alloc: Global, all: &Table, first: u32, terms: &[u32]) -> Result<(Vec<Literal>, u32), Stop>
    ensures { Gives (λ x. (clause x.0.items, x.1)) result (clean.links (nodes_in all.now) first terms.now) }
{
    let mut denials = Vec::new(alloc);
    let mut last = first;
    for term in terms {
        node_at(all, *term)?;
        let equal = equality_at(all, last, *term)?;
        denials.push(denial(equal))?;
        last = *term;
    }
    Ok((denials, last))
}

/// `chain`: the terms are all equal, or an equality between neighbours isn't true.
///
/// # Errors
/// `Miss` where the rule doesn't give one, or a term of it has no number; `Want` where memory runs out.
pub fn chain(alloc: Global, all: &Table, terms: &[u32]) -> Result<Vec<Literal>, Stop>
    ensures { Gives (λ v. clause v.items) result (clean.chain_clause (nodes_in all.now) terms.now) }
{
    let Some((first, rest)) = terms.split_first() else {
        return Err(Stop::Miss);
    };
    node_at(all, *first)?;
    let (mut clause, last) = links(alloc, all, *first, rest)?;
    let equal = equality_at(all, *first, last)?;
    clause.push(plain(equal))?;
    Ok(clause)
}

/// `tri`: two numbers are below, equal or above.
///
/// # Errors
/// `Miss` where the rule doesn't give one, or a term of it has no number; `Want` where memory runs out.
pub fn trichotomy(alloc: Global, all: &Table, a: u32, b: u32) -> Result<Vec<Literal>, Stop>
    ensures { Gives (λ v. clause v.items) result (clean.trichotomy_clause (nodes_in all.now) a b) }
{
    let left = node_at(all, a)?;
    let right = node_at(all, b)?;
    let below = binary_at(all, Operator::Less, a, b)?;
    let equal = equality_at(all, a, b)?;
    let above = binary_at(all, Operator::Less, b, a)?;
    if !left.sort.is_same(&Sort::Int) && !left.sort.is_same(&Sort::Real) {
        return Err(Stop::Miss);
    }
    if !right.sort.is_same(&left.sort) {
        return Err(Stop::Miss);
    }
    three(alloc, plain(below), plain(equal), plain(above))
}

fn three(alloc: Global, a: Literal, b: Literal, c: Literal) -> Result<Vec<Literal>, Stop>
    ensures { Gives (λ v. clause v.items) result (Some (numbered a ∷ numbered b ∷ numbered c ∷ [])) }
{
    let mut clause = Vec::new(alloc);
    clause.push(a)?;
    clause.push(b)?;
    clause.push(c)?;
    Ok(clause)
}

pub(crate) fn one(alloc: Global, a: Literal) -> Result<Vec<Literal>, Stop>
    ensures { Gives (λ v. clause v.items) result (Some (numbered a ∷ [])) }
{
    let mut clause = Vec::new(alloc);
    clause.push(a)?;
    Ok(clause)
}

pub(crate) fn two(alloc: Global, a: Literal, b: Literal) -> Result<Vec<Literal>, Stop>
    ensures { Gives (λ v. clause v.items) result (Some (numbered a ∷ numbered b ∷ [])) }
{
    let mut clause = Vec::new(alloc);
    clause.push(a)?;
    clause.push(b)?;
    Ok(clause)
}

/// Rows of a choice t that isn't Bool.
fn pick_row(
    alloc: Global,
    all: &Table,
    t: u32,
    parts: (u32, u32, u32),
    row: u32,
) -> Result<Vec<Literal>, Stop>
    ensures { Gives (λ v. clause v.items) result (clean.pick_row (nodes_in all.now) t parts.0 parts.1 parts.2 row) }
{
    let (test, left, right) = parts;
    match row {
        0 => {
            let equal = equality_at(all, t, left)?;
            two(alloc, denial(test), plain(equal))
        }
        1 => {
            let equal = equality_at(all, t, right)?;
            two(alloc, plain(test), plain(equal))
        }
        _ => Err(Stop::Miss),
    }
}

/// `def` of true and false.
fn truth_row(alloc: Global, t: u32, holds: bool, row: u32) -> Result<Vec<Literal>, Stop>
    ensures { Gives (λ v. clause v.items) result (clean.truth_row t holds row) }
{
    match (holds, row) {
        (true, 0) => one(alloc, plain(t)),
        (false, 0) => one(alloc, denial(t)),
        (_, _) => Err(Stop::Miss),
    }
}

/// `def` of a negation.
fn not_row(alloc: Global, t: u32, x: u32, row: u32) -> Result<Vec<Literal>, Stop>
    ensures { Gives (λ v. clause v.items) result (clean.not_row t x row) }
{
    match row {
        0 => two(alloc, denial(t), denial(x)),
        1 => two(alloc, plain(t), plain(x)),
        _ => Err(Stop::Miss),
    }
}

/// `def` of an implication.
fn implies_row(alloc: Global, t: u32, x: u32, y: u32, row: u32) -> Result<Vec<Literal>, Stop>
    ensures { Gives (λ v. clause v.items) result (clean.implies_row t x y row) }
{
    match row {
        0 => three(alloc, denial(t), denial(x), plain(y)),
        1 => two(alloc, plain(t), plain(x)),
        2 => two(alloc, plain(t), denial(y)),
        _ => Err(Stop::Miss),
    }
}

/// `def` of a choice of Bool terms.
fn ite_row(alloc: Global, t: u32, parts: (u32, u32, u32), row: u32) -> Result<Vec<Literal>, Stop>
    ensures { Gives (λ v. clause v.items) result (clean.ite_row t parts.0 parts.1 parts.2 row) }
{
    let (c, x, y) = parts;
    match row {
        0 => three(alloc, denial(t), denial(c), plain(x)),
        1 => three(alloc, plain(t), denial(c), denial(x)),
        2 => three(alloc, denial(t), plain(c), plain(y)),
        3 => three(alloc, plain(t), plain(c), denial(y)),
        _ => Err(Stop::Miss),
    }
}

/// `def` of an equality of Bool terms.
fn equal_row(alloc: Global, t: u32, x: u32, y: u32, row: u32) -> Result<Vec<Literal>, Stop>
    ensures { Gives (λ v. clause v.items) result (clean.equal_row t x y row) }
{
    match row {
        0 => three(alloc, denial(t), denial(x), plain(y)),
        1 => three(alloc, denial(t), plain(x), denial(y)),
        2 => three(alloc, plain(t), plain(x), plain(y)),
        3 => three(alloc, plain(t), denial(x), denial(y)),
        _ => Err(Stop::Miss),
    }
}

/// The first literal, and the denials of all parts.
fn with_denials(alloc: Global, first: Literal, parts: &[u32]) -> Result<Vec<Literal>, Stop>
    ensures { Gives (λ v. clause v.items) result (Some (numbered first ∷ map clean.denial parts.now)) }
{
    let mut clause = Vec::new(alloc);
    clause.push(first)?;
    for part in parts {
        clause.push(denial(*part))?;
    }
    Ok(clause)
}

/// The first literal, and all parts.
fn with_parts(alloc: Global, first: Literal, parts: &[u32]) -> Result<Vec<Literal>, Stop>
    ensures { Gives (λ v. clause v.items) result (Some (numbered first ∷ map clean.plain parts.now)) }
{
    let mut clause = Vec::new(alloc);
    clause.push(first)?;
    for part in parts {
        clause.push(plain(*part))?;
    }
    Ok(clause)
}

/// `def` of an `and`.
fn and_row(alloc: Global, t: u32, parts: &[u32], row: u32) -> Result<Vec<Literal>, Stop>
    ensures { Gives (λ v. clause v.items) result (clean.and_row (slice_get parts.now row) t parts.now row) }
{
    if let Some(part) = parts.get(row as usize) {
        return two(alloc, denial(t), plain(*part));
    }
    if row as usize != parts.len() {
        return Err(Stop::Miss);
    }
    with_denials(alloc, plain(t), parts)
}

/// `def` of an `or`.
fn or_row(alloc: Global, t: u32, parts: &[u32], row: u32) -> Result<Vec<Literal>, Stop>
    ensures { Gives (λ v. clause v.items) result (clean.or_row (slice_get parts.now row) t parts.now row) }
{
    if let Some(part) = parts.get(row as usize) {
        return two(alloc, plain(t), denial(*part));
    }
    if row as usize != parts.len() {
        return Err(Stop::Miss);
    }
    with_parts(alloc, denial(t), parts)
}

/// `pick` of the parts of a choice.
fn pick_parts(
    alloc: Global,
    all: &Table,
    t: u32,
    row: u32,
    parts: &[u32],
) -> Result<Vec<Literal>, Stop>
    ensures { Gives (λ v. clause v.items) result (clean.pick_parts (nodes_in all.now) t row parts.now) }
{
    match parts {
        [test, left, right] => {
            let node = node_at(all, *left)?;
            if node.sort.is_same(&Sort::Bool) {
                return Err(Stop::Miss);
            }
            pick_row(alloc, all, t, (*test, *left, *right), row)
        }
        _ => Err(Stop::Miss),
    }
}

/// `pick`: a choice that isn't Bool is its left or its right part.
///
/// # Errors
/// `Miss` where the rule doesn't give one, or a term of it has no number; `Want` where memory runs out.
pub fn pick(alloc: Global, all: &Table, t: u32, row: u32) -> Result<Vec<Literal>, Stop>
    ensures { Gives (λ v. clause v.items) result (clean.pick_clause (nodes_in all.now) t row) }
{
    let node = node_at(all, t)?;
    if !node.head.is_same(&Head::Ite) {
        return Err(Stop::Miss);
    }
    pick_parts(alloc, all, t, row, &node.parts)
}

/// `def` of an equality, where its sides are Bool.
fn bool_equal_row(
    alloc: Global,
    all: &Table,
    t: u32,
    sides: (u32, u32),
    row: u32,
) -> Result<Vec<Literal>, Stop>
    ensures { Gives (λ v. clause v.items) result (clean.if_bool (nodes_in all.now) sides.0 (clean.if_bool (nodes_in all.now) sides.1 (clean.equal_row t sides.0 sides.1 row))) }
{
    let (x, y) = sides;
    let left = node_at(all, x)?;
    if !left.sort.is_same(&Sort::Bool) {
        return Err(Stop::Miss);
    }
    let right = node_at(all, y)?;
    if !right.sort.is_same(&Sort::Bool) {
        return Err(Stop::Miss);
    }
    equal_row(alloc, t, x, y, row)
}

/// `def` of a choice, where its parts are Bool.
fn bool_ite_row(
    alloc: Global,
    all: &Table,
    t: u32,
    parts: (u32, u32, u32),
    row: u32,
) -> Result<Vec<Literal>, Stop>
    ensures { Gives (λ v. clause v.items) result (clean.if_bool (nodes_in all.now) parts.1 (clean.ite_row t parts.0 parts.1 parts.2 row)) }
{
    let node = node_at(all, parts.1)?;
    if !node.sort.is_same(&Sort::Bool) {
        return Err(Stop::Miss);
    }
    ite_row(alloc, t, parts, row)
}

/// `def` of an operator's term.
fn operator_row(
    alloc: Global,
    all: &Table,
    t: u32,
    of: Operator,
    parts: &[u32],
    row: u32,
) -> Result<Vec<Literal>, Stop>
    ensures { Gives (λ v. clause v.items) result (clean.define_by (nodes_in all.now) t (BinaryHead (operator of)) parts.now row) }
{
    match of {
        Operator::And => and_row(alloc, t, parts, row),
        Operator::Or => or_row(alloc, t, parts, row),
        Operator::Implies => match parts {
            [x, y] => implies_row(alloc, t, *x, *y, row),
            _ => Err(Stop::Miss),
        },
        Operator::Equal => match parts {
            [x, y] => bool_equal_row(alloc, all, t, (*x, *y), row),
            _ => Err(Stop::Miss),
        },
        _ => Err(Stop::Miss),
    }
}

/// The row of the term's table.
fn define_by(
    alloc: Global,
    all: &Table,
    t: u32,
    of: &Head,
    parts: &[u32],
    row: u32,
) -> Result<Vec<Literal>, Stop>
    ensures { Gives (λ v. clause v.items) result (clean.define_by (nodes_in all.now) t (head of.now) parts.now row) }
{
    match of {
        Head::Truth(holds) => truth_row(alloc, t, *holds, row),
        Head::Not => match parts {
            [x] => not_row(alloc, t, *x, row),
            _ => Err(Stop::Miss),
        },
        Head::Binary(of) => operator_row(alloc, all, t, *of, parts, row),
        Head::All => and_row(alloc, t, parts, row),
        Head::Some => or_row(alloc, t, parts, row),
        Head::Ite => match parts {
            [c, x, y] => bool_ite_row(alloc, all, t, (*c, *x, *y), row),
            _ => Err(Stop::Miss),
        },
        _ => Err(Stop::Miss),
    }
}

/// `def`: a row of the table of the Bool term t.
///
/// # Errors
/// `Miss` where the rule doesn't give one, or a term of it has no number; `Want` where memory runs out.
pub fn define(alloc: Global, all: &Table, t: u32, row: u32) -> Result<Vec<Literal>, Stop>
    ensures { Gives (λ v. clause v.items) result (clean.define_clause (nodes_in all.now) t row) }
{
    let node = node_at(all, t)?;
    define_by(alloc, all, t, &node.head, &node.parts, row)
}

/// The denials of the equalities of two lists of parts, identical pairs left out.
fn pairs(alloc: Global, all: &Table, xs: &[u32], ys: &[u32]) -> Result<Vec<Literal>, Stop>
    ensures { Gives (λ v. clause v.items) result (clean.pairs (nodes_in all.now) xs.now ys.now) }
{
    if xs.len() != ys.len() {
        return Err(Stop::Miss);
    }
    let mut denials = Vec::new(alloc);
    for at in 0..xs.len() {
        let x = xs[at];
        let y = ys[at];
        if x != y {
            match equality_at(all, x, y) {
                Ok(equal) => denials.push(denial(equal))?,
                Err(stop) => return Err(stop),
            }
        }
    }
    Ok(denials)
}

/// `cong`: terms of one head whose parts are equal are equal.
///
/// # Errors
/// `Miss` where the rule doesn't give one, or a term of it has no number; `Want` where memory runs out.
pub fn congruence(alloc: Global, all: &Table, s: u32, t: u32) -> Result<Vec<Literal>, Stop>
    ensures { Gives (λ v. clause v.items) result (clean.congruence_clause (nodes_in all.now) s t) }
{
    let left = node_at(all, s)?;
    let right = node_at(all, t)?;
    if !left.head.is_same(&right.head) {
        return Err(Stop::Miss);
    }
    let mut clause = pairs(alloc, all, &left.parts, &right.parts)?;
    let equal = equality_at(all, s, t)?;
    clause.push(plain(equal))?;
    Ok(clause)
}

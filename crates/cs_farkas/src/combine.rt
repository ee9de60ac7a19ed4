//! The constraints of a `farkas` step, and whether they add up to a contradiction.
ghost use Rattle.std.specs.Prelude.{◌≡◌, ◌≤◌, ◌<◌, ◌^◌, length, map, OnOk, IsTrue};
ghost use Rattle.std.specs.List.{list_all, list_any};
ghost use Rattle.std.specs.Option.{option_map};
ghost use Rattle.vx_frac.specs.Fraction.{fraction};
ghost use Rattle.vx_frac.specs.Fractions.{Fraction};
ghost use Rattle.vx_terms.specs.Sorts.{same_sort};
ghost use Rattle.vx_terms.specs.Views.{operator, sort};
ghost use Rattle.cs_certificate.specs.Terms.{BinaryHead};
ghost use Rattle.cs_table.specs.Views.{head, node, nodes};
ghost use Rattle.cs_table.specs.Gives.{Gives, clause, numbered, sign_of};
ghost use Rattle.cs_farkas.specs.Rows as clean;
ghost use Rattle.cs_farkas.specs.Views as views;

use crate::calls::Break;
use crate::read::add_all;
use crate::rows::{Bound, Combination, Numbers, Part, Relation};
use crate::sums::Sums;
use cs_table::{Head, Literal, Node, Stop};
use std::alloc::Global;
use vx_frac::Frac;
use vx_terms::{Operator, Sort};

fn bound(left: u32, right: u32, relation: Relation) -> Bound
    ensures { views.bound result ≡ clean.bound left right (views.relation relation) }
{
    Bound {
        left,
        right,
        relation,
    }
}

/// What the negation of a literal says of the sides of its operator.
fn of_operator(positive: bool, of: Operator, a: u32, b: u32) -> Option<Bound>
    ensures { option_map views.bound result ≡ clean.comparison (sign_of positive) (BinaryHead (operator of)) a b }
{
    match (positive, of) {
        (true, Operator::Less) => Some(bound(b, a, Relation::AtMostZero)),
        (true, Operator::LessEqual) => Some(bound(b, a, Relation::BelowZero)),
        (false, Operator::Less) => Some(bound(a, b, Relation::BelowZero)),
        (false, Operator::LessEqual) => Some(bound(a, b, Relation::AtMostZero)),
        (false, Operator::Equal) => Some(bound(a, b, Relation::IsZero)),
        (true, Operator::Equal)
        | (_, Operator::And)
        | (_, Operator::Or)
        | (_, Operator::Implies)
        | (_, Operator::Add)
        | (_, Operator::Subtract)
        | (_, Operator::Multiply)
        | (_, Operator::Div)
        | (_, Operator::Mod) => None,
    }
}

fn of_sides(positive: bool, of: &Head, parts: &[u32]) -> Option<Bound>
    ensures { option_map views.bound result ≡ clean.of_sides (sign_of positive) (head of.now) parts.now }
{
    match (of, parts) {
        (Head::Binary(of), [a, b]) => of_operator(positive, *of, *a, *b),
        _ => None,
    }
}

/// The constraint that the negation of a literal is.
fn bound_at(all: &[Node], literal: Literal) -> Option<Bound>
    ensures { option_map views.bound result ≡ clean.bound_at (nodes all.now) (numbered literal) }
{
    match all.get(literal.number as usize) {
        Some(node) => of_sides(literal.positive, &node.head, &node.parts),
        None => None,
    }
}

/// The constraints of the literals, with their multipliers, of which there are as many.
fn parts_of(
    alloc: Global,
    all: &[Node],
    literals: &[Literal],
    multipliers: &[Frac],
) -> Result<Vec<Part>, Stop>
    ensures { Gives (λ v. map views.part v.items) result (clean.parts_of (nodes all.now) (clause literals.now) (map fraction multipliers.now)) }
{
    if literals.len() != multipliers.len() {
        return Err(Stop::Miss);
    }
    let mut parts = Vec::new(alloc);
    for at in 0..literals.len() {
        let multiplier = multipliers[at];
        match bound_at(all, literals[at]) {
            Some(bound) => parts.push(Part { bound, multiplier })?,
            None => return Err(Stop::Miss),
        }
    }
    Ok(parts)
}

fn numbers_of(of: &Sort) -> Option<Numbers>
    ensures { option_map views.sort_of result ≡ clean.number_sort (sort of.now) }
{
    match of {
        Sort::Int => Some(Numbers::Int),
        Sort::Real => Some(Numbers::Real),
        Sort::Bool | Sort::Ref | Sort::Snap | Sort::Other(_) => None,
    }
}

/// The sort of a numbered term, where it is Int or Real.
fn numbers_at(all: &[Node], number: u32) -> Option<Numbers>
    ensures { option_map views.sort_of result ≡ clean.sort_at (nodes all.now) number }
{
    match all.get(number as usize) {
        Some(node) => numbers_of(&node.sort),
        None => None,
    }
}

fn is_sort(of: &Sort, numbers: Numbers) -> bool
    ensures { result ≡ same_sort (sort of.now) (views.sort_of numbers) }
{
    match numbers {
        Numbers::Int => of.is_same(&Sort::Int),
        Numbers::Real => of.is_same(&Sort::Real),
    }
}

fn is_at(all: &[Node], numbers: Numbers, number: u32) -> bool
    ensures { result ≡ clean.is_at (nodes all.now) (views.sort_of numbers) number }
{
    match all.get(number as usize) {
        Some(node) => is_sort(&node.sort, numbers),
        None => false,
    }
}

fn is_of(all: &[Node], numbers: Numbers, part: &Part) -> bool
    ensures { result ≡ clean.is_of (nodes all.now) (views.sort_of numbers) (views.part part.now) }
{
    is_at(all, numbers, part.bound.left) && is_at(all, numbers, part.bound.right)
}

fn are_of(all: &[Node], numbers: Numbers, parts: &[Part]) -> bool
    ensures { result ≡ list_all (clean.is_of (nodes all.now) (views.sort_of numbers)) (map views.part parts.now) }
{
    for part in parts {
        if !is_of(all, numbers, part) {
            return false;
        }
    }
    true
}

/// The constraints of a `farkas` step: of one sort, and as many as their multipliers. No fraction is met here.
///
/// # Errors
/// `Miss` where there are no literals, or more or fewer multipliers than these, a literal is no constraint, or not all sides are of Int,
/// or all of Real; `Want` where memory runs out.
pub fn combination_of(
    alloc: Global,
    all: &[Node],
    literals: &[Literal],
    multipliers: &[Frac],
) -> Result<Combination, Stop>
    ensures { Gives views.combination result (clean.combination_of (nodes all.now) (clause literals.now) (map fraction multipliers.now)) }
{
    let parts = parts_of(alloc, all, literals, multipliers)?;
    match of_one_sort(all, &parts) {
        Some(numbers) => Ok(Combination { numbers, parts }),
        None => Err(Stop::Miss),
    }
}

/// The sort of all sides.
fn of_one_sort(all: &[Node], parts: &[Part]) -> Option<Numbers>
    ensures { option_map views.sort_of result ≡ clean.sort_of_parts (nodes all.now) (map views.part parts.now) }
{
    let first = parts.first()?;
    let numbers = numbers_at(all, first.bound.left)?;
    if are_of(all, numbers, parts) {
        Some(numbers)
    } else {
        None
    }
}

fn may_multiply(part: &Part) -> bool
    ensures { result ≡ clean.may_multiply (views.part part.now) }
{
    match part.bound.relation {
        Relation::IsZero => true,
        Relation::AtMostZero | Relation::BelowZero => part.multiplier.num() >= 0,
    }
}

fn may_all_multiply(parts: &[Part]) -> bool
    ensures { result ≡ list_all clean.may_multiply (map views.part parts.now) }
{
    for part in parts {
        if !may_multiply(part) {
            return false;
        }
    }
    true
}

fn is_strict(numbers: Numbers, part: &Part) -> bool
    ensures { result ≡ clean.is_strict (views.sort_of numbers) (views.part part.now) }
{
    match (numbers, part.bound.relation) {
        (Numbers::Real, Relation::BelowZero) => part.multiplier.num() > 0,
        (Numbers::Real, Relation::AtMostZero)
        | (Numbers::Real, Relation::IsZero)
        | (Numbers::Int, Relation::AtMostZero)
        | (Numbers::Int, Relation::BelowZero)
        | (Numbers::Int, Relation::IsZero) => false,
    }
}

fn has_strict(numbers: Numbers, parts: &[Part]) -> bool
    ensures { result ≡ list_any (clean.is_strict (views.sort_of numbers)) (map views.part parts.now) }
{
    for part in parts {
        if is_strict(numbers, part) {
            return true;
        }
    }
    false
}

/// The sum is a constant above 0, or 0 with a strict part.
fn contradicts(numbers: Numbers, parts: &[Part], sums: &Sums) -> bool
    ensures value { result ≡ clean.contradicts (views.sort_of numbers) (map views.part parts.now) (views.sums sums.now) }
    ensures clear { IsTrue result → views.IsClear sums.now }
{
    if !sums.is_clear() {
        return false;
    }
    let constant = sums.constant().num();
    constant > 0 || (constant == 0 && has_strict(numbers, parts))
}

/// Whether the constraints, each times its multiplier, add up to a contradiction. No memory.
///
/// # Errors
/// `Miss` where they don't; `Over` where a fraction leaves 128 bits.
pub fn refutes(all: &[Node], combination: &Combination, sums: &mut Sums) -> Result<(), Break>
    requires fits { length all.now < 2 ^ 32 }
    requires width { length all.now ≤ views.width sums.old }
    requires clear { views.IsClear sums.old }
    ensures value { views.Ends (λ u. views.sums sums.new) result (clean.refutes (nodes all.now) (views.width sums.old) (views.combination combination.now)) }
    ensures width { views.width sums.new ≡ views.width sums.old }
    ensures clear { OnOk result (views.IsClear sums.new) }
{
    sums.begin();
    add_all(all, combination.numbers, &combination.parts, sums)?;
    let may = may_all_multiply(&combination.parts);
    if may && contradicts(combination.numbers, &combination.parts, sums) {
        Ok(())
    } else {
        Err(Break::Miss)
    }
}

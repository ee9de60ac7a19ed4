//! The sort of a well-sorted term.
ghost use Rattle.std.specs.Prelude.{◌≡◌};
ghost use Rattle.vx_terms.specs.Sorts.{gives};
ghost use Rattle.vx_terms.specs.Views.{term, terms, sort, operator};
ghost use Rattle.cs_table.specs.Gives.{Gives};
ghost use Rattle.cs_certificate.specs.Steps.{is_number_sort};
ghost use Rattle.cs_sorts.specs.Sorting as clean;

use cs_table::Stop;
use vx_terms::{Operator, Sort, Term, Terms};

fn is_number_sort(of: &Sort) -> bool
    ensures { result ≡ is_number_sort (sort of.now) }
{
    of.is_same(&Sort::Int) || of.is_same(&Sort::Real)
}

/// Whether an operator takes operands of this sort.
fn takes(of: Operator, operand: &Sort) -> bool
    ensures { result ≡ clean.takes (operator of) (sort operand.now) }
{
    match of {
        Operator::And | Operator::Or | Operator::Implies => operand.is_same(&Sort::Bool),
        Operator::Equal => true,
        Operator::Less
        | Operator::LessEqual
        | Operator::Add
        | Operator::Subtract
        | Operator::Multiply => is_number_sort(operand),
        Operator::Div | Operator::Mod => operand.is_same(&Sort::Int),
    }
}

/// The sort that an operator gives on operands of this one.
fn gives(of: Operator, operand: Sort) -> Sort
    ensures { sort result ≡ gives (operator of) (sort operand) }
{
    match of {
        Operator::Add | Operator::Subtract | Operator::Multiply => operand,
        Operator::Div | Operator::Mod => Sort::Int,
        Operator::And
        | Operator::Or
        | Operator::Implies
        | Operator::Equal
        | Operator::Less
        | Operator::LessEqual => Sort::Bool,
    }
}

fn of_operands(of: Operator, a: Sort, b: Sort) -> Result<Sort, Stop>
    ensures { Gives (λ x. sort x) result (clean.of_operands (operator of) (sort a) (sort b)) }
{
    if takes(of, &a) && b.is_same(&a) {
        Ok(gives(of, a))
    } else {
        Err(Stop::Miss)
    }
}

fn of_choice(test: Sort, a: Sort, b: Sort) -> Result<Sort, Stop>
    ensures { Gives (λ x. sort x) result (clean.of_choice (sort test) (sort a) (sort b)) }
{
    if test.is_same(&Sort::Bool) && b.is_same(&a) {
        Ok(a)
    } else {
        Err(Stop::Miss)
    }
}

fn of_bool(a: Sort) -> Result<Sort, Stop>
    ensures { Gives (λ x. sort x) result (clean.of_bool (sort a)) }
{
    if a.is_same(&Sort::Bool) {
        Ok(Sort::Bool)
    } else {
        Err(Stop::Miss)
    }
}

/// The sort of a well-sorted term; any other misses.
///
/// # Errors
/// `Miss` where the term isn't well-sorted; `Want` where memory runs out.
#[cycle(sorting)]
#[tactic(auto, using(crate::proofs::Lowest::part_is_lowest))]
pub fn sort_in(t: &Term) -> Result<Sort, Stop>
    ensures { Gives (λ x. sort x) result (clean.sort_in (term t.now)) }
{
    match t {
        Term::Truth(_) => Ok(Sort::Bool),
        Term::Number(_) => Ok(Sort::Int),
        Term::Part(_) => Ok(Sort::Real),
        Term::Constant(_, a) => Ok(a.copy()?),
        Term::Apply(_, a, parts) => {
            are_sorted(parts)?;
            Ok(a.copy()?)
        }
        Term::Not(a) => of_bool(sort_in(a)?),
        Term::Binary(of, a, b) => {
            let left = sort_in(a)?;
            let right = sort_in(b)?;
            of_operands(*of, left, right)
        }
        Term::Ite(c, a, b) => {
            let test = sort_in(c)?;
            let left = sort_in(a)?;
            let right = sort_in(b)?;
            of_choice(test, left, right)
        }
        Term::AllOf(parts) | Term::SomeOf(parts) => {
            are_bools(parts)?;
            Ok(Sort::Bool)
        }
    }
}

/// Whether each part of an application is well-sorted.
#[cycle(sorting)]
fn are_sorted(parts: &Terms) -> Result<(), Stop>
    ensures { Gives (λ u. u) result (clean.are_sorted (terms parts.now)) }
{
    match parts {
        Terms::None => Ok(()),
        Terms::More(t, rest) => {
            sort_in(t)?;
            are_sorted(rest)
        }
    }
}

/// Whether each part of an `and` or `or` is well-sorted and Bool.
#[cycle(sorting)]
fn are_bools(parts: &Terms) -> Result<(), Stop>
    ensures { Gives (λ u. u) result (clean.are_bools (terms parts.now)) }
{
    match parts {
        Terms::None => Ok(()),
        Terms::More(t, rest) => {
            of_bool(sort_in(t)?)?;
            are_bools(rest)
        }
    }
}

//! What a step has to show, and the clause that it then derives.
ghost use Rattle.std.specs.Prelude.{◌≡◌, ◌<◌, ◌^◌, length, map, IfOk, All};
ghost use Rattle.std.specs.List.{list_all};
ghost use Rattle.vx_frac.specs.Fraction.{fraction};
ghost use Rattle.vx_terms.specs.Sorts.{BoolSort, same_sort};
ghost use Rattle.vx_terms.specs.Views.{sort};
ghost use Rattle.cs_numbers.specs.Numbering.{input_clause};
ghost use Rattle.cs_table.specs.Table.{nodes_in};
ghost use Rattle.cs_table.specs.Views.{nodes};
ghost use Rattle.cs_table.specs.Gives.{Gives, clause};
ghost use Rattle.cs_certificate.specs.Marks.{IsBelow};
ghost use Rattle.cs_proof.specs.Prepared as clean;
ghost use Rattle.cs_proof.specs.Views.{written, numbered, duty, IsFit, IsFitClause};

use crate::narrow::{clause_within, narrow, narrow_all, narrow_literals, saturated, turned};
use crate::step::Step;
use cs_certificate::Clause;
use cs_farkas::{Combination, combination_of};
use cs_table::{
    Literal, Node, Stop, Table, chain, congruence, define, divide, pick, split, trichotomy,
};
use std::alloc::Global;
use vx_frac::Frac;
use vx_terms::Sort;

/// What a step has to show when it is done.
#[derive(Drop)]
pub enum Duty {
    /// Its terms have their numbers.
    Named,
    /// Its clause is derived.
    Derived,
    /// It misses its rule.
    Missed,
    /// The constraints, over so many terms, add up to a contradiction.
    Sum(u32, Combination),
    /// The hints refute what is assumed.
    Hints(Clause, Vec<u32>),
}

/// `input`: an assertion, by the number of its term.
fn input(alloc: Global, roots: &[u32], number: u32) -> Result<Vec<Literal>, Stop>
    ensures { Gives (λ v. clause v.items) result (input_clause roots.now number) }
{
    match roots.get(number as usize) {
        Some(root) => {
            let mut found = Vec::new(alloc);
            found.push(Literal {
                positive: true,
                number: *root,
            })?;
            Ok(found)
        }
        None => Err(Stop::Miss),
    }
}

/// The clause of a step that has nothing more to show.
fn clause_by(alloc: Global, all: &Table, roots: &[u32], step: &Step) -> Result<Vec<Literal>, Stop>
    ensures { Gives (λ v. clause v.items) result (clean.clause_of (nodes_in all.now) roots.now (written step.now)) }
{
    match step {
        Step::Input(n) => input(alloc, roots, narrow(*n)?),
        Step::Define(t, k) => define(alloc, all, narrow(*t)?, narrow(*k)?),
        Step::Pick(t, k) => pick(alloc, all, narrow(*t)?, narrow(*k)?),
        Step::Chain(terms) => {
            let terms = narrow_all(alloc, terms)?;
            chain(alloc, all, &terms)
        }
        Step::Congruence(s, t) => congruence(alloc, all, narrow(*s)?, narrow(*t)?),
        Step::Split(t, number) => split(alloc, all, narrow(*t)?, *number),
        Step::Trichotomy(a, b) => trichotomy(alloc, all, narrow(*a)?, narrow(*b)?),
        Step::Divide(a, d, k) => divide(alloc, all, narrow(*a)?, narrow(*d)?, narrow(*k)?),
        Step::Term(_) | Step::NoTerm | Step::Farkas(_, _) | Step::Propagate(_, _) => {
            Err(Stop::Miss)
        }
    }
}

fn is_bool_sort(of: &Sort) -> bool
    ensures { result ≡ same_sort (sort of.now) BoolSort }
{
    of.is_same(&Sort::Bool)
}

/// Whether a numbered term is Bool.
fn is_bool(all: &[Node], number: u32) -> bool
    ensures { result ≡ clean.is_bool_at (nodes all.now) number }
{
    match all.get(number as usize) {
        Some(node) => is_bool_sort(&node.sort),
        None => false,
    }
}

fn are_bool(all: &[Node], literals: &[Literal]) -> bool
    ensures { result ≡ list_all (clean.is_bool (nodes all.now)) (clause literals.now) }
{
    for literal in literals {
        if !is_bool(all, literal.number) {
            return false;
        }
    }
    true
}

/// `farkas`: constraints of one sort, and as many multipliers.
fn sum(
    alloc: Global,
    all: &[Node],
    literals: &[cs_reader::Literal],
    multipliers: &[Frac],
) -> Result<(Duty, Clause), Stop>
    requires { length all.now < 2 ^ 32 }
    ensures value { Gives (λ x. (duty x.0, x.1.literals.items)) result (clean.sum (nodes all.now) (map numbered literals.now) (map fraction multipliers.now)) }
    ensures duty { IfOk result (λ x. IsFit (length all.now) x.0) }
    ensures clause { IfOk result (λ x. IsFitClause (length all.now) x.1) }
{
    let literals = narrow_literals(alloc, literals)?;
    let combination = combination_of(alloc, all, &literals, multipliers)?;
    let clause = clause_within(alloc, all.len(), &literals)?;
    Ok((Duty::Sum(all.len() as u32, combination), clause))
}

/// `rup`: literals of Bool terms, which are taken to be false.
fn propagation(
    alloc: Global,
    all: &[Node],
    literals: &[cs_reader::Literal],
    hints: &[u128],
) -> Result<(Duty, Clause), Stop>
    ensures value { Gives (λ x. (duty x.0, x.1.literals.items)) result (clean.propagation (nodes all.now) (map numbered literals.now) hints.now) }
    ensures duty { IfOk result (λ x. IsFit (length all.now) x.0) }
    ensures clause { IfOk result (λ x. IsFitClause (length all.now) x.1) }
{
    let literals = narrow_literals(alloc, literals)?;
    if !are_bool(all, &literals) {
        return Err(Stop::Miss);
    }
    let assumed = clause_within(alloc, all.len(), &turned(alloc, &literals)?)?;
    let clause = clause_within(alloc, all.len(), &literals)?;
    let hints = saturated(alloc, hints)?;
    Ok((Duty::Hints(assumed, hints), clause))
}

fn derived(alloc: Global, all: &Table, roots: &[u32], step: &Step) -> Result<(Duty, Clause), Stop>
    ensures value { Gives (λ x. (duty x.0, x.1.literals.items)) result (clean.derived (nodes_in all.now) (clean.clause_of (nodes_in all.now) roots.now (written step.now))) }
    ensures duty { IfOk result (λ x. IsFit (length all.now.nodes.items) x.0) }
    ensures clause { IfOk result (λ x. IsFitClause (length all.now.nodes.items) x.1) }
{
    let literals = clause_by(alloc, all, roots, step)?;
    let clause = clause_within(alloc, all.nodes.len(), &literals)?;
    Ok((Duty::Derived, clause))
}

/// What a step has to show, and its clause; a step that can't meet its rule misses.
///
/// # Errors
/// `Miss` where the step doesn't meet its rule; `Want` where memory runs out.
pub fn prepared(
    alloc: Global,
    all: &Table,
    roots: &[u32],
    step: &Step,
) -> Result<(Duty, Clause), Stop>
    ensures value { Gives (λ x. (duty x.0, x.1.literals.items)) result (clean.prepared_of (nodes_in all.now) roots.now (written step.now)) }
    ensures duty { IfOk result (λ x. IsFit (length all.now.nodes.items) x.0) }
    ensures clause { IfOk result (λ x. IsFitClause (length all.now.nodes.items) x.1) }
{
    match step {
        Step::Farkas(literals, multipliers) => sum(alloc, &all.nodes, literals, multipliers),
        Step::Propagate(literals, hints) => propagation(alloc, &all.nodes, literals, hints),
        Step::Input(_)
        | Step::Define(_, _)
        | Step::Pick(_, _)
        | Step::Chain(_)
        | Step::Congruence(_, _)
        | Step::Split(_, _)
        | Step::Trichotomy(_, _)
        | Step::Divide(_, _, _)
        | Step::Term(_)
        | Step::NoTerm => derived(alloc, all, roots, step),
    }
}

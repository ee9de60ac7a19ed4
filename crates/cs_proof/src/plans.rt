//! What is prepared for all steps, one after another.
ghost use Rattle.std.specs.Prelude.{◌≡◌, length, map, OnOk, Some};
ghost use Rattle.vx_terms.specs.Views.{term};
ghost use Rattle.cs_reader.specs.Live.{declared_in};
ghost use Rattle.cs_numbers.specs.Numbering.{places};
ghost use Rattle.cs_numbers.specs.Listed.{terms_in};
ghost use Rattle.cs_table.specs.Table.{nodes_in};
ghost use Rattle.cs_table.specs.Gives.{Gives};
ghost use Rattle.cs_proof.specs.Plans as clean;
ghost use Rattle.cs_proof.specs.Prepared.{Missed, prepared_of};
ghost use Rattle.cs_proof.specs.Views.{written, IsFit, IsFitClause};
ghost use Rattle.cs_proof.specs.Views;
ghost use Rattle.cs_proof.specs.Fits.{stand, Fits};

use crate::prepare::{Duty, prepared};
use crate::step::Step;
use cs_certificate::Clause;
use cs_numbers::{NumberedTerms, add, extend, place_of};
use cs_reader::Symbols;
use cs_sorts::{is_live, sort_in};
use cs_table::{Stop, Table};
use std::alloc::Global;
use std::rc::Rc;
use vx_terms::Term;

/// The numbered terms and their nodes, and for each step its duty, and its clause where it has one.
#[derive(Drop)]
pub struct Plans {
    pub terms: NumberedTerms,
    pub nodes: Table,
    pub duties: Vec<Duty>,
    pub clauses: Vec<Clause>,
}

/// The numbers of the assertions.
pub fn roots_of(
    alloc: Global,
    terms: &NumberedTerms,
    assertions: &[Rc<Term>],
) -> Result<Vec<u32>, Stop>
    ensures { Gives (λ v. v.items) result (places (terms_in terms.now) (map (λ x. term x.value) assertions.now)) }
{
    let mut roots = Vec::new(alloc);
    for assertion in assertions {
        roots.push(place_of(terms, assertion)?)?;
    }
    Ok(roots)
}

/// Whether a term is well-sorted over the live symbols.
fn is_fine(symbols: &Symbols<'_>, t: &Term) -> Result<bool, Stop>
    ensures { Gives (λ b. b) result (Some (clean.is_fine (declared_in symbols.now) (term t.now))) }
{
    match sort_in(t) {
        Ok(_sort) => Ok(is_live(symbols, t)?),
        Err(Stop::Miss) => Ok(false),
        Err(Stop::Want) => Err(Stop::Want),
    }
}

fn push_duty(plans: &mut Plans, duty: Duty) -> Result<(), Stop>
    requires fits { Fits plans.old }
    requires duty { IsFit (length plans.old.nodes.nodes.items) duty }
    ensures value { Gives (λ u. stand plans.new) result (Some (clean.with_duty (stand plans.old) (Views.duty duty))) }
    ensures nodes { OnOk result (plans.new.nodes.nodes.items ≡ plans.old.nodes.nodes.items) }
    ensures fits { OnOk result (Fits plans.new) }
{
    plans.duties.push(duty)?;
    Ok(())
}

fn push_clause(plans: &mut Plans, clause: Clause) -> Result<(), Stop>
    requires fits { Fits plans.old }
    requires clause { IsFitClause (length plans.old.nodes.nodes.items) clause }
    ensures value { Gives (λ u. stand plans.new) result (Some (clean.and_clause (stand plans.old) clause.literals.items)) }
    ensures fits { OnOk result (Fits plans.new) }
{
    plans.clauses.push(clause)?;
    Ok(())
}

fn miss(plans: &mut Plans) -> Result<(), Stop>
    requires { Fits plans.old }
    ensures value { Gives (λ u. stand plans.new) result (Some (clean.with_duty (stand plans.old) Missed)) }
    ensures fits { OnOk result (Fits plans.new) }
{
    push_duty(plans, Duty::Missed)
}

/// A `term` step that is fine: its terms get numbers and nodes.
#[tactic(auto, using(crate::proofs::Fits::weaker_clauses, crate::proofs::Fits::weaker_duties))]
fn name(alloc: Global, t: &Rc<Term>, plans: &mut Plans) -> Result<(), Stop>
    requires { Fits plans.old }
    ensures value { Gives (λ u. stand plans.new) result (clean.named (stand plans.old) (term t.now.value)) }
    ensures fits { OnOk result (Fits plans.new) }
{
    add(&mut plans.terms, t)?;
    extend(alloc, &mut plans.nodes, &plans.terms)?;
    plans.duties.push(Duty::Named)?;
    Ok(())
}

/// A step with a clause.
fn keep(alloc: Global, roots: &[u32], step: &Step, plans: &mut Plans) -> Result<(), Stop>
    requires { Fits plans.old }
    ensures value { Gives (λ u. stand plans.new) result (Some (clean.kept (stand plans.old) (prepared_of (nodes_in plans.old.nodes) roots.now (written step.now)))) }
    ensures fits { OnOk result (Fits plans.new) }
{
    match prepared(alloc, &plans.nodes, roots, step) {
        Ok((duty, clause)) => {
            push_duty(plans, duty)?;
            push_clause(plans, clause)
        }
        Err(Stop::Miss) => miss(plans),
        Err(Stop::Want) => Err(Stop::Want),
    }
}

/// One step more.
fn plan(
    alloc: Global,
    symbols: &Symbols<'_>,
    roots: &[u32],
    step: &Step,
    plans: &mut Plans,
) -> Result<(), Stop>
    requires { Fits plans.old }
    ensures value { Gives (λ u. stand plans.new) result (clean.planned (declared_in symbols.now) roots.now (stand plans.old) (written step.now)) }
    ensures fits { OnOk result (Fits plans.new) }
{
    match step {
        Step::Term(t) => {
            if is_fine(symbols, t)? {
                name(alloc, t, plans)
            } else {
                miss(plans)
            }
        }
        Step::NoTerm => miss(plans),
        Step::Input(_)
        | Step::Define(_, _)
        | Step::Pick(_, _)
        | Step::Chain(_)
        | Step::Congruence(_, _)
        | Step::Farkas(_, _)
        | Step::Split(_, _)
        | Step::Trichotomy(_, _)
        | Step::Divide(_, _, _)
        | Step::Propagate(_, _) => keep(alloc, roots, step, plans),
    }
}

/// All steps, in order.
pub fn plan_all(
    alloc: Global,
    symbols: &Symbols<'_>,
    roots: &[u32],
    steps: &[Step],
    plans: &mut Plans,
) -> Result<(), Stop>
    requires { Fits plans.old }
    ensures value { Gives (λ u. stand plans.new) result (clean.planned_all (declared_in symbols.now) roots.now (stand plans.old) (map written steps.now)) }
    ensures fits { OnOk result (Fits plans.new) }
{
    for step in steps {
        plan(alloc, symbols, roots, step, plans)?;
    }
    Ok(())
}

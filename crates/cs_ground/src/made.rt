//! What is made of the assertions of a stack.
ghost use Rattle.std.specs.Prelude.{◌≡◌, map, length, IfOk, OnOk};
ghost use Rattle.vx_terms.specs.Views.{term};
ghost use Rattle.cs_certificate.specs.Certificate as certificate;
ghost use Rattle.cs_derivation.specs.View.{reached};
ghost use Rattle.cs_proof.specs.Fits.{seen};
ghost use Rattle.cs_ground.specs.Ground.{IsFormed, IsGround};
ghost use Rattle.cs_ground.specs.Steps.{IsNaming, NamesAll, IsClausal, Collects, IsWanted};

use crate::aliases::{Alias, with_aliases};
use crate::clauses::{add_inputs, add_terms};
use crate::joins::{add_aliases, add_chains, add_congruences};
use crate::pairs::with_pairs;
use cs_derivation::Derivation;
use cs_proof::{Stack, Want};
use std::alloc::{AllocError, Global};
use std::rc::Rc;
use vx_terms::Term;

/// The terms of a stack with equalities of them, and the clauses that rules give of them.
#[derive(Drop)]
pub struct Ground {
    pub derivation: Derivation,
    /// How many terms are those of the assertions; they come first.
    pub count: u32,
}

/// Some terms once more.
fn copied(alloc: Global, terms: &[Rc<Term>]) -> Result<Vec<Rc<Term>>, AllocError>
    ensures { IfOk result (λ v. map (λ x. term x.value) v.items ≡ map (λ x. term x.value) terms.now) }
{
    let mut all = Vec::new(alloc);
    for t in terms {
        all.push(t.clone()?)?;
    }
    Ok(all)
}

/// An equality of each two terms of one sort has a number, and each has an alias that is behind its other order.
fn with_names(alloc: Global, derivation: Derivation) -> Result<(Derivation, Vec<Alias>), Want>
    ensures { (stack : certificate.Stack) → IsNaming stack (reached derivation) → IfOk result (λ x. NamesAll stack (reached derivation) (reached x.0) x.1.items) }
{
    let firsts = copied(alloc, &derivation.terms().terms)?;
    let derivation = with_pairs(alloc, derivation, &firsts)?;
    with_aliases(alloc, derivation, &firsts)
}

/// All clauses: of so many assertions, of all terms, of the first terms among each other, and of the aliases.
fn add_clauses(
    alloc: Global,
    derivation: &mut Derivation,
    assertions: u32,
    count: u32,
    aliases: &[Alias],
) -> Result<(), Want>
    ensures { (stack : certificate.Stack) → IsClausal stack (reached derivation.old)
        → OnOk result (Collects stack (IsWanted assertions (length (reached derivation.old).terms) count aliases.now) (reached derivation.old)
        (reached derivation.new)) }
{
    let terms = derivation.terms().terms.len() as u32;
    add_inputs(alloc, derivation, assertions)?;
    add_terms(alloc, derivation, terms)?;
    add_chains(alloc, derivation, count)?;
    add_congruences(alloc, derivation, count)?;
    add_aliases(alloc, derivation, aliases)?;
    Ok(())
}

/// The equalities and clauses of a stack: an equality of each two terms of one sort has a number, and all clauses stand that
/// assertions, rows, choices, chains and congruences give.
///
/// # Errors
/// `Want` where memory runs out.
pub fn ground_of(alloc: Global, stack: &Stack) -> Result<Ground, Want>
    ensures { IsFormed (seen stack.now) → IfOk result (λ g. IsGround (seen stack.now) (reached g.derivation) g.count) }
{
    if stack.assertions.len() >= 1 << 32 {
        return Err(Want);
    }
    let derivation = Derivation::new(alloc, &stack.assertions)?;
    let count = derivation.terms().terms.len() as u32;
    let (mut derivation, aliases) = with_names(alloc, derivation)?;
    let assertions = stack.assertions.len() as u32;
    add_clauses(alloc, &mut derivation, assertions, count, &aliases)?;
    Ok(Ground { derivation, count })
}

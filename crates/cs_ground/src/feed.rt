//! A search over the clauses of a derivation.
ghost use Rattle.std.specs.Prelude.{List, ◌≡◌, ◌<◌, [], length, map, IfOk, slice_get, Some, ℕ};
ghost use Rattle.std.specs.List.{All};
ghost use Rattle.cs_certificate.specs.Nodes.{Node};
ghost use Rattle.cs_search.specs.Extended.{AreKnown};
ghost use Rattle.cs_search.specs.Search.{IsReady};
ghost use Rattle.cs_ground.specs.Atoms.{MissesNothing, AreBool, AreAtoms, all_named, literals};

use crate::atoms::Atoms;
use cs_certificate::Clause;
use cs_search::Value;
use cs_search::assignment::Assignment;
use cs_search::order::Order;
use cs_search::queue::Queue;
use cs_search::search::Search;
use cs_table::Stop;
use std::alloc::{AllocError, Global};

/// Clauses of Bool terms as those of their atoms.
///
/// # Errors
/// `Miss` where a term isn't Bool; `Want` where memory runs out.
fn clauses_of(alloc: Global, atoms: &Atoms, clauses: &[Clause]) -> Result<Vec<Clause>, Stop>
    ensures same { IfOk result (λ v. map (all_named atoms.now.terms.items) (literals v.items) ≡ literals clauses.now) }
    ensures known { IfOk result (λ v. AreKnown v.items (length atoms.now.terms.items)) }
    ensures found { (all : List Node) → AreAtoms all atoms.now.terms.items atoms.now.places.items → All (AreBool all) (literals clauses.now) → MissesNothing result }
{
    let mut all = Vec::new(alloc);
    for clause in clauses {
        let literals = atoms.atoms(alloc, &clause.literals)?;
        all.push(Clause { literals })?;
    }
    Ok(all)
}

/// So many atoms without a value.
fn unset(alloc: Global, count: usize) -> Result<Vec<Value>, AllocError>
    ensures count { IfOk result (λ v. length v.items ≡ count) }
    ensures unset { IfOk result (λ v. All (λ x. x ≡ Value.Unset) v.items) }
{
    let mut values = Vec::new(alloc);
    for _atom in 0..count {
        values.push(Value::Unset)?;
    }
    Ok(values)
}

/// A search over clauses of these atoms, in which nothing is decided yet.
fn search_over(alloc: Global, clauses: Vec<Clause>, count: usize) -> Result<Search, AllocError>
    requires { AreKnown clauses.items count }
    ensures ready { IfOk result (λ s. IsReady s) }
    ensures clauses { IfOk result (λ s. s.clauses ≡ clauses) }
    ensures steps { IfOk result (λ s. s.steps.items ≡ []) }
    ensures count { IfOk result (λ s. length s.made.values.items ≡ count) }
{
    let values = unset(alloc, count)?;
    let queue = Queue::new(alloc);
    Ok(Search {
        clauses,
        steps: Vec::new(alloc),
        made: Assignment {
            values,
            trail: Vec::new(alloc),
        },
        queue,
        order: Order::new(alloc),
    })
}

/// A search over clauses of Bool terms, which have the same numbers in it.
///
/// # Errors
/// `Miss` where a term isn't Bool; `Want` where memory runs out.
pub fn search_of(alloc: Global, atoms: &Atoms, clauses: &[Clause]) -> Result<Search, Stop>
    ensures ready { IfOk result (λ s. IsReady s) }
    ensures same { IfOk result (λ s. map (all_named atoms.now.terms.items) (literals s.clauses.items) ≡ literals clauses.now) }
    ensures steps { IfOk result (λ s. s.steps.items ≡ []) }
    ensures count { IfOk result (λ s. length s.made.values.items ≡ length atoms.now.terms.items) }
    ensures found { (all : List Node) → AreAtoms all atoms.now.terms.items atoms.now.places.items → All (AreBool all) (literals clauses.now) → MissesNothing result }
{
    let clauses = clauses_of(alloc, atoms, clauses)?;
    Ok(search_over(alloc, clauses, atoms.terms.len())?)
}

//! A derivation with no step.
ghost use Rattle.std.specs.Prelude.{◌≡◌, ◌<◌, ◌^◌, [], ◌++◌, map, length, IfOk, Some};
ghost use Rattle.vx_terms.specs.Interpretations.{Each};
ghost use Rattle.vx_terms.specs.Views.{term};
ghost use Rattle.cs_certificate.specs.Certificate.{Stack};
ghost use Rattle.cs_certificate.specs.Terms.{parts_of};
ghost use Rattle.cs_numbers.specs.Laws.{IsSorted};
ghost use Rattle.cs_numbers.specs.Listed.{terms_in};
ghost use Rattle.cs_numbers.specs.Numbering.{added, nodes_of, places};
ghost use Rattle.cs_table.specs.Gives.{Gives};
ghost use Rattle.cs_table.specs.Table.{nodes_in};

use crate::Derivation;
use cs_certificate::Marks;
use cs_numbers::{NumberedTerms, extend, number, place_of};
use cs_proof::Want;
use cs_table::{Stop, Table};
use std::alloc::Global;
use std::rc::Rc;
use vx_terms::Term;

/// The numbers of the assertions.
fn roots_of(alloc: Global, terms: &NumberedTerms, assertions: &[Rc<Term>]) -> Result<Vec<u32>, Stop>
    ensures { Gives (λ v. v.items) result (places (terms_in terms.now) (map (λ x. term x.value) assertions.now)) }
{
    let mut roots = Vec::new(alloc);
    for assertion in assertions {
        roots.push(place_of(terms, assertion)?)?;
    }
    Ok(roots)
}

/// The nodes of numbered terms.
fn table_of(alloc: Global, terms: &NumberedTerms) -> Result<Table, Stop>
    ensures { IfOk result (λ t. nodes_of (terms_in terms.now) (terms_in terms.now) ≡ Some (nodes_in t)) }
{
    let mut nodes = Table::new(alloc)?;
    extend(alloc, &mut nodes, terms)?;
    Ok(nodes)
}

impl Derivation {
    ghost use Rattle.cs_derivation.specs.Reached.{IsNew};
    ghost use Rattle.cs_derivation.specs.View.{reached};

    /// The terms of the assertions are numbered; there is no clause and no step.
    ///
    /// # Errors
    /// `Want` where memory runs out, or where there are 2^32 assertions.
    pub fn new(alloc: Global, assertions: &[Rc<Term>]) -> Result<Derivation, Want>
        ensures { (stack : Stack) → stack.assertions ≡ map (λ x. term x.value) assertions.now → Each IsSorted stack.assertions → IfOk result (λ d. IsNew stack (reached d)) }
    {
        let terms = number(alloc, assertions)?;
        let roots = roots_of(alloc, &terms, assertions)?;
        if roots.len() >= 1 << 32 {
            return Err(Want);
        }
        let nodes = table_of(alloc, &terms)?;
        let marks = Marks::new(alloc, nodes.nodes.len())?;
        Ok(Derivation {
            terms,
            nodes,
            roots,
            clauses: Vec::new(alloc),
            steps: Vec::new(alloc),
            marks,
            tries: 0,
        })
    }
}

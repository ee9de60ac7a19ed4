//! The steps so far, and what they lead to.
ghost use Rattle.std.specs.Prelude.{◌≡◌, ◌+◌, ◌<◌, ◌≤◌, ◌^◌, length, All};
ghost use Rattle.cs_certificate.specs.Marks.{terms_in, rounds_in};
ghost use Rattle.cs_proof.specs.Views.{IsFitClause};

use cs_certificate::{Clause, Marks};
use cs_numbers::NumberedTerms;
use cs_proof::Step;
use cs_table::Table;

/// The steps so far, the numbered terms and the clauses that they lead to. There are at most 2^32 - 1
/// clauses: memory runs out where there would be more.
#[derive(Drop)]
pub struct Derivation {
    pub(crate) terms: NumberedTerms,
    pub(crate) nodes: Table,
    /// The numbers of the assertions.
    pub(crate) roots: Vec<u32>,
    pub(crate) clauses: Vec<Clause>,
    pub(crate) steps: Vec<Step>,
    pub(crate) marks: Marks,
    /// How often hints were tried.
    pub(crate) tries: u64,
    ghost few_roots: { length roots.items < 2 ^ 32 },
    ghost few_clauses: { length clauses.items < 2 ^ 32 },
    ghost fit_clauses: { All (IsFitClause (length nodes.nodes.items)) clauses.items },
    ghost same_terms: { Rattle.cs_certificate.specs.Marks.terms_in marks ≡ length nodes.nodes.items },
    ghost rounds: { rounds_in marks ≤ tries + 1 },
}

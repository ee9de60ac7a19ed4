//! What a derivation has.
ghost use Rattle.std.specs.Prelude.{◌≡◌};

use crate::Derivation;
use cs_certificate::Clause;
use cs_numbers::NumberedTerms;
use cs_proof::Step;
use cs_table::Table;

impl Derivation {
    /// The numbered terms.
    pub fn terms(&self) -> &NumberedTerms
        ensures { result.now ≡ self.now.terms }
    {
        &self.terms
    }

    /// Their nodes.
    pub fn nodes(&self) -> &Table
        ensures { result.now ≡ self.now.nodes }
    {
        &self.nodes
    }

    /// The clauses, by number.
    pub fn clauses(&self) -> &[Clause]
        ensures { result.now ≡ self.now.clauses.items }
    {
        &self.clauses
    }

    /// The steps alone. No memory.
    pub fn into_steps(self) -> Vec<Step>
        ensures { result ≡ self.steps }
    {
        let Derivation {
            terms: _,
            nodes: _,
            roots: _,
            clauses: _,
            steps,
            marks: _,
            tries: _,
        } = self;
        steps
    }
}

//! Further terms get their numbers.
ghost use Rattle.std.specs.Prelude.{◌≡◌, [], ◌∷◌, ◌++◌, map, IfOk, OnOk, Some};
ghost use Rattle.vx_terms.specs.Views.{term};
ghost use Rattle.cs_certificate.specs.Certificate.{Stack, NewTerm, AreLive};
ghost use Rattle.cs_numbers.specs.Laws.{IsSorted};
ghost use Rattle.cs_proof.specs.Views.{written};
ghost use Rattle.cs_writable.specs.Writable.{IsWritableTerm};

use crate::Derivation;
use cs_certificate::Marks;
use cs_numbers::{add, extend, place_of};
use cs_proof::{Step, Want};
use cs_table::Stop;
use std::alloc::Global;
use std::rc::Rc;
use vx_terms::Term;

/// A `term` step more.
fn push_term(steps: &mut Vec<Step>, t: &Rc<Term>) -> Result<(), Stop>
    ensures { OnOk result (map written steps.new.items ≡ map written steps.old.items ++ Some (NewTerm (term t.now.value)) ∷ []) }
{
    steps.push(Step::Term(t.clone()?))?;
    Ok(())
}

impl Derivation {
    ghost use Rattle.cs_derivation.specs.Reached.{Stands, IsNamed};
    ghost use Rattle.cs_derivation.specs.View.{reached};

    /// `term`: with a well-sorted writable term over the live symbols, and the number of the term.
    ///
    /// # Errors
    /// `Want` where memory runs out; the derivation is gone then.
    #[tactic(auto, using(cs_proof::proofs::Fits::weaker_clauses))]
    pub fn name(self, alloc: Global, t: &Rc<Term>) -> Result<(Derivation, u32), Want>
        ensures { (stack : Stack) → Stands stack (reached self) → IsSorted (term t.now.value) → AreLive stack (term t.now.value)
            → IsWritableTerm (term t.now.value) → IfOk result (λ x. IsNamed stack (term t.now.value) (reached self) (reached x.0) x.1) }
    {
        let Derivation {
            mut terms,
            mut nodes,
            roots,
            clauses,
            mut steps,
            marks: _,
            tries: _,
        } = self;
        add(&mut terms, t)?;
        extend(alloc, &mut nodes, &terms)?;
        push_term(&mut steps, t)?;
        let number = place_of(&terms, t)?;
        let marks = Marks::new(alloc, nodes.nodes.len())?;
        let derivation = Derivation {
            terms,
            nodes,
            roots,
            clauses,
            steps,
            marks,
            tries: 0,
        };
        Ok((derivation, number))
    }
}

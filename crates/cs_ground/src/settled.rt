//! The answer of a stack, by clauses alone.
ghost use Rattle.std.specs.Prelude.{IfOk};
ghost use Rattle.cs_proof.specs.Fits.{seen};
ghost use Rattle.cs_derivation.specs.View.{reached};
ghost use Rattle.cs_ground.specs.Ground.{IsGround};
ghost use Rattle.cs_tables.specs.Made.{IsMade};
ghost use Rattle.cs_ground.specs.Answers.{IsPlain, IsSettled};

use crate::atoms::Atoms;
use crate::feed::search_of;
use crate::models::model_of;
use crate::replay::steps_of;
use crate::solving::solved;
use crate::{Ground, ground_of};
use cs_model::Model;
use cs_proof::{Stack, Step, Want};
use cs_search::search::Solved;
use cs_table::Stop;
use std::alloc::Global;

/// The answer of a stack: a certificate's writable steps that are finished, or a model that makes all assertions true.
#[derive(Drop)]
pub enum Settled {
    Refuted(Vec<Step>),
    Satisfied(Model),
}

/// The answer of a stack of which all clauses are derived. Nothing is missed then.
///
/// # Errors
/// `Miss` where a clause isn't of Bool terms, or isn't derived by its hints; `Want` where memory runs out.
fn answered(alloc: Global, stack: &Stack, ground: Ground) -> Result<Settled, Stop>
    ensures { IsPlain (seen stack.now) → IsGround (seen stack.now) (reached ground.derivation) ground.count → IsMade (IsSettled (seen stack.now)) result }
{
    let atoms = Atoms::new(alloc, ground.derivation.nodes())?;
    let mut search = search_of(alloc, &atoms, ground.derivation.clauses())?;
    match solved(alloc, &mut search)? {
        Solved::Refuted(last) => {
            let steps = steps_of(alloc, ground.derivation, &atoms.terms, &search, &last)?;
            Ok(Settled::Refuted(steps))
        }
        Solved::Assigned => {
            let model = model_of(alloc, stack, &ground, &atoms, &search.made.values)?;
            Ok(Settled::Satisfied(model))
        }
    }
}

/// Settles a stack without numbers: over all clauses that its terms give, a search finds an assignment or refutes them. There is
/// always an answer. Naming the equalities of n terms takes a time like n^4, and the search may take one that is exponential in the
/// number of Bool terms.
///
/// # Errors
/// `Want` where memory runs out.
pub fn settle(alloc: Global, stack: &Stack) -> Result<Settled, Want>
    ensures { IsPlain (seen stack.now) → IfOk result (IsSettled (seen stack.now)) }
{
    let ground = ground_of(alloc, stack)?;
    Ok(answered(alloc, stack, ground)?)
}

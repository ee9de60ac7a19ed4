//! The model of an assignment that satisfies all clauses.
ghost use Rattle.std.specs.Prelude.{◌≡◌, List, map};
ghost use Rattle.vx_terms.specs.Interpretations.{AllTrue};
ghost use Rattle.cs_table.specs.Table.{nodes_in};
ghost use Rattle.cs_certificate.specs.declared.literal.Clause.{Clause};
ghost use Rattle.cs_model.specs.Models.{interpretation};
ghost use Rattle.cs_proof.specs.Fits.{seen};
ghost use Rattle.cs_derivation.specs.View.{reached};
ghost use Rattle.cs_ground.specs.Ground.{IsGround};
ghost use Rattle.cs_tables.specs.Made.{IsMade};
ghost use Rattle.cs_ground.specs.Answers.{IsPlain};
ghost use Rattle.cs_ground.specs.Assigned.{AreSolving};
ghost use Rattle.cs_ground.specs.Atoms.{AreAtoms, literals};
ghost use Rattle.cs_ground.specs.Replayed.{Follows};

use crate::atoms::Atoms;
use crate::classes::{classes_of, truths_of};
use crate::{Ground, satisfied_assigns};
use cs_model::Model;
use cs_numbers::number;
use cs_proof::Stack;
use cs_search::Value;
use cs_table::Stop;
use cs_tables::tables_of;
use std::alloc::Global;

/// The tables of the values of atoms, in which the assertions are true where the values satisfy all clauses.
///
/// # Errors
/// `Want` where memory runs out.
pub fn model_of(
    alloc: Global,
    stack: &Stack,
    ground: &Ground,
    atoms: &Atoms,
    values: &[Value],
) -> Result<Model, Stop>
    ensures { (clauses : List Clause) → IsPlain (seen stack.now) → IsGround (seen stack.now) (reached ground.now.derivation) ground.now.count
        → AreAtoms (nodes_in ground.now.derivation.nodes) atoms.now.terms.items atoms.now.places.items →
        Follows (seen stack.now) atoms.now.terms.items (literals clauses) (reached ground.now.derivation) → AreSolving atoms.now.terms.items clauses values.now
        → IsMade (λ m. AllTrue (interpretation m.entries.items) (seen stack.now).assertions) result }
{
    let truths = truths_of(alloc, &atoms.places, values)?;
    let classes = classes_of(alloc, ground.derivation.nodes(), &truths, ground.count)?;
    let terms = number(alloc, &stack.assertions)?;
    satisfied_assigns();
    tables_of(alloc, &terms, &truths, &classes)
}

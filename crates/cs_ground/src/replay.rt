//! The steps of what a search has learned.
ghost use Rattle.std.specs.Prelude.{◌≡◌, ◌<◌, ◌++◌, [], ◌∷◌, List, map, length, reverse, IfOk};
ghost use Rattle.std.specs.List.{All};
ghost use Rattle.cs_certificate.specs.Certificate.{Stack};
ghost use Rattle.cs_certificate.specs.declared.literal.Clause.{Clause};
ghost use Rattle.cs_derivation.specs.View.{reached};
ghost use Rattle.cs_proof.specs.Answers.{Answers};
ghost use Rattle.cs_proof.specs.Checking.{Finished};
ghost use Rattle.cs_proof.specs.Views.{written};
ghost use Rattle.cs_writable.specs.Writable.{AreWritable};
ghost use Rattle.cs_search.specs.Extended.{AreKnown};
ghost use Rattle.cs_search.specs.Propagation.{IsDerived};
ghost use Rattle.cs_search.specs.Search.{Learns};
ghost use Rattle.cs_tables.specs.Made.{IsMade};
ghost use Rattle.cs_ground.specs.Atoms.{literals};
ghost use Rattle.cs_ground.specs.Replayed.{Follows, IsLearned};

use crate::atoms::names;
use cs_certificate::{Clause, Literal};
use cs_derivation::{Derivation, empty_clauses_finish};
use cs_proof::{Step, Want};
use cs_search::search::{Hints, Search};
use cs_table::Stop;
use std::alloc::Global;

/// Hints from the first to the last, as numbers of clauses, which have 32 bits.
///
/// # Errors
/// `Want` where a number has more, or where memory runs out.
fn turned(alloc: Global, hints: &Hints) -> Result<Vec<u32>, Stop>
    ensures made { IsMade (λ v. v.items ≡ reverse hints.now.numbers.items) result }
{
    let mut all = Vec::new(alloc);
    for hint in &hints.numbers {
        if *hint > u32::MAX as usize {
            return Err(Stop::Want);
        }
        all.push(*hint as u32)?;
    }
    all.reverse();
    Ok(all)
}

/// The step of a clause that hints derive.
///
/// # Errors
/// `Miss` where they don't; `Want` where memory runs out.
fn tell(
    alloc: Global,
    derivation: &mut Derivation,
    atoms: &[u32],
    literals: &[Literal],
    hints: &Hints,
) -> Result<(), Stop>
    requires { All (λ l. l.number < length atoms.now) literals.now }
    ensures { (stack : Stack) (clauses : List Clause) → Follows stack atoms.now (Rattle.cs_ground.specs.Atoms.literals clauses) (reached derivation.old)
        → IsLearned atoms.now clauses literals.now hints.now.numbers.items →
        IsMade (λ u. Follows stack atoms.now (Rattle.cs_ground.specs.Atoms.literals clauses ++ literals.now ∷ []) (reached derivation.new)) result }
{
    let literals = names(alloc, atoms, literals)?;
    let hints = turned(alloc, hints)?;
    match derivation.propagate(alloc, &literals, &hints) {
        Ok(Some(_)) => Ok(()),
        Ok(None) => Err(Stop::Miss),
        Err(Want) => Err(Stop::Want),
    }
}

/// The steps of the clauses that were learned: the next one is always the one behind those that the derivation has.
///
/// # Errors
/// `Miss` where a clause isn't derived by its hints; `Want` where memory runs out.
fn tell_all(
    alloc: Global,
    derivation: &mut Derivation,
    atoms: &[u32],
    clauses: &[Clause],
    steps: &[Hints],
) -> Result<(), Stop>
    requires { AreKnown clauses.now (length atoms.now) }
    ensures { (stack : Stack) (first : List Clause) → Follows stack atoms.now (literals first) (reached derivation.old) → Learns first [] clauses.now steps.now →
        IsMade (λ u. Follows stack atoms.now (literals clauses.now) (reached derivation.new)) result }
{
    for hints in steps {
        let next = derivation.clauses().len();
        if next >= clauses.len() {
            return Err(Stop::Miss);
        }
        tell(alloc, derivation, atoms, &clauses[next].literals, hints)?;
    }
    Ok(())
}

/// The steps with those of the clauses that a search learned, and of the empty clause.
///
/// # Errors
/// `Miss` where a clause isn't derived by its hints; `Want` where memory runs out.
pub fn steps_of(
    alloc: Global,
    derivation: Derivation,
    atoms: &[u32],
    search: &Search,
    last: &Hints,
) -> Result<Vec<Step>, Stop>
    requires { AreKnown search.now.clauses.items (length atoms.now) }
    ensures { (stack : Stack) (first : List Clause) → Follows stack atoms.now (literals first) (reached derivation)
        → Learns first [] search.now.clauses.items search.now.steps.items → IsDerived search.now.clauses.items [] (reverse last.now.numbers.items) →
        IsMade (λ v. Answers stack (map written v.items) Finished × AreWritable (map written v.items)) result }
{
    let mut derivation = derivation;
    tell_all(
        alloc,
        &mut derivation,
        atoms,
        &search.clauses,
        &search.steps,
    )?;
    tell(alloc, &mut derivation, atoms, &[], last)?;
    empty_clauses_finish();
    Ok(derivation.into_steps())
}

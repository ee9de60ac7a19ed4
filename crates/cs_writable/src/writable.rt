// Whether the text of steps is one that is read back.
ghost use Rattle.std.specs.Prelude.{◌≡◌, map, IfOk};
ghost use Rattle.std.specs.Bool.{Decides};
ghost use Rattle.vx_frac.specs.Fraction.{fraction};
ghost use Rattle.cs_certificate.specs.Certificate as Written;
ghost use Rattle.cs_proof.specs.Views.{written, numbered};
ghost use Rattle.cs_writable.specs.Writable.{AreWritable};
ghost use Rattle.cs_writable.specs.Tests as tests;

use crate::small::{Small, are_small};
use crate::term_walk::is_writable_term;
use cs_proof::Step;
use cs_reader::Literal;
use std::alloc::{AllocError, Global};
use vx_frac::Frac;

fn is_writable_farkas(literals: &[Literal], multipliers: &[Frac]) -> bool
    ensures { result ≡ tests.is_writable (Written.Farkas (map numbered literals.now) (map fraction multipliers.now)) }
{
    are_small(literals) && are_small(multipliers)
}

fn is_writable_propagation(literals: &[Literal], hints: &[u128]) -> bool
    ensures { result ≡ tests.is_writable (Written.Propagate (map numbered literals.now) hints.now) }
{
    are_small(literals) && are_small(hints)
}

fn is_writable(alloc: Global, step: &Step) -> Result<bool, AllocError>
    ensures { IfOk result (λ b. b ≡ tests.is_writable_step (written step.now)) }
{
    match step {
        Step::Input(n) => Ok(n.is_small()),
        Step::Term(t) => is_writable_term(alloc, t),
        Step::NoTerm => Ok(false),
        Step::Define(t, k) => Ok(t.is_small() && k.is_small()),
        Step::Pick(t, k) => Ok(t.is_small() && k.is_small()),
        Step::Chain(terms) => Ok(are_small(terms)),
        Step::Congruence(s, t) => Ok(s.is_small() && t.is_small()),
        Step::Farkas(literals, multipliers) => Ok(is_writable_farkas(literals, multipliers)),
        Step::Split(t, number) => Ok(t.is_small() && number.unsigned_abs().is_small()),
        Step::Trichotomy(a, b) => Ok(a.is_small() && b.is_small()),
        Step::Divide(a, d, row) => Ok(a.is_small() && d.is_small() && row.is_small()),
        Step::Propagate(literals, hints) => Ok(is_writable_propagation(literals, hints)),
    }
}

/// Whether all steps are writable: their numbers stay below 2^127, each spells its term, and no list of parts is too short.
///
/// # Errors
/// Memory runs out.
pub fn are_writable(alloc: Global, steps: &[Step]) -> Result<bool, AllocError>
    ensures { IfOk result (λ b. Decides b (AreWritable (map written steps.now))) }
{
    for step in steps {
        let fine = is_writable(alloc, step)?;
        if !fine {
            return Ok(false);
        }
    }
    Ok(true)
}

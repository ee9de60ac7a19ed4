//! The clauses of rows, choices and assertions.
ghost use Rattle.std.specs.Prelude.{◌<◌, ◌^◌, length, OnOk};
ghost use Rattle.cs_certificate.specs.Certificate.{Stack};
ghost use Rattle.cs_derivation.specs.View.{reached};
ghost use Rattle.cs_ground.specs.Steps.{IsClausal, Collects, OfFirst, IsRowOf, IsPickOf, IsOf, IsInputOf};

use cs_derivation::Derivation;
use cs_proof::Want;
use std::alloc::Global;

/// The clauses of a term's rows, which are numbered without a gap. There are fewer than 2^32 of them.
fn add_rows(alloc: Global, derivation: &mut Derivation, t: u32) -> Result<(), Want>
    ensures { (stack : Stack) → IsClausal stack (reached derivation.old) → OnOk result (Collects stack (IsRowOf t) (reached derivation.old) (reached derivation.new)) }
{
    for row in 0..u32::MAX {
        if derivation.define(alloc, t, row)?.is_none() {
            return Ok(());
        }
    }
    Err(Want)
}

/// The clauses of a choice that isn't Bool, where the term is one.
fn add_picks(alloc: Global, derivation: &mut Derivation, t: u32) -> Result<(), Want>
    ensures { (stack : Stack) → IsClausal stack (reached derivation.old) → OnOk result (Collects stack (IsPickOf t) (reached derivation.old) (reached derivation.new)) }
{
    derivation.pick(alloc, t, 0)?;
    derivation.pick(alloc, t, 1)?;
    Ok(())
}

/// The clauses of a term.
fn add_term(alloc: Global, derivation: &mut Derivation, t: u32) -> Result<(), Want>
    ensures { (stack : Stack) → IsClausal stack (reached derivation.old) → OnOk result (Collects stack (IsOf t) (reached derivation.old) (reached derivation.new)) }
{
    add_rows(alloc, derivation, t)?;
    add_picks(alloc, derivation, t)?;
    Ok(())
}

/// The clauses of the first terms.
pub fn add_terms(alloc: Global, derivation: &mut Derivation, count: u32) -> Result<(), Want>
    ensures { (stack : Stack) → IsClausal stack (reached derivation.old) → OnOk result (Collects stack (OfFirst IsOf count) (reached derivation.old) (reached derivation.new)) }
{
    for t in 0..count {
        add_term(alloc, derivation, t)?;
    }
    Ok(())
}

/// The clauses of the first assertions.
pub fn add_inputs(alloc: Global, derivation: &mut Derivation, count: u32) -> Result<(), Want>
    ensures { (stack : Stack) → IsClausal stack (reached derivation.old) → OnOk result (Collects stack (OfFirst IsInputOf count) (reached derivation.old) (reached derivation.new)) }
{
    for number in 0..count {
        derivation.input(alloc, number)?;
    }
    Ok(())
}

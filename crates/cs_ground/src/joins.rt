//! The clauses by which equality goes on from term to term, and from parts to the whole.
ghost use Rattle.std.specs.Prelude.{OnOk};
ghost use Rattle.cs_certificate.specs.Certificate.{Stack};
ghost use Rattle.cs_derivation.specs.View.{reached};
ghost use Rattle.cs_ground.specs.Steps.{IsClausal, Collects, OfFirst, IsChainOfTwo, IsChainOfOne, IsCongruenceOfOne, IsOfAlias, IsOfAliases};

use crate::aliases::Alias;
use cs_derivation::Derivation;
use cs_proof::Want;
use std::alloc::Global;

/// The chains of two terms with each of the first terms.
fn add_chains_of_two(
    alloc: Global,
    derivation: &mut Derivation,
    count: u32,
    i: u32,
    j: u32,
) -> Result<(), Want>
    ensures { (stack : Stack) → IsClausal stack (reached derivation.old) → OnOk result (Collects stack (IsChainOfTwo count i j) (reached derivation.old) (reached derivation.new)) }
{
    for k in 0..count {
        derivation.chain(alloc, &[i, j, k])?;
    }
    Ok(())
}

/// The chains of a term with each two of the first terms.
fn add_chains_of_one(
    alloc: Global,
    derivation: &mut Derivation,
    count: u32,
    i: u32,
) -> Result<(), Want>
    ensures { (stack : Stack) → IsClausal stack (reached derivation.old) → OnOk result (Collects stack (IsChainOfOne count i) (reached derivation.old) (reached derivation.new)) }
{
    for j in 0..count {
        add_chains_of_two(alloc, derivation, count, i, j)?;
    }
    Ok(())
}

/// The chains of each three of the first terms.
pub fn add_chains(alloc: Global, derivation: &mut Derivation, count: u32) -> Result<(), Want>
    ensures { (stack : Stack) → IsClausal stack (reached derivation.old)
        → OnOk result (Collects stack (OfFirst (IsChainOfOne count) count) (reached derivation.old) (reached derivation.new)) }
{
    for i in 0..count {
        add_chains_of_one(alloc, derivation, count, i)?;
    }
    Ok(())
}

/// The congruences of a term with each of the first terms.
fn add_congruences_of_one(
    alloc: Global,
    derivation: &mut Derivation,
    count: u32,
    i: u32,
) -> Result<(), Want>
    ensures { (stack : Stack) → IsClausal stack (reached derivation.old) → OnOk result (Collects stack (IsCongruenceOfOne count i) (reached derivation.old) (reached derivation.new)) }
{
    for j in 0..count {
        derivation.congruence(alloc, i, j)?;
    }
    Ok(())
}

/// The congruences of each two of the first terms.
pub fn add_congruences(alloc: Global, derivation: &mut Derivation, count: u32) -> Result<(), Want>
    ensures { (stack : Stack) → IsClausal stack (reached derivation.old)
        → OnOk result (Collects stack (OfFirst (IsCongruenceOfOne count) count) (reached derivation.old) (reached derivation.new)) }
{
    for i in 0..count {
        add_congruences_of_one(alloc, derivation, count, i)?;
    }
    Ok(())
}

/// The clauses that lead from an alias's equality to its first order.
fn add_alias(alloc: Global, derivation: &mut Derivation, alias: &Alias) -> Result<(), Want>
    ensures { (stack : Stack) → IsClausal stack (reached derivation.old) → OnOk result (Collects stack (IsOfAlias alias.now) (reached derivation.old) (reached derivation.new)) }
{
    derivation.chain(alloc, &[alias.left, alias.choice, alias.right])?;
    derivation.congruence(alloc, alias.whole, alias.equality)?;
    Ok(())
}

/// The clauses of some aliases.
pub fn add_aliases(
    alloc: Global,
    derivation: &mut Derivation,
    aliases: &[Alias],
) -> Result<(), Want>
    ensures { (stack : Stack) → IsClausal stack (reached derivation.old) → OnOk result (Collects stack (IsOfAliases aliases.now) (reached derivation.old) (reached derivation.new)) }
{
    for alias in aliases {
        add_alias(alloc, derivation, alias)?;
    }
    Ok(())
}

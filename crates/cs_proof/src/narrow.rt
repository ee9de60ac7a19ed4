//! Numbers of 32 bits, and literals of numbered terms.
ghost use Rattle.std.specs.Prelude.{◌≡◌, length, map, IfOk, All};
ghost use Rattle.cs_table.specs.Gives.{Gives, clause};
ghost use Rattle.cs_certificate.specs.Marks.{IsBelow};
ghost use Rattle.cs_proof.specs.Prepared as clean;
ghost use Rattle.cs_proof.specs.Views.{numbered, IsFitClause};

use cs_certificate::Clause;
use cs_table::{Literal, Stop};
use std::alloc::{AllocError, Global};

/// A number of 32 bits.
pub fn narrow(number: u128) -> Result<u32, Stop>
    ensures { Gives (λ n. n) result (clean.narrow number) }
{
    if number < 1 << 32 {
        Ok(number as u32)
    } else {
        Err(Stop::Miss)
    }
}

pub fn narrow_all(alloc: Global, numbers: &[u128]) -> Result<Vec<u32>, Stop>
    ensures { Gives (λ v. v.items) result (clean.narrow_all numbers.now) }
{
    let mut found = Vec::new(alloc);
    for number in numbers {
        found.push(narrow(*number)?)?;
    }
    Ok(found)
}

fn narrow_literal(literal: &cs_reader::Literal) -> Result<Literal, Stop>
    ensures { Gives Rattle.cs_table.specs.Gives.numbered result (clean.narrow_literal (numbered literal.now)) }
{
    let number = narrow(literal.number)?;
    Ok(Literal {
        positive: literal.positive,
        number,
    })
}

pub fn narrow_literals(alloc: Global, literals: &[cs_reader::Literal]) -> Result<Vec<Literal>, Stop>
    ensures { Gives (λ v. clause v.items) result (clean.narrow_literals (map numbered literals.now)) }
{
    let mut found = Vec::new(alloc);
    for literal in literals {
        found.push(narrow_literal(literal)?)?;
    }
    Ok(found)
}

/// The hints; one of more bits becomes another that names no clause.
pub fn saturated(alloc: Global, hints: &[u128]) -> Result<Vec<u32>, AllocError>
    ensures { IfOk result (λ v. v.items ≡ map clean.saturate hints.now) }
{
    let mut found = Vec::new(alloc);
    for hint in hints {
        found.push(saturate(*hint))?;
    }
    Ok(found)
}

fn saturate(hint: u128) -> u32
    ensures { result ≡ clean.saturate hint }
{
    if hint < 1 << 32 {
        hint as u32
    } else {
        u32::MAX
    }
}

/// The negations of the literals.
pub fn turned(alloc: Global, literals: &[Literal]) -> Result<Vec<Literal>, AllocError>
    ensures { IfOk result (λ v. clause v.items ≡ map clean.turned (clause literals.now)) }
{
    let mut found = Vec::new(alloc);
    for literal in literals {
        found.push(negation(literal))?;
    }
    Ok(found)
}

fn negation(literal: &Literal) -> Literal
    ensures { Rattle.cs_table.specs.Gives.numbered result ≡ clean.turned (Rattle.cs_table.specs.Gives.numbered literal.now) }
{
    Literal {
        positive: !literal.positive,
        number: literal.number,
    }
}

fn literal_within(terms: usize, literal: &Literal) -> Result<cs_certificate::Literal, Stop>
    ensures value { Gives (λ l. l) result (clean.one_within terms (Rattle.cs_table.specs.Gives.numbered literal.now)) }
    ensures below { IfOk result (IsBelow terms) }
{
    if (literal.number as usize) < terms {
        Ok(cs_certificate::Literal {
            positive: literal.positive,
            number: literal.number,
        })
    } else {
        Err(Stop::Miss)
    }
}

/// A clause of literals of the first terms.
pub fn clause_within(alloc: Global, terms: usize, literals: &[Literal]) -> Result<Clause, Stop>
    ensures value { Gives (λ c. c.literals.items) result (clean.within terms (clause literals.now)) }
    ensures below { IfOk result (IsFitClause terms) }
{
    let mut found = Vec::new(alloc);
    for literal in literals {
        found.push(literal_within(terms, literal)?)?;
    }
    Ok(Clause { literals: found })
}

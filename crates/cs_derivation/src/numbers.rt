//! Numbers and literals as steps are written.
ghost use Rattle.std.specs.Prelude.{◌≡◌, map, IfOk};
ghost use Rattle.vx_terms.specs.Interpretations.{Each};
ghost use Rattle.cs_proof.specs.Views as written;
ghost use Rattle.cs_writable.specs.Writable.{IsSmallLiteral};
ghost use Rattle.cs_derivation.specs.Taken.{numbered};

use cs_certificate::Literal;
use std::alloc::{AllocError, Global};

/// Numbers, as a step is written with them.
pub fn widened(alloc: Global, numbers: &[u32]) -> Result<Vec<u128>, AllocError>
    ensures { IfOk result (λ v. v.items ≡ numbers.now) }
{
    let mut wide = Vec::new(alloc);
    for number in numbers {
        wide.push(u128::from(*number))?;
    }
    Ok(wide)
}

fn as_written(literal: &Literal) -> cs_reader::Literal
    ensures value { written.numbered result ≡ numbered literal.now }
    ensures small { IsSmallLiteral (written.numbered result) }
{
    cs_reader::Literal {
        positive: literal.positive,
        number: u128::from(literal.number),
    }
}

/// Literals, as a step is written with them.
pub fn all_written(
    alloc: Global,
    literals: &[Literal],
) -> Result<Vec<cs_reader::Literal>, AllocError>
    ensures value { IfOk result (λ v. map written.numbered v.items ≡ map numbered literals.now) }
    ensures small { IfOk result (λ v. Each IsSmallLiteral (map written.numbered v.items)) }
{
    let mut all = Vec::new(alloc);
    for literal in literals {
        all.push(as_written(literal))?;
    }
    Ok(all)
}

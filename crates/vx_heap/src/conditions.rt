//! What is wanted of a candidate, as a condition.

ghost use Rattle.std.specs.Prelude.{◌≡◌, IfOk};
ghost use Rattle.vx_heap.specs.Views.{chunk as chunk_view, terms_of, held_term};
ghost use Rattle.vx_rules.specs.Chunks as chunks;

use crate::Chunk;
use crate::amounts::positive;
use std::alloc::{AllocError, Global};
use std::rc::Rc;
use vx_terms::{Term, make, numbers};

/// A condition, and that the terms of two lists are equal, joined to the left.
fn equal_onto(
    alloc: Global,
    condition: &Rc<Term>,
    ss: &[Rc<Term>],
    ts: &[Rc<Term>],
) -> Result<Rc<Term>, AllocError>
    ensures { IfOk result (λ t. held_term t ≡ chunks.equal_onto (held_term condition.now) (terms_of ss.now) (terms_of ts.now)) }
{
    match ss {
        [] => condition.clone(),
        [s, ss @ ..] => match ts {
            [] => condition.clone(),
            [t, ts @ ..] => {
                let both = make::and(alloc, condition, &numbers::eq(alloc, s, t)?)?;
                equal_onto(alloc, &both, ss, ts)
            }
        },
    }
}

/// That arguments are equal; a chunk's stand on the left.
pub fn equal_arguments(
    alloc: Global,
    ss: &[Rc<Term>],
    ts: &[Rc<Term>],
) -> Result<Rc<Term>, AllocError>
    ensures { IfOk result (λ t. held_term t ≡ chunks.equal_arguments (terms_of ss.now) (terms_of ts.now)) }
{
    match ss {
        [] => make::boolean(alloc, true),
        [s, ss @ ..] => match ts {
            [] => make::boolean(alloc, true),
            [t, ts @ ..] => equal_onto(alloc, &numbers::eq(alloc, s, t)?, ss, ts),
        },
    }
}

/// That a chunk has these arguments and a positive amount.
pub fn holds_some(
    alloc: Global,
    arguments: &[Rc<Term>],
    chunk: &Chunk,
) -> Result<Rc<Term>, AllocError>
    ensures { IfOk result (λ t. held_term t ≡ chunks.holds_some (terms_of arguments.now) (chunk_view chunk.now)) }
{
    let same = equal_arguments(alloc, &chunk.arguments, arguments)?;
    make::and(alloc, &same, &positive(alloc, &chunk.amount)?)
}

/// That a chunk has these arguments and this amount or more.
pub fn holds_amount(
    alloc: Global,
    amount: &Rc<Term>,
    arguments: &[Rc<Term>],
    chunk: &Chunk,
) -> Result<Rc<Term>, AllocError>
    ensures { IfOk result (λ t. held_term t ≡ chunks.holds_amount (held_term amount.now) (terms_of arguments.now) (chunk_view chunk.now)) }
{
    let same = equal_arguments(alloc, &chunk.arguments, arguments)?;
    make::and(alloc, &same, &numbers::le(alloc, amount, &chunk.amount)?)
}

//! The chunks of instances.

ghost use Rattle.std.specs.Prelude.{◌≡◌, IfOk, string_bytes};
ghost use Rattle.vx_heap.specs.Views.{chunk as chunk_view, held_term};
ghost use Rattle.vx_rules.specs.Chunks.{instance_key};
ghost use Rattle.vx_stack.specs.Values.{values};

use crate::Instance;
use std::alloc::{AllocError, Global};
use std::rc::Rc;
use vx_heap::{Chunk, Resource};
use vx_terms::Term;

/// The chunk of an instance with this snapshot.
pub fn chunk_of(
    alloc: Global,
    instance: &Instance,
    snapshot: Rc<Term>,
    is_inner: bool,
) -> Result<Chunk, AllocError>
    ensures { IfOk result (λ c. chunk_view c ≡ record (instance_key (string_bytes instance.now.predicate.value) (values instance.now.arguments.value))
        { amount = held_term instance.now.amount; value = held_term snapshot; inner = is_inner }) }
{
    Ok(Chunk {
        resource: Resource::Predicate(instance.predicate.clone()?),
        arguments: instance.arguments.to_vec(alloc)?,
        amount: instance.amount.clone()?,
        value: snapshot,
        is_root: false,
        is_inner,
    })
}

//! What is looked for in a heap.

ghost use Rattle.std.specs.Prelude.{◌≡◌, IfOk, string_bytes};
ghost use Rattle.vx_heap.specs.Views.{chunk as chunk_view, held_term};
ghost use Rattle.vx_rules.specs.Rules as rule;
ghost use Rattle.vx_resolved.specs.Settled.{settled};
ghost use Rattle.vx_stack.specs.Stack.{wanted};
ghost use Rattle.vx_terms.specs.Views.{sort};

use crate::Search;
use std::alloc::{AllocError, Global};
use std::rc::Rc;
use vx_heap::{Chunk, holds_amount, holds_some};
use vx_resolved::Settled;
use vx_states::sort_of_value;
use vx_terms::{Sort, Term};

impl Search {
    /// That a chunk is as wanted.
    pub fn condition(&self, alloc: Global, chunk: &Chunk) -> Result<Rc<Term>, AllocError>
        ensures { IfOk result (λ t. held_term t ≡ wanted self.now (chunk_view chunk.now)) }
    {
        match &self.amount {
            Some(amount) => holds_amount(alloc, amount, &self.arguments, chunk),
            None => holds_some(alloc, &self.arguments, chunk),
        }
    }
}

/// The sort of a field's values; of a name that is no field's, Int.
pub fn field_sort(program: &Settled, name: &Rc<String>) -> Sort
    ensures { sort result ≡ rule.field_sort (settled program.now) (string_bytes name.now.value) }
{
    match program.field_type(name) {
        Some(of) => sort_of_value(of),
        None => Sort::Int,
    }
}

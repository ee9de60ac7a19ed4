//! What a side tells that a quiet evaluation left.

ghost use Rattle.std.specs.Prelude.{◌≡◌, true, false, IfOk};
ghost use Rattle.vx_heap.specs.Views.{held_term};
ghost use Rattle.vx_rules.specs.States.{conjunction, new_entries};
ghost use Rattle.vx_states.specs.SymStates.{state};
ghost use Rattle.vx_terms.specs.Build as built;

use crate::SymState;
use crate::entries::news_since;
use std::alloc::{AllocError, Global};
use std::rc::Rc;
use vx_terms::{Term, make};

/// Under the branches that a side brought since an evaluation began, its facts and what is said of its value.
pub fn gathered(
    alloc: Global,
    before: &SymState,
    left: &SymState,
    said: &Rc<Term>,
) -> Result<Rc<Term>, AllocError>
    ensures { IfOk result (λ t. held_term t ≡ built.implies (conjunction true (new_entries (state before.now) (state left.now)))
        (built.and (conjunction false (new_entries (state before.now) (state left.now))) (held_term said.now))) }
{
    let new = news_since(alloc, before, left)?;
    let told = make::and(alloc, &new.facts, said)?;
    make::implies(alloc, &new.branches, &told)
}

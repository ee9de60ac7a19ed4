//! Which members mention each member.

ghost use Rattle.std.specs.Prelude.{◌≡◌, ℕ, IfOk, false, length};
ghost use Rattle.vx_closure.specs.Mentioners.{AreMentioners};
ghost use Rattle.vx_graph.specs.Reach.{leads};
ghost use Rattle.vx_graph.specs.Views.{rows};
ghost use Rattle.vx_resolved.specs.Settled.{settled};

use crate::mentions::{Mentioners, add_kind};
use std::alloc::{AllocError, Global};
use vx_ast::MemberId;
use vx_graph::Edges;
use vx_resolved::Settled;

// So many members, none of which is mentioned.
fn unmentioned(alloc: Global, members: usize) -> Result<Mentioners, AllocError>
    ensures members { IfOk result (λ rows. length rows.items ≡ members) }
    ensures edges { IfOk result (λ rows. (b c : ℕ) → leads rows.items b c ≡ false) }
{
    let mut rows = Vec::with_capacity(alloc, members)?;
    for _ in 0..members {
        rows.push(Vec::new(alloc))?;
    }
    Ok(rows)
}

/// For each member, in file order, those that mention it. A method mentions what its contract, its body and the contracts of
/// the methods that it calls do; a predicate what its body does.
pub fn mentioners(alloc: Global, program: &Settled) -> Result<Edges, AllocError>
    ensures { IfOk result (λ edges. AreMentioners (settled program.now) (rows edges)) }
{
    // Members go by numbers of 32 bits.
    if program.len() > u32::MAX as usize {
        return Err(AllocError);
    }
    let mut rows = unmentioned(alloc, program.len())?;
    for number in 0..program.len() {
        let by = MemberId(number as u32);
        add_kind(&mut rows, program, by, &program.member(number).kind)?;
    }
    let edges = Edges::of(alloc, rows)?;
    Ok(edges)
}

//! Which members lead to a member.

ghost use Rattle.std.specs.Prelude.{◌≡◌, ◌≢◌, ◌<◌, ◌↔◌, ℕ, All, IfOk, length, true};
ghost use Rattle.vx_closure.specs.Leads.{HasDistinctNames, LeadsTo};
ghost use Rattle.vx_closure.specs.Mentioners.{AreMentioners};
ghost use Rattle.vx_graph.specs.Listed.{Ascends, is_in};
ghost use Rattle.vx_graph.specs.Views.{rows};
ghost use Rattle.vx_resolved.specs.Settled.{settled};

use std::alloc::{AllocError, Global};
use vx_ast::MemberId;
use vx_graph::{Edges, rests};
use vx_resolved::Settled;

/// The members that lead to a member, without itself, in file order.
pub fn leaders(
    alloc: Global,
    program: &Settled,
    mentioners: &Edges,
    member: MemberId,
) -> Result<Vec<MemberId>, AllocError>
    requires mentioners { AreMentioners (settled program.now) (rows mentioners.now) }
    requires distinct { HasDistinctNames (settled program.now) }
    requires member { member.0 < length (settled program.now) }
    ensures order { IfOk result (λ ms. Ascends ms.items) }
    ensures within { IfOk result (λ ms. All (λ m. m.0 < length (settled program.now)) ms.items) }
    ensures members { IfOk result (λ ms. (n : ℕ) → (is_in ms.items n ≡ true) ↔ (LeadsTo (settled program.now) n member.0 × (n ≢ member.0))) }
{
    let found = rests(alloc, mentioners, member)?;
    Ok(found)
}

//! Typed programs, settled, and typed as a whole.

ghost use Rattle.std.specs.Prelude.{◌≡◌, IfOk};
ghost use Rattle.vx_resolved.specs.Settled.{settled};
ghost use Rattle.vx_typing.specs.Typed.{resolved_of};
ghost use Rattle.vx_verifier.specs.Headline.{IsWhole};

use std::alloc::{AllocError, Global};
use vx_resolved::Settled;
use vx_settled::{
    typed_programs_keep_apart, typed_programs_name_apart, typed_programs_settle_whole,
};
use vx_settling::settle;
use vx_typing::Typed;

/// A typed program, settled.
pub fn settled(alloc: Global, typed: &Typed) -> Result<Settled, AllocError>
    ensures { IfOk result (λ s. settled s ≡ resolved_of typed.now) }
{
    typed_programs_keep_apart();
    typed.typed();
    settle(alloc, typed.program())
}

/// A typed program is typed as a whole, and no two of its members have one name.
pub fn typed_programs_are_whole(typed: &Typed)
    ensures { IsWhole (resolved_of typed.now) }
{
    typed_programs_settle_whole();
    typed_programs_name_apart();
    typed.typed();
}

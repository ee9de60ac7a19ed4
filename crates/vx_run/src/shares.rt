//! Amounts of instances that are folded and unfolded.
ghost use Rattle.std.specs.Prelude.{◌≡◌, IfOk};
ghost use Rattle.vx_frac.specs.Fraction.{fraction};
ghost use Rattle.vx_frac.specs.Fractions.{is_positive};
ghost use Rattle.vx_meaning.specs.Fits as fits;
ghost use Rattle.vx_run.specs.Held.{instance as instance_of};
ghost use Rattle.vx_run.specs.Views.{value, told_amount};
ghost use Rattle.vx_run.specs.ConfigViews.{state_of};
ghost use Rattle.vx_run.specs.Pending.{share_of, state_at};

use crate::context::When;
use crate::outcome::Whole;
use crate::resource::{Instance, Resource};
use crate::state::State;
use crate::values::Value;
use std::alloc::AllocError;
use vx_ast::Place;
use vx_frac::Frac;

/// Whether it is above none.
pub fn is_above_none(q: Frac) -> bool
    ensures { result ≡ is_positive (fraction q) }
{
    Frac::whole(0).is_less(q)
}

/// An amount above none.
pub fn share(at: Place, v: Value) -> Result<Frac, Whole>
    ensures { told_amount result ≡ share_of at (value v) }
{
    match v {
        Value::Perm(q) => {
            if is_above_none(q) {
                return Ok(q);
            }
            Err(Whole::Failed(at))
        }
        Value::Int(_) | Value::Bool(_) | Value::Ref(_) => Err(Whole::Failed(at)),
    }
}

/// Whether so much of an instance, above none, is held.
pub fn has_share(state: &State, when: When, i: &Instance, q: Frac) -> Result<bool, AllocError>
    ensures { IfOk result (λ b. b ≡ fits.has_instance (state_at when (state_of state.now)) (instance_of i.now) (fraction q)) }
{
    let held = state.holdings_at(when).amount(&Resource::Folded(i.copy()?));
    Ok(is_above_none(q) && q.is_at_most(held))
}

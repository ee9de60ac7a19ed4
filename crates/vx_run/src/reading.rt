//! Fields are read.
ghost use Rattle.std.specs.Prelude.{◌≡◌, ℕ, string_bytes, Option, Some, None, if◌then◌else◌, IfOk};
ghost use Rattle.vx_ast.specs.Syntax as syntax;
ghost use Rattle.vx_meaning.specs.States as states;
ghost use Rattle.vx_resolved.specs.Settled.{settled};
ghost use Rattle.vx_run.specs.Evaluated as evaluated;
ghost use Rattle.vx_run.specs.Going.{Supply, gives};
ghost use Rattle.vx_run.specs.Held.{location as location_of};
ghost use Rattle.vx_run.specs.Views.{value, told};
ghost use Rattle.vx_run.specs.Configs.{Setting, with_one, put_value};
ghost use Rattle.vx_run.specs.ConfigViews.{config_of, state_of};
ghost use Rattle.vx_run.specs.Pending.{reading, read_at, state_at};
ghost use Rattle.vx_run.specs.Frames.{Follows};

use crate::blame::Blame;
use crate::context::{Reading, When};
use crate::finding::{come_to, take_one};
use crate::halt::Halt;
use crate::members::field_type;
use crate::outcome::Whole;
use crate::resource::{Location, Resource};
use crate::shares::is_above_none;
use crate::state::{Config, State};
use crate::values::Value;
use std::alloc::AllocError;
use std::rc::Rc;
use vx_ast::Place;
use vx_resolved::Settled;

/// Whether a location may be read.
fn is_readable(state: &State, when: When, r: Reading, l: &Location) -> Result<bool, AllocError>
    ensures { IfOk result (λ b. (p : syntax.Program) → evaluated.read p (reading r) (state_at when (state_of state.now)) (location_of l.now) ≡ (if b then Some (states.value_at p (state_at when (state_of state.now)).heap (location_of l.now)) else None)) }
{
    match r {
        Reading::Permitted => {
            let held = state.holdings_at(when).amount(&Resource::At(l.copy()?));
            Ok(is_above_none(held))
        }
        Reading::Free => Ok(true),
    }
}

/// The value of a location that may be read.
fn value_of(program: &Settled, state: &State, when: When, l: &Location) -> Result<Value, AllocError>
    ensures { IfOk result (λ v. value v ≡ states.value_at (settled program.now) (state_at when (state_of state.now)).heap (location_of l.now)) }
{
    let heap = state.heap_at(when)?;
    Ok(heap.find(field_type(program, &l.field), l))
}

/// The field of a reference.
fn read(
    program: &Settled,
    state: &State,
    when: When,
    r: Reading,
    at: Place,
    v: Value,
    field: &Rc<String>,
) -> Result<Result<Value, Whole>, AllocError>
    ensures { IfOk result (λ came. (steps : ℕ) → let t : Setting = record { program = settled program.now; steps = steps } in told came ≡ read_at t (reading r) (state_at when (state_of state.now)) at (string_bytes field.now.value) (value v)) }
{
    match v {
        Value::Ref(receiver) => {
            let l = Location {
                receiver,
                field: field.clone()?,
            };
            if is_readable(state, when, r, &l)? {
                return Ok(Ok(value_of(program, state, when, &l)?));
            }
            Ok(Err(Whole::Failed(at)))
        }
        Value::Int(_) | Value::Bool(_) | Value::Perm(_) => Ok(Err(Whole::Failed(at))),
    }
}

/// A field of the newest value.
pub fn read_newest(
    program: &Settled,
    of: &mut Config,
    b: Blame,
    r: Reading,
    at: Place,
    when: When,
    field: &Rc<String>,
) -> Result<(), Halt>
    ensures { (steps : ℕ) (l : Supply ℕ) → let t : Setting = record { program = settled program.now; steps = steps } in Follows result (gives (config_of of.new) l) (with_one (config_of of.old) (λ v d. put_value b d (read_at t (reading r) (state_at when d.state) at (string_bytes field.now.value) v)) l) }
{
    match take_one(of) {
        None => Err(Halt::Over(Whole::Running)),
        Some(v) => {
            let came = read(program, &of.state, when, r, at, v, field)?;
            come_to(of, b, came)
        }
    }
}

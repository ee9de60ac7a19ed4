//! Applications: a function's precondition is taken, and its body evaluated where permissions are ignored.
ghost use Rattle.std.specs.Prelude.{◌≡◌, ℕ, map, string_bytes, OnOk, IfOk};
ghost use Rattle.vx_meaning.specs.States as states;
ghost use Rattle.vx_resolved.specs.Resolved.{declaration, function as function_of};
ghost use Rattle.vx_resolved.specs.Settled.{settled};
ghost use Rattle.vx_run.specs.Going as going;
ghost use Rattle.vx_run.specs.Going.{failing_as, Failed};
ghost use Rattle.vx_run.specs.Views.{value};
ghost use Rattle.vx_run.specs.Configs.{Setting, put_value};
ghost use Rattle.vx_run.specs.ConfigViews.{config_of, state_of};
ghost use Rattle.vx_run.specs.Pending.{reading, state_at, deeper_by, applied, act};
ghost use Rattle.vx_run.specs.Frames.{rest, before, Follows};
ghost use Rattle.vx_run.specs.Supplies.{supply as supply_of};
ghost use Rattle.vx_run.specs.declared.pending.Pending.TheVariants.{Apply};

use crate::binding::bind;
use crate::change::Change;
use crate::context::{Reading, When, Within};
use crate::finding::take_list;
use crate::frame::Frame;
use crate::frames::put_off;
use crate::halt::Halt;
use crate::members::function_named;
use crate::outcome::Whole;
use crate::pending::Pending;
use crate::state::{Config, State};
use crate::supply::Supply;
use crate::values::Value;
use crate::visit::{Manner, Visit};
use std::alloc::{AllocError, Global};
use std::rc::Rc;
use vx_ast::Place;
use vx_frac::Frac;
use vx_resolved::{Declaration, Function, Settled};

/// The state of a function's part: these parameters, and what is held at its application.
pub fn inner_state(
    alloc: Global,
    state: &State,
    when: When,
    parameters: &[Declaration],
    vs: &[Value],
) -> Result<State, AllocError>
    ensures { IfOk result (λ s. state_of s ≡ states.with_store (states.bind (map declaration parameters.now) (map value vs.now)) (state_at when (state_of state.now))) }
{
    let mut store = Vec::new(alloc);
    bind(&mut store, parameters, vs)?;
    state.with_store(when, store)
}

/// Puts off a function's body, before which its precondition is taken where permissions are asked.
fn put_function<'p>(
    frames: &mut Vec<Frame<'p>>,
    k: Within,
    r: Reading,
    f: &'p Function,
) -> Result<(), AllocError>
    ensures { OnOk result ((t : Setting) → rest t frames.new.items ≡ before (λ c. put_value k.blame c (applied t k.level (reading r) (function_of f.now) c.state)) (rest t frames.old.items)) }
{
    let body = Pending::Evaluate(k, Reading::Free, When::Now, &f.body);
    put_off(frames, Frame::Evaluate(body))?;
    match r {
        Reading::Permitted => {
            let whole = Manner::Take(Frac::whole(1));
            let take = Visit::All(k, whole, f.place, &f.preconditions);
            put_off(frames, Frame::Change(Change::DropTaking))?;
            put_off(frames, Frame::Visit(take))?;
            put_off(frames, Frame::Change(Change::StartTaking))?;
            Ok(())
        }
        Reading::Free => Ok(()),
    }
}

/// Goes into a function with these arguments.
fn enter_function<'p>(
    alloc: Global,
    frames: &mut Vec<Frame<'p>>,
    of: &mut Config,
    k: Within,
    r: Reading,
    when: When,
    f: &'p Function,
    vs: &[Value],
) -> Result<(), AllocError>
    ensures { OnOk result ((t : Setting) (l : going.Supply ℕ) → rest t frames.new.items (config_of of.new) l ≡ before (λ c. put_value k.blame c (applied t k.level (reading r) (function_of f.now) (states.with_store (states.bind (function_of f.now).parameters (map value vs.now)) (state_at when c.state)))) (rest t frames.old.items) (config_of of.old) l) }
{
    let inner = inner_state(alloc, &of.state, when, &f.parameters, vs)?;
    let outer = of.enter(inner);
    put_off(frames, Frame::Change(Change::Restore(outer)))?;
    put_function(frames, k, r, f)?;
    Ok(())
}

/// A function is applied to these arguments, after its step.
fn apply_to<'p>(
    alloc: Global,
    program: &'p Settled,
    frames: &mut Vec<Frame<'p>>,
    of: &mut Config,
    k: Within,
    r: Reading,
    at: Place,
    when: When,
    name: &Rc<String>,
    vs: &[Value],
) -> Result<(), Halt>
    ensures { (steps : ℕ) (l : going.Supply ℕ) → let t : Setting = record { program = settled program.now; steps = steps } in Follows result (rest t frames.new.items (config_of of.new) l) (before (λ c. put_value k.blame c (failing_as (Failed at) ((deeper_by t k.level).applied (reading r) at (string_bytes name.now.value) (map value vs.now) (state_at when c.state)))) (rest t frames.old.items) (config_of of.old) l) }
{
    if k.level == 0 {
        return Err(Halt::Over(Whole::Running));
    }
    let inner = Within {
        level: k.level - 1,
        blame: k.blame.fails(at),
    };
    match function_named(program, name) {
        None => Err(Halt::Over(inner.blame.counted(Whole::Failed(at)))),
        Some(f) => {
            enter_function(alloc, frames, of, inner, r, when, f, vs)?;
            Ok(())
        }
    }
}

/// A function is applied to the newest arguments.
pub fn apply_newest<'p>(
    alloc: Global,
    program: &'p Settled,
    frames: &mut Vec<Frame<'p>>,
    of: &mut Config,
    supply: &mut Supply,
    k: Within,
    r: Reading,
    at: Place,
    when: When,
    name: &'p Rc<String>,
) -> Result<(), Halt>
    ensures { (steps : ℕ) → let t : Setting = record { program = settled program.now; steps = steps } in Follows result (rest t frames.new.items (config_of of.new) (supply_of supply.new)) (before (act t (Apply k r at when name.entry)) (rest t frames.old.items) (config_of of.old) (supply_of supply.old)) }
{
    match take_list(of) {
        None => Err(Halt::Over(Whole::Running)),
        Some(vs) => match supply.step() {
            Err(end) => Err(Halt::Over(k.blame.counted(end))),
            Ok(()) => apply_to(alloc, program, frames, of, k, r, at, when, name, &vs),
        },
    }
}

//! Blocks, branches and loops are executed: one step of what is still to be done of them.
ghost use Rattle.std.specs.Prelude.{◌≡◌, ℕ, OnOk, string_bytes};
ghost use Rattle.vx_meaning.specs.Values as meaning;
ghost use Rattle.vx_resolved.specs.Resolved.{expr, block};
ghost use Rattle.vx_run.specs.Going as going;
ghost use Rattle.vx_run.specs.Going.{gives};
ghost use Rattle.vx_run.specs.Configs as configs;
ghost use Rattle.vx_run.specs.Configs.{Setting};
ghost use Rattle.vx_run.specs.ConfigViews.{config_of};
ghost use Rattle.vx_run.specs.Frames.{rest, before, Follows};
ghost use Rattle.vx_run.specs.Supplies as supplies;
ghost use Rattle.vx_run.specs.Tasks as tasks;
ghost use Rattle.vx_run.specs.Views.{value};

use crate::finding::take_one;
use crate::firsts::evaluate_first;
use crate::frame::Frame;
use crate::frames::{put_off, put_off_two};
use crate::halt::Halt;
use crate::outcome::Whole;
use crate::state::Config;
use crate::store::{assign, leave};
use crate::supply::Supply;
use crate::task::Task;
use crate::values::Value;
use std::alloc::AllocError;
use std::rc::Rc;
use vx_ast::Place;
use vx_resolved::{Block, Expr};

/// Whether it is true.
fn is_true(v: Value) -> bool
    ensures { result ≡ meaning.is_true (value v) }
{
    match v {
        Value::Bool(b) => b,
        Value::Int(_) => false,
        Value::Ref(_) => false,
        Value::Perm(_) => false,
    }
}

/// A block comes first, and at its end its own variables are forgotten.
fn put_scope<'p>(
    frames: &mut Vec<Frame<'p>>,
    kept: usize,
    level: u64,
    b: &'p Block,
) -> Result<(), AllocError>
    ensures { OnOk result ((t : Setting) → rest t frames.new.items ≡ before (tasks.body t level (block b.now)) (before (tasks.left kept) (rest t frames.old.items))) }
{
    put_off_two(
        frames,
        Frame::Execute(Task::Body(level, b)),
        Frame::Execute(Task::Leave(kept)),
    )?;
    Ok(())
}

/// A block's own variables are forgotten.
pub fn step_leave(of: &mut Config, kept: usize)
    ensures { (l : going.Supply ℕ) → gives (config_of of.new) l ≡ tasks.left kept (config_of of.old) l }
{
    leave(&mut of.state.store, kept);
}

/// The newest value is a variable's.
pub fn step_assign(of: &mut Config, x: &Rc<String>) -> Result<(), Halt>
    ensures { (l : going.Supply ℕ) → Follows result (gives (config_of of.new) l) (tasks.assigned (string_bytes x.now.value) (config_of of.old) l) }
{
    match take_one(of) {
        None => Err(Halt::Over(Whole::Running)),
        Some(v) => {
            assign(&mut of.state.store, x, v);
            Ok(())
        }
    }
}

/// It is a stop here where it isn't true.
fn assume(v: Value, at: Place) -> Result<(), Whole>
    ensures { (l : going.Supply ℕ) → supplies.stepped result l ≡ going.require (meaning.is_true (value v)) (going.Stopped at) l }
{
    if is_true(v) {
        return Ok(());
    }
    Err(Whole::Stopped(at))
}

/// The newest value has to be true.
pub fn step_assume(of: &mut Config, at: Place) -> Result<(), Halt>
    ensures { (l : going.Supply ℕ) → Follows result (gives (config_of of.new) l) (tasks.assumed at (config_of of.old) l) }
{
    match take_one(of) {
        None => Err(Halt::Over(Whole::Running)),
        Some(v) => match assume(v, at) {
            Ok(()) => Ok(()),
            Err(end) => Err(Halt::Over(end)),
        },
    }
}

/// One of two blocks, by a value.
fn put_branch<'p>(
    frames: &mut Vec<Frame<'p>>,
    of: &Config,
    level: u64,
    v: Value,
    x: &'p Block,
    y: &'p Block,
) -> Result<(), AllocError>
    ensures { OnOk result ((t : Setting) (l : going.Supply ℕ) → rest t frames.new.items (config_of of.now) l ≡ before (tasks.branch t level (block x.now) (block y.now) (value v)) (rest t frames.old.items) (config_of of.now) l) }
{
    let kept = of.state.store.len();
    if is_true(v) {
        put_scope(frames, kept, level, x)?;
        return Ok(());
    }
    put_scope(frames, kept, level, y)?;
    Ok(())
}

/// One of two blocks, by the newest value.
pub fn step_branch<'p>(
    frames: &mut Vec<Frame<'p>>,
    of: &mut Config,
    level: u64,
    x: &'p Block,
    y: &'p Block,
) -> Result<(), Halt>
    ensures { (t : Setting) (l : going.Supply ℕ) → Follows result (rest t frames.new.items (config_of of.new) l) (before (tasks.branched t level (block x.now) (block y.now)) (rest t frames.old.items) (config_of of.old) l) }
{
    match take_one(of) {
        None => Err(Halt::Over(Whole::Running)),
        Some(v) => {
            put_branch(frames, of, level, v, x, y)?;
            Ok(())
        }
    }
}

/// A loop's condition, where a round is left; it is a step.
pub fn step_again<'p>(
    frames: &mut Vec<Frame<'p>>,
    supply: &mut Supply,
    level: u64,
    rounds: u64,
    e: &'p Expr,
    b: &'p Block,
) -> Result<(), Halt>
    ensures { (t : Setting) (c : configs.Config) → Follows result (rest t frames.new.items c (supplies.supply supply.new)) (before (tasks.looped t level rounds (expr e.now) (block b.now)) (rest t frames.old.items) c (supplies.supply supply.old)) }
{
    if rounds == 0 {
        return Err(Halt::Over(Whole::Running));
    }
    match supply.step() {
        Err(end) => Err(Halt::Over(end)),
        Ok(()) => {
            put_off(frames, Frame::Execute(Task::Round(level, rounds - 1, e, b)))?;
            evaluate_first(frames, level, e)?;
            Ok(())
        }
    }
}

/// A round of a loop and the loop again, where the condition's value is true.
fn put_round<'p>(
    frames: &mut Vec<Frame<'p>>,
    of: &Config,
    level: u64,
    rounds: u64,
    v: Value,
    e: &'p Expr,
    b: &'p Block,
) -> Result<(), AllocError>
    ensures { OnOk result ((t : Setting) (l : going.Supply ℕ) → rest t frames.new.items (config_of of.now) l ≡ before (tasks.one_round t level rounds (expr e.now) (block b.now) (value v)) (rest t frames.old.items) (config_of of.now) l) }
{
    if is_true(v) {
        put_off(frames, Frame::Execute(Task::Again(level, rounds, e, b)))?;
        put_scope(frames, of.state.store.len(), level, b)?;
        return Ok(());
    }
    Ok(())
}

/// A round of a loop and the loop again, where the newest value is true.
pub fn step_round<'p>(
    frames: &mut Vec<Frame<'p>>,
    of: &mut Config,
    level: u64,
    rounds: u64,
    e: &'p Expr,
    b: &'p Block,
) -> Result<(), Halt>
    ensures { (t : Setting) (l : going.Supply ℕ) → Follows result (rest t frames.new.items (config_of of.new) l) (before (tasks.rounded t level rounds (expr e.now) (block b.now)) (rest t frames.old.items) (config_of of.old) l) }
{
    match take_one(of) {
        None => Err(Halt::Over(Whole::Running)),
        Some(v) => {
            put_round(frames, of, level, rounds, v, e, b)?;
            Ok(())
        }
    }
}

//! One step of what is still to be done of expressions.
ghost use Rattle.std.specs.Prelude.{◌≡◌, ℕ};
ghost use Rattle.vx_resolved.specs.Settled.{settled};
ghost use Rattle.vx_run.specs.Configs.{Setting};
ghost use Rattle.vx_run.specs.ConfigViews.{config_of};
ghost use Rattle.vx_run.specs.Pending.{act};
ghost use Rattle.vx_run.specs.Frames.{rest, before, Follows};
ghost use Rattle.vx_run.specs.Supplies.{supply as supply_of};

use crate::applying::apply_newest;
use crate::evaluating::{
    begin, begin_all, choose_newest, collect, connect_newest, divide_newest, negate_newest,
    operate_newest,
};
use crate::frame::Frame;
use crate::halt::Halt;
use crate::pending::Pending;
use crate::reading::read_newest;
use crate::state::Config;
use crate::supply::Supply;
use crate::unfolding::{open_newest, unfold_newest};
use std::alloc::Global;
use vx_resolved::Settled;

/// Does what something begins with that was put off, and puts the rest of it off.
pub fn step_pending<'p>(
    alloc: Global,
    program: &'p Settled,
    frames: &mut Vec<Frame<'p>>,
    of: &mut Config,
    supply: &mut Supply,
    next: Pending<'p>,
) -> Result<(), Halt>
    ensures { (steps : ℕ) → let t : Setting = record { program = settled program.now; steps = steps } in Follows result (rest t frames.new.items (config_of of.new) (supply_of supply.new)) (before (act t next.entry) (rest t frames.old.items) (config_of of.old) (supply_of supply.old)) }
{
    match next {
        Pending::Evaluate(k, r, when, e) => begin(frames, of, k, r, when, e),
        Pending::EvaluateAll(k, r, when, es) => begin_all(alloc, frames, of, k, r, when, es),
        Pending::Collect => collect(of),
        Pending::Negate(b, at) => negate_newest(of, b, at),
        Pending::Operate(b, at, op) => operate_newest(of, b, at, op),
        Pending::Divide(b, at, op) => divide_newest(of, b, at, op),
        Pending::Connect(k, r, at, c, when, e) => {
            connect_newest(frames, of, k, r, at, c, when, e)
        }
        Pending::Choose(k, r, at, when, x, y) => choose_newest(frames, of, k, r, at, when, x, y),
        Pending::Read(b, r, at, when, field) => read_newest(program, of, b, r, at, when, field),
        Pending::Apply(k, r, at, when, name) => {
            apply_newest(alloc, program, frames, of, supply, k, r, at, when, name)
        }
        Pending::Unfold(k, at, when, i, es, e) => {
            unfold_newest(frames, of, k, at, when, i, es, e)
        }
        Pending::Open(k, at, when, i, q, e) => {
            open_newest(alloc, program, frames, of, k, at, when, i, q, e)
        }
    }
}

//! Statements, loops and calls: one step of what is still to be done of them.
ghost use Rattle.std.specs.Prelude.{◌≡◌, ℕ, string_bytes};
ghost use Rattle.vx_resolved.specs.Resolved.{block};
ghost use Rattle.vx_resolved.specs.Settled.{settled};
ghost use Rattle.vx_run.specs.Going as going;
ghost use Rattle.vx_run.specs.Going.{gives};
ghost use Rattle.vx_run.specs.Configs.{Setting};
ghost use Rattle.vx_run.specs.ConfigViews.{config_of};
ghost use Rattle.vx_run.specs.Frames.{rest, before, Follows};
ghost use Rattle.vx_run.specs.Supplies as supplies;
ghost use Rattle.vx_run.specs.Tasks as tasks;

use crate::blocks::{step_again, step_assign, step_assume, step_branch, step_leave, step_round};
use crate::calls::{step_call, step_enter, step_return};
use crate::folding::{step_fold, step_folded, step_to_fold, step_to_unfold, step_unfold};
use crate::frame::Frame;
use crate::frames::put_off;
use crate::halt::Halt;
use crate::outcome::Whole;
use crate::state::Config;
use crate::statement::begin_statement;
use crate::supply::Supply;
use crate::task::Task;
use crate::writing::step_write;
use std::alloc::Global;
use vx_resolved::{Block, Settled};

/// The first statement of a block, and then the others.
fn step_body<'p>(
    alloc: Global,
    program: &'p Settled,
    frames: &mut Vec<Frame<'p>>,
    of: &mut Config,
    supply: &mut Supply,
    level: u64,
    b: &'p Block,
) -> Result<(), Halt>
    ensures { (steps : ℕ) → let t : Setting = record { program = settled program.now; steps = steps } in Follows result (rest t frames.new.items (config_of of.new) (supplies.supply supply.new)) (before (tasks.body t level (block b.now)) (rest t frames.old.items) (config_of of.old) (supplies.supply supply.old)) }
{
    if level == 0 {
        return Err(Halt::Over(Whole::Running));
    }
    match b {
        Block::Done => Ok(()),
        Block::Then(x, more) => match supply.step() {
            Err(end) => Err(Halt::Over(end)),
            Ok(()) => {
                put_off(frames, Frame::Execute(Task::Body(level, more)))?;
                begin_statement(alloc, program, frames, of, supply, level, x)?;
                Ok(())
            }
        },
    }
}

/// Does what comes next of statements.
pub fn step_task<'p>(
    alloc: Global,
    program: &'p Settled,
    frames: &mut Vec<Frame<'p>>,
    of: &mut Config,
    supply: &mut Supply,
    next: Task<'p>,
) -> Result<(), Halt>
    ensures { (steps : ℕ) → let t : Setting = record { program = settled program.now; steps = steps } in Follows result (rest t frames.new.items (config_of of.new) (supplies.supply supply.new)) (before (tasks.act t next.entry) (rest t frames.old.items) (config_of of.old) (supplies.supply supply.old)) }
{
    match next {
        Task::Body(level, b) => step_body(alloc, program, frames, of, supply, level, b),
        Task::Leave(kept) => {
            step_leave(of, kept);
            Ok(())
        }
        Task::Assign(x) => step_assign(of, x),
        Task::Write(at, field) => step_write(alloc, of, at, field),
        Task::Assume(at) => step_assume(of, at),
        Task::Branch(level, x, y) => step_branch(frames, of, level, x, y),
        Task::Again(level, rounds, e, b) => step_again(frames, supply, level, rounds, e, b),
        Task::Round(level, rounds, e, b) => step_round(frames, of, level, rounds, e, b),
        Task::Call(level, at, targets, name) => {
            step_call(alloc, program, frames, of, level, at, targets, name)
        }
        Task::Enter(site) => step_enter(alloc, frames, of, supply, site),
        Task::Return(site) => step_return(alloc, frames, of, site),
        Task::ToFold(level, at, i, es) => step_to_fold(frames, of, level, at, i, es),
        Task::ToUnfold(level, at, i, es) => step_to_unfold(frames, of, level, at, i, es),
        Task::Fold(level, at, i, q) => step_fold(alloc, program, frames, of, level, at, i, q),
        Task::Unfold(level, at, i, q) => step_unfold(alloc, program, frames, of, level, at, i, q),
        Task::Folded(at, i, q) => step_folded(alloc, of, at, i, q),
    }
}

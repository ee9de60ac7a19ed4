//! A whole run: what is still to be done is done, the newest first.
ghost use Rattle.std.specs.Prelude.{◌≡◌, ◌+◌, suc, length, IfOk, IfSome};
ghost use Rattle.vx_resolved.specs.Resolved.{method as method_of, block as block_of};
ghost use Rattle.vx_resolved.specs.Settled.{settled};
ghost use Rattle.vx_run.specs.Drawn.{drawn};
ghost use Rattle.vx_run.specs.Configs.{Setting};
ghost use Rattle.vx_run.specs.ConfigViews.{config_of};
ghost use Rattle.vx_run.specs.Frames.{act, rest, before, Follows};
ghost use Rattle.vx_run.specs.Supplies.{supply as supply_of};
ghost use Rattle.vx_run.specs.Means.{IsDrawn};
ghost use Rattle.vx_run.specs.Runs.{Turned, end_of, first, method_rest};
ghost use Rattle.vx_run.specs.Stores.{store as store_of};
ghost use Rattle.vx_run.specs.Views.{outcome};

use crate::asserting::step_visit;
use crate::binding::bind;
use crate::blame::Blame;
use crate::change::Change;
use crate::changing::step_change;
use crate::context::Within;
use crate::frame::Frame;
use crate::frames::{put_off, take_off};
use crate::halt::Halt;
use crate::heap::Heap;
use crate::holdings::Holdings;
use crate::outcome::Whole;
use crate::state::{Config, State};
use crate::stepping::step_pending;
use crate::store::Variable;
use crate::supply::Supply;
use crate::task::Task;
use crate::tasks::step_task;
use crate::visit::{Manner, Visit};
use std::alloc::{AllocError, Global};
use vx_ast::MemberId;
use vx_frac::Frac;
use vx_resolved::{Block, Kind, Method, Settled};

/// Does what comes next.
fn step<'p>(
    alloc: Global,
    program: &'p Settled,
    steps: u64,
    frames: &mut Vec<Frame<'p>>,
    of: &mut Config,
    supply: &mut Supply,
    next: Frame<'p>,
) -> Result<(), Halt>
    ensures { let t : Setting = record { program = settled program.now; steps = steps } in Follows result (rest t frames.new.items (config_of of.new) (supply_of supply.new)) (before (act t next.entry) (rest t frames.old.items) (config_of of.old) (supply_of supply.old)) }
{
    match next {
        Frame::Evaluate(next) => step_pending(alloc, program, frames, of, supply, next),
        Frame::Visit(next) => step_visit(alloc, program, steps, frames, of, supply, next),
        Frame::Execute(next) => step_task(alloc, program, frames, of, supply, next),
        Frame::Change(next) => step_change(of, next),
    }
}

/// Does what comes next, if something is left to be done; answers whether nothing was.
fn turn<'p>(
    alloc: Global,
    program: &'p Settled,
    steps: u64,
    frames: &mut Vec<Frame<'p>>,
    of: &mut Config,
    supply: &mut Supply,
) -> Result<bool, Halt>
    ensures { let t : Setting = record { program = settled program.now; steps = steps } in Turned result (rest t frames.new.items (config_of of.new) (supply_of supply.new)) (rest t frames.old.items (config_of of.old) (supply_of supply.old)) }
{
    match take_off(frames) {
        None => Ok(true),
        Some(next) => {
            step(alloc, program, steps, frames, of, supply, next)?;
            Ok(false)
        }
    }
}

/// Does all that is still to be done.
///
/// # Errors
/// Memory runs out. It is also answered after `u64::MAX` turns, which no machine comes to.
fn run<'p>(
    alloc: Global,
    program: &'p Settled,
    steps: u64,
    frames: Vec<Frame<'p>>,
    of: Config,
    supply: Supply,
) -> Result<Whole, AllocError>
    ensures { IfOk result (λ w. let t : Setting = record { program = settled program.now; steps = steps } in outcome w ≡ end_of (rest t frames.entry.items (config_of of) (supply_of supply))) }
{
    let mut frames = frames;
    let mut of = of;
    let mut supply = supply;
    for _turn in 0..u64::MAX {
        match turn(alloc, program, steps, &mut frames, &mut of, &mut supply) {
            Ok(true) => return Ok(Whole::Ended),
            Ok(false) => {}
            Err(Halt::Over(end)) => return Ok(end),
            Err(Halt::Want) => return Err(AllocError),
        }
    }
    Err(AllocError)
}

/// Puts off the run of a method: its precondition is given, its body runs, and its postcondition is taken.
fn put_method<'p>(
    alloc: Global,
    m: &'p Method,
    body: &'p Block,
    level: u64,
) -> Result<Vec<Frame<'p>>, AllocError>
    ensures { IfOk result (λ frames. (t : Setting) → rest t frames.items ≡ method_rest t level (method_of m.now) (block_of body.now)) }
{
    let k = Within {
        level,
        blame: Blame::Itself,
    };
    let whole = Frac::whole(1);
    let give = Visit::All(k, Manner::Give(whole), m.place, &m.preconditions);
    let take = Visit::All(k, Manner::Take(whole), m.place, &m.postconditions);
    let mut frames = Vec::new(alloc);
    put_off(&mut frames, Frame::Change(Change::DropTaking))?;
    put_off(&mut frames, Frame::Visit(take))?;
    put_off(&mut frames, Frame::Change(Change::StartTaking))?;
    put_off(&mut frames, Frame::Execute(Task::Body(level, body)))?;
    put_off(&mut frames, Frame::Change(Change::FromNow))?;
    put_off(&mut frames, Frame::Visit(give))?;
    Ok(frames)
}

/// The configuration in which the run of a method begins: with these variables, nothing held, and nobody who waits.
fn first_config(alloc: Global, store: Vec<Variable>) -> Result<Config, AllocError>
    ensures { IfOk result (λ c. config_of c ≡ first (store_of store.items)) }
{
    Ok(Config {
        values: Vec::new(alloc),
        lists: Vec::new(alloc),
        state: State {
            store,
            heap: Heap::empty(alloc)?,
            holdings: Holdings::none(alloc)?,
            old_heap: Heap::empty(alloc)?,
            old_holdings: Holdings::none(alloc)?,
        },
        takings: Vec::new(alloc),
        callers: Vec::new(alloc),
    })
}

/// Runs a method with this body.
fn run_method(
    alloc: Global,
    program: &Settled,
    m: &Method,
    body: &Block,
    seed: u64,
    steps: u64,
) -> Result<Whole, AllocError>
    ensures { IfOk result (λ w. outcome w ≡ drawn (settled program.now) (method_of m.now) (block_of body.now) seed steps) }
{
    let Some(level) = level_of(program, steps) else {
        return Err(AllocError);
    };
    let mut supply = Supply::new(seed, steps);
    let vs = supply.draw_all(alloc, &m.parameters)?;
    let ws = supply.draw_all(alloc, &m.returns)?;
    let mut store = Vec::new(alloc);
    bind(&mut store, &m.parameters, &vs)?;
    bind(&mut store, &m.returns, &ws)?;
    let frames = put_method(alloc, m, body, level)?;
    let of = first_config(alloc, store)?;
    let end = run(alloc, program, steps, frames, of, supply)?;
    Ok(end)
}

/// How many calls, rounds, applications and instances may be within one another, where it fits.
fn level_of(program: &Settled, steps: u64) -> Option<u64>
    ensures { IfSome result (λ n. n ≡ suc (steps + length (settled program.now))) }
{
    let members = steps.checked_add(program.len() as u64)?;
    members.checked_add(1)
}

/// The whole run of a method of a program, whose values are drawn from a seed, with so many steps. For a member that isn't a method with
/// a body, it has ended.
///
/// # Errors
/// Memory runs out. It is also answered where a number within a run leaves what is kept for it: a literal above the largest `i128`, the
/// amounts of what is held by several, the steps near `u64::MAX`.
pub fn run_whole(
    alloc: Global,
    program: &Settled,
    method: MemberId,
    seed: u64,
    steps: u64,
) -> Result<Whole, AllocError>
    ensures { IfOk result (IsDrawn (settled program.now) method seed steps) }
{
    if method.0 as usize >= program.len() {
        return Ok(Whole::Ended);
    }
    match &program.member(method.0 as usize).kind {
        Kind::Field(_) => Ok(Whole::Ended),
        Kind::Predicate(_) => Ok(Whole::Ended),
        Kind::Function(_) => Ok(Whole::Ended),
        Kind::Method(m) => match &m.body {
            None => Ok(Whole::Ended),
            Some(body) => run_method(alloc, program, m, body, seed, steps),
        },
    }
}

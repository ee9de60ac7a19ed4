//! Statements begin: what they evaluate, take and give is put off, with what is done then.
ghost use Rattle.std.specs.Prelude.{◌≡◌, ◌≢◌, ℕ, OnOk, string_bytes};
ghost use Rattle.vx_resolved.specs.Resolved.{stmt};
ghost use Rattle.vx_resolved.specs.Settled.{settled};
ghost use Rattle.vx_run.specs.Going.{gives};
ghost use Rattle.vx_run.specs.Configs.{Setting};
ghost use Rattle.vx_run.specs.ConfigViews.{config_of};
ghost use Rattle.vx_run.specs.Frames.{rest, before};
ghost use Rattle.vx_run.specs.Supplies as supplies;
ghost use Rattle.vx_run.specs.Tasks as tasks;

use crate::blame::Blame;
use crate::change::Change;
use crate::context::Within;
use crate::firsts::{evaluate_all_first, evaluate_first, give_first, take_first};
use crate::frame::Frame;
use crate::frames::put_off;
use crate::making::make_new;
use crate::places::place_of;
use crate::state::Config;
use crate::store::declare;
use crate::supply::Supply;
use crate::task::Task;
use std::alloc::{AllocError, Global};
use std::rc::Rc;
use vx_ast::ValueType;
use vx_frac::Frac;
use vx_resolved::{Settled, Stmt};

/// A further variable, whose value is drawn.
fn declare_drawn(
    of: &mut Config,
    supply: &mut Supply,
    name: &Rc<String>,
    t: ValueType,
) -> Result<(), AllocError>
    ensures { OnOk result (gives (config_of of.new) (supplies.supply supply.new) ≡ tasks.declared (string_bytes name.now.value) t (config_of of.old) (supplies.supply supply.old)) }
{
    let v = supply.draw(t);
    declare(&mut of.state.store, name, v)?;
    Ok(())
}

/// A statement begins: what it comes to is done at once or put off.
pub fn begin_statement<'p>(
    alloc: Global,
    program: &'p Settled,
    frames: &mut Vec<Frame<'p>>,
    of: &mut Config,
    supply: &mut Supply,
    level: u64,
    x: &'p Stmt,
) -> Result<(), AllocError>
    requires { level ≢ 0 }
    ensures { OnOk result ((steps : ℕ) → let t : Setting = record { program = settled program.now; steps = steps } in rest t frames.new.items (config_of of.new) (supplies.supply supply.new) ≡ before (tasks.begun t level (stmt x.now)) (rest t frames.old.items) (config_of of.old) (supplies.supply supply.old)) }
{
    let k = Within {
        level,
        blame: Blame::Itself,
    };
    match x {
        Stmt::Declare(_, name, t) => {
            declare_drawn(of, supply, name, *t)?;
            Ok(())
        }
        Stmt::New(_, name, fields) => {
            make_new(alloc, program, of, supply, name, fields)?;
            Ok(())
        }
        Stmt::Assign(_, name, e) => {
            put_off(frames, Frame::Execute(Task::Assign(name)))?;
            evaluate_first(frames, level, e)?;
            Ok(())
        }
        Stmt::Write(at, e, field, value) => {
            put_off(frames, Frame::Execute(Task::Write(*at, field)))?;
            evaluate_first(frames, level, value)?;
            evaluate_first(frames, level, e)?;
            Ok(())
        }
        Stmt::Call(at, xs, m, es) => {
            put_off(frames, Frame::Execute(Task::Call(level, *at, xs, m)))?;
            evaluate_all_first(frames, level, es)?;
            Ok(())
        }
        Stmt::Inhale(_, a) => {
            give_first(frames, k, a)?;
            Ok(())
        }
        Stmt::Exhale(_, a) => {
            put_off(frames, Frame::Change(Change::KeepTaking))?;
            take_first(frames, k, Frac::whole(1), a)?;
            Ok(())
        }
        Stmt::Assert(_, a) => {
            put_off(frames, Frame::Change(Change::DropTaking))?;
            take_first(frames, k, Frac::whole(1), a)?;
            Ok(())
        }
        Stmt::Assume(_, e) => {
            put_off(frames, Frame::Execute(Task::Assume(place_of(e))))?;
            evaluate_first(frames, level, e)?;
            Ok(())
        }
        Stmt::Fold(at, i, es, share) => {
            put_off(frames, Frame::Execute(Task::ToFold(level, *at, i, es)))?;
            evaluate_first(frames, level, share)?;
            Ok(())
        }
        Stmt::Unfold(at, i, es, share) => {
            put_off(frames, Frame::Execute(Task::ToUnfold(level, *at, i, es)))?;
            evaluate_first(frames, level, share)?;
            Ok(())
        }
        Stmt::If(_, e, left, right) => {
            put_off(frames, Frame::Execute(Task::Branch(level, left, right)))?;
            evaluate_first(frames, level, e)?;
            Ok(())
        }
        Stmt::While(_, e, _, b) => {
            put_off(frames, Frame::Execute(Task::Again(level, level, e, b)))?;
            Ok(())
        }
    }
}

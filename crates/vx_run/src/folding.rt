//! Instances are folded and unfolded.
ghost use Rattle.std.specs.Prelude.{◌≡◌, ℕ, ◌∷◌, map, string_bytes, OnOk, IfOk};
ghost use Rattle.vx_frac.specs.Fraction.{fraction};
ghost use Rattle.vx_meaning.specs.States as states;
ghost use Rattle.vx_resolved.specs.Resolved.{assertion, declaration, exprs};
ghost use Rattle.vx_resolved.specs.Settled.{settled};
ghost use Rattle.vx_run.specs.Going as going;
ghost use Rattle.vx_run.specs.Going.{gives};
ghost use Rattle.vx_run.specs.Configs as configs;
ghost use Rattle.vx_run.specs.Configs.{Setting};
ghost use Rattle.vx_run.specs.ConfigViews.{config_of, state_of};
ghost use Rattle.vx_run.specs.Frames.{rest, before, Follows};
ghost use Rattle.vx_run.specs.Held.{instance as instance_of, resource as resource_of};
ghost use Rattle.vx_run.specs.Holding.{holdings as holdings_of};
ghost use Rattle.vx_run.specs.Stores.{store as store_of};
ghost use Rattle.vx_run.specs.Tasks as tasks;
ghost use Rattle.vx_run.specs.Views.{value};

use crate::binding::bind;
use crate::blame::Blame;
use crate::calls::keep_list;
use crate::change::Change;
use crate::changing::put_holdings;
use crate::context::{When, Within};
use crate::finding::{take_list, take_one, take_taking};
use crate::firsts::{evaluate_all_first, give_again_first, take_first};
use crate::frame::Frame;
use crate::frames::put_off;
use crate::halt::Halt;
use crate::holdings::Holdings;
use crate::members::predicate_named;
use crate::outcome::Whole;
use crate::resource::{Instance, Resource};
use crate::shares::{has_share, share};
use crate::state::Config;
use crate::store::Variable;
use crate::task::Task;
use crate::values::Value;
use std::alloc::{AllocError, Global};
use std::mem;
use std::rc::Rc;
use vx_ast::Place;
use vx_frac::Frac;
use vx_resolved::{Assertion, Declaration, Exprs, Settled};

/// The newest value is the amount of an instance that is folded; its arguments are put off.
pub fn step_to_fold<'p>(
    frames: &mut Vec<Frame<'p>>,
    of: &mut Config,
    level: u64,
    at: Place,
    i: &'p Rc<String>,
    es: &'p Exprs,
) -> Result<(), Halt>
    ensures { (t : Setting) (l : going.Supply ℕ) → Follows result (rest t frames.new.items (config_of of.new) l) (before (tasks.to_fold t level at (string_bytes i.now.value) (exprs es.now)) (rest t frames.old.items) (config_of of.old) l) }
{
    match take_one(of) {
        None => Err(Halt::Over(Whole::Running)),
        Some(v) => match share(at, v) {
            Err(end) => Err(Halt::Over(end)),
            Ok(q) => {
                put_off(frames, Frame::Execute(Task::Fold(level, at, i, q)))?;
                evaluate_all_first(frames, level, es)?;
                Ok(())
            }
        },
    }
}

/// The newest value is the amount of an instance that is unfolded; its arguments are put off.
pub fn step_to_unfold<'p>(
    frames: &mut Vec<Frame<'p>>,
    of: &mut Config,
    level: u64,
    at: Place,
    i: &'p Rc<String>,
    es: &'p Exprs,
) -> Result<(), Halt>
    ensures { (t : Setting) (l : going.Supply ℕ) → Follows result (rest t frames.new.items (config_of of.new) l) (before (tasks.to_unfold t level at (string_bytes i.now.value) (exprs es.now)) (rest t frames.old.items) (config_of of.old) l) }
{
    match take_one(of) {
        None => Err(Halt::Over(Whole::Running)),
        Some(v) => match share(at, v) {
            Err(end) => Err(Halt::Over(end)),
            Ok(q) => {
                put_off(frames, Frame::Execute(Task::Unfold(level, at, i, q)))?;
                evaluate_all_first(frames, level, es)?;
                Ok(())
            }
        },
    }
}

/// The variables give way to a predicate's parameters; they are handed back.
fn enter_store(
    alloc: Global,
    of: &mut Config,
    parameters: &[Declaration],
    vs: &[Value],
) -> Result<Vec<Variable>, AllocError>
    ensures before { IfOk result (λ xs. store_of xs.items ≡ (config_of of.old).state.store) }
    ensures after { OnOk result (config_of of.new ≡ configs.in_state (states.with_store (states.bind (map declaration parameters.now) (map value vs.now)) (config_of of.old).state) (config_of of.old)) }
{
    let mut store = Vec::new(alloc);
    bind(&mut store, parameters, vs)?;
    Ok(mem::replace(&mut of.state.store, store))
}

/// The body of an instance is taken, and then the instance is held.
fn fold_body<'p>(
    alloc: Global,
    frames: &mut Vec<Frame<'p>>,
    of: &mut Config,
    level: u64,
    at: Place,
    i: &'p Rc<String>,
    q: Frac,
    parameters: &[Declaration],
    body: &'p Assertion,
    vs: Vec<Value>,
) -> Result<(), AllocError>
    ensures { OnOk result ((t : Setting) (l : going.Supply ℕ) → rest t frames.new.items (config_of of.new) l ≡ before (tasks.fold_body t level at (string_bytes i.now.value) (fraction q) (states.bind (map declaration parameters.now) (map value vs.items)) (assertion body.now) (map value vs.items)) (rest t frames.old.items) (config_of of.old) l) }
{
    let outer = enter_store(alloc, of, parameters, &vs)?;
    keep_list(of, vs)?;
    put_off(frames, Frame::Change(Change::PutStore(outer)))?;
    put_off(frames, Frame::Execute(Task::Folded(at, i, q)))?;
    let within = Within {
        level,
        blame: Blame::Fails(at),
    };
    take_first(frames, within, q, body)?;
    Ok(())
}

/// So much of the instance of the newest arguments is folded.
pub fn step_fold<'p>(
    alloc: Global,
    program: &'p Settled,
    frames: &mut Vec<Frame<'p>>,
    of: &mut Config,
    level: u64,
    at: Place,
    i: &'p Rc<String>,
    q: Frac,
) -> Result<(), Halt>
    ensures { (steps : ℕ) (l : going.Supply ℕ) → let t : Setting = record { program = settled program.now; steps = steps } in Follows result (rest t frames.new.items (config_of of.new) l) (before (tasks.folding t level at (string_bytes i.now.value) (fraction q)) (rest t frames.old.items) (config_of of.old) l) }
{
    match take_list(of) {
        None => Err(Halt::Over(Whole::Running)),
        Some(vs) => match predicate_named(program, i) {
            None => Err(Halt::Over(Whole::Failed(at))),
            Some(d) => match &d.body {
                None => Err(Halt::Over(Whole::Failed(at))),
                Some(body) => {
                    fold_body(alloc, frames, of, level, at, i, q, &d.parameters, body, vs)?;
                    Ok(())
                }
            },
        },
    }
}

/// An instance of a predicate with these arguments.
fn instance(alloc: Global, name: &Rc<String>, vs: Vec<Value>) -> Result<Instance, AllocError>
    ensures { IfOk result (λ i. instance_of i ≡ record { predicate = string_bytes name.now.value; arguments = map value vs.items }) }
{
    Ok(Instance {
        predicate: name.clone()?,
        arguments: Rc::new(alloc, vs)?,
    })
}

/// An instance is held, in place of what was taken of its body.
fn hold(
    alloc: Global,
    of: &mut Config,
    at: Place,
    i: Instance,
    q: Frac,
    left: &Holdings,
) -> Result<(), Halt>
    ensures { (l : going.Supply ℕ) → Follows result (gives (config_of of.new) l) (tasks.put (config_of of.old) (tasks.held_with at (instance_of i) (fraction q) (holdings_of left.now) (config_of of.old).state) l) }
{
    match left.more(alloc, at, &Resource::Folded(i), q) {
        Err(end) => Err(end),
        Ok(held) => {
            put_holdings(of, held);
            Ok(())
        }
    }
}

/// So much of an instance's body was taken, and the instance is held.
pub fn step_folded(
    alloc: Global,
    of: &mut Config,
    at: Place,
    i: &Rc<String>,
    q: Frac,
) -> Result<(), Halt>
    ensures { (l : going.Supply ℕ) → Follows result (gives (config_of of.new) l) (tasks.held_again at (string_bytes i.now.value) (fraction q) (config_of of.old) l) }
{
    match take_list(of) {
        None => Err(Halt::Over(Whole::Running)),
        Some(vs) => match take_taking(of) {
            None => Err(Halt::Over(Whole::Running)),
            Some(left) => {
                let held = instance(alloc, i, vs)?;
                hold(alloc, of, at, held, q, &left)
            }
        },
    }
}

/// The body of an instance is given, in place of so much of the instance.
fn give_body<'p>(
    alloc: Global,
    frames: &mut Vec<Frame<'p>>,
    of: &mut Config,
    level: u64,
    at: Place,
    q: Frac,
    parameters: &[Declaration],
    body: &'p Assertion,
    vs: &[Value],
    left: Holdings,
) -> Result<(), AllocError>
    ensures { OnOk result ((t : Setting) (l : going.Supply ℕ) → rest t frames.new.items (config_of of.new) l ≡ before (tasks.body_given t level at (fraction q) (states.bind (map declaration parameters.now) (map value vs.now)) (assertion body.now) (holdings_of left)) (rest t frames.old.items) (config_of of.old) l) }
{
    put_holdings(of, left);
    let outer = enter_store(alloc, of, parameters, vs)?;
    put_off(frames, Frame::Change(Change::PutStore(outer)))?;
    let within = Within {
        level,
        blame: Blame::Fails(at),
    };
    give_again_first(frames, within, q, body)?;
    Ok(())
}

/// So much of an instance is no longer held, and its body is given.
fn unfold_held<'p>(
    alloc: Global,
    frames: &mut Vec<Frame<'p>>,
    of: &mut Config,
    level: u64,
    at: Place,
    q: Frac,
    parameters: &[Declaration],
    body: &'p Assertion,
    r: &Resource,
    vs: &[Value],
) -> Result<(), Halt>
    ensures { (t : Setting) (l : going.Supply ℕ) → Follows result (rest t frames.new.items (config_of of.new) l) (before (tasks.unfold_held t level at (fraction q) (states.bind (map declaration parameters.now) (map value vs.now)) (assertion body.now) (resource_of r.now)) (rest t frames.old.items) (config_of of.old) l) }
{
    match of.state.holdings.less(alloc, at, r, q) {
        Err(end) => Err(end),
        Ok(left) => {
            give_body(alloc, frames, of, level, at, q, parameters, body, vs, left)?;
            Ok(())
        }
    }
}

/// An instance of which so much is held is unfolded.
fn unfold_body<'p>(
    alloc: Global,
    frames: &mut Vec<Frame<'p>>,
    of: &mut Config,
    level: u64,
    at: Place,
    q: Frac,
    parameters: &[Declaration],
    body: &'p Assertion,
    i: Instance,
) -> Result<(), Halt>
    ensures { (t : Setting) (l : going.Supply ℕ) → Follows result (rest t frames.new.items (config_of of.new) l) (before (tasks.unfold_body t level at (fraction q) (states.bind (map declaration parameters.now) (instance_of i).arguments) (assertion body.now) (instance_of i)) (rest t frames.old.items) (config_of of.old) l) }
{
    let has = has_share(&of.state, When::Now, &i, q)?;
    if has {
        let vs = i.arguments.clone()?;
        let r = Resource::Folded(i);
        return unfold_held(alloc, frames, of, level, at, q, parameters, body, &r, &vs);
    }
    Err(Halt::Over(Whole::Failed(at)))
}

/// So much of the instance of the newest arguments is unfolded.
pub fn step_unfold<'p>(
    alloc: Global,
    program: &'p Settled,
    frames: &mut Vec<Frame<'p>>,
    of: &mut Config,
    level: u64,
    at: Place,
    i: &'p Rc<String>,
    q: Frac,
) -> Result<(), Halt>
    ensures { (steps : ℕ) (l : going.Supply ℕ) → let t : Setting = record { program = settled program.now; steps = steps } in Follows result (rest t frames.new.items (config_of of.new) l) (before (tasks.opening t level at (string_bytes i.now.value) (fraction q)) (rest t frames.old.items) (config_of of.old) l) }
{
    match take_list(of) {
        None => Err(Halt::Over(Whole::Running)),
        Some(vs) => match predicate_named(program, i) {
            None => Err(Halt::Over(Whole::Failed(at))),
            Some(d) => match &d.body {
                None => Err(Halt::Over(Whole::Failed(at))),
                Some(body) => {
                    let held = instance(alloc, i, vs)?;
                    unfold_body(alloc, frames, of, level, at, q, &d.parameters, body, held)
                }
            },
        },
    }
}

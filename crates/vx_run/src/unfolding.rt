//! What is unfolded in an expression: so much of an instance is exchanged for its body, and the expression evaluated there.
ghost use Rattle.std.specs.Prelude.{◌≡◌, ℕ, map, string_bytes, OnOk, IfOk};
ghost use Rattle.vx_frac.specs.Fraction.{fraction};
ghost use Rattle.vx_meaning.specs.States as states;
ghost use Rattle.vx_resolved.specs.Resolved.{assertion, declaration, expr};
ghost use Rattle.vx_resolved.specs.Settled.{settled};
ghost use Rattle.vx_run.specs.Going.{Supply};
ghost use Rattle.vx_run.specs.Held.{instance as instance_of};
ghost use Rattle.vx_run.specs.Views.{value};
ghost use Rattle.vx_run.specs.Holding.{holdings as holdings_of};
ghost use Rattle.vx_run.specs.Configs.{Setting, put_value};
ghost use Rattle.vx_run.specs.ConfigViews.{config_of, state_of};
ghost use Rattle.vx_run.specs.Pending.{state_at, opened_in, exchanged_in, body_opened, act};
ghost use Rattle.vx_run.specs.Frames.{rest, before, Follows};
ghost use Rattle.vx_run.specs.declared.pending.Pending.TheVariants.{Unfold, Open};

use crate::binding::bind;
use crate::change::Change;
use crate::context::{Reading, When, Within};
use crate::finding::{take_list, take_one};
use crate::frame::Frame;
use crate::frames::{put_off, put_off_two};
use crate::giving::blamed;
use crate::halt::Halt;
use crate::holdings::Holdings;
use crate::members::predicate_named;
use crate::outcome::Whole;
use crate::pending::Pending;
use crate::resource::{Instance, Resource};
use crate::shares::{has_share, share};
use crate::state::{Config, State};
use crate::store::copy_store;
use crate::values::Value;
use crate::visit::{Manner, Visit};
use std::alloc::{AllocError, Global};
use std::rc::Rc;
use vx_ast::Place;
use vx_frac::Frac;
use vx_resolved::{Assertion, Declaration, Expr, Exprs, Predicate, Settled};

/// The newest value is the amount; the arguments are put off, and the rest.
pub fn unfold_newest<'p>(
    frames: &mut Vec<Frame<'p>>,
    of: &mut Config,
    k: Within,
    at: Place,
    when: When,
    i: &'p Rc<String>,
    es: &'p Exprs,
    e: &'p Expr,
) -> Result<(), Halt>
    ensures { (t : Setting) (l : Supply ℕ) → Follows result (rest t frames.new.items (config_of of.new) l) (before (act t (Unfold k at when i.entry es.entry e.entry)) (rest t frames.old.items) (config_of of.old) l) }
{
    match take_one(of) {
        None => Err(Halt::Over(Whole::Running)),
        Some(v) => match share(at, v) {
            Err(end) => Err(Halt::Over(k.blame.counted(end))),
            Ok(q) => {
                put_off_two(
                    frames,
                    Frame::Evaluate(Pending::EvaluateAll(k, Reading::Permitted, when, es)),
                    Frame::Evaluate(Pending::Open(k, at, when, i, q, e)),
                )?;
                Ok(())
            }
        },
    }
}

/// The state in which an instance's body is added: its arguments, and so much of it less.
fn body_state(
    alloc: Global,
    state: &State,
    when: When,
    parameters: &[Declaration],
    i: &Instance,
    left: Holdings,
) -> Result<State, AllocError>
    ensures { IfOk result (λ s. state_of s ≡ states.with_store (states.bind (map declaration parameters.now) (instance_of i.now).arguments) (states.with_holdings (holdings_of left) (state_at when (state_of state.now)))) }
{
    let mut store = Vec::new(alloc);
    bind(&mut store, parameters, &i.arguments)?;
    Ok(State {
        store,
        heap: state.heap_at(when)?,
        holdings: left,
        old_heap: state.old_heap.clone()?,
        old_holdings: state.old_holdings.copy()?,
    })
}

/// Goes into an instance's body in this state, and puts off the expression.
fn enter_body<'p>(
    alloc: Global,
    frames: &mut Vec<Frame<'p>>,
    of: &mut Config,
    inner: Within,
    k: Within,
    state: State,
    q: Frac,
    body: &'p Assertion,
    e: &'p Expr,
) -> Result<(), AllocError>
    ensures { OnOk result ((t : Setting) (l : Supply ℕ) → rest t frames.new.items (config_of of.new) l ≡ before (λ c. body_opened t inner k (fraction q) (assertion body.now) (expr e.now) (state_of state) c) (rest t frames.old.items) (config_of of.old) l) }
{
    let store = copy_store(alloc, &of.state.store)?;
    let outer = of.enter(state);
    put_off(frames, Frame::Change(Change::Restore(outer)))?;
    let then = Pending::Evaluate(k, Reading::Permitted, When::Now, e);
    put_off_two(
        frames,
        Frame::Change(Change::PutStore(store)),
        Frame::Evaluate(then),
    )?;
    put_off(
        frames,
        Frame::Visit(Visit::Whole(inner, Manner::Add(q), body)),
    )?;
    Ok(())
}

/// Goes into an instance's body, where so much is left.
fn enter_left<'p>(
    alloc: Global,
    frames: &mut Vec<Frame<'p>>,
    of: &mut Config,
    inner: Within,
    k: Within,
    when: When,
    i: &Instance,
    q: Frac,
    left: Holdings,
    d: &'p Predicate,
    body: &'p Assertion,
    e: &'p Expr,
) -> Result<(), AllocError>
    ensures { OnOk result ((t : Setting) (l : Supply ℕ) → rest t frames.new.items (config_of of.new) l ≡ before (λ c. body_opened t inner k (fraction q) (assertion body.now) (expr e.now) (states.with_store (states.bind (map declaration d.now.parameters.items) (instance_of i.now).arguments) (states.with_holdings (holdings_of left) (state_at when c.state))) c) (rest t frames.old.items) (config_of of.old) l) }
{
    let state = body_state(alloc, &of.state, when, &d.parameters, i, left)?;
    enter_body(alloc, frames, of, inner, k, state, q, body, e)?;
    Ok(())
}

/// So much of an instance is exchanged for its body.
fn exchange<'p>(
    alloc: Global,
    frames: &mut Vec<Frame<'p>>,
    of: &mut Config,
    inner: Within,
    k: Within,
    at: Place,
    when: When,
    i: &Instance,
    q: Frac,
    d: &'p Predicate,
    body: &'p Assertion,
    e: &'p Expr,
) -> Result<(), Halt>
    ensures { (t : Setting) (l : Supply ℕ) → Follows result (rest t frames.new.items (config_of of.new) l) (before (λ c. exchanged_in t inner k at (instance_of i.now) (fraction q) (states.bind (map declaration d.now.parameters.items) (instance_of i.now).arguments) (assertion body.now) (expr e.now) (state_at when c.state) c) (rest t frames.old.items) (config_of of.old) l) }
{
    let same = i.copy()?;
    let all = Resource::Folded(same);
    match of.state.holdings_at(when).less(alloc, at, &all, q) {
        Ok(left) => {
            enter_left(alloc, frames, of, inner, k, when, i, q, left, d, body, e)?;
            Ok(())
        }
        Err(halt) => Err(blamed(inner.blame, halt)),
    }
}

/// Opens an instance of which so much is held.
fn open_held<'p>(
    alloc: Global,
    program: &'p Settled,
    frames: &mut Vec<Frame<'p>>,
    of: &mut Config,
    k: Within,
    at: Place,
    when: When,
    i: &Instance,
    q: Frac,
    e: &'p Expr,
) -> Result<(), Halt>
    ensures { (steps : ℕ) (l : Supply ℕ) → let t : Setting = record { program = settled program.now; steps = steps } in Follows result (rest t frames.new.items (config_of of.new) l) (before (λ c. put_value k.blame c (opened_in t k.level (state_at when c.state) at (fraction q) (expr e.now) (instance_of i.now))) (rest t frames.old.items) (config_of of.old) l) }
{
    let blame = k.blame.fails(at);
    if k.level == 0 {
        return Err(Halt::Over(blame.counted(Whole::Failed(at))));
    }
    let inner = Within {
        level: k.level - 1,
        blame,
    };
    match predicate_named(program, &i.predicate) {
        None => Err(Halt::Over(blame.counted(Whole::Failed(at)))),
        Some(d) => match &d.body {
            None => Err(Halt::Over(blame.counted(Whole::Failed(at)))),
            Some(body) => exchange(alloc, frames, of, inner, k, at, when, i, q, d, body, e),
        },
    }
}

/// An instance of a predicate with these arguments.
pub fn instance(alloc: Global, name: &Rc<String>, vs: Vec<Value>) -> Result<Instance, AllocError>
    ensures { IfOk result (λ i. instance_of i ≡ record { predicate = string_bytes name.now.value; arguments = map value vs.items }) }
{
    Ok(Instance {
        predicate: name.clone()?,
        arguments: Rc::new(alloc, vs)?,
    })
}

/// So much of the instance of the newest arguments is opened.
pub fn open_newest<'p>(
    alloc: Global,
    program: &'p Settled,
    frames: &mut Vec<Frame<'p>>,
    of: &mut Config,
    k: Within,
    at: Place,
    when: When,
    i: &'p Rc<String>,
    q: Frac,
    e: &'p Expr,
) -> Result<(), Halt>
    ensures { (steps : ℕ) (l : Supply ℕ) → let t : Setting = record { program = settled program.now; steps = steps } in Follows result (rest t frames.new.items (config_of of.new) l) (before (act t (Open k at when i.entry q e.entry)) (rest t frames.old.items) (config_of of.old) l) }
{
    match take_list(of) {
        None => Err(Halt::Over(Whole::Running)),
        Some(vs) => {
            let all = instance(alloc, i, vs)?;
            let is_held = has_share(&of.state, when, &all, q)?;
            if is_held {
                return open_held(alloc, program, frames, of, k, at, when, &all, q, e);
            }
            Err(Halt::Over(k.blame.counted(Whole::Failed(at))))
        }
    }
}

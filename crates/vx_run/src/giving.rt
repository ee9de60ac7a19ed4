//! Permissions are taken, added and given.
ghost use Rattle.std.specs.Prelude.{◌≡◌, ℕ, IfOk};
ghost use Rattle.vx_frac.specs.Fraction.{fraction};
ghost use Rattle.vx_meaning.specs.States as states;
ghost use Rattle.vx_resolved.specs.Settled.{settled};
ghost use Rattle.vx_run.specs.Draws.{by_draws};
ghost use Rattle.vx_run.specs.Configs as config;
ghost use Rattle.vx_run.specs.Configs.{Setting, in_state};
ghost use Rattle.vx_run.specs.ConfigViews.{config_of, state_of};
ghost use Rattle.vx_run.specs.Frames.{rest, before, Follows};
ghost use Rattle.vx_run.specs.Given as given;
ghost use Rattle.vx_run.specs.Going.{Supply as Supply', gives};
ghost use Rattle.vx_run.specs.Held as held;
ghost use Rattle.vx_run.specs.Holding.{holdings, Tells, IsBlamed};
ghost use Rattle.vx_run.specs.Supplies.{supply};
ghost use Rattle.vx_run.specs.Visits.{doing, holding_now, more_of, possible_or_stop};
ghost use Rattle.vx_run.specs.Widths.{within_128_bits};
ghost use Rattle.vx_run.specs.declared.visit.Manner.TheVariants as manner;

use crate::amounts::times;
use crate::blame::Blame;
use crate::changing::put_holdings;
use crate::context::{When, Within};
use crate::filling::{Filling, fill_location, is_above_none};
use crate::finding::{put_taking, take_taking};
use crate::frame::Frame;
use crate::frames::put_off;
use crate::halt::Halt;
use crate::heap::Heap;
use crate::holdings::Holdings;
use crate::outcome::Whole;
use crate::permissions::taken;
use crate::possible::{all_held, is_possible};
use crate::resource::{Location, Resource};
use crate::state::{Config, State};
use crate::store::copy_store;
use crate::supply::Supply;
use crate::visit::{Manner, Visit};
use crate::visiting::make_bare;
use std::alloc::{AllocError, Global};
use std::mem;
use std::rc::Rc;
use vx_ast::Place;
use vx_frac::Frac;
use vx_resolved::Settled;

/// A halt within something.
pub fn blamed(b: Blame, halt: Halt) -> Halt
    ensures { IsBlamed b halt result }
{
    match halt {
        Halt::Over(end) => Halt::Over(b.counted(end)),
        Halt::Want => Halt::Want,
    }
}

/// So much of a permission is taken from the newest taking.
pub fn take_newest(
    alloc: Global,
    of: &mut Config,
    k: Within,
    q: Frac,
    at: Place,
    r: &Resource,
    a: Frac,
) -> Result<(), Halt>
    ensures { (t : Setting) (l : Supply' ℕ) → Follows result (gives (config_of of.new) l) (doing t k (manner.Take q) at (held.resource r.now, fraction a) (config_of of.old) l) }
{
    match take_taking(of) {
        None => Err(Halt::Over(Whole::Running)),
        Some(from) => match taken(alloc, at, q, r, a, &from) {
            Ok(left) => {
                put_taking(of, left)?;
                Ok(())
            }
            Err(halt) => Err(blamed(k.blame, halt)),
        },
    }
}

/// With so much of a permission more.
fn more(
    alloc: Global,
    at: Place,
    q: Frac,
    r: &Resource,
    a: Frac,
    to: &Holdings,
) -> Result<Holdings, Halt>
    ensures { Tells holdings result (more_of at (fraction q) (held.resource r.now, fraction a) (holdings to.now)) }
{
    match times(at, q, a) {
        Ok(b) => to.more(alloc, at, r, b),
        Err(halt) => Err(halt),
    }
}

/// So much of a permission is added to what is held.
pub fn add_newest(
    alloc: Global,
    of: &mut Config,
    k: Within,
    q: Frac,
    at: Place,
    r: &Resource,
    a: Frac,
) -> Result<(), Halt>
    ensures { (t : Setting) (l : Supply' ℕ) → Follows result (gives (config_of of.new) l) (doing t k (manner.Add q) at (held.resource r.now, fraction a) (config_of of.old) l) }
{
    match more(alloc, at, q, r, a, &of.state.holdings) {
        Ok(held) => {
            put_holdings(of, held);
            Ok(())
        }
        Err(halt) => Err(blamed(k.blame, halt)),
    }
}

/// It is a stop where the state can't be.
pub fn stop_unless_possible(
    alloc: Global,
    program: &Settled,
    steps: u64,
    of: &Config,
    b: Blame,
    at: Place,
) -> Result<(), Halt>
    ensures { (l : Supply' ℕ) → Follows result (gives (config_of of.now) l) (config.put_state b (config_of of.now) (possible_or_stop (record { program = settled program.now; steps = steps }) at (config_of of.now) (config_of of.now).state) l) }
{
    let possible = is_possible(alloc, program, steps, &of.callers, &of.state)?;
    if possible {
        return Ok(());
    }
    Err(Halt::Over(b.counted(Whole::Stopped(at))))
}

/// So much of a permission is given, and no value is chosen.
pub fn give_again_newest(
    alloc: Global,
    program: &Settled,
    steps: u64,
    of: &mut Config,
    k: Within,
    q: Frac,
    at: Place,
    r: &Resource,
    a: Frac,
) -> Result<(), Halt>
    ensures { (l : Supply' ℕ) → Follows result (gives (config_of of.new) l) (doing (record { program = settled program.now; steps = steps }) k (manner.GiveAgain q) at (held.resource r.now, fraction a) (config_of of.old) l) }
{
    match more(alloc, at, q, r, a, &of.state.holdings) {
        Ok(held) => {
            put_holdings(of, held);
            stop_unless_possible(alloc, program, steps, of, k.blame, at)
        }
        Err(halt) => Err(blamed(k.blame, halt)),
    }
}

/// The heap is this one.
fn put_heap(of: &mut Config, heap: Rc<Heap>)
    ensures { config_of of.new ≡ in_state (states.with_heap (held.heap heap.value) (config_of of.old).state) (config_of of.old) }
{
    let _before = mem::replace(&mut of.state.heap, heap);
}

/// The same state, but for what is held.
fn with_holdings(alloc: Global, state: &State, after: Holdings) -> Result<State, AllocError>
    ensures { IfOk result (λ s. state_of s ≡ states.with_holdings (holdings after) (state_of state.now)) }
{
    let mut copy = state.with_store(When::Now, copy_store(alloc, &state.store)?)?;
    let _before = mem::replace(&mut copy.holdings, after);
    Ok(copy)
}

/// So much of a permission is held, and values are chosen for what is newly held.
fn give_held<'p>(
    alloc: Global,
    program: &'p Settled,
    steps: u64,
    frames: &mut Vec<Frame<'p>>,
    of: &mut Config,
    from: &mut Supply,
    k: Within,
    at: Place,
    r: Resource,
    b: Frac,
    after: Holdings,
) -> Result<(), Halt>
    ensures { let t : Setting = record { program = settled program.now; steps = steps } in Follows result (rest t frames.new.items (config_of of.new) (supply from.new)) (before (holding_now t k at (held.resource r) (fraction b) (holdings after)) (rest t frames.old.items) (config_of of.old) (supply from.old)) }
{
    let totals = all_held(alloc, program, steps, &of.callers, &of.state)?;
    let inner = k.blame.stops(at);
    match r {
        Resource::At(l) => {
            let heap = of.state.heap.clone()?;
            match fill_location(alloc, program, from, at, &l, b, &Filling { heap, totals }) {
                Ok(w) => {
                    put_heap(of, w.heap);
                    put_holdings(of, after);
                    stop_unless_possible(alloc, program, steps, of, k.blame, at)
                }
                Err(halt) => Err(blamed(inner, halt)),
            }
        }
        Resource::Folded(i) => {
            if !is_above_none(b) {
                put_holdings(of, after);
                return stop_unless_possible(alloc, program, steps, of, k.blame, at);
            }
            let state = with_holdings(alloc, &of.state, after)?;
            put_taking(of, totals)?;
            put_off(frames, Frame::Visit(Visit::Given(k.blame, at, state)))?;
            let within = Within {
                level: k.level,
                blame: inner,
            };
            put_off(frames, Frame::Visit(Visit::Fill(within, k.level, at, i, b)))?;
            Ok(())
        }
    }
}

/// So much of a permission is given, with values chosen.
pub fn give_newest<'p>(
    alloc: Global,
    program: &'p Settled,
    steps: u64,
    frames: &mut Vec<Frame<'p>>,
    of: &mut Config,
    from: &mut Supply,
    k: Within,
    q: Frac,
    at: Place,
    r: Resource,
    a: Frac,
) -> Result<(), Halt>
    ensures { let t : Setting = record { program = settled program.now; steps = steps } in Follows result (rest t frames.new.items (config_of of.new) (supply from.new)) (before (doing t k (manner.Give q) at (held.resource r, fraction a)) (rest t frames.old.items) (config_of of.old) (supply from.old)) }
{
    match times(at, q, a) {
        Err(halt) => Err(blamed(k.blame, halt)),
        Ok(b) => match of.state.holdings.more(alloc, at, &r, b) {
            Err(halt) => Err(blamed(k.blame, halt)),
            Ok(held) => give_held(alloc, program, steps, frames, of, from, k, at, r, b, held),
        },
    }
}

/// Values are chosen for so much of a permission in a body.
pub fn fill_newest<'p>(
    alloc: Global,
    program: &'p Settled,
    frames: &mut Vec<Frame<'p>>,
    of: &mut Config,
    from: &mut Supply,
    k: Within,
    q: Frac,
    depth: u64,
    place: Place,
    at: Place,
    r: Resource,
    a: Frac,
) -> Result<(), Halt>
    ensures { (steps : ℕ) → let t : Setting = record { program = settled program.now; steps = steps } in Follows result (rest t frames.new.items (config_of of.new) (supply from.new)) (before (doing t k (manner.Fill q depth place) at (held.resource r, fraction a)) (rest t frames.old.items) (config_of of.old) (supply from.old)) }
{
    match take_taking(of) {
        None => Err(Halt::Over(Whole::Running)),
        Some(totals) => match times(at, q, a) {
            Err(halt) => Err(blamed(k.blame, halt)),
            Ok(b) => match r {
                Resource::At(l) => fill_field(alloc, program, of, from, k, at, &l, b, totals),
                Resource::Folded(i) => {
                    put_taking(of, totals)?;
                    put_off(frames, Frame::Visit(Visit::Fill(k, depth, place, i, b)))?;
                    Ok(())
                }
            },
        },
    }
}

/// A value is chosen for so much of a field in a body.
fn fill_field(
    alloc: Global,
    program: &Settled,
    of: &mut Config,
    from: &mut Supply,
    k: Within,
    at: Place,
    l: &Location,
    b: Frac,
    totals: Holdings,
) -> Result<(), Halt>
    ensures { Follows result (gives (config_of of.new) (supply from.new)) (config.put_filling k.blame (config_of of.old) (given.fill_location (settled program.now) by_draws within_128_bits at (held.location l.now) (fraction b) (record { heap = (config_of of.old).state.heap; totals = holdings totals })) (supply from.old)) }
{
    let heap = of.state.heap.clone()?;
    match fill_location(alloc, program, from, at, l, b, &Filling { heap, totals }) {
        Ok(w) => {
            put_heap(of, w.heap);
            make_bare(alloc, of)?;
            put_taking(of, w.totals)?;
            Ok(())
        }
        Err(halt) => Err(blamed(k.blame, halt)),
    }
}

/// So much of a permission is taken, added or given.
pub fn do_newest<'p>(
    alloc: Global,
    program: &'p Settled,
    steps: u64,
    frames: &mut Vec<Frame<'p>>,
    of: &mut Config,
    from: &mut Supply,
    k: Within,
    m: Manner,
    at: Place,
    r: Resource,
    a: Frac,
) -> Result<(), Halt>
    ensures { let t : Setting = record { program = settled program.now; steps = steps } in Follows result (rest t frames.new.items (config_of of.new) (supply from.new)) (before (doing t k m at (held.resource r, fraction a)) (rest t frames.old.items) (config_of of.old) (supply from.old)) }
{
    match m {
        Manner::Take(q) => take_newest(alloc, of, k, q, at, &r, a),
        Manner::Add(q) => add_newest(alloc, of, k, q, at, &r, a),
        Manner::GiveAgain(q) => give_again_newest(alloc, program, steps, of, k, q, at, &r, a),
        Manner::Give(q) => give_newest(alloc, program, steps, frames, of, from, k, q, at, r, a),
        Manner::Fill(q, depth, place) => {
            fill_newest(
                alloc, program, frames, of, from, k, q, depth, place, at, r, a,
            )
        }
    }
}

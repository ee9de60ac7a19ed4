//! One step of what is still to be done of assertions.
ghost use Rattle.std.specs.Prelude.{◌≡◌, ℕ};
ghost use Rattle.vx_frac.specs.Fraction.{fraction};
ghost use Rattle.vx_resolved.specs.Resolved.{predicate};
ghost use Rattle.vx_resolved.specs.Settled.{settled};
ghost use Rattle.vx_run.specs.Going.{Supply as Supply', gives};
ghost use Rattle.vx_meaning.specs.States as states;
ghost use Rattle.vx_run.specs.Stores.{store as store_of};
ghost use Rattle.vx_run.specs.Configs.{Setting, in_state};
ghost use Rattle.vx_run.specs.ConfigViews.{config_of, state_of};
ghost use Rattle.vx_run.specs.Held as held;
ghost use Rattle.vx_run.specs.Visits.{act, filling_body, HasTaking};
ghost use Rattle.vx_run.specs.Frames.{rest, before, Follows};
ghost use Rattle.vx_run.specs.Supplies.{supply as supply_of};
ghost use Rattle.vx_run.specs.declared.visit.Visit.TheVariants.{Points, Folded, Fill, Given};

use crate::binding::bind;
use crate::blame::Blame;
use crate::change::Change;
use crate::changing::keep_heap;
use crate::context::Within;
use crate::finding::{take_list, take_one, take_taking, take_two};
use crate::frame::Frame;
use crate::frames::put_off;
use crate::giving::{blamed, do_newest, stop_unless_possible};
use crate::halt::Halt;
use crate::members::predicate_named;
use crate::outcome::Whole;
use crate::permissions::{field_permission, instance_permission};
use crate::resource::Instance;
use crate::state::{Config, State};
use crate::store::Variable;
use crate::supply::Supply;
use crate::visit::{Manner, Visit};
use crate::visiting::{
    ask_newest, choose_newest, hold_taking, imply_newest, make_bare, visit_all, visit_whole,
};
use std::alloc::Global;
use std::mem;
use std::rc::Rc;
use vx_ast::Place;
use vx_frac::Frac;
use vx_resolved::{Predicate, Settled};

/// A permission of a field, whose receiver and amount are the newest values.
fn point_newest<'p>(
    alloc: Global,
    program: &'p Settled,
    steps: u64,
    frames: &mut Vec<Frame<'p>>,
    of: &mut Config,
    from: &mut Supply,
    k: Within,
    m: Manner,
    at: Place,
    f: &'p Rc<String>,
) -> Result<(), Halt>
    ensures { let t : Setting = record { program = settled program.now; steps = steps } in Follows result (rest t frames.new.items (config_of of.new) (supply_of from.new)) (before (act t (Points k m at f.entry)) (rest t frames.old.items) (config_of of.old) (supply_of from.old)) }
{
    match take_two(of) {
        None => Err(Halt::Over(Whole::Running)),
        Some((v, w)) => match field_permission(at, f, v, w) {
            Ok((r, a)) => do_newest(alloc, program, steps, frames, of, from, k, m, at, r, a),
            Err(halt) => Err(blamed(k.blame, halt)),
        },
    }
}

/// A permission of a predicate, whose amount is the newest value, and whose arguments are the newest list.
fn fold_newest<'p>(
    alloc: Global,
    program: &'p Settled,
    steps: u64,
    frames: &mut Vec<Frame<'p>>,
    of: &mut Config,
    from: &mut Supply,
    k: Within,
    m: Manner,
    at: Place,
    i: &'p Rc<String>,
) -> Result<(), Halt>
    ensures { let t : Setting = record { program = settled program.now; steps = steps } in Follows result (rest t frames.new.items (config_of of.new) (supply_of from.new)) (before (act t (Folded k m at i.entry)) (rest t frames.old.items) (config_of of.old) (supply_of from.old)) }
{
    match take_one(of) {
        None => Err(Halt::Over(Whole::Running)),
        Some(w) => match take_list(of) {
            None => Err(Halt::Over(Whole::Running)),
            Some(vs) => match instance_permission(alloc, at, i, vs, w) {
                Ok((r, a)) => do_newest(alloc, program, steps, frames, of, from, k, m, at, r, a),
                Err(halt) => Err(blamed(k.blame, halt)),
            },
        },
    }
}

/// Goes on with these variables; those before are handed back.
fn swap_store(of: &mut Config, store: Vec<Variable>) -> Vec<Variable>
    ensures after { config_of of.new ≡ in_state (states.with_store (store_of store.items) (config_of of.old).state) (config_of of.old) }
    ensures before { store_of result.items ≡ (config_of of.old).state.store }
{
    mem::replace(&mut of.state.store, store)
}

/// Values are chosen for a predicate's body at these arguments, where it has one.
fn enter_body<'p>(
    alloc: Global,
    frames: &mut Vec<Frame<'p>>,
    of: &mut Config,
    k: Within,
    depth: u64,
    at: Place,
    d: &'p Predicate,
    i: &Instance,
    q: Frac,
) -> Result<(), Halt>
    ensures { (t : Setting) (l : Supply' ℕ) → HasTaking (config_of of.old).takings → Follows result (rest t frames.new.items (config_of of.new) l) (before (filling_body t k depth at (predicate d.now) (held.instance i.now) (fraction q)) (rest t frames.old.items) (config_of of.old) l) }
{
    match &d.body {
        None => {
            make_bare(alloc, of)?;
            Ok(())
        }
        Some(body) => {
            let mut store = Vec::new(alloc);
            bind(&mut store, &d.parameters, &i.arguments)?;
            let outer = swap_store(of, store);
            put_off(frames, Frame::Change(Change::PutStore(outer)))?;
            let fill = Manner::Fill(q, depth, at);
            put_off(frames, Frame::Visit(Visit::Whole(k, fill, body)))?;
            Ok(())
        }
    }
}

/// Values are chosen for what is in so much of an instance.
fn fill_instance<'p>(
    alloc: Global,
    program: &'p Settled,
    frames: &mut Vec<Frame<'p>>,
    of: &mut Config,
    from: &mut Supply,
    k: Within,
    depth: u64,
    at: Place,
    i: Instance,
    q: Frac,
) -> Result<(), Halt>
    ensures { (steps : ℕ) → let t : Setting = record { program = settled program.now; steps = steps } in Follows result (rest t frames.new.items (config_of of.new) (supply_of from.new)) (before (act t (Fill k depth at i q)) (rest t frames.old.items) (config_of of.old) (supply_of from.old)) }
{
    hold_taking(of)?;
    if depth == 0 {
        return Err(Halt::Over(Whole::Running));
    }
    from.step()?;
    match predicate_named(program, &i.predicate) {
        None => Err(Halt::Over(k.blame.counted(Whole::Failed(at)))),
        Some(d) => enter_body(alloc, frames, of, k, depth - 1, at, d, &i, q),
    }
}

/// The state in which something was given, with the heap as it is now.
fn go_on_in(
    alloc: Global,
    program: &Settled,
    steps: u64,
    of: &mut Config,
    b: Blame,
    at: Place,
    state: State,
) -> Result<(), Halt>
    ensures { let t : Setting = record { program = settled program.now; steps = steps } in (l : Supply' ℕ) → Follows result (gives (config_of of.new) l) (act t (Given b at state) (config_of of.old) l) }
{
    match take_taking(of) {
        None => Err(Halt::Over(Whole::Running)),
        Some(_totals) => {
            keep_heap(of, state);
            stop_unless_possible(alloc, program, steps, of, b, at)
        }
    }
}

/// Does what an assertion begins with, and puts the rest off.
pub fn step_visit<'p>(
    alloc: Global,
    program: &'p Settled,
    steps: u64,
    frames: &mut Vec<Frame<'p>>,
    of: &mut Config,
    from: &mut Supply,
    next: Visit<'p>,
) -> Result<(), Halt>
    ensures { let t : Setting = record { program = settled program.now; steps = steps } in Follows result (rest t frames.new.items (config_of of.new) (supply_of from.new)) (before (act t next.entry) (rest t frames.old.items) (config_of of.old) (supply_of from.old)) }
{
    match next {
        Visit::Whole(k, m, a) => visit_whole(alloc, frames, of, k, m, a),
        Visit::All(k, m, at, all) => visit_all(alloc, frames, of, k, m, at, all),
        Visit::Ask(b, m, at) => ask_newest(of, b, m, at),
        Visit::Imply(k, m, at, a) => imply_newest(frames, of, k, m, at, a),
        Visit::Choose(k, m, at, a, b) => choose_newest(frames, of, k, m, at, a, b),
        Visit::Points(k, m, at, f) => {
            point_newest(alloc, program, steps, frames, of, from, k, m, at, f)
        }
        Visit::Folded(k, m, at, i) => {
            fold_newest(alloc, program, steps, frames, of, from, k, m, at, i)
        }
        Visit::Fill(k, depth, at, i, q) => {
            fill_instance(alloc, program, frames, of, from, k, depth, at, i, q)
        }
        Visit::Given(b, at, state) => go_on_in(alloc, program, steps, of, b, at, state),
    }
}

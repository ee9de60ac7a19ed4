//! Values of expressions where permissions are ignored, and nothing is applied.
ghost use Rattle.std.specs.Prelude.{◌≡◌, ℕ, IfOk, map, option_map};
ghost use Rattle.vx_frac.specs.Fraction.{fraction};
ghost use Rattle.vx_meaning.specs.States.{Store};
ghost use Rattle.vx_meaning.specs.Fits.{amount_of};
ghost use Rattle.vx_resolved.specs.Resolved.{expr, exprs};
ghost use Rattle.vx_resolved.specs.Settled.{settled};
ghost use Rattle.vx_run.specs.ConfigViews.{config_of};
ghost use Rattle.vx_run.specs.Flats as flats;
ghost use Rattle.vx_run.specs.Flats.{has_value, have_values, has_truth, has_reference, has_amount, written_store, at_first, Came, GoesOn};
ghost use Rattle.vx_run.specs.Frames.{act as act_frame, rest, before};
ghost use Rattle.vx_run.specs.Configs.{Setting};
ghost use Rattle.vx_run.specs.Supplies.{supply as supply_of};
ghost use Rattle.vx_run.specs.Held.{heap as heap_of};
ghost use Rattle.vx_run.specs.Pending.{act};
ghost use Rattle.vx_run.specs.Stores.{store as store_of};
ghost use Rattle.vx_run.specs.Views.{value, outcome};

use crate::blame::Blame;
use crate::context::{Reading, When, Within};
use crate::finding::{take_list, take_one};
use crate::frame::Frame;
use crate::frames::{put_off, take_off};
use crate::halt::Halt;
use crate::heap::Heap;
use crate::holdings::Holdings;
use crate::outcome::Whole;
use crate::pending::Pending;
use crate::state::{Config, State};
use crate::stepping::step_pending;
use crate::store::{Variable, copy_store};
use crate::supply::Supply;
use crate::values::Value;
use std::alloc::{AllocError, Global};
use std::rc::Rc;
use vx_frac::Frac;
use vx_resolved::{Expr, Exprs, Settled};

/// Where an evaluation begins that knows only variables and a heap.
fn bare(alloc: Global, variables: &[Variable], heap: &Rc<Heap>) -> Result<Config, AllocError>
    ensures { IfOk result (λ c. config_of c ≡ at_first (store_of variables.now) (heap_of heap.now.value)) }
{
    let state = State {
        store: copy_store(alloc, variables)?,
        heap: heap.clone()?,
        holdings: Holdings::none(alloc)?,
        old_heap: heap.clone()?,
        old_holdings: Holdings::none(alloc)?,
    };
    Ok(Config {
        values: Vec::new(alloc),
        lists: Vec::new(alloc),
        state,
        takings: Vec::new(alloc),
        callers: Vec::new(alloc),
    })
}

/// Whether it is an end where a number leaves 128 bits.
fn is_wide(end: Whole) -> bool
    ensures { result ≡ flats.is_wide (outcome end) }
{
    match end {
        Whole::Ended => false,
        Whole::Stopped(_) => false,
        Whole::Failed(_) => false,
        Whole::Running => false,
        Whole::Wide { .. } => true,
    }
}

/// One step of an evaluation; whether it goes on. A number past 128 bits is want of memory, as is what isn't of an expression.
fn goes_on<'p>(
    alloc: Global,
    program: &'p Settled,
    frames: &mut Vec<Frame<'p>>,
    of: &mut Config,
    from: &mut Supply,
    next: Frame<'p>,
) -> Result<bool, AllocError>
    ensures { IfOk result (λ on. let t : Setting = record { program = settled program.now; steps = 0 } in GoesOn on (rest t frames.new.items (config_of of.new) (supply_of from.new)) (before (act_frame t next.entry) (rest t frames.old.items) (config_of of.old) (supply_of from.old))) }
{
    match next {
        Frame::Evaluate(next) => match step_pending(alloc, program, frames, of, from, next) {
            Ok(()) => Ok(true),
            Err(Halt::Want) => Err(AllocError),
            Err(Halt::Over(end)) => {
                if is_wide(end) {
                    return Err(AllocError);
                }
                Ok(false)
            }
        },
        Frame::Visit(_) => Err(AllocError),
        Frame::Execute(_) => Err(AllocError),
        Frame::Change(_) => Err(AllocError),
    }
}

/// Evaluates to the end; whether there is a value.
fn evaluate_to_end<'p>(
    alloc: Global,
    program: &'p Settled,
    of: &mut Config,
    first: Pending<'p>,
) -> Result<bool, AllocError>
    ensures { IfOk result (λ there. Came there (config_of of.new) (act (record { program = settled program.now; steps = 0 }) first.entry (config_of of.old) (record { source = 0; steps = 0 }))) }
{
    let mut from = Supply::new(0, 0);
    let mut frames = Vec::new(alloc);
    put_off(&mut frames, Frame::Evaluate(first))?;
    for _ in 0..u64::MAX {
        match take_off(&mut frames) {
            None => return Ok(true),
            Some(next) => {
                let on = goes_on(alloc, program, &mut frames, of, &mut from, next)?;
                if !on {
                    return Ok(false);
                }
            }
        }
    }
    Err(AllocError)
}

/// The value of an expression in such a state, where it has one.
fn value_of<'p>(
    alloc: Global,
    program: &'p Settled,
    variables: &[Variable],
    heap: &Rc<Heap>,
    e: &'p Expr,
) -> Result<Option<Value>, AllocError>
    ensures { IfOk result (λ o. (x : Store) → written_store x ≡ store_of variables.now → option_map value o ≡ has_value (settled program.now) x (heap_of heap.now.value) (expr e.now)) }
{
    let mut of = bare(alloc, variables, heap)?;
    let within = Within {
        level: 0,
        blame: Blame::Itself,
    };
    let first = Pending::Evaluate(within, Reading::Free, When::Now, e);
    let there = evaluate_to_end(alloc, program, &mut of, first)?;
    if there {
        return Ok(take_one(&mut of));
    }
    Ok(None)
}

/// The values of expressions in such a state, where each has one.
pub fn values_of<'p>(
    alloc: Global,
    program: &'p Settled,
    variables: &[Variable],
    heap: &Rc<Heap>,
    es: &'p Exprs,
) -> Result<Option<Vec<Value>>, AllocError>
    ensures { IfOk result (λ o. (x : Store) → written_store x ≡ store_of variables.now → option_map (λ vs. map value vs.items) o ≡ have_values (settled program.now) x (heap_of heap.now.value) (exprs es.now)) }
{
    let mut of = bare(alloc, variables, heap)?;
    let within = Within {
        level: 0,
        blame: Blame::Itself,
    };
    let first = Pending::EvaluateAll(within, Reading::Free, When::Now, es);
    let there = evaluate_to_end(alloc, program, &mut of, first)?;
    if there {
        return Ok(take_list(&mut of));
    }
    Ok(None)
}

/// A truth value.
fn as_truth(v: Value) -> Option<bool>
    ensures { result ≡ flats.as_truth (value v) }
{
    match v {
        Value::Bool(b) => Some(b),
        Value::Int(_) => None,
        Value::Ref(_) => None,
        Value::Perm(_) => None,
    }
}

/// A reference.
fn as_reference(v: Value) -> Option<u64>
    ensures { result ≡ flats.as_reference (value v) }
{
    match v {
        Value::Ref(r) => Some(r),
        Value::Int(_) => None,
        Value::Bool(_) => None,
        Value::Perm(_) => None,
    }
}

/// An amount.
fn as_amount(v: Value) -> Option<Frac>
    ensures { option_map fraction result ≡ amount_of (value v) }
{
    match v {
        Value::Perm(a) => Some(a),
        Value::Int(_) => None,
        Value::Bool(_) => None,
        Value::Ref(_) => None,
    }
}

/// The truth of an expression in such a state, where it has one.
pub fn truth_of<'p>(
    alloc: Global,
    program: &'p Settled,
    variables: &[Variable],
    heap: &Rc<Heap>,
    e: &'p Expr,
) -> Result<Option<bool>, AllocError>
    ensures { IfOk result (λ o. (x : Store) → written_store x ≡ store_of variables.now → o ≡ has_truth (settled program.now) x (heap_of heap.now.value) (expr e.now)) }
{
    let found = value_of(alloc, program, variables, heap, e)?;
    match found {
        Some(v) => Ok(as_truth(v)),
        None => Ok(None),
    }
}

/// The reference that an expression is in such a state, where it is one.
pub fn reference_of<'p>(
    alloc: Global,
    program: &'p Settled,
    variables: &[Variable],
    heap: &Rc<Heap>,
    e: &'p Expr,
) -> Result<Option<u64>, AllocError>
    ensures { IfOk result (λ o. (x : Store) → written_store x ≡ store_of variables.now → o ≡ has_reference (settled program.now) x (heap_of heap.now.value) (expr e.now)) }
{
    let found = value_of(alloc, program, variables, heap, e)?;
    match found {
        Some(v) => Ok(as_reference(v)),
        None => Ok(None),
    }
}

/// The amount that an expression is in such a state, where it is one.
pub fn share_of<'p>(
    alloc: Global,
    program: &'p Settled,
    variables: &[Variable],
    heap: &Rc<Heap>,
    e: &'p Expr,
) -> Result<Option<Frac>, AllocError>
    ensures { IfOk result (λ o. (x : Store) → written_store x ≡ store_of variables.now → option_map fraction o ≡ has_amount (settled program.now) x (heap_of heap.now.value) (expr e.now)) }
{
    let found = value_of(alloc, program, variables, heap, e)?;
    match found {
        Some(v) => Ok(as_amount(v)),
        None => Ok(None),
    }
}

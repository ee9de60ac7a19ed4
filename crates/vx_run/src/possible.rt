//! Which states can be.
ghost use Rattle.std.specs.Prelude.{◌≡◌, ◌++◌, IfOk, OnOk, map, reverse};
ghost use Rattle.std.specs.List.{list_all};
ghost use Rattle.vx_frac.specs.Fraction.{fraction};
ghost use Rattle.vx_resolved.specs.Settled.{settled};
ghost use Rattle.vx_run.specs.Configs.{around};
ghost use Rattle.vx_run.specs.ConfigViews.{state_of, caller_of};
ghost use Rattle.vx_run.specs.Flattening.{found, SpreadsOne};
ghost use Rattle.vx_run.specs.Flats.{all_written};
ghost use Rattle.vx_run.specs.Given as given;
ghost use Rattle.vx_run.specs.Given.{bounded, grounded};
ghost use Rattle.vx_run.specs.Held.{heap as heap_of, entries, resource};
ghost use Rattle.vx_run.specs.Holding.{holdings};
ghost use Rattle.vx_meaning.specs.Consistent as consistent;
ghost use Rattle.vx_run.specs.Widths.{within_128_bits, written_all};

use crate::entries::Entries;
use crate::filling::{is_above_none, most_of};
use crate::flattening::{Found, find_all, put_found};
use crate::heap::Heap;
use crate::holdings::Holdings;
use crate::resource::Resource;
use crate::state::{Caller, State};
use std::alloc::{AllocError, Global};
use std::rc::Rc;
use vx_resolved::Settled;

/// The entries of what is held are put behind what was found.
fn add_entries(all: &mut Vec<Found>, of: &Entries) -> Result<(), AllocError>
    ensures { OnOk result (found all.new.items ≡ found all.old.items ++ entries of.now) }
{
    let mut left = of;
    loop {
        match left {
            Entries::Nothing => return Ok(()),
            Entries::Entry(r, a, _total, rest) => {
                put_found(all, r.copy()?, *a)?;
                left = rest;
            }
        }
    }
}

/// All that is held by the method that runs and by all that wait.
fn held_by_all(alloc: Global, callers: &[Caller], state: &State) -> Result<Vec<Found>, AllocError>
    ensures { IfOk result (λ all. found all.items ≡ given.held_by_all (around (reverse (map caller_of callers.now))) (state_of state.now)) }
{
    let mut all = Vec::new(alloc);
    for caller in callers {
        add_entries(&mut all, &caller.left.entries)?;
    }
    add_entries(&mut all, &state.holdings.entries)?;
    Ok(all)
}

/// What was found, as holdings.
fn as_holdings(alloc: Global, all: Vec<Found>) -> Result<Holdings, AllocError>
    ensures { IfOk result (λ h. holdings h ≡ found all.items) }
{
    let mut left = all;
    let mut held = Holdings::none(alloc)?;
    while let Some(e) = left.pop() {
        held = held.gained(alloc, &e.resource, e.amount)?;
    }
    Ok(held)
}

/// An entry with all that is inside it is put behind what was found; one that doesn't come to an end adds nothing.
fn spread_one<'p>(
    alloc: Global,
    program: &'p Settled,
    steps: u64,
    heap: &Rc<Heap>,
    e: &Found,
    all: &mut Vec<Found>,
) -> Result<(), AllocError>
    ensures { OnOk result (SpreadsOne (settled program.now) (heap_of heap.now.value) (found all.old.items) (found all.new.items) steps (resource e.now.resource, fraction e.now.amount)) }
{
    let r = e.resource.copy()?;
    let there = find_all(alloc, program, heap, all, steps, e.amount, r)?;
    if there {
        return Ok(());
    }
    let same = e.resource.copy()?;
    put_found(all, same, e.amount)?;
    Ok(())
}

/// Each entry with all that is inside it; one that doesn't come to an end adds nothing.
fn spread<'p>(
    alloc: Global,
    program: &'p Settled,
    steps: u64,
    heap: &Rc<Heap>,
    held: &[Found],
) -> Result<Vec<Found>, AllocError>
    ensures { IfOk result (λ all. found all.items ≡ all_written (consistent.spread (settled program.now) steps (heap_of heap.now.value) (found held.now))) }
{
    let mut all = Vec::new(alloc);
    for e in held {
        spread_one(alloc, program, steps, heap, e, &mut all)?;
    }
    Ok(all)
}

/// All that is held by the method that runs and by all that wait, with what is inside it.
pub fn all_held(
    alloc: Global,
    program: &Settled,
    steps: u64,
    callers: &[Caller],
    state: &State,
) -> Result<Holdings, AllocError>
    ensures { IfOk result (λ h. holdings h ≡ written_all within_128_bits (given.all_held (settled program.now) steps (around (reverse (map caller_of callers.now))) (state_of state.now))) }
{
    let held = held_by_all(alloc, callers, state)?;
    let all = spread(alloc, program, steps, &state.heap, &held)?;
    as_holdings(alloc, all)
}

/// Whether no more is held of a location than can be.
fn is_bounded(all: &Holdings, r: &Resource) -> bool
    ensures { result ≡ bounded (holdings all.now) (resource r.now) }
{
    match r {
        Resource::At(l) => !most_of(l).is_less(all.amount(r)),
        Resource::Folded(_) => true,
    }
}

/// Whether no more is held of any location than can be.
fn are_bounded(all: &Holdings) -> bool
    ensures { result ≡ list_all (λ e. bounded (holdings all.now) e.0) (holdings all.now) }
{
    let mut left: &Entries = &all.entries;
    loop {
        match left {
            Entries::Nothing => return true,
            Entries::Entry(r, _amount, _total, rest) => {
                if !is_bounded(all, r) {
                    return false;
                }
                left = rest;
            }
        }
    }
}

/// Whether an instance that is held comes to an end.
fn is_grounded<'p>(
    alloc: Global,
    program: &'p Settled,
    steps: u64,
    heap: &Rc<Heap>,
    held: &Holdings,
    r: &Resource,
) -> Result<bool, AllocError>
    ensures { IfOk result (λ b. b ≡ grounded (settled program.now) steps (heap_of heap.now.value) (holdings held.now) (resource r.now)) }
{
    match r {
        Resource::At(_) => Ok(true),
        Resource::Folded(_) => {
            let a = held.amount(r);
            if !is_above_none(a) {
                return Ok(true);
            }
            let mut inner = Vec::new(alloc);
            let same = r.copy()?;
            let there = find_all(alloc, program, heap, &mut inner, steps, a, same)?;
            Ok(there)
        }
    }
}

/// Whether each instance that is held comes to an end.
fn are_grounded<'p>(
    alloc: Global,
    program: &'p Settled,
    steps: u64,
    heap: &Rc<Heap>,
    held: &Holdings,
) -> Result<bool, AllocError>
    ensures { IfOk result (λ b. b ≡ list_all (λ e. grounded (settled program.now) steps (heap_of heap.now.value) (holdings held.now) e.0) (holdings held.now)) }
{
    let mut left: &Entries = &held.entries;
    loop {
        match left {
            Entries::Nothing => return Ok(true),
            Entries::Entry(r, _amount, _total, rest) => {
                let ends = is_grounded(alloc, program, steps, heap, held, r)?;
                if !ends {
                    return Ok(false);
                }
                left = rest;
            }
        }
    }
}

/// Whether a state can be.
pub fn is_possible(
    alloc: Global,
    program: &Settled,
    steps: u64,
    callers: &[Caller],
    state: &State,
) -> Result<bool, AllocError>
    ensures { IfOk result (λ b. b ≡ given.is_possible (settled program.now) steps (around (reverse (map caller_of callers.now))) (state_of state.now)) }
{
    let found = held_by_all(alloc, callers, state)?;
    let all = spread(alloc, program, steps, &state.heap, &found)?;
    let total = as_holdings(alloc, all)?;
    if !are_bounded(&total) {
        return Ok(false);
    }
    let held = as_holdings(alloc, found)?;
    let ends = are_grounded(alloc, program, steps, &state.heap, &held)?;
    Ok(ends)
}

//! The references that stand somewhere, and one above them all.
ghost use Rattle.std.specs.Prelude.{◌≡◌, ◌∷◌, [], flat_map, map, IfOk};
ghost use Rattle.vx_frac.specs.Fraction.{fraction};
ghost use Rattle.vx_frac.specs.Fractions.{lowest};
ghost use Rattle.vx_meaning.specs.States as states;
ghost use Rattle.vx_run.specs.Fresh as fresh;
ghost use Rattle.vx_run.specs.Fresh.{largest};
ghost use Rattle.vx_run.specs.Given.{held_by_all};
ghost use Rattle.vx_run.specs.Configs.{around};
ghost use Rattle.vx_run.specs.ConfigViews.{config_of};
ghost use Rattle.vx_run.specs.Held.{heap, entries, resource};
ghost use Rattle.vx_run.specs.Referenced as referenced;
ghost use Rattle.vx_run.specs.Stores.{store};
ghost use Rattle.vx_run.specs.Views.{value};

use crate::entries::Entries;
use crate::heap::Heap;
use crate::resource::Resource;
use crate::shares::is_above_none;
use crate::state::{Caller, Config};
use crate::store::Variable;
use crate::values::Value;
use std::alloc::AllocError;
use vx_frac::Frac;

/// The larger one.
#[tactic(auto, using(crate::proofs::Largest::first_of_two, crate::proofs::Largest::second_of_two))]
fn larger(a: u64, b: u64) -> u64
    ensures { result ≡ largest (a ∷ b ∷ []) }
{
    if b < a { a } else { b }
}

/// The largest reference up to now, with a value more.
#[tactic(auto, using(crate::proofs::Largest::alone))]
fn with_value(most: u64, v: Value) -> u64
    ensures { result ≡ largest (most ∷ fresh.reference (value v)) }
{
    match v {
        Value::Int(_) => most,
        Value::Bool(_) => most,
        Value::Ref(r) => larger(most, r),
        Value::Perm(_) => most,
    }
}

/// The largest reference up to now, with some values more.
fn with_values(most: u64, values: &[Value]) -> u64
    ensures { result ≡ largest (most ∷ flat_map fresh.reference (map value values.now)) }
{
    let mut most = most;
    for v in values {
        most = with_value(most, *v);
    }
    most
}

/// The largest reference up to now, with those of variables.
fn with_store(most: u64, variables: &[Variable]) -> u64
    ensures { result ≡ largest (most ∷ fresh.in_store (store variables.now)) }
{
    let mut most = most;
    for x in variables {
        most = with_value(most, x.value);
    }
    most
}

/// The largest reference up to now, with those of a heap.
fn with_heap(most: u64, all: &Heap) -> u64
    ensures { result ≡ largest (most ∷ fresh.in_heap (heap all.now)) }
{
    let mut most = most;
    let mut left = all;
    loop {
        match left {
            Heap::Empty => return most,
            Heap::Write(at, v, rest) => {
                most = with_value(larger(most, at.receiver), *v);
                left = rest;
            }
        }
    }
}

/// The largest reference up to now, with those of a resource.
fn with_resource(most: u64, r: &Resource) -> u64
    ensures { result ≡ largest (most ∷ fresh.in_resource (resource r.now)) }
{
    match r {
        Resource::At(l) => larger(most, l.receiver),
        Resource::Folded(i) => with_values(most, &i.arguments),
    }
}

/// How much is held of a resource by all callers that wait.
fn amount_by_callers(callers: &[Caller], r: &Resource) -> Result<Frac, AllocError>
    ensures { IfOk result (λ q. fraction q ≡ lowest (states.amount (around (referenced.waiting callers.now)).holdings (resource r.now))) }
{
    let mut sum = Frac::whole(0);
    for w in callers {
        match sum.add(w.left.amount(r)) {
            Ok(more) => sum = more,
            Err(_) => return Err(AllocError),
        }
    }
    Ok(sum)
}

/// How much is held of a resource by the method that runs and by all that wait for it.
fn amount_by_all(of: &Config, r: &Resource) -> Result<Frac, AllocError>
    ensures { IfOk result (λ q. fraction q ≡ lowest (states.amount (held_by_all (around (config_of of.now).callers) (config_of of.now).state) (resource r.now))) }
{
    match amount_by_callers(&of.callers, r)?.add(of.state.holdings.amount(r)) {
        Ok(sum) => Ok(sum),
        Err(_) => Err(AllocError),
    }
}

/// The largest reference up to now, with those of a resource of which something is held.
fn with_entry(most: u64, of: &Config, r: &Resource) -> Result<u64, AllocError>
    ensures { IfOk result (λ n. n ≡ largest (most ∷ referenced.of_one (held_by_all (around (config_of of.now).callers) (config_of of.now).state) (resource r.now))) }
{
    let held = amount_by_all(of, r)?;
    if is_above_none(held) {
        return Ok(with_resource(most, r));
    }
    Ok(most)
}

/// The largest reference up to now, with those of entries of which something is held.
fn with_entries(most: u64, of: &Config, all: &Entries) -> Result<u64, AllocError>
    ensures { IfOk result (λ n. n ≡ largest (most ∷ referenced.in_part (held_by_all (around (config_of of.now).callers) (config_of of.now).state) (entries all.now))) }
{
    let mut most = most;
    let mut left = all;
    loop {
        match left {
            Entries::Nothing => return Ok(most),
            Entries::Entry(r, _, _, rest) => {
                most = with_entry(most, of, r)?;
                left = rest;
            }
        }
    }
}

/// The largest reference up to now, with those of all stores.
fn with_stores(most: u64, of: &Config) -> u64
    ensures { result ≡ largest (most ∷ referenced.in_stores (config_of of.now).callers (config_of of.now).state) }
{
    let mut most = most;
    for w in &of.callers {
        most = with_store(most, &w.state.store);
    }
    with_store(most, &of.state.store)
}

/// The largest reference up to now, with those of all heaps.
fn with_heaps(most: u64, of: &Config) -> u64
    ensures { result ≡ largest (most ∷ referenced.in_heaps (config_of of.now).callers (config_of of.now).state) }
{
    let mut most = most;
    for w in &of.callers {
        most = with_heap(most, &w.state.old_heap);
    }
    with_heap(with_heap(most, &of.state.old_heap), &of.state.heap)
}

/// The largest reference up to now, with those of all that is held by anybody.
fn with_held(most: u64, of: &Config) -> Result<u64, AllocError>
    ensures { IfOk result (λ n. n ≡ largest (most ∷ fresh.in_holdings (held_by_all (around (config_of of.now).callers) (config_of of.now).state))) }
{
    let mut most = most;
    for w in &of.callers {
        most = with_entries(most, of, &w.left.entries)?;
    }
    let last = with_entries(most, of, &of.state.holdings.entries)?;
    Ok(last)
}

/// A reference above all that stand anywhere.
pub fn fresh_reference(of: &Config) -> Result<u64, AllocError>
    ensures { IfOk result (λ r. r ≡ fresh.fresh (around (config_of of.now).callers) (config_of of.now).state) }
{
    let most = with_held(with_heaps(with_stores(0, of), of), of)?;
    match most.checked_add(1) {
        Some(r) => Ok(r),
        None => Err(AllocError),
    }
}

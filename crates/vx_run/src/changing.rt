//! Changes of the state alone.
ghost use Rattle.std.specs.Prelude.{◌≡◌, ℕ, OnOk};
ghost use Rattle.vx_meaning.specs.States as states;
ghost use Rattle.vx_run.specs.Going.{Supply, gives};
ghost use Rattle.vx_run.specs.Stores.{store as store_of};
ghost use Rattle.vx_run.specs.Holding.{holdings as holdings_of};
ghost use Rattle.vx_run.specs.Configs.{in_state, resumed};
ghost use Rattle.vx_run.specs.ConfigViews.{config_of, state_of};
ghost use Rattle.vx_run.specs.Changes.{act};
ghost use Rattle.vx_run.specs.Frames.{Follows};

use crate::change::Change;
use crate::finding::{put_taking, take_taking};
use crate::halt::Halt;
use crate::holdings::Holdings;
use crate::outcome::Whole;
use crate::state::{Caller, Config, State};
use crate::store::Variable;
use std::alloc::AllocError;
use std::mem;

/// Back to this state.
fn restore(of: &mut Config, state: State)
    ensures { config_of of.new ≡ in_state (state_of state) (config_of of.old) }
{
    let _before = of.enter(state);
}

/// Back to these variables.
fn put_store(of: &mut Config, store: Vec<Variable>)
    ensures { config_of of.new ≡ in_state (states.with_store (store_of store.items) (config_of of.old).state) (config_of of.old) }
{
    let _before = mem::replace(&mut of.state.store, store);
}

/// So much is held.
pub fn put_holdings(of: &mut Config, holdings: Holdings)
    ensures { config_of of.new ≡ in_state (states.with_holdings (holdings_of holdings) (config_of of.old).state) (config_of of.old) }
{
    let _before = mem::replace(&mut of.state.holdings, holdings);
}

/// Back to this state, but for the heap, which stays.
pub fn keep_heap(of: &mut Config, state: State)
    ensures { config_of of.new ≡ in_state (states.with_heap (config_of of.old).state.heap (state_of state)) (config_of of.old) }
{
    let mut inner = of.enter(state);
    mem::swap(&mut of.state.heap, &mut inner.heap);
}

/// Back to this caller's state, but for the heap and what is held, which stay.
fn resume(of: &mut Config, caller: Caller)
    ensures { config_of of.new ≡ in_state (resumed (state_of caller.state) (config_of of.old).state) (config_of of.old) }
{
    let mut caller = caller;
    mem::swap(&mut of.state.store, &mut caller.state.store);
    mem::swap(&mut of.state.old_heap, &mut caller.state.old_heap);
    mem::swap(&mut of.state.old_holdings, &mut caller.state.old_holdings);
}

/// The present becomes the old part.
fn from_now(of: &mut Config) -> Result<(), AllocError>
    ensures { OnOk result (config_of of.new ≡ in_state (states.from_now (config_of of.old).state) (config_of of.old)) }
{
    let heap = of.state.heap.clone()?;
    let holdings = of.state.holdings.copy()?;
    let _heap = mem::replace(&mut of.state.old_heap, heap);
    let _holdings = mem::replace(&mut of.state.old_holdings, holdings);
    Ok(())
}

/// Does what is to be done to the state alone.
pub fn step_change(of: &mut Config, next: Change) -> Result<(), Halt>
    ensures { (l : Supply ℕ) → Follows result (gives (config_of of.new) l) (act next (config_of of.old) l) }
{
    match next {
        Change::Restore(state) => {
            restore(of, state);
            Ok(())
        }
        Change::PutStore(store) => {
            put_store(of, store);
            Ok(())
        }
        Change::KeepHeap(state) => {
            keep_heap(of, state);
            Ok(())
        }
        Change::Resume(caller) => {
            resume(of, caller);
            Ok(())
        }
        Change::FromNow => {
            from_now(of)?;
            Ok(())
        }
        Change::StartTaking => {
            let all = of.state.holdings.copy()?;
            put_taking(of, all)?;
            Ok(())
        }
        Change::DropTaking => match take_taking(of) {
            None => Err(Halt::Over(Whole::Running)),
            Some(_left) => Ok(()),
        },
        Change::KeepTaking => match take_taking(of) {
            None => Err(Halt::Over(Whole::Running)),
            Some(left) => {
                put_holdings(of, left);
                Ok(())
            }
        },
    }
}

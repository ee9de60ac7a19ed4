//! States of a run.
ghost use Rattle.std.specs.Prelude.{◌≡◌, IfOk};
ghost use Rattle.vx_meaning.specs.States as states;
ghost use Rattle.vx_run.specs.Held.{heap as heap_of};
ghost use Rattle.vx_run.specs.Holding.{holdings as holdings_of};
ghost use Rattle.vx_run.specs.Stores.{store as store_of};
ghost use Rattle.vx_run.specs.Configs.{in_state};
ghost use Rattle.vx_run.specs.ConfigViews.{state_of, config_of};
ghost use Rattle.vx_run.specs.Pending.{state_at};

use crate::context::When;
use crate::heap::Heap;
use crate::holdings::Holdings;
use crate::store::Variable;
use crate::values::Value;
use std::alloc::AllocError;
use std::mem;
use std::rc::Rc;

/// Variables, a heap and what is held, now and in the old part. Heaps and holdings are shared with the states from which they came.
#[derive(Drop)]
pub struct State {
    pub store: Vec<Variable>,
    pub heap: Rc<Heap>,
    pub holdings: Holdings,
    pub old_heap: Rc<Heap>,
    pub old_holdings: Holdings,
}

/// A caller that waits: its state at the call, and what the precondition left of its holdings.
#[derive(Drop)]
pub struct Caller {
    pub state: State,
    pub left: Holdings,
}

/// Where a run is. Of each list the last is the newest.
#[derive(Drop)]
pub struct Config {
    pub values: Vec<Value>,
    /// The arguments that were found, of each list that isn't used yet. Of its values the last is the first.
    pub lists: Vec<Vec<Value>>,
    pub state: State,
    /// What still remains of each taking, and the totals of each filling.
    pub takings: Vec<Holdings>,
    pub callers: Vec<Caller>,
}

impl State {
    /// The heap, now or in the old part.
    pub fn heap_at(&self, when: When) -> Result<Rc<Heap>, AllocError>
        ensures { IfOk result (λ h. heap_of h.value ≡ (state_at when (state_of self.now)).heap) }
    {
        match when {
            When::Now => Ok(self.heap.clone()?),
            When::Before => Ok(self.old_heap.clone()?),
        }
    }

    /// What is held, now or in the old part.
    pub fn holdings_at(&self, when: When) -> &Holdings
        ensures { holdings_of result.now ≡ (state_at when (state_of self.now)).holdings }
    {
        match when {
            When::Now => &self.holdings,
            When::Before => &self.old_holdings,
        }
    }

    /// This state, or its old part, with other variables.
    pub fn with_store(&self, when: When, store: Vec<Variable>) -> Result<State, AllocError>
        ensures { IfOk result (λ s. state_of s ≡ states.with_store (store_of store.items) (state_at when (state_of self.now))) }
    {
        Ok(State {
            store,
            heap: self.heap_at(when)?,
            holdings: self.holdings_at(when).copy()?,
            old_heap: self.old_heap.clone()?,
            old_holdings: self.old_holdings.copy()?,
        })
    }
}

impl Config {
    /// Goes on in this state; the state before is handed back.
    pub fn enter(&mut self, state: State) -> State
        ensures after { config_of self.new ≡ in_state (state_of state) (config_of self.old) }
        ensures before { state_of result ≡ (config_of self.old).state }
    {
        mem::replace(&mut self.state, state)
    }
}

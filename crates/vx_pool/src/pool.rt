//! All lanes, by turns.

ghost use Rattle.std.specs.Prelude.{◌≡◌, ◌<◌, ℕ, List, true, false, None, Some, OnOk, IfOk, length, slice_get, get_or, take};
ghost use Rattle.vx_rules.specs.Trees.{Question};
ghost use Rattle.vx_pool.specs.Events.{Event};
ghost use Rattle.vx_pool.specs.Lanes.{Amid, Stopped, AreDone, AreFree, AreHeld, AreApart, numbers};
ghost use Rattle.vx_pool.specs.Counts.{count, total};

use crate::slot::{start_at, turn_at};
use crate::{Talker, Worker};
use std::alloc::{AllocError, Global};
use vx_ends::Turns;

#[tactic(auto, using(crate::proofs::Counting::count_more))]
// How many lanes wait.
fn count_waiting(states: &[Option<bool>]) -> usize
    ensures { result ≡ count states.now }
{
    let mut found = 0;
    for i in 0..states.len() {
        if states[i] == Some(true) {
            found += 1;
        }
    }
    found
}

#[tactic(auto, using(crate::proofs::Counting::count_more))]
// The lane that has this number among those that wait.
fn waiting_lane(states: &[Option<bool>], number: usize) -> usize
    requires { number < count states.now }
    ensures waits { get_or states.now result None ≡ Some true }
    ensures number { count (take result states.now) ≡ number }
    ensures within { result < length states.now }
{
    let mut left = number;
    for i in 0..states.len() {
        if states[i] == Some(true) {
            if left == 0 {
                return i;
            }
            left -= 1;
        }
    }
    unreachable!()
}

// The states of so many lanes of which none was driven yet.
fn none_yet(alloc: Global, lanes: usize) -> Result<Vec<Option<bool>>, AllocError>
    ensures each { IfOk result (λ states. length states.items ≡ lanes) }
    ensures none { IfOk result (λ states. (j : ℕ) → get_or states.items j None ≡ None) }
{
    let mut states = Vec::new(alloc);
    for _ in 0..lanes {
        states.push(None)?;
    }
    Ok(states)
}

// Each lane is driven to its first question.
fn start_all<X, H, F, W: Worker<X, F>, T: Talker<X, H, F>>(
    alloc: Global,
    lanes: &mut [(W, T)],
    states: &mut [Option<bool>],
    shared: &X,
    hub: &mut H,
) -> Result<(), AllocError>
    requires postable { (log : List (Event F)) (q : Question) → W.IsPostable log q → T.IsPostable log q }
    requires amid { Amid W.log W.asked W.ended W.Fits W.lane T.lane T.Held T.Tells T.Asks T.Later shared.now lanes.old hub.old states.old hub.old lanes.old }
    requires none { (j : ℕ) → get_or states.old j None ≡ None }
    ensures amid { OnOk result (Amid W.log W.asked W.ended W.Fits W.lane T.lane T.Held T.Tells T.Asks T.Later shared.now lanes.old hub.old states.new hub.new lanes.new) }
    ensures driven { OnOk result ((j : ℕ) → j < length lanes.new → get_or states.new j None ≡ None → ⊥) }
    ensures stopped { Stopped T.Held T.lane T.Later lanes.old hub.old hub.new lanes.new }
{
    for i in 0..lanes.len() {
        let waits = start_at(alloc, lanes, i, shared, hub)?;
        states[i] = Some(waits);
    }
    Ok(())
}

// Marks the lanes that wait and whose reply is there.
fn look<X, H, F, W: Worker<X, F>, T: Talker<X, H, F>>(
    lanes: &[(W, T)],
    states: &[Option<bool>],
    ready: &mut [Option<bool>],
    hub: &H,
)
    requires lanes { length states.now ≡ length lanes.now }
    requires marks { length ready.old ≡ length lanes.now }
    ensures marks { length ready.new ≡ length ready.old }
    ensures waits { (j : ℕ) → get_or ready.new j None ≡ Some true → get_or states.now j None ≡ Some true }
{
    for i in 0..lanes.len() {
        ready[i] = None;
        if states[i] == Some(true) && lanes[i].1.ready(hub) {
            ready[i] = Some(true);
        }
    }
}

// A lane that waits: one whose reply is there, if there are such, else any. Which of them `pick` says.
fn choose<X, H, F, W: Worker<X, F>, T: Talker<X, H, F>, N: Turns>(
    lanes: &[(W, T)],
    states: &[Option<bool>],
    ready: &mut [Option<bool>],
    hub: &H,
    turns: &mut N,
) -> usize
    requires some { 0 < count states.now }
    requires lanes { length states.now ≡ length lanes.now }
    requires marks { length ready.old ≡ length lanes.now }
    ensures waits { get_or states.now result None ≡ Some true }
    ensures within { result < length states.now }
    ensures marks { length ready.new ≡ length ready.old }
{
    let all = count_waiting(states);
    if all > 1 {
        look(lanes, states, ready, hub);
        if count_waiting(ready) == 0 {
            T::wait(hub);
            look(lanes, states, ready, hub);
        }
        let there = count_waiting(ready);
        if there > 0 {
            return waiting_lane(ready, turns.pick(there) % there);
        }
    }
    waiting_lane(states, turns.pick(all) % all)
}

// Lane after lane is picked among those that wait, has its reply and is driven on, until none waits.
fn turn_all<X, H, F, W: Worker<X, F>, T: Talker<X, H, F>, N: Turns>(
    alloc: Global,
    lanes: &mut [(W, T)],
    states: &mut [Option<bool>],
    ready: &mut [Option<bool>],
    shared: &X,
    hub: &mut H,
    turns: &mut N,
) -> Result<(), AllocError>
    requires postable { (log : List (Event F)) (q : Question) → W.IsPostable log q → T.IsPostable log q }
    requires marks { length ready.old ≡ length lanes.old }
    requires amid { Amid W.log W.asked W.ended W.Fits W.lane T.lane T.Held T.Tells T.Asks T.Later shared.now lanes.old hub.old states.old hub.old lanes.old }
    requires driven { (j : ℕ) → j < length lanes.old → get_or states.old j None ≡ None → ⊥ }
    ensures done { OnOk result (AreDone W.log W.asked W.ended W.Fits W.lane T.lane T.Held T.Tells T.Asks shared.now hub.new lanes.new) }
    ensures stopped { Stopped T.Held T.lane T.Later lanes.old hub.old hub.new lanes.new }
{
    'turns: loop {
        let waiting = count_waiting(states);
        if waiting == 0 {
            return Ok(());
        }
        let i = choose(lanes, states, ready, hub, turns);
        let waits = turn_at(alloc, lanes, i, shared, hub)?;
        states[i] = Some(waits);
    }
}

// All lanes are driven to their ends; none was driven yet.
fn run_over<X, H, F, W: Worker<X, F>, T: Talker<X, H, F>, N: Turns>(
    alloc: Global,
    lanes: &mut [(W, T)],
    states: &mut [Option<bool>],
    ready: &mut [Option<bool>],
    shared: &X,
    hub: &mut H,
    turns: &mut N,
) -> Result<(), AllocError>
    requires postable { (log : List (Event F)) (q : Question) → W.IsPostable log q → T.IsPostable log q }
    requires marks { length ready.old ≡ length lanes.old }
    requires apart { AreApart T.lane lanes.old }
    requires free { AreFree W.log W.asked W.ended W.Fits W.lane T.lane T.Held T.Tells T.Asks shared.now hub.old lanes.old }
    requires each { length states.old ≡ length lanes.old }
    requires none { (j : ℕ) → get_or states.old j None ≡ None }
    ensures done { OnOk result (AreDone W.log W.asked W.ended W.Fits W.lane T.lane T.Held T.Tells T.Asks shared.now hub.new lanes.new) }
    ensures stopped { Stopped T.Held T.lane T.Later lanes.old hub.old hub.new lanes.new }
{
    start_all(alloc, lanes, states, shared, hub)?;
    turn_all(alloc, lanes, states, ready, shared, hub, turns)
}

/// The pool of lanes.
pub struct Pool {}

impl Pool {
    /// Drives every lane to its end. First each lane, which is free, is driven to its first question. Then `pick` chooses a lane
    /// that waits, among those whose reply is there if there are such; its reply is taken and given to its own worker, and the lane
    /// is driven on; so it goes until none waits.
    pub fn run<X, H, F, W: Worker<X, F>, T: Talker<X, H, F>, N: Turns>(
        alloc: Global,
        lanes: &mut [(W, T)],
        shared: &X,
        hub: &mut H,
        turns: &mut N,
    ) -> Result<(), AllocError>
        requires postable { (log : List (Event F)) (q : Question) → W.IsPostable log q → T.IsPostable log q }
        requires apart { AreApart T.lane lanes.old }
        requires free { AreFree W.log W.asked W.ended W.Fits W.lane T.lane T.Held T.Tells T.Asks shared.now hub.old lanes.old }
        ensures done { OnOk result (AreDone W.log W.asked W.ended W.Fits W.lane T.lane T.Held T.Tells T.Asks shared.now hub.new lanes.new) }
        ensures held { AreHeld T.Held hub.new lanes.new }
        ensures numbers { numbers T.lane lanes.new ≡ numbers T.lane lanes.old }
        ensures later { T.Later hub.old hub.new }
    {
        let mut states = none_yet(alloc, lanes.len())?;
        let mut ready = none_yet(alloc, lanes.len())?;
        run_over(alloc, lanes, &mut states, &mut ready, shared, hub, turns)
    }
}

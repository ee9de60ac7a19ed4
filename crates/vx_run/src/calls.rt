//! Calls: the precondition is taken, the callee's body runs, and the postcondition is taken there and given to the caller.
ghost use Rattle.std.specs.Prelude.{◌≡◌, ◌-◌, ℕ, ◌∷◌, ◌++◌, map, Some, None, string_bytes, OnOk, IfOk, IfSome, IfNone};
ghost use Rattle.vx_meaning.specs.States as states;
ghost use Rattle.vx_resolved.specs.Resolved.{block, declaration, method as method_of, names_of};
ghost use Rattle.vx_resolved.specs.Settled.{settled};
ghost use Rattle.vx_run.specs.Going as going;
ghost use Rattle.vx_run.specs.Going.{Going, ends_with, Running};
ghost use Rattle.vx_run.specs.Configs as configs;
ghost use Rattle.vx_run.specs.Configs.{Setting, around};
ghost use Rattle.vx_run.specs.ConfigViews.{caller_of, config_of, newest, state_of};
ghost use Rattle.vx_run.specs.Frames.{rest, before, Follows};
ghost use Rattle.vx_run.specs.Held.{heap as heap_of};
ghost use Rattle.vx_run.specs.Holding.{holdings as holdings_of};
ghost use Rattle.vx_run.specs.Stores.{store as store_of};
ghost use Rattle.vx_run.specs.Supplies as supplies;
ghost use Rattle.vx_run.specs.Tasks as tasks;
ghost use Rattle.vx_run.specs.Views.{value};
ghost use Rattle.vx_run.specs.Whole as whole;

use crate::applying::inner_state;
use crate::binding::{assign_all, bind, values_of};
use crate::blame::Blame;
use crate::change::Change;
use crate::context::{When, Within};
use crate::finding::{put_list, take_list, take_taking};
use crate::firsts::{give_all_again_first, give_all_first, take_all_first};
use crate::frame::Frame;
use crate::frames::put_off;
use crate::gone::gone;
use crate::halt::Halt;
use crate::heap::Heap;
use crate::holdings::Holdings;
use crate::members::method_named;
use crate::outcome::Whole;
use crate::state::{Caller, Config, State};
use crate::store::Variable;
use crate::supply::Supply;
use crate::task::{Site, Task};
use crate::values::Value;
use std::alloc::{AllocError, Global};
use std::rc::Rc;
use vx_ast::Place;
use vx_resolved::{Block, Declaration, Method, Settled};

/// The arguments of a call are there for what follows.
#[tactic(auto, using(crate::proofs::Newest::newest_turned))]
pub fn keep_list(of: &mut Config, vs: Vec<Value>) -> Result<(), AllocError>
    ensures { OnOk result (config_of of.new ≡ configs.with_lists (map value vs.items ∷ (config_of of.old).lists) (config_of of.old)) }
{
    let mut vs = vs;
    vs.reverse();
    put_list(of, vs)?;
    Ok(())
}

/// A caller waits.
#[tactic(auto, using(crate::proofs::Newest::newest_caller))]
fn put_caller(of: &mut Config, caller: Caller) -> Result<(), AllocError>
    ensures { OnOk result (config_of of.new ≡ configs.with_callers (caller_of caller ∷ (config_of of.old).callers) (config_of of.old)) }
{
    of.callers.push(caller)?;
    Ok(())
}

/// The newest caller waits no longer.
#[tactic(auto, using(crate::proofs::Newest::newest_caller))]
fn take_caller(of: &mut Config) -> Option<Caller>
    ensures some { IfSome result (λ w. (f : configs.Caller → configs.Config → Going ℕ configs.Config) → tasks.with_caller (config_of of.old) f ≡ f (caller_of w) (config_of of.new)) }
    ensures none { IfNone result ((f : configs.Caller → configs.Config → Going ℕ configs.Config) → tasks.with_caller (config_of of.old) f ≡ ends_with Running) }
{
    match of.callers.pop() {
        Some(w) => Some(w),
        None => None,
    }
}

/// The caller waits, and its variables give way to the parameters.
fn wait(
    alloc: Global,
    of: &mut Config,
    parameters: &[Declaration],
    vs: Vec<Value>,
) -> Result<(), AllocError>
    ensures { OnOk result (config_of of.new ≡ tasks.waiting (states.bind (map declaration parameters.now) (map value vs.items)) (map value vs.items) (config_of of.old)) }
{
    let inner = inner_state(alloc, &of.state, When::Now, parameters, &vs)?;
    let left = of.state.holdings.copy()?;
    let state = of.enter(inner);
    put_caller(of, Caller { state, left })?;
    keep_list(of, vs)?;
    Ok(())
}

/// A call begins: its precondition is taken.
fn set_out<'p>(
    alloc: Global,
    frames: &mut Vec<Frame<'p>>,
    of: &mut Config,
    site: Site<'p>,
    vs: Vec<Value>,
) -> Result<(), AllocError>
    ensures { OnOk result ((t : Setting) (l : going.Supply ℕ) → rest t frames.new.items (config_of of.new) l ≡ before (tasks.called_by t site.entry.level site.entry.place (names_of site.entry.targets.now) (method_of site.entry.method.now) (map value vs.items)) (rest t frames.old.items) (config_of of.old) l) }
{
    wait(alloc, of, &site.method.parameters, vs)?;
    put_off(frames, Frame::Execute(Task::Enter(site)))?;
    let within = Within {
        level: site.level,
        blame: Blame::Fails(site.place),
    };
    take_all_first(
        frames,
        within,
        site.method.place,
        &site.method.preconditions,
    )?;
    Ok(())
}

/// A method is called with the newest arguments.
pub fn step_call<'p>(
    alloc: Global,
    program: &'p Settled,
    frames: &mut Vec<Frame<'p>>,
    of: &mut Config,
    level: u64,
    at: Place,
    targets: &'p [Rc<String>],
    name: &Rc<String>,
) -> Result<(), Halt>
    ensures { (steps : ℕ) (l : going.Supply ℕ) → let t : Setting = record { program = settled program.now; steps = steps } in Follows result (rest t frames.new.items (config_of of.new) l) (before (tasks.calling t level at (names_of targets.now) (string_bytes name.now.value)) (rest t frames.old.items) (config_of of.old) l) }
{
    match take_list(of) {
        None => Err(Halt::Over(Whole::Running)),
        Some(vs) => match method_named(program, name) {
            None => Err(Halt::Over(Whole::Failed(at))),
            Some(method) => {
                let site = Site {
                    level,
                    place: at,
                    targets,
                    method,
                };
                set_out(alloc, frames, of, site, vs)?;
                Ok(())
            }
        },
    }
}

/// The variables of a callee's contract: its parameters, and then its returns.
fn contract_store(
    alloc: Global,
    m: &Method,
    vs: &[Value],
    ws: &[Value],
) -> Result<Vec<Variable>, AllocError>
    ensures { IfOk result (λ xs. store_of xs.items ≡ states.bind (method_of m.now).parameters (map value vs.now) ++ states.bind (method_of m.now).returns (map value ws.now)) }
{
    let mut store = Vec::new(alloc);
    bind(&mut store, &m.parameters, vs)?;
    bind(&mut store, &m.returns, ws)?;
    Ok(store)
}

/// The state in which the postcondition is given to the caller; its old part is the state before the call.
fn given_in(
    alloc: Global,
    caller: &State,
    m: &Method,
    vs: &[Value],
    ws: &[Value],
    left: &Holdings,
    heap: &Rc<Heap>,
) -> Result<State, AllocError>
    ensures { IfOk result (λ s. state_of s ≡ tasks.given_in (state_of caller.now) (method_of m.now) (map value vs.now) (map value ws.now) (holdings_of left.now) (heap_of heap.now.value)) }
{
    Ok(State {
        store: contract_store(alloc, m, vs, ws)?,
        heap: heap.clone()?,
        holdings: left.copy()?,
        old_heap: caller.heap.clone()?,
        old_holdings: caller.holdings.copy()?,
    })
}

/// The state in which the callee's body begins: it holds what was taken, and its old part is that state.
fn entered_in(
    alloc: Global,
    caller: &State,
    m: &Method,
    vs: &[Value],
    ws: &[Value],
    left: &Holdings,
) -> Result<State, AllocError>
    ensures { IfOk result (λ s. state_of s ≡ tasks.entered_in (state_of caller.now) (method_of m.now) (map value vs.now) (map value ws.now) (holdings_of left.now)) }
{
    let holdings = gone(alloc, &caller.holdings, left)?;
    Ok(State {
        store: contract_store(alloc, m, vs, ws)?,
        heap: caller.heap.clone()?,
        old_holdings: holdings.copy()?,
        holdings,
        old_heap: caller.heap.clone()?,
    })
}

/// Back in the caller, whose targets get these values: the postcondition is to be given, in the state that is entered here.
fn come_back<'p>(
    alloc: Global,
    frames: &mut Vec<Frame<'p>>,
    of: &mut Config,
    site: Site<'p>,
    vs: &[Value],
    ws: &[Value],
    left: &Holdings,
    heap: &Rc<Heap>,
    caller: Caller,
) -> Result<(), AllocError>
    ensures state { OnOk result (config_of of.new ≡ configs.in_state (tasks.given_in (caller_of caller).state (method_of site.entry.method.now) (map value vs.now) (map value ws.now) (holdings_of left.now) (heap_of heap.now.value)) (config_of of.old)) }
    ensures frames { OnOk result ((t : Setting) → rest t frames.new.items ≡ before (tasks.resuming (tasks.answered (names_of site.entry.targets.now) (map value ws.now) (caller_of caller).state)) (rest t frames.old.items)) }
{
    let inner = given_in(alloc, &caller.state, site.method, vs, ws, left, heap)?;
    let _before = of.enter(inner);
    let mut caller = caller;
    assign_all(&mut caller.state.store, site.targets, ws);
    put_off(frames, Frame::Change(Change::Resume(caller)))?;
    Ok(())
}

/// A method without a body goes by its contract.
fn by_contract<'p>(
    alloc: Global,
    frames: &mut Vec<Frame<'p>>,
    of: &mut Config,
    supply: &mut Supply,
    site: Site<'p>,
    vs: &[Value],
    left: &Holdings,
    caller: Caller,
) -> Result<(), AllocError>
    ensures { OnOk result ((t : Setting) → rest t frames.new.items (config_of of.new) (supplies.supply supply.new) ≡ before (λ c. tasks.put c (tasks.run_by t site.entry.level (around c.callers) None site.entry.place (caller_of caller).state (names_of site.entry.targets.now) (method_of site.entry.method.now) (map value vs.now) (holdings_of left.now))) (rest t frames.old.items) (config_of of.old) (supplies.supply supply.old)) }
{
    let ws = supply.draw_all(alloc, &site.method.returns)?;
    let heap = caller.state.heap.clone()?;
    come_back(alloc, frames, of, site, vs, &ws, left, &heap, caller)?;
    let within = Within {
        level: site.level,
        blame: Blame::Fails(site.place),
    };
    give_all_first(
        frames,
        within,
        site.method.place,
        &site.method.postconditions,
    )?;
    Ok(())
}

/// The callee's body, and then its postcondition is taken.
fn put_body<'p>(frames: &mut Vec<Frame<'p>>, site: Site<'p>, b: &'p Block) -> Result<(), AllocError>
    ensures { OnOk result ((t : Setting) → rest t frames.new.items ≡ before (tasks.body t (site.entry.level - 1) (block b.now)) (before (tasks.ending t site.entry.level (method_of site.entry.method.now)) (before (tasks.returning t site.entry.level site.entry.place (names_of site.entry.targets.now) (method_of site.entry.method.now)) (rest t frames.old.items)))) }
{
    put_off(frames, Frame::Execute(Task::Return(site)))?;
    put_off(frames, Frame::Change(Change::DropTaking))?;
    let within = Within {
        level: site.level,
        blame: Blame::Itself,
    };
    take_all_first(
        frames,
        within,
        site.method.place,
        &site.method.postconditions,
    )?;
    let inner = Task::Body(site.level.saturating_sub(1), b);
    put_off(frames, Frame::Execute(inner))?;
    Ok(())
}

/// The callee's body begins, and the caller waits with what is left.
fn by_body<'p>(
    alloc: Global,
    frames: &mut Vec<Frame<'p>>,
    of: &mut Config,
    supply: &mut Supply,
    site: Site<'p>,
    vs: Vec<Value>,
    left: Holdings,
    caller: Caller,
    b: &'p Block,
) -> Result<(), AllocError>
    ensures { OnOk result ((t : Setting) → rest t frames.new.items (config_of of.new) (supplies.supply supply.new) ≡ before (λ c. tasks.put c (tasks.run_by t site.entry.level (around c.callers) (Some (block b.now)) site.entry.place (caller_of caller).state (names_of site.entry.targets.now) (method_of site.entry.method.now) (map value vs.items) (holdings_of left))) (rest t frames.old.items) (config_of of.old) (supplies.supply supply.old)) }
{
    let ws = supply.draw_all(alloc, &site.method.returns)?;
    let inner = entered_in(alloc, &caller.state, site.method, &vs, &ws, &left)?;
    let _before = of.enter(inner);
    let mut caller = caller;
    caller.left = left;
    put_caller(of, caller)?;
    keep_list(of, vs)?;
    put_body(frames, site, b)?;
    Ok(())
}

/// The callee begins: by its body where it has one.
fn enter<'p>(
    alloc: Global,
    frames: &mut Vec<Frame<'p>>,
    of: &mut Config,
    supply: &mut Supply,
    site: Site<'p>,
    vs: Vec<Value>,
    left: Holdings,
    caller: Caller,
) -> Result<(), AllocError>
    ensures { OnOk result ((t : Setting) → rest t frames.new.items (config_of of.new) (supplies.supply supply.new) ≡ before (λ c. tasks.put c (tasks.run_by t site.entry.level (around c.callers) (method_of site.entry.method.now).body site.entry.place (caller_of caller).state (names_of site.entry.targets.now) (method_of site.entry.method.now) (map value vs.items) (holdings_of left))) (rest t frames.old.items) (config_of of.old) (supplies.supply supply.old)) }
{
    match &site.method.body {
        None => {
            by_contract(alloc, frames, of, supply, site, &vs, &left, caller)?;
            Ok(())
        }
        Some(b) => {
            by_body(alloc, frames, of, supply, site, vs, left, caller, b)?;
            Ok(())
        }
    }
}

/// The precondition was taken, and the callee begins.
pub fn step_enter<'p>(
    alloc: Global,
    frames: &mut Vec<Frame<'p>>,
    of: &mut Config,
    supply: &mut Supply,
    site: Site<'p>,
) -> Result<(), Halt>
    ensures { (t : Setting) → Follows result (rest t frames.new.items (config_of of.new) (supplies.supply supply.new)) (before (tasks.entering t site.entry.level site.entry.place (names_of site.entry.targets.now) (method_of site.entry.method.now)) (rest t frames.old.items) (config_of of.old) (supplies.supply supply.old)) }
{
    match take_list(of) {
        None => Err(Halt::Over(Whole::Running)),
        Some(vs) => match take_taking(of) {
            None => Err(Halt::Over(Whole::Running)),
            Some(left) => match take_caller(of) {
                None => Err(Halt::Over(Whole::Running)),
                Some(caller) => {
                    enter(alloc, frames, of, supply, site, vs, left, caller)?;
                    Ok(())
                }
            },
        },
    }
}

/// The callee is done, with these returns: back in the caller the postcondition is given.
fn answer<'p>(
    alloc: Global,
    frames: &mut Vec<Frame<'p>>,
    of: &mut Config,
    site: Site<'p>,
    vs: &[Value],
    us: &[Value],
    caller: Caller,
) -> Result<(), AllocError>
    ensures { OnOk result ((t : Setting) (l : going.Supply ℕ) → rest t frames.new.items (config_of of.new) l ≡ before (tasks.answering t site.entry.level site.entry.place (caller_of caller) (names_of site.entry.targets.now) (method_of site.entry.method.now) (map value vs.now) (map value us.now)) (rest t frames.old.items) (config_of of.old) l) }
{
    let heap = of.state.heap.clone()?;
    let left = caller.left.copy()?;
    come_back(alloc, frames, of, site, vs, us, &left, &heap, caller)?;
    let within = Within {
        level: site.level,
        blame: Blame::Fails(site.place),
    };
    give_all_again_first(
        frames,
        within,
        site.method.place,
        &site.method.postconditions,
    )?;
    Ok(())
}

/// The callee's body and its postcondition are done.
pub fn step_return<'p>(
    alloc: Global,
    frames: &mut Vec<Frame<'p>>,
    of: &mut Config,
    site: Site<'p>,
) -> Result<(), Halt>
    ensures { (t : Setting) (l : going.Supply ℕ) → Follows result (rest t frames.new.items (config_of of.new) l) (before (tasks.returning t site.entry.level site.entry.place (names_of site.entry.targets.now) (method_of site.entry.method.now)) (rest t frames.old.items) (config_of of.old) l) }
{
    match take_list(of) {
        None => Err(Halt::Over(Whole::Running)),
        Some(vs) => match take_caller(of) {
            None => Err(Halt::Over(Whole::Running)),
            Some(caller) => {
                let found = values_of(alloc, &site.method.returns, &of.state.store)?;
                match found {
                    None => Err(Halt::Over(Whole::Failed(site.place))),
                    Some(us) => {
                        answer(alloc, frames, of, site, &vs, &us, caller)?;
                        Ok(())
                    }
                }
            }
        },
    }
}

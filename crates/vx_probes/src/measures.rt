//! The instance that a measure names, candidate by candidate.

ghost use Rattle.std.specs.Prelude.{◌≡◌, None, IfOk, string_bytes};
ghost use Rattle.vx_ast.specs.Syntax.{Program};
ghost use Rattle.vx_heap.specs.Views.{candidate, candidates_of, heap as heap_of, terms_of};
ghost use Rattle.vx_resolved.specs.Settled.{settled};
ghost use Rattle.vx_rules.specs.Chunks.{candidates, instance_key, only_inner};
ghost use Rattle.vx_rules.specs.Codes.{code as code_of};
ghost use Rattle.vx_rules.specs.Members.{rooted};
ghost use Rattle.vx_rules.specs.Rules as rule;
ghost use Rattle.vx_rules.specs.States.{State};
ghost use Rattle.vx_rules.specs.Trees.{MeasureCode};
ghost use Rattle.vx_stack.specs.Stack.{finding, giving, going, measured_by, rooted_at, side_tree, told, verified_body, Stepped};
ghost use Rattle.vx_stack.specs.Values.{values};
ghost use Rattle.vx_states.specs.Entering.{back_to};
ghost use Rattle.vx_states.specs.SymStates.{optional_term, state as state_of};

use crate::probes::probe_one;
use std::alloc::{AllocError, Global};
use std::rc::Rc;
use vx_ast::Place;
use vx_heap::{Candidate, Resource, SymHeap};
use vx_resolved::Settled;
use vx_rules::Code;
use vx_stack::{Applied, Conts, Frame, Hole, Move, Next, Search, Side, Values, Verified};
use vx_states::{Caller, SymState, mark_root};

/// The side of what an application tells.
fn telling(
    alloc: Global,
    x: &Rc<Applied>,
    hole: &Rc<Hole>,
    state: &SymState,
) -> Result<Side, AllocError>
    ensures { IfOk result (λ side. (p : Program) → side_tree p side ≡ told p x.now.value (giving p hole.now.value) (state_of state.now)) }
{
    let next = Next::Tell(x.clone()?, hole.clone()?);
    let frame = Frame::Go(Rc::new(alloc, next)?);
    let state = state.copy(alloc)?;
    Ok(Side { frame, state })
}

/// The measure is sought on from a number.
fn measuring_on(
    search: &Rc<Search>,
    number: usize,
    x: &Rc<Applied>,
    hole: &Rc<Hole>,
) -> Result<Next, AllocError>
    ensures { (p : Program) (s : State) → IfOk result (λ rest. going p rest s ≡ finding search.now.value number s
        (λ c. told p x.now.value (giving p hole.now.value) s) (rule.never search.now.value.place (code_of search.now.value.code) s)) }
{
    Ok(Next::MeasureFrom(search.clone()?, number, x.clone()?, hole.clone()?))
}

/// An application is measured by the first candidate from a number on that is as wanted.
pub fn measure_from(
    alloc: Global,
    program: &Settled,
    search: &Rc<Search>,
    number: usize,
    x: &Rc<Applied>,
    hole: &Rc<Hole>,
    state: SymState,
    conts: &mut Conts,
) -> Result<Move, AllocError>
    ensures { IfOk result (λ m. Stepped (settled program.now) (finding search.now.value number (state_of state)
        (λ c. told (settled program.now) x.now.value (giving (settled program.now) hole.now.value) (state_of state))
        (rule.never search.now.value.place (code_of search.now.value.code) (state_of state))) conts.old.sides.items m conts.new.sides.items) }
{
    match search.candidates.get(number) {
        None => conts.never(alloc, program, search.place, search.code, state),
        Some(c) => {
            let rest = measuring_on(search, number + 1, x, hole)?;
            let found = telling(alloc, x, hole, &state)?;
            probe_one(alloc, program, search, c, found, rest, state, conts)
        }
    }
}

/// The side of a function's body whose root is a candidate.
fn rooting(
    alloc: Global,
    at: &Candidate,
    v: &Rc<Verified>,
    state: &SymState,
) -> Result<Side, AllocError>
    ensures { IfOk result (λ side. (p : Program) → side_tree p side ≡ verified_body p v.now.value None (rooted (candidate at.now) (state_of state.now))) }
{
    let mut state = state.copy(alloc)?;
    mark_root(alloc, &mut state, at)?;
    let frame = Frame::Go(Rc::new(alloc, Next::Run(v.clone()?))?);
    Ok(Side { frame, state })
}

/// A function's root is the first candidate from a number on that is as wanted.
pub fn root_from(
    alloc: Global,
    program: &Settled,
    search: &Rc<Search>,
    number: usize,
    v: &Rc<Verified>,
    state: SymState,
    conts: &mut Conts,
) -> Result<Move, AllocError>
    ensures { IfOk result (λ m. Stepped (settled program.now) (finding search.now.value number (state_of state)
        (λ c. verified_body (settled program.now) v.now.value None (rooted c (state_of state)))
        (rule.never search.now.value.place (code_of search.now.value.code) (state_of state))) conts.old.sides.items m conts.new.sides.items) }
{
    match search.candidates.get(number) {
        None => conts.never(alloc, program, search.place, search.code, state),
        Some(c) => {
            let rest = Next::RootFrom(search.clone()?, number + 1, v.clone()?);
            let found = rooting(alloc, c, v, &state)?;
            probe_one(alloc, program, search, c, found, rest, state, conts)
        }
    }
}

/// What is looked for: some amount of an instance, among these candidates.
fn search_among(
    alloc: Global,
    place: Place,
    arguments: &Values,
    among: Vec<Candidate>,
) -> Result<Rc<Search>, AllocError>
    ensures place { IfOk result (λ s. s.value.place ≡ place) }
    ensures code { IfOk result (λ s. code_of s.value.code ≡ MeasureCode) }
    ensures arguments { IfOk result (λ s. terms_of s.value.arguments.items ≡ values arguments.now) }
    ensures amount { IfOk result (λ s. optional_term s.value.amount ≡ None) }
    ensures candidates { IfOk result (λ s. candidates_of s.value.candidates.items ≡ candidates_of among.items) }
{
    let arguments = arguments.to_vec(alloc)?;
    Ok(Rc::new(
        alloc,
        Search {
            place,
            code: Code::Measure,
            arguments,
            amount: None,
            candidates: among,
        },
    )?)
}

/// The candidates of an instance in a heap.
fn all_of(
    alloc: Global,
    predicate: &Rc<String>,
    arguments: &Values,
    heap: &SymHeap,
) -> Result<Vec<Candidate>, AllocError>
    ensures { IfOk result (λ v. candidates_of v.items ≡ candidates (instance_key (string_bytes predicate.now.value) (values arguments.now)) (heap_of heap.now)) }
{
    let arguments = arguments.to_vec(alloc)?;
    heap.candidates(alloc, &Resource::Predicate(predicate.clone()?), &arguments)
}

/// The candidates of an instance in a heap that are inner.
fn inner_of(
    alloc: Global,
    predicate: &Rc<String>,
    arguments: &Values,
    heap: &SymHeap,
) -> Result<Vec<Candidate>, AllocError>
    ensures { IfOk result (λ v. candidates_of v.items ≡ only_inner (candidates (instance_key (string_bytes predicate.now.value) (values arguments.now)) (heap_of heap.now))) }
{
    let arguments = arguments.to_vec(alloc)?;
    heap.inner_candidates(alloc, &Resource::Predicate(predicate.clone()?), &arguments)
}

/// An application is measured by an inner instance.
fn seek_inner(
    alloc: Global,
    program: &Settled,
    predicate: &Rc<String>,
    arguments: &Values,
    x: &Rc<Applied>,
    hole: &Rc<Hole>,
    state: SymState,
    conts: &mut Conts,
) -> Result<Move, AllocError>
    ensures { IfOk result (λ m. Stepped (settled program.now)
        (measured_by (settled program.now) x.now.value (string_bytes predicate.now.value) (values arguments.now) (state_of state)
        (giving (settled program.now) hole.now.value)) conts.old.sides.items m conts.new.sides.items) }
{
    let place = x.application.place;
    let among = inner_of(alloc, predicate, arguments, &state.heap)?;
    let wanted = search_among(alloc, place, arguments, among)?;
    measure_from(alloc, program, &wanted, 0, x, hole, state, conts)
}

/// A function's root is an instance that it holds.
pub fn seek_root(
    alloc: Global,
    program: &Settled,
    place: Place,
    predicate: &Rc<String>,
    arguments: &Values,
    v: &Rc<Verified>,
    state: SymState,
    conts: &mut Conts,
) -> Result<Move, AllocError>
    ensures { IfOk result (λ m. Stepped (settled program.now)
        (rooted_at (settled program.now) v.now.value place (string_bytes predicate.now.value) (values arguments.now) (state_of state)) conts.old.sides.items m
        conts.new.sides.items) }
{
    let among = all_of(alloc, predicate, arguments, &state.heap)?;
    let wanted = search_among(alloc, place, arguments, among)?;
    root_from(alloc, program, &wanted, 0, v, state, conts)
}

/// The arguments of the instance that measures an application: back from the function's part, it is sought among the inner chunks.
pub fn step_measured_by(
    alloc: Global,
    program: &Settled,
    arguments: &Values,
    x: &Rc<Applied>,
    predicate: &Rc<String>,
    caller: &Caller,
    hole: &Rc<Hole>,
    state: SymState,
    conts: &mut Conts,
) -> Result<Move, AllocError>
    ensures { IfOk result (λ v. Stepped (settled program.now)
        (measured_by (settled program.now) x.now.value (string_bytes predicate.now.value) (values arguments.now) (back_to caller.now (state_of state))
        (giving (settled program.now) hole.now.value)) conts.old.sides.items v conts.new.sides.items) }
{
    let mut state = state;
    state.back(alloc, caller)?;
    seek_inner(alloc, program, predicate, arguments, x, hole, state, conts)
}

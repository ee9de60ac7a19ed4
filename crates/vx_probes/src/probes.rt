//! A probe of one candidate, with those behind it on the other side.

ghost use Rattle.std.specs.Prelude.{◌≡◌, false, IfOk};
ghost use Rattle.vx_resolved.specs.Settled.{settled};
ghost use Rattle.vx_rules.specs.Codes.{code as code_of};
ghost use Rattle.vx_rules.specs.Rules as rule;
ghost use Rattle.vx_ast.specs.Syntax.{Program};
ghost use Rattle.vx_stack.specs.Stack.{finding, frame_tree, giving, going, side_tree, taking_none, wanted, with_taken, Stepped};
ghost use Rattle.vx_heap.specs.Views.{candidate, chunk as chunk_view, held_term};
ghost use Rattle.vx_rules.specs.Chunks.{reduced};
ghost use Rattle.vx_rules.specs.States as states;
ghost use Rattle.vx_rules.specs.States.{State};
ghost use Rattle.vx_states.specs.SymStates.{state as state_of};
ghost use Rattle.vx_terms.specs.Views.{sort as sort_of};

use std::alloc::{AllocError, Global};
use std::rc::Rc;
use vx_heap::{Candidate, Chunk, zero};
use vx_resolved::Settled;
use vx_stack::{Conts, Frame, Hole, Move, Next, Search, Side, Taken};
use vx_states::SymState;
use vx_terms::{Sort, Term, numbers};

/// A probe of one candidate: on with this side where it is as wanted, with what waits for the state where it isn't.
pub(crate) fn probe_one(
    alloc: Global,
    program: &Settled,
    search: &Search,
    of: &Candidate,
    found: Side,
    rest: Next,
    state: SymState,
    conts: &mut Conts,
) -> Result<Move, AllocError>
    ensures { IfOk result (λ m. Stepped (settled program.now)
        (rule.probe (wanted search.now (candidate of.now).chunk) search.now.place (code_of search.now.code) (state_of state)
        (side_tree (settled program.now) found) (going (settled program.now) rest (state_of state))) conts.old.sides.items m conts.new.sides.items) }
{
    let condition = search.condition(alloc, &of.chunk)?;
    let frame = Frame::Go(Rc::new(alloc, rest)?);
    let otherwise = Side { frame, state };
    conts.probe(
        alloc,
        program,
        &condition,
        search.place,
        search.code,
        found,
        otherwise,
    )
}

/// The side of a candidate that is read.
fn read(
    alloc: Global,
    from: &Candidate,
    hole: &Rc<Hole>,
    state: &SymState,
) -> Result<Side, AllocError>
    ensures { IfOk result (λ side. (p : Program) → side_tree p side ≡ giving p hole.now.value (candidate from.now).chunk.value (state_of state.now)) }
{
    let frame = Frame::Give(from.chunk.value.clone()?, hole.clone()?);
    let state = state.copy(alloc)?;
    Ok(Side { frame, state })
}

/// The value of the first candidate from a number on that is as wanted.
pub fn read_from(
    alloc: Global,
    program: &Settled,
    search: &Rc<Search>,
    number: usize,
    hole: &Rc<Hole>,
    state: SymState,
    conts: &mut Conts,
) -> Result<Move, AllocError>
    ensures { IfOk result (λ m. Stepped (settled program.now) (finding search.now.value number (state_of state)
        (λ c. giving (settled program.now) hole.now.value c.chunk.value (state_of state))
        (rule.never search.now.value.place (code_of search.now.value.code) (state_of state))) conts.old.sides.items m conts.new.sides.items) }
{
    match search.candidates.get(number) {
        None => conts.never(alloc, program, search.place, search.code, state),
        Some(c) => {
            let rest = Next::ReadFrom(search.clone()?, number + 1, hole.clone()?);
            let found = read(alloc, c, hole, &state)?;
            probe_one(alloc, program, search, c, found, rest, state, conts)
        }
    }
}

/// No candidate is left to take from: the amount has to be 0, and what is taken is new. In a quiet state the side is over.
fn take_none(
    alloc: Global,
    program: &Settled,
    search: &Search,
    amount: &Rc<Term>,
    of: &Sort,
    after: &Rc<Taken>,
    state: SymState,
    conts: &mut Conts,
) -> Result<Move, AllocError>
    ensures { IfOk result (λ m. Stepped (settled program.now)
        (taking_none (held_term amount.now) (sort_of of.now) search.now.place (code_of search.now.code) (state_of state)
        (λ v s. with_taken (settled program.now) after.now.value v false s)) conts.old.sides.items m conts.new.sides.items) }
{
    if state.is_quiet() {
        return Ok(Move::End);
    }
    let condition = numbers::eq(alloc, amount, &zero(alloc)?)?;
    let next = Rc::new(alloc, Next::Fresh(of.copy()?, after.clone()?))?;
    conts.ask(
        alloc,
        program,
        condition,
        search.place,
        search.code,
        state,
        Frame::Go(next),
    )
}

/// Whether what is unfolded from a chunk is inner.
fn leads_inside(chunk: &Chunk) -> bool
    ensures { result ≡ rule.leads_inside (chunk_view chunk.now) }
{
    chunk.is_root || chunk.is_inner
}

/// What a side does next whose chunk was taken.
fn after_taken(alloc: Global, chunk: &Chunk, after: &Taken) -> Result<Frame, AllocError>
    ensures { IfOk result (λ frame. (p : Program) (s : State)
        → frame_tree p frame s ≡ with_taken p after.now (chunk_view chunk.now).value (rule.leads_inside (chunk_view chunk.now)) s) }
{
    let value = chunk.value.clone()?;
    match after {
        Taken::Value(hole) => Ok(Frame::Give(value, hole.clone()?)),
        Taken::Unfold(instance, next) => {
            let body = Next::Body(instance.clone()?, value, leads_inside(chunk), next.clone()?);
            Ok(Frame::Go(Rc::new(alloc, body)?))
        }
    }
}

/// The side of a candidate that an amount is taken from.
fn taken(
    alloc: Global,
    from: &Candidate,
    amount: &Rc<Term>,
    after: &Rc<Taken>,
    state: &SymState,
) -> Result<Side, AllocError>
    ensures { IfOk result (λ side. (p : Program) → side_tree p side
        ≡ with_taken p after.now.value (candidate from.now).chunk.value (rule.leads_inside (candidate from.now).chunk)
        (states.with_heap (reduced (candidate from.now) (held_term amount.now) (state_of state.now).heap) (state_of state.now))) }
{
    let mut state = state.copy(alloc)?;
    state.take(alloc, from, amount)?;
    let frame = after_taken(alloc, &from.chunk, after)?;
    Ok(Side { frame, state })
}

/// Taking goes on from a number.
fn taking_on(
    search: &Rc<Search>,
    number: usize,
    amount: &Rc<Term>,
    of: &Sort,
    after: &Rc<Taken>,
) -> Result<Next, AllocError>
    ensures { (p : Program) (s : State) → IfOk result (λ rest. going p rest s ≡ finding search.now.value number s
        (λ c. with_taken p after.now.value c.chunk.value (rule.leads_inside c.chunk) (states.with_heap (reduced c (held_term amount.now) s.heap) s))
        (taking_none (held_term amount.now) (sort_of of.now) search.now.value.place (code_of search.now.value.code) s
        (λ v s1. with_taken p after.now.value v false s1))) }
{
    Ok(Next::TakeFrom(
        search.clone()?,
        number,
        amount.clone()?,
        of.copy()?,
        after.clone()?,
    ))
}

/// An amount is taken from the first candidate from a number on that has it.
pub fn take_from(
    alloc: Global,
    program: &Settled,
    search: &Rc<Search>,
    number: usize,
    amount: &Rc<Term>,
    of: &Sort,
    after: &Rc<Taken>,
    state: SymState,
    conts: &mut Conts,
) -> Result<Move, AllocError>
    ensures { IfOk result (λ m. Stepped (settled program.now) (finding search.now.value number (state_of state)
        (λ c. with_taken (settled program.now) after.now.value c.chunk.value (rule.leads_inside c.chunk)
        (states.with_heap (reduced c (held_term amount.now) (state_of state).heap) (state_of state)))
        (taking_none (held_term amount.now) (sort_of of.now) search.now.value.place (code_of search.now.value.code) (state_of state)
        (λ v s. with_taken (settled program.now) after.now.value v false s))) conts.old.sides.items m conts.new.sides.items) }
{
    match search.candidates.get(number) {
        None => take_none(alloc, program, search, amount, of, after, state, conts),
        Some(c) => {
            let rest = taking_on(search, number + 1, amount, of, after)?;
            let found = taken(alloc, c, amount, after, &state)?;
            probe_one(alloc, program, search, c, found, rest, state, conts)
        }
    }
}

//! How a function is verified: its precondition with a snapshot, its measure at entry, and its body.

ghost use Rattle.std.specs.Prelude.{◌≡◌, None, Some, IfOk, string_bytes};
ghost use Rattle.vx_ast.specs.Syntax.{joined as joined_of};
ghost use Rattle.vx_heap.specs.Views.{held_term};
ghost use Rattle.vx_resolved.specs.Resolved.{function as function_of, measure as measure_of};
ghost use Rattle.vx_resolved.specs.Settled.{settled};
ghost use Rattle.vx_rules.specs.Members as rule;
ghost use Rattle.vx_rules.specs.Members.{rules};
ghost use Rattle.vx_rules.specs.Rules.{produce};
ghost use Rattle.vx_rules.specs.States.{State, after_fresh, declare_all, fresh};
ghost use Rattle.vx_stack.specs.Stack.{going, side_tree, verified_body, Stepped};
ghost use Rattle.vx_states.specs.SymStates.{optional_term, own as own_of, state as state_of};
ghost use Rattle.vx_terms.specs.Build.{whole_amount};
ghost use Rattle.vx_terms.specs.Sorts.{SnapSort};

use std::alloc::{AllocError, Global};
use std::mem;
use std::rc::Rc;
use vx_resolved::{Function, Measure, Settled};
use vx_stack::{Conts, Frame, Hole, Move, Next, Production, Row, Side, Verified, precondition};
use vx_states::{Own, SymState};
use vx_terms::{Sort, Term};

/// Fresh parameters, and the symbol of a snapshot.
#[derive(Drop)]
struct Start {
    state: SymState,
    snapshot: Rc<Term>,
}

fn begin(alloc: Global, g: &Function) -> Result<Start, AllocError>
    ensures snapshot { IfOk result (λ x. held_term x.snapshot ≡ fresh SnapSort (declare_all (function_of g.now).parameters rule.blank)) }
    ensures state { IfOk result (λ x. state_of x.state ≡ after_fresh (declare_all (function_of g.now).parameters rule.blank)) }
{
    let mut state = SymState::new(alloc)?;
    state.declare_all(alloc, &g.parameters)?;
    let snapshot = state.new_symbol(alloc, Sort::Snap)?;
    Ok(Start { state, snapshot })
}

/// The precondition with a snapshot, and then the measure.
fn first_part(
    alloc: Global,
    program: &Settled,
    v: &Rc<Verified>,
    snapshot: Rc<Term>,
) -> Result<Rc<Next>, AllocError>
    ensures { IfOk result (λ n. (s : State) → going (settled program.now) n.value s
        ≡ produce (settled program.now) (rules (settled program.now))
        (joined_of (function_of v.now.value.function.value).place (function_of v.now.value.function.value).requires) whole_amount (Some (held_term snapshot)) s
        (rule.from_measure (settled program.now) (rules (settled program.now)) (string_bytes v.now.value.name.value) (function_of v.now.value.function.value)
        (function_of v.now.value.function.value).decreases)) }
{
    let _program = program;
    let all = precondition(alloc, &v.function)?;
    let scale = vx_heap::whole(alloc)?;
    let production = Rc::new(
        alloc,
        Production {
            scale,
            snapshot: Some(snapshot),
        },
    )?;
    let measure = Rc::new(alloc, Next::Measure(v.clone()?))?;
    Ok(Rc::new(alloc, Next::Produce(all, production, measure))?)
}

/// The side that a function begins with.
pub fn verified_side(
    alloc: Global,
    program: &Settled,
    name: &Rc<String>,
    function: &Rc<Function>,
) -> Result<Side, AllocError>
    ensures { IfOk result (λ side. side_tree (settled program.now) side
        ≡ rule.function_over (settled program.now) (rules (settled program.now)) (string_bytes name.now.value) (function_of function.now.value)) }
{
    let verified = Verified {
        name: name.clone()?,
        function: function.clone()?,
    };
    let verified = Rc::new(alloc, verified)?;
    let Start { state, snapshot } = begin(alloc, function)?;
    let next = first_part(alloc, program, &verified, snapshot)?;
    Ok(Side {
        frame: Frame::Go(next),
        state,
    })
}

/// A state in which applications are measured against this.
fn with_own(state: SymState, own: Own) -> SymState
    ensures { state_of result ≡ record (state_of state) { own = Some (own_of own) } }
{
    let mut state = state;
    let _before = mem::replace(&mut state.own, Some(own));
    state
}

/// The body, in which applications are measured against this.
fn run(
    alloc: Global,
    program: &Settled,
    v: &Rc<Verified>,
    measure: Option<Rc<Term>>,
    state: SymState,
    conts: &mut Conts,
) -> Result<Move, AllocError>
    ensures { IfOk result (λ m. Stepped (settled program.now)
        (verified_body (settled program.now) v.now.value (optional_term measure) (state_of state)) conts.old.sides.items m conts.new.sides.items) }
{
    let own = Own {
        function: v.name.clone()?,
        measure,
    };
    let state = with_own(state, own);
    let hole = Hole::Outcome(v.clone()?);
    conts.eval(alloc, program, &v.function.body, hole, state)
}

/// The body of a function whose measure is no number.
pub fn step_run(
    alloc: Global,
    program: &Settled,
    v: &Rc<Verified>,
    state: SymState,
    conts: &mut Conts,
) -> Result<Move, AllocError>
    ensures { IfOk result (λ m. Stepped (settled program.now) (verified_body (settled program.now) v.now.value None (state_of state)) conts.old.sides.items m conts.new.sides.items) }
{
    run(alloc, program, v, None, state, conts)
}

/// The body of a function whose measure has this value at its entry.
pub fn step_entry(
    alloc: Global,
    program: &Settled,
    measure: Rc<Term>,
    v: &Rc<Verified>,
    state: SymState,
    conts: &mut Conts,
) -> Result<Move, AllocError>
    ensures { IfOk result (λ m. Stepped (settled program.now) (verified_body (settled program.now) v.now.value (Some (held_term measure)) (state_of state))
        conts.old.sides.items m conts.new.sides.items) }
{
    run(alloc, program, v, Some(measure), state, conts)
}

/// The measure at entry, by its kind.
fn step_kind(
    alloc: Global,
    program: &Settled,
    v: &Rc<Verified>,
    m: &Measure,
    state: SymState,
    conts: &mut Conts,
) -> Result<Move, AllocError>
    ensures { IfOk result (λ r. Stepped (settled program.now)
        (rule.from_measure (settled program.now) (rules (settled program.now)) (string_bytes v.now.value.name.value) (function_of v.now.value.function.value)
        (Some (measure_of m.now)) (state_of state)) conts.old.sides.items r conts.new.sides.items) }
{
    match m {
        Measure::Number(e) => {
            let hole = Hole::Entry(v.clone()?);
            conts.eval(alloc, program, e, hole, state)
        }
        Measure::Instance(place, predicate, es) => {
            let row = Row::Root(v.clone()?, *place, predicate.clone()?);
            conts.evals(alloc, program, es, row, state)
        }
    }
}

/// The measure at entry, after the precondition.
pub fn step_measure(
    alloc: Global,
    program: &Settled,
    v: &Rc<Verified>,
    state: SymState,
    conts: &mut Conts,
) -> Result<Move, AllocError>
    ensures { IfOk result (λ m. Stepped (settled program.now)
        (rule.from_measure (settled program.now) (rules (settled program.now)) (string_bytes v.now.value.name.value) (function_of v.now.value.function.value)
        (function_of v.now.value.function.value).decreases (state_of state)) conts.old.sides.items m conts.new.sides.items) }
{
    match &v.function.measure {
        None => step_run(alloc, program, v, state, conts),
        Some(m) => step_kind(alloc, program, v, m, state, conts),
    }
}

//! The stack of sides, and the steps that the rules are made of.

ghost use Rattle.std.specs.Prelude.{◌≡◌, ◌++◌, ◌∷◌, ◌||◌, [], true, false, IfOk, map};
ghost use Rattle.vx_resolved.specs.Resolved.{expr, exprs};
ghost use Rattle.vx_ast.specs.Syntax.{Program};
ghost use Rattle.vx_rules.specs.Members.{rules};
ghost use Rattle.vx_rules.specs.Rules as rule;
ghost use Rattle.vx_rules.specs.Codes.{code as code_of};
ghost use Rattle.vx_rules.specs.States.{is_quiet, with_fact, with_branch};
ghost use Rattle.vx_stack.specs.Stack.{going, giving, giving_all, frame_tree, side_tree, Stepped, query as question_of};
ghost use Rattle.vx_stack.specs.Values.{values as values_of};
ghost use Rattle.vx_states.specs.SymStates.{state as state_of};
ghost use Rattle.vx_rules.specs.Trees as tree;
ghost use Rattle.vx_terms.specs.Build.{true_term, false_term};
ghost use Rattle.vx_terms.specs.Terms.{same};
ghost use Rattle.vx_heap.specs.Views.{held_term};
ghost use Rattle.vx_terms.specs.Views.{term};
ghost use Rattle.vx_resolved.specs.Settled.{settled};

use crate::{Frame, Hole, Next, Query, Row, Side, Values};
use std::alloc::{AllocError, Global};
use std::rc::Rc;
use vx_ast::Place;
use vx_resolved::{Expr, Exprs, Settled};
use vx_rules::Code;
use vx_states::SymState;
use vx_terms::{Term, make};

/// The sides that are still to be walked, the next one last; and how many segments were opened, one for each side of a fork.
#[derive(Drop)]
pub struct Conts {
    pub sides: Vec<Side>,
    pub opened: u64,
}

/// The value and the state that an evaluation leaves on a side.
#[derive(Drop)]
pub struct Left {
    pub value: Rc<Term>,
    pub state: SymState,
}

/// What a step came to. Of a probe that is checked both candidates wait, the one where it is refuted on top.
#[derive(Drop)]
pub enum Move {
    /// The side is over.
    End,
    /// The side is over, and an evaluation leaves this.
    Leave(Left),
    Go,
    Fork,
    Check(Query),
}

/// The question of a condition in a state.
fn question(
    condition: &Rc<Term>,
    place: Place,
    code: Code,
    probe: bool,
    state: &SymState,
) -> Result<Query, AllocError>
    ensures question { IfOk result (λ q. Rattle.vx_stack.specs.Stack.query q ≡ rule.question probe (held_term condition.now) place (code_of code) (state_of state.now)) }
    ensures probe { IfOk result (λ q. q.probe ≡ probe) }
{
    Ok(Query {
        place,
        code,
        path: state.path.path.copy()?,
        count: state.path.count,
        condition: condition.clone()?,
        probe,
    })
}

fn is_true(condition: &Term) -> bool
    ensures { result ≡ same (term condition.now) true_term }
{
    condition.is_same(&Term::Truth(true))
}

fn is_false(condition: &Term) -> bool
    ensures { result ≡ same (term condition.now) false_term }
{
    condition.is_same(&Term::Truth(false))
}

/// Whether an ask passes unasked.
fn passes(condition: &Term, state: &SymState) -> bool
    ensures { result ≡ (same (term condition.now) true_term || is_quiet (state_of state.now)) }
{
    condition.is_same(&Term::Truth(true)) || state.is_quiet()
}

/// The numbers of two segments that are opened now, of which so many were opened before. Where there are no more, memory runs out.
fn next_segments(opened: &mut u64) -> Result<(u64, u64), AllocError> {
    let first = *opened;
    if first >= u64::MAX - 1 {
        return Err(AllocError);
    }
    *opened = first + 2;
    Ok((first + 1, first + 2))
}

/// A state once more for each side of a fork, in these segments: where the condition holds, and where its negation does.
fn branches(
    alloc: Global,
    condition: Rc<Term>,
    negated: Rc<Term>,
    state: SymState,
    segments: (u64, u64),
) -> Result<(SymState, SymState), AllocError>
    ensures first { IfOk result (λ x. state_of x.0 ≡ with_branch (held_term condition) (state_of state)) }
    ensures second { IfOk result (λ x. state_of x.1 ≡ with_branch (held_term negated) (state_of state)) }
{
    let mut first = state.copy(alloc)?;
    let mut second = state;
    first.open(segments.0);
    second.open(segments.1);
    first.add_branch(alloc, condition)?;
    second.add_branch(alloc, negated)?;
    Ok((first, second))
}

/// A side on which this state is impossible.
fn impossible(alloc: Global, state: &SymState) -> Result<Side, AllocError>
    ensures { (p : Program) → IfOk result (λ side. side_tree p side ≡ tree.Impossible (state_of state.now)) }
{
    let next = Rc::new(alloc, Next::Impossible)?;
    let state = state.copy(alloc)?;
    Ok(Side {
        frame: Frame::Go(next),
        state,
    })
}

impl Conts {
    /// An empty stack. No memory.
    pub fn new(alloc: Global) -> Conts
        ensures { result.sides.items ≡ [] }
    {
        Conts {
            sides: Vec::new(alloc),
            opened: 0,
        }
    }

    /// The same stack once more.
    pub fn copy(&self, alloc: Global) -> Result<Conts, AllocError>
        ensures { IfOk result (λ copy. (p : Program) → map (side_tree p) copy.sides.items ≡ map (side_tree p) self.now.sides.items) }
    {
        let mut sides = Vec::new(alloc);
        for side in &self.sides {
            sides.push(side.copy(alloc)?)?;
        }
        Ok(Conts {
            sides,
            opened: self.opened,
        })
    }

    /// Puts a side on top: this frame goes on from this state.
    ///
    /// # Errors
    /// Memory runs out.
    pub fn push(&mut self, frame: Frame, state: SymState) -> Result<(), AllocError>
        ensures { IfOk result (λ _. self.new.sides.items ≡ self.old.sides.items ++ record { frame = frame; state = state } ∷ []) }
    {
        self.sides.push(Side { frame, state })?;
        Ok(())
    }

    /// On with this frame.
    pub fn go(
        &mut self,
        program: &Settled,
        frame: Frame,
        state: SymState,
    ) -> Result<Move, AllocError>
        ensures { IfOk result (λ m. Stepped (settled program.now) (tree.Step (frame_tree (settled program.now) frame (state_of state))) self.old.sides.items m self.new.sides.items) }
    {
        let _program = program;
        self.push(frame, state)?;
        Ok(Move::Go)
    }

    /// On with the value of an expression.
    pub fn eval(
        &mut self,
        alloc: Global,
        program: &Settled,
        e: &Rc<Expr>,
        hole: Hole,
        state: SymState,
    ) -> Result<Move, AllocError>
        ensures { IfOk result (λ m. Stepped (settled program.now)
            (tree.Step (rule.eval (settled program.now) (rules (settled program.now)) (expr e.now.value) (state_of state) (giving (settled program.now) hole)))
            self.old.sides.items m self.new.sides.items) }
    {
        let hole = Rc::new(alloc, hole)?;
        self.go(program, Frame::Eval(e.clone()?, hole), state)
    }

    /// On with the values of expressions, in order.
    pub fn evals(
        &mut self,
        alloc: Global,
        program: &Settled,
        es: &Rc<Exprs>,
        row: Row,
        state: SymState,
    ) -> Result<Move, AllocError>
        ensures { IfOk result (λ m. Stepped (settled program.now)
            (tree.Step (rule.evals (settled program.now) (rules (settled program.now)) (exprs es.now.value) (state_of state)
            (giving_all (settled program.now) row))) self.old.sides.items m self.new.sides.items) }
    {
        let row = Rc::new(alloc, row)?;
        self.next(alloc, program, Next::Evals(es.clone()?, row), state)
    }

    /// On with values.
    pub fn give_all(
        &mut self,
        program: &Settled,
        values: Rc<Values>,
        row: &Rc<Row>,
        state: SymState,
    ) -> Result<Move, AllocError>
        ensures { IfOk result (λ m. Stepped (settled program.now)
            (tree.Step (giving_all (settled program.now) row.now.value (values_of values.value) (state_of state))) self.old.sides.items m self.new.sides.items) }
    {
        self.go(program, Frame::GiveAll(values, row.clone()?), state)
    }

    /// On with a value.
    pub fn give(
        &mut self,
        program: &Settled,
        value: Rc<Term>,
        hole: &Rc<Hole>,
        state: SymState,
    ) -> Result<Move, AllocError>
        ensures { IfOk result (λ m. Stepped (settled program.now) (tree.Step (giving (settled program.now) hole.now.value (held_term value) (state_of state)))
            self.old.sides.items m self.new.sides.items) }
    {
        self.go(program, Frame::Give(value, hole.clone()?), state)
    }

    /// On with what waits for a state.
    pub fn next(
        &mut self,
        alloc: Global,
        program: &Settled,
        next: Next,
        state: SymState,
    ) -> Result<Move, AllocError>
        ensures { IfOk result (λ m. Stepped (settled program.now) (tree.Step (going (settled program.now) next (state_of state))) self.old.sides.items m self.new.sides.items) }
    {
        let next = Rc::new(alloc, next)?;
        self.go(program, Frame::Go(next), state)
    }

    /// On with a side.
    fn on(&mut self, side: Side) -> Result<Move, AllocError>
        ensures { (p : Program) → IfOk result (λ m. Stepped p (tree.Step (side_tree p side)) self.old.sides.items m self.new.sides.items) }
    {
        self.sides.push(side)?;
        Ok(Move::Go)
    }

    /// A question, and this frame where its condition holds.
    fn check(
        &mut self,
        alloc: Global,
        query: Query,
        condition: Rc<Term>,
        state: SymState,
        frame: Frame,
    ) -> Result<Move, AllocError>
        requires { query.probe ≡ false }
        ensures { (p : Program) → IfOk result (λ m. Stepped p (tree.Ask (question_of query)
            (frame_tree p frame (with_fact (held_term condition) (state_of state)))) self.old.sides.items m self.new.sides.items) }
    {
        let mut state = state;
        state.add_fact(alloc, condition)?;
        self.push(frame, state)?;
        Ok(Move::Check(query))
    }

    /// The question of a false condition: where it is refuted, the state is impossible.
    fn check_impossible(
        &mut self,
        alloc: Global,
        query: Query,
        state: SymState,
    ) -> Result<Move, AllocError>
        requires { query.probe ≡ false }
        ensures { (p : Program) → IfOk result (λ m. Stepped p (tree.Ask (question_of query) (tree.Impossible (state_of state))) self.old.sides.items m self.new.sides.items) }
    {
        let impossible = Rc::new(alloc, Next::Impossible)?;
        self.push(Frame::Go(impossible), state)?;
        Ok(Move::Check(query))
    }

    /// A probe, with both its sides.
    fn check_both(
        &mut self,
        query: Query,
        refuted: Side,
        otherwise: Side,
    ) -> Result<Move, AllocError>
        requires { query.probe ≡ true }
        ensures { (p : Program) → IfOk result (λ m. Stepped p (tree.Probe (question_of query) (side_tree p refuted) (side_tree p otherwise)) self.old.sides.items m self.new.sides.items) }
    {
        self.sides.push(otherwise)?;
        self.sides.push(refuted)?;
        Ok(Move::Check(query))
    }

    /// The probe of a false condition: where it is refuted, the state is impossible.
    fn check_otherwise(
        &mut self,
        alloc: Global,
        query: Query,
        otherwise: Side,
    ) -> Result<Move, AllocError>
        requires { query.probe ≡ true }
        ensures { (p : Program) → IfOk result (λ m. Stepped p (tree.Probe (question_of query) (tree.Impossible (state_of otherwise.state))
            (side_tree p otherwise)) self.old.sides.items m self.new.sides.items) }
    {
        let refuted = impossible(alloc, &otherwise.state)?;
        self.check_both(query, refuted, otherwise)
    }

    /// Ask: on with this frame where the condition holds. In a quiet state nothing is asked.
    pub fn ask(
        &mut self,
        alloc: Global,
        program: &Settled,
        condition: Rc<Term>,
        place: Place,
        code: Code,
        state: SymState,
        frame: Frame,
    ) -> Result<Move, AllocError>
        ensures { IfOk result (λ m. Stepped (settled program.now)
            (rule.ask (held_term condition) place (code_of code) (state_of state) (frame_tree (settled program.now) frame)) self.old.sides.items m
            self.new.sides.items) }
    {
        if passes(&condition, &state) {
            return self.go(program, frame, state);
        }
        let query = question(&condition, place, code, false, &state)?;
        if is_false(&condition) {
            return self.check_impossible(alloc, query, state);
        }
        self.check(alloc, query, condition, state, frame)
    }

    /// Where no candidate is left: false is asked. In a quiet state the side is over.
    pub fn never(
        &mut self,
        alloc: Global,
        program: &Settled,
        place: Place,
        code: Code,
        state: SymState,
    ) -> Result<Move, AllocError>
        ensures { IfOk result (λ m. Stepped (settled program.now) (rule.never place (code_of code) (state_of state)) self.old.sides.items m self.new.sides.items) }
    {
        let _program = program;
        if state.is_quiet() {
            return Ok(Move::End);
        }
        let never = make::boolean(alloc, false)?;
        let query = question(&never, place, code, false, &state)?;
        self.check_impossible(alloc, query, state)
    }

    /// Probe: on with one side where the condition is refuted, with the other where it isn't. It is asked in the
    /// other side's state; where that is quiet, only what is literally true passes.
    pub fn probe(
        &mut self,
        alloc: Global,
        program: &Settled,
        condition: &Rc<Term>,
        place: Place,
        code: Code,
        refuted: Side,
        otherwise: Side,
    ) -> Result<Move, AllocError>
        ensures { IfOk result (λ m. Stepped (settled program.now)
            (rule.probe (held_term condition.now) place (code_of code) (state_of otherwise.state) (side_tree (settled program.now) refuted)
            (side_tree (settled program.now) otherwise)) self.old.sides.items m self.new.sides.items) }
    {
        let _program = program;
        if is_true(condition) {
            return self.on(refuted);
        }
        if otherwise.state.is_quiet() {
            return self.on(otherwise);
        }
        let query = question(condition, place, code, true, &otherwise.state)?;
        if is_false(condition) {
            return self.check_otherwise(alloc, query, otherwise);
        }
        self.check_both(query, refuted, otherwise)
    }

    /// Fork: on with one frame where the condition holds, with the other where it doesn't.
    pub fn fork(
        &mut self,
        alloc: Global,
        program: &Settled,
        condition: Rc<Term>,
        state: SymState,
        left: Frame,
        right: Frame,
    ) -> Result<Move, AllocError>
        ensures { IfOk result (λ m. Stepped (settled program.now)
            (rule.fork (held_term condition) (state_of state) (frame_tree (settled program.now) left) (frame_tree (settled program.now) right))
            self.old.sides.items m self.new.sides.items) }
    {
        if state.is_known(&condition) {
            return self.go(program, left, state);
        }
        let negated = make::not(alloc, &condition)?;
        if state.is_known(&negated) {
            return self.go(program, right, state);
        }
        let segments = next_segments(&mut self.opened)?;
        let (first, second) = branches(alloc, condition, negated, state, segments)?;
        self.push_both(program, left, first, right, second)
    }

    /// Two sides, the first one first, each in a segment of its own.
    pub fn both(
        &mut self,
        program: &Settled,
        left: Frame,
        first: SymState,
        right: Frame,
        second: SymState,
    ) -> Result<Move, AllocError>
        ensures { IfOk result (λ m. Stepped (settled program.now)
            (tree.Fork (frame_tree (settled program.now) left (state_of first)) (frame_tree (settled program.now) right (state_of second))) self.old.sides.items
            m self.new.sides.items) }
    {
        let (of_first, of_second) = next_segments(&mut self.opened)?;
        let mut first = first;
        let mut second = second;
        first.open(of_first);
        second.open(of_second);
        self.push_both(program, left, first, right, second)
    }

    /// Two sides, the first one first.
    fn push_both(
        &mut self,
        program: &Settled,
        left: Frame,
        first: SymState,
        right: Frame,
        second: SymState,
    ) -> Result<Move, AllocError>
        ensures { IfOk result (λ m. Stepped (settled program.now)
            (tree.Fork (frame_tree (settled program.now) left (state_of first)) (frame_tree (settled program.now) right (state_of second))) self.old.sides.items
            m self.new.sides.items) }
    {
        let _program = program;
        self.push(right, second)?;
        self.push(left, first)?;
        Ok(Move::Fork)
    }
}

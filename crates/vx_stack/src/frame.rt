//! What a side does next, and what waits for it.

ghost use Rattle.std.specs.Prelude.{◌≡◌, IfOk};
ghost use Rattle.vx_ast.specs.Syntax.{Program};
ghost use Rattle.vx_stack.specs.Stack.{frame_tree, side_tree};

use crate::waiting::{
    Applied, Codes, Consumed, Consumption, Executed, Instance, Location, Operand, Produced,
    Production, Return, Search, Values, Verified,
};
use std::alloc::{AllocError, Global};
use std::rc::Rc;
use vx_ast::Place;
use vx_heap::SymHeap;
use vx_resolved::{Assertion, Block, Expr, Exprs, Method, Stmt};
use vx_rules::Code;
use vx_states::{Caller, SymState};
use vx_terms::{Sort, Term};

/// What waits for a state.
#[cycle(frames)]
pub enum Next {
    /// The side is over.
    Finish,
    /// The side is over since its state is impossible.
    Impossible,
    Exec(Rc<Stmt>, Rc<Next>),
    Block(Rc<Block>, Rc<Next>),
    /// A block within another: this many variables are kept at its end.
    Inner(Rc<Block>, usize, Rc<Next>),
    Produce(Rc<Assertion>, Rc<Production>, Rc<Next>),
    /// By this scale, read in the heap that it finds.
    Consume(Rc<Assertion>, Codes, Rc<Term>, Rc<Hole>),
    /// Read in the heap of an earlier start.
    ConsumeFrom(Rc<Assertion>, Rc<Consumption>, Rc<Hole>),
    /// A pure part was consumed: the heap is this one again.
    Unit(Rc<SymHeap>, Rc<Hole>),
    /// The sides of a method whose precondition was produced.
    Sides(Rc<Method>),
    /// An expression is evaluated.
    Eval(Rc<Expr>, Rc<Hole>),
    /// Expressions are evaluated in order.
    Evals(Rc<Exprs>, Rc<Row>),
    /// A location's amount, which isn't negative, is put; its chunk is inner or not.
    Put(Rc<Location>, Rc<Production>, bool, Rc<Next>),
    /// A location's amount, which isn't negative, is taken from this heap.
    Take(Rc<Location>, Code, Rc<SymHeap>, Rc<Hole>),
    /// An instance's amount, which isn't negative, is put; its chunk is inner or not.
    PutInstance(Rc<Instance>, Rc<Production>, bool, Rc<Next>),
    /// An instance's amount, which isn't negative, is taken from this heap.
    TakeInstance(Rc<Instance>, Code, Rc<SymHeap>, Rc<Hole>),
    /// The value is read in the first from this candidate on that is as wanted.
    ReadFrom(Rc<Search>, usize, Rc<Hole>),
    /// An amount is taken from the first from this candidate on that is as wanted; else it is 0, and a value of the
    /// sort is new.
    TakeFrom(Rc<Search>, usize, Rc<Term>, Sort, Rc<Taken>),
    /// The value of a field at a receiver, over all its candidates, whose sum was asked about.
    ReadOver(Rc<String>, Rc<Term>, Rc<Hole>),
    /// A location's amount is taken from all its candidates, whose sum was asked about.
    TakeOver(Rc<Location>, Rc<Hole>),
    /// A value is written to a field at a receiver, in all its candidates, whose sum was asked about.
    WriteOver(Rc<String>, Rc<Term>, Rc<Term>, Rc<Next>),
    /// A new value of a sort, in the place of one that was taken.
    Fresh(Sort, Rc<Taken>),
    /// An instance was taken, whose snapshot this is and from inside or not: its body is produced.
    Body(Rc<Instance>, Rc<Term>, bool, Rc<Next>),
    /// Back from the part of another member.
    Back(Rc<Caller>, Rc<Next>),
    /// Back from a callee.
    Return(Rc<Return>, Rc<Next>),
    /// The instance that measures an application is the first from this candidate on that is as wanted.
    MeasureFrom(Rc<Search>, usize, Rc<Applied>, Rc<Hole>),
    /// What an application tells, and then its value.
    Tell(Rc<Applied>, Rc<Hole>),
    /// The measure of a function whose precondition was produced.
    Measure(Rc<Verified>),
    /// The instance that a function's measure names is the first from this candidate on that is as wanted.
    RootFrom(Rc<Search>, usize, Rc<Verified>),
    /// The body of a function whose measure is no number.
    Run(Rc<Verified>),
}

/// What waits for a chunk that was taken.
#[cycle(frames)]
pub enum Taken {
    /// Its value alone.
    Value(Rc<Hole>),
    /// An instance that is exchanged for its body.
    Unfold(Rc<Instance>, Rc<Next>),
}

impl Drop for Taken {
    #[cycle(frames)]
    fn drop(self) {
        match self {
            Taken::Value(_hole) => {}
            Taken::Unfold(_instance, _next) => {}
        }
    }
}

/// What waits for the values of a list of expressions.
#[cycle(frames)]
pub enum Row {
    /// The value that stands before them.
    After(Rc<Term>, Rc<Row>),
    /// The arguments of an application, with the name of its function.
    Apply(Place, Rc<String>, Rc<Hole>),
    /// The arguments of an instance, before its share; its chunk is inner or not.
    Produce(Place, Rc<String>, Rc<Expr>, Rc<Production>, bool, Rc<Next>),
    /// The arguments of an instance, before its share; the heap that it is taken from.
    Consume(Place, Rc<String>, Rc<Expr>, Rc<Consumption>, Rc<SymHeap>, Rc<Hole>),
    /// The arguments of an `unfolding`, after its amount.
    Unfolding(Place, Rc<String>, Rc<Term>, Rc<Next>),
    /// The arguments of an `unfold`, after its amount.
    Unfold(Place, Rc<String>, Rc<Term>, Rc<Next>),
    /// The arguments of a `fold`, after its amount.
    Fold(Place, Rc<String>, Rc<Term>, Rc<Next>),
    /// The arguments of a call, with its targets and the name of its method.
    Call(Place, Rc<Vec<Rc<String>>>, Rc<String>, Rc<Next>),
    /// The arguments of the instance that measures an application, with the name of its predicate.
    Measured(Rc<Applied>, Rc<String>, Rc<Caller>, Rc<Hole>),
    /// The arguments of the instance that measures a function, with the name of its predicate.
    Root(Rc<Verified>, Place, Rc<String>),
}

/// What waits for a value.
#[cycle(frames)]
pub enum Hole {
    /// The side is over.
    Finish,
    /// The value is what the evaluation leaves.
    Leave,
    /// The measure of a function, at its entry.
    Entry(Rc<Verified>),
    /// The value of a function's body.
    Outcome(Rc<Verified>),
    Operand(Operand, Rc<Hole>),
    /// The first of a list, before the others.
    Argument(Rc<Exprs>, Rc<Row>),
    Consumed(Consumed, Rc<Hole>),
    Produced(Produced, Rc<Next>),
    Executed(Executed, Rc<Next>),
}

/// A chain is let go link by link: a member of many clauses has a long one.
impl Drop for Next {
    #[cycle(frames)]
    fn drop(mut self) {
        loop {
            let rest = match self {
                Next::Finish => return,
                Next::Impossible => return,
                Next::Exec(_c, rest) => rest,
                Next::Block(_b, rest) => rest,
                Next::Inner(_b, _kept, rest) => rest,
                Next::Produce(_a, _x, rest) => rest,
                Next::Consume(_a, _codes, _scale, _hole) => return,
                Next::ConsumeFrom(_a, _x, _hole) => return,
                Next::Unit(_start, _hole) => return,
                Next::Sides(_m) => return,
                Next::Eval(_e, _hole) => return,
                Next::Evals(_es, _row) => return,
                Next::Put(_location, _x, _inner, rest) => rest,
                Next::Take(_location, _code, _heap, _hole) => return,
                Next::PutInstance(_instance, _x, _inner, rest) => rest,
                Next::TakeInstance(_instance, _code, _heap, _hole) => return,
                Next::ReadFrom(_search, _number, _hole) => return,
                Next::TakeFrom(_search, _number, _amount, _sort, _taken) => return,
                Next::ReadOver(_field, _receiver, _hole) => return,
                Next::TakeOver(_location, _hole) => return,
                Next::WriteOver(_field, _receiver, _value, rest) => rest,
                Next::Fresh(_sort, _taken) => return,
                Next::Body(_instance, _snapshot, _inner, rest) => rest,
                Next::Back(_caller, rest) => rest,
                Next::Return(_return, rest) => rest,
                Next::MeasureFrom(_search, _number, _applied, _hole) => return,
                Next::Tell(_applied, _hole) => return,
                Next::Measure(_verified) => return,
                Next::RootFrom(_search, _number, _verified) => return,
                Next::Run(_verified) => return,
            };
            match Rc::into_inner(rest) {
                Some(next) => self = next,
                None => return,
            }
        }
    }
}

impl Drop for Hole {
    #[cycle(frames)]
    fn drop(mut self) {
        loop {
            let rest = match self {
                Hole::Finish => return,
                Hole::Leave => return,
                Hole::Entry(_verified) => return,
                Hole::Outcome(_verified) => return,
                Hole::Operand(_operand, rest) => rest,
                Hole::Argument(_es, _row) => return,
                Hole::Consumed(_consumed, rest) => rest,
                Hole::Produced(_produced, _next) => return,
                Hole::Executed(_executed, _next) => return,
            };
            match Rc::into_inner(rest) {
                Some(hole) => self = hole,
                None => return,
            }
        }
    }
}

impl Drop for Row {
    #[cycle(frames)]
    fn drop(mut self) {
        loop {
            let rest = match self {
                Row::After(_value, rest) => rest,
                Row::Apply(_place, _name, _hole) => return,
                Row::Produce(_place, _name, _share, _x, _inner, _next) => return,
                Row::Consume(_place, _name, _share, _x, _heap, _hole) => return,
                Row::Unfolding(_place, _name, _amount, _next) => return,
                Row::Unfold(_place, _name, _amount, _next) => return,
                Row::Fold(_place, _name, _amount, _next) => return,
                Row::Call(_place, _targets, _name, _next) => return,
                Row::Measured(_applied, _name, _caller, _hole) => return,
                Row::Root(_verified, _place, _name) => return,
            };
            match Rc::into_inner(rest) {
                Some(row) => self = row,
                None => return,
            }
        }
    }
}

/// What a side does next.
pub enum Frame {
    Go(Rc<Next>),
    Eval(Rc<Expr>, Rc<Hole>),
    Give(Rc<Term>, Rc<Hole>),
    GiveAll(Rc<Values>, Rc<Row>),
}

impl Drop for Frame {
    fn drop(self) {
        match self {
            Frame::Go(_next) => {}
            Frame::Eval(_e, _hole) => {}
            Frame::Give(_value, _hole) => {}
            Frame::GiveAll(_values, _row) => {}
        }
    }
}

/// A side that is still to be walked.
#[derive(Drop)]
pub struct Side {
    pub frame: Frame,
    pub state: SymState,
}

impl Frame {
    /// The same frame once more.
    pub fn copy(&self) -> Result<Frame, AllocError>
        ensures { IfOk result (λ copy. (p : Program) → frame_tree p copy ≡ frame_tree p self.now) }
    {
        match self {
            Frame::Go(next) => Ok(Frame::Go(next.clone()?)),
            Frame::Eval(e, hole) => Ok(Frame::Eval(e.clone()?, hole.clone()?)),
            Frame::Give(value, hole) => Ok(Frame::Give(value.clone()?, hole.clone()?)),
            Frame::GiveAll(values, row) => Ok(Frame::GiveAll(values.clone()?, row.clone()?)),
        }
    }
}

impl Side {
    /// The same side once more.
    pub fn copy(&self, alloc: Global) -> Result<Side, AllocError>
        ensures { IfOk result (λ copy. (p : Program) → side_tree p copy ≡ side_tree p self.now) }
    {
        Ok(Side {
            frame: self.frame.copy()?,
            state: self.state.copy(alloc)?,
        })
    }
}

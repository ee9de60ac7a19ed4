//! What of an expression, an assertion or a statement waits for a value.

ghost use Rattle.std.specs.Prelude.{◌≡◌, IfOk, None};
ghost use Rattle.vx_terms.specs.Build.{whole_amount};
ghost use Rattle.vx_heap.specs.Views.{terms_of, held_term};
ghost use Rattle.vx_stack.specs.Values.{values};

use std::alloc::{AllocError, Global};
use std::rc::Rc;
use vx_ast::Place;
use vx_heap::{Candidate, SymHeap};
use vx_resolved::{
    Assertion, Block, Connective, Division, Expr, Exprs, Function, Method, Operator,
};
use vx_rules::Code;
use vx_states::Caller;
use vx_terms::Term;

/// The codes of a consume: of a pure part, and of a permission.
#[derive(Clone, Copy)]
pub struct Codes {
    pub pure: Code,
    pub permission: Code,
    /// Facts tell the parts of what it builds.
    pub builds: bool,
}

/// How an assertion is produced.
pub struct Production {
    /// Each amount is multiplied by it.
    pub scale: Rc<Term>,
    pub snapshot: Option<Rc<Term>>,
}

impl Drop for Production {
    fn drop(self) {
        let Self { scale, snapshot } = self;
    }
}

/// How an assertion is consumed.
pub struct Consumption {
    pub codes: Codes,
    /// Each amount is multiplied by it.
    pub scale: Rc<Term>,
    /// The heap of the start, in which expressions are read.
    pub start: Rc<SymHeap>,
}

impl Drop for Consumption {
    fn drop(self) {
        let Self {
            codes,
            scale,
            start,
        } = self;
    }
}

impl Production {
    /// As it is written, without a snapshot.
    pub fn as_written(alloc: Global) -> Result<Rc<Production>, AllocError>
        ensures scale { IfOk result (λ x. held_term x.value.scale ≡ whole_amount) }
        ensures snapshot { IfOk result (λ x. x.value.snapshot ≡ None) }
    {
        let scale = vx_heap::whole(alloc)?;
        Ok(Rc::new(
            alloc,
            Production {
                scale,
                snapshot: None,
            },
        )?)
    }
}

/// What is looked for among the candidates of a heap: one with these arguments and this amount or more, or with some.
pub struct Search {
    pub place: Place,
    pub code: Code,
    pub arguments: Vec<Rc<Term>>,
    pub amount: Option<Rc<Term>>,
    pub candidates: Vec<Candidate>,
}

impl Drop for Search {
    fn drop(self) {
        let Self {
            place,
            code,
            arguments,
            amount,
            candidates,
        } = self;
    }
}

/// An amount of a field's location, whose place is that of its `acc`.
pub struct Location {
    pub place: Place,
    pub field: Rc<String>,
    pub receiver: Rc<Term>,
    pub amount: Rc<Term>,
}

impl Drop for Location {
    fn drop(self) {
        let Self {
            place,
            field,
            receiver,
            amount,
        } = self;
    }
}

/// An amount of a predicate's instance, whose place is that of its `acc`.
pub struct Instance {
    pub place: Place,
    pub predicate: Rc<String>,
    pub arguments: Rc<Values>,
    pub amount: Rc<Term>,
}

impl Drop for Instance {
    fn drop(self) {
        let Self {
            place,
            predicate,
            arguments,
            amount,
        } = self;
    }
}

/// Values in order, any end of which frames can share.
pub enum Values {
    None,
    More(Rc<Term>, Rc<Values>),
}

impl Values {
    /// The same values as an array.
    pub fn to_vec(&self, alloc: Global) -> Result<Vec<Rc<Term>>, AllocError>
        ensures { IfOk result (λ v. terms_of v.items ≡ values self.now) }
    {
        let mut terms = Vec::new(alloc);
        let mut left = self;
        loop {
            match left {
                Values::None => return Ok(terms),
                Values::More(first, rest) => {
                    terms.push(first.clone()?)?;
                    left = rest;
                }
            }
        }
    }
}

impl Drop for Values {
    fn drop(mut self) {
        loop {
            match self {
                Values::None => return,
                Values::More(_first, rest) => match Rc::into_inner(rest) {
                    Some(next) => self = next,
                    None => return,
                },
            }
        }
    }
}

/// A call whose precondition is taken.
pub struct Called {
    pub method: Rc<Method>,
    /// How many arguments it has.
    pub count: usize,
    pub targets: Rc<Vec<Rc<String>>>,
    pub caller: Rc<Caller>,
    /// The heap before the call.
    pub heap: Rc<SymHeap>,
    /// The caller's old heap.
    pub old_heap: Rc<SymHeap>,
}

impl Drop for Called {
    fn drop(self) {
        let Self {
            method,
            count,
            targets,
            caller,
            heap,
            old_heap,
        } = self;
    }
}

/// A call whose postcondition is produced: the values that go to its targets.
pub struct Return {
    pub targets: Rc<Vec<Rc<String>>>,
    pub values: Vec<Rc<Term>>,
    pub caller: Rc<Caller>,
    /// The caller's old heap.
    pub old_heap: Rc<SymHeap>,
}

impl Drop for Return {
    fn drop(self) {
        let Self {
            targets,
            values,
            caller,
            old_heap,
        } = self;
    }
}

/// An application, after its arguments.
pub struct Application {
    pub place: Place,
    pub name: Rc<String>,
    pub function: Rc<Function>,
    pub arguments: Rc<Values>,
}

impl Drop for Application {
    fn drop(self) {
        let Self {
            place,
            name,
            function,
            arguments,
        } = self;
    }
}

/// An application whose precondition was taken: the name of its snapshot.
pub struct Applied {
    pub application: Rc<Application>,
    pub snapshot: Rc<Term>,
}

impl Drop for Applied {
    fn drop(self) {
        let Self {
            application,
            snapshot,
        } = self;
    }
}

/// A function that is verified, with its name.
pub struct Verified {
    pub name: Rc<String>,
    pub function: Rc<Function>,
}

impl Drop for Verified {
    fn drop(self) {
        let Self { name, function } = self;
    }
}

/// A loop, its invariants joined.
pub struct Loop {
    pub condition: Rc<Expr>,
    pub invariant: Rc<Assertion>,
    pub body: Rc<Block>,
}

impl Drop for Loop {
    fn drop(self) {
        let Self {
            condition,
            invariant,
            body,
        } = self;
    }
}

/// What of an expression waits for the value of an operand.
pub enum Operand {
    Negate,
    OperateRight(Operator, Rc<Expr>),
    OperateWith(Operator, Rc<Term>),
    DivideRight(Place, Division, Rc<Expr>),
    DivideWith(Place, Division, Rc<Term>),
    ConnectRight(Connective, Rc<Expr>),
    ConnectWith(Connective, Rc<Term>),
    /// The right part is looked at on one side alone.
    ConnectSides(Connective, Rc<Expr>),
    ChooseThen(Rc<Expr>, Rc<Expr>),
    ChooseElse(Rc<Term>, Rc<Expr>),
    ChooseWith(Rc<Term>, Rc<Term>),
    /// Each branch on a side of its own.
    ChooseSides(Rc<Expr>, Rc<Expr>),
    /// The receiver of a field that is read.
    Receiver(Place, Rc<String>),
    /// What stands in `old` or behind an `unfolding`: the heap behind it.
    Restore(Rc<SymHeap>),
    /// The amount of an `unfolding`, before the arguments: the predicate, these, the expression, and the heap behind it.
    Unfolding(Place, Rc<String>, Rc<Exprs>, Rc<Expr>, Rc<SymHeap>),
    /// The snapshot of an application's precondition: what it goes back to, and the heap behind it.
    Applied(Rc<Application>, Rc<Caller>, Rc<SymHeap>),
    /// The measure of an application within the group, against that of the function that is verified.
    Measured(Rc<Applied>, Option<Rc<Term>>, Rc<Caller>),
}

impl Drop for Operand {
    fn drop(self) {
        match self {
            Operand::Negate => {}
            Operand::OperateRight(_op, _right) => {}
            Operand::OperateWith(_op, _left) => {}
            Operand::DivideRight(_place, _op, _right) => {}
            Operand::DivideWith(_place, _op, _left) => {}
            Operand::ConnectRight(_op, _right) => {}
            Operand::ConnectWith(_op, _left) => {}
            Operand::ConnectSides(_op, _right) => {}
            Operand::ChooseThen(_left, _right) => {}
            Operand::ChooseElse(_condition, _right) => {}
            Operand::ChooseWith(_condition, _left) => {}
            Operand::ChooseSides(_left, _right) => {}
            Operand::Receiver(_place, _field) => {}
            Operand::Restore(_heap) => {}
            Operand::Unfolding(_place, _predicate, _es, _e, _heap) => {}
            Operand::Applied(_application, _caller, _heap) => {}
            Operand::Measured(_applied, _measure, _caller) => {}
        }
    }
}

/// What of a produce waits for a value.
pub enum Produced {
    /// A pure part, with this snapshot.
    Fact(Option<Rc<Term>>),
    /// The receiver of a location, before its share; its chunk is inner or not.
    Share(Place, Rc<String>, Rc<Expr>, Rc<Production>, bool),
    /// The share of a location, after its receiver.
    Amount(Place, Rc<String>, Rc<Term>, Rc<Production>, bool),
    /// The share of an instance, after its arguments.
    Held(Place, Rc<String>, Rc<Values>, Rc<Production>, bool),
    /// The condition of `==>`.
    Implied(Rc<Assertion>, Rc<Production>),
    /// The condition of `?:`.
    Chosen(Rc<Assertion>, Rc<Assertion>, Rc<Production>),
}

impl Drop for Produced {
    fn drop(self) {
        match self {
            Produced::Fact(_snapshot) => {}
            Produced::Share(_place, _field, _share, _x, _inner) => {}
            Produced::Amount(_place, _field, _receiver, _x, _inner) => {}
            Produced::Held(_place, _predicate, _values, _x, _inner) => {}
            Produced::Implied(_a, _x) => {}
            Produced::Chosen(_left, _right, _x) => {}
        }
    }
}

/// What of a consume waits for a value or a snapshot.
pub enum Consumed {
    /// The condition to ask for, and the heap behind it.
    Ask(Place, Code, Rc<SymHeap>),
    /// The left snapshot, before the right part.
    Right(Rc<Assertion>, Rc<Consumption>),
    /// The right snapshot, after the left one.
    With(Rc<Term>, Codes),
    /// The receiver of a location, before its share; the heap that it is taken from.
    Share(Place, Rc<String>, Rc<Expr>, Rc<Consumption>, Rc<SymHeap>),
    /// The share of a location, after its receiver; the heap that it is taken from.
    Amount(Place, Rc<String>, Rc<Term>, Rc<Consumption>, Rc<SymHeap>),
    /// The value of the location that was taken.
    Wrap(Rc<String>, Codes),
    /// The share of an instance, after its arguments; the heap that it is taken from.
    Held(Place, Rc<String>, Rc<Values>, Rc<Consumption>, Rc<SymHeap>),
    /// The snapshot of the instance that was taken.
    Snapshot,
    /// The condition of `==>`, and the heap behind it.
    Implied(Rc<Assertion>, Rc<Consumption>, Rc<SymHeap>),
    /// The condition of `?:`, and the heap behind it.
    Chosen(Rc<Assertion>, Rc<Assertion>, Rc<Consumption>, Rc<SymHeap>),
}

impl Drop for Consumed {
    fn drop(self) {
        match self {
            Consumed::Ask(_place, _code, _heap) => {}
            Consumed::Right(_a, _x) => {}
            Consumed::With(_left, _codes) => {}
            Consumed::Share(_place, _field, _share, _x, _heap) => {}
            Consumed::Amount(_place, _field, _receiver, _x, _heap) => {}
            Consumed::Wrap(_field, _codes) => {}
            Consumed::Held(_place, _predicate, _values, _x, _heap) => {}
            Consumed::Snapshot => {}
            Consumed::Implied(_a, _x, _heap) => {}
            Consumed::Chosen(_left, _right, _x, _heap) => {}
        }
    }
}

/// What of a statement waits for a value.
pub enum Executed {
    Assign(Rc<String>),
    Assume,
    /// Both blocks, and how many variables stand before them.
    If(Rc<Block>, Rc<Block>, usize),
    /// What was asserted stays: the heap of before.
    Asserted(Rc<SymHeap>),
    Exhaled,
    /// The receiver of a field that is written, before the value.
    Write(Place, Rc<String>, Rc<Expr>),
    /// The value, after the receiver.
    WriteWith(Place, Rc<String>, Rc<Term>),
    /// A loop's invariant was taken; so many variables stand before the loop.
    Enter(Rc<Loop>, usize),
    /// A loop's condition, in the arbitrary iteration.
    Iterate(Rc<Loop>, usize),
    /// A loop's condition, behind it.
    Pass,
    /// The amount of a `fold`, before the arguments.
    Fold(Place, Rc<String>, Rc<Exprs>),
    /// The amount of an `unfold`, before the arguments.
    Unfold(Place, Rc<String>, Rc<Exprs>),
    /// A body was taken: the instance that is put for it.
    Folded(Rc<Instance>, Rc<Caller>),
    /// A precondition was taken.
    Called(Rc<Called>),
}

impl Drop for Executed {
    fn drop(self) {
        match self {
            Executed::Assign(_name) => {}
            Executed::Assume => {}
            Executed::If(_left, _right, _kept) => {}
            Executed::Asserted(_heap) => {}
            Executed::Exhaled => {}
            Executed::Write(_place, _field, _e) => {}
            Executed::WriteWith(_place, _field, _receiver) => {}
            Executed::Enter(_loop, _kept) => {}
            Executed::Iterate(_loop, _kept) => {}
            Executed::Pass => {}
            Executed::Fold(_place, _predicate, _es) => {}
            Executed::Unfold(_place, _predicate, _es) => {}
            Executed::Folded(_instance, _caller) => {}
            Executed::Called(_called) => {}
        }
    }
}

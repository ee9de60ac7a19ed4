//! The syntax that is executed, settled once: names stand for what they name, assertions stand apart from expressions,
//! `&&` at an assertion's top is taken apart, and `var x: T := e` is two statements.
//! Values are let go by impls of `Drop`: a derived one is proved again in each crate that lets one go.
#![tactic(auto)]

mod functions;
mod lookups;
mod numbers;
mod settled;

pub use numbers::{Numbers, member_numbers};
pub use settled::Settled;
use std::rc::Rc;
use vx_ast::{Place, ValueType};

/// An operator both of whose operands are evaluated.
#[derive(Clone, Copy)]
pub enum Operator {
    Equal,
    Less,
    LessEqual,
    Greater,
    GreaterEqual,
    Add,
    Subtract,
    Multiply,
}

/// `\` and `%`: the divisor is asked about.
#[derive(Clone, Copy)]
pub enum Division {
    Quotient,
    Remainder,
}

/// `&&`, `||`, `==>`: the right part is looked at only where it is needed.
#[derive(Clone, Copy)]
pub enum Connective {
    And,
    Or,
    Implies,
}

/// An expression; each has its place.
#[cycle(exprs)]
pub enum Expr {
    Number(Place, u128),
    Truth(Place, bool),
    Null(Place),
    /// `n/d`; `write` is 1/1, `none` is 0/1.
    Part(Place, u128, u128),
    Variable(Place, Rc<String>),
    Not(Place, Rc<Expr>),
    Operate(Place, Operator, Rc<Expr>, Rc<Expr>),
    Divide(Place, Division, Rc<Expr>, Rc<Expr>),
    Connect(Place, Connective, Rc<Expr>, Rc<Expr>),
    Choose(Place, Rc<Expr>, Rc<Expr>, Rc<Expr>),
    /// `e.f`.
    Read(Place, Rc<Expr>, Rc<String>),
    Old(Place, Rc<Expr>),
    /// `f(es)`.
    Apply(Place, Rc<String>, Rc<Exprs>),
    /// `unfolding acc(P(es), p) in e`: the arguments, the amount and the expression.
    Unfolding(Place, Rc<String>, Rc<Exprs>, Rc<Expr>, Rc<Expr>),
}

impl Drop for Expr {
    #[cycle(exprs)]
    fn drop(self) {
        match self {
            Expr::Number(_place, _value) => {}
            Expr::Truth(_place, _value) => {}
            Expr::Null(_place) => {}
            Expr::Part(_place, _numerator, _denominator) => {}
            Expr::Variable(_place, _name) => {}
            Expr::Not(_place, _e) => {}
            Expr::Operate(_place, _op, _left, _right) => {}
            Expr::Divide(_place, _op, _left, _right) => {}
            Expr::Connect(_place, _op, _left, _right) => {}
            Expr::Choose(_place, _condition, _left, _right) => {}
            Expr::Read(_place, _receiver, _field) => {}
            Expr::Old(_place, _e) => {}
            Expr::Apply(_place, _function, _es) => {}
            Expr::Unfolding(_place, _predicate, _es, _amount, _e) => {}
        }
    }
}

/// A list of expressions, any end of which a suspended execution can share.
#[cycle(exprs)]
pub enum Exprs {
    NoMore,
    More(Rc<Expr>, Rc<Exprs>),
}

impl Drop for Exprs {
    #[cycle(exprs)]
    fn drop(mut self) {
        loop {
            match self {
                Exprs::NoMore => return,
                Exprs::More(_first, rest) => match Rc::into_inner(rest) {
                    Some(next) => self = next,
                    None => return,
                },
            }
        }
    }
}

/// What is assumed, or shown.
#[cycle(assertions)]
pub enum Assertion {
    /// No permission stands in it, and no `&&` at its top.
    Pure(Rc<Expr>),
    /// `acc(e.f, p)`.
    Points(Place, Rc<Expr>, Rc<String>, Rc<Expr>),
    /// `acc(P(es), p)`.
    Instance(Place, Rc<String>, Rc<Exprs>, Rc<Expr>),
    Both(Rc<Assertion>, Rc<Assertion>),
    /// `==>` with a permission in it.
    Implied(Rc<Expr>, Rc<Assertion>),
    /// `?:` with a permission in it.
    Chosen(Rc<Expr>, Rc<Assertion>, Rc<Assertion>),
}

impl Drop for Assertion {
    #[cycle(assertions)]
    fn drop(self) {
        match self {
            Assertion::Pure(_e) => {}
            Assertion::Points(_place, _receiver, _field, _amount) => {}
            Assertion::Instance(_place, _predicate, _es, _amount) => {}
            Assertion::Both(_left, _right) => {}
            Assertion::Implied(_condition, _a) => {}
            Assertion::Chosen(_condition, _left, _right) => {}
        }
    }
}

/// A variable with its type.
pub struct Declaration {
    pub name: Rc<String>,
    pub of: ValueType,
}

impl Drop for Declaration {
    fn drop(self) {
        let Self { name, of } = self;
    }
}

/// A statement with its place.
#[cycle(resolved)]
pub enum Stmt {
    Declare(Place, Rc<String>, ValueType),
    Assign(Place, Rc<String>, Rc<Expr>),
    /// `e.f := e'`.
    Write(Place, Rc<Expr>, Rc<String>, Rc<Expr>),
    /// A new reference, with the fields that are permitted.
    New(Place, Rc<String>, Rc<Vec<Rc<String>>>),
    /// The targets, the name of the method that is called, and the arguments.
    Call(Place, Rc<Vec<Rc<String>>>, Rc<String>, Rc<Exprs>),
    Inhale(Place, Rc<Assertion>),
    Exhale(Place, Rc<Assertion>),
    Assert(Place, Rc<Assertion>),
    Assume(Place, Rc<Expr>),
    /// `fold acc(P(es), p)`: the arguments and the amount.
    Fold(Place, Rc<String>, Rc<Exprs>, Rc<Expr>),
    Unfold(Place, Rc<String>, Rc<Exprs>, Rc<Expr>),
    If(Place, Rc<Expr>, Rc<Block>, Rc<Block>),
    /// The condition, the invariants and the body.
    While(Place, Rc<Expr>, Vec<Rc<Assertion>>, Rc<Block>),
}

impl Drop for Stmt {
    #[cycle(resolved)]
    fn drop(self) {
        match self {
            Stmt::Declare(_place, _name, _of) => {}
            Stmt::Assign(_place, _name, _e) => {}
            Stmt::Write(_place, _receiver, _field, _e) => {}
            Stmt::New(_place, _name, _fields) => {}
            Stmt::Call(_place, _targets, _method, _es) => {}
            Stmt::Inhale(_place, _a) => {}
            Stmt::Exhale(_place, _a) => {}
            Stmt::Assert(_place, _a) => {}
            Stmt::Assume(_place, _e) => {}
            Stmt::Fold(_place, _predicate, _es, _amount) => {}
            Stmt::Unfold(_place, _predicate, _es, _amount) => {}
            Stmt::If(_place, _condition, _left, _right) => {}
            Stmt::While(_place, _condition, _invariants, _body) => {}
        }
    }
}

/// A list of statements, any end of which a suspended execution can share.
#[cycle(resolved)]
pub enum Block {
    Done,
    Then(Rc<Stmt>, Rc<Block>),
}

impl Drop for Block {
    #[cycle(resolved)]
    fn drop(mut self) {
        loop {
            match self {
                Block::Done => return,
                Block::Then(_first, rest) => match Rc::into_inner(rest) {
                    Some(next) => self = next,
                    None => return,
                },
            }
        }
    }
}

/// A predicate: its place is its first token's.
pub struct Predicate {
    pub place: Place,
    pub parameters: Vec<Declaration>,
    pub body: Option<Rc<Assertion>>,
}

impl Drop for Predicate {
    fn drop(self) {
        let Self {
            place,
            parameters,
            body,
        } = self;
    }
}

/// What the applications within a function's own group are measured by.
pub enum Measure {
    Number(Rc<Expr>),
    /// An instance of a predicate, with its place.
    Instance(Place, Rc<String>, Rc<Exprs>),
}

impl Drop for Measure {
    fn drop(self) {
        match self {
            Measure::Number(_e) => {}
            Measure::Instance(_place, _predicate, _es) => {}
        }
    }
}

/// A function: its place is its first token's.
pub struct Function {
    pub place: Place,
    pub parameters: Vec<Declaration>,
    pub of: ValueType,
    pub preconditions: Vec<Rc<Assertion>>,
    pub postconditions: Vec<Rc<Expr>>,
    pub measure: Option<Measure>,
    pub body: Rc<Expr>,
}

impl Drop for Function {
    fn drop(self) {
        let Self {
            place,
            parameters,
            of,
            preconditions,
            postconditions,
            measure,
            body,
        } = self;
    }
}

/// A method: its place is its first token's.
pub struct Method {
    pub place: Place,
    pub parameters: Vec<Declaration>,
    pub returns: Vec<Declaration>,
    pub preconditions: Vec<Rc<Assertion>>,
    pub postconditions: Vec<Rc<Assertion>>,
    pub body: Option<Rc<Block>>,
}

impl Drop for Method {
    fn drop(self) {
        let Self {
            place,
            parameters,
            returns,
            preconditions,
            postconditions,
            body,
        } = self;
    }
}

/// What a member is.
pub enum Kind {
    Field(ValueType),
    Predicate(Rc<Predicate>),
    Function(Rc<Function>),
    Method(Rc<Method>),
}

impl Drop for Kind {
    fn drop(self) {
        match self {
            Kind::Field(_of) => {}
            Kind::Predicate(_predicate) => {}
            Kind::Function(_function) => {}
            Kind::Method(_method) => {}
        }
    }
}

pub struct Member {
    pub name: Rc<String>,
    pub kind: Kind,
}

impl Drop for Member {
    fn drop(self) {
        let Self { name, kind } = self;
    }
}

/// The members in file order.
pub struct Program {
    pub members: Vec<Member>,
}

impl Drop for Program {
    fn drop(self) {
        let Self { members } = self;
    }
}

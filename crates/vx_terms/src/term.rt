//! Terms, shared by counts.

ghost use Rattle.std.specs.Prelude.{◌<◌, IfSome};
ghost use Rattle.vx_terms.specs.declared.term.Term.{size-Term};
ghost use Rattle.vx_terms.specs.declared.term.Terms.{size-Terms};

use crate::Sort;
use std::rc::Rc;
use vx_frac::Frac;

/// A symbol: `s`, `f` or `v` with its number, or another declared name.
pub enum Symbol {
    Standard(u32),
    Function(u32),
    Variable(u64),
    Named(Rc<String>),
}

impl Drop for Symbol {
    fn drop(self) {
        match self {
            Symbol::Standard(_number) => {}
            Symbol::Function(_number) => {}
            Symbol::Variable(_number) => {}
            Symbol::Named(_name) => {}
        }
    }
}

/// An operator of two operands, of Core, Ints and Reals.
#[derive(Clone, Copy)]
pub enum Operator {
    And,
    Or,
    Implies,
    Equal,
    Less,
    LessEqual,
    Add,
    Subtract,
    Multiply,
    Div,
    Mod,
}

/// A term, which the constructors of this crate make.
#[cycle(terms)]
pub enum Term {
    Truth(bool),
    Number(i128),
    Part(Frac),
    /// A symbol without arguments.
    Constant(Symbol, Sort),
    /// A symbol with arguments, and the sort of the result.
    Apply(Symbol, Sort, Rc<Terms>),
    Not(Rc<Term>),
    Binary(Operator, Rc<Term>, Rc<Term>),
    Ite(Rc<Term>, Rc<Term>, Rc<Term>),
    /// `and` and `or` of three parts or more
    AllOf(Rc<Terms>),
    SomeOf(Rc<Terms>),
}

/// The first parts are let go one after the other: an amount that many statements changed is deep there, and of a choice
/// the value that many merges made is deep in its first branch.
impl Drop for Term {
    #[cycle(terms)]
    fn drop(mut self) {
        loop {
            let first = match self {
                Term::Truth(_) | Term::Number(_) | Term::Part(_) => return,
                Term::Constant(_f, _a) => return,
                Term::Apply(_f, _a, parts) => match first_of(parts) {
                    Some(first) => first,
                    None => return,
                },
                Term::AllOf(parts) | Term::SomeOf(parts) => match first_of(parts) {
                    Some(first) => first,
                    None => return,
                },
                Term::Not(first) => first,
                Term::Binary(_, first, _second) => first,
                Term::Ite(_condition, first, _second) => first,
            };
            match Rc::into_inner(first) {
                Some(next) => self = next,
                None => return,
            }
        }
    }
}

/// A list of terms.
#[cycle(terms)]
pub enum Terms {
    None,
    More(Rc<Term>, Rc<Terms>),
}

impl Terms {
    /// The first one; the others are let go.
    #[cycle(terms)]
    fn into_first(self) -> Option<Rc<Term>>
        ensures { IfSome result (λ t. size-Term t.value < size-Terms self) }
    {
        match self {
            Terms::None => None,
            Terms::More(first, _rest) => Some(first),
        }
    }
}

/// The first of some terms that nobody else holds; the others are let go.
#[cycle(terms)]
fn first_of(parts: Rc<Terms>) -> Option<Rc<Term>>
    ensures { IfSome result (λ t. size-Term t.value < size-Terms parts.value) }
{
    match Rc::into_inner(parts) {
        Some(parts) => parts.into_first(),
        None => None,
    }
}

/// The terms are let go one after the other: a list is as long as the input makes it.
impl Drop for Terms {
    #[cycle(terms)]
    fn drop(mut self) {
        loop {
            match self {
                Terms::None => return,
                Terms::More(_first, rest) => match Rc::into_inner(rest) {
                    Some(next) => self = next,
                    None => return,
                },
            }
        }
    }
}

//! Why an expression isn't typed.

ghost use Rattle.std.specs.Prelude.{◌≡◌};
ghost use Rattle.vx_expressions.specs.Printed.{place_of, code_of, title_of};
ghost use Rattle.vx_expressions.specs.Printed as printed;

use std::alloc::{AllocError, AllocFailed};
use std::fmt;
use thiserror::Error;
use vx_ast::{Place, ValueType};

/// What was expected in the place of a type.
#[derive(Clone, Copy, Debug)]
pub enum Expected {
    Type(ValueType),
    /// A numeral other than 0, right of `/`; any numeral, left of it.
    Numeral,
}

/// Why a program isn't typed, and where.
#[derive(Debug, Drop, Error)]
pub enum TypeFault {
    /// A name that isn't declared, or not of the kind needed.
    #[error("unknown {1}")]
    Unknown(Place, String),
    /// A name that is declared already.
    #[error("{1} is declared twice")]
    Twice(Place, String),
    /// What was expected, and the type that was found.
    #[error("mismatch")]
    Mismatch(Place, Expected, ValueType),
    /// A permission where a pure expression is due.
    #[error("impure")]
    Impure(Place),
    /// How many arguments or targets were expected, and how many were found.
    #[error("{1} expected, {2} found")]
    Arity(Place, usize, usize),
    /// A function that reaches itself and has no measure.
    #[error("no measure")]
    NoMeasure(Place),
    /// Functions of one group with both kinds of measure.
    #[error("mixed measures")]
    MixedMeasures(Place),
    /// An amount that isn't made of what is known, or isn't above none where it has to be.
    #[error("amount not constant")]
    AmountNotConstant(Place),
    /// An application, or an unfolding, where none may stand.
    #[error("not here")]
    NotHere(Place),
    /// A target that is no local or return variable.
    #[error("not assignable")]
    NotAssignable(Place),
    #[error("old here")]
    OldHere(Place),
    #[error("result here")]
    ResultHere(Place),
    /// Fold, unfold or unfolding of a predicate without a body.
    #[error("unfold abstract")]
    UnfoldAbstract(Place),
    #[error("want of memory")]
    Want,
}

impl From<AllocError> for TypeFault {
    ghost use Rattle.vx_expressions.specs.declared.fault.TypeFault.TheVariants.{Want};

    ghost from_gives = { λ _ fault. fault ≡ Want };

    fn from(_: AllocError) -> Self {
        TypeFault::Want
    }
}

impl<T: Drop> From<AllocFailed<T>> for TypeFault {
    ghost use Rattle.vx_expressions.specs.declared.fault.TypeFault.TheVariants.{Want};

    ghost from_gives = { λ _ fault. fault ≡ Want };

    fn from(_: AllocFailed<T>) -> Self {
        TypeFault::Want
    }
}

impl TypeFault {
    /// Where it stands; want of memory stands nowhere.
    pub fn place(&self) -> Option<Place>
        ensures { result ≡ place_of self.now }
    {
        match self {
            TypeFault::Unknown(place, _)
            | TypeFault::Twice(place, _)
            | TypeFault::Mismatch(place, _, _)
            | TypeFault::Impure(place)
            | TypeFault::Arity(place, _, _)
            | TypeFault::NoMeasure(place)
            | TypeFault::MixedMeasures(place)
            | TypeFault::AmountNotConstant(place)
            | TypeFault::NotHere(place)
            | TypeFault::NotAssignable(place)
            | TypeFault::OldHere(place)
            | TypeFault::ResultHere(place)
            | TypeFault::UnfoldAbstract(place) => Some(*place),
            TypeFault::Want => None,
        }
    }

    /// The code that is printed: `E20` to `E32`. Want of memory has none.
    pub fn code(&self) -> &'static str
        ensures { result.now ≡ code_of self.now }
    {
        match self {
            TypeFault::Unknown(_, _) => "E20",
            TypeFault::Twice(_, _) => "E21",
            TypeFault::Mismatch(_, _, _) => "E22",
            TypeFault::Impure(_) => "E23",
            TypeFault::Arity(_, _, _) => "E24",
            TypeFault::NoMeasure(_) => "E25",
            TypeFault::MixedMeasures(_) => "E26",
            TypeFault::AmountNotConstant(_) => "E27",
            TypeFault::NotHere(_) => "E28",
            TypeFault::NotAssignable(_) => "E29",
            TypeFault::OldHere(_) => "E30",
            TypeFault::ResultHere(_) => "E31",
            TypeFault::UnfoldAbstract(_) => "E32",
            TypeFault::Want => "",
        }
    }

    /// The code's name.
    pub fn name(&self) -> &'static str
        ensures { result.now ≡ title_of self.now }
    {
        match self {
            TypeFault::Unknown(_, _) => "Unknown",
            TypeFault::Twice(_, _) => "Twice",
            TypeFault::Mismatch(_, _, _) => "Mismatch",
            TypeFault::Impure(_) => "Impure",
            TypeFault::Arity(_, _, _) => "Arity",
            TypeFault::NoMeasure(_) => "NoMeasure",
            TypeFault::MixedMeasures(_) => "MixedMeasures",
            TypeFault::AmountNotConstant(_) => "AmountNotConstant",
            TypeFault::NotHere(_) => "NotHere",
            TypeFault::NotAssignable(_) => "NotAssignable",
            TypeFault::OldHere(_) => "OldHere",
            TypeFault::ResultHere(_) => "ResultHere",
            TypeFault::UnfoldAbstract(_) => "UnfoldAbstract",
            TypeFault::Want => "",
        }
    }
}

/// The word of a type.
pub fn word_of(t: ValueType) -> &'static str
    ensures { result.now ≡ printed.word_of t }
{
    match t {
        ValueType::Int => "Int",
        ValueType::Bool => "Bool",
        ValueType::Ref => "Ref",
        ValueType::Perm => "Perm",
    }
}

impl Expected {
    /// The word of what is expected.
    pub fn word(self) -> &'static str
        ensures { result.now ≡ printed.expected_word self }
    {
        match self {
            Expected::Type(t) => word_of(t),
            Expected::Numeral => "numeral",
        }
    }
}

impl fmt::Display for Expected {
    fn fmt<W: fmt::Write>(&self, f: &mut fmt::Formatter<W>) -> fmt::Result {
        f.write_str(self.word())
    }
}

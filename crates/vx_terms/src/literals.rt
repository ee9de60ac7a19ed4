//! Literals: which they are, and which numbers are folded.

ghost use Rattle.std.specs.Prelude.{◌≡◌};
ghost use Rattle.vx_terms.specs.Build.{truth_of, literals_of, is_zero, is_one};
ghost use Rattle.vx_terms.specs.Literals.{literals};
ghost use Rattle.vx_terms.specs.Views.{term};

use crate::Term;
use vx_frac::Frac;

/// The values of two operands that are literals of one sort.
#[derive(Clone, Copy)]
pub enum Literals {
    Numbers(i128, i128),
    Parts(Frac, Frac),
    Truths(bool, bool),
    Neither,
}

/// The value of a literal of Bool.
pub fn truth_value(t: &Term) -> Option<bool>
    ensures { result ≡ truth_of (term t.now) }
{
    match t {
        Term::Truth(b) => Some(*b),
        _ => None,
    }
}

pub fn literals_in(s: &Term, t: &Term) -> Literals
    ensures { literals result ≡ literals_of (term s.now) (term t.now) }
{
    match (s, t) {
        (Term::Number(m), Term::Number(n)) => Literals::Numbers(*m, *n),
        (Term::Part(a), Term::Part(b)) => Literals::Parts(*a, *b),
        (Term::Truth(a), Term::Truth(b)) => Literals::Truths(*a, *b),
        _ => Literals::Neither,
    }
}

/// Whether a term is the literal 0 of Int or Real.
pub fn is_zero_literal(t: &Term) -> bool
    ensures { result ≡ is_zero (term t.now) }
{
    match t {
        Term::Number(n) => *n == 0,
        Term::Part(a) => a.num() == 0,
        _ => false,
    }
}

/// Whether a term is the literal 1 of Int or Real.
pub fn is_one_literal(t: &Term) -> bool
    ensures { result ≡ is_one (term t.now) }
{
    match t {
        Term::Number(n) => *n == 1,
        Term::Part(a) => a.num() == 1 && a.den() == 1,
        _ => false,
    }
}

//! Which terms, symbols and sorts are one and the same; copies of them.

ghost use Rattle.std.specs.Prelude.{◌≡◌, IfOk};
ghost use Rattle.vx_terms.specs.Sorts.{same_sort, same_symbol, same_operator, operator_number};
ghost use Rattle.vx_terms.specs.Terms.{same, same_all, identical};
ghost use Rattle.vx_terms.specs.Views.{sort, symbol, operator, term, terms};
ghost use Rattle.vx_frac.specs.Fraction.{fraction};

use crate::{Operator, Sort, Symbol, Term, Terms};
use std::alloc::AllocError;
use vx_frac::Frac;

impl Sort {
    /// The same sort once more.
    pub fn copy(&self) -> Result<Sort, AllocError>
        ensures { IfOk result (λ copy. sort copy ≡ sort self.now) }
    {
        match self {
            Sort::Int => Ok(Sort::Int),
            Sort::Bool => Ok(Sort::Bool),
            Sort::Real => Ok(Sort::Real),
            Sort::Ref => Ok(Sort::Ref),
            Sort::Snap => Ok(Sort::Snap),
            Sort::Other(name) => Ok(Sort::Other(name.clone()?)),
        }
    }

    /// Whether two sorts are the same.
    pub fn is_same(&self, other: &Sort) -> bool
        ensures { result ≡ same_sort (sort self.now) (sort other.now) }
    {
        match (self, other) {
            (Sort::Int, Sort::Int) => true,
            (Sort::Bool, Sort::Bool) => true,
            (Sort::Real, Sort::Real) => true,
            (Sort::Ref, Sort::Ref) => true,
            (Sort::Snap, Sort::Snap) => true,
            (Sort::Other(x), Sort::Other(y)) => is_same_text(x.as_bytes(), y.as_bytes()),
            _ => false,
        }
    }
}

impl Symbol {
    /// The same symbol once more.
    pub fn copy(&self) -> Result<Symbol, AllocError>
        ensures { IfOk result (λ copy. symbol copy ≡ symbol self.now) }
    {
        match self {
            Symbol::Standard(n) => Ok(Symbol::Standard(*n)),
            Symbol::Function(n) => Ok(Symbol::Function(*n)),
            Symbol::Variable(n) => Ok(Symbol::Variable(*n)),
            Symbol::Named(name) => Ok(Symbol::Named(name.clone()?)),
        }
    }

    /// Whether two symbols are the same.
    pub fn is_same(&self, other: &Symbol) -> bool
        ensures { result ≡ same_symbol (symbol self.now) (symbol other.now) }
    {
        match (self, other) {
            (Symbol::Standard(m), Symbol::Standard(n)) => *m == *n,
            (Symbol::Function(m), Symbol::Function(n)) => *m == *n,
            (Symbol::Variable(m), Symbol::Variable(n)) => *m == *n,
            (Symbol::Named(x), Symbol::Named(y)) => is_same_text(x.as_bytes(), y.as_bytes()),
            _ => false,
        }
    }
}

/// Whether two texts are the same.
fn is_same_text(x: &[u8], y: &[u8]) -> bool
    ensures { result ≡ Rattle.vx_terms.specs.Sorts.same_text x.now y.now }
{
    x == y
}

/// Whether two operators are the same.
fn is_same_operator(o: Operator, p: Operator) -> bool
    ensures { result ≡ same_operator (operator o) (operator p) }
{
    o == p
}

/// Whether two fractions are the same.
fn is_same_fraction(a: Frac, b: Frac) -> bool
    ensures { result ≡ identical (fraction a) (fraction b) }
{
    a.num() == b.num() && a.den() == b.den()
}

impl Term {
    /// The same term once more, over shared parts.
    pub fn copy(&self) -> Result<Term, AllocError>
        ensures { IfOk result (λ copy. term copy ≡ term self.now) }
    {
        match self {
            Term::Truth(b) => Ok(Term::Truth(*b)),
            Term::Number(n) => Ok(Term::Number(*n)),
            Term::Part(a) => Ok(Term::Part(*a)),
            Term::Constant(f, a) => Ok(Term::Constant(f.copy()?, a.copy()?)),
            Term::Apply(f, a, ts) => Ok(Term::Apply(f.copy()?, a.copy()?, ts.clone()?)),
            Term::Not(t) => Ok(Term::Not(t.clone()?)),
            Term::Binary(op, t, u) => Ok(Term::Binary(*op, t.clone()?, u.clone()?)),
            Term::Ite(c, t, u) => Ok(Term::Ite(c.clone()?, t.clone()?, u.clone()?)),
            Term::AllOf(ts) => Ok(Term::AllOf(ts.clone()?)),
            Term::SomeOf(ts) => Ok(Term::SomeOf(ts.clone()?)),
        }
    }

    /// Whether two terms are one and the same. First parts are compared by a loop: they may be as deep as a member is long.
    #[cycle(same)]
    #[tactic(auto, using(crate::proofs::Firsts::and_false))]
    pub fn is_same(&self, other: &Term) -> bool
        ensures { result ≡ same (term self.now) (term other.now) }
    {
        let mut left = self;
        let mut right = other;
        loop {
            match (left, right) {
                (Term::Truth(a), Term::Truth(b)) => return *a == *b,
                (Term::Number(m), Term::Number(n)) => return *m == *n,
                (Term::Part(a), Term::Part(b)) => return is_same_fraction(*a, *b),
                (Term::Constant(f, a), Term::Constant(g, b)) => {
                    return f.is_same(g) && a.is_same(b);
                }
                (Term::Apply(f, a, ts), Term::Apply(g, b, us)) => match (&**ts, &**us) {
                    (Terms::More(t, others), Terms::More(u, those)) => {
                        if !f.is_same(g) {
                            return false;
                        }
                        if !a.is_same(b) {
                            return false;
                        }
                        if !others.is_same(those) {
                            return false;
                        }
                        left = t;
                        right = u;
                    }
                    (Terms::None, Terms::None) => return f.is_same(g) && a.is_same(b),
                    _ => return false,
                },
                (Term::Not(t), Term::Not(u)) => {
                    left = t;
                    right = u;
                }
                (Term::Binary(o, t, second), Term::Binary(p, u, other_second)) => {
                    if !is_same_operator(*o, *p) {
                        return false;
                    }
                    if !second.is_same(other_second) {
                        return false;
                    }
                    left = t;
                    right = u;
                }
                (Term::Ite(c, t, v), Term::Ite(d, u, w)) => {
                    if !c.is_same(d) {
                        return false;
                    }
                    if !v.is_same(w) {
                        return false;
                    }
                    left = t;
                    right = u;
                }
                (Term::AllOf(ts), Term::AllOf(us)) => return ts.is_same(us),
                (Term::SomeOf(ts), Term::SomeOf(us)) => return ts.is_same(us),
                _ => return false,
            }
        }
    }
}

impl Terms {
    /// Whether two lists of terms are one and the same.
    #[cycle(same)]
    pub fn is_same(&self, other: &Terms) -> bool
        ensures { result ≡ same_all (terms self.now) (terms other.now) }
    {
        let mut left = self;
        let mut right = other;
        loop {
            match (left, right) {
                (Terms::None, Terms::None) => return true,
                (Terms::More(t, ts), Terms::More(u, us)) => {
                    if !t.is_same(u) {
                        return false;
                    }
                    left = ts;
                    right = us;
                }
                _ => return false,
            }
        }
    }
}

//! Heads and nodes.
ghost use Rattle.std.specs.Prelude.{◌≡◌};
ghost use Rattle.vx_frac.specs.Fraction.{fraction};
ghost use Rattle.vx_terms.specs.Sorts.{same_operator, same_text};
ghost use Rattle.vx_terms.specs.Terms.{identical};
ghost use Rattle.vx_terms.specs.Views.{operator};
ghost use Rattle.cs_certificate.specs.Nodes.{same_head, is_node};

use vx_frac::Frac;
use vx_terms::{Operator, Sort, Symbol};

/// What stands before a term's parts.
pub enum Head {
    Truth(bool),
    Number(i128),
    Part(Frac),
    /// A symbol without arguments, and the sort of its value.
    Constant(Symbol, Sort),
    /// A symbol with arguments, and the sort of its value.
    Apply(Symbol, Sort),
    Binary(Operator),
    Not,
    Ite,
    /// `and` of three or more.
    All,
    /// `or` of three or more.
    Some,
}

impl Drop for Head {
    fn drop(self) {
        match self {
            Head::Truth(_value) => {}
            Head::Number(_number) => {}
            Head::Part(_number) => {}
            Head::Constant(_symbol, _sort) => {}
            Head::Apply(_symbol, _sort) => {}
            Head::Binary(_op) => {}
            Head::Not => {}
            Head::Ite => {}
            Head::All => {}
            Head::Some => {}
        }
    }
}

/// A numbered term: its head, the numbers of its parts, and its sort.
pub struct Node {
    pub head: Head,
    pub parts: Vec<u32>,
    pub sort: Sort,
}

impl Drop for Node {
    fn drop(self) {
        let Self { head, parts, sort } = self;
    }
}

fn is_same_fraction(a: Frac, b: Frac) -> bool
    ensures { result ≡ identical (fraction a) (fraction b) }
{
    a.num() == b.num() && a.den() == b.den()
}

fn is_same_operator(a: Operator, b: Operator) -> bool
    ensures { result ≡ same_operator (operator a) (operator b) }
{
    a == b
}

fn is_same_numbers(a: &[u32], b: &[u32]) -> bool
    ensures { result ≡ same_text a.now b.now }
{
    a == b
}

impl Head {
    ghost use Rattle.cs_table.specs.Views.{head};

    /// Whether two heads are the same.
    pub fn is_same(&self, other: &Head) -> bool
        ensures { result ≡ same_head (head self.now) (head other.now) }
    {
        match (self, other) {
            (Head::Truth(a), Head::Truth(b)) => *a == *b,
            (Head::Number(m), Head::Number(n)) => *m == *n,
            (Head::Part(a), Head::Part(b)) => is_same_fraction(*a, *b),
            (Head::Constant(f, a), Head::Constant(g, b)) => f.is_same(g) && a.is_same(b),
            (Head::Apply(f, a), Head::Apply(g, b)) => f.is_same(g) && a.is_same(b),
            (Head::Binary(o), Head::Binary(p)) => is_same_operator(*o, *p),
            (Head::Not, Head::Not) => true,
            (Head::Ite, Head::Ite) => true,
            (Head::All, Head::All) => true,
            (Head::Some, Head::Some) => true,
            _ => false,
        }
    }
}

impl Node {
    ghost use Rattle.cs_table.specs.Views.{head, node};

    /// Whether the node has this head over these parts.
    pub fn is_over(&self, head: &Head, parts: &[u32]) -> bool
        ensures { result ≡ is_node (Rattle.cs_table.specs.Views.head head.now) parts.now (node self.now) }
    {
        head.is_same(&self.head) && is_same_numbers(parts, &self.parts)
    }
}

//! Elements, and the operators on them.
ghost use Rattle.std.specs.Prelude.{◌≡◌, IfOk, IfErr, int_lt, int_le};
ghost use Rattle.vx_frac.specs.Fractions as fractions;
ghost use Rattle.vx_frac.specs.declared.Op.TheVariants as calls;
ghost use Rattle.vx_terms.specs.Sorts as sorts;
ghost use Rattle.vx_terms.specs.Terms.{identical};
ghost use Rattle.vx_frac.specs.Fraction.{fraction};
ghost use Rattle.vx_terms.specs.Views.{operator, sort};
ghost use Rattle.vx_terms.specs.Interpretations as clean;
ghost use Rattle.cs_model.specs.Elements.{element};
ghost use Rattle.cs_model.specs.Leaving.{Leaves, LeavesNumbers, LeavesAt};
ghost use Rattle.cs_model.specs.Models.{plain};

use vx_frac::{Frac, Op, Over};
use vx_terms::{Operator, Sort};

/// An element: of Int, Bool, Real, or of a declared sort, where each number is one of its own.
#[derive(Clone, Copy, PartialEq, Eq)]
pub enum Element {
    Int(i128),
    Bool(bool),
    Real(Frac),
    Node(u32),
    /// One more element of each declared sort.
    Empty,
}

fn as_int(e: Element) -> i128
    ensures { result ≡ clean.as_int (element e) }
{
    match e {
        Element::Int(z) => z,
        Element::Bool(_) | Element::Real(_) | Element::Node(_) | Element::Empty => 0,
    }
}

fn as_bool(e: Element) -> bool
    ensures { result ≡ clean.as_bool (element e) }
{
    match e {
        Element::Bool(b) => b,
        Element::Int(_) | Element::Real(_) | Element::Node(_) | Element::Empty => false,
    }
}

fn none() -> Frac
    ensures { fraction result ≡ fractions.none }
{
    Frac::whole(0)
}

fn as_fraction(e: Element) -> Frac
    ensures { fraction result ≡ clean.as_fraction (element e) }
{
    match e {
        Element::Real(a) => a,
        Element::Int(_) | Element::Bool(_) | Element::Node(_) | Element::Empty => none(),
    }
}

fn as_tree(e: Element) -> Element
    ensures { element result ≡ clean.TreeElement (clean.as_tree (element e)) }
{
    match e {
        Element::Node(n) => Element::Node(n),
        Element::Int(_) | Element::Bool(_) | Element::Real(_) | Element::Empty => Element::Empty,
    }
}

/// The element, or where it is of another sort 0, false or the further element.
#[tactic(auto, using(vx_frac::proofs::Reduced::lowest_fraction))]
pub fn as_sort(of: &Sort, e: Element) -> Element
    ensures { element result ≡ clean.as_sort (sort of.now) (element e) }
{
    match of {
        Sort::Int => Element::Int(as_int(e)),
        Sort::Bool => Element::Bool(as_bool(e)),
        Sort::Real => Element::Real(as_fraction(e)),
        Sort::Ref | Sort::Snap | Sort::Other(_) => as_tree(e),
    }
}

fn is_same_fraction(a: Frac, b: Frac) -> bool
    ensures { result ≡ identical (fraction a) (fraction b) }
{
    a.num() == b.num() && a.den() == b.den()
}

/// Whether two elements are one.
pub fn is_same(a: Element, b: Element) -> bool
    ensures { result ≡ clean.same_element (element a) (element b) }
{
    match (a, b) {
        (Element::Int(m), Element::Int(n)) => m == n,
        (Element::Bool(p), Element::Bool(q)) => p == q,
        (Element::Real(x), Element::Real(y)) => is_same_fraction(x, y),
        (Element::Node(m), Element::Node(n)) => m == n,
        (Element::Empty, Element::Empty) => true,
        (_, _) => false,
    }
}

fn over(op: Op, m: i128, n: i128) -> Over
    ensures call { result.op ≡ op }
    ensures left { fraction result.a ≡ fractions.whole m }
    ensures right { fraction result.b ≡ fractions.whole n }
{
    Over {
        op,
        a: Frac::whole(m),
        b: Frac::whole(n),
    }
}

fn is_less(d: Element, e: Element) -> bool
    ensures { result ≡ clean.on_numbers int_lt fractions.is_below (element d) (element e) }
{
    match d {
        Element::Real(a) => a.is_less(as_fraction(e)),
        Element::Int(_) | Element::Bool(_) | Element::Node(_) | Element::Empty => {
            as_int(d) < as_int(e)
        }
    }
}

fn is_at_most(d: Element, e: Element) -> bool
    ensures { result ≡ clean.on_numbers int_le fractions.at_most (element d) (element e) }
{
    match d {
        Element::Real(a) => a.is_at_most(as_fraction(e)),
        Element::Int(_) | Element::Bool(_) | Element::Node(_) | Element::Empty => {
            as_int(d) <= as_int(e)
        }
    }
}

fn add(d: Element, e: Element) -> Result<Element, Over>
    ensures value { IfOk result (λ x. element x ≡ clean.operate plain sorts.Add (element d) (element e)) }
    ensures over { IfErr result (LeavesNumbers calls.Add (element d) (element e)) }
{
    match d {
        Element::Real(a) => Ok(Element::Real(a.add(as_fraction(e))?)),
        Element::Int(_) | Element::Bool(_) | Element::Node(_) | Element::Empty => {
            let (m, n) = (as_int(d), as_int(e));
            match m.checked_add(n) {
                Some(z) => Ok(Element::Int(z)),
                None => Err(over(Op::Add, m, n)),
            }
        }
    }
}

fn subtract(d: Element, e: Element) -> Result<Element, Over>
    ensures value { IfOk result (λ x. element x ≡ clean.operate plain sorts.Subtract (element d) (element e)) }
    ensures over { IfErr result (LeavesNumbers calls.Sub (element d) (element e)) }
{
    match d {
        Element::Real(a) => Ok(Element::Real(a.sub(as_fraction(e))?)),
        Element::Int(_) | Element::Bool(_) | Element::Node(_) | Element::Empty => {
            let (m, n) = (as_int(d), as_int(e));
            match m.checked_sub(n) {
                Some(z) => Ok(Element::Int(z)),
                None => Err(over(Op::Sub, m, n)),
            }
        }
    }
}

fn multiply(d: Element, e: Element) -> Result<Element, Over>
    ensures value { IfOk result (λ x. element x ≡ clean.operate plain sorts.Multiply (element d) (element e)) }
    ensures over { IfErr result (LeavesNumbers calls.Mul (element d) (element e)) }
{
    match d {
        Element::Real(a) => Ok(Element::Real(a.mul(as_fraction(e))?)),
        Element::Int(_) | Element::Bool(_) | Element::Node(_) | Element::Empty => {
            let (m, n) = (as_int(d), as_int(e));
            match m.checked_mul(n) {
                Some(z) => Ok(Element::Int(z)),
                None => Err(over(Op::Mul, m, n)),
            }
        }
    }
}

/// By 0 it is 0.
fn divide(m: i128, n: i128) -> Result<i128, Over>
    ensures value { IfOk result (λ z. z ≡ clean.quotient_in plain m n) }
    ensures over { IfErr result (Leaves calls.Div (fractions.whole m) (fractions.whole n)) }
{
    match n {
        0 => Ok(0),
        _ => match m.checked_div_euclid(n) {
            Some(z) => Ok(z),
            None => Err(over(Op::Div, m, n)),
        },
    }
}

/// By 0 it is 0.
fn remainder(m: i128, n: i128) -> Result<i128, Over>
    ensures value { IfOk result (λ z. z ≡ clean.remainder_in plain m n) }
    ensures over { IfErr result (Leaves calls.Div (fractions.whole m) (fractions.whole n)) }
{
    match n {
        0 => Ok(0),
        _ => match m.checked_rem_euclid(n) {
            Some(z) => Ok(z),
            None => Err(over(Op::Div, m, n)),
        },
    }
}

/// The value of an operator on two elements.
///
/// # Errors
/// `Over` where the operator's call leaves 128 bits.
pub fn operate(of: Operator, d: Element, e: Element) -> Result<Element, Over>
    ensures value { IfOk result (λ x. element x ≡ clean.operate plain (operator of) (element d) (element e)) }
    ensures over { IfErr result (LeavesAt (operator of) (element d) (element e)) }
{
    match of {
        Operator::And => Ok(Element::Bool(as_bool(d) && as_bool(e))),
        Operator::Or => Ok(Element::Bool(as_bool(d) || as_bool(e))),
        Operator::Implies => Ok(Element::Bool(!as_bool(d) || as_bool(e))),
        Operator::Equal => Ok(Element::Bool(is_same(d, e))),
        Operator::Less => Ok(Element::Bool(is_less(d, e))),
        Operator::LessEqual => Ok(Element::Bool(is_at_most(d, e))),
        Operator::Add => add(d, e),
        Operator::Subtract => subtract(d, e),
        Operator::Multiply => multiply(d, e),
        Operator::Div => Ok(Element::Int(divide(as_int(d), as_int(e))?)),
        Operator::Mod => Ok(Element::Int(remainder(as_int(d), as_int(e))?)),
    }
}

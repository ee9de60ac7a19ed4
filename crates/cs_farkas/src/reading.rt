//! How a numbered term is read in a sum.
ghost use Rattle.std.specs.Prelude.{◌≡◌, pos};
ghost use Rattle.std.specs.Option.{option_map};
ghost use Rattle.vx_frac.specs.Fraction.{fraction};
ghost use Rattle.vx_terms.specs.Views.{operator};
ghost use Rattle.cs_table.specs.Views.{head, node, nodes};
ghost use Rattle.cs_farkas.specs.Sums as clean;
ghost use Rattle.cs_farkas.specs.Views as views;

use cs_table::{Head, Node};
use vx_frac::Frac;
use vx_terms::Operator;

/// As a literal, by its parts, or as a column of its own.
#[derive(Clone, Copy)]
pub enum Reading {
    Literal(Frac),
    Sum(u32, u32),
    Difference(u32, u32),
    /// A literal times a term.
    Multiple(Frac, u32),
    Column,
}

/// The literal that a head is.
fn literal_of(of: &Head) -> Option<Frac>
    ensures { option_map fraction result ≡ clean.literal_of (head of.now) }
{
    match of {
        Head::Number(number) => Some(Frac::whole(*number)),
        Head::Part(part) => Some(*part),
        Head::Truth(_)
        | Head::Constant(_, _)
        | Head::Apply(_, _)
        | Head::Binary(_)
        | Head::Not
        | Head::Ite
        | Head::All
        | Head::Some => None,
    }
}

fn literal_at(all: &[Node], number: u32) -> Option<Frac>
    ensures { option_map fraction result ≡ clean.literal_at (nodes all.now) number }
{
    match all.get(number as usize) {
        Some(node) => literal_of(&node.head),
        None => None,
    }
}

/// A product with a literal; of two, the left one counts.
fn multiple(left: Option<Frac>, right: Option<Frac>, a: u32, b: u32) -> Reading
    ensures { views.reading result ≡ clean.multiple (option_map fraction left) (option_map fraction right) a b }
{
    match (left, right) {
        (Some(literal), _) => Reading::Multiple(literal, b),
        (None, Some(literal)) => Reading::Multiple(literal, a),
        (None, None) => Reading::Column,
    }
}

fn of_operator(all: &[Node], of: Operator, a: u32, b: u32) -> Reading
    ensures { views.reading result ≡ clean.of_operator (nodes all.now) (operator of) a b }
{
    match of {
        Operator::Add => Reading::Sum(a, b),
        Operator::Subtract => Reading::Difference(a, b),
        Operator::Multiply => multiple(literal_at(all, a), literal_at(all, b), a, b),
        Operator::And
        | Operator::Or
        | Operator::Implies
        | Operator::Equal
        | Operator::Less
        | Operator::LessEqual
        | Operator::Div
        | Operator::Mod => Reading::Column,
    }
}

fn of_parts(all: &[Node], of: Operator, parts: &[u32]) -> Reading
    ensures { views.reading result ≡ clean.of_parts (nodes all.now) (operator of) parts.now }
{
    match parts {
        [a, b] => of_operator(all, of, *a, *b),
        _ => Reading::Column,
    }
}

/// How the term of a node is read.
pub fn reading_of(all: &[Node], node: &Node) -> Reading
    ensures { views.reading result ≡ clean.of_head (nodes all.now) (head node.now.head) node.now.parts.items }
{
    match &node.head {
        Head::Number(number) => Reading::Literal(Frac::whole(*number)),
        Head::Part(part) => Reading::Literal(*part),
        Head::Binary(of) => of_parts(all, *of, &node.parts),
        Head::Truth(_)
        | Head::Constant(_, _)
        | Head::Apply(_, _)
        | Head::Not
        | Head::Ite
        | Head::All
        | Head::Some => Reading::Column,
    }
}

//! The classes of the numbered terms.
ghost use Rattle.std.specs.Prelude.{◌≡◌, ◌<◌, IsTrue, length};
ghost use Rattle.std.specs.List.{All};
ghost use Rattle.cs_cong.specs.Terms.{terms_in};

use cs_cong::{Applied, Chain, Classes};
use cs_index::Index;
use cs_table::{Head, Node, Stop, Table, key_of_operator, key_of_symbol};
use std::alloc::Global;
use vx_terms::Operator;

/// Classes of terms, and how many terms there are.
#[derive(Drop)]
pub struct Held {
    classes: Classes,
    count: usize,
    ghost counted: { length (terms_in classes) ≡ count },
}

fn stop<T: Drop>(given: Result<T, cs_cong::Want>) -> Result<T, Stop> {
    match given {
        Ok(value) => Ok(value),
        Err(_) => Err(Stop::Want),
    }
}

/// Whether the term of this number is a literal.
fn is_literal(table: &Table, number: u32) -> bool {
    match table.nodes.get(number as usize) {
        Some(node) => matches!(node.head, Head::Number(_) | Head::Part(_)),
        None => false,
    }
}

/// Whether an operator over these terms is none of linear arithmetic: then it is like a symbol that nothing is known of.
fn is_nonlinear(table: &Table, of: Operator, parts: &[u32]) -> bool {
    let [left, right] = parts else {
        return false;
    };
    match of {
        Operator::Multiply => !is_literal(table, *left) && !is_literal(table, *right),
        Operator::Div | Operator::Mod => !is_literal(table, *right),
        _ => false,
    }
}

/// The key of what is applied, if the node applies a symbol, or an operator as a symbol.
pub fn key_of_applied(table: &Table, node: &Node) -> Option<u64> {
    match &node.head {
        Head::Apply(symbol, _) => Some(key_of_symbol(symbol)),
        Head::Binary(of) if is_nonlinear(table, *of, &node.parts) => Some(key_of_operator(*of)),
        _ => None,
    }
}

/// The first application of a node's symbol, which stands for the symbol: another one, or the node itself.
fn first_of(table: &Table, index: &Index, key: u64, node: &Node, number: u32) -> u32 {
    for other in index.under(key) {
        if let Some(first) = table.nodes.get(*other as usize) {
            if first.head.is_same(&node.head) {
                return *other;
            }
        }
    }
    number
}

/// A node as the classes see it: an application of its symbol, or of an operator as a symbol, or a term without parts.
fn applied(
    alloc: Global,
    table: &Table,
    index: &mut Index,
    node: &Node,
    number: u32,
) -> Result<Applied, Stop> {
    let Some(key) = key_of_applied(table, node) else {
        return Ok(Applied {
            head: number,
            parts: Vec::new(alloc),
        });
    };
    let head = first_of(table, index, key, node, number);
    if head == number {
        index.add(key, number)?;
    }
    Ok(Applied {
        head,
        parts: node.parts.to_vec(alloc)?,
    })
}

/// The terms of a table, as the classes see them.
fn all_applied(alloc: Global, table: &Table) -> Result<Vec<Applied>, Stop> {
    let mut index = Index::new(alloc);
    let mut terms = Vec::new(alloc);
    for (at, node) in table.nodes.iter().enumerate() {
        let Ok(number) = u32::try_from(at) else {
            return Err(Stop::Want);
        };
        terms.push(applied(alloc, table, &mut index, node, number)?)?;
    }
    Ok(terms)
}

/// Whether all numbers are below a count.
fn are_below(numbers: &[u32], count: usize) -> bool
    ensures { IsTrue result → All (λ n. n < count) numbers.now }
{
    for number in numbers {
        if *number as usize >= count {
            return false;
        }
    }
    true
}

/// Whether the parts of all terms are below a count.
fn are_within(terms: &[Applied], count: usize) -> bool
    ensures { IsTrue result → All (λ t. All (λ n. n < count) t.parts.items) terms.now }
{
    for term in terms {
        if !are_below(&term.parts, count) {
            return false;
        }
    }
    true
}

impl Held {
    /// Nothing is claimed of the terms of a table.
    ///
    /// # Errors
    /// `Want` where memory runs out.
    pub fn new(alloc: Global, table: &Table) -> Result<Held, Stop> {
        let terms = all_applied(alloc, table)?;
        let count = terms.len();
        if count >= 1 << 32 {
            return Err(Stop::Want);
        }
        if !are_within(&terms, count) {
            return Err(Stop::Miss);
        }
        match Classes::new(alloc, terms) {
            Ok(classes) => Ok(Held { classes, count }),
            Err(_) => Err(Stop::Want),
        }
    }

    /// Whether the classes know the term of this number.
    pub fn has(&self, number: u32) -> bool
        ensures { IsTrue result → number < length (terms_in self.now.classes) }
    {
        (number as usize) < self.count
    }

    /// Takes back all claims but the first of them. No memory.
    pub fn back_to(&mut self, mark: usize) {
        self.classes.back_to(mark);
    }

    /// Claims that two terms are equal, or that they aren't.
    ///
    /// # Errors
    /// `Miss` at a number that isn't known; `Want` where memory runs out.
    pub fn claim(&mut self, alloc: Global, a: u32, b: u32, equal: bool) -> Result<(), Stop> {
        if !self.has(a) {
            return Err(Stop::Miss);
        }
        if !self.has(b) {
            return Err(Stop::Miss);
        }
        if equal {
            stop(self.classes.assert_eq(alloc, a, b))
        } else {
            stop(self.classes.assert_ne(a, b))
        }
    }

    /// The first claim that two terms aren't equal which are.
    pub fn broken(&self) -> Option<u32> {
        self.classes.conflict()
    }

    /// Why two terms are equal.
    ///
    /// # Errors
    /// `Miss` where they aren't; `Want` where memory runs out.
    pub fn explain(&self, alloc: Global, a: u32, b: u32) -> Result<Chain, Stop> {
        if !self.has(a) {
            return Err(Stop::Miss);
        }
        if !self.has(b) {
            return Err(Stop::Miss);
        }
        match stop(self.classes.explain(alloc, a, b))? {
            Some(chain) => Ok(chain),
            None => Err(Stop::Miss),
        }
    }

    /// The number that stands for a term's class.
    ///
    /// # Errors
    /// `Miss` at a number that isn't known.
    pub fn class_of(&self, a: u32) -> Result<u32, Stop> {
        if !self.has(a) {
            return Err(Stop::Miss);
        }
        Ok(self.classes.class_of(a))
    }
}

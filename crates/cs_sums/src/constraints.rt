//! Comparisons as lines, and what they say where they hold or don't.

use crate::{Line, Stop, quotient, turned};
use cs_farkas::{Numbers, Relation};
use cs_linear::{Bound, Side, Value};
use cs_table::{Head, Node};
use vx_frac::Frac;
use vx_terms::Operator;

/// How a comparison compares.
#[derive(Clone, Copy)]
pub enum Order {
    Less,
    AtMost,
    Equal,
}

/// A comparison of two terms: its left side less its right side is this line.
#[derive(Clone, Copy)]
pub struct Comparison {
    pub order: Order,
    pub numbers: Numbers,
    pub line: Line,
}

/// A line is at most 0, below 0, or 0.
#[derive(Clone, Copy)]
pub struct Constraint {
    pub relation: Relation,
    pub numbers: Numbers,
    pub line: Line,
}

/// The order and the sides of a term that compares two others.
pub fn sides_of(node: &Node) -> Option<(Order, u32, u32)> {
    let Head::Binary(operator) = &node.head else {
        return None;
    };
    let [a, b] = node.parts.as_slice() else {
        return None;
    };
    match operator {
        Operator::Less => Some((Order::Less, *a, *b)),
        Operator::LessEqual => Some((Order::AtMost, *a, *b)),
        Operator::Equal => Some((Order::Equal, *a, *b)),
        _ => None,
    }
}

/// A line with the other sign.
fn negated(line: Line) -> Result<Line, Stop> {
    Ok(Line {
        column: line.column,
        factor: turned(line.factor)?,
        constant: turned(line.constant)?,
    })
}

impl Comparison {
    /// What it says where it holds, or where it doesn't. That terms aren't equal is no constraint.
    ///
    /// # Errors
    /// `Over` where a fraction leaves 128 bits.
    pub fn constraint(self, holds: bool) -> Result<Option<Constraint>, Stop> {
        let relation = match (self.order, holds) {
            (Order::Less, true) | (Order::AtMost, false) => Relation::BelowZero,
            (Order::Less, false) | (Order::AtMost, true) => Relation::AtMostZero,
            (Order::Equal, true) => Relation::IsZero,
            (Order::Equal, false) => return Ok(None),
        };
        let line = if holds {
            self.line
        } else {
            negated(self.line)?
        };
        Ok(Some(Constraint {
            relation,
            numbers: self.numbers,
            line,
        }))
    }
}

impl Constraint {
    /// The constant of its line; of whole numbers what is below 0 is at most 0 with 1 more.
    ///
    /// # Errors
    /// `Over` where it leaves 128 bits.
    pub fn constant(self) -> Result<Frac, Stop> {
        match (self.numbers, self.relation) {
            (Numbers::Int, Relation::BelowZero) => Ok(self.line.constant.add(Frac::whole(1))?),
            _ => Ok(self.line.constant),
        }
    }

    /// Whether the column may not be at its limit.
    fn is_strict(self) -> bool {
        match (self.numbers, self.relation) {
            (Numbers::Real, Relation::BelowZero) => true,
            _ => false,
        }
    }

    /// By what a constraint without a column is multiplied to be a contradiction, if it is one.
    ///
    /// # Errors
    /// `Over` where a fraction leaves 128 bits.
    pub fn refuted_by(self) -> Result<Option<Frac>, Stop> {
        let constant = self.constant()?.num();
        if constant > 0 || (constant == 0 && self.is_strict()) {
            return Ok(Some(Frac::whole(1)));
        }
        match self.relation {
            Relation::IsZero if constant < 0 => Ok(Some(Frac::whole(-1))),
            _ => Ok(None),
        }
    }

    /// The limit of its column.
    fn limit(self, side: Side) -> Result<Value, Stop> {
        let number = quotient(turned(self.constant()?)?, self.line.factor)?;
        if !self.is_strict() {
            return Ok(Value::exactly(number));
        }
        Ok(match side {
            Side::AtLeast => Value::above(number),
            Side::AtMost => Value::below(number),
        })
    }

    /// The side on which its column is bounded.
    fn side(self) -> Side {
        if self.line.factor.num() > 0 {
            Side::AtMost
        } else {
            Side::AtLeast
        }
    }

    /// The bound of its column on its side.
    ///
    /// # Errors
    /// `Over` where a fraction leaves 128 bits.
    pub fn bound(self, column: u32, reason: u32) -> Result<Bound, Stop> {
        let side = self.side();
        Ok(Bound {
            column,
            side,
            limit: self.limit(side)?,
            reason,
        })
    }

    /// The multiplier with which it takes the part of a bound of its column in a contradiction.
    ///
    /// # Errors
    /// `Over` where it leaves 128 bits.
    pub fn multiplier(self, of: Frac) -> Result<Frac, Stop> {
        quotient(turned(of)?, self.line.factor)
    }
}

/// The same bound on the other side.
pub fn other_side(bound: Bound) -> Bound {
    let side = match bound.side {
        Side::AtLeast => Side::AtMost,
        Side::AtMost => Side::AtLeast,
    };
    Bound {
        column: bound.column,
        side,
        limit: bound.limit,
        reason: bound.reason,
    }
}

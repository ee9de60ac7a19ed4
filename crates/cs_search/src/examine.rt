//! What a literal is under an assignment.
ghost use Rattle.std.specs.Prelude.{◌≡◌, ◌↔◌, IsTrue};
ghost use Rattle.cs_search.specs.Assignment.{status_of, negated};

use crate::{Literal, Status, Value};

/// The literal that holds where this one doesn't.
pub fn negate(literal: Literal) -> Literal
    ensures { result ≡ negated literal }
{
    Literal {
        positive: !literal.positive,
        number: literal.number,
    }
}

/// Are the two the same?
pub fn same(a: Literal, b: Literal) -> bool
    ensures { IsTrue result ↔ (a ≡ b) }
{
    a.number == b.number && a.positive == b.positive
}

/// The literal's truth.
pub fn status(values: &[Value], literal: Literal) -> Status
    ensures { result ≡ status_of values.now literal }
{
    let atom = literal.number as usize;
    if atom >= values.len() {
        return Status::Unassigned;
    }
    match values[atom] {
        Value::Unset => Status::Unassigned,
        Value::Positive(place) => {
            if literal.positive {
                Status::True(place)
            } else {
                Status::False(place)
            }
        }
        Value::Negative(place) => {
            if literal.positive {
                Status::False(place)
            } else {
                Status::True(place)
            }
        }
    }
}

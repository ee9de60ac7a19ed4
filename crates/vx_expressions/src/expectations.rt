//! Tests of a type, a name and a number of arguments, with their faults.

ghost use Rattle.std.specs.Prelude.{◌≡◌, IfErr};
ghost use Rattle.vx_ast.specs.Written.{written_expr};
ghost use Rattle.vx_expressions.specs.Places.{place_of};
ghost use Rattle.vx_expressions.specs.Faults as faults;
ghost use Rattle.vx_expressions.specs.Gives.{Gives};

use crate::{Expected, TypeFault};
use vx_ast::{Expr, Place, ValueType};

/// Where an expression stands.
pub fn place(e: &Expr) -> Place
    ensures { result ≡ place_of (written_expr e.now) }
{
    e.place
}

/// The type is this one.
///
/// # Errors
/// `Mismatch` where it is another.
pub fn expect(place: Place, expected: ValueType, found: ValueType) -> Result<(), TypeFault>
    ensures { Gives (λ x. tt) result (faults.expect place expected found) }
{
    if found == expected {
        Ok(())
    } else {
        Err(TypeFault::Mismatch(place, Expected::Type(expected), found))
    }
}

/// The type is Int or Perm.
pub fn expect_ordered(place: Place, found: ValueType) -> Result<(), TypeFault>
    ensures { Gives (λ x. tt) result (faults.expect_ordered place found) }
{
    match found {
        ValueType::Int | ValueType::Perm => Ok(()),
        ValueType::Bool | ValueType::Ref => Err(TypeFault::Mismatch(
            place,
            Expected::Type(ValueType::Int),
            found,
        )),
    }
}

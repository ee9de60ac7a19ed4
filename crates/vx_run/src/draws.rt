//! Draws from a seed.
ghost use Rattle.std.specs.Prelude.{◌≡◌, ◌<◌};
ghost use Rattle.vx_run.specs.Draws as draws;
ghost use Rattle.vx_run.specs.Views.{value};

use crate::values::Value;
use vx_ast::ValueType;
use vx_frac::Frac;

/// The next state of the draws.
pub fn turned(state: u64) -> u64
    ensures { result ≡ draws.turned state }
{
    state
        .wrapping_mul(6364136223846793005)
        .wrapping_add(1442695040888963407)
}

/// A number below k, from a state.
fn below(k: u64, state: u64) -> u64
    requires { 0 < k }
    ensures { result ≡ draws.below k state }
{
    (state / (1 << 33)) % k
}

/// The value of a type that is drawn in a state.
pub fn drawn_value(of: ValueType, state: u64) -> Value
    ensures { value result ≡ draws.drawn_value of state }
{
    match of {
        ValueType::Int => Value::Int(below(17, state) as i128 - 8),
        ValueType::Bool => Value::Bool(below(2, state) == 1),
        ValueType::Ref => Value::Ref(below(5, state)),
        ValueType::Perm => Value::Perm(Frac::new(below(5, state) as i128, 4)),
    }
}

//! Keys of heads over parts.
ghost use Rattle.std.specs.Prelude.{◌≡◌};
ghost use Rattle.vx_frac.specs.Fraction.{fraction};
ghost use Rattle.vx_terms.specs.Views.{operator, symbol};
ghost use Rattle.cs_table.specs.Keys as clean;
ghost use Rattle.cs_table.specs.Views.{head};

use crate::Head;
use cs_index::{mix, mix_bytes, mix_numbers, mix_wide};
use vx_frac::Frac;
use vx_terms::{Operator, Symbol};

/// The key of a symbol.
pub fn key_of_symbol(of: &Symbol) -> u64
    ensures { result ≡ clean.symbol_key (symbol of.now) }
{
    match of {
        Symbol::Standard(number) => mix(21, u64::from(*number)),
        Symbol::Function(number) => mix(22, u64::from(*number)),
        Symbol::Variable(number) => mix(23, *number),
        Symbol::Named(name) => mix_bytes(24, name.as_bytes()),
    }
}

/// The key of an operator.
pub fn key_of_operator(of: Operator) -> u64
    ensures { result ≡ clean.operator_key (operator of) }
{
    match of {
        Operator::And => 1,
        Operator::Or => 2,
        Operator::Implies => 3,
        Operator::Equal => 4,
        Operator::Less => 5,
        Operator::LessEqual => 6,
        Operator::Add => 7,
        Operator::Subtract => 8,
        Operator::Multiply => 9,
        Operator::Div => 10,
        Operator::Mod => 11,
    }
}

/// The key of a fraction: of its numerator and its denominator.
pub fn key_of_part(of: Frac) -> u64
    ensures { result ≡ clean.part_key (fraction of) }
{
    mix_wide(
        mix_wide(15, of.num().unsigned_abs()),
        of.den().unsigned_abs(),
    )
}

fn key_of_head(of: &Head) -> u64
    ensures { result ≡ clean.head_key (head of.now) }
{
    match of {
        Head::Truth(true) => 12,
        Head::Truth(false) => 13,
        Head::Number(number) => mix_wide(14, number.unsigned_abs()),
        Head::Part(part) => key_of_part(*part),
        Head::Constant(f, _) => key_of_symbol(f),
        Head::Apply(f, _) => mix(16, key_of_symbol(f)),
        Head::Binary(o) => key_of_operator(*o),
        Head::Not => 17,
        Head::Ite => 18,
        Head::All => 19,
        Head::Some => 20,
    }
}

/// The key of a head over parts.
pub fn key_over(of: &Head, parts: &[u32]) -> u64
    ensures { result ≡ clean.key_over (head of.now) parts.now }
{
    mix_numbers(key_of_head(of), parts)
}

//! Which operator a symbol stands for, and how tightly it binds.

ghost use Rattle.std.specs.Prelude.{◌≡◌};
ghost use Rattle.vx_tokens.specs.Tokens.{kind_of};
ghost use Rattle.vx_grammar.specs.Grammar.{level_of, operator_of};

use vx_ast::BinaryOperator;
use vx_tokens::{Kind, Symbol};

/// The binary operator that a token of this kind is, if it is one.
pub fn operator_of(kind: Kind) -> Option<BinaryOperator>
    ensures { result ≡ operator_of (kind_of kind.entry) }
{
    match kind {
        Kind::Symbol(Symbol::Implies) => Some(BinaryOperator::Implies),
        Kind::Symbol(Symbol::Or) => Some(BinaryOperator::Or),
        Kind::Symbol(Symbol::And) => Some(BinaryOperator::And),
        Kind::Symbol(Symbol::Equal) => Some(BinaryOperator::Equal),
        Kind::Symbol(Symbol::NotEqual) => Some(BinaryOperator::NotEqual),
        Kind::Symbol(Symbol::Less) => Some(BinaryOperator::Less),
        Kind::Symbol(Symbol::LessEqual) => Some(BinaryOperator::LessEqual),
        Kind::Symbol(Symbol::Greater) => Some(BinaryOperator::Greater),
        Kind::Symbol(Symbol::GreaterEqual) => Some(BinaryOperator::GreaterEqual),
        Kind::Symbol(Symbol::Plus) => Some(BinaryOperator::Add),
        Kind::Symbol(Symbol::Minus) => Some(BinaryOperator::Subtract),
        Kind::Symbol(Symbol::Times) => Some(BinaryOperator::Multiply),
        Kind::Symbol(Symbol::Slash) => Some(BinaryOperator::Divide),
        Kind::Symbol(Symbol::Backslash) => Some(BinaryOperator::Quotient),
        Kind::Symbol(Symbol::Percent) => Some(BinaryOperator::Remainder),
        _ => None,
    }
}

/// The level of an operator, from 1 that binds tightest to 7.
pub fn level_of(op: BinaryOperator) -> u32
    ensures { result ≡ level_of op }
{
    match op {
        BinaryOperator::Multiply
        | BinaryOperator::Divide
        | BinaryOperator::Quotient
        | BinaryOperator::Remainder => 1,
        BinaryOperator::Add | BinaryOperator::Subtract => 2,
        BinaryOperator::Less
        | BinaryOperator::LessEqual
        | BinaryOperator::Greater
        | BinaryOperator::GreaterEqual => 3,
        BinaryOperator::Equal | BinaryOperator::NotEqual => 4,
        BinaryOperator::And => 5,
        BinaryOperator::Or => 6,
        BinaryOperator::Implies => 7,
    }
}

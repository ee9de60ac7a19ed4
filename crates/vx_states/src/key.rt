//! Keys of terms, by which a path's terms are found again.

ghost use Rattle.std.specs.Prelude.{◌≡◌, ◌-◌};
ghost use Rattle.vx_frac.specs.Fraction.{fraction};
ghost use Rattle.vx_states.specs.Keys.{mixed, within, key_of, keys_of, fraction_key, symbol_key, operator_key};
ghost use Rattle.vx_terms.specs.Views.{term, terms, symbol, operator};

use vx_frac::Frac;
use vx_terms::{Operator, Symbol, Term, Terms};

/// So many levels below its root a term is looked at.
const DEPTH: u8 = 4;

fn mix(left: u16, right: u16) -> u16
    ensures { result ≡ mixed left right }
{
    ((u32::from(left) * 31 + u32::from(right)) % 65536) as u16
}

fn key_of_symbol(f: &Symbol) -> u16
    ensures { result ≡ symbol_key (symbol f.now) }
{
    match f {
        Symbol::Standard(n) => (*n % 65536) as u16,
        Symbol::Function(n) => (*n % 65536) as u16,
        Symbol::Variable(n) => (*n % 65536) as u16,
        Symbol::Named(_) => 0,
    }
}

fn key_of_operator(op: Operator) -> u16
    ensures { result ≡ operator_key (operator op) }
{
    match op {
        Operator::And => 1,
        Operator::Or => 2,
        Operator::Implies => 3,
        Operator::Equal => 4,
        Operator::Less => 5,
        Operator::LessEqual => 6,
        Operator::Add => 7,
        Operator::Subtract => 8,
        Operator::Multiply => 9,
        Operator::Div => 10,
        Operator::Mod => 11,
    }
}

fn key_of_fraction(a: Frac) -> u16
    ensures { result ≡ fraction_key (fraction a) }
{
    let below = a.den().unsigned_abs() - 1;
    mix(
        (a.num().unsigned_abs() % 65536) as u16,
        (below % 65536) as u16,
    )
}

/// A part's key, or 0 where no depth is left.
#[cycle(keys)]
fn key_within(t: &Term, depth: u8) -> u16
    ensures { result ≡ within depth (key_of (term t.now) (depth - 1)) }
{
    if depth == 0 {
        return 0;
    }
    key_down(t, depth - 1)
}

/// The key of the rest of a list, or 0 where no depth is left.
#[cycle(keys)]
fn keys_within(rest: &Terms, depth: u8) -> u16
    ensures { result ≡ within depth (keys_of (terms rest.now) (depth - 1)) }
{
    if depth == 0 {
        return 0;
    }
    keys_down(rest, depth - 1)
}

/// The key of a list by as many of its terms.
#[cycle(keys)]
fn keys_down(all: &Terms, depth: u8) -> u16
    ensures { result ≡ keys_of (terms all.now) depth }
{
    match all {
        Terms::None => 0,
        Terms::More(t, rest) => mix(key_within(t, depth), keys_within(rest, depth)),
    }
}

/// The key of a term down to this depth.
#[cycle(keys)]
fn key_down(t: &Term, depth: u8) -> u16
    ensures { result ≡ key_of (term t.now) depth }
{
    match t {
        Term::Truth(b) => u16::from(*b),
        Term::Number(n) => (n.unsigned_abs() % 65536) as u16,
        Term::Part(a) => key_of_fraction(*a),
        Term::Constant(f, _) => key_of_symbol(f),
        Term::Apply(f, _, all) => mix(key_of_symbol(f), keys_down(all, depth)),
        Term::Not(u) => mix(12, key_within(u, depth)),
        Term::Binary(op, u, v) => mix(
            mix(key_of_operator(*op), key_within(u, depth)),
            key_within(v, depth),
        ),
        Term::Ite(c, u, v) => mix(
            mix(key_within(c, depth), key_within(u, depth)),
            key_within(v, depth),
        ),
        Term::AllOf(all) => mix(13, keys_down(all, depth)),
        Term::SomeOf(all) => mix(14, keys_down(all, depth)),
    }
}

/// The key of a term; one and the same term has one key.
pub fn key(t: &Term) -> u16
    ensures { result ≡ key_of (term t.now) 4 }
{
    key_down(t, DEPTH)
}

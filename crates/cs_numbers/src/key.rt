//! Keys of terms, made of those of their parts.
ghost use Rattle.std.specs.Prelude.{◌≡◌};
ghost use Rattle.vx_terms.specs.Views.{term, terms};
ghost use Rattle.cs_numbers.specs.Keys.{term_key, list_key};

use cs_index::{mix, mix_wide};
use cs_table::{key_of_operator, key_of_part, key_of_symbol};
use vx_terms::{Term, Terms};

/// The key of a term; one and the same term has one key.
#[cycle(keys)]
pub fn key(t: &Term) -> u64
    ensures { result ≡ term_key (term t.now) }
{
    match t {
        Term::Truth(true) => 12,
        Term::Truth(false) => 13,
        Term::Number(number) => mix_wide(14, number.unsigned_abs()),
        Term::Part(part) => key_of_part(*part),
        Term::Constant(f, _) => key_of_symbol(f),
        Term::Apply(f, _, parts) => mix(mix(16, key_of_symbol(f)), key_of_list(parts)),
        Term::Not(a) => mix(17, key(a)),
        Term::Binary(of, a, b) => mix(mix(key_of_operator(*of), key(a)), key(b)),
        Term::Ite(c, a, b) => mix(mix(mix(18, key(c)), key(a)), key(b)),
        Term::AllOf(parts) => mix(19, key_of_list(parts)),
        Term::SomeOf(parts) => mix(20, key_of_list(parts)),
    }
}

/// The key of a list of terms.
#[cycle(keys)]
fn key_of_list(parts: &Terms) -> u64
    ensures { result ≡ list_key (terms parts.now) }
{
    match parts {
        Terms::None => 21,
        Terms::More(t, rest) => mix(key(t), key_of_list(rest)),
    }
}

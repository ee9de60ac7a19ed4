//! How many parts a term has.
ghost use Rattle.std.specs.Prelude.{◌≡◌, ◌<◌, ◌^◌, true, length};
ghost use Rattle.vx_terms.specs.Views.{term, terms};
ghost use Rattle.cs_certificate.specs.Terms.{items};
ghost use Rattle.cs_numbers.specs.Parts.{HasFewParts};

use vx_terms::{Term, Terms};

/// Whether 32 bits count the terms of a list.
fn is_short(parts: &Terms) -> bool
    ensures { result ≡ true → length (items (terms parts.now)) < 2 ^ 32 }
{
    let mut rest = parts;
    for _ in 0..u32::MAX {
        match rest {
            Terms::None => return true,
            Terms::More(_, next) => rest = next,
        }
    }
    false
}

/// Whether 32 bits count the parts of a term.
pub fn has_few_parts(t: &Term) -> bool
    ensures { result ≡ true → HasFewParts (term t.now) }
{
    match t {
        Term::Truth(_) | Term::Number(_) | Term::Part(_) | Term::Constant(_, _) => true,
        Term::Not(_) | Term::Binary(_, _, _) | Term::Ite(_, _, _) => true,
        Term::Apply(_, _, parts) | Term::AllOf(parts) | Term::SomeOf(parts) => is_short(parts),
    }
}

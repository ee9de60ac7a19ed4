//! All that stands in a term, with keys: one walk gives the key of each from those of its parts.
ghost use Rattle.std.specs.Prelude.{◌≡◌, ◌++◌, reverse, IfOk, OnOk};
ghost use Rattle.vx_terms.specs.Views.{term, terms};
ghost use Rattle.cs_certificate.specs.Terms.{subterms, all_subterms};
ghost use Rattle.cs_numbers.specs.Inner.{inner};
ghost use Rattle.cs_numbers.specs.Keys.{term_key, list_key};
ghost use Rattle.cs_numbers.specs.Forest.{seen};

use crate::key::key;
use crate::occurrence::Occurrence;
use cs_index::mix;
use cs_table::{key_of_operator, key_of_symbol};
use std::alloc::AllocError;
use std::rc::Rc;
use vx_terms::{Term, Terms};

/// A term behind all that stands in it, and its key.
#[cycle(putting)]
pub(crate) fn put(all: &mut Vec<Occurrence>, t: &Rc<Term>) -> Result<u64, AllocError>
    ensures key { IfOk result (λ k. k ≡ term_key (term t.now.value)) }
    ensures all { OnOk result (seen all.new.items ≡ seen all.old.items ++ reverse (subterms (term t.now.value))) }
{
    let before = all.len();
    let key = put_inner(all, t)?;
    let within = all.len() - before;
    let of = t.clone()?;
    all.push(Occurrence { of, key, within })?;
    Ok(key)
}

/// All that stands in a term, the last part first, and the term's key.
#[cycle(putting)]
fn put_inner(all: &mut Vec<Occurrence>, t: &Term) -> Result<u64, AllocError>
    ensures key { IfOk result (λ k. k ≡ term_key (term t.now)) }
    ensures all { OnOk result (seen all.new.items ≡ seen all.old.items ++ reverse (inner (term t.now))) }
{
    match t {
        Term::Truth(_) | Term::Number(_) | Term::Part(_) | Term::Constant(_, _) => Ok(key(t)),
        Term::Apply(f, _, parts) => {
            let list = put_list(all, parts)?;
            Ok(mix(mix(16, key_of_symbol(f)), list))
        }
        Term::Not(a) => {
            let only = put(all, a)?;
            Ok(mix(17, only))
        }
        Term::Binary(of, a, b) => {
            let second = put(all, b)?;
            let first = put(all, a)?;
            Ok(mix(mix(key_of_operator(*of), first), second))
        }
        Term::Ite(c, a, b) => {
            let third = put(all, b)?;
            let second = put(all, a)?;
            let first = put(all, c)?;
            Ok(mix(mix(mix(18, first), second), third))
        }
        Term::AllOf(parts) => {
            let list = put_list(all, parts)?;
            Ok(mix(19, list))
        }
        Term::SomeOf(parts) => {
            let list = put_list(all, parts)?;
            Ok(mix(20, list))
        }
    }
}

/// All that stands in a list of terms, the last one first, and the list's key.
#[cycle(putting)]
fn put_list(all: &mut Vec<Occurrence>, parts: &Rc<Terms>) -> Result<u64, AllocError>
    ensures key { IfOk result (λ k. k ≡ list_key (terms parts.now.value)) }
    ensures all { OnOk result (seen all.new.items ≡ seen all.old.items ++ reverse (all_subterms (terms parts.now.value))) }
{
    match &**parts {
        Terms::None => Ok(21),
        Terms::More(t, rest) => {
            let others = put_list(all, rest)?;
            let first = put(all, t)?;
            Ok(mix(first, others))
        }
    }
}

// Whether a term is writable. What is still to be looked at is kept in a list: a term may be as deep as an assertion is long.
ghost use Rattle.std.specs.Prelude.{◌≡◌, ◌<◌, ◌+◌, ◌&&◌, IfOk, OnOk};
ghost use Rattle.vx_terms.specs.Parts.{parts};
ghost use Rattle.vx_terms.specs.Views.{term, terms};
ghost use Rattle.vx_smt_text.specs.Unique as three;
ghost use Rattle.cs_writable.specs.Writable as some;
ghost use Rattle.cs_writable.specs.Tests as tests;
ghost use Rattle.cs_writable.specs.Pending.{one_writable, all_writable, load_of, load};

use crate::small::Small;
use std::alloc::{AllocError, Global};
use vx_terms::{Term, Terms};

/// What is still to be looked at of a term.
#[derive(Clone, Copy)]
pub enum Pending<'t> {
    Term(&'t Term),
    Parts(&'t Terms),
}

fn has_some(all: &Terms) -> bool
    ensures { result ≡ some.has_some (terms all.now) }
{
    match all {
        Terms::None => false,
        Terms::More(_, _) => true,
    }
}

fn has_three(all: &Terms) -> bool
    ensures { result ≡ three.has_three (terms all.now) }
{
    match all {
        Terms::None => false,
        Terms::More(_, rest) => match &**rest {
            Terms::None => false,
            Terms::More(_, rest) => has_some(rest),
        },
    }
}

/// Puts it before all else that is still to be looked at.
#[tactic(auto, using(crate::proofs::Pendings::writable_more, crate::proofs::Pendings::load_more))]
fn put_off<'t>(pending: &mut Vec<Pending<'t>>, what: Pending<'t>) -> Result<(), AllocError>
    ensures told { OnOk result (all_writable pending.new.items ≡ (one_writable what.entry && all_writable pending.old.items)) }
    ensures load { OnOk result (load pending.new.items ≡ load_of what.entry + load pending.old.items) }
{
    pending.push(what)?;
    Ok(())
}

/// Looks at a term's own number and at how many parts it has, and puts its parts off.
#[tactic(auto, using(crate::proofs::Pendings::and_parted))]
fn look_at_node<'t>(pending: &mut Vec<Pending<'t>>, t: &'t Term) -> Result<bool, AllocError>
    ensures told { IfOk result (λ b. (b && all_writable pending.new.items) ≡ (tests.is_writable_term (term t.now) && all_writable pending.old.items)) }
    ensures load { OnOk result (load pending.new.items < parts (term t.now) + load pending.old.items) }
{
    match t {
        Term::Truth(_) | Term::Constant(_, _) => Ok(true),
        Term::Number(z) => Ok(z.unsigned_abs().is_small()),
        Term::Part(part) => Ok(part.is_small()),
        Term::Apply(_, _, all) => {
            put_off(pending, Pending::Parts(all))?;
            Ok(has_some(all))
        }
        Term::AllOf(all) | Term::SomeOf(all) => {
            put_off(pending, Pending::Parts(all))?;
            Ok(has_three(all))
        }
        Term::Not(part) => {
            put_off(pending, Pending::Term(part))?;
            Ok(true)
        }
        Term::Binary(_, left, right) => {
            put_off(pending, Pending::Term(right))?;
            put_off(pending, Pending::Term(left))?;
            Ok(true)
        }
        Term::Ite(condition, left, right) => {
            put_off(pending, Pending::Term(right))?;
            put_off(pending, Pending::Term(left))?;
            put_off(pending, Pending::Term(condition))?;
            Ok(true)
        }
    }
}

/// Looks at what begins something that was put off, and puts the rest of it off.
#[tactic(auto, using(crate::proofs::Pendings::and_parted))]
fn look_at_next<'t>(pending: &mut Vec<Pending<'t>>, next: Pending<'t>) -> Result<bool, AllocError>
    ensures told { IfOk result (λ b. (b && all_writable pending.new.items) ≡ (one_writable next.entry && all_writable pending.old.items)) }
    ensures load { OnOk result (load pending.new.items < load_of next.entry + load pending.old.items) }
{
    match next {
        Pending::Term(t) => look_at_node(pending, t),
        Pending::Parts(all) => match all {
            Terms::None => Ok(true),
            Terms::More(t, rest) => {
                put_off(pending, Pending::Parts(rest))?;
                put_off(pending, Pending::Term(t))?;
                Ok(true)
            }
        },
    }
}

/// Whether a term is writable.
///
/// # Errors
/// Memory runs out.
pub fn is_writable_term(alloc: Global, t: &Term) -> Result<bool, AllocError>
    ensures { IfOk result (λ b. b ≡ tests.is_writable_term (term t.now)) }
{
    let mut pending = Vec::new(alloc);
    put_off(&mut pending, Pending::Term(t))?;
    while let Some(next) = pending.pop() {
        let fine = look_at_next(&mut pending, next)?;
        if !fine {
            return Ok(false);
        }
    }
    Ok(true)
}

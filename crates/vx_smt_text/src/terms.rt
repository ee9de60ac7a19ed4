// The text of a term. What is still to be written is kept in a list: a term may be as deep as a member is long.
ghost use Rattle.std.specs.Prelude.{◌≡◌, ◌++◌, ◌<◌, ◌+◌, ◌*◌, OnOk};
ghost use Rattle.vx_terms.specs.Parts.{parts};
ghost use Rattle.vx_terms.specs.Terms as Written;
ghost use Rattle.vx_terms.specs.Views.{sort, symbol, operator, term, terms};
ghost use Rattle.vx_smt_text.specs.Text.{term_text};
ghost use Rattle.vx_smt_text.specs.Small.{IsSmallTerm};
ghost use Rattle.vx_smt_text.specs.Pending.{pending_text, texts, load_of, load, IsSmallPending, ArePendingSmall};

use crate::text::{put_number, put_operator, put_part, put_symbol};
use std::alloc::{AllocError, Global};
use vx_terms::{Operator, Sort, Symbol, Term, Terms};

/// What is still to be written of a term.
#[derive(Clone, Copy)]
pub enum Pending<'t> {
    Term(&'t Term),
    /// A blank, and a term.
    Next(&'t Term),
    /// Terms, each behind a blank.
    Args(&'t Terms),
    Close,
}

/// Puts it before all else that is still to be written.
#[tactic(auto, using(crate::proofs::Pendings::texts_more, crate::proofs::Pendings::load_more, crate::proofs::Pendings::small_more))]
fn put_off<'t>(pending: &mut Vec<Pending<'t>>, what: Pending<'t>) -> Result<(), AllocError>
    ensures text { OnOk result (texts pending.new.items ≡ pending_text what.entry ++ texts pending.old.items) }
    ensures load { OnOk result (load pending.new.items ≡ load_of what.entry + load pending.old.items) }
    ensures small { OnOk result (ArePendingSmall pending.new.items → IsSmallPending what.entry × ArePendingSmall pending.old.items) }
{
    pending.push(what)?;
    Ok(())
}

fn put_application<'t>(
    text: &mut Vec<u8>,
    pending: &mut Vec<Pending<'t>>,
    f: &Symbol,
    a: &Sort,
    args: &'t Terms,
) -> Result<(), AllocError>
    ensures text { OnOk result (text.new.items ++ texts pending.new.items
        ≡ text.old.items ++ term_text (Written.Apply (symbol f.now) (sort a.now) (terms args.now)) ++ texts pending.old.items) }
    ensures load { OnOk result (load pending.new.items < 4 * parts (Written.Apply (symbol f.now) (sort a.now) (terms args.now)) + load pending.old.items) }
    ensures small { OnOk result (ArePendingSmall pending.new.items → IsSmallTerm (Written.Apply (symbol f.now) (sort a.now) (terms args.now)) × ArePendingSmall pending.old.items) }
{
    text.push(b'(')?;
    put_symbol(text, f)?;
    put_off(pending, Pending::Close)?;
    put_off(pending, Pending::Args(args))
}

fn put_operation<'t>(
    text: &mut Vec<u8>,
    pending: &mut Vec<Pending<'t>>,
    o: Operator,
    t: &'t Term,
    u: &'t Term,
) -> Result<(), AllocError>
    ensures text { OnOk result (text.new.items ++ texts pending.new.items ≡ text.old.items ++ term_text (Written.Binary (operator o) (term t.now) (term u.now))
        ++ texts pending.old.items) }
    ensures load { OnOk result (load pending.new.items < 4 * parts (Written.Binary (operator o) (term t.now) (term u.now)) + load pending.old.items) }
    ensures small { OnOk result (ArePendingSmall pending.new.items → IsSmallTerm (Written.Binary (operator o) (term t.now) (term u.now)) × ArePendingSmall pending.old.items) }
{
    text.push(b'(')?;
    put_operator(text, o)?;
    put_off(pending, Pending::Close)?;
    put_off(pending, Pending::Next(u))?;
    put_off(pending, Pending::Next(t))
}

fn put_choice<'t>(
    text: &mut Vec<u8>,
    pending: &mut Vec<Pending<'t>>,
    c: &'t Term,
    t: &'t Term,
    u: &'t Term,
) -> Result<(), AllocError>
    ensures text { OnOk result (text.new.items ++ texts pending.new.items ≡ text.old.items ++ term_text (Written.Ite (term c.now) (term t.now) (term u.now))
        ++ texts pending.old.items) }
    ensures load { OnOk result (load pending.new.items < 4 * parts (Written.Ite (term c.now) (term t.now) (term u.now)) + load pending.old.items) }
    ensures small { OnOk result (ArePendingSmall pending.new.items → IsSmallTerm (Written.Ite (term c.now) (term t.now) (term u.now)) × ArePendingSmall pending.old.items) }
{
    text.extend_from_slice(b"(ite ")?;
    put_off(pending, Pending::Close)?;
    put_off(pending, Pending::Next(u))?;
    put_off(pending, Pending::Next(t))?;
    put_off(pending, Pending::Term(c))
}

/// Writes what stands before a term's parts, and puts these off.
fn put_node<'t>(
    text: &mut Vec<u8>,
    pending: &mut Vec<Pending<'t>>,
    t: &'t Term,
) -> Result<(), AllocError>
    ensures text { OnOk result (text.new.items ++ texts pending.new.items ≡ text.old.items ++ term_text (term t.now) ++ texts pending.old.items) }
    ensures load { OnOk result (load pending.new.items < 4 * parts (term t.now) + load pending.old.items) }
    ensures small { OnOk result (ArePendingSmall pending.new.items → IsSmallTerm (term t.now) × ArePendingSmall pending.old.items) }
{
    match t {
        Term::Truth(true) => text.extend_from_slice(b"true"),
        Term::Truth(false) => text.extend_from_slice(b"false"),
        Term::Number(z) => put_number(text, *z),
        Term::Part(part) => put_part(text, *part),
        Term::Constant(f, _) => put_symbol(text, f),
        Term::Apply(f, a, args) => put_application(text, pending, f, a, args),
        Term::Not(t) => {
            text.extend_from_slice(b"(not ")?;
            put_off(pending, Pending::Close)?;
            put_off(pending, Pending::Term(t))
        }
        Term::Binary(o, t, u) => put_operation(text, pending, *o, t, u),
        Term::Ite(c, t, u) => put_choice(text, pending, c, t, u),
        Term::AllOf(all) => {
            text.extend_from_slice(b"(and")?;
            put_off(pending, Pending::Close)?;
            put_off(pending, Pending::Args(all))
        }
        Term::SomeOf(all) => {
            text.extend_from_slice(b"(or")?;
            put_off(pending, Pending::Close)?;
            put_off(pending, Pending::Args(all))
        }
    }
}

/// Writes what begins something that was put off, and puts the rest of it off.
fn put_next<'t>(
    text: &mut Vec<u8>,
    pending: &mut Vec<Pending<'t>>,
    next: Pending<'t>,
) -> Result<(), AllocError>
    ensures text { OnOk result (text.new.items ++ texts pending.new.items ≡ text.old.items ++ pending_text next.entry ++ texts pending.old.items) }
    ensures load { OnOk result (load pending.new.items < load_of next.entry + load pending.old.items) }
    ensures small { OnOk result (ArePendingSmall pending.new.items → IsSmallPending next.entry × ArePendingSmall pending.old.items) }
{
    match next {
        Pending::Term(t) => put_node(text, pending, t),
        Pending::Next(t) => {
            text.push(b' ')?;
            put_off(pending, Pending::Term(t))
        }
        Pending::Args(args) => match args {
            Terms::None => Ok(()),
            Terms::More(t, rest) => {
                put_off(pending, Pending::Args(rest))?;
                put_off(pending, Pending::Next(t))
            }
        },
        Pending::Close => {
            text.push(b')')?;
            Ok(())
        }
    }
}

/// Writes a term at the end. After want of memory some of it may be written.
pub fn put_term(alloc: Global, text: &mut Vec<u8>, t: &Term) -> Result<(), AllocError>
    ensures text { OnOk result (text.new.items ≡ text.old.items ++ term_text (term t.now)) }
    ensures small { OnOk result (IsSmallTerm (term t.now)) }
{
    let mut pending = Vec::new(alloc);
    put_off(&mut pending, Pending::Term(t))?;
    while let Some(next) = pending.pop() {
        put_next(text, &mut pending, next)?;
    }
    Ok(())
}

//! The functions and predicates that a member's parts name.

ghost use Rattle.std.specs.Prelude.{◌≡◌, ◌++◌, ◌∷◌, List, OnOk, map};
ghost use Rattle.vx_ast.specs.Written.{name_of, written_expr, written_all, written_optional, written_clause, written_kind, optional_expr};
ghost use Rattle.vx_typing.specs.Uses as spec;
ghost use Rattle.vx_typing.specs.Uses.{Use};
ghost use Rattle.vx_typing.specs.Seen.{seen, seen_use};

use std::alloc::AllocError;
use std::rc::Rc;
use vx_ast::{Clause, Expr, ExprKind, MemberKind, Name, Place};

/// A name with its place, and whether it is unfolded.
#[derive(Clone, Copy)]
pub struct Named<'a> {
    pub place: Place,
    pub name: &'a str,
    pub unfolds: bool,
}

#[tactic(auto, using(crate::proofs::Found::one_more))]
fn add<'a>(found: &mut Vec<Named<'a>>, u: Named<'a>) -> Result<(), AllocError>
    ensures { OnOk result ((rest : List Use) → seen found.new.items ++ rest ≡ seen found.old.items ++ seen_use u.entry ∷ rest) }
{
    found.push(u)?;
    Ok(())
}

// A function that is applied, or an instance that stands there.
fn add_call<'a>(found: &mut Vec<Named<'a>>, place: Place, name: &'a str) -> Result<(), AllocError>
    ensures { OnOk result ((rest : List Use) → seen found.new.items ++ rest ≡ seen found.old.items ++ spec.calls place name.now ∷ rest) }
{
    let unfolds = false;
    add(
        found,
        Named {
            place,
            name,
            unfolds,
        },
    )
}

// An instance that is unfolded.
fn add_unfolding<'a>(found: &mut Vec<Named<'a>>, i: &'a Name) -> Result<(), AllocError>
    ensures { OnOk result ((rest : List Use) → seen found.new.items ++ rest ≡ seen found.old.items ++ spec.unfolds_it (name_of i.now) ∷ rest) }
{
    let (place, name, unfolds) = (i.place, &i.text, true);
    add(
        found,
        Named {
            place,
            name,
            unfolds,
        },
    )
}

#[cycle(using)]
fn uses_in<'a>(found: &mut Vec<Named<'a>>, es: &'a [Rc<Expr>]) -> Result<(), AllocError>
    ensures { OnOk result ((rest : List Use) → seen found.new.items ++ rest ≡ seen found.old.items ++ spec.uses_in (written_all es.now) rest) }
{
    for e in es {
        uses(found, e)?;
    }
    Ok(())
}

#[cycle(using)]
fn uses_of<'a>(found: &mut Vec<Named<'a>>, e: &'a Option<Rc<Expr>>) -> Result<(), AllocError>
    ensures { OnOk result ((rest : List Use) → seen found.new.items ++ rest ≡ seen found.old.items ++ spec.uses_of (written_optional e.now) rest) }
{
    match e {
        None => Ok(()),
        Some(e) => uses(found, e),
    }
}

// Those in an expression are added: those of its parts first.
#[cycle(using)]
fn uses<'a>(found: &mut Vec<Named<'a>>, e: &'a Expr) -> Result<(), AllocError>
    ensures { OnOk result ((rest : List Use) → seen found.new.items ++ rest ≡ seen found.old.items ++ spec.uses (written_expr e.now) rest) }
{
    let place = e.place;
    match &e.kind {
        ExprKind::Call(name, es) => {
            uses_in(found, es)?;
            add_call(found, place, name)
        }
        ExprKind::Read(under, _) => uses(found, under),
        ExprKind::Unary(_, a) => uses(found, a),
        ExprKind::Binary(_, a, b) => {
            uses(found, a)?;
            uses(found, b)
        }
        ExprKind::Conditional(c, a, b) => {
            uses(found, c)?;
            uses(found, a)?;
            uses(found, b)
        }
        ExprKind::Old(a) => uses(found, a),
        ExprKind::Access(a, amount) => {
            uses(found, a)?;
            uses_of(found, amount)
        }
        ExprKind::Unfolding(i, es, amount, a) => {
            uses_in(found, es)?;
            uses_of(found, amount)?;
            uses(found, a)?;
            add_unfolding(found, i)
        }
        ExprKind::Number(_)
        | ExprKind::Boolean(_)
        | ExprKind::Null
        | ExprKind::Write
        | ExprKind::Nothing
        | ExprKind::Outcome
        | ExprKind::Variable(_) => Ok(()),
    }
}

/// Those of a predicate's body are added.
pub fn uses_of_body<'a>(
    found: &mut Vec<Named<'a>>,
    e: &'a Option<Rc<Expr>>,
) -> Result<(), AllocError>
    ensures { OnOk result ((rest : List Use) → seen found.new.items ++ rest ≡ seen found.old.items ++ spec.uses_of_body (optional_expr e.now) rest) }
{
    match e {
        None => Ok(()),
        Some(e) => uses(found, e),
    }
}

// Those of a clause of a contract are added, or of a precondition alone.

fn uses_of_clause<'a>(found: &mut Vec<Named<'a>>, c: &'a Clause) -> Result<(), AllocError>
    ensures { OnOk result ((rest : List Use) → seen found.new.items ++ rest ≡ seen found.old.items ++ spec.uses_of_clause (written_clause c.now) rest) }
{
    match c {
        Clause::Requires(e) => uses(found, e),
        Clause::Ensures(e) => uses(found, e),
        Clause::Decreases(_) => Ok(()),
    }
}

fn uses_of_precondition<'a>(found: &mut Vec<Named<'a>>, c: &'a Clause) -> Result<(), AllocError>
    ensures { OnOk result ((rest : List Use) → seen found.new.items ++ rest ≡ seen found.old.items ++ spec.uses_of_precondition (written_clause c.now) rest) }
{
    match c {
        Clause::Requires(e) => uses(found, e),
        Clause::Ensures(_) => Ok(()),
        Clause::Decreases(_) => Ok(()),
    }
}

/// Those of preconditions are added.
pub fn uses_before<'a>(found: &mut Vec<Named<'a>>, cs: &'a [Clause]) -> Result<(), AllocError>
    ensures { OnOk result ((rest : List Use) → seen found.new.items ++ rest ≡ seen found.old.items ++ spec.uses_before (map written_clause cs.now) rest) }
{
    for c in cs {
        uses_of_precondition(found, c)?;
    }
    Ok(())
}

fn uses_of_clauses<'a>(found: &mut Vec<Named<'a>>, cs: &'a [Clause]) -> Result<(), AllocError>
    ensures { OnOk result ((rest : List Use) → seen found.new.items ++ rest ≡ seen found.old.items ++ spec.uses_of_clauses (map written_clause cs.now) rest) }
{
    for c in cs {
        uses_of_clause(found, c)?;
    }
    Ok(())
}

/// Those of a member are added: of a function in its contract and its body, of a predicate in its body.
pub fn uses_by<'a>(found: &mut Vec<Named<'a>>, kind: &'a MemberKind) -> Result<(), AllocError>
    ensures { OnOk result ((rest : List Use) → seen found.new.items ++ rest ≡ seen found.old.items ++ spec.uses_by (written_kind kind.now) rest) }
{
    match kind {
        MemberKind::Function(f) => {
            uses_of_clauses(found, &f.clauses)?;
            uses(found, &f.body)
        }
        MemberKind::Predicate(d) => uses_of_body(found, &d.body),
        MemberKind::Field(_) => Ok(()),
        MemberKind::Method(_) => Ok(()),
    }
}

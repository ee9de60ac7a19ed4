//! Functions, settled.

ghost use Rattle.std.specs.Prelude.{◌≡◌, ◌++◌, ◌∷◌, List, IfOk, OnOk, map};
ghost use Rattle.vx_ast.specs.declared.MemberKind.TheVariants as kinds;
ghost use Rattle.vx_ast.specs.Resolve as resolve;
ghost use Rattle.vx_ast.specs.Resolve.{expression as settled_of, expressions as settled_all};
ghost use Rattle.vx_ast.specs.Syntax as Syntax;
ghost use Rattle.vx_ast.specs.Written as written;
ghost use Rattle.vx_ast.specs.Written.{ensures_of, measure_of, written_all, written_clause, written_expr, written_kind};
ghost use Rattle.vx_resolved.specs.Resolved as view;
ghost use Rattle.vx_settling.specs.Names.{names_in};

use crate::clauses::preconditions;
use crate::expr::{expression, expressions, shared};
use crate::members::declarations;
use crate::names::Names;
use std::alloc::{AllocError, Global};
use std::rc::Rc;
use vx_ast::{Clause, Expr, ExprKind, Function, Place};
use vx_resolved::Measure;

// The value of an expression as a measure.
fn by_number(alloc: Global, e: &Expr) -> Result<Measure, AllocError>
    ensures { IfOk result (λ m. view.measure m ≡ Syntax.ByNumber (settled_of (written_expr e.now))) }
{
    Ok(Measure::Number(expression(alloc, e)?))
}

// An instance of a predicate as a measure.
fn by_instance(
    alloc: Global,
    place: Place,
    name: &str,
    arguments: &[Rc<Expr>],
) -> Result<Measure, AllocError>
    ensures { IfOk result (λ m. view.measure m ≡ Syntax.ByInstance place name.now (settled_all (written_all arguments.now))) }
{
    let name = shared(alloc, name)?;
    let arguments = expressions(alloc, arguments)?;
    Ok(Measure::Instance(place, name, arguments))
}

// A measure: an instance where the name that is called is a predicate's.
fn measure(alloc: Global, names: &Names, e: &Expr) -> Result<Measure, AllocError>
    ensures { IfOk result (λ m. view.measure m ≡ resolve.measure (names_in names.now) (written_expr e.now)) }
{
    match &e.kind {
        ExprKind::Call(name, arguments) => {
            if names.is_predicate(name) {
                by_instance(alloc, e.place, name, arguments)
            } else {
                by_number(alloc, e)
            }
        }
        ExprKind::Number(_)
        | ExprKind::Boolean(_)
        | ExprKind::Null
        | ExprKind::Write
        | ExprKind::Nothing
        | ExprKind::Outcome
        | ExprKind::Variable(_)
        | ExprKind::Read(_, _)
        | ExprKind::Unary(_, _)
        | ExprKind::Binary(_, _, _)
        | ExprKind::Conditional(_, _, _)
        | ExprKind::Old(_)
        | ExprKind::Access(_, _)
        | ExprKind::Unfolding(_, _, _, _) => by_number(alloc, e),
    }
}

// The measure of a function, if its clauses name one.
fn measured(alloc: Global, names: &Names, all: &[Clause]) -> Result<Option<Measure>, AllocError>
    ensures { IfOk result (λ m. view.optional_measure m ≡ resolve.optional_measure (names_in names.now) (measure_of (map written_clause all.now))) }
{
    for clause in all {
        match clause {
            Clause::Requires(_) => {}
            Clause::Ensures(_) => {}
            Clause::Decreases(e) => return Ok(Some(measure(alloc, names, e)?)),
        }
    }
    Ok(None)
}

// One clause more: what it ensures.
#[tactic(auto, using(crate::proofs::Lists::expression_behind))]
fn add_promise(
    alloc: Global,
    clause: &Clause,
    promises: &mut Vec<Rc<vx_resolved::Expr>>,
) -> Result<(), AllocError>
    ensures { OnOk result ((rest : List written.Clause) → view.expressions promises.new.items ++ map settled_of (ensures_of rest)
        ≡ view.expressions promises.old.items ++ map settled_of (ensures_of (written_clause clause.now ∷ rest))) }
{
    match clause {
        Clause::Requires(_) => Ok(()),
        Clause::Ensures(e) => {
            promises.push(expression(alloc, e)?)?;
            Ok(())
        }
        Clause::Decreases(_) => Ok(()),
    }
}

// What clauses ensure, in order.
fn promises(alloc: Global, all: &[Clause]) -> Result<Vec<Rc<vx_resolved::Expr>>, AllocError>
    ensures { IfOk result (λ v. view.expressions v.items ≡ map settled_of (ensures_of (map written_clause all.now))) }
{
    let mut promises = Vec::new(alloc);
    for clause in all {
        add_promise(alloc, clause, &mut promises)?;
    }
    Ok(promises)
}

/// A function, settled.
pub(crate) fn function(
    alloc: Global,
    names: &Names,
    place: Place,
    f: &Function,
) -> Result<vx_resolved::Kind, AllocError>
    ensures { IfOk result (λ r. view.kind r ≡ resolve.kind (names_in names.now) place (written_kind (kinds.Function f.now))) }
{
    let parameters = declarations(alloc, &f.parameters)?;
    let preconditions = preconditions(alloc, names, &f.clauses)?;
    let postconditions = promises(alloc, &f.clauses)?;
    let measure = measured(alloc, names, &f.clauses)?;
    let body = expression(alloc, &f.body)?;
    let settled = vx_resolved::Function {
        place,
        parameters,
        of: f.value_type,
        preconditions,
        postconditions,
        measure,
        body,
    };
    Ok(vx_resolved::Kind::Function(Rc::new(alloc, settled)?))
}

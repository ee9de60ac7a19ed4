//! Expressions, settled.

ghost use Rattle.std.specs.Prelude.{◌≡◌, IfOk};
ghost use Rattle.vx_ast.specs.Written.{written_all, written_expr, written_optional};
ghost use Rattle.vx_ast.specs.Resolve.{amount, expression, expressions, unary_of, binary_of, part_of};
ghost use Rattle.vx_resolved.specs.Resolved.{expr, exprs, operator, division, connective};
ghost use Rattle.vx_ast.specs.Syntax as Syntax;

use std::alloc::{AllocError, Global};
use std::rc::Rc;
use vx_ast::{BinaryOperator, Expr, ExprKind, Place, UnaryOperator};
use vx_resolved::{Connective, Division, Exprs, Operator};

/// An expression, to be shared.
pub fn shared_expr(alloc: Global, e: vx_resolved::Expr) -> Result<Rc<vx_resolved::Expr>, AllocError>
    ensures { IfOk result (λ r. expr r.value ≡ expr e) }
{
    Ok(Rc::new(alloc, e)?)
}

fn operate(
    alloc: Global,
    place: Place,
    op: Operator,
    a: Rc<vx_resolved::Expr>,
    b: Rc<vx_resolved::Expr>,
) -> Result<Rc<vx_resolved::Expr>, AllocError>
    ensures { IfOk result (λ e. expr e.value ≡ Syntax.Operate place (operator op) (expr a.value) (expr b.value)) }
{
    shared_expr(alloc, vx_resolved::Expr::Operate(place, op, a, b))
}

fn connect(
    alloc: Global,
    place: Place,
    op: Connective,
    a: Rc<vx_resolved::Expr>,
    b: Rc<vx_resolved::Expr>,
) -> Result<Rc<vx_resolved::Expr>, AllocError>
    ensures { IfOk result (λ e. expr e.value ≡ Syntax.Connect place (connective op) (expr a.value) (expr b.value)) }
{
    shared_expr(alloc, vx_resolved::Expr::Connect(place, op, a, b))
}

fn negate(
    alloc: Global,
    place: Place,
    e: Rc<vx_resolved::Expr>,
) -> Result<Rc<vx_resolved::Expr>, AllocError>
    ensures { IfOk result (λ r. expr r.value ≡ Syntax.Not place (expr e.value)) }
{
    shared_expr(alloc, vx_resolved::Expr::Not(place, e))
}

fn divide(
    alloc: Global,
    place: Place,
    op: Division,
    a: Rc<vx_resolved::Expr>,
    b: Rc<vx_resolved::Expr>,
) -> Result<Rc<vx_resolved::Expr>, AllocError>
    ensures { IfOk result (λ e. expr e.value ≡ Syntax.Divide place (division op) (expr a.value) (expr b.value)) }
{
    shared_expr(alloc, vx_resolved::Expr::Divide(place, op, a, b))
}

/// The null reference.
pub fn null(alloc: Global, place: Place) -> Result<Rc<vx_resolved::Expr>, AllocError>
    ensures { IfOk result (λ e. expr e.value ≡ Syntax.Null place) }
{
    shared_expr(alloc, vx_resolved::Expr::Null(place))
}

fn fraction(
    alloc: Global,
    place: Place,
    numerator: u128,
    denominator: u128,
) -> Result<Rc<vx_resolved::Expr>, AllocError>
    ensures { IfOk result (λ e. expr e.value ≡ Syntax.Part place numerator denominator) }
{
    shared_expr(
        alloc,
        vx_resolved::Expr::Part(place, numerator, denominator),
    )
}

// A numeral over what should be another.
fn part_over(
    alloc: Global,
    place: Place,
    numerator: u128,
    b: &vx_resolved::Expr,
) -> Result<Rc<vx_resolved::Expr>, AllocError>
    ensures { (at : Place) → IfOk result (λ e. expr e.value ≡ part_of place (Syntax.Number at numerator) (expr b.now)) }
{
    match b {
        vx_resolved::Expr::Number(_, denominator) => {
            fraction(alloc, place, numerator, *denominator)
        }
        vx_resolved::Expr::Truth(_, _)
        | vx_resolved::Expr::Null(_)
        | vx_resolved::Expr::Part(_, _, _)
        | vx_resolved::Expr::Variable(_, _)
        | vx_resolved::Expr::Not(_, _)
        | vx_resolved::Expr::Operate(_, _, _, _)
        | vx_resolved::Expr::Divide(_, _, _, _)
        | vx_resolved::Expr::Connect(_, _, _, _)
        | vx_resolved::Expr::Choose(_, _, _, _)
        | vx_resolved::Expr::Read(_, _, _)
        | vx_resolved::Expr::Old(_, _)
        | vx_resolved::Expr::Apply(_, _, _)
        | vx_resolved::Expr::Unfolding(_, _, _, _, _) => null(alloc, place),
    }
}

// The fraction of two numerals. Other operands of `/` are typed in no program.
fn part(
    alloc: Global,
    place: Place,
    a: &vx_resolved::Expr,
    b: &vx_resolved::Expr,
) -> Result<Rc<vx_resolved::Expr>, AllocError>
    ensures { IfOk result (λ e. expr e.value ≡ part_of place (expr a.now) (expr b.now)) }
{
    match a {
        vx_resolved::Expr::Number(_, numerator) => part_over(alloc, place, *numerator, b),
        vx_resolved::Expr::Truth(_, _)
        | vx_resolved::Expr::Null(_)
        | vx_resolved::Expr::Part(_, _, _)
        | vx_resolved::Expr::Variable(_, _)
        | vx_resolved::Expr::Not(_, _)
        | vx_resolved::Expr::Operate(_, _, _, _)
        | vx_resolved::Expr::Divide(_, _, _, _)
        | vx_resolved::Expr::Connect(_, _, _, _)
        | vx_resolved::Expr::Choose(_, _, _, _)
        | vx_resolved::Expr::Read(_, _, _)
        | vx_resolved::Expr::Old(_, _)
        | vx_resolved::Expr::Apply(_, _, _)
        | vx_resolved::Expr::Unfolding(_, _, _, _, _) => null(alloc, place),
    }
}

// A node of two operands.
fn binary(
    alloc: Global,
    place: Place,
    op: BinaryOperator,
    a: Rc<vx_resolved::Expr>,
    b: Rc<vx_resolved::Expr>,
) -> Result<Rc<vx_resolved::Expr>, AllocError>
    ensures { IfOk result (λ e. expr e.value ≡ binary_of place op (expr a.value) (expr b.value)) }
{
    match op {
        BinaryOperator::And => connect(alloc, place, Connective::And, a, b),
        BinaryOperator::Or => connect(alloc, place, Connective::Or, a, b),
        BinaryOperator::Implies => connect(alloc, place, Connective::Implies, a, b),
        BinaryOperator::Equal => operate(alloc, place, Operator::Equal, a, b),
        BinaryOperator::NotEqual => {
            let same = operate(alloc, place, Operator::Equal, a, b)?;
            negate(alloc, place, same)
        }
        BinaryOperator::Less => operate(alloc, place, Operator::Less, a, b),
        BinaryOperator::LessEqual => operate(alloc, place, Operator::LessEqual, a, b),
        BinaryOperator::Greater => operate(alloc, place, Operator::Greater, a, b),
        BinaryOperator::GreaterEqual => operate(alloc, place, Operator::GreaterEqual, a, b),
        BinaryOperator::Add => operate(alloc, place, Operator::Add, a, b),
        BinaryOperator::Subtract => operate(alloc, place, Operator::Subtract, a, b),
        BinaryOperator::Multiply => operate(alloc, place, Operator::Multiply, a, b),
        BinaryOperator::Divide => part(alloc, place, &a, &b),
        BinaryOperator::Quotient => divide(alloc, place, Division::Quotient, a, b),
        BinaryOperator::Remainder => divide(alloc, place, Division::Remainder, a, b),
    }
}

fn number(alloc: Global, place: Place, n: u128) -> Result<Rc<vx_resolved::Expr>, AllocError>
    ensures { IfOk result (λ r. expr r.value ≡ Syntax.Number place n) }
{
    shared_expr(alloc, vx_resolved::Expr::Number(place, n))
}

fn truth(alloc: Global, place: Place, b: bool) -> Result<Rc<vx_resolved::Expr>, AllocError>
    ensures { IfOk result (λ r. expr r.value ≡ Syntax.Truth place b) }
{
    shared_expr(alloc, vx_resolved::Expr::Truth(place, b))
}

fn minus(
    alloc: Global,
    place: Place,
    e: Rc<vx_resolved::Expr>,
) -> Result<Rc<vx_resolved::Expr>, AllocError>
    ensures { IfOk result (λ r. expr r.value ≡ unary_of place UnaryOperator.Negate (expr e.value)) }
{
    let zero = number(alloc, place, 0)?;
    operate(alloc, place, Operator::Subtract, zero, e)
}

fn unary(
    alloc: Global,
    place: Place,
    op: UnaryOperator,
    e: Rc<vx_resolved::Expr>,
) -> Result<Rc<vx_resolved::Expr>, AllocError>
    ensures { IfOk result (λ r. expr r.value ≡ unary_of place op (expr e.value)) }
{
    match op {
        UnaryOperator::Not => negate(alloc, place, e),
        UnaryOperator::Negate => minus(alloc, place, e),
    }
}

/// A name of its own, to be shared.
pub fn shared(alloc: Global, text: &str) -> Result<Rc<String>, AllocError>
    ensures { IfOk result (λ x. Rattle.std.specs.Prelude.string_bytes x.value ≡ text.now) }
{
    let text = String::from_str(alloc, text)?;
    Ok(Rc::new(alloc, text)?)
}

fn variable(alloc: Global, place: Place, name: &str) -> Result<Rc<vx_resolved::Expr>, AllocError>
    ensures { IfOk result (λ r. expr r.value ≡ Syntax.Variable place name.now) }
{
    let name = shared(alloc, name)?;
    shared_expr(alloc, vx_resolved::Expr::Variable(place, name))
}

fn outcome(alloc: Global, place: Place) -> Result<Rc<vx_resolved::Expr>, AllocError>
    ensures { IfOk result (λ r. expr r.value ≡ Syntax.Variable place Syntax.result_name) }
{
    variable(alloc, place, "result")
}

fn read(
    alloc: Global,
    place: Place,
    e: Rc<vx_resolved::Expr>,
    field: &str,
) -> Result<Rc<vx_resolved::Expr>, AllocError>
    ensures { IfOk result (λ r. expr r.value ≡ Syntax.Read place (expr e.value) field.now) }
{
    let field = shared(alloc, field)?;
    shared_expr(alloc, vx_resolved::Expr::Read(place, e, field))
}

fn apply(
    alloc: Global,
    place: Place,
    name: &str,
    arguments: Rc<Exprs>,
) -> Result<Rc<vx_resolved::Expr>, AllocError>
    ensures { IfOk result (λ r. expr r.value ≡ Syntax.Apply place name.now (exprs arguments.value)) }
{
    let name = shared(alloc, name)?;
    shared_expr(alloc, vx_resolved::Expr::Apply(place, name, arguments))
}

fn choose(
    alloc: Global,
    place: Place,
    c: Rc<vx_resolved::Expr>,
    a: Rc<vx_resolved::Expr>,
    b: Rc<vx_resolved::Expr>,
) -> Result<Rc<vx_resolved::Expr>, AllocError>
    ensures { IfOk result (λ r. expr r.value ≡ Syntax.Choose place (expr c.value) (expr a.value) (expr b.value)) }
{
    shared_expr(alloc, vx_resolved::Expr::Choose(place, c, a, b))
}

fn old(
    alloc: Global,
    place: Place,
    e: Rc<vx_resolved::Expr>,
) -> Result<Rc<vx_resolved::Expr>, AllocError>
    ensures { IfOk result (λ r. expr r.value ≡ Syntax.Old place (expr e.value)) }
{
    shared_expr(alloc, vx_resolved::Expr::Old(place, e))
}

fn unfolding(
    alloc: Global,
    place: Place,
    name: &str,
    arguments: Rc<Exprs>,
    share: Rc<vx_resolved::Expr>,
    e: Rc<vx_resolved::Expr>,
) -> Result<Rc<vx_resolved::Expr>, AllocError>
    ensures { IfOk result (λ r. expr r.value ≡ Syntax.Unfolding place name.now (exprs arguments.value) (expr share.value) (expr e.value)) }
{
    let name = shared(alloc, name)?;
    shared_expr(
        alloc,
        vx_resolved::Expr::Unfolding(place, name, arguments, share, e),
    )
}

/// How much is held, settled: all where nothing stands.
#[cycle(expressions)]
pub fn amount(
    alloc: Global,
    place: Place,
    share: &Option<Rc<Expr>>,
) -> Result<Rc<vx_resolved::Expr>, AllocError>
    ensures { IfOk result (λ r. expr r.value ≡ amount place (written_optional share.now)) }
{
    match share {
        None => fraction(alloc, place, 1, 1),
        Some(e) => expression(alloc, e),
    }
}

/// Expressions, settled, in order.
#[cycle(expressions)]
pub fn expressions(alloc: Global, all: &[Rc<Expr>]) -> Result<Rc<Exprs>, AllocError>
    ensures { IfOk result (λ r. exprs r.value ≡ expressions (written_all all.now)) }
{
    let mut settled = Rc::new(alloc, Exprs::NoMore)?;
    let mut left = all.len();
    while left > 0 {
        left -= 1;
        let first = expression(alloc, &all[left])?;
        settled = Rc::new(alloc, Exprs::More(first, settled))?;
    }
    Ok(settled)
}

/// An expression, settled.
#[cycle(expressions)]
pub fn expression(alloc: Global, e: &Expr) -> Result<Rc<vx_resolved::Expr>, AllocError>
    ensures { IfOk result (λ r. expr r.value ≡ expression (written_expr e.now)) }
{
    let place = e.place;
    match &e.kind {
        ExprKind::Number(n) => number(alloc, place, *n),
        ExprKind::Boolean(b) => truth(alloc, place, *b),
        ExprKind::Null => null(alloc, place),
        ExprKind::Write => fraction(alloc, place, 1, 1),
        ExprKind::Nothing => fraction(alloc, place, 0, 1),
        ExprKind::Outcome => outcome(alloc, place),
        ExprKind::Variable(name) => variable(alloc, place, name),
        ExprKind::Call(name, arguments) => {
            let arguments = expressions(alloc, arguments)?;
            apply(alloc, place, name, arguments)
        }
        ExprKind::Read(a, field) => {
            let a = expression(alloc, a)?;
            read(alloc, place, a, &field.text)
        }
        ExprKind::Unary(op, a) => {
            let a = expression(alloc, a)?;
            unary(alloc, place, *op, a)
        }
        ExprKind::Binary(op, a, b) => {
            let a = expression(alloc, a)?;
            let b = expression(alloc, b)?;
            binary(alloc, place, *op, a, b)
        }
        ExprKind::Conditional(c, a, b) => {
            let c = expression(alloc, c)?;
            let a = expression(alloc, a)?;
            let b = expression(alloc, b)?;
            choose(alloc, place, c, a, b)
        }
        ExprKind::Old(a) => {
            let a = expression(alloc, a)?;
            old(alloc, place, a)
        }
        // Typed as an assertion alone.
        ExprKind::Access(_, _) => null(alloc, place),
        ExprKind::Unfolding(name, arguments, share, a) => {
            let arguments = expressions(alloc, arguments)?;
            let share = amount(alloc, place, share)?;
            let a = expression(alloc, a)?;
            unfolding(alloc, place, &name.text, arguments, share, a)
        }
    }
}

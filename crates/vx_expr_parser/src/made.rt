//! The nodes of expressions.

ghost use Rattle.std.specs.Prelude.{◌≡◌, IfOk, string_bytes};
ghost use Rattle.vx_grammar.specs.Grammar.{unfolding_of};
ghost use Rattle.vx_expr_parser.specs.Views.{instance_of};
ghost use Rattle.vx_ast.specs.Written.{Unary, Binary, Choice, Call, Variable, Read, Old, Access, name_of, written_all, written_expr, written_optional};

use std::alloc::{AllocError, Global};
use std::rc::Rc;
use vx_ast::{BinaryOperator, Expr, ExprKind, Instance, Name, Place, UnaryOperator};

/// A node without parts.
pub fn leaf(place: Place, kind: ExprKind) -> Expr
    ensures { result.place ≡ place × (result.kind ≡ kind) }
{
    Expr { place, kind }
}

/// An operand behind a prefix.
pub fn prefixed(alloc: Global, place: Place, op: UnaryOperator, e: Expr) -> Result<Expr, AllocError>
    ensures { IfOk result (λ whole. written_expr whole ≡ Unary place op (written_expr e)) }
{
    let kind = ExprKind::Unary(op, Rc::new(alloc, e)?);
    Ok(Expr { place, kind })
}

/// Two operands and the operator between them.
pub fn joined(place: Place, op: BinaryOperator, left: Rc<Expr>, right: Rc<Expr>) -> Expr
    ensures { written_expr result ≡ Binary place op (written_expr left.value) (written_expr right.value) }
{
    let kind = ExprKind::Binary(op, left, right);
    Expr { place, kind }
}

/// A condition and its two sides.
pub fn chosen(place: Place, condition: Rc<Expr>, left: Rc<Expr>, right: Rc<Expr>) -> Expr
    ensures { written_expr result ≡ Choice place (written_expr condition.value) (written_expr left.value) (written_expr right.value) }
{
    let kind = ExprKind::Conditional(condition, left, right);
    Expr { place, kind }
}

/// A variable.
pub fn variable(alloc: Global, place: Place, name: &str) -> Result<Expr, AllocError>
    ensures { IfOk result (λ whole. written_expr whole ≡ Variable place name.now) }
{
    let kind = ExprKind::Variable(String::from_str(alloc, name)?);
    Ok(Expr { place, kind })
}

/// A function's application, or a predicate's instance.
pub fn applied(place: Place, name: String, arguments: Vec<Rc<Expr>>) -> Expr
    ensures { written_expr result ≡ Call place (string_bytes name) (written_all arguments.items) }
{
    let kind = ExprKind::Call(name, arguments);
    Expr { place, kind }
}

/// A field of a receiver.
pub fn read(place: Place, receiver: Rc<Expr>, field: Name) -> Expr
    ensures { written_expr result ≡ Read place (written_expr receiver.value) (name_of field) }
{
    let kind = ExprKind::Read(receiver, field);
    Expr { place, kind }
}

/// The old value of an expression.
pub fn old(alloc: Global, place: Place, e: Expr) -> Result<Expr, AllocError>
    ensures { IfOk result (λ whole. written_expr whole ≡ Old place (written_expr e)) }
{
    let kind = ExprKind::Old(Rc::new(alloc, e)?);
    Ok(Expr { place, kind })
}

/// A permission.
pub fn accessed(
    alloc: Global,
    place: Place,
    held: Expr,
    amount: Option<Rc<Expr>>,
) -> Result<Expr, AllocError>
    ensures { IfOk result (λ whole. written_expr whole ≡ Access place (written_expr held) (written_optional amount)) }
{
    let kind = ExprKind::Access(Rc::new(alloc, held)?, amount);
    Ok(Expr { place, kind })
}

/// An expression under an unfolded instance.
pub fn unfolded(place: Place, instance: Instance, body: Rc<Expr>) -> Expr
    ensures { written_expr result ≡ unfolding_of place (instance_of instance) (written_expr body.value) }
{
    let Instance {
        predicate,
        arguments,
        amount,
    } = instance;
    let kind = ExprKind::Unfolding(predicate, arguments, amount, body);
    Expr { place, kind }
}

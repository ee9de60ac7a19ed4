//! Where expressions stand.
ghost use Rattle.std.specs.Prelude.{◌≡◌};
ghost use Rattle.vx_ast.specs.Syntax as syntax;
ghost use Rattle.vx_resolved.specs.Resolved.{expr};

use vx_ast::Place;
use vx_resolved::Expr;

/// Where an expression stands.
pub fn place_of(e: &Expr) -> Place
    ensures { result ≡ syntax.place_of (expr e.now) }
{
    match e {
        Expr::Number(at, _) => *at,
        Expr::Truth(at, _) => *at,
        Expr::Null(at) => *at,
        Expr::Part(at, _, _) => *at,
        Expr::Variable(at, _) => *at,
        Expr::Not(at, _) => *at,
        Expr::Operate(at, _, _, _) => *at,
        Expr::Divide(at, _, _, _) => *at,
        Expr::Connect(at, _, _, _) => *at,
        Expr::Choose(at, _, _, _) => *at,
        Expr::Read(at, _, _) => *at,
        Expr::Old(at, _) => *at,
        Expr::Apply(at, _, _) => *at,
        Expr::Unfolding(at, _, _, _, _) => *at,
    }
}

//! Writing expressions.

ghost use Rattle.std.specs.Prelude.{◌≡◌, ◌++◌, ◌∷◌, [], OnOk, string_bytes, true, vec_items};
ghost use Rattle.vx_ast.specs.Written.{written, written_all, written_expr, written_optional, name_of};
ghost use Rattle.vx_grammar.specs.Grammar as grammar;
ghost use Rattle.vx_tokens.specs.Tokens.{word};
ghost use Rattle.vx_print.specs.Canonical as canonical;
ghost use Rattle.vx_print.specs.Words.{behind};

use crate::token::{put_name, put_number, put_sign, put_text, put_word};
use std::alloc::AllocError;
use std::rc::Rc;
use vx_ast::{BinaryOperator, Expr, ExprKind, Instance, Name, UnaryOperator};
use vx_tokens::{Symbol, Word};

fn level_of(op: BinaryOperator) -> u32
    ensures { result ≡ grammar.level_of op }
{
    match op {
        BinaryOperator::Multiply
        | BinaryOperator::Divide
        | BinaryOperator::Quotient
        | BinaryOperator::Remainder => 1,
        BinaryOperator::Add | BinaryOperator::Subtract => 2,
        BinaryOperator::Less
        | BinaryOperator::LessEqual
        | BinaryOperator::Greater
        | BinaryOperator::GreaterEqual => 3,
        BinaryOperator::Equal | BinaryOperator::NotEqual => 4,
        BinaryOperator::And => 5,
        BinaryOperator::Or => 6,
        BinaryOperator::Implies => 7,
    }
}

// Repeated operators of one level group to the left, and implications to the right.
fn left_level(op: BinaryOperator) -> u32
    ensures { result ≡ grammar.left_level op }
{
    match op {
        BinaryOperator::Implies => 6,
        _ => level_of(op),
    }
}

fn right_level(op: BinaryOperator) -> u32
    ensures { result ≡ grammar.right_level op }
{
    match op {
        BinaryOperator::Implies => 7,
        _ => level_of(op) - 1,
    }
}

fn sign_of(op: BinaryOperator) -> Symbol
    ensures { result ≡ grammar.sign_of op }
{
    match op {
        BinaryOperator::Implies => Symbol::Implies,
        BinaryOperator::Or => Symbol::Or,
        BinaryOperator::And => Symbol::And,
        BinaryOperator::Equal => Symbol::Equal,
        BinaryOperator::NotEqual => Symbol::NotEqual,
        BinaryOperator::Less => Symbol::Less,
        BinaryOperator::LessEqual => Symbol::LessEqual,
        BinaryOperator::Greater => Symbol::Greater,
        BinaryOperator::GreaterEqual => Symbol::GreaterEqual,
        BinaryOperator::Add => Symbol::Plus,
        BinaryOperator::Subtract => Symbol::Minus,
        BinaryOperator::Multiply => Symbol::Times,
        BinaryOperator::Divide => Symbol::Slash,
        BinaryOperator::Quotient => Symbol::Backslash,
        BinaryOperator::Remainder => Symbol::Percent,
    }
}

fn prefix_sign(op: UnaryOperator) -> Symbol
    ensures { result ≡ grammar.prefix_sign op }
{
    match op {
        UnaryOperator::Not => Symbol::Not,
        UnaryOperator::Negate => Symbol::Minus,
    }
}

fn literal_word(b: bool) -> Word
    ensures { result ≡ grammar.literal_word b }
{
    if b { Word::True } else { Word::False }
}

fn is_prefixed(e: &Expr) -> bool
    ensures { result ≡ canonical.is_prefixed (written_expr e.now) }
{
    matches!(e.kind, ExprKind::Unary(_, _))
}

#[tactic(auto, using(crate::proofs::Behind::behind_append))]
fn put_opening(out: &mut String, inside: bool) -> Result<(), AllocError>
    ensures { OnOk result (string_bytes out.new ≡ behind (string_bytes out.old) (canonical.opening inside)) }
{
    if inside {
        put_sign(out, Symbol::Open)
    } else {
        Ok(())
    }
}

fn put_closing(out: &mut String, inside: bool) -> Result<(), AllocError>
    ensures { OnOk result (string_bytes out.new ≡ behind (string_bytes out.old) (canonical.closing inside)) }
{
    if inside {
        put_sign(out, Symbol::Close)
    } else {
        Ok(())
    }
}

// An expression where a level is asked for; no operator follows the last one.
#[cycle(expr)]
#[tactic(auto, using(crate::proofs::Behind::behind_append))]
fn put_expr(out: &mut String, level: u32, last: bool, e: &Expr) -> Result<(), AllocError>
    ensures { OnOk result (string_bytes out.new ≡ behind (string_bytes out.old) (canonical.expr_tokens level last (written_expr e.now))) }
{
    match &e.kind {
        ExprKind::Number(n) => put_number(out, *n),
        ExprKind::Boolean(b) => put_word(out, literal_word(*b)),
        ExprKind::Null => put_word(out, Word::Null),
        ExprKind::Write => put_word(out, Word::Write),
        ExprKind::Nothing => put_word(out, Word::Nothing),
        ExprKind::Outcome => put_word(out, Word::Outcome),
        ExprKind::Variable(x) => put_text(out, x),
        ExprKind::Call(f, es) => put_applied(out, f, es),
        ExprKind::Read(e, f) => put_read(out, e, f),
        ExprKind::Unary(op, e) => {
            put_sign(out, prefix_sign(*op))?;
            put_expr(out, 0, last, e)
        }
        ExprKind::Binary(op, a, b) => {
            let inside = level < level_of(*op);
            put_opening(out, inside)?;
            put_expr(out, left_level(*op), false, a)?;
            put_sign(out, sign_of(*op))?;
            put_expr(out, right_level(*op), inside || last, b)?;
            put_closing(out, inside)
        }
        ExprKind::Conditional(c, a, b) => {
            let inside = level < 8;
            put_opening(out, inside)?;
            put_expr(out, 7, false, c)?;
            put_sign(out, Symbol::Question)?;
            put_expr(out, 8, true, a)?;
            put_sign(out, Symbol::Colon)?;
            put_expr(out, 8, inside || last, b)?;
            put_closing(out, inside)
        }
        ExprKind::Old(e) => {
            put_word(out, Word::Old)?;
            put_sign(out, Symbol::Open)?;
            put_expr(out, 8, true, e)?;
            put_sign(out, Symbol::Close)
        }
        ExprKind::Access(e, amount) => {
            put_word(out, Word::Acc)?;
            put_sign(out, Symbol::Open)?;
            put_expr(out, 8, true, e)?;
            put_sign(out, Symbol::Comma)?;
            put_amount(out, amount)?;
            put_sign(out, Symbol::Close)
        }
        ExprKind::Unfolding(x, es, amount, e) => {
            put_opening(out, !last)?;
            put_word(out, Word::Unfolding)?;
            put_front(out, amount)?;
            put_applied(out, &x.text, es)?;
            put_back(out, amount)?;
            put_word(out, Word::In)?;
            put_expr(out, 8, true, e)?;
            put_closing(out, !last)
        }
    }
}

/// Writes what a dot stands behind, the dot and the field.
#[cycle(expr)]
#[tactic(auto, using(crate::proofs::Behind::behind_append))]
pub fn put_read(out: &mut String, e: &Expr, f: &Name) -> Result<(), AllocError>
    ensures { OnOk result (string_bytes out.new ≡ behind (string_bytes out.old) (canonical.read_tokens (written_expr e.now) (name_of f.now).name)) }
{
    let inside = is_prefixed(e);
    put_opening(out, inside)?;
    put_expr(out, 0, inside, e)?;
    put_closing(out, inside)?;
    put_sign(out, Symbol::Dot)?;
    put_name(out, f)
}

// All where no amount stands.
#[cycle(expr)]
fn put_amount(out: &mut String, amount: &Option<Rc<Expr>>) -> Result<(), AllocError>
    ensures { OnOk result (string_bytes out.new ≡ behind (string_bytes out.old) (canonical.written_amount (canonical.amount_tokens (written_optional amount.now)))) }
{
    match amount {
        None => put_word(out, Word::Write),
        Some(amount) => put_expr(out, 8, true, amount),
    }
}

// What stands in front of an instance with an amount.
fn put_front(out: &mut String, amount: &Option<Rc<Expr>>) -> Result<(), AllocError>
    ensures { OnOk result (string_bytes out.new ≡ behind (string_bytes out.old) (canonical.front (canonical.amount_tokens (written_optional amount.now)))) }
{
    if amount.is_none() {
        return Ok(());
    }
    put_word(out, Word::Acc)?;
    put_sign(out, Symbol::Open)
}

// And what stands behind it.
#[cycle(expr)]
#[tactic(auto, using(crate::proofs::Behind::behind_append))]
fn put_back(out: &mut String, amount: &Option<Rc<Expr>>) -> Result<(), AllocError>
    ensures { OnOk result (string_bytes out.new ≡ behind (string_bytes out.old) (canonical.back (canonical.amount_tokens (written_optional amount.now)))) }
{
    match amount {
        None => Ok(()),
        Some(amount) => {
            put_sign(out, Symbol::Comma)?;
            put_expr(out, 8, true, amount)?;
            put_sign(out, Symbol::Close)
        }
    }
}

/// Writes a name, and arguments between parentheses.
#[cycle(expr)]
#[tactic(auto, using(crate::proofs::Behind::behind_append))]
pub fn put_applied(out: &mut String, x: &str, es: &[Rc<Expr>]) -> Result<(), AllocError>
    ensures { OnOk result (string_bytes out.new ≡ behind (string_bytes out.old) (canonical.applied x.now (canonical.exprs_tokens (written_all es.now)))) }
{
    put_text(out, x)?;
    put_sign(out, Symbol::Open)?;
    put_exprs(out, es)?;
    put_sign(out, Symbol::Close)
}

// With a comma between two.
#[cycle(expr)]
#[tactic(auto, using(crate::proofs::Behind::behind_append))]
fn put_exprs(out: &mut String, es: &[Rc<Expr>]) -> Result<(), AllocError>
    ensures { OnOk result (string_bytes out.new ≡ behind (string_bytes out.old) (canonical.exprs_tokens (written_all es.now))) }
{
    let Some((first, rest)) = es.split_first() else {
        return Ok(());
    };
    put_expr(out, 8, true, first)?;
    for e in rest {
        put_next(out, e)?;
    }
    Ok(())
}

// A comma and an expression.
#[cycle(expr)]
#[tactic(auto, using(crate::proofs::Behind::behind_append))]
fn put_next(out: &mut String, e: &Expr) -> Result<(), AllocError>
    ensures { OnOk result (string_bytes out.new ≡ behind (string_bytes out.old) (canonical.next_tokens (written_expr e.now))) }
{
    put_sign(out, Symbol::Comma)?;
    put_expr(out, 8, true, e)
}

/// Writes an instance with its amount.
#[tactic(auto, using(crate::proofs::Behind::behind_append))]
pub fn put_instance(out: &mut String, i: &Instance) -> Result<(), AllocError>
    ensures { OnOk result (string_bytes out.new ≡ behind (string_bytes out.old)
        (canonical.instance_tokens (name_of i.now.predicate).name (written_all (vec_items i.now.arguments)) (written_optional i.now.amount))) }
{
    put_front(out, &i.amount)?;
    put_applied(out, &i.predicate.text, &i.arguments)?;
    put_back(out, &i.amount)
}

/// Writes an expression that stands by itself.
pub fn put_whole(out: &mut String, e: &Expr) -> Result<(), AllocError>
    ensures { OnOk result (string_bytes out.new ≡ behind (string_bytes out.old) (canonical.whole_tokens (written_expr e.now))) }
{
    put_expr(out, 8, true, e)
}

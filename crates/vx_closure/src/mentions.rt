//! A walk over a member, which is added to the rows of those that its parts mention.

ghost use Rattle.std.specs.Prelude.{◌≡◌, ◌∷◌, [], ◌||◌, ℕ, true, OnOk, Some, flat_map, length, nat_eq, string_bytes};
ghost use Rattle.vx_ast.specs.Apart.{mentioned_by_predicate};
ghost use Rattle.vx_ast.specs.Mentions.{mentioned, mentioned_in, mentioned_by, mentioned_by_function};
ghost use Rattle.vx_ast.specs.Syntax.{IsFunction, IsMethod, method_named};
ghost use Rattle.vx_closure.specs.Known.{Adds};
ghost use Rattle.vx_graph.specs.Listed.{is_in};
ghost use Rattle.vx_resolved.specs.Resolved as resolved;
ghost use Rattle.vx_resolved.specs.Settled.{settled};
ghost use Rattle.vx_types.specs.Closure.{mentioned_by_all, mentioned_by_contract, mentioned_by_stmt, mentioned_by_block, mentioned_by_body, mentioned_by_kind, mentioned_by_measure};

use std::alloc::AllocError;
use std::rc::Rc;
use vx_ast::MemberId;
use vx_resolved::{
    Assertion, Block, Expr, Exprs, Function, Kind, Measure, Method, Predicate, Settled, Stmt,
};

/// For each member, in file order, those that are known to mention it, each once.
pub(crate) type Mentioners = Vec<Vec<MemberId>>;

// Whether a member is the last of a row.
fn is_last(row: &[MemberId], member: MemberId) -> bool
    ensures { result ≡ true → is_in row.now member.0 ≡ true }
{
    match row.last() {
        Some(last) => last.0 == member.0,
        None => false,
    }
}

// One more member mentions the one of a row. Members come in file order, so that only the last can be there already.
fn add_member(row: &mut Vec<MemberId>, by: MemberId) -> Result<(), AllocError>
    ensures { OnOk result ((c : ℕ) → is_in row.new.items c ≡ (is_in row.old.items c || nat_eq by.0 c)) }
{
    if is_last(row, by) {
        return Ok(());
    }
    row.push(by)?;
    Ok(())
}

// The row of the first member of a name gets the one that mentions it.
fn add_name(
    rows: &mut Mentioners,
    program: &Settled,
    by: MemberId,
    name: &Rc<String>,
) -> Result<(), AllocError>
    requires { length rows.old.items ≡ length (settled program.now) }
    ensures members { OnOk result (length rows.new.items ≡ length rows.old.items) }
    ensures added { OnOk result (Adds (settled program.now) by.0 (string_bytes name.now.value ∷ []) rows.old.items rows.new.items) }
{
    match program.number_of(name) {
        None => Ok(()),
        Some(number) => {
            add_member(&mut rows[number], by)?;
            Ok(())
        }
    }
}

// What a list of expressions mentions.
#[cycle(exprs)]
fn add_exprs(
    rows: &mut Mentioners,
    program: &Settled,
    by: MemberId,
    es: &Exprs,
) -> Result<(), AllocError>
    requires { length rows.old.items ≡ length (settled program.now) }
    ensures members { OnOk result (length rows.new.items ≡ length rows.old.items) }
    ensures added { OnOk result (Adds (settled program.now) by.0 (mentioned_in (resolved.exprs es.now)) rows.old.items rows.new.items) }
{
    let mut left = es;
    loop {
        match left {
            Exprs::NoMore => return Ok(()),
            Exprs::More(first, others) => {
                add_expr(rows, program, by, first)?;
                left = others;
            }
        }
    }
}

// What an expression mentions.
#[cycle(exprs)]
fn add_expr(
    rows: &mut Mentioners,
    program: &Settled,
    by: MemberId,
    e: &Expr,
) -> Result<(), AllocError>
    requires { length rows.old.items ≡ length (settled program.now) }
    ensures members { OnOk result (length rows.new.items ≡ length rows.old.items) }
    ensures added { OnOk result (Adds (settled program.now) by.0 (mentioned (resolved.expr e.now)) rows.old.items rows.new.items) }
{
    match e {
        Expr::Number(_, _)
        | Expr::Truth(_, _)
        | Expr::Null(_)
        | Expr::Part(_, _, _)
        | Expr::Variable(_, _) => Ok(()),
        Expr::Not(_, a) => add_expr(rows, program, by, a),
        Expr::Operate(_, _, a, b) => {
            add_expr(rows, program, by, a)?;
            add_expr(rows, program, by, b)
        }
        Expr::Divide(_, _, a, b) => {
            add_expr(rows, program, by, a)?;
            add_expr(rows, program, by, b)
        }
        Expr::Connect(_, _, a, b) => {
            add_expr(rows, program, by, a)?;
            add_expr(rows, program, by, b)
        }
        Expr::Choose(_, c, a, b) => {
            add_expr(rows, program, by, c)?;
            add_expr(rows, program, by, a)?;
            add_expr(rows, program, by, b)
        }
        Expr::Read(_, a, _) => add_expr(rows, program, by, a),
        Expr::Old(_, a) => add_expr(rows, program, by, a),
        Expr::Apply(_, f, es) => {
            add_name(rows, program, by, f)?;
            add_exprs(rows, program, by, es)
        }
        Expr::Unfolding(_, i, es, amount, a) => {
            add_name(rows, program, by, i)?;
            add_exprs(rows, program, by, es)?;
            add_expr(rows, program, by, amount)?;
            add_expr(rows, program, by, a)
        }
    }
}

// What an assertion mentions.
fn add_assertion(
    rows: &mut Mentioners,
    program: &Settled,
    by: MemberId,
    a: &Assertion,
) -> Result<(), AllocError>
    requires { length rows.old.items ≡ length (settled program.now) }
    ensures members { OnOk result (length rows.new.items ≡ length rows.old.items) }
    ensures added { OnOk result (Adds (settled program.now) by.0 (mentioned_by (resolved.assertion a.now)) rows.old.items rows.new.items) }
{
    match a {
        Assertion::Pure(e) => add_expr(rows, program, by, e),
        Assertion::Points(_, e, _, amount) => {
            add_expr(rows, program, by, e)?;
            add_expr(rows, program, by, amount)
        }
        Assertion::Instance(_, i, es, amount) => {
            add_name(rows, program, by, i)?;
            add_exprs(rows, program, by, es)?;
            add_expr(rows, program, by, amount)
        }
        Assertion::Both(a, b) => {
            add_assertion(rows, program, by, a)?;
            add_assertion(rows, program, by, b)
        }
        Assertion::Implied(c, a) => {
            add_expr(rows, program, by, c)?;
            add_assertion(rows, program, by, a)
        }
        Assertion::Chosen(c, a, b) => {
            add_expr(rows, program, by, c)?;
            add_assertion(rows, program, by, a)?;
            add_assertion(rows, program, by, b)
        }
    }
}

// What assertions mention.
fn add_assertions(
    rows: &mut Mentioners,
    program: &Settled,
    by: MemberId,
    those: &[Rc<Assertion>],
) -> Result<(), AllocError>
    requires { length rows.old.items ≡ length (settled program.now) }
    ensures members { OnOk result (length rows.new.items ≡ length rows.old.items) }
    ensures added { OnOk result (Adds (settled program.now) by.0 (mentioned_by_all (resolved.assertions those.now)) rows.old.items rows.new.items) }
{
    for a in those {
        add_assertion(rows, program, by, a)?;
    }
    Ok(())
}

// What a method's contract mentions.
fn add_contract(
    rows: &mut Mentioners,
    program: &Settled,
    by: MemberId,
    m: &Method,
) -> Result<(), AllocError>
    requires { length rows.old.items ≡ length (settled program.now) }
    ensures members { OnOk result (length rows.new.items ≡ length rows.old.items) }
    ensures added { OnOk result (Adds (settled program.now) by.0 (mentioned_by_contract (Some (resolved.method m.now))) rows.old.items rows.new.items) }
{
    add_assertions(rows, program, by, &m.preconditions)?;
    add_assertions(rows, program, by, &m.postconditions)
}

// What the contract of the method of a name mentions.
fn add_callee(
    rows: &mut Mentioners,
    program: &Settled,
    by: MemberId,
    name: &Rc<String>,
) -> Result<(), AllocError>
    requires { length rows.old.items ≡ length (settled program.now) }
    ensures members { OnOk result (length rows.new.items ≡ length rows.old.items) }
    ensures added { OnOk result (Adds (settled program.now) by.0
        (mentioned_by_contract (method_named (settled program.now) (string_bytes name.now.value))) rows.old.items rows.new.items) }
{
    match program.method(name)? {
        None => Ok(()),
        Some(m) => add_contract(rows, program, by, &m),
    }
}

// What a statement mentions: a call what its arguments and its method's contract do.
#[cycle(blocks)]
fn add_stmt(
    rows: &mut Mentioners,
    program: &Settled,
    by: MemberId,
    s: &Stmt,
) -> Result<(), AllocError>
    requires { length rows.old.items ≡ length (settled program.now) }
    ensures members { OnOk result (length rows.new.items ≡ length rows.old.items) }
    ensures added { OnOk result (Adds (settled program.now) by.0 (mentioned_by_stmt (settled program.now) (resolved.stmt s.now)) rows.old.items rows.new.items) }
{
    match s {
        Stmt::Declare(_, _, _) => Ok(()),
        Stmt::Assign(_, _, e) => add_expr(rows, program, by, e),
        Stmt::Write(_, e, _, value) => {
            add_expr(rows, program, by, e)?;
            add_expr(rows, program, by, value)
        }
        Stmt::New(_, _, _) => Ok(()),
        Stmt::Call(_, _, m, es) => {
            add_exprs(rows, program, by, es)?;
            add_callee(rows, program, by, m)
        }
        Stmt::Inhale(_, a) => add_assertion(rows, program, by, a),
        Stmt::Exhale(_, a) => add_assertion(rows, program, by, a),
        Stmt::Assert(_, a) => add_assertion(rows, program, by, a),
        Stmt::Assume(_, e) => add_expr(rows, program, by, e),
        Stmt::Fold(_, i, es, amount) => {
            add_name(rows, program, by, i)?;
            add_exprs(rows, program, by, es)?;
            add_expr(rows, program, by, amount)
        }
        Stmt::Unfold(_, i, es, amount) => {
            add_name(rows, program, by, i)?;
            add_exprs(rows, program, by, es)?;
            add_expr(rows, program, by, amount)
        }
        Stmt::If(_, e, a, b) => {
            add_expr(rows, program, by, e)?;
            add_block(rows, program, by, a)?;
            add_block(rows, program, by, b)
        }
        Stmt::While(_, e, invariants, body) => {
            add_expr(rows, program, by, e)?;
            add_assertions(rows, program, by, invariants)?;
            add_block(rows, program, by, body)
        }
    }
}

// What the statements of a block mention.
#[cycle(blocks)]
fn add_block(
    rows: &mut Mentioners,
    program: &Settled,
    by: MemberId,
    block: &Block,
) -> Result<(), AllocError>
    requires { length rows.old.items ≡ length (settled program.now) }
    ensures members { OnOk result (length rows.new.items ≡ length rows.old.items) }
    ensures added { OnOk result (Adds (settled program.now) by.0 (mentioned_by_block (settled program.now) (resolved.block block.now)) rows.old.items rows.new.items) }
{
    let mut left = block;
    loop {
        match left {
            Block::Done => return Ok(()),
            Block::Then(first, others) => {
                add_stmt(rows, program, by, first)?;
                left = others;
            }
        }
    }
}

// What a method's body mentions.
fn add_body(
    rows: &mut Mentioners,
    program: &Settled,
    by: MemberId,
    body: &Option<Rc<Block>>,
) -> Result<(), AllocError>
    requires { length rows.old.items ≡ length (settled program.now) }
    ensures members { OnOk result (length rows.new.items ≡ length rows.old.items) }
    ensures added { OnOk result (Adds (settled program.now) by.0 (mentioned_by_body (settled program.now) (resolved.optional_block body.now)) rows.old.items rows.new.items) }
{
    match body {
        None => Ok(()),
        Some(b) => add_block(rows, program, by, b),
    }
}

// What a method mentions.
fn add_method(
    rows: &mut Mentioners,
    program: &Settled,
    by: MemberId,
    m: &Method,
) -> Result<(), AllocError>
    requires { length rows.old.items ≡ length (settled program.now) }
    ensures members { OnOk result (length rows.new.items ≡ length rows.old.items) }
    ensures added { OnOk result (Adds (settled program.now) by.0 (mentioned_by_kind (settled program.now) (Some (IsMethod (resolved.method m.now)))) rows.old.items rows.new.items) }
{
    add_contract(rows, program, by, m)?;
    add_body(rows, program, by, &m.body)
}

// What expressions mention.
fn add_all(
    rows: &mut Mentioners,
    program: &Settled,
    by: MemberId,
    those: &[Rc<Expr>],
) -> Result<(), AllocError>
    requires { length rows.old.items ≡ length (settled program.now) }
    ensures members { OnOk result (length rows.new.items ≡ length rows.old.items) }
    ensures added { OnOk result (Adds (settled program.now) by.0 (flat_map mentioned (resolved.expressions those.now)) rows.old.items rows.new.items) }
{
    for e in those {
        add_expr(rows, program, by, e)?;
    }
    Ok(())
}

// What a measure mentions.
fn add_measure(
    rows: &mut Mentioners,
    program: &Settled,
    by: MemberId,
    measure: &Option<Measure>,
) -> Result<(), AllocError>
    requires { length rows.old.items ≡ length (settled program.now) }
    ensures members { OnOk result (length rows.new.items ≡ length rows.old.items) }
    ensures added { OnOk result (Adds (settled program.now) by.0 (mentioned_by_measure (resolved.optional_measure measure.now)) rows.old.items rows.new.items) }
{
    match measure {
        None => Ok(()),
        Some(Measure::Number(e)) => add_expr(rows, program, by, e),
        Some(Measure::Instance(_, i, es)) => {
            add_name(rows, program, by, i)?;
            add_exprs(rows, program, by, es)
        }
    }
}

// What a function mentions in its body and its contract.
fn add_parts(
    rows: &mut Mentioners,
    program: &Settled,
    by: MemberId,
    f: &Function,
) -> Result<(), AllocError>
    requires { length rows.old.items ≡ length (settled program.now) }
    ensures members { OnOk result (length rows.new.items ≡ length rows.old.items) }
    ensures added { OnOk result (Adds (settled program.now) by.0 (mentioned_by_function (resolved.function f.now)) rows.old.items rows.new.items) }
{
    add_expr(rows, program, by, &f.body)?;
    add_assertions(rows, program, by, &f.preconditions)?;
    add_all(rows, program, by, &f.postconditions)
}

// What a function mentions, its measure too.
fn add_function(
    rows: &mut Mentioners,
    program: &Settled,
    by: MemberId,
    f: &Function,
) -> Result<(), AllocError>
    requires { length rows.old.items ≡ length (settled program.now) }
    ensures members { OnOk result (length rows.new.items ≡ length rows.old.items) }
    ensures added { OnOk result (Adds (settled program.now) by.0
        (mentioned_by_kind (settled program.now) (Some (IsFunction (resolved.function f.now)))) rows.old.items rows.new.items) }
{
    add_parts(rows, program, by, f)?;
    add_measure(rows, program, by, &f.measure)
}

// What a predicate's body mentions.
fn add_predicate(
    rows: &mut Mentioners,
    program: &Settled,
    by: MemberId,
    d: &Predicate,
) -> Result<(), AllocError>
    requires { length rows.old.items ≡ length (settled program.now) }
    ensures members { OnOk result (length rows.new.items ≡ length rows.old.items) }
    ensures added { OnOk result (Adds (settled program.now) by.0 (mentioned_by_predicate (Some (resolved.predicate d.now))) rows.old.items rows.new.items) }
{
    match &d.body {
        None => Ok(()),
        Some(a) => add_assertion(rows, program, by, a),
    }
}

/// What a member mentions: it is added to the rows of those.
pub(crate) fn add_kind(
    rows: &mut Mentioners,
    program: &Settled,
    by: MemberId,
    kind: &Kind,
) -> Result<(), AllocError>
    requires { length rows.old.items ≡ length (settled program.now) }
    ensures members { OnOk result (length rows.new.items ≡ length rows.old.items) }
    ensures added { OnOk result (Adds (settled program.now) by.0 (mentioned_by_kind (settled program.now) (Some (resolved.kind kind.now))) rows.old.items rows.new.items) }
{
    match kind {
        Kind::Field(_) => Ok(()),
        Kind::Predicate(d) => add_predicate(rows, program, by, d),
        Kind::Function(f) => add_function(rows, program, by, f),
        Kind::Method(m) => add_method(rows, program, by, m),
    }
}

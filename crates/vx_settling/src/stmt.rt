//! Statements, settled.

ghost use Rattle.std.specs.Prelude.{◌≡◌, ◌∷◌, [], if◌then◌else◌, IfOk, OnOk, map, string_bytes};
ghost use Rattle.vx_ast.specs.Written as written;
ghost use Rattle.vx_ast.specs.Written.{written_expr, written_stmt, written_block, written_right, written_declaration, written_all, written_list, written_optional, optional_right, optional_other, name_of};
ghost use Rattle.vx_ast.specs.Resolve as resolve;
ghost use Rattle.vx_resolved.specs.Resolved as settled;
ghost use Rattle.vx_ast.specs.Syntax as Syntax;
ghost use Rattle.vx_settling.specs.Parts.{bare, onto, stmts};
ghost use Rattle.vx_settling.specs.Names.{names_in};

use crate::assertions::{assertion, assertions};
use crate::expr::{amount, expression, expressions, shared};
use crate::names::{Names, SharedNames, add_name, shared_names};
use std::alloc::{AllocError, Global};
use std::rc::Rc;
use vx_ast::{Declaration, Expr, ExprKind, Instance, Name, Place, Right, Stmt, StmtKind};
use vx_resolved::Block;

/// The settled statements of a block so far.
pub type Settled = Vec<Rc<vx_resolved::Stmt>>;

// Names, each with its own copy.
fn copied(alloc: Global, those: &[Name]) -> Result<Rc<SharedNames>, AllocError>
    ensures { IfOk result (λ xs. settled.names_of xs.value.items ≡ bare (map name_of those.now)) }
{
    let mut copies = Vec::new(alloc);
    for name in those {
        add_name(alloc, &name.text, &mut copies)?;
    }
    shared_names(alloc, copies)
}

// One name, to be shared.
fn alone(alloc: Global, name: Rc<String>) -> Result<Rc<SharedNames>, AllocError>
    ensures { IfOk result (λ xs. settled.names_of xs.value.items ≡ string_bytes name.value ∷ []) }
{
    let mut names = Vec::new(alloc);
    names.push(name)?;
    shared_names(alloc, names)
}

// A statement, to be shared.
fn shared_stmt(alloc: Global, s: vx_resolved::Stmt) -> Result<Rc<vx_resolved::Stmt>, AllocError>
    ensures { IfOk result (λ r. settled.stmt r.value ≡ settled.stmt s) }
{
    Ok(Rc::new(alloc, s)?)
}

// A call whose one target is a variable.
fn called(
    alloc: Global,
    place: Place,
    target: Rc<String>,
    method: &str,
    arguments: &[Rc<Expr>],
) -> Result<Rc<vx_resolved::Stmt>, AllocError>
    ensures { IfOk result (λ s. settled.stmt s.value ≡ Syntax.Call place (string_bytes target.value ∷ []) method.now (resolve.expressions (written_all arguments.now))) }
{
    let targets = alone(alloc, target)?;
    let method = shared(alloc, method)?;
    let arguments = expressions(alloc, arguments)?;
    shared_stmt(
        alloc,
        vx_resolved::Stmt::Call(place, targets, method, arguments),
    )
}

// A variable gets the value of an expression.
fn valued(
    alloc: Global,
    place: Place,
    target: Rc<String>,
    e: &Expr,
) -> Result<Rc<vx_resolved::Stmt>, AllocError>
    ensures { IfOk result (λ s. settled.stmt s.value ≡ Syntax.Assign place (string_bytes target.value) (resolve.expression (written_expr e.now))) }
{
    let e = expression(alloc, e)?;
    shared_stmt(alloc, vx_resolved::Stmt::Assign(place, target, e))
}

// What is applied right of `:=` is a call where its name is a method's.
fn applied(
    alloc: Global,
    names: &Names,
    place: Place,
    target: Rc<String>,
    e: &Expr,
    name: &str,
    arguments: &[Rc<Expr>],
) -> Result<Rc<vx_resolved::Stmt>, AllocError>
    ensures { IfOk result (λ s. settled.stmt s.value ≡ (if (names_in names.now).is_method name.now then Syntax.Call place
        (string_bytes target.value ∷ []) name.now (resolve.expressions (written_all arguments.now)) else Syntax.Assign place (string_bytes target.value)
        (resolve.expression (written_expr e.now)))) }
{
    if names.is_method(name) {
        return called(alloc, place, target, name, arguments);
    }
    valued(alloc, place, target, e)
}

// A value that is assigned.
fn of_value(
    alloc: Global,
    names: &Names,
    place: Place,
    target: Rc<String>,
    e: &Expr,
) -> Result<Rc<vx_resolved::Stmt>, AllocError>
    ensures { IfOk result (λ s. settled.stmt s.value ≡ resolve.assign (names_in names.now) place (string_bytes target.value) (written.Value (written_expr e.now))) }
{
    match &e.kind {
        ExprKind::Call(name, arguments) => applied(alloc, names, place, target, e, name, arguments),
        ExprKind::Number(_)
        | ExprKind::Boolean(_)
        | ExprKind::Null
        | ExprKind::Write
        | ExprKind::Nothing
        | ExprKind::Outcome
        | ExprKind::Variable(_)
        | ExprKind::Read(_, _)
        | ExprKind::Unary(_, _)
        | ExprKind::Binary(_, _, _)
        | ExprKind::Conditional(_, _, _)
        | ExprKind::Old(_)
        | ExprKind::Access(_, _)
        | ExprKind::Unfolding(_, _, _, _) => valued(alloc, place, target, e),
    }
}

// A new object of all fields.
fn new_of_all(
    alloc: Global,
    names: &Names,
    place: Place,
    target: Rc<String>,
) -> Result<Rc<vx_resolved::Stmt>, AllocError>
    ensures { IfOk result (λ s. settled.stmt s.value ≡ Syntax.New place (string_bytes target.value) (names_in names.now).fields) }
{
    let all = names.fields()?;
    shared_stmt(alloc, vx_resolved::Stmt::New(place, target, all))
}

// A new object of these fields.
fn new_of(
    alloc: Global,
    place: Place,
    target: Rc<String>,
    those: &[Name],
) -> Result<Rc<vx_resolved::Stmt>, AllocError>
    ensures { IfOk result (λ s. settled.stmt s.value ≡ Syntax.New place (string_bytes target.value) (bare (map name_of those.now))) }
{
    let those = copied(alloc, those)?;
    shared_stmt(alloc, vx_resolved::Stmt::New(place, target, those))
}

// An assignment to a variable.
fn assignment(
    alloc: Global,
    names: &Names,
    place: Place,
    name: &Name,
    right: &Right,
) -> Result<Rc<vx_resolved::Stmt>, AllocError>
    ensures { IfOk result (λ s. settled.stmt s.value ≡ resolve.assign (names_in names.now) place (name_of name.now).name (written_right right.now)) }
{
    let target = shared(alloc, &name.text)?;
    match right {
        Right::Value(e) => of_value(alloc, names, place, target, e),
        Right::NewAll(_) => new_of_all(alloc, names, place, target),
        Right::New(_, those) => new_of(alloc, place, target, those),
    }
}

// One statement more.
#[tactic(auto, using(crate::proofs::Statements::onto_last))]
fn add(block: &mut Settled, s: Rc<vx_resolved::Stmt>) -> Result<(), AllocError>
    ensures { OnOk result ((rest : Syntax.Block) → onto (stmts block.new.items) rest ≡ onto (stmts block.old.items) (Syntax.Then (settled.stmt s.value) rest)) }
{
    block.push(s)?;
    Ok(())
}

fn put(alloc: Global, block: &mut Settled, s: vx_resolved::Stmt) -> Result<(), AllocError>
    ensures { OnOk result ((rest : Syntax.Block) → onto (stmts block.new.items) rest ≡ onto (stmts block.old.items) (Syntax.Then (settled.stmt s) rest)) }
{
    let s = shared_stmt(alloc, s)?;
    add(block, s)
}

// A variable's declaration.
fn declaration(
    alloc: Global,
    place: Place,
    declared: &Declaration,
    block: &mut Settled,
) -> Result<(), AllocError>
    ensures { OnOk result ((rest : Syntax.Block) → onto (stmts block.new.items) rest
        ≡ onto (stmts block.old.items) (Syntax.Then (Syntax.Declare place (name_of declared.now.name).name declared.now.value_type) rest)) }
{
    let name = shared(alloc, &declared.name.text)?;
    let of = declared.value_type;
    put(alloc, block, vx_resolved::Stmt::Declare(place, name, of))
}

fn assigned(
    alloc: Global,
    names: &Names,
    place: Place,
    name: &Name,
    right: &Right,
    block: &mut Settled,
) -> Result<(), AllocError>
    ensures { OnOk result ((rest : Syntax.Block) → onto (stmts block.new.items) rest
        ≡ onto (stmts block.old.items) (Syntax.Then (resolve.assign (names_in names.now) place (name_of name.now).name (written_right right.now)) rest)) }
{
    let s = assignment(alloc, names, place, name, right)?;
    add(block, s)
}

// A variable's declaration, with its first value or none.
fn declared_by(
    alloc: Global,
    names: &Names,
    place: Place,
    declared: &Declaration,
    right: &Option<Right>,
    block: &mut Settled,
) -> Result<(), AllocError>
    ensures { OnOk result ((rest : Syntax.Block) → onto (stmts block.new.items) rest
        ≡ onto (stmts block.old.items) (resolve.statement (names_in names.now) (written.Declare place (written_declaration declared.now) (optional_right right.now)) rest)) }
{
    declaration(alloc, place, declared, block)?;
    match right {
        None => Ok(()),
        Some(right) => assigned(alloc, names, place, &declared.name, right, block),
    }
}

fn asserted(
    alloc: Global,
    names: &Names,
    place: Place,
    e: &Expr,
    block: &mut Settled,
) -> Result<(), AllocError>
    ensures { OnOk result ((rest : Syntax.Block) → onto (stmts block.new.items) rest
        ≡ onto (stmts block.old.items) (Syntax.Then (Syntax.Assert place (resolve.assertion (names_in names.now) (written_expr e.now))) rest)) }
{
    let a = assertion(alloc, names, e)?;
    put(alloc, block, vx_resolved::Stmt::Assert(place, a))
}

fn inhaled(
    alloc: Global,
    names: &Names,
    place: Place,
    e: &Expr,
    block: &mut Settled,
) -> Result<(), AllocError>
    ensures { OnOk result ((rest : Syntax.Block) → onto (stmts block.new.items) rest
        ≡ onto (stmts block.old.items) (Syntax.Then (Syntax.Inhale place (resolve.assertion (names_in names.now) (written_expr e.now))) rest)) }
{
    let a = assertion(alloc, names, e)?;
    put(alloc, block, vx_resolved::Stmt::Inhale(place, a))
}

fn exhaled(
    alloc: Global,
    names: &Names,
    place: Place,
    e: &Expr,
    block: &mut Settled,
) -> Result<(), AllocError>
    ensures { OnOk result ((rest : Syntax.Block) → onto (stmts block.new.items) rest
        ≡ onto (stmts block.old.items) (Syntax.Then (Syntax.Exhale place (resolve.assertion (names_in names.now) (written_expr e.now))) rest)) }
{
    let a = assertion(alloc, names, e)?;
    put(alloc, block, vx_resolved::Stmt::Exhale(place, a))
}

fn assumed(alloc: Global, place: Place, e: &Expr, block: &mut Settled) -> Result<(), AllocError>
    ensures { OnOk result ((rest : Syntax.Block) → onto (stmts block.new.items) rest
        ≡ onto (stmts block.old.items) (Syntax.Then (Syntax.Assume place (resolve.expression (written_expr e.now))) rest)) }
{
    let c = expression(alloc, e)?;
    put(alloc, block, vx_resolved::Stmt::Assume(place, c))
}

// A write to a field.
fn write(
    alloc: Global,
    place: Place,
    e: &Expr,
    field: &Name,
    value: &Expr,
    block: &mut Settled,
) -> Result<(), AllocError>
    ensures { OnOk result ((rest : Syntax.Block) → onto (stmts block.new.items) rest
        ≡ onto (stmts block.old.items) (Syntax.Then (Syntax.Write place (resolve.expression (written_expr e.now)) (name_of field.now).name
        (resolve.expression (written_expr value.now))) rest)) }
{
    let e = expression(alloc, e)?;
    let value = expression(alloc, value)?;
    let field = shared(alloc, &field.text)?;
    put(
        alloc,
        block,
        vx_resolved::Stmt::Write(place, e, field, value),
    )
}

// A call.
fn call(
    alloc: Global,
    place: Place,
    targets: &[Name],
    method: &Name,
    arguments: &[Rc<Expr>],
    block: &mut Settled,
) -> Result<(), AllocError>
    ensures { OnOk result ((rest : Syntax.Block) → onto (stmts block.new.items) rest
        ≡ onto (stmts block.old.items) (Syntax.Then (Syntax.Call place (bare (map name_of targets.now)) (name_of method.now).name
        (resolve.expressions (written_all arguments.now))) rest)) }
{
    let targets = copied(alloc, targets)?;
    let method = shared(alloc, &method.text)?;
    let arguments = expressions(alloc, arguments)?;
    put(
        alloc,
        block,
        vx_resolved::Stmt::Call(place, targets, method, arguments),
    )
}

// A `fold`.
fn fold(
    alloc: Global,
    place: Place,
    instance: &Instance,
    block: &mut Settled,
) -> Result<(), AllocError>
    ensures { OnOk result ((rest : Syntax.Block) → onto (stmts block.new.items) rest
        ≡ onto (stmts block.old.items) (Syntax.Then (Syntax.Fold place (name_of instance.now.predicate).name
        (resolve.expressions (written_all instance.now.arguments.items)) (resolve.amount place (written_optional instance.now.amount))) rest)) }
{
    let predicate = shared(alloc, &instance.predicate.text)?;
    let arguments = expressions(alloc, &instance.arguments)?;
    let share = amount(alloc, place, &instance.amount)?;
    put(
        alloc,
        block,
        vx_resolved::Stmt::Fold(place, predicate, arguments, share),
    )
}

// An `unfold`.
fn unfold(
    alloc: Global,
    place: Place,
    instance: &Instance,
    block: &mut Settled,
) -> Result<(), AllocError>
    ensures { OnOk result ((rest : Syntax.Block) → onto (stmts block.new.items) rest
        ≡ onto (stmts block.old.items) (Syntax.Then (Syntax.Unfold place (name_of instance.now.predicate).name
        (resolve.expressions (written_all instance.now.arguments.items)) (resolve.amount place (written_optional instance.now.amount))) rest)) }
{
    let predicate = shared(alloc, &instance.predicate.text)?;
    let arguments = expressions(alloc, &instance.arguments)?;
    let share = amount(alloc, place, &instance.amount)?;
    put(
        alloc,
        block,
        vx_resolved::Stmt::Unfold(place, predicate, arguments, share),
    )
}

// An `if` of settled sides.
fn branched(
    alloc: Global,
    place: Place,
    c: &Expr,
    a: Rc<Block>,
    b: Rc<Block>,
    block: &mut Settled,
) -> Result<(), AllocError>
    ensures { OnOk result ((rest : Syntax.Block) → onto (stmts block.new.items) rest
        ≡ onto (stmts block.old.items) (Syntax.Then (Syntax.If place (resolve.expression (written_expr c.now)) (settled.block a.value) (settled.block b.value)) rest)) }
{
    let c = expression(alloc, c)?;
    put(alloc, block, vx_resolved::Stmt::If(place, c, a, b))
}

// A `while` of a settled body.
fn repeated(
    alloc: Global,
    names: &Names,
    place: Place,
    c: &Expr,
    invariants: &[Rc<Expr>],
    body: Rc<Block>,
    block: &mut Settled,
) -> Result<(), AllocError>
    ensures { OnOk result ((rest : Syntax.Block) → onto (stmts block.new.items) rest
        ≡ onto (stmts block.old.items) (Syntax.Then (Syntax.While place (resolve.expression (written_expr c.now))
        (resolve.assertions (names_in names.now) (written_all invariants.now)) (settled.block body.value)) rest)) }
{
    let c = expression(alloc, c)?;
    let invariants = assertions(alloc, names, invariants)?;
    put(
        alloc,
        block,
        vx_resolved::Stmt::While(place, c, invariants, body),
    )
}

// A block, to be shared.
fn shared_block(alloc: Global, b: Block) -> Result<Rc<Block>, AllocError>
    ensures { IfOk result (λ r. settled.block r.value ≡ settled.block b) }
{
    Ok(Rc::new(alloc, b)?)
}

// The settled statements as a block.
#[tactic(auto, using(crate::proofs::Statements::onto_last))]
fn linked(alloc: Global, done: Settled) -> Result<Rc<Block>, AllocError>
    ensures { IfOk result (λ b. settled.block b.value ≡ onto (stmts done.items) Syntax.Done) }
{
    let mut statements = done;
    let mut block = shared_block(alloc, Block::Done)?;
    while let Some(s) = statements.pop() {
        block = shared_block(alloc, Block::Then(s, block))?;
    }
    Ok(block)
}

// The statements of a block, in order.
#[cycle(settling)]
fn statements(
    alloc: Global,
    names: &Names,
    all: &[Stmt],
    done: &mut Settled,
) -> Result<(), AllocError>
    ensures { OnOk result (onto (stmts done.new.items) Syntax.Done ≡ onto (stmts done.old.items) (resolve.block (names_in names.now) (written_list all.now))) }
{
    for s in all {
        statement(alloc, names, s, done)?;
    }
    Ok(())
}

/// A block, settled.
#[cycle(settling)]
pub fn block(alloc: Global, names: &Names, b: &vx_ast::Block) -> Result<Rc<Block>, AllocError>
    ensures { IfOk result (λ r. settled.block r.value ≡ resolve.block (names_in names.now) (written_block b.now)) }
{
    let mut done = Vec::new(alloc);
    statements(alloc, names, &b.statements, &mut done)?;
    linked(alloc, done)
}

// The other side of an `if`: none is the empty block.
#[cycle(settling)]
fn other_block(
    alloc: Global,
    names: &Names,
    other: &Option<Rc<vx_ast::Block>>,
) -> Result<Rc<Block>, AllocError>
    ensures { IfOk result (λ r. settled.block r.value ≡ resolve.other_side (names_in names.now) (optional_other other.now)) }
{
    match other {
        None => shared_block(alloc, Block::Done),
        Some(b) => block(alloc, names, b),
    }
}

// A statement, added to its block.
#[cycle(settling)]
fn statement(alloc: Global, names: &Names, s: &Stmt, done: &mut Settled) -> Result<(), AllocError>
    ensures { OnOk result ((rest : Syntax.Block) → onto (stmts done.new.items) rest
        ≡ onto (stmts done.old.items) (resolve.statement (names_in names.now) (written_stmt s.now.place s.now.kind) rest)) }
{
    let place = s.place;
    match &s.kind {
        StmtKind::Declare(declared, right) => declared_by(
            alloc, names, place, declared, right, done,
        ),
        StmtKind::Assign(name, right) => assigned(alloc, names, place, name, right, done),
        StmtKind::Write(e, field, value) => write(alloc, place, e, field, value, done),
        StmtKind::Inhale(e) => inhaled(alloc, names, place, e, done),
        StmtKind::Exhale(e) => exhaled(alloc, names, place, e, done),
        StmtKind::Assert(e) => asserted(alloc, names, place, e, done),
        StmtKind::Assume(e) => assumed(alloc, place, e, done),
        StmtKind::If(c, a, b) => {
            let a = block(alloc, names, a)?;
            let b = other_block(alloc, names, b)?;
            branched(alloc, place, c, a, b, done)
        }
        StmtKind::While(c, invariants, b) => {
            let b = block(alloc, names, b)?;
            repeated(alloc, names, place, c, invariants, b, done)
        }
        StmtKind::Call(targets, method, arguments) => {
            call(alloc, place, targets, method, arguments, done)
        }
        StmtKind::Fold(instance) => fold(alloc, place, instance, done),
        StmtKind::Unfold(instance) => unfold(alloc, place, instance, done),
    }
}

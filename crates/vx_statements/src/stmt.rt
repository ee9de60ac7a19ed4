//! Statements.

ghost use Rattle.std.specs.Prelude.{◌≡◌, ◌++◌, ◌∷◌, [], OnOk, option_map, map, string_bytes};
ghost use Rattle.vx_ast.specs.Written.{name_of, placed, written_expr, written_all, written_optional, written_right, optional_right, written_declaration, written_stmt, written_block};
ghost use Rattle.vx_expressions.specs.Faults as faults;
ghost use Rattle.vx_statements.specs.StatementFaults as first;
ghost use Rattle.vx_statements.specs.Statements.{scope_after};
ghost use Rattle.vx_expressions.specs.Settings.{within_method};
ghost use Rattle.vx_statements.specs.declared.names.Role.TheVariants.{Local};
ghost use Rattle.vx_expressions.specs.Scopes.{named};
ghost use Rattle.vx_statements.specs.Roles.{with_variable};
ghost use Rattle.vx_expressions.specs.Gives.{Gives};
ghost use Rattle.vx_expressions.specs.Views.{setting, signature, table, known, listed, types_of};
ghost use Rattle.vx_statements.specs.Blocks.{Extends};
ghost use Rattle.vx_ast.specs.Written.{optional_other, written_list};

use crate::names::{Role, add_name, declare};
use indexmap::IndexSet;
use std::alloc::Global;
use std::rc::Rc;
use vx_ast::{
    Block, Declaration, Expr, ExprKind, Instance, Name, Place, Right, Stmt, StmtKind, ValueType,
};
use vx_expressions::{
    Members, Setting, Signature, TypeFault, Variables, arguments_fit, assertion, check, check_all,
    expect, field_type, find, instance, member, place, read, share, unknown,
};

// The type of a target.
fn assignable(alloc: Global, variables: &Variables, x: &Name) -> Result<ValueType, TypeFault>
    ensures { Gives (λ t. t) result (first.assignable (name_of x.now) (named (known variables.now.entries) (string_bytes x.now.text))) }
{
    match find(variables, &x.text) {
        None => Err(unknown(alloc, x.place, &x.text)),
        Some(variable) => {
            if variable.assignable {
                return Ok(variable.of);
            }
            Err(TypeFault::NotAssignable(x.place))
        }
    }
}

fn target<'a>(
    alloc: Global,
    variables: &Variables,
    names: &mut IndexSet<&'a str>,
    x: &'a Name,
) -> Result<ValueType, TypeFault>
    ensures first { Gives (λ t. t) result (first.target (known variables.now.entries) (listed names.old.keys) (name_of x.now)) }
    ensures added { OnOk result (listed names.new.keys ≡ listed names.old.keys ++ string_bytes x.now.text ∷ []) }
{
    let t = assignable(alloc, variables, x)?;
    add_name(alloc, names, x)?;
    Ok(t)
}

// The types of targets.
fn targets(alloc: Global, variables: &Variables, xs: &[Name]) -> Result<Vec<ValueType>, TypeFault>
    ensures { Gives (λ ts. ts.items) result (first.targets (known variables.now.entries) [] (map name_of xs.now)) }
{
    let mut names = IndexSet::new(alloc);
    let mut types = Vec::new(alloc);
    for x in xs {
        types.push(target(alloc, variables, &mut names, x)?)?;
    }
    Ok(types)
}

fn new_field<'a>(
    alloc: Global,
    members: &Members,
    names: &mut IndexSet<&'a str>,
    f: &'a Name,
) -> Result<(), TypeFault>
    ensures first { Gives (λ x. tt) result (first.new_field (table members.now.entries) (listed names.old.keys) (name_of f.now)) }
    ensures added { OnOk result (listed names.new.keys ≡ listed names.old.keys ++ string_bytes f.now.text ∷ []) }
{
    field_type(alloc, f, member(members, &f.text))?;
    add_name(alloc, names, f)
}

// The fields of a `new`.
fn fields(alloc: Global, members: &Members, fs: &[Name]) -> Result<(), TypeFault>
    ensures { Gives (λ x. tt) result (first.fields (table members.now.entries) [] (map name_of fs.now)) }
{
    let mut names = IndexSet::new(alloc);
    for f in fs {
        new_field(alloc, members, &mut names, f)?;
    }
    Ok(())
}

fn as_many(at: Place, expected: usize, found: usize) -> Result<(), TypeFault>
    ensures { Gives (λ x. tt) result (first.as_many at expected found) }
{
    if found == expected {
        return Ok(());
    }
    Err(TypeFault::Arity(at, expected, found))
}

// The types of targets are those of the returns, as far as there are such.
fn targets_fit(at: Place, ts: &[ValueType], returns: &[Declaration]) -> Result<(), TypeFault>
    ensures { Gives (λ x. tt) result (first.targets_fit at ts.now (types_of returns.now)) }
{
    for (t, r) in ts.iter().zip(returns) {
        expect(at, *t, r.value_type)?;
    }
    Ok(())
}

// A call of a method with these parameters and returns.
fn called_with(
    at: Place,
    es: &[Rc<Expr>],
    ts: &[ValueType],
    found: &[ValueType],
    parameters: &[Declaration],
    returns: &[Declaration],
) -> Result<(), TypeFault>
    ensures { Gives (λ x. tt) result (first.called_with at (written_all es.now) ts.now found.now (types_of parameters.now) (types_of returns.now)) }
{
    as_many(at, parameters.len(), found.len())?;
    as_many(at, returns.len(), ts.len())?;
    arguments_fit(es, found, parameters)?;
    targets_fit(at, ts, returns)
}

// The parameters and returns of a method.
fn method_of<'a>(
    alloc: Global,
    at: Place,
    m: &str,
    found: Option<Signature<'a>>,
) -> Result<(&'a [Declaration], &'a [Declaration]), TypeFault>
    ensures { Gives (λ c. (types_of c.0.now, types_of c.1.now)) result (first.method_of (placed at m.now) (option_map signature found.entry)) }
{
    match found {
        Some(Signature::Method(parameters, returns)) => Ok((parameters, returns)),
        Some(Signature::Field(_)) => Err(unknown(alloc, at, m)),
        Some(Signature::Predicate(_, _)) => Err(unknown(alloc, at, m)),
        Some(Signature::Function(_, _)) => Err(unknown(alloc, at, m)),
        None => Err(unknown(alloc, at, m)),
    }
}

fn is_method(found: Option<Signature>) -> bool
    ensures { result ≡ first.is_method (option_map signature found.entry) }
{
    match found {
        Some(Signature::Method(_, _)) => true,
        Some(Signature::Field(_)) => false,
        Some(Signature::Predicate(_, _)) => false,
        Some(Signature::Function(_, _)) => false,
        None => false,
    }
}

// A call of a method.
fn call(
    alloc: Global,
    members: &Members,
    variables: &Variables,
    xs: &[Name],
    at: Place,
    m: &str,
    es: &[Rc<Expr>],
) -> Result<(), TypeFault>
    ensures { Gives (λ x. tt) result (first.call (table members.now.entries) (known variables.now.entries) (map name_of xs.now) (placed at m.now) (written_all es.now)) }
{
    let ts = targets(alloc, variables, xs)?;
    let (parameters, returns) = method_of(alloc, at, m, member(members, m))?;
    let found = check_all(alloc, Setting::within_method(members, variables), es)?;
    called_with(at, es, &ts, &found, parameters, returns)
}

// The right side of `:=`, which is no call of a method, has this type.
fn right(
    alloc: Global,
    members: &Members,
    variables: &Variables,
    of: ValueType,
    r: &Right,
) -> Result<(), TypeFault>
    ensures { Gives (λ x. tt) result (first.right (table members.now.entries) (known variables.now.entries) of (written_right r.now)) }
{
    match r {
        Right::Value(e) => {
            let found = check(alloc, Setting::within_method(members, variables), e)?;
            expect(place(e), of, found)
        }
        Right::NewAll(at) => expect(*at, of, ValueType::Ref),
        Right::New(at, fs) => {
            fields(alloc, members, fs)?;
            expect(*at, of, ValueType::Ref)
        }
    }
}

fn assigned(
    alloc: Global,
    members: &Members,
    variables: &Variables,
    x: &Name,
    r: &Right,
) -> Result<(), TypeFault>
    ensures { Gives (λ x. tt) result (first.assigned (table members.now.entries) (known variables.now.entries) (name_of x.now) (written_right r.now)) }
{
    let of = assignable(alloc, variables, x)?;
    right(alloc, members, variables, of, r)
}

// A call with one target.
fn call_into(
    alloc: Global,
    members: &Members,
    variables: &Variables,
    x: &Name,
    at: Place,
    m: &str,
    es: &[Rc<Expr>],
) -> Result<(), TypeFault>
    ensures { Gives (λ x. tt) result (first.call (table members.now.entries) (known variables.now.entries) (name_of x.now ∷ []) (placed at m.now) (written_all es.now)) }
{
    call(
        alloc,
        members,
        variables,
        std::slice::from_ref(x),
        at,
        m,
        es,
    )
}

// `x := m(es)` with a method m is a call.
fn assign(
    alloc: Global,
    members: &Members,
    variables: &Variables,
    x: &Name,
    r: &Right,
) -> Result<(), TypeFault>
    ensures { Gives (λ x. tt) result (first.assign (table members.now.entries) (known variables.now.entries) (name_of x.now) (written_right r.now)) }
{
    if let Right::Value(e) = r {
        if let ExprKind::Call(m, es) = &e.kind {
            if is_method(member(members, m)) {
                return call_into(alloc, members, variables, x, e.place, m, es);
            }
        }
    }
    assigned(alloc, members, variables, x, r)
}

// A declaration, with its right side.
fn declaration<'a>(
    alloc: Global,
    members: &Members,
    variables: &mut Variables<'a>,
    declared: &'a Declaration,
    r: &Option<Right>,
) -> Result<(), TypeFault>
    ensures first { Gives (λ x. tt) result (first.declaration (table members.now.entries) (known variables.old.entries) (written_declaration declared.now) (optional_right r.now)) }
    ensures after { OnOk result (known variables.new.entries ≡ with_variable Local (written_declaration declared.now) (known variables.old.entries)) }
{
    declare(alloc, variables, Role::Local, declared)?;
    match r {
        None => Ok(()),
        Some(r) => right(alloc, members, variables, declared.value_type, r),
    }
}

fn field_write(
    alloc: Global,
    members: &Members,
    variables: &Variables,
    e: &Expr,
    f: &Name,
    value: &Expr,
) -> Result<(), TypeFault>
    ensures { Gives (λ x. tt) result (first.field_write (table members.now.entries) (known variables.now.entries) (written_expr e.now) (name_of f.now) (written_expr value.now)) }
{
    let t = read(alloc, Setting::within_method(members, variables), e, f)?;
    let u = check(alloc, Setting::within_method(members, variables), value)?;
    expect(place(value), t, u)
}

/// A condition, or what is assumed.
///
/// # Errors
/// Its first fault, at its place; `Want` where memory runs out.
pub fn truth(alloc: Global, s: Setting, e: &Expr) -> Result<(), TypeFault>
    ensures { Gives (λ x. tt) result (first.truth (setting s.entry) (written_expr e.now)) }
{
    let t = check(alloc, s, e)?;
    expect(place(e), ValueType::Bool, t)
}

fn assertions(alloc: Global, s: Setting, es: &[Rc<Expr>]) -> Result<(), TypeFault>
    ensures { Gives (λ x. tt) result (first.assertions (setting s.entry) (written_all es.now)) }
{
    for e in es {
        assertion(alloc, s, e)?;
    }
    Ok(())
}

// What is folded or unfolded.
fn opened(alloc: Global, s: Setting, i: &Instance) -> Result<(), TypeFault>
    ensures { Gives (λ x. tt) result (first.opened (setting s.entry) (name_of i.now.predicate) (written_all i.now.arguments.items) (written_optional i.now.amount)) }
{
    let at = i.predicate.place;
    let has_body = instance(alloc, s, at, &i.predicate.text, &i.arguments)?;
    share(alloc, s, &i.amount)?;
    if has_body {
        return Ok(());
    }
    Err(TypeFault::UnfoldAbstract(at))
}

// What stands in a method's body: a condition, an assertion, an instance that is opened, and invariants.

fn condition(
    alloc: Global,
    members: &Members,
    variables: &Variables,
    e: &Expr,
) -> Result<(), TypeFault>
    ensures { Gives (λ x. tt) result (first.truth (within_method (table members.now.entries) (known variables.now.entries)) (written_expr e.now)) }
{
    truth(alloc, Setting::within_method(members, variables), e)
}

/// An assertion in a method's body, or behind it.
///
/// # Errors
/// Its first fault, at its place; `Want` where memory runs out.
pub fn asserted(
    alloc: Global,
    members: &Members,
    variables: &Variables,
    e: &Expr,
) -> Result<(), TypeFault>
    ensures { Gives (λ x. tt) result (faults.assertion (within_method (table members.now.entries) (known variables.now.entries)) (written_expr e.now)) }
{
    assertion(alloc, Setting::within_method(members, variables), e)
}

fn opens(
    alloc: Global,
    members: &Members,
    variables: &Variables,
    i: &Instance,
) -> Result<(), TypeFault>
    ensures { Gives (λ x. tt) result (first.opened (within_method (table members.now.entries) (known variables.now.entries)) (name_of i.now.predicate)
        (written_all i.now.arguments.items) (written_optional i.now.amount)) }
{
    opened(alloc, Setting::within_method(members, variables), i)
}

fn kept(
    alloc: Global,
    members: &Members,
    variables: &Variables,
    es: &[Rc<Expr>],
) -> Result<(), TypeFault>
    ensures { Gives (λ x. tt) result (first.assertions (within_method (table members.now.entries) (known variables.now.entries)) (written_all es.now)) }
{
    assertions(alloc, Setting::within_method(members, variables), es)
}

// The statements of a block, in order.
#[cycle(blocks)]
fn statements<'a>(
    alloc: Global,
    members: &Members<'a>,
    variables: &mut Variables<'a>,
    all: &'a [Stmt],
) -> Result<(), TypeFault>
    ensures first { Gives (λ x. tt) result (first.block (table members.now.entries) (known variables.old.entries) (written_list all.now)) }
    ensures kept { OnOk result (Extends (known variables.old.entries) (known variables.new.entries)) }
{
    for s in all {
        statement(alloc, members, variables, s)?;
    }
    Ok(())
}

/// A block is typed. After it the variables are those before it.
///
/// # Errors
/// Its first fault, at its place; `Want` where memory runs out.
#[cycle(blocks)]
pub fn block<'a>(
    alloc: Global,
    members: &Members<'a>,
    variables: &mut Variables<'a>,
    b: &'a Block,
) -> Result<(), TypeFault>
    ensures first { Gives (λ x. tt) result (first.block (table members.now.entries) (known variables.old.entries) (written_block b.now)) }
    ensures after { OnOk result (known variables.new.entries ≡ known variables.old.entries) }
{
    let kept = variables.len();
    statements(alloc, members, variables, &b.statements)?;
    variables.truncate(kept);
    Ok(())
}

// The other side of an `if`.
#[cycle(blocks)]
fn other<'a>(
    alloc: Global,
    members: &Members<'a>,
    variables: &mut Variables<'a>,
    b: &'a Option<Rc<Block>>,
) -> Result<(), TypeFault>
    ensures first { Gives (λ x. tt) result (first.other (table members.now.entries) (known variables.old.entries) (optional_other b.now)) }
    ensures after { OnOk result (known variables.new.entries ≡ known variables.old.entries) }
{
    match b {
        None => Ok(()),
        Some(b) => block(alloc, members, variables, b),
    }
}

// A statement.
#[cycle(blocks)]
fn statement<'a>(
    alloc: Global,
    members: &Members<'a>,
    variables: &mut Variables<'a>,
    s: &'a Stmt,
) -> Result<(), TypeFault>
    ensures first { Gives (λ x. tt) result (first.stmt (table members.now.entries) (known variables.old.entries) (written_stmt s.now.place s.now.kind)) }
    ensures after { OnOk result (known variables.new.entries ≡ scope_after (written_stmt s.now.place s.now.kind) (known variables.old.entries)) }
{
    match &s.kind {
        StmtKind::Declare(declared, r) => declaration(alloc, members, variables, declared, r),
        StmtKind::Assign(x, r) => assign(alloc, members, variables, x, r),
        StmtKind::Write(e, f, value) => field_write(alloc, members, variables, e, f, value),
        StmtKind::Call(xs, m, es) => { call(alloc, members, variables, xs, m.place, &m.text, es) }
        StmtKind::Inhale(e) => asserted(alloc, members, variables, e),
        StmtKind::Exhale(e) => asserted(alloc, members, variables, e),
        StmtKind::Assert(e) => asserted(alloc, members, variables, e),
        StmtKind::Assume(e) => condition(alloc, members, variables, e),
        StmtKind::Fold(i) => opens(alloc, members, variables, i),
        StmtKind::Unfold(i) => opens(alloc, members, variables, i),
        StmtKind::If(c, a, b) => {
            condition(alloc, members, variables, c)?;
            block(alloc, members, variables, a)?;
            other(alloc, members, variables, b)
        }
        StmtKind::While(c, invariants, b) => {
            condition(alloc, members, variables, c)?;
            kept(alloc, members, variables, invariants)?;
            block(alloc, members, variables, b)
        }
    }
}

//! Members.

ghost use Rattle.std.specs.Prelude.{◌≡◌, ◌++◌, ◌∷◌, [], Ok, OnOk, IfOk, map, string_bytes};
ghost use Rattle.vx_ast.specs.Written.{name_of, written_expr, written_clause, written_declaration, written_kind, written_member, optional_expr, optional_block};
ghost use Rattle.vx_expressions.specs.Faults as faults;
ghost use Rattle.vx_expressions.specs.Settings.{plainly, before_function, after_function, within_measure, within_predicate};
ghost use Rattle.vx_statements.specs.StatementFaults as statements;
ghost use Rattle.vx_typing.specs.MemberFaults as first;
ghost use Rattle.vx_typing.specs.Members.{signature_of, table_of};
ghost use Rattle.vx_statements.specs.declared.names.Role.TheVariants.{Input, Parameter, Local};
ghost use Rattle.vx_statements.specs.Roles.{with_variables};
ghost use Rattle.vx_expressions.specs.Gives.{Gives};
ghost use Rattle.vx_expressions.specs.Views as views;
ghost use Rattle.vx_expressions.specs.Views.{setting, table, known, claim_of, names_in};

use crate::parameters::{declare_all, leave_result};
use indexmap::IndexMap;
use std::alloc::Global;
use std::rc::Rc;
use vx_ast::{
    Block, Clause, Declaration, Expr, ExprKind, Function, Member, MemberKind, Method, Predicate,
    ValueType,
};
use vx_expressions::{
    Claim, Members, Setting, Signature, TypeFault, Variables, assertion, call, check, expect, place,
};
use vx_statements::{Role, asserted, block, truth, twice};

fn typed_as(alloc: Global, s: Setting, t: ValueType, e: &Expr) -> Result<(), TypeFault>
    ensures { Gives (λ x. tt) result (first.typed_as (setting s.entry) t (written_expr e.now)) }
{
    let found = check(alloc, s, e)?;
    expect(place(e), t, found)
}

fn measured(e: &Expr, x: Claim) -> Result<(), TypeFault>
    ensures { Gives (λ x. tt) result (first.measured (written_expr e.now) (claim_of x)) }
{
    match x {
        Claim::Value(t) => expect(place(e), ValueType::Int, t),
        Claim::Permission => Ok(()),
    }
}

// A measure is an Int, or an instance.
fn measure(alloc: Global, s: Setting, e: &Expr) -> Result<(), TypeFault>
    ensures { Gives (λ x. tt) result (first.measure (setting s.entry) (written_expr e.now)) }
{
    match &e.kind {
        ExprKind::Call(name, es) => {
            let x = call(alloc, s, e.place, name, es)?;
            measured(e, x)
        }
        ExprKind::Number(_)
        | ExprKind::Boolean(_)
        | ExprKind::Null
        | ExprKind::Write
        | ExprKind::Nothing
        | ExprKind::Outcome
        | ExprKind::Variable(_)
        | ExprKind::Read(_, _)
        | ExprKind::Unary(_, _)
        | ExprKind::Binary(_, _, _)
        | ExprKind::Conditional(_, _, _)
        | ExprKind::Old(_)
        | ExprKind::Access(_, _)
        | ExprKind::Unfolding(_, _, _, _) => typed_as(alloc, s, ValueType::Int, e),
    }
}

// What a predicate holds.
fn predicate_holds(
    alloc: Global,
    members: &Members,
    variables: &Variables,
    e: &Expr,
) -> Result<(), TypeFault>
    ensures { Gives (λ x. tt) result (faults.assertion (within_predicate (table members.now.entries) (known variables.now.entries)) (written_expr e.now)) }
{
    assertion(alloc, Setting::within_predicate(members, variables), e)
}

fn body(
    alloc: Global,
    members: &Members,
    variables: &Variables,
    e: &Option<Rc<Expr>>,
) -> Result<(), TypeFault>
    ensures { Gives (λ x. tt) result (first.body (table members.now.entries) (known variables.now.entries) (optional_expr e.now)) }
{
    match e {
        None => Ok(()),
        Some(e) => predicate_holds(alloc, members, variables, e),
    }
}

// What a function requires.
fn function_requires(
    alloc: Global,
    members: &Members,
    variables: &Variables,
    e: &Expr,
) -> Result<(), TypeFault>
    ensures { Gives (λ x. tt) result (faults.assertion (before_function (table members.now.entries) (known variables.now.entries)) (written_expr e.now)) }
{
    assertion(alloc, Setting::before_function(members, variables), e)
}

// What a function of this type ensures.
fn function_ensures(
    alloc: Global,
    members: &Members,
    variables: &Variables,
    of: ValueType,
    e: &Expr,
) -> Result<(), TypeFault>
    ensures { Gives (λ x. tt) result (statements.truth (after_function (table members.now.entries) (known variables.now.entries) of) (written_expr e.now)) }
{
    truth(alloc, Setting::after_function(members, variables, of), e)
}

// What a function decreases.
fn function_decreases(
    alloc: Global,
    members: &Members,
    variables: &Variables,
    e: &Expr,
) -> Result<(), TypeFault>
    ensures { Gives (λ x. tt) result (first.measure (within_measure (table members.now.entries) (known variables.now.entries)) (written_expr e.now)) }
{
    measure(alloc, Setting::within_measure(members, variables), e)
}

// A clause of a function of this type.
fn clause(
    alloc: Global,
    members: &Members,
    variables: &Variables,
    of: ValueType,
    c: &Clause,
) -> Result<(), TypeFault>
    ensures { Gives (λ x. tt) result (first.clause (table members.now.entries) (known variables.now.entries) of (written_clause c.now)) }
{
    match c {
        Clause::Requires(e) => function_requires(alloc, members, variables, e),
        Clause::Ensures(e) => function_ensures(alloc, members, variables, of, e),
        Clause::Decreases(e) => function_decreases(alloc, members, variables, e),
    }
}

fn clauses(
    alloc: Global,
    members: &Members,
    variables: &Variables,
    of: ValueType,
    cs: &[Clause],
) -> Result<(), TypeFault>
    ensures { Gives (λ x. tt) result (first.clauses (table members.now.entries) (known variables.now.entries) of (map written_clause cs.now)) }
{
    for c in cs {
        clause(alloc, members, variables, of, c)?;
    }
    Ok(())
}

// What a method requires.
fn method_requires(
    alloc: Global,
    members: &Members,
    variables: &Variables,
    e: &Expr,
) -> Result<(), TypeFault>
    ensures { Gives (λ x. tt) result (faults.assertion (plainly (table members.now.entries) (known variables.now.entries)) (written_expr e.now)) }
{
    assertion(alloc, Setting::plainly(members, variables), e)
}

// A clause of a method, with the variables known before it, and those known after it.
fn contract(
    alloc: Global,
    members: &Members,
    before: &Variables,
    after: &Variables,
    c: &Clause,
) -> Result<(), TypeFault>
    ensures { Gives (λ x. tt) result (first.contract (table members.now.entries) (known before.now.entries) (known after.now.entries) (written_clause c.now)) }
{
    match c {
        Clause::Requires(e) => method_requires(alloc, members, before, e),
        Clause::Ensures(e) => asserted(alloc, members, after, e),
        Clause::Decreases(_) => Ok(()),
    }
}

fn contracts(
    alloc: Global,
    members: &Members,
    before: &Variables,
    after: &Variables,
    cs: &[Clause],
) -> Result<(), TypeFault>
    ensures { Gives (λ x. tt) result (first.contracts (table members.now.entries) (known before.now.entries) (known after.now.entries) (map written_clause cs.now)) }
{
    for c in cs {
        contract(alloc, members, before, after, c)?;
    }
    Ok(())
}

fn statements<'a>(
    alloc: Global,
    members: &Members<'a>,
    variables: &mut Variables<'a>,
    b: &'a Option<Rc<Block>>,
) -> Result<(), TypeFault>
    ensures { Gives (λ x. tt) result (first.statements (table members.now.entries) (known variables.old.entries) (optional_block b.now)) }
{
    match b {
        None => Ok(()),
        Some(b) => block(alloc, members, variables, b),
    }
}

// The variables of parameters.
fn parameters<'a>(
    alloc: Global,
    role: Role,
    all: &'a [Declaration],
) -> Result<Variables<'a>, TypeFault>
    ensures first { Gives (λ x. tt) result (first.declarations role [] (map written_declaration all.now)) }
    ensures known { IfOk result (λ vs. known vs.entries ≡ with_variables role (map written_declaration all.now) []) }
{
    let mut variables: Variables = IndexMap::new(alloc);
    declare_all(alloc, &mut variables, role, all)?;
    Ok(variables)
}

fn predicate(alloc: Global, members: &Members, p: &Predicate) -> Result<(), TypeFault>
    ensures { Gives (λ x. tt) result (first.kind (table members.now.entries) (written_kind (MemberKind.Predicate p.now))) }
{
    let variables = parameters(alloc, Role::Input, &p.parameters)?;
    body(alloc, members, &variables, &p.body)
}

// The clauses and the value of a function whose parameters are known.
fn clauses_and_value(
    alloc: Global,
    members: &Members,
    variables: &Variables,
    f: &Function,
) -> Result<(), TypeFault>
    requires typed { first.declarations Input [] (map written_declaration f.now.parameters.items) ≡ Ok tt }
    requires apart { first.leave_result (map written_declaration f.now.parameters.items) ≡ Ok tt }
    requires known { known variables.now.entries ≡ with_variables Input (map written_declaration f.now.parameters.items) [] }
    ensures { Gives (λ x. tt) result (first.kind (table members.now.entries) (written_kind (MemberKind.Function f.now))) }
{
    clauses(alloc, members, variables, f.value_type, &f.clauses)?;
    typed_as(
        alloc,
        Setting::plainly(members, variables),
        f.value_type,
        &f.body,
    )
}

fn function(alloc: Global, members: &Members, f: &Function) -> Result<(), TypeFault>
    ensures { Gives (λ x. tt) result (first.kind (table members.now.entries) (written_kind (MemberKind.Function f.now))) }
{
    let variables = parameters(alloc, Role::Input, &f.parameters)?;
    leave_result(alloc, &f.parameters)?;
    clauses_and_value(alloc, members, &variables, f)
}

// The contract and the body of a method, with its parameters known, and with its returns too.
fn contract_and_body<'a>(
    alloc: Global,
    members: &Members<'a>,
    before: &Variables,
    after: &mut Variables<'a>,
    m: &'a Method,
) -> Result<(), TypeFault>
    ensures { Gives (λ x. tt) result (first.contract_and_body (table members.now.entries) (known before.now.entries) (known after.old.entries)
        (map written_clause m.now.clauses.items) (optional_block m.now.body)) }
{
    contracts(alloc, members, before, after, &m.clauses)?;
    statements(alloc, members, after, &m.body)
}

// A method whose parameters are known.
fn method_with<'a>(
    alloc: Global,
    members: &Members<'a>,
    before: &Variables,
    m: &'a Method,
) -> Result<(), TypeFault>
    requires { known before.now.entries ≡ with_variables Parameter (map written_declaration m.now.parameters.items) [] }
    ensures { Gives (λ x. tt) result (first.kind (table members.now.entries) (written_kind (MemberKind.Method m.now))) }
{
    let mut after = parameters(alloc, Role::Parameter, &m.parameters)?;
    declare_all(alloc, &mut after, Role::Local, &m.returns)?;
    contract_and_body(alloc, members, before, &mut after, m)
}

fn method<'a>(alloc: Global, members: &Members<'a>, m: &'a Method) -> Result<(), TypeFault>
    ensures { Gives (λ x. tt) result (first.kind (table members.now.entries) (written_kind (MemberKind.Method m.now))) }
{
    let before = parameters(alloc, Role::Parameter, &m.parameters)?;
    method_with(alloc, members, &before, m)
}

fn member<'a>(alloc: Global, members: &Members<'a>, m: &'a Member) -> Result<(), TypeFault>
    ensures { Gives (λ x. tt) result (first.kind (table members.now.entries) (written_kind m.now.kind)) }
{
    match &m.kind {
        MemberKind::Field(_) => Ok(()),
        MemberKind::Predicate(p) => predicate(alloc, members, p),
        MemberKind::Function(f) => function(alloc, members, f),
        MemberKind::Method(m) => method(alloc, members, m),
    }
}

/// The members, one after another.
pub fn check_members<'a>(
    alloc: Global,
    members: &Members<'a>,
    all: &'a [Member],
) -> Result<(), TypeFault>
    ensures { Gives (λ x. tt) result (first.members (table members.now.entries) (map written_member all.now)) }
{
    for m in all {
        member(alloc, members, m)?;
    }
    Ok(())
}

// What a member's name stands for.
fn signature(kind: &MemberKind) -> Signature<'_>
    ensures { views.signature result ≡ signature_of (written_kind kind.now) }
{
    match kind {
        MemberKind::Field(t) => Signature::Field(*t),
        MemberKind::Predicate(p) => Signature::Predicate(&p.parameters, p.body.is_some()),
        MemberKind::Function(f) => Signature::Function(&f.parameters, f.value_type),
        MemberKind::Method(m) => Signature::Method(&m.parameters, &m.returns),
    }
}

// One more member.
fn add_member<'a>(alloc: Global, members: &mut Members<'a>, m: &'a Member) -> Result<(), TypeFault>
    ensures first { Gives (λ x. tt) result (statements.new_name (names_in (table members.old.entries)) (name_of m.now.name)) }
    ensures added { OnOk result (table members.new.entries ≡ table members.old.entries ++ (string_bytes m.now.name.text, signature_of (written_kind m.now.kind)) ∷ []) }
{
    let name: &str = &m.name.text;
    if vx_expressions::member(members, name).is_some() {
        return Err(twice(alloc, &m.name));
    }
    members.insert(name, signature(&m.kind))?;
    Ok(())
}

/// What the names of the members stand for.
pub fn members_of<'a>(alloc: Global, all: &'a [Member]) -> Result<Members<'a>, TypeFault>
    ensures first { Gives (λ x. tt) result (first.new_names [] (map written_member all.now)) }
    ensures table { IfOk result (λ ms. table ms.entries ≡ table_of (map written_member all.now)) }
{
    let mut members: Members = IndexMap::new(alloc);
    for m in all {
        add_member(alloc, &mut members, m)?;
    }
    Ok(members)
}

//! Parameters and returns that are declared, of types that their roles allow.

ghost use Rattle.std.specs.Prelude.{◌≡◌, OnOk, map};
ghost use Rattle.vx_ast.specs.Syntax.{same_name, result_name};
ghost use Rattle.vx_ast.specs.Written.{name_of, written_declaration};
ghost use Rattle.vx_expressions.specs.Gives.{Gives};
ghost use Rattle.vx_expressions.specs.Views.{known};
ghost use Rattle.vx_typing.specs.MemberFaults as members;
ghost use Rattle.vx_statements.specs.Roles as scopes;
ghost use Rattle.vx_statements.specs.Roles.{with_variable, with_variables};

use std::alloc::Global;
use vx_ast::{Declaration, Name, ValueType};
use vx_expressions::{Expected, TypeFault, Variables};
use vx_statements::{Role, declare, twice};

// Whether a variable of this role can have this type.
fn takes(role: Role, t: ValueType) -> bool
    ensures { result ≡ scopes.takes role t }
{
    match (role, t) {
        (Role::Input, ValueType::Perm) => false,
        (Role::Input, ValueType::Int | ValueType::Bool | ValueType::Ref) => true,
        (Role::Parameter, _) => true,
        (Role::Local, _) => true,
    }
}

// One more parameter or return, whose type its role allows.
fn declare_one<'a>(
    alloc: Global,
    variables: &mut Variables<'a>,
    role: Role,
    declared: &'a Declaration,
) -> Result<(), TypeFault>
    ensures first { Gives (λ x. tt) result (members.declaration role (known variables.old.entries) (written_declaration declared.now)) }
    ensures after { OnOk result (known variables.new.entries ≡ with_variable role (written_declaration declared.now) (known variables.old.entries)) }
{
    declare(alloc, variables, role, declared)?;
    let t = declared.value_type;
    if takes(role, t) {
        return Ok(());
    }
    let expected = Expected::Type(ValueType::Int);
    Err(TypeFault::Mismatch(declared.type_place, expected, t))
}

/// More of them, in order.
pub fn declare_all<'a>(
    alloc: Global,
    variables: &mut Variables<'a>,
    role: Role,
    all: &'a [Declaration],
) -> Result<(), TypeFault>
    ensures first { Gives (λ x. tt) result (members.declarations role (known variables.old.entries) (map written_declaration all.now)) }
    ensures after { OnOk result (known variables.new.entries ≡ with_variables role (map written_declaration all.now) (known variables.old.entries)) }
{
    for declared in all {
        declare_one(alloc, variables, role, declared)?;
    }
    Ok(())
}

fn is_result(name: &str) -> bool
    ensures { result ≡ same_name result_name name.now }
{
    name == "result"
}

// The name of a parameter is not that of the result.
fn leaves_result(alloc: Global, name: &Name) -> Result<(), TypeFault>
    ensures { Gives (λ x. tt) result (members.leaves_result (name_of name.now)) }
{
    if is_result(&name.text) {
        return Err(twice(alloc, name));
    }
    Ok(())
}

/// No parameter of a function has the name of its result.
pub fn leave_result(alloc: Global, all: &[Declaration]) -> Result<(), TypeFault>
    ensures { Gives (λ x. tt) result (members.leave_result (map written_declaration all.now)) }
{
    for declared in all {
        leaves_result(alloc, &declared.name)?;
    }
    Ok(())
}

//! Names that are declared, and those among which none may stand twice.

ghost use Rattle.std.specs.Prelude.{◌≡◌, ◌++◌, ◌∷◌, [], OnOk, IfSome, string_bytes};
ghost use Rattle.vx_ast.specs.Written.{name_of, written_declaration};
ghost use Rattle.vx_expressions.specs.Faults as faults;
ghost use Rattle.vx_statements.specs.StatementFaults as first;
ghost use Rattle.vx_expressions.specs.Gives.{Gives, told};
ghost use Rattle.vx_statements.specs.Roles as scopes;
ghost use Rattle.vx_statements.specs.Roles.{with_variable};
ghost use Rattle.vx_expressions.specs.Views.{known, listed};

use indexmap::IndexSet;
use std::alloc::Global;
use vx_ast::{Declaration, Name};
use vx_expressions::{TypeFault, Variable, Variables, find};

/// What a variable is declared as.
#[derive(Clone, Copy)]
pub enum Role {
    /// A parameter of a predicate or a function, which is not Perm.
    Input,
    /// A parameter of a method.
    Parameter,
    /// A local variable or a return, which can be assigned.
    Local,
}

fn is_assignable(role: Role) -> bool
    ensures { result ≡ scopes.is_assignable role }
{
    match role {
        Role::Input => false,
        Role::Parameter => false,
        Role::Local => true,
    }
}

/// The fault of a name that stands there already, or want of memory.
pub fn twice(alloc: Global, name: &Name) -> TypeFault
    ensures { IfSome (told result) (λ f. f ≡ faults.Twice name.now.place (string_bytes name.now.text)) }
{
    match String::from_str(alloc, &name.text) {
        Ok(text) => TypeFault::Twice(name.place, text),
        Err(_) => TypeFault::Want,
    }
}

/// One more name, which is none of those before.
///
/// # Errors
/// `Twice` where it is; `Want` where memory runs out.
pub fn add_name<'a>(
    alloc: Global,
    names: &mut IndexSet<&'a str>,
    name: &'a Name,
) -> Result<(), TypeFault>
    ensures first { Gives (λ x. tt) result (first.new_name (listed names.old.keys) (name_of name.now)) }
    ensures added { OnOk result (listed names.new.keys ≡ listed names.old.keys ++ string_bytes name.now.text ∷ []) }
{
    let text: &str = &name.text;
    let (_, is_new) = names.insert_full(text)?;
    if is_new {
        return Ok(());
    }
    Err(twice(alloc, name))
}

// The name of a new variable is not known yet.
fn new_variable(alloc: Global, variables: &Variables, name: &Name) -> Result<(), TypeFault>
    ensures { Gives (λ x. tt) result (first.new_variable (known variables.now.entries) (name_of name.now)) }
{
    match find(variables, &name.text) {
        None => Ok(()),
        Some(_) => Err(twice(alloc, name)),
    }
}

/// One more variable.
///
/// # Errors
/// `Twice` where its name is a variable already; `Want` where memory runs out.
pub fn declare<'a>(
    alloc: Global,
    variables: &mut Variables<'a>,
    role: Role,
    declared: &'a Declaration,
) -> Result<(), TypeFault>
    ensures first { Gives (λ x. tt) result (first.new_variable (known variables.old.entries) (name_of declared.now.name)) }
    ensures after { OnOk result (known variables.new.entries ≡ with_variable role (written_declaration declared.now) (known variables.old.entries)) }
{
    new_variable(alloc, variables, &declared.name)?;
    let variable = Variable {
        of: declared.value_type,
        assignable: is_assignable(role),
    };
    variables.insert(&declared.name.text, variable)?;
    Ok(())
}

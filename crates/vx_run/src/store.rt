//! Stores of a run.
ghost use Rattle.std.specs.Prelude.{◌≡◌, ◌∷◌, [], ◌++◌, take, option_map, string_bytes, IfOk, OnOk};
ghost use Rattle.vx_ast.specs.Syntax.{same_name};
ghost use Rattle.vx_meaning.specs.States as states;
ghost use Rattle.vx_run.specs.Views.{value};
ghost use Rattle.vx_run.specs.Stores.{store};
ghost use Rattle.vx_run.specs.Stores.{place_in};

use crate::values::Value;
use std::alloc::{AllocError, Global};
use std::rc::Rc;

/// A variable with its value.
pub struct Variable {
    pub name: Rc<String>,
    pub value: Value,
}

impl Drop for Variable {
    fn drop(self) {
        let Self { name, value } = self;
    }
}

/// Whether two names are the same.
fn is_same_name(x: &[u8], y: &[u8]) -> bool
    ensures { result ≡ same_name x.now y.now }
{
    x == y
}

/// The value of a variable.
pub fn lookup(variables: &[Variable], name: &Rc<String>) -> Option<Value>
    ensures { option_map value result ≡ states.lookup (string_bytes name.now.value) (store variables.now) }
{
    for v in variables {
        if is_same_name(name.as_bytes(), v.name.as_bytes()) {
            return Some(v.value);
        }
    }
    None
}

/// A further variable.
pub fn declare(variables: &mut Vec<Variable>, name: &Rc<String>, v: Value) -> Result<(), AllocError>
    ensures { OnOk result (store variables.new.items ≡ store variables.old.items ++ (string_bytes name.now.value, value v) ∷ []) }
{
    variables.push(Variable {
        name: name.clone()?,
        value: v,
    })?;
    Ok(())
}

/// All but the first variables are forgotten.
pub fn leave(variables: &mut Vec<Variable>, kept: usize)
    ensures { store variables.new.items ≡ take kept (store variables.old.items) }
{
    variables.truncate(kept);
}

/// Where a variable stands.
fn find(variables: &[Variable], name: &Rc<String>) -> Option<usize>
    ensures { result ≡ place_in (string_bytes name.now.value) (store variables.now) }
{
    for (k, v) in variables.iter().enumerate() {
        if is_same_name(name.as_bytes(), v.name.as_bytes()) {
            return Some(k);
        }
    }
    None
}

/// A variable gets a value.
pub fn assign(variables: &mut Vec<Variable>, name: &Rc<String>, v: Value)
    ensures { store variables.new.items ≡ states.assign (string_bytes name.now.value) (value v) (store variables.old.items) }
{
    match find(variables, name) {
        Some(k) => variables[k].value = v,
        None => {}
    }
}

/// The same variables once more.
pub fn copy_store(alloc: Global, variables: &[Variable]) -> Result<Vec<Variable>, AllocError>
    ensures { IfOk result (λ xs. store xs.items ≡ store variables.now) }
{
    let mut copies = Vec::new(alloc);
    for v in variables {
        declare(&mut copies, &v.name, v.value)?;
    }
    Ok(copies)
}

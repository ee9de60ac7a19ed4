//! Parameters, returns and targets of a call, and the values that they have.
ghost use Rattle.std.specs.Prelude.{◌≡◌, ◌++◌, map, option_map, IfOk, OnOk};
ghost use Rattle.vx_meaning.specs.States as states;
ghost use Rattle.vx_resolved.specs.Resolved.{declaration, names_of};
ghost use Rattle.vx_run.specs.Views.{value};
ghost use Rattle.vx_run.specs.Stores.{store};
ghost use Rattle.vx_run.specs.Whole as whole;

use crate::store::{Variable, assign, declare, lookup};
use crate::values::Value;
use std::alloc::{AllocError, Global};
use std::rc::Rc;
use vx_resolved::Declaration;

/// Further variables with their values, as long as there are both.
pub fn bind(
    variables: &mut Vec<Variable>,
    declarations: &[Declaration],
    values: &[Value],
) -> Result<(), AllocError>
    ensures { OnOk result (store variables.new.items ≡ store variables.old.items ++ states.bind (map declaration declarations.now) (map value values.now)) }
{
    for (d, v) in declarations.iter().zip(values) {
        declare(variables, &d.name, *v)?;
    }
    Ok(())
}

/// Variables get values in order, as long as there are both.
pub fn assign_all(variables: &mut Vec<Variable>, names: &[Rc<String>], values: &[Value])
    ensures { store variables.new.items ≡ states.assign_all (names_of names.now) (map value values.now) (store variables.old.items) }
{
    for (name, v) in names.iter().zip(values) {
        assign(variables, name, *v);
    }
}

/// The values of these variables, in order; none where one isn't there.
pub fn values_of(
    alloc: Global,
    declarations: &[Declaration],
    variables: &[Variable],
) -> Result<Option<Vec<Value>>, AllocError>
    ensures { IfOk result (λ o. option_map (λ vs. map value vs.items) o ≡ whole.values_of (map declaration declarations.now) (store variables.now)) }
{
    let mut values = Vec::new(alloc);
    for d in declarations {
        match lookup(variables, &d.name) {
            Some(v) => values.push(v)?,
            None => return Ok(None),
        }
    }
    Ok(Some(values))
}

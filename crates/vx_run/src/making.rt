//! A new reference, with the fields that are permitted.
ghost use Rattle.std.specs.Prelude.{◌≡◌, OnOk, string_bytes};
ghost use Rattle.vx_resolved.specs.Resolved.{names_of};
ghost use Rattle.vx_resolved.specs.Settled.{settled};
ghost use Rattle.vx_run.specs.Going.{gives};
ghost use Rattle.vx_run.specs.ConfigViews.{config_of, state_of};
ghost use Rattle.vx_run.specs.Supplies as supplies;
ghost use Rattle.vx_run.specs.Tasks as tasks;
ghost use Rattle.vx_run.specs.Views.{value};

use crate::fresh::fresh_reference;
use crate::heap::write;
use crate::members::field_type;
use crate::resource::{Location, Resource};
use crate::state::{Config, State};
use crate::store::assign;
use crate::supply::Supply;
use crate::values::Value;
use std::alloc::{AllocError, Global};
use std::mem;
use std::rc::Rc;
use vx_frac::Frac;
use vx_resolved::Settled;

/// All of a field of a reference is held, with this value.
fn add_field(
    alloc: Global,
    state: &mut State,
    r: u64,
    field: &Rc<String>,
    v: Value,
) -> Result<(), AllocError>
    ensures { OnOk result (state_of state.new ≡ tasks.with_field r (string_bytes field.now.value) (value v) (state_of state.old)) }
{
    let location = Location {
        receiver: r,
        field: field.clone()?,
    };
    let heap = write(alloc, &state.heap, &location, v)?;
    let holdings = state
        .holdings
        .gained(alloc, &Resource::At(location), Frac::whole(1))?;
    let _heap = mem::replace(&mut state.heap, heap);
    let _holdings = mem::replace(&mut state.holdings, holdings);
    Ok(())
}

/// A field of a new reference, whose value is drawn.
fn draw_field(
    alloc: Global,
    program: &Settled,
    state: &mut State,
    supply: &mut Supply,
    r: u64,
    field: &Rc<String>,
) -> Result<(), AllocError>
    ensures { OnOk result (gives (state_of state.new) (supplies.supply supply.new) ≡ tasks.one_field (settled program.now) r (string_bytes field.now.value) (state_of state.old) (supplies.supply supply.old)) }
{
    let v = supply.draw(field_type(program, field));
    add_field(alloc, state, r, field, v)?;
    Ok(())
}

/// The fields of a new reference, in order.
fn draw_fields(
    alloc: Global,
    program: &Settled,
    state: &mut State,
    supply: &mut Supply,
    r: u64,
    fields: &[Rc<String>],
) -> Result<(), AllocError>
    ensures { OnOk result (gives (state_of state.new) (supplies.supply supply.new) ≡ tasks.new_fields (settled program.now) r (names_of fields.now) (state_of state.old) (supplies.supply supply.old)) }
{
    for field in fields {
        draw_field(alloc, program, state, supply, r, field)?;
    }
    Ok(())
}

/// A variable is a new reference, with these fields.
pub fn make_new(
    alloc: Global,
    program: &Settled,
    of: &mut Config,
    supply: &mut Supply,
    x: &Rc<String>,
    fields: &[Rc<String>],
) -> Result<(), AllocError>
    ensures { OnOk result (gives (config_of of.new) (supplies.supply supply.new) ≡ tasks.made (settled program.now) (string_bytes x.now.value) (names_of fields.now) (config_of of.old) (supplies.supply supply.old)) }
{
    let r = fresh_reference(of)?;
    assign(&mut of.state.store, x, Value::Ref(r));
    draw_fields(alloc, program, &mut of.state, supply, r, fields)?;
    Ok(())
}

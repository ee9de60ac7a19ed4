//! A field is written.
ghost use Rattle.std.specs.Prelude.{◌≡◌, ℕ, string_bytes};
ghost use Rattle.vx_meaning.specs.States as states;
ghost use Rattle.vx_run.specs.Configs.{in_state};
ghost use Rattle.vx_run.specs.Held.{heap as heap_of};
ghost use Rattle.vx_run.specs.Going as going;
ghost use Rattle.vx_run.specs.Going.{gives};
ghost use Rattle.vx_run.specs.ConfigViews.{config_of};
ghost use Rattle.vx_run.specs.Frames.{Follows};
ghost use Rattle.vx_run.specs.Tasks as tasks;
ghost use Rattle.vx_run.specs.Views.{value};

use crate::finding::take_two;
use crate::halt::Halt;
use crate::heap::{Heap, write};
use crate::outcome::Whole;
use crate::resource::{Location, Resource};
use crate::state::Config;
use crate::values::Value;
use std::alloc::Global;
use std::mem;
use std::rc::Rc;
use vx_ast::Place;
use vx_frac::Frac;

/// The heap is this.
fn put_heap(of: &mut Config, heap: Rc<Heap>)
    ensures { config_of of.new ≡ in_state (states.with_heap (heap_of heap.value) (config_of of.old).state) (config_of of.old) }
{
    let _before = mem::replace(&mut of.state.heap, heap);
}

/// A value is written to a field of a reference, of which all has to be held.
fn write_field(
    alloc: Global,
    of: &mut Config,
    at: Place,
    field: &Rc<String>,
    receiver: u64,
    v: Value,
) -> Result<(), Halt>
    ensures { (l : going.Supply ℕ) → Follows result (gives (config_of of.new) l) (tasks.put (config_of of.old) (tasks.written_at at (record { receiver = receiver; field = string_bytes field.now.value }) (value v) (config_of of.old).state) l) }
{
    let location = Location {
        receiver,
        field: field.clone()?,
    };
    let r = Resource::At(location.copy()?);
    if Frac::whole(1).is_at_most(of.state.holdings.amount(&r)) {
        let heap = write(alloc, &of.state.heap, &location, v)?;
        put_heap(of, heap);
        return Ok(());
    }
    Err(Halt::Over(Whole::Failed(at)))
}

/// The newest value is written to a field of the one before.
pub fn step_write(alloc: Global, of: &mut Config, at: Place, field: &Rc<String>) -> Result<(), Halt>
    ensures { (l : going.Supply ℕ) → Follows result (gives (config_of of.new) l) (tasks.wrote at (string_bytes field.now.value) (config_of of.old) l) }
{
    match take_two(of) {
        None => Err(Halt::Over(Whole::Running)),
        Some((r, v)) => match r {
            Value::Ref(receiver) => write_field(alloc, of, at, field, receiver, v),
            Value::Int(_) | Value::Bool(_) | Value::Perm(_) => Err(Halt::Over(Whole::Failed(at))),
        },
    }
}

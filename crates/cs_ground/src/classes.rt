//! The truths and the classes of terms by number.
ghost use Rattle.std.specs.Prelude.{◌≡◌, ◌<◌, ◌≤◌, map, length, IfOk};
ghost use Rattle.cs_table.specs.Table.{nodes_in};
ghost use Rattle.cs_ground.specs.Assigned as assigned;
ghost use Rattle.cs_ground.specs.Assigned.{is_equated, IsClass, AreClasses};

use cs_search::Value;
use cs_table::{Table, equality};
use std::alloc::{AllocError, Global};

/// Whether an atom is true.
fn is_true(values: &[Value], atom: u32) -> bool
    ensures { result ≡ assigned.is_true values.now atom }
{
    match values.get(atom as usize) {
        Some(Value::Positive(_)) => true,
        Some(Value::Negative(_)) | Some(Value::Unset) | None => false,
    }
}

/// The truths of terms, by number, of which there are these atoms.
pub fn truths_of(alloc: Global, places: &[u32], values: &[Value]) -> Result<Vec<bool>, AllocError>
    ensures { IfOk result (λ v. v.items ≡ map (assigned.is_true values.now) places.now) }
{
    let mut truths = Vec::new(alloc);
    for atom in places {
        truths.push(is_true(values, *atom))?;
    }
    Ok(truths)
}

/// Whether the equality of two terms is true.
fn is_equated(nodes: &Table, truths: &[bool], a: u32, b: u32) -> bool
    ensures { result ≡ assigned.is_equated (nodes_in nodes.now) truths.now a b }
{
    match equality(nodes, a, b) {
        Some(number) => truths.get(number as usize).copied().unwrap_or(false),
        None => false,
    }
}

/// The class of the term of a number: the least number whose term is the same.
fn class_of(nodes: &Table, truths: &[bool], number: u32) -> u32
    ensures { IsClass (nodes_in nodes.now) truths.now number result }
{
    for other in 0..number {
        if is_equated(nodes, truths, other, number) {
            return other;
        }
    }
    number
}

/// The classes of the first terms, so many.
pub fn classes_of(
    alloc: Global,
    nodes: &Table,
    truths: &[bool],
    count: u32,
) -> Result<Vec<u32>, AllocError>
    ensures { IfOk result (λ v. AreClasses (nodes_in nodes.now) truths.now count v.items) }
{
    let mut classes = Vec::new(alloc);
    for number in 0..count {
        classes.push(class_of(nodes, truths, number))?;
    }
    Ok(classes)
}

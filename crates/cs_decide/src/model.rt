//! A model from the classes, the values of numbers and an assignment.

use crate::elements::Sources;
use cs_model::{Entry, Model};
use cs_sums::Stop;
use cs_table::Head;
use std::alloc::Global;

/// What a symbol gives on its arguments, if the term is one.
fn entry(alloc: Global, sources: &Sources<'_>, number: u32) -> Result<Option<Entry>, Stop> {
    let node = sources.record.node(number)?;
    match &node.head {
        Head::Constant(symbol, sort) | Head::Apply(symbol, sort) => Ok(Some(Entry {
            symbol: symbol.copy()?,
            sort: sort.copy()?,
            arguments: sources.elements(alloc, &node.parts)?,
            value: sources.element(number)?,
        })),
        _ => Ok(None),
    }
}

/// The model in which each of the first terms is what the sources make it.
///
/// # Errors
/// `Over` where a fraction leaves 128 bits; `Want` where memory runs out.
pub fn model_of(alloc: Global, sources: &Sources<'_>, count: u32) -> Result<Model, Stop> {
    let mut entries = Vec::new(alloc);
    for number in 0..count {
        if let Some(entry) = entry(alloc, sources, number)? {
            entries.push(entry)?;
        }
    }
    Ok(Model { entries })
}

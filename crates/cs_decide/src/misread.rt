//! Nonlinear terms that a model reads otherwise than an attempt does.

use crate::elements::Sources;
use cs_answer::is_nonlinear;
use cs_model::{Model, evaluate};
use cs_sums::Stop;
use std::alloc::Global;
use vx_terms::Term;

/// Whether a model makes another element of a term than the sources.
fn is_misread(
    alloc: Global,
    sources: &Sources<'_>,
    model: &Model,
    number: u32,
    t: &Term,
) -> Result<bool, Stop> {
    match evaluate(alloc, model, t) {
        Ok(element) => Ok(element != sources.element(number)?),
        Err(cs_model::Stop::Over(_)) => Ok(true),
        Err(cs_model::Stop::Want) => Err(Stop::Want),
    }
}

/// The first of the first terms that isn't linear and has another value in a model than the sources make it.
///
/// # Errors
/// `Over` where a fraction leaves 128 bits; `Want` where memory runs out.
pub fn misread(
    alloc: Global,
    sources: &Sources<'_>,
    model: &Model,
    count: u32,
) -> Result<Option<u32>, Stop> {
    for number in 0..count {
        let term = sources.record.term(number)?;
        if is_nonlinear(&term) && is_misread(alloc, sources, model, number, &term)? {
            return Ok(Some(number));
        }
    }
    Ok(None)
}

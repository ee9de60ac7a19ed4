//! What is written of a check.

use cs_answer::{Cause, is_few};
use cs_ground::{Settled, settle};
use cs_proof::{Stack, Step, Want};
use cs_session::{Last, Session};
use std::alloc::{AllocError, Global};
use vx_table::Text;

fn put_cause(cause: &Cause, out: &mut Text) {
    match cause {
        Cause::Budget => out.put("unknown, all units are spent"),
        Cause::Over(_) => out.put("unknown, a fraction leaves 128 bits"),
        Cause::Nonlinear(term) => {
            out.put("unknown, term ");
            out.natural(u128::from(*term));
            out.put(" is not linear");
        }
    }
}

/// A refutation. So many of its steps, or fewer, aren't counted.
fn put_refuted(steps: &[Step], within: usize, out: &mut Text) {
    if steps.len() <= within {
        out.put("refuted, within ");
        out.natural(within as u128);
    } else {
        out.put("refuted, ");
        out.natural(steps.len() as u128);
    }
    out.put(" steps, finished");
}

fn put_last(last: &Last, within: usize, out: &mut Text) {
    match last {
        Last::Nothing => out.put("no check"),
        Last::Refuted(steps) => put_refuted(steps, within, out),
        Last::Satisfied => out.put("model, true"),
        Last::Unknown(cause) => put_cause(cause, out),
    }
}

/// Whether all clauses of a stack at once give the same answer, where few of its terms are Bool and none is a number.
fn settles_alike(alloc: Global, stack: &Stack, last: &Last) -> Result<bool, Want> {
    if !is_few(alloc, stack)? {
        return Ok(true);
    }
    match (settle(alloc, stack)?, last) {
        (Settled::Refuted(_), Last::Refuted(_)) => Ok(true),
        (Settled::Satisfied(_), Last::Satisfied) => Ok(true),
        _ => Ok(false),
    }
}

/// The answer of the last check on a line; where all clauses at once answer otherwise, that is told. So many steps of a
/// refutation, or fewer, aren't counted.
///
/// # Errors
/// Want of memory.
pub fn put_answer(
    alloc: Global,
    session: &Session,
    within: usize,
    out: &mut Text,
) -> Result<(), AllocError> {
    out.put("  ");
    put_last(session.last(), within, out);
    out.put("\n");
    match settles_alike(alloc, session.levels().stack(), session.last()) {
        Ok(true) => Ok(()),
        Ok(false) => {
            out.put("  settled otherwise\n");
            Ok(())
        }
        Err(Want) => Err(AllocError),
    }
}

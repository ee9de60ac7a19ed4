//! What the checker answers to a reply.

use crate::reading::{Written, certificate_of};
use crate::told::put_refusal;
use cs_proof::{Checker, Stack};
use cs_reader::{Certificate, Refusal};
use std::alloc::{AllocError, Global};
use vx_table::Text;

fn checker_of(
    alloc: Global,
    stack: &Stack,
    certificate: Certificate,
) -> Result<Checker, AllocError> {
    Checker::new(alloc, stack, certificate).map_err(|_| AllocError)
}

// An answer of the checker: this word, or its refusal.
fn put_answer(text: &mut Text, answer: &Result<(), Refusal>, word: &str) {
    text.break_line();
    match answer {
        Ok(()) => text.put(word),
        Err(refusal) => put_refusal(text, refusal),
    }
}

// Each step, one call more than there are steps, and the end.
fn put_answers(text: &mut Text, checker: Checker, count: usize) {
    let mut checker = checker;
    for _ in 0..=count {
        put_answer(text, &checker.step(), "holds");
    }
    put_answer(text, &checker.finish(), "finished");
}

/// The answer to a reply over these assertions and symbols; false: it is none.
///
/// # Errors
/// Want of memory.
pub fn put_check(
    alloc: Global,
    stack: &Stack,
    reply: &str,
    text: &mut Text,
) -> Result<bool, AllocError> {
    match certificate_of(alloc, reply)? {
        Some(Written::Steps(certificate)) => {
            let answer = checker_of(alloc, stack, certificate)?.finish();
            put_answer(text, &answer, "finished");
        }
        Some(Written::Refused(refusal)) => put_refusal(text, &refusal),
        None => return Ok(false),
    }
    Ok(true)
}

/// The answer at each step of a reply, once more behind the last one, and at the end; false: it is none.
///
/// # Errors
/// Want of memory.
pub fn put_steps(
    alloc: Global,
    stack: &Stack,
    reply: &str,
    text: &mut Text,
) -> Result<bool, AllocError> {
    match certificate_of(alloc, reply)? {
        Some(Written::Steps(certificate)) => {
            let count = certificate.steps.len();
            put_answers(text, checker_of(alloc, stack, certificate)?, count);
        }
        Some(Written::Refused(refusal)) => put_refusal(text, &refusal),
        None => return Ok(false),
    }
    Ok(true)
}

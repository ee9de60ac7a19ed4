//! What all rows of a text are answered.

use crate::answers::answer;
use std::alloc::{AllocError, Global};
use vx_table::{Answers, Row, Text};

// Answers rows with the runtime, which child processes and files need.
#[derive(Drop)]
struct Program<'a> {
    rt: &'a HostRuntime,
}

impl Answers for Program<'_> {
    fn answer(&mut self, alloc: Global, row: &Row, out: &mut Text) -> Result<(), AllocError> {
        answer(self.rt, alloc, row, out)
    }
}

// How many bytes stand in front of the script, which begins with the first line that begins as a command or a comment does.
fn table_length(text: &str) -> usize {
    let mut at = 0usize;
    for line in text.split('\n') {
        if line.starts_with('(') || line.starts_with(';') {
            return at;
        }
        at = at.saturating_add(line.len()).saturating_add(1);
    }
    at
}

// What came of the rows of a table of certificates, and of the script behind it.
fn put_certificates(alloc: Global, text: &str, out: &mut Text) -> Result<(), AllocError> {
    let at = table_length(text);
    cs_rows::run_all(alloc, text.get(..at).unwrap_or(text), out)?;
    cs_rows::run_script(alloc, text.as_bytes().get(at..).unwrap_or(&[]), out)
}

/// What came of the rows of a table, and behind the line `certificates` of those of certificates and of a script.
///
/// # Errors
/// Want of memory.
pub fn answers_of(rt: &HostRuntime, alloc: Global, text: &str) -> Result<Vec<u8>, AllocError> {
    let (table, certificates) = text.split_once("\ncertificates\n").unwrap_or((text, ""));
    let mut out = Text::new(alloc);
    vx_table::run_all(alloc, table, &mut Program { rt }, &mut out)?;
    put_certificates(alloc, certificates, &mut out)?;
    out.end()
}

//! Replies, terms and certificates as they are read.

use crate::names::sort_text;
use crate::told::put_refusal;
use crate::written::put_written;
use cs_reader::{Certificate, ReadFault, Refusal, Scope, Stop, SymbolIndex, Symbols, spelled};
use cs_sorts::{is_live, sort_in};
use std::alloc::{AllocError, Global};
use std::rc::Rc;
use vx_sexp::{Sexp, SexpFault, read};
use vx_smt_meaning::{Command, Declared};
use vx_smt_text::write;
use vx_table::Text;
use vx_terms::{Sort, Term};

// The one s-expression of a text; None: it is another text.
fn sexp_of(alloc: Global, text: &str) -> Result<Option<Sexp>, AllocError> {
    let text = text.trim();
    let mut bytes = Vec::from_slice(alloc, text.as_bytes())?;
    bytes.push(b'\n')?;
    match read(alloc, &bytes) {
        Ok((found, taken)) if taken >= text.len() => Ok(Some(found)),
        Ok(_) => Ok(None),
        Err(SexpFault::Want) => Err(AllocError),
        Err(_) => Ok(None),
    }
}

/// The term that a text spells over these symbols; None: it spells none.
///
/// # Errors
/// Want of memory.
pub fn term_of(
    alloc: Global,
    known: &[Declared],
    text: &str,
) -> Result<Option<Rc<Term>>, AllocError> {
    let Some(item) = sexp_of(alloc, text)? else {
        return Ok(None);
    };
    let index = SymbolIndex::of(alloc, known)?;
    let symbols = Symbols::new(known, &index);
    match spelled(alloc, &Scope::Among(&symbols), item.tokens()) {
        Ok(term) => Ok(Some(term)),
        Err(Stop::Form) => Ok(None),
        Err(Stop::Want) => Err(AllocError),
    }
}

/// The certificate that a reply writes, or why it is refused.
#[derive(Drop)]
pub enum Written {
    Steps(Certificate),
    Refused(Refusal),
}

/// How a reply is read; None: the text is no s-expression.
///
/// # Errors
/// Want of memory.
pub fn certificate_of(alloc: Global, text: &str) -> Result<Option<Written>, AllocError> {
    let Some(reply) = sexp_of(alloc, text)? else {
        return Ok(None);
    };
    if reply.tokens().len() >= 1 << 32 {
        return Ok(None);
    }
    match Certificate::read(alloc, &reply) {
        Ok(certificate) => Ok(Some(Written::Steps(certificate))),
        Err(ReadFault::Refused(refusal)) => Ok(Some(Written::Refused(refusal))),
        Err(ReadFault::Want) => Err(AllocError),
    }
}

/// The steps of a reply, or its refusal; false: it is none.
///
/// # Errors
/// Want of memory.
pub fn put_read(alloc: Global, reply: &str, text: &mut Text) -> Result<bool, AllocError> {
    match certificate_of(alloc, reply)? {
        Some(Written::Steps(certificate)) => put_written(text, &certificate.steps),
        Some(Written::Refused(refusal)) => put_refusal(text, &refusal),
        None => return Ok(false),
    }
    Ok(true)
}

// A term as a command asserts it.
fn put_asserted(alloc: Global, term: Rc<Term>, text: &mut Text) {
    let mut bytes = Vec::new(alloc);
    match write(alloc, &Command::Assert(term), &mut bytes) {
        Ok(()) => text.trimmed(&bytes),
        Err(_) => text.cut(),
    }
}

/// The term that some words spell.
///
/// # Errors
/// Want of memory.
pub fn put_spelled(
    alloc: Global,
    known: &[Declared],
    words: &str,
    text: &mut Text,
) -> Result<(), AllocError> {
    match term_of(alloc, known, words)? {
        Some(term) => put_asserted(alloc, term, text),
        None => text.put("no term"),
    }
    Ok(())
}

// A sort, and whether the term's symbols are live.
fn put_sort(
    alloc: Global,
    live: &[Declared],
    term: &Term,
    sort: &Sort,
    text: &mut Text,
) -> Result<(), AllocError> {
    let index = SymbolIndex::of(alloc, live)?;
    let symbols = Symbols::new(live, &index);
    let is_live = is_live(&symbols, term)?;
    text.put(sort_text(sort));
    text.put(if is_live { ", live" } else { ", not live" });
    Ok(())
}

/// The sort of a term; false: the words spell none.
///
/// # Errors
/// Want of memory.
pub fn put_sorted(
    alloc: Global,
    known: &[Declared],
    live: &[Declared],
    words: &str,
    text: &mut Text,
) -> Result<bool, AllocError> {
    let Some(term) = term_of(alloc, known, words)? else {
        return Ok(false);
    };
    match sort_in(&term) {
        Ok(sort) => put_sort(alloc, live, &term, &sort, text)?,
        Err(cs_table::Stop::Miss) => text.put("no sort"),
        Err(cs_table::Stop::Want) => text.cut(),
    }
    Ok(true)
}

//! How long an s-expression is, and a declaration that takes as many sorts as it has tokens.

use std::alloc::{AllocError, Global};
use vx_sexp::{Sexp, SexpFault, read};
use vx_smt_meaning::{Command, Declared};
use vx_smt_text::write;
use vx_table::Text;
use vx_terms::{Sort, Symbol};

// A declaration that takes one sort for each token.
fn declaration(alloc: Global, item: &Sexp) -> Result<Command, AllocError> {
    let mut takes = Vec::new(alloc);
    for _ in item.tokens() {
        takes.push(Sort::Int)?;
    }
    Ok(Command::DeclareFun(Declared {
        symbol: Symbol::Variable(0),
        takes,
        gives: Sort::Bool,
    }))
}

fn put_size(alloc: Global, item: &Sexp, taken: usize, text: &mut Text) -> Result<(), AllocError> {
    let mut out = Vec::new(alloc);
    write(alloc, &declaration(alloc, item)?, &mut out)?;
    text.natural(taken as u128);
    text.put(" bytes read, ");
    text.natural(item.tokens().len() as u128);
    text.put(" tokens, ");
    text.natural(out.len() as u128);
    text.put(" bytes written");
    Ok(())
}

/// What the first s-expression of some bytes takes: its bytes, its tokens, and the bytes of the declaration.
///
/// # Errors
/// Want of memory.
pub fn put_sizes(alloc: Global, bytes: &str, text: &mut Text) -> Result<(), AllocError> {
    match read(alloc, bytes.as_bytes()) {
        Ok((item, taken)) => put_size(alloc, &item, taken, text)?,
        Err(SexpFault::Want) => text.cut(),
        Err(_) => text.put("no s-expression"),
    }
    Ok(())
}

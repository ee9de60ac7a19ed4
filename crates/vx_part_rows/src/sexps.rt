//! The first s-expression of some bytes: at once, and as they come one by one.

use std::alloc::Global;
use vx_sexp::{Bytes, Kind, Reading, SexpFault, Token, count_finished, cut, read};
use vx_table::Text;

fn put_fault(front: &str, at: usize, out: &mut Text) {
    out.put(front);
    out.natural(at as u128);
}

// How many bytes were taken, or why none.
fn put_end(end: Result<usize, SexpFault>, out: &mut Text) {
    match end {
        Ok(taken) => {
            out.natural(taken as u128);
            out.put(" bytes");
        }
        Err(SexpFault::Unfinished(at)) => put_fault("unfinished at ", at, out),
        Err(SexpFault::BadToken(at)) => put_fault("no token at ", at, out),
        Err(SexpFault::Deep(at)) => put_fault("too deep at ", at, out),
        Err(SexpFault::Want) => out.cut(),
    }
}

fn kind_word(kind: Kind) -> &'static str {
    match kind {
        Kind::Numeral => "numeral",
        Kind::Decimal => "decimal",
        Kind::Hexadecimal => "hexadecimal",
        Kind::Binary => "binary",
        Kind::Symbol => "symbol",
        Kind::Keyword => "keyword",
        Kind::Quoted => "quoted",
        Kind::Text => "text",
    }
}

fn put_atom(kind: Kind, word: &Bytes, out: &mut Text) {
    out.put(" ");
    out.put(kind_word(kind));
    out.put(" ");
    out.bytes(word.as_slice());
}

fn put_tokens(tokens: &[Token], out: &mut Text) {
    for token in tokens {
        match token {
            Token::Open => out.put(" ("),
            Token::Close => out.put(" )"),
            Token::Atom(kind, word) => put_atom(*kind, word, out),
        }
    }
}

// How many bytes were taken, and the tokens, or why none.
fn put_read(alloc: Global, bytes: &[u8], out: &mut Text) {
    match read(alloc, bytes) {
        Ok((found, taken)) => {
            put_end(Ok(taken), out);
            out.put(":");
            put_tokens(found.tokens(), out);
        }
        Err(fault) => put_end(Err(fault), out),
    }
}

// What is answered where the bytes come one by one.
fn by_bytes(text: &[u8]) -> Result<usize, SexpFault> {
    let mut reading = Reading::new();
    for end in 0..text.len() {
        match reading.go_on(&text[..end]) {
            Err(SexpFault::Unfinished(_)) => {}
            other => return other,
        }
    }
    reading.go_on(text)
}

/// How the first s-expression is read, how it is cut off, at once and byte by byte, and how many are finished.
pub fn put_sexp(alloc: Global, bytes: &[u8], out: &mut Text) {
    out.put("  read: ");
    put_read(alloc, bytes, out);
    out.put("\n  cut: ");
    put_end(cut(bytes), out);
    out.put("\n  byte by byte: ");
    put_end(by_bytes(bytes), out);
    out.put("\n  ");
    out.natural(count_finished(bytes) as u128);
    out.put(" finished\n");
}

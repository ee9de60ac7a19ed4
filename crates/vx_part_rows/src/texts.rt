//! How texts are read.

use std::alloc::Global;
use vx_ast::Place;
use vx_parser::{TextFault, parse};
use vx_table::Text;

/// A line and a column.
pub fn put_place(place: Place, out: &mut Text) {
    out.natural(u128::from(place.line));
    out.put(":");
    out.natural(u128::from(place.column));
}

// The place, code, name and argument of a fault.
fn put_fault(fault: &TextFault, out: &mut Text) {
    put_place(fault.place(), out);
    out.put(" ");
    out.put(fault.code());
    out.put(" ");
    out.put(fault.name());
    if let Some(argument) = fault.argument() {
        out.put(" ");
        out.put(argument);
    }
}

/// How a text is read: `ok`, or its fault.
pub fn put_reading(alloc: Global, text: &[u8], out: &mut Text) {
    out.put("  ");
    match parse(alloc, text) {
        Ok(_) => out.put("ok"),
        Err(fault) => put_fault(&fault, out),
    }
    out.put("\n");
}

/// The lengths at which the beginning of a text is a program.
pub fn put_beginnings(alloc: Global, text: &[u8], out: &mut Text) {
    out.put("  beginnings of");
    for length in 0..=text.len() {
        if parse(alloc, &text[..length]).is_ok() {
            out.put(" ");
            out.natural(length as u128);
        }
    }
    out.put(" bytes\n");
}

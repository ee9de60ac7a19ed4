//! What the rows of the program's parts are answered. `docs/ROWS.md` tells what a row is made of.
#![tactic(auto)]

mod fractions;
mod graphs;
mod machines;
mod names;
mod sexps;
mod texts;

use crate::fractions::put_fraction;
use crate::graphs::put_graph;
use crate::machines::put_machines;
use crate::names::{put_names, put_order};
use crate::sexps::put_sexp;
use crate::texts::{put_beginnings, put_reading};
use std::alloc::{AllocError, Global};
use vx_table::{Asks, Row, Text};

// The row's text, or an empty one where its bytes are no characters.
fn text_in(row: &Row) -> &str {
    std::str::from_utf8(&row.text).unwrap_or("")
}

/// What a row is answered that asks something of a part.
///
/// # Errors
/// Want of memory.
pub fn answer(alloc: Global, row: &Row, out: &mut Text) -> Result<(), AllocError> {
    match row.asks {
        Asks::Parse => put_reading(alloc, &row.text, out),
        Asks::Beginnings => put_beginnings(alloc, &row.text, out),
        Asks::Machines => put_machines(alloc, row, out)?,
        Asks::Order => put_order(alloc, row, out)?,
        Asks::Names => put_names(alloc, row, out),
        Asks::Graph => put_graph(alloc, text_in(row), out)?,
        Asks::Fraction => put_fraction(text_in(row), out),
        Asks::Sexp => put_sexp(alloc, &row.text, out),
        Asks::Run
        | Asks::Checks
        | Asks::Runs
        | Asks::Turns
        | Asks::Sent
        | Asks::File
        | Asks::Child
        | Asks::Companion => {
            out.put("  this row asks for the whole program\n");
        }
    }
    Ok(())
}

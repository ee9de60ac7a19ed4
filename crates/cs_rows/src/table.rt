//! The lines of a table. A line is a word and what stands behind it; a row ends before the next `row`.

use crate::checked::{put_check, put_steps};
use crate::counted::{put_numbers_under, put_spent};
use crate::dialogues::put_dialogue;
use crate::links::{put_ready, put_talk};
use crate::memories::{put_load, put_sink, put_source, put_turns};
use crate::numbered::{put_derives, put_numbers};
use crate::outside::Outside;
use crate::reading::{put_read, put_sorted, put_spelled};
use crate::row::Row;
use crate::sizes::put_sizes;
use std::alloc::{AllocError, Global};
use vx_smt_meaning::Declared;
use vx_table::Text;

// Answers a question; false: the line asks nothing.
fn answer(
    alloc: Global,
    row: &mut Row,
    word: &str,
    rest: &str,
    text: &mut Text,
) -> Result<bool, AllocError> {
    match word {
        "read" => put_read(alloc, rest, text),
        "sort" => put_sorted(alloc, &row.known, &row.stack.symbols, rest, text),
        "numbers" => put_numbers(alloc, &row.stack.assertions, &row.known, rest, text),
        "derives" => put_derives(alloc, &row.stack, rest, text),
        "check" => put_check(alloc, &row.stack, rest, text),
        "steps" => put_steps(alloc, &row.stack, rest, text),
        "under" => Ok(put_numbers_under(&row.index, rest, text)),
        "spend" => Ok(put_spent(&mut row.meter, rest, text)),
        "spells" => {
            put_spelled(alloc, &row.known, rest, text)?;
            Ok(true)
        }
        "sizes" => {
            put_sizes(alloc, rest, text)?;
            Ok(true)
        }
        _ => answer_outside(alloc, &row.stack.symbols, &row.outside, word, rest, text),
    }
}

// Answers a question of the outside; false: the line asks nothing.
fn answer_outside(
    alloc: Global,
    live: &[Declared],
    outside: &Outside,
    word: &str,
    rest: &str,
    text: &mut Text,
) -> Result<bool, AllocError> {
    match word {
        "dialogue" => put_dialogue(alloc, live, outside, rest, text),
        "talk" => put_talk(alloc, outside, rest, text),
        "sink" => put_sink(alloc, rest, text),
        "source" => put_source(alloc, outside, rest, text),
        "turns" => put_turns(alloc, rest, text),
        "ready" => {
            put_ready(alloc, outside, text);
            Ok(true)
        }
        "load" => {
            put_load(alloc, outside, rest, text)?;
            Ok(true)
        }
        _ => Ok(false),
    }
}

// Asks what a line asks of the row; false: it asks nothing.
fn ask(
    alloc: Global,
    row: &mut Row,
    line: &str,
    word: &str,
    rest: &str,
    out: &mut Text,
) -> Result<bool, AllocError> {
    let mut text = Text::new(alloc);
    if !answer(alloc, row, word, rest, &mut text)? {
        return Ok(false);
    }
    out.put_line("", line);
    out.put_indented_text(&text);
    Ok(true)
}

// Takes a line of the table; false: it means nothing.
fn take_line(alloc: Global, row: &mut Row, line: &str, out: &mut Text) -> Result<bool, AllocError> {
    let (word, rest) = line.split_once(' ').unwrap_or((line, ""));
    match word {
        "" | "#" => Ok(true),
        "row" => {
            out.put_line("", rest);
            *row = Row::new(alloc)?;
            Ok(true)
        }
        _ => {
            if row.take(alloc, word, rest)? {
                return Ok(true);
            }
            ask(alloc, row, line, word, rest, out)
        }
    }
}

/// Runs the rows of a table, and writes what came of each; a line that means nothing is told with its number.
///
/// # Errors
/// Want of memory.
pub fn run_all(alloc: Global, table: &str, out: &mut Text) -> Result<(), AllocError> {
    let mut row = Row::new(alloc)?;
    for (at, line) in table.split('\n').enumerate() {
        if !take_line(alloc, &mut row, line, out)? {
            out.put("line ");
            out.natural((at as u128).saturating_add(1));
            out.put_line(" means nothing: ", line);
        }
    }
    Ok(())
}

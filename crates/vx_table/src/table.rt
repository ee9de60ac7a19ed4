//! The lines of a table. A line is a word and what stands behind it; a row ends before the next `row`.

use crate::Text;
use crate::row::{Asks, Row, Solver, Step};
use std::alloc::{AllocError, Global};
use vx_ends::Bytes;
use vx_rules::Reply;

// The number in front of a text, and the text behind a blank.
fn counted(rest: &str) -> (usize, &str) {
    match rest.split_once(' ') {
        Some((number, text)) => (number.parse().unwrap_or(0), text),
        None => (rest.parse().unwrap_or(0), ""),
    }
}

// Adds a text so many times, each with this behind it.
fn add_times(text: &mut Vec<u8>, rest: &str, behind: &[u8]) -> Result<(), AllocError> {
    let (count, part) = counted(rest);
    for _ in 0..count {
        text.extend_from_slice(part.as_bytes())?;
        text.extend_from_slice(behind)?;
    }
    Ok(())
}

// Adds bytes, which are given as numbers.
fn add_bytes(text: &mut Vec<u8>, rest: &str) -> Result<(), AllocError> {
    for number in rest.split_whitespace() {
        text.push(number.parse().unwrap_or(0))?;
    }
    Ok(())
}

fn add_blanks(text: &mut Vec<u8>, rest: &str) -> Result<(), AllocError> {
    for _ in 0..rest.parse::<usize>().unwrap_or(0) {
        text.push(b' ')?;
    }
    Ok(())
}

fn add_turns(turns: &mut Vec<usize>, rest: &str) -> Result<(), AllocError> {
    for number in rest.split_whitespace() {
        turns.push(number.parse().unwrap_or(0))?;
    }
    Ok(())
}

// Adds so many replies, each a line.
fn add_replies(
    alloc: Global,
    replies: &mut Vec<Bytes>,
    count: usize,
    line: &str,
) -> Result<(), AllocError> {
    for _ in 0..count {
        let mut text = Vec::from_slice(alloc, line.as_bytes())?;
        text.push(b'\n')?;
        replies.push(Bytes::copy(alloc, &text)?)?;
    }
    Ok(())
}

fn reply_of(word: &str) -> Reply {
    match word {
        "sat" => Reply::Sat,
        "unknown" => Reply::Unknown,
        _ => Reply::Unsat,
    }
}

fn asks_of(word: &str) -> Asks {
    match word {
        "parse" => Asks::Parse,
        "beginnings" => Asks::Beginnings,
        "checks" => Asks::Checks,
        "runs" => Asks::Runs,
        "turns" => Asks::Turns,
        "machines" => Asks::Machines,
        "order" => Asks::Order,
        "names" => Asks::Names,
        "file" => Asks::File,
        "child" => Asks::Child,
        "companion" => Asks::Companion,
        "sent" => Asks::Sent,
        "s-expression" => Asks::Sexp,
        _ => Asks::Run,
    }
}

// Takes a line of a row's text; false: it is none.
fn take_text(alloc: Global, row: &mut Row, word: &str, rest: &str) -> Result<bool, AllocError> {
    match word {
        "text" => row.text.extend_from_slice(rest.as_bytes())?,
        "line" => {
            row.text.extend_from_slice(rest.as_bytes())?;
            row.text.push(b'\n')?;
        }
        "times" => add_times(&mut row.text, rest, b"")?,
        "lines" => add_times(&mut row.text, rest, b"\n")?,
        "bytes" => add_bytes(&mut row.text, rest)?,
        "blanks" => add_blanks(&mut row.text, rest)?,
        "absent" => row.has_input = false,
        "named" => row.file.push(alloc, rest)?,
        _ => return Ok(false),
    }
    Ok(true)
}

// Takes a line of a row's solver or machine; false: it is none.
fn take_script(alloc: Global, row: &mut Row, word: &str, rest: &str) -> Result<bool, AllocError> {
    match word {
        "reply" => add_replies(alloc, &mut row.replies, 1, rest)?,
        "replies" => {
            let (count, line) = counted(rest);
            add_replies(alloc, &mut row.replies, count, line)?;
        }
        "part" => row.replies.push(Bytes::copy(alloc, rest.as_bytes())?)?,
        "process" => row.solver = Solver::Process,
        "fails" => row.fails.push(rest.parse().unwrap_or(0))?,
        "child" => row.add_child(alloc)?,
        "member" => row.member = rest.parse().unwrap_or(0),
        "limit" => row.limit = rest.parse().unwrap_or(0),
        "first" => row.steps.push(Step {
            other: false,
            reply: reply_of(rest),
        })?,
        "other" => row.steps.push(Step {
            other: true,
            reply: reply_of(rest),
        })?,
        _ => return Ok(false),
    }
    Ok(true)
}

// Takes what else a row has; false: it is none.
fn take_call(alloc: Global, row: &mut Row, word: &str, rest: &str) -> Result<bool, AllocError> {
    match word {
        "words" => {
            for part in rest.split_whitespace() {
                row.words.push(alloc, part)?;
            }
        }
        "word" => row.words.push(alloc, rest)?,
        "nameless" => row.has_name = false,
        "asks" => row.asks = asks_of(rest),
        "room" => row.room = rest.parse().unwrap_or(0),
        "turns" => add_turns(&mut row.turns, rest)?,
        _ => return Ok(false),
    }
    Ok(true)
}

// A row of one line, which asks this of its text.
fn of_one_line(alloc: Global, word: &str, text: &str) -> Result<Option<Row>, AllocError> {
    let asks = match word {
        "parse" => Asks::Parse,
        "beginnings" => Asks::Beginnings,
        "graph" => Asks::Graph,
        "fraction" => Asks::Fraction,
        "s-expression" => Asks::Sexp,
        "verify" | "check" | "print" => Asks::Run,
        _ => return Ok(None),
    };
    let mut row = Row::of(alloc, asks, text)?;
    row.words.push(alloc, word)?;
    Ok(Some(row))
}

/// What a program answers to rows.
pub trait Answers {
    /// Writes what a row is answered.
    ///
    /// # Errors
    /// Want of memory.
    fn answer(&mut self, alloc: Global, row: &Row, out: &mut Text) -> Result<(), AllocError>;
}

// Ends the row before, if there is one.
fn end<A: Answers>(
    alloc: Global,
    answers: &mut A,
    row: &mut Option<Row>,
    out: &mut Text,
) -> Result<(), AllocError> {
    match row.take() {
        Some(row) => answers.answer(alloc, &row, out),
        None => Ok(()),
    }
}

// Takes a line into the row that is open.
fn take(alloc: Global, row: &mut Row, word: &str, rest: &str) -> Result<bool, AllocError> {
    Ok(
        take_text(alloc, row, word, rest)?
            || take_script(alloc, row, word, rest)?
            || take_call(alloc, row, word, rest)?,
    )
}

// Takes a line of the table; a line that means nothing is told.
fn take_line<A: Answers>(
    alloc: Global,
    answers: &mut A,
    row: &mut Option<Row>,
    line: &str,
    out: &mut Text,
) -> Result<(), AllocError> {
    let (word, rest) = line.split_once(' ').unwrap_or((line, ""));
    if word.is_empty() || word == "#" {
        return Ok(());
    }
    if word == "row" {
        end(alloc, answers, row, out)?;
        out.put_line("", rest);
        *row = Some(Row::new(alloc));
        return Ok(());
    }
    if let Some(only) = of_one_line(alloc, word, rest)? {
        end(alloc, answers, row, out)?;
        out.put_line("", rest);
        return answers.answer(alloc, &only, out);
    }
    let is_taken = match row {
        Some(row) => take(alloc, row, word, rest)?,
        None => false,
    };
    if !is_taken {
        out.put_line("a line means nothing: ", line);
    }
    Ok(())
}

/// Runs the rows of a table, and writes what came of each.
///
/// # Errors
/// Want of memory.
pub fn run_all<A: Answers>(
    alloc: Global,
    table: &str,
    answers: &mut A,
    out: &mut Text,
) -> Result<(), AllocError> {
    let mut row = None;
    for line in table.split('\n') {
        take_line(alloc, answers, &mut row, line, out)?;
    }
    end(alloc, answers, &mut row, out)
}

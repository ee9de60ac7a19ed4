//! Ends in memory: a source, a sink, texts by their names, and turns.

ghost use Rattle.std.specs.Prelude.{◌<◌};

use crate::links::put_counted;
use crate::outside::Outside;
use std::alloc::{AllocError, Global};
use vx_ends::{
    Bytes, Files, LoadFault, MemFiles, MemSink, MemSource, MoreFault, NamedText, PutFault,
    RoundRobin, Sink, Source, TurnList, Turns,
};
use vx_table::Text;

// A number, and the text behind it.
fn counted(rest: &str) -> Option<(usize, &str)> {
    let (number, text) = rest.split_once(' ')?;
    Some((number.parse().ok()?, text))
}

fn put_piece(piece: &Result<Vec<u8>, MoreFault>, text: &mut Text) {
    match piece {
        Ok(bytes) if bytes.is_empty() => text.put("the end"),
        Ok(bytes) => put_counted(bytes, text),
        Err(MoreFault::Failed) => text.put("a fault"),
        Err(MoreFault::Want) => text.cut(),
    }
}

// The pieces of a source, up to its end, in so many calls at most.
fn put_pieces<S: Source>(alloc: Global, source: &mut S, max: usize, calls: usize, text: &mut Text)
    requires { 0 < max }
{
    for _ in 0..calls {
        let piece = source.more(alloc, max);
        text.break_line();
        put_piece(&piece, text);
        if piece.is_ok_and(|bytes| bytes.is_empty()) {
            break;
        }
    }
}

/// The pieces of a source of a text, at most so long, of which the row's calls fail; false: there is no number.
///
/// # Errors
/// Want of memory.
pub fn put_source(
    alloc: Global,
    outside: &Outside,
    asked: &str,
    text: &mut Text,
) -> Result<bool, AllocError> {
    let Some((max, given)) = counted(asked) else {
        return Ok(false);
    };
    if max == 0 {
        return Ok(false);
    }
    let bytes = Vec::from_slice(alloc, given.as_bytes())?;
    let calls = given
        .len()
        .saturating_add(outside.fails.len())
        .saturating_add(1);
    let mut source = MemSource::new(bytes, outside.fails.clone()?);
    put_pieces(alloc, &mut source, max, calls, text);
    Ok(true)
}

// Says what a sink takes of a piece, and gives how many bytes; with nothing it isn't called.
fn put_into(sink: &mut MemSink, piece: &[u8], text: &mut Text) -> usize {
    if piece.is_empty() {
        text.put("nothing is left");
        text.break_line();
        return 0;
    }
    match sink.put(piece) {
        Ok(count) => {
            text.natural(count as u128);
            text.put(" taken");
            text.break_line();
            count
        }
        Err(PutFault::Failed) => {
            text.put("a fault");
            text.break_line();
            0
        }
    }
}

/// What a sink of this room takes of a text, and of what is left of it then; and what it keeps. False: there is no number.
///
/// # Errors
/// Want of memory.
pub fn put_sink(alloc: Global, asked: &str, text: &mut Text) -> Result<bool, AllocError> {
    let Some((room, given)) = counted(asked) else {
        return Ok(false);
    };
    let mut sink = MemSink::new(alloc, room)?;
    let first = put_into(&mut sink, given.as_bytes(), text);
    let left = given.as_bytes().get(first..).unwrap_or(&[]);
    let _second = put_into(&mut sink, left, text);
    put_counted(sink.taken(), text);
    Ok(true)
}

fn files_of(alloc: Global, outside: &Outside) -> Result<MemFiles, AllocError> {
    let mut texts = Vec::new(alloc);
    for named in &outside.texts {
        let name = match &named.name {
            Some(name) => Some(Bytes::copy(alloc, name.as_slice())?),
            None => None,
        };
        texts.push(NamedText {
            name,
            text: Bytes::copy(alloc, named.text.as_slice())?,
        })?;
    }
    Ok(MemFiles::new(alloc, texts))
}

/// The row's text of this name, or of none where there is no name.
///
/// # Errors
/// Want of memory.
pub fn put_load(
    alloc: Global,
    outside: &Outside,
    name: &str,
    text: &mut Text,
) -> Result<(), AllocError> {
    let mut files = files_of(alloc, outside)?;
    let name = if name.is_empty() { None } else { Some(name) };
    match files.load(alloc, name) {
        Ok(found) => put_counted(&found, text),
        Err(LoadFault::Failed) => text.put("a fault"),
        Err(LoadFault::TooLong) => text.put("too long"),
        Err(LoadFault::Want) => text.cut(),
    }
    Ok(())
}

// The turn where so many wait.
fn put_turn<N: Turns>(turns: &mut N, waiting: usize, text: &mut Text)
    requires { 0 < waiting }
{
    text.natural(turns.pick(waiting) as u128);
}

// The turns where so many wait, then as many, and then so many at last.
fn put_three<N: Turns>(turns: &mut N, waiting: usize, at_last: usize, text: &mut Text)
    requires some { 0 < waiting }
    requires some_at_last { 0 < at_last }
{
    text.break_line();
    put_turn(turns, waiting, text);
    text.put(" ");
    put_turn(turns, waiting, text);
    text.put(" ");
    put_turn(turns, at_last, text);
}

/// The turns of a list where 2, 2 and 3 wait, and those that go round, where of 3 the one picked last ends, too; false: it is no
/// list of numbers.
///
/// # Errors
/// Want of memory.
pub fn put_turns(alloc: Global, list: &str, text: &mut Text) -> Result<bool, AllocError> {
    let mut turns = Vec::new(alloc);
    for word in list.split_whitespace() {
        let Ok(turn) = word.parse() else {
            return Ok(false);
        };
        turns.push(turn)?;
    }
    put_three(&mut TurnList::new(turns), 2, 3, text);
    put_three(&mut RoundRobin::new(), 2, 3, text);
    put_three(&mut RoundRobin::new(), 3, 2, text);
    Ok(true)
}

// The order that the words give.
ghost use Rattle.std.specs.Prelude.{◌≡◌, ◌⊎◌, IfOk, None, map, string_bytes};
ghost use Rattle.vx_words.specs.Orders.{default_words, order_of_words, order_of as meaning_of, ReadsAs, IsWithinLimit};
ghost use Rattle.vx_words.specs.Parses.{Parses};
ghost use Rattle.clap.specs.Words.{kind_of};

use crate::command_table::table;
use crate::reading::order_of;
use crate::{Order, WordsFault};
use clap::error::ErrorKind;
use clap::{ArgMatches, Error};
use std::alloc::{AllocError, Global};
use vx_ends::Parts;

// No words after the name mean `verify`.
fn with_default(alloc: Global, words: &Parts) -> Result<Parts, AllocError>
    ensures { IfOk result (λ filled. filled ≡ default_words words.now) }
{
    if words.len() > 1 {
        return words.copy(alloc);
    }
    let mut filled = Parts::new(alloc);
    filled.push(alloc, "vsil")?;
    filled.push(alloc, "verify")?;
    Ok(filled)
}

// Of what kind a refusal is.
fn fault_of(error: Error) -> WordsFault
    ensures usage { result ≡ WordsFault.Usage → kind_of error ≡ ErrorKind.OutOfMemory → ⊥ }
    ensures either { (result ≡ WordsFault.Usage) ⊎ (result ≡ WordsFault.Want) }
{
    match error.kind() {
        ErrorKind::OutOfMemory => WordsFault::Want,
        _ => WordsFault::Usage,
    }
}

// What the table of commands makes of the words.
fn parse<'a>(alloc: Global, words: &'a [String]) -> Result<ArgMatches<'a>, WordsFault>
    ensures { Parses (map string_bytes words.entry.now) result }
{
    match table(alloc)?.try_get_matches_from(words) {
        Ok(matches) => Ok(matches),
        Err(error) => Err(fault_of(error)),
    }
}

// The order of words that name a command.
fn read_texts(alloc: Global, words: &[String]) -> Result<Order, WordsFault>
    ensures meaning { ReadsAs (order_of_words (map string_bytes words.now)) result }
    ensures limit { IfOk result IsWithinLimit }
{
    let matches = parse(alloc, words)?;
    match matches.subcommand() {
        Some((name, inner)) => order_of(alloc, name, inner),
        None => Err(WordsFault::Usage),
    }
}

/// What the words of the command line mean; the first is the program's name.
///
/// # Errors
/// `Usage` where they mean nothing; `Want` where memory runs out.
pub fn read_words(alloc: Global, words: &Parts) -> Result<Order, WordsFault>
    ensures meaning { ReadsAs (meaning_of words.now) result }
    ensures limit { IfOk result IsWithinLimit }
{
    let filled = with_default(alloc, words)?;
    read_texts(alloc, filled.texts())
}

/// Words that mean nothing, in the place of a command line that can't be read.
///
/// # Errors
/// `AllocError` if there is no memory for them.
pub fn no_command(alloc: Global) -> Result<Parts, AllocError>
    ensures { IfOk result (λ words. meaning_of words ≡ None) }
{
    let mut words = Parts::new(alloc);
    words.push(alloc, "")?;
    words.push(alloc, "")?;
    Ok(words)
}

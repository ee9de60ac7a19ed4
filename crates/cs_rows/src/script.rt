//! A row: a script of commands, of which a session is asked most.

use crate::answered::put_answer;
use cs_session::{Reply, Session, Want};
use std::alloc::{AllocError, Global};
use vx_sexp::{Kind, SexpFault, Token, read};
use vx_table::Text;

/// What the commands of a row have said.
#[derive(Drop)]
struct Row {
    session: Session,
    // so many steps of a refutation, or fewer, aren't counted
    within: usize,
}

fn text_of(bytes: &[u8]) -> &str {
    std::str::from_utf8(bytes).unwrap_or("")
}

/// Writes a text on a line; false: it is none.
fn put_echo(text: &Token, out: &mut Text) -> bool {
    let Token::Atom(Kind::Text, text) = text else {
        return false;
    };
    out.put_line("", text_of(text.as_slice()).trim_matches('"'));
    true
}

impl Row {
    fn new(alloc: Global) -> Row {
        Row {
            session: Session::new(alloc),
            within: 0,
        }
    }

    /// `(set-info :within 200)`: a refutation of at most 200 steps is told so. False: it says nothing.
    fn limit(&mut self, key: &[u8], value: &[u8]) -> bool {
        if key != b":within".as_slice() {
            return false;
        }
        let Ok(within) = text_of(value).parse() else {
            return false;
        };
        self.within = within;
        true
    }

    /// A command that the session is asked, and behind a check its answer; false: it means nothing.
    fn ask(&mut self, alloc: Global, command: &[u8], out: &mut Text) -> Result<bool, AllocError> {
        match self.session.command(alloc, command) {
            Ok(Reply::Failed(_) | Reply::Unsupported) => Ok(false),
            Ok(Reply::Sat | Reply::Unsat | Reply::Undecided) => {
                put_answer(alloc, &self.session, self.within, out)?;
                Ok(true)
            }
            Ok(Reply::Success | Reply::Proof(_) | Reply::Closed) => Ok(true),
            Err(Want) => Err(AllocError),
        }
    }

    /// A command by its tokens and its bytes; false: it means nothing.
    fn take(
        &mut self,
        alloc: Global,
        tokens: &[Token],
        command: &[u8],
        out: &mut Text,
    ) -> Result<bool, AllocError> {
        let [
            Token::Open,
            Token::Atom(Kind::Symbol, word),
            rest @ ..,
            Token::Close,
        ] = tokens
        else {
            return Ok(false);
        };
        match (text_of(word.as_slice()), rest) {
            ("reset", []) => {
                *self = Row::new(alloc);
                Ok(true)
            }
            ("echo", [text]) => Ok(put_echo(text, out)),
            (
                "set-info",
                [
                    Token::Atom(Kind::Keyword, key),
                    Token::Atom(Kind::Numeral, value),
                ],
            ) => { Ok(self.limit(key.as_slice(), value.as_slice())) }
            _ => self.ask(alloc, command, out),
        }
    }
}

/// A command of this number; where it means nothing, that is told.
fn run_command(
    alloc: Global,
    row: &mut Row,
    tokens: &[Token],
    command: &[u8],
    number: usize,
    out: &mut Text,
) -> Result<(), AllocError> {
    if !row.take(alloc, tokens, command, out)? {
        out.put("command ");
        out.natural(number as u128);
        out.put(" means nothing\n");
    }
    Ok(())
}

/// Runs the commands of a script, and writes what is said to them. Commands are counted from 0.
///
/// # Errors
/// Want of memory.
pub fn run_script(alloc: Global, script: &[u8], out: &mut Text) -> Result<(), AllocError> {
    let mut row = Row::new(alloc);
    let mut rest = script;
    for number in 0..script.len() {
        match read(alloc, rest) {
            Ok((sexp, taken)) => {
                run_command(alloc, &mut row, sexp.tokens(), rest, number, out)?;
                rest = rest.get(taken..).unwrap_or(&[]);
            }
            Err(SexpFault::Want) => return Err(AllocError),
            Err(_) => return Ok(()),
        }
    }
    Ok(())
}

//! Dialogues with a child that answers by a script.

ghost use Rattle.vx_dialogue.specs.Dialogue.{IsFree};

use crate::links::put_counted;
use crate::outside::{Outside, Turn};
use std::alloc::{AllocError, Global};
use vx_dialogue::{Base, Dialogue, Talk};
use vx_ends::{Bytes, Piece, ScriptLink};
use vx_smt_meaning::{Declared, Reply};
use vx_table::Text;

fn put_kept(word: &str, kept: &Bytes, text: &mut Text) {
    text.put(word);
    text.put(", ");
    put_counted(kept.as_slice(), text);
}

fn put_talk(talk: &Talk, text: &mut Text) {
    match talk {
        Talk::Pipe => text.put("the pipe failed"),
        Talk::Garbled(kept) => put_kept("garbled", kept, text),
        Talk::Refused(kept) => put_kept("refused", kept, text),
        Talk::Closed => text.put("closed"),
        Talk::Want => text.cut(),
    }
}

fn reply_word(reply: Reply) -> &'static str {
    match reply {
        Reply::Sat => "sat",
        Reply::Unsat => "unsat",
        Reply::Unknown => "unknown",
    }
}

// A turn: the reply, or why there is none.
fn put_turn(alloc: Global, dialogue: &mut Dialogue<ScriptLink>, turn: &Turn, text: &mut Text)
    requires { IsFree dialogue.old }
    ensures { IsFree dialogue.new }
{
    match turn {
        Turn::Ask(path, condition) => match dialogue.ask(alloc, Base::Nothing, path, condition) {
            Ok(reply) => text.put(reply_word(reply)),
            Err(talk) => put_talk(&talk, text),
        },
        Turn::Leave => match dialogue.leave() {
            Ok(()) => text.put("left"),
            Err(talk) => put_talk(&talk, text),
        },
    }
}

fn put_turns(alloc: Global, dialogue: &mut Dialogue<ScriptLink>, turns: &[Turn], text: &mut Text)
    requires { IsFree dialogue.old }
{
    for turn in turns {
        text.break_line();
        put_turn(alloc, dialogue, turn, text);
    }
}

// All that was sent, joined.
fn put_sent(alloc: Global, link: &ScriptLink, text: &mut Text) -> Result<(), AllocError> {
    let mut bytes = Vec::new(alloc);
    for piece in &link.record().pieces(alloc)? {
        if let Piece::Sent(sent) = piece {
            bytes.extend_from_slice(sent.as_slice())?;
        }
    }
    text.break_line();
    text.trimmed(&bytes);
    Ok(())
}

/// The turns of a dialogue over the live symbols, or why it isn't opened; behind `sent` all that was sent, too.
/// False: there is another word.
///
/// # Errors
/// Want of memory.
pub fn put_dialogue(
    alloc: Global,
    live: &[Declared],
    outside: &Outside,
    word: &str,
    text: &mut Text,
) -> Result<bool, AllocError> {
    if !word.is_empty() && word != "sent" {
        return Ok(false);
    }
    let link = ScriptLink::new(alloc, outside.script(alloc)?);
    let link = match Dialogue::open(alloc, link, live, false) {
        Ok(mut dialogue) => {
            put_turns(alloc, &mut dialogue, &outside.turns, text);
            dialogue.close()
        }
        Err((link, talk)) => {
            put_talk(&talk, text);
            link
        }
    };
    if word == "sent" {
        put_sent(alloc, &link, text)?;
    }
    Ok(true)
}

//! Calls of links: of a child that answers by a script, and of one that answers each command at once.

use crate::outside::{Call, Outside};
use std::alloc::{AllocError, Global};
use vx_ends::{Link, LinkFault, Parts, ReadyLink, ScriptSpawner, Spawner, StartFault};
use vx_table::Text;

/// Bytes as text, with their number; a line feed at the end isn't written.
pub fn put_counted(bytes: &[u8], text: &mut Text) {
    text.natural(bytes.len() as u128);
    text.put(" bytes: ");
    text.trimmed(bytes);
}

fn put_sent(sent: Result<usize, LinkFault>, text: &mut Text) {
    match sent {
        Ok(count) => {
            text.natural(count as u128);
            text.put(" taken");
        }
        Err(LinkFault::Failed) => text.put("a fault"),
        Err(LinkFault::Want) => text.cut(),
    }
}

fn put_got(got: Result<Vec<u8>, LinkFault>, text: &mut Text) {
    match got {
        Ok(bytes) => put_counted(&bytes, text),
        Err(LinkFault::Failed) => text.put("a fault"),
        Err(LinkFault::Want) => text.cut(),
    }
}

// A call. Nothing is sent where there is nothing to send, and none got where none may be.
fn put_call<L: Link>(alloc: Global, link: &mut L, call: &Call, text: &mut Text) {
    match call {
        Call::Send(bytes) => {
            let piece = bytes.as_slice();
            if piece.is_empty() {
                text.put("nothing to send");
            } else {
                put_sent(link.send(alloc, piece), text);
            }
        }
        Call::Receive(max) => {
            if *max == 0 {
                text.put("nothing to get");
            } else {
                put_got(link.receive(alloc, *max), text);
            }
        }
    }
}

fn put_calls<L: Link>(alloc: Global, link: &mut L, calls: &[Call], text: &mut Text) {
    for call in calls {
        text.break_line();
        put_call(alloc, link, call, text);
    }
}

// The calls of a child, if it is started, and its end.
fn put_child<W: Spawner>(
    alloc: Global,
    spawner: &mut W,
    calls: &[Call],
    text: &mut Text,
) -> Result<(), AllocError> {
    let mut command = Parts::new(alloc);
    command.push(alloc, "script")?;
    match spawner.start(alloc, 3, &command) {
        Ok(mut link) => {
            put_calls(alloc, &mut link, calls, text);
            spawner.finish(3, link);
        }
        Err(StartFault::Failed) => {
            text.break_line();
            text.put("not started");
        }
        Err(StartFault::Want) => text.cut(),
    }
    Ok(())
}

/// The row's calls of a child that answers by the row's script, and then of a second child, which has no script. The
/// start of this number, counted from 0, fails; false: it is no number.
///
/// # Errors
/// Want of memory.
pub fn put_talk(
    alloc: Global,
    outside: &Outside,
    failing: &str,
    text: &mut Text,
) -> Result<bool, AllocError> {
    let Ok(failing) = failing.parse() else {
        return Ok(false);
    };
    let mut scripts = Vec::new(alloc);
    scripts.push(outside.script(alloc)?)?;
    let mut fails = Vec::new(alloc);
    fails.push(failing)?;
    let mut spawner = ScriptSpawner::new(alloc, scripts, fails);
    put_child(alloc, &mut spawner, &outside.calls, text)?;
    put_child(alloc, &mut spawner, &outside.calls, text)?;
    Ok(true)
}

/// The row's calls of a link that answers at once.
pub fn put_ready(alloc: Global, outside: &Outside, text: &mut Text) {
    put_calls(alloc, &mut ReadyLink::new(alloc), &outside.calls, text);
}

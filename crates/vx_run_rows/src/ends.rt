//! What the ends of the program give: files of the disk, child processes, and the companion.

use std::alloc::{AllocError, Global};
use vx_companion::Builtin;
use vx_edge::DiskFiles;
use vx_ends::{Files, Link, LinkFault, LoadFault, Parts, Spawner, StartFault};
use vx_table::{Row, Text};

/// How much the file holds that the words name.
///
/// # Errors
/// Want of memory.
pub fn put_file(
    rt: &HostRuntime,
    alloc: Global,
    row: &Row,
    out: &mut Text,
) -> Result<(), AllocError> {
    let mut files = DiskFiles::new(alloc, rt);
    for name in row.words.texts() {
        match files.load(alloc, Some(name)) {
            Ok(text) => {
                out.put("  ");
                out.natural(text.len() as u128);
                out.put(" bytes\n");
            }
            Err(LoadFault::Failed) => out.put("  not read\n"),
            Err(LoadFault::TooLong) => out.put("  too long\n"),
            Err(LoadFault::Want) => return Err(AllocError),
        }
    }
    Ok(())
}

// What was got, or that the link failed; then each further call fails.
fn put_got<L: Link>(
    alloc: Global,
    link: &mut L,
    got: Result<Vec<u8>, LinkFault>,
    out: &mut Text,
) -> Result<(), AllocError> {
    match got {
        Ok(bytes) => out.put_indented(&bytes),
        Err(LinkFault::Want) => return Err(AllocError),
        Err(LinkFault::Failed) => match link.send(alloc, b"again") {
            Ok(_) => out.put("  a fault, and then none\n"),
            Err(_) => out.put("  a fault, and each call behind it is one\n"),
        },
    }
    Ok(())
}

// What a child that was started by this command answers to a text.
fn put_answer<W: Spawner>(
    alloc: Global,
    spawner: &mut W,
    command: &Parts,
    text: &[u8],
    out: &mut Text,
) -> Result<(), AllocError> {
    if text.is_empty() {
        out.put("  there is no text\n");
        return Ok(());
    }
    let mut link = match spawner.start(alloc, 0, command) {
        Ok(link) => link,
        Err(StartFault::Failed) => {
            out.put("  not started\n");
            return Ok(());
        }
        Err(StartFault::Want) => return Err(AllocError),
    };
    let told = match link.send(alloc, text) {
        Err(LinkFault::Want) => Err(AllocError),
        _ => {
            let got = link.receive(alloc, 1000);
            put_got(alloc, &mut link, got, out)
        }
    };
    spawner.finish(0, link);
    told
}

/// What a child that is started by the row's words answers to its text.
///
/// # Errors
/// Want of memory.
pub fn put_child_answer<W: Spawner>(
    alloc: Global,
    spawner: &mut W,
    row: &Row,
    out: &mut Text,
) -> Result<(), AllocError> {
    put_answer(alloc, spawner, &row.words, &row.text, out)
}

/// What the companion answers to a row's text.
///
/// # Errors
/// Want of memory.
pub fn put_companion_answer(alloc: Global, row: &Row, out: &mut Text) -> Result<(), AllocError> {
    put_answer(alloc, &mut Builtin::new(alloc), &row.words, &row.text, out)
}

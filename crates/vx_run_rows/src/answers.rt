//! What a row is answered.

use crate::ends::{put_child_answer, put_companion_answer, put_file};
use crate::lanes::{put_runs, put_turns};
use std::alloc::{AllocError, Global};
use vx_commands::{Ended, run};
use vx_companion::Builtin;
use vx_edge::ChildSpawner;
use vx_ends::{Bytes, Ending, MemFiles, MemSink, NamedText, Piece, ScriptSpawner, Spawner};
use vx_report::{Cause, MemberRun, Verdict};
use vx_table::{Asks, Row, Solver, Text};

// The name of the file that holds the text, or none, which is standard input.
fn name_of(alloc: Global, row: &Row) -> Result<Option<Bytes>, AllocError> {
    match row.file.texts().first() {
        Some(name) => Ok(Some(Bytes::copy(alloc, name.as_bytes())?)),
        None => Ok(None),
    }
}

fn input(alloc: Global, row: &Row) -> Result<MemFiles, AllocError> {
    let mut texts = Vec::new(alloc);
    if row.has_input {
        texts.push(NamedText {
            name: name_of(alloc, row)?,
            text: Bytes::copy(alloc, &row.text)?,
        })?;
    }
    Ok(MemFiles::new(alloc, texts))
}

fn solver(alloc: Global, row: &Row) -> Result<ScriptSpawner, AllocError> {
    let scripts = row.scripts(alloc)?;
    Ok(ScriptSpawner::new(alloc, scripts, Vec::new(alloc)))
}

// All that a child was sent.
fn sent_in(alloc: Global, ending: &Ending) -> Result<Vec<u8>, AllocError> {
    let mut sent = Vec::new(alloc);
    for piece in &ending.dialogue.pieces(alloc)? {
        if let Piece::Sent(bytes) = piece {
            sent.extend_from_slice(bytes.as_slice())?;
        }
    }
    Ok(sent)
}

// How many checks are in the bytes that were sent.
fn checks_in(sent: &[u8]) -> usize {
    let mut checks = 0usize;
    for window in sent.windows(11) {
        checks = checks.saturating_add(usize::from(window == b"(check-sat)".as_slice()));
    }
    checks
}

// What stands behind the preamble: it begins with the first level that is opened.
fn behind_preamble(sent: &[u8]) -> &[u8] {
    for at in 0..sent.len() {
        if sent[at..].starts_with(b"(push 1)") {
            return &sent[at..];
        }
    }
    &[]
}

// How often each child was asked.
fn put_children(alloc: Global, ended: &[Ending], out: &mut Text) -> Result<(), AllocError> {
    for ending in ended {
        let checks = checks_in(&sent_in(alloc, ending)?);
        out.put("  a child was asked ");
        out.natural(checks as u128);
        out.put(" times\n");
    }
    Ok(())
}

// How many bytes are kept of what is no lawful reply.
fn put_kept(runs: &[MemberRun], out: &mut Text) {
    for member in runs {
        if let Verdict::Fault(Cause::Reply(kept)) = &member.verdict {
            out.put("  ");
            out.natural(kept.as_slice().len() as u128);
            out.put(" bytes are kept\n");
        }
    }
}

// What the program puts where this spawner starts the solver, what is kept of replies, and the status.
fn put_run_by<W: Spawner>(
    alloc: Global,
    row: &Row,
    spawner: &mut W,
    out: &mut Text,
) -> Result<(), AllocError> {
    let words = row.command(alloc)?;
    let mut files = input(alloc, row)?;
    let mut sink = MemSink::new(alloc, row.room)?;
    let mut builtin = Builtin::new(alloc);
    let ended = run(alloc, &words, &mut files, &mut sink, spawner, &mut builtin);
    out.put_indented(sink.taken());
    put_kept(&ended.runs, out);
    out.put("  status ");
    out.natural(u128::from(ended.status.number()));
    out.put("\n");
    Ok(())
}

// The same by the row's solver, and how often it was asked.
fn put_run(rt: &HostRuntime, alloc: Global, row: &Row, out: &mut Text) -> Result<(), AllocError> {
    match row.solver {
        Solver::Script => {
            let mut spawner = solver(alloc, row)?;
            put_run_by(alloc, row, &mut spawner, out)?;
            put_children(alloc, spawner.ended(), out)
        }
        Solver::Process => put_run_by(alloc, row, &mut ChildSpawner::new(alloc, rt), out),
    }
}

// What each child is sent behind the preamble.
fn put_sent(alloc: Global, row: &Row, out: &mut Text) -> Result<(), AllocError> {
    let mut spawner = solver(alloc, row)?;
    let mut unread = Text::new(alloc);
    put_run_by(alloc, row, &mut spawner, &mut unread)?;
    for ending in spawner.ended() {
        out.put_indented(behind_preamble(&sent_in(alloc, ending)?));
    }
    Ok(())
}

// How the program ends for a row, by the row's solver or by the companion.
fn ended_of(alloc: Global, row: &Row) -> Result<Ended, AllocError> {
    let words = row.command(alloc)?;
    let mut files = input(alloc, row)?;
    let mut sink = MemSink::new(alloc, row.room)?;
    let mut spawner = solver(alloc, row)?;
    let mut builtin = Builtin::new(alloc);
    Ok(run(
        alloc,
        &words,
        &mut files,
        &mut sink,
        &mut spawner,
        &mut builtin,
    ))
}

// How many questions the members of the program have, of which each is asked of the companion.
fn put_checks(alloc: Global, row: &Row, out: &mut Text) -> Result<(), AllocError> {
    let ended = ended_of(alloc, row)?;
    let mut checks = 0u64;
    for member in &ended.runs {
        checks = checks.saturating_add(u64::from(member.checks));
    }
    out.put("  ");
    out.natural(u128::from(checks));
    out.put(" checks of ");
    out.natural(ended.runs.len() as u128);
    out.put(" members\n");
    Ok(())
}

/// What a row is answered.
///
/// # Errors
/// Want of memory.
pub fn answer(
    rt: &HostRuntime,
    alloc: Global,
    row: &Row,
    out: &mut Text,
) -> Result<(), AllocError> {
    match row.asks {
        Asks::Run => put_run(rt, alloc, row, out),
        Asks::Checks => put_checks(alloc, row, out),
        Asks::Runs => {
            put_runs(&ended_of(alloc, row)?.runs, out);
            Ok(())
        }
        Asks::Turns => put_turns(alloc, row, out),
        Asks::Sent => put_sent(alloc, row, out),
        Asks::File => put_file(rt, alloc, row, out),
        Asks::Child => put_child_answer(alloc, &mut ChildSpawner::new(alloc, rt), row, out),
        Asks::Companion => put_companion_answer(alloc, row, out),
        Asks::Parse
        | Asks::Beginnings
        | Asks::Machines
        | Asks::Order
        | Asks::Names
        | Asks::Graph
        | Asks::Fraction
        | Asks::Sexp => vx_part_rows::answer(alloc, row, out),
    }
}

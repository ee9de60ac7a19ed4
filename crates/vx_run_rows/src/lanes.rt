//! What becomes of members in lanes, and whose turn it is.

use std::alloc::{AllocError, Global};
use vx_companion::Builtin;
use vx_ends::{TurnList, Turns};
use vx_parser::parse;
use vx_report::{Cause, MemberRun, Verdict};
use vx_table::{Row, Text};
use vx_typing::check;
use vx_verifier::verify;
use vx_words::{Order, read_words};

fn word_of(verdict: &Verdict) -> &'static str {
    match verdict {
        Verdict::Verified => "verified",
        Verdict::Failed { .. } => "failed",
        Verdict::Rests(_) => "rests",
        Verdict::Limit => "limit",
        Verdict::Fault(Cause::Pipe) => "fault pipe",
        Verdict::Fault(Cause::Start) => "fault start",
        Verdict::Fault(Cause::Spent) => "fault spent",
        Verdict::Fault(Cause::Reply(_)) => "fault reply",
    }
}

fn put_number(word: &str, number: u64, out: &mut Text) {
    out.put(word);
    out.natural(u128::from(number));
}

/// The runs, a line each: the member, its lane, its child there, the number of its first check and how many it has, and its verdict.
pub fn put_runs(runs: &[MemberRun], out: &mut Text) {
    for run in runs {
        put_number("  member ", u64::from(run.member.0), out);
        put_number(": lane ", u64::from(run.lane), out);
        put_number(", child ", u64::from(run.child), out);
        put_number(", first ", run.first, out);
        put_number(", checks ", u64::from(run.checks), out);
        out.put(", ");
        out.put(word_of(&run.verdict));
        out.put("\n");
    }
}

// Turns by a list, with how many waited each time. Where there is no memory to keep it, it is missing.
#[derive(Drop)]
struct NotedTurns {
    turns: TurnList,
    waited: Vec<usize>,
}

impl Turns for NotedTurns {
    fn pick(&mut self, waiting: usize) -> usize {
        let _kept = self.waited.push(waiting);
        self.turns.pick(waiting)
    }
}

// How many waited each time.
fn put_waited(waited: &[usize], out: &mut Text) {
    out.put("  waited");
    for waiting in waited {
        put_number(" ", *waiting as u64, out);
    }
    out.put("\n");
}

/// The runs of the text's program by the companion in as many lanes as the words say, where the turns are the row's, and how many waited each time.
///
/// # Errors
/// Want of memory.
pub fn put_turns(alloc: Global, row: &Row, out: &mut Text) -> Result<(), AllocError> {
    let words = row.command(alloc)?;
    let Ok(Order::Verify { solver, jobs, .. }) = read_words(alloc, &words) else {
        out.put("  nothing is to be verified\n");
        return Ok(());
    };
    let Ok(program) = parse(alloc, &row.text) else {
        out.put("  no program\n");
        return Ok(());
    };
    let Ok(typed) = check(alloc, &program) else {
        out.put("  no typed program\n");
        return Ok(());
    };
    let mut turns = NotedTurns {
        turns: TurnList::new(row.turns.clone()?),
        waited: Vec::new(alloc),
    };
    let mut builtin = Builtin::new(alloc);
    let verified = verify(
        alloc,
        &typed,
        jobs,
        &solver,
        false,
        &mut builtin,
        &mut turns,
    )?;
    put_waited(&turns.waited, out);
    put_runs(&verified.runs, out);
    Ok(())
}

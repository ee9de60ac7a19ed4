//! The text of the report.

ghost use Rattle.std.specs.Prelude.{◌≡◌, ◌++◌, ◌<◌, ℕ, OnOk, string_bytes, length, codes, Some, slice_get};
ghost use Rattle.std.specs.Fmt.{decimal};
ghost use Rattle.vx_resolved.specs.Resolved.{kind as kind_of};
ghost use Rattle.vx_report.specs.Reports as spec;
ghost use Rattle.vx_report.specs.Reports.{AreNamed, RestsWithin, RestWithin};
ghost use Rattle.vx_resolved.specs.Settled.{settled};

use crate::{Cause, MemberRun, Verdict};
use std::alloc::AllocError;
use vx_ast::{MemberId, Place};
use vx_resolved::{Kind, Settled};
use vx_rules::{Code, Reply};

/// The word of a code in the report.
pub fn code_word(code: Code) -> &'static str
    ensures { result.now ≡ spec.code_word code }
{
    match code {
        Code::Assert => "F01",
        Code::Permission => "F02",
        Code::Amount => "F03",
        Code::Divisor => "F04",
        Code::Call => "F05",
        Code::Function => "F06",
        Code::Postcondition => "F07",
        Code::Entry => "F08",
        Code::Kept => "F09",
        Code::Fold => "F10",
        Code::Unfold => "F11",
        Code::Measure => "F12",
    }
}

/// The word of a reply in the report.
pub fn reply_word(reply: Reply) -> &'static str
    ensures { result.now ≡ spec.reply_word reply }
{
    match reply {
        Reply::Unsat => "unsat",
        Reply::Sat => "sat",
        Reply::Unknown => "unknown",
    }
}

fn cause_word(cause: &Cause) -> &'static str
    ensures { result.now ≡ spec.cause_word cause.now }
{
    match cause {
        Cause::Pipe => "pipe",
        Cause::Start => "start",
        Cause::Spent => "spent",
        Cause::Reply(_) => "reply",
    }
}

/// Writes line and column with a colon between them.
pub fn write_place(out: &mut String, place: Place) -> Result<(), AllocError>
    ensures { OnOk result (string_bytes out.new ≡ string_bytes out.old ++ spec.place_text place) }
{
    write!(out, "{}:{}", place.line, place.column)?;
    Ok(())
}

fn write_failed(out: &mut String, place: Place, code: Code, reply: Reply) -> Result<(), AllocError>
    ensures { OnOk result (string_bytes out.new ≡ string_bytes out.old
        ++ (codes "failed at " ++ spec.place_text place ++ codes " " ++ spec.code_word code ++ codes " (" ++ spec.reply_word reply ++ codes ")")) }
{
    out.push_str("failed at ")?;
    write_place(out, place)?;
    out.push_str(" ")?;
    out.push_str(code_word(code))?;
    out.push_str(" (")?;
    out.push_str(reply_word(reply))?;
    out.push_str(")")
}

fn write_fault(out: &mut String, cause: &Cause) -> Result<(), AllocError>
    ensures { OnOk result (string_bytes out.new ≡ string_bytes out.old ++ (codes "fault " ++ spec.cause_word cause.now)) }
{
    out.push_str("fault ")?;
    out.push_str(cause_word(cause))
}

fn kind_word(kind: &Kind) -> &'static str
    ensures { result.now ≡ spec.kind_word (kind_of kind.now) }
{
    match kind {
        Kind::Field(_) => "field",
        Kind::Predicate(_) => "predicate",
        Kind::Function(_) => "function",
        Kind::Method(_) => "method",
    }
}

// A member's kind and name.
fn write_title(out: &mut String, program: &Settled, member: MemberId) -> Result<(), AllocError>
    requires { member.0 < length (settled program.now) }
    ensures { OnOk result (string_bytes out.new ≡ string_bytes out.old ++ spec.title_of (slice_get (settled program.now) member.0)) }
{
    let member = program.member(member.0 as usize);
    out.push_str(kind_word(&member.kind))?;
    out.push_str(" ")?;
    out.push_str(&member.name)
}

fn write_resting(out: &mut String, program: &Settled, on: MemberId) -> Result<(), AllocError>
    requires { on.0 < length (settled program.now) }
    ensures { OnOk result (string_bytes out.new ≡ string_bytes out.old ++ (codes "rests on " ++ spec.title_of (slice_get (settled program.now) on.0))) }
{
    out.push_str("rests on ")?;
    write_title(out, program, on)
}

fn write_verdict(out: &mut String, program: &Settled, verdict: &Verdict) -> Result<(), AllocError>
    requires { RestsWithin (settled program.now) verdict.now }
    ensures { OnOk result (string_bytes out.new ≡ string_bytes out.old ++ spec.verdict_text (settled program.now) verdict.now) }
{
    match verdict {
        Verdict::Verified => out.push_str("verified"),
        Verdict::Failed { place, code, reply } => write_failed(out, *place, *code, *reply),
        Verdict::Rests(on) => write_resting(out, program, *on),
        Verdict::Limit => out.push_str("limit of 100000 checks"),
        Verdict::Fault(cause) => write_fault(out, cause),
    }
}

// The line of a member.
fn write_line(out: &mut String, program: &Settled, run: &MemberRun) -> Result<(), AllocError>
    requires member { run.now.member.0 < length (settled program.now) }
    requires rests { RestsWithin (settled program.now) run.now.verdict }
    ensures { OnOk result (string_bytes out.new ≡ string_bytes out.old ++ spec.line_of (settled program.now) run.now) }
{
    write_title(out, program, run.member)?;
    out.push_str(": ")?;
    write_verdict(out, program, &run.verdict)?;
    out.push_str("\n")
}

// How many runs have a verdict of each sort.
#[derive(Clone, Copy)]
struct Totals {
    verified: u64,
    failed: u64,
    resting: u64,
    limited: u64,
    faulted: u64,
}

fn totals_of(runs: &[MemberRun]) -> Totals
    ensures verified { result.verified ≡ spec.count_of spec.is_verified runs.now }
    ensures failed { result.failed ≡ spec.count_of spec.is_failed runs.now }
    ensures resting { result.resting ≡ spec.count_of spec.is_resting runs.now }
    ensures limited { result.limited ≡ spec.count_of spec.is_limited runs.now }
    ensures faulted { result.faulted ≡ spec.count_of spec.is_faulted runs.now }
{
    let mut totals = Totals {
        verified: 0,
        failed: 0,
        resting: 0,
        limited: 0,
        faulted: 0,
    };
    for run in runs {
        match run.verdict {
            Verdict::Verified => totals.verified += 1,
            Verdict::Failed { .. } => totals.failed += 1,
            Verdict::Rests(_) => totals.resting += 1,
            Verdict::Limit => totals.limited += 1,
            Verdict::Fault(_) => totals.faulted += 1,
        }
    }
    totals
}

fn write_count(out: &mut String, count: u64, word: &str) -> Result<(), AllocError>
    ensures { OnOk result (string_bytes out.new ≡ string_bytes out.old ++ (decimal count ++ word.now)) }
{
    write!(out, "{}{}", count, word)?;
    Ok(())
}

fn write_decided(out: &mut String, verified: u64, failed: u64) -> Result<(), AllocError>
    ensures { OnOk result (string_bytes out.new ≡ string_bytes out.old ++ spec.decided_text verified failed) }
{
    write_count(out, verified, " verified, ")?;
    write_count(out, failed, " failed, ")
}

fn write_resting_count(out: &mut String, resting: u64) -> Result<(), AllocError>
    ensures { OnOk result (string_bytes out.new ≡ string_bytes out.old ++ spec.resting_text resting) }
{
    write_count(out, resting, " resting, ")
}

fn write_others(out: &mut String, limited: u64, faulted: u64) -> Result<(), AllocError>
    ensures { OnOk result (string_bytes out.new ≡ string_bytes out.old ++ spec.others_text limited faulted) }
{
    write_count(out, limited, " limited, ")?;
    write_count(out, faulted, " faults\n")
}

/// Writes the total line.
pub fn write_total(out: &mut String, runs: &[MemberRun]) -> Result<(), AllocError>
    ensures { OnOk result (string_bytes out.new ≡ string_bytes out.old ++ spec.total_of runs.now) }
{
    let totals = totals_of(runs);
    write_decided(out, totals.verified, totals.failed)?;
    write_resting_count(out, totals.resting)?;
    write_others(out, totals.limited, totals.faulted)
}

fn write_lines(out: &mut String, program: &Settled, runs: &[MemberRun]) -> Result<(), AllocError>
    requires named { AreNamed (settled program.now) runs.now }
    requires rests { RestWithin (settled program.now) runs.now }
    ensures { OnOk result (string_bytes out.new ≡ string_bytes out.old ++ spec.lines_of (settled program.now) runs.now) }
{
    for run in runs {
        write_line(out, program, run)?;
    }
    Ok(())
}

/// Writes the report's text: the line of each run's member, and the total line.
pub fn write_report(
    out: &mut String,
    program: &Settled,
    runs: &[MemberRun],
) -> Result<(), AllocError>
    requires named { AreNamed (settled program.now) runs.now }
    requires rests { RestWithin (settled program.now) runs.now }
    ensures { OnOk result (string_bytes out.new ≡ string_bytes out.old ++ spec.report_of (settled program.now) runs.now) }
{
    write_lines(out, program, runs)?;
    write_total(out, runs)
}

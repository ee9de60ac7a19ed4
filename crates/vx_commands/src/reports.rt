//! Reports: what the runs of a program's members say.

ghost use Rattle.std.specs.Prelude.{◌≡◌, ◌++◌, OnOk, string_bytes};
ghost use Rattle.vx_report.specs.Reports.{AreNamed, RestWithin};
ghost use Rattle.vx_resolved.specs.Settled.{settled};
ghost use Rattle.vx_typing.specs.Typed.{resolved_of};
ghost use Rattle.vx_readable.specs.Numerals.{HasSmallNumerals};
ghost use Rattle.vx_words.specs.Orders.{IsLanes};
ghost use Rattle.vx_commands.specs.Reports as spec;
ghost use Rattle.vx_commands.specs.Outside.{change, children, companions, spawners};
ghost use Rattle.vx_commands.specs.Reports.{IsReport, IsCompanionReport, IsReportBy};
ghost use Rattle.vx_commands.specs.Steps.{Asks, AsksEither};

use crate::output::Output;
use std::alloc::{AllocError, Global};
use vx_companion::Builtin;
use vx_ends::{Parts, RoundRobin, Spawner};
use vx_report::{MemberRun, status_of, write_report, write_total};
use vx_resolved::Settled;
use vx_typing::Typed;
use vx_verifier::{Verification, verify};

/// What a report tells of the runs.
#[derive(Clone, Copy)]
pub enum Telling {
    /// The line of each member, and the totals.
    Lines,
    /// The totals alone.
    Totals,
}

// Writes what is told of the runs.
fn write(
    telling: Telling,
    out: &mut String,
    program: &Settled,
    runs: &[MemberRun],
) -> Result<(), AllocError>
    requires named { AreNamed (settled program.now) runs.now }
    requires rests { RestWithin (settled program.now) runs.now }
    ensures { OnOk result (string_bytes out.new ≡ string_bytes out.old ++ spec.text_of telling (settled program.now) runs.now) }
{
    match telling {
        Telling::Lines => write_report(out, program, runs),
        Telling::Totals => write_total(out, runs),
    }
}

// Verifies a program in so many lanes, and reports it.
fn report<W: Spawner>(
    alloc: Global,
    telling: Telling,
    typed: &Typed,
    jobs: u32,
    solver: &Parts,
    spawner: &mut W,
) -> Result<Output, AllocError>
    requires { IsLanes jobs }
    ensures { let shown = change (children W.starts W.owed W.ended W.faults W.steady) spawner.old spawner.new in
        Asks solver.now jobs (IsReport telling (resolved_of typed.now) jobs solver.now shown) shown result }
{
    let mut turns = RoundRobin::new();
    let Verification { program, runs } = verify(
        alloc, typed, jobs, solver, false, spawner, &mut turns,
    )?;
    let mut text = String::new(alloc);
    write(telling, &mut text, &program, &runs)?;
    let status = status_of(&runs);
    Ok(Output {
        bytes: text.into_bytes(),
        status,
        runs,
    })
}

/// The companion is asked, and no child process.
pub fn is_companion(solver: &Parts) -> bool
    ensures { result ≡ spec.is_companion solver.now }
{
    solver.len() == 1 && solver.part(0) == "builtin"
}

/// Verifies a program by the companion in so many lanes, and reports it. No member is faulted, unless an assertion is too deep.
pub fn report_by_companion(
    alloc: Global,
    telling: Telling,
    typed: &Typed,
    jobs: u32,
    solver: &Parts,
    builtin: &mut Builtin,
) -> Result<Output, AllocError>
    requires small { HasSmallNumerals (resolved_of typed.now) }
    requires lanes { IsLanes jobs }
    ensures { let shown = change companions builtin.old builtin.new in
        Asks solver.now jobs (IsCompanionReport telling (resolved_of typed.now) jobs solver.now shown) shown result }
{
    report(alloc, telling, typed, jobs, solver, builtin)
}

/// Verifies a program by the companion, or by the spawner, as the solver says, and reports it.
pub fn report_by<W: Spawner>(
    alloc: Global,
    typed: &Typed,
    jobs: u32,
    solver: &Parts,
    spawner: &mut W,
    builtin: &mut Builtin,
) -> Result<Output, AllocError>
    requires small { HasSmallNumerals (resolved_of typed.now) }
    requires lanes { IsLanes jobs }
    ensures { let shown = spawners (children W.starts W.owed W.ended W.faults W.steady) builtin.old builtin.new spawner.old spawner.new in
        AsksEither solver.now jobs (IsReportBy solver.now jobs (resolved_of typed.now) shown) shown result }
{
    if is_companion(solver) {
        report_by_companion(alloc, Telling::Lines, typed, jobs, solver, builtin)
    } else {
        report(alloc, Telling::Lines, typed, jobs, solver, spawner)
    }
}

//! Verdicts that rest on a member.

ghost use Rattle.std.specs.Prelude.{◌≡◌, ◌<◌, map, length, Some, IfOk};
ghost use Rattle.std.specs.List.{All};
ghost use Rattle.vx_closure.specs.Leads.{HasDistinctNames};
ghost use Rattle.vx_report.specs.Reports.{AreNamed, RestWithin};
ghost use Rattle.vx_resolved.specs.Settled.{settled};
ghost use Rattle.vx_resting.specs.Held.{rested, verdict_with};
ghost use Rattle.vx_resting.specs.Resting.{NoneRests, AreLater, AreRested};

use crate::held::held_up;
use std::alloc::{AllocError, Global};
use vx_ast::MemberId;
use vx_report::{MemberRun, Verdict};
use vx_resolved::Settled;

// A member that was verified rests on another.
fn rest_on(verdict: &mut Verdict, on: MemberId)
    ensures { verdict.new ≡ verdict_with (Some on) verdict.old }
{
    if matches!(verdict, Verdict::Verified) {
        *verdict = Verdict::Rests(on);
    }
}

fn rest_run(run: &mut MemberRun, held: &[Option<MemberId>])
    requires { run.old.member.0 < length held.now }
    ensures { run.new ≡ rested held.now run.old }
{
    if let Some(on) = held[run.member.0 as usize] {
        rest_on(&mut run.verdict, on);
    }
}

fn rest_runs(runs: &mut [MemberRun], held: &[Option<MemberId>])
    requires { All (λ r. r.member.0 < length held.now) runs.old }
    ensures { runs.new ≡ map (rested held.now) runs.old }
{
    for run in runs.iter_mut() {
        rest_run(run, held);
    }
}

/// The verdicts, once the walks of all members have ended: a member whose walk passed, and that leads to a member whose walk
/// didn't, rests on the first of these in file order. Where memory runs out, the runs are lost.
pub fn rest(
    alloc: Global,
    program: &Settled,
    mut runs: Vec<MemberRun>,
) -> Result<Vec<MemberRun>, AllocError>
    requires distinct { HasDistinctNames (settled program.now) }
    requires named { AreNamed (settled program.now) runs.items }
    requires alone { NoneRests runs.items }
    ensures later { IfOk result (λ rested. AreLater runs.items rested.items) }
    ensures rested { IfOk result (λ rested. AreRested (settled program.now) rested.items) }
    ensures within { IfOk result (λ rested. RestWithin (settled program.now) rested.items) }
{
    let held = held_up(alloc, program, &runs)?;
    rest_runs(&mut runs, &held);
    Ok(runs)
}

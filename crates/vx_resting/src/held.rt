//! What holds the members up: for each, the first member that it leads to and whose walk didn't pass.

ghost use Rattle.std.specs.Prelude.{◌≡◌, ◌<◌, ◌++◌, ◌∷◌, ℕ, List, [], None, nat_eq, length, All, IfOk, OnOk};
ghost use Rattle.std.specs.List.{list_all};
ghost use Rattle.vx_closure.specs.Leads.{HasDistinctNames};
ghost use Rattle.vx_closure.specs.Mentioners.{AreMentioners};
ghost use Rattle.vx_graph.specs.Listed.{is_in};
ghost use Rattle.vx_graph.specs.Views.{rows};
ghost use Rattle.vx_report.specs.Reports.{AreNamed};
ghost use Rattle.vx_report.specs.declared.run.MemberRun.{MemberRun};
ghost use Rattle.vx_resolved.specs.Settled.{settled};
ghost use Rattle.vx_resting.specs.Held.{AreFirst, held_at, or_held_by};
ghost use Rattle.vx_resting.specs.Resting as spec;

use std::alloc::{AllocError, Global};
use vx_ast::MemberId;
use vx_closure::{leaders, mentioners};
use vx_graph::Edges;
use vx_report::{MemberRun, Verdict};
use vx_resolved::Settled;

// Whether the member's own walk passed.
fn has_passed(verdict: &Verdict) -> bool
    ensures { result ≡ spec.has_passed verdict.now }
{
    match verdict {
        Verdict::Verified => true,
        Verdict::Rests(_) => true,
        Verdict::Failed { .. } => false,
        Verdict::Limit => false,
        Verdict::Fault(_) => false,
    }
}

fn have_passed(runs: &[MemberRun]) -> bool
    ensures { result ≡ list_all (λ r. spec.has_passed r.verdict) runs.now }
{
    for run in runs {
        if !has_passed(&run.verdict) {
            return false;
        }
    }
    true
}

// A member is held up by another, if none held it up before.
fn mark(held: &mut [Option<MemberId>], member: MemberId, by: MemberId)
    requires { member.0 < length held.old }
    ensures { (n : ℕ) → held_at held.new n ≡ or_held_by (held_at held.old n) (nat_eq member.0 n) by }
{
    let at = member.0 as usize;
    if held[at].is_none() {
        held[at] = Some(by);
    }
}

// The same of each of these members.
fn mark_all(held: &mut [Option<MemberId>], members: &[MemberId], by: MemberId)
    requires { All (λ m. m.0 < length held.old) members.now }
    ensures { (n : ℕ) → held_at held.new n ≡ or_held_by (held_at held.old n) (is_in members.now n) by }
{
    for member in members {
        mark(held, *member, by);
    }
}

// One more run: a member whose walk didn't pass holds up itself and all that lead to it.
fn look(
    alloc: Global,
    program: &Settled,
    mentioners: &Edges,
    held: &mut [Option<MemberId>],
    run: &MemberRun,
) -> Result<(), AllocError>
    requires mentioners { AreMentioners (settled program.now) (rows mentioners.now) }
    requires distinct { HasDistinctNames (settled program.now) }
    requires named { run.now.member.0 < length (settled program.now) }
    requires each { length held.old ≡ length (settled program.now) }
    ensures { OnOk result ((runs : List MemberRun) → AreFirst (settled program.now) runs held.old → AreFirst (settled program.now) (runs ++ run.now ∷ []) held.new) }
{
    if has_passed(&run.verdict) {
        return Ok(());
    }
    let others = leaders(alloc, program, mentioners, run.member)?;
    mark(held, run.member, run.member);
    mark_all(held, &others, run.member);
    Ok(())
}

// All runs in turn, where nothing is marked yet.
fn look_at_all(
    alloc: Global,
    program: &Settled,
    mentioners: &Edges,
    held: &mut [Option<MemberId>],
    runs: &[MemberRun],
) -> Result<(), AllocError>
    requires mentioners { AreMentioners (settled program.now) (rows mentioners.now) }
    requires distinct { HasDistinctNames (settled program.now) }
    requires named { AreNamed (settled program.now) runs.now }
    requires each { length held.old ≡ length (settled program.now) }
    requires none { (n : ℕ) → held_at held.old n ≡ None }
    ensures { OnOk result (AreFirst (settled program.now) runs.now held.new) }
{
    for run in runs {
        look(alloc, program, mentioners, held, run)?;
    }
    Ok(())
}

// Nothing holds up any of so many members.
fn none_held(alloc: Global, members: usize) -> Result<Vec<Option<MemberId>>, AllocError>
    ensures each { IfOk result (λ held. length held.items ≡ members) }
    ensures none { IfOk result (λ held. (n : ℕ) → held_at held.items n ≡ None) }
{
    vec![in alloc; None; members]
}

/// For each member, in file order, the first run that holds it up. Edges are built only where some walk didn't pass.
pub(crate) fn held_up(
    alloc: Global,
    program: &Settled,
    runs: &[MemberRun],
) -> Result<Vec<Option<MemberId>>, AllocError>
    requires distinct { HasDistinctNames (settled program.now) }
    requires named { AreNamed (settled program.now) runs.now }
    ensures each { IfOk result (λ held. length held.items ≡ length (settled program.now)) }
    ensures first { IfOk result (λ held. AreFirst (settled program.now) runs.now held.items) }
{
    let mut held = none_held(alloc, program.len())?;
    if have_passed(runs) {
        return Ok(held);
    }
    let edges = mentioners(alloc, program)?;
    look_at_all(alloc, program, &edges, &mut held, runs)?;
    Ok(held)
}

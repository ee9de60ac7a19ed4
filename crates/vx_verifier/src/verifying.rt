//! The members of a program, dealt to lanes, each executed by the machine and its questions asked of the lane's child.

ghost use Rattle.std.specs.Prelude.{◌≡◌, ℕ, ◌-◌, ◌<◌, ◌≤◌, ◌^◌, ⊤, List, false, IsTrue, IfOk, length, map, reverse};
ghost use Rattle.vx_smt_meaning.specs.Views.{declared_symbol};
ghost use Rattle.vx_resolved.specs.Settled.{settled};
ghost use Rattle.vx_report.specs.Reports.{AreNamed, RestWithin};
ghost use Rattle.vx_typing.specs.Typed.{resolved_of};
ghost use Rattle.vx_live.specs.Functions.{function_symbols};
ghost use Rattle.vx_verifier.specs.Causes.{NoCountRose};
ghost use Rattle.vx_verifier.specs.Dealt.{Handed, Starts, runs_in};
ghost use Rattle.vx_verifier.specs.Headline.{Headline, IsWhole, members_of, some_ask};
ghost use Rattle.vx_verifier.specs.Lanes.{IsBack};
ghost use Rattle.vx_verifier.specs.Outsets.{Later, hub};
ghost use Rattle.vx_verifier.specs.Steady.{AsksSpelled};
ghost use Rattle.vx_verifier.specs.Verifying.{AreBack, AreDealtOut, AreFresh, AreHeldOver, AreNumbered, AreOver, ArePiles, AreToldOver};

use crate::line::{Line, end};
use crate::members::Members;
use crate::outset::Begun;
use crate::program::{settled, typed_programs_are_whole};
use crate::symbols::function_symbols;
use std::alloc::{AllocError, Global};
use std::marker::Brand;
use std::mem;
use vx_ends::{Link, Parts, Spawner, Turns};
use vx_law::members_are_sound;
use vx_pool::Pool;
use vx_real::failures_are_real;
use vx_report::MemberRun;
use vx_resolved::Settled;
use vx_resting::rest;
use vx_runs::no_whole_run_fails;
use vx_smt_meaning::Declared;
use vx_typing::Typed;

/// What became of each member with a line, in file order.
pub type Runs = Vec<MemberRun>;

/// A typed program as it was settled to be verified, and what became of its members.
#[derive(Drop)]
pub struct Verification {
    pub program: Settled,
    pub runs: Runs,
}

// The lanes that members are dealt to; no child is started yet.
fn begin_all<'a, K: Begun, L: Link>(
    alloc: Global,
    jobs: u32,
    command: &'a Parts,
    functions: &'a [Declared],
) -> Result<Vec<(Members<K>, Line<'a, K, L>)>, AllocError>
    ensures each { IfOk result (λ lanes. length lanes.items ≡ jobs) }
    ensures fresh { IfOk result (λ lanes. AreFresh jobs command.now (map declared_symbol functions.now) lanes.items) }
{
    let mut lanes = Vec::with_capacity(alloc, jobs as usize)?;
    for lane in 0..jobs {
        let members = Members::new(alloc, lane, jobs);
        let line = Line::new(lane, command, functions);
        lanes.push_reserved((members, line));
    }
    Ok(lanes)
}

// The runs of each lane, the last one first.
fn take_runs<K: Begun, T>(
    alloc: Global,
    lanes: &mut [(Members<K>, T)],
) -> Result<Vec<Vec<MemberRun>>, AllocError>
    ensures lines { map (λ l. l.1) lanes.new ≡ map (λ l. l.1) lanes.old }
    ensures taken { IfOk result (λ piles. map (λ pile. reverse pile.items) piles.items ≡ map (λ l. l.0.runs.items) lanes.old) }
{
    let mut piles = Vec::new(alloc);
    for i in 0..lanes.len() {
        let mut pile = mem::replace(&mut lanes[i].0.runs, Vec::new(alloc));
        pile.reverse();
        piles.push(pile)?;
    }
    Ok(piles)
}

// The links of all lanes are handed back. No memory.
fn end_all<K: Begun, W: Spawner>(lanes: Vec<(Members<K>, Line<'_, K, W::Link>)>, spawner: &mut W)
    requires held { AreHeldOver W.Link.steady W.Link.faults K.outset (hub W.starts W.owed W.ended W.faults W.steady spawner.old) lanes.items }
    requires numbered { AreNumbered lanes.items }
    requires steady { W.steady spawner.old ≡ K.outset.first.steady }
    ensures back { (i : ℕ) → i < length lanes.entry.items → IsBack K.outset i (hub W.starts W.owed W.ended W.faults W.steady spawner.new) }
    ensures told { AreToldOver W.Link.dialogue K.outset (hub W.starts W.owed W.ended W.faults W.steady spawner.old) (hub W.starts W.owed W.ended W.faults W.steady spawner.new) lanes.entry.items }
    ensures later { Later K.outset (hub W.starts W.owed W.ended W.faults W.steady spawner.old) (hub W.starts W.owed W.ended W.faults W.steady spawner.new) }
{
    let mut lanes = lanes;
    'lanes: while let Some((_members, line)) = lanes.pop() {
        end(line, spawner);
    }
    lanes.destroy_empty();
}

// Run number i is the next one of pile i modulo their number, until that pile has none left.
fn deal_out(alloc: Global, piles: &mut [Vec<MemberRun>]) -> Result<Vec<MemberRun>, AllocError>
    requires { 0 < length piles.old }
    ensures { IfOk result (λ runs. (ns : List ℕ) → ArePiles ns piles.old → AreDealtOut ns piles.old runs.items) }
{
    let mut runs = Vec::new(alloc);
    let mut at = 0;
    'piles: loop {
        let Some(run) = piles[at].pop() else {
            return Ok(runs);
        };
        runs.push(run)?;
        at += 1;
        if at == piles.len() {
            at = 0;
        }
    }
}

// All members are executed, in so many lanes over one spawner, and all links handed back.
fn execute_all<K: Begun, W: Spawner, N: Turns>(
    alloc: Global,
    program: &Settled,
    jobs: u32,
    command: &Parts,
    functions: &[Declared],
    spawner: &mut W,
    turns: &mut N,
) -> Result<Vec<MemberRun>, AllocError>
    requires outset { K.outset
        ≡ record { program = settled program.now; jobs = jobs; command = command.now; first = hub W.starts W.owed W.ended W.faults W.steady spawner.old } }
    requires functions { map declared_symbol functions.now ≡ function_symbols (settled program.now) }
    requires jobs { 1 ≤ jobs }
    requires spelled { AsksSpelled (settled program.now) }
    ensures over { IfOk result (λ runs. AreOver K.outset (hub W.starts W.owed W.ended W.faults W.steady spawner.new) runs.items) }
    ensures back { AreBack K.outset (hub W.starts W.owed W.ended W.faults W.steady spawner.new) }
    ensures later { Later K.outset (hub W.starts W.owed W.ended W.faults W.steady spawner.old) (hub W.starts W.owed W.ended W.faults W.steady spawner.new) }
{
    let mut lanes = begin_all::<K, W::Link>(alloc, jobs, command, functions)?;
    let done = Pool::run(alloc, &mut lanes, program, spawner, turns);
    let piles = take_runs(alloc, &mut lanes);
    end_all(lanes, spawner);
    done?;
    let mut piles = piles?;
    deal_out(alloc, &mut piles)
}

// Verifies the members with a line, in so many lanes. Which of them rest on others is known at the end.
fn verify_members<W: Spawner, N: Turns>(
    alloc: Global,
    program: &Settled,
    jobs: u32,
    command: &Parts,
    spawner: &mut W,
    turns: &mut N,
) -> Result<Runs, AllocError>
    requires jobs { (1 ≤ jobs) × (jobs ≤ 16) }
    requires whole { IsWhole (settled program.now) }
    ensures named { IfOk result (λ runs. AreNamed (settled program.now) runs.items) }
    ensures rests { IfOk result (λ runs. RestWithin (settled program.now) runs.items) }
    ensures headline { IfOk result (λ runs. Headline (settled program.now) jobs (W.ended spawner.old) (W.ended spawner.new)
        (W.faults spawner.old) (W.faults spawner.new) runs.items) }
    ensures starts { Starts jobs command.now (W.starts spawner.old) (W.starts spawner.new) (λ lane started. ⊤) }
    ensures started { IfOk result (λ runs. Starts jobs command.now (W.starts spawner.old) (W.starts spawner.new)
        (λ lane started. started ≡ some_ask (settled program.now) (members_of (runs_in lane runs.items)))) }
    ensures handed_back { (lane : ℕ) → W.owed spawner.new lane ≡ W.owed spawner.old lane }
    ensures faults { W.faults spawner.old ≤ W.faults spawner.new }
    ensures later { Handed (W.ended spawner.old) (W.ended spawner.new) }
    ensures steady { IsTrue (W.steady spawner.old) → W.faults spawner.old < 2 ^ 64 - 1
        → NoCountRose (W.ended spawner.old) (W.ended spawner.new) (W.faults spawner.old) (W.faults spawner.new) }
{
    let functions = function_symbols(alloc, program)?;
    members_are_sound();
    failures_are_real();
    no_whole_run_fails();
    let own = execute_all::<Brand, W, N>(
        alloc, program, jobs, command, &functions, spawner, turns,
    )?;
    rest(alloc, program, own)
}

/// Verifies the members of a program that have a line, in so many lanes: member number i of them in lane i modulo `jobs`. Each lane
/// has one child, which is started at the lane's first question, if there is any, and handed back at the end, also where memory runs
/// out. While children compute, others are asked and read; `turns` says which of those that wait is read next, and no clause speaks
/// of what it says. The clause `headline` is the promise. No certificate is asked for so far.
pub fn verify<W: Spawner, N: Turns>(
    alloc: Global,
    typed: &Typed,
    jobs: u32,
    command: &Parts,
    certify: bool,
    spawner: &mut W,
    turns: &mut N,
) -> Result<Verification, AllocError>
    requires jobs { (1 ≤ jobs) × (jobs ≤ 16) }
    requires certify { certify ≡ false }
    ensures program { IfOk result (λ v. settled v.program ≡ resolved_of typed.now) }
    ensures named { IfOk result (λ v. AreNamed (resolved_of typed.now) v.runs.items) }
    ensures rests { IfOk result (λ v. RestWithin (resolved_of typed.now) v.runs.items) }
    ensures headline { IfOk result (λ v. Headline (resolved_of typed.now) jobs (W.ended spawner.old) (W.ended spawner.new) (W.faults spawner.old) (W.faults spawner.new) v.runs.items) }
    ensures starts { Starts jobs command.now (W.starts spawner.old) (W.starts spawner.new) (λ lane started. ⊤) }
    ensures started { IfOk result (λ v. Starts jobs command.now (W.starts spawner.old) (W.starts spawner.new)
        (λ lane started. started ≡ some_ask (resolved_of typed.now) (members_of (runs_in lane v.runs.items)))) }
    ensures handed_back { (lane : ℕ) → W.owed spawner.new lane ≡ W.owed spawner.old lane }
    ensures faults { W.faults spawner.old ≤ W.faults spawner.new }
    ensures later { Handed (W.ended spawner.old) (W.ended spawner.new) }
    ensures steady { IsTrue (W.steady spawner.old) → W.faults spawner.old < 2 ^ 64 - 1
        → NoCountRose (W.ended spawner.old) (W.ended spawner.new) (W.faults spawner.old) (W.faults spawner.new) }
    ensures whole { IsWhole (resolved_of typed.now) }
{
    let _ = certify;
    typed_programs_are_whole(typed);
    let program = settled(alloc, typed)?;
    let runs = verify_members(alloc, &program, jobs, command, spawner, turns)?;
    Ok(Verification { program, runs })
}

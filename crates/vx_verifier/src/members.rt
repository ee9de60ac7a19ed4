//! The worker of a lane: it executes the members that are dealt to the lane, one after the other.

ghost use Rattle.std.specs.Prelude.{◌≡◌, ◌<◌, ◌≤◌, ◌++◌, ◌∷◌, [], None, IfOk, OnOk, OnErr, IfSome, is_some, length, drop};
ghost use Rattle.vx_resolved.specs.Resolved.{kind as kind_of};
ghost use Rattle.vx_resolved.specs.Settled.{settled};
ghost use Rattle.vx_machine.specs.Runs.{awaits};
ghost use Rattle.vx_verifier.specs.Lines.{has_line, lines_from};
ghost use Rattle.vx_verifier.specs.Lanes as spec;
ghost use Rattle.vx_verifier.specs.Members.{AreRuns, Begins, GoesTo, IsMember, every, run_of, some_list};
ghost use Rattle.vx_verifier.specs.Steady.{AsksSpelled};

use crate::outset::Begun;
use std::alloc::{AllocError, Global};
use std::marker::PhantomData;
use std::mem;
use vx_ast::MemberId;
use vx_machine::{Ask, Machine, Outcome};
use vx_pool::{Next, Worker};
use vx_report::{Cause, MemberRun, Verdict};
use vx_resolved::{Kind, Settled};
use vx_rules::Reply;

/// How far a worker is.
#[derive(Drop)]
pub enum Stage {
    /// No member is under way.
    Between,
    /// A question of this member is open.
    Asked(Machine),
    /// No member is left.
    Ended,
    /// Memory ran out.
    Spent,
}

/// The members of a lane, and what became of those that are over.
#[derive(Drop)]
pub struct Members<K> {
    pub lane: u32,
    pub jobs: u32,
    /// The number of the member to look at next.
    pub next: usize,
    /// So many members with a line are other lanes' before the next one of this lane.
    pub skip: u32,
    pub stage: Stage,
    pub runs: Vec<MemberRun>,
    /// The replies to the checks of these runs, one run after the other.
    pub replies: Vec<Reply>,
    pub of: PhantomData<K>,
}

/// The most checks of a member.
const LIMIT: u32 = 100_000;

fn verdict_of(outcome: Outcome) -> Verdict
    ensures { result ≡ spec.verdict_of outcome }
{
    match outcome {
        Outcome::Passed => Verdict::Verified,
        Outcome::Failed { place, code, reply } => Verdict::Failed { place, code, reply },
        Outcome::Limit { .. } => Verdict::Limit,
    }
}

// A member has a line in the report.
fn has_line(kind: &Kind) -> bool
    ensures { result ≡ has_line (kind_of kind.now) }
{
    match kind {
        Kind::Field(_) => false,
        Kind::Predicate(_) => true,
        Kind::Function(_) => true,
        Kind::Method(_) => true,
    }
}

impl<K: Begun> Members<K> {
    /// The worker of a lane, one of so many. None of its members is begun.
    pub fn new(alloc: Global, lane: u32, jobs: u32) -> Members<K>
        ensures lane { (result.lane ≡ lane) × (result.jobs ≡ jobs) × (result.next ≡ 0) × (result.skip ≡ lane) }
        ensures none { (result.stage ≡ Stage.Between) × (result.runs.items ≡ []) × (result.replies.items ≡ []) }
    {
        Members {
            lane,
            jobs,
            next: 0,
            skip: lane,
            stage: Stage::Between,
            runs: Vec::new(alloc),
            replies: Vec::new(alloc),
            of: PhantomData,
        }
    }

    // The number of the lane's next member, if there is one.
    fn deal(&mut self, program: &Settled) -> Option<usize>
        requires { 1 ≤ self.old.jobs }
        ensures member { IfSome result (λ n. (n < length (settled program.now)) × (self.old.next < self.new.next) × (self.new.next ≤ length (settled program.now))) }
        ensures dealt { every self.old.jobs self.old.skip (lines_from self.old.next (drop self.old.next (settled program.now)))
            ≡ some_list result ++ every self.old.jobs self.new.skip (lines_from self.new.next (drop self.new.next (settled program.now))) }
        ensures over { result ≡ None → every self.old.jobs self.new.skip (lines_from self.new.next (drop self.new.next (settled program.now))) ≡ [] }
        ensures lane { (self.new.lane ≡ self.old.lane) × (self.new.jobs ≡ self.old.jobs) }
        ensures runs { (self.new.runs ≡ self.old.runs) × (self.new.replies ≡ self.old.replies) × (self.new.stage ≡ self.old.stage) }
    {
        'members: while self.next < program.len() {
            let number = self.next;
            self.next += 1;
            if !has_line(&program.member(number).kind) {
                continue;
            }
            if self.skip == 0 {
                self.skip = self.jobs - 1;
                return Some(number);
            }
            self.skip -= 1;
        }
        None
    }

    // A member is over.
    fn put(&mut self, machine: Machine, verdict: Verdict) -> Result<(), AllocError>
        ensures run { OnOk result (self.new.runs.items ≡ self.old.runs.items ++ run_of self.old.lane (length self.old.replies.items) machine verdict ∷ []) }
        ensures replies { OnOk result (self.new.replies.items ≡ self.old.replies.items ++ machine.replies.items) }
        ensures lane { (self.new.lane ≡ self.old.lane) × (self.new.jobs ≡ self.old.jobs) × (self.new.next ≡ self.old.next) × (self.new.skip ≡ self.old.skip) }
        ensures stage { self.new.stage ≡ self.old.stage }
    {
        // No member has more checks than the limit.
        let Ok(checks) = u32::try_from(machine.replies.len()) else {
            return Err(AllocError);
        };
        self.runs.push(MemberRun {
            member: machine.member,
            lane: self.lane,
            child: 0,
            first: self.replies.len() as u64,
            checks,
            verdict,
        })?;
        self.replies.extend_from_slice(&machine.replies)?;
        Ok(())
    }

    // A machine goes on to its next question, or to the member's end.
    fn go_on(
        &mut self,
        alloc: Global,
        program: &Settled,
        machine: Machine,
        reply: Option<Reply>,
    ) -> Result<Next, AllocError>
        requires awaited { awaits machine.phase ≡ is_some reply }
        requires member { IsMember (settled program.now) machine }
        requires runs { AreRuns (settled program.now) self.old.lane 0 self.old.runs.items self.old.replies.items }
        requires spelled { AsksSpelled (settled program.now) }
        ensures goes { IfOk result (GoesTo (settled program.now) self.old.lane self.old.runs.items self.old.replies.items machine reply self.new.runs.items self.new.replies.items self.new.stage) }
        ensures lane { (self.new.lane ≡ self.old.lane) × (self.new.jobs ≡ self.old.jobs) × (self.new.next ≡ self.old.next) × (self.new.skip ≡ self.old.skip) }
        ensures spent { OnErr result (self.new.stage ≡ self.old.stage) }
    {
        let mut machine = machine;
        match machine.next(alloc, program, reply)? {
            Ask::Check(query) => {
                let stays = machine.stays;
                self.stage = Stage::Asked(machine);
                Ok(Next::Question { query, stays })
            }
            Ask::Done(outcome) => {
                self.put(machine, verdict_of(outcome))?;
                self.stage = Stage::Between;
                Ok(Next::Left)
            }
        }
    }

    // The next member of the lane is begun, if there is one.
    fn begin(&mut self, alloc: Global, program: &Settled) -> Result<Next, AllocError>
        requires jobs { 1 ≤ self.old.jobs }
        requires runs { AreRuns (settled program.now) self.old.lane 0 self.old.runs.items self.old.replies.items }
        requires spelled { AsksSpelled (settled program.now) }
        ensures begun { IfOk result (Begins (settled program.now) self.old.jobs self.old.lane self.old.next self.old.skip self.old.runs.items self.old.replies.items
            self.new.next self.new.skip self.new.runs.items self.new.replies.items self.new.stage) }
        ensures lane { (self.new.lane ≡ self.old.lane) × (self.new.jobs ≡ self.old.jobs) }
        ensures spent { OnErr result (self.new.stage ≡ self.old.stage) }
    {
        let Some(number) = self.deal(program) else {
            self.stage = Stage::Ended;
            return Ok(Next::End);
        };
        // A file has at most 65,536 members.
        let Ok(number) = u32::try_from(number) else {
            return Err(AllocError);
        };
        let machine = Machine::start(alloc, program, MemberId(number), LIMIT)?;
        self.go_on(alloc, program, machine, None)
    }
}

impl<K: Begun> Worker<Settled, Cause> for Members<K> {
    ghost use Rattle.std.specs.Prelude.{◌≡◌, ◌-◌, ◌++◌, false, length};
    ghost use Rattle.vx_resolved.specs.Settled.{settled};
    ghost use Rattle.vx_verifier.specs.Members.{IsWorking, asked_at, is_ended, is_spent, left_at, runs_events, so_far};
    ghost use Rattle.vx_verifier.specs.Steady.{AsksSpelled, IsSpelled};

    ghost lane = { λ w. w.lane };

    ghost log = { λ w. runs_events K.outset.program w.runs.items w.replies.items ++ so_far K.outset.program w.stage };

    ghost asked = { λ w. asked_at w.stage };

    ghost ended = { λ w. is_ended w.stage };

    ghost left = { λ w. left_at (length K.outset.program - w.next) w.stage };

    ghost Fits = { λ w program. (settled program ≡ K.outset.program) × (w.jobs ≡ K.outset.jobs) × AsksSpelled K.outset.program
        × (is_spent w.stage ≡ false → IsWorking K.outset.program w.jobs w.lane w.next w.skip w.runs.items w.replies.items w.stage) };

    ghost IsPostable = { λ _ q. IsSpelled q };

    fn next(
        &mut self,
        alloc: Global,
        program: &Settled,
        reply: Option<Reply>,
    ) -> Result<Next, AllocError> {
        match mem::replace(&mut self.stage, Stage::Spent) {
            Stage::Between => self.begin(alloc, program),
            Stage::Asked(machine) => self.go_on(alloc, program, machine, reply),
            Stage::Ended | Stage::Spent => Err(AllocError),
        }
    }

    fn fault(
        &mut self,
        _alloc: Global,
        _program: &Settled,
        cause: Cause,
    ) -> Result<(), AllocError> {
        match mem::replace(&mut self.stage, Stage::Spent) {
            Stage::Asked(machine) => {
                self.put(machine, Verdict::Fault(cause))?;
                self.stage = Stage::Between;
                Ok(())
            }
            // A question is open.
            Stage::Between | Stage::Ended | Stage::Spent => unreachable!(),
        }
    }
}

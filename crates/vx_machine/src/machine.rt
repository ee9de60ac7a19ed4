//! The machine: it gives control back at every question.

ghost use Rattle.std.specs.Prelude.{◌≡◌, ◌++◌, ◌∷◌, ◌<◌, [], List, IfOk, OnErr, OnOk, length, false, true, cond, is_some, is_err, IfSome, IsOkAnd};
ghost use Rattle.vx_rules.specs.Members.{predicate_over, rules, tree};
ghost use Rattle.vx_rules.specs.Trees.{walk};
ghost use Rattle.vx_resolved.specs.Resolved.{member as member_of, predicate};
ghost use Rattle.vx_resolved.specs.Settled.{settled};
ghost use Rattle.vx_machine.specs.Growth.{AsksOnTop, GoesOn, IsOpen, Stays, without_other, without_last};
ghost use Rattle.vx_machine.specs.Runs.{IsAt, Within, Follows, Told, EachAnswered, Shows, outcome_of, awaits as is_awaiting, given, member_tree, option_list, is_unsat, remaining};

use crate::run::{Found, run};
use std::alloc::{AllocError, Global};
use std::mem;
use vx_ast::{MemberId, Place};
use vx_resolved::{Kind, Member, Predicate, Settled};
use vx_rules::{Code, Reply};
use vx_stack::{Conts, Query};

/// Where a machine is.
#[derive(Drop)]
pub enum Phase {
    /// No question is open, and there may be more.
    Ready,
    Asked(Query),
    /// The limit is reached, with this question due.
    Limited(Query),
    Passed,
    Failed(Place, Code, Reply),
    /// Memory ran out.
    Spent,
}

/// How a member's execution ends.
#[derive(Clone, Copy)]
pub enum Outcome {
    Passed,
    Failed {
        place: Place,
        code: Code,
        reply: Reply,
    },
    /// As many questions were answered as are allowed, and a further one is due.
    Limit {
        checks: u32,
    },
}

/// A question, or the end.
#[derive(Drop)]
pub enum Ask {
    Check(Query),
    Done(Outcome),
}

/// A member's execution, which stands still at every question.
#[derive(Drop)]
pub struct Machine {
    pub member: MemberId,
    pub conts: Conts,
    pub phase: Phase,
    pub replies: Vec<Reply>,
    pub limit: u32,
    /// The path of the open question begins with the path of the question that was answered just before.
    pub stays: bool,
}

/// Of the two candidates of a probe the other one goes.
fn drop_other(conts: &mut Conts) -> Result<(), AllocError>
    ensures { IfOk result (λ _. conts.new.sides.items ≡ without_other conts.old.sides.items) }
{
    let Some(last) = conts.sides.pop() else {
        return Ok(());
    };
    if let Some(_other) = conts.sides.pop() {
        conts.sides.push(last)?;
        return Ok(());
    }
    conts.sides.push(last)?;
    Ok(())
}

/// Of the two candidates of a probe the one where it is refuted goes.
fn drop_last(conts: &mut Conts)
    ensures { conts.new.sides.items ≡ without_last conts.old.sides.items }
{
    match conts.sides.pop() {
        Some(_last) => {}
        None => {}
    }
}

/// A probe is answered: one of its two candidates goes.
fn choose(conts: &mut Conts, refuted: bool) -> Result<(), AllocError>
    ensures { IfOk result (λ _. conts.new.sides.items ≡ cond refuted (without_other conts.old.sides.items) (without_last conts.old.sides.items)) }
{
    if refuted {
        return drop_other(conts);
    }
    drop_last(conts);
    Ok(())
}

fn is_refuted(reply: Reply) -> bool
    ensures { result ≡ is_unsat reply }
{
    matches!(reply, Reply::Unsat)
}

/// The stack that a predicate begins with: the side of its body, where it has one.
fn predicate_sides(alloc: Global, program: &Settled, d: &Predicate) -> Result<Conts, AllocError>
    ensures { IfOk result (λ c. (rs : List Reply) → walk (predicate_over (settled program.now) (rules (settled program.now)) (predicate d.now)) rs
        ≡ remaining (settled program.now) c.sides.items rs) }
{
    let mut conts = Conts::new(alloc);
    match &d.body {
        Some(body) => {
            let side = vx_members::predicate_side(alloc, program, &d.parameters, body)?;
            conts.sides.push(side)?;
            Ok(conts)
        }
        None => Ok(conts),
    }
}

/// The stack that a member begins with: its first side. A field has none, since there is no question, nor has a
/// predicate without a body.
fn first_sides(alloc: Global, program: &Settled, member: &Member) -> Result<Conts, AllocError>
    ensures { IfOk result (λ c. (rs : List Reply) → walk (tree (settled program.now) (member_of member.now).name (member_of member.now).kind) rs
        ≡ remaining (settled program.now) c.sides.items rs) }
{
    match &member.kind {
        Kind::Field(_) => Ok(Conts::new(alloc)),
        Kind::Predicate(d) => predicate_sides(alloc, program, d),
        Kind::Function(f) => {
            let mut conts = Conts::new(alloc);
            let side = vx_funcs::verified_side(alloc, program, &member.name, f)?;
            conts.sides.push(side)?;
            Ok(conts)
        }
        Kind::Method(m) => {
            let mut conts = Conts::new(alloc);
            let side = vx_members::first_side(alloc, program, m)?;
            conts.sides.push(side)?;
            Ok(conts)
        }
    }
}

impl Machine {
    /// A machine at the root of a member's tree, which asks at most this many questions.
    pub fn start(
        alloc: Global,
        program: &Settled,
        member: MemberId,
        limit: u32,
    ) -> Result<Machine, AllocError>
        requires { member.0 < length (settled program.now) }
        ensures follows { IfOk result (λ m. Follows (settled program.now) m) }
        ensures member { IfOk result (λ m. m.member ≡ member) }
        ensures limit { IfOk result (λ m. m.limit ≡ limit) }
        ensures replies { IfOk result (λ m. m.replies.items ≡ []) }
        ensures ready { IfOk result (λ m. m.phase ≡ Phase.Ready) }
        ensures stays { IfOk result (λ m. m.stays ≡ false) }
    {
        let conts = first_sides(alloc, program, program.member(member.0 as usize))?;
        Ok(Machine {
            member,
            conts,
            phase: Phase::Ready,
            replies: Vec::new(alloc),
            limit,
            stays: false,
        })
    }

    /// Whether a question is open.
    pub fn awaits(&self) -> bool
        ensures { result ≡ is_awaiting self.now.phase }
    {
        matches!(self.phase, Phase::Asked(_))
    }

    /// On to the next question, or to the end; `answered` tells whether a question was answered just before.
    fn go_on(&mut self, alloc: Global, program: &Settled, answered: bool) -> Result<Ask, AllocError>
        requires spent { self.old.phase ≡ Phase.Spent }
        requires stays { self.old.stays ≡ false }
        requires at { IsAt (settled program.now) (member_tree (settled program.now) self.old.member.0) Phase.Ready self.old.conts.sides.items (given self.old) }
        requires within { Within Phase.Ready self.old.limit (length self.old.replies.items) }
        ensures follows { Follows (settled program.now) self.new }
        ensures told { IfOk result (λ ask. Told ask (walk (member_tree (settled program.now) self.new.member.0) (given self.new)) self.new.limit (length self.new.replies.items)) }
        ensures answered { OnOk result (EachAnswered (walk (member_tree (settled program.now) self.new.member.0) (given self.new)) (given self.new)) }
        ensures replies { self.new.replies.items ≡ self.old.replies.items }
        ensures member { self.new.member ≡ self.old.member }
        ensures limit { self.new.limit ≡ self.old.limit }
        ensures shows { IfOk result (λ ask. Shows self.new.phase self.new.limit ask) }
        ensures stays { IfOk result (λ ask. self.new.stays ≡ true → (answered ≡ true) × AsksOnTop (settled program.now) self.old.conts.sides.items ask) }
        ensures open { IfOk result (λ ask. IsOpen self.new.phase ask) }
        ensures err { OnErr result (self.new.phase ≡ Phase.Spent) }
    {
        match run(alloc, program, &mut self.conts)? {
            None => {
                self.phase = Phase::Passed;
                Ok(Ask::Done(Outcome::Passed))
            }
            Some(found) => {
                let Found { query, stays } = found;
                if self.replies.len() >= self.limit as usize {
                    self.phase = Phase::Limited(query);
                    return Ok(Ask::Done(Outcome::Limit { checks: self.limit }));
                }
                let kept = query.copy()?;
                self.stays = answered & stays;
                self.phase = Phase::Asked(kept);
                Ok(Ask::Check(query))
            }
        }
    }

    /// The open question was not refuted, and it is no probe.
    fn fail(&mut self, program: &Settled, query: Query, reply: Reply) -> Result<Ask, AllocError>
        requires spent { self.old.phase ≡ Phase.Spent }
        requires stays { self.old.stays ≡ false }
        requires kind { is_unsat reply ≡ false }
        requires probe { query.probe ≡ false }
        requires at { IsAt (settled program.now) (member_tree (settled program.now) self.old.member.0) (Phase.Asked query) self.old.conts.sides.items (given self.old) }
        ensures follows { Follows (settled program.now) self.new }
        ensures told { IfOk result (λ ask. Told ask (walk (member_tree (settled program.now) self.new.member.0) (given self.new)) self.new.limit (length self.new.replies.items)) }
        ensures answered { OnOk result (EachAnswered (walk (member_tree (settled program.now) self.new.member.0) (given self.new)) (given self.new)) }
        ensures replies { OnOk result (self.new.replies.items ≡ self.old.replies.items ++ reply ∷ []) }
        ensures member { self.new.member ≡ self.old.member }
        ensures limit { self.new.limit ≡ self.old.limit }
        ensures shows { IfOk result (λ ask. Shows self.new.phase self.new.limit ask) }
        ensures stays { IfOk result (λ _. self.new.stays ≡ false) }
        ensures open { IfOk result (λ ask. IsOpen self.new.phase ask) }
        ensures err { OnErr result (self.new.phase ≡ Phase.Spent) }
    {
        let _program = program;
        self.replies.push(reply)?;
        let place = query.place;
        let code = query.code;
        self.phase = Phase::Failed(place, code, reply);
        Ok(Ask::Done(Outcome::Failed { place, code, reply }))
    }

    /// The open question is answered.
    fn answer(
        &mut self,
        alloc: Global,
        program: &Settled,
        query: Query,
        reply: Reply,
    ) -> Result<Ask, AllocError>
        requires spent { self.old.phase ≡ Phase.Spent }
        requires stays { self.old.stays ≡ false }
        requires at { IsAt (settled program.now) (member_tree (settled program.now) self.old.member.0) (Phase.Asked query) self.old.conts.sides.items (given self.old) }
        requires within { Within (Phase.Asked query) self.old.limit (length self.old.replies.items) }
        requires goes_on { GoesOn (settled program.now) (Phase.Asked query) self.old.conts.sides.items }
        ensures follows { Follows (settled program.now) self.new }
        ensures told { IfOk result (λ ask. Told ask (walk (member_tree (settled program.now) self.new.member.0) (given self.new)) self.new.limit (length self.new.replies.items)) }
        ensures answered { OnOk result (EachAnswered (walk (member_tree (settled program.now) self.new.member.0) (given self.new)) (given self.new)) }
        ensures replies { OnOk result (self.new.replies.items ≡ self.old.replies.items ++ reply ∷ []) }
        ensures member { self.new.member ≡ self.old.member }
        ensures limit { self.new.limit ≡ self.old.limit }
        ensures shows { IfOk result (λ ask. Shows self.new.phase self.new.limit ask) }
        ensures stays { IfOk result (λ ask. self.new.stays ≡ true → Stays (Phase.Asked query) ask) }
        ensures open { IfOk result (λ ask. IsOpen self.new.phase ask) }
        ensures err { OnErr result (self.new.phase ≡ Phase.Spent) }
    {
        let refuted = is_refuted(reply);
        if query.probe {
            choose(&mut self.conts, refuted)?;
            self.replies.push(reply)?;
            return self.go_on(alloc, program, true);
        }
        if !refuted {
            return self.fail(program, query, reply);
        }
        self.replies.push(reply)?;
        self.go_on(alloc, program, true)
    }

    /// On to the next question, or to the end. A reply is given exactly where one is awaited, to the `Settled` that the
    /// machine was started with.
    ///
    /// # Errors
    /// Want of memory, and from then on always.
    pub fn next(
        &mut self,
        alloc: Global,
        program: &Settled,
        reply: Option<Reply>,
    ) -> Result<Ask, AllocError>
        requires awaited { is_awaiting self.old.phase ≡ is_some reply }
        requires follows { Follows (settled program.now) self.old }
        ensures follows { Follows (settled program.now) self.new }
        ensures told { IfOk result (λ ask. Told ask (walk (member_tree (settled program.now) self.new.member.0) (given self.new)) self.new.limit (length self.new.replies.items)) }
        ensures answered { OnOk result (EachAnswered (walk (member_tree (settled program.now) self.new.member.0) (given self.new)) (given self.new)) }
        ensures replies { OnOk result (self.new.replies.items ≡ self.old.replies.items ++ option_list reply) }
        ensures member { self.new.member ≡ self.old.member }
        ensures limit { self.new.limit ≡ self.old.limit }
        ensures shows { IfOk result (λ ask. Shows self.new.phase self.new.limit ask) }
        ensures stays { IfOk result (λ ask. self.new.stays ≡ true → Stays self.old.phase ask) }
        ensures open { IfOk result (λ ask. IsOpen self.new.phase ask) }
        ensures done { IfSome (outcome_of self.old.phase self.old.limit) (λ outcome. IsOkAnd result (λ ask. ask ≡ Ask.Done outcome)) }
        ensures spent { self.old.phase ≡ Phase.Spent → is_err result ≡ true }
        ensures err { OnErr result (self.new.phase ≡ Phase.Spent) }
    {
        let phase = mem::replace(&mut self.phase, Phase::Spent);
        self.stays = false;
        match phase {
            Phase::Ready => self.go_on(alloc, program, false),
            Phase::Asked(query) => match reply {
                Some(reply) => self.answer(alloc, program, query, reply),
                None => unreachable!(),
            },
            Phase::Limited(query) => {
                self.phase = Phase::Limited(query);
                Ok(Ask::Done(Outcome::Limit { checks: self.limit }))
            }
            Phase::Passed => {
                self.phase = Phase::Passed;
                Ok(Ask::Done(Outcome::Passed))
            }
            Phase::Failed(place, code, reply) => {
                self.phase = Phase::Failed(place, code, reply);
                Ok(Ask::Done(Outcome::Failed { place, code, reply }))
            }
            Phase::Spent => Err(AllocError),
        }
    }
}

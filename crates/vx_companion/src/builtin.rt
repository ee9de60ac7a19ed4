// The companion's link and its spawner.
ghost use Rattle.std.specs.Prelude.{◌≡◌, ℕ, ◌+◌, ◌≤◌, ◌==◌, ◌++◌, [], map, vec_len, vec_capacity, count_by, List, IfOk, OnOk, true, false};
ghost use Rattle.vx_ends.specs.Dialogue.{sent, got};
ghost use Rattle.vx_sexp.specs.Finished.{finished};
ghost use Rattle.cs_session.specs.declared.reply.Reply.{Reply};
ghost use Rattle.cs_session.specs.Answering.{Answering, told_cause};
ghost use Rattle.cs_session.specs.Replies.{Replies};
ghost use Rattle.cs_session.specs.Texts.{reply_text};
ghost use Rattle.cs_session.specs.Views.{state};
ghost use Rattle.vx_companion.specs.Companion.{KeepsUp, HasReplied, RepliesByCompanion, AllByCompanion};

use cs_answer::Cause;
use cs_session::{Reply, Session};
use std::alloc::{AllocError, Global};
use vx_ends::{Ending, Link, LinkFault, Parts, Record, Spawner, Start, StartFault, remove_once};
use vx_sexp::cut;

// Keeps why the reply is undecided, where it is.
fn keep_cause(session: &Session, reply: &Reply, causes: &mut Vec<Cause>) -> Result<(), AllocError>
    ensures { OnOk result (causes.new.items ≡ causes.old.items ++ told_cause reply.now (state session.now)) }
{
    match reply {
        Reply::Undecided => {
            if let Some(cause) = session.cause() {
                causes.push(cause.clone()?)?;
            }
            Ok(())
        }
        Reply::Success
        | Reply::Unsupported
        | Reply::Failed(_)
        | Reply::Sat
        | Reply::Unsat
        | Reply::Proof(_)
        | Reply::Closed => Ok(()),
    }
}

// Replies to the first command of some bytes.
fn reply(
    alloc: Global,
    session: &mut Session,
    replies: &mut Vec<u8>,
    causes: &mut Vec<Cause>,
    bytes: &[u8],
) -> Result<(), AllocError>
    ensures { OnOk result ((r : Reply) × Replies bytes.now (state session.old) r (state session.new) × (replies.new.items ≡ replies.old.items ++ reply_text r) × (causes.new.items ≡ causes.old.items ++ told_cause r (state session.new))) }
{
    let Ok(reply) = session.command(alloc, bytes) else {
        return Err(AllocError);
    };
    let line = reply.text();
    replies.extend_from_slice(line)?;
    keep_cause(session, &reply, causes)?;
    Ok(())
}

// Replies to each finished command that the bytes begin with, and gives what is left of them.
fn reply_all<'a>(
    alloc: Global,
    session: &mut Session,
    replies: &mut Vec<u8>,
    causes: &mut Vec<Cause>,
    bytes: &'a [u8],
) -> Result<&'a [u8], AllocError>
    ensures answering { IfOk result (λ rest. (all front : List ℕ) (before : List Cause) → Answering all (front ++ replies.old.items) bytes.now (before ++ causes.old.items) (state session.old)
        → Answering all (front ++ replies.new.items) rest.now (before ++ causes.new.items) (state session.new)) }
    ensures keeps_up { IfOk result (λ rest. (all front : List ℕ) → KeepsUp all bytes.now (front ++ replies.old.items) → KeepsUp all rest.now (front ++ replies.new.items)) }
    ensures none_left { IfOk result (λ rest. finished rest.now ≡ 0) }
{
    let mut rest = bytes;
    'commands: loop {
        let taken = match cut(rest) {
            Ok(taken) => taken,
            Err(_fault) => return Ok(rest),
        };
        reply(alloc, session, replies, causes, rest)?;
        let (_command, more) = rest.split_at(taken);
        rest = more;
    }
}

/// The link to a companion: its session answers each finished command of what is sent. After want of memory all is
/// want of memory.
#[derive(Drop)]
pub struct CompanionLink {
    session: Session,
    // what was sent and isn't finished yet
    unread: Vec<u8>,
    // replies that were not got yet
    replies: Vec<u8>,
    // why replies were undecided, those that were not got too
    causes: Vec<Cause>,
    pieces: Record,
    faults: u64,
    // memory ran out in the midst of a command
    is_spent: bool,
    ghost owed: { is_spent ≡ false → finished (sent pieces) ≤ finished (got pieces ++ replies.items) },
    ghost keeps_up: { is_spent ≡ false → KeepsUp (sent pieces) unread.items (got pieces ++ replies.items) },
    ghost replied: { is_spent ≡ false → ∥ HasReplied pieces replies.items unread.items causes.items (state session) ∥₁ },
    ghost right: { RepliesByCompanion pieces causes.items },
}

impl CompanionLink {
    fn new(alloc: Global) -> CompanionLink
        ensures dialogue { result.pieces ≡ [] }
        ensures faults { result.faults ≡ 0 }
    {
        CompanionLink {
            session: Session::new(alloc),
            unread: Vec::new(alloc),
            replies: Vec::new(alloc),
            causes: Vec::new(alloc),
            pieces: Record::new(alloc),
            faults: 0,
            is_spent: false,
        }
    }

    /// Why its replies so far were undecided, one cause for each of these replies, in order; those that were not got yet too.
    pub fn causes(&self) -> &[Cause]
        ensures by_companion { RepliesByCompanion self.now.pieces result.now }
    {
        &self.causes
    }
}

impl Link for CompanionLink {
    ghost dialogue = { λ l. l.pieces };

    ghost faults = { λ l. l.faults };

    ghost steady = { λ _. true };

    fn send(&mut self, alloc: Global, piece: &[u8]) -> Result<usize, LinkFault> {
        if self.faults > 0 {
            self.faults = self.faults.saturating_add(1);
            return Err(LinkFault::Failed);
        }
        if self.is_spent {
            return Err(LinkFault::Want);
        }
        self.is_spent = true;
        self.unread.extend_from_slice(piece)?;
        let mut causes = Vec::new(alloc);
        let rest = reply_all(
            alloc,
            &mut self.session,
            &mut self.replies,
            &mut causes,
            &self.unread,
        )?;
        self.unread = rest.to_vec(alloc)?;
        self.causes.reserve(causes.len())?;
        self.pieces.push_sent(piece)?;
        match self.causes.append(&mut causes) {
            Ok(()) => {}
            Err(_) => unreachable!(),
        }
        self.is_spent = false;
        Ok(piece.len())
    }

    fn receive(&mut self, alloc: Global, max: usize) -> Result<Vec<u8>, LinkFault> {
        if self.faults > 0 {
            self.faults = self.faults.saturating_add(1);
            return Err(LinkFault::Failed);
        }
        if self.is_spent {
            return Err(LinkFault::Want);
        }
        if self.replies.is_empty() {
            self.faults = 1;
            return Err(LinkFault::Failed);
        }
        let count = self.replies.len().min(max);
        let (front, back) = self.replies.split_at(count);
        let piece = front.to_vec(alloc)?;
        let rest = back.to_vec(alloc)?;
        self.pieces.push_got(front)?;
        self.replies = rest;
        Ok(piece)
    }
}

/// A link that was handed back: what is kept of any link, and why its replies were undecided, one cause for each of these
/// replies, in order.
pub struct EndedLink {
    pub ending: Ending,
    pub causes: Vec<Cause>,
    ghost right: { RepliesByCompanion ending.dialogue causes.items },
}

impl Drop for EndedLink {
    fn drop(self) {
        let Self { ending, causes } = self;
    }
}

/// Starts companions. Its command is the one word `builtin`.
pub struct Builtin {
    starts: Vec<Start>,
    // the lane of each link that is out
    lanes_out: Vec<u32>,
    ended: Vec<EndedLink>,
    ghost room: { vec_len ended + vec_len lanes_out ≤ vec_capacity ended },
}

impl Drop for Builtin {
    fn drop(self) {
        let Self {
            starts,
            lanes_out,
            ended,
        } = self;
    }
}

impl Builtin {
    /// Nothing is started yet. No memory.
    pub fn new(alloc: Global) -> Builtin
        ensures starts { result.starts.items ≡ [] }
        ensures out { result.lanes_out.items ≡ [] }
        ensures ended { result.ended.items ≡ [] }
    {
        Builtin {
            starts: Vec::new(alloc),
            lanes_out: Vec::new(alloc),
            ended: Vec::new(alloc),
        }
    }

    /// The links that were handed back, in order.
    pub fn ended_links(&self) -> &[EndedLink]
        ensures links { result.now ≡ self.now.ended.items }
        ensures by_companion { AllByCompanion (map (λ l. l.ending) result.now) (map (λ l. l.causes.items) result.now) }
    {
        &self.ended
    }
}

impl Spawner for Builtin {
    type Link = CompanionLink;

    ghost starts = { λ s. s.starts.items };

    ghost owed = { λ s lane. count_by (λ other. other == lane) s.lanes_out.items };

    ghost ended = { λ s. map (λ l. l.ending) s.ended.items };

    ghost faults = { λ _. 0 };

    ghost steady = { λ _. true };

    fn start(
        &mut self,
        alloc: Global,
        lane: u32,
        command: &Parts,
    ) -> Result<CompanionLink, StartFault> {
        let kept = command.copy(alloc)?;
        self.lanes_out.reserve(1)?;
        let room = self.lanes_out.len() + 1;
        self.ended.reserve(room)?;
        self.starts.push(Start {
            lane,
            command: kept,
        })?;
        match self.lanes_out.push(lane) {
            Ok(()) => Ok(CompanionLink::new(alloc)),
            Err(_) => unreachable!(),
        }
    }

    fn finish(&mut self, lane: u32, link: CompanionLink) {
        remove_once(&mut self.lanes_out, lane);
        let CompanionLink {
            session: _,
            unread: _,
            replies: _,
            causes,
            pieces,
            faults,
            is_spent: _,
        } = link;
        let ending = Ending {
            lane,
            dialogue: pieces,
            faults,
        };
        match self.ended.push(EndedLink { ending, causes }) {
            Ok(()) => {}
            Err(_) => unreachable!(),
        }
    }

    // The companion computes where its reply is received: none is there before.
    fn is_ready(&self, _lane: u32) -> bool {
        false
    }

    fn wait(&self) {}
}

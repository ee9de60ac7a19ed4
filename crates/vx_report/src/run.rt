//! What became of a member.

use vx_ast::{MemberId, Place};
use vx_ends::Bytes;
use vx_rules::{Code, Reply};

/// Why a member has no verdict of its own.
pub enum Cause {
    /// The pipe to its child failed.
    Pipe,
    /// Its child could not be started.
    Start,
    /// Its lane's child was lost before, and no further one is started.
    Spent,
    /// The last bytes got, of which at most 4,096 are kept, are no lawful reply to the command they answer.
    Reply(Bytes),
}

impl Drop for Cause {
    fn drop(self) {
        match self {
            Cause::Pipe | Cause::Start | Cause::Spent => {}
            Cause::Reply(_kept) => {}
        }
    }
}

/// A member's verdict.
pub enum Verdict {
    /// Its walk passed, and the walks of all members that it leads to.
    Verified,
    /// The condition at the place was asked and not refuted.
    Failed {
        place: Place,
        code: Code,
        reply: Reply,
    },
    /// Its walk passed; of the members that it leads to, this is the first in file order whose walk didn't.
    Rests(MemberId),
    /// 100,000 checks were answered, and a further one was due.
    Limit,
    Fault(Cause),
}

impl Drop for Verdict {
    fn drop(self) {
        match self {
            Verdict::Verified | Verdict::Limit => {}
            Verdict::Failed {
                place: _place,
                code: _code,
                reply: _reply,
            } => {}
            Verdict::Rests(_member) => {}
            Verdict::Fault(_cause) => {}
        }
    }
}

/// A member with its checks: `first` to `first + checks - 1`, counted from 0, of the dialogue of the child numbered
/// `child`, counted from 0, of its lane.
pub struct MemberRun {
    pub member: MemberId,
    pub lane: u32,
    pub child: u32,
    pub first: u64,
    pub checks: u32,
    pub verdict: Verdict,
}

impl Drop for MemberRun {
    fn drop(self) {
        let Self {
            member,
            lane,
            child,
            first,
            checks,
            verdict,
        } = self;
    }
}

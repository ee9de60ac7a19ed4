//! The exit status.

ghost use Rattle.std.specs.Prelude.{◌≡◌};
ghost use Rattle.vx_report.specs.Statuses.{status_number, status_among};

use crate::{MemberRun, Verdict};

/// How the program ends.
#[derive(Clone, Copy)]
pub enum Status {
    /// All lines are verified, or the command is done.
    Done,
    /// Some member failed, rests or is limited, and none faulted.
    NotVerified,
    /// The words are no command.
    Usage,
    /// The text can't be read, or is too long.
    Unread,
    /// The text is refused.
    Refused,
    /// Some member faulted.
    Faulted,
    /// The sink failed.
    Unwritten,
    /// Memory ran out.
    Want,
}

impl Status {
    /// The process's exit status.
    pub fn number(self) -> u8
        ensures { result ≡ status_number self }
    {
        match self {
            Status::Done => 0,
            Status::NotVerified => 1,
            Status::Usage => 2,
            Status::Unread => 3,
            Status::Refused => 4,
            Status::Faulted => 5,
            Status::Unwritten => 6,
            Status::Want => 7,
        }
    }
}

/// The choice among faulted, not verified and done. No memory.
pub fn status_of(runs: &[MemberRun]) -> Status
    ensures { result ≡ status_among runs.now }
{
    let mut status = Status::Done;
    for run in runs {
        match run.verdict {
            Verdict::Verified => {}
            Verdict::Failed { .. } | Verdict::Rests(_) | Verdict::Limit => {
                status = Status::NotVerified;
            }
            Verdict::Fault(_) => return Status::Faulted,
        }
    }
    status
}

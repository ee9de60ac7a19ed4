//! What bytes say to a session.
ghost use Rattle.std.specs.Prelude.{◌≡◌, IfOk, OnErr, Some, None};
ghost use Rattle.vx_smt_meaning.specs.Views.{command};
ghost use Rattle.cs_commands.specs.Understanding.{Understands};
ghost use Rattle.cs_commands.specs.Laws.{scope_of};
ghost use Rattle.cs_session.specs.Adding.{MayAdd};
ghost use Rattle.cs_commands.specs.declared.fault.Fault.TheVariants as faults;
ghost use Rattle.cs_session.specs.Replies.{answer_to};
ghost use Rattle.cs_session.specs.Views.{levels_of};

use crate::levels::Levels;
use crate::reply::{Complaint, Reply};
use cs_commands::{
    CommandFault, Fault, Live, understood_in_any_order, understood_is_sorted, understood_may_follow,
};
use cs_proof::Want;
use std::alloc::Global;
use vx_smt_meaning::Command;

/// The command that the bytes are, over what is declared on the levels.
///
/// # Errors
/// Why they are none, or want of memory.
pub fn understand(alloc: Global, levels: &Levels, bytes: &[u8]) -> Result<Command, Fault>
    ensures meant { Understands (scope_of (levels_of levels.now)) bytes.now result }
    ensures fits { IfOk result (λ c. MayAdd (levels_of levels.now) (command c)) }
{
    understood_in_any_order();
    understood_is_sorted();
    understood_may_follow();
    let symbols = levels.symbols();
    let live = Live {
        symbols: &symbols,
        sorts: levels.sorts(),
    };
    cs_commands::understand(alloc, &live, bytes)
}

fn complaint(fault: CommandFault) -> Result<Reply, Want>
    ensures answered { IfOk result (λ r. answer_to (faults.Command fault) ≡ Some r) }
    ensures want { OnErr result (answer_to (faults.Command fault) ≡ None) }
{
    match fault {
        CommandFault::Name => Ok(Reply::Failed(Complaint::Name)),
        CommandFault::Wide => Ok(Reply::Failed(Complaint::Wide)),
        CommandFault::Sort => Ok(Reply::Failed(Complaint::Sort)),
        CommandFault::Levels => Ok(Reply::Failed(Complaint::Levels)),
        CommandFault::Unsupported => Ok(Reply::Unsupported),
        CommandFault::Want => Err(Want),
    }
}

/// What is answered to bytes that are no command.
///
/// # Errors
/// Want of memory is answered by itself.
pub fn answer_to(fault: Fault) -> Result<Reply, Want>
    ensures answered { IfOk result (λ r. answer_to fault ≡ Some r) }
    ensures want { OnErr result (answer_to fault ≡ None) }
{
    match fault {
        Fault::Unfinished => Ok(Reply::Failed(Complaint::Unfinished)),
        Fault::BadToken => Ok(Reply::Failed(Complaint::BadToken)),
        Fault::Deep => Ok(Reply::Failed(Complaint::Deep)),
        Fault::Command(fault) => complaint(fault),
    }
}

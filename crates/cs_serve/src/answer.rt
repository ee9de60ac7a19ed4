// Answers to the commands that are finished.
ghost use Rattle.std.specs.Prelude.{◌≡◌, ℕ, ◌≤◌, ◌<◌, Bool, false, List, [], ◌++◌, length, drop, Option, OnOk, IfOk, IfErr, Err};
ghost use Rattle.vx_sexp.specs.Beginnings.{IsBeginning};
ghost use Rattle.vx_sexp.specs.Pieces.{Reached};
ghost use Rattle.vx_ends.specs.Causes.{HasCause};
ghost use Rattle.vx_ends.specs.Talks.{SaysSome};
ghost use Rattle.vx_ends.specs.declared.piece.Piece.{Piece};
ghost use Rattle.cs_session.specs.Views.{state};
ghost use Rattle.cs_session.specs.Answering.{EndsAt};
ghost use Rattle.cs_serve.specs.Serving.{is_last};
ghost use Rattle.cs_serve.specs.Working.{Before, IsAt, Stops, HasStopped, IsStillBut};

use crate::Ending;
use crate::bytes::behind;
use crate::next::{Next, find_next};
use cs_session::{Reply, Session};
use std::alloc::Global;
use vx_ends::{Duplex, PutFault, say_all};
use vx_sexp::Reading;

fn is_last(reply: &Reply) -> bool
    ensures { result ≡ is_last reply.now }
{
    match reply {
        Reply::Success => false,
        Reply::Unsupported => false,
        Reply::Failed(_) => false,
        Reply::Sat => false,
        Reply::Unsat => false,
        Reply::Undecided => false,
        Reply::Proof(_) => false,
        Reply::Closed => true,
    }
}

/// Puts all of a text.
pub fn put_text<D: Duplex>(ends: &mut D, text: &[u8]) -> Result<(), Ending>
    ensures says { SaysSome text.now (D.taken ends.old) (D.taken ends.new) (D.dialogue ends.old) (D.dialogue ends.new) result }
    ensures cause { HasCause Ending.SinkFailed (D.put_faults ends.old) (D.put_faults ends.new) result }
    ensures still { OnOk result (D.put_faults ends.new ≡ D.put_faults ends.old) }
    ensures only { IfErr result (λ e. e ≡ Ending.SinkFailed) }
    ensures given { D.given ends.new ≡ D.given ends.old }
    ensures end { D.at_end ends.new ≡ D.at_end ends.old }
    ensures reads { D.read_faults ends.new ≡ D.read_faults ends.old }
    ensures names { D.names ends.new ≡ D.names ends.old }
{
    match say_all(ends, text) {
        Ok(()) => Ok(()),
        Err(PutFault::Failed) => Err(Ending::SinkFailed),
    }
}

// Answers the first command of some bytes, and says whether it was `exit`. The answer is due then.
fn answer(
    alloc: Global,
    session: &mut Session,
    due: &mut Vec<u8>,
    left: &[u8],
) -> Result<bool, Ending>
    ensures goes { (before : Before) (given taken : Option (List ℕ)) (talk : Option (List Piece)) (total n : ℕ) → EndsAt n left.now
        → IsAt before given taken talk due.old.items total left.now (state session.old) false
        → IfOk result (λ over. IsAt before given taken talk due.new.items total (drop n left.now) (state session.new) over) }
    ensures stops { (before : Before) (given taken : Option (List ℕ)) (talk : Option (List Piece)) (total : ℕ)
        → IsAt before given taken talk due.old.items total left.now (state session.old) false
        → IfErr result (λ e. (at_end : Bool) → Stops e before given taken talk due.new.items at_end) }
    ensures only { IfErr result (λ e. e ≡ Ending.Want) }
{
    let Ok(reply) = session.command(alloc, left) else {
        return Err(Ending::Want);
    };
    match due.extend_from_slice(reply.text()) {
        Ok(()) => Ok(is_last(&reply)),
        Err(_) => Err(Ending::Want),
    }
}

// Answers the commands that are finished at the front of some bytes, and says how many bytes they take. The answers are due then.
fn answer_all(
    alloc: Global,
    session: &mut Session,
    reading: &mut Reading,
    due: &mut Vec<u8>,
    bytes: &[u8],
) -> Result<usize, Ending>
    requires { Reached reading.old bytes.now }
    ensures within { IfOk result (λ at. at ≤ length bytes.now) }
    ensures waits { IfOk result (λ at. IsBeginning (drop at bytes.now)) }
    ensures reached { IfOk result (λ at. (more : List ℕ) → Reached reading.new (drop at bytes.now ++ more)) }
    ensures goes { (before : Before) (given taken : Option (List ℕ)) (talk : Option (List Piece)) (total : ℕ)
        → IsAt before given taken talk due.old.items total bytes.now (state session.old) false
        → IfOk result (λ at. IsAt before given taken talk due.new.items total (drop at bytes.now) (state session.new) false) }
    ensures stops { (before : Before) (given taken : Option (List ℕ)) (talk : Option (List Piece)) (total : ℕ)
        → IsAt before given taken talk due.old.items total bytes.now (state session.old) false
        → IfErr result (λ e. (at_end : Bool) → Stops e before given taken talk due.new.items at_end) }
    ensures other { (result ≡ Err Ending.SourceFailed → ⊥) × (result ≡ Err Ending.SinkFailed → ⊥) }
{
    let mut at = 0;
    'commands: loop {
        let left = behind(bytes, at);
        match find_next(reading, left) {
            Next::Ends(count) => {
                let over = answer(alloc, session, due, left)?;
                if over {
                    return Err(Ending::Exited);
                }
                at += count;
            }
            Next::Waits => return Ok(at),
            Next::Bad => return Err(Ending::BadToken),
        }
    }
}

/// Answers the commands that are finished at the front of some bytes, puts all the answers at once, and says how many bytes
/// the commands take.
pub fn put_answers<D: Duplex>(
    alloc: Global,
    session: &mut Session,
    reading: &mut Reading,
    ends: &mut D,
    bytes: &[u8],
) -> Result<usize, Ending>
    requires { Reached reading.old bytes.now }
    ensures within { IfOk result (λ at. at ≤ length bytes.now) }
    ensures waits { IfOk result (λ at. IsBeginning (drop at bytes.now)) }
    ensures reached { IfOk result (λ at. (more : List ℕ) → Reached reading.new (drop at bytes.now ++ more)) }
    ensures goes { (before : Before) (given : Option (List ℕ)) (total : ℕ)
        → IsAt before given (D.taken ends.old) (D.dialogue ends.old) [] total bytes.now (state session.old) false
        → IfOk result (λ at. IsAt before given (D.taken ends.new) (D.dialogue ends.new) [] total (drop at bytes.now) (state session.new) false) }
    ensures stops { (before : Before) (given : Option (List ℕ)) (total : ℕ)
        → IsAt before given (D.taken ends.old) (D.dialogue ends.old) [] total bytes.now (state session.old) false
        → IfErr result (λ e. (at_end : Bool) → HasStopped e before given (D.taken ends.new) (D.dialogue ends.new) at_end) }
    ensures cause { HasCause Ending.SinkFailed (D.put_faults ends.old) (D.put_faults ends.new) result }
    ensures still { IsStillBut Ending.SinkFailed (D.put_faults ends.old) (D.put_faults ends.new) result }
    ensures other { result ≡ Err Ending.SourceFailed → ⊥ }
    ensures given { D.given ends.new ≡ D.given ends.old }
    ensures end { D.at_end ends.new ≡ D.at_end ends.old }
    ensures reads { D.read_faults ends.new ≡ D.read_faults ends.old }
    ensures names { D.names ends.new ≡ D.names ends.old }
{
    let mut due = Vec::new(alloc);
    let answered = answer_all(alloc, session, reading, &mut due, bytes);
    put_text(ends, &due)?;
    answered
}

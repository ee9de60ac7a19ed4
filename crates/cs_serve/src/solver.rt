// A solver at work.
ghost use Rattle.std.specs.Prelude.{◌≡◌, ◌≢◌, ℕ, ◌<◌, ◌≤◌, ◌⊎◌, Bool, true, false, List, [], ◌++◌, Option, Some, IsSomeAnd, Ok, Err, OnOk, IfErr};
ghost use Rattle.vx_sexp.specs.Beginnings.{IsBeginning};
ghost use Rattle.vx_sexp.specs.Pieces.{Reached};
ghost use Rattle.vx_ends.specs.Causes.{HasCause, Rose};
ghost use Rattle.vx_ends.specs.declared.piece.Piece.{Piece};
ghost use Rattle.cs_session.specs.Views.{state};
ghost use Rattle.cs_serve.specs.declared.ending.Ending.{Ending};
ghost use Rattle.cs_serve.specs.Endings.{status};
ghost use Rattle.cs_session.specs.Answering.{start};
ghost use Rattle.cs_serve.specs.Serving.{most, IsDue, HasEnded, IsInTurn};
ghost use Rattle.cs_serve.specs.Working.{Before, Stands, HasStopped, IsCaused, IsStill, IsStillBut, IsToldInTurn};

use crate::Ending;
use crate::answer::{put_answers, put_text};
use crate::bytes::drop_front;
use crate::space::is_space;
use cs_session::Session;
use std::alloc::Global;
use vx_ends::{Duplex, MoreFault, Pair, Sink, Source};
use vx_sexp::Reading;

/// So many bytes are read at most.
const MOST: usize = 1_073_741_824;

/// So many are read at once.
const PIECE: usize = 65_536;

/// A session, how far its next command is read, the bytes that are left, and how many were read in all.
#[derive(Drop)]
pub struct Solver {
    session: Session,
    reading: Reading,
    left: Vec<u8>,
    total: usize,
}

// how it ends where the input has, and no command is finished
fn ending_at(left: &[u8]) -> Ending
    ensures due { (all : List ℕ) → IsBeginning left.now → IsDue result all left.now false true }
    ensures other { (result ≡ Ending.SourceFailed → ⊥) × (result ≡ Ending.SinkFailed → ⊥) }
{
    if is_space(left) {
        Ending::Exhausted
    } else {
        Ending::Unfinished
    }
}

// Puts what ends the answers.
fn take_leave<D: Duplex>(ends: &mut D, ending: Ending) -> Ending
    ensures ends { (before : Before) (given : Option (List ℕ)) (at_end : Bool)
        → HasStopped ending before given (D.taken ends.old) (D.dialogue ends.old) at_end
        → HasEnded result before.taken given (D.taken ends.new) at_end × IsToldInTurn before (D.dialogue ends.new) }
    ensures source { result ≡ Ending.SourceFailed → ending ≡ Ending.SourceFailed }
    ensures sink { (from : ℕ) → IsCaused Ending.SinkFailed ending from (D.put_faults ends.old) → IsCaused Ending.SinkFailed result from (D.put_faults ends.new) }
    ensures still { (from : ℕ) → IsStill Ending.SinkFailed ending from (D.put_faults ends.old) → IsStill Ending.SinkFailed result from (D.put_faults ends.new) }
    ensures given { D.given ends.new ≡ D.given ends.old }
    ensures end { D.at_end ends.new ≡ D.at_end ends.old }
    ensures reads { D.read_faults ends.new ≡ D.read_faults ends.old }
    ensures names { D.names ends.new ≡ D.names ends.old }
{
    match put_text(ends, ending.farewell().as_bytes()) {
        Ok(()) => ending,
        Err(_) => Ending::SinkFailed,
    }
}

impl Solver {
    fn new(alloc: Global) -> Solver
        ensures begins { (before : Before) (talk : Option (List Piece)) → (before.told ≡ true → talk ≡ Some []) → Stands before (Some []) (Some before.taken) talk result }
        ensures reached { Reached result.reading result.left.items }
        ensures low { result.total ≤ most }
    {
        Solver {
            session: Session::new(alloc),
            reading: Reading::new(),
            left: Vec::new(alloc),
            total: 0,
        }
    }

    // Answers the commands that are finished, and puts the answers; the commands are gone then.
    fn answer_all<D: Duplex>(&mut self, alloc: Global, ends: &mut D) -> Result<(), Ending>
        requires { Reached self.old.reading self.old.left.items }
        ensures waits { OnOk result (IsBeginning self.new.left.items) }
        ensures reached { OnOk result ((more : List ℕ) → Reached self.new.reading (self.new.left.items ++ more)) }
        ensures goes { (before : Before) (given : Option (List ℕ))
            → Stands before given (D.taken ends.old) (D.dialogue ends.old) self.old
            → OnOk result (Stands before given (D.taken ends.new) (D.dialogue ends.new) self.new) }
        ensures stops { (before : Before) (given : Option (List ℕ))
            → Stands before given (D.taken ends.old) (D.dialogue ends.old) self.old
            → IfErr result (λ e. (at_end : Bool) → HasStopped e before given (D.taken ends.new) (D.dialogue ends.new) at_end) }
        ensures total { self.new.total ≡ self.old.total }
        ensures cause { HasCause Ending.SinkFailed (D.put_faults ends.old) (D.put_faults ends.new) result }
        ensures still { IsStillBut Ending.SinkFailed (D.put_faults ends.old) (D.put_faults ends.new) result }
        ensures other { result ≡ Err Ending.SourceFailed → ⊥ }
        ensures given { D.given ends.new ≡ D.given ends.old }
        ensures end { D.at_end ends.new ≡ D.at_end ends.old }
        ensures reads { D.read_faults ends.new ≡ D.read_faults ends.old }
        ensures names { D.names ends.new ≡ D.names ends.old }
    {
        let at = put_answers(
            alloc,
            &mut self.session,
            &mut self.reading,
            ends,
            &self.left,
        )?;
        drop_front(&mut self.left, at);
        Ok(())
    }

    // Receives the next bytes, and says whether the input is at its end.
    fn receive<D: Duplex>(&mut self, alloc: Global, ends: &mut D) -> Result<bool, Ending>
        requires low { self.old.total < most }
        requires waits { IsBeginning self.old.left.items }
        ensures goes { (before : Before)
            → Stands before (D.given ends.old) (D.taken ends.old) (D.dialogue ends.old) self.old
            → OnOk result (Stands before (D.given ends.new) (D.taken ends.new) (D.dialogue ends.new) self.new) }
        ensures stops { (before : Before)
            → Stands before (D.given ends.old) (D.taken ends.old) (D.dialogue ends.old) self.old
            → IfErr result (λ e. HasStopped e before (D.given ends.new) (D.taken ends.new) (D.dialogue ends.new) (D.at_end ends.new)) }
        ensures end { result ≡ Ok true → (D.at_end ends.new ≡ true) × (self.new.left.items ≡ self.old.left.items) }
        ensures more { OnOk result ((more : List ℕ) × (self.new.left.items ≡ self.old.left.items ++ more)) }
        ensures reading { self.new.reading ≡ self.old.reading }
        ensures later { result ≡ Ok false → self.old.total < self.new.total }
        ensures goes_on { result ≡ Ok false → D.at_end ends.new ≡ D.at_end ends.old }
        ensures failed { result ≡ Err Ending.SourceFailed → D.at_end ends.new ≡ D.at_end ends.old }
        ensures low { self.new.total ≤ most }
        ensures cause { HasCause Ending.SourceFailed (D.read_faults ends.old) (D.read_faults ends.new) result }
        ensures other { result ≡ Err Ending.SinkFailed → ⊥ }
        ensures puts { D.put_faults ends.new ≡ D.put_faults ends.old }
        ensures names { D.names ends.new ≡ D.names ends.old }
    {
        let max = PIECE.min(MOST - self.total);
        let piece = match ends.more(alloc, max) {
            Ok(piece) => piece,
            Err(MoreFault::Failed) => return Err(Ending::SourceFailed),
            Err(MoreFault::Want) => return Err(Ending::Want),
        };
        if self.left.extend_from_slice(&piece).is_err() {
            return Err(Ending::Want);
        }
        self.total += piece.len();
        Ok(piece.is_empty())
    }

    // Answers what is finished, and then receives more.
    fn turn<D: Duplex>(&mut self, alloc: Global, ends: &mut D) -> Result<(), Ending>
        requires reached { Reached self.old.reading self.old.left.items }
        requires low { self.old.total ≤ most }
        ensures goes { (before : Before)
            → Stands before (D.given ends.old) (D.taken ends.old) (D.dialogue ends.old) self.old
            → OnOk result (Stands before (D.given ends.new) (D.taken ends.new) (D.dialogue ends.new) self.new) }
        ensures stops { (before : Before)
            → Stands before (D.given ends.old) (D.taken ends.old) (D.dialogue ends.old) self.old
            → IfErr result (λ e. HasStopped e before (D.given ends.new) (D.taken ends.new) (D.dialogue ends.new) (D.at_end ends.new)) }
        ensures reached { OnOk result (Reached self.new.reading self.new.left.items) }
        ensures later { OnOk result (self.old.total < self.new.total) }
        ensures low { self.new.total ≤ most }
        ensures source { HasCause Ending.SourceFailed (D.read_faults ends.old) (D.read_faults ends.new) result }
        ensures sink { HasCause Ending.SinkFailed (D.put_faults ends.old) (D.put_faults ends.new) result }
        ensures still { IsStillBut Ending.SinkFailed (D.put_faults ends.old) (D.put_faults ends.new) result }
        ensures goes_on { OnOk result (D.at_end ends.new ≡ D.at_end ends.old) }
        ensures failed { result ≡ Err Ending.SourceFailed → D.at_end ends.new ≡ D.at_end ends.old }
        ensures names { D.names ends.new ≡ D.names ends.old }
    {
        self.answer_all(alloc, ends)?;
        if self.total == MOST {
            return Err(Ending::TooLong);
        }
        let ended = self.receive(alloc, ends)?;
        if ended {
            return Err(ending_at(&self.left));
        }
        Ok(())
    }

    // Answers the commands of the input, up to `exit` or the end.
    fn run<D: Duplex>(&mut self, alloc: Global, ends: &mut D) -> Ending
        requires reached { Reached self.old.reading self.old.left.items }
        requires low { self.old.total ≤ most }
        ensures stops { (before : Before)
            → Stands before (D.given ends.old) (D.taken ends.old) (D.dialogue ends.old) self.old
            → HasStopped result before (D.given ends.new) (D.taken ends.new) (D.dialogue ends.new) (D.at_end ends.new) }
        ensures source { IsCaused Ending.SourceFailed result (D.read_faults ends.old) (D.read_faults ends.new) }
        ensures sink { IsCaused Ending.SinkFailed result (D.put_faults ends.old) (D.put_faults ends.new) }
        ensures still { IsStill Ending.SinkFailed result (D.put_faults ends.old) (D.put_faults ends.new) }
        ensures failed { result ≡ Ending.SourceFailed → D.at_end ends.new ≡ D.at_end ends.old }
        ensures names { D.names ends.new ≡ D.names ends.old }
    {
        'pieces: loop {
            match self.turn(alloc, ends) {
                Ok(()) => {}
                Err(ending) => return ending,
            }
        }
    }
}

/// Serves the commands that are read from one end, up to `exit` or the end of the input, answers at the other end, and gives
/// the status.
///
/// # Errors
/// 1 where no command goes on from what is left, or the input ends within one; 3 where a read failed; 4 where 1,073,741,824
/// bytes are read and no command is finished; 6 where a put failed; 7 for want of memory. Each command that is finished is
/// answered, and its answer put, before more is read.
pub fn serve_both<D: Duplex>(alloc: Global, ends: &mut D) -> u8
    ensures answers { (before : List ℕ) → D.given ends.old ≡ Some [] → D.taken ends.old ≡ Some before
        → (e : Ending) × (status e ≡ result) × HasEnded e before (D.given ends.new) (D.taken ends.new) (D.at_end ends.new) }
    ensures in_turn { (before : List ℕ) → D.given ends.old ≡ Some [] → D.taken ends.old ≡ Some before → D.dialogue ends.old ≡ Some []
        → IsSomeAnd (D.dialogue ends.new) IsInTurn }
    ensures source { result ≡ 3 → Rose (D.read_faults ends.old) (D.read_faults ends.new) }
    ensures within { result ≡ 3 → D.at_end ends.new ≡ D.at_end ends.old }
    ensures sink { result ≡ 6 → Rose (D.put_faults ends.old) (D.put_faults ends.new) }
    ensures no_fault { result ≢ 6 → D.put_faults ends.new ≡ D.put_faults ends.old }
    ensures names { D.names ends.new ≡ D.names ends.old }
{
    let mut solver = Solver::new(alloc);
    let ending = solver.run(alloc, ends);
    take_leave(ends, ending).status()
}

/// Serves the commands of a source, up to `exit` or the end, and gives the status, as `serve_both` does.
pub fn serve<I: Source, K: Sink>(alloc: Global, input: &mut I, out: &mut K) -> u8
    ensures answers { (before : List ℕ) → I.given input.old ≡ Some [] → K.taken out.old ≡ Some before
        → (e : Ending) × (status e ≡ result) × HasEnded e before (I.given input.new) (K.taken out.new) (I.at_end input.new) }
    ensures source { result ≡ 3 → Rose (I.faults input.old) (I.faults input.new) }
    ensures within { result ≡ 3 → I.at_end input.new ≡ I.at_end input.old }
    ensures sink { result ≡ 6 → Rose (K.faults out.old) (K.faults out.new) }
    ensures no_fault { result ≢ 6 → K.faults out.new ≡ K.faults out.old }
{
    let mut ends = Pair { input, out };
    serve_both(alloc, &mut ends)
}

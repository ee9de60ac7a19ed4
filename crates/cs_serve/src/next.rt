// Where the first s-expression of what is left ends.
ghost use Rattle.std.specs.Prelude.{◌≡◌, ℕ, ◌<◌, List};
ghost use Rattle.vx_sexp.specs.Pieces.{Reached};
ghost use Rattle.cs_serve.specs.Next.{IsNext, IsReady};

use vx_sexp::{Reading, SexpFault, cut};

/// What is known of bytes that are left.
#[derive(Clone, Copy)]
pub enum Next {
    /// Their first s-expression takes so many.
    Ends(usize),
    /// It isn't finished: more bytes are wanted.
    Waits,
    /// No s-expression goes on from them.
    Bad,
}

// by a walk from the first byte on, at any depth
fn next_by_cut(left: &[u8]) -> Next
    ensures { IsNext result left.now }
{
    match cut(left) {
        Ok(end) => Next::Ends(end),
        Err(SexpFault::Unfinished(_)) => Next::Waits,
        Err(SexpFault::BadToken(_)) => Next::Bad,
        Err(SexpFault::Deep(_)) => unreachable!(),
        Err(SexpFault::Want) => unreachable!(),
    }
}

/// What is known of bytes of which the first were looked at before. No memory.
pub fn find_next(reading: &mut Reading, left: &[u8]) -> Next
    requires { Reached reading.old left.now }
    ensures next { IsNext result left.now }
    ensures ready { IsReady result reading.new left.now }
{
    match reading.go_on(left) {
        Ok(end) => {
            *reading = Reading::new();
            Next::Ends(end)
        }
        Err(SexpFault::Unfinished(_)) => Next::Waits,
        Err(SexpFault::BadToken(_)) => Next::Bad,
        Err(SexpFault::Deep(_)) => {
            *reading = Reading::new();
            next_by_cut(left)
        }
        Err(SexpFault::Want) => unreachable!(),
    }
}

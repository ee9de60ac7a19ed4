//! What a side comes to, once it is back from the parts of other members and has written over all chunks of a location.

ghost use Rattle.std.specs.Prelude.{◌≡◌, IfOk, false, true};
ghost use Rattle.vx_ast.specs.Syntax.{Program};
ghost use Rattle.vx_machine.specs.Told.{IsReady};
ghost use Rattle.vx_stack.specs.Stack.{frame_tree, going, side_tree};
ghost use Rattle.vx_states.specs.SymStates.{state as state_of};

use std::alloc::{AllocError, Global};
use std::rc::Rc;
use vx_stack::{Applied, Frame, Hole, Next, Side};
use vx_states::SymState;

/// What a side comes to.
#[derive(Drop)]
pub(crate) enum Ready {
    /// It is over, since its state is impossible.
    Over,
    /// An application tells what it has to tell.
    Telling(Rc<Applied>, Rc<Hole>, SymState),
    /// A step.
    Plain(Frame, SymState),
}

/// What waits for a state, back from the parts of other members and with what is written over all chunks.
fn ready_next(alloc: Global, next: &Rc<Next>, state: SymState) -> Result<Ready, AllocError>
    ensures { IfOk result (λ r. (p : Program) → IsReady p (going p next.now.value (state_of state)) r) }
{
    match &**next {
        Next::Back(caller, rest) => {
            let mut state = state;
            state.back(alloc, caller)?;
            ready_next(alloc, rest, state)
        }
        Next::WriteOver(field, receiver, value, rest) => {
            let state = vx_sums::write_over(alloc, field, receiver, value, state)?;
            ready_next(alloc, rest, state)
        }
        Next::Impossible => Ok(Ready::Over),
        Next::Tell(x, hole) => Ok(Ready::Telling(x.clone()?, hole.clone()?, state)),
        _ => Ok(Ready::Plain(Frame::Go(next.clone()?), state)),
    }
}

/// What a frame comes to.
fn ready_frame(alloc: Global, frame: &Frame, state: SymState) -> Result<Ready, AllocError>
    ensures { IfOk result (λ r. (p : Program) → IsReady p (frame_tree p frame.now (state_of state)) r) }
{
    match frame {
        Frame::Go(next) => ready_next(alloc, next, state),
        Frame::Eval(e, hole) => Ok(Ready::Plain(Frame::Eval(e.clone()?, hole.clone()?), state)),
        Frame::Give(t, hole) => Ok(Ready::Plain(Frame::Give(t.clone()?, hole.clone()?), state)),
        Frame::GiveAll(ts, row) => Ok(Ready::Plain(
            Frame::GiveAll(ts.clone()?, row.clone()?),
            state,
        )),
    }
}

/// What a side comes to.
pub(crate) fn come_back(alloc: Global, side: Side) -> Result<Ready, AllocError>
    ensures { IfOk result (λ r. (p : Program) → IsReady p (side_tree p side) r) }
{
    let Side { frame, state } = side;
    ready_frame(alloc, &frame, state)
}

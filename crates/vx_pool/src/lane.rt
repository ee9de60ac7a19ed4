//! One lane, from a reply to its next question.

ghost use Rattle.std.specs.Prelude.{◌≡◌, ◌≤◌, ◌<◌, ◌++◌, List, Some, IfOk, OnOk, is_some};
ghost use Rattle.vx_rules.specs.Trees.{Question};
ghost use Rattle.vx_pool.specs.Events.{Event, with_answer};
ghost use Rattle.vx_pool.specs.Lanes.{Moves, IsFree, IsWaiting, Stands};

use crate::{Next, Stop, Talker, Worker};
use std::alloc::{AllocError, Global};
use vx_rules::Reply;

// The open question has no reply: the worker is told so, and the talker goes on behind it.
fn lose<X, H, F, W: Worker<X, F>, T: Talker<X, H, F>>(
    alloc: Global,
    worker: &mut W,
    talker: &mut T,
    shared: &X,
    hub: &mut H,
    cause: F,
) -> Result<(), AllocError>
    requires fits { W.Fits worker.old shared.now }
    requires same { W.lane worker.old ≡ T.lane talker.old }
    requires held { T.Held talker.old hub.old }
    requires lost { (q : Question) × (W.asked worker.old ≡ Some q) × T.Loses talker.old hub.old (W.log worker.old) q cause }
    ensures held { T.Held talker.new hub.new }
    ensures free { OnOk result (IsFree W.log W.asked W.ended W.Fits W.lane T.lane T.Held T.Tells T.Asks shared.now hub.new worker.new talker.new) }
    ensures fewer { OnOk result (W.left worker.new ≤ W.left worker.old) }
    ensures moves { Moves T.lane T.Later T.Held T.Tells T.Asks talker.old hub.old talker.new hub.new }
{
    worker.fault(alloc, shared, cause)?;
    talker.renew(alloc, shared, hub)
}

/// Drives a worker on to its next question, which is posted, or to its end. The answer says whether a question is open.
pub fn drive<X, H, F, W: Worker<X, F>, T: Talker<X, H, F>>(
    alloc: Global,
    worker: &mut W,
    talker: &mut T,
    shared: &X,
    hub: &mut H,
    reply: Option<Reply>,
) -> Result<bool, AllocError>
    requires postable { (log : List (Event F)) (q : Question) → W.IsPostable log q → T.IsPostable log q }
    requires awaited { is_some (W.asked worker.old) ≡ is_some reply }
    requires fits { W.Fits worker.old shared.now }
    requires same { W.lane worker.old ≡ T.lane talker.old }
    requires held { T.Held talker.old hub.old }
    requires told { T.Tells talker.old hub.old (with_answer (W.log worker.old) reply (W.asked worker.old)) }
    ensures held { T.Held talker.new hub.new }
    ensures stands { IfOk result (λ waits. Stands W.log W.asked W.ended W.Fits W.lane T.lane T.Held T.Tells T.Asks waits shared.now hub.new worker.new talker.new) }
    ensures fewer { OnOk result (W.left worker.new < W.left worker.old) }
    ensures moves { Moves T.lane T.Later T.Held T.Tells T.Asks talker.old hub.old talker.new hub.new }
{
    let mut reply = reply;
    'questions: loop {
        let next = worker.next(alloc, shared, reply)?;
        reply = None;
        match next {
            Next::Question { query, stays } => match talker.post(
                alloc, shared, hub, &query, stays,
            ) {
                Ok(()) => return Ok(true),
                Err(Stop::Fault(cause)) => lose(alloc, worker, talker, shared, hub, cause)?,
                Err(Stop::Want) => return Err(AllocError),
            },
            Next::Left => talker.leave(alloc, shared, hub)?,
            Next::End => return Ok(false),
        }
    }
}

/// Takes the reply to the open question, gives it to the worker, and drives it on.
pub fn turn<X, H, F, W: Worker<X, F>, T: Talker<X, H, F>>(
    alloc: Global,
    worker: &mut W,
    talker: &mut T,
    shared: &X,
    hub: &mut H,
) -> Result<bool, AllocError>
    requires postable { (log : List (Event F)) (q : Question) → W.IsPostable log q → T.IsPostable log q }
    requires waits { IsWaiting W.log W.asked W.ended W.Fits W.lane T.lane T.Held T.Tells T.Asks shared.now hub.old worker.old talker.old }
    ensures held { T.Held talker.new hub.new }
    ensures stands { IfOk result (λ waits. Stands W.log W.asked W.ended W.Fits W.lane T.lane T.Held T.Tells T.Asks waits shared.now hub.new worker.new talker.new) }
    ensures fewer { OnOk result (W.left worker.new < W.left worker.old) }
    ensures moves { Moves T.lane T.Later T.Held T.Tells T.Asks talker.old hub.old talker.new hub.new }
{
    match talker.take(alloc, shared, hub) {
        Ok(reply) => drive(alloc, worker, talker, shared, hub, Some(reply)),
        Err(Stop::Fault(cause)) => {
            lose(alloc, worker, talker, shared, hub, cause)?;
            drive(alloc, worker, talker, shared, hub, None)
        }
        Err(Stop::Want) => Err(AllocError),
    }
}

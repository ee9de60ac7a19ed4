//! One of the lanes, by its number in the list.

ghost use Rattle.std.specs.Prelude.{◌≡◌, ◌<◌, ◌≤◌, ◌+◌, List, Bool, true, false, None, Some, IfOk, OnOk, length, slice_get, slice_set, get_or, ℕ, map};
ghost use Rattle.vx_rules.specs.Trees.{Question};
ghost use Rattle.vx_pool.specs.Events.{Event};
ghost use Rattle.vx_pool.specs.Lanes.{Changes, IsFree, IsWaiting, Stands};

use crate::lane::{drive, turn};
use crate::{Talker, Worker};
use std::alloc::{AllocError, Global};

/// Drives a lane that is free to its next question, or to its end. The answer says whether it waits.
pub fn start_at<X, H, F, W: Worker<X, F>, T: Talker<X, H, F>>(
    alloc: Global,
    lanes: &mut [(W, T)],
    i: usize,
    shared: &X,
    hub: &mut H,
) -> Result<bool, AllocError>
    requires postable { (log : List (Event F)) (q : Question) → W.IsPostable log q → T.IsPostable log q }
    requires within { i < length lanes.old }
    requires free { (l : W × T) → slice_get lanes.old i ≡ Some l → IsFree W.log W.asked W.ended W.Fits W.lane T.lane T.Held T.Tells T.Asks shared.now hub.old l.0 l.1 }
    ensures lanes { (c : Changes T.lane T.Later T.Held T.Tells T.Asks i lanes.old hub.old lanes.new hub.new)
        × OnOk result (W.left c.after.0 < W.left c.before.0)
        × IfOk result (λ waits. Stands W.log W.asked W.ended W.Fits W.lane T.lane T.Held T.Tells T.Asks waits shared.now hub.new c.after.0 c.after.1) }
{
    let lane = &mut lanes[i];
    drive(alloc, &mut lane.0, &mut lane.1, shared, hub, None)
}

/// Takes the reply of a lane that waits, and drives it on. The answer says whether it waits again.
pub fn turn_at<X, H, F, W: Worker<X, F>, T: Talker<X, H, F>>(
    alloc: Global,
    lanes: &mut [(W, T)],
    i: usize,
    shared: &X,
    hub: &mut H,
) -> Result<bool, AllocError>
    requires postable { (log : List (Event F)) (q : Question) → W.IsPostable log q → T.IsPostable log q }
    requires within { i < length lanes.old }
    requires waits { (l : W × T) → slice_get lanes.old i ≡ Some l → IsWaiting W.log W.asked W.ended W.Fits W.lane T.lane T.Held T.Tells T.Asks shared.now hub.old l.0 l.1 }
    ensures lanes { (c : Changes T.lane T.Later T.Held T.Tells T.Asks i lanes.old hub.old lanes.new hub.new)
        × OnOk result (W.left c.after.0 < W.left c.before.0)
        × IfOk result (λ waits. Stands W.log W.asked W.ended W.Fits W.lane T.lane T.Held T.Tells T.Asks waits shared.now hub.new c.after.0 c.after.1) }
{
    let lane = &mut lanes[i];
    turn(alloc, &mut lane.0, &mut lane.1, shared, hub)
}

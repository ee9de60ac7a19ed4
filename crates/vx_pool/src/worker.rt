//! The worker of a lane.

ghost use Rattle.std.specs.Prelude.{◌≡◌, ℕ, ◌<◌, ◌≤◌, Bool, true, List, Option, None, IfOk, OnOk, is_some};
ghost use Rattle.vx_rules.specs.Trees.{Question};
ghost use Rattle.vx_pool.specs.Events.{Event, GoesOn, with_answer, with_loss, with_leaving, question_in, is_end, IfQuestion};

use crate::Next;
use std::alloc::{AllocError, Global};
use vx_rules::Reply;

/// Asks one question after another, member by member, over what all lanes share.
pub trait Worker<X, F> {
    /// The number of its lane.
    ghost lane: { Self → ℕ };

    /// What has happened so far: the questions that were answered with their replies, those that were lost, and the members left.
    ghost log: { Self → List (Event F) };

    /// The question that is open.
    ghost asked: { Self → Option Question };

    /// It has come to its end.
    ghost ended: { Self → Bool };

    /// How often `next` can still be called, at most.
    ghost left: { Self → ℕ };

    /// It works over this.
    ghost Fits: { Self → X → Type 0 };

    /// What is so of each question that it asks, behind these events.
    ghost IsPostable: { List (Event F) → Question → Type 0 };

    /// Takes the reply to the open question, where one is open, and says what comes next.
    fn next(&mut self, alloc: Global, shared: &X, reply: Option<Reply>) -> Result<Next, AllocError>
        requires awaited { is_some (asked self.old) ≡ is_some reply }
        requires fits { Fits self.old shared.now }
        ensures fits { Fits self.new shared.now }
        ensures lane { lane self.new ≡ lane self.old }
        ensures told { IfOk result (λ next. log self.new ≡ with_leaving (with_answer (log self.old) reply (asked self.old)) next) }
        ensures open { IfOk result (λ next. asked self.new ≡ question_in next) }
        ensures postable { IfOk result (λ next. IfQuestion next (λ q stays. IsPostable (log self.new) q)) }
        ensures goes_on { IfOk result (λ next. IfQuestion next (GoesOn (log self.new))) }
        ensures end { IfOk result (λ next. ended self.new ≡ is_end next) }
        ensures fewer { IfOk result (λ next. left self.new < left self.old) };

    /// The open question has no reply, by this cause.
    fn fault(&mut self, alloc: Global, shared: &X, cause: F) -> Result<(), AllocError>
        requires asked { is_some (asked self.old) ≡ true }
        requires fits { Fits self.old shared.now }
        ensures fits { Fits self.new shared.now }
        ensures lane { lane self.new ≡ lane self.old }
        ensures told { OnOk result (log self.new ≡ with_loss (log self.old) (asked self.old) cause) }
        ensures open { OnOk result (asked self.new ≡ None) }
        ensures fewer { OnOk result (left self.new ≤ left self.old) };
}

//! The talker of a lane.

ghost use Rattle.std.specs.Prelude.{◌≡◌, ℕ, ◌++◌, ◌∷◌, [], List, IfOk, OnOk, IfErr};
ghost use Rattle.vx_rules.specs.Trees.{Question};
ghost use Rattle.vx_stack.specs.Stack as rules;
ghost use Rattle.vx_pool.specs.Events.{Event, Answered, Lost, Left, GoesOn, IfFault};
ghost use Rattle.vx_pool.specs.Lanes.{Moves};

use crate::Stop;
use std::alloc::{AllocError, Global};
use vx_rules::Reply;
use vx_stack::Query;

/// Gets the questions of one lane answered, by children whose links it has from a hub that all lanes have in common. What it says with
/// the hub's records tells what happened in its lane.
pub trait Talker<X, H, F> {
    /// The number of its lane.
    ghost lane: { Self → ℕ };

    /// A link that it has is still owed to the hub.
    ghost Held: { Self → H → Type 0 };

    /// No question is open, and it tells these events with the hub.
    ghost Tells: { Self → H → List (Event F) → Type 0 };

    /// It tells these events with the hub, and behind them this question is open.
    ghost Asks: { Self → H → List (Event F) → Question → Type 0 };

    /// It tells these events with the hub, and behind them this question is lost, by this cause.
    ghost Loses: { Self → H → List (Event F) → Question → F → Type 0 };

    /// What has to be so of a question that is posted behind these events.
    ghost IsPostable: { List (Event F) → Question → Type 0 };

    /// How the hub may go on.
    ghost Later: { H → H → Type 0 };

    /// Asks a question, whose path goes on from the one that stands where it stays; a child is started where there is none.
    ///
    /// # Errors
    /// `Fault` where the question is lost, with the cause; `Want` where memory runs out.
    fn post(
        &mut self,
        alloc: Global,
        shared: &X,
        hub: &mut H,
        query: &Query,
        stays: bool,
    ) -> Result<(), Stop<F>>
        requires held { Held self.old hub.old }
        requires told { (log : List (Event F)) × Tells self.old hub.old log × IsPostable log (rules.query query.now) × GoesOn log (rules.query query.now) stays }
        ensures held { Held self.new hub.new }
        ensures told { OnOk result ((log : List (Event F)) → Tells self.old hub.old log → Asks self.new hub.new log (rules.query query.now)) }
        ensures fault { IfErr result (λ stop. IfFault stop (λ cause. (log : List (Event F)) → Tells self.old hub.old log → Loses self.new hub.new log (rules.query query.now) cause)) }
        ensures moves { Moves lane Later Held Tells Asks self.old hub.old self.new hub.new };

    /// The reply to the open question.
    ///
    /// # Errors
    /// `Fault` where the question is lost, with the cause; `Want` where memory runs out.
    fn take(&mut self, alloc: Global, shared: &X, hub: &mut H) -> Result<Reply, Stop<F>>
        requires held { Held self.old hub.old }
        requires asked { (log : List (Event F)) × (q : Question) × Asks self.old hub.old log q }
        ensures held { Held self.new hub.new }
        ensures told { IfOk result (λ reply. (log : List (Event F)) (q : Question) → Asks self.old hub.old log q → Tells self.new hub.new (log ++ Answered q reply ∷ [])) }
        ensures fault { IfErr result (λ stop. IfFault stop (λ cause. (log : List (Event F)) (q : Question) → Asks self.old hub.old log q → Loses self.new hub.new log q cause)) }
        ensures moves { Moves lane Later Held Tells Asks self.old hub.old self.new hub.new };

    /// A member is over.
    fn leave(&mut self, alloc: Global, shared: &X, hub: &mut H) -> Result<(), AllocError>
        requires held { Held self.old hub.old }
        requires told { (log : List (Event F)) × Tells self.old hub.old log }
        ensures held { Held self.new hub.new }
        ensures told { OnOk result ((log : List (Event F)) → Tells self.old hub.old log → Tells self.new hub.new (log ++ Left ∷ [])) }
        ensures moves { Moves lane Later Held Tells Asks self.old hub.old self.new hub.new };

    /// A question was lost: what is asked next is asked anew.
    fn renew(&mut self, alloc: Global, shared: &X, hub: &mut H) -> Result<(), AllocError>
        requires held { Held self.old hub.old }
        requires lost { (log : List (Event F)) × (q : Question) × (cause : F) × Loses self.old hub.old log q cause }
        ensures held { Held self.new hub.new }
        ensures told { OnOk result ((log : List (Event F)) (q : Question) (cause : F) → Loses self.old hub.old log q cause → Tells self.new hub.new (log ++ Lost q cause ∷ [])) }
        ensures moves { Moves lane Later Held Tells Asks self.old hub.old self.new hub.new };

    /// Whether the reply to the open question is there, so that taking it needn't wait. It may say no where that isn't known. No memory.
    fn ready(&self, hub: &H) -> bool;

    /// Waits until some lane's reply is there, where that can be told, but not for ever. No memory.
    fn wait(hub: &H);

    ghost later_same: { (h : H) → Later h h };

    ghost later_on: { (g h i : H) → Later g h → Later h i → Later g i };
}

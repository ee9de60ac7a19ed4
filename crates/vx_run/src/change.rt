//! What is still to be done to the state alone.
use crate::state::{Caller, State};
use crate::store::Variable;

/// What is still to be done to the state alone.
#[derive(Drop)]
pub enum Change {
    /// Back to this state.
    Restore(State),
    /// Back to these variables.
    PutStore(Vec<Variable>),
    /// Back to this state, but for the heap, which stays.
    KeepHeap(State),
    /// Back to this caller's state, but for the heap and what is held, which stay.
    Resume(Caller),
    /// The present becomes the old part.
    FromNow,
    /// A taking begins: all that is held remains.
    StartTaking,
    /// What was taken is held again.
    DropTaking,
    /// What was taken is held no longer.
    KeepTaking,
}

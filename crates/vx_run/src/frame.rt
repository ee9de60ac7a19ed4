//! What is still to be done of a run. It is kept in a list: nothing here calls itself, however deep a program or a run is.
use crate::change::Change;
use crate::pending::Pending;
use crate::task::Task;
use crate::visit::Visit;

/// What is still to be done of a run.
#[derive(Drop)]
pub enum Frame<'p> {
    /// Of an expression.
    Evaluate(Pending<'p>),
    /// Of an assertion that is taken, added or given.
    Visit(Visit<'p>),
    /// Of a statement, a block, a loop or a call.
    Execute(Task<'p>),
    /// Of the state alone.
    Change(Change),
}

//! What a worker does next.

use vx_stack::Query;

/// What a worker does next: it asks a question, it is done with a member and leaves it, or it has come to its end.
#[derive(Drop)]
pub enum Next {
    Question {
        query: Query,
        /// The question's path goes on from the one that stands.
        stays: bool,
    },
    Left,
    End,
}

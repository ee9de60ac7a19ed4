//! A pool of lanes on one thread. A lane has a worker, which asks questions, and a talker, which gets each of them answered. The pool
//! hands every reply to the worker of its own lane, whatever the order in which lanes are served.
#![tactic(auto)]

mod lane;
mod next;
mod pool;
mod slot;
mod stop;
mod talker;
mod worker;

pub use next::Next;
pub use pool::Pool;
pub use stop::Stop;
pub use talker::Talker;
pub use worker::Worker;

//! The stack of sides that are still to be walked, what they wait for, and the steps that the rules are made of.
//! What waits is let go by impls of `Drop`: a derived one is proved again in each crate that lets one go. Sides, which the crates above
//! take apart, derive it.
#![tactic(auto)]

mod clauses;
mod conts;
mod frame;
mod instances;
mod once_more;
mod question;
mod search;
mod waiting;

pub use clauses::{as_assertion, conjoined, joined, place_of, precondition};
pub use conts::{Conts, Left, Move};
pub use frame::{Frame, Hole, Next, Row, Side, Taken};
pub use instances::chunk_of;
pub use question::Query;
pub use search::field_sort;
pub use waiting::{
    Application, Applied, Called, Codes, Consumed, Consumption, Executed, Instance, Location, Loop,
    Operand, Produced, Production, Return, Search, Values, Verified,
};

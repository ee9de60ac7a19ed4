//! Symbolic states, with paths that are shared and indexed; the state in which another function's parts are evaluated (quietly), and what a side
//! of that tells.
//! All values but `Own` are let go by impls of `Drop`: a derived one is proved again in each crate that lets one go.
#![tactic(auto)]

mod entering;
mod entries;
mod forgetting;
mod holdings;
mod index;
mod indexed;
mod key;
mod marks;
mod path;
mod references;
mod snapshots;
mod start;
mod state;
mod sums;
mod told;

pub use entering::Caller;
pub use entries::Entry;
pub use indexed::IndexedPath;
pub use marks::mark_root;
pub use path::Path;
pub use snapshots::{left_part, right_part};
pub use start::{bind_outcome, quiet};
pub use state::{Binding, Own, SymState, copy_optional, sort_of_value};
pub use told::gathered;

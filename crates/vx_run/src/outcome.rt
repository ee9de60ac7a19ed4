//! How a whole run ends.
use vx_ast::Place;
use vx_frac::{Frac, Op};

/// How a whole run ends.
#[derive(Clone, Copy)]
pub enum Whole {
    Ended,
    /// Something can't be as it is assumed.
    Stopped(Place),
    Failed(Place),
    /// All steps are done, and one more is due.
    Running,
    /// The result of this operation leaves 128 bits.
    Wide {
        place: Place,
        op: Op,
        a: Frac,
        b: Frac,
    },
}

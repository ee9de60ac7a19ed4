//! What is held.
ghost use Rattle.vx_run.specs.Held.{TellTotals};

use crate::entries::Entries;
use std::rc::Rc;

/// What is held: entries whose totals are the sums of their amounts.
pub struct Holdings {
    pub entries: Rc<Entries>,
    ghost totals: { TellTotals entries.value },
}

impl Drop for Holdings {
    fn drop(self) {
        let Self { entries } = self;
    }
}

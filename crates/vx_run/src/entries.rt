//! Entries of what is held.
ghost use Rattle.std.specs.Prelude.{◌≡◌};
ghost use Rattle.vx_frac.specs.Fraction.{fraction};
ghost use Rattle.vx_run.specs.Held as held;

use crate::resource::Resource;
use std::rc::Rc;
use vx_frac::Frac;

/// What was given and taken, the newest first: a resource, its amount, which is below 0 where it was taken, and the resource's
/// total with it. Any end of it can be shared.
pub enum Entries {
    Nothing,
    Entry(Resource, Frac, Frac, Rc<Entries>),
}

/// The entries are let go one after the other: there is one for each permission that is given or taken.
impl Drop for Entries {
    fn drop(mut self) {
        loop {
            match self {
                Entries::Nothing => return,
                Entries::Entry(_resource, _amount, _total, rest) => match Rc::into_inner(rest) {
                    Some(next) => self = next,
                    None => return,
                },
            }
        }
    }
}

impl Entries {
    /// The total of a resource by its newest entry.
    pub fn total(&self, r: &Resource) -> Frac
        ensures { fraction result ≡ held.told_total self.now (held.resource r.now) }
    {
        let mut left = self;
        loop {
            match left {
                Entries::Nothing => return Frac::whole(0),
                Entries::Entry(of, _amount, total, rest) => {
                    if r.is_same(of) {
                        return *total;
                    }
                    left = rest;
                }
            }
        }
    }
}

//! The tightest bounds of each column.

use crate::Stop;
use cs_linear::{Bound, Side};
use std::alloc::Global;
use vx_frac::Frac;

/// The tightest bounds of a column.
#[derive(Clone, Copy)]
struct Sides {
    lower: Option<Bound>,
    upper: Option<Bound>,
}

/// The tightest bounds of each column.
#[derive(Drop)]
pub struct Limits {
    columns: Vec<Sides>,
}

/// What a bound is beside those of its column.
#[derive(Clone, Copy)]
pub enum Entered {
    /// Another one says as much.
    Idle,
    /// None says as much.
    Tighter,
    /// It contradicts this one.
    Against(Bound),
}

/// Whether the limit of a bound is this value.
fn is_limit(bound: Option<Bound>, value: Frac) -> bool {
    match bound {
        Some(bound) => bound.limit.main == value,
        None => false,
    }
}

impl Sides {
    /// The bound of a side.
    fn on(self, side: Side) -> Option<Bound> {
        match side {
            Side::AtLeast => self.lower,
            Side::AtMost => self.upper,
        }
    }

    /// The bound of the other side.
    fn opposite(self, side: Side) -> Option<Bound> {
        match side {
            Side::AtLeast => self.upper,
            Side::AtMost => self.lower,
        }
    }

    /// What a bound is beside these.
    fn judge(self, bound: Bound) -> Entered {
        if let Some(other) = self.opposite(bound.side) {
            if other.is_broken(bound.limit) {
                return Entered::Against(other);
            }
        }
        match self.on(bound.side) {
            Some(other) if !other.has_room(bound.limit) => Entered::Idle,
            _ => Entered::Tighter,
        }
    }

    /// A bound takes the place of that of its side.
    fn set(&mut self, bound: Bound) {
        match bound.side {
            Side::AtLeast => self.lower = Some(bound),
            Side::AtMost => self.upper = Some(bound),
        }
    }
}

impl Limits {
    /// No bounds.
    pub fn new(alloc: Global) -> Limits {
        Limits {
            columns: Vec::new(alloc),
        }
    }

    /// Takes back all bounds. No memory.
    pub fn clear(&mut self) {
        self.columns.truncate(0);
    }

    /// Whether a column has a lower bound, and whether it has an upper one.
    pub fn sides(&self, column: u32) -> (bool, bool) {
        match self.columns.get(column as usize) {
            Some(sides) => (sides.lower.is_some(), sides.upper.is_some()),
            None => (false, false),
        }
    }

    /// Whether a column has a bound of this value.
    pub fn is_bound(&self, column: u32, value: Frac) -> bool {
        match self.columns.get(column as usize) {
            Some(sides) => is_limit(sides.lower, value) || is_limit(sides.upper, value),
            None => false,
        }
    }

    /// The only value that its bounds leave a column.
    pub fn only(&self, column: u32) -> Option<Frac> {
        let sides = self.columns.get(column as usize)?;
        let (lower, upper) = (sides.lower?.limit, sides.upper?.limit);
        if lower.main == upper.main && lower.delta == upper.delta {
            Some(lower.main)
        } else {
            None
        }
    }

    /// Makes room for a column.
    fn reach(&mut self, column: u32) -> Result<(), Stop> {
        for _ in self.columns.len()..=column as usize {
            self.columns.push(Sides {
                lower: None,
                upper: None,
            })?;
        }
        Ok(())
    }

    /// Takes a bound, unless it says nothing new or contradicts another one.
    ///
    /// # Errors
    /// `Want` where memory runs out.
    pub fn enter(&mut self, bound: Bound) -> Result<Entered, Stop> {
        self.reach(bound.column)?;
        let Some(sides) = self.columns.get_mut(bound.column as usize) else {
            return Err(Stop::Miss);
        };
        let entered = sides.judge(bound);
        if let Entered::Tighter = entered {
            sides.set(bound);
        }
        Ok(entered)
    }
}

//! By column the tightest bounds that are asserted, and the first of them that is broken.
ghost use Rattle.std.specs.Prelude.{◌≡◌, ◌<◌, ℕ, length, List, All, IfOk, IfErr, IfSome, IfNone, IsTrue, slice_get, Some, true};
ghost use Rattle.cs_linear.specs.Numbers.{IsCause};
ghost use Rattle.cs_linear.specs.Values.{values};
ghost use Rattle.cs_linear.specs.Amounts.{amount, is_broken_by};
ghost use Rattle.cs_linear.specs.Contradictions.{IsTable};
ghost use Rattle.cs_linear.specs.Checks.{AreLimits, AreTight};
ghost use Rattle.cs_linear.specs.Limits.{is_tighter, IsEntered, AreTold, IsWithin, IsClear, IsBeyond, ArePending};

use crate::bounds::{Bound, Side, Value};
use crate::numbers::Stop;
use std::alloc::Global;
use vx_frac::Frac;

/// The tightest bounds of each column.
#[derive(Drop)]
pub struct Limits {
    pub lower: Vec<Option<Bound>>,
    pub upper: Vec<Option<Bound>>,
}

/// Whether two sides are one.
fn is_same(side: Side, other: Side) -> bool
    ensures same { IsTrue result → side ≡ other }
    ensures apart { ¬ (IsTrue result) → ¬ (side ≡ other) }
{
    match (side, other) {
        (Side::AtLeast, Side::AtLeast) => true,
        (Side::AtMost, Side::AtMost) => true,
        (Side::AtLeast, Side::AtMost) => false,
        (Side::AtMost, Side::AtLeast) => false,
    }
}

/// Whether a bound says more than another one of its side, or there is no other.
fn is_tighter(bound: Bound, other: Option<Bound>) -> bool
    ensures { result ≡ is_tighter bound other }
{
    match other {
        None => true,
        Some(other) => other.has_room(bound.limit),
    }
}

/// Enters a bound of this side where it is tighter.
fn enter(table: &mut Vec<Option<Bound>>, bound: Bound, side: Side)
    requires { bound.column < length table.old.items }
    ensures { IsEntered side bound table.old.items table.new.items }
{
    if !is_same(bound.side, side) {
        return;
    }
    let at = bound.column as usize;
    if !is_tighter(bound, table[at]) {
        return;
    }
    table[at] = Some(bound);
}

/// By column a tightest bound of this side.
fn table_of(
    alloc: Global,
    bounds: &[Bound],
    side: Side,
    width: usize,
) -> Result<Vec<Option<Bound>>, Stop>
    requires { All (λ b. b.column < width) bounds.now }
    ensures count { IfOk result (λ table. length table.items ≡ width) }
    ensures value { IfOk result (λ table. IsTable side bounds.now table.items) }
    ensures told { IfOk result (λ table. AreTold (length bounds.now) side bounds.now table.items) }
    ensures cause { IfErr result IsCause }
{
    let mut table = vec![in alloc; None; width]?;
    for bound in bounds {
        enter(&mut table, *bound, side);
    }
    Ok(table)
}

/// The limit, if a value is beyond it.
fn broken_of(limit: Option<Bound>, value: Value) -> Option<Bound>
    ensures some { IfSome result (λ b. (limit ≡ Some b) × (is_broken_by b.side (amount b.limit) (amount value) ≡ true)) }
    ensures none { IfNone result (IsWithin limit (amount value)) }
{
    match limit {
        None => None,
        Some(bound) => {
            if bound.is_broken(value) {
                return Some(bound);
            }
            None
        }
    }
}

impl Limits {
    ghost use Rattle.cs_linear.specs.declared.bounds.Side.TheVariants as sides;

    /// The tightest of these bounds.
    pub fn new(alloc: Global, bounds: &[Bound], width: usize) -> Result<Limits, Stop>
        requires { All (λ b. b.column < width) bounds.now }
        ensures lower_count { IfOk result (λ l. length l.lower.items ≡ width) }
        ensures upper_count { IfOk result (λ l. length l.upper.items ≡ width) }
        ensures limits { IfOk result (AreLimits bounds.now) }
        ensures tight { IfOk result (AreTight bounds.now) }
        ensures cause { IfErr result IsCause }
    {
        let lower = table_of(alloc, bounds, Side::AtLeast, width)?;
        let upper = table_of(alloc, bounds, Side::AtMost, width)?;
        Ok(Limits { lower, upper })
    }

    /// The limit of column k that its value is beyond.
    fn broken_at(&self, k: usize, mains: &[Frac], deltas: &[Frac]) -> Option<Bound>
        requires lower { k < length self.now.lower.items }
        requires upper { k < length self.now.upper.items }
        requires mains { k < length mains.now }
        requires deltas { k < length deltas.now }
        ensures some { IfSome result (IsBeyond self.now (values mains.now) (values deltas.now)) }
        ensures none { IfNone result (IsClear self.now (values mains.now) (values deltas.now) k) }
    {
        let value = Value {
            main: mains[k],
            delta: deltas[k],
        };
        match broken_of(self.lower[k], value) {
            Some(bound) => Some(bound),
            None => broken_of(self.upper[k], value),
        }
    }

    /// A limit of the least column whose value is beyond it. Only marked columns are compared; those that turn out to meet
    /// their limits lose the mark.
    pub fn first_broken(
        &self,
        marks: &mut Vec<bool>,
        mains: &[Frac],
        deltas: &[Frac],
    ) -> Option<Bound>
        requires lower { length self.now.lower.items ≡ length marks.old.items }
        requires upper { length self.now.upper.items ≡ length marks.old.items }
        requires mains { length mains.now ≡ length marks.old.items }
        requires deltas { length deltas.now ≡ length marks.old.items }
        requires pending { ArePending self.now (values mains.now) (values deltas.now) marks.old.items }
        ensures count { length marks.new.items ≡ length marks.old.items }
        ensures pending { ArePending self.now (values mains.now) (values deltas.now) marks.new.items }
        ensures some { IfSome result (IsBeyond self.now (values mains.now) (values deltas.now)) }
        ensures none { IfNone result ((k : ℕ) → k < length marks.old.items → IsClear self.now (values mains.now) (values deltas.now) k) }
    {
        for k in 0..marks.len() {
            if marks[k] {
                if let Some(bound) = self.broken_at(k, mains, deltas) {
                    return Some(bound);
                }
                marks[k] = false;
            }
        }
        None
    }
}

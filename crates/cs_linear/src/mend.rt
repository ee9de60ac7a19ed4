//! One broken bound is mended, or there is a contradiction; and the check, which goes on until none is broken.
ghost use Rattle.std.specs.Prelude.{◌≡◌, ◌<◌, ◌≤◌, length, List, All, IfOk, IfErr, IfSome, IfNone, OnOk, slice_get, Some, true, false, pos, ℕ, ◌-◌};
ghost use Rattle.vx_frac.specs.Fraction.{fraction};
ghost use Rattle.vx_frac.specs.Fractions.{minus};
ghost use Rattle.cs_meter.specs.Units.{limit};
ghost use Rattle.cs_linear.specs.Numbers.{plus, IsCause};
ghost use Rattle.cs_linear.specs.Rows.{IsFree};
ghost use Rattle.cs_linear.specs.Values.{values};
ghost use Rattle.cs_linear.specs.Contradictions.{IsAmong, is_broken, IsContradiction};
ghost use Rattle.cs_linear.specs.Checks.{AreLimits, AreTight};
ghost use Rattle.cs_linear.specs.Limits.{AreMarked, ArePending};
ghost use Rattle.cs_linear.specs.Views.{width_of, rows_of, bounds_of};
ghost use Rattle.cs_linear.specs.Results.{IsChecked, IsUndecided, IsStep, IsEntryOf};
ghost use Rattle.cs_linear.specs.Turns.{IsAtLimit, IsTurn, IsStopped, Pays, HasPaid};

use crate::bounds::{Bound, Part, Value};
use crate::check::{Way, find_way, own, toward};
use crate::limits::Limits;
use crate::numbers::{Stop, reciprocal, times};
use crate::rows::Entry;
use crate::tableau::Tableau;
use cs_meter::{Budget, Meter};
use std::alloc::Global;
use vx_frac::{Frac, Over};

/// Asserted bounds that contradict one another over the rows, each with its multiplier.
#[derive(Drop)]
pub struct Conflict {
    pub parts: Vec<Part>,
}

/// The answer of a check: the values meet all bounds, or no values do.
#[derive(Drop)]
pub enum Checked {
    Feasible,
    Conflict(Conflict),
}

/// Why a check is undecided.
#[derive(Clone, Copy)]
pub enum Undecided {
    Budget,
    Over(Over),
    Want,
}

/// Whether a check has its answer.
#[derive(Drop)]
enum Step {
    Ended(Checked),
    On,
}

fn cause_of(stop: Stop) -> Undecided
    requires { IsCause stop }
    ensures { (spent : ℕ) → IsUndecided spent result }
{
    match stop {
        Stop::Over(over) => Undecided::Over(over),
        Stop::Want => Undecided::Want,
    }
}

#[tactic(auto, unfolding(crate::specs::Numbers::plus))]
/// From a value to a limit.
fn difference(limit: Frac, value: Frac) -> Result<Frac, Stop>
    ensures value { IfOk result (λ d. fraction d ≡ plus (fraction limit) (minus (fraction value))) }
    ensures cause { IfErr result IsCause }
{
    match limit.sub(value) {
        Ok(difference) => Ok(difference),
        Err(over) => Err(Stop::Over(over)),
    }
}

/// A mark for each column.
fn all_marked(alloc: Global, width: usize) -> Result<Vec<bool>, Stop>
    ensures count { IfOk result (λ marks. length marks.items ≡ width) }
    ensures value { IfOk result (λ marks. (k : ℕ) → ¬ (slice_get marks.items k ≡ Some false)) }
    ensures cause { IfErr result IsCause }
{
    let marks = vec![in alloc; true; width]?;
    Ok(marks)
}

impl Tableau {
    ghost use Rattle.std.specs.Prelude.{ℕ};

    /// Moves a free column to the limit of its bound.
    fn move_to(&mut self, alloc: Global, bound: Bound, marks: &mut Vec<bool>) -> Result<(), Stop>
        requires free { IsFree self.old.homes.items bound.column }
        requires marks { length marks.old.items ≡ length self.old.homes.items }
        ensures rows { self.new.originals ≡ self.old.originals }
        ensures homes { self.new.homes ≡ self.old.homes }
        ensures bounds { self.new.bounds ≡ self.old.bounds }
        ensures met { OnOk result (IsAtLimit (values self.new.mains.items) (values self.new.deltas.items) bound) }
        ensures marked { AreMarked self.old.mains.items self.old.deltas.items self.new.mains.items self.new.deltas.items marks.old.items marks.new.items }
        ensures cause { IfErr result IsCause }
    {
        let value = self.value(bound.column);
        let main = difference(bound.limit.main, value.main)?;
        let delta = difference(bound.limit.delta, value.delta)?;
        self.move_free(alloc, bound.column, main, delta, marks)
    }

    /// Moves a column so that a basic one comes to its limit, and lets them change places.
    fn exchange(
        &mut self,
        alloc: Global,
        bound: Bound,
        at: usize,
        entry: Entry,
        marks: &mut Vec<bool>,
    ) -> Result<(), Stop>
        requires known { bound.column < length self.old.homes.items }
        requires home { slice_get self.old.homes.items bound.column ≡ Some (Some at) }
        requires row { at < length self.old.rows.items }
        requires entry { IsEntryOf self.old.rows.items at entry }
        requires some { ¬ ((fraction entry.factor).numerator ≡ pos 0) }
        requires marks { length marks.old.items ≡ length self.old.homes.items }
        ensures rows { self.new.originals ≡ self.old.originals }
        ensures width { length self.new.homes.items ≡ length self.old.homes.items }
        ensures bounds { self.new.bounds ≡ self.old.bounds }
        ensures met { OnOk result (IsAtLimit (values self.new.mains.items) (values self.new.deltas.items) bound) }
        ensures marked { AreMarked self.old.mains.items self.old.deltas.items self.new.mains.items self.new.deltas.items marks.old.items marks.new.items }
        ensures cause { IfErr result IsCause }
    {
        let value = self.value(bound.column);
        let inverse = reciprocal(entry.factor)?;
        let main_way = difference(bound.limit.main, value.main)?;
        let delta_way = difference(bound.limit.delta, value.delta)?;
        let main = times(main_way, inverse)?;
        let delta = times(delta_way, inverse)?;
        self.move_free(alloc, entry.column, main, delta, marks)?;
        self.pivot(alloc, at, entry.column, entry.factor)
    }

    /// Mends a broken bound of a basic column, or tells the contradiction.
    fn mend_basic(
        &mut self,
        alloc: Global,
        bound: Bound,
        limits: &Limits,
        at: usize,
        marks: &mut Vec<bool>,
        freely: bool,
    ) -> Result<Option<Conflict>, Stop>
        requires home { slice_get self.old.homes.items bound.column ≡ Some (Some at) }
        requires among { IsAmong bound self.old.bounds.items }
        requires broken { is_broken (values self.old.mains.items) (values self.old.deltas.items) bound ≡ true }
        requires limits { AreLimits self.old.bounds.items limits.now }
        requires lower { length limits.now.lower.items ≡ length self.old.homes.items }
        requires upper { length limits.now.upper.items ≡ length self.old.homes.items }
        requires marks { length marks.old.items ≡ length self.old.homes.items }
        ensures rows { self.new.originals ≡ self.old.originals }
        ensures width { length self.new.homes.items ≡ length self.old.homes.items }
        ensures bounds { self.new.bounds ≡ self.old.bounds }
        ensures marked { AreMarked self.old.mains.items self.old.deltas.items self.new.mains.items self.new.deltas.items marks.old.items marks.new.items }
        ensures conflict { IfOk result (λ o. IfSome o (λ c. IsContradiction self.old.originals.items self.old.bounds.items c.parts.items)) }
        ensures met { IfOk result (λ o. IfNone o (IsAtLimit (values self.new.mains.items) (values self.new.deltas.items) bound)) }
        ensures cause { IfErr result IsCause }
    {
        let toward = toward(bound.side);
        match find_way(
            alloc,
            &self.rows,
            &self.rows[at].entries,
            toward,
            limits,
            &self.mains,
            &self.deltas,
            freely,
        )? {
            Way::Moves(entry) => {
                self.exchange(alloc, bound, at, entry, marks)?;
                Ok(None)
            }
            Way::Stuck(parts) => {
                let mut parts = parts;
                parts.push(Part {
                    bound,
                    multiplier: own(bound.side),
                })?;
                Ok(Some(Conflict { parts }))
            }
        }
    }

    /// Mends a broken bound, or tells the contradiction.
    fn mend(
        &mut self,
        alloc: Global,
        bound: Bound,
        limits: &Limits,
        marks: &mut Vec<bool>,
        freely: bool,
    ) -> Result<Option<Conflict>, Stop>
        requires known { bound.column < length self.old.homes.items }
        requires among { IsAmong bound self.old.bounds.items }
        requires broken { is_broken (values self.old.mains.items) (values self.old.deltas.items) bound ≡ true }
        requires limits { AreLimits self.old.bounds.items limits.now }
        requires lower { length limits.now.lower.items ≡ length self.old.homes.items }
        requires upper { length limits.now.upper.items ≡ length self.old.homes.items }
        requires marks { length marks.old.items ≡ length self.old.homes.items }
        ensures rows { self.new.originals ≡ self.old.originals }
        ensures width { length self.new.homes.items ≡ length self.old.homes.items }
        ensures bounds { self.new.bounds ≡ self.old.bounds }
        ensures marked { AreMarked self.old.mains.items self.old.deltas.items self.new.mains.items self.new.deltas.items marks.old.items marks.new.items }
        ensures conflict { IfOk result (λ o. IfSome o (λ c. IsContradiction self.old.originals.items self.old.bounds.items c.parts.items)) }
        ensures met { IfOk result (λ o. IfNone o (IsAtLimit (values self.new.mains.items) (values self.new.deltas.items) bound)) }
        ensures cause { IfErr result IsCause }
    {
        match self.homes[bound.column as usize] {
            None => {
                self.move_to(alloc, bound, marks)?;
                Ok(None)
            }
            Some(at) => self.mend_basic(alloc, bound, limits, at, marks, freely),
        }
    }

    /// Spends a unit on the first broken bound, if one is: its column comes to the limit, or there is a conflict.
    fn turn(
        &mut self,
        alloc: Global,
        meter: &mut Meter,
        limits: &Limits,
        marks: &mut Vec<bool>,
        freely: bool,
    ) -> Result<Step, Undecided>
        requires limits { AreLimits self.old.bounds.items limits.now }
        requires tight { AreTight self.old.bounds.items limits.now }
        requires pending { ArePending limits.now (values self.old.mains.items) (values self.old.deltas.items) marks.old.items }
        requires lower { length limits.now.lower.items ≡ length self.old.homes.items }
        requires upper { length limits.now.upper.items ≡ length self.old.homes.items }
        requires marks { length marks.old.items ≡ length self.old.homes.items }
        ensures rows { self.new.originals ≡ self.old.originals }
        ensures width { length self.new.homes.items ≡ length self.old.homes.items }
        ensures bounds { self.new.bounds ≡ self.old.bounds }
        ensures count { length marks.new.items ≡ length marks.old.items }
        ensures pending { ArePending limits.now (values self.new.mains.items) (values self.new.deltas.items) marks.new.items }
        ensures turn { IfOk result (IsStep self.new meter.old.spent meter.new.spent) }
        ensures spent { meter.old.spent ≤ meter.new.spent }
        ensures units { IfOk result (IsTurn self.old self.new meter.old.spent meter.new.spent) }
        ensures stopped { IfErr result (IsStopped meter.old.spent meter.new.spent) }
        ensures undecided { IfErr result (IsUndecided meter.new.spent) }
    {
        match limits.first_broken(marks, &self.mains, &self.deltas) {
            None => Ok(Step::Ended(Checked::Feasible)),
            Some(bound) => {
                match meter.spend() {
                    Ok(()) => {}
                    Err(Budget) => return Err(Undecided::Budget),
                }
                match self.mend(alloc, bound, limits, marks, freely) {
                    Ok(None) => Ok(Step::On),
                    Ok(Some(conflict)) => Ok(Step::Ended(Checked::Conflict(conflict))),
                    Err(stop) => Err(cause_of(stop)),
                }
            }
        }
    }

    /// Whether values meet all bounds over the rows: `Feasible` where those of the columns do now, or a conflict.
    /// One unit is spent for each bound that is mended, and one for a conflict.
    ///
    /// # Errors
    /// `Budget` only where all units are spent, `Over` with a call that leaves 128 bits, or `Want`. The rows and bounds are
    /// the same then, and the values solve the rows.
    pub fn check(&mut self, alloc: Global, meter: &mut Meter) -> Result<Checked, Undecided>
        ensures rows { rows_of self.new ≡ rows_of self.old }
        ensures width { width_of self.new ≡ width_of self.old }
        ensures bounds { bounds_of self.new ≡ bounds_of self.old }
        ensures checked { IfOk result (IsChecked self.new) }
        ensures spent { meter.old.spent ≤ meter.new.spent }
        ensures paid { IfOk result (Pays self.old meter.old.spent meter.new.spent) }
        ensures stopped { IfErr result (HasPaid self.old meter.old.spent meter.new.spent) }
        ensures undecided { IfErr result (IsUndecided meter.new.spent) }
    {
        let limits = match Limits::new(alloc, &self.bounds, self.homes.len()) {
            Ok(limits) => limits,
            Err(stop) => return Err(cause_of(stop)),
        };
        let mut marks = match all_marked(alloc, self.homes.len()) {
            Ok(marks) => marks,
            Err(stop) => return Err(cause_of(stop)),
        };
        // The first turns choose what is cheap; the others the first that can move, so that they come to an end.
        let free_turns = self.homes.len();
        let start = meter.spent();
        loop {
            let freely = ((meter.spent() - start) as usize) < free_turns;
            match self.turn(alloc, meter, &limits, &mut marks, freely)? {
                Step::Ended(checked) => return Ok(checked),
                Step::On => {}
            }
        }
    }
}

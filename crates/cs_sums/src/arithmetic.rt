//! What is claimed of numbers, whether it can be, and values that meet it.
ghost use Rattle.std.specs.Prelude.{◌≤◌, IfOk, IfSome, IfNone};
ghost use Rattle.cs_sums.specs.Splits.{IsSplit, AreWhole};
ghost use Rattle.cs_sums.specs.Shown.{columns_of, values_of};

use crate::choice::{Splits, choice};
use crate::constraints::{Comparison, Constraint, Order, other_side, sides_of};
use crate::cuts::{Taken, cut_of};
use crate::equations::unsolvable;
use crate::limits::{Entered, Limits};
use crate::loose::spread;
use crate::reading::{line_between, numbers_of, value_at};
use crate::{Columns, Origin, Split, Stop, small_of, split_of, split_of_column, values_of};
use cs_farkas::{Numbers, Relation};
use cs_linear::{Bound, Checked, Entry, Part, Side};
use cs_meter::Meter;
use cs_table::Node;
use std::alloc::Global;
use vx_frac::Frac;

/// Why a constraint stands.
#[derive(Clone, Copy)]
pub enum Reason {
    /// The comparison of this number holds, or it doesn't.
    Claim(u32, bool),
    /// The terms of these numbers are equal.
    Same(u32, u32),
}

/// A constraint of a contradiction, and what it is multiplied by: at least 0, but for an equation.
#[derive(Clone, Copy)]
pub struct Share {
    pub reason: Reason,
    pub multiplier: Frac,
}

/// Claims that contradict one another, and a split that may tell why of whole numbers.
#[derive(Drop)]
pub struct Contradiction {
    pub shares: Vec<Share>,
    pub cut: Option<Split>,
}

/// A constraint that is claimed, why, and whether it comes from a split.
#[derive(Clone, Copy)]
struct Claimed {
    reason: Reason,
    constraint: Constraint,
    of_split: bool,
}

/// A comparison, and whether it comes from a split.
#[derive(Clone, Copy)]
struct Known {
    comparison: Comparison,
    of_split: bool,
}

/// The comparisons of a stack as constraints of columns, and what is claimed of them.
#[derive(Drop)]
pub struct Arithmetic {
    columns: Columns,
    // by terms
    comparisons: Vec<Option<Known>>,
    claimed: Vec<Claimed>,
    limits: Limits,
    bounds: Vec<Bound>,
    values: Vec<Frac>,
    // how often columns were split
    splits: Splits,
}

/// The numbers that a term's sort has.
fn numbers_at(nodes: &[Node], term: u32) -> Option<Numbers> {
    numbers_of(&nodes.get(term as usize)?.sort)
}

/// The size of a fraction: that of its numerator, or its denominator.
fn size_of(number: Frac) -> u128 {
    number.num().unsigned_abs().max(number.den().unsigned_abs())
}

/// The size of the greatest of some factors.
fn greatest(entries: &[Entry]) -> u128 {
    let mut greatest = 0;
    for entry in entries {
        greatest = size_of(entry.factor).max(greatest);
    }
    greatest
}

/// The part that a bound takes in a contradiction of two.
fn part_of(bound: Bound) -> Part {
    let multiplier = match bound.side {
        Side::AtLeast => Frac::whole(1),
        Side::AtMost => Frac::whole(-1),
    };
    Part { bound, multiplier }
}

impl Arithmetic {
    /// No comparisons, and nothing is claimed.
    pub fn new(alloc: Global) -> Arithmetic {
        Arithmetic {
            columns: Columns::new(alloc),
            comparisons: Vec::new(alloc),
            claimed: Vec::new(alloc),
            limits: Limits::new(alloc),
            bounds: Vec::new(alloc),
            values: Vec::new(alloc),
            splits: Splits::new(alloc),
        }
    }

    /// Makes room for a term.
    fn reach(&mut self, term: u32) -> Result<(), Stop> {
        for _ in self.comparisons.len()..=term as usize {
            self.comparisons.push(None)?;
        }
        Ok(())
    }

    /// The comparison of two terms.
    fn comparison(
        &mut self,
        alloc: Global,
        nodes: &[Node],
        order: Order,
        numbers: Numbers,
        sides: (u32, u32),
    ) -> Result<Comparison, Stop> {
        let (a, b) = sides;
        let line = line_between(alloc, nodes, &mut self.columns, numbers, a, b)?;
        Ok(Comparison {
            order,
            numbers,
            line,
        })
    }

    /// Whether the term of this number is a comparison that was taken.
    pub fn has(&self, term: u32) -> bool {
        match self.comparisons.get(term as usize) {
            Some(comparison) => comparison.is_some(),
            None => false,
        }
    }

    /// Takes a term, if it compares two of Int or of Real, and says whether it does. It may come from a split.
    ///
    /// # Errors
    /// `Over` where a fraction leaves 128 bits; `Miss` where no term has the number; `Want` where memory runs out.
    pub fn add(
        &mut self,
        alloc: Global,
        nodes: &[Node],
        term: u32,
        of_split: bool,
    ) -> Result<bool, Stop> {
        let Some(node) = nodes.get(term as usize) else {
            return Err(Stop::Miss);
        };
        let Some((order, a, b)) = sides_of(node) else {
            return Ok(false);
        };
        let Some(numbers) = numbers_at(nodes, a) else {
            return Ok(false);
        };
        let comparison = self.comparison(alloc, nodes, order, numbers, (a, b))?;
        if let (true, Some(column)) = (of_split, comparison.line.column) {
            self.splits.add(column)?;
        }
        self.reach(term)?;
        if let Some(place) = self.comparisons.get_mut(term as usize) {
            *place = Some(Known {
                comparison,
                of_split,
            });
        }
        Ok(true)
    }

    /// The size of the greatest numbers of a comparison, if it is one that was taken.
    fn size(&self, term: u32) -> Option<u128> {
        let known = (*self.comparisons.get(term as usize)?)?;
        let line = known.comparison.line;
        let own = size_of(line.factor).max(size_of(line.constant));
        let of = match line.column {
            Some(column) => self.columns.columns.get(column as usize)?.origin,
            None => return Some(own),
        };
        match of {
            Origin::Term(_) => Some(own),
            Origin::Sum(at) => Some(own.max(greatest(&self.columns.sums.get(at)?.entries))),
        }
    }

    /// The size of the greatest numbers of these comparisons.
    pub fn greatest(&self, terms: &[u32]) -> u128 {
        let mut greatest = 0;
        for term in terms {
            greatest = self.size(*term).unwrap_or(0).max(greatest);
        }
        greatest
    }

    /// Whether the numbers of a comparison have at least half as many digits as one of this size.
    pub fn is_heavy(&self, term: u32, greatest: u128) -> bool {
        let size = self.size(term).unwrap_or(0);
        match greatest.checked_div(size) {
            Some(times) => times <= size,
            None => greatest == 0,
        }
    }

    /// The same without all columns and comparisons, but for those of these terms, and with no claims.
    ///
    /// # Errors
    /// `Over` where a fraction leaves 128 bits; `Want` where memory runs out.
    pub fn rest(&self, alloc: Global, nodes: &[Node], terms: &[u32]) -> Result<Arithmetic, Stop> {
        let mut rest = Arithmetic::new(alloc);
        for term in terms {
            if let Some(Some(known)) = self.comparisons.get(*term as usize) {
                rest.add(alloc, nodes, *term, known.of_split)?;
            }
        }
        Ok(rest)
    }

    /// Takes back all claims. No memory.
    pub fn forget(&mut self) {
        self.columns.tableau.back_to(0);
        self.claimed.truncate(0);
        self.limits.clear();
        self.bounds.truncate(0);
    }

    /// Asserts a bound, if it says anything new. What it contradicts is given back.
    fn assert(&mut self, bound: Bound) -> Result<Option<Bound>, Stop> {
        if bound.column as usize >= self.columns.tableau.width() {
            return Err(Stop::Miss);
        }
        match self.limits.enter(bound)? {
            Entered::Idle => Ok(None),
            Entered::Against(other) => Ok(Some(other)),
            Entered::Tighter => {
                self.columns.tableau.assert_bound(bound)?;
                self.bounds.push(bound)?;
                Ok(None)
            }
        }
    }

    /// Asserts a bound. Two that contradict each other are given back as a contradiction.
    fn assert_one(&mut self, alloc: Global, bound: Bound) -> Result<Option<Vec<Share>>, Stop> {
        match self.assert(bound)? {
            None => Ok(None),
            Some(other) => {
                let parts = [part_of(bound), part_of(other)];
                Ok(Some(self.shares(alloc, &parts)?))
            }
        }
    }

    /// Asserts what a constraint says of its column.
    fn assert_all(
        &mut self,
        alloc: Global,
        column: u32,
        claimed: Claimed,
    ) -> Result<Option<Vec<Share>>, Stop> {
        let Ok(number) = u32::try_from(self.claimed.len()) else {
            return Err(Stop::Want);
        };
        self.claimed.push(claimed)?;
        let bound = claimed.constraint.bound(column, number)?;
        if let Some(shares) = self.assert_one(alloc, bound)? {
            return Ok(Some(shares));
        }
        match claimed.constraint.relation {
            Relation::IsZero => self.assert_one(alloc, other_side(bound)),
            Relation::AtMostZero | Relation::BelowZero => Ok(None),
        }
    }

    /// Claims a constraint. What contradicts it is given back with it.
    fn take(&mut self, alloc: Global, claimed: Claimed) -> Result<Option<Vec<Share>>, Stop> {
        if let Some(column) = claimed.constraint.line.column {
            return self.assert_all(alloc, column, claimed);
        }
        match claimed.constraint.refuted_by()? {
            Some(multiplier) => {
                let mut shares = Vec::new(alloc);
                shares.push(Share {
                    reason: claimed.reason,
                    multiplier,
                })?;
                Ok(Some(shares))
            }
            None => Ok(None),
        }
    }

    /// Claims that a comparison holds, or that it doesn't; nothing of another term. Where a claim before it or none is enough
    /// for a contradiction, that is given back.
    ///
    /// # Errors
    /// `Over` where a fraction leaves 128 bits; `Want` where memory runs out.
    pub fn claim(
        &mut self,
        alloc: Global,
        term: u32,
        holds: bool,
    ) -> Result<Option<Vec<Share>>, Stop> {
        let Some(Some(known)) = self.comparisons.get(term as usize) else {
            return Ok(None);
        };
        let of_split = known.of_split;
        let Some(constraint) = known.comparison.constraint(holds)? else {
            return Ok(None);
        };
        let claimed = Claimed {
            reason: Reason::Claim(term, holds),
            constraint,
            of_split,
        };
        self.take(alloc, claimed)
    }

    /// Claims that two terms of Int or of Real are equal. Where a claim before it or none is enough for a contradiction, that
    /// is given back.
    ///
    /// # Errors
    /// `Over` where a fraction leaves 128 bits; `Miss` where a number is no such term's; `Want` where memory runs out.
    pub fn claim_same(
        &mut self,
        alloc: Global,
        nodes: &[Node],
        a: u32,
        b: u32,
    ) -> Result<Option<Vec<Share>>, Stop> {
        let Some(numbers) = numbers_at(nodes, a) else {
            return Err(Stop::Miss);
        };
        let comparison = self.comparison(alloc, nodes, Order::Equal, numbers, (a, b))?;
        let Some(constraint) = comparison.constraint(true)? else {
            return Err(Stop::Miss);
        };
        let claimed = Claimed {
            reason: Reason::Same(a, b),
            constraint,
            of_split: false,
        };
        self.take(alloc, claimed)
    }

    /// The claim that a part of a contradiction of the tableau stands for.
    fn claimed(&self, part: &Part) -> Result<Claimed, Stop> {
        match self.claimed.get(part.bound.reason as usize) {
            Some(claimed) => Ok(*claimed),
            None => Err(Stop::Miss),
        }
    }

    /// A part of a contradiction of the tableau.
    fn share(&self, part: &Part) -> Result<Share, Stop> {
        let claimed = self.claimed(part)?;
        Ok(Share {
            reason: claimed.reason,
            multiplier: claimed.constraint.multiplier(part.multiplier)?,
        })
    }

    /// A constraint of a contradiction of the tableau.
    fn taken(&self, part: &Part) -> Result<Taken, Stop> {
        let claimed = self.claimed(part)?;
        Ok(Taken {
            constraint: claimed.constraint,
            multiplier: claimed.constraint.multiplier(part.multiplier)?,
            of_split: claimed.of_split,
        })
    }

    /// The split that a contradiction of the tableau asks for; none where a fraction of it leaves 128 bits.
    fn cut(&self, alloc: Global, parts: &[Part]) -> Result<Option<Split>, Stop> {
        let mut all = Vec::new(alloc);
        for part in parts {
            all.push(self.taken(part)?)?;
        }
        match cut_of(alloc, &self.columns, &all) {
            Err(Stop::Over(_)) => Ok(None),
            cut => cut,
        }
    }

    /// A contradiction of the tableau.
    fn contradiction(&self, alloc: Global, parts: &[Part]) -> Result<Contradiction, Stop> {
        Ok(Contradiction {
            shares: self.shares(alloc, parts)?,
            cut: self.cut(alloc, parts)?,
        })
    }

    /// The parts of a contradiction of the tableau.
    fn shares(&self, alloc: Global, parts: &[Part]) -> Result<Vec<Share>, Stop> {
        let mut shares = Vec::new(alloc);
        for part in parts {
            shares.push(self.share(part)?)?;
        }
        Ok(shares)
    }

    /// Values for all columns that meet what is claimed, or what of it contradicts itself.
    ///
    /// # Errors
    /// `Budget` where all units are spent; `Over` where a fraction leaves 128 bits; `Want` where memory runs out.
    pub fn check(&mut self, alloc: Global, meter: &mut Meter) -> Result<Option<Contradiction>, Stop>
        ensures { meter.old.spent ≤ meter.new.spent }
    {
        match self.columns.tableau.check(alloc, meter)? {
            Checked::Feasible => {
                let small = small_of(&self.columns.tableau, &self.bounds)?;
                self.values = values_of(alloc, &self.columns.tableau, small)?;
                spread(alloc, &self.columns, &self.limits, &mut self.values)?;
                Ok(None)
            }
            Checked::Conflict(conflict) => Ok(Some(self.contradiction(alloc, &conflict.parts)?)),
        }
    }

    /// The value of a term of Int or Real, as the last check left it.
    ///
    /// # Errors
    /// `Over` where a fraction leaves 128 bits; `Miss` where no term has the number.
    pub fn value(&self, nodes: &[Node], term: u32) -> Result<Frac, Stop> {
        value_at(nodes, term, &self.columns, &self.values)
    }

    /// The split of a sum of Int terms whose value follows from the equations that are claimed, and is no whole number. It is looked for where
    /// the values that the last check left aren't whole.
    ///
    /// # Errors
    /// `Want` where memory runs out.
    pub fn unsolvable(&self, alloc: Global) -> Result<Option<Split>, Stop> {
        if choice(&self.columns, &self.limits, &self.splits, &self.values).is_none() {
            return Ok(None);
        }
        match unsolvable(alloc, &self.columns, &self.limits) {
            Err(Stop::Over(_)) => Ok(None),
            found => found,
        }
    }

    /// The split of the column that is to be split next, if there is one.
    fn chosen(&self, alloc: Global) -> Result<Option<Split>, Stop>
        ensures { IfOk result (λ found. IfSome found (λ split. IsSplit (columns_of self.now) (values_of self.now) split.parts.items split.value)) }
    {
        match choice(&self.columns, &self.limits, &self.splits, &self.values) {
            Some(column) => split_of_column(alloc, &self.columns, &self.values, column),
            None => Ok(None),
        }
    }

    /// A sum of Int terms, or one Int term, whose value is no whole number, if there is one: the split is at this value.
    ///
    /// # Errors
    /// `Miss` where a sum has a column that isn't that of a term; `Want` where memory runs out.
    pub fn fractional(&self, alloc: Global) -> Result<Option<Split>, Stop>
        ensures split { IfOk result (λ found. IfSome found (λ split. IsSplit (columns_of self.now) (values_of self.now) split.parts.items split.value)) }
        ensures whole { IfOk result (λ found. IfNone found (AreWhole (columns_of self.now) (values_of self.now))) }
    {
        match self.chosen(alloc)? {
            Some(split) => Ok(Some(split)),
            None => split_of(alloc, &self.columns, &self.values),
        }
    }
}

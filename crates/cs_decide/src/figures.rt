//! What an assignment claims of numbers: whether it can be, and the values that meet it.
ghost use Rattle.std.specs.Prelude.{◌+◌, ◌/◌, ◌<◌, ◌≤◌, ◌≡◌, IfOk, OnOk};
ghost use Rattle.cs_decide.specs.Spent.{SpendsOnCases};

use crate::clashes::clash;
use crate::elements::Sources;
use crate::products::{misread_factor, product_cases};
use cs_claims::claims::{Claims, value_of};
use cs_claims::farkas::refutation_of;
use cs_meter::{Budget, Meter};
use cs_record::atoms::Atoms;
use cs_record::cases::{order, parted};
use cs_record::draft::Lemma;
use cs_record::numbered::Record;
use cs_search::assignment::Assignment;
use cs_search::{Entry, Value};
use cs_sums::{Arithmetic, Contradiction, Share, Split, Stop, numbers_of};
use std::alloc::Global;
use vx_frac::{Frac, Over};

/// So many clauses of cases come of products at most.
const PRODUCT_CASES: u32 = 64;

/// The numbers among the terms, and what is claimed of them.
#[derive(Drop)]
pub struct Figures {
    pub arithmetic: Arithmetic,
    // the comparisons of numbers that are atoms
    comparisons: Vec<u32>,
    // how many terms the classes know
    count: u32,
    // those of them that are of Int and Real
    terms: Vec<u32>,
    // how many clauses of cases there were
    told: u32,
    // how many clauses of cases may still come of products
    products: u32,
    // the first call that left 128 bits: what it was needed for isn't claimed
    over: Option<Over>,
    // of the turns of the arithmetic, which aren't those of the search
    pivots: Meter,
}

/// How often the comparisons of the greatest numbers are left out at most: each time, those whose numbers have at least half as many
/// digits as the greatest ones.
const LIGHTENINGS: u32 = 16;

/// A clause that tells cases, whether its first one is to be tried first, and whether it is a split.
#[derive(Drop)]
pub struct Cases {
    pub lemma: Lemma,
    pub first: bool,
    pub of_split: bool,
}

/// What the numbers lead to.
#[derive(Drop)]
pub enum Found {
    /// The clause is false under the assignment.
    Lemma(Lemma),
    /// The clause tells cases.
    Cases(Cases),
    /// There are values that meet all claims.
    Values,
}

/// What the classes add to the constraints.
#[derive(Drop)]
enum Joined {
    Nothing,
    More,
    Refuted(Vec<Share>),
}

fn numbers_among(alloc: Global, record: &Record, count: u32) -> Result<Vec<u32>, Stop> {
    let mut terms = Vec::new(alloc);
    for number in 0..count {
        if numbers_of(&record.node(number)?.sort).is_some() {
            terms.push(number)?;
        }
    }
    Ok(terms)
}

impl Figures {
    /// The numbers of a record, with the comparisons that are atoms.
    ///
    /// # Errors
    /// `Over` where a fraction leaves 128 bits; `Want` where memory runs out.
    pub fn new(alloc: Global, record: &Record, atoms: &Atoms) -> Result<Figures, Stop> {
        let count = record.count()?;
        let mut figures = Figures {
            arithmetic: Arithmetic::new(alloc),
            comparisons: Vec::new(alloc),
            count,
            terms: numbers_among(alloc, record, count)?,
            told: 0,
            products: PRODUCT_CASES,
            over: None,
            pivots: Meter::new(),
        };
        for number in 0..count {
            if atoms.find(number).is_some() {
                figures.add(alloc, record, number, false)?;
            }
        }
        Ok(figures)
    }

    /// Something isn't claimed, since this call leaves 128 bits.
    fn pass(&mut self, call: Over) {
        if self.over.is_none() {
            self.over = Some(call);
        }
    }

    /// Takes an atom, if it compares numbers and isn't taken yet. It may come from a split. Where its sum leaves 128 bits, it is
    /// no comparison, but an atom as any other.
    ///
    /// # Errors
    /// `Want` where memory runs out.
    pub fn add(
        &mut self,
        alloc: Global,
        record: &Record,
        number: u32,
        of_split: bool,
    ) -> Result<(), Stop> {
        if self.arithmetic.has(number) {
            return Ok(());
        }
        let nodes = &record.table.nodes;
        match self.arithmetic.add(alloc, nodes, number, of_split) {
            Ok(true) => self.comparisons.push(number)?,
            Ok(false) => {}
            Err(Stop::Over(call)) => self.pass(call),
            Err(stop) => return Err(stop),
        }
        Ok(())
    }

    /// The value of a term of Int or Real, as the last check left it.
    ///
    /// # Errors
    /// `Over` where a fraction leaves 128 bits; `Miss` where no term has the number.
    pub fn value(&self, record: &Record, term: u32) -> Result<Frac, Stop> {
        self.arithmetic.value(&record.table.nodes, term)
    }

    /// Claims that a comparison holds, or that it doesn't; nothing where its bound leaves 128 bits.
    fn claim_one(
        &mut self,
        alloc: Global,
        number: u32,
        holds: bool,
    ) -> Result<Option<Vec<Share>>, Stop> {
        match self.arithmetic.claim(alloc, number, holds) {
            Err(Stop::Over(call)) => {
                self.pass(call);
                Ok(None)
            }
            claimed => claimed,
        }
    }

    /// Claims what an assignment says of the comparisons, in the order in which it came to say so: of two bounds that say the same, the one that
    /// holds by less stands. Two that contradict each other are given back.
    fn claim(
        &mut self,
        alloc: Global,
        atoms: &Atoms,
        trail: &[Entry],
    ) -> Result<Option<Vec<Share>>, Stop> {
        self.arithmetic.forget();
        for entry in trail {
            let literal = atoms.term(entry.literal)?;
            if self.arithmetic.has(literal.number) {
                if let Some(shares) = self.claim_one(alloc, literal.number, literal.positive)? {
                    return Ok(Some(shares));
                }
            }
        }
        Ok(None)
    }

    /// Whether a term and the one that stands for its class have other values.
    fn is_apart(&self, record: &Record, term: u32, class: u32) -> Result<bool, Stop> {
        Ok(term != class && self.value(record, term)? != self.value(record, class)?)
    }

    /// Claims that two terms are equal; nothing where their difference leaves 128 bits.
    fn join_one(
        &mut self,
        alloc: Global,
        record: &Record,
        term: u32,
        class: u32,
    ) -> Result<Joined, Stop> {
        let nodes = &record.table.nodes;
        match self.arithmetic.claim_same(alloc, nodes, term, class) {
            Ok(Some(shares)) => Ok(Joined::Refuted(shares)),
            Ok(None) => Ok(Joined::More),
            Err(Stop::Over(call)) => {
                self.pass(call);
                Ok(Joined::Nothing)
            }
            Err(stop) => Err(stop),
        }
    }

    /// Claims that terms of one class with other values are equal.
    fn join(&mut self, alloc: Global, record: &Record, claims: &Claims) -> Result<Joined, Stop> {
        let mut joined = Joined::Nothing;
        for at in 0..self.terms.len() {
            let Some(term) = self.terms.get(at) else {
                return Err(Stop::Miss);
            };
            let (term, class) = (*term, claims.held.class_of(*term)?);
            if self.is_apart(record, term, class)? {
                match self.join_one(alloc, record, term, class)? {
                    Joined::Nothing => {}
                    Joined::More => joined = Joined::More,
                    Joined::Refuted(shares) => return Ok(Joined::Refuted(shares)),
                }
            }
        }
        Ok(joined)
    }

    /// Values that meet the claims and the classes, or a contradiction.
    fn settle(
        &mut self,
        alloc: Global,
        record: &Record,
        claims: &Claims,
    ) -> Result<Option<Contradiction>, Stop> {
        for _ in 0..=self.terms.len() {
            if let Some(found) = self.arithmetic.check(alloc, &mut self.pivots)? {
                return Ok(Some(found));
            }
            match self.join(alloc, record, claims)? {
                Joined::Nothing => return Ok(None),
                Joined::More => {}
                Joined::Refuted(shares) => {
                    return Ok(Some(Contradiction { shares, cut: None }));
                }
            }
        }
        Err(Stop::Miss)
    }

    /// The sides of an equality that is denied, though their values are equal.
    fn tie(
        &self,
        record: &Record,
        atoms: &Atoms,
        values: &[Value],
    ) -> Result<Option<(u32, u32)>, Stop> {
        for number in &self.comparisons {
            if value_of(values, atoms.find(*number)) == Some(false) {
                if let Some((a, b)) = record.sides(*number)? {
                    if self.value(record, a)? == self.value(record, b)? {
                        return Ok(Some((a, b)));
                    }
                }
            }
        }
        Ok(None)
    }

    /// A clause of cases that the values want: a sum of Int terms has no whole value, or two terms have one value.
    fn cases(
        &mut self,
        alloc: Global,
        record: &mut Record,
        atoms: &Atoms,
        values: &[Value],
        claims: &Claims,
    ) -> Result<Option<Cases>, Stop> {
        if let Some(split) = self.arithmetic.unsolvable(alloc)? {
            return Ok(Some(split_by(alloc, record, &split)?));
        }
        if let Some(split) = self.arithmetic.fractional(alloc)? {
            return Ok(Some(split_by(alloc, record, &split)?));
        }
        if let Some((a, b)) = self.tie(record, atoms, values)? {
            return Ok(Some(told_apart(alloc, record, a, b)?));
        }
        let sources = Sources {
            record,
            atoms,
            values,
            claims,
            figures: self,
        };
        if let Some((a, b)) = clash(alloc, &sources, self.count)? {
            return Ok(Some(told_apart(alloc, record, a, b)?));
        }
        let Some(factor) = misread_factor(&sources, self.count)? else {
            return Ok(None);
        };
        let Some(left) = self.products.checked_sub(1) else {
            return Ok(None);
        };
        self.products = left;
        Ok(Some(product_cases(alloc, record, atoms, values, factor)?))
    }

    /// What an assignment and the classes over it lead to, by all comparisons that are left.
    fn weigh(
        &mut self,
        alloc: Global,
        record: &mut Record,
        atoms: &Atoms,
        made: &Assignment,
        claims: &Claims,
        meter: &mut Meter,
    ) -> Result<Found, Stop>
        ensures spent { meter.old.spent ≤ meter.new.spent }
        ensures cases { IfOk result (SpendsOnCases meter.old.spent meter.new.spent) }
    {
        if let Some(shares) = self.claim(alloc, atoms, &made.trail)? {
            let lemma = refutation_of(alloc, record, claims, &shares)?;
            return Ok(Found::Lemma(lemma));
        }
        if let Some(found) = self.settle(alloc, record, claims)? {
            return self.refuted(alloc, record, atoms, claims, meter, &found);
        }
        match self.cases(alloc, record, atoms, &made.values, claims)? {
            Some(cases) => self.tell(meter, cases),
            None => Ok(Found::Values),
        }
    }

    /// Leaves out the comparisons whose numbers have at least half as many digits as the greatest ones, since this call leaves 128 bits.
    ///
    /// # Errors
    /// `Over` with this call where there is nothing to leave out; `Want` where memory runs out.
    fn lighten(&mut self, alloc: Global, record: &Record, call: Over) -> Result<(), Stop> {
        if self.comparisons.is_empty() {
            return Err(Stop::Over(call));
        }
        self.pass(call);
        let greatest = self.arithmetic.greatest(&self.comparisons);
        let mut light = Vec::new(alloc);
        for number in &self.comparisons {
            if !self.arithmetic.is_heavy(*number, greatest) {
                light.push(*number)?;
            }
        }
        self.arithmetic = self.arithmetic.rest(alloc, &record.table.nodes, &light)?;
        self.comparisons = light;
        Ok(())
    }

    /// What an assignment and the classes over it lead to. Cases take a unit, and one more for each sixteen before them. Where a fraction
    /// leaves 128 bits, the comparisons of the greatest numbers are left out from then on.
    ///
    /// # Errors
    /// `Budget` where all units are spent; `Over` where a fraction leaves 128 bits with no comparison; `Want` where memory runs out.
    pub fn examine(
        &mut self,
        alloc: Global,
        record: &mut Record,
        atoms: &Atoms,
        made: &Assignment,
        claims: &Claims,
        meter: &mut Meter,
    ) -> Result<Found, Stop>
        ensures spent { meter.old.spent ≤ meter.new.spent }
        ensures cases { IfOk result (SpendsOnCases meter.old.spent meter.new.spent) }
    {
        for _ in 0..LIGHTENINGS {
            match self.weigh(alloc, record, atoms, made, claims, meter) {
                Err(Stop::Over(call)) => self.lighten(alloc, record, call)?,
                found => return found,
            }
        }
        self.weigh(alloc, record, atoms, made, claims, meter)
    }

    /// Why a model is none. Where something wasn't claimed, this may be why.
    pub fn excused(&self, stop: Stop) -> Stop {
        match (stop, self.over) {
            (Stop::Miss, Some(call)) => Stop::Over(call),
            (stop, _) => stop,
        }
    }

    /// Spends the units of a clause of cases.
    fn tell(&mut self, meter: &mut Meter, cases: Cases) -> Result<Found, Stop>
        ensures units { OnOk result (meter.new.spent ≡ meter.old.spent + self.old.told / 16 + 1) }
        ensures spent { meter.old.spent ≤ meter.new.spent }
        ensures cases { IfOk result (SpendsOnCases meter.old.spent meter.new.spent) }
    {
        if let Err(Budget) = meter.spend_many(self.told / 16 + 1) {
            return Err(Stop::Budget);
        }
        self.told = self.told.saturating_add(1);
        Ok(Found::Cases(cases))
    }

    /// A contradiction leads to its cut, if that is a new one, and else to a lemma.
    fn refuted(
        &mut self,
        alloc: Global,
        record: &mut Record,
        atoms: &Atoms,
        claims: &Claims,
        meter: &mut Meter,
        found: &Contradiction,
    ) -> Result<Found, Stop>
        ensures spent { meter.old.spent ≤ meter.new.spent }
        ensures cases { IfOk result (SpendsOnCases meter.old.spent meter.new.spent) }
    {
        if let Some(split) = &found.cut {
            let cases = split_by(alloc, record, split)?;
            if cases
                .lemma
                .literals
                .iter()
                .all(|literal| atoms.find(literal.number).is_none())
            {
                return self.tell(meter, cases);
            }
        }
        let lemma = refutation_of(alloc, record, claims, &found.shares)?;
        Ok(Found::Lemma(lemma))
    }
}

/// The cases of a split.
fn split_by(alloc: Global, record: &mut Record, split: &Split) -> Result<Cases, Stop> {
    Ok(Cases {
        lemma: parted(alloc, record, &split.parts, split.floor)?,
        first: split.low,
        of_split: true,
    })
}

/// The cases of two terms.
fn told_apart(alloc: Global, record: &mut Record, a: u32, b: u32) -> Result<Cases, Stop> {
    Ok(Cases {
        lemma: order(alloc, record, a, b)?,
        first: false,
        of_split: false,
    })
}

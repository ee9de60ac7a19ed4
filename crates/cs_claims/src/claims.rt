//! What an assignment claims in the classes: equalities, differences, and the values of Bool terms that symbols take
//! or give.

use crate::held::Held;
use crate::numbers::Numbers;
use cs_proof::Step;
use cs_record::atoms::Atoms;
use cs_record::numbered::Record;
use cs_search::examine::same;
use cs_search::{Entry, Literal, Value};
use cs_table::{Head, Node, Stop, equality};
use std::alloc::Global;

/// What is claimed.
#[derive(Clone, Copy)]
pub enum Claim {
    /// The equality of this number is true, or it is false.
    Equality(u32, bool),
    /// The Bool term of this number is equal to `true`, or to `false`.
    Value(u32, bool),
    /// `true` isn't equal to `false`.
    Truths,
}

/// The numbers of `true` and `false`, and of the clauses that define them.
#[derive(Clone, Copy)]
pub struct Truths {
    pub yes: u32,
    pub no: u32,
    pub yes_clause: u32,
    pub no_clause: u32,
}

impl Truths {
    /// Numbers and defines the two.
    fn new(alloc: Global, record: &mut Record) -> Result<Truths, Stop> {
        let yes = record.truth(alloc, true)?;
        let no = record.truth(alloc, false)?;
        let yes_clause = record.derive(Step::Define(u128::from(yes), 0))?;
        let no_clause = record.derive(Step::Define(u128::from(no), 0))?;
        Ok(Truths {
            yes,
            no,
            yes_clause,
            no_clause,
        })
    }

    /// The number of one of the two.
    pub fn number(&self, holds: bool) -> u32 {
        if holds { self.yes } else { self.no }
    }

    /// The number of the clause that defines one of the two.
    pub fn clause(&self, holds: bool) -> u32 {
        if holds {
            self.yes_clause
        } else {
            self.no_clause
        }
    }
}

/// A literal of which all is claimed, and how many claims stood before it.
#[derive(Clone, Copy)]
struct Followed {
    literal: Literal,
    before: usize,
}

/// Whether the claim is that two terms are equal.
fn is_equal(claim: Claim) -> bool {
    match claim {
        Claim::Equality(_, holds) => holds,
        Claim::Value(_, _) => true,
        Claim::Truths => false,
    }
}

/// What the classes are asked of, and what is claimed of it.
#[derive(Drop)]
pub struct Claims {
    pub held: Held,
    // the equalities that are atoms, and are numbered before their other orders; and those that came later
    equalities: Numbers,
    // the Bool terms under symbols, and the Bool applications of symbols
    bools: Numbers,
    // these, if there are such Bool terms
    pub truths: Option<Truths>,
    made: Vec<Claim>,
    // in the order in which the literals became true
    followed: Vec<Followed>,
}

/// An atom's value.
pub fn value_of(values: &[Value], atom: Option<u32>) -> Option<bool> {
    match values.get(atom? as usize)? {
        Value::Positive(_) => Some(true),
        Value::Negative(_) => Some(false),
        Value::Unset => None,
    }
}

/// Whether the term is an equality that stands for both of its orders, and an atom.
fn is_asked(record: &Record, atoms: &Atoms, number: u32) -> Result<bool, Stop> {
    let Some((a, b)) = record.sides(number)? else {
        return Ok(false);
    };
    Ok(equality(&record.table, a, b) == Some(number) && atoms.find(number).is_some())
}

fn equalities_of(alloc: Global, record: &Record, atoms: &Atoms) -> Result<Vec<u32>, Stop> {
    let mut found = Vec::new(alloc);
    for number in 0..record.count()? {
        if is_asked(record, atoms, number)? {
            found.push(number)?;
        }
    }
    Ok(found)
}

fn mark(marks: &mut [bool], number: u32) {
    if let Some(place) = marks.get_mut(number as usize) {
        *place = true;
    }
}

/// Marks an application, and its parts.
fn mark_bools(marks: &mut [bool], node: &Node, number: u32) {
    if let Head::Apply(_, _) = &node.head {
        mark(marks, number);
        for part in &node.parts {
            mark(marks, *part);
        }
    }
}

/// Whether the term is Bool, and neither `true` nor `false`.
fn is_open(record: &Record, number: u32) -> Result<bool, Stop> {
    match &record.node(number)?.head {
        Head::Truth(_) => Ok(false),
        _ => record.is_bool(number),
    }
}

/// Which terms are applications, or parts of one.
fn marks_of(alloc: Global, record: &Record, count: u32) -> Result<Vec<bool>, Stop> {
    let mut marks = vec![in alloc; false; count as usize]?;
    for number in 0..count {
        mark_bools(&mut marks, record.node(number)?, number);
    }
    Ok(marks)
}

fn bools_of(alloc: Global, record: &Record) -> Result<Vec<u32>, Stop> {
    let count = record.count()?;
    let marks = marks_of(alloc, record, count)?;
    let mut found = Vec::new(alloc);
    for number in 0..count {
        if marks.get(number as usize) == Some(&true) && is_open(record, number)? {
            found.push(number)?;
        }
    }
    Ok(found)
}

/// `true` and `false`, if there are Bool terms to be compared with them.
fn truths_of(alloc: Global, record: &mut Record, bools: &[u32]) -> Result<Option<Truths>, Stop> {
    if bools.is_empty() {
        return Ok(None);
    }
    Ok(Some(Truths::new(alloc, record)?))
}

impl Claims {
    /// Nothing is claimed of the terms of a record, but that `true` isn't `false`.
    ///
    /// # Errors
    /// `Want` where memory runs out.
    pub fn new(alloc: Global, record: &mut Record, atoms: &Atoms) -> Result<Claims, Stop> {
        let equalities = Numbers::of(alloc, &equalities_of(alloc, record, atoms)?)?;
        let bools = bools_of(alloc, record)?;
        let truths = truths_of(alloc, record, &bools)?;
        let held = Held::new(alloc, &record.table)?;
        let mut claims = Claims {
            held,
            equalities,
            bools: Numbers::of(alloc, &bools)?,
            truths,
            made: Vec::new(alloc),
            followed: Vec::new(alloc),
        };
        if claims.truths.is_some() {
            claims.put(alloc, record, Claim::Truths)?;
        }
        Ok(claims)
    }

    /// Claims the equality of this number too, if it is one of terms that the classes know, and isn't claimed yet.
    ///
    /// # Errors
    /// `Miss` where no term has the number; `Want` where memory runs out.
    pub fn add(&mut self, record: &Record, atoms: &Atoms, number: u32) -> Result<(), Stop> {
        let Some((a, b)) = record.sides(number)? else {
            return Ok(());
        };
        if self.held.has(a) && self.held.has(b) && self.equalities.insert(number)? {
            if let Some(atom) = atoms.find(number) {
                self.forget(atom);
            }
        }
        Ok(())
    }

    /// The two terms that a claim is of.
    ///
    /// # Errors
    /// `Miss` where a number isn't an equality's.
    pub fn ends(&self, record: &Record, claim: Claim) -> Result<(u32, u32), Stop> {
        match (claim, self.truths) {
            (Claim::Equality(number, _), _) => match record.sides(number)? {
                Some(sides) => Ok(sides),
                None => Err(Stop::Miss),
            },
            (Claim::Value(number, holds), Some(truths)) => Ok((number, truths.number(holds))),
            (Claim::Truths, Some(truths)) => Ok((truths.yes, truths.no)),
            (Claim::Value(_, _) | Claim::Truths, None) => Err(Stop::Miss),
        }
    }

    /// What a literal claims, if it is one of an equality, or of a Bool term that symbols take or give.
    fn claimed_by(&self, number: u32, holds: bool) -> Option<Claim> {
        if self.equalities.contains(number) {
            return Some(Claim::Equality(number, holds));
        }
        if self.bools.contains(number) {
            return Some(Claim::Value(number, holds));
        }
        None
    }

    /// One claim more.
    fn put(&mut self, alloc: Global, record: &Record, claim: Claim) -> Result<(), Stop> {
        let (a, b) = self.ends(record, claim)?;
        self.held.claim(alloc, a, b, is_equal(claim))?;
        self.made.push(claim)?;
        Ok(())
    }

    /// How many of the literals of which all is claimed the trail begins with.
    fn common(&self, trail: &[Entry]) -> usize {
        for (at, old) in self.followed.iter().enumerate() {
            match trail.get(at) {
                Some(entry) if same(old.literal, entry.literal) => {}
                _ => return at,
            }
        }
        self.followed.len()
    }

    /// Takes back what is claimed by the literal of an atom, and by those behind.
    fn forget(&mut self, atom: u32) {
        for at in 0..self.followed.len() {
            if self.followed[at].literal.number == atom {
                self.back_to(at);
                return;
            }
        }
    }

    /// Takes back what is claimed by the literals that the trail doesn't begin with. No memory.
    pub fn keep(&mut self, trail: &[Entry]) {
        let count = self.common(trail);
        self.back_to(count);
    }

    /// Takes back what is claimed by all literals but the first of them.
    fn back_to(&mut self, count: usize) {
        if let Some(followed) = self.followed.get(count) {
            let before = followed.before;
            self.held.back_to(before);
            self.made.truncate(before);
            self.followed.truncate(count);
        }
    }

    /// Claims what one literal more claims.
    fn follow_one(
        &mut self,
        alloc: Global,
        record: &Record,
        atoms: &Atoms,
        literal: Literal,
    ) -> Result<(), Stop> {
        let before = self.made.len();
        let term = atoms.term(literal)?;
        if let Some(claim) = self.claimed_by(term.number, term.positive) {
            self.put(alloc, record, claim)?;
        }
        self.followed.push(Followed { literal, before })?;
        Ok(())
    }

    /// Claims what the literals claim that the trail has got since.
    ///
    /// # Errors
    /// `Want` where memory runs out.
    pub fn follow(
        &mut self,
        alloc: Global,
        record: &Record,
        atoms: &Atoms,
        trail: &[Entry],
    ) -> Result<(), Stop> {
        let rest = trail.get(self.followed.len()..).unwrap_or(&[]);
        for entry in rest {
            self.follow_one(alloc, record, atoms, entry.literal)?;
        }
        Ok(())
    }

    /// Whether the number is that of an equality whose terms are equal by what is claimed.
    ///
    /// # Errors
    /// `Miss` where a side isn't known.
    pub fn is_joined(&self, record: &Record, number: u32) -> Result<bool, Stop> {
        if !self.equalities.contains(number) {
            return Ok(false);
        }
        let (a, b) = self.ends(record, Claim::Equality(number, true))?;
        Ok(self.held.class_of(a)? == self.held.class_of(b)?)
    }

    /// The claim of a number.
    ///
    /// # Errors
    /// `Miss` where there is none.
    pub fn claim(&self, at: usize) -> Result<Claim, Stop> {
        match self.made.get(at) {
            Some(claim) => Ok(*claim),
            None => Err(Stop::Miss),
        }
    }

    /// The first claim of a difference that doesn't hold.
    ///
    /// # Errors
    /// `Miss` where it has no number.
    pub fn broken(&self) -> Result<Option<Claim>, Stop> {
        match self.held.broken() {
            Some(at) => Ok(Some(self.claim(at as usize)?)),
            None => Ok(None),
        }
    }
}

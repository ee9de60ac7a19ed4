//! A clause that is derived, as it is written.

use crate::numbered::Record;
use cs_proof::Step;
use cs_table::{Literal, Stop};
use std::alloc::Global;
use std::collections::HashSet;

/// A clause of terms, with its number in the certificate.
#[derive(Drop)]
pub struct Lemma {
    pub literals: Vec<Literal>,
    pub number: u32,
}

/// A lemma as it is written: its literals, and the numbers of the clauses that derive it.
#[derive(Drop)]
pub struct Draft {
    literals: Vec<Literal>,
    hints: Vec<u128>,
    // the literals, each of which stands once
    known: HashSet<(u32, bool)>,
}

impl Draft {
    /// Nothing is written yet.
    pub fn new(alloc: Global) -> Draft {
        Draft {
            literals: Vec::new(alloc),
            hints: Vec::new(alloc),
            known: HashSet::new(alloc),
        }
    }

    /// A literal more, unless it stands there.
    ///
    /// # Errors
    /// `Want` where memory runs out.
    pub fn add(&mut self, positive: bool, number: u32) -> Result<(), Stop> {
        if self.known.insert((number, positive))? {
            self.literals.push(Literal { positive, number })?;
        }
        Ok(())
    }

    /// A clause more that derives it.
    ///
    /// # Errors
    /// `Want` where memory runs out.
    pub fn hint(&mut self, clause: u32) -> Result<(), Stop> {
        self.hints.push(u128::from(clause))?;
        Ok(())
    }

    /// A step more, whose clause derives it.
    ///
    /// # Errors
    /// `Want` where memory runs out, or where there are 2^32 - 1 clauses.
    pub fn step(&mut self, record: &mut Record, step: Step) -> Result<(), Stop> {
        record.hint(&mut self.hints, step)
    }

    /// The clause of the literals, which the hints derive.
    ///
    /// # Errors
    /// `Want` where memory runs out, or where there are 2^32 - 1 clauses.
    pub fn derived(self, alloc: Global, record: &mut Record) -> Result<Lemma, Stop> {
        let Draft {
            literals,
            hints,
            ..
        } = self;
        let number = record.propagate(alloc, &literals, hints)?;
        Ok(Lemma { literals, number })
    }

    /// The clause of the literals, which the hints derive and then the clause of this number; it is that clause where there are no
    /// other hints.
    ///
    /// # Errors
    /// `Want` where memory runs out, or where there are 2^32 - 1 clauses.
    pub fn derived_by(
        mut self,
        alloc: Global,
        record: &mut Record,
        number: u32,
    ) -> Result<Lemma, Stop> {
        if self.hints.is_empty() {
            let Draft { literals, .. } = self;
            return Ok(Lemma { literals, number });
        }
        self.hint(number)?;
        self.derived(alloc, record)
    }
}

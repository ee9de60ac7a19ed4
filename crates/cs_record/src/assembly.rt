//! The steps of a refutation that are needed, with numbers of their own.

use crate::cases::{name_division, name_order, name_split};
use crate::numbered::Record;
use cs_proof::Step;
use cs_reader::Literal;
use cs_table::{Stop, equality};
use std::alloc::Global;
use std::rc::Rc;
use vx_frac::Frac;
use vx_terms::Term;

/// Whether a step derives a clause.
fn has_clause(step: &Step) -> bool {
    match step {
        Step::Term(_) | Step::NoTerm => false,
        _ => true,
    }
}

fn mark(marks: &mut [bool], number: u128) {
    if let Ok(at) = usize::try_from(number) {
        if let Some(place) = marks.get_mut(at) {
            *place = true;
        }
    }
}

/// Marks the clauses that a step names as hints.
fn mark_hints(marks: &mut [bool], step: &Step) {
    if let Step::Propagate(_, hints) = step {
        for hint in hints {
            mark(marks, *hint);
        }
    }
}

/// Which clauses the last one needs.
fn needed(alloc: Global, record: &Record) -> Result<Vec<bool>, Stop> {
    let mut at = record.derived() as usize;
    let mut marks = vec![in alloc; false; at]?;
    if let Some(last) = marks.last_mut() {
        *last = true;
    }
    for step in record.steps.iter().rev() {
        if has_clause(step) {
            at = at.saturating_sub(1);
            if marks.get(at) == Some(&true) {
                mark_hints(&mut marks, step);
            }
        }
    }
    Ok(marks)
}

/// The record that steps are taken from, and the one that they go to, with the new numbers of the clauses.
#[derive(Drop)]
struct Assembly<'r> {
    from: &'r Record,
    into: Record,
    clauses: Vec<Option<u32>>,
}

fn narrow(number: u128) -> Result<u32, Stop> {
    match u32::try_from(number) {
        Ok(number) => Ok(number),
        Err(_) => Err(Stop::Miss),
    }
}

/// The parts of a term.
fn parts(from: &Record, number: u128) -> Result<&[u32], Stop> {
    Ok(&from.node(narrow(number)?)?.parts)
}

impl Assembly<'_> {
    /// The new number of a term, which gets one if it has none.
    fn term(&mut self, alloc: Global, old: u128) -> Result<u128, Stop> {
        let term = self.from.term(narrow(old)?)?;
        Ok(u128::from(self.into.name(alloc, &term)?))
    }

    /// The equality of two terms gets a number, if it has none.
    fn equality(&mut self, alloc: Global, a: u128, b: u128) -> Result<(), Stop> {
        match equality(&self.from.table, narrow(a)?, narrow(b)?) {
            Some(old) => {
                self.term(alloc, u128::from(old))?;
                Ok(())
            }
            None => Err(Stop::Miss),
        }
    }

    /// The equalities of neighbours.
    fn neighbours(&mut self, alloc: Global, terms: &[u128]) -> Result<(), Stop> {
        for pair in terms.windows(2) {
            if let [a, b] = pair {
                self.equality(alloc, *a, *b)?;
            }
        }
        Ok(())
    }

    /// The new numbers of terms.
    fn terms(&mut self, alloc: Global, terms: &[u128]) -> Result<Vec<u128>, Stop> {
        let mut moved = Vec::new(alloc);
        for term in terms {
            moved.push(self.term(alloc, *term)?)?;
        }
        Ok(moved)
    }

    /// A chain, with the equalities of its neighbours and of its ends.
    fn chain(&mut self, alloc: Global, terms: &[u128]) -> Result<Step, Stop> {
        self.neighbours(alloc, terms)?;
        let (Some(first), Some(last)) = (terms.first(), terms.last()) else {
            return Err(Stop::Miss);
        };
        self.equality(alloc, *first, *last)?;
        Ok(Step::Chain(self.terms(alloc, terms)?))
    }

    /// The equalities of the pairs that differ.
    fn equalities(&mut self, alloc: Global, left: &[u32], right: &[u32]) -> Result<(), Stop> {
        for (a, b) in left.iter().zip(right) {
            if a != b {
                self.equality(alloc, u128::from(*a), u128::from(*b))?;
            }
        }
        Ok(())
    }

    /// A congruence, with the equalities of the parts that differ and of the terms.
    fn congruence(&mut self, alloc: Global, s: u128, t: u128) -> Result<Step, Stop> {
        let from = self.from;
        self.equalities(alloc, parts(from, s)?, parts(from, t)?)?;
        self.equality(alloc, s, t)?;
        let s = self.term(alloc, s)?;
        let t = self.term(alloc, t)?;
        Ok(Step::Congruence(s, t))
    }

    /// A row of a choice, with the equality that it names.
    fn pick(&mut self, alloc: Global, t: u128, row: u128) -> Result<Step, Stop> {
        let from = self.from;
        let side = match (parts(from, t)?, row) {
            ([_, left, _], 0) => *left,
            ([_, _, right], _) => *right,
            _ => return Err(Stop::Miss),
        };
        self.equality(alloc, t, u128::from(side))?;
        let t = self.term(alloc, t)?;
        Ok(Step::Pick(t, row))
    }

    /// Literals by new numbers.
    fn literals(&mut self, alloc: Global, literals: &[Literal]) -> Result<Vec<Literal>, Stop> {
        let mut moved = Vec::new(alloc);
        for literal in literals {
            moved.push(Literal {
                positive: literal.positive,
                number: self.term(alloc, literal.number)?,
            })?;
        }
        Ok(moved)
    }

    /// A clause that hints derive.
    fn propagate(
        &mut self,
        alloc: Global,
        literals: &[Literal],
        hints: &[u128],
    ) -> Result<Step, Stop> {
        let moved = self.literals(alloc, literals)?;
        Ok(Step::Propagate(moved, self.hints(alloc, hints)?))
    }

    /// Constraints that contradict one another.
    fn farkas(
        &mut self,
        alloc: Global,
        literals: &[Literal],
        multipliers: &[Frac],
    ) -> Result<Step, Stop> {
        let moved = self.literals(alloc, literals)?;
        Ok(Step::Farkas(moved, multipliers.to_vec(alloc)?))
    }

    /// The orders of two terms, with the comparisons that it names.
    fn order(&mut self, alloc: Global, a: u128, b: u128) -> Result<Step, Stop> {
        self.equality(alloc, a, b)?;
        let a = self.term(alloc, a)?;
        let b = self.term(alloc, b)?;
        name_order(alloc, &mut self.into, narrow(a)?, narrow(b)?)?;
        Ok(Step::Trichotomy(a, b))
    }

    /// A split, with the comparisons that it names.
    fn split(&mut self, alloc: Global, t: u128, number: i128) -> Result<Step, Stop> {
        let t = self.term(alloc, t)?;
        name_split(alloc, &mut self.into, narrow(t)?, number)?;
        Ok(Step::Split(t, number))
    }

    /// A row of a division, with what it names.
    fn division(&mut self, alloc: Global, a: u128, d: u128, row: u128) -> Result<Step, Stop> {
        let a = self.term(alloc, a)?;
        let d = self.term(alloc, d)?;
        name_division(alloc, &mut self.into, narrow(a)?, narrow(d)?, row)?;
        Ok(Step::Divide(a, d, row))
    }

    /// The new numbers of clauses.
    fn hints(&self, alloc: Global, hints: &[u128]) -> Result<Vec<u128>, Stop> {
        let mut moved = Vec::new(alloc);
        for hint in hints {
            match self.clauses.get(narrow(*hint)? as usize) {
                Some(Some(number)) => moved.push(u128::from(*number))?,
                _ => return Err(Stop::Miss),
            }
        }
        Ok(moved)
    }

    /// A step by new numbers.
    fn moved(&mut self, alloc: Global, step: &Step) -> Result<Step, Stop> {
        match step {
            Step::Input(at) => Ok(Step::Input(*at)),
            Step::Define(t, row) => Ok(Step::Define(self.term(alloc, *t)?, *row)),
            Step::Pick(t, row) => self.pick(alloc, *t, *row),
            Step::Chain(terms) => self.chain(alloc, terms),
            Step::Congruence(s, t) => self.congruence(alloc, *s, *t),
            Step::Farkas(literals, multipliers) => self.farkas(alloc, literals, multipliers),
            Step::Split(t, number) => self.split(alloc, *t, *number),
            Step::Trichotomy(a, b) => self.order(alloc, *a, *b),
            Step::Divide(a, d, row) => self.division(alloc, *a, *d, *row),
            Step::Propagate(literals, hints) => self.propagate(alloc, literals, hints),
            Step::Term(_) | Step::NoTerm => Err(Stop::Miss),
        }
    }

    /// The next step, if its clause is needed.
    fn take(&mut self, alloc: Global, step: &Step, needed: &[bool]) -> Result<(), Stop> {
        if !has_clause(step) {
            return Ok(());
        }
        let number = if needed.get(self.clauses.len()) == Some(&true) {
            let moved = self.moved(alloc, step)?;
            Some(self.into.derive(moved)?)
        } else {
            None
        };
        self.clauses.push(number)?;
        Ok(())
    }
}

/// The steps of a record without those whose clauses the last one doesn't need, and without terms that these don't name.
///
/// # Errors
/// `Miss` where a step names what isn't numbered; `Want` where memory runs out.
pub fn assembled(
    alloc: Global,
    assertions: &[Rc<Term>],
    record: &Record,
) -> Result<Vec<Step>, Stop> {
    let needed = needed(alloc, record)?;
    let mut assembly = Assembly {
        from: record,
        into: Record::new(alloc, assertions)?,
        clauses: Vec::new(alloc),
    };
    for step in &record.steps {
        assembly.take(alloc, step, &needed)?;
    }
    let Assembly {
        from: _,
        into,
        clauses: _,
    } = assembly;
    Ok(into.into_steps())
}

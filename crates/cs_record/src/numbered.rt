//! Terms by number, and the steps of a certificate as they come.

use cs_numbers::{NumberedTerms, add, extend, number, place_of};
use cs_proof::Step;
use cs_table::{Head, Literal, Node, Stop, Table, equality};
use std::alloc::{AllocError, Global};
use std::rc::Rc;
use vx_terms::{Operator, Sort, Term};

/// Numbered terms, and the steps so far.
#[derive(Drop)]
pub struct Record {
    pub terms: NumberedTerms,
    pub table: Table,
    pub steps: Vec<Step>,
    derived: u32,
}

/// Numbers, as steps name them.
///
/// # Errors
/// Want of memory.
pub fn wide(alloc: Global, numbers: &[u32]) -> Result<Vec<u128>, AllocError> {
    let mut all = Vec::new(alloc);
    for number in numbers {
        all.push(u128::from(*number))?;
    }
    Ok(all)
}

/// Literals, as steps name them.
///
/// # Errors
/// Want of memory.
pub fn written(alloc: Global, literals: &[Literal]) -> Result<Vec<cs_reader::Literal>, AllocError> {
    let mut all = Vec::new(alloc);
    for literal in literals {
        all.push(cs_reader::Literal {
            positive: literal.positive,
            number: u128::from(literal.number),
        })?;
    }
    Ok(all)
}

impl Record {
    /// The terms of the assertions are numbered, and there are no steps.
    ///
    /// # Errors
    /// `Want` where memory runs out.
    pub fn new(alloc: Global, assertions: &[Rc<Term>]) -> Result<Record, Stop> {
        let terms = number(alloc, assertions)?;
        let mut table = Table::new(alloc)?;
        extend(alloc, &mut table, &terms)?;
        Ok(Record {
            terms,
            table,
            steps: Vec::new(alloc),
            derived: 0,
        })
    }

    /// How many terms are numbered.
    ///
    /// # Errors
    /// `Want` where 32 bits don't count them.
    pub fn count(&self) -> Result<u32, Stop> {
        match u32::try_from(self.table.nodes.len()) {
            Ok(count) => Ok(count),
            Err(_) => Err(Stop::Want),
        }
    }

    /// The steps alone. No memory.
    pub fn into_steps(self) -> Vec<Step> {
        let Record {
            terms: _,
            table: _,
            steps,
            derived: _,
        } = self;
        steps
    }

    /// How many clauses the steps derive.
    pub fn derived(&self) -> u32 {
        self.derived
    }

    /// The node of a number.
    ///
    /// # Errors
    /// `Miss` where no term has it.
    pub fn node(&self, number: u32) -> Result<&Node, Stop> {
        match self.table.nodes.get(number as usize) {
            Some(node) => Ok(node),
            None => Err(Stop::Miss),
        }
    }

    /// Whether the term of this number is Bool.
    ///
    /// # Errors
    /// `Miss` where no term has the number.
    pub fn is_bool(&self, number: u32) -> Result<bool, Stop> {
        Ok(self.node(number)?.sort.is_same(&Sort::Bool))
    }

    /// The sides of an equality of terms that aren't Bool; `None` where the number is another term's.
    ///
    /// # Errors
    /// `Miss` where no term has the number.
    pub fn sides(&self, number: u32) -> Result<Option<(u32, u32)>, Stop> {
        let node = self.node(number)?;
        let Head::Binary(Operator::Equal) = &node.head else {
            return Ok(None);
        };
        let [left, right] = node.parts.as_slice() else {
            return Ok(None);
        };
        if self.is_bool(*left)? {
            return Ok(None);
        }
        Ok(Some((*left, *right)))
    }

    /// The term of a number.
    ///
    /// # Errors
    /// `Miss` where there is none; `Want` where memory runs out.
    pub fn term(&self, number: u32) -> Result<Rc<Term>, Stop> {
        match self.terms.terms.get(number as usize) {
            Some(term) => Ok(term.clone()?),
            None => Err(Stop::Miss),
        }
    }

    /// Adds a step that derives a clause, and gives the clause's number.
    ///
    /// # Errors
    /// `Want` where memory runs out, or where there are 2^32 - 1 clauses.
    pub fn derive(&mut self, step: Step) -> Result<u32, Stop> {
        let number = self.derived;
        let Some(next) = number.checked_add(1) else {
            return Err(Stop::Want);
        };
        self.steps.push(step)?;
        self.derived = next;
        Ok(number)
    }

    /// Adds a step that derives a clause, and its number to some hints.
    ///
    /// # Errors
    /// `Want` where memory runs out, or where there are 2^32 - 1 clauses.
    pub fn hint(&mut self, hints: &mut Vec<u128>, step: Step) -> Result<(), Stop> {
        let number = self.derive(step)?;
        hints.push(u128::from(number))?;
        Ok(())
    }

    /// Derives literals by hints, and gives the clause's number.
    ///
    /// # Errors
    /// `Want` where memory runs out, or where there are 2^32 - 1 clauses.
    pub fn propagate(
        &mut self,
        alloc: Global,
        literals: &[Literal],
        hints: Vec<u128>,
    ) -> Result<u32, Stop> {
        let literals = written(alloc, literals)?;
        self.derive(Step::Propagate(literals, hints))
    }

    /// The number of a term, which gets one by a `term` step if it has none.
    ///
    /// # Errors
    /// `Want` where memory runs out.
    pub fn name(&mut self, alloc: Global, term: &Rc<Term>) -> Result<u32, Stop> {
        if let Ok(number) = place_of(&self.terms, term) {
            return Ok(number);
        }
        self.steps.push(Step::Term(term.clone()?))?;
        add(&mut self.terms, term)?;
        extend(alloc, &mut self.table, &self.terms)?;
        place_of(&self.terms, term)
    }

    /// The number of `true` or `false`, which gets one if it has none.
    ///
    /// # Errors
    /// `Want` where memory runs out.
    pub fn truth(&mut self, alloc: Global, holds: bool) -> Result<u32, Stop> {
        let term = Rc::new(alloc, Term::Truth(holds))?;
        self.name(alloc, &term)
    }

    /// The number of a whole number, which gets one if it has none.
    ///
    /// # Errors
    /// `Want` where memory runs out.
    pub fn whole(&mut self, alloc: Global, number: i128) -> Result<u32, Stop> {
        let term = Rc::new(alloc, Term::Number(number))?;
        self.name(alloc, &term)
    }

    /// The number of an operator over two terms, which gets one if it has none.
    ///
    /// # Errors
    /// `Miss` where a side has no number; `Want` where memory runs out.
    pub fn binary(
        &mut self,
        alloc: Global,
        operator: Operator,
        a: u32,
        b: u32,
    ) -> Result<u32, Stop> {
        let left = self.term(a)?;
        let right = self.term(b)?;
        let term = Rc::new(alloc, Term::Binary(operator, left, right))?;
        self.name(alloc, &term)
    }

    /// The number of an equality in this order, which gets one if it has none.
    ///
    /// # Errors
    /// `Miss` where a side has no number; `Want` where memory runs out.
    pub fn equality_as(&mut self, alloc: Global, a: u32, b: u32) -> Result<u32, Stop> {
        self.binary(alloc, Operator::Equal, a, b)
    }

    /// The number of an equality: that of its order that is numbered first. It gets one if neither has one.
    ///
    /// # Errors
    /// `Miss` where a side has no number; `Want` where memory runs out.
    pub fn equality_of(&mut self, alloc: Global, a: u32, b: u32) -> Result<u32, Stop> {
        match equality(&self.table, a, b) {
            Some(number) => Ok(number),
            None => self.equality_as(alloc, a, b),
        }
    }
}

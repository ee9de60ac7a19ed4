//! The clauses of a check: of its assertions, definitions, choices and equalities in two orders.
ghost use Rattle.std.specs.Prelude.{IfOk};
ghost use Rattle.cs_search.specs.Search.{IsReady};

use crate::atoms::Atoms;
use crate::bounds::bounds_of;
use crate::cases::divided;
use crate::numbered::Record;
use cs_numbers::place_of;
use cs_proof::Step;
use cs_search::Clause;
use cs_search::add::add;
use cs_search::search::Search;
use cs_table::{Head, Literal, Stop, define, pick};
use std::alloc::{AllocError, Global};
use std::collections::HashSet;
use std::rc::Rc;
use vx_terms::{Operator, Term};

/// Clauses for the search, each with its number in the certificate.
#[derive(Drop)]
pub struct Clauses {
    pub atoms: Atoms,
    pub clauses: Vec<Clause>,
    pub numbers: Vec<u32>,
    // by terms: the numbers of the clauses that assert them
    roots: Vec<Option<u32>>,
}

impl Clauses {
    /// No clauses yet. The Bool terms are atoms, those with the latest numbers first: a term comes behind its parts.
    ///
    /// # Errors
    /// `Want` where memory runs out.
    pub fn new(alloc: Global, record: &Record) -> Result<Clauses, Stop> {
        let count = record.count()?;
        let mut atoms = Atoms::new(alloc);
        for number in (0..count).rev() {
            if record.is_bool(number)? {
                atoms.add(number)?;
            }
        }
        let roots = vec![in alloc; None; count as usize]?;
        Ok(Clauses {
            atoms,
            clauses: Vec::new(alloc),
            numbers: Vec::new(alloc),
            roots,
        })
    }

    /// The number of the clause that asserts a term.
    fn root(&self, term: u32) -> Option<u32> {
        *self.roots.get(term as usize)?
    }

    /// Takes the clause of this number.
    ///
    /// # Errors
    /// `Want` where memory runs out.
    pub fn put(&mut self, alloc: Global, literals: &[Literal], number: u32) -> Result<(), Stop> {
        let literals = self.atoms.literals(alloc, literals)?;
        self.clauses.push(Clause { literals })?;
        self.numbers.push(number)?;
        Ok(())
    }

    /// The clause of each assertion.
    ///
    /// # Errors
    /// `Want` where memory runs out.
    pub fn put_inputs(
        &mut self,
        alloc: Global,
        record: &mut Record,
        assertions: &[Rc<Term>],
    ) -> Result<(), Stop> {
        for (at, assertion) in assertions.iter().enumerate() {
            let root = place_of(&record.terms, assertion)?;
            let number = record.derive(Step::Input(at as u128))?;
            if let Some(place) = self.roots.get_mut(root as usize) {
                *place = Some(number);
            }
            let literal = Literal {
                positive: true,
                number: root,
            };
            self.put(alloc, &[literal], number)?;
        }
        Ok(())
    }

    /// Whether one of the literals is asserted.
    fn is_met(&self, literals: &[Literal]) -> bool {
        literals.iter().any(|literal| literal.positive && self.root(literal.number).is_some())
    }

    /// The literals but those whose negation is asserted. The clauses that assert these become hints.
    fn left(
        &self,
        alloc: Global,
        literals: &[Literal],
        hints: &mut Vec<u128>,
    ) -> Result<Vec<Literal>, Stop> {
        let mut left = Vec::new(alloc);
        for literal in literals {
            match self.root(literal.number) {
                Some(number) if !literal.positive => hints.push(u128::from(number))?,
                _ => left.push(*literal)?,
            }
        }
        Ok(left)
    }

    /// The clause of a step, without what the assertions deny; nothing where they meet it.
    fn put_step(
        &mut self,
        alloc: Global,
        record: &mut Record,
        step: Step,
        literals: &[Literal],
    ) -> Result<(), Stop> {
        if self.is_met(literals) {
            return Ok(());
        }
        let number = record.derive(step)?;
        let mut hints = Vec::new(alloc);
        let left = self.left(alloc, literals, &mut hints)?;
        if hints.is_empty() {
            return self.put(alloc, literals, number);
        }
        hints.push(u128::from(number))?;
        let number = record.propagate(alloc, &left, hints)?;
        self.put(alloc, &left, number)
    }

    /// The rows of a term's table, if it has one.
    fn put_rows(&mut self, alloc: Global, record: &mut Record, t: u32) -> Result<(), Stop> {
        for row in 0..u32::MAX {
            match define(alloc, &record.table, t, row) {
                Ok(clause) => {
                    let step = Step::Define(u128::from(t), u128::from(row));
                    self.put_step(alloc, record, step, &clause)?;
                }
                Err(Stop::Miss) => return Ok(()),
                Err(Stop::Want) => return Err(Stop::Want),
            }
        }
        Ok(())
    }

    /// The definitions of the first terms.
    ///
    /// # Errors
    /// `Want` where memory runs out.
    pub fn put_definitions(
        &mut self,
        alloc: Global,
        record: &mut Record,
        count: u32,
    ) -> Result<(), Stop> {
        for t in 0..count {
            self.put_rows(alloc, record, t)?;
        }
        Ok(())
    }

    /// A choice is one of its two sides, if the term is a choice that isn't Bool; between literals it keeps their bounds.
    fn put_choice(&mut self, alloc: Global, record: &mut Record, t: u32) -> Result<(), Stop> {
        let Some((left, right)) = sides_of(record, t)? else {
            return Ok(());
        };
        record.equality_of(alloc, t, left)?;
        record.equality_of(alloc, t, right)?;
        for row in 0..2u32 {
            let clause = pick(alloc, &record.table, t, row)?;
            let step = Step::Pick(u128::from(t), u128::from(row));
            self.put_step(alloc, record, step, &clause)?;
        }
        self.put_bounds(alloc, record, t, left, right)
    }

    /// The bounds of a choice between two literals.
    fn put_bounds(
        &mut self,
        alloc: Global,
        record: &mut Record,
        t: u32,
        left: u32,
        right: u32,
    ) -> Result<(), Stop> {
        if let Some((low, high)) = bounds_of(alloc, record, t, left, right)? {
            self.put(alloc, &low.literals, low.number)?;
            self.put(alloc, &high.literals, high.number)?;
        }
        Ok(())
    }

    /// The choices among the first terms.
    ///
    /// # Errors
    /// `Want` where memory runs out.
    pub fn put_choices(
        &mut self,
        alloc: Global,
        record: &mut Record,
        count: u32,
    ) -> Result<(), Stop> {
        for t in 0..count {
            self.put_choice(alloc, record, t)?;
        }
        Ok(())
    }

    /// What the quotient and the remainder of a term by a literal are.
    fn put_division(
        &mut self,
        alloc: Global,
        record: &mut Record,
        a: u32,
        d: u32,
    ) -> Result<(), Stop> {
        for row in 0..3u32 {
            let lemma = divided(alloc, record, a, d, row)?;
            self.put(alloc, &lemma.literals, lemma.number)?;
        }
        Ok(())
    }

    /// The quotients and remainders by literals among the first terms.
    ///
    /// # Errors
    /// `Want` where memory runs out.
    pub fn put_divisions(
        &mut self,
        alloc: Global,
        record: &mut Record,
        count: u32,
    ) -> Result<(), Stop> {
        let mut done = HashSet::new(alloc);
        for t in 0..count {
            if let Some((a, d)) = division_of(record, t)? {
                if done.insert((a, d))? {
                    self.put_division(alloc, record, a, d)?;
                }
            }
        }
        Ok(())
    }
}

/// Whether the term is a whole number other than 0.
fn is_divisor(record: &Record, d: u32) -> Result<bool, Stop> {
    match &record.node(d)?.head {
        Head::Number(number) => Ok(*number != 0 && *number != i128::MIN),
        _ => Ok(false),
    }
}

/// The two sides of a quotient or a remainder by a literal other than 0.
fn division_of(record: &Record, t: u32) -> Result<Option<(u32, u32)>, Stop> {
    let node = record.node(t)?;
    let Head::Binary(Operator::Div | Operator::Mod) = &node.head else {
        return Ok(None);
    };
    let [a, d] = node.parts.as_slice() else {
        return Ok(None);
    };
    if !is_divisor(record, *d)? {
        return Ok(None);
    }
    Ok(Some((*a, *d)))
}

/// The two sides of a choice that isn't Bool.
fn sides_of(record: &Record, t: u32) -> Result<Option<(u32, u32)>, Stop> {
    let node = record.node(t)?;
    if !node.head.is_same(&Head::Ite) || record.is_bool(t)? {
        return Ok(None);
    }
    match node.parts.as_slice() {
        [_, left, right] => Ok(Some((*left, *right))),
        _ => Ok(None),
    }
}

/// A search over these clauses.
///
/// # Errors
/// Want of memory.
pub fn search_of(alloc: Global, clauses: Vec<Clause>) -> Result<Search, AllocError>
    ensures { IfOk result IsReady }
{
    let mut search = Search::new(alloc);
    for clause in clauses {
        add(&mut search, clause)?;
    }
    Ok(search)
}

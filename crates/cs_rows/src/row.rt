//! A row: what its questions are asked of.

use crate::names::declared_of;
use crate::outside::Outside;
use crate::reading::term_of;
use cs_index::Index;
use cs_meter::Meter;
use cs_proof::Stack;
use std::alloc::{AllocError, Global};
use vx_smt_meaning::Declared;

/// What the lines of a row say.
#[derive(Drop)]
pub struct Row {
    /// The live assertions and symbols.
    pub stack: Stack,
    /// All symbols that terms are written with, the live ones among them.
    pub known: Vec<Declared>,
    /// Numbers under keys.
    pub index: Index,
    /// What is spent.
    pub meter: Meter,
    /// The outside.
    pub outside: Outside,
}

impl Row {
    /// A row that says nothing yet.
    ///
    /// # Errors
    /// Want of memory.
    pub fn new(alloc: Global) -> Result<Row, AllocError> {
        Ok(Row {
            stack: Stack {
                assertions: Vec::new(alloc),
                symbols: Vec::new(alloc),
            },
            known: Vec::new(alloc),
            index: Index::new(alloc),
            meter: Meter::new(),
            outside: Outside::new(alloc),
        })
    }

    // A symbol, which is live or isn't.
    fn declare(&mut self, alloc: Global, rest: &str, live: bool) -> Result<bool, AllocError> {
        let Some(declared) = declared_of(alloc, rest)? else {
            return Ok(false);
        };
        if live {
            self.stack.symbols.push(declared.copy(alloc)?)?;
        }
        self.known.push(declared)?;
        Ok(true)
    }

    // An assertion.
    fn assert(&mut self, alloc: Global, rest: &str) -> Result<bool, AllocError> {
        let Some(term) = term_of(alloc, &self.known, rest)? else {
            return Ok(false);
        };
        self.stack.assertions.push(term)?;
        Ok(true)
    }

    // A number under a key.
    fn put(&mut self, rest: &str) -> Result<bool, AllocError> {
        let Some((key, number)) = rest.split_once(' ') else {
            return Ok(false);
        };
        let (Ok(key), Ok(number)) = (key.parse(), number.parse()) else {
            return Ok(false);
        };
        self.index.add(key, number)?;
        Ok(true)
    }

    /// Takes a line into the row; false: it says nothing.
    ///
    /// # Errors
    /// Want of memory.
    pub fn take(&mut self, alloc: Global, word: &str, rest: &str) -> Result<bool, AllocError> {
        match word {
            "symbol" => self.declare(alloc, rest, true),
            "gone" => self.declare(alloc, rest, false),
            "assert" => self.assert(alloc, rest),
            "put" => self.put(rest),
            _ => self.outside.take(alloc, &self.known, word, rest),
        }
    }
}

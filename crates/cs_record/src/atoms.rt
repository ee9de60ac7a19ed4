//! Atoms: the Bool terms that the search assigns, with numbers of their own.

use cs_search::Literal;
use cs_table::Stop;
use std::alloc::Global;

/// Terms by the numbers of their atoms, and back.
#[derive(Drop)]
pub struct Atoms {
    terms: Vec<u32>,
    atoms: Vec<Option<u32>>,
}

impl Atoms {
    /// No term is an atom.
    pub fn new(alloc: Global) -> Atoms {
        Atoms {
            terms: Vec::new(alloc),
            atoms: Vec::new(alloc),
        }
    }

    /// The atom of a term.
    pub fn find(&self, term: u32) -> Option<u32> {
        match self.atoms.get(term as usize) {
            Some(atom) => *atom,
            None => None,
        }
    }

    /// Makes room for a term.
    fn reach(&mut self, term: u32) -> Result<(), Stop> {
        for _ in self.atoms.len()..=term as usize {
            self.atoms.push(None)?;
        }
        Ok(())
    }

    /// The atom of a term, which becomes one if it is none.
    ///
    /// # Errors
    /// `Want` where memory runs out.
    pub fn add(&mut self, term: u32) -> Result<u32, Stop> {
        if let Some(atom) = self.find(term) {
            return Ok(atom);
        }
        let Ok(atom) = u32::try_from(self.terms.len()) else {
            return Err(Stop::Want);
        };
        self.reach(term)?;
        self.terms.push(term)?;
        if let Some(place) = self.atoms.get_mut(term as usize) {
            *place = Some(atom);
        }
        Ok(atom)
    }

    /// The literals of terms, as literals of their atoms. Each term becomes an atom.
    ///
    /// # Errors
    /// `Want` where memory runs out.
    pub fn literals(
        &mut self,
        alloc: Global,
        of: &[cs_table::Literal],
    ) -> Result<Vec<Literal>, Stop> {
        let mut found = Vec::new(alloc);
        for literal in of {
            found.push(Literal {
                positive: literal.positive,
                number: self.add(literal.number)?,
            })?;
        }
        Ok(found)
    }

    /// The literal of an atom, as a literal of its term.
    ///
    /// # Errors
    /// `Miss` at a number that isn't an atom's.
    pub fn term(&self, of: Literal) -> Result<cs_table::Literal, Stop> {
        match self.terms.get(of.number as usize) {
            Some(term) => Ok(cs_table::Literal {
                positive: of.positive,
                number: *term,
            }),
            None => Err(Stop::Miss),
        }
    }

    /// The literals of atoms, as literals of their terms.
    ///
    /// # Errors
    /// `Miss` at a number that isn't an atom's; `Want` where memory runs out.
    pub fn terms(&self, alloc: Global, of: &[Literal]) -> Result<Vec<cs_table::Literal>, Stop> {
        let mut found = Vec::new(alloc);
        for literal in of {
            found.push(self.term(*literal)?)?;
        }
        Ok(found)
    }
}

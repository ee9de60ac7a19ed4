//! The elements of terms: numbers by their values, Bool terms by the assignment, and others by their classes.

use crate::figures::Figures;
use cs_claims::claims::{Claims, value_of};
use cs_model::Element;
use cs_record::atoms::Atoms;
use cs_record::numbered::Record;
use cs_search::Value;
use cs_sums::Stop;
use std::alloc::Global;
use vx_terms::Sort;

/// What elements are told by: the numbered terms, the assignment of their atoms, their classes, and the values of numbers.
#[derive(Clone, Copy)]
pub struct Sources<'s> {
    pub record: &'s Record,
    pub atoms: &'s Atoms,
    pub values: &'s [Value],
    pub claims: &'s Claims,
    pub figures: &'s Figures,
}

impl Sources<'_> {
    /// The element of a term.
    ///
    /// # Errors
    /// `Miss` where no term has the number; `Over` where a fraction leaves 128 bits.
    pub fn element(&self, number: u32) -> Result<Element, Stop> {
        match &self.record.node(number)?.sort {
            Sort::Bool => {
                let value = value_of(self.values, self.atoms.find(number));
                Ok(Element::Bool(value.unwrap_or(false)))
            }
            Sort::Int => Ok(Element::Int(self.figures.value(self.record, number)?.num())),
            Sort::Real => Ok(Element::Real(self.figures.value(self.record, number)?)),
            Sort::Ref | Sort::Snap | Sort::Other(_) => {
                Ok(Element::Node(self.claims.held.class_of(number)?))
            }
        }
    }

    /// The elements of terms.
    ///
    /// # Errors
    /// `Miss` where no term has a number; `Over` where a fraction leaves 128 bits; `Want` where memory runs out.
    pub fn elements(&self, alloc: Global, numbers: &[u32]) -> Result<Vec<Element>, Stop> {
        let mut found = Vec::new(alloc);
        for number in numbers {
            found.push(self.element(*number)?)?;
        }
        Ok(found)
    }
}

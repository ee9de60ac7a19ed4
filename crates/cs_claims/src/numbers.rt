//! Some of the terms.

use cs_table::Stop;
use std::alloc::Global;

/// Terms by their numbers: whether one is among them is seen in one step.
#[derive(Drop)]
pub struct Numbers {
    marks: Vec<bool>,
}

impl Numbers {
    /// The terms with these numbers.
    ///
    /// # Errors
    /// `Want` where memory runs out.
    pub fn of(alloc: Global, numbers: &[u32]) -> Result<Numbers, Stop> {
        let mut all = Numbers {
            marks: Vec::new(alloc),
        };
        for number in numbers {
            all.insert(*number)?;
        }
        Ok(all)
    }

    /// Whether the term of this number is among them.
    pub fn contains(&self, number: u32) -> bool {
        self.marks.get(number as usize) == Some(&true)
    }

    /// The term of this number is among them from now on; whether it wasn't before.
    ///
    /// # Errors
    /// `Want` where memory runs out.
    pub fn insert(&mut self, number: u32) -> Result<bool, Stop> {
        for _ in self.marks.len()..=number as usize {
            self.marks.push(false)?;
        }
        match self.marks.get_mut(number as usize) {
            Some(mark) => {
                let is_new = !*mark;
                *mark = true;
                Ok(is_new)
            }
            None => Ok(false),
        }
    }
}

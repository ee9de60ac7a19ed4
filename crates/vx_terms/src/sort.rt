//! Sorts.

use std::rc::Rc;

/// A sort: of SMT-LIB's theories, of the preamble, or another declared one by its name.
pub enum Sort {
    Int,
    Bool,
    Real,
    Ref,
    Snap,
    Other(Rc<String>),
}

impl Drop for Sort {
    fn drop(self) {
        match self {
            Sort::Int | Sort::Bool | Sort::Real | Sort::Ref | Sort::Snap => {}
            Sort::Other(_name) => {}
        }
    }
}

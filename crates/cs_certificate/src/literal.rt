//! Literals and clauses by numbers.

/// A numbered term or its negation.
#[derive(Clone, Copy, PartialEq, Eq)]
pub struct Literal {
    pub positive: bool,
    pub number: u32,
}

/// What a clause leaves of its literals.
#[derive(Clone, Copy)]
pub enum Left {
    Nothing,
    One(Literal),
    Many,
}

/// A list of literals.
pub struct Clause {
    pub literals: Vec<Literal>,
}

impl Drop for Clause {
    fn drop(self) {
        let Self { literals } = self;
    }
}

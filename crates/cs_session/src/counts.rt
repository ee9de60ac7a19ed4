//! How much stands on a level.
ghost use Rattle.std.specs.Prelude.{◌≡◌, suc, IfOk};
ghost use Rattle.cs_session.specs.Counts as clean;

use std::alloc::AllocError;

/// How many sorts, symbols and assertions stand on a level.
#[derive(Clone, Copy)]
pub struct Counts {
    pub sorts: usize,
    pub symbols: usize,
    pub assertions: usize,
}

/// What a level holds.
#[derive(Clone, Copy)]
pub enum Kind {
    Sort,
    Symbol,
    Assertion,
}

fn one_more(count: usize) -> Result<usize, AllocError>
    ensures { IfOk result (λ n. n ≡ suc count) }
{
    match count.checked_add(1) {
        Some(more) => Ok(more),
        None => Err(AllocError),
    }
}

impl Counts {
    pub const NONE: Counts = Counts {
        sorts: 0,
        symbols: 0,
        assertions: 0,
    };

    /// One more of a kind.
    pub fn with(self, kind: Kind) -> Result<Counts, AllocError>
        ensures { IfOk result (λ c. c ≡ clean.with kind self) }
    {
        let mut more = self;
        match kind {
            Kind::Sort => more.sorts = one_more(self.sorts)?,
            Kind::Symbol => more.symbols = one_more(self.symbols)?,
            Kind::Assertion => more.assertions = one_more(self.assertions)?,
        }
        Ok(more)
    }
}

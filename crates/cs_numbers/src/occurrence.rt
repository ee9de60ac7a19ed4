//! A term where it stands in another one.
ghost use Rattle.std.specs.Prelude.{◌≡◌, length};
ghost use Rattle.vx_terms.specs.Views.{term};
ghost use Rattle.cs_numbers.specs.Inner.{inner};
ghost use Rattle.cs_numbers.specs.Keys.{term_key};

use std::rc::Rc;
use vx_terms::Term;

/// A term with its key, and how many terms stand in it.
#[derive(Drop)]
pub(crate) struct Occurrence {
    pub of: Rc<Term>,
    pub key: u64,
    pub within: usize,
    ghost keyed: { key ≡ term_key (term of.value) },
    ghost counted: { within ≡ length (inner (term of.value)) },
}

//! Tables for symbols.
ghost use Rattle.std.specs.Prelude.{◌≡◌};
ghost use Rattle.vx_terms.specs.Views.{sort, symbol};
ghost use Rattle.cs_model.specs.Elements.{element, elements, same_elements};
ghost use Rattle.cs_model.specs.Models.{finds, found};

use crate::elements::{Element, is_same};
use vx_terms::{Sort, Symbol};

/// What a symbol gives, at a sort, on these arguments.
pub struct Entry {
    pub symbol: Symbol,
    pub sort: Sort,
    pub arguments: Vec<Element>,
    pub value: Element,
}

impl Drop for Entry {
    fn drop(self) {
        let Self {
            symbol,
            sort,
            arguments,
            value,
        } = self;
    }
}

/// The symbols' tables. The first entry counts; without one a value is 0, false or the further element.
#[derive(Drop)]
pub struct Model {
    pub entries: Vec<Entry>,
}

/// Whether the elements are the same, place by place.
#[tactic(auto, using(crate::proofs::Same::unequal, crate::proofs::Same::same_here, crate::proofs::Same::other_here, crate::proofs::Same::at_end))]
fn are_same(xs: &[Element], ys: &[Element]) -> bool
    ensures { result ≡ same_elements (elements xs.now) (elements ys.now) }
{
    if xs.len() != ys.len() {
        return false;
    }
    for at in 0..xs.len() {
        if !is_same(xs[at], ys[at]) {
            return false;
        }
    }
    true
}

fn is_found(entry: &Entry, of: &Symbol, at: &Sort, arguments: &[Element]) -> bool
    ensures { result ≡ finds (symbol of.now) (sort at.now) (elements arguments.now) entry.now }
{
    of.is_same(&entry.symbol) && at.is_same(&entry.sort) && are_same(arguments, &entry.arguments)
}

impl Model {
    /// What a symbol gives on these arguments.
    pub fn look_up(&self, of: &Symbol, at: &Sort, arguments: &[Element]) -> Element
        ensures { element result ≡ found (symbol of.now) (sort at.now) (elements arguments.now) self.now.entries.items }
    {
        for entry in &self.entries {
            if is_found(entry, of, at, arguments) {
                return entry.value;
            }
        }
        Element::Int(0)
    }
}

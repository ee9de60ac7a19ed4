//! Live symbols, which are found by their words.
ghost use Rattle.std.specs.Prelude.{◌≡◌, map};
ghost use Rattle.vx_smt_meaning.specs.Views.{declared_symbol};
ghost use Rattle.cs_reader.specs.Indexing.{IsIndexOf};

use crate::index::SymbolIndex;
use vx_smt_meaning::Declared;

/// Live symbols in order. They are found by their words.
#[derive(Drop)]
pub struct Symbols<'s> {
    pub declared: &'s [Declared],
    index: &'s SymbolIndex,
    ghost indexed: { IsIndexOf (map declared_symbol declared.now) index.now },
}

impl<'s> Symbols<'s> {
    ghost use Rattle.cs_reader.specs.Live.{under};

    /// Symbols with an index of them.
    pub fn new(declared: &'s [Declared], index: &'s SymbolIndex) -> Symbols<'s>
        requires { IsIndexOf (map declared_symbol declared.now) index.now }
        ensures { result.declared.now ≡ declared.now }
    {
        Symbols { declared, index }
    }

    /// The places of the symbols of this key.
    pub fn under(&self, key: u64) -> &[u32]
        ensures { result.now ≡ under self.now key }
    {
        self.index.under(key)
    }
}

//! The places of symbols, which are found by their words.
ghost use Rattle.std.specs.Prelude.{◌≡◌, ◌++◌, ◌∷◌, [], List, length, map, IfOk, OnOk, OnErr};
ghost use Rattle.vx_smt_meaning.specs.Commands as commands;
ghost use Rattle.vx_smt_meaning.specs.Views.{declared_symbol};
ghost use Rattle.cs_index.specs.Under.{under};
ghost use Rattle.cs_reader.specs.Indexing.{IsIndexOf};

use crate::key::symbol_key;
use cs_index::Index;
use std::alloc::{AllocError, Global};
use vx_smt_meaning::Declared;

/// The places of symbols in a list, by their words.
#[derive(Drop)]
pub struct SymbolIndex {
    index: Index,
}

impl SymbolIndex {
    /// The index of no symbols. No memory is taken.
    pub fn new(alloc: Global) -> SymbolIndex
        ensures { IsIndexOf [] result }
    {
        SymbolIndex {
            index: Index::new(alloc),
        }
    }

    /// The index of these symbols.
    ///
    /// # Errors
    /// Memory runs out, or there are more than 2^32 symbols.
    pub fn of(alloc: Global, declared: &[Declared]) -> Result<SymbolIndex, AllocError>
        ensures { IfOk result (λ i. IsIndexOf (map declared_symbol declared.now) i) }
    {
        let mut index = SymbolIndex::new(alloc);
        for (at, one) in declared.iter().enumerate() {
            index.add(one, at)?;
        }
        Ok(index)
    }

    /// One symbol more, behind the others, of which there are so many.
    ///
    /// # Errors
    /// Nothing changes where memory runs out, or there are 2^32 others or more.
    pub fn add(&mut self, one: &Declared, at: usize) -> Result<(), AllocError>
        ensures added { OnOk result ((ds : List commands.Declared) → at ≡ length ds → IsIndexOf ds self.old → IsIndexOf (ds ++ declared_symbol one.now ∷ []) self.new) }
        ensures kept { OnErr result ((ds : List commands.Declared) → IsIndexOf ds self.old → IsIndexOf ds self.new) }
    {
        if at >= 1 << 32 {
            return Err(AllocError);
        }
        self.index.add(symbol_key(&one.symbol), at as u32)?;
        Ok(())
    }

    /// The last symbol is gone. No memory.
    pub fn take_last(&mut self, last: &Declared)
        ensures { (ds : List commands.Declared) → IsIndexOf (ds ++ declared_symbol last.now ∷ []) self.old → IsIndexOf ds self.new }
    {
        self.index.take_last(symbol_key(&last.symbol));
    }

    /// The places under a key.
    pub fn under(&self, key: u64) -> &[u32]
        ensures { result.now ≡ under self.now.index key }
    {
        self.index.under(key)
    }
}

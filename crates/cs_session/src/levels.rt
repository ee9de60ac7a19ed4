//! The open levels, and what stands on them.
ghost use Rattle.std.specs.Prelude.{◌≡◌, ◌<◌, ◌≤◌, ◌+◌, ◌-◌, ◌^◌, ◌++◌, true, false, ◌∷◌, [], length, drop, take, map, reverse, string_bytes, IfOk, OnOk, OnErr};
ghost use Rattle.vx_terms.specs.Interpretations.{Each};
ghost use Rattle.vx_terms.specs.Views.{symbol, term};
ghost use Rattle.vx_smt_meaning.specs.Commands.{DeclareSort, DeclareFun, Assert, declared_in, empty_level, opened, stack_after};
ghost use Rattle.vx_smt_meaning.specs.Views.{declared_symbol};
ghost use Rattle.vx_smt_meaning.specs.WellFormed.{names, sorts_in};
ghost use Rattle.cs_numbers.specs.Laws.{IsSorted};
ghost use Rattle.cs_proof.specs.Fits.{seen};
ghost use Rattle.cs_reader.specs.Indexing.{IsIndexOf};
ghost use Rattle.cs_commands.specs.Laws.{AreApart};
ghost use Rattle.cs_session.specs.Apart.{are_apart};
ghost use Rattle.cs_session.specs.Counts.{one_more};

use crate::counts::{Counts, Kind};
use cs_proof::Stack;
use cs_reader::{SymbolIndex, Symbols};
use std::alloc::{AllocError, Global};
use std::rc::Rc;
use vx_smt_meaning::Declared;
use vx_terms::Term;

/// The open levels: what stands on them in the order in which it came, and how much on each.
#[derive(Drop)]
pub struct Levels {
    stack: Stack,
    index: SymbolIndex,
    sorts: Vec<String>,
    // of each level but the base level
    counts: Vec<Counts>,
    ghost apart: { are_apart (reverse (map declared_symbol stack.symbols.items)) ≡ true },
    ghost indexed: { IsIndexOf (map declared_symbol stack.symbols.items) index },
    ghost sorted: { ∥ Each IsSorted (map (λ x. term x.value) stack.assertions.items) ∥₁ },
}

/// Leaves out the last so many.
fn cut<T: Drop>(items: &mut Vec<T>, count: usize)
    ensures { items.new.items ≡ take (length items.old.items - count) items.old.items }
{
    let left = items.len().saturating_sub(count);
    items.truncate(left);
}

/// The last symbol is gone, if there is one.
fn pop_symbol(symbols: &mut Vec<Declared>, index: &mut SymbolIndex)
    requires { IsIndexOf (map declared_symbol symbols.old.items) index.old }
    ensures symbols { symbols.new.items ≡ take (length symbols.old.items - 1) symbols.old.items }
    ensures indexed { IsIndexOf (map declared_symbol symbols.new.items) index.new }
{
    let Some(last) = symbols.pop() else {
        return;
    };
    index.take_last(&last);
}

/// Leaves out the last so many symbols.
fn cut_symbols(symbols: &mut Vec<Declared>, index: &mut SymbolIndex, count: usize)
    requires { IsIndexOf (map declared_symbol symbols.old.items) index.old }
    ensures symbols { symbols.new.items ≡ take (length symbols.old.items - count) symbols.old.items }
    ensures indexed { IsIndexOf (map declared_symbol symbols.new.items) index.new }
{
    for _symbol in 0..count {
        pop_symbol(symbols, index);
    }
}

/// One symbol more.
///
/// # Errors
/// Nothing changes where memory runs out.
fn push_symbol(
    symbols: &mut Vec<Declared>,
    index: &mut SymbolIndex,
    declared: Declared,
) -> Result<(), AllocError>
    requires { IsIndexOf (map declared_symbol symbols.old.items) index.old }
    ensures added { OnOk result (symbols.new.items ≡ symbols.old.items ++ declared ∷ []) }
    ensures kept { OnErr result (symbols.new.items ≡ symbols.old.items) }
    ensures indexed { IsIndexOf (map declared_symbol symbols.new.items) index.new }
{
    let at = symbols.len();
    symbols.push(declared)?;
    if let Err(want) = index.add(&symbols[at], at) {
        symbols.truncate(at);
        return Err(want);
    }
    Ok(())
}

/// Counts one more of a kind on the newest level.
fn count_one(counts: &mut Vec<Counts>, kind: Kind) -> Result<(), AllocError>
    ensures { OnOk result (reverse counts.new.items ≡ one_more kind (reverse counts.old.items)) }
{
    let Some(newest) = counts.pop() else {
        return Ok(());
    };
    counts.push(newest.with(kind)?)?;
    Ok(())
}

impl Levels {
    ghost use Rattle.cs_session.specs.Views.{levels_of, standing, depth};

    /// The base level alone.
    pub fn new(alloc: Global) -> Levels
        ensures { levels_of result ≡ empty_level ∷ [] }
    {
        Levels {
            stack: Stack {
                assertions: Vec::new(alloc),
                symbols: Vec::new(alloc),
            },
            index: SymbolIndex::new(alloc),
            sorts: Vec::new(alloc),
            counts: Vec::new(alloc),
        }
    }

    /// How many levels are open; the base level isn't counted.
    pub fn depth(&self) -> usize
        ensures value { result ≡ depth (levels_of self.now) }
        ensures small { result < 2 ^ 63 }
    {
        self.counts.len()
    }

    /// All assertions and symbols, in the order in which they came.
    pub fn stack(&self) -> &Stack
        ensures value { seen result.now ≡ standing (levels_of self.now) }
        ensures sorted { ∥ Each IsSorted (seen result.now).assertions ∥₁ }
        ensures apart { AreApart (declared_in (levels_of self.now)) }
    {
        &self.stack
    }

    /// All symbols, in the order in which they came. They are found by their words.
    pub fn symbols(&self) -> Symbols<'_>
        ensures value { map declared_symbol result.declared.now ≡ reverse (declared_in (levels_of self.now)) }
        ensures apart { AreApart (declared_in (levels_of self.now)) }
    {
        Symbols::new(&self.stack.symbols, &self.index)
    }

    /// The names of all sorts, in the order in which they came.
    pub fn sorts(&self) -> &[String]
        ensures { map string_bytes result.now ≡ reverse (sorts_in (levels_of self.now)) }
    {
        &self.sorts
    }

    fn open_one(&mut self) -> Result<(), AllocError>
        ensures { OnOk result (levels_of self.new ≡ empty_level ∷ levels_of self.old) }
    {
        self.counts.push(Counts::NONE)?;
        Ok(())
    }

    /// Opens so many levels.
    ///
    /// # Errors
    /// Memory runs out; some of the levels are open then.
    pub fn open_all(&mut self, count: u32) -> Result<(), AllocError>
        ensures { OnOk result (levels_of self.new ≡ opened count (levels_of self.old)) }
    {
        for _level in 0..count {
            self.open_one()?;
        }
        Ok(())
    }

    fn close_one(&mut self)
        requires { 0 < depth (levels_of self.old) }
        ensures levels { levels_of self.new ≡ drop 1 (levels_of self.old) }
        ensures depth { depth (levels_of self.new) + 1 ≡ depth (levels_of self.old) }
    {
        let Some(newest) = self.counts.pop() else {
            return;
        };
        cut(&mut self.sorts, newest.sorts);
        cut_symbols(&mut self.stack.symbols, &mut self.index, newest.symbols);
        cut(&mut self.stack.assertions, newest.assertions);
    }

    /// Closes so many levels.
    pub fn close_all(&mut self, count: u32)
        requires { count ≤ depth (levels_of self.old) }
        ensures { levels_of self.new ≡ drop count (levels_of self.old) }
    {
        for _level in 0..count {
            self.close_one();
        }
    }

    /// Declares a sort on the newest level.
    ///
    /// # Errors
    /// Memory runs out; the level may have the sort then.
    pub fn declare_sort(&mut self, name: String) -> Result<(), AllocError>
        ensures { OnOk result (levels_of self.new ≡ stack_after (DeclareSort (string_bytes name)) (levels_of self.old)) }
    {
        self.sorts.push(name)?;
        count_one(&mut self.counts, Kind::Sort)?;
        Ok(())
    }

    /// Declares a symbol on the newest level.
    ///
    /// # Errors
    /// Memory runs out, or there are 2^32 symbols; the level may have the symbol then.
    pub fn declare(&mut self, declared: Declared) -> Result<(), AllocError>
        requires { names (declared_in (levels_of self.old)) (symbol declared.symbol) ≡ false }
        ensures { OnOk result (levels_of self.new ≡ stack_after (DeclareFun (declared_symbol declared)) (levels_of self.old)) }
    {
        push_symbol(&mut self.stack.symbols, &mut self.index, declared)?;
        count_one(&mut self.counts, Kind::Symbol)?;
        Ok(())
    }

    /// Asserts a term on the newest level.
    ///
    /// # Errors
    /// Memory runs out; the level may have the term then.
    pub fn assert(&mut self, t: Rc<Term>) -> Result<(), AllocError>
        requires { IsSorted (term t.value) }
        ensures { OnOk result (levels_of self.new ≡ stack_after (Assert (term t.value)) (levels_of self.old)) }
    {
        self.stack.assertions.push(t)?;
        count_one(&mut self.counts, Kind::Assertion)?;
        Ok(())
    }
}

// The symbols v that terms use.
ghost use Rattle.std.specs.Prelude.{◌≡◌, ◌<◌, ◌≤◌, ◌+◌, ◌-◌, [], OnOk, length, map, take, drop};
ghost use Rattle.vx_terms.specs.Parts.{parts};
ghost use Rattle.vx_terms.specs.Views.{sort, symbol, term, terms};
ghost use Rattle.vx_smt_meaning.specs.Views.{declared_symbol};
ghost use Rattle.vx_dialogue.specs.Symbols.{variable, with_variable, with_symbol, with_variables, with_all_variables};
ghost use Rattle.vx_dialogue.specs.Pending.{with_one, with_pending, load_of, load};

use crate::pending::{Pending, put_off, put_off_both};
use std::alloc::{AllocError, Global};
use std::collections::BTreeSet;
use std::marker::Model;
use vx_smt_meaning::Declared;
use vx_terms::{Sort, Symbol, Term, Terms};

/// The symbols v that were met, with their sorts, in the order of their first occurrence.
#[derive(Drop)]
pub struct Variables {
    numbers: BTreeSet<u64>,
    symbols: Vec<Declared>,
}

impl Model for Variables {
    ghost use Rattle.std.specs.Ordering.{nat_cmp};
    ghost use Rattle.std.specs.Prelude.{◌≡◌, ℕ, List, map};
    ghost use Rattle.std.specs.BTreeSet.{contains};
    ghost use Rattle.vx_smt_meaning.specs.Commands.{Declared};
    ghost use Rattle.vx_smt_meaning.specs.Views.{declared_symbol};
    ghost use Rattle.vx_dialogue.specs.Symbols.{declares, AreOnce};

    ghost Value = { List Declared };

    ghost view = { λ v. map declared_symbol v.symbols.items };

    ghost invariant = { λ v. AreOnce (map declared_symbol v.symbols.items) × ((n : ℕ) → contains nat_cmp v.numbers n ≡ declares (map declared_symbol v.symbols.items) n) };
}

fn variable_of(alloc: Global, number: u64, gives: Sort) -> Declared
    ensures { declared_symbol result ≡ variable number (sort gives) }
{
    Declared {
        symbol: Symbol::Variable(number),
        takes: Vec::new(alloc),
        gives,
    }
}

impl Variables {
    pub fn new(alloc: Global) -> Variables
        ensures { result ≡ [] }
    {
        Variables {
            numbers: BTreeSet::new(alloc),
            symbols: Vec::new(alloc),
        }
    }

    pub fn len(&self) -> usize
        ensures { result ≡ length self.now }
    {
        self.symbols.len()
    }

    /// Those behind the first so many.
    pub fn behind(&self, count: usize) -> &[Declared]
        requires { count ≤ length self.now }
        ensures { map declared_symbol result.now ≡ drop count self.now }
    {
        &self.symbols[count..]
    }

    fn add(&mut self, alloc: Global, number: u64, a: &Sort) -> Result<(), AllocError>
        ensures ok { OnOk result (self.new ≡ with_variable self.old number (sort a.now)) }
    {
        let gives = a.copy()?;
        self.symbols.reserve(1)?;
        if self.numbers.insert(number)? {
            return match self.symbols.push(variable_of(alloc, number, gives)) {
                Ok(()) => Ok(()),
                Err(_) => unreachable!(),
            };
        }
        Ok(())
    }

    /// Adds a symbol without arguments, if it is a v.
    fn add_symbol(&mut self, alloc: Global, f: &Symbol, a: &Sort) -> Result<(), AllocError>
        ensures { OnOk result (self.new ≡ with_symbol self.old (symbol f.now) (sort a.now)) }
    {
        match f {
            Symbol::Variable(number) => self.add(alloc, *number, a),
            Symbol::Standard(_) => Ok(()),
            Symbol::Function(_) => Ok(()),
            Symbol::Named(_) => Ok(()),
        }
    }

    /// Adds a term's own symbol, and puts off its parts.
    fn add_node<'t>(
        &mut self,
        alloc: Global,
        pending: &mut Vec<Pending<'t>>,
        t: &'t Term,
    ) -> Result<(), AllocError>
        ensures adds { OnOk result (with_pending self.new pending.new.items ≡ with_pending (with_variables self.old (term t.now)) pending.old.items) }
        ensures load { OnOk result (load pending.new.items < parts (term t.now) + load pending.old.items) }
    {
        match t {
            Term::Truth(_) | Term::Number(_) | Term::Part(_) => Ok(()),
            Term::Constant(f, a) => self.add_symbol(alloc, f, a),
            Term::Apply(_, _, all) | Term::AllOf(all) | Term::SomeOf(all) => {
                put_off(pending, Pending::Parts(all))
            }
            Term::Not(part) => put_off(pending, Pending::Term(part)),
            Term::Binary(_, left, right) => put_off_both(pending, left, right),
            Term::Ite(condition, left, right) => {
                put_off_both(pending, left, right)?;
                put_off(pending, Pending::Term(condition))
            }
        }
    }

    /// Adds the symbols of what was put off last, as far as they are its own, and puts off the rest of it.
    fn add_next<'t>(
        &mut self,
        alloc: Global,
        pending: &mut Vec<Pending<'t>>,
        next: Pending<'t>,
    ) -> Result<(), AllocError>
        ensures adds { OnOk result (with_pending self.new pending.new.items ≡ with_pending (with_one self.old next.entry) pending.old.items) }
        ensures load { OnOk result (load pending.new.items < load_of next.entry + load pending.old.items) }
    {
        match next {
            Pending::Term(t) => self.add_node(alloc, pending, t),
            Pending::Parts(all) => match all {
                Terms::None => Ok(()),
                Terms::More(t, rest) => {
                    put_off(pending, Pending::Parts(rest))?;
                    put_off(pending, Pending::Term(t))
                }
            },
        }
    }

    /// Adds those of a term.
    pub fn add_term(&mut self, alloc: Global, t: &Term) -> Result<(), AllocError>
        ensures { OnOk result (self.new ≡ with_variables self.old (term t.now)) }
    {
        let mut pending = Vec::new(alloc);
        put_off(&mut pending, Pending::Term(t))?;
        while let Some(next) = pending.pop() {
            self.add_next(alloc, &mut pending, next)?;
        }
        Ok(())
    }

    // Leaves out the last symbol, if there is one.
    fn drop_last(&mut self)
        ensures { self.new ≡ take (length self.old - 1) self.old }
    {
        if let Some(last) = self.symbols.pop() {
            if let Symbol::Variable(number) = last.symbol {
                self.numbers.remove(&number);
            }
        }
    }

    /// Goes back to the first so many symbols. The numbers of the others leave the set.
    pub fn back_to(&mut self, count: usize)
        ensures { self.new ≡ take count self.old }
    {
        while self.len() > count {
            self.drop_last();
        }
    }
}

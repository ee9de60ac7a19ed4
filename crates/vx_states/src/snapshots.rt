//! The snapshot that something is produced with, where there is one, and the facts on it.

ghost use Rattle.std.specs.Prelude.{◌≡◌, Some, IfOk};
ghost use Rattle.vx_rules.specs.Rules as rules;
ghost use Rattle.vx_rules.specs.States as states;
ghost use Rattle.vx_states.specs.SymStates.{optional_term, state};
ghost use Rattle.vx_terms.specs.Build as built;
ghost use Rattle.vx_terms.specs.Sorts as sort;
ghost use Rattle.vx_terms.specs.Terms as written;
ghost use Rattle.vx_heap.specs.Views.{held_term};
ghost use Rattle.vx_terms.specs.Views.{sort as sort_view};

use crate::SymState;
use std::alloc::{AllocError, Global};
use std::rc::Rc;
use vx_terms::{Operator, Sort, Symbol, Term, Terms, make, numbers, snapshots};

/// The snapshot of a left part.
pub fn left_part(alloc: Global, snapshot: &Option<Rc<Term>>) -> Result<Option<Rc<Term>>, AllocError>
    ensures { IfOk result (λ part. optional_term part ≡ rules.left_part (optional_term snapshot.now)) }
{
    match snapshot {
        Some(t) => Ok(Some(snapshots::first(alloc, t)?)),
        None => Ok(None),
    }
}

/// The snapshot of a right part.
pub fn right_part(
    alloc: Global,
    snapshot: &Option<Rc<Term>>,
) -> Result<Option<Rc<Term>>, AllocError>
    ensures { IfOk result (λ part. optional_term part ≡ rules.right_part (optional_term snapshot.now)) }
{
    match snapshot {
        Some(t) => Ok(Some(snapshots::second(alloc, t)?)),
        None => Ok(None),
    }
}

/// That a snapshot is the pair of its parts.
fn is_pair(alloc: Global, t: &Rc<Term>) -> Result<Rc<Term>, AllocError>
    ensures { IfOk result (λ r. held_term r ≡ built.equals (held_term t.now) (built.pair (built.first (held_term t.now)) (built.second (held_term t.now)))) }
{
    let first = snapshots::first(alloc, t)?;
    let pair = snapshots::pair(alloc, &first, &snapshots::second(alloc, t)?)?;
    numbers::eq(alloc, t, &pair)
}

/// That a snapshot is unit.
fn is_unit(alloc: Global, t: &Rc<Term>) -> Result<Rc<Term>, AllocError>
    ensures { IfOk result (λ r. held_term r ≡ built.equals (held_term t.now) built.unit) }
{
    numbers::eq(alloc, t, &snapshots::unit(alloc)?)
}

/// A symbol of one argument, as it is written.
fn symbol_on(alloc: Global, number: u32, t: &Rc<Term>) -> Result<Rc<Term>, AllocError>
    ensures { IfOk result (λ r. held_term r ≡ written.Apply (sort.Standard number) sort.SnapSort (built.one (held_term t.now))) }
{
    let none = Rc::new(alloc, Terms::None)?;
    let argument = Rc::new(alloc, Terms::More(t.clone()?, none))?;
    make::apply(alloc, Symbol::Standard(number), Sort::Snap, &argument)
}

/// An equation as it is written.
fn equation(alloc: Global, s: Rc<Term>, t: Rc<Term>) -> Result<Rc<Term>, AllocError>
    ensures { IfOk result (λ r. held_term r ≡ written.Binary sort.Equal (held_term s) (held_term t)) }
{
    Ok(Rc::new(alloc, Term::Binary(Operator::Equal, s, t))?)
}

impl SymState {
    /// The fact that a snapshot, where there is one, is the pair of its parts.
    pub fn add_split(
        &mut self,
        alloc: Global,
        snapshot: &Option<Rc<Term>>,
    ) -> Result<(), AllocError>
        ensures { IfOk result (λ _. state self.new ≡ rules.with_split (optional_term snapshot.now) (state self.old)) }
    {
        match snapshot {
            Some(t) => self.add_fact(alloc, is_pair(alloc, t)?),
            None => Ok(()),
        }
    }

    /// The fact that a snapshot, where there is one, is unit.
    pub fn add_unit(&mut self, alloc: Global, snapshot: &Option<Rc<Term>>) -> Result<(), AllocError>
        ensures { IfOk result (λ _. state self.new ≡ rules.with_unit (optional_term snapshot.now) (state self.old)) }
    {
        match snapshot {
            Some(t) => self.add_fact(alloc, is_unit(alloc, t)?),
            None => Ok(()),
        }
    }

    /// The facts that the parts of a pair are its first and its second, as they are written.
    pub fn add_pair(&mut self, alloc: Global, s: &Rc<Term>, t: &Rc<Term>) -> Result<(), AllocError>
        ensures { IfOk result (λ _. state self.new ≡ states.with_facts (rules.pair_facts (held_term s.now) (held_term t.now)) (state self.old)) }
    {
        let pair = snapshots::pair(alloc, s, t)?;
        let first = equation(alloc, symbol_on(alloc, 3, &pair)?, s.clone()?)?;
        let second = equation(alloc, symbol_on(alloc, 4, &pair)?, t.clone()?)?;
        self.add_fact(alloc, first)?;
        self.add_fact(alloc, second)
    }

    /// The value that a snapshot gives a location: a name for what it wraps, and the fact that it wraps it.
    fn value_by(&mut self, alloc: Global, of: &Sort, t: &Rc<Term>) -> Result<Rc<Term>, AllocError>
        ensures { IfOk result (λ v. (held_term v ≡ rules.produced_value (sort_view of.now) (Some (held_term t.now)) (state self.old))
            × (state self.new ≡ rules.after_value (sort_view of.now) (Some (held_term t.now)) (state self.old))) }
    {
        let value = self.name(alloc, snapshots::unwrap(alloc, of, t)?)?;
        let wrapped = snapshots::wrap(alloc, of, &value)?;
        let fact = numbers::eq(alloc, t, &wrapped)?;
        self.add_fact(alloc, fact)?;
        Ok(value)
    }

    /// The value of a location that is produced: new, or by the snapshot.
    pub fn produced_value(
        &mut self,
        alloc: Global,
        of: Sort,
        snapshot: &Option<Rc<Term>>,
    ) -> Result<Rc<Term>, AllocError>
        ensures { IfOk result (λ t. (held_term t ≡ rules.produced_value (sort_view of) (optional_term snapshot.now) (state self.old))
            × (state self.new ≡ rules.after_value (sort_view of) (optional_term snapshot.now) (state self.old))) }
    {
        match snapshot {
            Some(t) => self.value_by(alloc, &of, t),
            None => self.new_symbol(alloc, of),
        }
    }

    /// The snapshot of an instance that is produced: new, or a name for the one that is given.
    pub fn produced_snapshot(
        &mut self,
        alloc: Global,
        snapshot: &Option<Rc<Term>>,
    ) -> Result<Rc<Term>, AllocError>
        ensures { IfOk result (λ t. (held_term t ≡ rules.produced_snapshot (optional_term snapshot.now) (state self.old))
            × (state self.new ≡ rules.after_snapshot (optional_term snapshot.now) (state self.old))) }
    {
        match snapshot {
            Some(t) => self.name(alloc, t.clone()?),
            None => self.new_symbol(alloc, Sort::Snap),
        }
    }

    /// The fact that a wrapped value unwraps to itself, as it is written.
    pub fn add_wrap(&mut self, alloc: Global, of: &Sort, value: &Rc<Term>) -> Result<(), AllocError>
        ensures { IfOk result (λ _. state self.new ≡ states.with_fact
            (written.Binary sort.Equal (built.written_unwrap (sort_view of.now) (built.wrap (sort_view of.now) (held_term value.now))) (held_term value.now))
            (state self.old)) }
    {
        let wrapped = snapshots::wrap(alloc, of, value)?;
        let unwrapped = snapshots::written_unwrap(alloc, of, &wrapped)?;
        let fact = equation(alloc, unwrapped, value.clone()?)?;
        self.add_fact(alloc, fact)
    }
}

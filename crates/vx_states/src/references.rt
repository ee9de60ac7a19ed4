//! New references.

ghost use Rattle.std.specs.Prelude.{◌≡◌, ◌++◌, ◌∷◌, List, IfOk, OnOk, map};
ghost use Rattle.vx_heap.specs.Views.{terms_of, held_term};
ghost use Rattle.vx_rules.specs.Members as members;
ghost use Rattle.vx_rules.specs.States as states;
ghost use Rattle.vx_rules.specs.States.{terms_in};
ghost use Rattle.vx_states.specs.SymStates.{binding, state};
ghost use Rattle.vx_terms.specs.Build.{null};
ghost use Rattle.vx_terms.specs.Sorts.{RefSort};
ghost use Rattle.vx_terms.specs.Terms as written;

use crate::{Binding, SymState};
use std::alloc::{AllocError, Global};
use std::rc::Rc;
use vx_heap::{add_unlike, unlike};
use vx_terms::{Sort, Term, snapshots};

/// Adds that a reference differs from each reference of a store.
fn add_unlike_stored(
    alloc: Global,
    x: &Rc<Term>,
    store: &[Binding],
    facts: &mut Vec<Rc<Term>>,
) -> Result<(), AllocError>
    ensures { OnOk result ((rest : List written.Term) → terms_of facts.new.items ++ rest
        ≡ terms_of facts.old.items ++ (members.unlike_stored (held_term x.now) (terms_in (map binding store.now)) ++ rest)) }
{
    for b in store {
        add_unlike(alloc, x, &b.value, facts)?;
    }
    Ok(())
}

/// Adds that a reference isn't null.
fn add_not_null(alloc: Global, x: &Rc<Term>, facts: &mut Vec<Rc<Term>>) -> Result<(), AllocError>
    ensures { OnOk result ((rest : List written.Term) → terms_of facts.new.items ++ rest ≡ terms_of facts.old.items ++ (members.unlike (held_term x.now) null ∷ rest)) }
{
    let null = snapshots::null(alloc)?;
    facts.push(unlike(alloc, x, &null)?)?;
    Ok(())
}

impl SymState {
    /// What a new reference differs from: null, the references of the store, and those of what is held.
    fn distinct(&self, alloc: Global, x: &Rc<Term>) -> Result<Vec<Rc<Term>>, AllocError>
        ensures { IfOk result (λ facts. terms_of facts.items ≡ members.distinct (held_term x.now) (state self.now)) }
    {
        let mut facts = Vec::new(alloc);
        add_not_null(alloc, x, &mut facts)?;
        add_unlike_stored(alloc, x, &self.store, &mut facts)?;
        self.heap.add_unlike(alloc, x, &mut facts)?;
        self.old_heap.add_unlike(alloc, x, &mut facts)?;
        Ok(facts)
    }

    /// A new reference, which differs from null and from what is known.
    pub fn new_reference(&mut self, alloc: Global) -> Result<Rc<Term>, AllocError>
        ensures { IfOk result (λ t. (held_term t ≡ states.fresh RefSort (state self.old))
            × (state self.new ≡ states.with_facts (members.distinct (states.fresh RefSort (state self.old)) (state self.old))
            (states.after_fresh (state self.old)))) }
    {
        let x = self.new_symbol(alloc, Sort::Ref)?;
        let facts = self.distinct(alloc, &x)?;
        self.add_facts(alloc, facts)?;
        Ok(x)
    }
}

//! Into the part of another member, and back from it.

ghost use Rattle.std.specs.Prelude.{◌≡◌, IfOk, map, drop};
ghost use Rattle.vx_heap.specs.Views.{terms_of};
ghost use Rattle.vx_resolved.specs.Resolved.{declaration, names_of};
ghost use Rattle.vx_rules.specs.Members as members;
ghost use Rattle.vx_rules.specs.Rules as rules;
ghost use Rattle.vx_rules.specs.States as states;
ghost use Rattle.vx_rules.specs.States.{State};
ghost use Rattle.vx_states.specs.Entering.{back_to};
ghost use Rattle.vx_states.specs.SymStates.{binding, state};

use crate::SymState;
use crate::state::{Binding, copy_store};
use std::alloc::{AllocError, Global};
use std::rc::Rc;
use vx_ast::Place;
use vx_resolved::Declaration;
use vx_terms::Term;

/// What a state has again behind the part of another member: its variables, the place that brought in the part that it is
/// in itself, and whether chunks that are put are inner.
pub struct Caller {
    pub store: Vec<Binding>,
    pub at: Option<Place>,
    pub is_inner: bool,
}

impl Drop for Caller {
    fn drop(self) {
        let Self {
            store,
            at,
            is_inner,
        } = self;
    }
}

/// Variables with values in order, as long as there are both.
fn bound(
    alloc: Global,
    parameters: &[Declaration],
    arguments: &[Rc<Term>],
) -> Result<Vec<Binding>, AllocError>
    ensures { IfOk result (λ v. map binding v.items ≡ states.bind (map declaration parameters.now) (terms_of arguments.now)) }
{
    let mut store = Vec::new(alloc);
    for (parameter, argument) in parameters.iter().zip(arguments) {
        store.push(Binding {
            name: parameter.name.clone()?,
            value: argument.clone()?,
        })?;
    }
    Ok(store)
}

/// The values of variables, in order.
fn values_in(alloc: Global, store: &[Binding]) -> Result<Vec<Rc<Term>>, AllocError>
    ensures { IfOk result (λ v. terms_of v.items ≡ states.terms_in (map binding store.now)) }
{
    let mut values = Vec::new(alloc);
    for variable in store {
        values.push(variable.value.clone()?)?;
    }
    Ok(values)
}

impl SymState {
    /// What it has again behind the part of another member.
    pub fn caller(&self, alloc: Global) -> Result<Caller, AllocError>
        ensures { IfOk result (λ c. (s : State) → back_to c s ≡ rules.back (state self.now) s) }
    {
        Ok(Caller {
            store: copy_store(alloc, &self.store)?,
            at: self.at,
            is_inner: self.is_inner,
        })
    }

    /// In another member's part: its parameters alone, and the place that brought it in.
    pub fn enter(
        &mut self,
        alloc: Global,
        parameters: &[Declaration],
        arguments: &[Rc<Term>],
        place: Place,
    ) -> Result<(), AllocError>
        ensures { IfOk result (λ _. state self.new ≡ rules.entered (states.bind (map declaration parameters.now) (terms_of arguments.now)) place (state self.old)) }
    {
        self.store = bound(alloc, parameters, arguments)?;
        self.at = Some(place);
        Ok(())
    }

    /// Back from it.
    pub fn back(&mut self, alloc: Global, caller: &Caller) -> Result<(), AllocError>
        ensures { IfOk result (λ _. state self.new ≡ back_to caller.now (state self.old)) }
    {
        self.store = copy_store(alloc, &caller.store)?;
        self.at = caller.at;
        self.is_inner = caller.is_inner;
        Ok(())
    }

    /// Names for values, in order.
    pub fn name_all(
        &mut self,
        alloc: Global,
        values: &[Rc<Term>],
    ) -> Result<Vec<Rc<Term>>, AllocError>
        ensures names { IfOk result (λ v. terms_of v.items ≡ members.names_of (terms_of values.now) (state self.old)) }
        ensures after { IfOk result (λ _. state self.new ≡ members.after_names (terms_of values.now) (state self.old)) }
    {
        let mut names = Vec::new(alloc);
        for value in values {
            names.push(self.name(alloc, value.clone()?)?)?;
        }
        Ok(names)
    }

    /// Variables get values, in order, as long as there are both.
    pub fn assign_all(
        &mut self,
        names: &[Rc<String>],
        values: &[Rc<Term>],
    ) -> Result<(), AllocError>
        ensures { IfOk result (λ _. state self.new ≡ states.with_store (states.assign_all (names_of names.now) (terms_of values.now) (state self.old).store) (state self.old)) }
    {
        for (name, value) in names.iter().zip(values) {
            self.assign(name, value.clone()?);
        }
        Ok(())
    }

    /// The values of the variables from one on.
    pub fn values_from(&self, alloc: Global, first: usize) -> Result<Vec<Rc<Term>>, AllocError>
        ensures { IfOk result (λ v. terms_of v.items ≡ drop first (states.terms_in (state self.now).store)) }
    {
        if first < self.store.len() {
            return values_in(alloc, &self.store[first..]);
        }
        Ok(Vec::new(alloc))
    }
}

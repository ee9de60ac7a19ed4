//! Symbolic states.

ghost use Rattle.std.specs.Prelude.{◌≡◌, IfOk, [], map, option_map, string_bytes};
ghost use Rattle.vx_resolved.specs.Resolved.{declaration};
ghost use Rattle.vx_ast.specs.Syntax.{same_name};
ghost use Rattle.vx_heap.specs.Views.{heap, held_term};
ghost use Rattle.vx_rules.specs.Members.{blank};
ghost use Rattle.vx_rules.specs.Rules as rules;
ghost use Rattle.vx_rules.specs.States as states;
ghost use Rattle.vx_rules.specs.States.{sort_of_type};
ghost use Rattle.vx_states.specs.SymStates.{binding, optional_term, own, state, place_in};
ghost use Rattle.vx_terms.specs.Views.{sort, term};

use crate::IndexedPath;
use std::alloc::{AllocError, Global};
use std::mem;
use std::rc::Rc;
use vx_ast::{Place, ValueType};
use vx_heap::SymHeap;
use vx_resolved::Declaration;
use vx_terms::{Sort, Term, make, numbers};

/// A variable with its value.
pub struct Binding {
    pub name: Rc<String>,
    pub value: Rc<Term>,
}

impl Drop for Binding {
    fn drop(self) {
        let Self { name, value } = self;
    }
}

/// What the applications of a function's own group are measured against.
#[derive(Drop)]
pub struct Own {
    pub function: Rc<String>,
    pub measure: Option<Rc<Term>>,
}

/// A symbolic state: the variables in the order of their declarations, the heaps, which its copies share, the path from
/// its oldest entry on, and the number of the next symbol.
pub struct SymState {
    pub store: Vec<Binding>,
    pub heap: Rc<SymHeap>,
    /// The heap that `old` reads.
    pub old_heap: Rc<SymHeap>,
    pub path: IndexedPath,
    pub next: u64,
    /// Above 0 nothing is asked, and values are their own names.
    pub level: u8,
    /// Putting a chunk gives the facts that bound amounts.
    pub is_bounded: bool,
    /// Chunks that are put are inner.
    pub is_inner: bool,
    pub own: Option<Own>,
    /// The place that brought in the part of another member.
    pub at: Option<Place>,
}

impl Drop for SymState {
    fn drop(self) {
        let Self {
            store,
            heap,
            old_heap,
            path,
            next,
            level,
            is_bounded,
            is_inner,
            own,
            at,
        } = self;
    }
}

/// The sort of a type's values.
pub fn sort_of_value(of: ValueType) -> Sort
    ensures { sort result ≡ sort_of_type of }
{
    match of {
        ValueType::Int => Sort::Int,
        ValueType::Bool => Sort::Bool,
        ValueType::Ref => Sort::Ref,
        ValueType::Perm => Sort::Real,
    }
}

/// Whether two names are the same.
pub(crate) fn is_same_name(x: &[u8], y: &[u8]) -> bool
    ensures { result ≡ same_name x.now y.now }
{
    x == y
}

pub(crate) fn copy_store(alloc: Global, store: &[Binding]) -> Result<Vec<Binding>, AllocError>
    ensures { IfOk result (λ v. map binding v.items ≡ map binding store.now) }
{
    let mut copies = Vec::new(alloc);
    for b in store {
        copies.push(Binding {
            name: b.name.clone()?,
            value: b.value.clone()?,
        })?;
    }
    Ok(copies)
}

/// The same term once more, where there is one.
pub fn copy_optional(t: &Option<Rc<Term>>) -> Result<Option<Rc<Term>>, AllocError>
    ensures { IfOk result (λ copy. optional_term copy ≡ optional_term t.now) }
{
    match t {
        Some(t) => Ok(Some(t.clone()?)),
        None => Ok(None),
    }
}

impl Own {
    /// The same once more.
    pub fn copy(&self) -> Result<Own, AllocError>
        ensures { IfOk result (λ copy. own copy ≡ own self.now) }
    {
        Ok(Own {
            function: self.function.clone()?,
            measure: copy_optional(&self.measure)?,
        })
    }
}

fn copy_own(owned: &Option<Own>) -> Result<Option<Own>, AllocError>
    ensures { IfOk result (λ copy. option_map own copy ≡ option_map own owned.now) }
{
    match owned {
        Some(it) => Ok(Some(it.copy()?)),
        None => Ok(None),
    }
}

/// A heap without chunks.
fn no_chunks(alloc: Global) -> Result<Rc<SymHeap>, AllocError>
    ensures { IfOk result (λ h. heap h.value ≡ []) }
{
    Ok(Rc::new(alloc, SymHeap::new(alloc))?)
}

impl SymState {
    /// The state before anything is declared.
    pub fn new(alloc: Global) -> Result<SymState, AllocError>
        ensures { IfOk result (λ s. state s ≡ blank) }
    {
        let none = no_chunks(alloc)?;
        let old_heap = none.clone()?;
        Ok(SymState {
            store: Vec::new(alloc),
            heap: none,
            old_heap,
            path: IndexedPath::new(),
            next: 0,
            level: 0,
            is_bounded: true,
            is_inner: false,
            own: None,
            at: None,
        })
    }

    /// The same state once more.
    pub fn copy(&self, alloc: Global) -> Result<SymState, AllocError>
        ensures { IfOk result (λ s. state s ≡ state self.now) }
    {
        Ok(SymState {
            store: copy_store(alloc, &self.store)?,
            heap: self.heap.clone()?,
            old_heap: self.old_heap.clone()?,
            path: self.path.copy()?,
            next: self.next,
            level: self.level,
            is_bounded: self.is_bounded,
            is_inner: self.is_inner,
            own: copy_own(&self.own)?,
            at: self.at,
        })
    }

    /// Whether nothing is asked in it.
    pub fn is_quiet(&self) -> bool
        ensures { result ≡ states.is_quiet (state self.now) }
    {
        0 < self.level
    }

    /// The place of a question: that which brought in the part, if it is another member's.
    pub fn placed(&self, at: Place) -> Place
        ensures { result ≡ rules.placed (state self.now) at }
    {
        match self.at {
            Some(outer) => outer,
            None => at,
        }
    }

    /// Another heap in the place of this one, which is given back.
    pub fn exchange_heap(&mut self, other: Rc<SymHeap>) -> Rc<SymHeap>
        ensures before { heap result.value ≡ (state self.old).heap }
        ensures after { state self.new ≡ states.with_heap (heap other.value) (state self.old) }
    {
        mem::replace(&mut self.heap, other)
    }

    /// No chunks in the heap.
    pub fn clear_heap(&mut self, alloc: Global) -> Result<(), AllocError>
        ensures { IfOk result (λ _. state self.new ≡ states.with_heap [] (state self.old)) }
    {
        self.heap = no_chunks(alloc)?;
        Ok(())
    }

    /// The old heap becomes the heap as it is.
    pub fn keep_old(&mut self) -> Result<(), AllocError>
        ensures { IfOk result (λ _. state self.new ≡ record (state self.old) { old = (state self.old).heap }) }
    {
        self.old_heap = self.heap.clone()?;
        Ok(())
    }

    /// The value of a variable.
    pub fn value_of(&self, alloc: Global, name: &Rc<String>) -> Result<Rc<Term>, AllocError>
        ensures { IfOk result (λ t. held_term t ≡ states.found (string_bytes name.now.value) (state self.now).store) }
    {
        for b in &self.store {
            if is_same_name(name.as_bytes(), b.name.as_bytes()) {
                return b.value.clone();
            }
        }
        make::boolean(alloc, true)
    }

    /// Where a variable stands in the store.
    fn find(&self, name: &Rc<String>) -> Option<usize>
        ensures { result ≡ place_in (string_bytes name.now.value) (state self.now).store }
    {
        for (k, b) in self.store.iter().enumerate() {
            if is_same_name(name.as_bytes(), b.name.as_bytes()) {
                return Some(k);
            }
        }
        None
    }

    /// A variable gets a value.
    pub fn assign(&mut self, name: &Rc<String>, t: Rc<Term>)
        ensures { state self.new ≡ states.with_store (states.assign (string_bytes name.now.value) (held_term t) (state self.old).store) (state self.old) }
    {
        match self.find(name) {
            Some(k) => self.store[k].value = t,
            None => {}
        }
    }

    /// A further variable.
    fn declare(&mut self, name: &Rc<String>, t: Rc<Term>) -> Result<(), AllocError>
        ensures { IfOk result (λ _. state self.new ≡ states.declare (string_bytes name.now.value) (held_term t) (state self.old)) }
    {
        self.store.push(Binding {
            name: name.clone()?,
            value: t,
        })?;
        Ok(())
    }

    /// The first variables alone are kept.
    pub fn leave(&mut self, kept: usize)
        ensures { state self.new ≡ states.leave kept (state self.old) }
    {
        self.store.truncate(kept);
    }

    /// Whether a term is literally true or an entry of the path.
    pub fn is_known(&self, t: &Term) -> bool
        ensures { result ≡ states.is_known (term t.now) (state self.now) }
    {
        t.is_same(&Term::Truth(true)) || self.path.holds(t)
    }

    /// A fact that isn't known is added.
    pub fn add_fact(&mut self, alloc: Global, t: Rc<Term>) -> Result<(), AllocError>
        ensures { IfOk result (λ _. state self.new ≡ states.with_fact (held_term t) (state self.old)) }
    {
        if !self.is_known(&t) {
            let path = mem::replace(&mut self.path, IndexedPath::new());
            self.path = path.add_fact(alloc, t)?;
        }
        Ok(())
    }

    /// A branch's condition is added.
    pub fn add_branch(&mut self, alloc: Global, t: Rc<Term>) -> Result<(), AllocError>
        ensures { IfOk result (λ _. state self.new ≡ states.with_branch (held_term t) (state self.old)) }
    {
        let path = mem::replace(&mut self.path, IndexedPath::new());
        self.path = path.add_branch(alloc, t)?;
        Ok(())
    }

    /// What is added to the path from now on stands in the segment with this number.
    pub fn open(&mut self, segment: u64)
        ensures { state self.new ≡ state self.old }
    {
        self.path.segment = segment;
    }

    /// A symbol that stands nowhere yet.
    pub fn new_symbol(&mut self, alloc: Global, of: Sort) -> Result<Rc<Term>, AllocError>
        ensures { IfOk result (λ t. (held_term t ≡ states.fresh (sort of) (state self.old)) × (state self.new ≡ states.after_fresh (state self.old))) }
    {
        let number = self.next;
        if number == u64::MAX {
            return Err(AllocError);
        }
        self.next = number + 1;
        make::variable(alloc, number, of)
    }

    /// Whether a value is its own name.
    fn is_named(&self, t: &Term) -> bool
        ensures { result ≡ states.is_named (term t.now) (state self.now) }
    {
        t.is_name() || self.is_quiet()
    }

    /// A name for a value: itself, or a new symbol that equals it.
    pub fn name(&mut self, alloc: Global, t: Rc<Term>) -> Result<Rc<Term>, AllocError>
        ensures { IfOk result (λ r. (held_term r ≡ states.name_of (held_term t) (state self.old)) × (state self.new ≡ states.after_name (held_term t) (state self.old))) }
    {
        if self.is_named(&t) {
            return Ok(t);
        }
        let symbol = self.new_symbol(alloc, t.sort()?)?;
        let equation = numbers::eq(alloc, &symbol, &t)?;
        self.add_fact(alloc, equation)?;
        Ok(symbol)
    }

    /// A further variable with a new symbol.
    pub fn declare_fresh(
        &mut self,
        alloc: Global,
        name: &Rc<String>,
        of: Sort,
    ) -> Result<(), AllocError>
        ensures { IfOk result (λ _. state self.new ≡ states.declare_fresh (string_bytes name.now.value) (sort of) (state self.old)) }
    {
        let symbol = self.new_symbol(alloc, of)?;
        self.declare(name, symbol)
    }

    /// Further variables with new symbols.
    pub fn declare_all(
        &mut self,
        alloc: Global,
        declarations: &[Declaration],
    ) -> Result<(), AllocError>
        ensures { IfOk result (λ _. state self.new ≡ states.declare_all (map declaration declarations.now) (state self.old)) }
    {
        for d in declarations {
            self.declare_fresh(alloc, &d.name, sort_of_value(d.of))?;
        }
        Ok(())
    }
}

//! Chunks, and which of them are of one location or instance.

ghost use Rattle.std.specs.Prelude.{◌≡◌, ◌&&◌, IfOk, true};
ghost use Rattle.vx_ast.specs.Syntax.{same_name};
ghost use Rattle.vx_heap.specs.Places.{row_of};
ghost use Rattle.vx_heap.specs.Views.{chunk as chunk_view, is_field, key, name, terms_of, held_term};
ghost use Rattle.vx_rules.specs.Chunks.{is_kin, same_arguments};
ghost use Rattle.vx_terms.specs.Terms.{same_bool};

use crate::rows;
use std::alloc::{AllocError, Global};
use std::rc::Rc;
use vx_terms::Term;

/// What there is an amount of, by name.
pub enum Resource {
    Field(Rc<String>),
    Predicate(Rc<String>),
}

impl Drop for Resource {
    fn drop(self) {
        match self {
            Resource::Field(_name) => {}
            Resource::Predicate(_name) => {}
        }
    }
}

/// An amount of a field's location, whose one argument is the receiver, or of a predicate's instance.
pub struct Chunk {
    pub resource: Resource,
    pub arguments: Vec<Rc<Term>>,
    pub amount: Rc<Term>,
    /// The location's value, or the instance's snapshot.
    pub value: Rc<Term>,
    /// The instance that a function's measure names.
    pub is_root: bool,
    /// From inside that instance.
    pub is_inner: bool,
}

impl Drop for Chunk {
    fn drop(self) {
        let Self {
            resource,
            arguments,
            amount,
            value,
            is_root,
            is_inner,
        } = self;
    }
}

/// Whether two names are the same.
fn is_same_name(x: &[u8], y: &[u8]) -> bool
    ensures { result ≡ same_name x.now y.now }
{
    x == y
}

/// Whether two lists of terms are one and the same.
pub(crate) fn are_same(ss: &[Rc<Term>], ts: &[Rc<Term>]) -> bool
    ensures { result ≡ same_arguments (terms_of ss.now) (terms_of ts.now) }
{
    match ss {
        [] => ts.is_empty(),
        [s, ss @ ..] => match ts {
            [] => false,
            [t, ts @ ..] => s.is_same(t) && are_same(ss, ts),
        },
    }
}

impl Resource {
    /// The same resource once more.
    pub fn copy(&self) -> Result<Resource, AllocError>
        ensures { IfOk result (λ copy. (is_field copy ≡ is_field self.now) × (name copy ≡ name self.now)) }
    {
        Ok(match self {
            Resource::Field(x) => Resource::Field(x.clone()?),
            Resource::Predicate(x) => Resource::Predicate(x.clone()?),
        })
    }

    /// The row in which its chunks are found.
    pub(crate) fn row(&self) -> usize
        ensures { result ≡ row_of (name self.now) }
    {
        match self {
            Resource::Field(x) => rows::row_of(x.as_bytes()),
            Resource::Predicate(x) => rows::row_of(x.as_bytes()),
        }
    }

    /// Whether it is the same field or predicate.
    pub fn is_same(&self, other: &Resource) -> bool
        ensures { result ≡ (same_bool (is_field self.now) (is_field other.now) && same_name (name self.now) (name other.now)) }
    {
        match (self, other) {
            (Resource::Field(x), Resource::Field(y)) => is_same_name(x.as_bytes(), y.as_bytes()),
            (Resource::Predicate(x), Resource::Predicate(y)) => {
                is_same_name(x.as_bytes(), y.as_bytes())
            }
            _ => false,
        }
    }
}

/// The same terms once more.
fn copy_terms(alloc: Global, terms: &[Rc<Term>]) -> Result<Vec<Rc<Term>>, AllocError>
    ensures { IfOk result (λ copies. terms_of copies.items ≡ terms_of terms.now) }
{
    let mut copies = Vec::new(alloc);
    for t in terms {
        copies.push(t.clone()?)?;
    }
    Ok(copies)
}

impl Chunk {
    /// Whether it is of a resource and has identical arguments or, where those are asked for, others.
    pub fn is_chosen(&self, identical: bool, resource: &Resource, arguments: &[Rc<Term>]) -> bool
        ensures { result ≡ (is_kin (key resource.now arguments.now) (chunk_view self.now)
            && same_bool identical (same_arguments (terms_of arguments.now) (chunk_view self.now).arguments)) }
    {
        resource.is_same(&self.resource) && identical == are_same(arguments, &self.arguments)
    }

    /// The same chunk once more, over shared terms.
    pub fn copy(&self, alloc: Global) -> Result<Chunk, AllocError>
        ensures { IfOk result (λ copy. chunk_view copy ≡ chunk_view self.now) }
    {
        Ok(Chunk {
            resource: self.resource.copy()?,
            arguments: copy_terms(alloc, &self.arguments)?,
            amount: self.amount.clone()?,
            value: self.value.clone()?,
            is_root: self.is_root,
            is_inner: self.is_inner,
        })
    }

    /// The same chunk with another amount.
    pub fn with_amount(&self, alloc: Global, amount: Rc<Term>) -> Result<Chunk, AllocError>
        ensures { IfOk result (λ other. chunk_view other ≡ record (chunk_view self.now) { amount = held_term amount }) }
    {
        let mut other = self.copy(alloc)?;
        other.amount = amount;
        Ok(other)
    }

    /// The same chunk with another value.
    pub fn with_value(&self, alloc: Global, value: Rc<Term>) -> Result<Chunk, AllocError>
        ensures { IfOk result (λ other. chunk_view other ≡ record (chunk_view self.now) { value = held_term value }) }
    {
        let mut other = self.copy(alloc)?;
        other.value = value;
        Ok(other)
    }

    /// The same chunk as the root.
    pub fn as_root(&self, alloc: Global) -> Result<Chunk, AllocError>
        ensures { IfOk result (λ other. chunk_view other ≡ record (chunk_view self.now) { root = true }) }
    {
        let mut other = self.copy(alloc)?;
        other.is_root = true;
        Ok(other)
    }
}

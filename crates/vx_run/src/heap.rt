//! Heaps of a run.
ghost use Rattle.std.specs.Prelude.{◌≡◌, ◌∷◌, [], IfOk};
ghost use Rattle.vx_ast.specs.Types.{same_type};
ghost use Rattle.vx_meaning.specs.Values as meaning;
ghost use Rattle.vx_meaning.specs.States as states;
ghost use Rattle.vx_run.specs.Views.{value};
ghost use Rattle.vx_run.specs.Held as held;

use crate::resource::Location;
use crate::values::Value;
use std::alloc::{AllocError, Global};
use std::rc::Rc;
use vx_ast::ValueType;
use vx_frac::Frac;

/// Values of locations, the newest first. Any end of it can be shared, so an old heap stays as it was.
pub enum Heap {
    Empty,
    Write(Location, Value, Rc<Heap>),
}

/// The entries are let go one after the other: there is one for each write.
impl Drop for Heap {
    fn drop(mut self) {
        loop {
            match self {
                Heap::Empty => return,
                Heap::Write(_location, _value, rest) => match Rc::into_inner(rest) {
                    Some(next) => self = next,
                    None => return,
                },
            }
        }
    }
}

/// The value of a location of a type before it is written.
pub fn default_of(of: ValueType) -> Value
    ensures { value result ≡ meaning.default_of of }
{
    match of {
        ValueType::Int => Value::Int(0),
        ValueType::Bool => Value::Bool(false),
        ValueType::Ref => Value::Ref(0),
        ValueType::Perm => Value::Perm(Frac::whole(0)),
    }
}

/// Whether a value is of a type.
fn is_of(v: Value, of: ValueType) -> bool
    ensures { result ≡ same_type (meaning.type_of (value v)) of }
{
    match (v, of) {
        (Value::Int(_), ValueType::Int) => true,
        (Value::Bool(_), ValueType::Bool) => true,
        (Value::Ref(_), ValueType::Ref) => true,
        (Value::Perm(_), ValueType::Perm) => true,
        (Value::Int(_), ValueType::Bool | ValueType::Ref | ValueType::Perm) => false,
        (Value::Bool(_), ValueType::Int | ValueType::Ref | ValueType::Perm) => false,
        (Value::Ref(_), ValueType::Int | ValueType::Bool | ValueType::Perm) => false,
        (Value::Perm(_), ValueType::Int | ValueType::Bool | ValueType::Ref) => false,
    }
}

impl Heap {
    /// A heap in which nothing was written.
    pub fn empty(alloc: Global) -> Result<Rc<Heap>, AllocError>
        ensures { IfOk result (λ h. held.heap h.value ≡ []) }
    {
        Ok(Rc::new(alloc, Heap::Empty)?)
    }

    /// The value of a location whose field is of this type.
    pub fn find(&self, of: ValueType, l: &Location) -> Value
        ensures { value result ≡ states.find_value of (held.heap self.now) (held.location l.now) }
    {
        let mut left = self;
        loop {
            match left {
                Heap::Empty => return default_of(of),
                Heap::Write(at, v, rest) => {
                    if l.is_same(at) && is_of(*v, of) {
                        return *v;
                    }
                    left = rest;
                }
            }
        }
    }
}

/// A heap in which a location has this value.
pub fn write(alloc: Global, heap: &Rc<Heap>, l: &Location, v: Value) -> Result<Rc<Heap>, AllocError>
    ensures { IfOk result (λ h. held.heap h.value ≡ (held.location l.now, value v) ∷ held.heap heap.now.value) }
{
    Ok(Rc::new(alloc, Heap::Write(l.copy()?, v, heap.clone()?))?)
}

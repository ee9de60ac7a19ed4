//! Locations and instances, and what is held of them.
ghost use Rattle.std.specs.Prelude.{◌≡◌, map, IfOk};
ghost use Rattle.vx_ast.specs.Syntax.{same_name};
ghost use Rattle.vx_meaning.specs.Values as meaning;
ghost use Rattle.vx_meaning.specs.States as states;
ghost use Rattle.vx_run.specs.Views.{value};
ghost use Rattle.vx_run.specs.Held as held;

use crate::operators::is_same_value;
use crate::values::Value;
use std::alloc::AllocError;
use std::rc::Rc;

/// A field of a reference.
#[derive(Drop)]
pub struct Location {
    pub receiver: u64,
    pub field: Rc<String>,
}

/// A predicate with its arguments.
#[derive(Drop)]
pub struct Instance {
    pub predicate: Rc<String>,
    pub arguments: Rc<Vec<Value>>,
}

/// What is held.
#[derive(Drop)]
pub enum Resource {
    At(Location),
    Folded(Instance),
}

/// Whether two names are the same.
fn is_same_name(x: &[u8], y: &[u8]) -> bool
    ensures { result ≡ same_name x.now y.now }
{
    x == y
}

/// Whether two lists of values are the same.
fn are_same_values(vs: &[Value], ws: &[Value]) -> bool
    ensures { result ≡ meaning.same_values (map value vs.now) (map value ws.now) }
{
    let mut left = vs;
    let mut right = ws;
    loop {
        match (left, right) {
            ([], []) => return true,
            ([v, more @ ..], [w, others @ ..]) => {
                if !is_same_value(*v, *w) {
                    return false;
                }
                left = more;
                right = others;
            }
            ([], [_w, ..]) => return false,
            ([_v, ..], []) => return false,
        }
    }
}

impl Location {
    /// The same location once more.
    pub fn copy(&self) -> Result<Location, AllocError>
        ensures { IfOk result (λ l. held.location l ≡ held.location self.now) }
    {
        Ok(Location {
            receiver: self.receiver,
            field: self.field.clone()?,
        })
    }

    /// Whether it is this one.
    pub fn is_same(&self, other: &Location) -> bool
        ensures { result ≡ states.same_location (held.location self.now) (held.location other.now) }
    {
        self.receiver == other.receiver
            && is_same_name(self.field.as_bytes(), other.field.as_bytes())
    }
}

impl Instance {
    /// The same instance once more.
    pub fn copy(&self) -> Result<Instance, AllocError>
        ensures { IfOk result (λ i. held.instance i ≡ held.instance self.now) }
    {
        Ok(Instance {
            predicate: self.predicate.clone()?,
            arguments: self.arguments.clone()?,
        })
    }

    /// Whether it is of this predicate, with these values.
    fn is_same(&self, other: &Instance) -> bool
        ensures { result ≡ states.same_resource (states.Folded (held.instance self.now)) (states.Folded (held.instance other.now)) }
    {
        is_same_name(self.predicate.as_bytes(), other.predicate.as_bytes())
            && are_same_values(&self.arguments, &other.arguments)
    }
}

impl Resource {
    /// The same resource once more.
    pub fn copy(&self) -> Result<Resource, AllocError>
        ensures { IfOk result (λ r. held.resource r ≡ held.resource self.now) }
    {
        match self {
            Resource::At(l) => Ok(Resource::At(l.copy()?)),
            Resource::Folded(i) => Ok(Resource::Folded(i.copy()?)),
        }
    }

    /// Whether it is this one.
    pub fn is_same(&self, other: &Resource) -> bool
        ensures { result ≡ states.same_resource (held.resource self.now) (held.resource other.now) }
    {
        match (self, other) {
            (Resource::At(l), Resource::At(m)) => l.is_same(m),
            (Resource::Folded(i), Resource::Folded(j)) => i.is_same(j),
            (Resource::At(_), Resource::Folded(_)) => false,
            (Resource::Folded(_), Resource::At(_)) => false,
        }
    }
}

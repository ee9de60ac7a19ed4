//! Permissions that an assertion names: they are found and taken.
ghost use Rattle.std.specs.Prelude.{◌≡◌, ℕ, string_bytes, map};
ghost use Rattle.vx_frac.specs.Fraction.{fraction};
ghost use Rattle.vx_meaning.specs.States as states;
ghost use Rattle.vx_run.specs.Configs.{Setting};
ghost use Rattle.vx_run.specs.Held as held;
ghost use Rattle.vx_run.specs.Holding.{holdings, Tells};
ghost use Rattle.vx_run.specs.Views.{value};
ghost use Rattle.vx_run.specs.Visits.{came, amount_at, field_of, instance_of, taking};

use crate::amounts::times;
use crate::context::Within;
use crate::halt::Halt;
use crate::holdings::Holdings;
use crate::outcome::Whole;
use crate::resource::{Instance, Location, Resource};
use crate::values::Value;
use std::alloc::Global;
use std::rc::Rc;
use vx_ast::Place;
use vx_frac::Frac;

/// An amount of a permission, at least 0.
fn amount(at: Place, w: Value) -> Result<Frac, Whole>
    ensures { came fraction result ≡ amount_at at (value w) }
{
    match w {
        Value::Perm(q) => {
            if q.is_less(Frac::whole(0)) {
                return Err(Whole::Failed(at));
            }
            Ok(q)
        }
        Value::Int(_) | Value::Bool(_) | Value::Ref(_) => Err(Whole::Failed(at)),
    }
}

/// The location of a field and an amount, by the values of its receiver and of the amount.
pub fn field_permission(
    at: Place,
    f: &Rc<String>,
    v: Value,
    w: Value,
) -> Result<(Resource, Frac), Halt>
    ensures { Tells (λ part. (held.resource part.0, fraction part.1)) result (field_of at (string_bytes f.now.value) (value v) (value w)) }
{
    match v {
        Value::Ref(receiver) => match amount(at, w) {
            Ok(q) => {
                let field = f.clone()?;
                Ok((Resource::At(Location { receiver, field }), q))
            }
            Err(end) => Err(Halt::Over(end)),
        },
        Value::Int(_) | Value::Bool(_) | Value::Perm(_) => Err(Halt::Over(Whole::Failed(at))),
    }
}

/// The instance of a predicate and an amount, by its arguments and the amount's value.
pub fn instance_permission(
    alloc: Global,
    at: Place,
    i: &Rc<String>,
    vs: Vec<Value>,
    w: Value,
) -> Result<(Resource, Frac), Halt>
    ensures { Tells (λ part. (held.resource part.0, fraction part.1)) result (instance_of at (string_bytes i.now.value) (map value vs.items) (value w)) }
{
    match amount(at, w) {
        Ok(q) => {
            let predicate = i.clone()?;
            let arguments = Rc::new(alloc, vs)?;
            let r = Resource::Folded(Instance {
                predicate,
                arguments,
            });
            Ok((r, q))
        }
        Err(end) => Err(Halt::Over(end)),
    }
}

/// What still remains behind so much of a permission.
pub fn taken(
    alloc: Global,
    at: Place,
    q: Frac,
    r: &Resource,
    a: Frac,
    from: &Holdings,
) -> Result<Holdings, Halt>
    ensures { (t : Setting) (k : Within) (s : states.State) → Tells holdings result ((taking t k (fraction q) s).part at (held.resource r.now, fraction a) (holdings from.now)) }
{
    let b = times(at, q, a)?;
    if from.amount(r).is_less(b) {
        return Err(Halt::Over(Whole::Failed(at)));
    }
    from.less(alloc, at, r, b)
}

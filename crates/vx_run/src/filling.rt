//! Values are chosen for what is newly held.
ghost use Rattle.std.specs.Prelude.{◌≡◌, ◌&&◌, not, IfOk, Ok};
ghost use Rattle.vx_frac.specs.Fraction.{fraction};
ghost use Rattle.vx_frac.specs.Fractions.{is_positive};
ghost use Rattle.vx_resolved.specs.Settled.{settled};
ghost use Rattle.vx_run.specs.Draws.{by_draws};
ghost use Rattle.vx_run.specs.Given as given;
ghost use Rattle.vx_run.specs.Held as held;
ghost use Rattle.vx_run.specs.Fillings.{filling, TellsFrom};
ghost use Rattle.vx_run.specs.Supplies.{supply};
ghost use Rattle.vx_run.specs.Widths.{within_128_bits};

use crate::halt::Halt;
use crate::heap::{Heap, write};
use crate::holdings::Holdings;
use crate::members::field_type;
use crate::outcome::Whole;
use crate::resource::{Location, Resource};
use crate::supply::Supply;
use std::alloc::{AllocError, Global};
use std::rc::Rc;
use vx_ast::Place;
use vx_frac::Frac;
use vx_resolved::Settled;

/// The most that can be held of a location.
pub fn most_of(l: &Location) -> Frac
    ensures { fraction result ≡ given.most_of (held.location l.now) }
{
    if l.receiver == 0 {
        return Frac::whole(0);
    }
    Frac::whole(1)
}

/// Whether an amount is above 0.
pub fn is_above_none(a: Frac) -> bool
    ensures { result ≡ is_positive (fraction a) }
{
    Frac::whole(0).is_less(a)
}

/// A heap, and what is held of each location in all.
#[derive(Drop)]
pub struct Filling {
    pub heap: Rc<Heap>,
    pub totals: Holdings,
}

/// A location gets a value, where nobody held it and now it is held.
fn valued(
    alloc: Global,
    program: &Settled,
    from: &mut Supply,
    is_new: bool,
    l: &Location,
    heap: &Rc<Heap>,
) -> Result<Rc<Heap>, AllocError>
    ensures { IfOk result (λ h. given.valued (settled program.now) by_draws within_128_bits is_new (held.location l.now) (held.heap heap.now.value) (supply from.old) ≡ Ok (held.heap h.value, supply from.new)) }
{
    if is_new {
        let v = from.draw(field_type(program, &l.field));
        let written = write(alloc, heap, l, v)?;
        return Ok(written);
    }
    let same = heap.clone()?;
    Ok(same)
}

/// Whether something is held now, and nothing was before.
fn is_new(more: Frac, before: Frac) -> bool
    ensures { result ≡ (is_positive (fraction more) && not (is_positive (fraction before))) }
{
    is_above_none(more) && !is_above_none(before)
}

/// So much more of a location is held.
pub fn fill_location(
    alloc: Global,
    program: &Settled,
    from: &mut Supply,
    at: Place,
    l: &Location,
    q: Frac,
    w: &Filling,
) -> Result<Filling, Halt>
    ensures { TellsFrom filling result (supply from.new) (given.fill_location (settled program.now) by_draws within_128_bits at (held.location l.now) (fraction q) (filling w.now) (supply from.old)) }
{
    let r = Resource::At(l.copy()?);
    let totals = w.totals.more(alloc, at, &r, q)?;
    if most_of(l).is_less(totals.amount(&r)) {
        return Err(Halt::Over(Whole::Failed(at)));
    }
    let is_first = is_new(q, w.totals.amount(&r));
    let heap = valued(alloc, program, from, is_first, l, &w.heap)?;
    Ok(Filling { heap, totals })
}

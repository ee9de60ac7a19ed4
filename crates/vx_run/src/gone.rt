//! What was taken from some holdings, as holdings.
ghost use Rattle.std.specs.Prelude.{◌≡◌, ◌-◌, length, map, take, IfOk};
ghost use Rattle.vx_frac.specs.Fraction.{fraction};
ghost use Rattle.vx_meaning.specs.States as states;
ghost use Rattle.vx_run.specs.Held.{entries, resource};
ghost use Rattle.vx_run.specs.Holding.{holdings as holdings_of};
ghost use Rattle.vx_run.specs.Taken.{taken};
ghost use Rattle.vx_run.specs.Whole as whole;

use crate::amounts::turned;
use crate::entries::Entries;
use crate::holdings::Holdings;
use crate::resource::Resource;
use std::alloc::{AllocError, Global};
use vx_frac::Frac;

/// An entry of what was taken.
#[derive(Clone, Copy)]
pub struct Taken<'a> {
    pub resource: &'a Resource,
    pub amount: Frac,
}

impl Holdings {
    /// With so much more of a resource, where the total fits.
    pub fn gained(&self, alloc: Global, r: &Resource, a: Frac) -> Result<Holdings, AllocError>
        ensures { IfOk result (λ h. holdings_of h ≡ states.gained (resource r.now) (fraction a) (holdings_of self.now)) }
    {
        match self.amount(r).add(a) {
            Ok(total) => Ok(self.entered(alloc, r, a, total)?),
            Err(_) => Err(AllocError),
        }
    }
}

/// A list without as many entries as another has.
fn behind<'a>(before: &Entries, after: &'a Entries) -> &'a Entries
    ensures { length (entries result.now) ≡ length (entries after.now) - length (entries before.now) }
{
    let mut left = before;
    let mut rest = after;
    loop {
        match left {
            Entries::Nothing => return rest,
            Entries::Entry(_, _, _, next) => match rest {
                Entries::Nothing => return rest,
                Entries::Entry(_, _, _, further) => {
                    left = next;
                    rest = further;
                }
            },
        }
    }
}

/// The newest entries of a list: as many as another has.
fn newest_entries<'a>(
    alloc: Global,
    count: &Entries,
    all: &'a Entries,
) -> Result<Vec<Taken<'a>>, AllocError>
    ensures { IfOk result (λ found. map taken found.items ≡ take (length (entries count.now)) (entries all.now)) }
{
    let mut found = Vec::new(alloc);
    let mut left = count;
    let mut rest = all;
    loop {
        match left {
            Entries::Nothing => return Ok(found),
            Entries::Entry(_, _, _, next) => match rest {
                Entries::Nothing => return Ok(found),
                Entries::Entry(of, amount, _, further) => {
                    found.push(Taken {
                        resource: of,
                        amount: *amount,
                    })?;
                    left = next;
                    rest = further;
                }
            },
        }
    }
}

/// Entries as holdings, with their signs turned.
fn given_back(alloc: Global, found: Vec<Taken<'_>>) -> Result<Holdings, AllocError>
    ensures { IfOk result (λ h. holdings_of h ≡ whole.given_back (map taken found.entry.items)) }
{
    let mut found = found;
    let mut given = Holdings::none(alloc)?;
    while let Some(e) = found.pop() {
        given = given.gained(alloc, e.resource, turned(e.amount)?)?;
    }
    Ok(given)
}

/// What was taken between some holdings and others.
pub fn gone(alloc: Global, before: &Holdings, after: &Holdings) -> Result<Holdings, AllocError>
    ensures { IfOk result (λ h. holdings_of h ≡ whole.gone (holdings_of before.now) (holdings_of after.now)) }
{
    let count = behind(&before.entries, &after.entries);
    let found = newest_entries(alloc, count, &after.entries)?;
    given_back(alloc, found)
}

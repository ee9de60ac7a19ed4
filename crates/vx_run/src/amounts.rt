//! Amounts of what is held.
ghost use Rattle.std.specs.Prelude.{◌≡◌, [], IfOk};
ghost use Rattle.vx_frac.specs.Fraction.{fraction};
ghost use Rattle.vx_frac.specs.Fractions.{lowest, minus, sum};
ghost use Rattle.vx_meaning.specs.States as states;
ghost use Rattle.vx_run.specs.Held as held;
ghost use Rattle.vx_run.specs.Holding.{holdings, Tells};
ghost use Rattle.vx_run.specs.Widths as widths;
ghost use Rattle.vx_run.specs.Widths.{within_128_bits};

use crate::entries::Entries;
use crate::halt::Halt;
use crate::holdings::Holdings;
use crate::operators::wide;
use crate::resource::Resource;
use std::alloc::{AllocError, Global};
use std::rc::Rc;
use vx_ast::Place;
use vx_frac::Frac;

/// q times an amount.
pub fn times(at: Place, q: Frac, a: Frac) -> Result<Frac, Halt>
    ensures { Tells fraction result (widths.times within_128_bits at (fraction q) (fraction a)) }
{
    match q.mul(a) {
        Ok(f) => Ok(f),
        Err(call) => Err(Halt::Over(wide(at, call))),
    }
}

/// The amount with its sign turned, where it fits.
pub fn turned(a: Frac) -> Result<Frac, AllocError>
    ensures { IfOk result (λ f. fraction f ≡ minus (fraction a)) }
{
    match Frac::whole(0).sub(a) {
        Ok(f) => Ok(f),
        Err(_) => Err(AllocError),
    }
}

impl Holdings {
    /// Nothing is held.
    pub fn none(alloc: Global) -> Result<Holdings, AllocError>
        ensures { IfOk result (λ h. holdings h ≡ []) }
    {
        Ok(Holdings {
            entries: Rc::new(alloc, Entries::Nothing)?,
        })
    }

    /// The same once more.
    pub fn copy(&self) -> Result<Holdings, AllocError>
        ensures { IfOk result (λ h. holdings h ≡ holdings self.now) }
    {
        Ok(Holdings {
            entries: self.entries.clone()?,
        })
    }

    /// The amount of a resource.
    pub fn amount(&self, r: &Resource) -> Frac
        ensures { fraction result ≡ lowest (states.amount (holdings self.now) (held.resource r.now)) }
    {
        self.entries.total(r)
    }

    /// With one entry more, whose total is this.
    pub fn entered(
        &self,
        alloc: Global,
        r: &Resource,
        a: Frac,
        total: Frac,
    ) -> Result<Holdings, AllocError>
        requires { fraction total ≡ lowest (sum (fraction a) (states.amount (holdings self.now) (held.resource r.now))) }
        ensures { IfOk result (λ h. holdings h ≡ states.gained (held.resource r.now) (fraction a) (holdings self.now)) }
    {
        Ok(Holdings {
            entries: Rc::new(
                alloc,
                Entries::Entry(r.copy()?, a, total, self.entries.clone()?),
            )?,
        })
    }

    /// With an amount more.
    pub fn more(&self, alloc: Global, at: Place, r: &Resource, a: Frac) -> Result<Holdings, Halt>
        ensures { Tells holdings result (widths.more within_128_bits at (held.resource r.now) (fraction a) (holdings self.now)) }
    {
        match self.amount(r).add(a) {
            Ok(total) => Ok(self.entered(alloc, r, a, total)?),
            Err(call) => Err(Halt::Over(wide(at, call))),
        }
    }

    /// With an amount less.
    pub fn less(&self, alloc: Global, at: Place, r: &Resource, a: Frac) -> Result<Holdings, Halt>
        ensures { Tells holdings result (widths.less within_128_bits at (held.resource r.now) (fraction a) (holdings self.now)) }
    {
        match self.amount(r).sub(a) {
            Ok(total) => Ok(self.entered(alloc, r, turned(a)?, total)?),
            Err(call) => Err(Halt::Over(wide(at, call))),
        }
    }
}

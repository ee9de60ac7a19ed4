//! The clause that a contradiction among numbers teaches: not all of its constraints hold.

use crate::claims::Claims;
use crate::lemma::add_equal;
use cs_proof::Step;
use cs_record::draft::{Draft, Lemma};
use cs_record::numbered::{Record, written};
use cs_sums::{Reason, Share};
use cs_table::{Literal, Stop};
use std::alloc::Global;
use vx_frac::Frac;

/// The literals of a `farkas` step, with their multipliers.
#[derive(Drop)]
struct Terms {
    literals: Vec<Literal>,
    multipliers: Vec<Frac>,
}

/// A fraction with the other sign.
fn turned(a: Frac) -> Result<Frac, Stop> {
    match Frac::whole(0).sub(a) {
        Ok(turned) => Ok(turned),
        Err(_) => Err(Stop::Miss),
    }
}

impl Terms {
    fn add(&mut self, positive: bool, number: u32, multiplier: Frac) -> Result<(), Stop> {
        self.literals.push(Literal { positive, number })?;
        self.multipliers.push(multiplier)?;
        Ok(())
    }

    /// The equality of two terms, whose sides may stand the other way round.
    fn add_same(
        &mut self,
        alloc: Global,
        record: &mut Record,
        a: u32,
        b: u32,
        multiplier: Frac,
    ) -> Result<(), Stop> {
        let equal = record.equality_of(alloc, a, b)?;
        if record.sides(equal)? == Some((a, b)) {
            return self.add(false, equal, multiplier);
        }
        self.add(false, equal, turned(multiplier)?)
    }

    /// A part of the contradiction. What the classes say is explained first.
    fn add_share(
        &mut self,
        alloc: Global,
        record: &mut Record,
        claims: &Claims,
        draft: &mut Draft,
        share: &Share,
    ) -> Result<(), Stop> {
        match share.reason {
            Reason::Claim(number, holds) => {
                draft.add(!holds, number)?;
                self.add(!holds, number, share.multiplier)
            }
            Reason::Same(a, b) => {
                add_equal(alloc, record, draft, claims, (a, b))?;
                self.add_same(alloc, record, a, b, share.multiplier)
            }
        }
    }
}

/// The clause that a contradiction teaches. Its steps are recorded.
///
/// # Errors
/// `Miss` where a part names what isn't numbered; `Want` where memory runs out.
pub fn refutation_of(
    alloc: Global,
    record: &mut Record,
    claims: &Claims,
    shares: &[Share],
) -> Result<Lemma, Stop> {
    let mut draft = Draft::new(alloc);
    let mut terms = Terms {
        literals: Vec::new(alloc),
        multipliers: Vec::new(alloc),
    };
    for share in shares {
        terms.add_share(alloc, record, claims, &mut draft, share)?;
    }
    let Terms {
        literals,
        multipliers,
    } = terms;
    let number = record.derive(Step::Farkas(written(alloc, &literals)?, multipliers))?;
    draft.derived_by(alloc, record, number)
}

//! The clause that a broken claim teaches: not all the claims that explain it hold.

use crate::claims::{Claim, Claims, Truths};
use cs_cong::{Chain, Derived};
use cs_proof::Step;
use cs_record::draft::{Draft, Lemma};
use cs_record::numbered::{Record, wide};
use cs_table::Stop;
use std::alloc::Global;

/// The Bool term of this number has this value: so it is equal to `true`, or to `false`.
fn add_value(
    alloc: Global,
    record: &mut Record,
    draft: &mut Draft,
    truths: Truths,
    number: u32,
    holds: bool,
) -> Result<(), Stop> {
    draft.add(!holds, number)?;
    let equal = record.equality_of(alloc, number, truths.number(holds))?;
    draft.hint(truths.clause(holds))?;
    let row = if holds { 3 } else { 2 };
    draft.step(record, Step::Define(u128::from(equal), row))
}

/// A claim that is used.
fn add_claim(
    alloc: Global,
    record: &mut Record,
    draft: &mut Draft,
    truths: Option<Truths>,
    claim: Claim,
) -> Result<(), Stop> {
    match (claim, truths) {
        (Claim::Equality(number, true), _) => draft.add(false, number),
        (Claim::Value(number, holds), Some(truths)) => {
            add_value(alloc, record, draft, truths, number, holds)
        }
        _ => Err(Stop::Miss),
    }
}

/// A path of equal terms. One of two terms says nothing new.
fn add_path(
    alloc: Global,
    record: &mut Record,
    draft: &mut Draft,
    path: &[u32],
) -> Result<(), Stop> {
    let (Some(first), Some(last)) = (path.first(), path.last()) else {
        return Err(Stop::Miss);
    };
    if path.len() == 2 {
        return Ok(());
    }
    record.equality_of(alloc, *first, *last)?;
    draft.step(record, Step::Chain(wide(alloc, path)?))
}

/// A step of the explanation.
fn add_step(
    alloc: Global,
    record: &mut Record,
    draft: &mut Draft,
    step: &Derived,
) -> Result<(), Stop> {
    match step {
        Derived::Path(path) => add_path(alloc, record, draft, path),
        Derived::Congruent(s, t) => {
            record.equality_of(alloc, *s, *t)?;
            let step = Step::Congruence(u128::from(*s), u128::from(*t));
            draft.step(record, step)
        }
    }
}

/// `true` is equal to `false`, which can't be.
fn add_truths(
    alloc: Global,
    record: &mut Record,
    draft: &mut Draft,
    truths: Truths,
) -> Result<(), Stop> {
    let equal = record.equality_of(alloc, truths.yes, truths.no)?;
    let row = if record.node(equal)?.parts.first() == Some(&truths.yes) {
        0
    } else {
        1
    };
    draft.hint(truths.yes_clause)?;
    draft.step(record, Step::Define(u128::from(equal), row))?;
    draft.hint(truths.no_clause)
}

/// The claim that is broken.
fn add_broken(
    alloc: Global,
    record: &mut Record,
    draft: &mut Draft,
    truths: Option<Truths>,
    claim: Claim,
) -> Result<(), Stop> {
    match (claim, truths) {
        (Claim::Equality(number, false), _) => draft.add(true, number),
        (Claim::Truths, Some(truths)) => add_truths(alloc, record, draft, truths),
        _ => Err(Stop::Miss),
    }
}

/// The claims of these numbers.
fn add_claims(
    alloc: Global,
    record: &mut Record,
    draft: &mut Draft,
    claims: &Claims,
    numbers: &[u32],
) -> Result<(), Stop> {
    for number in numbers {
        let claim = claims.claim(*number as usize)?;
        add_claim(alloc, record, draft, claims.truths, claim)?;
    }
    Ok(())
}

/// The steps of an explanation.
fn add_steps(
    alloc: Global,
    record: &mut Record,
    draft: &mut Draft,
    steps: &[Derived],
) -> Result<(), Stop> {
    for step in steps {
        add_step(alloc, record, draft, step)?;
    }
    Ok(())
}

/// Why two terms are equal.
///
/// # Errors
/// `Miss` where they aren't; `Want` where memory runs out.
pub(crate) fn add_equal(
    alloc: Global,
    record: &mut Record,
    draft: &mut Draft,
    claims: &Claims,
    terms: (u32, u32),
) -> Result<(), Stop> {
    let Chain {
        claims: used,
        steps,
    } = claims.held.explain(alloc, terms.0, terms.1)?;
    add_claims(alloc, record, draft, claims, &used)?;
    add_steps(alloc, record, draft, &steps)
}

/// The clause that a broken claim teaches: that one of the claims that explain it doesn't hold, or the equality that
/// it denies does. Its steps are recorded.
///
/// # Errors
/// `Miss` where the claim isn't broken; `Want` where memory runs out.
pub fn lemma_of(
    alloc: Global,
    record: &mut Record,
    claims: &Claims,
    broken: Claim,
) -> Result<Lemma, Stop> {
    let terms = claims.ends(record, broken)?;
    let mut draft = Draft::new(alloc);
    add_equal(alloc, record, &mut draft, claims, terms)?;
    add_broken(alloc, record, &mut draft, claims.truths, broken)?;
    draft.derived(alloc, record)
}

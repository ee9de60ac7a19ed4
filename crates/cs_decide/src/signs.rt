//! The signs with which atoms are decided first.

use crate::check::Attempt;
use cs_index::mix;
use cs_search::order::Order;
use cs_sums::Stop;

/// The sign with which an atom is decided first.
pub(crate) fn prefer(order: &mut Order, atom: u32, sign: bool) -> Result<(), Stop> {
    order.reach((atom as usize).saturating_add(1))?;
    if let Some(place) = order.signs.get_mut(atom as usize) {
        *place = sign;
    }
    Ok(())
}

/// The signs with which the first atoms are decided first, in a later attempt.
pub(crate) fn prefer_others(order: &mut Order, count: u32, attempt: Attempt) -> Result<(), Stop> {
    let Attempt::Signs(attempt) = attempt else {
        return Ok(());
    };
    if attempt == 0 {
        return Ok(());
    }
    for atom in 0..count {
        prefer(
            order,
            atom,
            mix(u64::from(attempt), u64::from(atom)) % 2 == 1,
        )?;
    }
    Ok(())
}

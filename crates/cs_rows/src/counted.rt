//! Numbers under keys, and units that are spent.

use cs_index::Index;
use cs_meter::Meter;
use vx_table::Text;

/// The numbers under a key; false: it is no key.
pub fn put_numbers_under(index: &Index, key: &str, text: &mut Text) -> bool {
    let Ok(key) = key.parse() else {
        return false;
    };
    for number in index.under(key) {
        if !text.is_empty() {
            text.put(" ");
        }
        text.natural(u128::from(*number));
    }
    if text.is_empty() {
        text.put("none");
    }
    true
}

/// How much is spent behind so many units more, and how many of them are refused; false: that is no number.
pub fn put_spent(meter: &mut Meter, units: &str, text: &mut Text) -> bool {
    let Ok(units) = units.parse::<u32>() else {
        return false;
    };
    let mut refused = 0u32;
    for _ in 0..units {
        if meter.spend().is_err() {
            refused = refused.saturating_add(1);
        }
    }
    text.natural(u128::from(meter.spent()));
    text.put(" spent, ");
    text.natural(u128::from(refused));
    text.put(" refused");
    true
}

//! Fractions, and what is reckoned with them.

use std::cmp::Ordering;
use vx_frac::{Frac, Op, Over};
use vx_table::Text;

// A numerator, with a denominator where it isn't 1; None: the word is none, or the denominator isn't above 0.
fn fraction_of(word: &str) -> Option<Frac> {
    let (num, den) = word.split_once('/').unwrap_or((word, "1"));
    let num = num.parse().ok()?;
    let den = den.parse::<i128>().ok()?;
    if den > 0 {
        Some(Frac::new(num, den))
    } else {
        None
    }
}

fn put_number(of: Frac, out: &mut Text) {
    out.whole(of.num());
    out.put("/");
    out.whole(of.den());
}

fn operation_word(of: Op) -> &'static str {
    match of {
        Op::Add => "Add",
        Op::Sub => "Sub",
        Op::Mul => "Mul",
        Op::Cmp => "Cmp",
        Op::Div => "Div",
    }
}

fn put_over(over: &Over, out: &mut Text) {
    out.put(operation_word(over.op));
    out.put(" of ");
    put_number(over.a, out);
    out.put(" and ");
    put_number(over.b, out);
    out.put(" leaves 128 bits");
}

fn put_value(value: Result<Frac, Over>, out: &mut Text) {
    match value {
        Ok(value) => put_number(value, out),
        Err(over) => put_over(&over, out),
    }
}

fn put_order(order: Result<Ordering, Over>, out: &mut Text) {
    match order {
        Ok(Ordering::Less) => out.put("Less"),
        Ok(Ordering::Equal) => out.put("Equal"),
        Ok(Ordering::Greater) => out.put("Greater"),
        Err(over) => put_over(&over, out),
    }
}

fn truth_word(of: bool) -> &'static str {
    if of { "true" } else { "false" }
}

// What two fractions give; false: the operator is none.
fn put_both(a: Frac, operator: &str, b: Frac, out: &mut Text) -> bool {
    match operator {
        "+" => put_value(a.add(b), out),
        "-" => put_value(a.sub(b), out),
        "*" => put_value(a.mul(b), out),
        "cmp" => put_order(a.cmp(b), out),
        "<" => out.put(truth_word(a.is_less(b))),
        "<=" => out.put(truth_word(a.is_at_most(b))),
        _ => return false,
    }
    true
}

// What a text gives; false: it is no fraction.
fn put_told(text: &str, out: &mut Text) -> bool {
    let mut words = text.split_whitespace();
    let Some(a) = words.next().and_then(fraction_of) else {
        return false;
    };
    let Some(operator) = words.next() else {
        put_number(a, out);
        return true;
    };
    match words.next().and_then(fraction_of) {
        Some(b) => put_both(a, operator, b, out),
        None => false,
    }
}

/// A fraction in lowest terms, or what `+`, `-`, `*`, `cmp`, `<` or `<=` between two of them gives.
pub fn put_fraction(text: &str, out: &mut Text) {
    out.put("  ");
    if !put_told(text, out) {
        out.put("no fraction");
    }
    out.put("\n");
}

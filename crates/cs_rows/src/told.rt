//! What is written of a row.

use cs_reader::Refusal;
use vx_frac::{Frac, Op};
use vx_table::Text;

/// A fraction in lowest terms: a numerator, and the denominator where it isn't 1.
pub fn put_fraction(text: &mut Text, of: Frac) {
    text.whole(of.num());
    if of.den() != 1 {
        text.put("/");
        text.whole(of.den());
    }
}

fn put_step(text: &mut Text, code: &str, step: u32) {
    text.put(code);
    text.put(" ");
    text.natural(u128::from(step));
}

fn put_operation(text: &mut Text, op: Op) {
    text.put(match op {
        Op::Add => " Add",
        Op::Sub => " Sub",
        Op::Mul => " Mul",
        Op::Div => " Div",
        Op::Cmp => " Cmp",
    });
}

/// A refusal: its code, the step, and the call of fractions with its operands.
pub fn put_refusal(text: &mut Text, refusal: &Refusal) {
    match refusal {
        Refusal::BadStep(step) => put_step(text, "C1", *step),
        Refusal::Over(step, op, a, b) => {
            put_step(text, "C2", *step);
            put_operation(text, *op);
            text.put(" ");
            put_fraction(text, *a);
            text.put(" ");
            put_fraction(text, *b);
        }
        Refusal::NotEmpty => text.put("C3"),
        Refusal::BadForm(step) => put_step(text, "C4", *step),
    }
}

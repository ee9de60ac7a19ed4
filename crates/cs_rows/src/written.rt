//! The steps of a certificate, as they were read.

use crate::told::put_fraction;
use cs_reader::{Literal, Step};
use vx_frac::Frac;
use vx_sexp::{Bytes, Token};
use vx_table::Text;

fn put_numbers(text: &mut Text, numbers: &[u128]) {
    for number in numbers {
        text.put(" ");
        text.natural(*number);
    }
}

fn put_literals(text: &mut Text, literals: &[Literal]) {
    for literal in literals {
        text.put(if literal.positive { " p" } else { " n" });
        text.natural(literal.number);
    }
}

fn put_fractions(text: &mut Text, fractions: &[Frac]) {
    for fraction in fractions {
        text.put(" ");
        put_fraction(text, *fraction);
    }
}

fn put_word(text: &mut Text, word: &Bytes) {
    text.put(" ");
    text.bytes(word.as_slice());
}

fn put_tokens(text: &mut Text, tokens: &[Token]) {
    for token in tokens {
        match token {
            Token::Open => text.put(" ("),
            Token::Close => text.put(" )"),
            Token::Atom(_, word) => put_word(text, word),
        }
    }
}

// A word and numbers behind it.
fn put_numbered(text: &mut Text, word: &str, numbers: &[u128]) {
    text.put(word);
    put_numbers(text, numbers);
}

fn put_step(text: &mut Text, step: &Step) {
    match step {
        Step::Input(n) => put_numbered(text, "input", &[*n]),
        Step::Term(tokens) => {
            text.put("term of ");
            text.natural(tokens.len() as u128);
            text.put(" tokens:");
            put_tokens(text, tokens);
        }
        Step::Define(t, k) => put_numbered(text, "def", &[*t, *k]),
        Step::Pick(t, k) => put_numbered(text, "pick", &[*t, *k]),
        Step::Chain(terms) => put_numbered(text, "chain", terms),
        Step::Congruence(s, t) => put_numbered(text, "cong", &[*s, *t]),
        Step::Farkas(literals, multipliers) => {
            text.put("farkas");
            put_literals(text, literals);
            text.put(" by");
            put_fractions(text, multipliers);
        }
        Step::Split(t, n) => {
            text.put("split ");
            text.natural(*t);
            text.put(" ");
            text.whole(*n);
        }
        Step::Trichotomy(a, b) => put_numbered(text, "tri", &[*a, *b]),
        Step::Divide(a, d, k) => put_numbered(text, "div", &[*a, *d, *k]),
        Step::Propagate(literals, hints) => {
            text.put("rup");
            put_literals(text, literals);
            text.put(" by");
            put_numbers(text, hints);
        }
    }
}

/// The steps, each on a line.
pub fn put_written(text: &mut Text, steps: &[Step]) {
    for step in steps {
        text.break_line();
        put_step(text, step);
    }
    if steps.is_empty() {
        text.put("no steps");
    }
}

// The text of steps, and of all of them.
ghost use Rattle.std.specs.Prelude.{◌≡◌, ◌∷◌, ◌++◌, [], map, ℤ, OnOk, OnErr, Some, codes};
ghost use Rattle.vx_frac.specs.Fraction.{fraction};
ghost use Rattle.vx_terms.specs.Views.{term};
ghost use Rattle.vx_smt_meaning.specs.Words.{numeral};
ghost use Rattle.vx_smt_text.specs.Text.{signed_text};
ghost use Rattle.cs_certificate.specs.Certificate as Written;
ghost use Rattle.cs_proof.specs.Views.{written, numbered};
ghost use Rattle.cs_text.specs.Text.{behind, listed, step_text, text_of, certificate_text};

use crate::items::{put_list, put_more};
use cs_proof::Step;
use cs_reader::Literal;
use std::alloc::{AllocError, Global};
use vx_frac::Frac;
use vx_smt_text::{put_number, put_numeral, put_term};
use vx_terms::Term;

fn put_one(text: &mut Vec<u8>, word: &str, n: u128) -> Result<(), AllocError>
    ensures { OnOk result (text.new.items ≡ text.old.items ++ listed (word.now ∷ numeral n ∷ [])) }
{
    text.push(b'(')?;
    text.extend_from_slice(word.as_bytes())?;
    text.push(b' ')?;
    put_numeral(text, n)?;
    text.extend_from_slice(b")")
}

fn put_two(text: &mut Vec<u8>, word: &str, m: u128, n: u128) -> Result<(), AllocError>
    ensures { OnOk result (text.new.items ≡ text.old.items ++ listed (word.now ∷ numeral m ∷ numeral n ∷ [])) }
{
    text.push(b'(')?;
    text.extend_from_slice(word.as_bytes())?;
    text.push(b' ')?;
    put_numeral(text, m)?;
    text.push(b' ')?;
    put_numeral(text, n)?;
    text.extend_from_slice(b")")
}

fn put_new_term(alloc: Global, text: &mut Vec<u8>, t: &Term) -> Result<(), AllocError>
    ensures { OnOk result (text.new.items ≡ text.old.items ++ step_text (Written.NewTerm (term t.now))) }
{
    text.extend_from_slice(b"(term ")?;
    put_term(alloc, text, t)?;
    text.extend_from_slice(b")")
}

fn put_chain(text: &mut Vec<u8>, terms: &[u128]) -> Result<(), AllocError>
    ensures { OnOk result (text.new.items ≡ text.old.items ++ step_text (Written.Chain terms.now)) }
{
    text.extend_from_slice(b"(chain")?;
    put_more(text, terms)?;
    text.extend_from_slice(b")")
}

fn put_farkas(
    text: &mut Vec<u8>,
    literals: &[Literal],
    multipliers: &[Frac],
) -> Result<(), AllocError>
    ensures { OnOk result (text.new.items ≡ text.old.items ++ step_text (Written.Farkas (map numbered literals.now) (map fraction multipliers.now))) }
{
    text.extend_from_slice(b"(farkas ")?;
    put_list(text, literals)?;
    text.push(b' ')?;
    put_list(text, multipliers)?;
    text.extend_from_slice(b")")
}

fn put_split(text: &mut Vec<u8>, t: u128, number: i128) -> Result<(), AllocError>
    ensures { OnOk result (text.new.items ≡ text.old.items ++ step_text (Written.Split t number)) }
{
    text.extend_from_slice(b"(split ")?;
    put_numeral(text, t)?;
    text.push(b' ')?;
    put_number(text, number)?;
    text.extend_from_slice(b")")
}

fn put_division(text: &mut Vec<u8>, a: u128, d: u128, row: u128) -> Result<(), AllocError>
    ensures { OnOk result (text.new.items ≡ text.old.items ++ step_text (Written.Divide a d row)) }
{
    text.extend_from_slice(b"(div ")?;
    put_numeral(text, a)?;
    text.push(b' ')?;
    put_numeral(text, d)?;
    text.push(b' ')?;
    put_numeral(text, row)?;
    text.extend_from_slice(b")")
}

fn put_propagation(
    text: &mut Vec<u8>,
    literals: &[Literal],
    hints: &[u128],
) -> Result<(), AllocError>
    ensures { OnOk result (text.new.items ≡ text.old.items ++ step_text (Written.Propagate (map numbered literals.now) hints.now)) }
{
    text.extend_from_slice(b"(rup ")?;
    put_list(text, literals)?;
    text.push(b' ')?;
    put_list(text, hints)?;
    text.extend_from_slice(b")")
}

fn put_step(alloc: Global, text: &mut Vec<u8>, step: &Step) -> Result<(), AllocError>
    ensures { OnOk result (text.new.items ≡ text.old.items ++ text_of (written step.now)) }
{
    match step {
        Step::Input(n) => put_one(text, "input", *n),
        Step::Term(t) => put_new_term(alloc, text, t),
        Step::NoTerm => text.extend_from_slice(b"(term)"),
        Step::Define(t, k) => put_two(text, "def", *t, *k),
        Step::Pick(t, k) => put_two(text, "pick", *t, *k),
        Step::Chain(terms) => put_chain(text, terms),
        Step::Congruence(s, t) => put_two(text, "cong", *s, *t),
        Step::Farkas(literals, multipliers) => put_farkas(text, literals, multipliers),
        Step::Split(t, number) => put_split(text, *t, *number),
        Step::Trichotomy(a, b) => put_two(text, "tri", *a, *b),
        Step::Divide(a, d, row) => put_division(text, *a, *d, *row),
        Step::Propagate(literals, hints) => put_propagation(text, literals, hints),
    }
}

/// Steps, each behind a blank.
fn put_steps(alloc: Global, text: &mut Vec<u8>, steps: &[Step]) -> Result<(), AllocError>
    ensures { OnOk result (text.new.items ≡ text.old.items ++ behind (map text_of (map written steps.now))) }
{
    for step in steps {
        text.push(b' ')?;
        put_step(alloc, text, step)?;
    }
    Ok(())
}

/// Writes a certificate at the end. After want of memory nothing is written.
pub fn write(alloc: Global, steps: &[Step], out: &mut Vec<u8>) -> Result<(), AllocError>
    ensures ok { OnOk result (out.new.items ≡ out.old.items ++ certificate_text (map written steps.now)) }
    ensures err { OnErr result (out.new.items ≡ out.old.items) }
{
    let mut text = Vec::new(alloc);
    text.extend_from_slice(b"(certificate")?;
    put_steps(alloc, &mut text, steps)?;
    text.extend_from_slice(b")")?;
    out.extend_from_slice(&text)
}

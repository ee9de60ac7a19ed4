//! Steps of certificates, over terms.
ghost use Rattle.std.specs.Prelude.{◌≡◌, map, IfOk};
ghost use Rattle.cs_reader.specs.Live.{declared_in};
ghost use Rattle.cs_reader.specs.Steps.{step, certificate};
ghost use Rattle.cs_proof.specs.Views.{written};
ghost use Rattle.cs_proof.specs.Meant.{meant, new_term};

use cs_reader::{Certificate, Literal, Scope, Symbols, spelled};
use cs_table::Stop;
use std::alloc::Global;
use std::rc::Rc;
use vx_frac::Frac;
use vx_sexp::Token;
use vx_terms::Term;

/// A step. Terms, assertions and clauses are named by their numbers.
pub enum Step {
    Input(u128),
    Term(Rc<Term>),
    /// A `term` step that spells no term over the live symbols.
    NoTerm,
    Define(u128, u128),
    Pick(u128, u128),
    Chain(Vec<u128>),
    Congruence(u128, u128),
    Farkas(Vec<Literal>, Vec<Frac>),
    Split(u128, i128),
    Trichotomy(u128, u128),
    Divide(u128, u128, u128),
    Propagate(Vec<Literal>, Vec<u128>),
}

impl Drop for Step {
    fn drop(self) {
        match self {
            Step::Input(_n) => {}
            Step::Term(_t) => {}
            Step::NoTerm => {}
            Step::Define(_t, _k) => {}
            Step::Pick(_t, _k) => {}
            Step::Chain(_terms) => {}
            Step::Congruence(_s, _t) => {}
            Step::Farkas(_literals, _multipliers) => {}
            Step::Split(_t, _number) => {}
            Step::Trichotomy(_a, _b) => {}
            Step::Divide(_a, _d, _k) => {}
            Step::Propagate(_literals, _hints) => {}
        }
    }
}

/// The `term` step of these tokens.
fn term_step(alloc: Global, symbols: &Symbols<'_>, tokens: &[Token]) -> Result<Step, Stop>
    ensures { IfOk result (λ s. written s ≡ new_term (declared_in symbols.now) tokens.now) }
{
    match spelled(alloc, &Scope::Among(symbols), tokens) {
        Ok(t) => Ok(Step::Term(t)),
        Err(cs_reader::Stop::Form) => Ok(Step::NoTerm),
        Err(cs_reader::Stop::Want) => Err(Stop::Want),
    }
}

/// The step that a written one stands for, over the live symbols.
///
/// # Errors
/// `Want` where memory runs out.
pub fn step_of(alloc: Global, symbols: &Symbols<'_>, read: cs_reader::Step) -> Result<Step, Stop>
    ensures { IfOk result (λ s. written s ≡ meant (declared_in symbols.now) (step read)) }
{
    Ok(match read {
        cs_reader::Step::Input(n) => Step::Input(n),
        cs_reader::Step::Term(tokens) => term_step(alloc, symbols, &tokens)?,
        cs_reader::Step::Define(t, k) => Step::Define(t, k),
        cs_reader::Step::Pick(t, k) => Step::Pick(t, k),
        cs_reader::Step::Chain(terms) => Step::Chain(terms),
        cs_reader::Step::Congruence(s, t) => Step::Congruence(s, t),
        cs_reader::Step::Farkas(literals, multipliers) => Step::Farkas(literals, multipliers),
        cs_reader::Step::Split(t, number) => Step::Split(t, number),
        cs_reader::Step::Trichotomy(a, b) => Step::Trichotomy(a, b),
        cs_reader::Step::Divide(a, d, k) => Step::Divide(a, d, k),
        cs_reader::Step::Propagate(literals, hints) => Step::Propagate(literals, hints),
    })
}

/// The steps that a certificate stands for, over the live symbols.
pub fn steps_of(alloc: Global, symbols: &Symbols<'_>, read: Certificate) -> Result<Vec<Step>, Stop>
    ensures { IfOk result (λ v. map written v.items ≡ map (meant (declared_in symbols.now)) (certificate read)) }
{
    let mut steps = Vec::new(alloc);
    for step in read.steps {
        steps.push(step_of(alloc, symbols, step)?)?;
    }
    Ok(steps)
}

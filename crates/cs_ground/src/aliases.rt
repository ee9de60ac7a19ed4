//! Names by which the second order of an equality leads to the first.
ghost use Rattle.std.specs.Prelude.{◌≡◌, true, map, IfOk, Some};
ghost use Rattle.std.specs.Option.{option_map};
ghost use Rattle.vx_terms.specs.Views.{term};
ghost use Rattle.cs_certificate.specs.Terms.{equal};
ghost use Rattle.cs_certificate.specs.Certificate.{Stack, Contains};
ghost use Rattle.cs_numbers.specs.Laws.{IsTable};
ghost use Rattle.cs_numbers.specs.Listed.{terms_in};
ghost use Rattle.cs_numbers.specs.Numbering.{place};
ghost use Rattle.cs_derivation.specs.View.{reached};
ghost use Rattle.cs_ground.specs.Steps.{IsNaming, NamesAlias, NamesAliases, NamesTurned, IsFresh, IsBehind, AllIn};
ghost use Rattle.cs_ground.specs.Steps as clean;

use crate::pairs::equality;
use cs_derivation::Derivation;
use cs_numbers::{NumberedTerms, place_of};
use cs_proof::Want;
use cs_table::Stop;
use std::alloc::{AllocError, Global};
use std::rc::Rc;
use vx_terms::{Operator, Sort, Term, make};

/// Numbers of an equality that is behind its other order, of its sides, of a choice that is the left side, and of the equality
/// of that choice with the right side.
#[derive(Drop)]
pub struct Alias {
    pub whole: u32,
    pub left: u32,
    pub right: u32,
    pub choice: u32,
    pub equality: u32,
}

/// The number of a term, where it has one.
fn number_of(terms: &NumberedTerms, t: &Rc<Term>) -> Result<Option<u32>, Want>
    ensures { IfOk result (λ n. n ≡ place (terms_in terms.now) (term t.now.value)) }
{
    match place_of(terms, t) {
        Ok(number) => Ok(Some(number)),
        Err(Stop::Miss) => Ok(None),
        Err(Stop::Want) => Err(Want),
    }
}

/// A choice that is t, whatever the other is.
fn choice(alloc: Global, t: &Rc<Term>, other: Rc<Term>) -> Result<Rc<Term>, AllocError>
    ensures { IfOk result (λ c. term c.value ≡ clean.choice_of (term t.now.value) (term other.value)) }
{
    let truth = make::boolean(alloc, true)?;
    Ok(Rc::new(alloc, Term::Ite(truth, t.clone()?, other))?)
}

/// A choice that is t and has no number. There are fewer than 2^32 numbers, so one of the first choices has none.
fn fresh(alloc: Global, terms: &NumberedTerms, t: &Rc<Term>) -> Result<Rc<Term>, Want>
    ensures { Contains (terms_in terms.now) (term t.now.value) → IfOk result (λ c. IsFresh (terms_in terms.now) (term t.now.value) (term c.value)) }
{
    let mut other = t.clone()?;
    for _ in 0..u32::MAX {
        let next = choice(alloc, t, other)?;
        if number_of(terms, &next)?.is_none() {
            return Ok(next);
        }
        other = next;
    }
    Err(Want)
}

/// Numbers of these terms, which all have one.
fn alias_of(
    terms: &NumberedTerms,
    whole: &Rc<Term>,
    left: &Rc<Term>,
    right: &Rc<Term>,
    choice: &Rc<Term>,
    equality: &Rc<Term>,
) -> Result<Alias, Want>
    ensures whole { IfOk result (λ x. place (terms_in terms.now) (term whole.now.value) ≡ Some x.whole) }
    ensures left { IfOk result (λ x. place (terms_in terms.now) (term left.now.value) ≡ Some x.left) }
    ensures right { IfOk result (λ x. place (terms_in terms.now) (term right.now.value) ≡ Some x.right) }
    ensures choice { IfOk result (λ x. place (terms_in terms.now) (term choice.now.value) ≡ Some x.choice) }
    ensures equality { IfOk result (λ x. place (terms_in terms.now) (term equality.now.value) ≡ Some x.equality) }
{
    Ok(Alias {
        whole: place_of(terms, whole)?,
        left: place_of(terms, left)?,
        right: place_of(terms, right)?,
        choice: place_of(terms, choice)?,
        equality: place_of(terms, equality)?,
    })
}

/// Names for an equality of two terms that aren't Bool: a choice that is the left side is equal to it, and so is the equality
/// to that of the choice and the right side.
fn with_alias(
    alloc: Global,
    derivation: Derivation,
    whole: &Rc<Term>,
    left: &Rc<Term>,
    right: &Rc<Term>,
) -> Result<(Derivation, Alias), Want>
    ensures { (stack : Stack) → IsNaming stack (reached derivation) → Contains (reached derivation).terms (term whole.now.value)
        → term whole.now.value ≡ equal (term left.now.value) (term right.now.value)
        → IfOk result (λ x. NamesAlias stack (reached derivation) (reached x.0) (term left.now.value) (term right.now.value) x.1) }
{
    let choice = fresh(alloc, derivation.terms(), left)?;
    let same = equality(alloc, &choice, left)?;
    let turned = equality(alloc, &choice, right)?;
    let joined = equality(alloc, whole, &turned)?;
    let (derivation, _number) = derivation.name(alloc, &same)?;
    let (derivation, _number) = derivation.name(alloc, &joined)?;
    let alias = alias_of(derivation.terms(), whole, left, right, &choice, &turned)?;
    Ok((derivation, alias))
}

/// The sides of an equality.
fn sides(t: &Term) -> Option<(&Rc<Term>, &Rc<Term>)>
    ensures { option_map (λ s. (term s.0.now.value, term s.1.now.value)) result ≡ clean.sides (term t.now) }
{
    match t {
        Term::Binary(Operator::Equal, a, b) => Some((a, b)),
        _ => None,
    }
}

/// Whether an equality is behind its other order, and of terms that aren't Bool.
fn needs_alias(
    alloc: Global,
    terms: &NumberedTerms,
    whole: &Rc<Term>,
    left: &Rc<Term>,
    right: &Rc<Term>,
) -> Result<bool, Want>
    ensures { IsTable (terms_in terms.now) → term whole.now.value ≡ equal (term left.now.value) (term right.now.value)
        → IsBehind (terms_in terms.now) (term left.now.value) (term right.now.value) → IfOk result (λ b. b ≡ true) }
{
    let sort = left.sort()?;
    if sort.is_same(&Sort::Bool) {
        return Ok(false);
    }
    let number = place_of(terms, whole)?;
    let other = equality(alloc, right, left)?;
    match number_of(terms, &other)? {
        Some(before) => Ok(before < number),
        None => Ok(false),
    }
}

/// An alias more, where the term is an equality that is behind its other order.
fn with_turned(
    alloc: Global,
    derivation: Derivation,
    aliases: &mut Vec<Alias>,
    t: &Rc<Term>,
) -> Result<Derivation, Want>
    ensures { (stack : Stack) → IsNaming stack (reached derivation) → Contains (reached derivation).terms (term t.now.value)
        → IfOk result (λ d. NamesTurned stack (reached derivation) (reached d) aliases.old.items aliases.new.items (term t.now.value)) }
{
    let Some((left, right)) = sides(t) else {
        return Ok(derivation);
    };
    if !needs_alias(alloc, derivation.terms(), t, left, right)? {
        return Ok(derivation);
    }
    let (derivation, alias) = with_alias(alloc, derivation, t, left, right)?;
    match aliases.push(alias) {
        Ok(()) => Ok(derivation),
        Err(_) => Err(Want),
    }
}

/// An alias for each equality of some terms that is behind its other order.
pub fn with_aliases(
    alloc: Global,
    derivation: Derivation,
    terms: &[Rc<Term>],
) -> Result<(Derivation, Vec<Alias>), Want>
    ensures { (stack : Stack) → IsNaming stack (reached derivation) → AllIn (reached derivation).terms (map (λ x. term x.value) terms.now)
        → IfOk result (λ x. NamesAliases stack (reached derivation) (reached x.0) x.1.items (Contains (map (λ x. term x.value) terms.now))) }
{
    let mut derivation = derivation;
    let mut aliases = Vec::new(alloc);
    for t in terms {
        derivation = with_turned(alloc, derivation, &mut aliases, t)?;
    }
    Ok((derivation, aliases))
}

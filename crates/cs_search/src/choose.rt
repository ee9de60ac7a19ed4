//! Which literals of a clause are to be watched.
ghost use Rattle.std.specs.Prelude.{◌≡◌, ℕ, ◌⊎◌, ◌++◌, ◌∷◌, [], true, false, List, Some};
ghost use Rattle.std.specs.List.{All, Contains};
ghost use Rattle.cs_certificate.specs.declared.literal.Literal.{Literal};
ghost use Rattle.cs_search.specs.declared.Status.TheVariants.{True, False};
ghost use Rattle.cs_search.specs.Assignment.{status_of, BecameFalse, NotFalse};
ghost use Rattle.cs_search.specs.Chosen.{IsFree, IsSpare, IsLastFalse, IsChosen};

use crate::examine::{same, status};
use crate::queue::Watch;
use crate::{Literal, Status, Value};

/// The literals of a clause that are to be watched.
#[derive(Clone, Copy)]
pub enum Choice {
    /// All literals are false.
    Nothing,
    /// There is no other literal.
    Alone(Literal),
    /// All but the first are false, the second one last.
    Forced(Watch),
    /// Neither is false.
    Free(Watch),
}

/// Is the literal true?
pub fn is_true(values: &[Value], literal: Literal) -> bool
    ensures yes { result ≡ true → (p : ℕ) × (status_of values.now literal ≡ True p) }
    ensures no { result ≡ false → (p : ℕ) → ¬ (status_of values.now literal ≡ True p) }
{
    match status(values, literal) {
        Status::True(_) => true,
        Status::False(_) => false,
        Status::Unassigned => false,
    }
}

/// Is the literal false?
fn is_false(values: &[Value], literal: Literal) -> bool
    ensures yes { result ≡ true → BecameFalse values.now literal }
    ensures no { result ≡ false → NotFalse values.now literal }
{
    match status(values, literal) {
        Status::False(_) => true,
        Status::True(_) => false,
        Status::Unassigned => false,
    }
}

/// Is the literal another one, and not false?
fn is_spare(values: &[Value], literal: Literal, but: Literal) -> bool
    ensures yes { result ≡ true → ¬ (literal ≡ but) × NotFalse values.now literal }
    ensures no { result ≡ false → (literal ≡ but) ⊎ BecameFalse values.now literal }
{
    if same(literal, but) {
        return false;
    }
    if is_false(values, literal) {
        return false;
    }
    true
}

/// A literal that is not false.
fn free(values: &[Value], literals: &[Literal]) -> Option<Literal>
    ensures { IsFree values.now literals.now result }
{
    for literal in literals {
        if !is_false(values, *literal) {
            return Some(*literal);
        }
    }
    None
}

/// A literal that is not false, other than the given one.
pub fn spare(values: &[Value], literals: &[Literal], but: Literal) -> Option<Literal>
    ensures { IsSpare values.now literals.now but result }
{
    for literal in literals {
        if is_spare(values, *literal, but) {
            return Some(*literal);
        }
    }
    None
}

/// The place of a literal that is false.
fn place(values: &[Value], literal: Literal) -> usize
    ensures { (p : ℕ) → status_of values.now literal ≡ False p → result ≡ p }
{
    match status(values, literal) {
        Status::False(place) => place,
        Status::True(_) => 0,
        Status::Unassigned => 0,
    }
}

/// The one that became false later.
fn later(values: &[Value], top: Literal, literal: Literal, but: Literal) -> Literal
    requires other { ¬ (literal ≡ but) }
    requires falsified { BecameFalse values.now literal }
    ensures { (c : List Literal) → IsLastFalse values.now c but (Some top) → IsLastFalse values.now (c ++ literal ∷ []) but (Some result) }
{
    if place(values, top) < place(values, literal) {
        literal
    } else {
        top
    }
}

/// The one that became false last, with one literal more.
fn last_with(
    values: &[Value],
    last: Option<Literal>,
    literal: Literal,
    but: Literal,
) -> Option<Literal>
    requires { (literal ≡ but) ⊎ BecameFalse values.now literal }
    ensures { (c : List Literal) → IsLastFalse values.now c but last → IsLastFalse values.now (c ++ literal ∷ []) but result }
{
    if same(literal, but) {
        return last;
    }
    match last {
        None => Some(literal),
        Some(top) => Some(later(values, top, literal, but)),
    }
}

/// Of the other literals, which are all false, the one that became so last.
fn last_false(values: &[Value], literals: &[Literal], but: Literal) -> Option<Literal>
    requires { All (λ m. (m ≡ but) ⊎ BecameFalse values.now m) literals.now }
    ensures { IsLastFalse values.now literals.now but result }
{
    let mut last = None;
    for literal in literals {
        last = last_with(values, last, *literal, but);
    }
    last
}

/// The choice where all other literals are false.
fn choose_last(values: &[Value], literals: &[Literal], first: Literal) -> Choice
    requires contained { Contains literals.now first }
    requires free { NotFalse values.now first }
    requires others { All (λ m. (m ≡ first) ⊎ BecameFalse values.now m) literals.now }
    ensures { IsChosen values.now literals.now result }
{
    match last_false(values, literals, first) {
        None => Choice::Alone(first),
        Some(second) => Choice::Forced(Watch { first, second }),
    }
}

/// The choice where one literal is not false.
fn choose_beside(values: &[Value], literals: &[Literal], first: Literal) -> Choice
    requires contained { Contains literals.now first }
    requires free { NotFalse values.now first }
    ensures { IsChosen values.now literals.now result }
{
    match spare(values, literals, first) {
        None => choose_last(values, literals, first),
        Some(second) => Choice::Free(Watch { first, second }),
    }
}

/// The literals that are to be watched.
pub fn choose(values: &[Value], literals: &[Literal]) -> Choice
    ensures { IsChosen values.now literals.now result }
{
    match free(values, literals) {
        None => Choice::Nothing,
        Some(first) => choose_beside(values, literals, first),
    }
}

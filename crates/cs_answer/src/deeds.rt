//! The deeds of steps: clauses that were learned, and cases that were told, each of them new.
ghost use Rattle.std.specs.Prelude.{◌≡◌};
ghost use Rattle.std.specs.List.{list_any};
ghost use Rattle.cs_answer.specs.Deeds as clean;

use cs_proof::Step;
use cs_reader::Literal;

/// So many deeds are all that an attempt may do.
pub const WANTED: usize = 1_000;

fn is_same(a: &Literal, b: &Literal) -> bool
    ensures { result ≡ clean.same_literal a.now b.now }
{
    a.number == b.number && a.positive == b.positive
}

fn has(literals: &[Literal], wanted: &Literal) -> bool
    ensures { result ≡ list_any (clean.same_literal wanted.now) literals.now }
{
    for literal in literals {
        if is_same(wanted, literal) {
            return true;
        }
    }
    false
}

/// Whether each of some literals is one of these.
fn are_among(literals: &[Literal], some: &[Literal]) -> bool
    ensures { result ≡ clean.are_among literals.now some.now }
{
    for literal in some {
        if !has(literals, literal) {
            return false;
        }
    }
    true
}

/// Whether a step derives, by a sum or by hints, a clause of some of these literals.
fn learns_within(literals: &[Literal], step: &Step) -> bool
    ensures { result ≡ clean.learns_within literals.now step.now }
{
    match step {
        Step::Farkas(learned, _) | Step::Propagate(learned, _) => are_among(literals, learned),
        Step::Input(_) | Step::Term(_) | Step::NoTerm | Step::Define(_, _) => false,
        Step::Pick(_, _) | Step::Chain(_) | Step::Congruence(_, _) => false,
        Step::Split(_, _) | Step::Trichotomy(_, _) | Step::Divide(_, _, _) => false,
    }
}

fn splits_at(term: u128, number: i128, step: &Step) -> bool
    ensures { result ≡ clean.splits_at term number step.now }
{
    match step {
        Step::Split(t, n) => term == *t && number == *n,
        Step::Input(_) | Step::Term(_) | Step::NoTerm | Step::Define(_, _) => false,
        Step::Pick(_, _) | Step::Chain(_) | Step::Congruence(_, _) => false,
        Step::Farkas(_, _) | Step::Trichotomy(_, _) | Step::Divide(_, _, _) => false,
        Step::Propagate(_, _) => false,
    }
}

/// Whether a step tells the cases of these two terms.
fn tells_apart(a: u128, b: u128, step: &Step) -> bool
    ensures { result ≡ clean.tells_apart a b step.now }
{
    match step {
        Step::Trichotomy(c, d) => (a == *c && b == *d) || (a == *d && b == *c),
        Step::Input(_) | Step::Term(_) | Step::NoTerm | Step::Define(_, _) => false,
        Step::Pick(_, _) | Step::Chain(_) | Step::Congruence(_, _) => false,
        Step::Farkas(_, _) | Step::Split(_, _) | Step::Divide(_, _, _) => false,
        Step::Propagate(_, _) => false,
    }
}

/// Whether an earlier step leaves nothing of a step: its clause is contained in that of the step, or it tells the same cases.
fn leaves_nothing(step: &Step, earlier: &Step) -> bool
    ensures { result ≡ clean.leaves_nothing step.now earlier.now }
{
    match step {
        Step::Farkas(literals, _) | Step::Propagate(literals, _) => {
            learns_within(literals, earlier)
        }
        Step::Split(t, number) => splits_at(*t, *number, earlier),
        Step::Trichotomy(a, b) => tells_apart(*a, *b, earlier),
        Step::Input(_) | Step::Term(_) | Step::NoTerm | Step::Define(_, _) => false,
        Step::Pick(_, _) | Step::Chain(_) | Step::Congruence(_, _) => false,
        Step::Divide(_, _, _) => false,
    }
}

/// Whether a step derives a clause by a sum or by hints, or tells cases of numbers.
fn is_work(step: &Step) -> bool
    ensures { result ≡ clean.is_work step.now }
{
    match step {
        Step::Farkas(_, _) | Step::Propagate(_, _) => true,
        Step::Split(_, _) | Step::Trichotomy(_, _) => true,
        Step::Input(_) | Step::Term(_) | Step::NoTerm | Step::Define(_, _) => false,
        Step::Pick(_, _) | Step::Chain(_) | Step::Congruence(_, _) => false,
        Step::Divide(_, _, _) => false,
    }
}

fn is_done(before: &[Step], step: &Step) -> bool
    ensures { result ≡ list_any (clean.leaves_nothing step.now) before.now }
{
    for earlier in before {
        if leaves_nothing(step, earlier) {
            return true;
        }
    }
    false
}

/// Whether a step is a deed behind some others.
fn is_deed(before: &[Step], step: &Step) -> bool
    ensures { result ≡ clean.is_deed before.now step.now }
{
    is_work(step) && !is_done(before, step)
}

/// How many of the steps are deeds.
pub fn deed_count(steps: &[Step]) -> usize
    ensures { result ≡ clean.deeds steps.now }
{
    let mut count: usize = 0;
    for i in 0..steps.len() {
        if is_deed(&steps[..i], &steps[i]) {
            count += 1;
        }
    }
    count
}

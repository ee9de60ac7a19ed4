//! Classes of terms, and what was claimed.
ghost use Rattle.std.specs.Prelude.{Some, ◌≡◌, ◌<◌, ◌≤◌, ◌^◌, ◌++◌, ◌∷◌, ◌↔◌, [], ℕ, List, length, take, true, false, All, MatchOption, IsTrue, IfSome, IfOk, OnOk, OnErr};
ghost use Rattle.cs_cong.specs.Joined.{Joined, AreKept, IsBroken};
ghost use Rattle.cs_cong.specs.Merged.{current, IsLonger};
ghost use Rattle.cs_cong.specs.Settled.{IsSettled};
ghost use Rattle.cs_cong.specs.declared.waiting.Waiting.{Waiting};
ghost use Rattle.cs_cong.specs.Stages.{IsHistory, IsStage};

use crate::congruent::{Applied, Claim};
use crate::merges::{Merges, Reason, Want};
use crate::waiting::Waiting;
use std::alloc::Global;

/// Terms, what is claimed of them, and the classes that follow.
#[derive(Drop)]
pub struct Classes {
    pub(crate) terms: Vec<Applied>,
    pub(crate) claims: Vec<Claim>,
    // how many merges stood before each claim
    marks: Vec<usize>,
    pub(crate) merges: Merges,
    // none where merges were taken back since
    waiting: Option<Waiting>,
    ghost same_terms: { length terms.items ≡ length merges.links.items },
    ghost parts: { All (λ t. All (λ p. p < length terms.items) t.parts.items) terms.items },
    ghost few_terms: { length terms.items < 2 ^ 32 },
    ghost few: { length claims.items < 2 ^ 32 },
    ghost named: { All (λ c. (c.left < length terms.items) × (c.right < length terms.items)) claims.items },
    ghost history: { IsHistory terms.items claims.items marks.items merges.log.items },
    ghost settled: { (w : Waiting) → waiting ≡ Some w → IsSettled terms.items (current merges.log.items) w },
}

/// Notes a claim, and how many merges stood before it.
fn note(
    claims: &mut Vec<Claim>,
    marks: &mut Vec<usize>,
    claim: Claim,
    mark: usize,
) -> Result<(), Want>
    ensures claims { OnOk result (claims.new.items ≡ claims.old.items ++ claim ∷ []) }
    ensures marks { OnOk result (marks.new.items ≡ marks.old.items ++ mark ∷ []) }
    ensures same_claims { OnErr result (claims.new.items ≡ claims.old.items) }
    ensures same_marks { OnErr result (marks.new.items ≡ marks.old.items) }
{
    claims.push(claim)?;
    match marks.push(mark) {
        Ok(()) => Ok(()),
        Err(_) => {
            let _claim = claims.pop();
            Err(Want)
        }
    }
}

/// What is known of the signatures, or where nothing is, that all terms wait.
fn known(
    alloc: Global,
    terms: &[Applied],
    merges: &Merges,
    waiting: Option<Waiting>,
) -> Result<Waiting, Want>
    requires terms { length terms.now ≡ length merges.now.links.items }
    requires few { length terms.now < 2 ^ 32 }
    requires parts { All (λ t. All (λ p. p < length terms.now) t.parts.items) terms.now }
    requires settled { IfSome waiting (IsSettled terms.now (current merges.now.log.items)) }
    ensures { IfOk result (IsSettled terms.now (current merges.now.log.items)) }
{
    match waiting {
        Some(waiting) => Ok(waiting),
        None => Waiting::new(alloc, terms, merges),
    }
}

/// Merges two terms by a claim, and what is congruent then.
fn follow(
    alloc: Global,
    terms: &[Applied],
    waiting: Option<Waiting>,
    merges: &mut Merges,
    number: u32,
    claim: Claim,
) -> Result<Waiting, Want>
    requires terms { length terms.now ≡ length merges.old.links.items }
    requires few { length terms.now < 2 ^ 32 }
    requires parts { All (λ t. All (λ p. p < length terms.now) t.parts.items) terms.now }
    requires settled { IfSome waiting (IsSettled terms.now (current merges.old.log.items)) }
    requires left { claim.left < length terms.now }
    requires right { claim.right < length terms.now }
    ensures same_terms { length merges.new.links.items ≡ length merges.old.links.items }
    ensures longer { IsLonger merges.old.log.items merges.new.log.items }
    ensures settled { IfOk result (IsSettled terms.now (current merges.new.log.items)) }
    ensures stage { (claims : List Claim) → number ≡ length claims → claim.equal ≡ true → IsStage terms.now claims merges.old.log.items
        → OnOk result (IsStage terms.now (claims ++ claim ∷ []) merges.new.log.items) }
{
    let mut waiting = known(alloc, terms, merges, waiting)?;
    waiting.join(
        alloc,
        merges,
        claim.left,
        claim.right,
        Reason::Claimed(number),
    )?;
    waiting.close(alloc, terms, merges)?;
    Ok(waiting)
}

impl Classes {
    /// Nothing is claimed of the terms.
    ///
    /// # Errors
    /// Memory runs out.
    pub fn new(alloc: Global, terms: Vec<Applied>) -> Result<Classes, Want>
        requires few { length terms.items < 2 ^ 32 }
        requires parts { All (λ t. All (λ p. p < length terms.items) t.parts.items) terms.items }
        ensures terms { IfOk result (λ c. c.terms.items ≡ terms.items) }
        ensures claims { IfOk result (λ c. c.claims.items ≡ []) }
    {
        let mut merges = Merges::new(alloc, terms.len() as u32)?;
        let mut waiting = Waiting::new(alloc, &terms, &merges)?;
        waiting.close(alloc, &terms, &mut merges)?;
        Ok(Classes {
            terms,
            claims: Vec::new(alloc),
            marks: Vec::new(alloc),
            merges,
            waiting: Some(waiting),
        })
    }

    /// Whether two terms are equal by what is claimed and by congruence.
    pub fn are_equal(&self, a: u32, b: u32) -> bool
        requires left { a < length self.now.terms.items }
        requires right { b < length self.now.terms.items }
        ensures { IsTrue result ↔ Joined self.now.terms.items self.now.claims.items a b }
    {
        self.merges.now(a) == self.merges.now(b)
    }

    /// The representative of a term's class: two terms have one exactly where they are equal.
    pub fn class_of(&self, a: u32) -> u32
        requires { a < length self.now.terms.items }
        ensures value { result ≡ current self.now.merges.log.items a }
        ensures within { result < length self.now.terms.items }
    {
        self.merges.now(a)
    }

    /// Claims that two terms are equal.
    ///
    /// # Errors
    /// `Want` where memory runs out, or where there are 2^32 - 1 claims; nothing is claimed then.
    pub fn assert_eq(&mut self, alloc: Global, a: u32, b: u32) -> Result<(), Want>
        requires left { a < length self.old.terms.items }
        requires right { b < length self.old.terms.items }
        ensures terms { self.new.terms.items ≡ self.old.terms.items }
        ensures claims { OnOk result (self.new.claims.items ≡ self.old.claims.items ++ record { left = a; right = b; equal = true } ∷ []) }
        ensures kept { OnErr result (self.new.claims.items ≡ self.old.claims.items) }
    {
        let mark = self.merges.log.len();
        let number = self.claims.len();
        if number >= u32::MAX as usize {
            return Err(Want);
        }
        let claim = Claim {
            left: a,
            right: b,
            equal: true,
        };
        note(&mut self.claims, &mut self.marks, claim, mark)?;
        let waiting = self.waiting.take();
        let done = follow(
            alloc,
            &self.terms,
            waiting,
            &mut self.merges,
            number as u32,
            claim,
        );
        match done {
            Ok(waiting) => {
                self.waiting = Some(waiting);
                Ok(())
            }
            Err(want) => {
                self.merges.back_to(mark);
                self.claims.truncate(number);
                self.marks.truncate(number);
                Err(want)
            }
        }
    }

    /// Claims that two terms aren't equal.
    ///
    /// # Errors
    /// `Want` where memory runs out, or where there are 2^32 - 1 claims; nothing is claimed then.
    pub fn assert_ne(&mut self, a: u32, b: u32) -> Result<(), Want>
        requires left { a < length self.old.terms.items }
        requires right { b < length self.old.terms.items }
        ensures terms { self.new.terms.items ≡ self.old.terms.items }
        ensures claims { OnOk result (self.new.claims.items ≡ self.old.claims.items ++ record { left = a; right = b; equal = false } ∷ []) }
        ensures kept { OnErr result (self.new.claims.items ≡ self.old.claims.items) }
    {
        let mark = self.merges.log.len();
        if self.claims.len() >= u32::MAX as usize {
            return Err(Want);
        }
        let claim = Claim {
            left: a,
            right: b,
            equal: false,
        };
        match note(&mut self.claims, &mut self.marks, claim, mark) {
            Ok(()) => Ok(()),
            Err(want) => Err(want),
        }
    }

    /// The first claim that two terms aren't equal which are, by the other claims and by congruence.
    pub fn conflict(&self) -> Option<u32>
        ensures { MatchOption result (AreKept self.now.terms.items self.now.claims.items) (IsBroken self.now.terms.items self.now.claims.items) }
    {
        for at in 0..self.claims.len() {
            let claim = self.claims[at];
            if !claim.equal {
                if self.are_equal(claim.left, claim.right) {
                    return Some(at as u32);
                }
            }
        }
        None
    }

    /// Takes back all claims but the first of them. No memory.
    pub fn back_to(&mut self, mark: usize)
        ensures terms { self.new.terms.items ≡ self.old.terms.items }
        ensures claims { self.new.claims.items ≡ take mark self.old.claims.items }
    {
        if mark < self.marks.len() {
            let cut = self.marks[mark];
            self.waiting = None;
            self.merges.back_to(cut);
            self.claims.truncate(mark);
            self.marks.truncate(mark);
        }
    }
}

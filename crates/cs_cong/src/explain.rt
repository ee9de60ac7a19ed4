//! Why two terms are equal.
ghost use Rattle.std.specs.Prelude.{◌≡◌, ◌<◌, ◌≤◌, ◌↔◌, ◌∷◌, ℕ, List, true, false, length, All, IsSome, IfSome, IfOk, OnOk};
ghost use Rattle.cs_cong.specs.Merged.{representative, current};
ghost use Rattle.cs_cong.specs.Joined.{Joined, all_same, are_congruent};
ghost use Rattle.cs_cong.specs.Walks.{walk};
ghost use Rattle.cs_cong.specs.Explained.{IsDerivation, Explains};
ghost use Rattle.cs_cong.specs.Marked.{is_marked, Marked};
ghost use Rattle.cs_cong.specs.Needed.{ends, AreMarked, ArePartsMarked, IsBacked, AreBacked, AreKnownBelow, HasPath, HasPart, HasFirst, HasCongruence, HasMerge};

use crate::classes::Classes;
use crate::merges::{Merges, Reason, Want};
use crate::needs::Needs;
use crate::paths::Edge;
use std::alloc::Global;
use std::collections::BTreeSet;

/// A step that derives an equality of two terms.
#[derive(Drop)]
pub enum Derived {
    /// Of the first and the last term, by those of neighbours.
    Path(Vec<u32>),
    /// Of two terms of one head, by those of their parts.
    Congruent(u32, u32),
}

/// Why two terms are equal: the numbers of the claims that are used, and the steps in order. The last
/// step derives the equality of the two. A step uses what is claimed, and what steps before it derive.
#[derive(Drop)]
pub struct Chain {
    pub claims: Vec<u32>,
    pub steps: Vec<Derived>,
}

/// Marks one merge, if it is before this time.
fn mark_one(needs: &mut Needs, time: u32, at: u32) -> Result<(), Want>
    requires { time ≤ needs.old.time }
    ensures time { needs.new.time ≡ needs.old.time }
    ensures marks { OnOk result (Marked time needs.old.all needs.new.all) }
    ensures marked { OnOk result (at < time → is_marked needs.new.all at ≡ true) }
{
    if at >= time {
        return Ok(());
    }
    needs.add(at)?;
    Ok(())
}

/// Marks the merges of a walk that are before this time.
fn mark(needs: &mut Needs, time: u32, edges: &[Edge]) -> Result<(), Want>
    requires { time ≤ needs.old.time }
    ensures time { needs.new.time ≡ needs.old.time }
    ensures marks { OnOk result (Marked time needs.old.all needs.new.all) }
    ensures marked { OnOk result (All (λ e. e.merge < time → is_marked needs.new.all e.merge ≡ true) edges.now) }
{
    for edge in edges {
        mark_one(needs, time, edge.merge)?;
    }
    Ok(())
}

impl Merges {
    /// Marks the merges of the walk from a term to another.
    fn mark_walk(
        &self,
        alloc: Global,
        time: u32,
        a: u32,
        b: u32,
        needs: &mut Needs,
    ) -> Result<(), Want>
        requires left { a < length self.now.links.items }
        requires right { b < length self.now.links.items }
        requires time { time ≤ length self.now.log.items }
        requires room { time ≤ needs.old.time }
        ensures time { needs.new.time ≡ needs.old.time }
        ensures marks { OnOk result (Marked time needs.old.all needs.new.all) }
        ensures marked { OnOk result (representative self.now.log.items time a ≡ representative self.now.log.items time b → AreMarked needs.new.all (walk self.now.log.items time a b)) }
    {
        let mut edges = Vec::new(alloc);
        self.walk(alloc, time, a, b, &mut edges)?;
        mark(needs, time, &edges)?;
        Ok(())
    }

    /// Marks the merges of the walks between parts, place by place.
    fn mark_parts(
        &self,
        alloc: Global,
        time: u32,
        xs: &[u32],
        ys: &[u32],
        needs: &mut Needs,
    ) -> Result<(), Want>
        requires left { All (λ x. x < length self.now.links.items) xs.now }
        requires right { All (λ y. y < length self.now.links.items) ys.now }
        requires time { time ≤ length self.now.log.items }
        requires room { time ≤ needs.old.time }
        ensures time { needs.new.time ≡ needs.old.time }
        ensures marks { OnOk result (Marked time needs.old.all needs.new.all) }
        ensures marked { OnOk result (all_same (representative self.now.log.items time) xs.now ys.now ≡ true → ArePartsMarked self.now.log.items needs.new.all time xs.now ys.now) }
    {
        for at in 0..xs.len().min(ys.len()) {
            self.mark_walk(alloc, time, xs[at], ys[at], needs)?;
        }
        Ok(())
    }

    /// The terms of a walk from a term, in order.
    fn terms_of(&self, alloc: Global, from: u32, edges: &[Edge]) -> Result<Vec<u32>, Want>
        requires { All (λ e. e.merge < length self.now.log.items) edges.now }
        ensures { IfOk result (λ v. v.items ≡ from ∷ ends self.now.log.items edges.now) }
    {
        let mut terms = Vec::new(alloc);
        terms.push(from)?;
        for edge in edges {
            terms.push(self.end_of_edge(*edge))?;
        }
        Ok(terms)
    }

    /// The terms of the walk from a term to another.
    fn terms_between(&self, alloc: Global, time: u32, a: u32, b: u32) -> Result<Vec<u32>, Want>
        requires left { a < length self.now.links.items }
        requires right { b < length self.now.links.items }
        requires time { time ≤ length self.now.log.items }
        requires joined { representative self.now.log.items time a ≡ representative self.now.log.items time b }
        ensures { IfOk result (λ v. v.items ≡ a ∷ ends self.now.log.items (walk self.now.log.items time a b)) }
    {
        let mut edges = Vec::new(alloc);
        self.walk(alloc, time, a, b, &mut edges)?;
        self.terms_of(alloc, a, &edges)
    }

    /// Adds the walk from a term to another, as a step.
    fn add_path(
        &self,
        alloc: Global,
        time: u32,
        a: u32,
        b: u32,
        steps: &mut Vec<Derived>,
    ) -> Result<(), Want>
        requires left { a < length self.now.links.items }
        requires right { b < length self.now.links.items }
        requires time { time ≤ length self.now.log.items }
        requires joined { representative self.now.log.items time a ≡ representative self.now.log.items time b }
        ensures { OnOk result (HasPath self.now.log.items time a b steps.old.items steps.new.items) }
    {
        let terms = self.terms_between(alloc, time, a, b)?;
        steps.push(Derived::Path(terms))?;
        Ok(())
    }

    /// Adds a step for two parts, where they differ.
    fn add_part(
        &self,
        alloc: Global,
        time: u32,
        a: u32,
        b: u32,
        steps: &mut Vec<Derived>,
    ) -> Result<(), Want>
        requires left { a < length self.now.links.items }
        requires right { b < length self.now.links.items }
        requires time { time ≤ length self.now.log.items }
        requires joined { representative self.now.log.items time a ≡ representative self.now.log.items time b }
        ensures { OnOk result (HasPart self.now.log.items time a b steps.old.items steps.new.items) }
    {
        if a == b {
            return Ok(());
        }
        self.add_path(alloc, time, a, b, steps)?;
        Ok(())
    }

    /// Adds a step for each pair of parts that differ.
    fn add_parts(
        &self,
        alloc: Global,
        time: u32,
        xs: &[u32],
        ys: &[u32],
        steps: &mut Vec<Derived>,
    ) -> Result<(), Want>
        requires left { All (λ x. x < length self.now.links.items) xs.now }
        requires right { All (λ y. y < length self.now.links.items) ys.now }
        requires time { time ≤ length self.now.log.items }
        requires same { all_same (representative self.now.log.items time) xs.now ys.now ≡ true }
        ensures { OnOk result (HasFirst (length xs.now) self.now.log.items time xs.now ys.now steps.old.items steps.new.items) }
    {
        for at in 0..xs.len().min(ys.len()) {
            self.add_part(alloc, time, xs[at], ys[at], steps)?;
        }
        Ok(())
    }
}

impl Classes {
    /// Marks what a merge by congruence needs.
    fn mark_needs(&self, alloc: Global, at: u32, needs: &mut Needs) -> Result<(), Want>
        requires within { at < length self.now.merges.log.items }
        requires room { at ≤ needs.old.time }
        ensures time { needs.new.time ≡ needs.old.time }
        ensures marks { OnOk result (Marked at needs.old.all needs.new.all) }
        ensures backed { OnOk result (IsBacked self.now.terms.items self.now.merges.log.items needs.new.all at) }
    {
        let merge = self.merges.log[at as usize];
        match merge.reason {
            Reason::Claimed(_) => Ok(()),
            Reason::Congruence => {
                let left = &self.terms[merge.left as usize];
                let right = &self.terms[merge.right as usize];
                self.merges
                    .mark_parts(alloc, at, &left.parts, &right.parts, needs)?;
                Ok(())
            }
        }
    }

    /// The merges that the equality of two terms needs.
    fn needed(&self, alloc: Global, a: u32, b: u32) -> Result<BTreeSet<u32>, Want>
        requires left { a < length self.now.terms.items }
        requires right { b < length self.now.terms.items }
        ensures within { IfOk result (λ found. (k : ℕ) → length self.now.merges.log.items ≤ k → is_marked found k ≡ false) }
        ensures backed { IfOk result (λ found. AreBacked self.now.terms.items self.now.merges.log.items found 0) }
        ensures marked { IfOk result (λ found. current self.now.merges.log.items a ≡ current self.now.merges.log.items b
            → AreMarked found (walk self.now.merges.log.items (length self.now.merges.log.items) a b)) }
    {
        let len = self.merges.log.len() as u32;
        let mut needs = Needs::new(alloc, len);
        self.merges.mark_walk(alloc, len, a, b, &mut needs)?;
        'back: while let Some(at) = needs.next() {
            self.mark_needs(alloc, at, &mut needs)?;
        }
        Ok(needs.found())
    }

    /// Adds the congruence of two terms, and before it why their parts are equal.
    fn add_congruence(
        &self,
        alloc: Global,
        time: u32,
        left: u32,
        right: u32,
        steps: &mut Vec<Derived>,
    ) -> Result<(), Want>
        requires time { time ≤ length self.now.merges.log.items }
        requires left { left < length self.now.terms.items }
        requires right { right < length self.now.terms.items }
        requires congruent { are_congruent self.now.terms.items (representative self.now.merges.log.items time) left right ≡ true }
        ensures { OnOk result (HasCongruence self.now.terms.items self.now.merges.log.items time left right steps.old.items steps.new.items) }
    {
        let one = &self.terms[left as usize];
        let other = &self.terms[right as usize];
        self.merges
            .add_parts(alloc, time, &one.parts, &other.parts, steps)?;
        steps.push(Derived::Congruent(left, right))?;
        Ok(())
    }

    /// Adds what derives a merge.
    fn derive(&self, alloc: Global, at: usize, chain: &mut Chain) -> Result<(), Want>
        requires { at < length self.now.merges.log.items }
        ensures { OnOk result (HasMerge self.now.terms.items self.now.claims.items self.now.merges.log.items at chain.old chain.new) }
    {
        let merge = self.merges.log[at];
        match merge.reason {
            Reason::Claimed(claim) => {
                chain.claims.push(claim)?;
                Ok(())
            }
            Reason::Congruence => {
                self.add_congruence(alloc, at as u32, merge.left, merge.right, &mut chain.steps)?;
                Ok(())
            }
        }
    }

    /// Adds what derives these merges, from the first one up.
    fn derive_all(&self, alloc: Global, found: BTreeSet<u32>) -> Result<Chain, Want>
        requires within { (k : ℕ) → length self.now.merges.log.items ≤ k → is_marked found k ≡ false }
        requires backed { AreBacked self.now.terms.items self.now.merges.log.items found 0 }
        ensures sound { IfOk result (λ c. IsDerivation self.now.terms.items self.now.claims.items c.claims.items c.steps.items) }
        ensures known { IfOk result (λ c. AreKnownBelow (length self.now.merges.log.items) self.now.merges.log.items self.now.claims.items found c.claims.items c.steps.items) }
    {
        let mut chain = Chain {
            claims: Vec::new(alloc),
            steps: Vec::new(alloc),
        };
        let mut left = found;
        'forth: while let Some(at) = left.pop_first() {
            self.derive(alloc, at as usize, &mut chain)?;
        }
        Ok(chain)
    }

    /// Why two terms are equal: `None` exactly where they aren't, by what is claimed and by congruence.
    ///
    /// # Errors
    /// `Want` where memory runs out.
    pub fn explain(&self, alloc: Global, a: u32, b: u32) -> Result<Option<Chain>, Want>
        requires left { a < length self.now.terms.items }
        requires right { b < length self.now.terms.items }
        ensures joined { IfOk result (λ o. IsSome o ↔ Joined self.now.terms.items self.now.claims.items a b) }
        ensures explained { IfOk result (λ o. IfSome o (Explains self.now.terms.items self.now.claims.items a b)) }
    {
        if !self.are_equal(a, b) {
            return Ok(None);
        }
        let found = self.needed(alloc, a, b)?;
        let mut chain = self.derive_all(alloc, found)?;
        self.merges.add_path(alloc, self.merges.log.len() as u32, a, b, &mut chain.steps)?;
        Ok(Some(chain))
    }
}

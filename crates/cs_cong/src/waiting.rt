//! Terms whose signatures are new, and an index of the others.
ghost use Rattle.std.specs.Prelude.{◌≡◌, ◌<◌, ◌^◌, ◌+◌, ◌||◌, ◌&&◌, ◌⊎◌, ℕ, [], List, true, false, nat_eq, length, slice_get, All, MatchOption, IfSome, IfOk, OnOk};
ghost use Rattle.cs_cong.specs.Rows.{row};
ghost use Rattle.cs_cong.specs.Merged.{current, with_merge, IsMerged, IsLonger};
ghost use Rattle.cs_cong.specs.Joined.{are_congruent, Grown, IsClosed};
ghost use Rattle.cs_cong.specs.Signatures.{has};
ghost use Rattle.cs_cong.specs.Waits.{IsLast};
ghost use Rattle.cs_cong.specs.Used.{is_any, IsUsed};

use crate::congruent::{Applied, is_alike, key_of};
use crate::merges::{Merges, Reason, Want};
use crate::queue::Queue;
use crate::rows::{empty, put, put_all, take_row};
use cs_index::Index;
use std::alloc::Global;

/// Terms wait where their signatures are new; of the others congruent ones are in one class.
#[derive(Drop)]
pub struct Waiting {
    // the terms with a part in the class of each representative
    uses: Vec<Vec<u32>>,
    // by their signatures the terms that were looked at
    index: Index,
    queue: Queue,
}

/// Two congruent terms of different classes.
#[derive(Clone, Copy)]
struct Pair {
    left: u32,
    right: u32,
}

/// Notes a term under the representatives of its parts.
fn add_uses(
    merges: &Merges,
    uses: &mut Vec<Vec<u32>>,
    number: u32,
    parts: &[u32],
) -> Result<(), Want>
    requires count { length uses.old.items ≡ length merges.now.links.items }
    requires parts { All (λ p. p < length merges.now.links.items) parts.now }
    ensures count { OnOk result (length uses.new.items ≡ length uses.old.items) }
    ensures used { OnOk result ((r a : ℕ) → has (row uses.new.items r) a ≡ (has (row uses.old.items r) a || (nat_eq a number && is_any (current merges.now.log.items) parts.now r))) }
{
    for part in parts {
        put(uses, merges.now(*part) as usize, number)?;
    }
    Ok(())
}

/// The terms with a part in the class of each representative.
fn uses_of(alloc: Global, terms: &[Applied], merges: &Merges) -> Result<Vec<Vec<u32>>, Want>
    requires terms { length terms.now ≡ length merges.now.links.items }
    requires few { length terms.now < 2 ^ 32 }
    requires parts { All (λ t. All (λ p. p < length terms.now) t.parts.items) terms.now }
    ensures count { IfOk result (λ uses. length uses.items ≡ length terms.now) }
    ensures used { IfOk result (λ uses. IsUsed terms.now (current merges.now.log.items) uses.items) }
{
    let mut uses = empty(alloc, terms.len())?;
    for at in 0..terms.len() {
        add_uses(merges, &mut uses, at as u32, &terms[at].parts)?;
    }
    Ok(uses)
}

impl Waiting {
    ghost use Rattle.cs_cong.specs.Settled.{is_partner, has_partner, IsSettled, IsSpread};

    /// All terms wait.
    pub fn new(alloc: Global, terms: &[Applied], merges: &Merges) -> Result<Waiting, Want>
        requires terms { length terms.now ≡ length merges.now.links.items }
        requires few { length terms.now < 2 ^ 32 }
        requires parts { All (λ t. All (λ p. p < length terms.now) t.parts.items) terms.now }
        ensures { IfOk result (IsSettled terms.now (current merges.now.log.items)) }
    {
        let uses = uses_of(alloc, terms, merges)?;
        let queue = Queue::all(alloc, terms.len())?;
        Ok(Waiting {
            uses,
            index: Index::new(alloc),
            queue,
        })
    }

    /// Whether the first term doesn't wait and is congruent to the second.
    fn is_partner(&self, terms: &[Applied], merges: &Merges, n: u32, a: u32) -> bool
        requires wide { length self.now.queue.flags.items ≡ length terms.now }
        requires terms { length terms.now ≡ length merges.now.links.items }
        requires parts { All (λ t. All (λ p. p < length terms.now) t.parts.items) terms.now }
        requires right { a < length terms.now }
        ensures value { result ≡ is_partner terms.now (current merges.now.log.items) self.now.queue n a }
        ensures within { result ≡ true → n < length terms.now }
    {
        if self.queue.waits(n) {
            return false;
        }
        is_alike(terms, merges, n as usize, a as usize)
    }

    /// A term that doesn't wait and is congruent to this one.
    fn partner(&self, terms: &[Applied], merges: &Merges, a: u32) -> Option<u32>
        requires wide { length self.now.queue.flags.items ≡ length terms.now }
        requires terms { length terms.now ≡ length merges.now.links.items }
        requires parts { All (λ t. All (λ p. p < length terms.now) t.parts.items) terms.now }
        requires right { a < length terms.now }
        ensures found { MatchOption result (has_partner terms.now (current merges.now.log.items) self.now.queue self.now.index a ≡ false)
            (λ n. has_partner terms.now (current merges.now.log.items) self.now.queue self.now.index a ≡ true) }
        ensures partner { IfSome result (λ n. is_partner terms.now (current merges.now.log.items) self.now.queue n a ≡ true) }
        ensures within { IfSome result (λ n. n < length terms.now) }
    {
        for n in self.index.under(key_of(merges, &terms[a as usize])) {
            if self.is_partner(terms, merges, *n, a) {
                return Some(*n);
            }
        }
        None
    }

    /// Looks at the next term that waits. It waits no longer, but where it is congruent to a term of another class, which is told.
    fn look(&mut self, terms: &[Applied], merges: &Merges, a: u32) -> Result<Option<u32>, Want>
        requires terms { length terms.now ≡ length merges.now.links.items }
        requires parts { All (λ t. All (λ p. p < length terms.now) t.parts.items) terms.now }
        requires settled { IsSettled terms.now (current merges.now.log.items) self.old }
        requires last { IsLast self.old.queue.list.items a }
        requires right { a < length terms.now }
        ensures settled { IfOk result (λ _. IsSettled terms.now (current merges.now.log.items) self.new) }
        ensures shorter { IfOk result (λ o. MatchOption o (length self.new.queue.list.items < length self.old.queue.list.items) (λ n. n < length terms.now)) }
        ensures pair { IfOk result (λ o. IfSome o (λ n. are_congruent terms.now (current merges.now.log.items) n a ≡ true)) }
        ensures apart { IfOk result (λ o. IfSome o (λ n. current merges.now.log.items n ≡ current merges.now.log.items a → ⊥)) }
    {
        match self.partner(terms, merges, a) {
            Some(n) => {
                if merges.now(n) != merges.now(a) {
                    return Ok(Some(n));
                }
                self.queue.done(a);
                Ok(None)
            }
            None => {
                self.index.add(key_of(merges, &terms[a as usize]), a)?;
                self.queue.done(a);
                Ok(None)
            }
        }
    }

    /// Looks at the terms that wait, until one is congruent to a term of another class.
    fn next_pair(&mut self, terms: &[Applied], merges: &Merges) -> Result<Option<Pair>, Want>
        requires terms { length terms.now ≡ length merges.now.links.items }
        requires parts { All (λ t. All (λ p. p < length terms.now) t.parts.items) terms.now }
        requires settled { IsSettled terms.now (current merges.now.log.items) self.old }
        ensures settled { IfOk result (λ _. IsSettled terms.now (current merges.now.log.items) self.new) }
        ensures closed { IfOk result (λ o. MatchOption o (IsClosed terms.now merges.now.log.items) (λ p. p.left < length terms.now)) }
        ensures right { IfOk result (λ o. IfSome o (λ p. p.right < length terms.now)) }
        ensures pair { IfOk result (λ o. IfSome o (λ p. are_congruent terms.now (current merges.now.log.items) p.left p.right ≡ true)) }
        ensures apart { IfOk result (λ o. IfSome o (λ p. current merges.now.log.items p.left ≡ current merges.now.log.items p.right → ⊥)) }
    {
        'look: loop {
            let Some(a) = self.queue.next() else {
                return Ok(None);
            };
            let found = self.look(terms, merges, a)?;
            if let Some(n) = found {
                return Ok(Some(Pair { left: n, right: a }));
            }
        }
    }

    /// The class of `from` has the representative `to` now: the terms with a part in it wait.
    fn spread(&mut self, alloc: Global, from: u32, to: u32) -> Result<(), Want>
        requires from { from < length self.old.uses.items }
        requires to { to < length self.old.uses.items }
        requires apart { from ≡ to → ⊥ }
        ensures { OnOk result (IsSpread self.old self.new from to) }
    {
        let users = take_row(alloc, &mut self.uses, from as usize);
        self.queue.add_all(&users)?;
        put_all(&mut self.uses, to as usize, &users)?;
        Ok(())
    }

    /// Gives the class of the left term the representative of the right one.
    fn turn(
        &mut self,
        alloc: Global,
        merges: &mut Merges,
        left: u32,
        right: u32,
        reason: Reason,
    ) -> Result<(), Want>
        requires count { length self.old.uses.items ≡ length merges.old.links.items }
        requires left { left < length merges.old.links.items }
        requires right { right < length merges.old.links.items }
        ensures same_terms { length merges.new.links.items ≡ length merges.old.links.items }
        ensures longer { IsLonger merges.old.log.items merges.new.log.items }
        ensures merged { OnOk result (merges.new.log.items ≡ with_merge merges.old.log.items left right reason) }
        ensures settled { OnOk result ((terms : List Applied) → IsSettled terms (current merges.old.log.items) self.old → IsSettled terms (current merges.new.log.items) self.new) }
    {
        let from = merges.now(left);
        let to = merges.now(right);
        merges.turn(left, right, reason)?;
        if from == to {
            return Ok(());
        }
        self.spread(alloc, from, to)?;
        Ok(())
    }

    /// Makes one class of the classes of two terms: the smaller one gets the representative of the larger one.
    pub fn join(
        &mut self,
        alloc: Global,
        merges: &mut Merges,
        left: u32,
        right: u32,
        reason: Reason,
    ) -> Result<(), Want>
        requires count { length self.old.uses.items ≡ length merges.old.links.items }
        requires left { left < length merges.old.links.items }
        requires right { right < length merges.old.links.items }
        ensures same_terms { length merges.new.links.items ≡ length merges.old.links.items }
        ensures longer { IsLonger merges.old.log.items merges.new.log.items }
        ensures merged { OnOk result (IsMerged merges.old.log.items left right reason merges.new.log.items) }
        ensures settled { OnOk result ((terms : List Applied) → IsSettled terms (current merges.old.log.items) self.old → IsSettled terms (current merges.new.log.items) self.new) }
    {
        if merges.size_of(left) <= merges.size_of(right) {
            return self.turn(alloc, merges, left, right, reason);
        }
        self.turn(alloc, merges, right, left, reason)
    }

    /// Merges congruent terms until they are in one class.
    pub fn close(
        &mut self,
        alloc: Global,
        terms: &[Applied],
        merges: &mut Merges,
    ) -> Result<(), Want>
        requires terms { length terms.now ≡ length merges.old.links.items }
        requires parts { All (λ t. All (λ p. p < length terms.now) t.parts.items) terms.now }
        requires settled { IsSettled terms.now (current merges.old.log.items) self.old }
        ensures same_terms { length merges.new.links.items ≡ length merges.old.links.items }
        ensures longer { IsLonger merges.old.log.items merges.new.log.items }
        ensures grown { OnOk result (Grown terms.now merges.old.log.items merges.new.log.items) }
        ensures settled { OnOk result (IsSettled terms.now (current merges.new.log.items) self.new) }
        ensures closed { OnOk result (IsClosed terms.now merges.new.log.items) }
    {
        'close: loop {
            let found = self.next_pair(terms, merges)?;
            let Some(pair) = found else {
                return Ok(());
            };
            self.join(alloc, merges, pair.left, pair.right, Reason::Congruence)?;
        }
    }
}

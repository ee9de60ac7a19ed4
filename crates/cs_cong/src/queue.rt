//! Which terms wait to be looked at.
ghost use Rattle.std.specs.Prelude.{◌≡◌, ◌+◌, ◌<◌, ◌^◌, ◌||◌, ◌∷◌, [], ◌++◌, ℕ, true, false, length, get_or, All, MatchOption, IfOk, OnOk};
ghost use Rattle.cs_cong.specs.Signatures.{has};

use crate::merges::Want;
use std::alloc::Global;

/// Some of so many terms wait, the next one last in the list.
#[derive(Drop)]
pub struct Queue {
    flags: Vec<bool>,
    list: Vec<u32>,
    ghost within: { All (λ a. a < length flags.items) list.items },
    ghost listed: { (a : ℕ) → a < length flags.items → get_or flags.items a true ≡ true → has list.items a ≡ true },
}

/// The numbers below `count`, in order.
fn numbers_to(alloc: Global, count: usize) -> Result<Vec<u32>, Want>
    requires { count < 2 ^ 32 }
    ensures within { IfOk result (λ v. All (λ a. a < count) v.items) }
    ensures all { IfOk result (λ v. (a : ℕ) → a < count → has v.items a ≡ true) }
{
    let mut numbers = Vec::new(alloc);
    for at in 0..count {
        numbers.push(at as u32)?;
    }
    Ok(numbers)
}

impl Queue {
    ghost use Rattle.cs_cong.specs.Waits.{waits, IsLast, IsAdded, IsDone};

    /// All of so many terms wait.
    pub fn all(alloc: Global, count: usize) -> Result<Queue, Want>
        requires { count < 2 ^ 32 }
        ensures wide { IfOk result (λ q. length q.flags.items ≡ count) }
        ensures all { IfOk result (λ q. (a : ℕ) → waits q a ≡ true) }
    {
        let flags = vec![in alloc; true; count]?;
        let list = numbers_to(alloc, count)?;
        Ok(Queue { flags, list })
    }

    /// Whether a term waits.
    pub fn waits(&self, a: u32) -> bool
        ensures value { result ≡ waits self.now a }
        ensures within { result ≡ false → a < length self.now.flags.items }
    {
        match self.flags.get(a as usize) {
            Some(flag) => *flag,
            None => true,
        }
    }

    /// The next term that waits.
    pub fn next(&self) -> Option<u32>
        ensures last { MatchOption result (self.now.list.items ≡ []) (IsLast self.now.list.items) }
        ensures within { MatchOption result (self.now.list.items ≡ []) (λ a. a < length self.now.flags.items) }
    {
        let len = self.list.len();
        if len == 0 {
            return None;
        }
        Some(self.list[len - 1])
    }

    /// A further term waits.
    pub fn add(&mut self, a: u32) -> Result<(), Want>
        ensures { OnOk result (IsAdded self.old self.new (a ∷ [])) }
    {
        if self.waits(a) {
            return Ok(());
        }
        self.list.push(a)?;
        self.flags[a as usize] = true;
        Ok(())
    }

    /// Further terms wait.
    pub fn add_all(&mut self, terms: &[u32]) -> Result<(), Want>
        ensures { OnOk result (IsAdded self.old self.new terms.now) }
    {
        for a in terms {
            self.add(*a)?;
        }
        Ok(())
    }

    /// The next term waits no longer.
    pub fn done(&mut self, a: u32)
        requires last { IsLast self.old.list.items a }
        requires within { a < length self.old.flags.items }
        ensures { IsDone self.old self.new a }
    {
        let _last = self.list.pop();
        self.flags[a as usize] = false;
    }
}

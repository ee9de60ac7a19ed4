//! The merges of classes, in order, and a tree in which the representative at each time is found.
ghost use Rattle.std.specs.Prelude.{◌≡◌, ◌<◌, ◌≤◌, ◌+◌, ◌-◌, ◌^◌, ◌++◌, ◌∷◌, [], length, take, IfOk, OnOk, OnErr};
ghost use Rattle.cs_cong.specs.Merged.{representative, current, with_merge, AreWithin};
ghost use Rattle.cs_cong.specs.Trees.{IsTree, link_at};

use std::alloc::{AllocError, AllocFailed, Global};

/// Why two terms are equal.
#[derive(Clone, Copy)]
pub enum Reason {
    /// The claim of this number says so.
    Claimed(u32),
    /// They have one head, and their parts were equal before.
    Congruence,
}

/// Two classes are made one, by an equality of two terms.
#[derive(Clone, Copy)]
pub struct Merge {
    pub left: u32,
    pub right: u32,
    pub reason: Reason,
    /// The representative that is one no longer.
    pub moved: u32,
}

/// From a term on to its representative after the merge of this number; the last number stands for no merge.
#[derive(Clone, Copy)]
pub struct Link {
    pub to: u32,
    pub time: u32,
}

/// Memory runs out.
#[derive(Clone, Copy)]
pub struct Want;

impl From<AllocError> for Want {
    ghost from_gives = { λ _ e. Unit {0} };

    fn from(_: AllocError) -> Self {
        Want
    }
}

impl<T: Drop> From<AllocFailed<T>> for Want {
    ghost from_gives = { λ _ e. Unit {0} };

    fn from(_: AllocFailed<T>) -> Self {
        Want
    }
}

/// The merges in order, over so many terms.
#[derive(Drop)]
pub struct Merges {
    pub(crate) log: Vec<Merge>,
    pub(crate) links: Vec<Link>,
    // how many terms each representative stands for
    sizes: Vec<u32>,
    ghost sized: { length sizes.items ≡ length links.items },
    ghost few: { length links.items < 2 ^ 32 },
    ghost fewer: { length log.items + 1 < 2 ^ 32 },
    ghost within: { AreWithin (length links.items) log.items },
    ghost tree: { IsTree log.items links.items },
}

impl Merges {
    /// No merges of so many terms.
    ///
    /// # Errors
    /// Memory runs out.
    pub fn new(alloc: Global, terms: u32) -> Result<Merges, Want>
        ensures log { IfOk result (λ m. m.log.items ≡ []) }
        ensures terms { IfOk result (λ m. length m.links.items ≡ terms) }
    {
        let mut links = Vec::new(alloc);
        for term in 0..terms {
            links.push(Link {
                to: term,
                time: u32::MAX,
            })?;
        }
        let sizes = vec![in alloc; 1; links.len()]?;
        Ok(Merges {
            log: Vec::new(alloc),
            links,
            sizes,
        })
    }

    /// The representative of a term before the merge of this number.
    pub fn at(&self, time: u32, term: u32) -> u32
        requires { term < length self.now.links.items }
        ensures value { result ≡ representative self.now.log.items time term }
        ensures within { result < length self.now.links.items }
        ensures rests { time ≤ (link_at self.now.links.items result).time }
    {
        let mut here = term;
        'climb: loop {
            let link = self.links[here as usize];
            if link.time >= time {
                return here;
            }
            here = link.to;
        }
    }

    /// The representative of a term now.
    pub fn now(&self, term: u32) -> u32
        requires { term < length self.now.links.items }
        ensures value { result ≡ current self.now.log.items term }
        ensures within { result < length self.now.links.items }
        ensures rests { length self.now.log.items ≤ (link_at self.now.links.items result).time }
    {
        self.at(self.log.len() as u32, term)
    }

    /// How many terms are in the class of this one, as far as 32 bits count them.
    pub(crate) fn size_of(&self, term: u32) -> u32
        requires { term < length self.now.links.items }
    {
        self.sizes[self.now(term) as usize]
    }

    /// Gives the class of the left term the representative of the right one.
    pub(crate) fn turn(&mut self, left: u32, right: u32, reason: Reason) -> Result<(), Want>
        requires left { left < length self.old.links.items }
        requires right { right < length self.old.links.items }
        ensures log { OnOk result (self.new.log.items ≡ with_merge self.old.log.items left right reason) }
        ensures kept { OnErr result (self.new.log.items ≡ self.old.log.items) }
        ensures terms { length self.new.links.items ≡ length self.old.links.items }
    {
        let time = self.log.len();
        if time >= 0xFFFF_FFFE {
            return Err(Want);
        }
        let moved = self.now(left);
        let to = self.now(right);
        if moved == to {
            return Ok(());
        }
        self.log.push(Merge {
            left,
            right,
            reason,
            moved,
        })?;
        self.links[moved as usize] = Link {
            to,
            time: time as u32,
        };
        self.grow(moved as usize, to as usize);
        Ok(())
    }

    /// Counts the terms of a class that was moved among those of another.
    fn grow(&mut self, moved: usize, to: usize)
        requires moved { moved < length self.old.links.items }
        requires to { to < length self.old.links.items }
        ensures log { self.new.log.items ≡ self.old.log.items }
        ensures links { self.new.links.items ≡ self.old.links.items }
    {
        self.sizes[to] = self.sizes[to].saturating_add(self.sizes[moved]);
    }

    /// Counts the terms of the class that was moved last no longer among those of the other.
    fn shrink(&mut self)
        ensures log { self.new.log.items ≡ self.old.log.items }
        ensures links { self.new.links.items ≡ self.old.links.items }
    {
        let Some(last) = self.log.last() else {
            return;
        };
        let moved = last.moved as usize;
        let to = self.links[moved].to as usize;
        if to < self.sizes.len() {
            self.sizes[to] = self.sizes[to].saturating_sub(self.sizes[moved]);
        }
    }

    /// Takes the last merge from the log and from the links.
    fn unlink(&mut self)
        ensures log { self.new.log.items ≡ take (length self.old.log.items - 1) self.old.log.items }
        ensures terms { length self.new.links.items ≡ length self.old.links.items }
    {
        if let Some(merge) = self.log.pop() {
            self.links[merge.moved as usize] = Link {
                to: merge.moved,
                time: u32::MAX,
            };
        }
    }

    /// Takes the last merge back. No memory.
    pub fn undo(&mut self)
        ensures log { self.new.log.items ≡ take (length self.old.log.items - 1) self.old.log.items }
        ensures terms { length self.new.links.items ≡ length self.old.links.items }
    {
        self.shrink();
        self.unlink();
    }

    /// Takes the merges back to the first of them. No memory.
    pub fn back_to(&mut self, len: usize)
        requires { len ≤ length self.old.log.items }
        ensures log { self.new.log.items ≡ take len self.old.log.items }
        ensures terms { length self.new.links.items ≡ length self.old.links.items }
    {
        while self.log.len() > len {
            self.undo();
        }
    }
}

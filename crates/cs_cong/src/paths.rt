//! Walks from a term to another along merges.
ghost use Rattle.std.specs.Prelude.{◌≡◌, ◌<◌, ◌≤◌, ◌⊎◌, ◌++◌, suc, length, MatchOption, OnOk};
ghost use Rattle.cs_cong.specs.Merged.{merge_at, representative};
ghost use Rattle.cs_cong.specs.Onward.{GoesAlong};
ghost use Rattle.cs_cong.specs.Trees.{link_at, never};
ghost use Rattle.cs_cong.specs.Walks.{walk, start_of, end_of, IsParting};

use crate::merges::{Merges, Want};
use std::alloc::Global;

/// A merge that is gone along: from its left term to its right one, or back.
#[derive(Clone, Copy)]
pub struct Edge {
    pub merge: u32,
    pub forward: bool,
}

/// What is still to be gone behind a walk: an edge, and from its end on to a term.
#[derive(Clone, Copy)]
pub(crate) struct Onward {
    pub edge: Edge,
    pub to: u32,
}

impl Merges {
    /// When a term's representative is one no longer.
    fn end_of(&self, at: u32) -> u32
        requires { at < length self.now.links.items }
        ensures { result ≡ (link_at self.now.links.items at).time }
    {
        self.links[at as usize].time
    }

    /// The representative after the merge `when` of one that stays up to it.
    fn after(&self, when: u32, at: u32) -> u32
        requires within { at < length self.now.links.items }
        requires stays { when ≤ (link_at self.now.links.items at).time }
        requires some { when < never }
        ensures within { result < length self.now.links.items }
        ensures value { representative self.now.log.items (suc when) at ≡ result }
        ensures rests { suc when ≤ (link_at self.now.links.items result).time }
    {
        let link = self.links[at as usize];
        if link.time <= when { link.to } else { at }
    }

    /// The merge before `time` that made one class of those of two different terms, where one did.
    pub(crate) fn parting(&self, time: u32, a: u32, b: u32) -> Option<u32>
        requires left { a < length self.now.links.items }
        requires right { b < length self.now.links.items }
        ensures { MatchOption result ((a ≡ b) ⊎ (representative self.now.log.items time a ≡ representative self.now.log.items time b → ⊥)) (IsParting self.now.log.items time a b) }
    {
        if a == b {
            return None;
        }
        let mut left = a;
        let mut right = b;
        'climb: loop {
            let when = self.end_of(left).min(self.end_of(right));
            if when >= time {
                return None;
            }
            let next_left = self.after(when, left);
            let next_right = self.after(when, right);
            if next_left == next_right {
                return Some(when);
            }
            left = next_left;
            right = next_right;
        }
    }

    /// An edge of the walk from a term to another: that of the last merge before `time` which joined the two, where one did.
    fn edge_on(&self, time: u32, a: u32, b: u32) -> Option<Edge>
        requires left { a < length self.now.links.items }
        requires right { b < length self.now.links.items }
        requires time { time ≤ length self.now.log.items }
        ensures { MatchOption result ((a ≡ b) ⊎ (representative self.now.log.items time a ≡ representative self.now.log.items time b → ⊥)) (GoesAlong self.now.log.items time a b) }
    {
        match self.parting(time, a, b) {
            None => None,
            Some(when) => {
                let merge = self.log[when as usize];
                if self.at(when, a) == self.at(when, merge.left) {
                    Some(Edge {
                        merge: when,
                        forward: true,
                    })
                } else {
                    Some(Edge {
                        merge: when,
                        forward: false,
                    })
                }
            }
        }
    }

    /// The term that an edge begins at.
    fn start_of_edge(&self, edge: Edge) -> u32
        requires { edge.merge < length self.now.log.items }
        ensures { result ≡ start_of edge.forward (merge_at self.now.log.items edge.merge) }
    {
        let merge = self.log[edge.merge as usize];
        if edge.forward {
            merge.left
        } else {
            merge.right
        }
    }

    /// The term that an edge leads to.
    pub(crate) fn end_of_edge(&self, edge: Edge) -> u32
        requires { edge.merge < length self.now.log.items }
        ensures { result ≡ end_of edge.forward (merge_at self.now.log.items edge.merge) }
    {
        let merge = self.log[edge.merge as usize];
        if edge.forward {
            merge.right
        } else {
            merge.left
        }
    }

    /// Adds the walk from a term to another of its class, along merges before `time`. What is still to be gone behind the part that
    /// it has come to stands in a list, since walks may be long.
    pub(crate) fn walk(
        &self,
        alloc: Global,
        time: u32,
        a: u32,
        b: u32,
        edges: &mut Vec<Edge>,
    ) -> Result<(), Want>
        requires left { a < length self.now.links.items }
        requires right { b < length self.now.links.items }
        requires time { time ≤ length self.now.log.items }
        ensures { OnOk result (representative self.now.log.items time a ≡ representative self.now.log.items time b
            → edges.new.items ≡ edges.old.items ++ walk self.now.log.items time a b) }
    {
        let mut pending: Vec<Onward> = Vec::new(alloc);
        let mut until = time;
        let mut from = a;
        let mut to = b;
        'go: loop {
            if let Some(edge) = self.edge_on(until, from, to) {
                pending.push(Onward { edge, to })?;
                until = edge.merge;
                to = self.start_of_edge(edge);
                continue;
            }
            let Some(next) = pending.pop() else {
                return Ok(());
            };
            edges.push(next.edge)?;
            until = next.edge.merge;
            from = self.end_of_edge(next.edge);
            to = next.to;
        }
    }
}

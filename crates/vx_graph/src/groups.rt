//! The groups of all members at once.

ghost use Rattle.std.specs.Prelude.{◌≡◌, ◌<◌, ◌↔◌, ◌||◌, ◌&&◌, ℕ, true, false, not, nat_eq, if◌then◌else◌, Some, IfOk, OnOk, All, length};
ghost use Rattle.vx_graph.specs.Groups.{root_at, roots, are_together};
ghost use Rattle.vx_graph.specs.Listed.{is_in, is_marked};
ghost use Rattle.vx_graph.specs.Rooted.{IsWhole, Rooted, Together};
ghost use Rattle.vx_ast.specs.declared.MemberId.{MemberId as Id};
ghost use Rattle.vx_graph.specs.Reach.{Reaches};
ghost use Rattle.vx_graph.specs.Views.{rows};

use crate::Edges;
use crate::found::{Found, unmark};
use crate::order::order_of_ends;
use crate::search::find_within;
use std::alloc::{AllocError, AllocFailed, Global};
use vx_ast::MemberId;

/// The groups of the members of a program: those that reach one another. Contracts see its `roots`: for each member, in
/// file order, the root of its group, and none where the member doesn't reach itself.
#[derive(Drop)]
pub struct Groups {
    pub(crate) roots: Vec<Option<MemberId>>,
}

impl Groups {
    /// The root of a member's group, or none where the member doesn't reach itself.
    pub fn root(&self, member: MemberId) -> Option<MemberId>
        requires { member.0 < length (roots self.now) }
        ensures root { result ≡ root_at (roots self.now) member.0 }
    {
        self.roots[member.0 as usize]
    }

    /// Whether two members reach one another.
    pub fn are_together(&self, a: MemberId, b: MemberId) -> bool
        requires a { a.0 < length (roots self.now) }
        requires b { b.0 < length (roots self.now) }
        ensures { result ≡ are_together (roots self.now) a.0 b.0 }
    {
        match (self.root(a), self.root(b)) {
            (Some(a), Some(b)) => a == b,
            _ => false,
        }
    }
}

// Groups that are being found. A member is left while its group isn't known.
#[derive(Drop)]
struct Grouping {
    roots: Vec<Option<MemberId>>,
    left: Vec<bool>,
    // those that lead to the member whose group is looked for, and of those the ones that it leads to
    before: Found,
    after: Found,
    ghost left_each: { length left.items ≡ length roots.items },
    ghost before_each: { length before.marks.items ≡ length roots.items },
    ghost after_each: { length after.marks.items ≡ length roots.items },
}

// The members of a group have this root.
fn set_root(roots: &mut Vec<Option<MemberId>>, group: &[MemberId], root: MemberId)
    requires { All (λ m. m.0 < length roots.old.items) group.now }
    ensures members { length roots.new.items ≡ length roots.old.items }
    ensures roots { (n : ℕ) → root_at roots.new.items n ≡ (if is_in group.now n then Some root else root_at roots.old.items n) }
{
    for m in group {
        roots[m.0 as usize] = Some(root);
    }
}

impl Grouping {
    // All of so many members are left.
    fn new(alloc: Global, members: usize) -> Result<Grouping, AllocError>
        ensures members { IfOk result (λ g. length g.roots.items ≡ members) }
        ensures roots { IfOk result (λ g. (n : ℕ) → root_at g.roots.items n ≡ None) }
        ensures left { IfOk result (λ g. (n : ℕ) → n < members → is_marked g.left.items n ≡ true) }
    {
        Ok(Grouping {
            roots: vec![in alloc; None; members]?,
            left: vec![in alloc; true; members]?,
            before: Found::new(alloc, members)?,
            after: Found::new(alloc, members)?,
        })
    }

    // The group of a member that is left is `after`: those that it leads to among those that lead to it.
    fn find(&mut self, edges: &Edges, member: MemberId) -> Result<(), AllocFailed<MemberId>>
        requires edges { length self.old.roots.items ≡ length (rows edges.now) }
        requires member { member.0 < length self.old.roots.items }
        ensures roots { self.new.roots.items ≡ self.old.roots.items }
        ensures left { self.new.left.items ≡ self.old.left.items }
        ensures group { OnOk result (IsWhole (rows edges.now) self.old.left.items → is_marked self.old.left.items member.0 ≡ true → (n : ℕ)
            → (is_in self.new.after.order.items n ≡ true) ↔ Together (rows edges.now) member.0 n) }
    {
        self.before.clear();
        find_within(&mut self.before, &edges.sources, &self.left, member)?;
        self.after.clear();
        find_within(&mut self.after, &edges.targets, &self.before.marks, member)?;
        Ok(())
    }

    // The group that was found is left no longer, nor is the member.
    fn close(&mut self, member: MemberId)
        requires { member.0 < length self.old.roots.items }
        ensures members { length self.new.roots.items ≡ length self.old.roots.items }
        ensures roots { (n : ℕ) → root_at self.new.roots.items n ≡ (if is_in self.old.after.order.items n then Some member else root_at self.old.roots.items n) }
        ensures left { (n : ℕ) → is_marked self.new.left.items n ≡ ((is_marked self.old.left.items n && not (is_in self.old.after.order.items n)) && not (nat_eq member.0 n)) }
    {
        set_root(&mut self.roots, &self.after.order, member);
        unmark(&mut self.left, &self.after.order);
        self.left[member.0 as usize] = false;
    }

    // A member's group is known.
    fn settle(&mut self, edges: &Edges, member: MemberId) -> Result<(), AllocFailed<MemberId>>
        requires edges { length self.old.roots.items ≡ length (rows edges.now) }
        requires member { member.0 < length self.old.roots.items }
        ensures members { length self.new.roots.items ≡ length self.old.roots.items }
        ensures rooted { OnOk result (Rooted (rows edges.now) self.old.roots.items self.old.left.items → Rooted (rows edges.now) self.new.roots.items self.new.left.items) }
        ensures settled { OnOk result (is_marked self.new.left.items member.0 ≡ false) }
        ensures fewer { OnOk result ((n : ℕ) → is_marked self.new.left.items n ≡ true → is_marked self.old.left.items n ≡ true) }
    {
        if self.left[member.0 as usize] {
            self.find(edges, member)?;
            self.close(member);
        }
        Ok(())
    }
}

/// The groups of all members. The time is linear in members and edges, and no recursion is used.
pub fn all_groups(alloc: Global, edges: &Edges) -> Result<Groups, AllocError>
    ensures members { IfOk result (λ g. length (roots g) ≡ length (rows edges.now)) }
    ensures roots { IfOk result (λ g. (a b : ℕ) → (are_together (roots g) a b ≡ true) ↔ (Reaches (rows edges.now) a b × Reaches (rows edges.now) b a)) }
    ensures own { IfOk result (λ g. (a : ℕ) (r : Id) → root_at (roots g) a ≡ Some r → r.0 < length (rows edges.now)) }
{
    let mut ends = order_of_ends(alloc, &edges.targets)?;
    let mut grouping = Grouping::new(alloc, edges.len())?;
    while let Some(member) = ends.pop() {
        grouping.settle(edges, member)?;
    }
    Ok(Groups {
        roots: grouping.roots,
    })
}

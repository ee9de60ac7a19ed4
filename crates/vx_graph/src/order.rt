//! An order of all members: that in which a depth-first search leaves them.

ghost use Rattle.std.specs.Prelude.{◌≡◌, ◌<◌, ◌≤◌, ◌++◌, ◌∷◌, ◌^◌, ℕ, [], true, IfOk, OnOk, All, length};
ghost use Rattle.vx_graph.specs.Listed.{is_in};
ghost use Rattle.vx_graph.specs.Order.{entries, Walks, left_to_do};
ghost use Rattle.vx_graph.specs.Reach.{InRange};

use std::alloc::{AllocError, AllocFailed, Global};
use vx_ast::MemberId;

// What is left to do for a member.
#[derive(Clone, Copy)]
enum Step {
    Enter(MemberId),
    Leave(MemberId),
}

// A depth-first search: what is left to do, the newest last, who has been entered, and who has been left.
#[derive(Drop)]
struct Walk {
    stack: Vec<Step>,
    seen: Vec<bool>,
    ends: Vec<MemberId>,
}

// The members of a row are to be entered.
fn enter_all(stack: &mut Vec<Step>, row: &[MemberId]) -> Result<(), AllocFailed<Step>>
    ensures { OnOk result (stack.new.items ≡ stack.old.items ++ entries row.now) }
{
    for m in row {
        stack.push(Step::Enter(*m))?;
    }
    Ok(())
}

impl Walk {
    // All members are to be entered.
    fn new(alloc: Global, members: usize) -> Result<Walk, AllocError>
        requires { members < 2 ^ 32 }
        ensures { IfOk result (λ w. Walks members w.stack.items w.seen.items w.ends.items) }
    {
        let seen = vec![in alloc; false; members]?;
        let mut stack = Vec::new(alloc);
        for n in 0..members {
            stack.push(Step::Enter(MemberId(n as u32)))?;
        }
        Ok(Walk {
            stack,
            seen,
            ends: Vec::new(alloc),
        })
    }

    // A member is entered, if it was not.
    fn enter(&mut self, rows: &[Vec<MemberId>], member: MemberId) -> Result<(), AllocError>
        requires within { InRange (length rows.now) rows.now }
        requires walks { Walks (length rows.now) (self.old.stack.items ++ Step.Enter member ∷ []) self.old.seen.items self.old.ends.items }
        ensures walks { OnOk result (Walks (length rows.now) self.new.stack.items self.new.seen.items self.new.ends.items) }
        ensures fewer { OnOk result (left_to_do rows.now self.new.stack.items self.new.seen.items ≤ left_to_do rows.now self.old.stack.items self.old.seen.items) }
    {
        let at = member.0 as usize;
        if !self.seen[at] {
            self.seen[at] = true;
            self.stack.push(Step::Leave(member))?;
            enter_all(&mut self.stack, &rows[at])?;
        }
        Ok(())
    }

    // One step.
    fn go(&mut self, rows: &[Vec<MemberId>], step: Step) -> Result<(), AllocError>
        requires within { InRange (length rows.now) rows.now }
        requires walks { Walks (length rows.now) (self.old.stack.items ++ step ∷ []) self.old.seen.items self.old.ends.items }
        ensures walks { OnOk result (Walks (length rows.now) self.new.stack.items self.new.seen.items self.new.ends.items) }
        ensures fewer { OnOk result (left_to_do rows.now self.new.stack.items self.new.seen.items ≤ left_to_do rows.now self.old.stack.items self.old.seen.items) }
    {
        match step {
            Step::Enter(member) => self.enter(rows, member),
            Step::Leave(member) => {
                self.ends.push(member)?;
                Ok(())
            }
        }
    }
}

/// All members, each behind those that it reaches and that don't reach it. Where the order stands otherwise, groups are
/// found as well, but not in linear time: so the contract says no more than that all members are there.
pub fn order_of_ends(alloc: Global, rows: &[Vec<MemberId>]) -> Result<Vec<MemberId>, AllocError>
    requires few { length rows.now < 2 ^ 32 }
    requires within { InRange (length rows.now) rows.now }
    ensures within { IfOk result (λ ms. All (λ m. m.0 < length rows.now) ms.items) }
    ensures all { IfOk result (λ ms. (n : ℕ) → n < length rows.now → is_in ms.items n ≡ true) }
{
    let mut walk = Walk::new(alloc, rows.len())?;
    while let Some(step) = walk.stack.pop() {
        walk.go(rows, step)?;
    }
    Ok(walk.ends)
}

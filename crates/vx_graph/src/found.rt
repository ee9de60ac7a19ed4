//! The members that a search has found.

ghost use Rattle.std.specs.Prelude.{◌≡◌, ◌<◌, ◌⊎◌, ◌&&◌, ◌++◌, ◌∷◌, ℕ, [], IfOk, OnOk, All, length, get_or, not, true, false};
ghost use Rattle.vx_graph.specs.Listed.{is_in, is_marked, set_in};

use std::alloc::{AllocError, AllocFailed, Global};
use vx_ast::MemberId;

/// The members found, in the order in which they were found, each once. A mark for each member tells whether it is.
#[derive(Drop)]
pub struct Found {
    pub order: Vec<MemberId>,
    pub marks: Vec<bool>,
    ghost counted: { length order.items ≡ set_in marks.items },
    ghost marked: { (n : ℕ) → n < length marks.items → get_or marks.items n false ≡ is_in order.items n },
    ghost within: { All (λ m. m.0 < length marks.items) order.items },
}

/// These members are marked no longer.
pub fn unmark(marks: &mut Vec<bool>, members: &[MemberId])
    requires { All (λ m. m.0 < length marks.old.items) members.now }
    ensures members { length marks.new.items ≡ length marks.old.items }
    ensures marks { (n : ℕ) → is_marked marks.new.items n ≡ (is_marked marks.old.items n && not (is_in members.now n)) }
{
    for m in members {
        marks[m.0 as usize] = false;
    }
}

impl Found {
    /// None of so many members is found yet.
    pub fn new(alloc: Global, members: usize) -> Result<Found, AllocError>
        ensures order { IfOk result (λ f. f.order.items ≡ []) }
        ensures members { IfOk result (λ f. length f.marks.items ≡ members) }
    {
        Ok(Found {
            order: Vec::new(alloc),
            marks: vec![in alloc; false; members]?,
        })
    }

    /// Whether a member is found.
    pub fn has(&self, member: MemberId) -> bool
        requires { member.0 < length self.now.marks.items }
        ensures { result ≡ is_in self.now.order.items member.0 }
    {
        self.marks[member.0 as usize]
    }

    /// A member is found, if it was not.
    pub fn mark(&mut self, member: MemberId) -> Result<(), AllocFailed<MemberId>>
        requires { member.0 < length self.old.marks.items }
        ensures members { length self.new.marks.items ≡ length self.old.marks.items }
        ensures found { OnOk result (is_in self.new.order.items member.0 ≡ true) }
        ensures order { OnOk result ((self.new.order.items ≡ self.old.order.items) ⊎ (self.new.order.items ≡ self.old.order.items ++ member ∷ [])) }
    {
        let at = member.0 as usize;
        if !self.marks[at] {
            self.order.push(member)?;
            self.marks[at] = true;
        }
        Ok(())
    }

    /// None is found any more. The time goes by how many were.
    pub fn clear(&mut self)
        ensures order { self.new.order.items ≡ [] }
        ensures members { length self.new.marks.items ≡ length self.old.marks.items }
    {
        unmark(&mut self.marks, &self.order);
        self.order.clear();
    }
}

// The parts of a term whose symbols are still to be added. They stand in a list: a term may be as deep as a member is long.
ghost use Rattle.std.specs.Prelude.{◌≡◌, ◌+◌, OnOk, List};
ghost use Rattle.vx_terms.specs.Parts.{parts};
ghost use Rattle.vx_terms.specs.Views.{term};
ghost use Rattle.vx_smt_meaning.specs.Commands.{Declared};
ghost use Rattle.vx_dialogue.specs.Symbols.{with_variables};
ghost use Rattle.vx_dialogue.specs.Pending.{with_one, with_pending, load_of, load};

use std::alloc::AllocError;
use vx_terms::{Term, Terms};

#[derive(Clone, Copy)]
pub enum Pending<'t> {
    Term(&'t Term),
    Parts(&'t Terms),
}

/// Puts it before all else that is still to be added.
#[tactic(auto, using(crate::proofs::Pendings::pending_more, crate::proofs::Pendings::load_more))]
pub fn put_off<'t>(pending: &mut Vec<Pending<'t>>, what: Pending<'t>) -> Result<(), AllocError>
    ensures adds { OnOk result ((ds : List Declared) → with_pending ds pending.new.items ≡ with_pending (with_one ds what.entry) pending.old.items) }
    ensures load { OnOk result (load pending.new.items ≡ load_of what.entry + load pending.old.items) }
{
    pending.push(what)?;
    Ok(())
}

/// Puts both before all else that is still to be added, the left one first.
pub fn put_off_both<'t>(
    pending: &mut Vec<Pending<'t>>,
    left: &'t Term,
    right: &'t Term,
) -> Result<(), AllocError>
    ensures adds { OnOk result ((ds : List Declared) → with_pending ds pending.new.items
        ≡ with_pending (with_variables (with_variables ds (term left.now)) (term right.now)) pending.old.items) }
    ensures load { OnOk result (load pending.new.items ≡ (parts (term left.now) + parts (term right.now)) + load pending.old.items) }
{
    put_off(pending, Pending::Term(right))?;
    put_off(pending, Pending::Term(left))
}

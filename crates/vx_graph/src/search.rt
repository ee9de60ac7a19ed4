//! Searches along edges.

ghost use Rattle.std.specs.Prelude.{◌≡◌, ◌<◌, ◌&&◌, ◌+◌, ◌^◌, ◌↔◌, ◌⊎◌, ◌++◌, ◌∷◌, ◌≢◌, ℕ, Bool, List, [], true, not, nat_eq, IsTrue, IfOk, OnOk, All, length};
ghost use Rattle.vx_ast.specs.declared.MemberId.{MemberId};
ghost use Rattle.vx_graph.specs.Listed.{is_in, is_marked, Ascends, AreThose};
ghost use Rattle.vx_graph.specs.Reach.{InRange, Reaches};
ghost use Rattle.vx_graph.specs.Views.{rows};
ghost use Rattle.vx_graph.specs.Within.{ReachesWithin};

use crate::Edges;
use crate::found::Found;
use std::alloc::{AllocError, AllocFailed, Global};
use vx_ast::MemberId;

// A member is found, if it is marked.
fn find(found: &mut Found, member: MemberId, marks: &[bool]) -> Result<(), AllocFailed<MemberId>>
    requires member { member.0 < length found.old.marks.items }
    requires marks { length marks.now ≡ length found.old.marks.items }
    ensures members { length found.new.marks.items ≡ length found.old.marks.items }
    ensures found { OnOk result (is_marked marks.now member.0 ≡ true → is_in found.new.order.items member.0 ≡ true) }
    ensures order { OnOk result ((found.new.order.items ≡ found.old.order.items)
        ⊎ ((found.new.order.items ≡ found.old.order.items ++ member ∷ []) × (is_marked marks.now member.0 ≡ true))) }
{
    if marks[member.0 as usize] {
        found.mark(member)?;
    }
    Ok(())
}

// Those of a row that are marked are found.
fn find_all(
    found: &mut Found,
    row: &[MemberId],
    marks: &[bool],
) -> Result<(), AllocFailed<MemberId>>
    requires row { All (λ m. m.0 < length found.old.marks.items) row.now }
    requires marks { length marks.now ≡ length found.old.marks.items }
    ensures members { length found.new.marks.items ≡ length found.old.marks.items }
    ensures found { OnOk result (All (λ m. is_marked marks.now m.0 ≡ true → is_in found.new.order.items m.0 ≡ true) row.now) }
    ensures order { OnOk result ((added : List MemberId) × (found.new.order.items ≡ found.old.order.items ++ added)
        × All (λ m. (is_in row.now m.0 ≡ true) × (is_marked marks.now m.0 ≡ true)) added) }
{
    for m in row {
        find(found, *m, marks)?;
    }
    Ok(())
}

/// Those that one edge or more lead to from a member, by way of marked members alone. Nothing was found before.
pub(crate) fn find_within(
    found: &mut Found,
    rows: &[Vec<MemberId>],
    marks: &[bool],
    from: MemberId,
) -> Result<(), AllocFailed<MemberId>>
    requires within { InRange (length rows.now) rows.now }
    requires from { from.0 < length rows.now }
    requires members { length found.old.marks.items ≡ length rows.now }
    requires marks { length marks.now ≡ length rows.now }
    requires none { found.old.order.items ≡ [] }
    ensures members { length found.new.marks.items ≡ length found.old.marks.items }
    ensures found { OnOk result ((b : ℕ) → (is_in found.new.order.items b ≡ true) ↔ ReachesWithin marks.now rows.now from.0 b) }
{
    find_all(found, &rows[from.0 as usize], marks)?;
    let mut next = 0;
    while next < found.order.len() {
        let at = found.order[next];
        find_all(found, &rows[at.0 as usize], marks)?;
        next += 1;
    }
    Ok(())
}

// Those that one edge or more lead to from a member.
fn found_from(alloc: Global, rows: &[Vec<MemberId>], from: MemberId) -> Result<Found, AllocError>
    requires within { InRange (length rows.now) rows.now }
    requires from { from.0 < length rows.now }
    ensures members { IfOk result (λ f. length f.marks.items ≡ length rows.now) }
    ensures found { IfOk result (λ f. (b : ℕ) → (is_in f.order.items b ≡ true) ↔ Reaches rows.now from.0 b) }
{
    let mut found = Found::new(alloc, rows.len())?;
    let all = vec![in alloc; true; rows.len()]?;
    find_within(&mut found, rows, &all, from)?;
    Ok(found)
}

/// Whether one edge or more lead from `a` to `b`. The members are below the number of members.
pub fn reaches(alloc: Global, edges: &Edges, a: MemberId, b: MemberId) -> Result<bool, AllocError>
    requires from { a.0 < length (rows edges.now) }
    requires to { b.0 < length (rows edges.now) }
    ensures { IfOk result (λ yes. IsTrue yes ↔ Reaches (rows edges.now) a.0 b.0) }
{
    let found = found_from(alloc, &edges.targets, a)?;
    Ok(found.has(b))
}

// One more member is looked at, which is kept if it passes.
fn look(ms: &mut Vec<MemberId>, member: MemberId, kept: bool) -> Result<(), AllocFailed<MemberId>>
    ensures { (passes : ℕ → Bool) → passes member.0 ≡ kept → AreThose passes member.0 ms.old.items → OnOk result (AreThose passes (member.0 + 1) ms.new.items) }
{
    if kept {
        ms.push(member)?;
    }
    Ok(())
}

// The members found by both searches, in file order.
fn found_by_both(
    alloc: Global,
    members: usize,
    f: &Found,
    g: &Found,
) -> Result<Vec<MemberId>, AllocError>
    requires few { members < 2 ^ 32 }
    requires f { length f.now.marks.items ≡ members }
    requires g { length g.now.marks.items ≡ members }
    ensures { IfOk result (λ ms. AreThose (λ n. is_in f.now.order.items n && is_in g.now.order.items n) members ms.items) }
{
    let mut both = Vec::new(alloc);
    for n in 0..members {
        let member = MemberId(n as u32);
        let kept = f.has(member) & g.has(member);
        look(&mut both, member, kept)?;
    }
    Ok(both)
}

// The members found but for one, in file order.
fn others_found(
    alloc: Global,
    members: usize,
    found: &Found,
    but: MemberId,
) -> Result<Vec<MemberId>, AllocError>
    requires few { members < 2 ^ 32 }
    requires found { length found.now.marks.items ≡ members }
    ensures { IfOk result (λ ms. AreThose (λ n. not (nat_eq n but.0) && is_in found.now.order.items n) members ms.items) }
{
    let mut others = Vec::new(alloc);
    for n in 0..members {
        let member = MemberId(n as u32);
        let kept = (member.0 != but.0) & found.has(member);
        look(&mut others, member, kept)?;
    }
    Ok(others)
}

/// The group of a member: those that it reaches and that reach it, in file order. It is empty where the member
/// doesn't reach itself.
pub fn group(alloc: Global, edges: &Edges, member: MemberId) -> Result<Vec<MemberId>, AllocError>
    requires { member.0 < length (rows edges.now) }
    ensures order { IfOk result (λ ms. Ascends ms.items) }
    ensures members { IfOk result (λ ms. (n : ℕ) → (is_in ms.items n ≡ true) ↔ (Reaches (rows edges.now) member.0 n × Reaches (rows edges.now) n member.0)) }
{
    let after = found_from(alloc, &edges.targets, member)?;
    let before = found_from(alloc, &edges.sources, member)?;
    let both = found_by_both(alloc, edges.len(), &after, &before)?;
    Ok(both)
}

/// The members that a member reaches, without itself, in file order.
pub fn rests(alloc: Global, edges: &Edges, member: MemberId) -> Result<Vec<MemberId>, AllocError>
    requires { member.0 < length (rows edges.now) }
    ensures order { IfOk result (λ ms. Ascends ms.items) }
    ensures members { IfOk result (λ ms. (n : ℕ) → (is_in ms.items n ≡ true) ↔ (Reaches (rows edges.now) member.0 n × (n ≢ member.0))) }
{
    let found = found_from(alloc, &edges.targets, member)?;
    let others = others_found(alloc, edges.len(), &found, member)?;
    Ok(others)
}

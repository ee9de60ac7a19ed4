//! Edges between members.

ghost use Rattle.std.specs.Prelude.{◌≡◌, ◌<◌, ◌^◌, ◌||◌, ◌&&◌, ℕ, Bool, false, IsTrue, ◌↔◌, IfOk, OnOk, All, length, nat_eq};
ghost use Rattle.vx_graph.specs.Listed.{is_in};
ghost use Rattle.vx_graph.specs.Reach.{InRange, leads};

use std::alloc::{AllocError, AllocFailed, Global};
use vx_ast::MemberId;

/// Which members each member leads to. Contracts see its `rows`: for each member, in file order,
/// those that it leads to.
#[derive(Drop)]
pub struct Edges {
    pub(crate) targets: Vec<Vec<MemberId>>,
    // who leads to each member
    pub(crate) sources: Vec<Vec<MemberId>>,
    ghost few: { length targets.items < 2 ^ 32 },
    ghost targets_in: { InRange (length targets.items) targets.items },
    ghost each: { length sources.items ≡ length targets.items },
    ghost sources_in: { InRange (length targets.items) sources.items },
    ghost turned: { (a b : ℕ) → leads sources.items b a ≡ leads targets.items a b },
}

// One more edge.
fn add(
    rows: &mut Vec<Vec<MemberId>>,
    from: MemberId,
    to: MemberId,
) -> Result<(), AllocFailed<MemberId>>
    requires { from.0 < length rows.old.items }
    ensures members { length rows.new.items ≡ length rows.old.items }
    ensures edges { OnOk result ((a b : ℕ) → leads rows.new.items a b ≡ (leads rows.old.items a b || (nat_eq from.0 a && nat_eq to.0 b))) }
    ensures within { (n : ℕ) → to.0 < n → InRange n rows.old.items → OnOk result (InRange n rows.new.items) }
{
    rows[from.0 as usize].push(to)?;
    Ok(())
}

// An edge to one member from each of a row.
fn add_all(
    rows: &mut Vec<Vec<MemberId>>,
    from: &[MemberId],
    to: MemberId,
) -> Result<(), AllocFailed<MemberId>>
    requires { All (λ m. m.0 < length rows.old.items) from.now }
    ensures members { length rows.new.items ≡ length rows.old.items }
    ensures edges { OnOk result ((a b : ℕ) → leads rows.new.items a b ≡ (leads rows.old.items a b || (is_in from.now a && nat_eq to.0 b))) }
    ensures within { (n : ℕ) → to.0 < n → InRange n rows.old.items → OnOk result (InRange n rows.new.items) }
{
    for m in from {
        add(rows, *m, to)?;
    }
    Ok(())
}

// No edges, between so many members.
fn none(alloc: Global, members: usize) -> Result<Vec<Vec<MemberId>>, AllocError>
    ensures members { IfOk result (λ rows. length rows.items ≡ members) }
    ensures edges { IfOk result (λ rows. (a b : ℕ) → leads rows.items a b ≡ false) }
    ensures within { (n : ℕ) → IfOk result (λ rows. InRange n rows.items) }
{
    let mut rows = Vec::with_capacity(alloc, members)?;
    for _ in 0..members {
        rows.push(Vec::new(alloc))?;
    }
    Ok(rows)
}

// The edges, turned round.
fn turned(alloc: Global, rows: &[Vec<MemberId>]) -> Result<Vec<Vec<MemberId>>, AllocError>
    requires few { length rows.now < 2 ^ 32 }
    requires within { InRange (length rows.now) rows.now }
    ensures members { IfOk result (λ r. length r.items ≡ length rows.now) }
    ensures edges { IfOk result (λ r. (a b : ℕ) → leads r.items b a ≡ leads rows.now a b) }
    ensures within { IfOk result (λ r. InRange (length rows.now) r.items) }
{
    let mut sources = none(alloc, rows.len())?;
    for at in 0..rows.len() {
        add_all(&mut sources, &rows[at], MemberId(at as u32))?;
    }
    Ok(sources)
}

// Whether all of a row are below a number.
fn is_within(row: &[MemberId], members: usize) -> bool
    ensures { IsTrue result ↔ All (λ m. m.0 < members) row.now }
{
    for m in row {
        if m.0 as usize >= members {
            return false;
        }
    }
    true
}

/// Whether each member that the rows lead to has a row of its own.
pub fn are_in_range(rows: &[Vec<MemberId>]) -> bool
    ensures { IsTrue result ↔ InRange (length rows.now) rows.now }
{
    for row in rows {
        if !is_within(row, rows.len()) {
            return false;
        }
    }
    true
}

impl Edges {
    ghost use Rattle.vx_graph.specs.Views.{rows};

    /// The edges that these rows tell: a row for each member, in file order, with the members that it leads to.
    pub fn of(alloc: Global, targets: Vec<Vec<MemberId>>) -> Result<Edges, AllocError>
        requires few { length targets.items < 2 ^ 32 }
        requires within { InRange (length targets.items) targets.items }
        ensures { IfOk result (λ e. rows e ≡ targets.items) }
    {
        let sources = turned(alloc, &targets)?;
        Ok(Edges { targets, sources })
    }

    /// How many members there are.
    pub fn len(&self) -> usize
        ensures { result ≡ length (rows self.now) }
    {
        self.targets.len()
    }

    /// Whether there are none.
    pub fn is_empty(&self) -> bool
        ensures { result ≡ nat_eq (length (rows self.now)) 0 }
    {
        self.targets.is_empty()
    }
}

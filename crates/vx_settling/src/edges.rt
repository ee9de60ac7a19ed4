//! Which functions mention which.

ghost use Rattle.std.specs.Prelude.{◌≡◌, ℕ, IfOk};
ghost use Rattle.vx_graph.specs.Listed.{is_in};
ghost use Rattle.vx_graph.specs.Views.{rows};
ghost use Rattle.vx_settling.specs.Mentioned.{AreMentions, Tells, are_of, names_by_kind};
ghost use Rattle.vx_settling.specs.Tables.{listed};
ghost use Rattle.vx_resolved.specs.Resolved as resolved;

use crate::mentions::{Row, add_kind};
use crate::table::Table;
use std::alloc::{AllocError, Global};
use vx_graph::Edges;
use vx_resolved::Kind;

// The members that one mentions.
fn row_of(alloc: Global, table: &Table, kind: &Kind) -> Result<Row, AllocError>
    ensures { IfOk result (λ row. (b : ℕ) → is_in row.items b ≡ are_of (listed table.now) b (names_by_kind (resolved.kind kind.now))) }
{
    let mut row = Vec::new(alloc);
    add_kind(&mut row, table, kind)?;
    Ok(row)
}

// The members that each one mentions.
fn rows_of(alloc: Global, table: &Table) -> Result<Vec<Row>, AllocError>
    ensures { IfOk result (λ rows. Tells (listed table.now) rows.items (listed table.now)) }
{
    let mut rows = Vec::new(alloc);
    for m in &table.program.members {
        rows.push(row_of(alloc, table, &m.kind)?)?;
    }
    Ok(rows)
}

/// Which functions mention which, by their numbers.
pub(crate) fn edges_of(alloc: Global, table: &Table) -> Result<Edges, AllocError>
    ensures { IfOk result (λ edges. AreMentions (listed table.now) (rows edges)) }
{
    let rows = rows_of(alloc, table)?;
    let edges = Edges::of(alloc, rows)?;
    Ok(edges)
}

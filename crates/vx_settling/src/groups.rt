//! Which functions of a settled program are of one group: each leads to the other by what functions mention.

ghost use Rattle.std.specs.Prelude.{◌<◌, ◌^◌, IfOk, length};
ghost use Rattle.vx_graph.specs.Groups.{roots};
ghost use Rattle.vx_resolved.specs.Numbers.{AreGroups};
ghost use Rattle.vx_resolved.specs.Resolved as resolved;

use crate::edges::edges_of;
use crate::table::Table;
use std::alloc::{AllocError, Global};
use vx_graph::{Groups, all_groups};
use vx_resolved::Program;

/// Which functions of a program are of one group: each leads to the other by what functions mention.
///
/// # Errors
/// Memory runs out.
pub fn groups_of(alloc: Global, program: &Program) -> Result<Groups, AllocError>
    requires few { length program.now.members.items < 2 ^ 32 }
    ensures { IfOk result (λ g. AreGroups (roots g) (resolved.program program.now)) }
{
    let table = Table::new(alloc, program)?;
    let edges = edges_of(alloc, &table)?;
    let groups = all_groups(alloc, &edges)?;
    Ok(groups)
}

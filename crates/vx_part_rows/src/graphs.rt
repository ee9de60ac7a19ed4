//! Which members of a graph lead to which.

ghost use Rattle.std.specs.Prelude.{◌≡◌, ◌<◌, length};
ghost use Rattle.vx_graph.specs.Groups.{roots};
ghost use Rattle.vx_graph.specs.Views.{rows};

use std::alloc::{AllocError, Global};
use vx_ast::MemberId;
use vx_graph::{Edges, Groups, all_groups, are_in_range, group, reaches, rests};
use vx_table::Text;

// The edges that are written as `a>b`, of so many members; None: one isn't, or leads out of the members.
fn edges_of(alloc: Global, members: u32, text: &str) -> Result<Option<Edges>, AllocError> {
    let mut targets = Vec::new(alloc);
    for _ in 0..members {
        targets.push(Vec::new(alloc))?;
    }
    for pair in text.split_whitespace() {
        if !add_edge(&mut targets, pair)? {
            return Ok(None);
        }
    }
    if targets.len() > u32::MAX as usize || !are_in_range(&targets) {
        return Ok(None);
    }
    Ok(Some(Edges::of(alloc, targets)?))
}

// One more edge; false: it is none.
fn add_edge(targets: &mut [Vec<MemberId>], pair: &str) -> Result<bool, AllocError> {
    let Some((from, to)) = pair.split_once('>') else {
        return Ok(false);
    };
    let (Ok(from), Ok(to)) = (from.parse::<usize>(), to.parse()) else {
        return Ok(false);
    };
    match targets.get_mut(from) {
        Some(row) => {
            row.push(MemberId(to))?;
            Ok(true)
        }
        None => Ok(false),
    }
}

// Some members, or that there are none.
fn put_members(members: &[MemberId], out: &mut Text) {
    for member in members {
        out.put(" ");
        out.natural(u128::from(member.0));
    }
    if members.is_empty() {
        out.put(" none");
    }
}

// Those that a member reaches.
fn reached(
    alloc: Global,
    edges: &Edges,
    members: u32,
    from: MemberId,
) -> Result<Vec<MemberId>, AllocError>
    requires from { from.0 < length (rows edges.now) }
    requires members { members ≡ length (rows edges.now) }
{
    let mut found = Vec::new(alloc);
    for to in 0..members {
        if reaches(alloc, edges, from, MemberId(to))? {
            found.push(MemberId(to))?;
        }
    }
    Ok(found)
}

// What a member reaches, its group, and what it rests on.
fn put_member(
    alloc: Global,
    edges: &Edges,
    members: u32,
    at: MemberId,
    out: &mut Text,
) -> Result<(), AllocError>
    requires at { at.0 < length (rows edges.now) }
    requires members { members ≡ length (rows edges.now) }
{
    out.put("  ");
    out.natural(u128::from(at.0));
    out.put(" reaches");
    put_members(&reached(alloc, edges, members, at)?, out);
    out.put("; group");
    put_members(&group(alloc, edges, at)?, out);
    out.put("; rests on");
    put_members(&rests(alloc, edges, at)?, out);
    out.put("\n");
    Ok(())
}

// Those that are in one group with a member, from itself on; false: none is.
fn put_pairs(groups: &Groups, members: u32, a: u32, out: &mut Text) -> bool
    requires a { a < length (roots groups.now) }
    requires members { members ≡ length (roots groups.now) }
{
    let mut has_any = false;
    for b in a..members {
        if groups.are_together(MemberId(a), MemberId(b)) {
            out.put(" ");
            out.natural(u128::from(a));
            out.put("-");
            out.natural(u128::from(b));
            has_any = true;
        }
    }
    has_any
}

// The pairs that are in one group.
fn put_together(
    alloc: Global,
    edges: &Edges,
    members: u32,
    out: &mut Text,
) -> Result<(), AllocError>
    requires { members ≡ length (rows edges.now) }
{
    let groups = all_groups(alloc, edges)?;
    out.put("  together");
    let mut has_any = false;
    for a in 0..members {
        has_any |= put_pairs(&groups, members, a, out);
    }
    if !has_any {
        out.put(" none");
    }
    out.put("\n");
    Ok(())
}

// All of a graph.
fn put_all(alloc: Global, edges: &Edges, members: u32, out: &mut Text) -> Result<(), AllocError>
    requires { members ≡ length (rows edges.now) }
{
    for at in 0..members {
        put_member(alloc, edges, members, MemberId(at), out)?;
    }
    put_together(alloc, edges, members, out)
}

/// What the members of a graph reach, with their groups. The text is the number of members and the edges, as `2 0>1`.
///
/// # Errors
/// Want of memory.
pub fn put_graph(alloc: Global, text: &str, out: &mut Text) -> Result<(), AllocError> {
    let (members, edges) = text.split_once(' ').unwrap_or((text, ""));
    let members = members.parse().unwrap_or(0);
    match edges_of(alloc, members, edges)? {
        Some(edges) if edges.len() == members as usize => put_all(alloc, &edges, members, out),
        _ => {
            out.put("  no graph\n");
            Ok(())
        }
    }
}

//! What settling gives.

ghost use Rattle.std.specs.Prelude.{◌<◌, ◌^◌, length};
ghost use Rattle.vx_ast.specs.Apart.{KeepsApart};
ghost use Rattle.vx_graph.specs.Groups.{roots};
ghost use Rattle.vx_resolved.specs.Resolved as resolved;
ghost use Rattle.vx_resolved.specs.Numbers.{AreGroups, AreNumbers, AreRanks};

use crate::Program;
use crate::numbers::Numbers;
use vx_graph::Groups;

/// A settled program, none of whose members is entered within itself. Contracts see it as the list of its members,
/// `settled`.
pub struct Settled {
    pub program: Program,
    pub(crate) numbers: Numbers,
    // for each member, and behind them all, how many functions stand before it
    pub(crate) ranks: Vec<u32>,
    pub(crate) groups: Groups,
    ghost few: { length program.members.items < 2 ^ 32 },
    ghost are_numbers: { AreNumbers numbers 0 (resolved.program program) },
    ghost are_ranks: { AreRanks ranks.items (resolved.program program) },
    ghost are_groups: { AreGroups (roots groups) (resolved.program program) },
    ghost apart: { KeepsApart (resolved.program program) },
}

impl Drop for Settled {
    fn drop(self) {
        let Self {
            program,
            numbers,
            ranks,
            groups,
        } = self;
    }
}

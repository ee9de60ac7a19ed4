//! From question to question.

ghost use Rattle.std.specs.Prelude.{IfOk, List};
ghost use Rattle.vx_ast.specs.Syntax.{Program};
ghost use Rattle.vx_machine.specs.Growth.{FindsFrom};
ghost use Rattle.vx_machine.specs.Runs.{Turns, RunsTo};
ghost use Rattle.vx_resolved.specs.Settled.{settled};
ghost use Rattle.vx_rules.specs.Trees.{Tree};
ghost use Rattle.vx_stack.specs.declared.frame.Side.{Side as SideOf};
ghost use Rattle.vx_stack.specs.Stack.{side_tree, Stepped};

use crate::ready::{Ready, come_back};
use crate::tells::{LEVELS, tell};
use std::alloc::{AllocError, Global};
use vx_resolved::Settled;
use vx_stack::{Conts, Move, Query, Side};
use vx_steps::step;

/// What a turn of a side came to.
#[derive(Drop)]
enum Came {
    /// The side is over.
    Over,
    /// It goes on, on top of the stack; of a fork the one side does.
    On,
    Asks(Query),
}

/// A question that was come to.
#[derive(Drop)]
pub struct Found {
    pub query: Query,
    /// Whether what was on top of the stack at the start came to it: no side was over before.
    pub stays: bool,
}

/// What a step came to.
fn came_to(moved: Move) -> Came
    ensures { (p : Program) (t : Tree) (old new : List SideOf) → Stepped p t old moved new → Turns p t old result new }
{
    match moved {
        Move::End => Came::Over,
        Move::Leave(_left) => Came::Over,
        Move::Go => Came::On,
        Move::Fork => Came::On,
        Move::Check(query) => Came::Asks(query),
    }
}

/// One step, or the end of a side.
fn turn(alloc: Global, program: &Settled, side: Side, conts: &mut Conts) -> Result<Came, AllocError>
    ensures { IfOk result (λ came. Turns (settled program.now) (side_tree (settled program.now) side) conts.old.sides.items came conts.new.sides.items) }
{
    match come_back(alloc, side)? {
        Ready::Over => Ok(Came::Over),
        Ready::Telling(x, hole, state) => {
            let moved = tell(alloc, program, &x, &hole, state, LEVELS, conts)?;
            Ok(came_to(moved))
        }
        Ready::Plain(frame, state) => {
            let moved = step(alloc, program, &frame, state, conts)?;
            Ok(came_to(moved))
        }
    }
}

/// On to the next question, or to the end.
pub fn run(alloc: Global, program: &Settled, conts: &mut Conts) -> Result<Option<Found>, AllocError>
    ensures runs { IfOk result (λ found. RunsTo (settled program.now) conts.old.sides.items found conts.new.sides.items) }
    ensures stays { IfOk result (λ found. FindsFrom (settled program.now) conts.old.sides.items found conts.new.sides.items) }
{
    let mut stays = true;
    while let Some(side) = conts.sides.pop() {
        match turn(alloc, program, side, conts)? {
            Came::Over => stays = false,
            Came::On => {}
            Came::Asks(query) => return Ok(Some(Found { query, stays })),
        }
    }
    Ok(None)
}

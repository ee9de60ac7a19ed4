// Commands that are put at the end of others.
ghost use Rattle.std.specs.Prelude.{◌≡◌, ◌++◌, OnOk, map};
ghost use Rattle.vx_smt_meaning.specs.Views.{command, declared_symbol};
ghost use Rattle.vx_dialogue.specs.Preamble.{declarations};
ghost use Rattle.vx_dialogue.specs.Segments.{pops};

use std::alloc::{AllocError, Global};
use vx_smt_meaning::{Command, Declared};

/// Puts a declaration of each symbol at the end.
pub fn put_declarations(
    alloc: Global,
    commands: &mut Vec<Command>,
    symbols: &[Declared],
) -> Result<(), AllocError>
    ensures { OnOk result (map command commands.new.items ≡ map command commands.old.items ++ declarations (map declared_symbol symbols.now)) }
{
    for symbol in symbols {
        commands.push(Command::DeclareFun(symbol.copy(alloc)?))?;
    }
    Ok(())
}

/// Puts so many pops at the end.
pub fn put_pops(commands: &mut Vec<Command>, count: usize) -> Result<(), AllocError>
    ensures { OnOk result (map command commands.new.items ≡ map command commands.old.items ++ pops count) }
{
    for _ in 0..count {
        commands.push(Command::Pop(1))?;
    }
    Ok(())
}

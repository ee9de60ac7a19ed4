// The command of a solver, in parts.
ghost use Rattle.std.specs.Prelude.{◌≡◌, ◌==◌, ◌++◌, IfOk, map};
ghost use Rattle.std.specs.List.{slice_split};
ghost use Rattle.vx_words.specs.Solvers.{parts_in, filled_between_tabs};

use std::alloc::{AllocError, Global};
use vx_ends::Parts;

// What stands between spaces.
fn between_spaces<'t>(alloc: Global, text: &'t str) -> Result<Vec<&'t str>, AllocError>
    ensures { IfOk result (λ found. map (λ piece. piece.now) found.items ≡ slice_split (λ b. b == 32) text.entry.now) }
{
    text.split(' ').collect(alloc)
}

// What stands between tabs.
fn between_tabs<'t>(alloc: Global, text: &'t str) -> Result<Vec<&'t str>, AllocError>
    ensures { IfOk result (λ found. map (λ piece. piece.now) found.items ≡ slice_split (λ b. b == 9) text.entry.now) }
{
    text.split('\t').collect(alloc)
}

// The parts, and those of a text without spaces behind them.
fn with_parts(alloc: Global, parts: Parts, text: &str) -> Result<Parts, AllocError>
    ensures { IfOk result (λ more. more ≡ parts ++ filled_between_tabs text.now) }
{
    let found = between_tabs(alloc, text)?;
    let mut parts = parts;
    for piece in &found {
        if !piece.is_empty() {
            parts.push(alloc, piece)?;
        }
    }
    Ok(parts)
}

/// What stands between blanks, which are spaces and tabs, but for the empty parts.
pub fn parts_of(alloc: Global, text: &str) -> Result<Parts, AllocError>
    ensures { IfOk result (λ parts. parts ≡ parts_in text.now) }
{
    let found = between_spaces(alloc, text)?;
    let mut parts = Parts::new(alloc);
    for piece in &found {
        parts = with_parts(alloc, parts, piece)?;
    }
    Ok(parts)
}

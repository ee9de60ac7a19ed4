//! What is put before all else that is to be done.
ghost use Rattle.std.specs.Prelude.{◌≡◌, OnOk, IfSome, IfNone};
ghost use Rattle.vx_run.specs.Configs.{Setting, Config};
ghost use Rattle.vx_run.specs.Going.{gives};
ghost use Rattle.vx_run.specs.Frames.{act, rest, before};

use crate::frame::Frame;
use std::alloc::AllocError;

/// Puts it before all else that is to be done.
#[tactic(auto, using(crate::proofs::Steps::rest_more))]
pub fn put_off<'p>(frames: &mut Vec<Frame<'p>>, what: Frame<'p>) -> Result<(), AllocError>
    ensures { OnOk result ((t : Setting) → rest t frames.new.items ≡ before (act t what.entry) (rest t frames.old.items)) }
{
    frames.push(what)?;
    Ok(())
}

/// Puts off two things, of which the first is done first.
pub fn put_off_two<'p>(
    frames: &mut Vec<Frame<'p>>,
    first: Frame<'p>,
    second: Frame<'p>,
) -> Result<(), AllocError>
    ensures { OnOk result ((t : Setting) → rest t frames.new.items ≡ before (act t first.entry) (before (act t second.entry) (rest t frames.old.items))) }
{
    put_off(frames, second)?;
    put_off(frames, first)?;
    Ok(())
}

/// What comes next is taken off.
pub fn take_off<'p>(frames: &mut Vec<Frame<'p>>) -> Option<Frame<'p>>
    ensures some { IfSome result (λ f. (t : Setting) → rest t frames.old.items ≡ before (act t f) (rest t frames.new.items)) }
    ensures none { IfNone result ((t : Setting) (c : Config) → rest t frames.old.items c ≡ gives c) }
{
    match frames.pop() {
        Some(next) => Some(next),
        None => None,
    }
}

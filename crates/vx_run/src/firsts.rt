//! What statements do first: evaluations, takings and givings that are put before all else.
ghost use Rattle.std.specs.Prelude.{◌≡◌, OnOk};
ghost use Rattle.vx_ast.specs.Syntax.{joined};
ghost use Rattle.vx_frac.specs.Fraction.{fraction};
ghost use Rattle.vx_frac.specs.Fractions.{full};
ghost use Rattle.vx_resolved.specs.Resolved.{assertion, assertions, expr, exprs};
ghost use Rattle.vx_run.specs.Configs.{Setting};
ghost use Rattle.vx_run.specs.Frames.{rest, before};
ghost use Rattle.vx_run.specs.Tasks as tasks;

use crate::blame::Blame;
use crate::change::Change;
use crate::context::{Reading, When, Within};
use crate::frame::Frame;
use crate::frames::{put_off, put_off_two};
use crate::pending::Pending;
use crate::visit::{Manner, Visit};
use std::alloc::AllocError;
use std::rc::Rc;
use vx_ast::Place;
use vx_frac::Frac;
use vx_resolved::{Assertion, Expr, Exprs};

/// An expression is evaluated first.
pub fn evaluate_first<'p>(
    frames: &mut Vec<Frame<'p>>,
    level: u64,
    e: &'p Expr,
) -> Result<(), AllocError>
    ensures { OnOk result ((t : Setting) → rest t frames.new.items ≡ before (tasks.evaluated t level (expr e.now)) (rest t frames.old.items)) }
{
    let within = Within {
        level,
        blame: Blame::Itself,
    };
    let first = Pending::Evaluate(within, Reading::Permitted, When::Now, e);
    put_off(frames, Frame::Evaluate(first))?;
    Ok(())
}

/// Arguments are evaluated first.
pub fn evaluate_all_first<'p>(
    frames: &mut Vec<Frame<'p>>,
    level: u64,
    es: &'p Exprs,
) -> Result<(), AllocError>
    ensures { OnOk result ((t : Setting) → rest t frames.new.items ≡ before (tasks.evaluated_all t level (exprs es.now)) (rest t frames.old.items)) }
{
    let within = Within {
        level,
        blame: Blame::Itself,
    };
    let first = Pending::EvaluateAll(within, Reading::Permitted, When::Now, es);
    put_off(frames, Frame::Evaluate(first))?;
    Ok(())
}

/// So much of an assertion is taken first.
pub fn take_first<'p>(
    frames: &mut Vec<Frame<'p>>,
    k: Within,
    q: Frac,
    a: &'p Assertion,
) -> Result<(), AllocError>
    ensures { OnOk result ((t : Setting) → rest t frames.new.items ≡ before (tasks.taking t k (fraction q) (assertion a.now)) (rest t frames.old.items)) }
{
    let first = Visit::Whole(k, Manner::Take(q), a);
    put_off_two(
        frames,
        Frame::Change(Change::StartTaking),
        Frame::Visit(first),
    )?;
    Ok(())
}

/// Joined clauses are taken first.
pub fn take_all_first<'p>(
    frames: &mut Vec<Frame<'p>>,
    k: Within,
    at: Place,
    all: &'p [Rc<Assertion>],
) -> Result<(), AllocError>
    ensures { OnOk result ((t : Setting) → rest t frames.new.items ≡ before (tasks.taking t k full (joined at (assertions all.now))) (rest t frames.old.items)) }
{
    let first = Visit::All(k, Manner::Take(Frac::whole(1)), at, all);
    put_off_two(
        frames,
        Frame::Change(Change::StartTaking),
        Frame::Visit(first),
    )?;
    Ok(())
}

/// An assertion is given first.
pub fn give_first<'p>(
    frames: &mut Vec<Frame<'p>>,
    k: Within,
    a: &'p Assertion,
) -> Result<(), AllocError>
    ensures { OnOk result ((t : Setting) → rest t frames.new.items ≡ before (tasks.giving t k full (assertion a.now)) (rest t frames.old.items)) }
{
    let first = Visit::Whole(k, Manner::Give(Frac::whole(1)), a);
    put_off(frames, Frame::Visit(first))?;
    Ok(())
}

/// Joined clauses are given first, with values chosen.
pub fn give_all_first<'p>(
    frames: &mut Vec<Frame<'p>>,
    k: Within,
    at: Place,
    all: &'p [Rc<Assertion>],
) -> Result<(), AllocError>
    ensures { OnOk result ((t : Setting) → rest t frames.new.items ≡ before (tasks.giving t k full (joined at (assertions all.now))) (rest t frames.old.items)) }
{
    let first = Visit::All(k, Manner::Give(Frac::whole(1)), at, all);
    put_off(frames, Frame::Visit(first))?;
    Ok(())
}

/// Joined clauses are given first, and no value is chosen.
pub fn give_all_again_first<'p>(
    frames: &mut Vec<Frame<'p>>,
    k: Within,
    at: Place,
    all: &'p [Rc<Assertion>],
) -> Result<(), AllocError>
    ensures { OnOk result ((t : Setting) → rest t frames.new.items ≡ before (tasks.giving_again t k full (joined at (assertions all.now))) (rest t frames.old.items)) }
{
    let first = Visit::All(k, Manner::GiveAgain(Frac::whole(1)), at, all);
    put_off(frames, Frame::Visit(first))?;
    Ok(())
}

/// So much of an assertion is given first, and no value is chosen.
pub fn give_again_first<'p>(
    frames: &mut Vec<Frame<'p>>,
    k: Within,
    q: Frac,
    a: &'p Assertion,
) -> Result<(), AllocError>
    ensures { OnOk result ((t : Setting) → rest t frames.new.items ≡ before (tasks.giving_again t k (fraction q) (assertion a.now)) (rest t frames.old.items)) }
{
    let first = Visit::Whole(k, Manner::GiveAgain(q), a);
    put_off(frames, Frame::Visit(first))?;
    Ok(())
}

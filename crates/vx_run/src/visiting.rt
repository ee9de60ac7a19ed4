//! Assertions, step by step: what each form puts off.
ghost use Rattle.std.specs.Prelude.{◌≡◌, ℕ, Bool, OnOk};
ghost use Rattle.vx_meaning.specs.Flatten.{bare};
ghost use Rattle.vx_meaning.specs.Values as meaning;
ghost use Rattle.vx_meaning.specs.States.{Holdings as Holdings'};
ghost use Rattle.vx_resolved.specs.Resolved.{expr, assertion, assertions};
ghost use Rattle.vx_ast.specs.Syntax.{joined};
ghost use Rattle.vx_run.specs.Going.{Going, Supply, continued, gives, when};
ghost use Rattle.vx_run.specs.Blame.{within};
ghost use Rattle.vx_run.specs.Evaluated.{decided};
ghost use Rattle.vx_run.specs.Configs as config;
ghost use Rattle.vx_run.specs.Configs.{Setting, in_state, with_taking};
ghost use Rattle.vx_run.specs.ConfigViews.{config_of};
ghost use Rattle.vx_run.specs.Frames.{act, rest, before, Follows};
ghost use Rattle.vx_run.specs.Pending as pending;
ghost use Rattle.vx_run.specs.Views.{value};
ghost use Rattle.vx_run.specs.Visits as visits;
ghost use Rattle.vx_run.specs.Visits.{came, asked_of, side_of, reading_of, value_in, visiting, HasTaking, IsReady};
ghost use Rattle.vx_run.specs.declared.visit.Visit.TheVariants.{Ask, Imply, Choose};
ghost use Rattle.vx_run.specs.declared.frame.Frame.TheVariants as frame;
ghost use Rattle.vx_ast.specs.Syntax as syntax;

use crate::blame::Blame;
use crate::context::{Reading, When, Within};
use crate::finding::{put_taking, take_one, take_taking};
use crate::frame::Frame;
use crate::frames::{put_off, put_off_two};
use crate::halt::Halt;
use crate::holdings::Holdings;
use crate::outcome::Whole;
use crate::pending::Pending;
use crate::places::place_of;
use crate::state::Config;
use crate::values::Value;
use crate::visit::{Manner, Visit};
use std::alloc::{AllocError, Global};
use std::mem;
use std::rc::Rc;
use vx_ast::Place;
use vx_resolved::{Assertion, Expr};

/// How the parts of an assertion are read.
fn reading(m: Manner) -> Reading
    ensures { pending.reading result ≡ reading_of m }
{
    match m {
        Manner::Take(_) => Reading::Permitted,
        Manner::Add(_) => Reading::Permitted,
        Manner::GiveAgain(_) => Reading::Permitted,
        Manner::Give(_) => Reading::Permitted,
        Manner::Fill(_, _, _) => Reading::Free,
    }
}

/// Puts off an expression, and what is done with its value.
fn put_part<'p>(
    frames: &mut Vec<Frame<'p>>,
    k: Within,
    m: Manner,
    e: &'p Expr,
    then: Visit<'p>,
) -> Result<(), AllocError>
    ensures { OnOk result ((t : Setting) → rest t frames.new.items ≡ before (value_in t k m (expr e.now)) (before (act t (frame.Visit then.entry)) (rest t frames.old.items))) }
{
    let first = Pending::Evaluate(k, reading(m), When::Now, e);
    put_off_two(frames, Frame::Evaluate(first), Frame::Visit(then))?;
    Ok(())
}

/// Puts the parts of an assertion off.
fn begin<'p>(
    frames: &mut Vec<Frame<'p>>,
    k: Within,
    m: Manner,
    a: &'p Assertion,
) -> Result<(), AllocError>
    ensures { OnOk result ((t : Setting) (c : config.Config) → IsReady m c → rest t frames.new.items c ≡ before (visiting t k m (assertion a.now)) (rest t frames.old.items) c) }
{
    match a {
        Assertion::Pure(e) => {
            let at = place_of(e);
            put_part(frames, k, m, e, Visit::Ask(k.blame, m, at))?;
            Ok(())
        }
        Assertion::Points(at, e, f, share) => {
            put_part(frames, k, m, share, Visit::Points(k, m, *at, f))?;
            let first = Pending::Evaluate(k, reading(m), When::Now, e);
            put_off(frames, Frame::Evaluate(first))?;
            Ok(())
        }
        Assertion::Instance(at, i, es, share) => {
            put_part(frames, k, m, share, Visit::Folded(k, m, *at, i))?;
            let first = Pending::EvaluateAll(k, reading(m), When::Now, es);
            put_off(frames, Frame::Evaluate(first))?;
            Ok(())
        }
        Assertion::Both(a, b) => {
            put_off_two(
                frames,
                Frame::Visit(Visit::Whole(k, m, a)),
                Frame::Visit(Visit::Whole(k, m, b)),
            )?;
            Ok(())
        }
        Assertion::Implied(c, a) => {
            let at = place_of(c);
            put_part(frames, k, m, c, Visit::Imply(k, m, at, a))?;
            Ok(())
        }
        Assertion::Chosen(c, a, b) => {
            let at = place_of(c);
            put_part(frames, k, m, c, Visit::Choose(k, m, at, a, b))?;
            Ok(())
        }
    }
}

/// The state has only its variables and its heap.
pub fn make_bare(alloc: Global, of: &mut Config) -> Result<(), AllocError>
    ensures { OnOk result (config_of of.new ≡ in_state (bare (config_of of.old).state.store (config_of of.old).state.heap) (config_of of.old)) }
{
    let old_heap = of.state.heap.clone()?;
    let holdings = Holdings::none(alloc)?;
    let old_holdings = Holdings::none(alloc)?;
    let _heap = mem::replace(&mut of.state.old_heap, old_heap);
    let _holdings = mem::replace(&mut of.state.holdings, holdings);
    let _old_holdings = mem::replace(&mut of.state.old_holdings, old_holdings);
    Ok(())
}

/// Makes sure that there is a taking.
pub fn hold_taking(of: &mut Config) -> Result<(), Halt>
    ensures there { OnOk result (HasTaking (config_of of.new).takings) }
    ensures same { (f : Holdings' → config.Config → Going ℕ config.Config) (l : Supply ℕ) → Follows result (with_taking (config_of of.new) f l) (with_taking (config_of of.old) f l) }
{
    match take_taking(of) {
        None => Err(Halt::Over(Whole::Running)),
        Some(h) => {
            put_taking(of, h)?;
            Ok(())
        }
    }
}

/// Makes sure that what a manner carries is there.
fn prepare(alloc: Global, of: &mut Config, m: Manner) -> Result<(), Halt>
    ensures ready { OnOk result (IsReady m (config_of of.new)) }
    ensures same { (t : Setting) (k : Within) (a : syntax.Assertion) (l : Supply ℕ) → Follows result (visiting t k m a (config_of of.new) l) (visiting t k m a (config_of of.old) l) }
{
    match m {
        Manner::Take(_) => hold_taking(of),
        Manner::Fill(_, _, _) => {
            hold_taking(of)?;
            make_bare(alloc, of)?;
            Ok(())
        }
        Manner::Add(_) | Manner::GiveAgain(_) | Manner::Give(_) => Ok(()),
    }
}

/// A whole assertion.
pub fn visit_whole<'p>(
    alloc: Global,
    frames: &mut Vec<Frame<'p>>,
    of: &mut Config,
    k: Within,
    m: Manner,
    a: &'p Assertion,
) -> Result<(), Halt>
    ensures { (t : Setting) (l : Supply ℕ) → Follows result (rest t frames.new.items (config_of of.new) l) (before (visiting t k m (assertion a.now)) (rest t frames.old.items) (config_of of.old) l) }
{
    prepare(alloc, of, m)?;
    begin(frames, k, m, a)?;
    Ok(())
}

/// Clauses of one kind.
pub fn visit_all<'p>(
    alloc: Global,
    frames: &mut Vec<Frame<'p>>,
    of: &mut Config,
    k: Within,
    m: Manner,
    at: Place,
    all: &'p [Rc<Assertion>],
) -> Result<(), Halt>
    ensures { (t : Setting) (l : Supply ℕ) → Follows result (rest t frames.new.items (config_of of.new) l) (before (visiting t k m (joined at (assertions all.now))) (rest t frames.old.items) (config_of of.old) l) }
{
    prepare(alloc, of, m)?;
    match all.split_first() {
        None => Ok(()),
        Some((a, others)) => {
            put_off_two(
                frames,
                Frame::Visit(Visit::Whole(k, m, a)),
                Frame::Visit(Visit::All(k, m, at, others)),
            )?;
            Ok(())
        }
    }
}

/// Whether a value is `true`.
fn is_true(v: Value) -> bool
    ensures { result ≡ meaning.is_true (value v) }
{
    match v {
        Value::Bool(b) => b,
        Value::Int(_) | Value::Ref(_) | Value::Perm(_) => false,
    }
}

/// What comes of a pure part that holds or doesn't.
fn asked(m: Manner, at: Place, holds: bool) -> Result<(), Whole>
    ensures { came (λ u. tt) result ≡ asked_of m at holds }
{
    if holds {
        return Ok(());
    }
    match m {
        Manner::Take(_) => Err(Whole::Failed(at)),
        Manner::Add(_) => Ok(()),
        Manner::GiveAgain(_) => Err(Whole::Stopped(at)),
        Manner::Give(_) => Err(Whole::Stopped(at)),
        Manner::Fill(_, _, _) => Err(Whole::Failed(at)),
    }
}

/// The run goes on where a pure part says so.
fn answered(b: Blame, answer: Result<(), Whole>) -> Result<(), Halt>
    ensures { (m : Going ℕ (Unit {0})) → came (λ u. tt) answer ≡ m → (d : config.Config) (l : Supply ℕ) → Follows result (gives d l) (continued (within b m l) (λ u. gives d)) }
{
    match answer {
        Ok(()) => Ok(()),
        Err(end) => Err(Halt::Over(b.counted(end))),
    }
}

/// Whether the newest value holds, as a pure part.
pub fn ask_newest(of: &mut Config, b: Blame, m: Manner, at: Place) -> Result<(), Halt>
    ensures { (t : Setting) (l : Supply ℕ) → Follows result (gives (config_of of.new) l) (visits.act t (Ask b m at) (config_of of.old) l) }
{
    match take_one(of) {
        None => Err(Halt::Over(Whole::Running)),
        Some(v) => answered(b, asked(m, at, is_true(v))),
    }
}

/// The truth that a condition has to be.
fn decided(at: Place, v: Value) -> Result<bool, Whole>
    ensures { came (λ b. b) result ≡ decided at (value v) }
{
    match v {
        Value::Bool(b) => Ok(b),
        Value::Int(_) | Value::Ref(_) | Value::Perm(_) => Err(Whole::Failed(at)),
    }
}

/// Which side a condition takes.
fn side(m: Manner, at: Place, v: Value) -> Result<bool, Whole>
    ensures { came (λ b. b) result ≡ side_of m at (value v) }
{
    match m {
        Manner::Take(_) => decided(at, v),
        Manner::Add(_) => decided(at, v),
        Manner::GiveAgain(_) => Ok(is_true(v)),
        Manner::Give(_) => Ok(is_true(v)),
        Manner::Fill(_, _, _) => decided(at, v),
    }
}

/// Puts a part off, or none, by a condition.
fn imply<'p>(
    frames: &mut Vec<Frame<'p>>,
    k: Within,
    m: Manner,
    holds: Result<bool, Whole>,
    a: &'p Assertion,
) -> Result<(), Halt>
    ensures { (t : Setting) (s : Going ℕ Bool) → came (λ b. b) holds ≡ s → (d : config.Config) (l : Supply ℕ) → Follows result (rest t frames.new.items d l) (before (λ x j. continued (within k.blame s j) (λ b. when b (visiting t k m (assertion a.now) x) (gives x))) (rest t frames.old.items) d l) }
{
    match holds {
        Ok(b) => {
            if b {
                put_off(frames, Frame::Visit(Visit::Whole(k, m, a)))?;
                return Ok(());
            }
            Ok(())
        }
        Err(end) => Err(Halt::Over(k.blame.counted(end))),
    }
}

/// A part, or none, by the newest value.
pub fn imply_newest<'p>(
    frames: &mut Vec<Frame<'p>>,
    of: &mut Config,
    k: Within,
    m: Manner,
    at: Place,
    a: &'p Assertion,
) -> Result<(), Halt>
    ensures { (t : Setting) (l : Supply ℕ) → Follows result (rest t frames.new.items (config_of of.new) l) (before (visits.act t (Imply k m at a.entry)) (rest t frames.old.items) (config_of of.old) l) }
{
    match take_one(of) {
        None => Err(Halt::Over(Whole::Running)),
        Some(v) => imply(frames, k, m, side(m, at, v), a),
    }
}

/// Puts one of two off by a condition.
fn choose<'p>(
    frames: &mut Vec<Frame<'p>>,
    k: Within,
    m: Manner,
    holds: Result<bool, Whole>,
    a: &'p Assertion,
    b: &'p Assertion,
) -> Result<(), Halt>
    ensures { (t : Setting) (s : Going ℕ Bool) → came (λ b. b) holds ≡ s → (d : config.Config) (l : Supply ℕ) → Follows result (rest t frames.new.items d l) (before (λ x j. continued (within k.blame s j) (λ y. when y (visiting t k m (assertion a.now) x) (visiting t k m (assertion b.now) x))) (rest t frames.old.items) d l) }
{
    match holds {
        Ok(first) => {
            if first {
                put_off(frames, Frame::Visit(Visit::Whole(k, m, a)))?;
                return Ok(());
            }
            put_off(frames, Frame::Visit(Visit::Whole(k, m, b)))?;
            Ok(())
        }
        Err(end) => Err(Halt::Over(k.blame.counted(end))),
    }
}

/// One of two by the newest value.
pub fn choose_newest<'p>(
    frames: &mut Vec<Frame<'p>>,
    of: &mut Config,
    k: Within,
    m: Manner,
    at: Place,
    a: &'p Assertion,
    b: &'p Assertion,
) -> Result<(), Halt>
    ensures { (t : Setting) (l : Supply ℕ) → Follows result (rest t frames.new.items (config_of of.new) l) (before (visits.act t (Choose k m at a.entry b.entry)) (rest t frames.old.items) (config_of of.old) l) }
{
    match take_one(of) {
        None => Err(Halt::Over(Whole::Running)),
        Some(v) => choose(frames, k, m, side(m, at, v), a, b),
    }
}
